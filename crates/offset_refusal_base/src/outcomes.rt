//! The ways in which a call can fail.

ghost use Rattle.std.specs.Prelude.{◌≡◌};
ghost use Rattle.offset_refusal_base.specs.declared.outcomes.Failure.TheVariants.{OutOfMemory};

use std::alloc::AllocError;

/// Why a call returned no result.
#[derive(Clone, Copy)]
pub enum Failure {
    /// An allocation failed.
    OutOfMemory,
    /// The text is no script. Its fault is in the cells.
    Faulty,
    /// The source or the sink failed.
    Device,
    /// The call needs a script, and the text is none.
    Unfit,
}

impl From<AllocError> for Failure {
    ghost from_gives = { λ _ e. e ≡ OutOfMemory };

    fn from(_e: AllocError) -> Failure {
        Failure::OutOfMemory
    }
}

/// The number that is printed: 0 for a result, else the place of the failure in its enum, from 1.
pub fn code(outcome: Result<(), Failure>) -> u32 {
    match outcome {
        Ok(()) => 0,
        Err(failure) => 1 + u32::from(failure as u8),
    }
}
