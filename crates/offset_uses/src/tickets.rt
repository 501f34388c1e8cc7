//! What is read of a stored space with tickets.

ghost use Rattle.std.specs.Prelude.{◌≡◌, IfErr, IfOk};
ghost use Rattle.offset_allocator.specs.declared.states.state.ReadError.TheVariants.{Memory};
ghost use Rattle.offset_guarded.specs.Guard.{IsCopy, KeepsAll};

use offset_allocator::{ReadError, Tables};
use offset_guarded::laws::a_state_is_read_back;
use offset_guarded::{GuardedOf, StateFault};
use std::alloc::Global;

/// What is read of the bytes that a space is written to: the same space, the same realm and the same serials.
/// So each ticket has the range that it has there, or none.
pub fn written_and_read<T: Tables>(
    space: &GuardedOf<T>,
    alloc: Global,
) -> Result<GuardedOf<T>, ReadError<StateFault>>
    ensures read { IfErr result (λ e. e ≡ Memory) }
    ensures same { IfOk result (IsCopy space.now) }
    ensures tickets { IfOk result (KeepsAll space.now) }
{
    // what is written is a state of one space at most, and this one may be read
    a_state_is_read_back(space);
    let bytes = space.write_state(alloc)?;
    GuardedOf::read_state(alloc, &bytes, space.allocator().max_allocs())
}
