//! The step of a space: by what its ranges can move, and keep the alignments that were asked for. It changes no
//! space, and no serial.
ghost use Rattle.std.specs.Prelude.{ℕ, ◌≡◌, ◌↔◌, ◌*◌, ◌≤◌, IfSome, None};
ghost use Rattle.std.specs.Int.{◌∣◌, IsGcd};
ghost use Rattle.offset_guarded.specs.Answers.{RaisesStep};
ghost use Rattle.offset_guarded.specs.Step.{IsJoined};

use crate::GuardedOf;
use offset_allocator::Tables;

/// The greatest common divisor, by Euclid.
pub(crate) fn common_divisor(first: u32, second: u32) -> u32
    ensures common { IsGcd first second result }
    // What divides a multiple of both by one number divides that multiple of it.
    ensures multiples { (z n : ℕ) → z ∣ first * n → z ∣ second * n → z ∣ result * n }
{
    let mut divisor = first;
    let mut rest = second;
    while rest != 0 {
        let next = divisor % rest;
        divisor = rest;
        rest = next;
    }
    divisor
}

// The least common multiple, or 0 where that has more than 32 bits. It is out of line, since a space has few
// alignments.
#[inline(never)]
fn common_multiple(step: u32, align: u32) -> u32
    requires { 1 ≤ align }
    ensures { IsJoined step align result }
{
    let divisor = common_divisor(step, align);
    let multiple = (step / divisor) as u64 * align as u64;
    if multiple > u32::MAX as u64 {
        0
    } else {
        multiple as u32
    }
}

/// The step after a grant at a multiple of `align`.
#[inline(always)]
pub(crate) fn joined(step: u32, align: u32) -> u32
    requires { 1 ≤ align }
    ensures { IsJoined step align result }
{
    if step % align == 0 {
        return step;
    }
    common_multiple(step, align)
}

impl<T: Tables> GuardedOf<T> {
    // The step, or 0 where there is none.
    pub(crate) fn step_number(&self) -> u32
        ensures { result ≡ self.now.step }
    {
        self.step
    }

    /// The step: the least common multiple of the alignments of all requests that were granted, and of the numbers
    /// that `raise_step` was given, since the space was made or reset. It is 1 at first. Moves by multiples of it
    /// keep each of these alignments.
    ///
    /// `None` is returned where it would have more than 32 bits: then no move keeps them all. It stays so until a
    /// `reset`.
    ///
    /// ```
    /// assert_eq!(guarded.step(), Some(1));
    /// guarded.allocate_aligned(100, 12);
    /// guarded.allocate_aligned(100, 32);
    /// assert_eq!(guarded.step(), Some(96));
    /// ```
    pub fn step(&self) -> Option<u32>
        ensures none { result ≡ None ↔ (self.now.step ≡ 0) }
        ensures some { IfSome result (λ s. s ≡ self.now.step) }
    {
        match self.step_number() {
            0 => None,
            step => Some(step),
        }
    }

    /// Takes an alignment, from 1 on, into the step, as a granted request for it does. It is for ranges whose
    /// alignment no request says: those at places that were given, or of sizes that are multiples of it.
    ///
    /// ```
    /// guarded.raise_step(256);
    /// guarded.allocate_at(512, 256);
    /// assert_eq!(guarded.step(), Some(256));
    /// ```
    pub fn raise_step(&mut self, align: u32)
        requires alignment { 1 ≤ align }
        // Nothing else changes.
        ensures { RaisesStep align self.old self.new }
    {
        self.step = joined(self.step, align);
    }
}
