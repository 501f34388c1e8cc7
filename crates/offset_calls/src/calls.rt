//! Calls, and the replies to them. It touches no space.

ghost use Rattle.std.specs.Prelude.{◌≡◌, ◌↔◌, All, IsTrue, if◌then◌else◌};
ghost use Rattle.offset_script.specs.Machine as machine;
ghost use Rattle.offset_calls.specs.Calls.{is_valid, reply_view};
ghost use Rattle.offset_calls.specs.Calls as plain;
ghost use Rattle.offset_calls.specs.Steps.{begins_at};

use offset_allocator::{Refusal, RoomCost};
use offset_script::{Answer, Command};

/// A call to an allocator. Sizes are in units of the space. A range is named by the number of its grant:
/// grants are numbered from 1 in their order, as in a script.
#[derive(Clone, Copy, PartialEq, Debug)]
pub enum Call {
    /// A command of a script.
    Command(Command),
    /// Shrinks the range of this number to this many units.
    Shrink(u32, u32),
    /// Grows the range of this number in place, to this many units.
    Grow(u32, u32),
    /// Slides every live range to the front of the space.
    Compact,
    /// Slides live ranges to the front of the space by multiples of this many units, which are at least 1, as
    /// `compact_by` does.
    CompactBy(u32),
    /// Slides as `CompactBy` of the first number does, from the offset that is the second number on, live ranges
    /// of at most as many units as the third number in all, and at most as many of them as the fourth, or one
    /// range alone, as `compact_within` does.
    CompactWithin(u32, u32, u32, u32),
    /// Asks where the range of this number begins.
    Offset(u32),
    /// Asks why a request for this many units would be refused now.
    Refusal(u32),
    /// Asks the same of a request for this many units from a multiple of the second number on, which is at
    /// least 1.
    RefusalAligned(u32, u32),
    /// Requests this many units of any free block that has them.
    AllocateTight(u32),
    /// Requests this many units from a multiple of the second number on, which is at least 1, of any free
    /// block that holds them.
    AllocateTightAligned(u32, u32),
    /// Requests, from the offset that is the first number on, as many units as the second says, as `allocate_at`
    /// does.
    AllocateAt(u32, u32),
    /// Asks why `AllocateTight` of this many units would be refused now.
    RefusalTight(u32),
    /// Asks why `AllocateTightAligned` of these numbers would be refused now.
    RefusalTightAligned(u32, u32),
    /// Asks where the range would begin that `Align` of these numbers would grant now, as `would_begin` does;
    /// with 1 as the second number that of `Alloc`.
    WouldBegin(u32, u32),
    /// Slides the live ranges with the fewest units so that a request for this many units finds its block.
    MakeRoom(u32),
    /// Slides live ranges by multiples of the third number of units, which is at least 1: those with the fewest
    /// units so that a request for this many units from a multiple of the second number on, at least 1 too,
    /// finds its block, as `make_room_by` does.
    MakeRoomBy(u32, u32, u32),
    /// Asks what `MakeRoom` of this many units would have to move now.
    RoomCost(u32),
    /// Asks what `MakeRoomBy` of these numbers would have to move now.
    RoomCostBy(u32, u32, u32),
    /// Requests a second range of as many units as that of this number, which begins before it, as
    /// `relocate` does. The old one stays live.
    Relocate(u32),
    /// As `Relocate`, from a multiple of the second number on, which is at least 1.
    RelocateAligned(u32, u32),
    /// Takes this many free units off the end of the space. Where `Extend` has just added as many, the
    /// blocks are as they were before both, but that a free one at the end is the newest of its bin, or
    /// gone where it has no units and is not the only one.
    Retract(u32),
    /// Asks which live range is the first one in space.
    FirstLive,
    /// Asks which live range is the last one in space.
    LastLive,
    /// Asks which live range is directly before that of this number.
    LiveBefore(u32),
    /// Asks which live range is directly after that of this number.
    LiveAfter(u32),
}

impl Call {
    /// Whether its alignment and its step are at least 1, where it has them.
    ///
    /// ```
    /// assert!(!Call::AllocateTightAligned(300, 0).is_valid());
    /// assert!(!Call::CompactBy(0).is_valid());
    /// ```
    pub fn is_valid(&self) -> bool
        ensures { result ≡ is_valid self.now }
    {
        match self {
            Call::Command(Command::Align(_, align)) => *align >= 1,
            Call::RefusalAligned(_, align) => *align >= 1,
            Call::AllocateTightAligned(_, align) => *align >= 1,
            Call::RefusalTightAligned(_, align) => *align >= 1,
            Call::WouldBegin(_, align) => *align >= 1,
            Call::RelocateAligned(_, align) => *align >= 1,
            Call::CompactBy(step) => *step >= 1,
            Call::CompactWithin(step, _, _, _) => *step >= 1,
            Call::MakeRoomBy(_, align, step) => *align >= 1 && *step >= 1,
            Call::RoomCostBy(_, align, step) => *align >= 1 && *step >= 1,
            _ => true,
        }
    }
}

/// Whether each alignment and each step in these calls is at least 1.
///
/// ```
/// assert!(are_valid(&[Call::AllocateTightAligned(300, 12), Call::Compact]));
/// ```
pub fn are_valid(calls: &[Call]) -> bool
    ensures { IsTrue result ↔ All (λ c. IsTrue (is_valid c)) calls.now }
{
    calls.iter().all(|call| call.is_valid())
}

/// A range that a call moves to another offset: `Compact`, `CompactBy`, `CompactWithin`, `MakeRoom` or
/// `MakeRoomBy`.
#[derive(Clone, Copy, PartialEq, Debug)]
pub struct Moved {
    /// The number of its grant.
    pub number: u64,
    /// The offset that it had.
    pub from: u32,
    /// The offset that it has after the move.
    pub to: u32,
    /// Its units.
    pub size: u32,
}

/// A live range: the number of its grant, and where it begins.
#[derive(Clone, Copy, PartialEq, Debug)]
pub struct LiveRange {
    /// The number of its grant.
    pub number: u64,
    /// Its offset.
    pub offset: u32,
}

/// The reply to one call.
#[derive(Drop, Debug)]
pub enum Reply {
    /// The answer to a command. Of another call, `Grant`: the range that was requested; `Gone`: no grant of
    /// that number is live; or `Refused`: no such range is granted, or would be, the range cannot shrink or grow to that
    /// size, the end has not that many free units, or the node limit admits no block for what a compaction by
    /// steps leaves behind its ranges. After `Gone` and `Refused` the space is as it was.
    Answer(Answer),
    /// The range, or the space, has the new size.
    Resized,
    /// The ranges that the compaction moved, in space order.
    Compacted(Vec<Moved>),
    /// Where the next compaction within a budget goes on, or `None` where this one came to the end of the space;
    /// and the ranges that it moved, in space order.
    CompactedWithin(Option<u32>, Vec<Moved>),
    /// Where the range begins, or would begin.
    Offset(u32),
    /// Why the request would be refused, or `None` where it would be granted.
    Refusal(Option<Refusal>),
    /// What was moved to make room, or `None` where nothing would do, as `RoomCost` says it; and the ranges that
    /// were moved, in space order.
    RoomMade(Option<RoomCost>, Vec<Moved>),
    /// What would have to be moved, or `None` where all free units together are not enough, or by steps where no
    /// run of blocks gives up enough units and nodes.
    RoomCost(Option<RoomCost>),
    /// The live range that was asked for, or `None` where there is none.
    Found(Option<LiveRange>),
}

// The reply to a call that was to resize a range, or the space.
pub(crate) fn resized(done: bool) -> Reply
    ensures { reply_view result ≡ (if done then plain.Resized else plain.Answer machine.Refused) }
{
    if done {
        Reply::Resized
    } else {
        Reply::Answer(Answer::Refused)
    }
}

// The reply to `WouldBegin`.
pub(crate) fn begins(offset: Option<u32>) -> Reply
    ensures { reply_view result ≡ begins_at offset }
{
    match offset {
        None => Reply::Answer(Answer::Refused),
        Some(offset) => Reply::Offset(offset),
    }
}
