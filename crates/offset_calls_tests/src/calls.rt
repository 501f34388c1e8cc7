//! Lists of calls, with replies computed by hand, for each layout and index type.

use crate::asserts::{assert_same, assert_text, assert_that};
use crate::layouts::{Trial, expect_of_each};
use offset_allocator::{NodeIndex, Tables};
use offset_calls::{Call, Reply, are_valid, play_calls_of};
use offset_script::Command;
use std::alloc::Global;
use std::process::Abort;

/// A space and its limit, and calls on it with the texts of their replies.
#[derive(Clone, Copy)]
pub struct List {
    pub size: u32,
    pub limit: u32,
    pub rows: &'static [(Call, &'static str)],
}

// Resizes and compactions.
const RESIZES: List = List {
    size: 100,
    limit: 16,
    rows: &[
        (
            Call::Command(Command::Alloc(10)),
            "Answer(Grant { number: 1, offset: 0 })",
        ),
        (
            Call::Command(Command::Alloc(20)),
            "Answer(Grant { number: 2, offset: 10 })",
        ),
        (
            Call::Command(Command::Alloc(30)),
            "Answer(Grant { number: 3, offset: 30 })",
        ),
        (Call::Shrink(2, 5), "Resized"),
        (Call::Offset(3), "Offset(30)"),
        // 10 and 5 live, 15 free, 30 live, 40 free
        (
            Call::Compact,
            "Compacted([Moved { number: 3, from: 30, to: 15, size: 30 }])",
        ),
        (Call::Offset(3), "Offset(15)"),
        (Call::Grow(3, 50), "Resized"),
        (Call::Grow(3, 86), "Answer(Refused)"),
        (Call::Grow(3, 49), "Answer(Refused)"),
        (Call::Grow(3, 50), "Resized"),
        (Call::Grow(1, 11), "Answer(Refused)"),
        (Call::Shrink(1, 11), "Answer(Refused)"),
        (Call::Shrink(4, 1), "Answer(Gone)"),
        (Call::Command(Command::Free(1)), "Answer(Freed)"),
        (Call::Grow(1, 20), "Answer(Gone)"),
        (Call::Offset(1), "Answer(Gone)"),
        (Call::Offset(0), "Answer(Gone)"),
        // 10 free, 5 and 50 live, 35 free
        (Call::Refusal(36), "Refusal(Some(Fragmented))"),
        (Call::Refusal(44), "Refusal(Some(Fragmented))"),
        (Call::Refusal(45), "Refusal(Some(Space))"),
        (Call::Refusal(46), "Refusal(Some(Space))"),
        (Call::Refusal(96), "Refusal(Some(Space))"),
        (Call::Refusal(97), "Refusal(Some(TooLarge))"),
        (Call::Refusal(10), "Refusal(None)"),
        (
            Call::Compact,
            "Compacted([Moved { number: 2, from: 10, to: 0, size: 5 }, Moved { number: 3, from: 15, to: 5, size: 50 }])",
        ),
        (Call::Compact, "Compacted([])"),
        (Call::Command(Command::Size(3)), "Answer(Size(50))"),
        // the class of a block of 45 units has the value 44
        (
            Call::Command(Command::Report),
            "Answer(Report(StorageReport { total_free_space: 45, largest_free_region: 44 }))",
        ),
        (Call::Command(Command::Reset), "Answer(Reset)"),
        (Call::Offset(3), "Answer(Gone)"),
        (Call::RefusalAligned(97, 8), "Refusal(Some(TooLarge))"),
        (Call::RefusalAligned(8, 8), "Refusal(None)"),
        (
            Call::Command(Command::Align(8, 8)),
            "Answer(Grant { number: 4, offset: 0 })",
        ),
    ],
};

// Resizes at the node limit.
const AT_THE_LIMIT: List = List {
    size: 15,
    limit: 4,
    rows: &[
        (
            Call::Command(Command::Alloc(5)),
            "Answer(Grant { number: 1, offset: 0 })",
        ),
        (
            Call::Command(Command::Alloc(5)),
            "Answer(Grant { number: 2, offset: 5 })",
        ),
        // three blocks, so no further one
        (Call::Refusal(1), "Refusal(Some(Nodes))"),
        (Call::RefusalTight(1), "Refusal(Some(Nodes))"),
        (Call::AllocateTight(1), "Answer(Refused)"),
        (Call::Shrink(1, 4), "Answer(Refused)"),
        (Call::Shrink(1, 5), "Resized"),
        (Call::Shrink(2, 4), "Resized"),
        (Call::Grow(2, 11), "Answer(Refused)"),
        (Call::Grow(2, 10), "Resized"),
        // two blocks
        (Call::RefusalAligned(1, 2), "Refusal(Some(Nodes))"),
        (Call::RefusalTightAligned(1, 2), "Refusal(Some(Nodes))"),
        (Call::RefusalTight(1), "Refusal(Some(Space))"),
        (Call::Refusal(1), "Refusal(Some(Space))"),
        (Call::Shrink(1, 4), "Resized"),
        (Call::Shrink(2, 9), "Answer(Refused)"),
        (
            Call::Compact,
            "Compacted([Moved { number: 2, from: 5, to: 4, size: 10 }])",
        ),
    ],
};

// Moves of ranges of no units.
const OF_NO_UNITS: List = List {
    size: 10,
    limit: 16,
    rows: &[
        (
            Call::Command(Command::Alloc(4)),
            "Answer(Grant { number: 1, offset: 0 })",
        ),
        (
            Call::Command(Command::Alloc(0)),
            "Answer(Grant { number: 2, offset: 4 })",
        ),
        (
            Call::Command(Command::Alloc(3)),
            "Answer(Grant { number: 3, offset: 4 })",
        ),
        (Call::Command(Command::Free(1)), "Answer(Freed)"),
        (
            Call::Compact,
            "Compacted([Moved { number: 2, from: 4, to: 0, size: 0 }, Moved { number: 3, from: 4, to: 0, size: 3 }])",
        ),
        (Call::Grow(2, 1), "Answer(Refused)"),
        (Call::Shrink(3, 0), "Resized"),
        (Call::Grow(2, 0), "Resized"),
        (Call::Grow(3, 10), "Resized"),
        (Call::Compact, "Compacted([])"),
    ],
};

// Requests for any free block that is large enough.
const TIGHT: List = List {
    size: 100,
    limit: 16,
    rows: &[
        (Call::RefusalTight(100), "Refusal(None)"),
        (Call::Refusal(100), "Refusal(Some(TooLarge))"),
        (Call::RefusalTight(101), "Refusal(Some(TooLarge))"),
        (Call::AllocateTight(101), "Answer(Refused)"),
        // the class of the whole space has the value 96
        (
            Call::AllocateTight(100),
            "Answer(Grant { number: 1, offset: 0 })",
        ),
        (Call::RefusalTight(0), "Refusal(Some(Space))"),
        (Call::AllocateTight(0), "Answer(Refused)"),
        (Call::Command(Command::Free(1)), "Answer(Freed)"),
        (
            Call::Command(Command::Alloc(41)),
            "Answer(Grant { number: 2, offset: 0 })",
        ),
        (
            Call::Command(Command::Alloc(1)),
            "Answer(Grant { number: 3, offset: 41 })",
        ),
        (
            Call::Command(Command::Alloc(43)),
            "Answer(Grant { number: 4, offset: 42 })",
        ),
        (
            Call::Command(Command::Alloc(1)),
            "Answer(Grant { number: 5, offset: 85 })",
        ),
        (Call::Command(Command::Free(2)), "Answer(Freed)"),
        (Call::Command(Command::Free(4)), "Answer(Freed)"),
        // free: 41 units and, newer, 43 of one class, and 14 at the end
        (Call::Refusal(42), "Refusal(Some(Fragmented))"),
        (Call::RefusalTight(44), "Refusal(Some(Fragmented))"),
        (Call::RefusalTight(98), "Refusal(Some(Fragmented))"),
        (Call::RefusalTight(99), "Refusal(Some(Space))"),
        (Call::RefusalTight(43), "Refusal(None)"),
        (
            Call::AllocateTight(42),
            "Answer(Grant { number: 6, offset: 42 })",
        ),
        (
            Call::AllocateTight(41),
            "Answer(Grant { number: 7, offset: 0 })",
        ),
        // of the 14 units at 86, as `Align` takes them
        (
            Call::AllocateTightAligned(5, 8),
            "Answer(Grant { number: 8, offset: 88 })",
        ),
        (
            Call::AllocateTightAligned(7, 1),
            "Answer(Grant { number: 9, offset: 93 })",
        ),
        // free: one unit at 84, two at 86
        (
            Call::RefusalTightAligned(1, 64),
            "Refusal(Some(Fragmented))",
        ),
        (Call::AllocateTightAligned(1, 64), "Answer(Refused)"),
        (Call::RefusalTightAligned(2, 2), "Refusal(None)"),
        (Call::RefusalAligned(2, 2), "Refusal(Some(Fragmented))"),
        (
            Call::AllocateTightAligned(2, 2),
            "Answer(Grant { number: 10, offset: 86 })",
        ),
        (Call::RefusalTightAligned(2, 2), "Refusal(Some(Space))"),
        (
            Call::AllocateTight(1),
            "Answer(Grant { number: 11, offset: 84 })",
        ),
        (Call::Compact, "Compacted([])"),
    ],
};

// Requests for the units from an offset on. There may be five blocks.
const AT_OFFSET: List = List {
    size: 100,
    limit: 6,
    rows: &[
        (
            Call::AllocateAt(30, 20),
            "Answer(Grant { number: 1, offset: 30 })",
        ),
        // free: 30 units at 0, and 50 at 50
        (Call::AllocateAt(40, 20), "Answer(Refused)"),
        (Call::AllocateAt(0, 31), "Answer(Refused)"),
        (Call::AllocateAt(50, 51), "Answer(Refused)"),
        (
            Call::AllocateAt(50, 50),
            "Answer(Grant { number: 2, offset: 50 })",
        ),
        // three blocks, and two more
        (
            Call::AllocateAt(10, 10),
            "Answer(Grant { number: 3, offset: 10 })",
        ),
        // one more would be a sixth, though it takes the whole block
        (Call::AllocateAt(20, 10), "Answer(Refused)"),
        (Call::Command(Command::Free(3)), "Answer(Freed)"),
        // three blocks, and one more
        (
            Call::AllocateAt(20, 10),
            "Answer(Grant { number: 4, offset: 20 })",
        ),
        // two more would be six
        (Call::AllocateAt(8, 4), "Answer(Refused)"),
        (
            Call::AllocateAt(0, 4),
            "Answer(Grant { number: 5, offset: 0 })",
        ),
    ],
};

// Of the units before and after such a range, in one bin, those after it are the newer ones.
const AT_OFFSET_IN_ONE_BIN: List = List {
    size: 20,
    limit: 16,
    rows: &[
        (
            Call::AllocateAt(8, 4),
            "Answer(Grant { number: 1, offset: 8 })",
        ),
        (
            Call::Command(Command::Alloc(8)),
            "Answer(Grant { number: 2, offset: 12 })",
        ),
        (
            Call::Command(Command::Alloc(8)),
            "Answer(Grant { number: 3, offset: 0 })",
        ),
        // no unit is free, so none before the end
        (Call::AllocateAt(20, 0), "Answer(Refused)"),
        (Call::Command(Command::Free(2)), "Answer(Freed)"),
        // free: the 8 units at 12; a range of no units may begin at the end
        (
            Call::AllocateAt(12, 0),
            "Answer(Grant { number: 4, offset: 12 })",
        ),
        (
            Call::AllocateAt(20, 0),
            "Answer(Grant { number: 5, offset: 20 })",
        ),
        (Call::AllocateAt(21, 0), "Answer(Refused)"),
    ],
};

// A second grant for a range, units off the end, and the live ranges beside one another.
const ENDING: List = List {
    size: 100,
    limit: 16,
    rows: &[
        (Call::FirstLive, "Found(None)"),
        (Call::LastLive, "Found(None)"),
        (Call::Retract(101), "Answer(Refused)"),
        (Call::Retract(0), "Resized"),
        (Call::Relocate(1), "Answer(Gone)"),
        (Call::LiveBefore(1), "Answer(Gone)"),
        (Call::LiveAfter(0), "Answer(Gone)"),
        (
            Call::Command(Command::Alloc(10)),
            "Answer(Grant { number: 1, offset: 0 })",
        ),
        (
            Call::Command(Command::Alloc(20)),
            "Answer(Grant { number: 2, offset: 10 })",
        ),
        (
            Call::Command(Command::Alloc(10)),
            "Answer(Grant { number: 3, offset: 30 })",
        ),
        // 10, 20 and 10 live, 60 free
        (
            Call::LastLive,
            "Found(Some(LiveRange { number: 3, offset: 30 }))",
        ),
        (
            Call::LiveBefore(3),
            "Found(Some(LiveRange { number: 2, offset: 10 }))",
        ),
        (
            Call::LiveAfter(1),
            "Found(Some(LiveRange { number: 2, offset: 10 }))",
        ),
        (Call::LiveBefore(1), "Found(None)"),
        (Call::LiveAfter(3), "Found(None)"),
        // the only free block begins after it
        (Call::Relocate(3), "Answer(Refused)"),
        (Call::Command(Command::Free(1)), "Answer(Freed)"),
        (Call::LiveBefore(2), "Found(None)"),
        (
            Call::FirstLive,
            "Found(Some(LiveRange { number: 2, offset: 10 }))",
        ),
        (Call::LiveBefore(1), "Answer(Gone)"),
        (Call::Relocate(3), "Answer(Grant { number: 4, offset: 0 })"),
        (
            Call::FirstLive,
            "Found(Some(LiveRange { number: 4, offset: 0 }))",
        ),
        // the old range is still live
        (Call::Offset(3), "Offset(30)"),
        (
            Call::LiveBefore(2),
            "Found(Some(LiveRange { number: 4, offset: 0 }))",
        ),
        (Call::Command(Command::Free(3)), "Answer(Freed)"),
        (Call::Relocate(3), "Answer(Gone)"),
        // 10 and 20 live, 70 free
        (
            Call::LastLive,
            "Found(Some(LiveRange { number: 2, offset: 10 }))",
        ),
        (Call::Retract(71), "Answer(Refused)"),
        (Call::Retract(30), "Resized"),
        (
            Call::Command(Command::Report),
            "Answer(Report(StorageReport { total_free_space: 40, largest_free_region: 40 }))",
        ),
        (
            Call::Command(Command::Alloc(40)),
            "Answer(Grant { number: 5, offset: 30 })",
        ),
        (Call::Retract(1), "Answer(Refused)"),
        (Call::Retract(0), "Resized"),
        (Call::Command(Command::Extend(5)), "Answer(Extended)"),
        (Call::Retract(5), "Resized"),
        (Call::Retract(1), "Answer(Refused)"),
        (Call::Command(Command::Extend(4)), "Answer(Extended)"),
        (
            Call::Command(Command::Alloc(4)),
            "Answer(Grant { number: 6, offset: 70 })",
        ),
        (Call::Command(Command::Free(4)), "Answer(Freed)"),
        // 10 free, 20, 40 and 4 live
        (Call::Relocate(2), "Answer(Refused)"),
        (
            Call::LiveAfter(2),
            "Found(Some(LiveRange { number: 5, offset: 30 }))",
        ),
        (Call::Command(Command::Free(5)), "Answer(Freed)"),
        // over a free block
        (
            Call::LiveAfter(2),
            "Found(Some(LiveRange { number: 6, offset: 70 }))",
        ),
        (
            Call::LiveBefore(6),
            "Found(Some(LiveRange { number: 2, offset: 10 }))",
        ),
        (Call::Relocate(6), "Answer(Grant { number: 7, offset: 0 })"),
        (Call::Command(Command::Reset), "Answer(Reset)"),
        (Call::LastLive, "Found(None)"),
        (Call::LiveBefore(6), "Answer(Gone)"),
        // nothing is left but a block of no units
        (Call::Retract(74), "Resized"),
        (Call::Retract(1), "Answer(Refused)"),
        (
            Call::Command(Command::Report),
            "Answer(Report(StorageReport { total_free_space: 0, largest_free_region: 0 }))",
        ),
        (
            Call::Command(Command::Alloc(0)),
            "Answer(Grant { number: 8, offset: 0 })",
        ),
        (
            Call::LastLive,
            "Found(Some(LiveRange { number: 8, offset: 0 }))",
        ),
        (Call::Command(Command::Extend(3)), "Answer(Extended)"),
        (
            Call::Command(Command::Alloc(3)),
            "Answer(Grant { number: 9, offset: 0 })",
        ),
        (
            Call::LiveBefore(9),
            "Found(Some(LiveRange { number: 8, offset: 0 }))",
        ),
    ],
};

// What is left at the end is the newest block of its bin.
const NEWEST_AT_THE_END: List = List {
    size: 32,
    limit: 16,
    rows: &[
        (
            Call::Command(Command::Alloc(10)),
            "Answer(Grant { number: 1, offset: 0 })",
        ),
        (
            Call::Command(Command::Alloc(10)),
            "Answer(Grant { number: 2, offset: 10 })",
        ),
        (Call::Command(Command::Free(1)), "Answer(Freed)"),
        (Call::Retract(2), "Resized"),
        // 10 free, 10 live, 10 free: a request takes the last ones, which begin after the range
        (Call::Relocate(2), "Answer(Refused)"),
        (
            Call::Command(Command::Alloc(10)),
            "Answer(Grant { number: 3, offset: 20 })",
        ),
        (Call::Relocate(3), "Answer(Grant { number: 4, offset: 0 })"),
        (Call::Retract(1), "Answer(Refused)"),
        (Call::Compact, "Compacted([])"),
    ],
};

// A second grant, and a block that goes, at the node limit.
const ENDING_AT_THE_LIMIT: List = List {
    size: 15,
    limit: 4,
    rows: &[
        (
            Call::Command(Command::Alloc(5)),
            "Answer(Grant { number: 1, offset: 0 })",
        ),
        (
            Call::Command(Command::Alloc(5)),
            "Answer(Grant { number: 2, offset: 5 })",
        ),
        (Call::Command(Command::Free(1)), "Answer(Freed)"),
        // three blocks, so no further one
        (Call::Relocate(2), "Answer(Refused)"),
        (Call::Retract(5), "Resized"),
        // two blocks
        (Call::Relocate(2), "Answer(Grant { number: 3, offset: 0 })"),
        (
            Call::LastLive,
            "Found(Some(LiveRange { number: 2, offset: 5 }))",
        ),
    ],
};

// A compaction by whole steps, and a second grant at an alignment.
const STEPS: List = List {
    size: 50,
    limit: 16,
    rows: &[
        (
            Call::Command(Command::Alloc(7)),
            "Answer(Grant { number: 1, offset: 0 })",
        ),
        (
            Call::Command(Command::Align(8, 8)),
            "Answer(Grant { number: 2, offset: 8 })",
        ),
        (
            Call::Command(Command::Alloc(4)),
            "Answer(Grant { number: 3, offset: 16 })",
        ),
        (Call::Command(Command::Free(1)), "Answer(Freed)"),
        // 8 free, 8 and 4 live, 30 free
        (Call::WouldBegin(8, 1), "Offset(0)"),
        (Call::WouldBegin(9, 1), "Offset(20)"),
        (Call::WouldBegin(5, 4), "Offset(0)"),
        // 13 units hold them wherever they begin
        (Call::WouldBegin(6, 8), "Offset(24)"),
        // rounded up to 32
        (Call::WouldBegin(31, 1), "Answer(Refused)"),
        (
            Call::RoomCostBy(30, 1, 16),
            "RoomCost(Some(RoomCost { units: 0, ranges: 0 }))",
        ),
        (Call::RoomCostBy(31, 1, 16), "RoomCost(None)"),
        // 8 give up 5, or by steps of one all
        (
            Call::RoomCostBy(32, 1, 5),
            "RoomCost(Some(RoomCost { units: 12, ranges: 2 }))",
        ),
        (
            Call::RoomCostBy(29, 4, 5),
            "RoomCost(Some(RoomCost { units: 12, ranges: 2 }))",
        ),
        (Call::RoomCostBy(33, 1, 5), "RoomCost(None)"),
        (
            Call::RoomCostBy(33, 1, 1),
            "RoomCost(Some(RoomCost { units: 12, ranges: 2 }))",
        ),
        (Call::CompactBy(16), "Compacted([])"),
        (
            Call::CompactBy(5),
            "Compacted([Moved { number: 2, from: 8, to: 3, size: 8 }, Moved { number: 3, from: 16, to: 11, size: 4 }])",
        ),
        (
            Call::CompactBy(1),
            "Compacted([Moved { number: 2, from: 3, to: 0, size: 8 }, Moved { number: 3, from: 11, to: 8, size: 4 }])",
        ),
        (
            Call::Command(Command::Alloc(20)),
            "Answer(Grant { number: 4, offset: 12 })",
        ),
        (Call::Command(Command::Free(2)), "Answer(Freed)"),
        // 8 free, 4 and 20 live, 18 free; 4 units from a multiple of 4 on need 7
        (
            Call::RelocateAligned(3, 4),
            "Answer(Grant { number: 5, offset: 0 })",
        ),
        (Call::RelocateAligned(3, 4), "Answer(Refused)"),
        (Call::RelocateAligned(4, 16), "Answer(Refused)"),
        (Call::RelocateAligned(2, 4), "Answer(Gone)"),
        // 4 live, 4 free, 4 and 20 live, 18 free
        (
            Call::Command(Command::Alloc(12)),
            "Answer(Grant { number: 6, offset: 32 })",
        ),
        (Call::Shrink(3, 2), "Resized"),
        (Call::Shrink(6, 10), "Resized"),
        (
            Call::CompactBy(3),
            "Compacted([Moved { number: 3, from: 8, to: 5, size: 2 }, Moved { number: 4, from: 12, to: 9, size: 20 }, Moved { number: 6, from: 32, to: 29, size: 10 }])",
        ),
        // 4 live, 1 free, 2 live, 2 free, 20 and 10 live, 11 free
        (
            Call::Command(Command::Alloc(2)),
            "Answer(Grant { number: 7, offset: 7 })",
        ),
        (
            Call::Command(Command::Alloc(1)),
            "Answer(Grant { number: 8, offset: 4 })",
        ),
    ],
};

// Of blocks that a compaction by steps leaves in one bin, the later one in space is the newer.
const STEPS_IN_ONE_BIN: List = List {
    size: 39,
    limit: 16,
    rows: &[
        (
            Call::Command(Command::Alloc(5)),
            "Answer(Grant { number: 1, offset: 0 })",
        ),
        (
            Call::Command(Command::Alloc(1)),
            "Answer(Grant { number: 2, offset: 5 })",
        ),
        (
            Call::Command(Command::Alloc(8)),
            "Answer(Grant { number: 3, offset: 6 })",
        ),
        (
            Call::Command(Command::Alloc(1)),
            "Answer(Grant { number: 4, offset: 14 })",
        ),
        (
            Call::Command(Command::Alloc(24)),
            "Answer(Grant { number: 5, offset: 15 })",
        ),
        (Call::Command(Command::Free(3)), "Answer(Freed)"),
        (Call::Command(Command::Free(1)), "Answer(Freed)"),
        // 5 free, 1 live, 8 free, 1 and 24 live
        (
            Call::CompactBy(3),
            "Compacted([Moved { number: 2, from: 5, to: 2, size: 1 }, Moved { number: 4, from: 14, to: 5, size: 1 }, Moved { number: 5, from: 15, to: 6, size: 24 }])",
        ),
        // 2 free, 1 live, 2 free, 1 and 24 live, 9 free
        (
            Call::Command(Command::Alloc(2)),
            "Answer(Grant { number: 6, offset: 3 })",
        ),
        (
            Call::Command(Command::Alloc(2)),
            "Answer(Grant { number: 7, offset: 0 })",
        ),
    ],
};

// Room by whole steps, and compactions by whole steps within a budget.
const STEPS_IN_PARTS: List = List {
    size: 100,
    limit: 16,
    rows: &[
        (
            Call::Command(Command::Alloc(10)),
            "Answer(Grant { number: 1, offset: 0 })",
        ),
        (
            Call::Command(Command::Alloc(20)),
            "Answer(Grant { number: 2, offset: 10 })",
        ),
        (
            Call::Command(Command::Alloc(6)),
            "Answer(Grant { number: 3, offset: 30 })",
        ),
        (
            Call::Command(Command::Alloc(30)),
            "Answer(Grant { number: 4, offset: 36 })",
        ),
        (Call::Command(Command::Free(1)), "Answer(Freed)"),
        (Call::Command(Command::Free(3)), "Answer(Freed)"),
        // 10 free, 20 live, 6 free, 30 live, 34 free; by fives the last three give up 5 and 34 units
        (
            Call::MakeRoomBy(36, 1, 5),
            "RoomMade(Some(RoomCost { units: 30, ranges: 1 }), [Moved { number: 4, from: 36, to: 31, size: 30 }])",
        ),
        (
            Call::Command(Command::Alloc(36)),
            "Answer(Grant { number: 5, offset: 61 })",
        ),
        // 10 free, 20 live, 1 free, 30 and 36 live, 3 free; 12 units from a multiple of 4 on need 15
        (Call::MakeRoomBy(12, 4, 5), "RoomMade(None, [])"),
        (
            Call::MakeRoomBy(10, 1, 5),
            "RoomMade(Some(RoomCost { units: 0, ranges: 0 }), [])",
        ),
        (
            Call::MakeRoomBy(13, 1, 10),
            "RoomMade(Some(RoomCost { units: 86, ranges: 3 }), [Moved { number: 2, from: 10, to: 0, size: 20 }, Moved { number: 4, from: 31, to: 21, size: 30 }, Moved { number: 5, from: 61, to: 51, size: 36 }])",
        ),
        (
            Call::Command(Command::Alloc(13)),
            "Answer(Grant { number: 6, offset: 87 })",
        ),
        (Call::Command(Command::Free(2)), "Answer(Freed)"),
        // 21 free, 30, 36 and 13 live
        (
            Call::CompactWithin(22, 0, 100, 9),
            "CompactedWithin(None, [])",
        ),
        (
            Call::CompactWithin(10, 0, 65, 9),
            "CompactedWithin(Some(51), [Moved { number: 4, from: 21, to: 1, size: 30 }])",
        ),
        // 1 free, 30 live, 20 free, 36 and 13 live; one range moves in any case
        (
            Call::CompactWithin(10, 51, 0, 0),
            "CompactedWithin(Some(87), [Moved { number: 5, from: 51, to: 31, size: 36 }])",
        ),
        (
            Call::CompactWithin(3, 88, 100, 9),
            "CompactedWithin(None, [])",
        ),
        (
            Call::CompactWithin(3, 87, 100, 9),
            "CompactedWithin(None, [Moved { number: 6, from: 87, to: 69, size: 13 }])",
        ),
        // 1 free, 30 and 36 live, 2 free, 13 live, 18 free
        (
            Call::CompactWithin(3, 0, 100, 9),
            "CompactedWithin(None, [])",
        ),
        (
            Call::Command(Command::Alloc(18)),
            "Answer(Grant { number: 7, offset: 82 })",
        ),
        (
            Call::Command(Command::Alloc(2)),
            "Answer(Grant { number: 8, offset: 67 })",
        ),
        (
            Call::Command(Command::Alloc(1)),
            "Answer(Grant { number: 9, offset: 0 })",
        ),
    ],
};

// There may be four blocks, and there are.
const STEPS_AT_THE_LIMIT: List = List {
    size: 30,
    limit: 5,
    rows: &[
        (
            Call::Command(Command::Alloc(10)),
            "Answer(Grant { number: 1, offset: 0 })",
        ),
        (
            Call::Command(Command::Alloc(10)),
            "Answer(Grant { number: 2, offset: 10 })",
        ),
        (
            Call::Command(Command::Alloc(10)),
            "Answer(Grant { number: 3, offset: 20 })",
        ),
        (Call::Command(Command::Free(1)), "Answer(Freed)"),
        (Call::Shrink(2, 5), "Resized"),
        // 10 free, 5 live, 5 free, 10 live
        (Call::WouldBegin(1, 1), "Answer(Refused)"),
        // a request needs one block more, and so do the units that are given up: both free blocks are used up
        (
            Call::RoomCostBy(15, 1, 10),
            "RoomCost(Some(RoomCost { units: 5, ranges: 1 }))",
        ),
        (Call::RoomCostBy(5, 1, 11), "RoomCost(None)"),
        // with an alignment it needs two more
        (Call::RoomCostBy(5, 2, 10), "RoomCost(None)"),
        (Call::CompactBy(11), "Compacted([])"),
        // of 10 units 1 stays, and of 5 all
        (Call::CompactBy(9), "Answer(Refused)"),
        (Call::CompactWithin(9, 0, 15, 2), "Answer(Refused)"),
        (Call::Offset(2), "Offset(10)"),
        // the last block of the run is free
        (
            Call::CompactWithin(9, 0, 5, 2),
            "CompactedWithin(Some(20), [Moved { number: 2, from: 10, to: 1, size: 5 }])",
        ),
        // 1 free, 5 live, 14 free, 10 live
        (Call::CompactBy(9), "Answer(Refused)"),
        // the block of two steps is used up
        (
            Call::CompactBy(7),
            "Compacted([Moved { number: 3, from: 20, to: 6, size: 10 }])",
        ),
        // 1 free, 5 and 10 live, 14 free
        (
            Call::CompactWithin(1, 0, 5, 1),
            "CompactedWithin(Some(6), [Moved { number: 2, from: 1, to: 0, size: 5 }])",
        ),
        (
            Call::CompactBy(1),
            "Compacted([Moved { number: 3, from: 6, to: 5, size: 10 }])",
        ),
    ],
};

// Room is made by the run with the fewest units to move, of several the last one.
const ROOM: List = List {
    size: 100,
    limit: 16,
    rows: &[
        // one free block of 100 units; the class of 97 units has the value 104
        (
            Call::RoomCost(96),
            "RoomCost(Some(RoomCost { units: 0, ranges: 0 }))",
        ),
        (Call::RoomCost(97), "RoomCost(None)"),
        (Call::MakeRoom(97), "RoomMade(None, [])"),
        (
            Call::Command(Command::Alloc(10)),
            "Answer(Grant { number: 1, offset: 0 })",
        ),
        (
            Call::Command(Command::Alloc(10)),
            "Answer(Grant { number: 2, offset: 10 })",
        ),
        (
            Call::Command(Command::Alloc(10)),
            "Answer(Grant { number: 3, offset: 20 })",
        ),
        (
            Call::Command(Command::Alloc(10)),
            "Answer(Grant { number: 4, offset: 30 })",
        ),
        (
            Call::Command(Command::Alloc(10)),
            "Answer(Grant { number: 5, offset: 40 })",
        ),
        (
            Call::Command(Command::Alloc(10)),
            "Answer(Grant { number: 6, offset: 50 })",
        ),
        (
            Call::Command(Command::Alloc(40)),
            "Answer(Grant { number: 7, offset: 60 })",
        ),
        // nothing is free
        (Call::RoomCost(0), "RoomCost(None)"),
        (Call::MakeRoom(0), "RoomMade(None, [])"),
        (Call::Command(Command::Free(1)), "Answer(Freed)"),
        (Call::Command(Command::Free(3)), "Answer(Freed)"),
        (Call::Command(Command::Free(5)), "Answer(Freed)"),
        // free: 10 units at 0, at 20 and at 40
        (
            Call::MakeRoom(10),
            "RoomMade(Some(RoomCost { units: 0, ranges: 0 }), [])",
        ),
        (
            Call::RoomCost(20),
            "RoomCost(Some(RoomCost { units: 10, ranges: 1 }))",
        ),
        (
            Call::MakeRoom(20),
            "RoomMade(Some(RoomCost { units: 10, ranges: 1 }), [Moved { number: 4, from: 30, to: 20, size: 10 }])",
        ),
        (Call::Offset(4), "Offset(20)"),
        (Call::Offset(2), "Offset(10)"),
        (
            Call::Command(Command::Alloc(20)),
            "Answer(Grant { number: 8, offset: 30 })",
        ),
        (Call::MakeRoom(11), "RoomMade(None, [])"),
        (Call::Command(Command::Free(7)), "Answer(Freed)"),
        // 10 free, 10, 10, 20 and 10 live, 40 free; the class of 41 units has the value 44
        (
            Call::RoomCost(41),
            "RoomCost(Some(RoomCost { units: 50, ranges: 4 }))",
        ),
        (
            Call::MakeRoom(41),
            "RoomMade(Some(RoomCost { units: 50, ranges: 4 }), [Moved { number: 2, from: 10, to: 0, size: 10 }, Moved { number: 4, from: 20, to: 10, size: 10 }, Moved { number: 8, from: 30, to: 20, size: 20 }, Moved { number: 6, from: 50, to: 40, size: 10 }])",
        ),
        (Call::Compact, "Compacted([])"),
        (
            Call::Command(Command::Alloc(48)),
            "Answer(Grant { number: 9, offset: 50 })",
        ),
    ],
};

// Fewer units cost less, also of more ranges. The limit is reached.
const COSTS: List = List {
    size: 40,
    limit: 9,
    rows: &[
        (
            Call::Command(Command::Alloc(4)),
            "Answer(Grant { number: 1, offset: 0 })",
        ),
        (
            Call::Command(Command::Alloc(5)),
            "Answer(Grant { number: 2, offset: 4 })",
        ),
        (
            Call::Command(Command::Alloc(4)),
            "Answer(Grant { number: 3, offset: 9 })",
        ),
        (
            Call::Command(Command::Alloc(9)),
            "Answer(Grant { number: 4, offset: 13 })",
        ),
        (
            Call::Command(Command::Alloc(4)),
            "Answer(Grant { number: 5, offset: 22 })",
        ),
        (
            Call::Command(Command::Alloc(5)),
            "Answer(Grant { number: 6, offset: 26 })",
        ),
        (
            Call::Command(Command::Alloc(0)),
            "Answer(Grant { number: 7, offset: 31 })",
        ),
        // the last block that there may be, of 9 units
        (Call::Refusal(1), "Refusal(Some(Nodes))"),
        (Call::Command(Command::Free(1)), "Answer(Freed)"),
        (Call::Command(Command::Free(3)), "Answer(Freed)"),
        (Call::Command(Command::Free(5)), "Answer(Freed)"),
        // 4 free, 5 live, 4 free, 9 live, 4 free, 5 and 0 live, 9 free
        (
            Call::RoomCost(13),
            "RoomCost(Some(RoomCost { units: 5, ranges: 2 }))",
        ),
        (
            Call::RoomCost(8),
            "RoomCost(Some(RoomCost { units: 0, ranges: 0 }))",
        ),
        (Call::Grow(7, 5), "Resized"),
        (Call::Shrink(7, 0), "Resized"),
        // the same blocks
        (
            Call::MakeRoom(13),
            "RoomMade(Some(RoomCost { units: 5, ranges: 2 }), [Moved { number: 6, from: 26, to: 22, size: 5 }, Moved { number: 7, from: 31, to: 27, size: 0 }])",
        ),
        (
            Call::Command(Command::Alloc(9)),
            "Answer(Grant { number: 8, offset: 27 })",
        ),
        // 4 free, 5 live, 4 free, 9, 5, 0 and 9 live, 4 free
        (
            Call::RoomCost(8),
            "RoomCost(Some(RoomCost { units: 5, ranges: 1 }))",
        ),
        (
            Call::RoomCost(12),
            "RoomCost(Some(RoomCost { units: 28, ranges: 5 }))",
        ),
        (
            Call::MakeRoom(8),
            "RoomMade(Some(RoomCost { units: 5, ranges: 1 }), [Moved { number: 2, from: 4, to: 0, size: 5 }])",
        ),
        (
            Call::MakeRoom(9),
            "RoomMade(Some(RoomCost { units: 23, ranges: 4 }), [Moved { number: 4, from: 13, to: 5, size: 9 }, Moved { number: 6, from: 22, to: 14, size: 5 }, Moved { number: 7, from: 27, to: 19, size: 0 }, Moved { number: 8, from: 27, to: 19, size: 9 }])",
        ),
        (Call::Offset(7), "Offset(19)"),
        (
            Call::Command(Command::Report),
            "Answer(Report(StorageReport { total_free_space: 12, largest_free_region: 12 }))",
        ),
    ],
};

// Of as many units fewer ranges cost less, also before the last run.
const RANGES: List = List {
    size: 13,
    limit: 16,
    rows: &[
        (
            Call::Command(Command::Alloc(2)),
            "Answer(Grant { number: 1, offset: 0 })",
        ),
        (
            Call::Command(Command::Alloc(3)),
            "Answer(Grant { number: 2, offset: 2 })",
        ),
        (
            Call::Command(Command::Alloc(2)),
            "Answer(Grant { number: 3, offset: 5 })",
        ),
        (
            Call::Command(Command::Alloc(3)),
            "Answer(Grant { number: 4, offset: 7 })",
        ),
        (
            Call::Command(Command::Alloc(0)),
            "Answer(Grant { number: 5, offset: 10 })",
        ),
        (Call::Command(Command::Free(1)), "Answer(Freed)"),
        (Call::Command(Command::Free(3)), "Answer(Freed)"),
        // 2 free, 3 live, 2 free, 3 and 0 live, 3 free
        (
            Call::MakeRoom(4),
            "RoomMade(Some(RoomCost { units: 3, ranges: 1 }), [Moved { number: 2, from: 2, to: 0, size: 3 }])",
        ),
        (
            Call::MakeRoom(5),
            "RoomMade(Some(RoomCost { units: 3, ranges: 2 }), [Moved { number: 4, from: 7, to: 3, size: 3 }, Moved { number: 5, from: 10, to: 6, size: 0 }])",
        ),
        (
            Call::Command(Command::Alloc(7)),
            "Answer(Grant { number: 6, offset: 6 })",
        ),
    ],
};

fn calls_of(rt: &impl Abort, alloc: Global, list: &List) -> Vec<Call> {
    let mut calls = Vec::new(alloc);
    for (call, _) in list.rows {
        calls.push(*call).expect(rt, "memory");
    }
    calls
}

// The replies of one layout.
fn replies_of<T: Tables>(rt: &impl Abort, alloc: Global, list: &List) -> Vec<Reply> {
    assert_that(rt, 2 <= list.limit);
    assert_that(rt, list.limit < T::Index::MAX - 1);
    let calls = calls_of(rt, alloc, list);
    assert_that(rt, are_valid(&calls));
    play_calls_of::<T>(alloc, list.size, list.limit, &calls).expect(rt, "memory")
}

fn expect_texts(rt: &impl Abort, alloc: Global, replies: &[Reply], list: &List) {
    assert_same(rt, &replies.len(), &list.rows.len());
    for (reply, (_, wanted)) in replies.iter().zip(list.rows.iter()) {
        assert_text(rt, alloc, reply, wanted);
    }
}

/// Expects the replies of one layout.
pub fn expect_replies<T: Tables>(rt: &impl Abort, alloc: Global, list: &List) {
    let replies = replies_of::<T>(rt, alloc, list);
    expect_texts(rt, alloc, &replies, list);
}

#[test]
fn resizes_and_compacts(rt: HostRuntime) {
    for list in [
        RESIZES,
        AT_THE_LIMIT,
        OF_NO_UNITS,
        TIGHT,
        AT_OFFSET,
        AT_OFFSET_IN_ONE_BIN,
        ENDING,
        NEWEST_AT_THE_END,
        ENDING_AT_THE_LIMIT,
        STEPS,
        STEPS_IN_ONE_BIN,
        STEPS_IN_PARTS,
        STEPS_AT_THE_LIMIT,
        ROOM,
        COSTS,
        RANGES,
    ] {
        expect_of_each(&rt, rt.alloc(), Trial::Replies(&list));
    }
}
