//! Lists of calls whose lengths are powers of two, with handles and with tickets: no clause says when memory
//! is out, so a body that gives up at some lengths is proved, and refused here.

use crate::asserts::{assert_same, assert_that};
use crate::layouts::{Trial, expect_of_each};
use offset_allocator::{NodeIndex, Tables};
use offset_calls::{Call, TicketCall, are_valid, play_calls_of, play_guarded};
use offset_guarded::Ticket;
use offset_script::Command;
use std::alloc::{AllocError, Global};
use std::process::Abort;

// The call at a place of a list: every kind of call, and more requests than releases.
fn call_at(place: u32) -> Call {
    let number = place / 3 + 1;
    match place % 32 {
        2 => Call::Relocate(number),
        3 => Call::Command(Command::Free(number)),
        5 => Call::Command(Command::Size(number)),
        4 => Call::FirstLive,
        6 => Call::LastLive,
        7 => Call::Command(Command::Report),
        9 => Call::Shrink(number, 3),
        10 => Call::LiveBefore(number),
        11 => Call::Grow(number, 9),
        13 => Call::Offset(number),
        14 => Call::LiveAfter(number),
        15 => Call::Refusal(place),
        17 => Call::RefusalAligned(place, 64),
        19 => Call::Command(Command::Align(5, 1u32.wrapping_shl(place / 32 % 32))),
        21 => Call::Command(Command::Extend(1)),
        22 => Call::Retract(1),
        24 => Call::RelocateAligned(number, 1u32.wrapping_shl(place / 32 % 8)),
        23 => Call::Command(Command::Free(number)),
        25 => Call::AllocateTight(place % 5),
        27 => Call::AllocateTightAligned(3, 1u32.wrapping_shl(place / 32 % 32)),
        29 => Call::RefusalTight(place),
        31 => Call::RefusalTightAligned(place, 16),
        _ => Call::Command(Command::Alloc(place % 7)),
    }
}

// A list of `count` calls with a compaction and a full report at its end, and at some places before.
fn list(alloc: Global, count: u32) -> Result<Vec<Call>, AllocError> {
    let mut calls = Vec::new(alloc);
    for place in 0..count {
        calls.push(match place % 4096 {
            200 => Call::Compact,
            400 => Call::Command(Command::Full),
            600 => Call::MakeRoom(place),
            800 => Call::RoomCost(place),
            1000 => Call::CompactBy(7),
            1200 => Call::RoomCostBy(place, 4, 7),
            1400 => Call::WouldBegin(place % 7, 4),
            1600 => Call::MakeRoomBy(place, 4, 7),
            1800 => Call::CompactWithin(7, place, 100, 3),
            2000 => Call::AllocateAt(place, 3),
            _ => call_at(place),
        })?;
    }
    calls.push(Call::Command(Command::Full))?;
    calls.push(Call::Compact)?;
    calls.push(Call::Command(Command::Reset))?;
    Ok(calls)
}

// The same calls, of which some pass a ticket of their own.
fn with_tickets(alloc: Global, calls: &[Call]) -> Result<Vec<TicketCall>, AllocError> {
    let mut found = Vec::new(alloc);
    for call in calls {
        let serial = found.len() as u64 / 2;
        let ticket = Ticket::from_parts(0, (serial % 1024) as u32, serial, 7);
        found.push(TicketCall {
            call: *call,
            ticket: if serial % 3 == 1 { ticket } else { None },
        })?;
    }
    Ok(found)
}

// Plays a list with handles and with tickets: there is a reply to each call.
fn expect_replies_to<T: Tables>(rt: &impl Abort, alloc: Global, limit: u32, calls: &[Call]) {
    assert_that(rt, 2 <= limit);
    assert_that(rt, limit < T::Index::MAX - 1);
    let guarded = with_tickets(alloc, calls).expect(rt, "memory");
    assert_that(rt, are_valid(calls));
    assert_that(rt, guarded.iter().all(|call| call.call.is_valid()));
    let replies = play_calls_of::<T>(alloc, 4_000_000_000, limit, calls).expect(rt, "memory");
    assert_same(rt, &replies.len(), &calls.len());
    let played = play_guarded::<T>(alloc, 4_000_000_000, limit, 7, &guarded).expect(rt, "memory");
    assert_same(rt, &played.replies.len(), &calls.len());
}

/// Plays lists of no call, and of up to 262,144 calls, or of up to 32,768 where the index type admits no more
/// nodes.
pub fn expect_long<T: Tables>(rt: &impl Abort, alloc: Global) {
    let is_wide = T::Index::MAX > 600_000;
    let limit: u32 = if is_wide { 599_998 } else { 60_000 };
    let most: u32 = if is_wide { 19 } else { 16 };
    expect_replies_to::<T>(rt, alloc, limit, &[]);
    for power in 0..most {
        let calls = list(alloc, 1u32.wrapping_shl(power)).expect(rt, "memory");
        expect_replies_to::<T>(rt, alloc, limit, &calls);
    }
}

#[test]
fn plays_lists_of_each_length(rt: HostRuntime) {
    expect_of_each(&rt, rt.alloc(), Trial::Lengths);
}
