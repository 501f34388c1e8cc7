//! Lists of calls, with handles and with tickets.

use crate::numbers::put_replies;
use offset_allocator::{NodeIndex, Tables};
use offset_calls::{Call, TicketCall, are_valid, play_calls_of, play_guarded};
use offset_refusal_base::cells::{Cells, put};
use offset_refusal_base::layouts::{Kept, Work};
use offset_refusal_base::outcomes::Failure;
use offset_script::{Command, Script};
use std::alloc::{AllocError, Global};

// The list for a script without commands.
const SHORT: [Call; 7] = [
    Call::Command(Command::Alloc(10)),
    Call::Command(Command::Alloc(20)),
    Call::Command(Command::Free(1)),
    Call::Compact,
    Call::Offset(2),
    Call::Shrink(2, 8),
    Call::Command(Command::Full),
];

// What is called after the command at a place.
fn between(place: u32) -> Call {
    match place % 19 {
        0 => Call::Refusal(place),
        1 => Call::Shrink(place / 2, 3),
        2 => Call::Grow(place / 2, 20),
        3 => Call::Offset(place / 2),
        4 => Call::RefusalAligned(place, 8),
        5 => Call::Compact,
        6 => Call::Grow(place / 3, 30),
        7 => Call::Shrink(place / 3, 5),
        8 => Call::MakeRoom(place % 40),
        9 => Call::FirstLive,
        10 => Call::Relocate(place / 2),
        11 => Call::LastLive,
        12 => Call::LiveBefore(place / 2),
        13 => Call::Retract(1),
        14 => Call::LiveAfter(place / 3),
        15 => Call::CompactBy(3),
        16 => Call::MakeRoomBy(place % 40, 4, 3),
        17 => Call::CompactWithin(3, place, 9, 2),
        _ => Call::RoomCost(place % 60),
    }
}

// The commands of a script, with another call after each; for a script without commands a short list. One
// request, for as many calls as there are.
fn list(alloc: Global, commands: &[Command]) -> Result<Vec<Call>, AllocError> {
    if commands.is_empty() {
        let mut calls = Vec::with_capacity(alloc, SHORT.len())?;
        calls.extend_from_slice(&SHORT)?;
        return Ok(calls);
    }
    let mut calls = Vec::with_capacity(alloc, commands.len().saturating_mul(2))?;
    let mut place = 0u32;
    for command in commands {
        calls.push(Call::Command(*command))?;
        calls.push(between(place))?;
        place = place.wrapping_add(1);
    }
    Ok(calls)
}

// The same calls, each with the ticket of its own grant.
fn with_tickets(alloc: Global, calls: &[Call]) -> Result<Vec<TicketCall>, AllocError> {
    let mut found = Vec::with_capacity(alloc, calls.len())?;
    for call in calls {
        found.push(TicketCall {
            call: *call,
            ticket: None,
        })?;
    }
    Ok(found)
}

/// Plays the list of a script, and puts the replies into the cells. The list itself takes one request.
pub struct PlayList;

impl Work for PlayList {
    fn run<T: Tables>(
        &self,
        alloc: Global,
        script: &Script,
        _kept: &mut [Kept<T::Index>],
        cells: &mut Cells<'_>,
    ) -> Result<(), Failure> {
        let limit = script.max_allocs;
        let Ok(calls) = list(alloc, &script.commands) else {
            return Err(Failure::Unfit);
        };
        if limit >= T::Index::MAX - 1 || !are_valid(&calls) {
            return Err(Failure::Unfit);
        }
        let replies = play_calls_of::<T>(alloc, script.size, limit, &calls)?;
        put_replies(cells, &replies);
        Ok(())
    }
}

/// Plays the same with tickets, and puts the serials of the grants after the replies. The list takes two
/// requests.
pub struct PlayTickets;

impl Work for PlayTickets {
    fn run<T: Tables>(
        &self,
        alloc: Global,
        script: &Script,
        _kept: &mut [Kept<T::Index>],
        cells: &mut Cells<'_>,
    ) -> Result<(), Failure> {
        let limit = script.max_allocs;
        let Ok(calls) = list(alloc, &script.commands) else {
            return Err(Failure::Unfit);
        };
        let Ok(calls) = with_tickets(alloc, &calls) else {
            return Err(Failure::Unfit);
        };
        if limit >= T::Index::MAX - 1 || !calls.iter().all(|call| call.call.is_valid()) {
            return Err(Failure::Unfit);
        }
        let played = play_guarded::<T>(alloc, script.size, limit, 7, &calls)?;
        put_replies(cells, &played.replies);
        for ticket in &played.tickets {
            put(cells, ticket.serial());
        }
        Ok(())
    }
}
