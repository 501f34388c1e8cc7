//! Lists of calls, by handles and by tickets, with compactions among them.

use crate::random::{Digest, Random};
use offset_allocator::{ByNode, RoomCost};
use offset_calls::{Call, Moved, Reply, TicketCall, are_valid, play_calls, play_guarded};
use offset_script::{Answer, Command};
use std::alloc::{AllocError, Global};

// Adds the numbers of moves.
fn add_moves(moves: &[Moved], digest: &mut Digest) {
    for range in moves {
        digest.add(range.number);
        digest.add(u64::from(range.from) << 32 | u64::from(range.to));
        digest.add(u64::from(range.size));
    }
}

// Adds what room costs.
fn add_cost(cost: &Option<RoomCost>, digest: &mut Digest) {
    match cost {
        None => digest.add(12),
        Some(cost) => digest.add(u64::from(cost.units) << 32 | u64::from(cost.ranges)),
    }
}

// Adds the answer to a command.
fn add_answer(answer: &Answer, digest: &mut Digest) {
    match answer {
        Answer::Grant { number, offset } => {
            digest.add(*number);
            digest.add(u64::from(*offset));
        }
        Answer::Refused => digest.add(1),
        Answer::Freed => digest.add(2),
        Answer::Gone => digest.add(3),
        Answer::Size(size) => digest.add(u64::from(*size)),
        Answer::Report(report) => {
            digest.add(u64::from(report.total_free_space));
            digest.add(u64::from(report.largest_free_region));
        }
        Answer::Full(rows) => {
            for row in rows {
                digest.add(u64::from(row.size));
                digest.add(u64::from(row.count));
            }
        }
        Answer::Reset => digest.add(4),
        Answer::Extended => digest.add(5),
    }
}

/// Adds replies.
pub fn add_replies(replies: &[Reply], digest: &mut Digest) {
    for reply in replies {
        match reply {
            Reply::Answer(answer) => add_answer(answer, digest),
            Reply::Resized => digest.add(6),
            Reply::Compacted(moves) => add_moves(moves, digest),
            Reply::Offset(offset) => digest.add(u64::from(*offset)),
            Reply::Refusal(None) => digest.add(7),
            Reply::Refusal(Some(why)) => digest.add(8 + *why as u64),
            Reply::RoomMade(cost, moves) => {
                add_cost(cost, digest);
                add_moves(moves, digest);
            }
            Reply::CompactedWithin(next, moves) => {
                digest.add(u64::from(next.unwrap_or(0)));
                add_moves(moves, digest);
            }
            Reply::RoomCost(cost) => add_cost(cost, digest),
            Reply::Found(None) => digest.add(13),
            Reply::Found(Some(range)) => {
                digest.add(range.number);
                digest.add(u64::from(range.offset));
            }
        }
    }
}

// A call on a range that is live, or none.
fn use_of(number: u32, random: &mut Random) -> Call {
    match random.draw().below(6) {
        0 => Call::Shrink(number, random.size(8)),
        1 => Call::Grow(number, random.size(14)),
        2 => Call::Offset(number),
        3 => Call::Refusal(random.size(20)),
        4 => Call::RefusalAligned(random.size(14), 256),
        _ => Call::Command(Command::Size(number)),
    }
}

// `count` calls of an editor with at most `live` live ranges: requests, releases, other calls on a live
// range, and a compaction every 3,000 calls. The numbers of grants are right while no request is refused.
fn list(
    alloc: Global,
    count: u32,
    live: u32,
    random: &mut Random,
) -> Result<Vec<Call>, AllocError> {
    let mut calls = Vec::new(alloc);
    // the numbers of the live grants
    let mut kept: Vec<u32> = Vec::new(alloc);
    let mut grants = 0u32;
    for at in 0..count {
        let draw = random.draw();
        let place = draw.below(kept.len().min(1_000_000) as u32) as usize;
        if at % 3_000 == 2_999 {
            calls.push(Call::Compact)?;
        } else if draw.part(0) % 8 == 0 {
            let number = kept.get(place).copied().unwrap_or(1);
            calls.push(use_of(number, random))?;
        } else if place < kept.len() && (kept.len() >= live as usize || draw.part(1) < 5) {
            calls.push(Call::Command(Command::Free(kept.swap_remove(place))))?;
        } else {
            grants = grants.saturating_add(1);
            kept.push(grants)?;
            calls.push(Call::Command(Command::Alloc(random.size(14))))?;
        }
    }
    Ok(calls)
}

/// Plays three lists of `count` calls, in spaces that refuse no request: two by handles, with at most a
/// fortieth and a four-hundredth of `count` live ranges, and one by tickets.
pub fn calls(
    alloc: Global,
    count: u32,
    random: &mut Random,
    digest: &mut Digest,
) -> Result<(), AllocError> {
    for live in [count / 40, count / 400] {
        let calls = list(alloc, count, live, random)?;
        if are_valid(&calls) {
            let replies = play_calls::<u32>(alloc, u32::MAX, 1_000_000, &calls)?;
            add_replies(&replies, digest);
        }
    }
    let plain = list(alloc, count, count / 40, random)?;
    let mut calls = Vec::with_capacity(alloc, plain.len())?;
    for call in &plain {
        if call.is_valid() {
            calls.push(TicketCall {
                call: *call,
                ticket: None,
            })?;
        }
    }
    if calls.iter().all(|call| call.call.is_valid()) {
        let played = play_guarded::<ByNode<u32>>(alloc, u32::MAX, 1_000_000, 7, &calls)?;
        add_replies(&played.replies, digest);
        for ticket in &played.tickets {
            digest.add(ticket.serial());
            digest.add(u64::from(ticket.offset) << 32 | u64::from(ticket.name()));
        }
    }
    Ok(())
}
