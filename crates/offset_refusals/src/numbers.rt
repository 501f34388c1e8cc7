//! Results as numbers. A variant of an enum is its place in the declaration, from 0.

use offset_allocator::{RoomCost, StorageReport};
use offset_calls::{Moved, Reply};
use offset_refusal_base::cells::{Cells, put};
use offset_script::{Answer, Command, FullRow, IndexWidth, Script, ScriptFault};

fn put_all(cells: &mut Cells<'_>, numbers: &[u32]) {
    for number in numbers {
        put(cells, u64::from(*number));
    }
}

/// Puts the total of the free units, and the largest region.
pub fn put_report(cells: &mut Cells<'_>, report: &StorageReport) {
    put_all(
        cells,
        &[report.total_free_space, report.largest_free_region],
    );
}

/// Puts the fault, with its line where it has one.
pub fn put_fault(cells: &mut Cells<'_>, fault: ScriptFault) {
    match fault {
        ScriptFault::TooLong => put_all(cells, &[0]),
        ScriptFault::BadHeader(line) => put_all(cells, &[1, line]),
        ScriptFault::BadLimit(line) => put_all(cells, &[2, line]),
        ScriptFault::BadCommand(line) => put_all(cells, &[3, line]),
        ScriptFault::Memory => put_all(cells, &[4]),
    }
}

fn put_command(cells: &mut Cells<'_>, command: Command) {
    match command {
        Command::Alloc(size) => put_all(cells, &[0, size]),
        Command::Free(grant) => put_all(cells, &[1, grant]),
        Command::Size(grant) => put_all(cells, &[2, grant]),
        Command::Report => put_all(cells, &[3]),
        Command::Full => put_all(cells, &[4]),
        Command::Reset => put_all(cells, &[5]),
        Command::Align(size, align) => put_all(cells, &[6, size, align]),
        Command::Extend(more) => put_all(cells, &[7, more]),
    }
}

/// Puts the size, the limit and the index width, and then each command with its numbers.
pub fn put_script(cells: &mut Cells<'_>, script: &Script) {
    let bits = match script.index {
        IndexWidth::Bits16 => 16,
        IndexWidth::Bits32 => 32,
    };
    put_all(cells, &[script.size, script.max_allocs, bits]);
    for command in &script.commands {
        put_command(cells, *command);
    }
}

fn put_row(cells: &mut Cells<'_>, row: &FullRow) {
    put_all(cells, &[row.class, row.size, row.count]);
}

fn put_answer(cells: &mut Cells<'_>, answer: &Answer) {
    match answer {
        Answer::Grant { number, offset } => {
            put(cells, 0);
            put(cells, *number);
            put(cells, u64::from(*offset));
        }
        Answer::Refused => put(cells, 1),
        Answer::Freed => put(cells, 2),
        Answer::Gone => put(cells, 3),
        Answer::Size(size) => put_all(cells, &[4, *size]),
        Answer::Report(report) => {
            put(cells, 5);
            put_report(cells, report);
        }
        Answer::Full(rows) => {
            put(cells, 6);
            put(cells, rows.len() as u64);
            for row in rows {
                put_row(cells, row);
            }
        }
        Answer::Reset => put(cells, 7),
        Answer::Extended => put(cells, 8),
    }
}

/// Puts each answer with its numbers; a full report has the number of its rows before them.
pub fn put_answers(cells: &mut Cells<'_>, answers: &[Answer]) {
    for answer in answers {
        put_answer(cells, answer);
    }
}

fn put_moved(cells: &mut Cells<'_>, moved: &Moved) {
    put(cells, moved.number);
    put_all(cells, &[moved.from, moved.to, moved.size]);
}

fn put_moves(cells: &mut Cells<'_>, moves: &[Moved]) {
    put(cells, moves.len() as u64);
    for moved in moves {
        put_moved(cells, moved);
    }
}

// 0, or 1 with the units and the ranges.
fn put_cost(cells: &mut Cells<'_>, cost: &Option<RoomCost>) {
    match cost {
        None => put(cells, 0),
        Some(cost) => put_all(cells, &[1, cost.units, cost.ranges]),
    }
}

fn put_reply(cells: &mut Cells<'_>, reply: &Reply) {
    match reply {
        Reply::Answer(answer) => {
            put(cells, 0);
            put_answer(cells, answer);
        }
        Reply::Resized => put(cells, 1),
        Reply::Compacted(moves) => {
            put(cells, 2);
            put_moves(cells, moves);
        }
        Reply::Offset(offset) => put_all(cells, &[3, *offset]),
        Reply::Refusal(None) => put(cells, 4),
        Reply::Refusal(Some(why)) => {
            put(cells, 5);
            put(cells, u64::from(*why as u8));
        }
        Reply::RoomMade(cost, moves) => {
            put(cells, 6);
            put_cost(cells, cost);
            put_moves(cells, moves);
        }
        Reply::RoomCost(cost) => {
            put(cells, 7);
            put_cost(cells, cost);
        }
        Reply::CompactedWithin(next, moves) => {
            put_all(cells, &[10, next.unwrap_or(u32::MAX)]);
            put_moves(cells, moves);
        }
        Reply::Found(None) => put(cells, 8),
        Reply::Found(Some(range)) => {
            put(cells, 9);
            put(cells, range.number);
            put(cells, u64::from(range.offset));
        }
    }
}

/// Puts each reply with its numbers; moves have their number before them.
pub fn put_replies(cells: &mut Cells<'_>, replies: &[Reply]) {
    for reply in replies {
        put_reply(cells, reply);
    }
}
