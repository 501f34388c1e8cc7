//! The text of the answers to a script (the lines of each by `answers`), collected while the script is
//! played: no list of answers is kept, unless full reports have many rows. It plays by `playing`, sends by
//! `sending`, and touches only its text and the sink.

ghost use Rattle.std.specs.Prelude.{◌≡◌, ◌+◌, ◌++◌, ◌∷◌, ◌<◌, IfOk, OnOk, []};
ghost use Rattle.std.specs.List.{flat_map};
ghost use Rattle.offset_script.specs.Grammar.{lines_of_answer, text_of};
ghost use Rattle.offset_script.specs.Machine as machine;
ghost use Rattle.offset_script.specs.Machine.{answer_view};
ghost use Rattle.offset_script.specs.Running.{IsTextOfAnswers};

use crate::answers::{Answer, put_answer};
use crate::devices::Sink;
use crate::listening::Listener;
use crate::playing::play_script_to;
use crate::running::Rendering;
use crate::scripts::{Command, Script};
use crate::sending::send_in_turn;
use offset_allocator::{AllocatorOf, ByNode, Tables};
use std::alloc::{AllocError, Global};
use std::marker::Model;
use std::mem::replace;

// The room of a piece of the text.
const PIECE_BYTES: usize = 65536;

// A piece with this many bytes is closed. The lines of one more answer, which has at most 256 rows, fit below
// `PIECE_BYTES`.
const CLOSE_AT: usize = 49152;

// The text of a report with so many rows takes about as much memory as the report.
const SHORT: usize = 8;

// The most rows beyond `SHORT` of all reports together that are written while the script is played.
const FEW_ROWS: usize = 4096;

// Begins a new piece of a text. Where its room is refused, room is made as its text comes.
#[cold]
fn cut(alloc: Global, closed: &mut Vec<Vec<u8>>, last: &mut Vec<u8>) -> Result<(), AllocError>
    ensures closed { OnOk result (closed.new.items ≡ closed.old.items ++ last.old ∷ []) }
    ensures last { OnOk result (last.new.items ≡ []) }
{
    let mut next = Vec::new(alloc);
    let _has_room = next.reserve_exact(PIECE_BYTES);
    let piece = replace(last, next);
    closed.push(piece)?;
    Ok(())
}

// Appends the lines of an answer to the last piece of a text, or to a new one where it has to be closed.
fn put_late(
    alloc: Global,
    closed: &mut Vec<Vec<u8>>,
    last: &mut Vec<u8>,
    answer: &Answer,
) -> Result<(), AllocError>
    ensures { OnOk result (flat_map (λ piece. piece.items) closed.new.items ++ last.new.items
        ≡ flat_map (λ piece. piece.items) closed.old.items ++ last.old.items
        ++ lines_of_answer (answer_view answer.now)) }
{
    if last.len() >= CLOSE_AT {
        cut(alloc, closed, last)?;
    }
    put_answer(last, answer)
}

// The text of answers, seen as its bytes. It grows in pieces, without a copy of the whole. Once more than
// `FEW_ROWS` rows are written and a piece is full, it keeps the answers themselves, since rows take more
// memory as text, and writes their text at the end.
#[derive(Drop)]
struct Pieces {
    // the pieces that are closed
    closed: Vec<Vec<u8>>,
    last: Vec<u8>,
    // the answers whose text follows
    late: Vec<Answer>,
    // the rows beyond `SHORT` of the reports written so far, except those that open a piece
    rows: usize,
}

impl Model for Pieces {
    ghost use Rattle.std.specs.Prelude.{ℕ, List, [], ◌++◌, ◌≡◌, ◌<◌, length, map};
    ghost use Rattle.std.specs.List.{flat_map};
    ghost use Rattle.offset_script.specs.Grammar.{text_of};
    ghost use Rattle.offset_script.specs.Machine.{answer_view};

    ghost Value = { List ℕ };

    ghost view = { λ t. flat_map (λ piece. piece.items) t.closed.items ++ t.last.items
        ++ text_of (map answer_view t.late.items) };

    ghost invariant = { λ t. length t.last.items < 49152 → t.late.items ≡ [] };
}

impl Pieces {
    // No text.
    fn new(alloc: Global) -> Self
        ensures { result ≡ [] }
    {
        Pieces {
            closed: Vec::new(alloc),
            last: Vec::new(alloc),
            late: Vec::new(alloc),
            rows: 0,
        }
    }

    // Appends the lines of an answer.
    #[inline(always)]
    fn put(&mut self, alloc: Global, answer: Answer) -> Result<(), AllocError>
        ensures { OnOk result (self.new ≡ self.old ++ lines_of_answer (answer_view answer)) }
    {
        if self.last.len() < CLOSE_AT {
            if let Answer::Full(rows) = &answer {
                let more = rows.len().saturating_sub(SHORT);
                self.rows = self.rows.saturating_add(more);
            }
            return put_answer(&mut self.last, &answer);
        }
        if self.late.is_empty() && self.rows <= FEW_ROWS {
            cut(alloc, &mut self.closed, &mut self.last)?;
            return put_answer(&mut self.last, &answer);
        }
        self.late.push(answer)?;
        Ok(())
    }

    // All pieces.
    fn pieces(self, alloc: Global) -> Result<Vec<Vec<u8>>, AllocError>
        ensures { IfOk result (λ pieces. flat_map (λ piece. piece.items) pieces.items ≡ self) }
    {
        let Pieces {
            mut closed,
            mut last,
            late,
            rows: _,
        } = self;
        for answer in &late {
            put_late(alloc, &mut closed, &mut last, answer)?;
        }
        closed.push(last)?;
        Ok(closed)
    }
}

impl Listener for Pieces {
    ghost Heard = { λ text s cs. text ≡ text_of (machine.answers cs s) };

    ghost played = { λ c. c };

    fn played(command: Command) -> Command {
        command
    }

    fn begin<T: Tables>(
        alloc: Global,
        _space: &AllocatorOf<T>,
        _calls: usize,
    ) -> Result<Self, AllocError> {
        Ok(Pieces::new(alloc))
    }

    #[inline(always)]
    fn hear<T: Tables>(
        &mut self,
        alloc: Global,
        _space: &AllocatorOf<T>,
        _command: Command,
        answer: Answer,
    ) -> Result<(), AllocError> {
        self.put(alloc, answer)
    }
}

// Plays a script on an allocator of its index width, and returns the text of its answers in pieces: a line
// for each, and after the line of a full report one for each of its rows. It fails only where an allocation
// fails.
fn text_of_answers(alloc: Global, script: &Script) -> Result<Vec<Vec<u8>>, AllocError>
    ensures { IfOk result (λ pieces. flat_map (λ piece. piece.items) pieces.items
        ≡ text_of (machine.answers script.now.commands.items
        (machine.start script.now.size script.now.max_allocs))) }
{
    let text: Pieces = play_script_to::<ByNode<u16>, ByNode<u32>, _>(alloc, script)?;
    text.pieces(alloc)
}

// The text of the answers to a script.
pub(crate) struct AnswerText;

impl Rendering for AnswerText {
    ghost IsRendering = { λ _. IsTextOfAnswers };

    fn send<K: Sink>(
        &self,
        alloc: Global,
        script: &Script,
        output: &mut K,
    ) -> Result<bool, AllocError> {
        let pieces = text_of_answers(alloc, script)?;
        Ok(send_in_turn(output, &pieces))
    }
}
