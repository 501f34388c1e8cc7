//! What a program does: a run for the text of the answers, its status, and the line of its fault. It touches the
//! three streams alone.

ghost use Rattle.offset_script.specs.Running.{Exits, IsTextOfAnswers, Runs};

use crate::answer_text::AnswerText;
use crate::devices::{Sink, Source};
use crate::faults::RunFault;
use crate::running::{Rendering, run_of};
use crate::sending::send_fault;
use std::alloc::Global;

/// Reads a script to its end, plays it, writes the text of its answers, and then flushes.
///
/// The script and the text of all answers are in memory at once: the text in pieces of 64 KiB, with no copy
/// of the whole, and the space beside it until the last command is played. Once more than 4,096 rows are
/// written, beyond the first eight of each report, and a piece is full, the other answers are kept as
/// values in place of their text: 32 bytes each, and 12 to 24 for each row, which takes 23 to 43 as text.
/// Their text is made when the space is given back.
///
/// Nothing is written unless the whole text is a script; of a text that is too long, 1,048,577 bytes are
/// read. `Read` is returned exactly where the source failed in this call, and `Write` exactly where the sink
/// did; then a beginning of the answers is written, and all of them where only the flush failed. No failed
/// call is tried again. Where an allocation fails, the fault is `Memory`.
///
/// ```
/// let mut input = FromRead::new(&b"space 1000 nodes 16 index 32\nalloc 300\n"[..]);
/// let mut output = IntoWrite::new(std::vec::Vec::new());
/// run(alloc, &mut input, &mut output)?;
/// assert_eq!(output.into_inner(), b"grant 1 at 0\n");
/// ```
pub fn run<S: Source, K: Sink>(alloc: Global, input: &mut S, output: &mut K) -> Result<(), RunFault>
    // Where the text of the source is known: on `Ok` it means a script, and the text of all its answers is
    // appended; on `Write` a beginning of that text is, and all of it where no push has failed; on `Script`
    // the fault is that of the text. Nothing of the text is left, except what follows the first 1,048,577
    // bytes of one that is too long. On `Memory` and `Read` nothing is said of it. Of any
    // source and sink: where neither had failed before, the fault says which of them failed; the sink is
    // flushed after `Ok`, and is as it was after a fault other than `Write`.
    ensures { Runs IsTextOfAnswers S.Source K.Sink input.old input.new output.old output.new result }
{
    run_of(alloc, &AnswerText, input, output)
}

/// `run_program`, with another rendering of a script in place of the text of its answers.
pub fn run_program_of<X: Rendering, S: Source, K: Sink, E: Sink>(
    alloc: Global,
    rendering: &X,
    input: &mut S,
    output: &mut K,
    errors: &mut E,
) -> u8
    ensures { Exits (X.IsRendering rendering.now) S.Source K.Sink E.Sink
        input.old input.new output.old output.new errors.old errors.new result }
{
    match run_of(alloc, rendering, input, output) {
        Ok(()) => 0,
        Err(fault) => {
            let _is_sent = send_fault(errors, fault);
            fault.status()
        }
    }
}

/// Runs a script as `run` does, writes the line of a fault to `errors`, and returns the status to exit with.
///
/// The status is 0 exactly where the run is `Ok`, 2 where the text is no script, 3 where an allocation
/// failed, and 4 where the source or the sink failed. A run that is `Ok` leaves `errors` as it was. A failure
/// of `errors` does not change the status. To write the line takes no memory.
///
/// ```
/// let mut input = FromRead::new(&b"no script"[..]);
/// let mut output = IntoWrite::new(std::vec::Vec::new());
/// let mut errors = IntoWrite::new(std::vec::Vec::new());
/// assert_eq!(run_program(alloc, &mut input, &mut output, &mut errors), 2);
/// assert_eq!(errors.into_inner(), b"line 1: bad header\n");
/// ```
pub fn run_program<S: Source, K: Sink, E: Sink>(
    alloc: Global,
    input: &mut S,
    output: &mut K,
    errors: &mut E,
) -> u8
    ensures { Exits IsTextOfAnswers S.Source K.Sink E.Sink
        input.old input.new output.old output.new errors.old errors.new result }
{
    run_program_of(alloc, &AnswerText, input, output, errors)
}
