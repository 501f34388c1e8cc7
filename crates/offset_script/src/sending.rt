//! Sends texts to sinks. It touches the sinks alone, and takes no memory.

ghost use Rattle.std.specs.Prelude.{◌≡◌, ◌++◌, true, ◌||◌, not};
ghost use Rattle.std.specs.List.{flat_map};
ghost use Rattle.offset_script.specs.Grammar.{line_end};
ghost use Rattle.offset_script.specs.Sending.{Pushes, Sends};
ghost use Rattle.offset_script.specs.Faults.{fault_line};

use crate::buffer::TextBuffer;
use crate::devices::Sink;
use crate::faults::RunFault;

// The most bytes of the line of a fault with its line end: a number of 20 digits and the words fit.
const LINE_BYTES: usize = 41;

// Appends all bytes, and returns whether it did. It stops at the first failure, and tries nothing again.
fn push_all<K: Sink>(output: &mut K, text: &[u8]) -> bool
    ensures sent { Pushes result text.now (K.held output.old) (K.held output.new) }
    ensures failed { K.has_failed output.new ≡ (not result || K.has_failed output.old) }
    ensures failed_push { K.push_has_failed output.new ≡ (not result || K.push_has_failed output.old) }
{
    let mut rest = text;
    while !rest.is_empty() {
        match output.push(rest) {
            None => return false,
            Some(n) => rest = &rest[n..],
        }
    }
    true
}

/// Appends all bytes, and then flushes, also where there are none. Returns whether both succeeded. It stops
/// at the first failure, and tries nothing again.
///
/// ```
/// let mut output = IntoWrite::new(std::vec::Vec::new());
/// assert!(send(&mut output, b"freed\n"));
/// assert_eq!(output.into_inner(), b"freed\n");
/// ```
pub fn send<K: Sink>(output: &mut K, text: &[u8]) -> bool
    // On `true` the whole text is appended and flushed, on `false` a beginning of it is appended: the whole,
    // where no push has failed. It is `false` exactly where the sink failed in this call, if it had
    // not failed before.
    ensures { Sends text.now K.Sink output.old output.new result }
{
    push_all(output, text) && output.flush()
}

// `push_all` of a text in pieces.
fn push_pieces<K: Sink>(output: &mut K, pieces: &[Vec<u8>]) -> bool
    ensures sent { Pushes result (flat_map (λ piece. piece.items) pieces.now)
        (K.held output.old) (K.held output.new) }
    ensures failed { K.has_failed output.new ≡ (not result || K.has_failed output.old) }
    ensures failed_push { K.push_has_failed output.new ≡ (not result || K.push_has_failed output.old) }
{
    for part in pieces {
        if !push_all(output, part) {
            return false;
        }
    }
    true
}

/// `send` of a text in pieces.
pub(crate) fn send_in_turn<K: Sink>(output: &mut K, pieces: &[Vec<u8>]) -> bool
    ensures { Sends (flat_map (λ piece. piece.items) pieces.now) K.Sink output.old output.new result }
{
    push_pieces(output, pieces) && output.flush()
}

/// Appends the line of a fault with its line end, and then flushes. Returns whether both succeeded. It stops
/// at the first failure, tries nothing again, and allocates nothing.
///
/// ```
/// let mut output = IntoWrite::new(std::vec::Vec::new());
/// assert!(send_fault(&mut output, RunFault::Read));
/// assert_eq!(output.into_inner(), b"read failed\n");
/// ```
pub fn send_fault<K: Sink>(output: &mut K, fault: RunFault) -> bool
    // On `true` the line of the fault with its line end is appended and flushed, on `false` a beginning of it
    // is appended: the whole, where no push has failed. It is `false` exactly where the sink failed in this
    // call, if it had not failed before.
    ensures { Sends (fault_line fault ++ line_end) K.Sink output.old output.new result }
{
    let (number, words) = fault.parts();
    let mut line: TextBuffer<LINE_BYTES> = TextBuffer::new();
    line.prepend("\n");
    line.prepend(words);
    if let Some(number) = number {
        line.prepend(": ");
        line.prepend_number(u64::from(number));
        line.prepend("line ");
    }
    send(output, line.bytes())
}
