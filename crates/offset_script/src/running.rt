//! Runs a script from a source to a sink, by a `Rendering`, whose trait is here. It touches source and sink alone,
//! and sends nothing before all is read and made.

ghost use Rattle.std.specs.Prelude.{◌≡◌, ◌≢◌, ◌⊎◌, ℕ, false, IfOk, IfErr, IfSome, List, ◌||◌};
ghost use Rattle.offset_script.specs.Grammar.{Plan};
ghost use Rattle.offset_script.specs.Running.{HasText, IsScriptOf, Runs, as_plan};
ghost use Rattle.offset_script.specs.Sending.{Sends};
ghost use Rattle.offset_script.specs.Running.{is_read_fault, is_write_fault};
ghost use Rattle.offset_script.specs.declared.faults.RunFault.TheVariants as faults;
ghost use Rattle.offset_script.specs.declared.faults.ScriptFault.TheVariants as script_fault;

use crate::devices::{Sink, Source};
use crate::faults::RunFault;
use crate::parsing::{MAX_TEXT, parse};
use crate::scripts::Script;
use std::alloc::{AllocError, Global};

// The largest number of bytes that one pull requests.
const PULL_BYTES: usize = 16384;

// All bytes of the source, or its first `MAX_TEXT + 1`. It stops at the first failure.
fn read_text<S: Source>(alloc: Global, input: &mut S) -> Result<Vec<u8>, RunFault>
    ensures text { IfOk result (λ text. HasText text.items (S.left input.old) (S.left input.new)) }
    ensures failed { S.has_failed input.new ≡ (is_read_fault result || S.has_failed input.old) }
    ensures fault { IfErr result (λ f. (f ≡ faults.Memory) ⊎ (f ≡ faults.Read)) }
{
    let mut text = Vec::new(alloc);
    let mut piece = [0u8; PULL_BYTES];
    while text.len() <= MAX_TEXT {
        let room = (MAX_TEXT + 1 - text.len()).min(PULL_BYTES);
        match input.pull(&mut piece[..room]) {
            None => return Err(RunFault::Read),
            Some(0) => break,
            Some(n) => text.extend_from_slice(&piece[..n])?,
        }
    }
    Ok(text)
}

/// Reads a source to its end as a script, and returns it, or the fault.
///
/// Of a text that is too long, 1,048,577 bytes are read. `Read` is returned exactly where the source failed
/// in this call; no failed call is tried again. Where an allocation fails, the fault is `Memory`.
///
/// ```
/// let mut input = FromRead::new(&b"space 1000 nodes 16 index 32\nalloc 300\n"[..]);
/// let script = read_script(alloc, &mut input)?;
/// assert_eq!(script.max_allocs, 16);
/// ```
pub fn read_script<S: Source>(alloc: Global, input: &mut S) -> Result<Script, RunFault>
    // Where the text of the source is known: the result is the script that the text means, or its fault, and
    // nothing of the text is left, except what follows the first 1,048,577 bytes of one that is too long. On
    // `Memory` and `Read` nothing is said.
    ensures of_text { IfSome (S.left input.old) (λ text. IsScriptOf result text (S.left input.new)) }
    // Out of memory is `Memory`, and never `Script(Memory)`.
    ensures memory { result ≢ Err (faults.Script script_fault.Memory) }
    // The fault is never `Write`.
    ensures write { is_write_fault result ≡ false }
    // The fault is `Read` exactly where the source failed in this call, if it had not failed before.
    ensures read { S.has_failed input.new ≡ (is_read_fault result || S.has_failed input.old) }
{
    let text = read_text(alloc, input)?;
    Ok(parse(alloc, &text)?)
}

/// What a run makes of a script, and sends: the text of its answers, or a picture.
pub trait Rendering {
    // Whether this is the rendering of a plan.
    ghost IsRendering: { Self → Plan → List ℕ → Type 0 };

    /// Appends the rendering of a script, and then flushes. Returns whether both succeeded. It stops at the
    /// first failure, and tries nothing again. Where an allocation fails, nothing is appended.
    fn send<K: Sink>(
        &self,
        alloc: Global,
        script: &Script,
        output: &mut K,
    ) -> Result<bool, AllocError>
        ensures sent { IfOk result (λ sent. (text : List ℕ) × IsRendering self.now (as_plan script.now) text
            × Sends text K.Sink output.old output.new sent) }
        ensures untouched { IfErr result (λ _. output.new ≡ output.old) };
}

/// `run`, with another rendering of a script in place of the text of its answers.
pub fn run_of<X: Rendering, S: Source, K: Sink>(
    alloc: Global,
    rendering: &X,
    input: &mut S,
    output: &mut K,
) -> Result<(), RunFault>
    ensures { Runs (X.IsRendering rendering.now) S.Source K.Sink input.old input.new output.old output.new
        result }
{
    let script = read_script(alloc, input)?;
    if rendering.send(alloc, &script, output)? {
        Ok(())
    } else {
        Err(RunFault::Write)
    }
}
