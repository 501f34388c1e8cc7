//! A use of `run` on bytes in memory, proved from the contract of `run` alone.

ghost use Rattle.std.specs.Prelude.{◌≡◌, ◌≢◌, [], Some, Ok, Err, IfOk, IfErr, true, false};
ghost use Rattle.offset_script.specs.declared.faults.ScriptFault.{ScriptFault};
ghost use Rattle.offset_script.specs.declared.faults.RunFault.TheVariants as faults;
ghost use Rattle.offset_script.specs.Grammar.{meaning_of};
ghost use Rattle.offset_script.specs.Running.{IsTextOfAnswers, SendsText};

use offset_script::{IntoWrite, RunFault, Source, run};
use std::alloc::Global;
use std::io::Read;

/// The bytes of a slice that are left to read. Reading them never fails.
#[derive(Drop)]
pub struct Bytes<'a> {
    /// What is left.
    pub left: &'a [u8],
}

impl<'a> Source for Bytes<'a> {
    ghost left = { λ s. Some s.left.now };

    ghost has_failed = { λ s. false };

    fn pull(&mut self, buf: &mut [u8]) -> Option<usize> {
        self.left.read(buf).ok()
    }
}

/// Plays a script, and returns the text of its answers, or the fault: that of the script, or `Memory`.
pub fn answers_in_memory(alloc: Global, text: &[u8]) -> Result<Vec<u8>, RunFault>
    ensures answers { IfOk result
        (λ bytes. SendsText IsTextOfAnswers text.now true (Some []) (Some bytes.items)) }
    ensures fault { (f : ScriptFault) → result ≡ Err (faults.Script f) → meaning_of text.now ≡ Err f }
    ensures memory { IfErr result (λ f. (f ≢ faults.Read) × (f ≢ faults.Write)) }
{
    let mut output = IntoWrite::new(Vec::new(alloc));
    match run(alloc, &mut Bytes { left: text }, &mut output) {
        Ok(()) => Ok(output.into_inner()),
        // a vector refuses bytes only where an allocation fails
        Err(RunFault::Write) => Err(RunFault::Memory),
        Err(fault) => Err(fault),
    }
}
