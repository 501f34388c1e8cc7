//! What scripts and texts give, for the tests to compare.

use crate::asserts::{assert_same, assert_that};
use offset_allocator::{NodeIndex, Tables};
use offset_script::{
    FromRead, IntoWrite, RunFault, Script, Sink, Source, parse, play_of, play_script, run,
};
use std::alloc::Global;
use std::process::Abort;

/// The result of a run. It promises no more, which keeps the proofs of its callers short.
pub fn run_result<S: Source, K: Sink>(
    alloc: Global,
    input: &mut S,
    output: &mut K,
) -> Result<(), RunFault> {
    run(alloc, input, output)
}

/// What a run writes, followed by the line and the status of its fault if it has one.
pub fn outcome(rt: &impl Abort, alloc: Global, text: &[u8]) -> String {
    let mut output = IntoWrite::new(Vec::new(alloc));
    let result = run_result(alloc, &mut FromRead::new(text), &mut output);
    let mut written = String::from_utf8(output.into_inner()).expect(rt, "a text");
    if let Err(fault) = result {
        let status = fault.status();
        write!(written, "{fault}, status {status}").expect(rt, "memory");
    }
    written
}

/// The script of a text.
pub fn script_of(rt: &impl Abort, alloc: Global, text: &[u8]) -> Script {
    parse(alloc, text).expect(rt, "a script")
}

/// The answers to a script by `play_script`, as text.
pub fn answers_of(rt: &impl Abort, alloc: Global, script: &Script) -> String {
    let answers = play_script(alloc, script).expect(rt, "memory");
    format!(in alloc; "{answers:?}").expect(rt, "memory")
}

/// The answers to a script by one layout, as text.
pub fn answers_with<T: Tables>(rt: &impl Abort, alloc: Global, script: &Script) -> String {
    assert_that(rt, script.max_allocs < T::Index::MAX - 1);
    let played = play_of::<T>(alloc, script.size, script.max_allocs, &script.commands);
    let answers = played.expect(rt, "memory");
    format!(in alloc; "{answers:?}").expect(rt, "memory")
}

/// Expects these answers to a script by one layout.
pub fn expect_with<T: Tables>(rt: &impl Abort, alloc: Global, script: &Script, wanted: &str) {
    let found = answers_with::<T>(rt, alloc, script);
    assert_same(rt, &found.as_str(), &wanted);
}
