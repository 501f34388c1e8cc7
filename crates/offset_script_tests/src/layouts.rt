//! The answers that a layout has to give. The layouts are named here alone: the proof of a call takes seconds for
//! each of them.

use crate::playing::expect_with;
use offset_allocator::{ByField, ByNode, NodeIndex};
use offset_script::Script;
use offset_test_base::tiny::Tiny;
use std::alloc::Global;
use std::process::Abort;

// Expects the same of both layouts with one index type.
fn expect_of_both<NI: NodeIndex>(rt: &impl Abort, alloc: Global, script: &Script, wanted: &str) {
    expect_with::<ByNode<NI>>(rt, alloc, script, wanted);
    expect_with::<ByField<NI>>(rt, alloc, script, wanted);
}

/// Expects these answers to a script by both layouts with both index types, and with a third where it admits the
/// limit.
pub fn expect_answers(rt: &impl Abort, alloc: Global, script: &Script, wanted: &str) {
    expect_of_both::<u32>(rt, alloc, script, wanted);
    expect_of_both::<u16>(rt, alloc, script, wanted);
    if script.max_allocs <= 5 {
        expect_of_both::<Tiny>(rt, alloc, script, wanted);
    }
}
