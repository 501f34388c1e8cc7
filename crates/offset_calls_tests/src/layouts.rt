//! The replies that a layout has to give. The layouts are named here alone: the proof of a call takes seconds for
//! each of them.

use crate::calls::{List, expect_replies};
use crate::long_lists::expect_long;
use offset_allocator::{ByField, ByNode, NodeIndex, Tables};
use offset_test_base::tiny::Tiny;
use std::alloc::Global;
use std::process::Abort;

/// What is played on each layout.
#[derive(Clone, Copy)]
pub enum Trial<'a> {
    /// Calls, and the texts of their replies.
    Replies(&'a List),
    /// Lists of many lengths.
    Lengths,
}

fn expect_of<T: Tables>(rt: &impl Abort, alloc: Global, trial: Trial<'_>) {
    match trial {
        Trial::Replies(list) => expect_replies::<T>(rt, alloc, list),
        Trial::Lengths => expect_long::<T>(rt, alloc),
    }
}

fn limit_of(trial: Trial<'_>) -> u32 {
    match trial {
        Trial::Replies(list) => list.limit,
        Trial::Lengths => 60_000,
    }
}

// Expects the same of both layouts with one index type.
fn expect_of_both<NI: NodeIndex>(rt: &impl Abort, alloc: Global, trial: Trial<'_>) {
    expect_of::<ByNode<NI>>(rt, alloc, trial);
    expect_of::<ByField<NI>>(rt, alloc, trial);
}

/// Expects the same of both layouts with both index types, and with a third where it admits the limit.
pub fn expect_of_each(rt: &impl Abort, alloc: Global, trial: Trial<'_>) {
    expect_of_both::<u32>(rt, alloc, trial);
    expect_of_both::<u16>(rt, alloc, trial);
    if limit_of(trial) <= 5 {
        expect_of_both::<Tiny>(rt, alloc, trial);
    }
}
