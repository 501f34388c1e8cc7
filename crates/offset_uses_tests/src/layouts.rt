//! The layout by node, with each index type. The choice of a type is proved here once, and not anew in each
//! test.

use offset_allocator::{ByNode, Tables};
use offset_test_base::tiny::Tiny;
use std::alloc::Global;
use std::process::Abort;

/// The layout by node, by its index type.
#[derive(Clone, Copy)]
pub enum Layout {
    Wide,
    Narrow,
    Tiny,
}

/// Each index type once.
pub const ALL: [Layout; 3] = [Layout::Wide, Layout::Narrow, Layout::Tiny];

/// What is expected of a layout.
pub trait Expectation {
    fn check<T: Tables>(&self, rt: &impl Abort, alloc: Global);
}

/// Checks what is expected of these layouts, one after another.
pub fn check_each<E: Expectation>(
    rt: &impl Abort,
    alloc: Global,
    layouts: &[Layout],
    expected: &E,
) {
    for layout in layouts {
        match layout {
            Layout::Wide => expected.check::<ByNode<u32>>(rt, alloc),
            Layout::Narrow => expected.check::<ByNode<u16>>(rt, alloc),
            Layout::Tiny => expected.check::<ByNode<Tiny>>(rt, alloc),
        }
    }
}

/// Checks what is expected of the first layout.
pub fn check<E: Expectation>(rt: &impl Abort, alloc: Global, expected: &E) {
    check_each(rt, alloc, &[Layout::Wide], expected);
}
