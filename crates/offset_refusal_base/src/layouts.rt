//! The layouts of the tables. The choice of one is proved here once, and not anew in each call.

use crate::cells::Cells;
use crate::outcomes::Failure;
use offset_allocator::{Allocation, ByField, ByNode, Tables};
use offset_script::{IndexWidth, Script, parse};
use std::alloc::Global;

/// A place for a handle. The places take no memory from the allocator of the call.
pub type Kept<NI> = Option<Allocation<NI>>;

/// A layout of the tables.
#[derive(Clone, Copy)]
pub enum Layout {
    ByNode,
    ByField,
}

/// What is done for a script on one layout, with its index width.
pub trait Work {
    fn run<T: Tables>(
        &self,
        alloc: Global,
        script: &Script,
        kept: &mut [Kept<T::Index>],
        cells: &mut Cells<'_>,
    ) -> Result<(), Failure>;
}

/// The script of a text. Any fault is `Unfit`, so that `OutOfMemory` comes only from the call after it.
pub fn script(alloc: Global, text: &[u8]) -> Result<Script, Failure> {
    match parse(alloc, text) {
        Ok(script) => Ok(script),
        Err(_) => Err(Failure::Unfit),
    }
}

/// Does the work for the script of a text. Handles have a type for each index width.
pub fn run_on<W: Work>(
    layout: Layout,
    work: &W,
    alloc: Global,
    text: &[u8],
    cells: &mut Cells<'_>,
) -> Result<(), Failure> {
    let script = script(alloc, text)?;
    let mut narrow: [Kept<u16>; 16] = [None; 16];
    let mut wide: [Kept<u32>; 16] = [None; 16];
    match (layout, script.index) {
        (Layout::ByNode, IndexWidth::Bits16) => {
            work.run::<ByNode<u16>>(alloc, &script, &mut narrow, cells)
        }
        (Layout::ByNode, IndexWidth::Bits32) => {
            work.run::<ByNode<u32>>(alloc, &script, &mut wide, cells)
        }
        (Layout::ByField, IndexWidth::Bits16) => {
            work.run::<ByField<u16>>(alloc, &script, &mut narrow, cells)
        }
        (Layout::ByField, IndexWidth::Bits32) => {
            work.run::<ByField<u32>>(alloc, &script, &mut wide, cells)
        }
    }
}
