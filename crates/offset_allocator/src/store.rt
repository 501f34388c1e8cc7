//! The tables with the numbers that belong to them, and the nodes that are made where no name is unused: it
//! touches the nodes that it makes, and the stack of unused names.
ghost use Rattle.std.specs.Prelude.{ℕ, ◌<◌, List, length, take};
ghost use Rattle.offset_allocator.specs.Accesses.{Costs};
ghost use Rattle.offset_allocator.specs.Chain.{IsChain};
ghost use Rattle.offset_allocator.specs.View.{Block};
ghost use Rattle.offset_allocator.specs.Readies.{AreReady, Readies};

use crate::accesses::Accesses;
use crate::tables::Tables;

/// The tables, and with them: which words of the masks are not 0, the last block, and how many made nodes
/// no block has. It has no invariant: `neighbours` changes it in the middle of a step, and the invariant of
/// `Allocator` holds between steps.
#[derive(Drop)]
pub(crate) struct Store<T: Tables> {
    pub(crate) tables: T,
    // bit w says whether word w of the bins' mask is not 0
    pub(crate) top_mask: u32,
    // the name of the last block in space order
    pub(crate) last: u32,
    // how many made nodes have no block; their names, the unused ones, are the first `spare_count` entries of
    // the stack
    pub(crate) spare_count: u32,
    // takes no bytes at run time
    pub(crate) accesses: Accesses,
}

/// Makes sure that there is an unused name: it makes a node where there is none.
#[inline(always)]
pub(crate) fn ensure_spare<T: Tables>(tables: &mut T, spare_count: &mut u32, count: &mut Accesses)
    requires memory { (limit last : ℕ) × (bs : List Block)
        × IsChain (T.cells tables.old).chain limit last spare_count.old bs × (length bs < limit) }
    ensures readies { Readies T.Index.MAX (T.cells tables.old)
        (T.cells tables.new) spare_count.old spare_count.new }
    ensures some { 0 < spare_count.new }
    ensures unused { AreReady (T.cells tables.old).chain spare_count.old
        (take spare_count.new (T.cells tables.new).chain.spare) }
    ensures accesses { Costs 0 8 count.old count.new }
{
    tables.shape();
    if *spare_count == 0 {
        tables.add(0, count);
        *spare_count = 1;
    }
}
