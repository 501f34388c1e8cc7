//! Slides every live range to the front of the space: plainly, so that all free units are one block at its end, and
//! the bins are made anew; or by whole steps, as a pass of `over_frames` that no budget ends.
ghost use Rattle.std.specs.Prelude.{ℕ, ◌≡◌, ◌≢◌, ◌+◌, ◌*◌, ◌<◌, ◌≤◌, [], Some, false};
ghost use Rattle.std.specs.Prelude.{if◌then◌else◌, length, unwrap_or};
ghost use Rattle.std.specs.List.{FoldsTo};
ghost use Rattle.offset_allocator.specs.Accesses.{Costs};
ghost use Rattle.offset_allocator.specs.View.{free_sizes, AreInBins};
ghost use Rattle.offset_allocator.specs.Bins.{IsBinned, bins_in};
ghost use Rattle.offset_allocator.specs.Chain.{IsSpace, blocks};
ghost use Rattle.offset_allocator.specs.Moving.BySteps.{CompactsBy, moves_by};
ghost use Rattle.offset_allocator.specs.Moving.Compacting.{live, moves, Compacts, KeepsSizes};
ghost use Rattle.offset_allocator.specs.Moving.Compacting.{IsCalledWith, IsStart, first_among, first_free};
ghost use Rattle.offset_allocator.specs.Moving.Compacting.{newest, until, until_free};

use crate::accesses::Accesses;
use crate::moves::slide::to_front;
use crate::small_float::uint_to_float_round_down;
use crate::tables::Tables;
use crate::{AllocatorOf, Move, bins, chain};

// The most bins that are looked into for a free block near the start of the space.
const MOST_BINS: u32 = 32;

// A block to begin the search for the first free one at, which is this one or before it: of the newest blocks
// of the first bins that have some, the first in space, or the last block of the space where none is free.
fn search_start<T: Tables>(tables: &T, top_mask: u32, last: u32, count: &mut Accesses) -> u32
    requires space { (spare : ℕ) × IsSpace (T.cells tables.now).chain last spare }
    requires binned { IsBinned T.Index.MAX (T.cells tables.now).bins top_mask }
    requires filed { AreInBins (blocks (T.cells tables.now).chain last)
        (bins_in T.Index.MAX (T.cells tables.now).bins) }
    ensures first { result
        ≡ unwrap_or (first_among (newest 32 (bins_in T.Index.MAX (T.cells tables.now).bins))
        (blocks (T.cells tables.now).chain last)) last }
    ensures start { IsStart (blocks (T.cells tables.now).chain last) result }
    ensures accesses { count.new
        ≡ count.old + 4 + 2 * length (newest 32 (bins_in T.Index.MAX (T.cells tables.now).bins)) }
{
    let masks = bins::masks(tables, count);
    let mut start = last;
    // above each offset
    let mut lowest = u64::MAX;
    let mut class = 0;
    for _ in 0..MOST_BINS {
        if class > 255 {
            return start;
        }
        let Some(found) = bins::find_in_masks(&masks, top_mask, class) else {
            return start;
        };
        let name = tables.head(found, count);
        let offset = tables.offset(name, count) as u64;
        if offset < lowest {
            lowest = offset;
            start = name;
        }
        class = found + 1;
    }
    start
}

// The name of the first free block, if there is one. It is found by a walk back from `start`, since the first
// block of the space is not known.
fn first_free<T: Tables>(tables: &T, last: u32, start: u32, count: &mut Accesses) -> Option<u32>
    requires space { (spare : ℕ) × IsSpace (T.cells tables.now).chain last spare }
    requires start { IsStart (blocks (T.cells tables.now).chain last) start }
    ensures first { result ≡ first_free (blocks (T.cells tables.now).chain last) }
    ensures accesses { count.new ≡ count.old + 2 * until start (blocks (T.cells tables.now).chain last) }
    // no fewer than up to the first free block
    ensures least { until_free (blocks (T.cells tables.now).chain last)
        ≤ until start (blocks (T.cells tables.now).chain last) }
    ensures most { until start (blocks (T.cells tables.now).chain last)
        ≤ length (blocks (T.cells tables.now).chain last) }
{
    let mut first = None;
    let mut at = Some(start);
    while let Some(name) = at {
        if !chain::is_used(tables, name, count) {
            first = Some(name);
        }
        at = chain::before(tables, name, count);
    }
    first
}

impl<T: Tables> AllocatorOf<T> {
    /// Slides every live range to the front of the space, **where it keeps no alignment**: `compact_by` keeps those
    /// that divide its step. The ranges keep their order, and all free units are one block behind them. `moved` is
    /// called for each range that gets another offset, in space order: the units from `from` on are to be copied to
    /// `to`, as `copy_within` does. In this order no copy writes on a unit that a later one reads.
    ///
    /// Every handle stays live, with its name and its size; only the public `offset` of a moved one is that
    /// of before, and `allocation_offset` returns the new one. The free block at the end has the name of the first
    /// one that there was. `moved` has to be callable with any move: its contract may require nothing of it but what every
    /// move is, to a smaller offset and within the offsets that there are. If `moved` panics, the allocator must
    /// not be used any more: drop it. It makes at most 10 accesses to the tables for each block, and 384, and
    /// takes no memory.
    ///
    /// ```
    /// let hole = space.allocate(300).unwrap();
    /// let mesh = space.allocate(100).unwrap();
    /// space.free(hole);
    /// space.compact(&mut |it| assert_eq!((it.from, it.to, it.size), (300, 0, 100)));
    /// assert_eq!(space.allocation_offset(mesh), Some(0));
    /// ```
    pub fn compact<F: FnMut(Move<T::Index>)>(&mut self, moved: &mut F)
        requires callable { F.IsAlwaysCallable moved.old }
        // The live blocks keep their names, their sizes and their order: so every handle stays live, with its
        // size.
        ensures live { live self.new.blocks ≡ live self.old.blocks }
        ensures sizes { KeepsSizes self.old self.new }
        // The closure is called with the moves, in space order.
        ensures moved { FoldsTo
            (IsCalledWith T.Index.NonMax.number (λ f range g. F.step f range tt g)) moved.old
            (moves 0 0 self.old.blocks) moved.new }
        // It makes at least 2 accesses to table cells for each block, and 267 more where a block is free; at
        // most 10 for each, and 384.
        ensures accesses { Costs (2 * length self.old.blocks)
            (10 * length self.old.blocks + 384) self.old.accesses self.new.accesses }
        ensures accesses_some { free_sizes self.old.blocks ≢ []
            → self.old.accesses + 2 * length self.old.blocks + 267 ≤ self.new.accesses }
        // The step as a whole: the live blocks, and after them one free block of all free units, alone in its
        // bin.
        ensures step { Compacts self.old self.new }
    {
        let start = search_start(
            &self.store.tables,
            self.store.top_mask,
            self.store.last,
            &mut self.store.accesses,
        );
        let Some(first) = first_free(
            &self.store.tables,
            self.store.last,
            start,
            &mut self.store.accesses,
        ) else {
            return;
        };
        let size = self.store.tables.size(first, &mut self.store.accesses);
        bins::empty(&mut self.store);
        let hole = to_front(&mut self.store, first, size, None, 1, false, moved);
        let class = uint_to_float_round_down(hole.size);
        bins::push(&mut self.store, hole.name, class);
    }

    /// As `compact`, by whole steps: each live range moves to the front by a multiple of `step` units, by as
    /// many as the free blocks before it have, and so keeps its alignment where that divides `step`. An
    /// engine passes the least common multiple of the alignments that it uses. What whole steps leave of a
    /// free block stays a free block, and all that the others give up is one free block at the end of the
    /// space. `moved` is called for each range that gets another offset, in space order, as by `compact`.
    ///
    /// Every handle stays live, with its name and its size; only the public `offset` of a moved one is that
    /// of before, and `allocation_offset` returns the new one. Nothing changes where no free block before
    /// another block has a whole step. `false` is returned, and nothing changes, where there is such a block
    /// but the free block at the end would need a node that there is not: the node limit admits no further
    /// block, and none of the free ones from that one on is used up, which would give its node back, as one of
    /// whole steps is, and a last one. So where the step is 1 it is never refused, as `compact` is not. If
    /// `moved` panics, the allocator must not be used any more: drop it.
    ///
    /// The step has to be at least 1. It makes at most 21 accesses to the tables for each block, and 40, and
    /// takes no memory.
    ///
    /// ```
    /// let hole = space.allocate(300).unwrap();
    /// let mesh = space.allocate_aligned(256, 256).unwrap();
    /// space.free(hole);
    /// assert!(space.compact_by(256, &mut |it| assert_eq!((it.from, it.to, it.size), (512, 0, 256))));
    /// assert_eq!(space.allocation_offset(mesh), Some(0));
    /// ```
    pub fn compact_by<F: FnMut(Move<T::Index>)>(&mut self, step: u32, moved: &mut F) -> bool
        requires some { 1 ≤ step }
        requires callable { F.IsAlwaysCallable moved.old }
        // The live blocks keep their names, their sizes and their order: so every handle stays live, with its
        // size.
        ensures live { live self.new.blocks ≡ live self.old.blocks }
        ensures sizes { KeepsSizes self.old self.new }
        // The closure is called with the moves, in space order, each by whole steps.
        ensures moved { FoldsTo (IsCalledWith T.Index.NonMax.number (λ f range g. F.step f range tt g)) moved.old
            (if result then moves_by step 0 0 self.old.blocks else []) moved.new }
        ensures accesses { Costs (length self.old.blocks)
            (21 * length self.old.blocks + 40) self.old.accesses self.new.accesses }
        // The step as a whole: what stays of the free blocks, and the one at the end.
        ensures step { CompactsBy step self.old self.new result }
    {
        self.store.tables.shape();
        self.formed();
        self.compact_within(step, 0, u32::MAX, u32::MAX, moved)
            .is_some()
    }
}
