//! A compaction by whole steps that goes on from an offset, and stops within a budget, so that it can be done
//! over several frames. It changes what `compact_by` changes, for a run of blocks.
ghost use Rattle.std.specs.Prelude.{◌≡◌, ◌≢◌, ◌↔◌, ◌+◌, ◌*◌, ◌⊎◌, ◌≤◌, ◌<◌, [], ◌∷◌, ◌++◌, ℕ, List, None, Some, IfSome};
ghost use Rattle.std.specs.Prelude.{IsTrue, ◌%◌, ◌&&◌, false, length, max, nat_le, not};
ghost use Rattle.offset_allocator.specs.Accesses.{Costs};
ghost use Rattle.offset_allocator.specs.Cells.{node};
ghost use Rattle.offset_allocator.specs.Chain.{IsSpace, blocks, last_or};
ghost use Rattle.offset_allocator.specs.Moving.Budget.{CompactsWithin, IsWithin, StopsAt, first_from, start_of};
ghost use Rattle.offset_allocator.specs.Moving.BySteps.{used_up};
ghost use Rattle.offset_allocator.specs.Moving.Compacting.{IsCalledWith, KeepsSizes, live};
ghost use Rattle.offset_allocator.specs.View.{Block, units, count_used, used_units};

use crate::accesses::Accesses;
use crate::index::linked;
use crate::moves::slide::slide_run;
use crate::tables::Tables;
use crate::{AllocatorOf, Move, chain};

/// How far a call of `compact_within` came.
#[derive(Clone, Copy, PartialEq, Debug)]
pub struct Progress {
    /// The units of the ranges that moved.
    pub units: u32,
    /// How many ranges moved, those of no units too.
    pub ranges: u32,
    /// Where the next call goes on, or `None` where this one came to the end of the space.
    pub next: Option<u32>,
}

// The last block of a run, whether it is used, and how far it comes.
#[derive(Clone, Copy)]
struct Reach {
    end: u32,
    end_used: bool,
    // whether the node limit admits a free block after it, or one before the last block is used up
    follows: bool,
    progress: Progress,
}

// Whether a block of `size` units is free and has at least `step` of them.
fn has_step<T: Tables>(tables: &T, name: u32, size: u32, step: u32, count: &mut Accesses) -> bool
    requires { name < length (T.cells tables.now).chain.nodes }
    ensures is { result ≡ (not (node (T.cells tables.now).chain name).used && nat_le step size) }
    ensures accesses { count.new ≡ count.old + 1 }
{
    if chain::is_used(tables, name, count) {
        return false;
    }
    size >= step
}

// Whether there is a node already, or a free block of `size` units before another one is used up.
fn is_freed(freed: bool, size: u32, step: u32) -> bool
    requires some { 1 ≤ step }
    ensures is { IsTrue result ↔ (IsTrue freed ⊎ (size % step ≡ 0)) }
{
    freed || size % step == 0
}

// The same of a free block by its name.
fn is_freed_by<T: Tables>(
    tables: &T,
    freed: bool,
    name: u32,
    step: u32,
    count: &mut Accesses,
) -> bool
    requires below { name < length (T.cells tables.now).chain.nodes }
    requires some { 1 ≤ step }
    ensures is { IsTrue result ↔ (IsTrue freed ⊎ ((node (T.cells tables.now).chain name).size % step ≡ 0)) }
    ensures accesses { Costs 0 1 count.old count.new }
{
    freed || tables.size(name, count) % step == 0
}

/// The name of the first free block of at least `step` units that ends at the offset `from` or behind it and has
/// a block after it, if there is one. The walk goes back from the last block, as far as `from`.
pub(crate) fn first_from<T: Tables>(
    tables: &T,
    last: u32,
    step: u32,
    from: u32,
    count: &mut Accesses,
) -> Option<u32>
    requires space { (spare : ℕ) × IsSpace (T.cells tables.now).chain last spare }
    ensures first { result ≡ first_from step from 0 (blocks (T.cells tables.now).chain last) }
    ensures accesses { (count.old ≤ count.new)
        × (count.new + 3 ≤ count.old + 4 * length (blocks (T.cells tables.now).chain last)) }
    ensures accesses_all { from ≡ 0 → count.old + length (blocks (T.cells tables.now).chain last) ≤ count.new }
{
    let mut first = None;
    let mut at = chain::before(tables, last, count);
    while let Some(name) = at {
        let size = tables.size(name, count);
        let end = tables.offset(name, count) + size;
        if end < from {
            return first;
        }
        if has_step(tables, name, size, step, count) {
            first = Some(name);
        }
        at = chain::before(tables, name, count);
    }
    first
}

// Whether one range more is beyond a budget: the first one never is.
fn is_beyond(moved: Progress, size: u32, most_units: u32, most_ranges: u32) -> bool
    ensures beyond { IsTrue result ↔ ((1 ≤ moved.ranges)
        × ((most_units < moved.units + size) ⊎ (most_ranges ≤ moved.ranges))) }
{
    moved.ranges > 0
        && (moved.units as u64 + size as u64 > most_units as u64 || moved.ranges >= most_ranges)
}

// Whether a free block can follow a run: one that ends in a free block has a node for it.
fn can_follow(reach: Reach) -> bool
    ensures is { IsTrue result ↔ (IsTrue reach.follows ⊎ (reach.end_used ≡ false)) }
{
    !reach.end_used || reach.follows
}

// The run from the free block `first` on, as far as a budget goes.
#[inline(always)]
fn run_from<T: Tables>(
    tables: &T,
    first: u32,
    step: u32,
    admits: bool,
    most_units: u32,
    most_ranges: u32,
    count: &mut Accesses,
) -> Reach
    requires some { 1 ≤ step }
    requires place { (last spare : ℕ) × (front : List Block) × (b : Block) × (after : List Block)
        × IsSpace (T.cells tables.now).chain last spare
        × (blocks (T.cells tables.now).chain last ≡ front ++ b ∷ after) × (b.name ≡ first) × (b.used ≡ false) }
    ensures place { (last spare : ℕ) (front : List Block) (b : Block) (after : List Block)
        → IsSpace (T.cells tables.now).chain last spare
        → blocks (T.cells tables.now).chain last ≡ front ++ b ∷ after → b.name ≡ first → b.used ≡ false
        → (rest back : List Block) × (after ≡ rest ++ back) × IsWithin most_units most_ranges rest
        × StopsAt most_units most_ranges rest back × (last_or None (b ∷ rest) ≡ Some result.end)
        × ((IsTrue result.follows ⊎ (result.end_used ≡ false))
        ↔ (IsTrue admits ⊎ (used_up step (b ∷ rest) ≢ [])))
        × (result.progress ≡ record {
          units = used_units rest;
          ranges = count_used rest;
          next = start_of (units (front ++ b ∷ rest)) back;
        })
        × (count.old ≤ count.new) × (count.new ≤ count.old + 3 * length rest + 5) }
{
    tables.shape();
    let mut reach = Reach {
        end: first,
        end_used: false,
        follows: is_freed_by(tables, admits, first, step, count),
        progress: Progress {
            units: 0,
            ranges: 0,
            next: None,
        },
    };
    let mut at = linked(tables.after(first, count));
    while let Some(name) = at {
        let size = tables.size(name, count);
        let used = chain::is_used(tables, name, count);
        if used {
            if is_beyond(reach.progress, size, most_units, most_ranges) {
                reach.progress.next = Some(tables.offset(name, count));
                return reach;
            }
            reach.progress.units += size;
            reach.progress.ranges += 1;
        } else {
            reach.follows = is_freed(reach.follows, size, step);
        }
        reach.end = name;
        reach.end_used = used;
        at = linked(tables.after(name, count));
    }
    reach
}

impl<T: Tables> AllocatorOf<T> {
    /// As `compact_by`, for a part of the space: moves the live ranges behind the first free block of at least a
    /// step that ends at the offset `from` or later, in space order, until the next one would take more than
    /// `most_units` units, or more than `most_ranges` ranges, in all. The first one moves in any case, so that
    /// each call comes further. So a compaction can be done over several frames: begin at 0, and go on from
    /// where `next` of the result says, whatever was granted and freed between the calls; free blocks that end
    /// before `from` wait for the next pass. All that the free blocks give up is one free block behind the last
    /// range that moved.
    ///
    /// The result says how many units and ranges moved, each by at least a step, and `next`. That is the same
    /// offset again where a range of no units began there, and `None` where the end of the space was reached: a
    /// pass is done, and the next one begins at 0. Where nothing has to move, these are 0, 0 and `None`. `None`
    /// is returned, and nothing changes, where the free block behind the last range that would move needs a node
    /// that there is not, as by `compact_by`: the node limit admits no further block, and no free block of the
    /// run is used up. With a larger budget one may be; where the step is 1 it is never refused. `moved`, handles
    /// and alignments are as of `compact_by`. If `moved` panics, the allocator must not be used any more: drop it.
    ///
    /// The step has to be at least 1. It walks from the last block back to `from`, also where nothing moves: it
    /// makes at most 4 accesses to the tables for each block, 42 for each range that the budget allows, and 60,
    /// and never more than 21 for each block, and 40. It takes no memory.
    ///
    /// ```
    /// let hole = space.allocate(300).unwrap();
    /// let mesh = space.allocate(100).unwrap();
    /// space.allocate(100);
    /// space.free(hole);
    /// let progress = space.compact_within(1, 0, 150, 8, &mut |_| {}).unwrap();
    /// assert_eq!(progress, Progress { units: 100, ranges: 1, next: Some(400) });
    /// assert_eq!(space.allocation_offset(mesh), Some(0));
    /// let progress = space.compact_within(1, 400, 150, 8, &mut |_| {}).unwrap();
    /// assert_eq!(progress, Progress { units: 100, ranges: 1, next: None });
    /// ```
    pub fn compact_within<F: FnMut(Move<T::Index>)>(
        &mut self,
        step: u32,
        from: u32,
        most_units: u32,
        most_ranges: u32,
        moved: &mut F,
    ) -> Option<Progress>
        requires some { 1 ≤ step }
        requires callable { F.IsAlwaysCallable moved.old }
        // The live blocks keep their names, their sizes and their order: so every handle stays live, with its
        // size.
        ensures live { live self.new.blocks ≡ live self.old.blocks }
        ensures sizes { KeepsSizes self.old self.new }
        // One range, or as many as the budget allows.
        ensures budget { IfSome result (λ p. (p.ranges ≡ 1)
            ⊎ ((p.units ≤ most_units) × (p.ranges ≤ most_ranges))) }
        ensures accesses { Costs 0 (21 * length self.old.blocks + 40) self.old.accesses self.new.accesses }
        ensures accesses_all { from ≡ 0
            → self.old.accesses + length self.old.blocks ≤ self.new.accesses }
        // The slide costs what the budget allows: what grows with all blocks is the walk to where it begins.
        ensures accesses_budget { self.new.accesses
            ≤ self.old.accesses + 4 * length self.old.blocks + 42 * max 1 most_ranges + 60 }
        // The step as a whole, with the moves: which run slides, and how far it came.
        ensures step { CompactsWithin (IsCalledWith T.Index.NonMax.number (λ f range g. F.step f range tt g))
            step from most_units most_ranges self.old moved.old result self.new moved.new }
    {
        self.formed();
        let last = self.store.last;
        let Some(first) = first_from(
            &self.store.tables,
            last,
            step,
            from,
            &mut self.store.accesses,
        ) else {
            return Some(Progress {
                units: 0,
                ranges: 0,
                next: None,
            });
        };
        let admits = self.admits_blocks(1);
        let reach = run_from(
            &self.store.tables,
            first,
            step,
            admits,
            most_units,
            most_ranges,
            &mut self.store.accesses,
        );
        if !can_follow(reach) {
            return None;
        }
        slide_run(&mut self.store, first, reach.end, step, moved);
        Some(reach.progress)
    }
}
