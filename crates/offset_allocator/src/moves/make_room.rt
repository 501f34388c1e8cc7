//! Makes room for a request: slides the live ranges of a run of blocks to its front, so that its free units
//! are one block after them. It changes the chain by `gap`, and the bins of the blocks of the run.
ghost use Rattle.std.specs.Prelude.{◌≡◌, ◌+◌, ◌*◌, ◌≤◌, IfSome, length};
ghost use Rattle.offset_allocator.specs.Accesses.{Costs};
ghost use Rattle.offset_allocator.specs.Moving.RoomBySteps.{IsLeastCostBy, MakesRoomBy, names_short};
ghost use Rattle.offset_allocator.specs.Requests.{CanGrant, blocks_needed, units_needed};
ghost use Rattle.offset_allocator.specs.Moving.Compacting.{IsCalledWith, KeepsSizes, live};
ghost use Rattle.offset_allocator.specs.Classes.{up, value};
ghost use Rattle.offset_allocator.specs.Moving.Room.{IsLeastCost, MakesRoom, ranges_of};

use crate::moves::room::RoomCost;
use crate::moves::runs::{cheapest, cheapest_by};
use crate::moves::slide::{slide_run, to_front};
use crate::small_float::{float_to_uint, uint_to_float_round_down, uint_to_float_round_up};
use crate::tables::Tables;
use crate::{AllocatorOf, Move, bins};

impl<T: Tables> AllocatorOf<T> {
    /// Makes room for a request of `size` units by ranges that move, **and keep no alignment**: `make_room_by` keeps
    /// those that divide its step. It moves as few as possible, and none where none has to move: it slides the live ranges of a run of blocks to its front, so that its free units are one block
    /// after them, which is large enough. The run is one that costs what `room_cost(size)` returns, which
    /// this returns too: ask that first where a budget has to be kept. `moved` is called for each range that
    /// moves, in space order, as by `compact`: the units from `from` on are to be copied to `to`.
    ///
    /// Every handle stays live, with its name and its size; only the public `offset` of a moved one is that
    /// of before, and `allocation_offset` returns the new one. Nothing
    /// changes, and `moved` is not called, where no range has to move: where `None` is returned, since all
    /// free units together are not enough, and where the cost has no ranges, since one free block is large
    /// enough. Else the request is granted afterwards, also at the node limit. For an aligned request ask
    /// with `size + align - 1`: it is granted where the limit admits two blocks more. Of several runs that
    /// cost as much it is the last in space, and its free block keeps the name of its first one. If `moved`
    /// panics, the allocator must not be used any more: drop it. It makes at most 6 accesses to the tables for
    /// each block, 40 for each range that moves, and 20, and takes no memory.
    ///
    /// ```
    /// let hole = space.allocate(300).unwrap();
    /// space.allocate(100);
    /// space.free(hole);
    /// assert!(space.allocate(800).is_none());
    /// let cost = space.make_room(800, &mut |it| assert_eq!((it.from, it.to, it.size), (300, 0, 100)));
    /// assert_eq!(cost, Some(RoomCost { units: 100, ranges: 1 }));
    /// assert!(space.allocate(800).is_some());
    /// ```
    pub fn make_room<F: FnMut(Move<T::Index>)>(
        &mut self,
        size: u32,
        moved: &mut F,
    ) -> Option<RoomCost>
        requires callable { F.IsAlwaysCallable moved.old }
        // It returns what `room_cost` would have returned before.
        ensures cost { IsLeastCost (value (up size)) self.old.blocks result }
        // The live blocks keep their names, their sizes and their order: so every handle stays live, with its
        // size.
        ensures live { live self.new.blocks ≡ live self.old.blocks }
        ensures sizes { KeepsSizes self.old self.new }
        // Where ranges had to move, the request is granted then, since there is a node for one more block
        // too.
        ensures granted { IfSome result (λ c. 1 ≤ c.ranges → CanGrant 1 size self.new) }
        ensures accesses { Costs 1 (6 * length self.old.blocks + 40 * ranges_of result + 20)
            self.old.accesses self.new.accesses }
        // The step as a whole, with the moves: the last run of this cost slides; or nothing changes.
        ensures step { MakesRoom (IsCalledWith T.Index.NonMax.number (λ f range g. F.step f range tt g))
            (value (up size)) self.old moved.old result self.new moved.new }
    {
        self.formed();
        let class = uint_to_float_round_up(size);
        let found = bins::find_at_or_above(
            &self.store.tables,
            self.store.top_mask,
            class,
            &mut self.store.accesses,
        );
        if found.is_some() {
            return Some(RoomCost {
                units: 0,
                ranges: 0,
            });
        }
        // where no block is free, or the class of all free units in one block is too small
        if size == 0 || uint_to_float_round_down(self.free_total) < class {
            return None;
        }
        let run = cheapest(
            &self.store.tables,
            self.store.last,
            float_to_uint(class),
            &mut self.store.accesses,
        )?;
        if run.cost.ranges == 0 {
            return Some(run.cost);
        }
        let first = self.store.tables.size(run.first, &mut self.store.accesses);
        bins::remove(&mut self.store, run.first, first);
        let hole = to_front(
            &mut self.store,
            run.first,
            first,
            Some(run.end),
            1,
            true,
            moved,
        );
        let class = uint_to_float_round_down(hole.size);
        bins::push(&mut self.store, hole.name, class);
        Some(run.cost)
    }

    /// As `make_room`, by whole steps: makes room for `allocate_aligned(size, align)` where ranges have to move
    /// for it, and then as few units as possible. For `allocate` ask with `align` 1. The live ranges of a run of blocks
    /// slide to its front as by `compact_by`, each by a multiple of `step` units, so that it keeps its alignment
    /// where that divides `step`; what the free blocks of the run give up is one free block at its end, which is
    /// large enough. The run is one that costs what `room_cost_by(size, align, step)` returns, which this returns
    /// too: ask that first where a budget has to be kept. `moved` is called for each range that gets another
    /// offset, in space order, as by `compact`.
    ///
    /// Wherever a cost is returned, the request is granted afterwards, also at the node limit: there the run has
    /// free blocks that are used up, and the request takes their nodes. Every handle stays live, with its name
    /// and its size; only the public `offset` of a moved one is that of before, and `allocation_offset` returns
    /// the new one. Nothing changes, and `moved` is not called, where `None` is returned, since no run of
    /// blocks gives up enough units and nodes by such steps, and where the cost has no ranges, since the request
    /// is granted as it is. Of several runs that cost as much it is the last in space.
    /// At the node limit a cost may count ranges of the run that stay, since the free blocks before them have no
    /// units. If `moved` panics, the allocator must not be used any more: drop it.
    ///
    /// The step and `align` have to be at least 1. It makes at most 7 accesses to the tables for
    /// each block, 36 for each range of the run, and 60, and takes no memory.
    ///
    /// ```
    /// let hole = space.allocate(300).unwrap();
    /// space.allocate_aligned(100, 4);
    /// space.free(hole);
    /// assert!(space.allocate_aligned(800, 4).is_none());
    /// // 18 steps: the first 12 units stay free
    /// let cost = space.make_room_by(800, 4, 16, &mut |it| assert_eq!((it.from, it.to, it.size), (300, 12, 100)));
    /// assert_eq!(cost, Some(RoomCost { units: 100, ranges: 1 }));
    /// assert!(space.allocate_aligned(800, 4).is_some());
    /// ```
    pub fn make_room_by<F: FnMut(Move<T::Index>)>(
        &mut self,
        size: u32,
        align: u32,
        step: u32,
        moved: &mut F,
    ) -> Option<RoomCost>
        requires alignment { 1 ≤ align }
        requires some { 1 ≤ step }
        requires callable { F.IsAlwaysCallable moved.old }
        // It returns what `room_cost_by` would have returned before.
        ensures cost { IsLeastCostBy step (value (up (units_needed size align)))
            (names_short (blocks_needed align) self.old) self.old.blocks result }
        // The live blocks keep their names, their sizes and their order: so every handle stays live, with its
        // size.
        ensures live { live self.new.blocks ≡ live self.old.blocks }
        ensures sizes { KeepsSizes self.old self.new }
        // Where a cost is returned, the request is granted then.
        ensures granted { IfSome result
            (λ c. CanGrant (blocks_needed align) (units_needed size align) self.new) }
        ensures accesses { Costs 0 (7 * length self.old.blocks + 36 * ranges_of result + 60)
            self.old.accesses self.new.accesses }
        // The step as a whole, with the moves: the last run of this cost slides; or nothing changes.
        ensures step { MakesRoomBy (IsCalledWith T.Index.NonMax.number (λ f range g. F.step f range tt g))
            step (value (up (units_needed size align))) (names_short (blocks_needed align) self.old)
            self.old moved.old result self.new moved.new }
    {
        self.formed();
        if size > u32::MAX - (align - 1) {
            return None;
        }
        let blocks = align.min(2);
        let unused = self.unused_nodes();
        let class = uint_to_float_round_up(size + (align - 1));
        let found = bins::find_at_or_above(
            &self.store.tables,
            self.store.top_mask,
            class,
            &mut self.store.accesses,
        );
        if unused > blocks && found.is_some() {
            return Some(RoomCost {
                units: 0,
                ranges: 0,
            });
        }
        // where the class of all free units in one block is too small
        if uint_to_float_round_down(self.free_total) < class {
            return None;
        }
        let short = (blocks + 2).saturating_sub(unused);
        let run = cheapest_by(
            &self.store.tables,
            self.store.last,
            step,
            float_to_uint(class),
            short,
            &mut self.store.accesses,
        )?;
        if run.cost.ranges == 0 {
            return Some(run.cost);
        }
        slide_run(&mut self.store, run.first, run.end, step, moved);
        Some(run.cost)
    }
}
