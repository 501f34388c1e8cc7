//! Ranges that slide to the front of the space, all, within a budget, or to make room: by the step of the space,
//! by another one, or by none. It changes the allocator, and no serial.
ghost use Rattle.std.specs.Prelude.{ℕ, ◌≡◌, ◌≢◌, ◌↔◌, ◌≤◌, [], IfSome, None, true};
ghost use Rattle.offset_allocator.specs.Classes.{up, value};
ghost use Rattle.offset_allocator.specs.Moving.BySteps as steps;
ghost use Rattle.offset_allocator.specs.Moving.BySteps.{CanFollow, run_by};
ghost use Rattle.offset_allocator.specs.Moving.Compacting.{IsCalledWith};
ghost use Rattle.offset_allocator.specs.Requests.{AdmitsBlocks, CanGrant, blocks_needed, units_needed};
ghost use Rattle.offset_allocator.specs.Moving.RoomBySteps.{IsLeastCostBy, names_short};
ghost use Rattle.offset_allocator.specs.View.{View, IsWellFormed, count_used, used_units};
ghost use Rattle.offset_guarded.specs.Answers.{Compacts, CompactsBy, CompactsUnaligned, CompactsWithin};
ghost use Rattle.offset_guarded.specs.Answers.{CompactsWithinBy, MakesRoom, MakesRoomBy};
ghost use Rattle.offset_guarded.specs.Answers.{MakesRoomUnaligned};

use crate::GuardedOf;
use offset_allocator::laws::is_well_formed;
use offset_allocator::{CompactCost, Move, Progress, RoomCost, Tables};

impl<T: Tables> GuardedOf<T> {
    /// Slides live ranges to the front of the space by the step of the space, so that **each keeps every alignment
    /// that was asked for**, as `compact_by(step)` does. Every ticket stays live, with its size; `offset_of` returns
    /// where its range begins. If `moved` panics, the guarded allocator must not be used any more: drop it.
    ///
    /// `false` is returned, and nothing changes, where the space has no step, or `Allocator::compact_by` returns
    /// `false`. It makes at most 40 accesses to the tables of the allocator, and 21 for each block.
    ///
    /// ```
    /// let hole = guarded.allocate(300).unwrap();
    /// let mesh = guarded.allocate_aligned(100, 256).unwrap();
    /// guarded.free(hole);
    /// assert!(guarded.compact(&mut |it| assert_eq!((it.from, it.to, it.size), (512, 0, 100))));
    /// assert_eq!(guarded.offset_of(mesh), Some(0));
    /// ```
    pub fn compact<F: FnMut(Move<T::Index>)>(&mut self, moved: &mut F) -> bool
        requires callable { F.IsAlwaysCallable moved.old }
        // Every range keeps each alignment that divides the step. The closure is called with the moves, in space order.
        ensures { Compacts (IsCalledWith T.Index.NonMax.number (λ f range g. F.step f range tt g))
            moved.old self.old self.new moved.new result }
    {
        let step = self.step_number();
        if step == 0 {
            return false;
        }
        self.compact_by(step, moved)
    }

    /// As `compact`, from the offset `from` on and within a budget, as `compact_within_by(step)` does: so a
    /// compaction can be done over several frames. **Each range keeps every alignment that was asked for.** The
    /// result says what moved, and where the next call goes on. If `moved` panics, the guarded allocator must not
    /// be used any more: drop it.
    ///
    /// `None` is returned, and nothing changes, where the space has no step, or `Allocator::compact_within` returns
    /// `None`. It makes at most 60 accesses to the tables of the allocator, and 26 for each block; and at most 60, 5 for
    /// each block, and 42 for each range of the budget, or for one.
    ///
    /// ```
    /// let hole = guarded.allocate(300).unwrap();
    /// let mesh = guarded.allocate(100).unwrap();
    /// guarded.allocate(100);
    /// guarded.free(hole);
    /// let progress = guarded.compact_within(0, 150, 8, &mut |_| {}).unwrap();
    /// assert_eq!((progress.units, progress.ranges, progress.next), (100, 1, Some(400)));
    /// assert_eq!(guarded.offset_of(mesh), Some(0));
    /// ```
    pub fn compact_within<F: FnMut(Move<T::Index>)>(
        &mut self,
        from: u32,
        most_units: u32,
        most_ranges: u32,
        moved: &mut F,
    ) -> Option<Progress>
        requires callable { F.IsAlwaysCallable moved.old }
        // Every range keeps each alignment that divides the step. One range moves, or as many as the budget allows.
        ensures { CompactsWithin (IsCalledWith T.Index.NonMax.number (λ f range g. F.step f range tt g))
            from most_units most_ranges moved.old self.old self.new moved.new result }
    {
        let step = self.step_number();
        if step == 0 {
            return None;
        }
        self.compact_within_by(step, from, most_units, most_ranges, moved)
    }

    /// Makes room for `allocate(size)`, where ranges have to move for it, by the step of the space: **each range
    /// that moves keeps every alignment that was asked for**. Every ticket stays live, with its size; `offset_of`
    /// returns where its range begins. If `moved` panics, the guarded allocator must not be used any more: drop it.
    ///
    /// It returns what `room_cost` would have returned before: `None` where no run of blocks gives up enough, or the
    /// space has no step, and then nothing changes. It makes at most 60 accesses to the tables of the allocator, 7 for each
    /// block, and 36 for each range that moves.
    ///
    /// ```
    /// let hole = guarded.allocate(300).unwrap();
    /// guarded.allocate(100);
    /// guarded.free(hole);
    /// assert!(guarded.allocate(800).is_none());
    /// guarded.make_room(800, &mut |it| assert_eq!((it.from, it.to, it.size), (300, 0, 100)));
    /// assert!(guarded.allocate(800).is_some());
    /// ```
    pub fn make_room<F: FnMut(Move<T::Index>)>(
        &mut self,
        size: u32,
        moved: &mut F,
    ) -> Option<RoomCost>
        requires callable { F.IsAlwaysCallable moved.old }
        // Every range keeps each alignment that divides the step. The allocator can grant the request then.
        ensures { MakesRoom (IsCalledWith T.Index.NonMax.number (λ f range g. F.step f range tt g))
            size 1 moved.old self.old self.new moved.new result }
    {
        let step = self.step_number();
        if step == 0 {
            return None;
        }
        self.make_room_by(size, 1, step, moved)
    }

    /// As `make_room`, for `allocate_aligned(size, align)`, where the alignment is from 1 on.
    ///
    /// ```
    /// let hole = guarded.allocate(300).unwrap();
    /// guarded.allocate_aligned(200, 256);
    /// guarded.free(hole);
    /// assert!(guarded.allocate_aligned(512, 256).is_none());
    /// guarded.make_room_aligned(512, 256, &mut |it| assert_eq!((it.from, it.to, it.size), (512, 0, 200)));
    /// assert!(guarded.allocate_aligned(512, 256).is_some());
    /// ```
    pub fn make_room_aligned<F: FnMut(Move<T::Index>)>(
        &mut self,
        size: u32,
        align: u32,
        moved: &mut F,
    ) -> Option<RoomCost>
        requires alignment { 1 ≤ align }
        requires callable { F.IsAlwaysCallable moved.old }
        // The same. It returns what `room_cost_aligned` would have returned before.
        ensures { MakesRoom (IsCalledWith T.Index.NonMax.number (λ f range g. F.step f range tt g))
            size align moved.old self.old self.new moved.new result }
    {
        let step = self.step_number();
        if step == 0 {
            return None;
        }
        self.make_room_by(size, align, step, moved)
    }

    /// What `compact` would copy now, and what would be granted after it, without moving anything: as
    /// `Allocator::compact_cost_by` by the step of the space. `None` is returned exactly where `compact` would return
    /// `false`.
    ///
    /// ```
    /// let hole = guarded.allocate(300).unwrap();
    /// guarded.allocate_aligned(100, 256);
    /// guarded.free(hole);
    /// let cost = guarded.compact_cost().unwrap();
    /// assert_eq!((cost.units, cost.ranges, cost.largest), (100, 1, 896));
    /// ```
    pub fn compact_cost(&self) -> Option<CompactCost>
        ensures none { self.now.step ≡ 0 → result ≡ None }
        // It is `None` exactly where the compaction would be refused.
        ensures refused { 1 ≤ self.now.step → result ≡ None
            ↔ ((run_by self.now.step self.now.space.blocks ≢ [])
            × (CanFollow self.now.step self.now.space (run_by self.now.step self.now.space.blocks) → ⊥)) }
        // The ranges that would move are those behind the first free block of at least a step.
        ensures units { IfSome result (λ c. c.units ≡ used_units (run_by self.now.step self.now.space.blocks)) }
        ensures ranges { IfSome result (λ c. c.ranges ≡ count_used (run_by self.now.step self.now.space.blocks)) }
        // Whatever the compaction leaves, this is the largest request that the allocator grants then.
        ensures granted { IfSome result (λ c. (n : ℕ) (w : View) → 1 ≤ n → IsWellFormed w
            → steps.CompactsBy self.now.step self.now.space w true
            → CanGrant 1 n w ↔ (AdmitsBlocks 1 w × (n ≤ c.largest))) }
    {
        let step = self.step_number();
        if step == 0 {
            return None;
        }
        self.space.compact_cost_by(step)
    }

    /// What has to move at least for `allocate(size)`, as `make_room` would move it: as `Allocator::room_cost_by`
    /// by the step of the space. `None` is returned where no run of blocks gives up enough, or the space has no step.
    ///
    /// ```
    /// let hole = guarded.allocate(300).unwrap();
    /// guarded.allocate(100);
    /// guarded.free(hole);
    /// assert_eq!(guarded.room_cost(800).unwrap().units, 100);
    /// ```
    pub fn room_cost(&self, size: u32) -> Option<RoomCost>
        ensures cost { 1 ≤ self.now.step → IsLeastCostBy self.now.step (value (up (units_needed size 1)))
            (names_short (blocks_needed 1) self.now.space) self.now.space.blocks result }
        ensures none { self.now.step ≡ 0 → result ≡ None }
    {
        self.room_cost_aligned(size, 1)
    }

    /// As `room_cost`, for `allocate_aligned(size, align)`, where the alignment is from 1 on.
    ///
    /// ```
    /// let hole = guarded.allocate(300).unwrap();
    /// guarded.allocate_aligned(200, 256);
    /// guarded.free(hole);
    /// assert_eq!(guarded.room_cost_aligned(512, 256).unwrap().units, 200);
    /// ```
    pub fn room_cost_aligned(&self, size: u32, align: u32) -> Option<RoomCost>
        requires alignment { 1 ≤ align }
        ensures cost { 1 ≤ self.now.step → IsLeastCostBy self.now.step (value (up (units_needed size align)))
            (names_short (blocks_needed align) self.now.space) self.now.space.blocks result }
        ensures none { self.now.step ≡ 0 → result ≡ None }
    {
        let step = self.step_number();
        if step == 0 {
            return None;
        }
        self.space.room_cost_by(size, align, step)
    }

    /// Slides live ranges to the front of the space by whole steps, as `Allocator::compact_by` does: each keeps
    /// its alignment where that divides `step`. Every ticket stays live, with its size; `offset_of` returns
    /// where its range begins. `false` is returned, and nothing changes, where that call returns `false`. It makes as
    /// many accesses as `compact`. If `moved` panics, the guarded allocator must not be used any more: drop it.
    ///
    /// ```
    /// let hole = guarded.allocate(300).unwrap();
    /// let mesh = guarded.allocate_aligned(256, 256).unwrap();
    /// guarded.free(hole);
    /// assert!(guarded.compact_by(256, &mut |it| assert_eq!((it.from, it.to, it.size), (512, 0, 256))));
    /// assert_eq!(guarded.offset_of(mesh), Some(0));
    /// ```
    pub fn compact_by<F: FnMut(Move<T::Index>)>(&mut self, step: u32, moved: &mut F) -> bool
        requires some { 1 ≤ step }
        requires callable { F.IsAlwaysCallable moved.old }
        // A range keeps each alignment that divides `step`. The closure is called with the moves, in space order.
        ensures { CompactsBy (IsCalledWith T.Index.NonMax.number (λ f range g. F.step f range tt g))
            step moved.old self.old self.new moved.new result }
    {
        // Steps of the proof, which do nothing: no name is that of two blocks.
        is_well_formed(&self.space);
        let done = self.space.compact_by(step, moved);
        is_well_formed(&self.space);
        done
    }

    /// Slides live ranges to the front by whole steps, from the offset `from` on and within a budget, as
    /// `Allocator::compact_within` does: so a compaction can be done over several frames. Every ticket stays
    /// live, with its size; `offset_of` returns where its range begins. The result says what moved, and where
    /// the next call goes on; `None` is returned, and nothing changes, where that call returns `None`. It makes as
    /// many accesses as `compact_within`. If `moved` panics, the guarded allocator must not be used any more: drop it.
    ///
    /// ```
    /// let hole = guarded.allocate(300).unwrap();
    /// let mesh = guarded.allocate(100).unwrap();
    /// guarded.allocate(100);
    /// guarded.free(hole);
    /// let progress = guarded.compact_within_by(1, 0, 150, 8, &mut |_| {}).unwrap();
    /// assert_eq!((progress.units, progress.ranges, progress.next), (100, 1, Some(400)));
    /// assert_eq!(guarded.offset_of(mesh), Some(0));
    /// ```
    pub fn compact_within_by<F: FnMut(Move<T::Index>)>(
        &mut self,
        step: u32,
        from: u32,
        most_units: u32,
        most_ranges: u32,
        moved: &mut F,
    ) -> Option<Progress>
        requires some { 1 ≤ step }
        requires callable { F.IsAlwaysCallable moved.old }
        // A range keeps each alignment that divides `step`. One range moves, or as many as the budget allows.
        ensures { CompactsWithinBy (IsCalledWith T.Index.NonMax.number (λ f range g. F.step f range tt g))
            step from most_units most_ranges moved.old self.old self.new moved.new result }
    {
        // Steps of the proof, which do nothing: no name is that of two blocks.
        is_well_formed(&self.space);
        let progress = self
            .space
            .compact_within(step, from, most_units, most_ranges, moved);
        is_well_formed(&self.space);
        progress
    }

    /// Makes room for `allocate_aligned(size, align)` by whole steps, as `Allocator::make_room_by` does: each
    /// range that moves keeps its alignment where that divides `step`. Every ticket stays live, with its size;
    /// `offset_of` returns where its range begins. It returns what `room_cost_by` of `allocator()` would have
    /// returned before: `None` where no run of blocks gives up enough, and then nothing changes. It makes as many
    /// accesses as `make_room`. If `moved` panics, the guarded allocator must not be used any more: drop it.
    ///
    /// ```
    /// let hole = guarded.allocate(300).unwrap();
    /// guarded.allocate_aligned(200, 256);
    /// guarded.free(hole);
    /// assert!(guarded.allocate_aligned(512, 256).is_none());
    /// guarded.make_room_by(512, 256, 256, &mut |it| assert_eq!((it.from, it.to, it.size), (512, 0, 200)));
    /// assert!(guarded.allocate_aligned(512, 256).is_some());
    /// ```
    pub fn make_room_by<F: FnMut(Move<T::Index>)>(
        &mut self,
        size: u32,
        align: u32,
        step: u32,
        moved: &mut F,
    ) -> Option<RoomCost>
        requires alignment { 1 ≤ align }
        requires some { 1 ≤ step }
        requires callable { F.IsAlwaysCallable moved.old }
        // A range keeps each alignment that divides `step`. The allocator can grant the request then.
        ensures { MakesRoomBy (IsCalledWith T.Index.NonMax.number (λ f range g. F.step f range tt g))
            size align step moved.old self.old self.new moved.new result }
    {
        // Steps of the proof, which do nothing: no name is that of two blocks.
        is_well_formed(&self.space);
        let cost = self.space.make_room_by(size, align, step, moved);
        is_well_formed(&self.space);
        cost
    }

    /// Slides every live range to the front of the space, as `Allocator::compact` does: **a moved range keeps no
    /// alignment**, whatever was asked for; `compact` keeps all. Every ticket stays live, with its size;
    /// `offset_of` returns where its range begins. It makes at most 384 accesses to the tables of the allocator, and 10
    /// for each block. If `moved` panics, the guarded allocator must not be used any more: drop it.
    ///
    /// ```
    /// let hole = guarded.allocate(300).unwrap();
    /// let mesh = guarded.allocate(100).unwrap();
    /// guarded.free(hole);
    /// guarded.compact_unaligned(&mut |it| assert_eq!((it.from, it.to, it.size), (300, 0, 100)));
    /// assert_eq!(guarded.offset_of(mesh), Some(0));
    /// ```
    pub fn compact_unaligned<F: FnMut(Move<T::Index>)>(&mut self, moved: &mut F)
        requires callable { F.IsAlwaysCallable moved.old }
        // The closure is called with the moves, in space order.
        ensures { CompactsUnaligned (IsCalledWith T.Index.NonMax.number (λ f range g. F.step f range tt g))
            moved.old self.old self.new moved.new }
    {
        self.space.compact(moved);
    }

    /// Makes room for a request of `size` units, where ranges have to move for it, as `Allocator::make_room`
    /// does. **A moved range keeps no alignment**, whatever was asked for; `make_room` keeps all. Every ticket
    /// stays live, with its size; `offset_of` returns where its range begins. It makes at most 20 accesses to the tables
    /// of the allocator, 6 for each block, and 40 for each range that moves. If `moved` panics, the guarded allocator
    /// must not be used any more: drop it.
    ///
    /// ```
    /// let hole = guarded.allocate(300).unwrap();
    /// guarded.allocate(100);
    /// guarded.free(hole);
    /// assert!(guarded.allocate(800).is_none());
    /// guarded.make_room_unaligned(800, &mut |it| assert_eq!((it.from, it.to, it.size), (300, 0, 100)));
    /// assert!(guarded.allocate(800).is_some());
    /// ```
    pub fn make_room_unaligned<F: FnMut(Move<T::Index>)>(
        &mut self,
        size: u32,
        moved: &mut F,
    ) -> Option<RoomCost>
        requires callable { F.IsAlwaysCallable moved.old }
        // It returns what `room_cost` of the allocator would have returned before. Where ranges had to move, the allocator
        // can grant the request then.
        ensures { MakesRoomUnaligned (IsCalledWith T.Index.NonMax.number (λ f range g. F.step f range tt g))
            size moved.old self.old self.new moved.new result }
    {
        self.space.make_room(size, moved)
    }
}
