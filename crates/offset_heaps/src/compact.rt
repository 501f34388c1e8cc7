//! Ranges that slide to the front of their heap by its step, all or to make room, by the calls of tickets. It changes one
//! slot, or all, and notes it in the index.
ghost use Rattle.std.specs.Prelude.{ℕ, ◌≡◌, ◌↔◌, ◌+◌, ◌*◌, ◌^◌, ◌<◌, ◌≤◌, None, IsSome, IsTrue, false};
ghost use Rattle.std.specs.Prelude.{length};
ghost use Rattle.std.specs.List.{FoldsTo};
ghost use Rattle.offset_allocator.specs.Moving.Compacting.{IsCalledWith};
ghost use Rattle.offset_guarded.specs.Answers as tickets;
ghost use Rattle.offset_heaps.specs.Changing.{Alters, CompactsAll, CompactsSlot, IsCalledAt, IsCompactible};
ghost use Rattle.offset_heaps.specs.Changing.{KeepsSizes, moves_from};
ghost use Rattle.offset_heaps.specs.Heaps.{slot};
ghost use Rattle.offset_heaps.specs.Soundness.{IsNoted, IsWide};
ghost use Rattle.offset_heaps.specs.Twins.{AreTwins};

use crate::HeapsOf;
use crate::index::Index;
use crate::limits::Limits;
use crate::slots::Slots;
use offset_allocator::{Accesses, Move, RoomCost, Tables};

// Whether both hold.
fn both(first: bool, second: bool) -> bool
    ensures { IsTrue result ↔ (IsTrue first × IsTrue second) }
{
    first && second
}

// Slides live ranges of each heap to the front of its space by its step, and returns whether each was done.
fn compact_all<T: Tables, F: FnMut(u32, Move<T::Index>)>(
    slots: &mut Slots<T>,
    index: &mut Index,
    limits: Limits,
    moved: &mut F,
    count: &mut Accesses,
) -> bool
    requires numbers { length slots.old ≡ limits.most + limits.most_larger }
    requires few { length slots.old < 2 ^ 32 }
    requires wide { IsWide slots.old index.old }
    requires noted { (k : ℕ) → IsNoted limits slots.old index.old k }
    requires callable { F.IsAlwaysCallable moved.old }
    ensures all { IsTrue result ↔ ((k : ℕ) → IsCompactible (slot k slots.old)) }
    ensures done { (k : ℕ) → CompactsSlot (slot k slots.old) (slot k slots.new) }
    ensures moved { FoldsTo (IsCalledAt T.Index.NonMax.number (λ f k range g. F.step f k range tt g)) moved.old
        (moves_from 0 slots.old) moved.new }
    ensures len { length slots.new ≡ length slots.old }
    ensures wide { IsWide slots.new index.new }
    ensures noted { (k : ℕ) → IsNoted limits slots.new index.new k }
    ensures levels { index.new.one.height ≡ index.old.one.height }
    ensures accesses { count.new ≤ count.old + length slots.old * (12 * index.old.one.height + 10) }
{
    let mut all = true;
    for number in 0..limits.most + limits.most_larger {
        all = both(slots.compact_numbered(number, moved, count), all);
        index.note(slots, number, limits, count);
    }
    all
}

impl<T: Tables> HeapsOf<T> {
    ghost use Rattle.offset_heaps.specs.Heaps.{IsSame, KeepsAlignments, KeepsOtherHeaps, TakesFewAccesses, heap_at};
    ghost use Rattle.offset_heaps.specs.Heaps.{numbers};

    /// Slides live ranges of the heap of a number to the front of its space by its step, as `GuardedOf::compact`
    /// does, so that **each keeps every alignment that was asked for**, and returns whether it was done. Every place
    /// stays live, with its size; `offset_of` returns where its range begins. `moved` is called with each move, in
    /// space order.
    ///
    /// `false` is returned, and no range moves, where the number has no heap, where the heap has no step (`heap(number)`
    /// says it by `step`), or where `GuardedOf::compact` refuses it under the node limit that the heap has now. No memory
    /// is taken here, so no limit is raised.
    ///
    /// ```
    /// let hole = heaps.allocate(300).unwrap().place;
    /// let mesh = heaps.allocate_aligned(100, 256).unwrap().place;
    /// heaps.free(hole);
    /// assert!(heaps.compact_heap(0, &mut |it| assert_eq!((it.from, it.to, it.size), (512, 0, 100))));
    /// assert_eq!(heaps.offset_of(mesh), Some(0));
    /// ```
    pub fn compact_heap<F: FnMut(Move<T::Index>)>(&mut self, number: u32, moved: &mut F) -> bool
        requires callable { F.IsAlwaysCallable moved.old }
        ensures sizes { KeepsSizes self.old self.new }
        // Every range keeps each alignment that divides the step of its heap.
        ensures aligned { KeepsAlignments self.old self.new }
        ensures others { KeepsOtherHeaps number self.old self.new }
        ensures none { heap_at number self.old ≡ None → IsSame self.old self.new × (moved.new ≡ moved.old)
            × (result ≡ false) }
        // Where it is not done, every later call returns the same as if this one had not been made.
        ensures refused { result ≡ false → AreTwins self.old self.new }
        // It is done exactly where the number has a heap that has a step, and whose space does it. The step of its heap, with
        // the moves. All other heaps are as they were.
        ensures step { IsSome (heap_at number self.old) → Alters number
            (λ g h. tickets.Compacts (IsCalledWith T.Index.NonMax.number (λ f range g. F.step f range tt g))
            moved.old g h moved.new result) self.old self.new }
        ensures accesses { TakesFewAccesses self.old self.new }
    {
        if !self.slots.has(number, &mut self.accesses) {
            return false;
        }
        let result = self
            .slots
            .heap_mut(number, &mut self.accesses)
            .compact(moved);
        self.index
            .note(&self.slots, number, self.limits, &mut self.accesses);
        result
    }

    /// Slides live ranges of each heap to the front of its space by its step, as `compact_heap` of each number that
    /// has one does, one after another, so that **each keeps every alignment that was asked for**, and returns whether
    /// it was done in each: one that refuses it stays as it is. Every place stays live, with its size; `offset_of`
    /// returns where its range begins. `moved` is called with the number of the heap and each move: by
    /// the numbers of the heaps, and in a heap in space order; each move is within the buffer of its number.
    /// No heap is made or dropped. It notes each number in the index, and takes the time of `GuardedOf::compact` for each heap.
    ///
    /// ```
    /// let hole = heaps.allocate(300).unwrap().place;
    /// let mesh = heaps.allocate(100).unwrap().place;
    /// heaps.free(hole);
    /// assert!(heaps.compact(&mut |number, it| assert_eq!((number, it.from, it.to, it.size), (0, 300, 0, 100))));
    /// assert_eq!(heaps.offset_of(mesh), Some(0));
    /// ```
    pub fn compact<F: FnMut(u32, Move<T::Index>)>(&mut self, moved: &mut F) -> bool
        requires callable { F.IsAlwaysCallable moved.old }
        // Whether it was done in each heap.
        ensures done { IsTrue result ↔ ((k : ℕ) → IsCompactible (heap_at k self.old)) }
        ensures sizes { KeepsSizes self.old self.new }
        // Every range keeps each alignment that divides the step of its heap.
        ensures aligned { KeepsAlignments self.old self.new }
        // The closure is called with the moves of all heaps, by their numbers, and in a heap in space order.
        ensures moved { FoldsTo (IsCalledAt T.Index.NonMax.number (λ f k range g. F.step f k range tt g)) moved.old
            (moves_from 0 self.old.slots) moved.new }
        // The step of each heap.
        ensures step { CompactsAll self.old self.new }
        ensures accesses { (bits : ℕ) → numbers self.old ≤ 2 ^ bits
            → self.new.accesses ≤ self.old.accesses + numbers self.old * (12 * bits + 10) }
    {
        compact_all(
            &mut self.slots,
            &mut self.index,
            self.limits,
            moved,
            &mut self.accesses,
        )
    }

    /// Makes room for `allocate(size)` in the heap of a number, where ranges have to move for it: what
    /// `make_room_aligned(number, size, 1, moved)` does.
    ///
    /// ```
    /// let hole = heaps.allocate(300).unwrap().place;
    /// heaps.allocate(100).unwrap();
    /// heaps.free(hole);
    /// heaps.make_room(0, 800, &mut |it| assert_eq!((it.from, it.to, it.size), (300, 0, 100)));
    /// assert_eq!(heaps.allocate(800).unwrap().place.heap, 0);
    /// ```
    pub fn make_room<F: FnMut(Move<T::Index>)>(
        &mut self,
        number: u32,
        size: u32,
        moved: &mut F,
    ) -> Option<RoomCost>
        requires callable { F.IsAlwaysCallable moved.old }
        ensures sizes { KeepsSizes self.old self.new }
        ensures aligned { KeepsAlignments self.old self.new }
        ensures others { KeepsOtherHeaps number self.old self.new }
        ensures there { IsSome result → IsSome (heap_at number self.old) }
        ensures none { heap_at number self.old ≡ None → IsSame self.old self.new × (moved.new ≡ moved.old)
            × (result ≡ None) }
        ensures step { IsSome (heap_at number self.old)
            → Alters number (λ g h. tickets.MakesRoom
            (IsCalledWith T.Index.NonMax.number (λ f range g. F.step f range tt g)) size 1 moved.old g h moved.new result)
            self.old self.new }
        ensures accesses { TakesFewAccesses self.old self.new }
    {
        self.make_room_aligned(number, size, 1, moved)
    }

    /// Makes room for `allocate_aligned(size, align)`, with an alignment from 1 on, in the heap of a number, where
    /// ranges have to move for it, as `GuardedOf::make_room_aligned` does by the step of the heap, so that **each range
    /// that moves keeps every alignment that was asked for**. It returns the cost; or `None` where no run of blocks gives
    /// up enough, the heap has no step, or the number has no heap, and then no range moves. Every place stays live, with
    /// its size; `offset_of` returns where its range begins. `moved` is called with each move, in space order.
    ///
    /// Room is made under the node limit that the heap has now: no memory is taken here. Whether a heap before it has
    /// room is not looked at: `allocate_aligned` takes the first heap that has.
    ///
    /// ```
    /// let hole = heaps.allocate(300).unwrap().place;
    /// heaps.allocate_aligned(200, 256).unwrap();
    /// heaps.free(hole);
    /// heaps.make_room_aligned(0, 512, 256, &mut |it| assert_eq!((it.from, it.to, it.size), (512, 0, 200)));
    /// assert_eq!(heaps.allocate_aligned(512, 256).unwrap().place.heap, 0);
    /// ```
    pub fn make_room_aligned<F: FnMut(Move<T::Index>)>(
        &mut self,
        number: u32,
        size: u32,
        align: u32,
        moved: &mut F,
    ) -> Option<RoomCost>
        requires alignment { 1 ≤ align }
        requires callable { F.IsAlwaysCallable moved.old }
        ensures sizes { KeepsSizes self.old self.new }
        // Every range keeps each alignment that divides the step of its heap.
        ensures aligned { KeepsAlignments self.old self.new }
        ensures others { KeepsOtherHeaps number self.old self.new }
        ensures there { IsSome result → IsSome (heap_at number self.old) }
        ensures none { heap_at number self.old ≡ None → IsSame self.old self.new × (moved.new ≡ moved.old)
            × (result ≡ None) }
        // The step of its heap, with the moves. All other heaps are as they were.
        ensures step { IsSome (heap_at number self.old)
            → Alters number (λ g h. tickets.MakesRoom
            (IsCalledWith T.Index.NonMax.number (λ f range g. F.step f range tt g)) size align moved.old g h moved.new result)
            self.old self.new }
        ensures accesses { TakesFewAccesses self.old self.new }
    {
        if !self.slots.has(number, &mut self.accesses) {
            return None;
        }
        let result = self
            .slots
            .heap_mut(number, &mut self.accesses)
            .make_room_aligned(size, align, moved);
        self.index
            .note(&self.slots, number, self.limits, &mut self.accesses);
        result
    }
}
