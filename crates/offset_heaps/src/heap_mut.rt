//! One heap of many, changed by the calls of one space with tickets. Each call changes one slot, and notes it in the
//! index.
ghost use Rattle.std.specs.Prelude.{◌≡◌, ◌↔◌, ◌+◌, ◌≤◌, ◌⊎◌, Some, IfSome, IsSome, IsTrue, false, true};
ghost use Rattle.std.specs.Borrow.{sem};
ghost use Rattle.offset_allocator.specs.Moving.Compacting.{IsCalledWith};
ghost use Rattle.offset_allocator.specs.Moving.Retracting.{CanRetract};
ghost use Rattle.offset_guarded.specs.Answers as tickets;
ghost use Rattle.offset_heaps.specs.Changing.{Alters, RetractsTo};
ghost use Rattle.offset_heaps.specs.Heaps.{TakesFewAccesses, heap_at};
ghost use Rattle.offset_heaps.specs.Places.{place_of};

use crate::HeapsOf;
use crate::limits::least_units;
use crate::place::Place;
use offset_allocator::{Accesses, Move, Progress, RoomCost, Tables};
use offset_guarded::{GuardedOf, Ticket};
use std::ops::Deref;

/// The heap of a number, to be changed by the calls of one space with tickets: each does in this heap what it does in a
/// `GuardedOf`, under the node limit that the heap has now, and no other heap changes. A refused call leaves all heaps as
/// they were. `heap_mut` of `Heaps` returns one. It derefs to the `GuardedOf`, for all questions.
/// `retract` leaves the heap its least units.
///
/// A place of `Heaps` and a ticket here are of one grant: `Place::ticket` makes the ticket, `place` the place. A ticket has
/// the realm of the heap alone, and not that of the `Heaps`: of two whose realms were chosen by hand tickets may be alike.
///
/// Beside its work in the heap, a call touches at most 16 slots and cells of the index for each bit of the count of numbers,
/// and 32; none takes memory. If `moved` panics, the heaps must not be used any more: drop them.
///
/// ```
/// let hole = heaps.allocate(300).unwrap().place;
/// let mesh = heaps.allocate_aligned(200, 256).unwrap().place;
/// heaps.free(hole);
/// let mut heap = heaps.heap_mut(0).unwrap();
/// heap.compact_by(512, &mut |it| assert_eq!((it.from, it.to, it.size), (512, 0, 200)));
/// assert_eq!(heaps.offset_of(mesh), Some(0));
/// ```
#[derive(Drop)]
pub struct HeapMut<'a, T: Tables> {
    heaps: &'a mut HeapsOf<T>,
    number: u32,
    ghost there: { IsSome (heap_at number heaps.now) },
}

impl<T: Tables> HeapsOf<T> {
    ghost use Rattle.offset_heaps.specs.Resting.{Rests};

    /// The heap of a number, to be changed by the calls of one space with tickets, or `None` where the number has no heap.
    ///
    /// ```
    /// heaps.allocate(300).unwrap();
    /// let captured = heaps.heap_mut(0).unwrap().allocate_at(512, 100).unwrap();
    /// assert_eq!(captured.offset, 512);
    /// assert!(heaps.heap_mut(1).is_none());
    /// ```
    pub fn heap_mut(&mut self, number: u32) -> Option<HeapMut<'_, T>>
        ensures some { IsSome result ↔ IsSome (heap_at number self.old) }
        ensures there { IfSome result (λ h. (h.number ≡ number) × (h.heaps.now ≡ self.old)) }
        ensures same_reference { IfSome result (λ h. h.heaps.ghost_name ≡ self.entry.ghost_name) }
        // Where the number has no heap, nothing changes.
        ensures* rests { sem 𝓛 (Rests T.row T.Index.row T.Index.NonMax.row T.Tables
            (record { MAX = T.Index.MAX; number = T.Index.number }) T.Index.Default
            (record {
              number = T.Index.NonMax.number;
              of_number = T.Index.NonMax.of_number;
              limit = T.Index.NonMax.limit;
            }) T.Index.NonMax.PartialEq T.Index.NonMax.Default
            T.Index.NonMax.Debug T.Index.NonMax.Display self.entry result) }
    {
        if self.slots.has(number, &mut Accesses::new()) {
            Some(HeapMut {
                heaps: self,
                number,
            })
        } else {
            None
        }
    }
}

impl<T: Tables> Deref for HeapMut<'_, T> {
    type Target = GuardedOf<T>;

    ghost deref_gives = { λ h g. heap_at h.number h.heaps.now ≡ Some g };

    fn deref(&self) -> &GuardedOf<T> {
        match self.heaps.heap(self.number) {
            Some(heap) => heap,
            None => unreachable!(),
        }
    }
}

// Takes `less` units off the end of a heap, where it has `least` units after it.
fn retract_to<T: Tables>(heap: &mut GuardedOf<T>, least: u32, less: u32) -> bool
    ensures done { IsTrue result
        ↔ ((least + less ≤ heap.old.space.size) × (1 ≤ less → CanRetract less heap.old.space)) }
    ensures step { result ≡ true → tickets.Retracts less heap.old heap.new true }
    ensures same { result ≡ false → (heap.new ≡ heap.old) ⊎ tickets.Retracts less heap.old heap.new false }
    ensures serials { heap.new ≡ record heap.old { space = heap.new.space } }
    ensures accesses { heap.new.space.accesses ≤ heap.old.space.accesses + 64 }
{
    let size = heap.allocator().size();
    if (least as u64) + (less as u64) > size as u64 {
        return false;
    }
    heap.retract(less)
}

// A call of tickets on the heap, which is noted in the index; its result.
macro_rules! in_heap {
    ($of:ident.$call:ident($($argument:expr),*)) => {{
        let heaps = &mut *$of.heaps;
        let result = heaps
            .slots
            .heap_mut($of.number, &mut heaps.accesses)
            .$call($($argument),*);
        heaps.index.note(&heaps.slots, $of.number, heaps.limits, &mut heaps.accesses);
        result
    }};
}

impl<T: Tables> HeapMut<'_, T> {
    /// The number of the heap.
    ///
    /// ```
    /// assert_eq!(heap.number(), 0);
    /// ```
    pub fn number(&self) -> u32
        ensures { result ≡ self.now.number }
    {
        self.number
    }

    /// The place of a ticket in this heap, for the calls of `Heaps`.
    ///
    /// ```
    /// heaps.allocate(300).unwrap();
    /// let mut heap = heaps.heap_mut(0).unwrap();
    /// let mesh = heap.allocate(100).unwrap();
    /// let place = heap.place(mesh);
    /// assert_eq!(heaps.size_of(place), Some(100));
    /// ```
    pub fn place(&self, ticket: Ticket) -> Place
        ensures { result ≡ place_of self.now.number self.now.heaps.now.realm ticket }
    {
        Place::from_ticket(self.number, self.heaps.realm(), ticket)
    }

    /// As `GuardedOf::allocate` in this heap, whether or not a heap before it has room.
    ///
    /// ```
    /// heaps.allocate(900).unwrap();
    /// let mesh = heaps.heap_mut(0).unwrap().allocate(50).unwrap();
    /// assert_eq!(mesh.offset, 900);
    /// ```
    pub fn allocate(&mut self, size: u32) -> Option<Ticket>
        ensures number { self.new.number ≡ self.old.number }
        ensures same_reference { self.new.heaps.ghost_name ≡ self.old.heaps.ghost_name }
        ensures change { Alters self.old.number (λ g h. tickets.Allocates size g h result)
            self.old.heaps.now self.new.heaps.now }
        ensures accesses { TakesFewAccesses self.old.heaps.now self.new.heaps.now }
    {
        in_heap!(self.allocate(size))
    }

    /// As `GuardedOf::allocate_aligned` in this heap, at an alignment from 1 on, which is taken into the step of the heap.
    ///
    /// ```
    /// heap.allocate(10).unwrap();
    /// assert_eq!(heap.allocate_aligned(100, 256).unwrap().offset, 256);
    /// ```
    pub fn allocate_aligned(&mut self, size: u32, align: u32) -> Option<Ticket>
        requires alignment { 1 ≤ align }
        ensures number { self.new.number ≡ self.old.number }
        ensures same_reference { self.new.heaps.ghost_name ≡ self.old.heaps.ghost_name }
        ensures change { Alters self.old.number (λ g h. tickets.AllocatesAligned size align g h result)
            self.old.heaps.now self.new.heaps.now }
        ensures accesses { TakesFewAccesses self.old.heaps.now self.new.heaps.now }
    {
        in_heap!(self.allocate_aligned(size, align))
    }

    /// As `GuardedOf::free` in this heap.
    ///
    /// ```
    /// let mesh = heaps.allocate(300).unwrap();
    /// assert!(heaps.heap_mut(0).unwrap().free(mesh.place.ticket(mesh.offset)));
    /// assert!(!heaps.is_live(mesh.place));
    /// ```
    pub fn free(&mut self, ticket: Ticket) -> bool
        ensures number { self.new.number ≡ self.old.number }
        ensures same_reference { self.new.heaps.ghost_name ≡ self.old.heaps.ghost_name }
        ensures change { Alters self.old.number (λ g h. tickets.Frees ticket g h result)
            self.old.heaps.now self.new.heaps.now }
        ensures accesses { TakesFewAccesses self.old.heaps.now self.new.heaps.now }
    {
        in_heap!(self.free(ticket))
    }

    /// As `GuardedOf::allocate_tight` in this heap.
    ///
    /// ```
    /// assert!(heap.allocate(1000).is_none());
    /// assert!(heap.allocate_tight(1000).is_some());
    /// ```
    pub fn allocate_tight(&mut self, size: u32) -> Option<Ticket>
        ensures number { self.new.number ≡ self.old.number }
        ensures same_reference { self.new.heaps.ghost_name ≡ self.old.heaps.ghost_name }
        ensures change { Alters self.old.number (λ g h. tickets.AllocatesTight size g h result)
            self.old.heaps.now self.new.heaps.now }
        ensures accesses { TakesFewAccesses self.old.heaps.now self.new.heaps.now }
    {
        in_heap!(self.allocate_tight(size))
    }

    /// As `GuardedOf::allocate_tight_aligned` in this heap, at an alignment from 1 on, which is taken into the step of the heap.
    ///
    /// ```
    /// heap.allocate(256).unwrap();
    /// assert_eq!(heap.allocate_tight_aligned(700, 256).unwrap().offset, 256);
    /// ```
    pub fn allocate_tight_aligned(&mut self, size: u32, align: u32) -> Option<Ticket>
        requires alignment { 1 ≤ align }
        ensures number { self.new.number ≡ self.old.number }
        ensures same_reference { self.new.heaps.ghost_name ≡ self.old.heaps.ghost_name }
        ensures change { Alters self.old.number (λ g h. tickets.AllocatesTightAligned size align g h result)
            self.old.heaps.now self.new.heaps.now }
        ensures accesses { TakesFewAccesses self.old.heaps.now self.new.heaps.now }
    {
        in_heap!(self.allocate_tight_aligned(size, align))
    }

    /// As `GuardedOf::allocate_at` in this heap: the units from an offset on, where they are free.
    ///
    /// ```
    /// assert_eq!(heap.allocate_at(512, 100).unwrap().offset, 512);
    /// assert!(heap.allocate_at(600, 100).is_none());
    /// ```
    pub fn allocate_at(&mut self, offset: u32, size: u32) -> Option<Ticket>
        ensures number { self.new.number ≡ self.old.number }
        ensures same_reference { self.new.heaps.ghost_name ≡ self.old.heaps.ghost_name }
        ensures change { Alters self.old.number (λ g h. tickets.AllocatesAt offset size g h result)
            self.old.heaps.now self.new.heaps.now }
        ensures accesses { TakesFewAccesses self.old.heaps.now self.new.heaps.now }
    {
        in_heap!(self.allocate_at(offset, size))
    }

    /// As `GuardedOf::shrink` in this heap.
    ///
    /// ```
    /// let mesh = heap.allocate(300).unwrap();
    /// assert_eq!(heap.shrink(mesh, 200), Some(true));
    /// ```
    pub fn shrink(&mut self, ticket: Ticket, size: u32) -> Option<bool>
        ensures number { self.new.number ≡ self.old.number }
        ensures same_reference { self.new.heaps.ghost_name ≡ self.old.heaps.ghost_name }
        ensures change { Alters self.old.number (λ g h. tickets.Shrinks ticket size g h result)
            self.old.heaps.now self.new.heaps.now }
        ensures accesses { TakesFewAccesses self.old.heaps.now self.new.heaps.now }
    {
        in_heap!(self.shrink(ticket, size))
    }

    /// As `GuardedOf::grow_in_place` in this heap.
    ///
    /// ```
    /// let mesh = heap.allocate(300).unwrap();
    /// assert_eq!(heap.grow_in_place(mesh, 400), Some(true));
    /// ```
    pub fn grow_in_place(&mut self, ticket: Ticket, size: u32) -> Option<bool>
        ensures number { self.new.number ≡ self.old.number }
        ensures same_reference { self.new.heaps.ghost_name ≡ self.old.heaps.ghost_name }
        ensures change { Alters self.old.number (λ g h. tickets.Grows ticket size g h result)
            self.old.heaps.now self.new.heaps.now }
        ensures accesses { TakesFewAccesses self.old.heaps.now self.new.heaps.now }
    {
        in_heap!(self.grow_in_place(ticket, size))
    }

    /// As `GuardedOf::relocate` in this heap: a second range before the first one, which keeps every alignment. `relocate` of
    /// `Heaps` grants one in another heap.
    ///
    /// ```
    /// let hole = heap.allocate(320).unwrap();
    /// let mesh = heap.allocate_aligned(200, 256).unwrap();
    /// heap.free(hole);
    /// assert_eq!(heap.relocate(mesh).unwrap().offset, 0);
    /// ```
    pub fn relocate(&mut self, ticket: Ticket) -> Option<Ticket>
        ensures number { self.new.number ≡ self.old.number }
        ensures same_reference { self.new.heaps.ghost_name ≡ self.old.heaps.ghost_name }
        ensures change { Alters self.old.number (λ g h. tickets.Relocates ticket g h result)
            self.old.heaps.now self.new.heaps.now }
        ensures accesses { TakesFewAccesses self.old.heaps.now self.new.heaps.now }
    {
        in_heap!(self.relocate(ticket))
    }

    /// As `GuardedOf::relocate_aligned` in this heap, at an alignment from 1 on.
    ///
    /// ```
    /// let hole = heap.allocate(320).unwrap();
    /// let mesh = heap.allocate(200).unwrap();
    /// heap.free(hole);
    /// assert_eq!(heap.relocate_aligned(mesh, 64).unwrap().offset, 0);
    /// ```
    pub fn relocate_aligned(&mut self, ticket: Ticket, align: u32) -> Option<Ticket>
        requires alignment { 1 ≤ align }
        ensures number { self.new.number ≡ self.old.number }
        ensures same_reference { self.new.heaps.ghost_name ≡ self.old.heaps.ghost_name }
        ensures change { Alters self.old.number (λ g h. tickets.RelocatesAligned ticket align g h result)
            self.old.heaps.now self.new.heaps.now }
        ensures accesses { TakesFewAccesses self.old.heaps.now self.new.heaps.now }
    {
        in_heap!(self.relocate_aligned(ticket, align))
    }

    /// As `GuardedOf::relocate_unaligned` in this heap: **the second range keeps no alignment**; that of `relocate` keeps all.
    ///
    /// ```
    /// let hole = heap.allocate(320).unwrap();
    /// let mesh = heap.allocate(320).unwrap();
    /// heap.free(hole);
    /// assert_eq!(heap.relocate_unaligned(mesh).unwrap().offset, 0);
    /// ```
    pub fn relocate_unaligned(&mut self, ticket: Ticket) -> Option<Ticket>
        ensures number { self.new.number ≡ self.old.number }
        ensures same_reference { self.new.heaps.ghost_name ≡ self.old.heaps.ghost_name }
        ensures change { Alters self.old.number (λ g h. tickets.RelocatesUnaligned ticket g h result)
            self.old.heaps.now self.new.heaps.now }
        ensures accesses { TakesFewAccesses self.old.heaps.now self.new.heaps.now }
    {
        in_heap!(self.relocate_unaligned(ticket))
    }

    /// As `GuardedOf::compact` in this heap: **each range keeps every alignment that was asked for**.
    ///
    /// ```
    /// let hole = heap.allocate(300).unwrap();
    /// heap.allocate_aligned(100, 256).unwrap();
    /// heap.free(hole);
    /// assert!(heap.compact(&mut |it| assert_eq!((it.from, it.to, it.size), (512, 0, 100))));
    /// ```
    pub fn compact<F: FnMut(Move<T::Index>)>(&mut self, moved: &mut F) -> bool
        requires callable { F.IsAlwaysCallable moved.old }
        ensures number { self.new.number ≡ self.old.number }
        ensures same_reference { self.new.heaps.ghost_name ≡ self.old.heaps.ghost_name }
        ensures change { Alters self.old.number (λ g h. tickets.Compacts
            (IsCalledWith T.Index.NonMax.number (λ f range g. F.step f range tt g)) moved.old g h moved.new result)
            self.old.heaps.now self.new.heaps.now }
        ensures accesses { TakesFewAccesses self.old.heaps.now self.new.heaps.now }
    {
        in_heap!(self.compact(moved))
    }

    /// As `GuardedOf::compact_by` in this heap: each range keeps its alignment where that divides `step`, from 1 on.
    ///
    /// ```
    /// let hole = heap.allocate(300).unwrap();
    /// heap.allocate_aligned(256, 256).unwrap();
    /// heap.free(hole);
    /// assert!(heap.compact_by(256, &mut |it| assert_eq!((it.from, it.to, it.size), (512, 0, 256))));
    /// ```
    pub fn compact_by<F: FnMut(Move<T::Index>)>(&mut self, step: u32, moved: &mut F) -> bool
        requires some { 1 ≤ step }
        requires callable { F.IsAlwaysCallable moved.old }
        ensures number { self.new.number ≡ self.old.number }
        ensures same_reference { self.new.heaps.ghost_name ≡ self.old.heaps.ghost_name }
        ensures change { Alters self.old.number (λ g h. tickets.CompactsBy
            (IsCalledWith T.Index.NonMax.number (λ f range g. F.step f range tt g)) step moved.old g h moved.new result)
            self.old.heaps.now self.new.heaps.now }
        ensures accesses { TakesFewAccesses self.old.heaps.now self.new.heaps.now }
    {
        in_heap!(self.compact_by(step, moved))
    }

    /// As `GuardedOf::compact_unaligned` in this heap: **a moved range keeps no alignment**; `compact` keeps all.
    ///
    /// ```
    /// let hole = heap.allocate(300).unwrap();
    /// heap.allocate(100).unwrap();
    /// heap.free(hole);
    /// heap.compact_unaligned(&mut |it| assert_eq!((it.from, it.to, it.size), (300, 0, 100)));
    /// ```
    pub fn compact_unaligned<F: FnMut(Move<T::Index>)>(&mut self, moved: &mut F)
        requires callable { F.IsAlwaysCallable moved.old }
        ensures number { self.new.number ≡ self.old.number }
        ensures same_reference { self.new.heaps.ghost_name ≡ self.old.heaps.ghost_name }
        ensures change { Alters self.old.number (λ g h. tickets.CompactsUnaligned
            (IsCalledWith T.Index.NonMax.number (λ f range g. F.step f range tt g)) moved.old g h moved.new)
            self.old.heaps.now self.new.heaps.now }
        ensures accesses { TakesFewAccesses self.old.heaps.now self.new.heaps.now }
    {
        in_heap!(self.compact_unaligned(moved))
    }

    /// As `GuardedOf::compact_within` in this heap: a compaction over several frames, in which **each range keeps every
    /// alignment that was asked for**.
    ///
    /// ```
    /// let hole = heap.allocate(300).unwrap();
    /// heap.allocate(100).unwrap();
    /// heap.allocate(100).unwrap();
    /// heap.free(hole);
    /// let progress = heap.compact_within(0, 150, 8, &mut |_| {}).unwrap();
    /// assert_eq!((progress.units, progress.ranges, progress.next), (100, 1, Some(400)));
    /// ```
    pub fn compact_within<F: FnMut(Move<T::Index>)>(
        &mut self,
        from: u32,
        most_units: u32,
        most_ranges: u32,
        moved: &mut F,
    ) -> Option<Progress>
        requires callable { F.IsAlwaysCallable moved.old }
        ensures number { self.new.number ≡ self.old.number }
        ensures same_reference { self.new.heaps.ghost_name ≡ self.old.heaps.ghost_name }
        ensures change { Alters self.old.number (λ g h. tickets.CompactsWithin
            (IsCalledWith T.Index.NonMax.number (λ f range g. F.step f range tt g)) from most_units most_ranges moved.old g h moved.new result)
            self.old.heaps.now self.new.heaps.now }
        ensures accesses { TakesFewAccesses self.old.heaps.now self.new.heaps.now }
    {
        in_heap!(self.compact_within(from, most_units, most_ranges, moved))
    }

    /// As `GuardedOf::compact_within_by` in this heap, by a step from 1 on.
    ///
    /// ```
    /// let hole = heap.allocate(300).unwrap();
    /// heap.allocate(100).unwrap();
    /// heap.free(hole);
    /// let progress = heap.compact_within_by(1, 0, 150, 8, &mut |_| {}).unwrap();
    /// assert_eq!((progress.units, progress.ranges, progress.next), (100, 1, None));
    /// ```
    pub fn compact_within_by<F: FnMut(Move<T::Index>)>(
        &mut self,
        step: u32,
        from: u32,
        most_units: u32,
        most_ranges: u32,
        moved: &mut F,
    ) -> Option<Progress>
        requires some { 1 ≤ step }
        requires callable { F.IsAlwaysCallable moved.old }
        ensures number { self.new.number ≡ self.old.number }
        ensures same_reference { self.new.heaps.ghost_name ≡ self.old.heaps.ghost_name }
        ensures change { Alters self.old.number (λ g h. tickets.CompactsWithinBy
            (IsCalledWith T.Index.NonMax.number (λ f range g. F.step f range tt g)) step from most_units most_ranges moved.old g h moved.new result)
            self.old.heaps.now self.new.heaps.now }
        ensures accesses { TakesFewAccesses self.old.heaps.now self.new.heaps.now }
    {
        in_heap!(self.compact_within_by(step, from, most_units, most_ranges, moved))
    }

    /// As `GuardedOf::make_room` in this heap: **each range that moves keeps every alignment that was asked for**.
    ///
    /// ```
    /// let hole = heap.allocate(300).unwrap();
    /// heap.allocate(100).unwrap();
    /// heap.free(hole);
    /// heap.make_room(800, &mut |it| assert_eq!((it.from, it.to, it.size), (300, 0, 100)));
    /// assert!(heap.allocate(800).is_some());
    /// ```
    pub fn make_room<F: FnMut(Move<T::Index>)>(
        &mut self,
        size: u32,
        moved: &mut F,
    ) -> Option<RoomCost>
        requires callable { F.IsAlwaysCallable moved.old }
        ensures number { self.new.number ≡ self.old.number }
        ensures same_reference { self.new.heaps.ghost_name ≡ self.old.heaps.ghost_name }
        ensures change { Alters self.old.number (λ g h. tickets.MakesRoom
            (IsCalledWith T.Index.NonMax.number (λ f range g. F.step f range tt g)) size 1 moved.old g h moved.new result)
            self.old.heaps.now self.new.heaps.now }
        ensures accesses { TakesFewAccesses self.old.heaps.now self.new.heaps.now }
    {
        self.make_room_aligned(size, 1, moved)
    }

    /// As `GuardedOf::make_room_aligned` in this heap, for an alignment from 1 on: **each range that moves keeps every alignment
    /// that was asked for**.
    ///
    /// ```
    /// let hole = heap.allocate(300).unwrap();
    /// heap.allocate_aligned(200, 256).unwrap();
    /// heap.free(hole);
    /// assert!(heap.allocate_aligned(512, 256).is_none());
    /// heap.make_room_aligned(512, 256, &mut |it| assert_eq!((it.from, it.to, it.size), (512, 0, 200)));
    /// assert!(heap.allocate_aligned(512, 256).is_some());
    /// ```
    pub fn make_room_aligned<F: FnMut(Move<T::Index>)>(
        &mut self,
        size: u32,
        align: u32,
        moved: &mut F,
    ) -> Option<RoomCost>
        requires alignment { 1 ≤ align }
        requires callable { F.IsAlwaysCallable moved.old }
        ensures number { self.new.number ≡ self.old.number }
        ensures same_reference { self.new.heaps.ghost_name ≡ self.old.heaps.ghost_name }
        ensures change { Alters self.old.number (λ g h. tickets.MakesRoom
            (IsCalledWith T.Index.NonMax.number (λ f range g. F.step f range tt g)) size align moved.old g h moved.new result)
            self.old.heaps.now self.new.heaps.now }
        ensures accesses { TakesFewAccesses self.old.heaps.now self.new.heaps.now }
    {
        in_heap!(self.make_room_aligned(size, align, moved))
    }

    /// As `GuardedOf::make_room_by` in this heap, for an alignment and by a step from 1 on.
    ///
    /// ```
    /// let hole = heap.allocate(300).unwrap();
    /// heap.allocate_aligned(200, 256).unwrap();
    /// heap.free(hole);
    /// heap.make_room_by(512, 256, 512, &mut |it| assert_eq!((it.from, it.to, it.size), (512, 0, 200)));
    /// assert!(heap.allocate_aligned(512, 256).is_some());
    /// ```
    pub fn make_room_by<F: FnMut(Move<T::Index>)>(
        &mut self,
        size: u32,
        align: u32,
        step: u32,
        moved: &mut F,
    ) -> Option<RoomCost>
        requires alignment { 1 ≤ align }
        requires some { 1 ≤ step }
        requires callable { F.IsAlwaysCallable moved.old }
        ensures number { self.new.number ≡ self.old.number }
        ensures same_reference { self.new.heaps.ghost_name ≡ self.old.heaps.ghost_name }
        ensures change { Alters self.old.number (λ g h. tickets.MakesRoomBy
            (IsCalledWith T.Index.NonMax.number (λ f range g. F.step f range tt g)) size align step moved.old g h moved.new result)
            self.old.heaps.now self.new.heaps.now }
        ensures accesses { TakesFewAccesses self.old.heaps.now self.new.heaps.now }
    {
        in_heap!(self.make_room_by(size, align, step, moved))
    }

    /// As `GuardedOf::make_room_unaligned` in this heap: **a moved range keeps no alignment**; `make_room_aligned` keeps all.
    ///
    /// ```
    /// let hole = heap.allocate(300).unwrap();
    /// heap.allocate(100).unwrap();
    /// heap.free(hole);
    /// heap.make_room_unaligned(800, &mut |it| assert_eq!((it.from, it.to, it.size), (300, 0, 100)));
    /// assert!(heap.allocate(800).is_some());
    /// ```
    pub fn make_room_unaligned<F: FnMut(Move<T::Index>)>(
        &mut self,
        size: u32,
        moved: &mut F,
    ) -> Option<RoomCost>
        requires callable { F.IsAlwaysCallable moved.old }
        ensures number { self.new.number ≡ self.old.number }
        ensures same_reference { self.new.heaps.ghost_name ≡ self.old.heaps.ghost_name }
        ensures change { Alters self.old.number (λ g h. tickets.MakesRoomUnaligned
            (IsCalledWith T.Index.NonMax.number (λ f range g. F.step f range tt g)) size moved.old g h moved.new result)
            self.old.heaps.now self.new.heaps.now }
        ensures accesses { TakesFewAccesses self.old.heaps.now self.new.heaps.now }
    {
        in_heap!(self.make_room_unaligned(size, moved))
    }

    /// As `GuardedOf::extend` in this heap. `extend_heap` of `Heaps` raises its node limit too, where that is needed.
    ///
    /// ```
    /// assert!(heap.extend(24));
    /// assert_eq!(heap.size(), 1024);
    /// ```
    pub fn extend(&mut self, more: u32) -> bool
        ensures number { self.new.number ≡ self.old.number }
        ensures same_reference { self.new.heaps.ghost_name ≡ self.old.heaps.ghost_name }
        ensures change { Alters self.old.number (λ g h. tickets.Extends more g h result)
            self.old.heaps.now self.new.heaps.now }
        ensures accesses { TakesFewAccesses self.old.heaps.now self.new.heaps.now }
    {
        in_heap!(self.extend(more))
    }

    /// As `GuardedOf::retract` in this heap, where it leaves the heap its least units: those that the limits give its number,
    /// or one where it is a larger heap. So units that it was extended by can go again.
    ///
    /// `false` is returned where fewer would be left, or where its last block is not free or has fewer than `less`; then all is
    /// as it was.
    ///
    /// ```
    /// assert!(heap.extend(24));
    /// assert!(heap.retract(24));
    /// assert!(!heap.retract(1));
    /// assert_eq!(heap.size(), 1000);
    /// ```
    pub fn retract(&mut self, less: u32) -> bool
        ensures number { self.new.number ≡ self.old.number }
        ensures same_reference { self.new.heaps.ghost_name ≡ self.old.heaps.ghost_name }
        ensures change { Alters self.old.number
            (RetractsTo self.old.heaps.now.limits self.old.number less result)
            self.old.heaps.now self.new.heaps.now }
        ensures accesses { TakesFewAccesses self.old.heaps.now self.new.heaps.now }
    {
        let heaps = &mut *self.heaps;
        let least = least_units(heaps.limits, self.number);
        let result = retract_to(
            heaps.slots.heap_mut(self.number, &mut heaps.accesses),
            least,
            less,
        );
        heaps.index.note(&heaps.slots, self.number, heaps.limits, &mut heaps.accesses);
        result
    }

    /// As `GuardedOf::raise_step` in this heap, by an alignment from 1 on.
    ///
    /// ```
    /// heap.raise_step(256);
    /// assert_eq!(heap.step(), Some(256));
    /// ```
    pub fn raise_step(&mut self, align: u32)
        requires alignment { 1 ≤ align }
        ensures number { self.new.number ≡ self.old.number }
        ensures same_reference { self.new.heaps.ghost_name ≡ self.old.heaps.ghost_name }
        ensures change { Alters self.old.number (λ g h. tickets.RaisesStep align g h)
            self.old.heaps.now self.new.heaps.now }
        ensures accesses { TakesFewAccesses self.old.heaps.now self.new.heaps.now }
    {
        in_heap!(self.raise_step(align))
    }

    /// As `GuardedOf::reset` in this heap.
    ///
    /// ```
    /// let mesh = heaps.allocate(300).unwrap().place;
    /// heaps.heap_mut(0).unwrap().reset();
    /// assert!(!heaps.is_live(mesh));
    /// ```
    pub fn reset(&mut self)
        ensures number { self.new.number ≡ self.old.number }
        ensures same_reference { self.new.heaps.ghost_name ≡ self.old.heaps.ghost_name }
        ensures change { Alters self.old.number (λ g h. tickets.Resets g h)
            self.old.heaps.now self.new.heaps.now }
        ensures accesses { TakesFewAccesses self.old.heaps.now self.new.heaps.now }
    {
        in_heap!(self.reset())
    }
}
