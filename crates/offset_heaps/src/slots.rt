//! The heaps by their numbers: no other module finds one. Each function counts the slots that it touches or lends.
ghost use Rattle.std.specs.Prelude.{◌≡◌, ◌↔◌, ◌+◌, ◌<◌, ◌≤◌, IsTrue, IsSome, None, Some, false, length};
ghost use Rattle.std.specs.Prelude.{IfOk, IfSome, IsErr, MatchOption, is_some, option_copied, replicate};
ghost use Rattle.std.specs.Prelude.{ℕ, max, slice_set, true};
ghost use Rattle.std.specs.Borrow.{sem};
ghost use Rattle.std.specs.Int.{IsGcd};
ghost use Rattle.std.specs.List.{FoldsTo};
ghost use Rattle.std.specs.Option.Follows.{option_follows_value};
ghost use Rattle.offset_allocator.specs.Requests.{blocks_needed, units_needed};
ghost use Rattle.offset_allocator.specs.View.{IsWellFormed};
ghost use Rattle.offset_guarded.specs.Answers as tickets;
ghost use Rattle.offset_guarded.specs.Guard.{Guard};
ghost use Rattle.offset_heaps.specs.Changing.{AltersIn, CompactsSlot, IsCalledAt, IsCompactible, moves_in, numbered};
ghost use Rattle.offset_heaps.specs.Heaps.{MustRaiseIn, is_empty};
ghost use Rattle.offset_heaps.specs.Heaps.{live_units_of, part, step_of};
ghost use Rattle.offset_heaps.specs.Heaps.{range_in, room, room_of, slot};
ghost use Rattle.offset_heaps.specs.Numbering.{IsHeapFrom, NoHeapFrom};
ghost use Rattle.offset_heaps.specs.Relocating.{HasLive, IsEmptiest, NoneLive, TakesUnits, offset_in, units_in};
ghost use Rattle.offset_heaps.specs.Slots.{CanHoldIn, CanHoldNow, Changes, HasRoomNow, IsEmptier, RaisesIn, ResetsIn};

use crate::heap::{
    alignment_in, compact_numbered_in, free_in, grant_in, grant_tight_aligned_in, holds,
    is_empty_heap, is_fuller, must_raise, raise_in, reset_in, room_at, units_for,
};
use crate::limits::Limits;
use offset_allocator::{Accesses, Move, Tables};
use offset_guarded::{GuardedOf, Ticket};
use std::alloc::{AllocError, Global};
use std::marker::Model;

/// The heap of each number, where there is one.
#[derive(Drop)]
pub(crate) struct Slots<T: Tables> {
    heaps: Vec<Option<GuardedOf<T>>>,
}

impl<T: Tables> Model for Slots<T> {
    ghost use Rattle.std.specs.Prelude.{List, Option};
    ghost use Rattle.offset_guarded.specs.Guard.{Guard};

    ghost Value = { List (Option Guard) };

    ghost view = { λ s. s.heaps.items };
}

// The heap of a slot that has one, to be changed.
fn heap_in<H>(slot: &mut Option<H>) -> &mut H
    requires there { IsSome slot.old }
    ensures* lends { sem 𝓛 (option_follows_value H.row slot.entry result) }
    ensures heap { slot.old ≡ Some result.now }
{
    match slot {
        Some(heap) => heap,
        None => unreachable!(),
    }
}

// The emptiest heap so far, and its live units, with those of one more heap.
fn with_live(found: Option<(u32, u32)>, number: u32, live: Option<u32>) -> Option<(u32, u32)>
    ensures { IsEmptier found number live result }
{
    match (found, live) {
        (_, None) => found,
        (None, Some(units)) => Some((number, units)),
        (Some((_, fewest)), Some(units)) => {
            if units <= fewest {
                Some((number, units))
            } else {
                found
            }
        }
    }
}

impl<T: Tables> Slots<T> {
    ghost use Rattle.offset_heaps.specs.Lending.{LendsHeap};

    /// Memory for `count` numbers, none of which has a heap.
    pub(crate) fn with_room(alloc: Global, count: u32) -> Result<Self, AllocError>
        ensures { IfOk result (λ s. s ≡ replicate count None) }
    {
        let mut heaps = Vec::with_capacity(alloc, count as usize)?;
        for _number in 0..count {
            heaps.push(None)?;
        }
        Ok(Slots { heaps })
    }

    /// The heap of a number.
    pub(crate) fn at(&self, number: u32, count: &mut Accesses) -> Option<&GuardedOf<T>>
        ensures heap { option_copied result ≡ slot number self.now }
        ensures accesses { count.new ≡ count.old + 1 }
    {
        count.tick();
        match self.heaps.get(number as usize) {
            Some(Some(heap)) => Some(heap),
            _ => None,
        }
    }

    /// The heap of a number that has one, to be changed.
    pub(crate) fn heap_mut(&mut self, number: u32, count: &mut Accesses) -> &mut GuardedOf<T>
        requires there { IsSome (slot number self.old) }
        ensures* lends { sem 𝓛 (LendsHeap T.row T.Index.row T.Index.NonMax.row T.Tables
            (record { MAX = T.Index.MAX; number = T.Index.number }) T.Index.Default
            (record {
              number = T.Index.NonMax.number;
              of_number = T.Index.NonMax.of_number;
              limit = T.Index.NonMax.limit;
            }) T.Index.NonMax.PartialEq T.Index.NonMax.Default
            T.Index.NonMax.Debug T.Index.NonMax.Display self.entry number result) }
        ensures heap { slot number self.old ≡ Some result.now }
        ensures accesses { count.new ≡ count.old + 1 }
    {
        count.tick();
        heap_in(&mut self.heaps[number as usize])
    }

    /// Whether a number has a heap.
    pub(crate) fn has(&self, number: u32, count: &mut Accesses) -> bool
        ensures has { result ≡ is_some (slot number self.now) }
        ensures there { result ≡ true → number < length self.now }
        ensures accesses { count.new ≡ count.old + 1 }
    {
        match self.at(number, count) {
            Some(_) => true,
            None => false,
        }
    }

    /// Puts a heap at a number, or none.
    pub(crate) fn put(&mut self, number: u32, heap: Option<GuardedOf<T>>, count: &mut Accesses)
        requires { number < length self.old }
        ensures heaps { self.new ≡ slice_set self.old number heap }
        ensures accesses { count.new ≡ count.old + 1 }
    {
        count.tick();
        self.heaps[number as usize] = heap;
    }

    /// Doubles the node limit of the heap of a number, where it has to be raised for a grant that may add `blocks`
    /// blocks.
    pub(crate) fn raise(
        &mut self,
        alloc: Global,
        number: u32,
        limits: Limits,
        blocks: u32,
        count: &mut Accesses,
    ) -> Result<(), AllocError>
        requires there { number < length self.old }
        requires limit_max { limits.max_allocs + 1 < T.Index.MAX }
        ensures formed { IfSome (slot number self.old) (λ g. IsWellFormed g.space) }
        ensures raises { IfOk result
            (λ _. Changes number (RaisesIn limits number blocks) self.old self.new) }
        ensures must { IsErr result → MustRaiseIn limits number blocks (slot number self.old) }
        ensures same { IsErr result → self.new ≡ self.old }
        ensures accesses { count.new ≡ count.old + 1 }
    {
        count.tick();
        raise_in(
            alloc,
            &mut self.heaps[number as usize],
            number,
            limits,
            blocks,
        )
    }

    /// Grants a request in the heap of a number, which has room for it.
    pub(crate) fn grant(
        &mut self,
        number: u32,
        size: u32,
        align: u32,
        count: &mut Accesses,
    ) -> Ticket
        requires there { number < length self.old }
        requires alignment { 1 ≤ align }
        requires room { HasRoomNow (blocks_needed align) (max 1 (units_needed size align))
            (slot number self.old) }
        ensures grants { Changes number (AltersIn (λ g h. tickets.AllocatesAligned size align g h (Some result)))
            self.old self.new }
        ensures accesses { count.new ≡ count.old + 1 }
    {
        count.tick();
        grant_in(&mut self.heaps[number as usize], size, align)
    }

    /// Grants a request in the heap of a number, a free block of which holds it.
    pub(crate) fn fill(
        &mut self,
        number: u32,
        size: u32,
        align: u32,
        count: &mut Accesses,
    ) -> Ticket
        requires there { number < length self.old }
        requires alignment { 1 ≤ align }
        requires holds { CanHoldNow size align (slot number self.old) }
        ensures grants { Changes number (AltersIn (λ g h. tickets.AllocatesTightAligned size align g h (Some result)))
            self.old self.new }
        ensures accesses { count.new ≡ count.old + 1 }
    {
        count.tick();
        grant_tight_aligned_in(&mut self.heaps[number as usize], size, align)
    }

    // Whether a free block of the heap of a number holds a request.
    fn holds_at(
        &self,
        number: u32,
        limits: Limits,
        size: u32,
        align: u32,
        count: &mut Accesses,
    ) -> bool
        requires some { 1 ≤ size }
        requires alignment { 1 ≤ align }
        ensures holds { IsTrue result ↔ CanHoldIn limits number size align (slot number self.now) }
        ensures less { result ≡ false
            → room_of limits number (blocks_needed align) (slot number self.now) < units_needed size align }
        ensures accesses { count.new ≡ count.old + 1 }
    {
        match self.at(number, count) {
            None => false,
            Some(heap) => holds(heap, number, limits, size, align),
        }
    }

    /// The first heap, a free block of which holds a request. Where none does, none has room for it.
    pub(crate) fn first_holding(
        &self,
        numbers: u32,
        limits: Limits,
        size: u32,
        align: u32,
        count: &mut Accesses,
    ) -> Option<u32>
        requires some { 1 ≤ size }
        requires alignment { 1 ≤ align }
        requires numbers { length self.now ≡ numbers }
        ensures first { MatchOption result ((k : ℕ) → CanHoldIn limits k size align (slot k self.now) → ⊥)
            (λ k. CanHoldIn limits k size align (slot k self.now)
            × ((j : ℕ) → j < k → CanHoldIn limits j size align (slot j self.now) → ⊥)) }
        ensures less { result ≡ None → (k : ℕ)
            → room_of limits k (blocks_needed align) (slot k self.now) < units_needed size align }
        ensures there { IfSome result (λ k. k < numbers) }
        ensures accesses { count.new ≤ count.old + numbers }
    {
        for number in 0..numbers {
            if self.holds_at(number, limits, size, align, count) {
                return Some(number);
            }
        }
        None
    }

    /// Frees the range of a ticket in the heap of a number, where it is live.
    pub(crate) fn free(&mut self, number: u32, ticket: Ticket, count: &mut Accesses) -> bool
        ensures done { IsTrue result ↔ IsSome (range_in ticket (slot number self.old)) }
        ensures there { result ≡ true → number < length self.old }
        ensures change { result ≡ true
            → Changes number (AltersIn (λ g h. tickets.Frees ticket g h true)) self.old self.new }
        ensures same { result ≡ false → self.new ≡ self.old }
        ensures accesses { count.new ≡ count.old + 1 }
    {
        count.tick();
        if number as usize >= self.heaps.len() {
            return false;
        }
        free_in(&mut self.heaps[number as usize], ticket)
    }

    /// Slides live ranges of the heap of a number to the front of its space by its step, where there is one, and returns
    /// whether it was done, `true` where there is no heap. It calls the closure with the number too.
    pub(crate) fn compact_numbered<F: FnMut(u32, Move<T::Index>)>(
        &mut self,
        number: u32,
        moved: &mut F,
        count: &mut Accesses,
    ) -> bool
        requires there { number < length self.old }
        requires callable { F.IsAlwaysCallable moved.old }
        ensures callable { F.IsAlwaysCallable moved.new }
        ensures done { IsTrue result ↔ IsCompactible (slot number self.old) }
        ensures change { Changes number CompactsSlot self.old self.new }
        ensures moved { FoldsTo (IsCalledAt T.Index.NonMax.number (λ f k range g. F.step f k range tt g)) moved.old
            (numbered number (moves_in (slot number self.old))) moved.new }
        ensures accesses { count.new ≡ count.old + 1 }
    {
        count.tick();
        compact_numbered_in(&mut self.heaps[number as usize], number, moved)
    }

    /// Makes the space of the heap of a number one free block again.
    pub(crate) fn reset(&mut self, number: u32, count: &mut Accesses)
        requires { number < length self.old }
        ensures change { Changes number ResetsIn self.old self.new }
        ensures accesses { count.new ≡ count.old + 1 }
    {
        count.tick();
        reset_in(&mut self.heaps[number as usize]);
    }

    /// The first number, from one on, that has a heap.
    pub(crate) fn heap_from(&self, start: u32, numbers: u32, count: &mut Accesses) -> Option<u32>
        requires start { start ≤ numbers }
        requires numbers { length self.now ≡ numbers }
        ensures first { MatchOption result (NoHeapFrom start self.now) (IsHeapFrom start self.now) }
        ensures there { IfSome result (λ k. k < numbers) }
        ensures accesses { count.new ≤ count.old + numbers }
    {
        for number in start..numbers {
            if self.has(number, count) {
                return Some(number);
            }
        }
        None
    }

    /// Whether the heap of a number has no live range.
    pub(crate) fn is_empty_at(&self, number: u32, count: &mut Accesses) -> bool
        ensures empty { result ≡ is_empty (slot number self.now) }
        ensures accesses { count.new ≡ count.old + 1 }
    {
        is_empty_heap(self.at(number, count))
    }

    /// The units of the range of a ticket in the heap of a number, where it is live, and the units that are live
    /// there.
    pub(crate) fn units_at(
        &self,
        number: u32,
        ticket: Ticket,
        count: &mut Accesses,
    ) -> Option<(u32, u32)>
        ensures live { IsSome result ↔ IsSome (range_in ticket (slot number self.now)) }
        ensures units { IfSome result (λ r. r.0 ≡ units_in (range_in ticket (slot number self.now))) }
        ensures all { IfSome result (λ r. r.1 ≡ part live_units_of (slot number self.now)) }
        ensures accesses { count.new ≡ count.old + 1 }
    {
        match self.at(number, count) {
            None => None,
            Some(heap) => match heap.size_of(ticket) {
                None => None,
                Some(size) => Some((size, heap.allocator().live_units())),
            },
        }
    }

    /// The alignment that the range of a ticket has in the heap of a number, as `alignment_in` says.
    pub(crate) fn alignment_at(
        &self,
        number: u32,
        ticket: Ticket,
        count: &mut Accesses,
    ) -> Option<u32>
        ensures live { IsSome result
            ↔ (IsSome (range_in ticket (slot number self.now)) × (1 ≤ part step_of (slot number self.now))) }
        ensures own { IfSome result (IsGcd (offset_in (range_in ticket (slot number self.now)))
            (part step_of (slot number self.now))) }
        ensures some { IfSome result (λ d. 1 ≤ d) }
        ensures accesses { count.new ≡ count.old + 1 }
    {
        match self.at(number, count) {
            None => None,
            Some(heap) => alignment_in(heap, ticket),
        }
    }

    // Whether the heap of a number takes a range of `size` units of the heap `own`, which has `live` live units.
    fn takes(
        &self,
        number: u32,
        limits: Limits,
        own: u32,
        size: u32,
        align: u32,
        live: u32,
        count: &mut Accesses,
    ) -> bool
        requires alignment { 1 ≤ align }
        ensures takes { IsTrue result ↔ TakesUnits limits own size align live self.now number }
        ensures accesses { count.new ≡ count.old + 1 }
    {
        match self.at(number, count) {
            None => false,
            Some(heap) => {
                let room = room_at(heap, number, limits, align) as u64;
                number != own
                    && room >= units_for(size, align)
                    && is_fuller(size, own, live, number, heap.allocator().live_units())
                    && !must_raise(heap, number, limits, align.min(2))
            }
        }
    }

    /// The first heap, from a number on, that takes a range of `size` units of the heap `own`, which has `live`
    /// live units.
    pub(crate) fn taker(
        &self,
        from: u32,
        numbers: u32,
        limits: Limits,
        own: u32,
        size: u32,
        align: u32,
        live: u32,
        count: &mut Accesses,
    ) -> Option<u32>
        requires alignment { 1 ≤ align }
        requires from { from ≤ numbers }
        requires numbers { numbers ≤ length self.now }
        ensures first { MatchOption result
            ((k : ℕ) → from ≤ k → k < numbers
            → TakesUnits limits own size align live self.now k → ⊥)
            (λ k. (k < numbers) × TakesUnits limits own size align live self.now k
            × ((j : ℕ) → from ≤ j → j < k → TakesUnits limits own size align live self.now j → ⊥)) }
        ensures accesses { count.new ≤ count.old + numbers }
    {
        for number in from..numbers {
            if self.takes(number, limits, own, size, align, live, count) {
                return Some(number);
            }
        }
        None
    }

    // The live units of the heap of a number, or `None` where nothing is live in it.
    fn live_units_at(&self, number: u32, count: &mut Accesses) -> Option<u32>
        ensures live { MatchOption result (HasLive (slot number self.now) → ⊥)
            (λ n. HasLive (slot number self.now) × (n ≡ part live_units_of (slot number self.now))) }
        ensures accesses { count.new ≡ count.old + 1 }
    {
        match self.at(number, count) {
            None => None,
            Some(heap) => {
                let space = heap.allocator();
                if space.is_empty() {
                    None
                } else {
                    Some(space.live_units())
                }
            }
        }
    }

    /// The heap with the fewest live units, of the first `numbers` numbers whose heaps have a live range, and the
    /// last such.
    pub(crate) fn emptiest(&self, numbers: u32, count: &mut Accesses) -> Option<u32>
        requires { numbers ≤ length self.now }
        ensures emptiest { MatchOption result (NoneLive numbers self.now)
            (IsEmptiest numbers self.now) }
        ensures accesses { count.new ≡ count.old + numbers }
    {
        let mut found = None;
        for number in 0..numbers {
            let live = self.live_units_at(number, count);
            found = with_live(found, number, live);
        }
        match found {
            None => None,
            Some((number, _)) => Some(number),
        }
    }
}
