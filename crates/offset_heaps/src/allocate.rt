//! Requests: which heap grants one, and when another heap is made for it. It changes one slot, and notes it
//! in the index.
ghost use Rattle.std.specs.Prelude.{ℕ, ◌≡◌, ◌↔◌, ◌+◌, ◌*◌, ◌%◌, ◌^◌, ◌<◌, ◌≤◌, None, Some, Ok, Err};
ghost use Rattle.std.specs.Prelude.{false, true, length, max, IsErr, IsTrue, IfOk, IfErr, IfSome, MatchOption, OnErr};
ghost use Rattle.offset_allocator.specs.Requests.{blocks_needed, units_needed};
ghost use Rattle.offset_heaps.specs.Places.{place_of};
ghost use Rattle.offset_heaps.specs.Slots.{CanHoldIn, Changes, IsBelow, RaisesIn};

use crate::index::LARGER_KEY;
use crate::limits::usual_room;
use crate::place::Granted;
use crate::refusal::Refusal;
use crate::{HeapsOf, fresh};
use offset_allocator::Tables;
use offset_guarded::{GuardedOf, Ticket};
use std::alloc::AllocError;

// A number, where it is below a limit.
pub(crate) fn below(found: Option<u32>, limit: u32) -> Option<u32>
    ensures { IsBelow limit found result }
{
    match found {
        None => None,
        Some(number) => {
            if number < limit {
                return Some(number);
            }
            None
        }
    }
}

impl<T: Tables> HeapsOf<T> {
    ghost use Rattle.offset_heaps.specs.Heaps.{heap_at, range_of, KeepsOthers, Grants, IsFirstFit, IsNext};
    ghost use Rattle.offset_heaps.specs.Heaps.{IsSame, IsSpareLarger, IsSpareUsual, IsUsual, IsWhy, NoneFits};
    ghost use Rattle.offset_heaps.specs.Heaps.{TakesFewAccesses, Adds, IsForRoom, IsOfKind, IsWhyNotMade};
    ghost use Rattle.offset_heaps.specs.Heaps.{MustRaiseIn, last_realm, numbers, room_of};

    // The first heap that has room for a request.
    pub(crate) fn first_fit(&mut self, units: u64, align: u32) -> Option<u32>
        requires some { 1 ≤ units }
        requires alignment { 1 ≤ align }
        ensures first { MatchOption result (NoneFits (blocks_needed align) units self.old)
            (λ k. IsFirstFit (blocks_needed align) units k self.old) }
        ensures there { IfSome result (λ k. k < length self.old.slots) }
        ensures same { IsSame self.old self.new }
        ensures accesses { (bits : ℕ) → numbers self.old ≤ 2 ^ bits
            → self.new.accesses ≤ self.old.accesses + bits + 1 }
    {
        self.index.first_fit(units, align, &mut self.accesses)
    }

    // Whether the last usual heap, if there may be any, has that many units for a request when it is fresh.
    pub(crate) fn is_usual(&self, size: u32) -> bool
        ensures { IsTrue result ↔ IsUsual size self.now }
    {
        let limits = self.limits;
        if limits.most == 0 {
            return false;
        }
        size <= usual_room(limits, limits.most - 1)
    }

    // The first number of a usual heap that has none, and whose heap would have room for a request.
    fn spare_usual(&mut self, size: u32) -> Option<u32>
        requires some { 1 ≤ size }
        ensures first { MatchOption result ((k : ℕ) → IsSpareUsual size k self.old → ⊥)
            (λ k. IsSpareUsual size k self.old × ((j : ℕ) → j < k → IsSpareUsual size j self.old → ⊥)) }
        ensures same { IsSame self.old self.new }
        ensures accesses { (bits : ℕ) → numbers self.old ≤ 2 ^ bits
            → self.new.accesses ≤ self.old.accesses + bits + 1 }
    {
        let found = self
            .index
            .spare
            .first_at_least(size as u64, &mut self.accesses);
        below(found, self.limits.most)
    }

    // The first number of a larger heap that has none.
    fn spare_larger(&mut self) -> Option<u32>
        ensures first { MatchOption result ((k : ℕ) → IsSpareLarger k self.old → ⊥)
            (λ k. IsSpareLarger k self.old × ((j : ℕ) → j < k → IsSpareLarger j self.old → ⊥)) }
        ensures same { IsSame self.old self.new }
        ensures accesses { (bits : ℕ) → numbers self.old ≤ 2 ^ bits
            → self.new.accesses ≤ self.old.accesses + bits + 1 }
    {
        // what is read recalls that sizes have 32 bits
        let _ = &self.limits;
        self.index
            .spare
            .first_at_least(LARGER_KEY as u64, &mut self.accesses)
    }

    // Doubles the node limit of the heap of a number, where it has to be raised for a grant that may add `blocks`
    // blocks.
    pub(crate) fn raise(&mut self, number: u32, blocks: u32) -> Result<(), AllocError>
        requires there { number < length self.old.slots }
        requires few { blocks ≤ 2 }
        ensures raises { IfOk result (λ _.
            Changes number (RaisesIn self.old.limits number blocks) self.old.slots self.new.slots) }
        ensures rest { self.new ≡ record self.old { slots = self.new.slots; accesses = self.new.accesses } }
        // The limit need not be raised again, and the heap has room for as much as before.
        ensures stays { IfOk result
            (λ _. MustRaiseIn self.old.limits number blocks (heap_at number self.new) → ⊥) }
        ensures room { IfOk result (λ _. (more : ℕ) → room_of self.old.limits number more (heap_at number self.new)
            ≡ room_of self.old.limits number more (heap_at number self.old)) }
        ensures holds { IfOk result (λ _. (size align : ℕ)
            → CanHoldIn self.old.limits number size align (heap_at number self.old)
            → CanHoldIn self.old.limits number size align (heap_at number self.new)) }
        ensures must { IsErr result → MustRaiseIn self.old.limits number blocks (heap_at number self.old) }
        ensures same { IsErr result → IsSame self.old self.new }
        ensures accesses { self.new.accesses ≡ self.old.accesses + 1 }
    {
        self.slots.raise(self.alloc, number, self.limits, blocks, &mut self.accesses)
    }

    // Grants a request in the heap of a number, which has room for it, and for one unit, and whose node limit need
    // not be raised.
    pub(crate) fn grant_at(&mut self, number: u32, size: u32, align: u32) -> Granted
        requires there { number < length self.old.slots }
        requires alignment { 1 ≤ align }
        requires room { max 1 (units_needed size align)
            ≤ room_of self.old.limits number (blocks_needed align) (heap_at number self.old) }
        requires stays { MustRaiseIn self.old.limits number (blocks_needed align)
            (heap_at number self.old) → ⊥ }
        ensures grants { Grants size align self.old self.new result }
        ensures number { result.place.heap ≡ number }
        ensures found { result.is_new ≡ false }
        ensures aligned { result.offset % align ≡ 0 }
        ensures accesses { (bits : ℕ) → numbers self.old ≤ 2 ^ bits
            → self.new.accesses ≤ self.old.accesses + 12 * bits + 10 }
    {
        let ticket = self.slots.grant(number, size, align, &mut self.accesses);
        self.index
            .note(&self.slots, number, self.limits, &mut self.accesses);
        Granted::of(number, self.realm, ticket, false)
    }

    // Grants a request in the first heap that has room for it, and raises its node limit first where it has to.
    fn grant_first(&mut self, number: u32, size: u32, align: u32) -> Result<Granted, Refusal>
        requires there { number < length self.old.slots }
        requires units { 1 ≤ size }
        requires alignment { 1 ≤ align }
        requires first { IsFirstFit (blocks_needed align) (units_needed size align) number self.old }
        ensures why { IfErr result (IsWhy size align self.old) }
        ensures not_empty { result ≡ Err Refusal.Empty → ⊥ }
        ensures same { OnErr result (IsSame self.old self.new) }
        ensures found { IfOk result (λ g. (g.is_new ≡ false) × (g.place.heap ≡ number)) }
        ensures grants { IfOk result (Grants size align self.old self.new) }
        ensures aligned { IfOk result (λ g. g.offset % align ≡ 0) }
        ensures accesses { (bits : ℕ) → numbers self.old ≤ 2 ^ bits
            → self.new.accesses ≤ self.old.accesses + 12 * bits + 11 }
    {
        match self.raise(number, align.min(2)) {
            Err(_) => Err(Refusal::Memory),
            Ok(_) => Ok(self.grant_at(number, size, align)),
        }
    }

    // Puts a heap that was made at a number that has none.
    fn add(&mut self, number: u32, slot: Option<GuardedOf<T>>, ticket: Ticket) -> Granted
        requires there { number < length self.old.slots }
        requires left { self.old.made < last_realm }
        requires realm { IfSome slot (λ g. g.realm ≡ self.old.made + 1) }
        requires kind { IfSome slot (IsOfKind self.old.limits number) }
        ensures heaps { Adds number slot self.old self.new }
        ensures granted { result ≡ record {
          place = place_of number self.old.realm ticket;
          offset = ticket.offset;
          is_new = true;
        } }
        ensures accesses { (bits : ℕ) → numbers self.old ≤ 2 ^ bits
            → self.new.accesses ≤ self.old.accesses + 12 * bits + 10 }
    {
        self.slots.put(number, slot, &mut self.accesses);
        self.made += 1;
        self.index
            .note(&self.slots, number, self.limits, &mut self.accesses);
        Granted::of(number, self.realm, ticket, true)
    }

    // Makes the usual heap of a number for a request that it has room for.
    fn grant_usual(&mut self, number: u32, size: u32, align: u32) -> Result<Granted, Refusal>
        requires spare { IsSpareUsual size number self.old }
        requires units { 1 ≤ size }
        requires alignment { 1 ≤ align }
        requires usual { IsUsual size self.old }
        ensures why { IfErr result (IsWhyNotMade self.old) }
        ensures same { OnErr result (IsSame self.old self.new) }
        ensures grants { IfOk result (Grants size align self.old self.new) }
        ensures made { IfOk result (λ g. (g.is_new ≡ true) × (g.place.heap ≡ number)
            × (self.old.made < last_realm)) }
        ensures aligned { IfOk result (λ g. g.offset % align ≡ 0) }
        ensures accesses { (bits : ℕ) → numbers self.old ≤ 2 ^ bits
            → self.new.accesses ≤ self.old.accesses + 12 * bits + 10 }
    {
        if self.made == u32::MAX {
            return Err(Refusal::Full);
        }
        match fresh::usual(self.alloc, self.limits, number, self.made + 1, size, align) {
            Err(_) => Err(Refusal::Memory),
            Ok((slot, ticket)) => Ok(self.add(number, slot, ticket)),
        }
    }

    // Makes a heap of the size of a request.
    fn grant_larger(&mut self, number: u32, size: u32, align: u32) -> Result<Granted, Refusal>
        requires spare { IsSpareLarger number self.old }
        requires units { 1 ≤ size }
        requires alignment { 1 ≤ align }
        requires unusual { IsUsual size self.old → ⊥ }
        ensures why { IfErr result (IsWhyNotMade self.old) }
        ensures same { OnErr result (IsSame self.old self.new) }
        ensures grants { IfOk result (Grants size align self.old self.new) }
        ensures made { IfOk result (λ g. (g.is_new ≡ true) × (g.place.heap ≡ number)
            × (self.old.made < last_realm)) }
        ensures aligned { IfOk result (λ g. g.offset % align ≡ 0) }
        ensures accesses { (bits : ℕ) → numbers self.old ≤ 2 ^ bits
            → self.new.accesses ≤ self.old.accesses + 12 * bits + 10 }
    {
        if self.made == u32::MAX {
            return Err(Refusal::Full);
        }
        match fresh::larger(self.alloc, self.made + 1, size, align) {
            Err(_) => Err(Refusal::Memory),
            Ok((slot, ticket)) => Ok(self.add(number, slot, ticket)),
        }
    }

    // Makes a heap for a request that none has room for.
    pub(crate) fn grant_new(&mut self, size: u32, align: u32) -> Result<Granted, Refusal>
        requires size { 1 ≤ size }
        requires alignment { 1 ≤ align }
        requires none { NoneFits (blocks_needed align) (units_needed size align) self.old }
        ensures why { IfErr result (IsWhy size align self.old) }
        ensures not_empty { result ≡ Err Refusal.Empty → ⊥ }
        ensures same { OnErr result (IsSame self.old self.new) }
        ensures grants { IfOk result (Grants size align self.old self.new) }
        ensures made { IfOk result (λ g. (g.is_new ≡ true)
            × IsNext size g.place.heap self.old) }
        ensures aligned { IfOk result (λ g. g.offset % align ≡ 0) }
        ensures accesses { (bits : ℕ) → numbers self.old ≤ 2 ^ bits
            → self.new.accesses ≤ self.old.accesses + 13 * bits + 16 }
    {
        if self.is_usual(size) {
            return match self.spare_usual(size) {
                None => Err(Refusal::Full),
                Some(number) => self.grant_usual(number, size, align),
            };
        }
        if self.limits.most_larger == 0 {
            return Err(Refusal::TooLarge);
        }
        match self.spare_larger() {
            None => Err(Refusal::Full),
            Some(number) => self.grant_larger(number, size, align),
        }
    }

    // A request as `allocate_aligned` has it.
    fn serve(&mut self, size: u32, align: u32) -> Result<Granted, Refusal>
        requires alignment { 1 ≤ align }
        ensures empty { size ≡ 0 → result ≡ Err Refusal.Empty }
        ensures why { IfErr result (IsWhy size align self.old) }
        ensures same { OnErr result (IsSame self.old self.new) }
        ensures found { IfOk result (λ g. g.is_new ≡ false
            → IsFirstFit (blocks_needed align) (units_needed size align) g.place.heap self.old) }
        ensures made { IfOk result (λ g. g.is_new ≡ true
            → NoneFits (blocks_needed align) (units_needed size align) self.old
            × IsNext size g.place.heap self.old) }
        ensures grants { IfOk result (Grants size align self.old self.new) }
        ensures aligned { IfOk result (λ g. g.offset % align ≡ 0) }
        ensures accesses { TakesFewAccesses self.old self.new }
    {
        if size == 0 {
            return Err(Refusal::Empty);
        }
        let units = size as u64 + align as u64 - 1;
        match self.first_fit(units, align) {
            Some(number) => self.grant_first(number, size, align),
            None => self.grant_new(size, align),
        }
    }

    /// Grants `size` units of one heap: what `allocate_aligned(size, 1)` grants.
    ///
    /// A heap has room exactly for requests up to the `largest_free_region` that its report would have under its
    /// largest node limit, while it has a serial left: see `laws::room_is_reported`.
    ///
    /// ```
    /// let mesh = heaps.allocate(300).unwrap();
    /// assert!(mesh.is_new);
    /// let level = heaps.allocate(5000).unwrap();
    /// assert_eq!(heaps.size_of(level.place), Some(5000));
    /// ```
    pub fn allocate(&mut self, size: u32) -> Result<Granted, Refusal>
        ensures no_room { IsForRoom result
            ↔ ((1 ≤ size) × NoneFits 1 size self.old × ((k : ℕ) → IsNext size k self.old → ⊥)) }
        ensures empty { size ≡ 0 → result ≡ Err Refusal.Empty }
        ensures why { IfErr result (IsWhy size 1 self.old) }
        ensures same { OnErr result (IsSame self.old self.new) }
        ensures found { IfOk result (λ g. g.is_new ≡ false → IsFirstFit 1 size g.place.heap self.old) }
        ensures made { IfOk result (λ g. g.is_new ≡ true
            → NoneFits 1 size self.old × IsNext size g.place.heap self.old) }
        ensures not_live { IfOk result (λ g. range_of g.place self.old ≡ None) }
        ensures range { IfOk result (λ g. range_of g.place self.new
            ≡ Some (record { offset = g.offset; size = size })) }
        ensures others { IfOk result (λ g. KeepsOthers g.place self.old self.new) }
        ensures grants { IfOk result (Grants size 1 self.old self.new) }
        ensures accesses { TakesFewAccesses self.old self.new }
    {
        self.allocate_aligned(size, 1)
    }

    /// Grants `size` units of one heap that begin at a multiple of `align`, from 1 on, in that heap.
    ///
    /// It is the first heap, by number, that has room for `size + align - 1` units, and it grants what
    /// `GuardedOf::allocate_aligned` grants. Where none has, another heap is made,
    /// whose first range begins at 0, a multiple of every alignment: so it needs room for `size` units alone.
    /// If the last usual heap, the largest, would have that, it is a usual one, of the first number below
    /// `most` that no heap has and whose heap would have it, of `first_size` units doubled as often as its
    /// number says, and at most `size`; else a larger heap of exactly `size` units, all of which are granted,
    /// with the first number from `most` on that no heap has, and with the node limit 4: it never has more than
    /// two live ranges. A usual heap begins with the node limit `first_allocs`, and has room exactly where it
    /// would have room under `max_allocs`: see `laws::room_is_granted`. Where its own limit is
    /// lower, and its space would refuse the request for want of nodes, the limit is first doubled, as
    /// `GuardedOf::raised` does it, to `max_allocs` at most: that is always enough. Only for a new heap and for
    /// more nodes memory is requested, and never where the request is granted without them.
    ///
    /// Where the request is refused, all is as it was, and the `Refusal` says why.
    ///
    /// ```
    /// heaps.allocate(10).unwrap();
    /// let uniforms = heaps.allocate_aligned(300, 256).unwrap().place;
    /// assert_eq!(heaps.offset_of(uniforms), Some(256));
    /// let page = heaps.allocate_aligned(960, 256).unwrap().place;
    /// assert_eq!((page.heap, heaps.offset_of(page)), (1, Some(0)));
    /// ```
    pub fn allocate_aligned(&mut self, size: u32, align: u32) -> Result<Granted, Refusal>
        requires alignment { 1 ≤ align }
        // It is refused for room exactly when no heap has room, and no other may be made for it.
        ensures no_room { IsForRoom result ↔ ((1 ≤ size)
            × NoneFits (blocks_needed align) (units_needed size align) self.old
            × ((k : ℕ) → IsNext size k self.old → ⊥)) }
        ensures empty { size ≡ 0 → result ≡ Err Refusal.Empty }
        ensures why { IfErr result (IsWhy size align self.old) }
        ensures same { OnErr result (IsSame self.old self.new) }
        // Its heap is the first that has room, or a new one with the next number where none has.
        ensures found { IfOk result (λ g. g.is_new ≡ false
            → IsFirstFit (blocks_needed align) (units_needed size align) g.place.heap self.old) }
        ensures made { IfOk result (λ g. g.is_new ≡ true
            → NoneFits (blocks_needed align) (units_needed size align) self.old
            × IsNext size g.place.heap self.old) }
        // The place was not live. It has exactly `size` units, from a multiple of `align` on, and every other
        // place keeps its range, if it has one.
        ensures not_live { IfOk result (λ g. range_of g.place self.old ≡ None) }
        ensures range { IfOk result (λ g. range_of g.place self.new
            ≡ Some (record { offset = g.offset; size = size })) }
        ensures aligned { IfOk result (λ g. g.offset % align ≡ 0) }
        ensures others { IfOk result (λ g. KeepsOthers g.place self.old self.new) }
        // The step of that heap. All other heaps are as they were.
        ensures grants { IfOk result (Grants size align self.old self.new) }
        ensures accesses { TakesFewAccesses self.old self.new }
    {
        self.serve(size, align)
    }
}
