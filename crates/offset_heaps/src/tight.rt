//! Tight requests: of any free block that holds them, and why one would be refused. It asks one heap after another,
//! changes one slot, and notes it in the index.
ghost use Rattle.std.specs.Prelude.{ℕ, ◌≡◌, ◌↔◌, ◌+◌, ◌*◌, ◌%◌, ◌^◌, ◌<◌, ◌≤◌, None, Some, Err, IfErr, IfOk, IfSome};
ghost use Rattle.std.specs.Prelude.{MatchOption, OnErr, false, length, true};
ghost use Rattle.offset_allocator.specs.Requests.{blocks_needed, units_needed};
ghost use Rattle.offset_heaps.specs.Heaps.{numbers};
ghost use Rattle.offset_heaps.specs.Slots.{CanHoldIn};
ghost use Rattle.offset_heaps.specs.Tight.{GrantsTight, IsFirstHolding, IsRefusedForTight, IsServedTight};
ghost use Rattle.offset_heaps.specs.Tight.{IsWhyTight, NoneHolds};

use crate::HeapsOf;
use crate::place::Granted;
use crate::refusal::Refusal;
use offset_allocator::{Accesses, Tables};

/// As `refusal_tight_aligned` of `Heaps`. The count grows by the number of numbers at most, one for each slot, and
/// by some for each bit of the numbers.
pub fn refusal_tight_aligned_counted<T: Tables>(
    heaps: &HeapsOf<T>,
    size: u32,
    align: u32,
    count: &mut Accesses,
) -> Option<Refusal>
    requires alignment { 1 ≤ align }
    ensures why { MatchOption result (IsServedTight size align heaps.now)
        (IsRefusedForTight size align heaps.now) }
    ensures accesses { (bits : ℕ) → numbers heaps.now ≤ 2 ^ bits
        → count.new ≤ count.old + numbers heaps.now + bits + 1 }
{
    if size == 0 {
        return Some(Refusal::Empty);
    }
    let limits = heaps.limits;
    let numbers = limits.most + limits.most_larger;
    if heaps
        .slots
        .first_holding(numbers, limits, size, align, count)
        .is_some()
    {
        return None;
    }
    heaps.why_none(size, count)
}

impl<T: Tables> HeapsOf<T> {
    ghost use Rattle.offset_heaps.specs.Heaps.{IsForRoom, IsNext, IsSame, KeepsOthers, MustRaiseIn};
    ghost use Rattle.offset_heaps.specs.Heaps.{NoneFits, heap_at, range_of};

    // The first heap, a free block of which holds a request. Where none does, none has room for it.
    fn first_holding(&mut self, size: u32, align: u32) -> Option<u32>
        requires some { 1 ≤ size }
        requires alignment { 1 ≤ align }
        ensures first { MatchOption result (NoneHolds size align self.old)
            (λ k. IsFirstHolding size align k self.old) }
        ensures less { result ≡ None → NoneFits (blocks_needed align) (units_needed size align) self.old }
        ensures there { IfSome result (λ k. k < length self.old.slots) }
        ensures same { IsSame self.old self.new }
        ensures accesses { self.new.accesses ≤ self.old.accesses + numbers self.old }
    {
        let limits = self.limits;
        let numbers = limits.most + limits.most_larger;
        self.slots
            .first_holding(numbers, limits, size, align, &mut self.accesses)
    }

    // Grants a request in the heap of a number, a free block of which holds it, and whose node limit need not be raised.
    fn grant_tight_at(&mut self, number: u32, size: u32, align: u32) -> Granted
        requires there { number < length self.old.slots }
        requires alignment { 1 ≤ align }
        requires holds { CanHoldIn self.old.limits number size align (heap_at number self.old) }
        requires stays { MustRaiseIn self.old.limits number (blocks_needed align)
            (heap_at number self.old) → ⊥ }
        ensures grants { GrantsTight size align self.old self.new result }
        ensures number { result.place.heap ≡ number }
        ensures found { result.is_new ≡ false }
        ensures aligned { result.offset % align ≡ 0 }
        ensures accesses { (bits : ℕ) → numbers self.old ≤ 2 ^ bits
            → self.new.accesses ≤ self.old.accesses + 12 * bits + 10 }
    {
        let ticket = self.slots.fill(number, size, align, &mut self.accesses);
        self.index
            .note(&self.slots, number, self.limits, &mut self.accesses);
        Granted::of(number, self.realm, ticket, false)
    }

    // Grants a request in the first heap that holds it, and raises its node limit first where it has to.
    fn grant_tight_first(&mut self, number: u32, size: u32, align: u32) -> Result<Granted, Refusal>
        requires there { number < length self.old.slots }
        requires units { 1 ≤ size }
        requires alignment { 1 ≤ align }
        requires first { IsFirstHolding size align number self.old }
        ensures why { IfErr result (IsWhyTight size align self.old) }
        ensures not_empty { result ≡ Err Refusal.Empty → ⊥ }
        ensures same { OnErr result (IsSame self.old self.new) }
        ensures found { IfOk result (λ g. (g.is_new ≡ false) × (g.place.heap ≡ number)) }
        ensures grants { IfOk result (GrantsTight size align self.old self.new) }
        ensures aligned { IfOk result (λ g. g.offset % align ≡ 0) }
        ensures accesses { (bits : ℕ) → numbers self.old ≤ 2 ^ bits
            → self.new.accesses ≤ self.old.accesses + 12 * bits + 11 }
    {
        match self.raise(number, align.min(2)) {
            Err(_) => Err(Refusal::Memory),
            Ok(_) => Ok(self.grant_tight_at(number, size, align)),
        }
    }

    // A request as `allocate_tight_aligned` has it.
    fn serve_tight(&mut self, size: u32, align: u32) -> Result<Granted, Refusal>
        requires alignment { 1 ≤ align }
        ensures empty { size ≡ 0 → result ≡ Err Refusal.Empty }
        ensures why { IfErr result (IsWhyTight size align self.old) }
        ensures same { OnErr result (IsSame self.old self.new) }
        ensures found { IfOk result (λ g. g.is_new ≡ false → IsFirstHolding size align g.place.heap self.old) }
        ensures made { IfOk result (λ g. g.is_new ≡ true
            → NoneHolds size align self.old × IsNext size g.place.heap self.old) }
        ensures grants { IfOk result (GrantsTight size align self.old self.new) }
        ensures aligned { IfOk result (λ g. g.offset % align ≡ 0) }
        ensures accesses { (bits : ℕ) → numbers self.old ≤ 2 ^ bits
            → self.new.accesses ≤ self.old.accesses + numbers self.old + 16 * bits + 32 }
    {
        if size == 0 {
            return Err(Refusal::Empty);
        }
        match self.first_holding(size, align) {
            Some(number) => self.grant_tight_first(number, size, align),
            None => self.grant_new(size, align),
        }
    }

    /// Grants `size` units of any free block that holds them: what `allocate_tight_aligned(size, 1)` grants.
    ///
    /// ```
    /// heaps.allocate(300).unwrap();
    /// let rest = heaps.allocate_tight(700).unwrap();
    /// assert!(!rest.is_new);
    /// assert_eq!(heaps.totals().free_units, 0);
    /// ```
    pub fn allocate_tight(&mut self, size: u32) -> Result<Granted, Refusal>
        ensures no_room { IsForRoom result
            ↔ ((1 ≤ size) × NoneHolds size 1 self.old × ((k : ℕ) → IsNext size k self.old → ⊥)) }
        ensures empty { size ≡ 0 → result ≡ Err Refusal.Empty }
        ensures why { IfErr result (IsWhyTight size 1 self.old) }
        ensures same { OnErr result (IsSame self.old self.new) }
        ensures found { IfOk result (λ g. g.is_new ≡ false → IsFirstHolding size 1 g.place.heap self.old) }
        ensures made { IfOk result (λ g. g.is_new ≡ true
            → NoneHolds size 1 self.old × IsNext size g.place.heap self.old) }
        ensures not_live { IfOk result (λ g. range_of g.place self.old ≡ None) }
        ensures range { IfOk result (λ g. range_of g.place self.new
            ≡ Some (record { offset = g.offset; size = size })) }
        ensures others { IfOk result (λ g. KeepsOthers g.place self.old self.new) }
        ensures grants { IfOk result (GrantsTight size 1 self.old self.new) }
        ensures accesses { (bits : ℕ) → numbers self.old ≤ 2 ^ bits
            → self.new.accesses ≤ self.old.accesses + numbers self.old + 16 * bits + 32 }
    {
        self.allocate_tight_aligned(size, 1)
    }

    /// Grants `size` units of any free block that holds them from a multiple of `align` on, from 1 on, in its
    /// heap: so heaps that are nearly full are filled.
    ///
    /// It is the first heap, by number, that has a free block which holds the request where it begins, and, under
    /// its largest node limit, unused nodes for it, and it grants what `GuardedOf::allocate_tight_aligned`
    /// grants. So a heap that has room for the same request of `allocate_aligned` grants this one, and others may.
    /// Where none holds it, another heap is made, exactly as by `allocate_aligned`: a usual one where the last of these has room for
    /// `size` units when it is fresh, else one of exactly `size` units. The node limit of the heap is raised before,
    /// where it has to be, as there.
    ///
    /// Where the request is refused, all is as it was, and the `Refusal` says why.
    ///
    /// The index has of each heap the largest region of its report, up to an eighth less than its largest free
    /// block, so it does not say which heap holds the request: they are asked one after another. It reads each slot
    /// up to the heap that grants it, and makes in each heap at most 2 accesses to its tables, and 6 for each free
    /// block of the class of `size` or above, up to the first that holds it; then as `allocate_aligned`.
    ///
    /// ```
    /// heaps.allocate(256).unwrap();
    /// let uniforms = heaps.allocate_tight_aligned(700, 256).unwrap();
    /// assert_eq!((uniforms.is_new, heaps.offset_of(uniforms.place)), (false, Some(256)));
    /// ```
    pub fn allocate_tight_aligned(&mut self, size: u32, align: u32) -> Result<Granted, Refusal>
        requires alignment { 1 ≤ align }
        // It is refused for room exactly when no heap holds it, and no other may be made for it.
        ensures no_room { IsForRoom result ↔ ((1 ≤ size)
            × NoneHolds size align self.old
            × ((k : ℕ) → IsNext size k self.old → ⊥)) }
        ensures empty { size ≡ 0 → result ≡ Err Refusal.Empty }
        ensures why { IfErr result (IsWhyTight size align self.old) }
        ensures same { OnErr result (IsSame self.old self.new) }
        // Its heap is the first that holds it, or a new one with the next number where none does.
        ensures found { IfOk result (λ g. g.is_new ≡ false → IsFirstHolding size align g.place.heap self.old) }
        ensures made { IfOk result (λ g. g.is_new ≡ true
            → NoneHolds size align self.old × IsNext size g.place.heap self.old) }
        // The place was not live. It has exactly `size` units, from a multiple of `align` on, and every other
        // place keeps its range, if it has one.
        ensures not_live { IfOk result (λ g. range_of g.place self.old ≡ None) }
        ensures range { IfOk result (λ g. range_of g.place self.new
            ≡ Some (record { offset = g.offset; size = size })) }
        ensures aligned { IfOk result (λ g. g.offset % align ≡ 0) }
        ensures others { IfOk result (λ g. KeepsOthers g.place self.old self.new) }
        // The step of that heap, which was there, or of one that is made as by `allocate_aligned`. All other heaps
        // are as they were.
        ensures grants { IfOk result (GrantsTight size align self.old self.new) }
        ensures accesses { (bits : ℕ) → numbers self.old ≤ 2 ^ bits
            → self.new.accesses ≤ self.old.accesses + numbers self.old + 16 * bits + 32 }
    {
        self.serve_tight(size, align)
    }

    /// Why `allocate_tight(size)` would be refused now, or `None` where it would be granted, if memory for another
    /// heap or for more nodes is given: what `refusal_tight_aligned(size, 1)` returns.
    ///
    /// ```
    /// assert_eq!(heaps.refusal_tight(300), None);
    /// assert_eq!(heaps.refusal_tight(0), Some(Refusal::Empty));
    /// ```
    pub fn refusal_tight(&self, size: u32) -> Option<Refusal>
        ensures { MatchOption result (IsServedTight size 1 self.now) (IsRefusedForTight size 1 self.now) }
    {
        self.refusal_tight_aligned(size, 1)
    }

    /// Why `allocate_tight_aligned(size, align)` would be refused now, or `None` where it would be granted: a heap
    /// holds it, or another may be made for it; then memory alone may be refused. It is never `Memory`. See
    /// `laws::tight_refusals_are_foretold`. It asks the heaps as that call does.
    ///
    /// ```
    /// assert_eq!(heaps.refusal_tight_aligned(900, 256), None);
    /// ```
    pub fn refusal_tight_aligned(&self, size: u32, align: u32) -> Option<Refusal>
        requires alignment { 1 ≤ align }
        ensures { MatchOption result (IsServedTight size align self.now)
            (IsRefusedForTight size align self.now) }
    {
        refusal_tight_aligned_counted(self, size, align, &mut Accesses::new())
    }
}
