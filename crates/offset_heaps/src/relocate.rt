//! Second ranges in other heaps, so that a heap can be emptied; and which one is the emptiest. It changes one
//! slot by a grant, and notes it in the index.
ghost use Rattle.std.specs.Prelude.{ℕ, ◌≡◌, ◌↔◌, ◌+◌, ◌*◌, ◌%◌, ◌^◌, ◌<◌, ◌≤◌, None, Some, IfSome, MatchOption};
ghost use Rattle.std.specs.Prelude.{IsSome, false, length};
ghost use Rattle.std.specs.Int.{◌∣◌};
ghost use Rattle.offset_heaps.specs.Heaps.{numbers};
ghost use Rattle.offset_heaps.specs.Relocating.{IsEmptiest, NoneLive, TakesUnits};

use crate::HeapsOf;
use crate::heap::units_for;
use crate::place::{Granted, Place};
use offset_allocator::{Accesses, Tables};

/// As `emptiest` of `Heaps`. The count grows by the number of numbers, one for each slot.
pub fn emptiest_counted<T: Tables>(heaps: &HeapsOf<T>, count: &mut Accesses) -> Option<u32>
    ensures emptiest { MatchOption result (NoneLive (numbers heaps.now) heaps.now.slots)
        (IsEmptiest (numbers heaps.now) heaps.now.slots) }
    ensures accesses { count.new ≡ count.old + numbers heaps.now }
{
    let limits = heaps.limits;
    heaps
        .slots
        .emptiest(limits.most + limits.most_larger, count)
}

impl<T: Tables> HeapsOf<T> {
    ghost use Rattle.offset_heaps.specs.Calls.{Relocates};
    ghost use Rattle.offset_heaps.specs.Heaps.{Grants, IsLive, IsSame, KeepsOthers, range_of, step_at};
    ghost use Rattle.offset_heaps.specs.Relocating.{IsOwnAlign, IsTaker, NoneTakes, offset_of, size_of};

    // The first heap that takes a range of `size` units of the heap `own`, which has `live` live units.
    fn taker(&mut self, own: u32, size: u32, align: u32, live: u32) -> Option<u32>
        requires alignment { 1 ≤ align }
        ensures first { MatchOption result
            ((k : ℕ) → TakesUnits self.old.limits own size align live self.old.slots k → ⊥)
            (λ k. TakesUnits self.old.limits own size align live self.old.slots k
            × ((j : ℕ) → j < k → TakesUnits self.old.limits own size align live self.old.slots j → ⊥)) }
        ensures there { IfSome result (λ k. k < length self.old.slots) }
        ensures same { IsSame self.old self.new }
        ensures accesses { (bits : ℕ) → numbers self.old ≤ 2 ^ bits
            → self.new.accesses ≤ self.old.accesses + numbers self.old + bits + 1 }
    {
        let units = units_for(size, align);
        let from = self.first_fit(units, align)?;
        let limits = self.limits;
        let numbers = limits.most + limits.most_larger;
        self.slots.taker(
            from,
            numbers,
            limits,
            own,
            size,
            align,
            live,
            &mut self.accesses,
        )
    }

    // The alignment that `relocate` asks for, or `None` where the place is not live, or its heap has no step.
    fn alignment_of(&mut self, place: Place) -> Option<u32>
        ensures live { IsSome result ↔ (IsLive place self.old × (1 ≤ step_at place.heap self.old)) }
        ensures own { IfSome result (IsOwnAlign place self.old) }
        ensures some { IfSome result (λ d. 1 ≤ d) }
        ensures same { IsSame self.old self.new }
        ensures accesses { self.new.accesses ≤ self.old.accesses + 1 }
    {
        let (own, realm, ticket) = place.split();
        if realm != self.realm {
            return None;
        }
        self.slots.alignment_at(own, ticket, &mut self.accesses)
    }

    /// Grants a second range of as many units as that of a live place, in another heap, **at every alignment that was
    /// asked for**, and returns its place and its offset; its heap is never a new one. The old range stays live until
    /// it is freed: so the units can be copied while the old ones are still read, and the copies never overlap. Done for
    /// all live ranges of the `emptiest` heap, by `last_live` and `live_before`, it empties that heap, which `drop_empty`
    /// then drops.
    ///
    /// It grants what `relocate_aligned(place, align)` grants, where `align` is what the offset of the range and the step
    /// of its heap have in common, their greatest common divisor, as `GuardedOf::relocate` does; the step of the other
    /// heap takes it in.
    ///
    /// The heap is the first one, by number, that has room, other than the place's own, and in which at least
    /// as many units are live. A range of no units, which `shrink` may leave, needs room for one; since it adds
    /// no live unit, it goes to a heap with more live units, or with as many and a lower number: so each range
    /// of the `emptiest` heap may go to any other one that has room, and in which a unit is live. Calls of
    /// `relocate`, each followed by the release of its old range before the next one, come to an end, since the
    /// sum of the squares of the heaps' live units grows at each range that has units: see
    /// `laws::relocations_end`. With later releases a range may go to and fro: make one pass, free what it left,
    /// then begin the next. No heap is made, and no
    /// memory is taken: a heap whose node limit would have to be raised for it, as `Limits::first_allocs` says,
    /// takes no range.
    ///
    /// `None` is returned where no heap takes the range, where its heap has no step, and where the place is not
    /// live; then nothing changes. It looks for the first heap that has room as `allocate_aligned` does, and from
    /// there on reads each slot once, up to the one that takes the range.
    ///
    /// ```
    /// heaps.allocate(500).unwrap();
    /// let old = heaps.allocate(400).unwrap().place;
    /// let mesh = heaps.allocate_aligned(200, 256).unwrap().place;
    /// heaps.free(old);
    /// let moved = heaps.relocate(mesh).unwrap();
    /// assert_eq!((mesh.heap, moved.place.heap, moved.offset), (1, 0, 512));
    /// ```
    pub fn relocate(&mut self, place: Place) -> Option<Granted>
        // Where the place is not live, or its heap has no step, nothing changes.
        ensures not_live { (IsLive place self.old → ⊥) → result ≡ None }
        ensures none { step_at place.heap self.old ≡ 0 → result ≡ None }
        ensures same { result ≡ None → IsSame self.old self.new }
        // Else it is what `relocate_aligned` does for what the offset of the range and the step of its heap have in
        // common: refused exactly where no heap takes the range, else a grant of the first heap that does.
        ensures step { IsLive place self.old → 1 ≤ step_at place.heap self.old → (align : ℕ)
            × IsOwnAlign place self.old align × Relocates place align self.old self.new result }
        // None is made.
        ensures found { IfSome result (λ g. g.is_new ≡ false) }
        // The second range begins at a multiple of each number that divides the step and the offset of the first one,
        // and the step of its heap is one.
        ensures aligned { IfSome result (λ g. (a : ℕ) → a ∣ step_at place.heap self.old
            → a ∣ offset_of place self.old → (a ∣ g.offset) × (a ∣ step_at g.place.heap self.new)) }
        // The new place was not live. It has as many units, and every other place keeps its range, if it has
        // one: so the old one does.
        ensures was_free { IfSome result (λ g. range_of g.place self.old ≡ None) }
        ensures range { IfSome result (λ g. range_of g.place self.new
            ≡ Some (record { offset = g.offset; size = size_of place self.old })) }
        ensures others { IfSome result (λ g. KeepsOthers g.place self.old self.new) }
        ensures stays { range_of place self.new ≡ range_of place self.old }
        ensures accesses { (bits : ℕ) → numbers self.old ≤ 2 ^ bits
            → self.new.accesses ≤ self.old.accesses + numbers self.old + 16 * bits + 32 }
    {
        let align = self.alignment_of(place)?;
        self.relocate_aligned(place, align)
    }

    /// As `relocate`, and the second range begins at a multiple of `align`, from 1 on, whatever alignment the first
    /// one has: with 1 at any. Its heap is the first other one that has room for an aligned request as
    /// `allocate_aligned` has it, for `size + align - 1` units, or one where that is none, and that may take it as
    /// `relocate` says. It is for a range in a heap that has no step, and for one that needs less.
    ///
    /// ```
    /// heaps.allocate(500).unwrap();
    /// let old = heaps.allocate(400).unwrap().place;
    /// let uniforms = heaps.allocate_aligned(200, 256).unwrap().place;
    /// heaps.free(old);
    /// let moved = heaps.relocate_aligned(uniforms, 256).unwrap();
    /// assert_eq!((moved.place.heap, moved.offset), (0, 512));
    /// ```
    pub fn relocate_aligned(&mut self, place: Place, align: u32) -> Option<Granted>
        requires alignment { 1 ≤ align }
        // It is refused exactly where no heap takes the range, and then all is as it was.
        ensures none { result ≡ None ↔ NoneTakes place align self.old }
        ensures same { result ≡ None → IsSame self.old self.new }
        // The heap is the first that takes it. None is made.
        ensures first { IfSome result (λ g. IsTaker place align self.old g.place.heap) }
        ensures found { IfSome result (λ g. g.is_new ≡ false) }
        // The new place was not live. It has as many units, from a multiple of `align` on, and every other
        // place keeps its range, if it has one: so the old one does.
        ensures not_live { IfSome result (λ g. range_of g.place self.old ≡ None) }
        ensures range { IfSome result (λ g. range_of g.place self.new
            ≡ Some (record { offset = g.offset; size = size_of place self.old })) }
        ensures aligned { IfSome result (λ g. g.offset % align ≡ 0) }
        ensures others { IfSome result (λ g. KeepsOthers g.place self.old self.new) }
        ensures stays { range_of place self.new ≡ range_of place self.old }
        // The step of its heap: a grant of these units. All other heaps are as they were.
        ensures grants { IfSome result (Grants (size_of place self.old) align self.old self.new) }
        ensures accesses { (bits : ℕ) → numbers self.old ≤ 2 ^ bits
            → self.new.accesses ≤ self.old.accesses + numbers self.old + 16 * bits + 31 }
    {
        let (own, realm, ticket) = place.split();
        if realm != self.realm {
            return None;
        }
        let (size, live) = self.slots.units_at(own, ticket, &mut self.accesses)?;
        let number = self.taker(own, size, align, live)?;
        Some(self.grant_at(number, size, align))
    }

    /// The number of the heap with the fewest live units of those that have a live range, the last such by
    /// number, or `None` where nothing is live: the heap that is emptied with the least copies. It reads the
    /// slot of each number once.
    ///
    /// ```
    /// assert_eq!(heaps.emptiest(), None);
    /// let mesh = heaps.allocate(300).unwrap().place;
    /// assert_eq!(heaps.emptiest(), Some(mesh.heap));
    /// ```
    pub fn emptiest(&self) -> Option<u32>
        ensures { MatchOption result (NoneLive (numbers self.now) self.now.slots)
            (IsEmptiest (numbers self.now) self.now.slots) }
    {
        emptiest_counted(self, &mut Accesses::new())
    }
}
