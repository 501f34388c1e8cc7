//! Ranges that become smaller or larger in place, by the calls of tickets. It changes one slot, and notes it in the index.
ghost use Rattle.std.specs.Prelude.{◌≡◌, ◌↔◌, None, Some, IfSome, IsSome, false, true};
ghost use Rattle.offset_guarded.specs.Answers as tickets;
ghost use Rattle.offset_heaps.specs.Changing.{Alters, HasUnits, KeepsLive};
ghost use Rattle.offset_heaps.specs.Places.{ticket_of};
ghost use Rattle.offset_heaps.specs.Twins.{AreTwins};

use crate::HeapsOf;
use crate::place::Place;
use offset_allocator::Tables;
use offset_guarded::Ticket;

impl<T: Tables> HeapsOf<T> {
    ghost use Rattle.offset_heaps.specs.Heaps.{IsLive, IsSame, KeepsOthers, TakesFewAccesses};

    // The number of the heap of a place, and its ticket there, where the place is of these heaps.
    fn ticket_of(&self, place: Place) -> Option<(u32, Ticket)>
        ensures own { IsSome result ↔ (place.realm ≡ self.now.realm) }
        ensures heap { IfSome result (λ r. r.0 ≡ place.heap) }
        ensures ticket { IfSome result (λ r. r.1 ≡ ticket_of place) }
    {
        let (number, realm, ticket) = place.split();
        if realm != self.realm {
            return None;
        }
        Some((number, ticket))
    }

    /// Makes the range of a place smaller in place, as `GuardedOf::shrink` does in its heap, and returns
    /// whether it did; or `None` where the place is not live, and then nothing changes. `false` is returned
    /// exactly where the heap's space refuses it, under the node limit that it has: where the range has fewer
    /// units, or that limit is reached and the units that it gives back have no free block after them; then all
    /// is as it was. No memory is taken here, so no limit is raised.
    ///
    /// ```
    /// let mesh = heaps.allocate(300).unwrap().place;
    /// assert_eq!(heaps.shrink(mesh, 200), Some(true));
    /// assert_eq!(heaps.size_of(mesh), Some(200));
    /// ```
    pub fn shrink(&mut self, place: Place, size: u32) -> Option<bool>
        ensures live { IsSome result ↔ IsLive place self.old }
        // Then the range has `size` units, from its first one on. Every other place keeps its range.
        ensures range { result ≡ Some true → HasUnits place size self.old self.new }
        ensures others { KeepsOthers place self.old self.new }
        ensures kept { KeepsLive self.old self.new }
        // Where it is not done, every later call returns the same as if this one had not been made.
        ensures refused { result ≡ Some false → AreTwins self.old self.new }
        ensures not_live { result ≡ None → IsSame self.old self.new }
        // The step of its heap. All other heaps are as they were.
        ensures step { IsSome result
            → Alters place.heap (λ g h. tickets.Shrinks (ticket_of place) size g h result) self.old self.new }
        ensures accesses { TakesFewAccesses self.old self.new }
    {
        let (number, ticket) = self.ticket_of(place)?;
        if !self.slots.has(number, &mut self.accesses) {
            return None;
        }
        let result = self
            .slots
            .heap_mut(number, &mut self.accesses)
            .shrink(ticket, size);
        self.index
            .note(&self.slots, number, self.limits, &mut self.accesses);
        result
    }

    /// Makes the range of a place larger in place, as `GuardedOf::grow_in_place` does in its heap, and
    /// returns whether it did; or `None` where the place is not live, and then nothing changes. `false` is
    /// returned where the range has more units, or the free block directly after it has too few; then all is
    /// as it was.
    ///
    /// ```
    /// let mesh = heaps.allocate(300).unwrap().place;
    /// assert_eq!(heaps.grow_in_place(mesh, 400), Some(true));
    /// assert_eq!(heaps.grow_in_place(mesh, 1001), Some(false));
    /// ```
    pub fn grow_in_place(&mut self, place: Place, size: u32) -> Option<bool>
        ensures live { IsSome result ↔ IsLive place self.old }
        // Then the range has `size` units, from its first one on. Every other place keeps its range.
        ensures range { result ≡ Some true → HasUnits place size self.old self.new }
        ensures others { KeepsOthers place self.old self.new }
        ensures kept { KeepsLive self.old self.new }
        // Where it is not done, every later call returns the same as if this one had not been made.
        ensures refused { result ≡ Some false → AreTwins self.old self.new }
        ensures not_live { result ≡ None → IsSame self.old self.new }
        // The step of its heap. All other heaps are as they were.
        ensures step { IsSome result
            → Alters place.heap (λ g h. tickets.Grows (ticket_of place) size g h result) self.old self.new }
        ensures accesses { TakesFewAccesses self.old self.new }
    {
        let (number, ticket) = self.ticket_of(place)?;
        if !self.slots.has(number, &mut self.accesses) {
            return None;
        }
        let result = self
            .slots
            .heap_mut(number, &mut self.accesses)
            .grow_in_place(ticket, size);
        self.index
            .note(&self.slots, number, self.limits, &mut self.accesses);
        result
    }
}
