//! Walks from one live range of a heap to the next in space. It changes nothing.
ghost use Rattle.std.specs.Prelude.{◌≡◌, None, option_map};
ghost use Rattle.offset_heaps.specs.Heaps.{IsLive, heap_at};
ghost use Rattle.offset_heaps.specs.Numbering.{first_live_in, live_after_in};
ghost use Rattle.offset_heaps.specs.Places.{place_of, ticket_of};
ghost use Rattle.offset_heaps.specs.Relocating.{last_live_in, live_before_in};

use crate::HeapsOf;
use crate::place::Place;
use offset_allocator::Tables;
use offset_guarded::Ticket;

impl<T: Tables> HeapsOf<T> {
    // The place of a ticket in the heap of a number.
    fn place_at(&self, heap: u32, ticket: Option<Ticket>) -> Option<Place>
        ensures { result ≡ option_map (place_of heap self.now.realm) ticket }
    {
        match ticket {
            None => None,
            Some(ticket) => Some(Place::from_ticket(heap, self.realm, ticket)),
        }
    }

    /// The place of the live range that is the first one in the heap of a number, or `None` where nothing is
    /// live in it, or the number has no heap. From it on, `live_after` walks all live ranges of the heap; they
    /// may be freed on the way, after the next one is asked for.
    ///
    /// ```
    /// let mesh = heaps.allocate(300).unwrap().place;
    /// heaps.allocate(100).unwrap();
    /// assert_eq!(heaps.first_live(mesh.heap), Some(mesh));
    /// ```
    pub fn first_live(&self, number: u32) -> Option<Place>
        ensures { result ≡ first_live_in number self.now.realm (heap_at number self.now) }
    {
        match self.heap(number) {
            None => None,
            Some(guarded) => self.place_at(number, guarded.first_live()),
        }
    }

    /// The place of the live range that is the last one in the heap of a number, or `None` where nothing is
    /// live in it, or the number has no heap. From it on, `live_before` walks all live ranges of the heap;
    /// they may be freed on the way, after the next one is asked for.
    ///
    /// ```
    /// let mesh = heaps.allocate(300).unwrap().place;
    /// let texture = heaps.allocate(100).unwrap().place;
    /// assert_eq!(heaps.last_live(mesh.heap), Some(texture));
    /// ```
    pub fn last_live(&self, number: u32) -> Option<Place>
        ensures { result ≡ last_live_in number self.now.realm (heap_at number self.now) }
    {
        match self.heap(number) {
            None => None,
            Some(guarded) => self.place_at(number, guarded.last_live()),
        }
    }

    /// The place of the live range directly before that of a place in its heap. `None` where there is none,
    /// or where the place is not live.
    ///
    /// ```
    /// let mesh = heaps.allocate(300).unwrap().place;
    /// let texture = heaps.allocate(100).unwrap().place;
    /// assert_eq!(heaps.live_before(texture), Some(mesh));
    /// ```
    pub fn live_before(&self, place: Place) -> Option<Place>
        ensures before { IsLive place self.now → result
            ≡ live_before_in place.heap self.now.realm (ticket_of place) (heap_at place.heap self.now) }
        ensures not_live { (IsLive place self.now → ⊥) → result ≡ None }
    {
        match self.heap_of(&place) {
            None => None,
            Some(guarded) => {
                let (number, _, ticket) = place.split();
                self.place_at(number, guarded.live_before(ticket))
            }
        }
    }

    /// The place of the live range directly after that of a place in its heap. `None` where there is none, or
    /// where the place is not live. `place_after` goes on in the next heap.
    ///
    /// ```
    /// let mesh = heaps.allocate(300).unwrap().place;
    /// let texture = heaps.allocate(100).unwrap().place;
    /// assert_eq!(heaps.live_after(mesh), Some(texture));
    /// ```
    pub fn live_after(&self, place: Place) -> Option<Place>
        ensures after { IsLive place self.now → result
            ≡ live_after_in place.heap self.now.realm (ticket_of place) (heap_at place.heap self.now) }
        ensures not_live { (IsLive place self.now → ⊥) → result ≡ None }
    {
        match self.heap_of(&place) {
            None => None,
            Some(guarded) => {
                let (number, _, ticket) = place.split();
                self.place_at(number, guarded.live_after(ticket))
            }
        }
    }
}
