//! Ranges of as many buffers as are needed, each with a heap of its own.
//!
//! A `Heaps` holds heaps by number, each a `GuardedOf`: usual ones, all of one size or each twice as large as
//! the one before it, and larger ones, each of the size of the request that it was made for. Nothing is known
//! of the buffers: the caller makes the buffer of a number when he is told that its heap is new, and drops it
//! when he is told that the heap was dropped. A `Place` is the number of a heap and a grant there. Every call
//! takes any place, and one that is not live changes nothing.
//!
//! ```
//! let limits =
//!     Limits { size: 1 << 24, first_size: 1 << 18, max_allocs: 65536, first_allocs: 64, most: 64, most_larger: 16 };
//! let mut heaps = Heaps::<u32>::with_realms(alloc, limits, 1, 0)?;
//! if let Ok(granted) = heaps.allocate(3000) {
//!     // granted.is_new: make the buffer of this number, of heaps.units_of_heap(granted.place.heap) units
//!     assert!(heaps.free(granted.place));
//! }
//! while let Some(number) = heaps.drop_empty(1) {
//!     // drop the buffer of this number
//! }
//! ```
#![tactic(auto)]

ghost use Rattle.std.specs.Prelude.{ℕ, ◌≡◌, ◌↔◌, ◌+◌, ◌^◌, ◌<◌, ◌≤◌, None, IsSome, IsTrue, IfOk};
ghost use Rattle.std.specs.Prelude.{false, true, length, min, option_copied, option_map, replicate};
ghost use Rattle.offset_allocator.specs.Ranges.{Range};
ghost use Rattle.offset_guarded.specs.Answers as tickets;
ghost use Rattle.offset_heaps.specs.Heaps.{slot};
ghost use Rattle.offset_heaps.specs.Places.{ticket_of};
ghost use Rattle.offset_heaps.specs.Slots.{ResetsIn};
ghost use Rattle.offset_heaps.specs.Soundness.{IsNoted, IsWide};

mod allocate;
mod compact;
mod copy;
mod drop;
mod dumping;
mod extend;
mod foretell;
mod fresh;
mod heap;
mod heap_mut;
mod heap_numbers;
mod index;
pub mod laws;
mod limits;
mod marks;
mod maxima;
mod place;
mod refusal;
mod relocate;
mod resize;
mod restore;
mod save;
mod slots;
mod state;
mod tight;
mod totals;
mod walks;

pub use dumping::json_of;
pub use heap_mut::HeapMut;
use index::Index;
pub use limits::Limits;
use offset_allocator::Accesses;
pub use offset_allocator::{
    Allocation, Allocator, AllocatorOf, Block, Blocks, BlocksOf, ByField, ByNode, Move, MovePieces,
    NodeIndex, NodeIndexNonMax, Piece, Progress, ReadError, RoomCost, Scale, Statistics,
    StorageReport, StorageReportFull, StorageReportFullRegion, Tables, vma_json_of,
};
pub use offset_guarded::{Beside, Guarded, GuardedOf, Ticket};
pub use place::{Granted, Place};
pub use refusal::Refusal;
use slots::Slots;
pub use state::{StateFault, StateFaultKind};
use std::alloc::{AllocError, Global};
use std::fmt;
use std::marker::Model;
pub use totals::Totals;

/// Many heaps as one, each with one table of nodes.
pub type Heaps<NI = u32> = HeapsOf<ByNode<NI>>;

/// Many heaps as one.
///
/// It holds a slot for each number, and an index of them: the work of a call is some steps for each bit of
/// the numbers, and that of one heap.
#[derive(Drop)]
pub struct HeapsOf<T: Tables> {
    alloc: Global,
    slots: Slots<T>,
    index: Index,
    limits: Limits,
    // the realm of the heap that was made last, or the one before the first
    made: u32,
    realm: u32,
    accesses: Accesses,
}

impl<T: Tables> Model for HeapsOf<T> {
    ghost use Rattle.offset_heaps.specs.Heaps.{Heaps};

    ghost Value = { Heaps };

    ghost use Rattle.offset_heaps.specs.Soundness.{IsSound};

    ghost view = { λ h. record {
      slots = h.slots;
      limits = h.limits;
      made = h.made;
      realm = h.realm;
      accesses = h.accesses;
    } };

    ghost invariant = { λ h. IsSound T.Index.MAX h.slots h.limits h.made h.index };
}

// Makes the space of each heap one free block again.
fn reset_all<T: Tables>(
    slots: &mut Slots<T>,
    index: &mut Index,
    limits: Limits,
    count: &mut Accesses,
)
    requires numbers { length slots.old ≡ limits.most + limits.most_larger }
    requires few { length slots.old < 2 ^ 32 }
    requires wide { IsWide slots.old index.old }
    requires noted { (k : ℕ) → IsNoted limits slots.old index.old k }
    ensures done { (k : ℕ) → ResetsIn (slot k slots.old) (slot k slots.new) }
    ensures len { length slots.new ≡ length slots.old }
    ensures wide { IsWide slots.new index.new }
    ensures noted { (k : ℕ) → IsNoted limits slots.new index.new k }
    ensures levels { index.new.one.height ≡ index.old.one.height }
{
    for number in 0..limits.most + limits.most_larger {
        slots.reset(number, count);
        index.note(slots, number, limits, count);
    }
}

impl<T: Tables> HeapsOf<T> {
    ghost use Rattle.offset_heaps.specs.Changing.{Alters};
    ghost use Rattle.offset_heaps.specs.Heaps.{IsLive, IsSame, KeepsOthers, TakesFewAccesses};
    ghost use Rattle.offset_heaps.specs.Heaps.{heap_at, range_in, range_of};

    /// No heap, and memory for the numbers of all that may be made: some 1.2 KB each. A heap is made by the
    /// first request that none has room for.
    ///
    /// The realm is kept in places: a place of another realm is never live here. The heaps have realms too,
    /// which are kept in places too: the numbers above `given`, one after another.
    ///
    /// # Errors
    ///
    /// An error is returned only where an allocation failed; then nothing is made.
    ///
    /// ```
    /// let limits =
    ///     Limits { size: 1 << 24, first_size: 1 << 18, max_allocs: 65536, first_allocs: 64, most: 64, most_larger: 16 };
    /// let heaps = Heaps::<u32>::with_realms(alloc, limits, 1, 0)?;
    /// assert_eq!(heaps.totals().heaps, 0);
    /// ```
    pub fn with_realms(
        alloc: Global,
        limits: Limits,
        realm: u32,
        given: u32,
    ) -> Result<Self, AllocError>
        requires size_min { min 1 limits.size ≤ limits.first_size }
        requires size_max { limits.first_size ≤ limits.size }
        requires limit_min { 4 ≤ limits.max_allocs }
        requires limit_max { limits.max_allocs + 1 < T.Index.MAX }
        requires first_min { min 8 limits.max_allocs ≤ limits.first_allocs }
        requires first_max { limits.first_allocs ≤ limits.max_allocs }
        requires numbers { limits.most + limits.most_larger < 2 ^ 32 }
        ensures slots { IfOk result (λ h. h.slots ≡ replicate (limits.most + limits.most_larger) None) }
        ensures rest { IfOk result (λ h. (h.limits ≡ limits) × (h.made ≡ given) × (h.realm ≡ realm)
            × (h.accesses ≡ 0)) }
    {
        let count = limits.most + limits.most_larger;
        let slots = Slots::with_room(alloc, count)?;
        let mut index = Index::with_room(alloc, count)?;
        let mut accesses = Accesses::new();
        for number in 0..count {
            index.note(&slots, number, limits, &mut accesses);
        }
        Ok(HeapsOf {
            alloc,
            slots,
            index,
            limits,
            made: given,
            realm,
            accesses: Accesses::new(),
        })
    }

    /// The limits.
    ///
    /// ```
    /// assert_eq!(heaps.limits().most, 2);
    /// ```
    pub fn limits(&self) -> Limits
        ensures { result ≡ self.now.limits }
    {
        self.limits
    }

    /// The realm of its places.
    ///
    /// ```
    /// assert_eq!(heaps.realm(), 1);
    /// ```
    pub fn realm(&self) -> u32
        ensures { result ≡ self.now.realm }
    {
        self.realm
    }

    /// The heap of a number, to read: its reports, its statistics, its blocks. `None` is returned where the
    /// number has no heap. It speaks of the node limit that it has now: where that is reached, its report is 0 and
    /// 0, though the heaps grant a request there and raise the limit. `totals` looks at the largest limit.
    ///
    /// ```
    /// let mesh = heaps.allocate(300).unwrap().place;
    /// assert_eq!(heaps.heap(mesh.heap).unwrap().allocator().live_units(), 300);
    /// ```
    pub fn heap(&self, number: u32) -> Option<&GuardedOf<T>>
        ensures { option_copied result ≡ heap_at number self.now }
    {
        self.slots.at(number, &mut Accesses::new())
    }

    // The heap of a place.
    fn heap_of(&self, place: &Place) -> Option<&GuardedOf<T>>
        ensures range { range_of place.now self.now ≡ range_in (ticket_of place.now) (option_copied result) }
        ensures heap { IsSome result → option_copied result ≡ heap_at place.now.heap self.now }
    {
        let (number, realm, _) = place.split();
        if realm == self.realm {
            self.heap(number)
        } else {
            None
        }
    }

    /// Whether a place is live here: it has the realm, and its range was not freed, its heap not given up and
    /// nothing was reset since.
    ///
    /// ```
    /// let mesh = heaps.allocate(300).unwrap().place;
    /// heaps.free(mesh);
    /// assert!(!heaps.is_live(mesh));
    /// ```
    pub fn is_live(&self, place: Place) -> bool
        ensures { IsTrue result ↔ IsLive place self.now }
    {
        match self.heap_of(&place) {
            None => false,
            Some(heap) => heap.is_live(place.ticket(0)),
        }
    }

    /// The units of the range of a place, or `None` where it is not live.
    ///
    /// ```
    /// let mesh = heaps.allocate(300).unwrap().place;
    /// assert_eq!(heaps.size_of(mesh), Some(300));
    /// ```
    pub fn size_of(&self, place: Place) -> Option<u32>
        ensures { result ≡ option_map (λ (r : Range). r.size) (range_of place self.now) }
    {
        match self.heap_of(&place) {
            None => None,
            Some(heap) => heap.size_of(place.ticket(0)),
        }
    }

    /// Where the range of a place begins, in units from the start of its heap, or `None` where it is not
    /// live.
    ///
    /// ```
    /// let mesh = heaps.allocate(300).unwrap().place;
    /// assert_eq!(heaps.offset_of(mesh), Some(0));
    /// ```
    pub fn offset_of(&self, place: Place) -> Option<u32>
        ensures { result ≡ option_map (λ (r : Range). r.offset) (range_of place self.now) }
    {
        match self.heap_of(&place) {
            None => None,
            Some(heap) => heap.offset_of(place.ticket(0)),
        }
    }

    /// Frees the range of a place, as `GuardedOf::free` does in its heap, and returns `true`; or `false`
    /// where the place is not live, and then nothing changes. The heap stays, also where it is empty then:
    /// `drop_empty` drops it.
    ///
    /// ```
    /// let mesh = heaps.allocate(300).unwrap().place;
    /// assert!(heaps.free(mesh));
    /// assert!(!heaps.free(mesh));
    /// ```
    pub fn free(&mut self, place: Place) -> bool
        // It is done exactly when the place is live.
        ensures done { IsTrue result ↔ IsLive place self.old }
        // After it the place is not live. Every other place keeps its range, if it has one.
        ensures gone { range_of place self.new ≡ None }
        ensures others { KeepsOthers place self.old self.new }
        ensures same { result ≡ false → IsSame self.old self.new }
        // The step of its heap. All other heaps are as they were.
        ensures step { result ≡ true
            → Alters place.heap (λ g h. tickets.Frees (ticket_of place) g h true) self.old self.new }
        ensures accesses { TakesFewAccesses self.old self.new }
    {
        let (number, realm, ticket) = place.split();
        if realm != self.realm {
            return false;
        }
        if !self.slots.free(number, ticket, &mut self.accesses) {
            return false;
        }
        self.index
            .note(&self.slots, number, self.limits, &mut self.accesses);
        true
    }

    /// Makes the space of each heap one free block again. No earlier place is ever live again. All heaps
    /// stay, for `drop_empty`.
    ///
    /// ```
    /// let mesh = heaps.allocate(300).unwrap().place;
    /// heaps.reset();
    /// assert!(!heaps.is_live(mesh));
    /// assert_eq!(heaps.totals().heaps, 1);
    /// ```
    pub fn reset(&mut self)
        ensures gone { (p : Place) → range_of p self.new ≡ None }
        ensures heaps { (k : ℕ) → ResetsIn (heap_at k self.old) (heap_at k self.new) }
        ensures rest { self.new ≡ record self.old { slots = self.new.slots; accesses = self.new.accesses } }
    {
        reset_all(
            &mut self.slots,
            &mut self.index,
            self.limits,
            &mut self.accesses,
        );
    }
}

/// The text is that of a struct with the realm, the limits, the realm of the heap that was made last, and the
/// totals.
impl<T: Tables> fmt::Debug for HeapsOf<T> {
    fn fmt<W: fmt::Write>(&self, f: &mut fmt::Formatter<W>) -> fmt::Result {
        f.debug_struct("Heaps")
            .field("realm", &self.realm)
            .field("limits", &self.limits)
            .field("made", &self.made)
            .field("totals", &self.totals())
            .finish()
    }
}
