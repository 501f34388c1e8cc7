//! An allocator of ranges whose handles cannot be stale.
//!
//! A handle of `offset_allocator` is the name of a node, so one whose range was freed is live again where a
//! newer grant has its name. A `Ticket` has a serial too, which no other grant of that `Guarded` ever has: so
//! it is live exactly until the grant that gave it is freed or reset. Every call takes any ticket, and one
//! that is not live changes nothing.
//!
//! ```
//! let mut vertices = Guarded::<u32>::with_realm(alloc, 1 << 20, 65536, 1)?;
//! if let Some(mesh) = vertices.allocate(3000) {
//!     assert!(vertices.free(mesh));
//!     assert!(!vertices.free(mesh));
//! }
//! ```
#![tactic(auto)]

ghost use Rattle.std.specs.Prelude.{◌≡◌, ◌↔◌, ◌+◌, ◌-◌, ◌<◌, ◌≤◌, None, Some, false, []};
ghost use Rattle.std.specs.Prelude.{IsSome, IsTrue, IfSome, IfOk, MatchOption, option_map};
ghost use Rattle.offset_allocator.specs.Ranges.{Range};
ghost use Rattle.offset_allocator.specs.Ranges as named;
ghost use Rattle.offset_allocator.specs.Relations.{IsFresh};
ghost use Rattle.offset_guarded.specs.Answers.{Frees, Resets};
ghost use Rattle.offset_guarded.specs.Guard.{HasSerialLeft, IsCopy, IsLive, IsRaised};
ghost use Rattle.offset_guarded.specs.Guard.{last_serial, range_of, serial_of};

mod allocate;
pub mod laws;
mod moves;
#[doc(hidden)]
pub mod numbers;
mod refusal;
mod resize;
mod restore;
mod save;
mod serials;
mod state;
mod step;
mod ticket;
mod values;
mod walks;

use offset_allocator::laws::is_well_formed;
pub use offset_allocator::{
    Allocation, Allocator, AllocatorOf, Block, Blocks, BlocksOf, ByField, ByNode, CompactCost,
    Move, MovePieces, NodeIndex, NodeIndexNonMax, Piece, Progress, ReadError, RoomCost, Scale,
    Statistics, StorageReport, StorageReportFull, StorageReportFullRegion, Tables, json_of,
    vma_json_of,
};
pub use refusal::Refusal;
use serials::Serials;
pub use state::{StateFault, StateFaultKind};
use std::alloc::{AllocError, Global};
use std::fmt;
use std::marker::Model;
use std::ops::Deref;
pub use ticket::Ticket;
pub use values::{Beside, BesideIter};

/// The allocator of one space, with tickets in place of handles, and one table of nodes.
pub type Guarded<NI = u32> = GuardedOf<ByNode<NI>>;

/// The allocator of one space, with tickets in place of handles.
///
/// It holds an `AllocatorOf`, and a table with the serial that each name was last granted with.
#[derive(Drop)]
pub struct GuardedOf<T: Tables> {
    space: AllocatorOf<T>,
    serials: Serials,
    realm: u32,
    // what `step` says, or 0 where there is none
    step: u32,
}

impl<T: Tables> Model for GuardedOf<T> {
    ghost use Rattle.offset_guarded.specs.Guard.{Guard, IsGuarded};

    ghost Value = { Guard };

    ghost view = { λ a. record {
      space = a.space;
      serials = a.serials.cells;
      given = a.serials.given;
      realm = a.realm;
      step = a.step;
    } };

    ghost invariant = { λ a. IsGuarded T.Index.MAX a.space a.serials };
}

/// Each question of the allocator that needs no handle is asked of the space with tickets itself: its reports and
/// statistics, its blocks, its sizes, whether it is empty. Where both have a call of a name, it is that with tickets.
///
/// ```
/// guarded.allocate(300);
/// assert_eq!(guarded.live_units(), 300);
/// assert_eq!(guarded.blocks().count(), 2);
/// ```
impl<T: Tables> Deref for GuardedOf<T> {
    type Target = AllocatorOf<T>;

    ghost deref_gives = { λ g v. v ≡ g.space };

    fn deref(&self) -> &AllocatorOf<T> {
        &self.space
    }
}

impl<T: Tables> GuardedOf<T> {
    /// A space of `size` units, all free, with `max_allocs` as the node limit, and a realm. The limit is 2 to
    /// `T::Index::MAX - 2`. It reserves what an `AllocatorOf<T>` does and 8 bytes a node, all of them here;
    /// those of a node are written by the first call after it was made that may make nodes.
    ///
    /// The realm is kept in its tickets: a ticket of another realm is never live here. So give each space
    /// another one; where tickets have to be known from outside, as by a file, it is chosen here.
    ///
    /// # Errors
    ///
    /// An error is returned only where an allocation failed; then nothing is made.
    ///
    /// ```
    /// let mut guarded = Guarded::<u16>::with_realm(alloc, 1000, 3, 7)?;
    /// assert_eq!(guarded.allocate(10).unwrap().realm(), 7);
    /// assert!(guarded.allocate(10).is_none());
    /// ```
    pub fn with_realm(
        alloc: Global,
        size: u32,
        max_allocs: u32,
        realm: u32,
    ) -> Result<Self, AllocError>
        requires limit_min { 2 ≤ max_allocs }
        requires limit_max { max_allocs + 1 < T.Index.MAX }
        ensures space { IfOk result (λ g. IsFresh size max_allocs g.space) }
        ensures serials { IfOk result (λ g. (g.given ≡ 0) × (g.serials ≡ []) × (g.realm ≡ realm)) }
        ensures first_step { IfOk result (λ g. g.step ≡ 1) }
    {
        // before the space, which requests all its memory at once: so both are known to fit together
        let serials = Serials::with_room(alloc, max_allocs)?;
        let space = AllocatorOf::with_max_allocs(alloc, size, max_allocs)?;
        Ok(GuardedOf {
            space,
            serials,
            realm,
            step: 1,
        })
    }

    /// A copy, with memory of its own, as `Allocator::try_clone` makes it, with the same realm, serials
    /// and step: each ticket that is live here is live there. Serials go on from the same number in both, so a later
    /// grant of one may have a ticket that is live in the other, for another range: use one copy in place of
    /// the other, as a snapshot, and not beside it.
    ///
    /// # Errors
    ///
    /// An error is returned only where an allocation failed; then nothing is made.
    ///
    /// ```
    /// let mesh = guarded.allocate(300).unwrap();
    /// let copy = guarded.try_clone(alloc)?;
    /// guarded.free(mesh);
    /// assert!(copy.is_live(mesh));
    /// ```
    pub fn try_clone(&self, alloc: Global) -> Result<Self, AllocError>
        ensures { IfOk result (IsCopy self.now) }
    {
        let serials = self.serials.try_clone(alloc, self.space.max_allocs())?;
        let space = self.space.try_clone(alloc)?;
        Ok(GuardedOf {
            space,
            serials,
            realm: self.realm,
            step: self.step,
        })
    }

    /// The same under another node limit, at least as large, as `Allocator::raised` makes it: a copy with the
    /// same realm, serials and step, and with `max_allocs` in place of the limit. Put it in place of this one, and
    /// all tickets go on.
    ///
    /// The limit is at most `T::Index::MAX - 2`. It reserves what `with_realm` does for that limit,
    /// beside the memory of this one until that is dropped, and takes time for the nodes that were made.
    ///
    /// # Errors
    ///
    /// An error is returned only where an allocation failed; then nothing is made, and this one is as it was.
    ///
    /// ```
    /// let mut guarded = Guarded::<u32>::with_realm(alloc, 1000, 3, 1)?;
    /// let mesh = guarded.allocate(300).unwrap();
    /// assert!(guarded.allocate(10).is_none());
    /// guarded = guarded.raised(alloc, 100)?;
    /// assert!(guarded.is_live(mesh) && guarded.allocate(10).is_some());
    /// ```
    pub fn raised(&self, alloc: Global, max_allocs: u32) -> Result<Self, AllocError>
        requires larger { self.now.space.max_allocs ≤ max_allocs }
        requires limit_max { max_allocs + 1 < T.Index.MAX }
        ensures { IfOk result (IsRaised max_allocs self.now) }
    {
        let serials = self.serials.try_clone(alloc, max_allocs)?;
        let space = self.space.raised(alloc, max_allocs)?;
        let step = self.step;
        Ok(GuardedOf {
            space,
            serials,
            realm: self.realm,
            step,
        })
    }

    /// The allocator, to read: its reports and statistics, whether nothing is live, its blocks, its sizes,
    /// and why it refuses a request.
    ///
    /// ```
    /// guarded.allocate(300);
    /// assert_eq!(guarded.allocator().live_units(), 300);
    /// ```
    pub fn allocator(&self) -> &AllocatorOf<T>
        ensures { result.now ≡ self.now.space }
    {
        &self.space
    }

    /// The realm of its tickets.
    ///
    /// ```
    /// let guarded = Guarded::<u32>::with_realm(alloc, 1000, 16, 7)?;
    /// assert_eq!(guarded.realm(), 7);
    /// ```
    pub fn realm(&self) -> u32
        ensures { result ≡ self.now.realm }
    {
        self.realm
    }

    /// Whether all serials are given, after 18446744073709551615 grants. Then every request is refused.
    ///
    /// ```
    /// assert!(!guarded.is_spent());
    /// ```
    pub fn is_spent(&self) -> bool
        ensures spent { IsTrue result ↔ (self.now.given ≡ last_serial) }
        // Where it is false, a serial is left for one more grant.
        ensures left { result ≡ false → HasSerialLeft self.now }
    {
        self.serials.is_spent()
    }

    // The handle of a ticket that has the realm, and the serial that its name was last granted with.
    #[inline(always)]
    fn handle_fitting(&self, ticket: Ticket) -> Option<Allocation<T::Index>>
        ensures live { IsLive ticket self.now → IsSome result }
        ensures range { IfSome result (λ h. (h.name ≡ ticket.name)
            × (range_of ticket self.now ≡ named.range_of ticket.name self.now.space)) }
    {
        if ticket.realm() != self.realm || !self.serials.is_last(ticket.name(), ticket.serial()) {
            return None;
        }
        let Some(handle) = Allocation::from_parts(ticket.offset, ticket.name()) else {
            // A step of the proof, which does nothing: no block has such a name.
            is_well_formed(&self.space);
            return None;
        };
        Some(handle)
    }

    // The handle of a live ticket.
    #[inline(always)]
    fn handle(&self, ticket: Ticket) -> Option<Allocation<T::Index>>
        ensures live { IsSome result ↔ IsLive ticket self.now }
        ensures range { IfSome result (λ h. (h.name ≡ ticket.name)
            × (range_of ticket self.now ≡ named.range_of ticket.name self.now.space)) }
    {
        let handle = self.handle_fitting(ticket)?;
        if self.space.is_live(handle) {
            Some(handle)
        } else {
            None
        }
    }

    /// Whether a ticket is live here: it has the realm, and the grant that gave it was neither freed nor
    /// reset since.
    ///
    /// ```
    /// let mesh = guarded.allocate(300).unwrap();
    /// guarded.free(mesh);
    /// guarded.allocate(300);
    /// assert!(!guarded.is_live(mesh));
    /// ```
    pub fn is_live(&self, ticket: Ticket) -> bool
        ensures { IsTrue result ↔ IsLive ticket self.now }
    {
        self.handle(ticket).is_some()
    }

    /// The units of the range of a ticket, or `None` where it is not live.
    ///
    /// ```
    /// let mesh = guarded.allocate(300).unwrap();
    /// assert_eq!(guarded.size_of(mesh), Some(300));
    /// ```
    pub fn size_of(&self, ticket: Ticket) -> Option<u32>
        ensures { result ≡ option_map (λ (r : Range). r.size) (range_of ticket self.now) }
    {
        match self.handle(ticket) {
            None => None,
            Some(handle) => Some(self.space.allocation_size(handle)),
        }
    }

    /// Where the range of a ticket begins, in units from the start of the space, or `None` where it is not
    /// live.
    ///
    /// The `offset` of the ticket is where the range began when the ticket was made. A move does not change
    /// it.
    ///
    /// ```
    /// let mesh = guarded.allocate(300).unwrap();
    /// assert_eq!(guarded.offset_of(mesh), Some(0));
    /// guarded.reset();
    /// assert_eq!(guarded.offset_of(mesh), None);
    /// ```
    pub fn offset_of(&self, ticket: Ticket) -> Option<u32>
        ensures { result ≡ option_map (λ (r : Range). r.offset) (range_of ticket self.now) }
    {
        match self.handle(ticket) {
            None => None,
            Some(handle) => self.space.allocation_offset(handle),
        }
    }

    /// The ticket of a live handle of the allocator, as its `blocks` and moves have them, or `None` where
    /// the handle is not live. Its offset is where the range begins now: the ticket that the grant returned
    /// has another one where the range has moved, and is live as well, but not equal to this one.
    ///
    /// ```
    /// let mesh = guarded.allocate(300).unwrap();
    /// let block = guarded.allocator().blocks().last().unwrap();
    /// assert_eq!(guarded.ticket(block.allocation.unwrap()), Some(mesh));
    /// ```
    pub fn ticket(&self, handle: Allocation<T::Index>) -> Option<Ticket>
        ensures { MatchOption result (named.range_of handle.name self.now.space ≡ None)
            (λ t. (t ≡ record {
              offset = t.offset;
              name = handle.name;
              serial = serial_of handle.name self.now;
              realm = self.now.realm;
            })
            × (range_of t self.now ≡ named.range_of handle.name self.now.space)
            × (option_map (λ (r : Range). r.offset) (range_of t self.now) ≡ Some t.offset)) }
    {
        let (_, name) = handle.to_parts();
        match self.space.allocation_offset(handle) {
            None => None,
            Some(offset) => Some(Ticket::of(offset, name, self.serials.at(name), self.realm)),
        }
    }

    /// Frees the range of a ticket, as `Allocator::free` does, and returns `true`; or `false` where the
    /// ticket is not live, and then nothing changes.
    ///
    /// It reads at most one serial, and makes at most 136 accesses to the tables of the allocator: 8 to see
    /// whether the name is live, which the allocator does not count, and 128 to free it, which it counts.
    ///
    /// ```
    /// let mesh = guarded.allocate(300).unwrap();
    /// assert!(guarded.free(mesh));
    /// assert!(!guarded.free(mesh));
    /// ```
    #[inline(always)]
    pub fn free(&mut self, ticket: Ticket) -> bool
        // It is done exactly when the ticket is live. After it the ticket is not live, and every other one keeps its range,
        // if it has one.
        ensures { Frees ticket self.old self.new result }
    {
        match self.handle_fitting(ticket) {
            None => false,
            Some(handle) => self.space.free_if_live(handle),
        }
    }

    /// Makes the whole space one free block again, as `Allocator::reset` does. No earlier ticket is ever live
    /// again. The step is 1.
    ///
    /// It makes at most 2 accesses to the tables of the allocator, and 130 for each live range, or 270 where that is less.
    ///
    /// ```
    /// let mesh = guarded.allocate(300).unwrap();
    /// guarded.reset();
    /// assert!(!guarded.is_live(mesh));
    /// ```
    pub fn reset(&mut self)
        // All serials stay, so that none is given again.
        ensures { Resets self.old self.new }
    {
        self.space.reset();
        self.step = 1;
    }
}

/// The text is that of a struct with the realm, the number of serials that are given, and the allocator.
impl<T: Tables> fmt::Debug for GuardedOf<T> {
    fn fmt<W: fmt::Write>(&self, f: &mut fmt::Formatter<W>) -> fmt::Result {
        f.debug_struct("Guarded")
            .field("realm", &self.realm)
            .field("given", &self.serials.count())
            .field("allocator", &self.space)
            .finish()
    }
}
