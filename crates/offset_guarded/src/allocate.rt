//! Grants, each with the next serial, and why one is refused. Nothing else gives a serial.
ghost use Rattle.std.specs.Prelude.{ℕ, ◌≡◌, ◌↔◌, ◌+◌, ◌<◌, ◌≤◌, None, Some, IsSome, IfSome};
ghost use Rattle.std.specs.Prelude.{if◌then◌else◌, nat_eq, option_map, slice_set};
ghost use Rattle.offset_allocator.specs.Ranges as named;
ghost use Rattle.offset_allocator.specs.Ranges.{size_of};
ghost use Rattle.offset_allocator.specs.Moving.Relocating as again;
ghost use Rattle.offset_allocator.specs.Moving.Relocating.{WouldBegin, offset_of};
ghost use Rattle.offset_allocator.specs.View.{View, Handle, padding_to};
ghost use Rattle.offset_allocator.specs.Accesses.{Costs};
ghost use Rattle.offset_allocator.specs.Relations as space;
ghost use Rattle.offset_allocator.specs.Requests.{CanGrant, blocks_needed, units_needed};
ghost use Rattle.offset_allocator.specs.Tight.{CanHold};
ghost use Rattle.offset_guarded.specs.Answers.{Aligns, Allocates, AllocatesAligned, AllocatesAt, AllocatesTight};
ghost use Rattle.offset_guarded.specs.Answers.{AllocatesTightAligned, Relocates, RelocatesAligned};
ghost use Rattle.offset_guarded.specs.Answers.{RelocatesUnaligned, Requests};
ghost use Rattle.offset_guarded.specs.Guard.{HasSerialLeft, IsWhy, IsWhyTight, cell, covering, handle_in};
ghost use Rattle.offset_guarded.specs.Guard.{last_serial, nodes};

use crate::GuardedOf;
use crate::refusal::Refusal;
use crate::serials::Serials;
use crate::step::{common_divisor, joined};
use crate::ticket::Ticket;
use offset_allocator::{Accesses, Allocation, AllocatorOf, Tables};

// Gives the next serial to a grant.
#[inline(always)]
fn ticket_for<T: Tables>(
    space: &AllocatorOf<T>,
    serials: &mut Serials,
    realm: &u32,
    handle: Allocation<T::Index>,
) -> Ticket
    requires live { named.IsLive handle.name space.now }
    requires room { space.now.max_allocs ≤ serials.old.room }
    requires left { serials.old.given < last_serial }
    ensures cells { (x : ℕ) → cell x serials.new.cells
        ≡ (if nat_eq x handle.name then serials.old.given + 1 else cell x serials.old.cells) }
    ensures table { serials.new.cells
        ≡ slice_set (covering (nodes space.now) serials.old.cells) handle.name (serials.old.given + 1) }
    ensures given { serials.new.given ≡ serials.old.given + 1 }
    ensures room { serials.new.room ≡ serials.old.room }
    ensures ticket { result ≡ record {
      offset = handle.offset;
      name = handle.name;
      serial = serials.old.given + 1;
      realm = realm.now;
    } }
{
    serials.cover(space.node_count());
    let (offset, name) = handle.to_parts();
    Ticket::of(offset, name, serials.give(name), *realm)
}

/// As `would_begin` of `Guarded`. The count grows by at most 4.
pub fn would_begin_counted<T: Tables>(
    guarded: &GuardedOf<T>,
    size: u32,
    align: u32,
    count: &mut Accesses,
) -> Option<u32>
    requires alignment { 1 ≤ align }
    ensures granted { IsSome result ↔ (HasSerialLeft guarded.now
        × CanGrant (blocks_needed align) (units_needed size align) guarded.now.space) }
    ensures begins { HasSerialLeft guarded.now → (w : View) (h : Handle)
        → space.Aligns size align guarded.now.space w (Some h) → result ≡ Some h.offset }
    ensures starts { HasSerialLeft guarded.now → (o : ℕ)
        → CanGrant (blocks_needed align) (units_needed size align) guarded.now.space
        → WouldBegin (units_needed size align) guarded.now.space o → result ≡ Some (o + padding_to align o) }
    ensures accesses { Costs 0 4 count.old count.new }
{
    if guarded.serials.is_spent() {
        return None;
    }
    offset_allocator::laws::would_begin_counted(&guarded.space, size, align, count)
}

impl<T: Tables> GuardedOf<T> {
    /// Grants a range of `size` units, and returns its ticket: of the range that `Allocator::allocate`
    /// grants, with the next serial.
    ///
    /// `None` is returned where that call returns `None`, or where all serials are given; then all is as it
    /// was. It makes at most 64 accesses to the tables of the allocator.
    ///
    /// ```
    /// let mesh = guarded.allocate(300).unwrap();
    /// assert_eq!(guarded.offset_of(mesh), Some(0));
    /// assert!(guarded.allocate(701).is_none());
    /// ```
    #[inline(always)]
    pub fn allocate(&mut self, size: u32) -> Option<Ticket>
        // It is granted exactly when a serial is left and the allocator can grant it. A grant has the next serial, a refusal
        // leaves all as it was.
        ensures { Allocates size self.old self.new result }
    {
        if self.serials.is_spent() {
            return None;
        }
        match self.space.allocate(size) {
            None => None,
            Some(handle) => Some(ticket_for(&self.space, &mut self.serials, &self.realm, handle)),
        }
    }

    /// Grants `size` units that begin at a multiple of `align`, from 1 on: the range that
    /// `Allocator::allocate_aligned` grants, with the next serial.
    ///
    /// `None` is returned where that call returns `None`, or where all serials are given; then all is as it
    /// was. It makes at most 128 accesses to the tables of the allocator.
    ///
    /// ```
    /// guarded.allocate(10);
    /// let uniforms = guarded.allocate_aligned(300, 256).unwrap();
    /// assert_eq!(guarded.offset_of(uniforms), Some(256));
    /// ```
    pub fn allocate_aligned(&mut self, size: u32, align: u32) -> Option<Ticket>
        requires alignment { 1 ≤ align }
        // The same, for what such a request may take. A grant takes the alignment into the step.
        ensures { AllocatesAligned size align self.old self.new result }
    {
        if self.serials.is_spent() {
            return None;
        }
        match self.space.allocate_aligned(size, align) {
            None => None,
            Some(handle) => {
                self.step = joined(self.step, align);
                Some(ticket_for(&self.space, &mut self.serials, &self.realm, handle))
            }
        }
    }

    /// Grants `size` units of any free block that has them: the range that `Allocator::allocate_tight`
    /// grants, with the next serial.
    ///
    /// `None` is returned where that call returns `None`, or where all serials are given; then all is as it
    /// was. It makes at most 140 accesses to the tables of the allocator, and 6 for each free block of the class.
    ///
    /// ```
    /// guarded.allocate(300);
    /// assert!(guarded.allocate(700).is_none());
    /// assert!(guarded.allocate_tight(700).is_some());
    /// ```
    pub fn allocate_tight(&mut self, size: u32) -> Option<Ticket>
        // It is granted exactly when a serial is left and there is room for one more block and a free block
        // of `size` units.
        ensures { AllocatesTight size self.old self.new result }
    {
        if self.serials.is_spent() {
            return None;
        }
        match self.space.allocate_tight(size) {
            None => None,
            Some(handle) => Some(ticket_for(&self.space, &mut self.serials, &self.realm, handle)),
        }
    }

    /// Grants `size` units that begin at a multiple of `align`, from 1 on, of any free block that holds
    /// them: the range that `Allocator::allocate_tight_aligned` grants, with the next serial.
    ///
    /// `None` is returned where that call returns `None`, or where all serials are given; then all is as it
    /// was. It makes at most 140 accesses to the tables of the allocator, and 6 for each free block of the class or
    /// above.
    ///
    /// ```
    /// guarded.allocate(256);
    /// assert!(guarded.allocate_aligned(700, 256).is_none());
    /// assert_eq!(guarded.allocate_tight_aligned(700, 256).unwrap().offset, 256);
    /// ```
    pub fn allocate_tight_aligned(&mut self, size: u32, align: u32) -> Option<Ticket>
        requires alignment { 1 ≤ align }
        // The same, of a free block that holds them at such a multiple. A grant takes the alignment into the step.
        ensures { AllocatesTightAligned size align self.old self.new result }
    {
        if self.serials.is_spent() {
            return None;
        }
        match self.space.allocate_tight_aligned(size, align) {
            None => None,
            Some(handle) => {
                self.step = joined(self.step, align);
                Some(ticket_for(&self.space, &mut self.serials, &self.realm, handle))
            }
        }
    }

    /// Grants the `size` units that begin at `offset`: the range that `Allocator::allocate_at` grants, with the
    /// next serial.
    ///
    /// `None` is returned where that call returns `None`, or where all serials are given; then all is as it
    /// was. It makes at most 80 accesses to the tables of the allocator, and 3 for each block.
    ///
    /// ```
    /// let captured = guarded.allocate_at(512, 256).unwrap();
    /// assert_eq!(captured.offset, 512);
    /// assert!(guarded.allocate_at(700, 100).is_none());
    /// ```
    pub fn allocate_at(&mut self, offset: u32, size: u32) -> Option<Ticket>
        // It is granted exactly when a serial is left and the allocator can grant these units, and begins there.
        ensures { AllocatesAt offset size self.old self.new result }
    {
        if self.serials.is_spent() {
            return None;
        }
        match self.space.allocate_at(offset, size) {
            None => None,
            Some(handle) => Some(ticket_for(&self.space, &mut self.serials, &self.realm, handle)),
        }
    }

    /// Grants a second range of as many units as that of a ticket, which begins before it, and **has every alignment
    /// that was asked for**: the one that `relocate_aligned` grants for what the step and the offset of the range
    /// have in common, their greatest common divisor. The old ticket stays live until it is freed.
    ///
    /// `None` is returned where that call returns `None`, or where the space has no step; then all is as it was.
    ///
    /// It makes at most 75 accesses to the tables of the allocator: 8 to see whether the name is live, and where,
    /// which the allocator does not count, and 67 that it counts.
    ///
    /// ```
    /// let hole = guarded.allocate(320).unwrap();
    /// let mesh = guarded.allocate_aligned(200, 256).unwrap();
    /// guarded.free(hole);
    /// let moved = guarded.relocate(mesh).unwrap();
    /// assert_eq!((mesh.offset, moved.offset), (512, 0));
    /// guarded.free(mesh);
    /// ```
    pub fn relocate(&mut self, ticket: Ticket) -> Option<Ticket>
        // It ends where the old range begins, or before, and has each alignment of that which divides the step. Where there
        // is no step, nothing changes.
        ensures { Relocates ticket self.old self.new result }
    {
        let step = self.step_number();
        if step == 0 {
            return None;
        }
        // one look at the tables says whether the ticket is live, and where its range begins
        let handle = self.handle_fitting(ticket)?;
        let offset = self.space.allocation_offset(handle)?;
        self.second(handle, common_divisor(offset, step))
    }

    /// Grants a second range of as many units as that of a ticket, which begins before it, and **keeps no
    /// alignment**: the one that `Allocator::relocate` grants, with the next serial. `relocate` keeps those that were
    /// asked for. The old ticket stays live until it is freed.
    ///
    /// `None` is returned where that call returns `None`, where the ticket is not live, or where all serials
    /// are given; then all is as it was.
    ///
    /// It makes at most 75 accesses to the tables of the allocator: 8 to see whether the name is live, which
    /// the allocator does not count, and 67 that it counts.
    ///
    /// ```
    /// let hole = guarded.allocate(320).unwrap();
    /// let mesh = guarded.allocate(320).unwrap();
    /// guarded.free(hole);
    /// let moved = guarded.relocate_unaligned(mesh).unwrap();
    /// assert_eq!((mesh.offset, moved.offset), (320, 0));
    /// guarded.free(mesh);
    /// ```
    pub fn relocate_unaligned(&mut self, ticket: Ticket) -> Option<Ticket>
        // It ends where the old range begins, or before.
        ensures { RelocatesUnaligned ticket self.old self.new result }
    {
        let handle = self.handle(ticket)?;
        if self.serials.is_spent() {
            return None;
        }
        match self.space.relocate(handle) {
            None => None,
            Some(second) => Some(ticket_for(&self.space, &mut self.serials, &self.realm, second)),
        }
    }

    /// As `relocate`, and the second range begins at a multiple of `align`, from 1 on: the one that
    /// `Allocator::relocate_aligned` grants, with the next serial. The old ticket stays live until it is
    /// freed.
    ///
    /// `None` is returned where that call returns `None`, where the ticket is not live, or where all serials
    /// are given; then all is as it was.
    ///
    /// It makes at most 75 accesses to the tables of the allocator: 8 to see whether the name is live, which
    /// the allocator does not count, and 67 that it counts.
    ///
    /// ```
    /// guarded.allocate(10);
    /// let hole = guarded.allocate(320).unwrap();
    /// let mesh = guarded.allocate(64).unwrap();
    /// guarded.free(hole);
    /// let moved = guarded.relocate_aligned(mesh, 256).unwrap();
    /// assert_eq!((mesh.offset, moved.offset), (330, 256));
    /// guarded.free(mesh);
    /// ```
    pub fn relocate_aligned(&mut self, ticket: Ticket, align: u32) -> Option<Ticket>
        requires alignment { 1 ≤ align }
        // It ends where the old range begins, or before. A grant takes the alignment into the step.
        ensures { RelocatesAligned ticket align self.old self.new result }
    {
        let handle = self.handle(ticket)?;
        self.second(handle, align)
    }

    // Grants the second range of a live handle at a multiple of `align`, with the next serial.
    fn second(&mut self, handle: Allocation<T::Index>, align: u32) -> Option<Ticket>
        requires alignment { 1 ≤ align }
        requires live { named.IsLive handle.name self.old.space }
        ensures left { IsSome result → HasSerialLeft self.old }
        ensures request { Requests (size_of handle.name self.old.space) self.old self.new result }
        ensures aligns { Aligns align self.old self.new result }
        ensures before { IfSome result (λ t. t.offset + size_of handle.name self.old.space
            ≤ offset_of handle.name self.old.space) }
        ensures step { HasSerialLeft self.old
            → again.RelocatesAligned handle.name align self.old.space self.new.space (option_map handle_in result) }
        ensures accesses_max { self.new.space.accesses ≤ self.old.space.accesses + 67 }
    {
        if self.serials.is_spent() {
            return None;
        }
        match self.space.relocate_aligned(handle, align) {
            None => None,
            Some(second) => {
                self.step = joined(self.step, align);
                Some(ticket_for(&self.space, &mut self.serials, &self.realm, second))
            }
        }
    }

    /// Where the range would begin that `allocate_aligned(size, align)` would grant now, as
    /// `Allocator::would_begin` says, or `None` exactly where it would be refused. Nothing is taken. It makes
    /// at most 4 accesses to the tables of the allocator.
    ///
    /// ```
    /// guarded.allocate(300);
    /// assert_eq!(guarded.would_begin(100, 256), Some(512));
    /// assert_eq!(guarded.allocate_aligned(100, 256).unwrap().offset, 512);
    /// ```
    pub fn would_begin(&self, size: u32, align: u32) -> Option<u32>
        requires alignment { 1 ≤ align }
        ensures granted { IsSome result ↔ (HasSerialLeft self.now
            × CanGrant (blocks_needed align) (units_needed size align) self.now.space) }
        // Whatever a grant of the allocator leaves, it begins there.
        ensures begins { HasSerialLeft self.now → (w : View) (h : Handle)
            → space.Aligns size align self.now.space w (Some h) → result ≡ Some h.offset }
        // The block that such a grant takes begins at o.
        ensures starts { HasSerialLeft self.now → (o : ℕ)
            → CanGrant (blocks_needed align) (units_needed size align) self.now.space
            → WouldBegin (units_needed size align) self.now.space o → result ≡ Some (o + padding_to align o) }
    {
        would_begin_counted(self, size, align, &mut Accesses::new())
    }

    /// Why `allocate(size)` would be refused now, or `None` exactly where it would be granted.
    ///
    /// ```
    /// assert_eq!(guarded.refusal(300), None);
    /// assert_eq!(guarded.refusal(1001).unwrap().to_string(), "the request is too large for the space");
    /// ```
    pub fn refusal(&self, size: u32) -> Option<Refusal>
        ensures granted { result ≡ None ↔ (HasSerialLeft self.now × CanGrant 1 size self.now.space) }
        ensures why { IfSome result (IsWhy 1 size self.now) }
    {
        if self.serials.is_spent() {
            return Some(Refusal::Serials);
        }
        match self.space.refusal(size) {
            None => None,
            Some(why) => Some(Refusal::from(why)),
        }
    }

    /// Why `allocate_aligned(size, align)` would be refused now, or `None` exactly where it would be granted.
    ///
    /// ```
    /// assert_eq!(guarded.refusal_aligned(900, 4), None);
    /// assert!(guarded.refusal_aligned(900, 256).is_some());
    /// ```
    pub fn refusal_aligned(&self, size: u32, align: u32) -> Option<Refusal>
        requires alignment { 1 ≤ align }
        ensures granted { result ≡ None ↔ (HasSerialLeft self.now
            × CanGrant (blocks_needed align) (units_needed size align) self.now.space) }
        ensures why { IfSome result (IsWhy (blocks_needed align) (units_needed size align) self.now) }
    {
        if self.serials.is_spent() {
            return Some(Refusal::Serials);
        }
        match self.space.refusal_aligned(size, align) {
            None => None,
            Some(why) => Some(Refusal::from(why)),
        }
    }

    /// Why `allocate_tight(size)` would be refused now, or `None` exactly where it would be granted.
    ///
    /// ```
    /// guarded.allocate(300);
    /// assert_eq!(guarded.refusal_tight(700), None);
    /// assert!(guarded.refusal_tight(701).is_some());
    /// ```
    pub fn refusal_tight(&self, size: u32) -> Option<Refusal>
        ensures granted { result ≡ None ↔ (HasSerialLeft self.now × CanHold size 1 self.now.space) }
        ensures why { IfSome result (IsWhyTight size 1 self.now) }
    {
        if self.serials.is_spent() {
            return Some(Refusal::Serials);
        }
        match self.space.refusal_tight(size) {
            None => None,
            Some(why) => Some(Refusal::from(why)),
        }
    }

    /// Why `allocate_tight_aligned(size, align)` would be refused now, or `None` exactly where it would be
    /// granted.
    ///
    /// ```
    /// guarded.allocate(300);
    /// assert_eq!(guarded.refusal_tight_aligned(400, 256), None);
    /// assert!(guarded.refusal_tight_aligned(700, 256).is_some());
    /// ```
    pub fn refusal_tight_aligned(&self, size: u32, align: u32) -> Option<Refusal>
        requires alignment { 1 ≤ align }
        ensures granted { result ≡ None ↔ (HasSerialLeft self.now × CanHold size align self.now.space) }
        ensures why { IfSome result (IsWhyTight size align self.now) }
    {
        if self.serials.is_spent() {
            return Some(Refusal::Serials);
        }
        match self.space.refusal_tight_aligned(size, align) {
            None => None,
            Some(why) => Some(Refusal::from(why)),
        }
    }
}
