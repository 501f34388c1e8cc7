//! Hands out ranges of one contiguous space of units, and takes them back: `allocate` and `free` make a
//! bounded number of accesses to table cells. The space itself is never touched.
//!
//! A *block* is a run of units, used or free; no two free blocks are neighbours. Each block has a *node* of
//! the tables, whose index is the block's *name*: a name is *unused* while no block, used or free, has it. The
//! range of a used block, and its name, are *live*. A *size class* is a range of sizes, and its *bin* the list
//! of the free blocks of that class, the newest first, which is the one that last became free, changed its
//! size, or was moved by a compaction by whole steps. A range takes over the name of the free block that it is
//! cut from, and what remains of that block gets the name that became unused last, or that of a new node where
//! none is unused. Where the range is freed, the coalesced block keeps the range's name, and those of its
//! neighbours become unused.
//!
//! ```
//! let mut vertices = Allocator::<u32>::new(alloc, 1 << 20)?;
//! if let Some(mesh) = vertices.allocate(3000) {
//!     // mesh.offset is the first vertex of the range
//!     vertices.free(mesh);
//! }
//! ```
#![tactic(auto)]

ghost use Rattle.std.specs.Prelude.{ℕ, ◌≡◌, ◌↔◌, ◌+◌, ◌-◌, ◌*◌, ◌%◌, ◌<◌, ◌≤◌};
ghost use Rattle.std.specs.Prelude.{min, None, false, true, IsTrue, IsSome, IfSome, IfOk, length, option_map};
ghost use Rattle.offset_allocator.specs.Accesses.{Costs};
ghost use Rattle.offset_allocator.specs.Ranges.{Range, range_of, size_of, Grants, IsLive, KeepsAll};
ghost use Rattle.offset_allocator.specs.Ranges.{KeepsOthers};
ghost use Rattle.offset_allocator.specs.Requests.{IsGoodRefusal, IsSplitNearBest, CanGrant};
ghost use Rattle.offset_allocator.specs.Requests.{IsWhy, AdmitsBlocks, blocks_needed, units_needed};
ghost use Rattle.offset_allocator.specs.View.{count_named, is_full, free_sizes, reported_largest, count_used};
ghost use Rattle.offset_allocator.specs.Relations.{Allocates, Aligns, Frees, Extends, CanExtend};
ghost use Rattle.offset_allocator.specs.Relations.{SameState, IsFresh, Resets};
ghost use Rattle.offset_allocator.specs.Reporting.Reports.{IsReport, IsFullReport};
ghost use Rattle.offset_allocator.specs.Reporting.Listing.{listing};

mod accesses;
mod at_offset;
mod bins;
mod chain;
pub mod ext;
mod handle;
mod index;
pub mod laws;
mod layouts;
mod moves;
mod neighbours;
mod nonmax;
mod reports;
mod resize;
mod scale;
pub mod small_float;
mod states;
mod steps;
mod store;
mod tables;
mod tight;

pub use accesses::Accesses;
pub use handle::Allocation;
pub use index::{NodeIndex, NodeIndexNonMax};
pub use layouts::by_field::ByField;
pub use layouts::by_node::ByNode;
pub use moves::compact_cost::CompactCost;
pub use moves::over_frames::Progress;
pub use moves::pieces::{MovePieces, Piece};
pub use moves::room::RoomCost;
pub use nonmax::{NonMaxU16, NonMaxU32};
pub use reports::blocks::{Block, BlocksOf};
pub use reports::dumping::{json_of, vma_json_of};
pub use reports::statistics::Statistics;
pub use reports::{Refusal, StorageReport, StorageReportFull, StorageReportFullRegion};
pub use scale::Scale;
pub use states::state::{ReadError, StateFault, StateFaultKind};
use std::alloc::{AllocError, Global};
use std::fmt;
use std::marker::Model;
use store::Store;
pub use tables::Tables;

/// The allocator of one space, with one table of nodes: a block's cells are in one or two cache lines.
pub type Allocator<NI = u32> = AllocatorOf<ByNode<NI>>;

/// A range that `compact` or `make_room` moves, by steps too: `size` units from the offset `from` to the offset
/// `to`, which is smaller.
pub type Move<NI = u32> = moves::one_move::Move<NI, <NI as NodeIndex>::NonMax>;

/// The blocks of such an allocator.
pub type Blocks<'a, NI = u32> = BlocksOf<'a, ByNode<NI>>;

/// The allocator of one space.
///
/// `T` is the layout of its tables, which changes no answer. The index type of the layout is the type of the
/// links between nodes: it limits how many nodes there can be, and changes no answer either.
#[derive(Drop)]
pub struct AllocatorOf<T: Tables> {
    // the units of the space
    size: u32,
    // the node limit
    max_allocs: u32,
    // the units of all free blocks
    free_total: u32,
    store: Store<T>,
}

impl<T: Tables> Model for AllocatorOf<T> {
    ghost use Rattle.offset_allocator.specs.Soundness.{view_of, IsSound};
    ghost use Rattle.offset_allocator.specs.View.{View};

    ghost Value = { View };

    ghost view = { λ a. view_of T.Index.MAX a.size a.max_allocs (T.cells a.store.tables)
        a.store.last a.store.spare_count a.store.accesses };

    ghost invariant = { λ a. IsSound T.Index.MAX a.size a.max_allocs (T.cells a.store.tables)
        a.store.last a.store.spare_count a.store.top_mask a.free_total };
}

impl<T: Tables> AllocatorOf<T> {
    /// A space of `size` units, all free, with the smaller of 131072 and `T::Index::MAX - 2` as the node
    /// limit. A node costs as much as in `with_max_allocs`.
    ///
    /// # Errors
    ///
    /// An error is returned only where an allocation failed; then nothing is made.
    ///
    /// ```
    /// let space = Allocator::<u32>::new(alloc, 1 << 20)?;
    /// assert_eq!(space.free_units(), 1 << 20);
    /// ```
    #[track_caller]
    pub fn new(alloc: Global, size: u32) -> Result<Self, AllocError>
        ensures { IfOk result (IsFresh size (min 131072 (T.Index.MAX - 2))) }
    {
        Self::with_max_allocs(alloc, size, 131072u32.min(T::Index::MAX - 2))
    }

    /// A space of `size` units, all free, with `max_allocs` as the node limit: at most `max_allocs - 1`
    /// blocks exist at a time, free ones included. A request is granted only while at most `max_allocs - 2`
    /// exist, and makes one of them live: so at most `max_allocs - 2` grants are live. The limit is 2 to
    /// `T::Index::MAX - 2`: 65533 for `u16`, 4294967293 for `u32`. `ByNode` and `ByField` reserve 28 bytes a
    /// node with `u32`, 18 with `u16`, all of them here; those of a node are written when it is made, which
    /// `node_count` counts.
    ///
    /// # Errors
    ///
    /// An error is returned only where an allocation failed; then nothing is made.
    ///
    /// ```
    /// let mut space = Allocator::<u16>::with_max_allocs(alloc, 1000, 3)?;
    /// assert!(space.allocate(10).is_some());
    /// assert!(space.allocate(10).is_none());
    /// ```
    pub fn with_max_allocs(alloc: Global, size: u32, max_allocs: u32) -> Result<Self, AllocError>
        requires limit_min { 2 ≤ max_allocs }
        requires limit_max { max_allocs + 1 < T.Index.MAX }
        ensures { IfOk result (IsFresh size max_allocs) }
    {
        let tables = T::with_capacity(alloc, max_allocs)?;
        let top_mask = bins::empty_mask(&tables);
        let mut store = Store {
            tables,
            top_mask,
            last: 0,
            spare_count: 0,
            accesses: Accesses::new(),
        };
        steps::start(&mut store, size, max_allocs);
        // a space that is new has counted no access
        store.accesses = Accesses::new();
        Ok(AllocatorOf {
            size,
            max_allocs,
            free_total: size,
            store,
        })
    }

    /// Makes the whole space one free block again, in place. No earlier handle is live then.
    ///
    /// It takes no memory and always succeeds, and the space keeps what `extend` added. If at most 5 blocks
    /// exist, it frees each live range; otherwise it forgets all nodes and empties the bins: about 1 KB is
    /// written, whatever the node limit.
    ///
    /// ```
    /// let mesh = space.allocate(300).unwrap();
    /// space.reset();
    /// assert!(!space.is_live(mesh));
    /// ```
    pub fn reset(&mut self)
        // The space keeps its size, and no name is live.
        ensures size { self.new.size ≡ self.old.size }
        ensures gone { (x : ℕ) → range_of x self.new ≡ None }
        // The step as a whole: one free block, alone in its bin.
        ensures step { Resets self.old self.new }
        // It makes at most 130 accesses to table cells for each live range, and 2, and never more than 270.
        ensures accesses { Costs 1
            (min (130 * count_used self.old.blocks + 2) 270) self.old.accesses self.new.accesses }
    {
        // the invariant bounds the number of blocks
        self.formed();
        // of at most five blocks at most five are live; to free these takes about as long as to empty the
        // bins
        if self.block_count() <= 5 {
            self.free_all();
        } else {
            self.clear();
        }
    }

    /// The units of the space, with what `extend` added.
    ///
    /// ```
    /// assert_eq!(space.size(), 1000);
    /// ```
    pub fn size(&self) -> u32
        ensures { result ≡ self.now.size }
    {
        self.size
    }

    /// The node limit. At most `max_allocs - 1` blocks exist at a time, free ones included.
    ///
    /// ```
    /// assert_eq!(space.max_allocs(), 131_072);
    /// ```
    pub fn max_allocs(&self) -> u32
        ensures { result ≡ self.now.max_allocs }
    {
        self.max_allocs
    }

    /// The number of blocks, used and free.
    ///
    /// ```
    /// space.allocate(300);
    /// assert_eq!(space.block_count(), 2);
    /// ```
    pub fn block_count(&self) -> u32
        ensures { result ≡ length self.now.blocks }
    {
        self.store.tables.len() - self.store.spare_count
    }

    /// The number of nodes that were made: one for each block, and those whose names are unused. Each block's
    /// name is below it. A call that adds a block makes a node for it where no name is unused, and only
    /// `reset`, of more than 5 blocks, forgets some.
    ///
    /// ```
    /// space.allocate(300);
    /// assert!(space.node_count() >= space.block_count());
    /// ```
    pub fn node_count(&self) -> u32
        ensures made { result ≡ length self.now.blocks + length self.now.unused }
        ensures names { (x : ℕ) → 1 ≤ count_named x self.now.blocks → x < result }
        ensures limit { result ≤ self.now.max_allocs }
    {
        self.store.tables.len()
    }

    /// Whether `max_allocs - 1` blocks exist. Then every request is refused, and the short report is 0, 0,
    /// until blocks coalesce (by `free`, `reset`, `compact` or `make_room`, by steps too), or `grow_in_place` or
    /// `retract` takes the whole of a free block.
    ///
    /// ```
    /// let mut space = Allocator::<u32>::with_max_allocs(alloc, 1000, 3)?;
    /// space.allocate(300);
    /// assert!(space.is_full());
    /// ```
    pub fn is_full(&self) -> bool
        ensures limit { IsTrue result ↔ (length self.now.blocks + 1 ≡ self.now.max_allocs) }
        ensures full { result ≡ is_full self.now }
    {
        self.block_count() == self.max_allocs - 1
    }

    /// Grants a range of `size` units, and returns its handle. It takes the first `size` units of the newest
    /// block of the smallest class that has a free block and whose blocks all have at least `size` units; what
    /// remains of the block stays free, directly after the range.
    ///
    /// `None` is returned where `max_allocs - 1` blocks exist, even for an exact fit, or where no free block
    /// is of such a class; then the space is as it was. A request of at least one unit is granted exactly
    /// when it is at most the `largest_free_region` that `storage_report` returns just before. One of 0 units
    /// takes a node too, and needs a free block of any size. It makes at most 64 accesses to the tables, and
    /// takes no memory.
    ///
    /// ```
    /// let mesh = space.allocate(300).unwrap();
    /// assert_eq!(mesh.offset, 0);
    /// assert!(space.allocate(701).is_none());
    /// ```
    pub fn allocate(&mut self, size: u32) -> Option<Allocation<T::Index>>
        // A request of at least one unit is granted exactly when `size` is at most the `largest_free_region`
        // of the report, which is 0 at the node limit.
        ensures granted { 1 ≤ size → (IsSome result ↔ (size ≤ reported_largest self.old)) }
        // Any request, of 0 units too, is granted exactly when there is room for one more block, and there is
        // a free block in a size class whose blocks all have at least `size` units.
        ensures can_grant { IsSome result ↔ CanGrant 1 size self.old }
        // A grant gives a name that was not live. Its range has exactly `size` units, lies in the space, and
        // overlaps no live range. All live ranges stay as they are.
        ensures grants { IfSome result (Grants size self.old self.new) }
        // A refusal leaves the space as it was.
        ensures same { result ≡ None → SameState self.old self.new }
        // Near-best fit: if a free block has at least 9/8 of the requested units, the block taken is at most
        // 9/8 as large as that block.
        ensures nearly { IfSome result (IsSplitNearBest size self.old) }
        // A refusal with room for one more block means that every free block is smaller than 9/8 of the
        // request.
        ensures refused { result ≡ None → AdmitsBlocks 1 self.old
            → IsGoodRefusal size (free_sizes self.old.blocks) }
        // At most 64 accesses to table cells; for a grant at least 7, so that a body has to count them.
        ensures accesses { Costs 0 64 self.old.accesses self.new.accesses }
        ensures accesses_min { IsSome result → self.old.accesses + 7 ≤ self.new.accesses }
        // The step as a whole: which block, which remainder, which bins.
        ensures step { Allocates size self.old self.new result }
    {
        self.serve(size, 1)
    }

    /// Frees the range of a live handle. Its units are free at once, in one block with the free blocks
    /// directly before and after it, and that block is the newest of its bin.
    ///
    /// The handle has to be live, which `is_live` reports. Only its name counts, and not its public `offset`:
    /// a stale handle whose name was granted again is live, and frees that range. It makes at most 128
    /// accesses to the tables, and takes no memory.
    ///
    /// ```
    /// let mesh = space.allocate(300).unwrap();
    /// space.free(mesh);
    /// assert_eq!(space.free_units(), 1000);
    /// ```
    pub fn free(&mut self, allocation: Allocation<T::Index>)
        requires live { IsLive allocation.name self.old }
        // The name holds no range any more, and all other ranges stay.
        ensures gone { range_of allocation.name self.new ≡ None }
        ensures others { KeepsOthers allocation.name self.old self.new }
        // It makes at most 128 accesses to table cells, and at least 9.
        ensures accesses { Costs 9 128 self.old.accesses self.new.accesses }
        // The step as a whole: the block coalesces with its free neighbours.
        ensures step { Frees allocation.name self.old self.new }
    {
        self.release(allocation.name());
    }

    /// Frees the range of any handle, as `free` does, if it is live, and returns whether it was: so a caller who
    /// does not know asks once. A handle that is not live changes nothing.
    ///
    /// It makes at most 128 accesses to the tables, and those of `is_live`, at most 8, which are not counted here;
    /// it takes no memory.
    ///
    /// ```
    /// let mesh = space.allocate(300).unwrap();
    /// assert!(space.free_if_live(mesh));
    /// assert!(!space.free_if_live(mesh));
    /// assert_eq!(space.free_units(), 1000);
    /// ```
    #[inline(always)]
    pub fn free_if_live(&mut self, allocation: Allocation<T::Index>) -> bool
        // It is done exactly where the handle is live.
        ensures done { IsTrue result ↔ IsLive allocation.name self.old }
        // The name holds no range any more, and all other ranges stay.
        ensures gone { range_of allocation.name self.new ≡ None }
        ensures others { KeepsOthers allocation.name self.old self.new }
        // Otherwise nothing at all changes.
        ensures same { result ≡ false → self.new ≡ self.old }
        // It makes at most 128 accesses to table cells, and at least 9.
        ensures accesses { result ≡ true → Costs 9 128 self.old.accesses self.new.accesses }
        // The step as a whole: that of `free`.
        ensures step { result ≡ true → Frees allocation.name self.old self.new }
    {
        let name = allocation.name();
        let live = self.is_live(allocation);
        if live {
            self.release(name);
        }
        live
    }

    /// Whether the handle is live here: its name is the name of a used block. `free` asks for exactly this.
    ///
    /// A handle whose block was freed is live again where a newer grant has its name. It makes at most 8
    /// accesses to the tables.
    ///
    /// ```
    /// let mesh = space.allocate(300).unwrap();
    /// assert!(space.is_live(mesh));
    /// space.free(mesh);
    /// assert!(!space.is_live(mesh));
    /// ```
    pub fn is_live(&self, allocation: Allocation<T::Index>) -> bool
        ensures { IsTrue result ↔ IsLive allocation.name self.now }
    {
        reports::is_live_counted(self, allocation, &mut Accesses::new())
    }

    /// The units of the range that a live handle has: exactly those that its grant, `shrink` or
    /// `grow_in_place` last gave it. It is 0 where the handle is not live, and for a live range
    /// of no units too. It makes at most 8 accesses to the tables.
    ///
    /// ```
    /// let mesh = space.allocate(300).unwrap();
    /// assert_eq!(space.allocation_size(mesh), 300);
    /// ```
    pub fn allocation_size(&self, allocation: Allocation<T::Index>) -> u32
        ensures { result ≡ size_of allocation.name self.now }
    {
        reports::allocation_size_counted(self, allocation, &mut Accesses::new())
    }

    /// Where the range of a live handle begins, in units from the start of the space, or `None` where the
    /// handle is not live.
    ///
    /// The public `offset` of a handle is a copy: a caller may have changed it, `compact` leaves it as it
    /// was, and a stale handle keeps it. It makes at most 8 accesses to the tables.
    ///
    /// ```
    /// let mesh = space.allocate(300).unwrap();
    /// assert_eq!(space.allocation_offset(mesh), Some(0));
    /// ```
    pub fn allocation_offset(&self, allocation: Allocation<T::Index>) -> Option<u32>
        ensures { result ≡ option_map (λ (r : Range). r.offset) (range_of allocation.name self.now) }
    {
        reports::allocation_offset_counted(self, allocation, &mut Accesses::new())
    }

    /// The blocks of the space, used and free, from its end to its start. It takes no memory, and each block
    /// costs at most 5 accesses to the tables.
    ///
    /// ```
    /// let mesh = space.allocate(300).unwrap();
    /// let mut blocks = space.blocks();
    /// assert_eq!(blocks.next().unwrap().size, 700);
    /// assert_eq!(blocks.next().unwrap().allocation, Some(mesh));
    /// ```
    pub fn blocks(&self) -> BlocksOf<'_, T>
        ensures { result ≡ listing self.now }
    {
        BlocksOf {
            allocator: self,
            next: Some(self.store.last),
            left: self.block_count(),
        }
    }

    /// The free space in short: the units of all free blocks, and the largest request that would be granted,
    /// or 0 where none of at least one unit would be. Both are 0 where `max_allocs - 1` blocks exist or no
    /// block is free, and then a request of 0 units is refused too. It makes at most 8 accesses to the
    /// tables.
    ///
    /// ```
    /// space.allocate(300);
    /// let report = space.storage_report();
    /// assert_eq!((report.total_free_space, report.largest_free_region), (700, 640));
    /// ```
    pub fn storage_report(&self) -> StorageReport
        ensures { IsReport result self.now }
    {
        reports::storage_report_counted(self, &mut Accesses::new())
    }

    /// The free blocks, class by class, at the node limit too. It makes at most 512 accesses to the tables,
    /// and 2 for each free block.
    ///
    /// ```
    /// let report = space.storage_report_full();
    /// let free: u32 = report.free_regions.iter().map(|class| class.count).sum();
    /// assert_eq!(free, 1);
    /// ```
    pub fn storage_report_full(&self) -> StorageReportFull
        ensures { IsFullReport result self.now }
    {
        reports::storage_report_full_counted(self, &mut Accesses::new())
    }

    /// Why `allocate(size)` would be refused now, or `None` exactly where it would be granted.
    ///
    /// It makes at most 8 accesses to the tables.
    ///
    /// ```
    /// assert_eq!(space.refusal(300), None);
    /// assert_eq!(space.refusal(1001), Some(Refusal::TooLarge));
    /// ```
    pub fn refusal(&self, size: u32) -> Option<Refusal>
        ensures granted { result ≡ None ↔ CanGrant 1 size self.now }
        ensures why { IfSome result (IsWhy 1 size self.now) }
    {
        reports::refusal_counted(self, size, &mut Accesses::new())
    }

    /// Why `allocate_aligned(size, align)` would be refused now, or `None` exactly where it would be granted.
    ///
    /// `align` has to be at least 1. If it is above 1, the request needs room for two more blocks, and a
    /// block for `size + align - 1` units. It makes at most 8 accesses to the tables.
    ///
    /// ```
    /// assert_eq!(space.refusal_aligned(900, 4), None);
    /// assert_eq!(space.refusal_aligned(900, 256), Some(Refusal::TooLarge));
    /// ```
    pub fn refusal_aligned(&self, size: u32, align: u32) -> Option<Refusal>
        requires alignment { 1 ≤ align }
        ensures granted { result ≡ None ↔ CanGrant (blocks_needed align) (units_needed size align) self.now }
        ensures why { IfSome result (IsWhy (blocks_needed align) (units_needed size align) self.now) }
    {
        reports::refusal_aligned_counted(self, size, align, &mut Accesses::new())
    }

    /// Grants `size` units that begin at a multiple of `align`, which may be any number from 1 on: 256, or 12
    /// for vertices of 12 bytes.
    ///
    /// The block is the one that a request for `size + align - 1` units would take. Its units before the
    /// range (the padding) and after it (the remainder) stay free. `None` is returned if that request finds
    /// no block, if `size + align - 1` is above 4294967295, or if `align` is above 1 and there is no room for
    /// two more blocks, even if fewer would be added. Then the space is as it was. Where padding and
    /// remainder are of one class, the remainder is the newer one. With `align` 1 the call is
    /// `allocate(size)`. It makes at most 128 accesses to the tables, and takes no memory.
    ///
    /// A fresh space of 1,048,576 units grants 64 KiB at a multiple of 256 only 15 times. Where all requests
    /// have one alignment, let a unit be as large as that, and call `allocate`: then it grants all 16.
    ///
    /// ```
    /// space.allocate(10);
    /// let uniforms = space.allocate_aligned(300, 256).unwrap();
    /// assert_eq!(uniforms.offset, 256);
    /// ```
    pub fn allocate_aligned(&mut self, size: u32, align: u32) -> Option<Allocation<T::Index>>
        requires alignment { 1 ≤ align }
        // The units needed are `size + align - 1`; the blocks needed are 1 with `align` 1, and 2 above. If at
        // least one unit is needed, the request is granted exactly when there is room for the blocks needed
        // and the units needed are at most the reported `largest_free_region`. Any request is granted exactly
        // when there is room for the blocks needed, and there is a free block in a size class whose blocks
        // all have at least the units needed.
        ensures granted { 1 ≤ units_needed size align → (IsSome result
            ↔ (AdmitsBlocks (blocks_needed align) self.old
            × (units_needed size align ≤ reported_largest self.old))) }
        ensures can_grant { IsSome result
            ↔ CanGrant (blocks_needed align) (units_needed size align) self.old }
        // A grant gives a name that was not live. Its range has exactly `size` units, lies in the space, and
        // overlaps no live range. All live ranges stay as they are.
        ensures grants { IfSome result (Grants size self.old self.new) }
        // The range begins at a multiple of the alignment.
        ensures aligned { IfSome result (λ h. h.offset % align ≡ 0) }
        // A refusal leaves the space as it was.
        ensures same { result ≡ None → SameState self.old self.new }
        // Near-best fit: if a free block has at least 9/8 of the units needed, the block taken is at most 9/8
        // as large as that block. A refusal with room for the blocks needed means that every free block is
        // smaller than 9/8 of these units.
        ensures nearly { IfSome result (IsSplitNearBest (units_needed size align) self.old) }
        ensures refused { result ≡ None → AdmitsBlocks (blocks_needed align) self.old
            → IsGoodRefusal (units_needed size align) (free_sizes self.old.blocks) }
        // It makes at most 128 accesses to table cells, and a grant at least 7.
        ensures accesses { Costs 0 128 self.old.accesses self.new.accesses }
        ensures accesses_min { IsSome result → self.old.accesses + 7 ≤ self.new.accesses }
        // The step as a whole.
        ensures step { Aligns size align self.old self.new result }
    {
        self.serve(size, align)
    }

    /// Adds `more` units at the end of the space: to the last block where that is free, or else as a new free
    /// block. That block is then the newest of its bin.
    ///
    /// `false` is returned where the space would have more than 4294967295 units, or where its last block is
    /// used and no further block may exist; then the space is as it was. With 0 units it is `true`, and the
    /// space is as it was too. It makes at most 128 accesses to the tables, and takes no memory.
    ///
    /// ```
    /// assert!(space.extend(24));
    /// assert_eq!(space.size(), 1024);
    /// ```
    pub fn extend(&mut self, more: u32) -> bool
        // It is done exactly when the space can have that many more units.
        ensures done { IsTrue result ↔ (1 ≤ more → CanExtend more self.old) }
        // Then the space has `more` units more. All ranges stay, and a refusal leaves the space as it was.
        ensures size { IsTrue result → self.new.size ≡ self.old.size + more }
        ensures kept { KeepsAll self.old self.new }
        ensures same { result ≡ false → SameState self.old self.new }
        // It makes at most 128 accesses to table cells, and at least 10 where it adds units.
        ensures accesses { Costs 0 128 self.old.accesses self.new.accesses }
        ensures accesses_min { result ≡ true → 0 < more → self.old.accesses + 10 ≤ self.new.accesses }
        // The step as a whole: whether it is done, and what the last block is then.
        ensures step { Extends more self.old self.new result }
    {
        let left = self.unused_nodes();
        if more == 0 {
            return true;
        }
        if more > u32::MAX - self.size {
            return false;
        }
        let used = chain::is_used(
            &self.store.tables,
            self.store.last,
            &mut self.store.accesses,
        );
        if !used {
            self.widen(more);
            return true;
        }
        if left < 2 {
            return false;
        }
        self.append(more);
        true
    }
}

/// The text is that of a struct with the size, the node limit and the statistics.
impl<T: Tables> fmt::Debug for AllocatorOf<T> {
    fn fmt<W: fmt::Write>(&self, f: &mut fmt::Formatter<W>) -> fmt::Result {
        f.debug_struct("Allocator")
            .field("size", &self.size)
            .field("max_allocs", &self.max_allocs)
            .field("statistics", &self.statistics())
            .finish()
    }
}
