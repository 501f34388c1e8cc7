//! Requests that take any free block that is large enough: where the first fit by classes finds none, the
//! bins from the class of the request on are walked. It changes the order of one bin, then grants as
//! `allocate`.
ghost use Rattle.std.specs.Prelude.{◌≡◌, ◌↔◌, ◌+◌, ◌*◌, ◌<◌, ◌≤◌, ◌%◌, ◌⊎◌, ◌++◌, ◌∷◌, ℕ, None, Some, false};
ghost use Rattle.std.specs.Prelude.{length, nat_le, IsSome, IsTrue, IfSome};
ghost use Rattle.std.specs.List.{find};
ghost use Rattle.offset_allocator.specs.Accesses.{Costs};
ghost use Rattle.offset_allocator.specs.Bins.{HasBins, IsBinned, bins_in};
ghost use Rattle.offset_allocator.specs.Classes.{down, value};
ghost use Rattle.offset_allocator.specs.Ranges.{Grants};
ghost use Rattle.offset_allocator.specs.Relations.{Aligns, Allocates, SameState, Splits};
ghost use Rattle.offset_allocator.specs.Requests.{CanGrant, AdmitsBlocks, blocks_needed, units_needed};
ghost use Rattle.offset_allocator.specs.Reporting.Statistics.{greatest};
ghost use Rattle.offset_allocator.specs.Tight.{AlignsTight, CanHold, FillsFirst, HasBlockFor, IsWhyTight, first_holding};
ghost use Rattle.offset_allocator.specs.Tight.{holds_in, listed_from, with_first};
ghost use Rattle.offset_allocator.specs.View.{IsWellFormed, Place, bin_at, free_sizes, padding_to};

use crate::accesses::Accesses;
use crate::handle::Allocation;
use crate::index::{NodeIndex, number};
use crate::reports::Refusal;
use crate::small_float::uint_to_float_round_down;
use crate::tables::Tables;
use crate::{AllocatorOf, bins};

// Whether a block at this offset, of `whole` units, holds `size` units from a multiple of `align` on.
fn holds(offset: u32, whole: u32, size: u32, align: u32) -> bool
    requires { 1 ≤ align }
    ensures { result ≡ nat_le (padding_to align offset + size) whole }
{
    let padding = (align - offset % align) % align;
    padding as u64 + size as u64 <= whole as u64
}

// The first name of a bin whose block holds `size` units from a multiple of `align` on.
fn first_of_bin<T: Tables>(
    tables: &T,
    class: u32,
    size: u32,
    align: u32,
    count: &mut Accesses,
) -> Option<u32>
    requires linked { HasBins T.Index.MAX (T.cells tables.now).bins
        (bins_in T.Index.MAX (T.cells tables.now).bins) }
    requires classed { class < 256 }
    requires alignment { 1 ≤ align }
    ensures first { result ≡ find (holds_in (T.cells tables.now).chain size align)
        (bin_at (bins_in T.Index.MAX (T.cells tables.now).bins) class) }
    ensures accesses { Costs 1 (1 + 3 * length (bin_at (bins_in T.Index.MAX (T.cells tables.now).bins) class))
        count.old count.new }
{
    tables.shape();
    let mut name = tables.head(class, count);
    while name != T::Index::MAX {
        let offset = tables.offset(name, count);
        let whole = tables.size(name, count);
        if holds(offset, whole, size, align) {
            return Some(name);
        }
        name = number(tables.older(name, count));
    }
    None
}

// The first name of the bins from the class of `size` units on whose block holds them from a multiple of
// `align` on.
fn choose<T: Tables>(
    tables: &T,
    top_mask: u32,
    size: u32,
    align: u32,
    count: &mut Accesses,
) -> Option<u32>
    requires binned { IsBinned T.Index.MAX (T.cells tables.now).bins top_mask }
    requires alignment { 1 ≤ align }
    ensures first { result ≡ find (holds_in (T.cells tables.now).chain size align)
        (listed_from (down size) (bins_in T.Index.MAX (T.cells tables.now).bins)) }
    ensures accesses { Costs 0 (2 + 6 * length (listed_from (down size)
        (bins_in T.Index.MAX (T.cells tables.now).bins))) count.old count.new }
{
    let mut class = uint_to_float_round_down(size);
    while class < 256 {
        match bins::find_at_or_above(tables, top_mask, class, count) {
            None => return None,
            Some(filled) => {
                let first = first_of_bin(tables, filled, size, align, count);
                if first.is_some() {
                    return first;
                }
                class = filled + 1;
            }
        }
    }
    None
}

/// Whether a free block holds `size` units from a multiple of `align` on, however many nodes are unused. The
/// count grows by at most 2, and 6 for each free block of the class of `size` units or above.
pub fn has_block_for_counted<T: Tables>(
    allocator: &AllocatorOf<T>,
    size: u32,
    align: u32,
    count: &mut Accesses,
) -> bool
    requires alignment { 1 ≤ align }
    ensures holds { IsTrue result ↔ HasBlockFor size align allocator.now }
    ensures accesses { Costs 0 (2
        + 6 * length (listed_from (down size) allocator.now.bins)) count.old count.new }
{
    allocator.formed();
    let store = &allocator.store;
    match choose(&store.tables, store.top_mask, size, align, count) {
        Some(_) => true,
        None => false,
    }
}

/// As `Allocator::refusal_tight_aligned`. The count grows by at most 2, and 6 for each free block of the
/// class of `size` units or above.
pub fn refusal_tight_aligned_counted<T: Tables>(
    allocator: &AllocatorOf<T>,
    size: u32,
    align: u32,
    count: &mut Accesses,
) -> Option<Refusal>
    requires alignment { 1 ≤ align }
    ensures granted { result ≡ None ↔ CanHold size align allocator.now }
    ensures why { IfSome result (IsWhyTight size align allocator.now) }
    ensures accesses { Costs 0 (2
        + 6 * length (listed_from (down size) allocator.now.bins)) count.old count.new }
{
    allocator.formed();
    if allocator.unused_nodes() <= align.min(2) {
        return Some(Refusal::Nodes);
    }
    if size > allocator.size {
        return Some(Refusal::TooLarge);
    }
    let store = &allocator.store;
    match choose(&store.tables, store.top_mask, size, align, count) {
        Some(_) => None,
        None => {
            if allocator.free_total < size.max(1) {
                Some(Refusal::Space)
            } else {
                Some(Refusal::Fragmented)
            }
        }
    }
}

/// As `Allocator::refusal_tight`. The count grows by at most 2, and 6 for each free block of the class of
/// `size` units or above.
pub fn refusal_tight_counted<T: Tables>(
    allocator: &AllocatorOf<T>,
    size: u32,
    count: &mut Accesses,
) -> Option<Refusal>
    ensures granted { result ≡ None ↔ CanHold size 1 allocator.now }
    ensures why { IfSome result (IsWhyTight size 1 allocator.now) }
    ensures accesses { Costs 0 (2
        + 6 * length (listed_from (down size) allocator.now.bins)) count.old count.new }
{
    refusal_tight_aligned_counted(allocator, size, 1, count)
}

impl<T: Tables> AllocatorOf<T> {
    /// Makes the block of a name, which is free, the newest of its bin, and returns its class.
    pub(crate) fn bring_first(&mut self, name: u32) -> u32
        requires free { (p : Place) × (self.old.blocks ≡ p.before ++ (p.block ∷ p.after))
            × (p.block.name ≡ name)
            × (p.block.used ≡ false) }
        ensures first { SameState (with_first result name self.old) self.new }
        ensures class { (p : Place) → self.old.blocks ≡ p.before ++ (p.block ∷ p.after) → p.block.name ≡ name
            → result ≡ down p.block.size }
        ensures accesses { Costs 9 12 self.old.accesses self.new.accesses }
    {
        let size = self.store.tables.size(name, &mut self.store.accesses);
        let class = uint_to_float_round_down(size);
        bins::remove(&mut self.store, name, size);
        bins::push(&mut self.store, name, class);
        class
    }

    // Grants `size` units of the first block that holds them.
    fn grant_first(&mut self, name: u32, size: u32, align: u32) -> Allocation<T::Index>
        requires alignment { 1 ≤ align }
        requires enough { AdmitsBlocks (blocks_needed align) self.old }
        requires first { first_holding size align self.old ≡ Some name }
        ensures step { (c : ℕ)
            × Splits (value c) size (padding_to align) (with_first c name self.old) self.new result }
        ensures accesses { Costs 15 71 self.old.accesses self.new.accesses }
    {
        self.formed();
        let class = self.bring_first(name);
        self.grant(class, size, align)
    }

    // Grants `size` units of the first block that holds them, where there is one.
    fn look_further(&mut self, size: u32, align: u32) -> Option<Allocation<T::Index>>
        requires alignment { 1 ≤ align }
        requires enough { AdmitsBlocks (blocks_needed align) self.old }
        ensures step { FillsFirst size align self.old self.new result }
        ensures accesses { Costs 0 (73 + 6 * length (listed_from (down size) self.old.bins))
            self.old.accesses self.new.accesses }
        ensures accesses_min { IsSome result → self.old.accesses + 15 ≤ self.new.accesses }
    {
        match choose(
            &self.store.tables,
            self.store.top_mask,
            size,
            align,
            &mut self.store.accesses,
        ) {
            None => None,
            Some(name) => Some(self.grant_first(name, size, align)),
        }
    }

    // A request as `serve` takes it, and where that finds no block, one for the first that holds it. It is
    // out of line, so that nothing of it is in a program that calls `allocate` alone.
    #[inline(never)]
    fn serve_tight(&mut self, size: u32, align: u32) -> Option<Allocation<T::Index>>
        requires { 1 ≤ align }
        ensures formed { IsWellFormed self.old }
        ensures step { AlignsTight size align self.old self.new result }
        ensures accesses { (self.new.accesses ≤ self.old.accesses + 61)
            ⊎ ((CanGrant (blocks_needed align) (units_needed size align) self.old → ⊥)
            × AdmitsBlocks (blocks_needed align) self.old
            × (self.new.accesses ≤ self.old.accesses + 134
            + 6 * length (listed_from (down size) self.old.bins))) }
        ensures grows { self.old.accesses ≤ self.new.accesses }
        ensures accesses_min { IsSome result → self.old.accesses + 7 ≤ self.new.accesses }
    {
        match self.serve(size, align) {
            Some(handle) => Some(handle),
            None => {
                if self.admits_blocks(align.min(2)) {
                    self.look_further(size, align)
                } else {
                    None
                }
            }
        }
    }

    /// Grants a range of `size` units, as `allocate` does, and where that is refused it looks further: it
    /// takes the first block of at least `size` units of the class of `size`, the newest first. So a heap
    /// that is nearly full is filled.
    ///
    /// `None` is returned where `max_allocs - 1` blocks exist, or where no free block has `size` units; then
    /// the space is as it was. A request of at least one unit is granted exactly when it is at most the
    /// `largest_free_block` of `statistics` and there is room for one more block. It takes no memory, and
    /// makes at most 140 accesses to the tables, and 6 for each free block of the class of `size`.
    ///
    /// ```
    /// space.allocate(300);
    /// assert!(space.allocate(700).is_none());
    /// assert!(space.allocate_tight(700).is_some());
    /// ```
    pub fn allocate_tight(&mut self, size: u32) -> Option<Allocation<T::Index>>
        // A request of at least one unit is granted exactly when there is room for one more block and the
        // largest free block has `size` units; any request, when there is room, and some free block has
        // `size` units.
        ensures granted { 1 ≤ size
            → (IsSome result ↔ (AdmitsBlocks 1 self.old × (size ≤ greatest (free_sizes self.old.blocks)))) }
        ensures can_hold { IsSome result ↔ CanHold size 1 self.old }
        // Where `allocate` grants it, this is its grant.
        ensures plain { CanGrant 1 size self.old → Allocates size self.old self.new result }
        // A grant gives a name that was not live. Its range has exactly `size` units, lies in the space, and
        // overlaps no live range. All live ranges stay as they are.
        ensures grants { IfSome result (Grants size self.old self.new) }
        // A refusal leaves the space as it was.
        ensures same { result ≡ None → SameState self.old self.new }
        // At most 140 accesses to table cells, and 6 for each free block of the class; for a grant at least
        // 7.
        ensures accesses { Costs 0 (140 + 6 * length (bin_at self.old.bins (down size)))
            self.old.accesses self.new.accesses }
        ensures accesses_min { IsSome result → self.old.accesses + 7 ≤ self.new.accesses }
        // The step as a whole: which block, which remainder, which bins.
        ensures step { AlignsTight size 1 self.old self.new result }
    {
        self.formed();
        self.serve_tight(size, 1)
    }

    /// Grants `size` units that begin at a multiple of `align`, from 1 on, as `allocate_aligned` does,
    /// and where that is refused it looks further: through the free blocks from the class of `size` on, class
    /// by class, in each the newest first, for one that holds `size` units from a multiple of `align` on, at
    /// the offset that it has.
    ///
    /// `None` is returned where no free block holds them, or where there is no room for one more block, or
    /// for two more if `align` is above 1; then the space is as it was. It takes no memory, and makes at most
    /// 140 accesses to the tables, and 6 for each free block of the class of `size` or above.
    ///
    /// ```
    /// space.allocate(256);
    /// assert!(space.allocate_aligned(700, 256).is_none());
    /// assert_eq!(space.allocate_tight_aligned(700, 256).unwrap().offset, 256);
    /// ```
    pub fn allocate_tight_aligned(&mut self, size: u32, align: u32) -> Option<Allocation<T::Index>>
        requires alignment { 1 ≤ align }
        // It is granted exactly when there is room for the blocks that it may add, and some free block holds
        // it.
        ensures can_hold { IsSome result ↔ CanHold size align self.old }
        // Where `allocate_aligned` grants it, this is its grant.
        ensures plain { CanGrant (blocks_needed align) (units_needed size align) self.old
            → Aligns size align self.old self.new result }
        ensures grants { IfSome result (Grants size self.old self.new) }
        // The range begins at a multiple of the alignment.
        ensures aligned { IfSome result (λ h. h.offset % align ≡ 0) }
        ensures same { result ≡ None → SameState self.old self.new }
        ensures accesses { Costs 0 (140 + 6 * length (listed_from (down size) self.old.bins))
            self.old.accesses self.new.accesses }
        ensures accesses_min { IsSome result → self.old.accesses + 7 ≤ self.new.accesses }
        ensures step { AlignsTight size align self.old self.new result }
    {
        self.serve_tight(size, align)
    }

    /// Why `allocate_tight(size)` would be refused now, or `None` exactly where it would be granted.
    /// `TooLarge`: the space has fewer units. `Space`: all free units together are fewer, or, for a request of
    /// 0 units, no unit is free. `Fragmented`: they are enough, and after `compact` the request is granted. It
    /// makes at most 2 accesses to the tables, and 6 for each free block of the class of `size` or above.
    ///
    /// ```
    /// space.allocate(300);
    /// assert_eq!(space.refusal_tight(700), None);
    /// assert_eq!(space.refusal_tight(701), Some(Refusal::Space));
    /// ```
    pub fn refusal_tight(&self, size: u32) -> Option<Refusal>
        ensures granted { result ≡ None ↔ CanHold size 1 self.now }
        ensures why { IfSome result (IsWhyTight size 1 self.now) }
    {
        refusal_tight_counted(self, size, &mut Accesses::new())
    }

    /// Why `allocate_tight_aligned(size, align)` would be refused now, or `None` exactly where it would be
    /// granted. `align` has to be at least 1. The reasons are those of `refusal_tight`; but after
    /// `compact` the request is granted only if the free block, where it begins then, holds it.
    ///
    /// ```
    /// space.allocate(300);
    /// assert_eq!(space.refusal_tight_aligned(400, 256), None);
    /// assert_eq!(space.refusal_tight_aligned(700, 256), Some(Refusal::Fragmented));
    /// ```
    pub fn refusal_tight_aligned(&self, size: u32, align: u32) -> Option<Refusal>
        requires alignment { 1 ≤ align }
        ensures granted { result ≡ None ↔ CanHold size align self.now }
        ensures why { IfSome result (IsWhyTight size align self.now) }
    {
        refusal_tight_aligned_counted(self, size, align, &mut Accesses::new())
    }
}
