//! The live ranges beside one another in space. It reads tables, and counts each cell.
ghost use Rattle.std.specs.Prelude.{ℕ, ◌≡◌, ◌+◌, ◌*◌, [], ◌∷◌, ◌++◌, Some, length, option_map, reverse};
ghost use Rattle.offset_allocator.specs.Accesses.{Costs};
ghost use Rattle.offset_allocator.specs.Reporting.Walking.{first_handle, first_live, last_live, live_before};
ghost use Rattle.offset_allocator.specs.Reporting.Walking.{live_after};
ghost use Rattle.offset_allocator.specs.Chain.{HasPlace, IsSpace, blocks};
ghost use Rattle.offset_allocator.specs.Reporting.Listing.{placed};
ghost use Rattle.offset_allocator.specs.View.{Handle, Place, AreCoalesced, units};

use crate::accesses::Accesses;
use crate::handle::Allocation;
use crate::steps::handle_of;
use crate::tables::Tables;
use crate::{AllocatorOf, chain};

// The handle of a block, or of the one before it where it is free: no two neighbours are.
fn live_up_to<T: Tables>(
    tables: &T,
    name: u32,
    count: &mut Accesses,
) -> Option<Allocation<T::Index>>
    requires place { (limit last spare_count : ℕ) × (p : Place)
        × HasPlace (T.cells tables.now).chain limit last spare_count name p
        × AreCoalesced (p.before ++ p.block ∷ p.after) }
    ensures last { (limit last spare_count : ℕ) (p : Place)
        → HasPlace (T.cells tables.now).chain limit last spare_count name p
        → AreCoalesced (p.before ++ p.block ∷ p.after)
        → result ≡ first_handle (reverse (placed 0 (p.before ++ p.block ∷ []))) }
    ensures accesses { Costs 2 3 count.old count.new }
{
    tables.shape();
    if chain::is_used(tables, name, count) {
        return Some(handle_of(tables.offset(name, count), name));
    }
    let previous = chain::before(tables, name, count)?;
    Some(handle_of(tables.offset(previous, count), previous))
}

// The handle of a block, or of the one after it where it is free.
fn live_from<T: Tables>(tables: &T, name: u32, count: &mut Accesses) -> Option<Allocation<T::Index>>
    requires place { (limit last spare_count : ℕ) × (p : Place)
        × HasPlace (T.cells tables.now).chain limit last spare_count name p
        × AreCoalesced (p.before ++ p.block ∷ p.after) }
    ensures first { (limit last spare_count : ℕ) (p : Place)
        → HasPlace (T.cells tables.now).chain limit last spare_count name p
        → AreCoalesced (p.before ++ p.block ∷ p.after)
        → result ≡ first_handle (placed (units p.before) (p.block ∷ p.after)) }
    ensures accesses { Costs 2 3 count.old count.new }
{
    tables.shape();
    if chain::is_used(tables, name, count) {
        return Some(handle_of(tables.offset(name, count), name));
    }
    let following = chain::after(tables, name, count)?;
    Some(handle_of(tables.offset(following, count), following))
}

// The name of the first used block, if there is one. It is found by a walk back from the last block,
// since the first block of the space is not known.
fn first_used<T: Tables>(tables: &T, last: u32, count: &mut Accesses) -> Option<u32>
    requires space { (spare : ℕ) × IsSpace (T.cells tables.now).chain last spare }
    ensures first { result ≡ option_map (λ (h : Handle). h.name)
        (first_handle (placed 0 (blocks (T.cells tables.now).chain last))) }
    ensures accesses { count.new ≡ count.old + 2 * length (blocks (T.cells tables.now).chain last) }
{
    let mut first = None;
    let mut at = Some(last);
    while let Some(name) = at {
        if chain::is_used(tables, name, count) {
            first = Some(name);
        }
        at = chain::before(tables, name, count);
    }
    first
}

/// As `Allocator::first_live`. The count grows by 2 for each block, and 1 where there is such a range.
pub fn first_live_counted<T: Tables>(
    allocator: &AllocatorOf<T>,
    count: &mut Accesses,
) -> Option<Allocation<T::Index>>
    ensures first { result ≡ first_live allocator.now }
    ensures accesses { Costs (2 * length allocator.now.blocks) (2 * length allocator.now.blocks + 1)
        count.old count.new }
{
    let tables = &allocator.store.tables;
    tables.shape();
    let name = first_used(tables, allocator.store.last, count)?;
    Some(handle_of(tables.offset(name, count), name))
}

/// As `Allocator::last_live`. The count grows by at most 8.
pub fn last_live_counted<T: Tables>(
    allocator: &AllocatorOf<T>,
    count: &mut Accesses,
) -> Option<Allocation<T::Index>>
    ensures last { result ≡ last_live allocator.now }
    ensures accesses { Costs 2 8 count.old count.new }
{
    live_up_to(&allocator.store.tables, allocator.store.last, count)
}

/// As `Allocator::live_before`. The count grows by at most 8.
pub fn live_before_counted<T: Tables>(
    allocator: &AllocatorOf<T>,
    allocation: Allocation<T::Index>,
    count: &mut Accesses,
) -> Option<Allocation<T::Index>>
    ensures before { result ≡ live_before allocation.name allocator.now }
    ensures accesses { Costs 1 8 count.old count.new }
{
    let name = allocation.name();
    if !allocator.is_name_live(name, count) {
        return None;
    }
    let previous = chain::before(&allocator.store.tables, name, count)?;
    live_up_to(&allocator.store.tables, previous, count)
}

/// As `Allocator::live_after`. The count grows by at most 8.
pub fn live_after_counted<T: Tables>(
    allocator: &AllocatorOf<T>,
    allocation: Allocation<T::Index>,
    count: &mut Accesses,
) -> Option<Allocation<T::Index>>
    ensures after { result ≡ live_after allocation.name allocator.now }
    ensures accesses { Costs 1 8 count.old count.new }
{
    let name = allocation.name();
    if !allocator.is_name_live(name, count) {
        return None;
    }
    let following = chain::after(&allocator.store.tables, name, count)?;
    live_from(&allocator.store.tables, following, count)
}

impl<T: Tables> AllocatorOf<T> {
    /// The handle of the live range that is the first one in space, or `None` where none is live. It
    /// makes 2 accesses to the tables for each block, and one more: the first block of a space is not
    /// known, so it walks back from the last one. With `live_after` a walk from here meets each live
    /// range once, as one with `live_before` does from `last_live`: see
    /// `laws::each_live_range_is_met_once`.
    ///
    /// ```
    /// let mesh = space.allocate(300);
    /// space.allocate(100);
    /// assert_eq!(space.first_live(), mesh);
    /// ```
    pub fn first_live(&self) -> Option<Allocation<T::Index>>
        ensures { result ≡ first_live self.now }
    {
        first_live_counted(self, &mut Accesses::new())
    }

    /// The handle of the live range that is the last one in space, or `None` where none is live. It makes at
    /// most 8 accesses to the tables.
    ///
    /// ```
    /// space.allocate(300);
    /// let texture = space.allocate(100);
    /// assert_eq!(space.last_live(), texture);
    /// ```
    pub fn last_live(&self) -> Option<Allocation<T::Index>>
        ensures { result ≡ last_live self.now }
    {
        last_live_counted(self, &mut Accesses::new())
    }

    /// The handle of the live range directly before that of a handle, with at most a free block between them.
    /// `None` where there is none, or where the handle is not live, of which only the name counts. It makes
    /// at most 8 accesses to the tables.
    ///
    /// From `last_live` on, this walks all live ranges; they may be freed on the way, after the next one is
    /// asked for.
    ///
    /// ```
    /// let mesh = space.allocate(300);
    /// let texture = space.allocate(100).unwrap();
    /// assert_eq!(space.live_before(texture), mesh);
    /// ```
    pub fn live_before(&self, allocation: Allocation<T::Index>) -> Option<Allocation<T::Index>>
        ensures { result ≡ live_before allocation.name self.now }
    {
        live_before_counted(self, allocation, &mut Accesses::new())
    }

    /// The handle of the live range directly after that of a handle, with at most a free block between them.
    /// `None` where there is none, or where the handle is not live, of which only the name counts. It makes
    /// at most 8 accesses to the tables.
    ///
    /// ```
    /// let mesh = space.allocate(300).unwrap();
    /// let texture = space.allocate(100);
    /// assert_eq!(space.live_after(mesh), texture);
    /// ```
    pub fn live_after(&self, allocation: Allocation<T::Index>) -> Option<Allocation<T::Index>>
        ensures { result ≡ live_after allocation.name self.now }
    {
        live_after_counted(self, allocation, &mut Accesses::new())
    }
}
