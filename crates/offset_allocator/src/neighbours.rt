//! A block and its neighbours: it is coalesced with the free ones, divided or resized, by `chain` and `bins`
//! together; of the tables it reads sizes and offsets itself.
ghost use Rattle.std.specs.Prelude.{ℕ, ◌≡◌, ◌+◌, ◌≤◌, ◌++◌, ◌∷◌, ◌⊎◌, Some, false, length, ◌-◌, ◌<◌, IsSome};
ghost use Rattle.offset_allocator.specs.Accesses.{Costs};
ghost use Rattle.offset_allocator.specs.Classes.{down};
ghost use Rattle.offset_allocator.specs.Cells.{node};
ghost use Rattle.offset_allocator.specs.View.{Place, free_end, free_start, push, remove_all, free_part};
ghost use Rattle.offset_allocator.specs.View.{without_start, used_block, units, push_all, AreInBins};
ghost use Rattle.offset_allocator.specs.Chain.{HasPlace, IsFreeAfter, IsFreeBefore, coalesced_before};
ghost use Rattle.offset_allocator.specs.Chain.{coalesced_after};
ghost use Rattle.offset_allocator.specs.Bins.{ListsOnly, IsUnlisted};
ghost use Rattle.offset_allocator.specs.Store.{IsPlaceIn, AreBinned, bins_of, unused_of};
ghost use Rattle.offset_allocator.specs.Names.{AreTaken, names_of};

use crate::accesses::Accesses;
use crate::small_float::uint_to_float_round_down;
use crate::store::{Store, ensure_spare};
use crate::tables::Tables;
use crate::{bins, chain};

// The name of a free block directly before a block, if there is one.
#[inline(always)]
fn free_before<T: Tables>(tables: &T, name: u32, count: &mut Accesses) -> Option<u32>
    requires place { (limit last spare_count : ℕ) × (p : Place)
        × HasPlace (T.cells tables.now).chain limit last spare_count name p }
    ensures free { IsFreeBefore (T.cells tables.now).chain name result }
    ensures accesses { Costs 1 2 count.old count.new }
{
    let link = tables.before(name, count);
    if let Some(previous) = chain::named(tables, link) {
        if !chain::is_used(tables, previous, count) {
            return Some(previous);
        }
    }
    None
}

/// The name of a free block directly after a block, if there is one.
#[inline(always)]
pub(crate) fn free_after<T: Tables>(tables: &T, name: u32, count: &mut Accesses) -> Option<u32>
    requires place { (limit last spare_count : ℕ) × (p : Place)
        × HasPlace (T.cells tables.now).chain limit last spare_count name p }
    ensures free { IsFreeAfter (T.cells tables.now).chain name result }
    ensures accesses { Costs 1 2 count.old count.new }
{
    let link = tables.after(name, count);
    if let Some(following) = chain::named(tables, link) {
        if !chain::is_used(tables, following, count) {
            return Some(following);
        }
    }
    None
}

// Removes the free block directly before a block, if there is one, from its bin, and coalesces it into the
// block. The size of the whole is returned.
#[inline(always)]
fn with_before<T: Tables>(store: &mut Store<T>, name: u32, size: u32) -> u32
    requires place { (limit : ℕ) × (p : Place) × IsPlaceIn T.cells store.old limit name p
        × AreInBins (p.before ++ p.after) (bins_of T.cells T.Index.MAX store.old) }
    requires binned { AreBinned T.cells T.Index.MAX store.old }
    requires size { size ≡ (node (T.cells store.old.tables).chain name).size }
    ensures place { (limit : ℕ) (p : Place) → IsPlaceIn T.cells store.old limit name p
        → IsPlaceIn T.cells store.new limit name (coalesced_before p) }
    ensures binned { AreBinned T.cells T.Index.MAX store.new }
    ensures lists { (limit : ℕ) (p : Place) → IsPlaceIn T.cells store.old limit name p
        → bins_of T.cells T.Index.MAX store.new
        ≡ remove_all (free_end p.before) (bins_of T.cells T.Index.MAX store.old) }
    ensures unused { (limit : ℕ) (p : Place) → IsPlaceIn T.cells store.old limit name p
        → unused_of T.cells store.new ≡ unused_of T.cells store.old ++ names_of (free_end p.before) }
    ensures nodes { length (T.cells store.new.tables).chain.nodes
        ≡ length (T.cells store.old.tables).chain.nodes }
    ensures size { result ≡ (node (T.cells store.new.tables).chain name).size }
    ensures accesses { Costs 1 15 store.old.accesses store.new.accesses }
{
    if let Some(previous) = free_before(&store.tables, name, &mut store.accesses) {
        let more = store.tables.size(previous, &mut store.accesses);
        let whole = more + size;
        bins::remove(store, previous, more);
        chain::coalesce_before(store, previous, name, whole);
        return whole;
    }
    size
}

// Removes the free block `next` directly after a block, if there is one, from its bin, and coalesces it into
// the block. The size of the whole is returned.
#[inline(always)]
fn with_after<T: Tables>(store: &mut Store<T>, name: u32, size: u32, next: Option<u32>) -> u32
    requires place { (limit : ℕ) × (p : Place) × IsPlaceIn T.cells store.old limit name p
        × AreInBins (p.before ++ p.after) (bins_of T.cells T.Index.MAX store.old) }
    requires binned { AreBinned T.cells T.Index.MAX store.old }
    requires size { size ≡ (node (T.cells store.old.tables).chain name).size }
    requires next { IsFreeAfter (T.cells store.old.tables).chain name next }
    ensures place { (limit : ℕ) (p : Place) → IsPlaceIn T.cells store.old limit name p
        → IsPlaceIn T.cells store.new limit name (coalesced_after p) }
    ensures binned { AreBinned T.cells T.Index.MAX store.new }
    ensures lists { (limit : ℕ) (p : Place) → IsPlaceIn T.cells store.old limit name p
        → bins_of T.cells T.Index.MAX store.new
        ≡ remove_all (free_start p.after) (bins_of T.cells T.Index.MAX store.old) }
    ensures unused { (limit : ℕ) (p : Place) → IsPlaceIn T.cells store.old limit name p
        → unused_of T.cells store.new ≡ unused_of T.cells store.old ++ names_of (free_start p.after) }
    ensures size { result ≡ (node (T.cells store.new.tables).chain name).size }
    ensures accesses { Costs 0 11 store.old.accesses store.new.accesses }
    ensures accesses_min { IsSome next → store.old.accesses + 8 ≤ store.new.accesses }
{
    match next {
        None => size,
        Some(following) => {
            let more = store.tables.size(following, &mut store.accesses);
            let whole = size + more;
            bins::remove(store, following, more);
            chain::coalesce_after(store, name, following, whole);
            whole
        }
    }
}

/// Coalesces a block of this size, which is in no bin, with the free blocks beside it, and pushes the whole
/// onto its bin. If the neighbour that is coalesced last is the newest of this bin, the block takes its place
/// there.
#[inline(always)]
pub(crate) fn coalesce<T: Tables>(store: &mut Store<T>, name: u32, size: u32)
    requires place { (limit : ℕ) × (p : Place) × IsPlaceIn T.cells store.old limit name p
        × AreInBins (p.before ++ p.after) (bins_of T.cells T.Index.MAX store.old) }
    requires binned { AreBinned T.cells T.Index.MAX store.old }
    requires idle { (node (T.cells store.old.tables).chain name).used ≡ false }
    requires size { size ≡ (node (T.cells store.old.tables).chain name).size }
    ensures place { (limit : ℕ) (p : Place) → IsPlaceIn T.cells store.old limit name p
        → IsPlaceIn T.cells store.new limit name (coalesced_after (coalesced_before p)) }
    ensures binned { AreBinned T.cells T.Index.MAX store.new }
    ensures lists { (limit : ℕ) (p : Place) → IsPlaceIn T.cells store.old limit name p
        → bins_of T.cells T.Index.MAX store.new
        ≡ push (down (node (T.cells store.new.tables).chain name).size) name
        (remove_all (free_start p.after)
        (remove_all (free_end p.before) (bins_of T.cells T.Index.MAX store.old))) }
    ensures unused { (limit : ℕ) (p : Place) → IsPlaceIn T.cells store.old limit name p
        → unused_of T.cells store.new
        ≡ unused_of T.cells store.old ++ names_of (free_end p.before ++ free_start p.after) }
    ensures accesses { Costs 7 34 store.old.accesses store.new.accesses }
{
    // `gone` is the neighbour that is coalesced last: it is in its bin until the exchange
    let next = free_after(&store.tables, name, &mut store.accesses);
    let (gone, more, whole) = if let Some(following) = next {
        let size = with_before(store, name, size);
        let more = store.tables.size(following, &mut store.accesses);
        let whole = size + more;
        chain::coalesce_after(store, name, following, whole);
        (following, more, whole)
    } else if let Some(previous) = free_before(&store.tables, name, &mut store.accesses) {
        let more = store.tables.size(previous, &mut store.accesses);
        let whole = more + size;
        chain::coalesce_before(store, previous, name, whole);
        (previous, more, whole)
    } else {
        bins::push(store, name, uint_to_float_round_down(size));
        return;
    };
    bins::exchange(store, gone, more, name, uint_to_float_round_down(whole));
}

// Splits the first units off a block: they become a free block in its bin, under the name that is returned.
// Where there are none, nothing changes, and the name returned is that of the block.
#[inline(always)]
fn split_padding<T: Tables>(store: &mut Store<T>, name: u32, units: u32) -> u32
    requires place { (limit : ℕ) × (p : Place) × IsPlaceIn T.cells store.old limit name p
        × ListsOnly (p.before ++ p.block ∷ p.after) (bins_of T.cells T.Index.MAX store.old)
        × (0 < units → length (p.before ++ p.block ∷ p.after) < limit) }
    requires binned { AreBinned T.cells T.Index.MAX store.old }
    requires within { units ≤ (node (T.cells store.old.tables).chain name).size }
    ensures place { (limit : ℕ) (p : Place) → IsPlaceIn T.cells store.old limit name p
        → IsPlaceIn T.cells store.new limit name (record {
          before = p.before ++ free_part result units;
          block = record p.block { size = p.block.size - units };
          after = p.after;
        }) }
    ensures binned { AreBinned T.cells T.Index.MAX store.new }
    ensures lists { bins_of T.cells T.Index.MAX store.new
        ≡ push_all (free_part result units) (bins_of T.cells T.Index.MAX store.old) }
    ensures unused { (limit : ℕ) (p : Place) → IsPlaceIn T.cells store.old limit name p
        → AreTaken (length (p.before ++ p.block ∷ p.after)) (unused_of T.cells store.old)
        (names_of (free_part result units)) (unused_of T.cells store.new) }
    ensures accesses { Costs 0 26 store.old.accesses store.new.accesses }
{
    if units == 0 {
        return name;
    }
    ensure_spare(
        &mut store.tables,
        &mut store.spare_count,
        &mut store.accesses,
    );
    let front = chain::split_before(store, name, units);
    bins::push(store, front, uint_to_float_round_down(units));
    front
}

// Splits a block, of this offset, after `size` units: the units that are left become a free block in its bin,
// under the name that is returned. Where none are left, nothing changes, and the name returned is that of the
// block.
#[inline(always)]
fn split_remainder<T: Tables>(
    store: &mut Store<T>,
    name: u32,
    offset: u32,
    size: u32,
    left: u32,
) -> u32
    requires place { (limit : ℕ) × (p : Place) × IsPlaceIn T.cells store.old limit name p
        × ListsOnly (p.before ++ p.block ∷ p.after) (bins_of T.cells T.Index.MAX store.old)
        × (0 < left → length (p.before ++ p.block ∷ p.after) < limit) }
    requires binned { AreBinned T.cells T.Index.MAX store.old }
    requires offset { offset ≡ (node (T.cells store.old.tables).chain name).offset }
    requires whole { size + left ≡ (node (T.cells store.old.tables).chain name).size }
    ensures place { (limit : ℕ) (p : Place) → IsPlaceIn T.cells store.old limit name p
        → IsPlaceIn T.cells store.new limit name (record p {
          block = record p.block { size = size };
          after = free_part result left ++ p.after;
        }) }
    ensures binned { AreBinned T.cells T.Index.MAX store.new }
    ensures lists { bins_of T.cells T.Index.MAX store.new
        ≡ push_all (free_part result left) (bins_of T.cells T.Index.MAX store.old) }
    ensures unused { (limit : ℕ) (p : Place) → IsPlaceIn T.cells store.old limit name p
        → AreTaken (length (p.before ++ p.block ∷ p.after)) (unused_of T.cells store.old)
        (names_of (free_part result left)) (unused_of T.cells store.new) }
    ensures accesses { Costs 0 24 store.old.accesses store.new.accesses }
    ensures accesses_min { 0 < left → store.old.accesses + 13 ≤ store.new.accesses }
{
    if left == 0 {
        return name;
    }
    ensure_spare(
        &mut store.tables,
        &mut store.spare_count,
        &mut store.accesses,
    );
    let rest = chain::split(store, name, offset, size + left, size);
    bins::push(store, rest, uint_to_float_round_down(left));
    rest
}

/// The units of a block that is split: of the padding, of the grant, and of the remainder.
#[derive(Clone, Copy)]
pub(crate) struct Parts {
    pub(crate) padding: u32,
    pub(crate) size: u32,
    pub(crate) remainder: u32,
}

/// Splits a block into a free padding, the granted units from `start` on, which are used and keep its name,
/// and a free remainder. The names of the padding and of the remainder are returned, where these have units.
#[inline(always)]
pub(crate) fn divide<T: Tables>(
    store: &mut Store<T>,
    name: u32,
    start: u32,
    parts: Parts,
) -> (u32, u32)
    requires place { (limit : ℕ) × (p : Place) × IsPlaceIn T.cells store.old limit name p
        × ListsOnly (p.before ++ p.block ∷ p.after) (bins_of T.cells T.Index.MAX store.old)
        × (length (p.before ++ p.block ∷ p.after) < limit)
        × (0 < parts.padding → length (p.before ++ p.block ∷ p.after) + 1 < limit) }
    requires binned { AreBinned T.cells T.Index.MAX store.old }
    requires unlisted { IsUnlisted name (bins_of T.cells T.Index.MAX store.old) }
    requires start { start ≡ (node (T.cells store.old.tables).chain name).offset + parts.padding }
    requires whole { parts.padding + parts.size + parts.remainder
        ≡ (node (T.cells store.old.tables).chain name).size }
    ensures place { (limit : ℕ) (p : Place) → IsPlaceIn T.cells store.old limit name p
        → IsPlaceIn T.cells store.new limit name (record {
          before = p.before ++ free_part result.0 parts.padding;
          block = used_block p.block.name parts.size;
          after = free_part result.1 parts.remainder ++ p.after;
        }) }
    ensures binned { AreBinned T.cells T.Index.MAX store.new }
    ensures lists { bins_of T.cells T.Index.MAX store.new
        ≡ push_all (free_part result.0 parts.padding ++ used_block name parts.size
        ∷ free_part result.1 parts.remainder)
        (bins_of T.cells T.Index.MAX store.old) }
    ensures unused { (limit : ℕ) (p : Place) → IsPlaceIn T.cells store.old limit name p
        → AreTaken (length (p.before ++ p.block ∷ p.after)) (unused_of T.cells store.old)
        (names_of (free_part result.0 parts.padding ++ free_part result.1 parts.remainder))
        (unused_of T.cells store.new) }
    ensures accesses { Costs 1 51 store.old.accesses store.new.accesses }
{
    let padding_name = split_padding(store, name, parts.padding);
    chain::set_used(&mut store.tables, name, true, &mut store.accesses);
    let remainder_name = split_remainder(store, name, start, parts.size, parts.remainder);
    (padding_name, remainder_name)
}

/// Makes a block of `old_size` units one of `size` units, from the same offset on. What remains of it and of
/// the free block directly after it, whose name is `next`, becomes one free block in its bin, under the name
/// that is returned.
#[inline(always)]
pub(crate) fn resize<T: Tables>(
    store: &mut Store<T>,
    name: u32,
    old_size: u32,
    next: Option<u32>,
    size: u32,
) -> u32
    requires place { (limit : ℕ) × (p : Place) × IsPlaceIn T.cells store.old limit name p
        × AreInBins (p.before ++ p.after) (bins_of T.cells T.Index.MAX store.old)
        × (size ≤ p.block.size + units (free_start p.after))
        × ((1 ≤ length (free_start p.after)) ⊎ (length (p.before ++ p.block ∷ p.after) < limit)) }
    requires binned { AreBinned T.cells T.Index.MAX store.old }
    requires old_size { old_size ≡ (node (T.cells store.old.tables).chain name).size }
    requires next { IsFreeAfter (T.cells store.old.tables).chain name next }
    ensures place { (limit : ℕ) (p : Place) → IsPlaceIn T.cells store.old limit name p
        → IsPlaceIn T.cells store.new limit name (record {
          before = p.before;
          block = record p.block { size = size };
          after = free_part result (p.block.size + units (free_start p.after) - size)
              ++ without_start p.after;
        }) }
    ensures binned { AreBinned T.cells T.Index.MAX store.new }
    ensures lists { (limit : ℕ) (p : Place) → IsPlaceIn T.cells store.old limit name p
        → bins_of T.cells T.Index.MAX store.new
        ≡ push_all (free_part result (p.block.size + units (free_start p.after) - size))
        (remove_all (free_start p.after) (bins_of T.cells T.Index.MAX store.old)) }
    ensures unused { (limit : ℕ) (p : Place) → IsPlaceIn T.cells store.old limit name p
        → AreTaken (length (p.before ++ p.block ∷ p.after))
        (unused_of T.cells store.old ++ names_of (free_start p.after))
        (names_of (free_part result (p.block.size + units (free_start p.after) - size)))
        (unused_of T.cells store.new) }
    ensures accesses { Costs 1 36 store.old.accesses store.new.accesses }
    ensures accesses_less { size < old_size → store.old.accesses + 14 ≤ store.new.accesses }
    ensures accesses_more { IsSome next → store.old.accesses + 9 ≤ store.new.accesses }
{
    let whole = with_after(store, name, old_size, next);
    let offset = store.tables.offset(name, &mut store.accesses);
    split_remainder(store, name, offset, size, whole - size)
}
