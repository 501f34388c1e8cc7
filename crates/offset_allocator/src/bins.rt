//! A bin for each size class: the names of its free blocks, in a list of links between the nodes, with a
//! two-level mask. It touches these links, the heads of the bins and the masks, and leaves the chain as it
//! is.
ghost use Rattle.std.specs.Prelude.{◌≡◌, ◌+◌, ◌-◌, ◌<◌, ◌≤◌, ◌≢◌, ℕ, false, List, [], ◌∷◌, slice_index};
ghost use Rattle.std.specs.Prelude.{slice_set, length, replicate, MatchOption};
ghost use Rattle.offset_allocator.specs.Accesses.{Costs};
ghost use Rattle.offset_allocator.specs.Cells.{AreEmpty, node};
ghost use Rattle.offset_allocator.specs.Classes.{down};
ghost use Rattle.offset_allocator.specs.View.{bin_at, push, remove};
ghost use Rattle.offset_allocator.specs.Store.{AreBinned, SameChain, bins_of};
ghost use Rattle.offset_allocator.specs.Bins.{IsUnlisted, IsFoundFrom, IsAmong, AreMasks, bins_in};
ghost use Rattle.offset_allocator.specs.Bins.{IsBinned, IsFoundLast};

use crate::accesses::Accesses;
use crate::index::{NodeIndex, link_to, no_link, number};
use crate::small_float::uint_to_float_round_down;
use crate::store::Store;
use crate::tables::Tables;

/// The smallest class at or above `class` whose bin is not empty.
pub(crate) fn find_at_or_above<T: Tables>(
    tables: &T,
    top_mask: u32,
    class: u32,
    count: &mut Accesses,
) -> Option<u32>
    requires binned { IsBinned T.Index.MAX (T.cells tables.now).bins top_mask }
    requires classed { class < 256 }
    ensures smallest { IsFoundFrom class (bins_in T.Index.MAX (T.cells tables.now).bins) result }
    ensures accesses { Costs 1 2 count.old count.new }
{
    let word = class / 64;
    let rest = tables.mask(word, count) & (u64::MAX << (class % 64));
    if rest != 0 {
        return Some(word * 64 + rest.trailing_zeros());
    }
    let words = top_mask & (u32::MAX << (word + 1));
    if words == 0 {
        return None;
    }
    let found = words.trailing_zeros();
    Some(found * 64 + tables.mask(found, count).trailing_zeros())
}

/// The words of the masks.
#[inline(always)]
pub(crate) fn masks<T: Tables>(tables: &T, count: &mut Accesses) -> [u64; 4]
    requires four { length (T.cells tables.now).bins.masks ≡ 4 }
    ensures cells { result ≡ (T.cells tables.now).bins.masks }
    ensures accesses { count.new ≡ count.old + 4 }
{
    [
        tables.mask(0, count),
        tables.mask(1, count),
        tables.mask(2, count),
        tables.mask(3, count),
    ]
}

/// As `find_at_or_above`, where the caller has read the masks.
#[inline(always)]
pub(crate) fn find_in_masks(masks: &[u64; 4], top_mask: u32, class: u32) -> Option<u32>
    requires masked { (ls : List (List ℕ)) × AreMasks ls masks.now top_mask }
    requires classed { class < 256 }
    ensures smallest { (ls : List (List ℕ)) → AreMasks ls masks.now top_mask → IsFoundFrom class ls result }
{
    let word = class / 64;
    let rest = masks[word as usize] & (u64::MAX << (class % 64));
    if rest != 0 {
        return Some(word * 64 + rest.trailing_zeros());
    }
    let words = top_mask & (u32::MAX << (word + 1));
    if words == 0 {
        return None;
    }
    let found = words.trailing_zeros();
    Some(found * 64 + masks[found as usize].trailing_zeros())
}

/// The largest class whose bin is not empty.
pub(crate) fn largest<T: Tables>(tables: &T, top_mask: u32, count: &mut Accesses) -> Option<u32>
    requires { IsBinned T.Index.MAX (T.cells tables.now).bins top_mask }
    ensures largest { IsFoundLast (bins_in T.Index.MAX (T.cells tables.now).bins) result }
    ensures accesses { MatchOption result (count.new ≡ count.old) (λ _. count.new ≡ count.old + 1) }
{
    if top_mask == 0 {
        return None;
    }
    let word = 31 - top_mask.leading_zeros();
    Some(word * 64 + (63 - tables.mask(word, count).leading_zeros()))
}

/// Pushes a name onto a bin.
#[inline(always)]
pub(crate) fn push<T: Tables>(store: &mut Store<T>, name: u32, class: u32)
    requires binned { AreBinned T.cells T.Index.MAX store.old }
    requires named { name < length (T.cells store.old.tables).chain.nodes }
    requires idle { (node (T.cells store.old.tables).chain name).used ≡ false }
    requires classed { class < 256 }
    requires unlisted { IsUnlisted name (bins_of T.cells T.Index.MAX store.old) }
    ensures binned { AreBinned T.cells T.Index.MAX store.new }
    ensures lists { bins_of T.cells T.Index.MAX store.new
        ≡ push class name (bins_of T.cells T.Index.MAX store.old) }
    ensures chain { SameChain T.cells store.old store.new }
    ensures accesses { Costs 5 6 store.old.accesses store.new.accesses }
{
    let tables = &mut store.tables;
    let top_mask = &mut store.top_mask;
    let count = &mut store.accesses;
    tables.shape();
    let link = link_to(name);
    let newest = tables.head(class, count);
    tables.set_head(class, name, count);
    tables.set_links(name, no_link(), T::Index::from_u32(newest), count);
    if !tables.has(newest) {
        let word = class / 64;
        let mask = tables.mask(word, count);
        tables.set_mask(word, mask | 1 << (class % 64), count);
        *top_mask |= 1 << word;
    } else {
        tables.set_newer(newest, link, count);
    }
}

// Clears the bit of a class: the masks are then those of the bins with this one empty.
fn clear_bit<T: Tables>(store: &mut Store<T>, class: u32)
    requires classed { class < 256 }
    ensures masked { (ls : List (List ℕ)) → length ls ≡ 256
        → AreMasks ls (T.cells store.old.tables).bins.masks store.old.top_mask
        → AreMasks (slice_set ls class []) (T.cells store.new.tables).bins.masks store.new.top_mask }
    ensures chain { SameChain T.cells store.old store.new }
    ensures rest { T.cells store.new.tables ≡ record (T.cells store.old.tables) {
      bins = record (T.cells store.old.tables).bins
          { masks = (T.cells store.new.tables).bins.masks };
    } }
    ensures accesses { Costs 0 2 store.old.accesses store.new.accesses }
{
    let tables = &mut store.tables;
    let top_mask = &mut store.top_mask;
    let count = &mut store.accesses;
    let word = class / 64;
    let rest = tables.mask(word, count) & !(1 << (class % 64));
    tables.set_mask(word, rest, count);
    if rest == 0 {
        *top_mask &= !(1 << word);
    }
}

// Sets the link to a newer node of the node that `at` names, if it names one, to `to`.
fn link_newer<T: Tables>(tables: &mut T, at: T::Index, to: T::Index, count: &mut Accesses)
    requires limit { length (T.cells tables.old).bins.newer ≤ T.Index.MAX }
    requires named { T.Index.number at ≢ T.Index.MAX → T.Index.number at
        < length (T.cells tables.old).bins.newer }
    requires idle { T.Index.number at ≢ T.Index.MAX
        → (node (T.cells tables.old).chain (T.Index.number at)).used ≡ false }
    requires link { T.Index.number to ≢ T.Index.MAX - 1 }
    ensures cells { T.cells tables.new ≡ record (T.cells tables.old) {
      bins = record (T.cells tables.old).bins
          { newer = slice_set (T.cells tables.old).bins.newer (T.Index.number at) (T.Index.number to) };
    } }
    ensures accesses { Costs 0 1 count.old count.new }
{
    tables.shape();
    if tables.has(number(at)) {
        tables.set_newer(number(at), to, count);
    }
}

// Removes the newest name of a class from its bin. `older` is the link to the next older one.
#[inline(always)]
fn remove_newest<T: Tables>(store: &mut Store<T>, class: u32, older: T::Index)
    requires binned { AreBinned T.cells T.Index.MAX store.old }
    requires classed { class < 256 }
    requires some { bin_at (bins_of T.cells T.Index.MAX store.old) class ≢ [] }
    requires older { T.Index.number older ≡ slice_index (T.cells store.old.tables).bins.older
        (slice_index (T.cells store.old.tables).bins.heads class) }
    ensures binned { AreBinned T.cells T.Index.MAX store.new }
    ensures lists { bins_of T.cells T.Index.MAX store.new
        ≡ remove class (slice_index (T.cells store.old.tables).bins.heads class)
        (bins_of T.cells T.Index.MAX store.old) }
    ensures chain { SameChain T.cells store.old store.new }
    ensures accesses { Costs 1 3 store.old.accesses store.new.accesses }
{
    let tables = &mut store.tables;
    let count = &mut store.accesses;
    tables.shape();
    let next = number(older);
    tables.set_head(class, next, count);
    if !tables.has(next) {
        clear_bit(store, class);
    } else {
        tables.set_newer(next, no_link(), count);
    }
}

// As `remove`, where the caller has read the link to the next newer name.
#[inline(always)]
fn remove_linked<T: Tables>(store: &mut Store<T>, name: u32, newer: T::Index, size: u32)
    requires binned { AreBinned T.cells T.Index.MAX store.old }
    requires listed { IsAmong name (bin_at (bins_of T.cells T.Index.MAX store.old) (down size)) }
    requires newer { T.Index.number newer ≡ slice_index (T.cells store.old.tables).bins.newer name }
    ensures binned { AreBinned T.cells T.Index.MAX store.new }
    ensures lists { bins_of T.cells T.Index.MAX store.new ≡ remove (down size) name
        (bins_of T.cells T.Index.MAX store.old) }
    ensures chain { SameChain T.cells store.old store.new }
    ensures accesses { Costs 2 4 store.old.accesses store.new.accesses }
{
    let tables = &mut store.tables;
    let count = &mut store.accesses;
    tables.shape();
    let older = tables.older(name, count);
    if !tables.has(number(newer)) {
        // the head changes only for the newest name, so only then is the class computed
        remove_newest(store, uint_to_float_round_down(size), older);
    } else {
        link_newer(tables, older, newer, count);
        tables.set_older(number(newer), older, count);
    }
}

/// Removes a name from the bin of this size.
#[inline(always)]
pub(crate) fn remove<T: Tables>(store: &mut Store<T>, name: u32, size: u32)
    requires binned { AreBinned T.cells T.Index.MAX store.old }
    requires listed { IsAmong name (bin_at (bins_of T.cells T.Index.MAX store.old) (down size)) }
    ensures binned { AreBinned T.cells T.Index.MAX store.new }
    ensures lists { bins_of T.cells T.Index.MAX store.new ≡ remove (down size) name
        (bins_of T.cells T.Index.MAX store.old) }
    ensures chain { SameChain T.cells store.old store.new }
    ensures accesses { Costs 3 5 store.old.accesses store.new.accesses }
{
    let newer = store.tables.newer(name, &mut store.accesses);
    remove_linked(store, name, newer, size);
}

/// Removes `gone`, the name of a block of `size` units, from its bin, and pushes `name` onto the bin of
/// `class`. Where both are one bin and `gone` is its newest, `name` takes its place.
#[inline(always)]
pub(crate) fn exchange<T: Tables>(store: &mut Store<T>, gone: u32, size: u32, name: u32, class: u32)
    requires binned { AreBinned T.cells T.Index.MAX store.old }
    requires listed { IsAmong gone (bin_at (bins_of T.cells T.Index.MAX store.old) (down size)) }
    requires named { name < length (T.cells store.old.tables).chain.nodes }
    requires idle { (node (T.cells store.old.tables).chain name).used ≡ false }
    requires classed { class < 256 }
    requires unlisted { IsUnlisted name (bins_of T.cells T.Index.MAX store.old) }
    ensures binned { AreBinned T.cells T.Index.MAX store.new }
    ensures lists { bins_of T.cells T.Index.MAX store.new
        ≡ push class name (remove (down size) gone (bins_of T.cells T.Index.MAX store.old)) }
    ensures chain { SameChain T.cells store.old store.new }
    ensures accesses { Costs 5 11 store.old.accesses store.new.accesses }
{
    store.tables.shape();
    let newer = store.tables.newer(gone, &mut store.accesses);
    if !store.tables.has(number(newer)) && class == uint_to_float_round_down(size) {
        // the bin is empty neither before nor after, so the masks stay
        let tables = &mut store.tables;
        let count = &mut store.accesses;
        let older = tables.older(gone, count);
        tables.set_head(class, name, count);
        tables.set_links(name, no_link(), older, count);
        link_newer(tables, older, link_to(name), count);
    } else {
        remove_linked(store, gone, newer, size);
        push(store, name, class);
    }
}

/// Pops the newest name of a bin.
pub(crate) fn pop<T: Tables>(store: &mut Store<T>, class: u32) -> u32
    requires binned { AreBinned T.cells T.Index.MAX store.old }
    requires classed { class < 256 }
    requires some { bin_at (bins_of T.cells T.Index.MAX store.old) class ≢ [] }
    ensures first { bin_at (bins_of T.cells T.Index.MAX store.old) class
        ≡ result ∷ bin_at (bins_of T.cells T.Index.MAX store.new) class }
    ensures binned { AreBinned T.cells T.Index.MAX store.new }
    ensures lists { bins_of T.cells T.Index.MAX store.new ≡ remove class result
        (bins_of T.cells T.Index.MAX store.old) }
    ensures chain { SameChain T.cells store.old store.new }
    ensures accesses { Costs 3 6 store.old.accesses store.new.accesses }
{
    let tables = &mut store.tables;
    let count = &mut store.accesses;
    let name = tables.head(class, count);
    let older = tables.older(name, count);
    remove_newest(store, class, older);
    name
}

/// The top mask of bins that are all empty, as those of new tables are.
pub(crate) fn empty_mask<T: Tables>(tables: &T) -> u32
    requires empty { AreEmpty T.Index.MAX (T.cells tables.now).bins }
    ensures binned { IsBinned T.Index.MAX (T.cells tables.now).bins result }
    ensures lists { bins_in T.Index.MAX (T.cells tables.now).bins ≡ replicate 256 [] }
{
    tables.shape();
    0
}

/// Removes all names from all bins, whatever these hold, by one write for each.
pub(crate) fn empty<T: Tables>(store: &mut Store<T>)
    ensures binned { AreBinned T.cells T.Index.MAX store.new }
    ensures lists { bins_of T.cells T.Index.MAX store.new ≡ replicate 256 [] }
    ensures chain { SameChain T.cells store.old store.new }
    ensures accesses { store.new.accesses ≡ store.old.accesses + 260 }
{
    let tables = &mut store.tables;
    let top_mask = &mut store.top_mask;
    let count = &mut store.accesses;
    tables.shape();
    for class in 0..256 {
        tables.set_head(class, T::Index::MAX, count);
    }
    for word in 0..4 {
        tables.set_mask(word, 0, count);
    }
    *top_mask = 0;
}
