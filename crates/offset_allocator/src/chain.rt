//! The blocks of the space, linked in space order, and the stack of unused names. It touches these alone, but
//! that `set_used` writes the link to a newer node, which says of a node in no bin whether its block is used.

ghost use Rattle.std.specs.Prelude.{ℕ, ◌≡◌, ◌+◌, ◌-◌, ◌<◌, ◌≤◌, ◌^◌, List, [], ◌∷◌, ◌++◌, length, false};
ghost use Rattle.std.specs.Prelude.{Some, IfSome, MatchOption};
ghost use Rattle.offset_allocator.specs.View.{Block, Place, free_block, is_used_at, count_named, place_of};
ghost use Rattle.offset_allocator.specs.View.{units};
ghost use Rattle.offset_allocator.specs.Accesses.{Costs};
ghost use Rattle.offset_allocator.specs.Cells.{IsBare, node, put, link_of};
ghost use Rattle.offset_allocator.specs.Bins.{IsUnlisted, bins_in};
ghost use Rattle.offset_allocator.specs.Readies.{SameBinLists};
ghost use Rattle.offset_allocator.specs.Store.{IsPlaceIn, SameBins, unused_of};
ghost use Rattle.offset_allocator.specs.Chain.{IsSpace, HasPlace, blocks, coalesced_before};
ghost use Rattle.offset_allocator.specs.Chain.{coalesced_after};

use crate::accesses::Accesses;
use crate::index::{link_to, linked, no_link, number};
use crate::store::Store;
use crate::tables::Tables;

/// Makes the whole space one free block, under the name of the only node.
pub(crate) fn start<T: Tables>(tables: &mut T, size: u32, max_allocs: u32, count: &mut Accesses)
    requires bare { IsBare max_allocs (T.cells tables.old).chain }
    ensures space { IsSpace (T.cells tables.new).chain 0 0 }
    ensures blocks { blocks (T.cells tables.new).chain 0 ≡ free_block 0 size ∷ [] }
    ensures node { length (T.cells tables.new).chain.nodes ≡ 1 }
    ensures reserved { (T.cells tables.new).chain.reserved ≡ max_allocs }
    ensures bins { (T.cells tables.new).bins ≡ (T.cells tables.old).bins }
    ensures accesses { count.new ≡ count.old + 4 }
{
    tables.shape();
    tables.set_block(0, 0, size, no_link(), no_link(), count);
}

/// The node that a link names, if any.
#[inline(always)]
pub(crate) fn named<T: Tables>(tables: &T, link: T::Index) -> Option<u32>
    requires { IfSome (link_of T.Index.MAX (T.Index.number link))
        (λ name. name < length (T.cells tables.now).chain.nodes) }
    ensures { result ≡ link_of T.Index.MAX (T.Index.number link) }
{
    tables.shape();
    let name = number(link);
    if tables.has(name) { Some(name) } else { None }
}

/// Whether a block is used.
pub(crate) fn is_used<T: Tables>(tables: &T, name: u32, count: &mut Accesses) -> bool
    requires { name < length (T.cells tables.now).chain.nodes }
    ensures cell { result ≡ (node (T.cells tables.now).chain name).used }
    ensures used { (last spare : ℕ) → IsSpace (T.cells tables.now).chain last spare → result
        ≡ is_used_at (place_of name (blocks (T.cells tables.now).chain last)) }
    ensures accesses { count.new ≡ count.old + 1 }
{
    tables.used(name, count)
}

/// Whether any given name is that of a used block. It counts one access for a name that no node has, too.
pub(crate) fn is_live<T: Tables>(tables: &T, name: u32, count: &mut Accesses) -> bool
    ensures live { (last spare : ℕ) → IsSpace (T.cells tables.now).chain last spare → result
        ≡ is_used_at (place_of name (blocks (T.cells tables.now).chain last)) }
    ensures accesses { count.new ≡ count.old + 1 }
{
    if tables.has(name) {
        is_used(tables, name, count)
    } else {
        count.tick();
        false
    }
}

/// The name of the block directly before a block, if there is one.
pub(crate) fn before<T: Tables>(tables: &T, name: u32, count: &mut Accesses) -> Option<u32>
    requires { name < length (T.cells tables.now).chain.nodes }
    ensures before { result ≡ (node (T.cells tables.now).chain name).before }
    ensures accesses { count.new ≡ count.old + 1 }
{
    linked(tables.before(name, count))
}

/// The name of the block directly after a block, if there is one.
pub(crate) fn after<T: Tables>(tables: &T, name: u32, count: &mut Accesses) -> Option<u32>
    requires { name < length (T.cells tables.now).chain.nodes }
    ensures after { result ≡ (node (T.cells tables.now).chain name).after }
    ensures accesses { count.new ≡ count.old + 1 }
{
    linked(tables.after(name, count))
}

// Makes `name` the block before the one that `link` names; where that names none, `name` becomes the last block.
#[tactic(auto, using(crate::proofs::Linking::Nodes::lengths))]
pub(crate) fn point_back<T: Tables>(
    tables: &mut T,
    last: &mut u32,
    link: T::Index,
    name: u32,
    count: &mut Accesses,
)
    requires link { IfSome (link_of T.Index.MAX (T.Index.number link))
        (λ after. after < length (T.cells tables.old).chain.nodes) }
    requires name { name < length (T.cells tables.old).chain.nodes }
    ensures nodes { length (T.cells tables.new).chain.nodes ≡ length (T.cells tables.old).chain.nodes }
    ensures cells { MatchOption (link_of T.Index.MAX (T.Index.number link)) ((T.cells tables.new).chain
        ≡ (T.cells tables.old).chain) (λ x. (T.cells tables.new).chain
        ≡ put (T.cells tables.old).chain x
        (record (node (T.cells tables.old).chain x) { before = Some name })) }
    ensures bins { (T.cells tables.new).bins ≡ (T.cells tables.old).bins }
    ensures accesses { Costs 0 1 count.old count.new }
    ensures last { MatchOption (link_of T.Index.MAX (T.Index.number link))
        (last.new ≡ name) (λ _. last.new ≡ last.old) }
{
    match named(tables, link) {
        Some(after) => {
            let back = tables.link_to(name);
            tables.set_before(after, back, count)
        }
        None => *last = name,
    }
}

// Makes `name` the block after the one that `link` names, if any.
#[tactic(auto, using(crate::proofs::Linking::Nodes::lengths))]
pub(crate) fn point_on<T: Tables>(tables: &mut T, link: T::Index, name: u32, count: &mut Accesses)
    requires link { IfSome (link_of T.Index.MAX (T.Index.number link))
        (λ before. before < length (T.cells tables.old).chain.nodes) }
    requires name { name < length (T.cells tables.old).chain.nodes }
    ensures nodes { length (T.cells tables.new).chain.nodes ≡ length (T.cells tables.old).chain.nodes }
    ensures cells { MatchOption (link_of T.Index.MAX (T.Index.number link)) ((T.cells tables.new).chain
        ≡ (T.cells tables.old).chain) (λ x. (T.cells tables.new).chain
        ≡ put (T.cells tables.old).chain x
        (record (node (T.cells tables.old).chain x) { after = Some name })) }
    ensures bins { (T.cells tables.new).bins ≡ (T.cells tables.old).bins }
    ensures accesses { Costs 0 1 count.old count.new }
{
    if let Some(before) = named(tables, link) {
        let on = tables.link_to(name);
        tables.set_after(before, on, count);
    }
}

/// Splits a block, which has this offset and `whole` units, after `size` units. The remainder becomes a free
/// block directly after it, under the name that is returned. The caller has read the offset and the units.
#[tactic(auto, using(crate::proofs::Linking::Nodes::lengths))]
pub(crate) fn split<T: Tables>(
    store: &mut Store<T>,
    name: u32,
    offset: u32,
    whole: u32,
    size: u32,
) -> u32
    requires place { (limit : ℕ) × (p : Place) × IsPlaceIn T.cells store.old limit name p }
    requires spare { 0 < store.old.spare_count }
    requires offset { offset ≡ (node (T.cells store.old.tables).chain name).offset }
    requires whole { whole ≡ (node (T.cells store.old.tables).chain name).size }
    requires within { size ≤ whole }
    ensures place { (limit : ℕ) (p : Place) → IsPlaceIn T.cells store.old limit name p
        → IsPlaceIn T.cells store.new limit name (record p {
          block = record p.block { size = size };
          after = free_block result (p.block.size - size) ∷ p.after;
        }) }
    ensures bins { SameBins T.cells store.old store.new }
    ensures nodes { length (T.cells store.new.tables).chain.nodes
        ≡ length (T.cells store.old.tables).chain.nodes }
    ensures spares { store.new.spare_count + 1 ≡ store.old.spare_count }
    ensures unused { unused_of T.cells store.old ≡ unused_of T.cells store.new ++ result ∷ [] }
    ensures fresh { (limit : ℕ) (p : Place) → IsPlaceIn T.cells store.old limit name p
        → count_named result (p.before ++ p.block ∷ p.after) ≡ 0 }
    ensures below { result < length (T.cells store.old.tables).chain.nodes }
    ensures accesses { Costs 8 9 store.old.accesses store.new.accesses }
{
    let tables = &mut store.tables;
    let count = &mut store.accesses;
    store.spare_count -= 1;
    let rest = number(tables.spare(store.spare_count, count));
    let next = tables.after(name, count);
    let back = tables.link_to(name);
    let on = tables.link_to(rest);
    tables.set_block(rest, offset + size, whole - size, back, next, count);
    tables.set_end(name, size, on, count);
    point_back(tables, &mut store.last, next, rest, count);
    rest
}

/// Coalesces the free block `following` into the block directly before it; `whole` is the size of both. The
/// name `following` is unused again.
#[tactic(auto, using(crate::proofs::Linking::Nodes::lengths))]
pub(crate) fn coalesce_after<T: Tables>(store: &mut Store<T>, name: u32, following: u32, whole: u32)
    requires place { (limit : ℕ) × (p : Place) × IsPlaceIn T.cells store.old limit name p }
    requires next { Some following ≡ (node (T.cells store.old.tables).chain name).after }
    requires free { (node (T.cells store.old.tables).chain following).used ≡ false }
    requires whole { whole ≡ (node (T.cells store.old.tables).chain name).size
        + (node (T.cells store.old.tables).chain following).size }
    ensures place { (limit : ℕ) (p : Place) → IsPlaceIn T.cells store.old limit name p
        → IsPlaceIn T.cells store.new limit name (coalesced_after p) }
    ensures bins { SameBins T.cells store.old store.new }
    ensures nodes { length (T.cells store.new.tables).chain.nodes
        ≡ length (T.cells store.old.tables).chain.nodes }
    ensures spares { store.new.spare_count ≡ store.old.spare_count + 1 }
    ensures unused { unused_of T.cells store.new ≡ unused_of T.cells store.old ++ following ∷ [] }
    ensures accesses { Costs 4 5 store.old.accesses store.new.accesses }
{
    let tables = &mut store.tables;
    let count = &mut store.accesses;
    tables.shape();
    let next = tables.after(following, count);
    tables.set_end(name, whole, next, count);
    point_back(tables, &mut store.last, next, name, count);
    tables.set_spare(store.spare_count, link_to(following), count);
    store.spare_count += 1;
}

/// Coalesces the free block `previous` into the block directly after it; `whole` is the size of both. The
/// name `previous` is unused again.
#[tactic(auto, using(crate::proofs::Linking::Nodes::lengths))]
pub(crate) fn coalesce_before<T: Tables>(store: &mut Store<T>, previous: u32, name: u32, whole: u32)
    requires place { (limit : ℕ) × (p : Place) × IsPlaceIn T.cells store.old limit name p }
    requires previous { Some previous ≡ (node (T.cells store.old.tables).chain name).before }
    requires free { (node (T.cells store.old.tables).chain previous).used ≡ false }
    requires whole { whole ≡ (node (T.cells store.old.tables).chain previous).size
        + (node (T.cells store.old.tables).chain name).size }
    ensures place { (limit : ℕ) (p : Place) → IsPlaceIn T.cells store.old limit name p
        → IsPlaceIn T.cells store.new limit name (coalesced_before p) }
    ensures bins { SameBins T.cells store.old store.new }
    ensures nodes { length (T.cells store.new.tables).chain.nodes
        ≡ length (T.cells store.old.tables).chain.nodes }
    ensures spares { store.new.spare_count ≡ store.old.spare_count + 1 }
    ensures unused { unused_of T.cells store.new ≡ unused_of T.cells store.old ++ previous ∷ [] }
    ensures accesses { Costs 6 7 store.old.accesses store.new.accesses }
{
    let tables = &mut store.tables;
    let count = &mut store.accesses;
    tables.shape();
    let offset = tables.offset(previous, count);
    let link = tables.before(previous, count);
    tables.set_start(name, offset, whole, link, count);
    point_on(tables, link, name, count);
    tables.set_spare(store.spare_count, link_to(previous), count);
    store.spare_count += 1;
}

/// Makes a block, which is in no bin, used or free.
#[tactic(auto, using(crate::proofs::Linking::Nodes::lengths))]
pub(crate) fn set_used<T: Tables>(tables: &mut T, name: u32, used: bool, count: &mut Accesses)
    requires { name < length (T.cells tables.old).chain.nodes }
    ensures place { (limit last spare_count : ℕ) (p : Place)
        → HasPlace (T.cells tables.old).chain limit last spare_count name p
        → HasPlace (T.cells tables.new).chain limit last spare_count name
        (record p { block = record p.block { used = used } }) }
    ensures bins { (top : ℕ) → IsUnlisted name (bins_in T.Index.MAX (T.cells tables.old).bins)
        → SameBinLists T.Index.MAX (T.cells tables.old) (T.cells tables.new) top }
    ensures nodes { length (T.cells tables.new).chain.nodes ≡ length (T.cells tables.old).chain.nodes }
    ensures spare { (T.cells tables.new).chain.spare ≡ (T.cells tables.old).chain.spare }
    ensures accesses { count.new ≡ count.old + 1 }
{
    tables.set_used(name, used, count);
}

/// Splits the first `cut` units off a block. They become a free block directly before it, under the name that
/// is returned.
#[tactic(auto, using(crate::proofs::Linking::Nodes::lengths))]
pub(crate) fn split_before<T: Tables>(store: &mut Store<T>, name: u32, cut: u32) -> u32
    requires place { (limit : ℕ) × (p : Place) × IsPlaceIn T.cells store.old limit name p }
    requires spare { 0 < store.old.spare_count }
    requires within { cut ≤ (node (T.cells store.old.tables).chain name).size }
    ensures place { (limit : ℕ) (p : Place) → IsPlaceIn T.cells store.old limit name p
        → IsPlaceIn T.cells store.new limit name (record {
          before = p.before ++ free_block result cut ∷ [];
          block = record p.block { size = p.block.size - cut };
          after = p.after;
        }) }
    ensures bins { SameBins T.cells store.old store.new }
    ensures nodes { length (T.cells store.new.tables).chain.nodes
        ≡ length (T.cells store.old.tables).chain.nodes }
    ensures spares { store.new.spare_count + 1 ≡ store.old.spare_count }
    ensures unused { unused_of T.cells store.old ≡ unused_of T.cells store.new ++ result ∷ [] }
    ensures fresh { (limit : ℕ) (p : Place) → IsPlaceIn T.cells store.old limit name p
        → count_named result (p.before ++ p.block ∷ p.after) ≡ 0 }
    ensures below { result < length (T.cells store.old.tables).chain.nodes }
    ensures accesses { Costs 11 12 store.old.accesses store.new.accesses }
{
    let tables = &mut store.tables;
    let count = &mut store.accesses;
    store.spare_count -= 1;
    let front = number(tables.spare(store.spare_count, count));
    let offset = tables.offset(name, count);
    let size = tables.size(name, count);
    let link = tables.before(name, count);
    let on = tables.link_to(name);
    let back = tables.link_to(front);
    tables.set_block(front, offset, cut, link, on, count);
    tables.set_start(name, offset + cut, size - cut, back, count);
    point_on(tables, link, front, count);
    front
}

/// Adds units to the last block.
#[tactic(auto, using(crate::proofs::Linking::Nodes::lengths))]
pub(crate) fn grow<T: Tables>(tables: &mut T, last: u32, more: u32, count: &mut Accesses)
    requires place { (limit spare_count : ℕ) × (before : List Block) × (b : Block)
        × HasPlace (T.cells tables.old).chain limit last spare_count last
        (record { before = before; block = b; after = [] }) }
    requires fits { units (blocks (T.cells tables.old).chain last) + more < 2 ^ 32 }
    ensures place { (limit spare_count : ℕ) (before : List Block) (b : Block)
        → HasPlace (T.cells tables.old).chain limit last spare_count last
        (record { before = before; block = b; after = [] })
        → HasPlace (T.cells tables.new).chain limit last spare_count last (record {
          before = before;
          block = record b { size = b.size + more };
          after = [];
        }) }
    ensures bins { (T.cells tables.new).bins ≡ (T.cells tables.old).bins }
    ensures nodes { length (T.cells tables.new).chain.nodes ≡ length (T.cells tables.old).chain.nodes }
    ensures spare { (T.cells tables.new).chain.spare ≡ (T.cells tables.old).chain.spare }
    ensures accesses { count.new ≡ count.old + 2 }
{
    let size = tables.size(last, count);
    tables.set_size(last, size + more, count);
}

/// Leaves the last block fewer units.
#[tactic(auto, using(crate::proofs::Linking::Nodes::lengths))]
pub(crate) fn trim<T: Tables>(tables: &mut T, last: u32, size: u32, count: &mut Accesses)
    requires place { (limit spare_count : ℕ) × (before : List Block) × (b : Block)
        × HasPlace (T.cells tables.old).chain limit last spare_count last
        (record { before = before; block = b; after = [] }) }
    ensures place { (limit spare_count : ℕ) (before : List Block) (b : Block)
        → HasPlace (T.cells tables.old).chain limit last spare_count last
        (record { before = before; block = b; after = [] })
        → size ≤ b.size → HasPlace (T.cells tables.new).chain limit last spare_count last (record {
          before = before;
          block = record b { size = size };
          after = [];
        }) }
    ensures bins { (T.cells tables.new).bins ≡ (T.cells tables.old).bins }
    ensures nodes { length (T.cells tables.new).chain.nodes ≡ length (T.cells tables.old).chain.nodes }
    ensures spare { (T.cells tables.new).chain.spare ≡ (T.cells tables.old).chain.spare }
    ensures accesses { count.new ≡ count.old + 1 }
{
    tables.set_size(last, size, count);
}

/// Takes the last block, which is free, off the end; `previous` is the last one then.
pub(crate) fn drop_end<T: Tables>(store: &mut Store<T>, previous: u32, size: u32)
    requires place { (limit : ℕ) × (before : List Block) × (a b : Block)
        × IsPlaceIn T.cells store.old limit previous (record { before = before; block = a; after = b ∷ [] })
        × (b.used ≡ false) × (size ≡ b.size) }
    ensures place { (limit : ℕ) (before : List Block) (a b : Block)
        → IsPlaceIn T.cells store.old limit previous (record { before = before; block = a; after = b ∷ [] })
        → b.used ≡ false → IsPlaceIn T.cells store.new limit previous
        (record { before = before; block = a; after = [] }) }
    ensures bins { SameBins T.cells store.old store.new }
    ensures last { store.new.last ≡ previous }
    ensures unused { unused_of T.cells store.new ≡ unused_of T.cells store.old ++ store.old.last ∷ [] }
    ensures accesses { Costs 6 7 store.old.accesses store.new.accesses }
{
    let end = store.last;
    let kept = store.tables.size(previous, &mut store.accesses);
    coalesce_after(store, previous, end, kept + size);
    trim(&mut store.tables, previous, kept, &mut store.accesses);
}
