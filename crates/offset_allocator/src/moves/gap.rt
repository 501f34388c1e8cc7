//! A free block that is out of the chain while the blocks after it slide to the front of its units, whole or
//! in part, and the units of the others go into it: so each node is written once. It touches the chain, and
//! leaves the bins as they are.
ghost use Rattle.std.specs.Prelude.{ℕ, ◌≡◌, ◌+◌, ◌-◌, ◌≤◌, List, ◌∷◌, ◌++◌, [], false};
ghost use Rattle.offset_allocator.specs.Accesses.{Costs};
ghost use Rattle.offset_allocator.specs.Cells.{link_of, node};
ghost use Rattle.offset_allocator.specs.Chain.{HasPlace, first_or};
ghost use Rattle.offset_allocator.specs.Moving.Gaps.{IsGap};
ghost use Rattle.offset_allocator.specs.Store.{IsPlaceIn, SameBins, unused_of};
ghost use Rattle.offset_allocator.specs.View.{Block, Place};

use crate::accesses::Accesses;
use crate::chain::{point_back, point_on};
use crate::index::{NodeIndex, link_to};
use crate::store::Store;
use crate::tables::Tables;

/// The free block: its units are between those of the blocks before and after it.
#[derive(Clone, Copy)]
pub(crate) struct Gap<NI: NodeIndex> {
    pub(crate) name: u32,
    pub(crate) offset: u32,
    pub(crate) size: u32,
    // the link to the block before it
    pub(crate) before: NI,
}

/// Takes a free block out of the chain: nothing is written.
pub(crate) fn open<T: Tables>(
    tables: &T,
    name: u32,
    size: u32,
    count: &mut Accesses,
) -> Gap<T::Index>
    requires place { (limit last spare_count : ℕ) × (p : Place)
        × HasPlace (T.cells tables.now).chain limit last spare_count name p }
    requires size { size ≡ (node (T.cells tables.now).chain name).size }
    ensures gap { (limit last spare_count : ℕ) (p : Place)
        → HasPlace (T.cells tables.now).chain limit last spare_count name p
        → p.block.used ≡ false
        → IsGap T.Index.MAX T.Index.number result (T.cells tables.now).chain limit last spare_count p }
    ensures name { result.name ≡ name }
    ensures accesses { count.new ≡ count.old + 2 }
{
    Gap {
        name,
        offset: tables.offset(name, count),
        size,
        before: tables.before(name, count),
    }
}

/// Slides the first `keep` of the `more` units of the block `next`, which is directly after the gap, to its
/// front; the others go into the gap.
#[tactic(auto, using(crate::proofs::Linking::Nodes::lengths))]
#[inline(always)]
pub(crate) fn pass_part<T: Tables>(
    store: &mut Store<T>,
    gap: &mut Gap<T::Index>,
    next: u32,
    more: u32,
    keep: u32,
)
    requires place { (limit : ℕ) × (p : Place) × (b : Block) × (bs : List Block)
        × IsGap T.Index.MAX T.Index.number gap.old (T.cells store.old.tables).chain limit store.old.last
        store.old.spare_count p × (p.after ≡ b ∷ bs) × (b.name ≡ next) }
    requires more { more ≡ (node (T.cells store.old.tables).chain next).size }
    requires within { keep ≤ more }
    ensures gap { (limit : ℕ) (p : Place) (b : Block) (bs : List Block)
        → IsGap T.Index.MAX T.Index.number gap.old (T.cells store.old.tables).chain limit store.old.last
        store.old.spare_count p → p.after ≡ b ∷ bs → b.name ≡ next
        → IsGap T.Index.MAX T.Index.number gap.new (T.cells store.new.tables).chain limit store.new.last
        store.new.spare_count (record {
          before = p.before ++ record b { size = keep } ∷ [];
          block = record p.block { size = p.block.size + (b.size - keep) };
          after = bs;
        }) }
    ensures name { gap.new.name ≡ gap.old.name }
    ensures unused { unused_of T.cells store.new ≡ unused_of T.cells store.old }
    ensures bins { SameBins T.cells store.old store.new }
    ensures accesses { Costs 3 4 store.old.accesses store.new.accesses }
{
    store.tables.shape();
    store
        .tables
        .set_start(next, gap.offset, keep, gap.before, &mut store.accesses);
    point_on(&mut store.tables, gap.before, next, &mut store.accesses);
    gap.before = store.tables.link_to(next);
    gap.offset += keep;
    gap.size += more - keep;
}

/// Slides the block `next` of `more` units, which is directly after the gap, to its front.
pub(crate) fn pass<T: Tables>(store: &mut Store<T>, gap: &mut Gap<T::Index>, next: u32, more: u32)
    requires place { (limit : ℕ) × (p : Place) × (b : Block) × (bs : List Block)
        × IsGap T.Index.MAX T.Index.number gap.old (T.cells store.old.tables).chain limit store.old.last
        store.old.spare_count p × (p.after ≡ b ∷ bs) × (b.name ≡ next) }
    requires more { more ≡ (node (T.cells store.old.tables).chain next).size }
    ensures gap { (limit : ℕ) (p : Place) (b : Block) (bs : List Block)
        → IsGap T.Index.MAX T.Index.number gap.old (T.cells store.old.tables).chain limit store.old.last
        store.old.spare_count p → p.after ≡ b ∷ bs → b.name ≡ next
        → IsGap T.Index.MAX T.Index.number gap.new (T.cells store.new.tables).chain limit store.new.last
        store.new.spare_count (record { before = p.before ++ b ∷ []; block = p.block; after = bs }) }
    ensures name { gap.new.name ≡ gap.old.name }
    ensures unused { unused_of T.cells store.new ≡ unused_of T.cells store.old }
    ensures bins { SameBins T.cells store.old store.new }
    ensures accesses { Costs 3 4 store.old.accesses store.new.accesses }
{
    pass_part(store, gap, next, more, more);
}

/// Coalesces the free block `next` of `more` units, which is directly after the gap and in no bin, with it.
pub(crate) fn gather<T: Tables>(store: &mut Store<T>, gap: &mut Gap<T::Index>, next: u32, more: u32)
    requires place { (limit : ℕ) × (p : Place) × (b : Block) × (bs : List Block)
        × IsGap T.Index.MAX T.Index.number gap.old (T.cells store.old.tables).chain limit store.old.last
        store.old.spare_count p × (p.after ≡ b ∷ bs) × (b.name ≡ next) × (b.used ≡ false) }
    requires more { more ≡ (node (T.cells store.old.tables).chain next).size }
    ensures gap { (limit : ℕ) (p : Place) (b : Block) (bs : List Block)
        → IsGap T.Index.MAX T.Index.number gap.old (T.cells store.old.tables).chain limit store.old.last
        store.old.spare_count p → p.after ≡ b ∷ bs → b.name ≡ next → b.used ≡ false
        → IsGap T.Index.MAX T.Index.number gap.new (T.cells store.new.tables).chain limit store.new.last
        store.new.spare_count (record {
          before = p.before;
          block = record p.block { size = p.block.size + b.size };
          after = bs;
        }) }
    ensures name { gap.new.name ≡ gap.old.name }
    ensures unused { unused_of T.cells store.new ≡ unused_of T.cells store.old ++ next ∷ [] }
    ensures bins { SameBins T.cells store.old store.new }
    ensures accesses { store.new.accesses ≡ store.old.accesses + 1 }
{
    store.tables.shape();
    store
        .tables
        .set_spare(store.spare_count, link_to(next), &mut store.accesses);
    store.spare_count += 1;
    gap.size += more;
}

/// Puts the free block back into the chain, before the one that the link `after` names.
#[tactic(auto, using(crate::proofs::Linking::Nodes::lengths))]
pub(crate) fn close<T: Tables>(store: &mut Store<T>, gap: Gap<T::Index>, after: T::Index)
    requires place { (limit : ℕ) × (p : Place)
        × IsGap T.Index.MAX T.Index.number gap (T.cells store.old.tables).chain limit store.old.last
        store.old.spare_count p
        × (link_of T.Index.MAX (T.Index.number after) ≡ first_or None p.after) }
    ensures place { (limit : ℕ) (p : Place)
        → IsGap T.Index.MAX T.Index.number gap (T.cells store.old.tables).chain limit store.old.last
        store.old.spare_count p
        → link_of T.Index.MAX (T.Index.number after) ≡ first_or None p.after
        → IsPlaceIn T.cells store.new limit gap.name p }
    ensures unused { unused_of T.cells store.new ≡ unused_of T.cells store.old }
    ensures bins { SameBins T.cells store.old store.new }
    ensures accesses { Costs 4 6 store.old.accesses store.new.accesses }
{
    store.tables.shape();
    store.tables.set_block(
        gap.name,
        gap.offset,
        gap.size,
        gap.before,
        after,
        &mut store.accesses,
    );
    point_on(&mut store.tables, gap.before, gap.name, &mut store.accesses);
    point_back(
        &mut store.tables,
        &mut store.last,
        after,
        gap.name,
        &mut store.accesses,
    );
}
