//! Slides live ranges to the front by whole steps, of a run of blocks or of the space: each keeps what its offset
//! leaves of a step, and with it its alignment. By steps of one unit the free blocks on the way keep nothing, and
//! are one block after the ranges. It changes the chain by `gap`, and the bins of the free blocks that it passes,
//! where they are in bins.
ghost use Rattle.std.specs.Prelude.{ℕ, ◌≡◌, ◌+◌, ◌*◌, ◌<◌, ◌≤◌, ◌∷◌, ◌++◌, List, None, Some, false, true, Bool};
ghost use Rattle.std.specs.Prelude.{length, if◌then◌else◌};
ghost use Rattle.std.specs.List.{FoldsTo};
ghost use Rattle.offset_allocator.specs.Accesses.{Costs};
ghost use Rattle.offset_allocator.specs.Bins.{IsAmong};
ghost use Rattle.offset_allocator.specs.Cells.{node};
ghost use Rattle.offset_allocator.specs.Chain.{first_or, last_or};
ghost use Rattle.offset_allocator.specs.Classes.{down};
ghost use Rattle.offset_allocator.specs.Moving.BySteps.{AreFiled, EndsAt, given_up, is_end, kept, moves_by};
ghost use Rattle.offset_allocator.specs.Moving.BySteps.{stepped, used_up};
ghost use Rattle.offset_allocator.specs.Moving.Compacting.{IsCalledWith, move_of};
ghost use Rattle.offset_allocator.specs.Names.{IsTaken, names_of};
ghost use Rattle.offset_allocator.specs.Store.{AreBinned, IsPlaceIn, SameChain, bins_of, unused_of};
ghost use Rattle.offset_allocator.specs.View.{AreInBins, Block, bin_at, free_block, push, push_all, remove, remove_all};
ghost use Rattle.offset_allocator.specs.View.{count_used, units};

use crate::index::{NodeIndex, linked};
use crate::moves::gap::Gap;
use crate::moves::{gap, one_move};
use crate::small_float::uint_to_float_round_down;
use crate::store::{Store, ensure_spare};
use crate::tables::Tables;
use crate::{Move, bins, chain};

// Calls the closure with the move of a block, where it gets another offset.
fn report<NI: NodeIndex, F: FnMut(Move<NI>)>(
    moved: &mut F,
    name: u32,
    from: u32,
    to: u32,
    size: u32,
)
    requires named { name < NI.MAX }
    requires down { to ≤ from }
    requires within { from + size ≤ 4294967295 }
    requires callable { F.IsAlwaysCallable moved.old }
    ensures called { (used : Bool) → FoldsTo (IsCalledWith NI.NonMax.number
        (λ f range g. F.step f range tt g)) moved.old (move_of from to (record {
          name = name;
          size = size;
          used = used;
        })) moved.new }
    ensures callable { F.IsAlwaysCallable moved.new }
{
    if from == to {
        return;
    }
    moved(one_move::Move::make(NI::from_u32(name).to_name(), from, to, size));
}

/// What a free block of `size` units keeps, which has the block after it that a link names: what whole steps
/// leave of it, and nothing at the end.
pub(crate) fn kept(size: u32, step: u32, after: Option<u32>) -> u32
    requires { 1 ≤ step }
    ensures kept { (bs : List Block) → after ≡ first_or None bs → result ≡ kept step size bs }
    ensures within { result ≤ size }
{
    match after {
        None => 0,
        Some(_) => size % step,
    }
}

// The block after `next`, which `after` names, of blocks up to `end`: that has none.
fn within(next: u32, end: Option<u32>, after: Option<u32>) -> Option<u32>
    ensures { result ≡ (if is_end end next then None else after) }
{
    match end {
        None => after,
        Some(end) => { if next == end { None } else { after } }
    }
}

// Removes a free block from its bin, where free blocks are in bins.
#[inline(always)]
fn take_out<T: Tables>(store: &mut Store<T>, name: u32, size: u32, filed: bool)
    requires binned { AreBinned T.cells T.Index.MAX store.old }
    requires listed { filed ≡ true → IsAmong name
        (bin_at (bins_of T.cells T.Index.MAX store.old) (down size)) }
    ensures binned { AreBinned T.cells T.Index.MAX store.new }
    ensures lists { filed ≡ true → bins_of T.cells T.Index.MAX store.new ≡ remove (down size) name
        (bins_of T.cells T.Index.MAX store.old) }
    ensures same { filed ≡ false → bins_of T.cells T.Index.MAX store.new
        ≡ bins_of T.cells T.Index.MAX store.old }
    ensures chain { SameChain T.cells store.old store.new }
    ensures accesses { Costs 0 5 store.old.accesses store.new.accesses }
    ensures accesses_none { filed ≡ false → store.new.accesses ≡ store.old.accesses }
{
    if filed {
        bins::remove(store, name, size);
    }
}

// Slides the used blocks after a free block of `size` units to its front by whole steps, up to the block `end`,
// or all of them. The free block comes last, with the units that those on the way give up; the blocks after
// `end` stay. Where the blocks are filed, each free one on the way leaves its bin, and what it keeps becomes the
// newest block of the bin for its new size. Where they are in no bin, the step is 1, and the bins stay. Callers
// pass constants, so that the loop is compiled for each closure; inlined, it would have fewer registers.
#[inline(never)]
pub(crate) fn to_front<T: Tables, F: FnMut(Move<T::Index>)>(
    store: &mut Store<T>,
    name: u32,
    size: u32,
    end: Option<u32>,
    step: u32,
    filed: bool,
    moved: &mut F,
) -> Gap<T::Index>
    requires some { 1 ≤ step }
    requires single { filed ≡ false → step ≡ 1 }
    requires size { size ≡ (node (T.cells store.old.tables).chain name).size }
    requires place { (limit : ℕ) × (front : List Block) × (b : Block) × (run back : List Block)
        × (lists : List (List ℕ)) × IsPlaceIn T.cells store.old limit name
        (record { before = front; block = b; after = run ++ back }) × (b.used ≡ false) × EndsAt end run back
        × AreFiled filed (front ++ (run ++ back)) lists (bins_of T.cells T.Index.MAX store.old) }
    requires binned { AreBinned T.cells T.Index.MAX store.old }
    requires callable { F.IsAlwaysCallable moved.old }
    ensures place { (limit : ℕ) (front : List Block) (b : Block) (run back : List Block)
        (lists : List (List ℕ)) → IsPlaceIn T.cells store.old limit name
        (record { before = front; block = b; after = run ++ back }) → b.used ≡ false → EndsAt end run back
        → AreFiled filed (front ++ (run ++ back)) lists (bins_of T.cells T.Index.MAX store.old)
        → IsPlaceIn T.cells store.new limit result.name (record {
          before = front ++ stepped step run;
          block = free_block result.name result.size;
          after = back;
        })
        × (result.size ≡ b.size + given_up step run)
        × FoldsTo (IsCalledWith T.Index.NonMax.number (λ f range g. F.step f range tt g)) moved.old
        (moves_by step (units front + b.size) (units front) run) moved.new
        × (filed ≡ true → bins_of T.cells T.Index.MAX store.new
        ≡ push_all (stepped step run) (remove_all run lists))
        × AreInBins ((front ++ stepped step run) ++ back) (push_all (stepped step run) (remove_all run lists))
        × (unused_of T.cells store.new ≡ unused_of T.cells store.old ++ names_of (used_up step run))
        × (store.new.accesses + 11 * count_used run ≤ store.old.accesses + 18 * length run + 9)
        × (filed ≡ false → store.new.accesses ≤ store.old.accesses + 7 * length run + 9)
        × (store.old.accesses + 4 * length run + 7 ≤ store.new.accesses) }
    ensures name { result.name ≡ name }
    ensures binned { AreBinned T.cells T.Index.MAX store.new }
    ensures bins { filed ≡ false → bins_of T.cells T.Index.MAX store.new
        ≡ bins_of T.cells T.Index.MAX store.old }
    ensures callable { F.IsAlwaysCallable moved.new }
    ensures accesses_min { store.old.accesses ≤ store.new.accesses }
{
    store.tables.shape();
    let mut gap = gap::open(&store.tables, name, size, &mut store.accesses);
    let mut after = store.tables.after(name, &mut store.accesses);
    let mut at = linked(after);
    while let Some(next) = at {
        let more = store.tables.size(next, &mut store.accesses);
        after = store.tables.after(next, &mut store.accesses);
        at = within(next, end, linked(after));
        if chain::is_used(&store.tables, next, &mut store.accesses) {
            report(moved, next, gap.offset + gap.size, gap.offset, more);
            gap::pass(store, &mut gap, next, more);
        } else {
            take_out(store, next, more, filed);
            let keep = kept(more, step, at);
            if keep == 0 {
                gap::gather(store, &mut gap, next, more);
            } else {
                gap::pass_part(store, &mut gap, next, more, keep);
                bins::push(store, next, uint_to_float_round_down(keep));
            }
        }
    }
    gap::close(store, gap, after);
    gap
}

// Slides the used blocks of a run, from the block `first` to the block `end`, to its front by whole steps. What
// its free blocks give up is one free block at its end, the newest of its bin.
pub(crate) fn slide_run<T: Tables, F: FnMut(Move<T::Index>)>(
    store: &mut Store<T>,
    first: u32,
    end: u32,
    step: u32,
    moved: &mut F,
)
    requires some { 1 ≤ step }
    requires place { (limit : ℕ) × (front : List Block) × (b : Block) × (rest back : List Block)
        × IsPlaceIn T.cells store.old limit first
        (record { before = front; block = b; after = rest ++ back })
        × (last_or None (b ∷ rest) ≡ Some end)
        × (length (front ++ b ∷ (rest ++ back)) < limit)
        × AreInBins (front ++ b ∷ (rest ++ back)) (bins_of T.cells T.Index.MAX store.old) }
    requires binned { AreBinned T.cells T.Index.MAX store.old }
    requires callable { F.IsAlwaysCallable moved.old }
    ensures place { (limit : ℕ) (front : List Block) (b : Block) (rest back : List Block)
        → IsPlaceIn T.cells store.old limit first
        (record { before = front; block = b; after = rest ++ back })
        → last_or None (b ∷ rest) ≡ Some end
        → AreInBins (front ++ b ∷ (rest ++ back)) (bins_of T.cells T.Index.MAX store.old)
        → (name : ℕ) × (left : List ℕ)
        × IsTaken (length (front ++ b ∷ (rest ++ back))) (unused_of T.cells store.old) name left
        × IsPlaceIn T.cells store.new limit name (record {
          before = front ++ stepped step (b ∷ rest);
          block = free_block name (given_up step (b ∷ rest));
          after = back;
        })
        × (unused_of T.cells store.new ≡ left ++ names_of (used_up step (b ∷ rest)))
        × (bins_of T.cells T.Index.MAX store.new ≡ push (down (given_up step (b ∷ rest))) name
        (push_all (stepped step (b ∷ rest)) (remove_all (b ∷ rest) (bins_of T.cells T.Index.MAX store.old))))
        × AreInBins ((front ++ stepped step (b ∷ rest)) ++ back)
        (push_all (stepped step (b ∷ rest)) (remove_all (b ∷ rest) (bins_of T.cells T.Index.MAX store.old)))
        × FoldsTo (IsCalledWith T.Index.NonMax.number (λ f range g. F.step f range tt g)) moved.old
        (moves_by step (units front) (units front) (b ∷ rest)) moved.new
        × (store.new.accesses + 11 * count_used (b ∷ rest)
        ≤ store.old.accesses + 18 * length (b ∷ rest) + 36) }
    ensures binned { AreBinned T.cells T.Index.MAX store.new }
    ensures callable { F.IsAlwaysCallable moved.new }
    ensures accesses_min { store.old.accesses ≤ store.new.accesses }
{
    ensure_spare(
        &mut store.tables,
        &mut store.spare_count,
        &mut store.accesses,
    );
    let name = chain::split_before(store, first, 0);
    let hole = to_front(store, name, 0, Some(end), step, true, moved);
    bins::push(store, hole.name, uint_to_float_round_down(hole.size));
}
