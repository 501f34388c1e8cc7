//! Laws: that a grant can be undone, and what holds of every allocator. Except `undo` and `unused_nodes`,
//! their functions do nothing. With them are the calls that leave an allocator as it is, with a count of
//! their accesses.
ghost use Rattle.std.specs.Prelude.{◌≡◌, ◌≢◌, ◌<◌, ◌≤◌, ◌+◌, ◌-◌, ◌*◌, ◌%◌, ◌↔◌, ℕ, List, ◌++◌, false, ◌∷◌};
ghost use Rattle.std.specs.Prelude.{[], Bool, IsTrue, true, None, Option, Some, length, min, reverse, sum};
ghost use Rattle.std.specs.List.{AllByRecursion};
ghost use Rattle.offset_allocator.specs.Accesses.{Costs};
ghost use Rattle.offset_allocator.specs.AtOffset.{AllocatesAt, IsFreeAt, in_the_way};
ghost use Rattle.offset_allocator.specs.Reporting.Walking.{AreOfLive, IsWalk, first_live, last_live};
ghost use Rattle.offset_allocator.specs.Reporting.Walking.{live_after, live_before, live_handles};
ghost use Rattle.offset_allocator.specs.Classes.{value, up, down};
ghost use Rattle.offset_allocator.specs.View.{View, AreNames, Block, Handle, IsWellFormed, free_block, free_sizes};
ghost use Rattle.offset_allocator.specs.View.{reported_free};
ghost use Rattle.offset_allocator.specs.View.{reported_largest, padding_to, units, count_used, used_units};
ghost use Rattle.offset_allocator.specs.Ranges.{Range, range_of, AreDisjoint};
ghost use Rattle.offset_allocator.specs.Relations.{SameSpace, SameState, Aligns, Allocates, Extends, Frees};
ghost use Rattle.offset_allocator.specs.Relations.{IsFresh, IsRaised, Resets, SameUnder};
ghost use Rattle.offset_allocator.specs.Moving.Relocating.{Relocates, RelocatesAligned};
ghost use Rattle.offset_allocator.specs.Requests.{CanGrant, AdmitsBlocks, IsWhy, blocks_needed};
ghost use Rattle.offset_allocator.specs.Reporting.Reports.{IsReport};
ghost use Rattle.offset_allocator.specs.Resizing.{Grows, Shrinks};
ghost use Rattle.offset_allocator.specs.Moving.Retracting.{Retracts};
ghost use Rattle.offset_allocator.specs.Saving.State.{IsStateOf};
ghost use Rattle.offset_allocator.specs.Reporting.Statistics.{AreStatistics};
ghost use Rattle.offset_allocator.specs.Tight.{AlignsTight, CanHold, IsWhyTight};
ghost use Rattle.offset_allocator.specs.declared.reports.StorageReport.{StorageReport};
ghost use Rattle.offset_allocator.specs.declared.reports.statistics.Statistics.{Statistics};
ghost use Rattle.offset_allocator.specs.declared.reports.Refusal.{Refusal};
ghost use Rattle.offset_allocator.specs.declared.reports.Refusal.TheVariants.{TooLarge, Space, Fragmented};
ghost use Rattle.offset_allocator.specs.declared.moves.room.RoomCost.{RoomCost};
ghost use Rattle.offset_allocator.specs.declared.moves.over_frames.Progress.{Progress};
ghost use Rattle.offset_allocator.specs.Moving.Budget.{CompactsWithin, SlidesWithin, first_from};
ghost use Rattle.offset_allocator.specs.Moving.BySteps.{CompactsBy, given_up, moves_by, run_by};
ghost use Rattle.offset_allocator.specs.Moving.Room.{IsLeastCost, MakesRoom, ranges_of};
ghost use Rattle.offset_allocator.specs.Moving.RoomBySteps.{IsLeastCostBy, MakesRoomBy, names_short};
ghost use Rattle.offset_allocator.specs.Moving.Compacting.{moves, AreBetween, AreSafe, Compacts, Move};
ghost use Rattle.offset_allocator.specs.Moving.Passes.{IsPass, nameless};
ghost use Rattle.offset_allocator.specs.Moving.Pieces.{pieces, copied, all_copied, ArePieces};

use crate::AllocatorOf;
use crate::accesses::Accesses;
pub use crate::at_offset::{in_the_way_counted, is_free_at_counted};
pub use crate::moves::compact_cost::compact_cost_by_counted;
pub use crate::moves::room::room_cost_counted;
pub use crate::moves::room_by_steps::room_cost_by_counted;
pub use crate::reports::beginning::would_begin_counted;
pub use crate::reports::blocks::next_block_counted;
pub use crate::reports::statistics::{
    is_empty_counted, largest_region_counted, statistics_counted,
};
pub use crate::reports::walks::{
    first_live_counted, last_live_counted, live_after_counted, live_before_counted,
};
pub use crate::reports::{
    allocation_offset_counted, allocation_size_counted, is_live_counted, refusal_aligned_counted,
    refusal_counted, storage_report_counted, storage_report_full_counted,
};
use crate::store::Store;
use crate::tables::Tables;
pub use crate::tight::{
    has_block_for_counted, refusal_tight_aligned_counted, refusal_tight_counted,
};

/// Grants a request for `n` units and frees the grant at once. The blocks, their names and the bins are then
/// as they were. It is `false` where the request was refused.
///
/// The contract says this of each grant that a request for `n` can have here, whichever unused name its
/// remainder takes. The count of accesses grows by at most 192.
pub fn undo<T: Tables>(allocator: &mut AllocatorOf<T>, n: u32) -> bool
    ensures undone { (w u : View) (g : Handle) → Allocates n allocator.old w (Some g) → Frees g.name w u
        → SameSpace allocator.old u }
    ensures same { SameSpace allocator.old allocator.new }
    ensures granted { IsTrue result ↔ CanGrant 1 n allocator.old }
    ensures accesses { Costs 0 192 allocator.old.accesses allocator.new.accesses }
    ensures accesses_min { IsTrue result → allocator.old.accesses + 16 ≤ allocator.new.accesses }
{
    allocator.formed();
    match allocator.allocate(n) {
        None => false,
        Some(allocation) => {
            allocator.free(allocation);
            true
        }
    }
}

/// The blocks fill the space, no two free ones side by side, and each bin holds the free blocks of its class.
///
/// Lemmas over the definitions ask for this, such as `taken_back` of `proofs/Views/ViewUndo.antt`.
pub fn is_well_formed<T: Tables>(allocator: &AllocatorOf<T>)
    ensures { IsWellFormed allocator.now }
{
    allocator.formed();
}

/// The number of nodes that no block has, made or not: one more than the number of blocks that may still be
/// added.
///
/// An allocator has no other fields than these: one set of tables, and numbers. The patterns name each with
/// its type, so a second list of blocks would not compile.
pub fn unused_nodes<T: Tables>(allocator: &AllocatorOf<T>) -> u32
    ensures { result + length allocator.now.blocks ≡ allocator.now.max_allocs }
{
    let AllocatorOf {
        size,
        max_allocs,
        free_total,
        store,
    } = allocator;
    let Store {
        tables,
        top_mask,
        last,
        spare_count,
        accesses,
    } = store;
    let _size: &u32 = size;
    let _max_allocs: &u32 = max_allocs;
    let _free_total: &u32 = free_total;
    let _top_mask: &u32 = top_mask;
    let _last: &u32 = last;
    let _spare_count: &u32 = spare_count;
    let _tables: &T = tables;
    let _accesses: &Accesses = accesses;
    allocator.unused_nodes()
}

/// The units of the used and of the free blocks add up to the size of the space.
pub fn sizes_add_up<T: Tables>(allocator: &AllocatorOf<T>)
    ensures { used_units allocator.now.blocks + sum (free_sizes allocator.now.blocks) ≡ allocator.now.size }
{
    allocator.formed();
}

/// How the numbers of `statistics` belong together. The units add up to the size, and the blocks with the
/// unused nodes to the node limit. The largest region is the value of a class, so at most the largest free
/// block, of which it is at least 8/9. With room for one more block a report has the same two numbers.
pub fn statistics_belong_together<T: Tables>(allocator: &AllocatorOf<T>)
    ensures units { (s : Statistics) → AreStatistics s allocator.now
        → s.live_units + s.free_units ≡ allocator.now.size }
    ensures nodes { (s : Statistics) → AreStatistics s allocator.now
        → s.live_ranges + s.free_blocks + s.unused_nodes ≡ allocator.now.max_allocs }
    ensures largest { (s : Statistics) → AreStatistics s allocator.now
        → (s.largest_free_region ≤ s.largest_free_block) × (s.largest_free_block ≤ s.free_units)
        × (8 * s.largest_free_block ≤ 9 * s.largest_free_region) }
    ensures few { (s : Statistics) → AreStatistics s allocator.now → s.free_blocks ≤ s.live_ranges + 1 }
    ensures report { (s : Statistics) (r : StorageReport) → AreStatistics s allocator.now
        → IsReport r allocator.now
        → AdmitsBlocks 1 allocator.now
        → (r.total_free_space ≡ s.free_units) × (r.largest_free_region ≡ s.largest_free_region) }
{
    allocator.formed();
}

/// The live ranges lie in the space, and no two of them have a unit in common.
pub fn ranges_are_disjoint<T: Tables>(allocator: &AllocatorOf<T>)
    ensures within { (x : ℕ) (r : Range) → range_of x allocator.now ≡ Some r → r.offset + r.size
        ≤ allocator.now.size }
    ensures disjoint { (x y : ℕ) (r s : Range) → x ≢ y
        → range_of x allocator.now ≡ Some r → range_of y allocator.now ≡ Some s → AreDisjoint r s }
{
    allocator.formed();
}

/// Between two live ranges, and at each end of the space, there is at most one free block.
pub fn no_free_neighbours<T: Tables>(allocator: &AllocatorOf<T>)
    ensures { (before run after : List Block) → allocator.now.blocks ≡ before ++ (run ++ after)
        → AllByRecursion (λ b. b.used ≡ false) run → length run ≤ 1 }
{
    allocator.formed();
}

/// At most `max_allocs - 2` ranges are live.
pub fn few_are_live<T: Tables>(allocator: &AllocatorOf<T>)
    ensures { count_used allocator.now.blocks + 2 ≤ allocator.now.max_allocs }
{
    allocator.formed();
}

/// There is at most one free block more than there are live ranges. So with a limit of `2 * l + 2` there is
/// room for every request, aligned or not, while fewer than `l` ranges are live.
pub fn blocks_are_few<T: Tables>(allocator: &AllocatorOf<T>)
    ensures count { length allocator.now.blocks ≤ 2 * count_used allocator.now.blocks + 1 }
    ensures room { (l : ℕ) → count_used allocator.now.blocks < l → 2 * l + 2 ≤ allocator.now.max_allocs
        → AdmitsBlocks 2 allocator.now }
{
    allocator.formed();
}

/// Where `max_allocs - 1` blocks exist, every request is refused, and the report is 0 and 0.
pub fn a_full_space_refuses<T: Tables>(allocator: &AllocatorOf<T>)
    ensures refuses { (blocks units : ℕ) → 1 ≤ blocks → allocator.now.max_allocs ≤ length allocator.now.blocks
        + 1
        → CanGrant blocks units allocator.now → ⊥ }
    ensures reports { allocator.now.max_allocs ≤ length allocator.now.blocks + 1
        → (reported_free allocator.now ≡ 0) × (reported_largest allocator.now ≡ 0) }
{
    allocator.formed();
}

/// With a limit of at least 3, a fresh space grants a request exactly when it has at least as many units as
/// the value of the class that the request is rounded up to: those that `min_allocator_size` returns.
pub fn a_fresh_space_grants()
    ensures { (size max_allocs n : ℕ) (v : View) → IsFresh size max_allocs v → 3 ≤ max_allocs → size
        ≤ 4294967295
        → CanGrant 1 n v ↔ (value (up n) ≤ size) }
{}

/// The padding of an aligned grant takes its offset to a multiple of the alignment, and fewer units would
/// not.
pub fn padding_is_least()
    ensures reaches { (align offset : ℕ) → 1 ≤ align → (offset + padding_to align offset) % align ≡ 0 }
    ensures smallest { (align offset k : ℕ) → 1 ≤ align → (offset + k) % align ≡ 0 → padding_to align offset
        ≤ k }
{}

/// After `compact`, with room for one more block, a request of at least one unit is granted exactly when it
/// is at most the value of the class of all free units together.
pub fn a_compacted_space_grants<T: Tables>(allocator: &AllocatorOf<T>)
    ensures { (v : View) (n : ℕ) → 1 ≤ n → Compacts v allocator.now
        → CanGrant 1 n allocator.now
        ↔ (AdmitsBlocks 1 allocator.now × (n ≤ value (down (sum (free_sizes v.blocks))))) }
{
    allocator.formed();
}

/// After `compact_by` returned `true`, no free block but the last one has a step. Where a free block before another
/// block had one before, the last block is free then, and has all that was given up, at least a step; and with room for
/// one more block, a request of at least one unit is granted exactly when it is at most the value of its class.
pub fn a_space_compacted_by_steps_grants<T: Tables>(allocator: &AllocatorOf<T>)
    ensures few { (s : ℕ) (v : View) (front : List Block) (last : Block) → 1 ≤ s
        → CompactsBy s v allocator.now true → allocator.now.blocks ≡ front ++ last ∷ []
        → AllByRecursion (λ b. b.used ≡ false → b.size < s) front }
    ensures last { (s : ℕ) (v : View) → 1 ≤ s → run_by s v.blocks ≢ [] → CompactsBy s v allocator.now true
        → (front : List Block) × (x : ℕ)
        × (allocator.now.blocks ≡ front ++ free_block x (given_up s (run_by s v.blocks)) ∷ [])
        × (s ≤ given_up s (run_by s v.blocks)) }
    ensures granted { (s n : ℕ) (v : View) → 1 ≤ s → 1 ≤ n → run_by s v.blocks ≢ []
        → CompactsBy s v allocator.now true
        → CanGrant 1 n allocator.now
        ↔ (AdmitsBlocks 1 allocator.now × (n ≤ value (down (given_up s (run_by s v.blocks))))) }
{
    allocator.formed();
}

/// Of the requests that are refused though there is room for the blocks that they need, those are refused as
/// `Fragmented` that would be granted after `compact`, and those as `TooLarge` that a fresh space of this
/// size and limit would refuse. A request that is granted has no reason, and none has two.
pub fn refusals_advise<T: Tables>(allocator: &AllocatorOf<T>)
    ensures compacted { (blocks units : ℕ) (v : View) → AdmitsBlocks blocks allocator.now
        → (CanGrant blocks units allocator.now → ⊥) → Compacts allocator.now v
        → IsWhy blocks units allocator.now Fragmented ↔ CanGrant blocks units v }
    ensures fresh { (blocks units : ℕ) (v : View) → AdmitsBlocks blocks allocator.now
        → IsFresh allocator.now.size allocator.now.max_allocs v
        → IsWhy blocks units allocator.now TooLarge ↔ (CanGrant blocks units v → ⊥) }
    ensures one { (blocks units : ℕ) (r s : Refusal) → IsWhy blocks units allocator.now r
        → IsWhy blocks units allocator.now s → r ≡ s }
    ensures none { (blocks units : ℕ) (r : Refusal) → IsWhy blocks units allocator.now r
        → CanGrant blocks units allocator.now → ⊥ }
{
    allocator.formed();
}

/// What `room_cost` returns, and `make_room` moves, beside the reason of a refusal: nothing where the request
/// is granted; at least one range where it is refused as `Fragmented`, after which move it is granted; and
/// `None` where it is refused as `Space` or `TooLarge`: then nothing moves.
pub fn room_is_advised<T: Tables>(allocator: &AllocatorOf<T>)
    ensures granted { (n : ℕ) (c : Option RoomCost) → CanGrant 1 n allocator.now
        → IsLeastCost (value (up n)) allocator.now.blocks c → c ≡ Some (record { units = 0; ranges = 0 }) }
    ensures fragmented { (n : ℕ) (c : Option RoomCost) → IsWhy 1 n allocator.now Fragmented
        → IsLeastCost (value (up n)) allocator.now.blocks c → 1 ≤ ranges_of c }
    ensures space { (n : ℕ) (c : Option RoomCost) → IsWhy 1 n allocator.now Space
        → IsLeastCost (value (up n)) allocator.now.blocks c → c ≡ None }
    ensures large { (n : ℕ) (c : Option RoomCost) → IsWhy 1 n allocator.now TooLarge
        → IsLeastCost (value (up n)) allocator.now.blocks c → c ≡ None }
{
    allocator.formed();
}

/// Of the tight requests that are refused though there is room for one more block, those without alignment
/// are refused as `Fragmented` that would be granted after `compact`, and those as `TooLarge` that a fresh
/// space of this size and limit would refuse. A request that is granted, aligned or not, has no reason, and
/// none has two.
pub fn tight_refusals_advise<T: Tables>(allocator: &AllocatorOf<T>)
    ensures compacted { (n : ℕ) (v : View) → AdmitsBlocks 1 allocator.now → Compacts allocator.now v
        → (CanHold n 1 allocator.now → ⊥) → IsWhyTight n 1 allocator.now Fragmented ↔ CanHold n 1 v }
    ensures fresh { (n : ℕ) (v : View) → AdmitsBlocks 1 allocator.now
        → IsFresh allocator.now.size allocator.now.max_allocs v
        → IsWhyTight n 1 allocator.now TooLarge ↔ (CanHold n 1 v → ⊥) }
    ensures one { (n align : ℕ) (r s : Refusal) → IsWhyTight n align allocator.now r
        → IsWhyTight n align allocator.now s → r ≡ s }
    ensures none { (n align : ℕ) (r : Refusal) → IsWhyTight n align allocator.now r
        → CanHold n align allocator.now → ⊥ }
{
    allocator.formed();
}

/// From `first_live` on, `live_after` meets the live ranges in space order, each once, and ends; and so does
/// `live_before` from `last_live` on, in the opposite order.
pub fn each_live_range_is_met_once<T: Tables>(allocator: &AllocatorOf<T>)
    ensures forward { IsWalk (λ x. live_after x allocator.now) (first_live allocator.now)
        (live_handles allocator.now) }
    ensures backward { IsWalk (λ x. live_before x allocator.now) (last_live allocator.now)
        (reverse (live_handles allocator.now)) }
    ensures all { AreOfLive (live_handles allocator.now) allocator.now }
{
    allocator.formed();
}

/// Of units that lie in the space, one at least, either a free block holds them all, or a live range is in the
/// way.
pub fn units_are_free_or_in_the_way<T: Tables>(allocator: &AllocatorOf<T>)
    ensures { (offset n : ℕ) → 1 ≤ n → offset + n ≤ allocator.now.size
        → IsFreeAt offset n allocator.now ↔ (in_the_way offset n allocator.now ≡ None) }
{
    allocator.formed();
}

/// Each move of `compact`, and of the run of blocks that `make_room` slides, goes to a smaller offset, and ends
/// before all units that later moves have yet to read. It lies in the run, and so in the space.
pub fn moves_are_safe()
    ensures compact { (bs : List Block) → AreSafe (moves 0 0 bs) }
    ensures within { (v : View) → IsWellFormed v → AreBetween 0 v.size (moves 0 0 v.blocks) }
    ensures make_room { (front run : List Block) → AreSafe (moves (units front) (units front) run) }
    ensures make_room_within { (v : View) (front run back : List Block) → IsWellFormed v
        → v.blocks ≡ front ++ (run ++ back)
        → AreBetween (units front) (units (front ++ run)) (moves (units front) (units front) run)
        × (units (front ++ run) ≤ v.size) }
{}

/// Each move of `compact_by`, and of the run of blocks that `make_room_by` or `compact_within` slides, goes to a
/// smaller offset by a multiple of the step, and ends before all units that later moves have yet to read. It lies in the run, and
/// so in the space. So a range keeps its alignment where that divides the step.
pub fn moves_by_steps_are_safe()
    ensures safe { (step : ℕ) (bs : List Block) → AreSafe (moves_by step 0 0 bs) }
    ensures within { (step : ℕ) (v : View) → IsWellFormed v
        → AreBetween 0 v.size (moves_by step 0 0 v.blocks) }
    ensures steps { (step : ℕ) (bs : List Block)
        → AllByRecursion (λ m. m.from % step ≡ m.to % step) (moves_by step 0 0 bs) }
    ensures aligned { (align k : ℕ) (bs : List Block)
        → AllByRecursion (λ m. m.from % align ≡ m.to % align) (moves_by (k * align) 0 0 bs) }
    ensures make_room_by { (step : ℕ) (front run : List Block)
        → AreSafe (moves_by step (units front) (units front) run) }
    ensures make_room_by_within { (step : ℕ) (v : View) (front run back : List Block) → IsWellFormed v
        → v.blocks ≡ front ++ (run ++ back)
        → AreBetween (units front) (units (front ++ run)) (moves_by step (units front) (units front) run)
        × (units (front ++ run) ≤ v.size) }
    ensures make_room_by_steps { (step : ℕ) (front run : List Block)
        → AllByRecursion (λ m. m.from % step ≡ m.to % step)
        (moves_by step (units front) (units front) run) }
    ensures make_room_by_aligned { (align k : ℕ) (front run : List Block)
        → AllByRecursion (λ m. m.from % align ≡ m.to % align)
        (moves_by (k * align) (units front) (units front) run) }
{}

/// By steps of one unit `compact_by` and `compact_within` are never refused, as `compact` is not: each free block that
/// slides is used up, and gives its node back.
pub fn steps_of_one_unit_are_done()
    ensures compact_by { (v w : View) → CompactsBy 1 v w false → ⊥ }
    ensures compact_within { (from u n : ℕ) (v w : View) (ms : List Move) → IsWellFormed v
        → CompactsWithin (λ ns m os. os ≡ ns ++ m ∷ []) 1 from u n v [] None w ms → ⊥ }
{}

/// Where a call of `compact_within` came to `next`, one that goes on from there without requests between does something,
/// and slides the blocks that the first one left behind what moved, and no other. At least one of their ranges moves. So
/// no range moves twice in a pass, and it ends.
pub fn a_pass_comes_further()
    ensures more { (s from u r o : ℕ) (v w : View) (p : Progress) → 1 ≤ s → IsWellFormed v → IsWellFormed w
        → SlidesWithin s from u r v w p → p.next ≡ Some o → first_from s o 0 w.blocks ≢ None }
    ensures behind { (s from u r o n m : ℕ) (v w x : View) (p q : Progress) → 1 ≤ s
        → IsWellFormed v → IsWellFormed w → (k : SlidesWithin s from u r v w p) → p.next ≡ Some o
        → (l : SlidesWithin s o n m w x q)
        → (k.back ≡ l.rest ++ l.back) × (1 ≤ q.ranges) × (count_used l.back + q.ranges ≡ count_used k.back) }
{}

/// A pass of `compact_within` from 0 on, each call from the `next` of the one before it, with any budgets and without
/// requests between, leaves what `compact_by` of the same step leaves: the same ranges at the same offsets, and between
/// them free blocks of the same sizes. Only the names of these may be others.
pub fn a_pass_compacts()
    ensures { (s : ℕ) (v w x : View) → 1 ≤ s → IsWellFormed v → IsPass s 0 v w → CompactsBy s v x true
        → nameless w.blocks ≡ nameless x.blocks }
{}

/// The pieces of a move, copied one after the other, leave what the move at once leaves, whatever the units
/// hold. Each has at most `most` units and none in common with those that it reads, and is written on none
/// that a later one reads.
pub fn pieces_are_the_move()
    ensures together { (most from to n i : ℕ) (held : ℕ → ℕ) → 0 < most → to < from
        → all_copied (pieces n (min most (from - to)) from to n) held i
        ≡ copied (record { from = from; to = to; size = n }) held i }
    ensures apart { (most from to n : ℕ) → 0 < most → to < from
        → ArePieces most (pieces n (min most (from - to)) from to n) }
{}

/// Bytes are those of a state of one view at most, with its unused names, however many accesses were
/// counted; a view has one list of bytes; and those of this allocator are refused by no `read_state` that
/// admits its node limit. So `read_state` of what `write_state` returned is the same space.
pub fn a_state_is_read_back<T: Tables>(allocator: &AllocatorOf<T>)
    ensures one { (v w : View) (bytes : List ℕ) → IsWellFormed v → IsWellFormed w
        → IsStateOf v bytes → IsStateOf w bytes → SameState v w }
    ensures bytes { (v : View) (a b : List ℕ) → AllByRecursion (λ x. x < 256) a
        → AllByRecursion (λ x. x < 256) b → IsStateOf v a → IsStateOf v b → a ≡ b }
    ensures formed { IsWellFormed allocator.now }
    ensures names { AreNames allocator.now }
    ensures admitted { allocator.now.max_allocs + 1 < T.Index.MAX }
{
    allocator.formed();
    // a look at a field recalls the invariant
    let _ = &allocator.size;
}

/// A view and a call decide the result, and the view that is left: in the same state, however many accesses
/// were counted, a call returns the same, handles included, and leaves the same state. So a copy, and a space
/// that was read back from its bytes, continue as the first one does.
pub fn a_state_decides_each_step()
    ensures allocate { (n : ℕ) (v v' w w' : View) → IsWellFormed v → SameState v v'
        → (r r' : Option Handle) → Allocates n v w r → Allocates n v' w' r' → (r ≡ r') × SameState w w' }
    ensures allocate_aligned { (n align : ℕ) (v v' w w' : View) → IsWellFormed v → SameState v v'
        → (r r' : Option Handle) → Aligns n align v w r → Aligns n align v' w' r' → (r ≡ r') × SameState w w' }
    ensures allocate_tight { (n align : ℕ) (v v' w w' : View) → IsWellFormed v → SameState v v'
        → (r r' : Option Handle) → AlignsTight n align v w r → AlignsTight n align v' w' r'
        → (r ≡ r') × SameState w w' }
    ensures allocate_at { (offset n : ℕ) (v v' w w' : View) → IsWellFormed v → SameState v v'
        → (r r' : Option Handle) → AllocatesAt offset n v w r → AllocatesAt offset n v' w' r'
        → (r ≡ r') × SameState w w' }
    ensures relocate { (x : ℕ) (v v' w w' : View) → IsWellFormed v → SameState v v'
        → (r r' : Option Handle) → Relocates x v w r → Relocates x v' w' r' → (r ≡ r') × SameState w w' }
    ensures relocate_aligned { (x align : ℕ) (v v' w w' : View) → 1 ≤ align → IsWellFormed v → SameState v v'
        → (r r' : Option Handle) → RelocatesAligned x align v w r → RelocatesAligned x align v' w' r'
        → (r ≡ r') × SameState w w' }
    ensures free { (x : ℕ) (v v' w w' : View) → IsWellFormed v → SameState v v' → Frees x v w → Frees x v' w'
        → SameState w w' }
    ensures reset { (v v' w w' : View) → IsWellFormed v → SameState v v' → Resets v w → Resets v' w'
        → SameState w w' }
    ensures extend { (more : ℕ) (v v' w w' : View) → IsWellFormed v → SameState v v'
        → (r r' : Bool) → Extends more v w r → Extends more v' w' r' → (r ≡ r') × SameState w w' }
    ensures retract { (less : ℕ) (v v' w w' : View) → SameState v v'
        → (r r' : Bool) → Retracts less v w r → Retracts less v' w' r' → (r ≡ r') × SameState w w' }
    ensures shrink { (x n : ℕ) (v v' w w' : View) → IsWellFormed v → SameState v v'
        → (r r' : Bool) → Shrinks x n v w r → Shrinks x n v' w' r' → (r ≡ r') × SameState w w' }
    ensures grow { (x n : ℕ) (v v' w w' : View) → IsWellFormed v → SameState v v'
        → (r r' : Bool) → Grows x n v w r → Grows x n v' w' r' → (r ≡ r') × SameState w w' }
    ensures compact { (v v' w w' : View) → SameState v v' → Compacts v w → Compacts v' w' → SameState w w' }
    ensures compact_by { (s : ℕ) (v v' w w' : View) → SameState v v'
        → (r r' : Bool) → CompactsBy s v w r → CompactsBy s v' w' r' → (r ≡ r') × SameState w w' }
    ensures room_cost { (want : ℕ) (bs : List Block) (r r' : Option RoomCost) → IsLeastCost want bs r
        → IsLeastCost want bs r' → r ≡ r' }
    ensures room_cost_by { (s want short : ℕ) (bs : List Block) (r r' : Option RoomCost)
        → IsLeastCostBy s want short bs r → IsLeastCostBy s want short bs r' → r ≡ r' }
    // the moves too, each noted after those before it
    ensures make_room { (want : ℕ) (v v' w w' : View) → IsWellFormed v → SameState v v'
        → (r r' : Option RoomCost) (ms ms' : List Move)
        → IsLeastCost want v.blocks r → IsLeastCost want v'.blocks r'
        → MakesRoom (λ ns m os. os ≡ ns ++ m ∷ []) want v [] r w ms
        → MakesRoom (λ ns m os. os ≡ ns ++ m ∷ []) want v' [] r' w' ms'
        → (r ≡ r') × (ms ≡ ms') × SameState w w' }
    ensures make_room_by { (s want k : ℕ) (v v' w w' : View) → IsWellFormed v → SameState v v'
        → (r r' : Option RoomCost) (ms ms' : List Move)
        → IsLeastCostBy s want (names_short k v) v.blocks r
        → IsLeastCostBy s want (names_short k v') v'.blocks r'
        → MakesRoomBy (λ ns m os. os ≡ ns ++ m ∷ []) s want (names_short k v) v [] r w ms
        → MakesRoomBy (λ ns m os. os ≡ ns ++ m ∷ []) s want (names_short k v') v' [] r' w' ms'
        → (r ≡ r') × (ms ≡ ms') × SameState w w' }
    ensures compact_within { (s from u n : ℕ) (v v' w w' : View) → IsWellFormed v → SameState v v'
        → (r r' : Option Progress) (ms ms' : List Move)
        → CompactsWithin (λ ns m os. os ≡ ns ++ m ∷ []) s from u n v [] r w ms
        → CompactsWithin (λ ns m os. os ≡ ns ++ m ∷ []) s from u n v' [] r' w' ms'
        → (r ≡ r') × (ms ≡ ms') × SameState w w' }
{}

/// Each of these calls, in a space and in the same one under a larger limit, returns the same, handles included,
/// and leaves the same state under that limit, where the first space has room for the blocks that the call may
/// add. So by them a space that `raised` returned continues as the first one would, as long as that one would
/// refuse nothing for nodes. Nothing is said of reports, which count unused nodes, of slides by whole steps, which
/// look at them, nor of `make_room`. A fresh space becomes the one that `with_max_allocs` makes with the larger limit.
pub fn a_raised_limit_changes_no_answer()
    ensures fresh { (size m limit : ℕ) (v w : View) → m ≤ limit → IsFresh size m v → IsRaised limit v w
        → IsFresh size limit w }
    ensures raised { (limit : ℕ) (v w : View) → IsRaised limit v w → SameUnder limit v w }
    ensures allocate { (limit n : ℕ) (v v' w w' : View) → IsWellFormed v → v.max_allocs ≤ limit
        → SameUnder limit v v' → AdmitsBlocks 1 v → (r r' : Option Handle)
        → Allocates n v w r → Allocates n v' w' r' → (r ≡ r') × SameUnder limit w w' }
    ensures allocate_aligned { (limit n align : ℕ) (v v' w w' : View) → IsWellFormed v
        → v.max_allocs ≤ limit → SameUnder limit v v' → AdmitsBlocks (blocks_needed align) v
        → (r r' : Option Handle) → Aligns n align v w r → Aligns n align v' w' r'
        → (r ≡ r') × SameUnder limit w w' }
    ensures allocate_tight { (limit n align : ℕ) (v v' w w' : View) → IsWellFormed v
        → v.max_allocs ≤ limit → SameUnder limit v v' → AdmitsBlocks (blocks_needed align) v
        → (r r' : Option Handle) → AlignsTight n align v w r → AlignsTight n align v' w' r'
        → (r ≡ r') × SameUnder limit w w' }
    ensures relocate { (limit x : ℕ) (v v' w w' : View) → IsWellFormed v → v.max_allocs ≤ limit
        → SameUnder limit v v' → AdmitsBlocks 1 v → (r r' : Option Handle)
        → Relocates x v w r → Relocates x v' w' r' → (r ≡ r') × SameUnder limit w w' }
    ensures relocate_aligned { (limit x align : ℕ) (v v' w w' : View) → 1 ≤ align → IsWellFormed v
        → v.max_allocs ≤ limit → SameUnder limit v v' → AdmitsBlocks (blocks_needed align) v
        → (r r' : Option Handle) → RelocatesAligned x align v w r → RelocatesAligned x align v' w' r'
        → (r ≡ r') × SameUnder limit w w' }
    // at most two blocks are added
    ensures allocate_at { (limit offset n : ℕ) (v v' w w' : View) → IsWellFormed v → v.max_allocs ≤ limit
        → SameUnder limit v v' → AdmitsBlocks 2 v → (r r' : Option Handle)
        → AllocatesAt offset n v w r → AllocatesAt offset n v' w' r' → (r ≡ r') × SameUnder limit w w' }
    ensures free { (limit x : ℕ) (v v' w w' : View) → IsWellFormed v → v.max_allocs ≤ limit
        → SameUnder limit v v' → Frees x v w → Frees x v' w' → SameUnder limit w w' }
    ensures reset { (limit : ℕ) (v v' w w' : View) → IsWellFormed v → v.max_allocs ≤ limit
        → SameUnder limit v v' → Resets v w → Resets v' w' → SameUnder limit w w' }
    ensures extend { (limit more : ℕ) (v v' w w' : View) → IsWellFormed v → v.max_allocs ≤ limit
        → SameUnder limit v v' → AdmitsBlocks 1 v → (r r' : Bool)
        → Extends more v w r → Extends more v' w' r' → (r ≡ r') × SameUnder limit w w' }
    ensures retract { (limit less : ℕ) (v v' w w' : View) → IsWellFormed v → v.max_allocs ≤ limit
        → SameUnder limit v v' → (r r' : Bool)
        → Retracts less v w r → Retracts less v' w' r' → (r ≡ r') × SameUnder limit w w' }
    ensures shrink { (limit x n : ℕ) (v v' w w' : View) → IsWellFormed v → v.max_allocs ≤ limit
        → SameUnder limit v v' → AdmitsBlocks 1 v → (r r' : Bool)
        → Shrinks x n v w r → Shrinks x n v' w' r' → (r ≡ r') × SameUnder limit w w' }
    ensures grow { (limit x n : ℕ) (v v' w w' : View) → IsWellFormed v → v.max_allocs ≤ limit
        → SameUnder limit v v' → (r r' : Bool)
        → Grows x n v w r → Grows x n v' w' r' → (r ≡ r') × SameUnder limit w w' }
    ensures compact { (limit : ℕ) (v v' w w' : View) → IsWellFormed v → v.max_allocs ≤ limit
        → SameUnder limit v v' → Compacts v w → Compacts v' w' → SameUnder limit w w' }
{}
