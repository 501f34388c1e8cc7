//! What a compaction by whole steps would copy, and what would be granted after it. It reads the tables, and changes
//! nothing.
ghost use Rattle.std.specs.Prelude.{ℕ, ◌≡◌, ◌≢◌, ◌↔◌, ◌+◌, ◌-◌, ◌*◌, ◌<◌, ◌≤◌, ◌^◌, ◌⊎◌, List, [], ◌++◌, None, Some};
ghost use Rattle.std.specs.Prelude.{Bool, IfSome, IsTrue, true, false, length, if◌then◌else◌};
ghost use Rattle.offset_allocator.specs.Accesses.{Costs};
ghost use Rattle.offset_allocator.specs.Chain.{IsSpace, blocks, first_or};
ghost use Rattle.offset_allocator.specs.Moving.BySteps.{CanFollow, CompactsBy, given_up, run_by, used_up};
ghost use Rattle.offset_allocator.specs.Requests.{AdmitsBlocks, CanGrant};
ghost use Rattle.offset_allocator.specs.View.{View, Block, IsWellFormed, count_used, one, used_units};

use crate::accesses::Accesses;
use crate::index::linked;
use crate::moves::over_frames::first_from;
use crate::moves::slide::kept;
use crate::reports::statistics::largest_region_counted;
use crate::small_float::{float_to_uint, uint_to_float_round_down};
use crate::tables::Tables;
use crate::{AllocatorOf, chain};

/// What a compaction by whole steps would copy, and what would be granted after it.
#[derive(Clone, Copy, PartialEq, Debug)]
pub struct CompactCost {
    /// The units of the ranges that would move.
    pub units: u32,
    /// How many ranges would move, those of no units too.
    pub ranges: u32,
    /// The largest request that would be granted then, where the node limit admits one block more.
    pub largest: u32,
}

// Neighbouring blocks that would slide: the units of their ranges, and how many these are, the units that the free ones
// give up, and whether one of these gives up all.
#[derive(Clone, Copy)]
struct Totals {
    units: u32,
    ranges: u32,
    given: u32,
    empties: bool,
}

impl Totals {
    // With one more block, which keeps so many units where it is free.
    fn and(self, size: u32, used: bool, keep: u32) -> Self
        requires keep { keep ≤ size }
        requires fits { (self.units + (if used then size else 0) < 2 ^ 32) × (self.ranges + one used < 2 ^ 32)
            × (self.given + (if used then 0 else size - keep) < 2 ^ 32) }
        ensures units { result.units ≡ self.units + (if used then size else 0) }
        ensures ranges { result.ranges ≡ self.ranges + one used }
        ensures given { result.given ≡ self.given + (if used then 0 else size - keep) }
        ensures empties { IsTrue result.empties ↔ (IsTrue self.empties ⊎ ((used ≡ false) × (keep ≡ 0))) }
    {
        if used {
            Totals {
                units: self.units + size,
                ranges: self.ranges + 1,
                ..self
            }
        } else {
            Totals {
                given: self.given + (size - keep),
                empties: self.empties || keep == 0,
                ..self
            }
        }
    }
}

// These of the blocks from the one of a name on, to the end of the space.
fn sums_from<T: Tables>(tables: &T, first: u32, step: u32, count: &mut Accesses) -> Totals
    requires some { 1 ≤ step }
    requires place { (last spare : ℕ) × (front run : List Block) × IsSpace (T.cells tables.now).chain last spare
        × (blocks (T.cells tables.now).chain last ≡ front ++ run) × (first_or None run ≡ Some first) }
    ensures sums { (last spare : ℕ) (front run : List Block) → IsSpace (T.cells tables.now).chain last spare
        → blocks (T.cells tables.now).chain last ≡ front ++ run → first_or None run ≡ Some first
        → (result.units ≡ used_units run) × (result.ranges ≡ count_used run)
        × (result.given ≡ given_up step run) × (IsTrue result.empties ↔ (used_up step run ≢ []))
        × (count.old ≤ count.new) × (count.new ≤ count.old + 3 * length run) }
{
    tables.shape();
    let mut sums = Totals {
        units: 0,
        ranges: 0,
        given: 0,
        empties: false,
    };
    let mut at = Some(first);
    while let Some(name) = at {
        let size = tables.size(name, count);
        let used = chain::is_used(tables, name, count);
        at = linked(tables.after(name, count));
        sums = sums.and(size, used, kept(size, step, at));
    }
    sums
}

/// As `compact_cost_by` of `Allocator`. The count grows by at most 7 for each block, and 8.
pub fn compact_cost_by_counted<T: Tables>(
    allocator: &AllocatorOf<T>,
    step: u32,
    count: &mut Accesses,
) -> Option<CompactCost>
    requires some { 1 ≤ step }
    ensures none { result ≡ None ↔ ((run_by step allocator.now.blocks ≢ [])
        × (CanFollow step allocator.now (run_by step allocator.now.blocks) → ⊥)) }
    ensures units { IfSome result (λ c. c.units ≡ used_units (run_by step allocator.now.blocks)) }
    ensures ranges { IfSome result (λ c. c.ranges ≡ count_used (run_by step allocator.now.blocks)) }
    ensures granted { IfSome result (λ c. (n : ℕ) (w : View) → 1 ≤ n → IsWellFormed w
        → CompactsBy step allocator.now w true → CanGrant 1 n w ↔ (AdmitsBlocks 1 w × (n ≤ c.largest))) }
    ensures accesses { Costs 0 (7 * length allocator.now.blocks + 8) count.old count.new }
{
    allocator.formed();
    let tables = &allocator.store.tables;
    let Some(first) = first_from(tables, allocator.store.last, step, 0, count) else {
        return Some(CompactCost {
            units: 0,
            ranges: 0,
            largest: largest_region_counted(allocator, count),
        });
    };
    let sums = sums_from(tables, first, step, count);
    if !allocator.admits_blocks(1) && !sums.empties {
        return None;
    }
    Some(CompactCost {
        units: sums.units,
        ranges: sums.ranges,
        largest: float_to_uint(uint_to_float_round_down(sums.given)),
    })
}

impl<T: Tables> AllocatorOf<T> {
    /// What `compact_by(step, ..)` would copy now, and what would be granted after it, without moving anything: the
    /// units and the number of the ranges that would move, and the largest request. `None` is returned exactly where
    /// `compact_by` would return `false`. Ask it first where copies have a budget, or where one request has to be granted.
    ///
    /// The step has to be at least 1. It makes at most 7 accesses to the tables for each block, and 8.
    ///
    /// ```
    /// let hole = space.allocate(300).unwrap();
    /// space.allocate(100);
    /// space.free(hole);
    /// assert_eq!(space.compact_cost_by(1), Some(CompactCost { units: 100, ranges: 1, largest: 896 }));
    /// assert!(space.compact_by(1, &mut |_| {}));
    /// assert!(space.refusal(896).is_none() && space.refusal(897).is_some());
    /// ```
    pub fn compact_cost_by(&self, step: u32) -> Option<CompactCost>
        requires some { 1 ≤ step }
        // It is `None` exactly where the compaction would be refused.
        ensures none { result ≡ None ↔ ((run_by step self.now.blocks ≢ [])
            × (CanFollow step self.now (run_by step self.now.blocks) → ⊥)) }
        // The ranges that would move are those behind the first free block of at least a step.
        ensures units { IfSome result (λ c. c.units ≡ used_units (run_by step self.now.blocks)) }
        ensures ranges { IfSome result (λ c. c.ranges ≡ count_used (run_by step self.now.blocks)) }
        // Whatever the compaction leaves, this is the largest request that is granted then.
        ensures granted { IfSome result (λ c. (n : ℕ) (w : View) → 1 ≤ n → IsWellFormed w
            → CompactsBy step self.now w true → CanGrant 1 n w ↔ (AdmitsBlocks 1 w × (n ≤ c.largest))) }
    {
        compact_cost_by_counted(self, step, &mut Accesses::new())
    }
}
