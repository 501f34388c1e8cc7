//! What has to move at least to make room for a request, where the ranges of some neighbouring blocks slide by
//! whole steps. It reads the tables, and changes nothing.
ghost use Rattle.std.specs.Prelude.{◌≡◌, ◌≤◌, ◌+◌, ◌*◌, ◌↔◌, Some, length};
ghost use Rattle.offset_allocator.specs.Accesses.{Costs};
ghost use Rattle.offset_allocator.specs.Classes.{value, up};
ghost use Rattle.offset_allocator.specs.Moving.RoomBySteps.{IsLeastCostBy, names_short};
ghost use Rattle.offset_allocator.specs.Requests.{CanGrant, blocks_needed, units_needed};

use crate::accesses::Accesses;
use crate::moves::room::RoomCost;
use crate::moves::runs::cheapest_by;
use crate::small_float::{float_to_uint, uint_to_float_round_down, uint_to_float_round_up};
use crate::tables::Tables;
use crate::{AllocatorOf, bins};

/// As `Allocator::room_cost_by`. The count grows by at most 7 for each block, and 2.
pub fn room_cost_by_counted<T: Tables>(
    allocator: &AllocatorOf<T>,
    size: u32,
    align: u32,
    step: u32,
    count: &mut Accesses,
) -> Option<RoomCost>
    requires alignment { 1 ≤ align }
    requires some { 1 ≤ step }
    ensures cost { IsLeastCostBy step (value (up (units_needed size align)))
        (names_short (blocks_needed align) allocator.now) allocator.now.blocks result }
    ensures granted { result ≡ Some (record { units = 0; ranges = 0 })
        ↔ CanGrant (blocks_needed align) (units_needed size align) allocator.now }
    ensures accesses { Costs 0 (7 * length allocator.now.blocks + 2) count.old count.new }
{
    allocator.formed();
    let tables = &allocator.store.tables;
    let blocks = align.min(2);
    let unused = allocator.unused_nodes();
    let units = size as u64 + (align - 1) as u64;
    if units > u32::MAX as u64 {
        return None;
    }
    let class = uint_to_float_round_up(units as u32);
    if unused > blocks
        && bins::find_at_or_above(tables, allocator.store.top_mask, class, count).is_some()
    {
        return Some(RoomCost {
            units: 0,
            ranges: 0,
        });
    }
    // where the class of all free units in one block is too small
    if uint_to_float_round_down(allocator.free_total) < class {
        return None;
    }
    let short = (blocks + 2).saturating_sub(unused);
    let run = cheapest_by(
        tables,
        allocator.store.last,
        step,
        float_to_uint(class),
        short,
        count,
    )?;
    Some(run.cost)
}

impl<T: Tables> AllocatorOf<T> {
    /// As `room_cost`, by whole steps: what has to move at least so that `allocate_aligned(size, align)` is
    /// granted after `make_room_by(size, align, step)`. It is the units and the number of the ranges in some run
    /// of blocks, from one free block to another. Each of its ranges slides to the front by a multiple of `step`
    /// units, and what its free blocks give up is one free block at its end, which is large enough. Of all such
    /// runs it is one whose ranges have the fewest units, and of these one that has the fewest ranges. For
    /// `allocate` ask with `align` 1.
    ///
    /// `None` is returned where no run gives up enough units; or, near the node limit, enough nodes, those of
    /// free blocks that are used up. Both numbers are 0 exactly where the request would be granted now. At the
    /// node limit a cost may be too high: it counts ranges of the run that stay, since the free blocks before
    /// them have no units.
    ///
    /// `step` and `align` have to be at least 1. It makes at most 7 accesses to the tables for
    /// each block, and 2.
    ///
    /// ```
    /// let hole = space.allocate(300).unwrap();
    /// space.allocate(100);
    /// space.free(hole);
    /// // 18 steps of 16 units, of 300, and the last 600 make 888, and 800 are of a class of 832
    /// let cost = RoomCost { units: 100, ranges: 1 };
    /// assert_eq!(space.room_cost_by(800, 1, 16), Some(cost));
    /// assert_eq!(space.room_cost_by(800, 1, 512), None);
    /// ```
    pub fn room_cost_by(&self, size: u32, align: u32, step: u32) -> Option<RoomCost>
        requires alignment { 1 ≤ align }
        requires some { 1 ≤ step }
        // Of all runs of blocks that begin and end with a free one and serve, one costs this, and none costs
        // less. `None`: no run serves.
        ensures cost { IsLeastCostBy step (value (up (units_needed size align)))
            (names_short (blocks_needed align) self.now) self.now.blocks result }
        // Nothing has to move exactly where the request would be granted.
        ensures granted { result ≡ Some (record { units = 0; ranges = 0 })
            ↔ CanGrant (blocks_needed align) (units_needed size align) self.now }
    {
        room_cost_by_counted(self, size, align, step, &mut Accesses::new())
    }
}
