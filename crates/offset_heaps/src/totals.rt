//! What is live and what is free in all heaps together. It reads each slot once, and changes nothing.
ghost use Rattle.std.specs.Prelude.{◌≡◌, ◌+◌, ◌^◌, ◌<◌, ◌≤◌, max, option_copied};
ghost use Rattle.offset_heaps.specs.Heaps.{free_of, live_units_of, part, room_of, units_of_heap};

use crate::HeapsOf;
use crate::heap::rooms;
use crate::limits::Limits;
use offset_allocator::laws::sizes_add_up;
use offset_allocator::{Accesses, Tables};
use offset_guarded::GuardedOf;

/// What is live and what is free, in all heaps together.
#[derive(Clone, Copy, PartialEq, Eq, Debug)]
pub struct Totals {
    /// The number of heaps.
    pub heaps: u32,
    /// Their units.
    pub units: u64,
    /// The units of all live ranges.
    pub live_units: u64,
    /// The units of all free blocks.
    pub free_units: u64,
    /// The largest `largest_free_region` of a heap, under its largest node limit, or 0 where there is none; one
    /// that has given all its serials counts as 0 here, and in no other field. A request of at least one unit is
    /// granted by a heap that is there, if memory for more nodes is given, exactly when it is at most this.
    pub largest_free_region: u32,
}

// The units of a heap: live ones, free ones and all.
fn live_free_all<T: Tables>(heap: &GuardedOf<T>) -> (u32, u32, u32)
    ensures live { result.0 ≡ live_units_of heap.now }
    ensures free { result.1 ≡ free_of heap.now }
    ensures all { result.2 ≡ units_of_heap heap.now }
    ensures add_up { live_units_of heap.now + free_of heap.now ≡ units_of_heap heap.now }
{
    let space = heap.allocator();
    sizes_add_up(space);
    (space.live_units(), space.free_units(), space.size())
}

// The numbers of some heaps, with those of one more.
fn with_heap<T: Tables>(
    totals: Totals,
    heap: Option<&GuardedOf<T>>,
    number: u32,
    limits: Limits,
) -> Totals
    requires heaps { totals.heaps + 1 < 2 ^ 32 }
    requires units { totals.units + 2 ^ 32 < 2 ^ 64 }
    requires add_up { totals.live_units + totals.free_units ≡ totals.units }
    ensures heaps { result.heaps ≡ totals.heaps + part (λ g. 1) (option_copied heap.entry) }
    ensures units { result.units ≡ totals.units + part units_of_heap (option_copied heap.entry) }
    ensures live { result.live_units ≡ totals.live_units + part live_units_of (option_copied heap.entry) }
    ensures free { result.free_units ≡ totals.free_units + part free_of (option_copied heap.entry) }
    ensures largest { result.largest_free_region
        ≡ max totals.largest_free_region (room_of limits number 1 (option_copied heap.entry)) }
    ensures few { result.heaps ≤ totals.heaps + 1 }
    ensures small { result.units < totals.units + 2 ^ 32 }
    ensures add_up { result.live_units + result.free_units ≡ result.units }
{
    let (one, _) = rooms(heap, number, limits);
    let largest = totals.largest_free_region.max(one);
    match heap {
        None => Totals {
            heaps: totals.heaps,
            units: totals.units,
            live_units: totals.live_units,
            free_units: totals.free_units,
            largest_free_region: largest,
        },
        Some(heap) => {
            let (live, free, all) = live_free_all(heap);
            Totals {
                heaps: totals.heaps + 1,
                units: totals.units + all as u64,
                live_units: totals.live_units + live as u64,
                free_units: totals.free_units + free as u64,
                largest_free_region: largest,
            }
        }
    }
}

impl<T: Tables> HeapsOf<T> {
    ghost use Rattle.offset_heaps.specs.Heaps.{AreTotals};

    /// What is live and what is free, in all heaps together.
    ///
    /// ```
    /// heaps.allocate(300).unwrap();
    /// let totals = heaps.totals();
    /// assert_eq!((totals.heaps, totals.live_units, totals.free_units), (1, 300, 700));
    /// ```
    pub fn totals(&self) -> Totals
        ensures totals { AreTotals result self.now.limits self.now.slots }
        // No unit is lost.
        ensures add_up { result.live_units + result.free_units ≡ result.units }
    {
        let mut totals = Totals {
            heaps: 0,
            units: 0,
            live_units: 0,
            free_units: 0,
            largest_free_region: 0,
        };
        let limits = self.limits;
        for number in 0..limits.most + limits.most_larger {
            let heap = self.slots.at(number, &mut Accesses::new());
            totals = with_heap(totals, heap, number, limits);
        }
        totals
    }
}
