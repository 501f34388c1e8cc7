//! What is reported: the types of reports, and the read-only calls with a count of their accesses to table
//! cells. The plain calls are these with a count of their own, and `laws` exports them.
ghost use Rattle.std.specs.Prelude.{◌≡◌, ◌<◌, ◌≤◌, ◌+◌, ◌*◌, ◌%◌, ◌^◌, ◌↔◌, IsTrue, IfSome, None};
ghost use Rattle.std.specs.Prelude.{length, option_map, replicate, slice_set};
ghost use Rattle.offset_allocator.specs.Accesses.{Costs};
ghost use Rattle.offset_allocator.specs.Classes.{value};
ghost use Rattle.offset_allocator.specs.View.{free_sizes, reported_largest};
ghost use Rattle.offset_allocator.specs.Ranges.{Range, range_of, size_of, IsLive};
ghost use Rattle.offset_allocator.specs.Requests.{CanGrant, IsWhy, blocks_needed, units_needed};
ghost use Rattle.offset_allocator.specs.Reporting.Reports.{IsReport, IsFullReport};

pub(crate) mod beginning;
pub(crate) mod blocks;
pub(crate) mod dumping;
pub(crate) mod lengths;
pub(crate) mod statistics;
pub(crate) mod walks;

use crate::accesses::Accesses;
use crate::handle::Allocation;
use crate::reports::lengths::lengths_of;
use crate::small_float::{float_to_uint, uint_to_float_round_down, uint_to_float_round_up};
use crate::tables::Tables;
use crate::{AllocatorOf, bins};
use std::fmt;

/// The free space of an allocator, in short.
///
/// Both numbers are 0 where `max_allocs - 1` blocks exist, since nothing is granted there.
#[derive(Clone, Copy, Debug, PartialEq)]
pub struct StorageReport {
    /// The units of all free blocks together.
    pub total_free_space: u32,
    /// The value of the largest class that has a free block, or 0 where no block is free. A request for 1
    /// unit or more is granted exactly when it is at most this. The block itself may be larger, by less than
    /// an eighth of this.
    pub largest_free_region: u32,
}

/// Why a request is refused: the first of these that applies.
///
/// A request needs a free block of a class whose blocks are all large enough: for `allocate(n)` one of at
/// least `min_allocator_size(n)` units, for an aligned request of that for `n + align - 1`.
#[derive(Clone, Copy, Debug, PartialEq)]
pub enum Refusal {
    /// There is no room for one more block, or for two more where an aligned request needs them. Use another
    /// space, free ranges that have free neighbours, or compact a space of several free blocks.
    Nodes,
    /// A fresh space of this size would refuse the request too. Extend the space, or use a larger one; but
    /// where the size, with `align - 1` more for an aligned request, is above 4026531840, no space grants it.
    TooLarge,
    /// All free units in one block would not be enough, so `compact` does not help. Free ranges, or extend
    /// the space.
    Space,
    /// All free units in one block would be enough, but no free block is. After `compact` the request is
    /// granted.
    Fragmented,
}

impl fmt::Display for Refusal {
    ghost use Rattle.std.specs.Prelude.{Some};
    ghost use Rattle.offset_allocator.specs.Requests.{refusal_words};

    ghost output = { λ why. Some (refusal_words why) };

    fn fmt<W: fmt::Write>(&self, f: &mut fmt::Formatter<W>) -> fmt::Result {
        let words = match self {
            Refusal::Nodes => "too few nodes are left",
            Refusal::TooLarge => "the request is too large for the space",
            Refusal::Space => "too few units are free",
            Refusal::Fragmented => "no free block is large enough until the space is compacted",
        };
        write!(f, "{words}")
    }
}

/// One size class in the full report.
#[derive(Clone, Copy, Debug, PartialEq)]
pub struct StorageReportFullRegion {
    /// The value of the class: each of its blocks has at least that many units. The values of the classes 240
    /// to 255 are reported modulo 2 to the power of 32; no block is of these classes.
    pub size: u32,
    /// The number of free blocks of the class.
    pub count: u32,
}

impl Default for StorageReportFullRegion {
    ghost is_default = { λ r. r ≡ record { size = 0; count = 0 } };

    fn default() -> Self {
        StorageReportFullRegion { size: 0, count: 0 }
    }
}

/// The free blocks of an allocator, class by class, at the node limit too.
#[derive(Clone, Debug, PartialEq, Drop)]
pub struct StorageReportFull {
    /// The size classes from 0 to 255.
    pub free_regions: [StorageReportFullRegion; 256],
}

impl Default for StorageReportFull {
    ghost is_default = { λ r. r.free_regions ≡ replicate 256 (record { size = 0; count = 0 }) };

    fn default() -> Self {
        StorageReportFull {
            free_regions: [StorageReportFullRegion::default(); 256],
        }
    }
}

/// As `Allocator::is_live`. The count grows by at most 8.
pub fn is_live_counted<T: Tables>(
    allocator: &AllocatorOf<T>,
    allocation: Allocation<T::Index>,
    count: &mut Accesses,
) -> bool
    ensures live { IsTrue result ↔ IsLive allocation.name allocator.now }
    ensures accesses { Costs 0 8 count.old count.new }
    ensures accesses_min { allocation.name < allocator.now.max_allocs → count.old + 1 ≤ count.new }
{
    allocator.is_name_live(allocation.name(), count)
}

/// As `Allocator::allocation_size`. The count grows by at most 8.
pub fn allocation_size_counted<T: Tables>(
    allocator: &AllocatorOf<T>,
    allocation: Allocation<T::Index>,
    count: &mut Accesses,
) -> u32
    ensures size { result ≡ size_of allocation.name allocator.now }
    ensures accesses { Costs 0 8 count.old count.new }
    ensures accesses_min { IsLive allocation.name allocator.now → count.old + 2 ≤ count.new }
{
    let name = allocation.name();
    if allocator.is_name_live(name, count) {
        allocator.store.tables.size(name, count)
    } else {
        0
    }
}

/// As `Allocator::allocation_offset`. The count grows by at most 8.
pub fn allocation_offset_counted<T: Tables>(
    allocator: &AllocatorOf<T>,
    allocation: Allocation<T::Index>,
    count: &mut Accesses,
) -> Option<u32>
    ensures offset { result ≡ option_map (λ (r : Range). r.offset) (range_of allocation.name allocator.now) }
    ensures accesses { Costs 0 8 count.old count.new }
    ensures accesses_min { IsLive allocation.name allocator.now → count.old + 2 ≤ count.new }
{
    let name = allocation.name();
    if allocator.is_name_live(name, count) {
        Some(allocator.store.tables.offset(name, count))
    } else {
        None
    }
}

/// As `Allocator::storage_report`. The count grows by at most 8.
pub fn storage_report_counted<T: Tables>(
    allocator: &AllocatorOf<T>,
    count: &mut Accesses,
) -> StorageReport
    ensures report { IsReport result allocator.now }
    ensures accesses { Costs 0 8 count.old count.new }
    ensures accesses_min { 1 ≤ reported_largest allocator.now → count.old + 1 ≤ count.new }
{
    if allocator.unused_nodes() < 2 {
        return StorageReport {
            total_free_space: 0,
            largest_free_region: 0,
        };
    }
    let largest_free_region = match bins::largest(
        &allocator.store.tables,
        allocator.store.top_mask,
        count,
    ) {
        None => 0,
        Some(class) => float_to_uint(class),
    };
    StorageReport {
        total_free_space: allocator.free_total,
        largest_free_region,
    }
}

// Writes the row of a class: its value, and how many free blocks are of it.
fn put_region(report: &mut StorageReportFull, class: u32, count: u32)
    requires classed { class < 256 }
    requires wide { length report.old.free_regions ≡ 256 }
    ensures { report.new.free_regions ≡ slice_set report.old.free_regions class
        (record { size = value class % 2 ^ 32; count = count }) }
{
    report.free_regions[class as usize] = StorageReportFullRegion {
        size: float_to_uint(class),
        count,
    };
}

/// As `Allocator::storage_report_full`. The count grows by at most 512, and 2 for each free block.
pub fn storage_report_full_counted<T: Tables>(
    allocator: &AllocatorOf<T>,
    count: &mut Accesses,
) -> StorageReportFull
    ensures report { IsFullReport result allocator.now }
    ensures accesses { Costs 256 (512 + 2 * length (free_sizes allocator.now.blocks)) count.old count.new }
{
    let mut report = StorageReportFull::default();
    for group in 0..64u32 {
        let class = 4 * group;
        let counts = lengths_of(&allocator.store.tables, class, count);
        put_region(&mut report, class, counts[0]);
        put_region(&mut report, class + 1, counts[1]);
        put_region(&mut report, class + 2, counts[2]);
        put_region(&mut report, class + 3, counts[3]);
    }
    report
}

/// As `Allocator::refusal`. The count grows by at most 8.
pub fn refusal_counted<T: Tables>(
    allocator: &AllocatorOf<T>,
    size: u32,
    count: &mut Accesses,
) -> Option<Refusal>
    ensures granted { result ≡ None ↔ CanGrant 1 size allocator.now }
    ensures why { IfSome result (IsWhy 1 size allocator.now) }
    ensures accesses { Costs 0 8 count.old count.new }
    ensures accesses_min { result ≡ None → count.old + 1 ≤ count.new }
{
    refusal_aligned_counted(allocator, size, 1, count)
}

/// As `Allocator::refusal_aligned`. The count grows by at most 8.
pub fn refusal_aligned_counted<T: Tables>(
    allocator: &AllocatorOf<T>,
    size: u32,
    align: u32,
    count: &mut Accesses,
) -> Option<Refusal>
    requires alignment { 1 ≤ align }
    ensures granted { result ≡ None ↔ CanGrant (blocks_needed align) (units_needed size align) allocator.now }
    ensures why { IfSome result (IsWhy (blocks_needed align) (units_needed size align) allocator.now) }
    ensures accesses { Costs 0 8 count.old count.new }
    ensures accesses_min { result ≡ None → count.old + 1 ≤ count.new }
{
    let blocks = align.min(2);
    let units = size as u64 + (align - 1) as u64;
    let largest = uint_to_float_round_down(allocator.size);
    if allocator.unused_nodes() <= blocks {
        return Some(Refusal::Nodes);
    }
    if units > u32::MAX as u64 {
        return Some(Refusal::TooLarge);
    }
    let smallest = uint_to_float_round_up(units as u32);
    if largest < smallest {
        return Some(Refusal::TooLarge);
    }
    match bins::find_at_or_above(
        &allocator.store.tables,
        allocator.store.top_mask,
        smallest,
        count,
    ) {
        Some(_) => None,
        None => {
            // the class of all free units in one block, of which there has to be one at least
            if uint_to_float_round_down(allocator.free_total) < smallest.max(1) {
                Some(Refusal::Space)
            } else {
                Some(Refusal::Fragmented)
            }
        }
    }
}
