//! Calls of every kind on one allocator.

use crate::living::living_calls;
use crate::random::Random;
use offset_allocator::laws::{
    allocation_size_counted, is_live_counted, storage_report_counted, storage_report_full_counted,
    undo,
};
use offset_allocator::{
    Accesses, Allocation, AllocatorOf, Move, StorageReport, StorageReportFull, Tables,
};

// Larger than any offset of the spaces here.
const NONE: u32 = 100_000;

const GONE: u32 = 200_000;

// Frees a handle if it is live. It returns the size of its range, or `GONE`.
fn release<T: Tables>(allocator: &mut AllocatorOf<T>, handle: Allocation<T::Index>) -> u32 {
    if allocator.is_live(handle) {
        let size = allocator.allocation_size(handle);
        allocator.free(handle);
        size
    } else {
        GONE
    }
}

// Frees the kept handle, or makes a request where none is kept. It returns the size, the offset, `GONE` or
// `NONE`.
fn grant_or_release<T: Tables>(
    allocator: &mut AllocatorOf<T>,
    kept: &mut Option<Allocation<T::Index>>,
    kind: u32,
    size: u32,
) -> u32 {
    match *kept {
        Some(handle) => {
            *kept = None;
            release(allocator, handle)
        }
        None => {
            *kept = match kind % 4 {
                0 => allocator.allocate(size),
                1 => allocator.allocate_aligned(size, 8),
                2 => allocator.allocate_tight(size),
                _ => allocator.allocate_tight_aligned(size, 8),
            };
            match *kept {
                None => NONE,
                Some(handle) => handle.offset,
            }
        }
    }
}

// The numbers of the statistics as one.
fn fold_statistics<T: Tables>(allocator: &AllocatorOf<T>) -> u32 {
    let found = allocator.statistics();
    let sum = found
        .live_units
        .wrapping_mul(31)
        .wrapping_add(found.live_ranges);
    let sum = sum.wrapping_mul(31).wrapping_add(found.free_blocks);
    let sum = sum.wrapping_mul(31).wrapping_add(found.largest_free_block);
    sum.wrapping_mul(31)
        .wrapping_add(u32::from(allocator.is_empty()))
}

// Both reports as one number.
fn fold(short: &StorageReport, full: &StorageReportFull, class: usize) -> u32 {
    short
        .total_free_space
        .wrapping_mul(3)
        .wrapping_add(short.largest_free_region)
        .wrapping_mul(3)
        .wrapping_add(full.free_regions[class % 256].count)
}

fn report<T: Tables>(allocator: &AllocatorOf<T>, class: usize) -> u32 {
    let short = allocator.storage_report();
    let full = allocator.storage_report_full();
    fold(&short, &full, class)
}

// The same by the counted calls, with the size of the kept handle where it is live.
fn report_counted<T: Tables>(
    allocator: &AllocatorOf<T>,
    kept: Option<Allocation<T::Index>>,
    class: usize,
) -> u32 {
    let mut count = Accesses::new();
    let short = storage_report_counted(allocator, &mut count);
    let full = storage_report_full_counted(allocator, &mut count);
    let number = fold(&short, &full, class);
    match kept {
        Some(handle) if is_live_counted(allocator, handle, &mut count) => number
            .wrapping_mul(3)
            .wrapping_add(allocation_size_counted(allocator, handle, &mut count)),
        _ => number,
    }
}

// Adds units at the end or takes some off, makes room, or gives the kept handle a second range for a moment.
fn ends<T: Tables>(
    allocator: &mut AllocatorOf<T>,
    kept: Option<Allocation<T::Index>>,
    number: u32,
) -> u32 {
    match number % 8 {
        0..=2 => u32::from(allocator.extend(number % 10)),
        3 => u32::from(allocator.retract(number % 10)),
        4..=5 => match allocator.make_room(number % 500, &mut |_range: Move<T::Index>| ()) {
            None => NONE,
            Some(cost) => cost.units.wrapping_mul(31).wrapping_add(cost.ranges),
        },
        _ => match kept {
            Some(handle) if allocator.is_live(handle) => match allocator.relocate(handle) {
                None => NONE,
                Some(second) => {
                    let offset = second.offset;
                    allocator.free(second);
                    offset
                }
            },
            _ => GONE,
        },
    }
}

// Makes one call. It returns the result as a number.
fn call<T: Tables>(
    allocator: &mut AllocatorOf<T>,
    kept: &mut Option<Allocation<T::Index>>,
    kind: u32,
    number: u32,
) -> u32 {
    match kind {
        0..=9 => grant_or_release(allocator, kept, kind, number % 100),
        10 => living_calls(allocator, *kept, number % 100),
        11 => report(allocator, number as usize).wrapping_add(fold_statistics(allocator)),
        12 => report_counted(allocator, *kept, number as usize),
        13 => u32::from(undo(allocator, number % 500)),
        14 => ends(allocator, *kept, number),
        _ => {
            if number % 8 == 0 {
                allocator.reset();
            }
            0
        }
    }
}

/// Makes 1,000 calls of every kind, and returns a checksum of their results. It keeps the handles in `kept`.
pub fn mixed_calls<T: Tables>(
    allocator: &mut AllocatorOf<T>,
    kept: &mut [Option<Allocation<T::Index>>],
) -> u64 {
    let mut random = Random::new(1);
    let mut sum = 0u64;
    for _ in 0..1_000u32 {
        let number = random.advance();
        if let Some(kept) = kept.get_mut((number / 16 % 16) as usize) {
            let answer = call(allocator, kept, number % 16, number / 256);
            sum = sum.wrapping_mul(31).wrapping_add(u64::from(answer));
        }
    }
    sum
}
