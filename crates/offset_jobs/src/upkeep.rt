//! The upkeep of a living heap: its blocks, its full report, ranges that are resized, and compaction.

use crate::random::{Digest, Random};
use offset_allocator::{Allocation, Allocator, Move};
use std::alloc::{AllocError, Global};

type Grants = Vec<Option<Allocation<u32>>>;

// Requests a range at each place that has none.
fn fill(space: &mut Allocator<u32>, grants: &mut Grants, random: &mut Random) {
    for kept in grants.iter_mut() {
        if kept.is_none() {
            *kept = space.allocate(random.size(14));
        }
    }
}

// Frees half of the ranges at random.
fn thin(space: &mut Allocator<u32>, grants: &mut Grants, random: &mut Random) {
    for kept in grants.iter_mut() {
        if let Some(grant) = *kept {
            if random.draw().part(0) % 2 == 0 && space.is_live(grant) {
                space.free(grant);
                *kept = None;
            }
        }
    }
}

// Resizes one in four ranges.
fn resize(space: &mut Allocator<u32>, grants: &Grants, random: &mut Random, digest: &mut Digest) {
    for kept in grants {
        if let Some(grant) = *kept {
            let draw = random.draw();
            if draw.part(0) % 4 == 0 && space.is_live(grant) {
                let size = space.allocation_size(grant);
                let done = if draw.part(1) % 2 == 0 {
                    space.grow_in_place(grant, size.saturating_add(random.size(10)))
                } else {
                    space.shrink(grant, size.saturating_sub(random.size(10)))
                };
                digest.add(u64::from(done));
            }
        }
    }
}

/// Adds every block.
pub fn add_blocks(space: &Allocator<u32>, digest: &mut Digest) {
    for block in space.blocks() {
        digest.add(u64::from(block.offset));
        digest.add(u64::from(block.size) << 1 | u64::from(block.allocation.is_some()));
    }
}

// Adds the full report.
fn add_full(space: &Allocator<u32>, digest: &mut Digest) {
    let report = space.storage_report_full();
    for region in &report.free_regions {
        digest.add(u64::from(region.size));
        digest.add(u64::from(region.count));
    }
}

/// A heap of `live` ranges. Four times half of them are freed at random, some of the others are resized, all
/// blocks are listed, and the heap is compacted; each time it is filled up first.
pub fn upkeep(
    alloc: Global,
    live: u32,
    random: &mut Random,
    digest: &mut Digest,
) -> Result<(), AllocError> {
    let max_allocs = live.min(1_000_000_000).saturating_mul(2).saturating_add(2);
    let mut space: Allocator<u32> = Allocator::with_max_allocs(alloc, u32::MAX, max_allocs)?;
    let mut grants: Grants = Vec::from_elem(alloc, None, live as usize)?;
    for _ in 0..4 {
        fill(&mut space, &mut grants, random);
        thin(&mut space, &mut grants, random);
        resize(&mut space, &grants, random, digest);
        add_full(&space, digest);
        add_blocks(&space, digest);
        space.compact(&mut |range: Move<u32>| {
            digest.add(u64::from(range.from));
            digest.add(u64::from(range.to) << 32 | u64::from(range.size));
        });
        add_full(&space, digest);
    }
    Ok(())
}
