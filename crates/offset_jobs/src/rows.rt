//! Jobs that no workload is made of: they are counted, and not timed.

use crate::engine::{Load, frames, play};
use crate::random::{Digest, Random};
use crate::texts::reporting;
use crate::upkeep::add_blocks;
use offset_allocator::{Allocation, Allocator, AllocatorOf, ByField};
use offset_calls::{Call, are_valid, play_calls};
use offset_guarded::Guarded;
use offset_script::Command;
use std::alloc::{AllocError, Global};

// A space with `live` slots that has ample units and nodes.
fn ample(live: u32) -> Load {
    Load {
        size: u32::MAX,
        max_allocs: live.saturating_mul(2).saturating_add(2),
        places: live,
        bits: 14,
        steps: live.saturating_mul(4),
    }
}

// A list of `count` requests alone.
fn requests(
    alloc: Global,
    count: u32,
    random: &mut Random,
    digest: &mut Digest,
) -> Result<(), AllocError> {
    let mut calls = Vec::new(alloc);
    for _ in 0..count {
        calls.push(Call::Command(Command::Alloc(random.size(12))))?;
    }
    if are_valid(&calls) {
        let replies = play_calls::<u32>(alloc, u32::MAX, 1_000_000, &calls)?;
        crate::calls::add_replies(&replies, digest);
    }
    Ok(())
}

// In which order ranges of one size are freed.
#[derive(Clone, Copy)]
enum Order {
    AsGranted,
    Reversed,
    Random,
}

// The place that is freed next, after `done` of `count`.
fn place(order: Order, done: usize, count: usize, random: &mut Random) -> usize {
    match order {
        Order::AsGranted => done,
        Order::Reversed => count.saturating_sub(done.saturating_add(1)),
        Order::Random => random.below(count.min(1_000_000) as u32) as usize,
    }
}

// Four times a space is filled with `count` ranges of 64 units, which then are freed in this order.
fn one_size(
    alloc: Global,
    count: u32,
    order: Order,
    random: &mut Random,
    digest: &mut Digest,
) -> Result<(), AllocError> {
    let max_allocs = count.min(1_000_000_000).saturating_mul(2).saturating_add(2);
    let mut space: Allocator<u32> = Allocator::with_max_allocs(
        alloc,
        count.saturating_mul(64),
        max_allocs,
    )?;
    let mut grants: Vec<Option<Allocation<u32>>> = Vec::from_elem(alloc, None, count as usize)?;
    for _ in 0..4 {
        for kept in grants.iter_mut() {
            if kept.is_none() {
                *kept = space.allocate(64);
            }
        }
        for done in 0..grants.len() {
            let at = place(order, done, grants.len(), random);
            if let Some(kept) = grants.get_mut(at) {
                if let Some(grant) = *kept {
                    if space.is_live(grant) {
                        space.free(grant);
                        *kept = None;
                    }
                }
            }
        }
        digest.add(u64::from(space.storage_report().largest_free_region));
    }
    Ok(())
}

// The blocks of a space with `count` ranges are listed ten times.
fn blocks(
    alloc: Global,
    count: u32,
    random: &mut Random,
    digest: &mut Digest,
) -> Result<(), AllocError> {
    let max_allocs = count.min(1_000_000_000).saturating_mul(2).saturating_add(2);
    let mut space: Allocator<u32> = Allocator::with_max_allocs(alloc, u32::MAX, max_allocs)?;
    for _ in 0..count {
        if let Some(grant) = space.allocate(random.size(14)) {
            digest.add(u64::from(grant.offset));
        }
    }
    for _ in 0..10 {
        add_blocks(&space, digest);
    }
    Ok(())
}

// A space is filled with 2,000 ranges and reset, `count` times.
fn resets(
    alloc: Global,
    count: u32,
    random: &mut Random,
    digest: &mut Digest,
) -> Result<(), AllocError> {
    let mut space: Allocator<u32> = Allocator::with_max_allocs(alloc, u32::MAX, 4_002)?;
    for _ in 0..count {
        for _ in 0..2_000 {
            if let Some(grant) = space.allocate(random.size(14)) {
                digest.add(u64::from(grant.offset));
            }
        }
        space.reset();
    }
    Ok(())
}

/// Does the job of this name, or returns `false` where there is none.
pub fn row(
    alloc: Global,
    job: &str,
    size: u32,
    random: &mut Random,
    digest: &mut Digest,
) -> Result<bool, AllocError> {
    match job {
        "requests" => requests(alloc, size, random, digest)?,
        "blocks" => blocks(alloc, size, random, digest)?,
        "frames" => frames::<Allocator<u32>>(alloc, ample(size), random, digest)?,
        "in_order" => one_size(alloc, size, Order::AsGranted, random, digest)?,
        "in_reverse" => one_size(alloc, size, Order::Reversed, random, digest)?,
        "at_random" => one_size(alloc, size, Order::Random, random, digest)?,
        "resets" => resets(alloc, size, random, digest)?,
        "tickets" => play::<Guarded<u32>>(alloc, ample(size), random, digest)?,
        "by_field" => play::<AllocatorOf<ByField<u32>>>(alloc, ample(size), random, digest)?,
        "full_lines" => reporting(alloc, size, random, digest)?,
        _ => return Ok(false),
    }
    Ok(true)
}
