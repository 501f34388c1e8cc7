//! Requests and releases of an engine.

use crate::random::{Digest, Draw, Random};
use crate::spaces::Space;
use offset_allocator::{Allocation, Allocator};
use offset_guarded::{Guarded, Ticket};
use std::alloc::{AllocError, Global};

// How many frames are played.
const FRAMES: u32 = 64;

/// A load of a space: its size, its node limit, the number of slots, the most bits of a size, and the number
/// of steps.
#[derive(Clone, Copy)]
pub struct Load {
    pub size: u32,
    pub max_allocs: u32,
    pub places: u32,
    pub bits: u32,
    pub steps: u32,
}

// A step on a slot: one in sixteen requests is aligned.
fn take<S: Space>(
    space: &mut S,
    slot: &mut S::Slot,
    bits: u32,
    draw: Draw,
    random: &mut Random,
    digest: &mut Digest,
) {
    let align = if draw.part(1) == 0 { 256 } else { 1 };
    digest.add(space.take(slot, random.size(bits), align));
}

/// Slots that all rounds of a job use, so that their memory is requested once.
#[derive(Drop)]
pub struct Kept {
    handles: Vec<Option<Allocation<u32>>>,
    tickets: Vec<Option<Ticket>>,
}

impl Kept {
    /// No slots. It takes no memory.
    pub fn new(alloc: Global) -> Self {
        Kept {
            handles: Vec::new(alloc),
            tickets: Vec::new(alloc),
        }
    }
}

/// Each step frees the range of a random slot, or requests one for it where it is empty; one in 256 asks for
/// a report.
pub fn play<S: Space>(
    alloc: Global,
    load: Load,
    random: &mut Random,
    digest: &mut Digest,
) -> Result<(), AllocError> {
    play_on::<S>(alloc, load, &mut Vec::new(alloc), random, digest)
}

// The same, on slots that are kept from one space to the next.
fn play_on<S: Space>(
    alloc: Global,
    load: Load,
    slots: &mut Vec<S::Slot>,
    random: &mut Random,
    digest: &mut Digest,
) -> Result<(), AllocError> {
    let mut space = S::make(alloc, load.size, load.max_allocs)?;
    slots.clear();
    slots.reserve(load.places as usize)?;
    for _ in 0..load.places {
        slots.push(S::empty())?;
    }
    for _ in 0..load.steps {
        let draw = random.draw();
        if let Some(slot) = slots.get_mut(draw.place(load.places) as usize) {
            take(&mut space, slot, load.bits, draw, random, digest);
        }
        if draw.part(2) == 0 && draw.part(3) == 0 {
            space.add_report(digest);
        }
    }
    Ok(())
}

/// Plays frames. Each requests fewer than `load.places` ranges, and ends with a reset.
pub fn frames<S: Space>(
    alloc: Global,
    load: Load,
    random: &mut Random,
    digest: &mut Digest,
) -> Result<(), AllocError> {
    let mut space = S::make(alloc, load.size, load.max_allocs)?;
    for _ in 0..FRAMES {
        for _ in 0..random.draw().below(load.places) {
            let draw = random.draw();
            take(&mut space, &mut S::empty(), load.bits, draw, random, digest);
        }
        space.add_report(digest);
        space.clear();
    }
    Ok(())
}

/// An engine's heaps: one with half of `live` live ranges, smaller ones, and one that is reset after each
/// frame. Each has ample space and nodes.
pub fn engine(
    alloc: Global,
    live: u32,
    random: &mut Random,
    digest: &mut Digest,
) -> Result<(), AllocError> {
    let large = Load {
        size: u32::MAX,
        max_allocs: live.saturating_mul(2).saturating_add(2),
        places: live,
        bits: 14,
        steps: live.saturating_mul(3),
    };
    play::<Allocator<u32>>(alloc, large, random, digest)?;
    let middle = Load {
        places: live / 16,
        steps: live,
        ..large
    };
    play::<Allocator<u32>>(alloc, middle, random, digest)?;
    frames::<Allocator<u32>>(alloc, middle, random, digest)?;
    let small = Load {
        places: live / 1_000,
        ..middle
    };
    play::<Allocator<u32>>(alloc, small, random, digest)?;
    let narrow = Load {
        max_allocs: 65_533,
        places: (live / 16).min(30_000),
        ..middle
    };
    play::<Allocator<u16>>(alloc, narrow, random, digest)
}

/// Heaps near their limits, with handles and with tickets: too few nodes, too few units, and ranges of one
/// size only.
pub fn tight(
    alloc: Global,
    live: u32,
    kept: &mut Kept,
    random: &mut Random,
    digest: &mut Digest,
) -> Result<(), AllocError> {
    let few_nodes = Load {
        size: u32::MAX,
        max_allocs: (live / 3).saturating_add(2),
        places: live,
        bits: 14,
        steps: live.saturating_mul(5),
    };
    play_on::<Allocator<u32>>(alloc, few_nodes, &mut kept.handles, random, digest)?;
    play_on::<Guarded<u32>>(alloc, few_nodes, &mut kept.tickets, random, digest)?;
    let few_units = Load {
        size: live.saturating_mul(400),
        max_allocs: live.saturating_mul(2).saturating_add(2),
        ..few_nodes
    };
    play_on::<Allocator<u32>>(alloc, few_units, &mut kept.handles, random, digest)?;
    play_on::<Guarded<u32>>(alloc, few_units, &mut kept.tickets, random, digest)?;
    let one_size = Load {
        size: live.saturating_mul(24),
        bits: 0,
        ..few_units
    };
    play_on::<Allocator<u32>>(alloc, one_size, &mut kept.handles, random, digest)?;
    play_on::<Guarded<u32>>(alloc, one_size, &mut kept.tickets, random, digest)
}
