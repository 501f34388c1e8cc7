//! Whole runs over one space, each a single C call, which `bench/` measures from Rust: of an allocator with
//! one table of nodes (`offset`), of one with a table for each field (`by_field`), and of one with tickets
//! (`offset_guarded`). These functions have no contracts; those that they call are proved.
#![tactic(auto)]

mod space;

use offset_allocator::{Allocator, AllocatorOf, ByField};
use offset_guarded::Guarded;
use space::Space;
use std::alloc::Global;

/// One step of a run: a request of this size where the slot is empty, else the release of its grant. A step
/// past the last slot resets the space.
#[repr(C)]
#[derive(Clone, Copy)]
pub struct Step {
    pub slot: u32,
    pub size: u32,
}

// Plays the steps on a new space, and returns a checksum of their results, or 0 where the space cannot be
// made.
fn play<S: Space>(alloc: Global, size: u32, max_allocs: u32, slots: usize, steps: &[Step]) -> u64 {
    let Ok(mut space) = S::make(alloc, size, max_allocs) else {
        return 0;
    };
    let Ok(mut slots) = Vec::from_elem(alloc, S::empty(), slots) else {
        return 0;
    };
    let mut sum = 0u64;
    for step in steps {
        match slots.get_mut(step.slot as usize) {
            None => space.clear(),
            Some(slot) => {
                sum = sum
                    .wrapping_mul(31)
                    .wrapping_add(space.take(slot, step.size))
            }
        }
    }
    sum
}

// Makes a space, and returns what is free then, or 0 where it cannot be made.
fn make<S: Space>(alloc: Global, size: u32, max_allocs: u32) -> u64 {
    match S::make(alloc, size, max_allocs) {
        Err(_) => 0,
        Ok(space) => u64::from(space.free_units()),
    }
}

/// Plays the steps on a space with one table of nodes, and node indices of 32 bits.
#[unsafe(no_mangle)]
pub extern "C" fn offset_play_32(
    alloc: Global,
    size: u32,
    max_allocs: u32,
    slots: usize,
    steps: &[Step],
) -> u64 {
    play::<Allocator<u32>>(alloc, size, max_allocs, slots, steps)
}

/// Makes a space with one table of nodes, and node indices of 32 bits.
#[unsafe(no_mangle)]
pub extern "C" fn offset_make_32(alloc: Global, size: u32, max_allocs: u32) -> u64 {
    make::<Allocator<u32>>(alloc, size, max_allocs)
}

/// Plays the steps on a space with one table of nodes, and node indices of 16 bits.
#[unsafe(no_mangle)]
pub extern "C" fn offset_play_16(
    alloc: Global,
    size: u32,
    max_allocs: u32,
    slots: usize,
    steps: &[Step],
) -> u64 {
    play::<Allocator<u16>>(alloc, size, max_allocs, slots, steps)
}

/// Makes a space with one table of nodes, and node indices of 16 bits.
#[unsafe(no_mangle)]
pub extern "C" fn offset_make_16(alloc: Global, size: u32, max_allocs: u32) -> u64 {
    make::<Allocator<u16>>(alloc, size, max_allocs)
}

/// Plays the steps on a space with a table for each field, and node indices of 32 bits.
#[unsafe(no_mangle)]
pub extern "C" fn by_field_play_32(
    alloc: Global,
    size: u32,
    max_allocs: u32,
    slots: usize,
    steps: &[Step],
) -> u64 {
    play::<AllocatorOf<ByField<u32>>>(alloc, size, max_allocs, slots, steps)
}

/// Makes a space with a table for each field, and node indices of 32 bits.
#[unsafe(no_mangle)]
pub extern "C" fn by_field_make_32(alloc: Global, size: u32, max_allocs: u32) -> u64 {
    make::<AllocatorOf<ByField<u32>>>(alloc, size, max_allocs)
}

/// Plays the steps on a space with a table for each field, and node indices of 16 bits.
#[unsafe(no_mangle)]
pub extern "C" fn by_field_play_16(
    alloc: Global,
    size: u32,
    max_allocs: u32,
    slots: usize,
    steps: &[Step],
) -> u64 {
    play::<AllocatorOf<ByField<u16>>>(alloc, size, max_allocs, slots, steps)
}

/// Makes a space with a table for each field, and node indices of 16 bits.
#[unsafe(no_mangle)]
pub extern "C" fn by_field_make_16(alloc: Global, size: u32, max_allocs: u32) -> u64 {
    make::<AllocatorOf<ByField<u16>>>(alloc, size, max_allocs)
}

/// Plays the steps on a space with tickets, and node indices of 32 bits.
#[unsafe(no_mangle)]
pub extern "C" fn offset_guarded_play_32(
    alloc: Global,
    size: u32,
    max_allocs: u32,
    slots: usize,
    steps: &[Step],
) -> u64 {
    play::<Guarded<u32>>(alloc, size, max_allocs, slots, steps)
}

/// Makes a space with tickets, and node indices of 32 bits.
#[unsafe(no_mangle)]
pub extern "C" fn offset_guarded_make_32(alloc: Global, size: u32, max_allocs: u32) -> u64 {
    make::<Guarded<u32>>(alloc, size, max_allocs)
}

/// Plays the steps on a space with tickets, and node indices of 16 bits.
#[unsafe(no_mangle)]
pub extern "C" fn offset_guarded_play_16(
    alloc: Global,
    size: u32,
    max_allocs: u32,
    slots: usize,
    steps: &[Step],
) -> u64 {
    play::<Guarded<u16>>(alloc, size, max_allocs, slots, steps)
}

/// Makes a space with tickets, and node indices of 16 bits.
#[unsafe(no_mangle)]
pub extern "C" fn offset_guarded_make_16(alloc: Global, size: u32, max_allocs: u32) -> u64 {
    make::<Guarded<u16>>(alloc, size, max_allocs)
}
