//! The calls on a living heap: questions, a walk over it, a resize in place, and a compaction.

use offset_allocator::{Allocation, AllocatorOf, Move, Tables};

// Resizes a range in place, if its handle is live. It returns the size and the offset of the range then.
fn resize<T: Tables>(
    allocator: &mut AllocatorOf<T>,
    handle: Allocation<T::Index>,
    size: u32,
) -> (u32, Option<u32>) {
    if allocator.is_live(handle) {
        let _ = if size < allocator.allocation_size(handle) {
            allocator.shrink(handle, size)
        } else {
            allocator.grow_in_place(handle, size)
        };
    }
    (
        allocator.allocation_size(handle),
        allocator.allocation_offset(handle),
    )
}

// The offsets of all blocks, and those of all moves of a compaction, as one number.
fn compact<T: Tables>(allocator: &mut AllocatorOf<T>) -> u32 {
    let mut sum = 0u32;
    for block in allocator.blocks() {
        sum = sum.wrapping_mul(31).wrapping_add(block.offset);
    }
    allocator.compact(&mut |range: Move<T::Index>| {
        sum = sum
            .wrapping_mul(31)
            .wrapping_add(range.from)
            .wrapping_mul(31)
            .wrapping_add(range.to);
    });
    sum
}

/// Makes each of these calls, those on one range with the handle. It returns a checksum of their results.
pub fn living_calls<T: Tables>(
    allocator: &mut AllocatorOf<T>,
    handle: Option<Allocation<T::Index>>,
    size: u32,
) -> u32 {
    let is_granted = allocator.refusal(size).is_none();
    let is_aligned = allocator.refusal_aligned(size, 8).is_none();
    let is_held = allocator.refusal_tight(size).is_none();
    let is_held_aligned = allocator.refusal_tight_aligned(size, 8).is_none();
    let sum = u32::from(is_granted) * 8 + u32::from(is_aligned) * 4;
    let sum = sum + u32::from(is_held) * 2 + u32::from(is_held_aligned);
    let sum = match handle {
        None => sum,
        Some(handle) => {
            let (units, offset) = resize(allocator, handle, size);
            sum.wrapping_mul(31)
                .wrapping_add(units)
                .wrapping_mul(31)
                .wrapping_add(offset.unwrap_or(7))
        }
    };
    sum.wrapping_mul(31).wrapping_add(compact(allocator))
}
