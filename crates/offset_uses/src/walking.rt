//! What can be seen of a space by a walk over its blocks.

ghost use Rattle.std.specs.Prelude.{◌≡◌, ◌<◌, ◌++◌, ℕ, IfOk, OnOk, slice_index, string_bytes};
ghost use Rattle.std.specs.List.{flat_map};
ghost use Rattle.offset_allocator.specs.View.{free_sizes};
ghost use Rattle.offset_allocator.specs.Reporting.FreeSizes.{count_of};
ghost use Rattle.offset_allocator.specs.Reporting.Listing.{as_placed, listing};
ghost use Rattle.offset_uses.specs.Walking.{block_line};

use offset_allocator::small_float::uint_to_float_round_down;
use offset_allocator::{AllocatorOf, Block, NodeIndex, Tables};
use std::alloc::{AllocError, Global};

/// Counts the free blocks of each of the 256 size classes, without the report.
pub fn count_holes<T: Tables>(space: &AllocatorOf<T>) -> [u32; 256]
    ensures { (c : ℕ) → c < 256 → slice_index result c ≡ count_of c (free_sizes space.now.blocks) }
{
    // no class has more free blocks than there are blocks, so each count fits
    let _ = space.block_count();
    let mut holes = [0; 256];
    for block in space.blocks() {
        if block.allocation.is_none() {
            holes[uint_to_float_round_down(block.size) as usize] += 1;
        }
    }
    holes
}

// Appends the line of a block, with its line end.
fn put_block<NI: NodeIndex>(text: &mut String, block: &Block<NI>) -> Result<(), AllocError>
    ensures { OnOk result
        (string_bytes text.new ≡ string_bytes text.old ++ block_line (as_placed block.now)) }
{
    let offset = block.offset;
    let size = block.size;
    match block.allocation {
        None => writeln!(text, "at {offset} size {size} free"),
        Some(_) => writeln!(text, "at {offset} size {size} used"),
    }
}

/// Writes the blocks of a heap as text, from its end to its start: a line for each, such as `at 16 size 8
/// used`.
///
/// It returns the text, or `AllocError` where an allocation fails.
pub fn dump<T: Tables>(heap: &AllocatorOf<T>, alloc: Global) -> Result<String, AllocError>
    ensures { IfOk result (λ text. string_bytes text ≡ flat_map block_line (listing heap.now)) }
{
    let mut text = String::new(alloc);
    for block in heap.blocks() {
        put_block(&mut text, &block)?;
    }
    Ok(text)
}
