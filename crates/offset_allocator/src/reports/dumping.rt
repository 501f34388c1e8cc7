//! A space as JSON, for tools that draw or count its blocks. It only reads the space.
ghost use Rattle.std.specs.Prelude.{◌≡◌, ◌++◌, IfOk, OnOk, map, string_bytes, true};
ghost use Rattle.offset_allocator.specs.Reporting.Dumping.{block_json, comma, free_json, joined, live_json};
ghost use Rattle.offset_allocator.specs.Reporting.Dumping.{numbers_json, space_json, vma_json, vma_numbers};
ghost use Rattle.offset_allocator.specs.Reporting.Dumping.{vma_space_json};
ghost use Rattle.offset_allocator.specs.Reporting.Listing.{as_placed, placed};
ghost use Rattle.offset_allocator.specs.Reporting.Statistics.{AreStatistics};
ghost use Rattle.offset_allocator.specs.declared.reports.statistics.Statistics.{Statistics};

use crate::AllocatorOf;
use crate::index::NodeIndex;
use crate::reports::blocks::Block;
use crate::reports::statistics::Statistics;
use crate::tables::Tables;
use std::alloc::{AllocError, Global};

// The blocks of a space, in space order.
fn blocks_in_order<T: Tables>(
    alloc: Global,
    space: &AllocatorOf<T>,
) -> Result<Vec<Block<T::Index>>, AllocError>
    ensures { IfOk result (λ bs. map as_placed bs.items ≡ placed 0 space.now.blocks) }
{
    let mut blocks = Vec::new(alloc);
    for block in space.blocks() {
        blocks.push(block)?;
    }
    blocks.reverse();
    Ok(blocks)
}

// Appends a comma, but not before the first.
fn put_comma(text: &mut String, first: bool) -> Result<(), AllocError>
    ensures { OnOk result (string_bytes text.new ≡ string_bytes text.old ++ comma first) }
{
    if first {
        return Ok(());
    }
    write!(text, ",")
}

// Appends a block.
fn put_block<NI: NodeIndex>(text: &mut String, block: &Block<NI>) -> Result<(), AllocError>
    ensures { OnOk result (string_bytes text.new ≡ string_bytes text.old
        ++ block_json (as_placed block.now)) }
{
    let offset = block.offset;
    let size = block.size;
    match block.allocation {
        None => write!(text, "{{\"offset\":{offset},\"size\":{size}}}"),
        Some(handle) => {
            let name = handle.name();
            write!(
                text,
                "{{\"offset\":{offset},\"size\":{size},\"name\":{name}}}"
            )
        }
    }
}

// Appends a block as VMA has it.
fn put_vma_block<NI: NodeIndex>(text: &mut String, block: &Block<NI>) -> Result<(), AllocError>
    ensures { OnOk result (string_bytes text.new ≡ string_bytes text.old ++ vma_json (as_placed block.now)) }
{
    let offset = block.offset;
    let size = block.size;
    match block.allocation {
        None => write!(
            text,
            "{{\"Offset\":{offset},\"Type\":\"FREE\",\"Size\":{size}}}"
        ),
        Some(_) => write!(
            text,
            "{{\"Offset\":{offset},\"Type\":\"UNKNOWN\",\"Size\":{size}}}"
        ),
    }
}

// Appends blocks, with commas between them.
fn put_blocks<NI: NodeIndex>(text: &mut String, blocks: &[Block<NI>]) -> Result<(), AllocError>
    ensures { OnOk result (string_bytes text.new
        ≡ string_bytes text.old ++ joined block_json true (map as_placed blocks.now)) }
{
    let mut first = true;
    for block in blocks {
        put_comma(text, first)?;
        put_block(text, block)?;
        first = false;
    }
    Ok(())
}

// The same, as VMA has them.
fn put_vma_blocks<NI: NodeIndex>(text: &mut String, blocks: &[Block<NI>]) -> Result<(), AllocError>
    ensures { OnOk result (string_bytes text.new
        ≡ string_bytes text.old ++ joined vma_json true (map as_placed blocks.now)) }
{
    let mut first = true;
    for block in blocks {
        put_comma(text, first)?;
        put_vma_block(text, block)?;
        first = false;
    }
    Ok(())
}

// Appends the size, the node limit, and what is live.
fn put_live(
    text: &mut String,
    size: u32,
    max_allocs: u32,
    sums: &Statistics,
) -> Result<(), AllocError>
    ensures { OnOk result (string_bytes text.new ≡ string_bytes text.old
        ++ live_json size max_allocs sums.now) }
{
    let ranges = sums.live_ranges;
    let live = sums.live_units;
    write!(
        text,
        "{{\"size\":{size},\"max_allocs\":{max_allocs},\"live_ranges\":{ranges},\"live_units\":{live}"
    )
}

// Appends what is free, and the nodes that no block has.
fn put_free(text: &mut String, sums: &Statistics) -> Result<(), AllocError>
    ensures { OnOk result (string_bytes text.new ≡ string_bytes text.old ++ free_json sums.now) }
{
    let blocks = sums.free_blocks;
    let free = sums.free_units;
    let block = sums.largest_free_block;
    let region = sums.largest_free_region;
    let unused = sums.unused_nodes;
    write!(
        text,
        ",\"free_blocks\":{blocks},\"free_units\":{free},\"largest_free_block\":{block},\"largest_free_region\":{region},\"unused_nodes\":{unused},\"blocks\":["
    )
}

// Appends the numbers of a space.
fn put_numbers(
    text: &mut String,
    size: u32,
    max_allocs: u32,
    sums: &Statistics,
) -> Result<(), AllocError>
    ensures { OnOk result (string_bytes text.new ≡ string_bytes text.old
        ++ numbers_json size max_allocs sums.now) }
{
    put_live(text, size, max_allocs, sums)?;
    put_free(text, sums)
}

// Appends what VMA has before the ranges.
fn put_vma_numbers(text: &mut String, size: u32, sums: &Statistics) -> Result<(), AllocError>
    ensures { OnOk result (string_bytes text.new ≡ string_bytes text.old ++ vma_numbers size sums.now) }
{
    let units = sums.free_units;
    let ranges = sums.live_ranges;
    let free = sums.free_blocks;
    write!(
        text,
        "{{\"General\":{{\"API\":\"Vulkan\"}},\"DefaultPools\":{{\"Type 0\":{{\"PreferredBlockSize\":{size},\"Blocks\":{{\"0\":{{\"TotalBytes\":{size},\"UnusedBytes\":{units},\"Allocations\":{ranges},\"UnusedRanges\":{free},\"Suballocations\":["
    )
}

/// A space as JSON: an object with its `size` and `max_allocs`, its statistics by their names, and `blocks`,
/// in space order: each with `offset` and `size`, and a used one with its `name`.
///
/// It returns the text, or `AllocError` where an allocation fails.
///
/// ```
/// let text = json_of(alloc, &space)?;
/// assert!(text.starts_with("{\"size\":1000,"));
/// ```
pub fn json_of<T: Tables>(alloc: Global, space: &AllocatorOf<T>) -> Result<String, AllocError>
    ensures { IfOk result (λ text. (s : Statistics) × AreStatistics s space.now
        × (string_bytes text ≡ space_json s space.now)) }
{
    let blocks = blocks_in_order(alloc, space)?;
    let mut text = String::new(alloc);
    let sums = space.statistics();
    put_numbers(&mut text, space.size(), space.max_allocs(), &sums)?;
    put_blocks(&mut text, &blocks)?;
    write!(text, "]}}")?;
    Ok(text)
}

/// A space in the form of the dumps of VMA, the Vulkan Memory Allocator, as one block of memory, with the fields
/// that its viewer, `GpuMemDumpVis.py`, reads.
///
/// It returns the text, or `AllocError` where an allocation fails.
///
/// ```
/// let text = vma_json_of(alloc, &space)?;
/// assert!(text.starts_with("{\"General\":{\"API\":\"Vulkan\"}"));
/// ```
pub fn vma_json_of<T: Tables>(alloc: Global, space: &AllocatorOf<T>) -> Result<String, AllocError>
    ensures { IfOk result (λ text. (s : Statistics) × AreStatistics s space.now
        × (string_bytes text ≡ vma_space_json s space.now)) }
{
    let blocks = blocks_in_order(alloc, space)?;
    let mut text = String::new(alloc);
    let sums = space.statistics();
    put_vma_numbers(&mut text, space.size(), &sums)?;
    put_vma_blocks(&mut text, &blocks)?;
    write!(text, "]}}}},\"DedicatedAllocations\":[]}}}}}}")?;
    Ok(text)
}
