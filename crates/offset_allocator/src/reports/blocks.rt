//! An iterator over the blocks of a space, from its end to its start. It reads the tables, and counts each
//! cell.
ghost use Rattle.std.specs.Prelude.{◌≡◌, ◌≤◌, ◌+◌, ⊤, IsSome};
ghost use Rattle.std.specs.Iterator.{YieldsFirstBy, item_count};
ghost use Rattle.offset_allocator.specs.Accesses.{Costs};
ghost use Rattle.offset_allocator.specs.Reporting.Listing.{as_placed};

use crate::accesses::Accesses;
use crate::handle::Allocation;
use crate::index::{NodeIndex, NodeIndexNonMax};
use crate::steps::handle_of;
use crate::tables::Tables;
use crate::{AllocatorOf, chain};
use std::alloc::AllocError;
use std::fmt;
use std::iter::FusedIterator;
use std::marker::Model;

/// A block of a space.
#[derive(Clone, Copy, PartialEq, Debug)]
pub struct Block<NI: NodeIndex = u32, N: NodeIndexNonMax = <NI as NodeIndex>::NonMax> {
    /// Where it begins, in units from the start of the space.
    pub offset: u32,
    /// The number of its units.
    pub size: u32,
    /// The handle of its range, or `None` where the block is free.
    pub allocation: Option<Allocation<NI, N>>,
}

/// The blocks of a space, from its end to its start, seen as the list of those that are left.
#[derive(Drop)]
pub struct BlocksOf<'a, T: Tables> {
    pub(crate) allocator: &'a AllocatorOf<T>,
    // the name of the next block
    pub(crate) next: Option<u32>,
    // how many blocks are left: the first ones of the space
    pub(crate) left: u32,
}

impl<'a, T: Tables> Model for BlocksOf<'a, T> {
    ghost use Rattle.std.specs.Prelude.{◌≡◌, ◌≤◌, List, None, take, reverse, length};
    ghost use Rattle.offset_allocator.specs.Reporting.Listing.{Placed, placed};
    ghost use Rattle.offset_allocator.specs.Chain.{last_or};

    ghost Value = { List Placed };

    ghost view = { λ it. reverse (placed 0 (take it.left it.allocator.now.blocks)) };

    ghost invariant = { λ it. (it.left ≤ length it.allocator.now.blocks)
        × (last_or None (take it.left it.allocator.now.blocks) ≡ it.next) };
}

impl<'a, T: Tables> Clone for BlocksOf<'a, T> {
    ghost is_clone = { λ it copy. copy ≡ it };

    ghost is_infallible = { λ _. ⊤ };

    fn clone(&self) -> Result<Self, AllocError> {
        Ok(BlocksOf {
            allocator: self.allocator,
            next: self.next,
            left: self.left,
        })
    }
}

impl<'a, T: Tables> Iterator for BlocksOf<'a, T> {
    type Item = Block<T::Index>;

    ghost next_gives = { YieldsFirstBy as_placed (λ rest. rest) };

    ghost remaining = { item_count (λ rest. rest) };

    fn next(&mut self) -> Option<Block<T::Index>> {
        next_block_counted(self, &mut Accesses::new())
    }

    fn size_hint(&self) -> (usize, Option<usize>) {
        (self.left as usize, Some(self.left as usize))
    }
}

impl<'a, T: Tables> ExactSizeIterator for BlocksOf<'a, T> {
    fn len(&self) -> usize {
        self.left as usize
    }
}

impl<'a, T: Tables> FusedIterator for BlocksOf<'a, T> {}

impl<'a, T: Tables> fmt::Debug for BlocksOf<'a, T> {
    fn fmt<W: fmt::Write>(&self, f: &mut fmt::Formatter<W>) -> fmt::Result {
        f.debug_struct("Blocks")
            .field("remaining", &self.len())
            .finish()
    }
}

/// As `next` of `Blocks`. The count grows by at most 5.
pub fn next_block_counted<T: Tables>(
    blocks: &mut BlocksOf<'_, T>,
    count: &mut Accesses,
) -> Option<Block<T::Index>>
    ensures yields { YieldsFirstBy as_placed (λ rest. rest) blocks.old result blocks.new }
    ensures accesses { Costs 0 5 count.old count.new }
    ensures accesses_min { IsSome result → count.old + 4 ≤ count.new }
{
    let name = blocks.next?;
    let allocator = blocks.allocator;
    let tables = &allocator.store.tables;
    let offset = tables.offset(name, count);
    let size = tables.size(name, count);
    let allocation = if chain::is_used(tables, name, count) {
        Some(handle_of(offset, name))
    } else {
        None
    };
    blocks.next = chain::before(tables, name, count);
    blocks.left -= 1;
    Some(Block {
        offset,
        size,
        allocation,
    })
}
