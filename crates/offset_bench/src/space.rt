//! What a run asks of a space: of an allocator with any layout of its tables, and of one with tickets.

use offset_allocator::{Allocation, AllocatorOf, NodeIndex, Tables};
use offset_guarded::{Guarded, Ticket};
use std::alloc::{AllocError, Global};

/// A space, whose grants the caller keeps in slots.
pub(crate) trait Space: Drop {
    /// A grant, or none.
    type Slot: Copy;

    /// A slot with no grant.
    fn empty() -> Self::Slot;

    /// A new space, or an error where the node limit is not admitted, or an allocation fails.
    fn make(alloc: Global, size: u32, max_allocs: u32) -> Result<Self, AllocError>;

    /// Takes a step on a slot: a request of this size where it is empty, else the release of its grant. It
    /// returns the offset of a grant, 2^32 for a refusal, and 2^33 for a release.
    fn take(&mut self, slot: &mut Self::Slot, size: u32) -> u64;

    /// Makes the whole space free.
    fn clear(&mut self);

    /// The free units.
    fn free_units(&self) -> u32;
}

/// A slot has the parts of a handle, or of none: an `Option` of a handle takes 12 bytes, its parts take 8.
impl<T: Tables> Space for AllocatorOf<T> {
    type Slot = (u32, u32);

    fn empty() -> (u32, u32) {
        (0, u32::MAX)
    }

    fn make(alloc: Global, size: u32, max_allocs: u32) -> Result<Self, AllocError> {
        if max_allocs < 2 || max_allocs >= T::Index::MAX - 1 {
            return Err(AllocError);
        }
        AllocatorOf::with_max_allocs(alloc, size, max_allocs)
    }

    fn take(&mut self, slot: &mut (u32, u32), size: u32) -> u64 {
        match Allocation::<T::Index>::from_parts(slot.0, slot.1) {
            None => match self.allocate(size) {
                None => 1 << 32,
                Some(handle) => {
                    *slot = handle.to_parts();
                    u64::from(handle.offset)
                }
            },
            Some(handle) => {
                *slot = Self::empty();
                if self.is_live(handle) {
                    self.free(handle);
                }
                1 << 33
            }
        }
    }

    fn clear(&mut self) {
        self.reset();
    }

    fn free_units(&self) -> u32 {
        self.storage_report().total_free_space
    }
}

impl<NI: NodeIndex> Space for Guarded<NI> {
    type Slot = Option<Ticket>;

    fn empty() -> Option<Ticket> {
        None
    }

    fn make(alloc: Global, size: u32, max_allocs: u32) -> Result<Self, AllocError> {
        if max_allocs < 2 || max_allocs >= NI::MAX - 1 {
            return Err(AllocError);
        }
        Guarded::with_realm(alloc, size, max_allocs, 1)
    }

    fn take(&mut self, slot: &mut Option<Ticket>, size: u32) -> u64 {
        match *slot {
            None => match self.allocate(size) {
                None => 1 << 32,
                Some(ticket) => {
                    *slot = Some(ticket);
                    u64::from(ticket.offset)
                }
            },
            Some(ticket) => {
                let done = self.free(ticket);
                *slot = None;
                // a ticket that is not live would change the checksum
                if done { 1 << 33 } else { 1 << 34 }
            }
        }
    }

    fn clear(&mut self) {
        self.reset();
    }

    fn free_units(&self) -> u32 {
        self.allocator().storage_report().total_free_space
    }
}
