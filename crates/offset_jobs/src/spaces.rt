//! What an engine asks of a space: of an allocator with handles, and of one with tickets.

use crate::random::Digest;
use offset_allocator::{Allocation, AllocatorOf, NodeIndex, StorageReport, Tables};
use offset_guarded::{Guarded, Ticket};
use std::alloc::{AllocError, Global};

// The number of a refusal, whatever its reason.
const REFUSED: u64 = 1 << 40;

/// A space whose grants the caller keeps in slots.
pub trait Space: Drop {
    /// A grant, or none.
    type Slot: Copy;

    /// A slot with no grant.
    fn empty() -> Self::Slot;

    /// A new space, or an error where the node limit is not admitted or an allocation fails.
    fn make(alloc: Global, size: u32, max_allocs: u32) -> Result<Self, AllocError>;

    /// A step on a slot, and a number for its result: where the slot is empty, a request for units from a
    /// multiple of `align` on, which is at least 1, and else the release of its grant.
    fn take(&mut self, slot: &mut Self::Slot, size: u32, align: u32) -> u64;

    /// Why a request for units is refused, as a number.
    fn why(&self, size: u32) -> u64;

    /// Adds the short report.
    fn add_report(&self, digest: &mut Digest);

    /// Makes the whole space free.
    fn clear(&mut self);
}

fn add_report(report: &StorageReport, digest: &mut Digest) {
    digest.add(u64::from(report.total_free_space));
    digest.add(u64::from(report.largest_free_region));
}

impl<T: Tables> Space for AllocatorOf<T> {
    type Slot = Option<Allocation<T::Index>>;

    fn empty() -> Option<Allocation<T::Index>> {
        None
    }

    fn make(alloc: Global, size: u32, max_allocs: u32) -> Result<Self, AllocError> {
        if max_allocs < 2 || max_allocs >= T::Index::MAX - 1 {
            return Err(AllocError);
        }
        AllocatorOf::with_max_allocs(alloc, size, max_allocs)
    }

    fn take(&mut self, slot: &mut Option<Allocation<T::Index>>, size: u32, align: u32) -> u64 {
        match *slot {
            Some(grant) => {
                *slot = None;
                if self.is_live(grant) {
                    self.free(grant);
                    return REFUSED | 16;
                }
                REFUSED | 17
            }
            None => {
                let granted = if align == 1 {
                    self.allocate(size)
                } else if align > 0 {
                    self.allocate_aligned(size, align)
                } else {
                    None
                };
                *slot = granted;
                match granted {
                    Some(grant) => u64::from(grant.offset),
                    None => self.why(size),
                }
            }
        }
    }

    fn why(&self, size: u32) -> u64 {
        match self.refusal(size) {
            None => REFUSED,
            Some(why) => REFUSED + 1 + why as u64,
        }
    }

    fn add_report(&self, digest: &mut Digest) {
        add_report(&self.storage_report(), digest);
    }

    fn clear(&mut self) {
        self.reset();
    }
}

impl<NI: NodeIndex> Space for Guarded<NI> {
    type Slot = Option<Ticket>;

    fn empty() -> Option<Ticket> {
        None
    }

    fn make(alloc: Global, size: u32, max_allocs: u32) -> Result<Self, AllocError> {
        if max_allocs < 2 || max_allocs >= NI::MAX - 1 {
            return Err(AllocError);
        }
        Guarded::with_realm(alloc, size, max_allocs, 1)
    }

    fn take(&mut self, slot: &mut Option<Ticket>, size: u32, align: u32) -> u64 {
        match *slot {
            Some(grant) => {
                *slot = None;
                REFUSED | 16 | u64::from(self.free(grant))
            }
            None => {
                let granted = if align == 1 {
                    self.allocate(size)
                } else if align > 0 {
                    self.allocate_aligned(size, align)
                } else {
                    None
                };
                match granted {
                    Some(grant) => {
                        *slot = Some(grant);
                        u64::from(grant.offset)
                    }
                    None => self.why(size),
                }
            }
        }
    }

    fn why(&self, size: u32) -> u64 {
        match self.refusal(size) {
            None => REFUSED,
            Some(_) => self.allocator().why(size),
        }
    }

    fn add_report(&self, digest: &mut Digest) {
        self.allocator().add_report(digest);
    }

    fn clear(&mut self) {
        self.reset();
    }
}
