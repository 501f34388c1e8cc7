//! Copies of many heaps, and the index of heaps that are there. It changes nothing.
ghost use Rattle.std.specs.Prelude.{ℕ, ◌≡◌, ◌+◌, ◌^◌, ◌<◌, ◌≤◌, IfOk, length, map, option_copied};
ghost use Rattle.offset_heaps.specs.Soundness.{IsNoted, IsWide};
ghost use Rattle.offset_heaps.specs.State.{IsCopy, quiet};

use crate::HeapsOf;
use crate::index::Index;
use crate::limits::Limits;
use crate::slots::Slots;
use offset_allocator::{Accesses, Tables};
use offset_guarded::GuardedOf;
use std::alloc::{AllocError, Global};

/// The index of heaps that are there.
pub(crate) fn index_of<T: Tables>(
    alloc: Global,
    slots: &Slots<T>,
    limits: Limits,
) -> Result<Index, AllocError>
    requires numbers { length slots.now ≡ limits.most + limits.most_larger }
    requires few { limits.most + limits.most_larger < 2 ^ 32 }
    ensures wide { IfOk result (λ i. IsWide slots.now i) }
    ensures noted { IfOk result (λ i. (k : ℕ) → IsNoted limits slots.now i k) }
    ensures low { IfOk result (λ i. (bits : ℕ) → length slots.now ≤ 2 ^ bits → i.one.height ≤ bits) }
{
    let count = limits.most + limits.most_larger;
    let mut index = Index::with_room(alloc, count)?;
    for number in 0..count {
        index.note(slots, number, limits, &mut Accesses::new());
    }
    Ok(index)
}

// A copy of a heap, where there is one.
fn copy_of<T: Tables>(
    alloc: Global,
    heap: Option<&GuardedOf<T>>,
) -> Result<Option<GuardedOf<T>>, AllocError>
    ensures { IfOk result (λ o. o ≡ quiet (option_copied heap.entry)) }
{
    match heap {
        None => Ok(None),
        Some(heap) => Ok(Some(heap.try_clone(alloc)?)),
    }
}

// Copies of all heaps.
fn copies_of<T: Tables>(alloc: Global, slots: &Slots<T>, count: u32) -> Result<Slots<T>, AllocError>
    requires { length slots.now ≡ count }
    ensures { IfOk result (λ s. s ≡ map quiet slots.now) }
{
    let mut copies = Slots::with_room(alloc, count)?;
    for number in 0..count {
        let copy = copy_of(alloc, slots.at(number, &mut Accesses::new()))?;
        copies.put(number, copy, &mut Accesses::new());
    }
    Ok(copies)
}

impl<T: Tables> HeapsOf<T> {
    /// A copy, with memory of its own, with the same limits, realm and heaps, by number: each place that is
    /// live here is live there. Serials and the realms of heaps go on from the same numbers in both, so a
    /// later grant of one may have a place that is live in the other, for another range: use one copy in
    /// place of the other, as a snapshot, and not beside it. Nothing is known of the buffers: the copy has
    /// those of the heaps that it has.
    ///
    /// # Errors
    ///
    /// An error is returned only where an allocation failed; then nothing is made.
    ///
    /// ```
    /// let mesh = heaps.allocate(300).unwrap().place;
    /// let copy = heaps.try_clone(alloc)?;
    /// heaps.free(mesh);
    /// assert!(copy.is_live(mesh));
    /// ```
    pub fn try_clone(&self, alloc: Global) -> Result<Self, AllocError>
        ensures { IfOk result (IsCopy self.now) }
    {
        let limits = self.limits;
        let slots = copies_of(alloc, &self.slots, limits.most + limits.most_larger)?;
        let index = index_of(alloc, &slots, limits)?;
        Ok(HeapsOf {
            alloc,
            slots,
            index,
            limits,
            made: self.made,
            realm: self.realm,
            accesses: Accesses::new(),
        })
    }
}
