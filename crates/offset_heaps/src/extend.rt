//! Heaps whose space becomes larger in place. It changes one slot, and notes it in the index.
ghost use Rattle.std.specs.Prelude.{◌≡◌, ◌↔◌, ◌+◌, ◌<◌, None, Ok, IfOk, IsErr, IsSome, IsTrue, OnErr};
ghost use Rattle.std.specs.Prelude.{false, option_map, true};
ghost use Rattle.offset_heaps.specs.Extending.{CanExtendIn, ExtendsHeap, MustExtendIn};
ghost use Rattle.offset_heaps.specs.Heaps.{units_of_heap};
ghost use Rattle.offset_heaps.specs.Twins.{AreTwins};

use crate::{HeapsOf, heap};
use offset_allocator::Tables;
use std::alloc::AllocError;

impl<T: Tables> HeapsOf<T> {
    ghost use Rattle.offset_heaps.specs.Heaps.{IsSame, KeepsAll, TakesFewAccesses, heap_at};

    /// Adds `more` units at the end of the heap of a number, as `GuardedOf::extend` does, and returns whether it
    /// did: for a buffer that became larger in place. Every place keeps its range. A usual heap may have
    /// more units than `Limits` say then; once it is dropped, its number has the units of the limits again.
    ///
    /// `false` is returned where the number has no heap, where the heap would have more than 4294967295 units,
    /// or where its last block is used and no further block may exist under its largest node limit; then all is
    /// as it was. With 0 units it is `true` where the number has a heap. Where the units become a further block
    /// of a usual heap, for which its own limit leaves no node, that limit is first doubled, up to `max_allocs`.
    ///
    /// # Errors
    ///
    /// An error is returned only where the memory for more nodes was refused; then all is as it was.
    ///
    /// ```
    /// heaps.allocate(900).unwrap();
    /// assert!(heaps.extend_heap(0, 500)?);
    /// assert_eq!(heaps.units_of_heap(0), Some(1500));
    /// assert_eq!(heaps.allocate(512).unwrap().place.heap, 0);
    /// ```
    pub fn extend_heap(&mut self, number: u32, more: u32) -> Result<bool, AllocError>
        // It is done exactly where the number has a heap that can have `more` units more.
        ensures done { IfOk result
            (λ done. IsTrue done ↔ CanExtendIn self.old.limits number more (heap_at number self.old)) }
        ensures size { result ≡ Ok true → option_map units_of_heap (heap_at number self.new)
            ≡ option_map (λ g. units_of_heap g + more) (heap_at number self.old) }
        // Every place keeps its range.
        ensures kept { KeepsAll self.old self.new }
        // Where it is not done, every later call returns the same as if this one had not been made.
        ensures refused { result ≡ Ok false → AreTwins self.old self.new }
        // Memory is requested only for a heap whose node limit has to be raised, and that can be extended.
        ensures must { IsErr result → MustExtendIn self.old.limits number more (heap_at number self.old)
            × CanExtendIn self.old.limits number more (heap_at number self.old) }
        ensures same { OnErr result (IsSame self.old self.new) }
        ensures none { heap_at number self.old ≡ None → IsSame self.old self.new }
        // The step of its heap. All other heaps are as they were.
        ensures step { IfOk result
            (λ done. IsSome (heap_at number self.old) → ExtendsHeap number more done self.old self.new) }
        ensures accesses { TakesFewAccesses self.old self.new }
    {
        if !self.slots.has(number, &mut self.accesses) {
            return Ok(false);
        }
        let done = heap::extend_heap(
            self.alloc,
            self.slots.heap_mut(number, &mut self.accesses),
            number,
            self.limits,
            more,
        )?;
        self.index
            .note(&self.slots, number, self.limits, &mut self.accesses);
        Ok(done)
    }
}
