//! Empty heaps, and those of a number, that are given back. It changes one slot, and notes it in the index.
ghost use Rattle.std.specs.Prelude.{ℕ, ◌≡◌, ◌↔◌, ◌+◌, ◌*◌, ◌^◌, ◌<◌, ◌≤◌, None, IfSome, IsSome, IsTrue};
ghost use Rattle.std.specs.Prelude.{false, true};

use crate::HeapsOf;
use offset_allocator::Tables;

impl<T: Tables> HeapsOf<T> {
    ghost use Rattle.offset_heaps.specs.Heaps.{IsSame, KeepsAll, KeepsOtherHeaps, Puts, TakesFewAccesses};
    ghost use Rattle.offset_heaps.specs.Heaps.{empties, heap_at, is_empty, numbers};

    /// Drops the last empty heap, by number, if more than `keep` heaps are empty, and returns its number:
    /// drop its buffer. `None` is returned where at most `keep` are empty; then nothing changes. Call it
    /// until it returns `None`: each call takes some steps for each bit of the numbers.
    ///
    /// No place loses its range, and a place that the heap granted is never live again, though a later heap
    /// may have its number.
    ///
    /// ```
    /// let mesh = heaps.allocate(300).unwrap().place;
    /// assert_eq!(heaps.drop_empty(0), None);
    /// heaps.free(mesh);
    /// assert_eq!(heaps.drop_empty(0), Some(mesh.heap));
    /// ```
    pub fn drop_empty(&mut self, keep: u32) -> Option<u32>
        ensures kept { result ≡ None ↔ (empties self.old.slots ≤ keep) }
        ensures same { result ≡ None → IsSame self.old self.new }
        // It is empty, and no heap behind it is.
        ensures empty { IfSome result (λ k. is_empty (heap_at k self.old) ≡ true) }
        ensures last { IfSome result (λ k. (j : ℕ) → k < j → is_empty (heap_at j self.old) ≡ false) }
        // All other heaps stay, and every place keeps its range.
        ensures heaps { IfSome result (λ k. Puts k None self.old self.new) }
        ensures places { KeepsAll self.old self.new }
        ensures accesses { TakesFewAccesses self.old self.new }
    {
        if self.index.empty.count() <= keep as u64 {
            return None;
        }
        let last = self.index.empty.last(&mut self.accesses)?;
        self.give_up(last);
        Some(last)
    }

    /// Drops the heap of a number, if it is empty, and returns whether it did: then drop its buffer. A caller
    /// that asks this of the heap of each place that it frees keeps no empty heap, and walks over none.
    ///
    /// ```
    /// let mesh = heaps.allocate(300).unwrap().place;
    /// assert!(!heaps.drop_heap(mesh.heap));
    /// heaps.free(mesh);
    /// assert!(heaps.drop_heap(mesh.heap));
    /// ```
    pub fn drop_heap(&mut self, number: u32) -> bool
        ensures done { IsTrue result ↔ (is_empty (heap_at number self.old) ≡ true) }
        ensures heaps { result ≡ true → Puts number None self.old self.new }
        ensures same { result ≡ false → IsSame self.old self.new }
        ensures places { KeepsAll self.old self.new }
        ensures accesses { TakesFewAccesses self.old self.new }
    {
        if !self.slots.is_empty_at(number, &mut self.accesses) {
            return false;
        }
        self.give_up(number)
    }

    /// Takes back the heap of a number, with all that it granted, and returns whether there was one: where
    /// the buffer of a new heap can't be made, or is lost. No place of it is ever live again, and all other
    /// heaps stay.
    ///
    /// ```
    /// let mesh = heaps.allocate(300).unwrap().place;
    /// assert!(heaps.give_up(mesh.heap));
    /// assert!(!heaps.is_live(mesh));
    /// ```
    pub fn give_up(&mut self, number: u32) -> bool
        ensures done { IsTrue result ↔ IsSome (heap_at number self.old) }
        // Then its number has no heap, and all else stays.
        ensures heaps { result ≡ true → Puts number None self.old self.new }
        ensures same { result ≡ false → IsSame self.old self.new }
        ensures gone { heap_at number self.new ≡ None }
        ensures others { KeepsOtherHeaps number self.old self.new }
        ensures accesses { (bits : ℕ) → numbers self.old ≤ 2 ^ bits
            → self.new.accesses ≤ self.old.accesses + 12 * bits + 16 }
    {
        if !self.slots.has(number, &mut self.accesses) {
            return false;
        }
        self.slots.put(number, None, &mut self.accesses);
        self.index
            .note(&self.slots, number, self.limits, &mut self.accesses);
        true
    }
}
