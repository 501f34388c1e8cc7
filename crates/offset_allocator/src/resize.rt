//! Ranges that become smaller or larger in place. It changes one block and the free one after it, by
//! `neighbours`.
ghost use Rattle.std.specs.Prelude.{ℕ, ◌≡◌, ◌↔◌, ◌+◌, ◌<◌, ◌≤◌, false, IsTrue};
ghost use Rattle.offset_allocator.specs.Accesses.{Costs};
ghost use Rattle.offset_allocator.specs.Chain.{HasPlace, IsFreeAfter};
ghost use Rattle.offset_allocator.specs.View.{Place, free_start, units};
ghost use Rattle.offset_allocator.specs.Ranges.{IsLive, KeepsOthers, size_of};
ghost use Rattle.offset_allocator.specs.Relations.{SameState};
ghost use Rattle.offset_allocator.specs.Resizing.{CanShrink, CanGrow, HasUnits, Shrinks, Grows, ResizesTo};

use crate::accesses::Accesses;
use crate::handle::Allocation;
use crate::tables::Tables;
use crate::{AllocatorOf, neighbours};

// The units of the free block `next`, if any, directly after a block.
#[inline(always)]
fn units_after<T: Tables>(tables: &T, name: u32, next: Option<u32>, count: &mut Accesses) -> u32
    requires place { (limit last spare_count : ℕ) × (p : Place)
        × HasPlace (T.cells tables.now).chain limit last spare_count name p }
    requires next { IsFreeAfter (T.cells tables.now).chain name next }
    ensures units { (limit last spare_count : ℕ) (p : Place)
        → HasPlace (T.cells tables.now).chain limit last spare_count name p
        → result
        ≡ units (free_start p.after) }
    ensures accesses { Costs 0 1 count.old count.new }
{
    match next {
        None => 0,
        Some(following) => tables.size(following, count),
    }
}

impl<T: Tables> AllocatorOf<T> {
    /// Frees the units of a live range after its first `size`. They are free at once, in one block with the
    /// free block directly after the range, and that block is the newest of its bin; its name is that of the
    /// block that was there, or one that no block had. The handle stays live, with its offset.
    ///
    /// `false` is returned where `size` is above the units of the range, or where it is below them, no
    /// further block may exist and no free block is directly after the range; then the space is as it was.
    /// With exactly the units of the range it is `true`, at the node limit too, and the space is as it was.
    /// The handle has to be live, and only its name counts, as in `free`. It makes at most 128 accesses to
    /// the tables, and takes no memory.
    ///
    /// ```
    /// let mesh = space.allocate(300).unwrap();
    /// assert!(space.shrink(mesh, 200));
    /// assert_eq!(space.allocation_size(mesh), 200);
    /// ```
    pub fn shrink(&mut self, allocation: Allocation<T::Index>, size: u32) -> bool
        requires live { IsLive allocation.name self.old }
        // It is done exactly when the range has at least `size` units, and, if it has more, a free block is
        // directly after it or there is room for one more block.
        ensures done { IsTrue result ↔ CanShrink allocation.name size self.old }
        // Then the range has `size` units, from its first one on. All other ranges stay.
        ensures range { IsTrue result → HasUnits allocation.name size self.old self.new }
        ensures others { KeepsOthers allocation.name self.old self.new }
        // A refusal leaves the space as it was.
        ensures same { result ≡ false → SameState self.old self.new }
        // It makes at most 128 accesses to table cells, at least 1, and at least 16 where units are freed.
        ensures accesses { Costs 1 128 self.old.accesses self.new.accesses }
        ensures accesses_done { IsTrue result → size < size_of allocation.name self.old
            → self.old.accesses + 16 ≤ self.new.accesses }
        // The step as a whole: what becomes of the range and of the free block after it.
        ensures step { Shrinks allocation.name size self.old self.new result }
    {
        let name = allocation.name();
        let old_size = self.store.tables.size(name, &mut self.store.accesses);
        if size > old_size {
            return false;
        }
        self.resize_to(name, old_size, size)
    }

    /// Adds units to a live range at its end, so that it has `size`: those of the free block directly after
    /// it. What remains of that block stays free, and is the newest of its bin; its name is that of the
    /// block, or one that no block had. The handle stays live, with its offset.
    ///
    /// `false` is returned where `size` is below the units of the range, or where it lacks units and no free
    /// block directly after it has as many; then the space is as it was. With exactly the units of the range
    /// it is `true`, and the space is as it was. The handle has to be live, and only its name counts, as in
    /// `free`. It makes at most 128 accesses to the tables, and takes no memory.
    ///
    /// ```
    /// let mesh = space.allocate(300).unwrap();
    /// assert!(space.grow_in_place(mesh, 400));
    /// assert_eq!(space.allocation_size(mesh), 400);
    /// ```
    pub fn grow_in_place(&mut self, allocation: Allocation<T::Index>, size: u32) -> bool
        requires live { IsLive allocation.name self.old }
        // It is done exactly when the range has at most `size` units, and at least `size` with those of the
        // free block directly after it.
        ensures done { IsTrue result ↔ CanGrow allocation.name size self.old }
        // Then the range has `size` units, from its first one on. All other ranges stay.
        ensures range { IsTrue result → HasUnits allocation.name size self.old self.new }
        ensures others { KeepsOthers allocation.name self.old self.new }
        // A refusal leaves the space as it was.
        ensures same { result ≡ false → SameState self.old self.new }
        // It makes at most 128 accesses to table cells, at least 1, and at least 11 where units are added.
        ensures accesses { Costs 1 128 self.old.accesses self.new.accesses }
        ensures accesses_done { IsTrue result → size_of allocation.name self.old < size
            → self.old.accesses + 11 ≤ self.new.accesses }
        // The step as a whole: what becomes of the range and of the free block after it.
        ensures step { Grows allocation.name size self.old self.new result }
    {
        let name = allocation.name();
        let old_size = self.store.tables.size(name, &mut self.store.accesses);
        if size < old_size {
            return false;
        }
        self.resize_to(name, old_size, size)
    }

    // Makes the range of a live name, which has `old_size` units, one of `size` units in place, with the free
    // block directly after it.
    fn resize_to(&mut self, name: u32, old_size: u32, size: u32) -> bool
        requires live { IsLive name self.old }
        requires old_size { old_size ≡ size_of name self.old }
        ensures step { ResizesTo name size self.old self.new result }
        ensures range { IsTrue result → HasUnits name size self.old self.new }
        ensures others { KeepsOthers name self.old self.new }
        ensures same { result ≡ false → SameState self.old self.new }
        ensures accesses { Costs 0 127 self.old.accesses self.new.accesses }
        ensures accesses_less { IsTrue result → size < old_size → self.old.accesses + 15 ≤ self.new.accesses }
        ensures accesses_more { IsTrue result → old_size < size → self.old.accesses + 10 ≤ self.new.accesses }
    {
        if size == old_size {
            return true;
        }
        let next = neighbours::free_after(&self.store.tables, name, &mut self.store.accesses);
        let more = units_after(&self.store.tables, name, next, &mut self.store.accesses);
        if size > old_size + more {
            return false;
        }
        if next.is_none() && !self.admits_blocks(1) {
            return false;
        }
        neighbours::resize(&mut self.store, name, old_size, next, size);
        self.free_total = self.free_total + old_size - size;
        true
    }
}
