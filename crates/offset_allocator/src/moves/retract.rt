//! Takes free units off the end of a space. It changes the last block alone, by `chain` and `bins`.
ghost use Rattle.std.specs.Prelude.{◌≡◌, ◌↔◌, ◌+◌, ◌<◌, ◌≤◌, IsTrue, IfSome, None, Some, false, true, length};
ghost use Rattle.offset_allocator.specs.Accesses.{Costs};
ghost use Rattle.offset_allocator.specs.Cells.{node};
ghost use Rattle.offset_allocator.specs.Ranges.{KeepsAll};
ghost use Rattle.offset_allocator.specs.Relations.{SameState};
ghost use Rattle.offset_allocator.specs.Moving.Retracting.{CanRetract, Retracts};
ghost use Rattle.offset_allocator.specs.View.{ends_used};

use crate::accesses::Accesses;
use crate::small_float::uint_to_float_round_down;
use crate::tables::Tables;
use crate::{AllocatorOf, bins, chain};

// The name of the block before the last one, where that has no unit left, if there is one.
fn next_end<T: Tables>(tables: &T, last: u32, left: u32, count: &mut Accesses) -> Option<u32>
    requires { last < length (T.cells tables.now).chain.nodes }
    ensures some { IfSome result (λ x. (left ≡ 0)
        × (Some x ≡ (node (T.cells tables.now).chain last).before)) }
    ensures none { result ≡ None → left ≡ 0 → None ≡ (node (T.cells tables.now).chain last).before }
    ensures accesses { Costs 0 1 count.old count.new }
{
    if left == 0 {
        chain::before(tables, last, count)
    } else {
        None
    }
}

impl<T: Tables> AllocatorOf<T> {
    // Takes units off the last block, which is free, where it has that many.
    fn take_end(&mut self, less: u32) -> bool
        requires some { 0 < less }
        requires free { ends_used self.old.blocks ≡ false }
        ensures step { Retracts less self.old self.new result }
        ensures kept { KeepsAll self.old self.new }
        ensures accesses { Costs 1 30 self.old.accesses self.new.accesses }
        ensures accesses_min { result ≡ true → self.old.accesses + 9 ≤ self.new.accesses }
    {
        let end = self.store.last;
        let size = self.store.tables.size(end, &mut self.store.accesses);
        if size < less {
            return false;
        }
        let left = size - less;
        let previous = next_end(&self.store.tables, end, left, &mut self.store.accesses);
        bins::remove(&mut self.store, end, size);
        self.size -= less;
        self.free_total -= less;
        match previous {
            Some(previous) => chain::drop_end(&mut self.store, previous, size),
            None => {
                chain::trim(&mut self.store.tables, end, left, &mut self.store.accesses);
                bins::push(&mut self.store, end, uint_to_float_round_down(left));
            }
        }
        true
    }

    /// Takes `less` free units off the end of the space, the reverse of `extend`: from the last block, which
    /// goes where nothing is left of it and another one is before it. What is left of it is the newest of its
    /// bin.
    ///
    /// `false` is returned where the last block is used or has fewer units; then the space is as it was. With
    /// 0 units it is `true`, and the space is as it was too. It makes at most 64 accesses to the tables, and
    /// takes no memory.
    ///
    /// ```
    /// space.allocate(300);
    /// assert!(space.retract(700));
    /// assert_eq!(space.size(), 300);
    /// assert!(!space.retract(1));
    /// ```
    pub fn retract(&mut self, less: u32) -> bool
        // It is done exactly when the last block is free and has that many units.
        ensures done { IsTrue result ↔ (1 ≤ less → CanRetract less self.old) }
        // Then the space has as many units fewer. All ranges stay, and a refusal leaves the space as it was.
        ensures size { IsTrue result → self.new.size + less ≡ self.old.size }
        ensures kept { KeepsAll self.old self.new }
        ensures same { result ≡ false → SameState self.old self.new }
        // It makes at most 64 accesses to table cells, and at least 10 where it takes units.
        ensures accesses { Costs 0 64 self.old.accesses self.new.accesses }
        ensures accesses_min { result ≡ true → 0 < less → self.old.accesses + 10 ≤ self.new.accesses }
        // The step as a whole: whether it is done, and what the last block is then.
        ensures step { Retracts less self.old self.new result }
    {
        if less == 0 {
            return true;
        }
        let end = self.store.last;
        if chain::is_used(&self.store.tables, end, &mut self.store.accesses) {
            return false;
        }
        self.take_end(less)
    }
}
