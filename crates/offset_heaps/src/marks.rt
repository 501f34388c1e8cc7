//! Numbers, some of which are marked: how many are, and the last of them. It touches its own row alone.
ghost use Rattle.std.specs.Prelude.{◌≡◌, ◌+◌, ◌*◌, ◌^◌, ◌<◌, ◌≤◌, IfOk, length, replicate, slice_set, sum};
ghost use Rattle.std.specs.Prelude.{if◌then◌else◌};
ghost use Rattle.offset_allocator.specs.Accesses.{Costs};
ghost use Rattle.offset_heaps.specs.Maxima.{IsLast};

use crate::maxima::Maxima;
use offset_allocator::Accesses;
use std::alloc::{AllocError, Global};
use std::marker::Model;

/// Numbers from 0 on, some of which are marked.
#[derive(Drop)]
pub(crate) struct Marks {
    // 1 for each that is marked, else 0
    row: Maxima,
    // how many are
    marked: u64,
}

impl Model for Marks {
    ghost use Rattle.offset_heaps.specs.Maxima.{Row, AreMarks};

    ghost Value = { Row };

    ghost view = { λ m. m.row };

    ghost invariant = { λ m. AreMarks m.marked m.row.keys };
}

impl Marks {
    /// Two to the power of `height` numbers, none of which is marked.
    pub(crate) fn with_height(alloc: Global, height: u32, places: usize) -> Result<Self, AllocError>
        requires low { height ≤ 32 }
        requires power { places ≡ 2 ^ height }
        ensures keys { IfOk result (λ m. m.keys ≡ replicate places 0) }
        ensures height { IfOk result (λ m. m.height ≡ height) }
    {
        Ok(Marks {
            row: Maxima::with_height(alloc, height, places)?,
            marked: 0,
        })
    }

    /// How many are marked.
    pub(crate) fn count(&self) -> u64
        ensures { result ≡ sum self.now.keys }
    {
        self.marked
    }

    /// The last one that is marked.
    pub(crate) fn last(&self, count: &mut Accesses) -> Option<u32>
        ensures last { IsLast 1 self.now.keys result }
        ensures accesses { Costs 1 (self.now.height + 1) count.old count.new }
    {
        self.row.last_at_least(1, count)
    }

    /// Marks a number, or takes its mark away.
    #[inline]
    pub(crate) fn set(&mut self, at: u32, mark: bool, count: &mut Accesses)
        requires { at < length self.old.keys }
        ensures keys { self.new.keys ≡ slice_set self.old.keys at (if mark then 1 else 0) }
        ensures height { self.new.height ≡ self.old.height }
        ensures accesses { Costs 1 (3 * self.old.height + 2) count.old count.new }
    {
        let key = if mark { 1 } else { 0 };
        let was = self.row.set(at, key, count);
        self.marked = self.marked - was as u64 + key as u64;
    }
}
