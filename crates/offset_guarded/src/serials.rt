//! The serials of grants, by name. It touches its own numbers alone.
ghost use Rattle.std.specs.Prelude.{ℕ, ◌≡◌, ◌↔◌, ◌+◌, ◌/◌, ◌<◌, ◌≤◌, [], ◌∷◌, ◌++◌, IfOk, IfSome, IsTrue};
ghost use Rattle.std.specs.Prelude.{None, false, length, slice_set, vec_capacity, vec_len};
ghost use Rattle.offset_guarded.specs.Guard.{cell, covering, last_serial};
ghost use Rattle.offset_guarded.specs.Numbers.{numbers};
ghost use Rattle.offset_guarded.specs.StateFaults.{IsFirstAbove};

use crate::numbers::number;
use std::alloc::{AllocError, Global};
use std::marker::Model;

/// The serial that each name was last granted with, 0 before its first grant, and the number of serials given
/// so far.
#[derive(Drop)]
pub(crate) struct Serials {
    cells: Vec<u64>,
    given: u64,
}

impl Model for Serials {
    ghost use Rattle.std.specs.Prelude.{vec_capacity};
    ghost use Rattle.offset_guarded.specs.Guard.{Table};

    ghost Value = { Table };

    ghost view = { λ s. record { cells = s.cells.items; given = s.given; room = vec_capacity s.cells } };
}

// Adds a cell at the end of a table that has room for it. `push_reserved`, unlike `push`, promises that the
// memory stays the same. It is inlined: out of line a step takes 1 to 2% more instructions by `lto`, though each
// cell is made once.
#[inline(always)]
fn push_within(cells: &mut Vec<u64>, serial: u64)
    requires { vec_len cells.old < vec_capacity cells.old }
    ensures items { cells.new.items ≡ cells.old.items ++ serial ∷ [] }
    ensures len { vec_len cells.new ≡ vec_len cells.old + 1 }
    ensures memory { vec_capacity cells.new ≡ vec_capacity cells.old }
{
    cells.push_reserved(serial);
}

impl Serials {
    /// No serial, and memory for those of this many names.
    pub(crate) fn with_room(alloc: Global, names: u32) -> Result<Self, AllocError>
        ensures { IfOk result (λ s. s ≡ record { cells = []; given = 0; room = names }) }
    {
        Ok(Serials {
            cells: Vec::with_capacity(alloc, names as usize)?,
            given: 0,
        })
    }

    /// A copy, with memory for at least this many names.
    pub(crate) fn try_clone(&self, alloc: Global, names: u32) -> Result<Self, AllocError>
        ensures cells { IfOk result (λ s. s.cells ≡ self.now.cells) }
        ensures given { IfOk result (λ s. s.given ≡ self.now.given) }
        ensures room { IfOk result (λ s. names ≤ s.room) }
    {
        let mut cells = Vec::with_capacity(alloc, self.cells.len().max(names as usize))?;
        for name in 0..self.cells.len() {
            push_within(&mut cells, self.cells[name]);
        }
        Ok(Serials {
            cells,
            given: self.given,
        })
    }

    /// The serials of these bytes, of so many grants, and memory for at least this many names.
    pub(crate) fn of_bytes(
        alloc: Global,
        bytes: &[u8],
        grants: u64,
        names: u32,
    ) -> Result<Self, AllocError>
        ensures cells { IfOk result (λ s. s.cells ≡ numbers (length bytes.now / 8) bytes.now) }
        ensures given { IfOk result (λ s. s.given ≡ grants) }
        ensures room { IfOk result (λ s. names ≤ s.room) }
    {
        let count = bytes.len() / 8;
        let mut cells = Vec::with_capacity(alloc, count.max(names as usize))?;
        for place in 0..count {
            push_within(&mut cells, number(bytes, place));
        }
        Ok(Serials {
            cells,
            given: grants,
        })
    }

    /// The serials by name.
    pub(crate) fn cells(&self) -> &[u64]
        ensures { result.now ≡ self.now.cells }
    {
        &self.cells
    }

    /// The first name whose serial is above the number that is given.
    pub(crate) fn first_above(&self) -> Option<usize>
        ensures none { result ≡ None → (x : ℕ) → cell x self.now.cells ≤ self.now.given }
        ensures some { IfSome result (IsFirstAbove self.now.given self.now.cells) }
    {
        for name in 0..self.cells.len() {
            if self.cells[name] > self.given {
                return Some(name);
            }
        }
        None
    }

    /// Makes the cells of all names below a number.
    #[inline]
    pub(crate) fn cover(&mut self, names: u32)
        requires { names ≤ self.old.room }
        ensures covers { names ≤ length self.new.cells }
        ensures cells { (x : ℕ) → cell x self.new.cells ≡ cell x self.old.cells }
        ensures table { self.new.cells ≡ covering names self.old.cells }
        ensures given { self.new.given ≡ self.old.given }
        ensures room { self.new.room ≡ self.old.room }
    {
        while self.cells.len() < names as usize {
            push_within(&mut self.cells, 0);
        }
    }

    /// The serial that a name was last granted with, or 0.
    #[inline]
    pub(crate) fn at(&self, name: u32) -> u64
        ensures { result ≡ cell name self.now.cells }
    {
        match self.cells.get(name as usize) {
            None => 0,
            Some(serial) => *serial,
        }
    }

    /// Whether a name was last granted with a serial.
    #[inline]
    pub(crate) fn is_last(&self, name: u32, serial: u64) -> bool
        ensures { IsTrue result ↔ (serial ≡ cell name self.now.cells) }
    {
        match self.cells.get(name as usize) {
            None => serial == 0,
            Some(last) => serial == *last,
        }
    }

    /// How many serials are given.
    pub(crate) fn count(&self) -> u64
        ensures { result ≡ self.now.given }
    {
        self.given
    }

    /// Whether all serials are given.
    #[inline]
    pub(crate) fn is_spent(&self) -> bool
        ensures spent { IsTrue result ↔ (self.now.given ≡ last_serial) }
        ensures left { result ≡ false → self.now.given < last_serial }
    {
        self.given == u64::MAX
    }

    /// Gives the next serial to a name.
    #[inline]
    pub(crate) fn give(&mut self, name: u32) -> u64
        requires made { name < length self.old.cells }
        requires left { self.old.given < last_serial }
        ensures serial { result ≡ self.old.given + 1 }
        ensures table { self.new ≡ record self.old {
          cells = slice_set self.old.cells name (self.old.given + 1);
          given = self.old.given + 1;
        } }
    {
        let serial = self.given + 1;
        self.given = serial;
        self.cells[name as usize] = serial;
        serial
    }
}
