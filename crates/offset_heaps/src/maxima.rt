//! A row of keys, one for the number of each heap: the first and the last number whose key is large enough
//! are found in few steps, by a tree of maxima. It touches its own cells alone, and counts each access.
ghost use Rattle.std.specs.Prelude.{ℕ, ◌≡◌, ◌+◌, ◌*◌, ◌/◌, ◌^◌, ◌<◌, ◌≤◌, IfOk, length, max, replicate, slice_set};
ghost use Rattle.offset_allocator.specs.Accesses.{Costs};
ghost use Rattle.offset_heaps.specs.Maxima.{IsFirst, IsLast, cell};

use offset_allocator::Accesses;
use std::alloc::{AllocError, Global};
use std::marker::Model;

/// A key for each number from 0 on.
#[derive(Drop)]
pub(crate) struct Maxima {
    // the keys are the second half; before them, from cell 1 on, each cell has the larger one of two
    cells: Vec<u32>,
    height: u32,
}

impl Model for Maxima {
    ghost use Rattle.std.specs.Prelude.{drop, ◌^◌};
    ghost use Rattle.offset_heaps.specs.Maxima.{Row, IsTree};

    ghost Value = { Row };

    ghost view = { λ m. record { keys = drop (2 ^ m.height) m.cells.items; height = m.height } };

    ghost invariant = { λ m. IsTree m.height m.cells.items };
}

// Reads a cell.
#[inline(always)]
fn read(cells: &Vec<u32>, place: usize, count: &mut Accesses) -> u32
    requires { place < length cells.now.items }
    ensures cell { result ≡ cell place cells.now.items }
    ensures accesses { count.new ≡ count.old + 1 }
{
    count.tick();
    cells[place]
}

// The larger one of a cell's key, which is given, and that of the other cell below the same one.
#[inline(always)]
fn larger_of_two(cells: &Vec<u32>, place: usize, key: u32, count: &mut Accesses) -> u32
    requires there { 2 * (place / 2) + 1 < length cells.now.items }
    requires key { key ≡ cell place cells.now.items }
    ensures larger { result
        ≡ max (cell (2 * (place / 2)) cells.now.items) (cell (2 * (place / 2) + 1) cells.now.items) }
    ensures accesses { count.new ≡ count.old + 1 }
{
    if place % 2 == 0 {
        key.max(read(cells, place + 1, count))
    } else {
        key.max(read(cells, place - 1, count))
    }
}

// Writes a cell.
#[inline(always)]
fn write(cells: &mut Vec<u32>, place: usize, key: u32, count: &mut Accesses)
    requires { place < length cells.old.items }
    ensures cells { cells.new.items ≡ slice_set cells.old.items place key }
    ensures accesses { count.new ≡ count.old + 1 }
{
    count.tick();
    cells[place] = key;
}

/// The levels that a row of `count` numbers needs, and two to the power of them.
pub(crate) fn levels_for(count: u32) -> (u32, usize)
    ensures low { result.0 ≤ 32 }
    ensures power { result.1 ≡ 2 ^ result.0 }
    ensures room { count ≤ result.1 }
    ensures least { (bits : ℕ) → count ≤ 2 ^ bits → result.0 ≤ bits }
{
    let mut height = 0u32;
    let mut places = 1usize;
    while height < 32 && places < count as usize {
        places *= 2;
        height += 1;
    }
    (height, places)
}

impl Maxima {
    /// Two to the power of `height` keys, each 0.
    pub(crate) fn with_height(alloc: Global, height: u32, places: usize) -> Result<Self, AllocError>
        requires low { height ≤ 32 }
        requires power { places ≡ 2 ^ height }
        ensures keys { IfOk result (λ m. m.keys ≡ replicate places 0) }
        ensures height { IfOk result (λ m. m.height ≡ height) }
    {
        let mut cells = Vec::with_capacity(alloc, 2 * places)?;
        for _place in 0..2 * places {
            cells.push(0)?;
        }
        Ok(Maxima { cells, height })
    }

    /// The first number whose key is at least `least`, or `None` where there is none.
    #[inline]
    pub(crate) fn first_at_least(&self, least: u64, count: &mut Accesses) -> Option<u32>
        requires { 1 ≤ least }
        ensures first { IsFirst least self.now.keys result }
        ensures accesses { Costs 1 (self.now.height + 1) count.old count.new }
    {
        if (read(&self.cells, 1, count) as u64) < least {
            return None;
        }
        let mut place = 1;
        for _level in 0..self.height {
            place *= 2;
            if (read(&self.cells, place, count) as u64) < least {
                place += 1;
            }
        }
        Some((place - self.cells.len() / 2) as u32)
    }

    /// The last number whose key is at least `least`, or `None` where there is none.
    pub(crate) fn last_at_least(&self, least: u64, count: &mut Accesses) -> Option<u32>
        requires { 1 ≤ least }
        ensures last { IsLast least self.now.keys result }
        ensures accesses { Costs 1 (self.now.height + 1) count.old count.new }
    {
        let mut last = 1;
        if (read(&self.cells, last, count) as u64) < least {
            return None;
        }
        for _level in 0..self.height {
            last = 2 * last + 1;
            if (read(&self.cells, last, count) as u64) < least {
                last -= 1;
            }
        }
        Some((last - self.cells.len() / 2) as u32)
    }

    /// Writes the key of a number, and returns the one that it had. It is inlined, since most keys stay: out of
    /// line a step takes about a tenth more instructions by `release`.
    #[inline]
    pub(crate) fn set(&mut self, at: u32, key: u32, count: &mut Accesses) -> u32
        requires { at < length self.old.keys }
        ensures was { result ≡ cell at self.old.keys }
        ensures keys { self.new.keys ≡ slice_set self.old.keys at key }
        ensures height { self.new.height ≡ self.old.height }
        ensures few { length self.old.keys ≤ 2 ^ 32 }
        ensures accesses { Costs 1 (3 * self.old.height + 2) count.old count.new }
    {
        let mut place = self.cells.len() / 2 + at as usize;
        let was = read(&self.cells, place, count);
        if was == key {
            return was;
        }
        write(&mut self.cells, place, key, count);
        let mut larger = key;
        for _level in 0..self.height {
            larger = larger_of_two(&self.cells, place, larger, count);
            place /= 2;
            if read(&self.cells, place, count) == larger {
                return was;
            }
            write(&mut self.cells, place, larger, count);
        }
        was
    }
}
