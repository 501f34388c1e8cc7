//! Cells that take the numbers of results.

use std::slice::IterMut;

/// Cells of the caller, which take numbers. Numbers past the last cell are lost.
pub type Cells<'a> = IterMut<'a, u64>;

/// Puts one number into the next cell.
pub fn put(cells: &mut Cells<'_>, number: u64) {
    if let Some(cell) = cells.next() {
        *cell = number;
    }
}
