//! A writer into cells.

use offset_refusal_base::cells::{Cells, put};
use std::io;
use std::io::Write;

/// Puts each byte that is written into a cell.
#[derive(Drop)]
pub struct CellWriter<'a> {
    pub cells: Cells<'a>,
}

impl Write for CellWriter<'_> {
    fn write(&mut self, buf: &[u8]) -> io::Result<usize> {
        for byte in buf {
            put(&mut self.cells, u64::from(*byte));
        }
        Ok(buf.len())
    }

    fn flush(&mut self) -> io::Result<()> {
        Ok(())
    }
}
