//! The two programs that read scripts, up to the status that they exit with.

use crate::cell_writer::CellWriter;
use crate::pictures::TITLE;
use offset_pictures::draw_program;
use offset_refusal_base::outcomes::Failure;
use offset_script::{FromRead, IntoWrite, run_program};
use std::alloc::Global;

// What the first bytes of the errors are.
const MOST: usize = 32;

const OUT_OF_MEMORY: &[u8] = b"out of memory\n";

// Whether errors are these bytes and nothing else.
fn are(errors: &[u64; MOST], wanted: &[u8]) -> bool {
    errors.iter().enumerate().all(|(place, cell)| {
        let byte = match wanted.get(place) {
            None => u64::MAX,
            Some(byte) => u64::from(*byte),
        };
        *cell == byte
    })
}

// What a status says, where the errors are those that it has to have.
fn ended(status: u8, errors: &[u64; MOST]) -> Result<(), Failure> {
    match status {
        0 if are(errors, b"") => Ok(()),
        3 if are(errors, OUT_OF_MEMORY) => Err(Failure::OutOfMemory),
        _ => Err(Failure::Device),
    }
}

/// Plays a script as its program does, and puts each byte of the output into a cell. A status with other
/// errors than it has to have is `Device`.
pub fn run_all(alloc: Global, text: &[u8], cells: &mut [u64]) -> Result<(), Failure> {
    let mut errors = [u64::MAX; MOST];
    let status = run_program(
        alloc,
        &mut FromRead::new(text),
        &mut IntoWrite::new(CellWriter {
            cells: cells.iter_mut(),
        }),
        &mut IntoWrite::new(CellWriter {
            cells: errors.iter_mut(),
        }),
    );
    ended(status, &errors)
}

/// The same for the program that draws.
pub fn draw_all(alloc: Global, text: &[u8], cells: &mut [u64]) -> Result<(), Failure> {
    let mut errors = [u64::MAX; MOST];
    let status = draw_program(
        alloc,
        TITLE,
        &mut FromRead::new(text),
        &mut IntoWrite::new(CellWriter {
            cells: cells.iter_mut(),
        }),
        &mut IntoWrite::new(CellWriter {
            cells: errors.iter_mut(),
        }),
    );
    ended(status, &errors)
}
