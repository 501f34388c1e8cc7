//! Texts that are parsed and run.

use crate::cell_writer::CellWriter;
use crate::numbers::{put_fault, put_script};
use offset_refusal_base::cells::Cells;
use offset_refusal_base::outcomes::Failure;
use offset_script::{FromRead, IntoWrite, RunFault, ScriptFault, parse, run};
use std::alloc::Global;

/// Parses a text, and puts the script that it means, or its fault, into the cells.
pub fn parse_text(alloc: Global, text: &[u8], cells: &mut Cells<'_>) -> Result<(), Failure> {
    match parse(alloc, text) {
        Ok(script) => {
            put_script(cells, &script);
            Ok(())
        }
        Err(ScriptFault::Memory) => Err(Failure::OutOfMemory),
        Err(fault) => {
            put_fault(cells, fault);
            Err(Failure::Faulty)
        }
    }
}

/// Runs a text, and puts each byte that it writes into a cell, and then the fault if there is one.
pub fn run_text(alloc: Global, text: &[u8], cells: &mut [u64]) -> Result<(), Failure> {
    let mut output = IntoWrite::new(CellWriter {
        cells: cells.iter_mut(),
    });
    let result = run(alloc, &mut FromRead::new(text), &mut output);
    let CellWriter { mut cells } = output.into_inner();
    match result {
        Ok(()) => Ok(()),
        Err(RunFault::Memory) => Err(Failure::OutOfMemory),
        Err(RunFault::Script(fault)) => {
            put_fault(&mut cells, fault);
            Err(Failure::Faulty)
        }
        Err(RunFault::Read | RunFault::Write) => Err(Failure::Device),
    }
}
