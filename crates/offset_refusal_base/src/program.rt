//! The lines of a program: the words of the call, its outcome, and its numbers.

use crate::layouts::{Layout, Work, run_on};
use crate::outcomes::code;
use std::alloc::{AllocError, Global};
use std::io::{Read, Write};
use std::process::ExitCode;
use std::{env, io};

// More numbers than a call has as results.
const CELLS: usize = 131_072;

// Marks a cell that has no number. No number is this one.
const EMPTY: u64 = u64::MAX;

/// The calls of a program.
pub trait Calls {
    /// Makes a call that has tables, and puts its results into the cells. `None` where no such call has this
    /// name.
    fn made_on(
        &self,
        layout: Layout,
        call: &str,
        alloc: Global,
        text: &[u8],
        cells: &mut [u64],
    ) -> Option<u32>;

    /// The same for the calls that have no tables, or choose them themselves.
    fn made(&self, call: &str, alloc: Global, text: &[u8], cells: &mut [u64]) -> Option<u32>;
}

/// The outcome of some work on a layout, whose numbers are in the cells.
pub fn work_on<W: Work>(
    layout: Layout,
    work: &W,
    alloc: Global,
    text: &[u8],
    cells: &mut [u64],
) -> u32 {
    code(run_on(layout, work, alloc, text, &mut cells.iter_mut()))
}

// The numbers that were put into the cells.
fn line(alloc: Global, cells: &[u64]) -> Result<String, AllocError> {
    let mut text = String::new(alloc);
    for cell in cells {
        if *cell != EMPTY {
            text.push_str(&format!(in alloc; "{cell} ")?)?;
        }
    }
    Ok(text)
}

/// Makes the call that the words of the program name, and prints it, its outcome and its numbers.
pub fn run<C: Calls>(rt: HostRuntime, calls: &C) -> io::Result<ExitCode> {
    let mut words = env::args(&rt)?;
    let _program = words.next();
    let call = words.next().unwrap_or(String::new(rt.alloc()));
    let tables = words.next().unwrap_or(String::new(rt.alloc()));
    let mut text = Vec::new(rt.alloc());
    rt.stdin().read_to_end(&mut text)?;
    let mut cells = vec![in rt.alloc(); EMPTY; CELLS]?;
    println!(rt; "{call} {tables}")?;
    let outcome = match tables.as_str() {
        "by_node" => calls.made_on(Layout::ByNode, &call, rt.alloc(), &text, &mut cells),
        "by_field" => calls.made_on(Layout::ByField, &call, rt.alloc(), &text, &mut cells),
        _ => calls.made(&call, rt.alloc(), &text, &mut cells),
    };
    match outcome {
        None => {
            println!(rt; "no such call")?;
            Ok(ExitCode::from(2))
        }
        Some(outcome) => {
            println!(rt; "{outcome}")?;
            let numbers = line(rt.alloc(), &cells)?;
            println!(rt; "{numbers}")?;
            Ok(ExitCode::SUCCESS)
        }
    }
}
