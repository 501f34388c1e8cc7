//! Makes one call of the libraries and prints its results as numbers, for `refusals/run`, which counts its
//! requests for memory and refuses some of them. These functions have no contracts; those that they call are
//! proved.
//!
//! The words are the call and, where it has tables, `by_node` or `by_field`; standard input is the
//! text of a script. The words are printed before the call, and its outcome after it: 0 for a result, 1 for
//! out of memory, 2 for a faulty text, 3 for a device that failed, and 4 where the call needs a script and
//! the text is none. Between both lines this program requests no memory itself. A third line has the numbers
//! of the results, or of the fault.
#![tactic(auto)]

mod allocators;
mod cell_writer;
mod lists;
mod numbers;
mod pictures;
mod programs;
mod scripts;
mod tickets;

use allocators::{MakeAndCall, MakeAndFill, MakeAndStore, MakeDefault, MakeLimited, Play};
use lists::{PlayList, PlayTickets};
use offset_refusal_base::layouts::Layout;
use offset_refusal_base::outcomes::code;
use offset_refusal_base::program::{Calls, run, work_on};
use std::alloc::Global;
use std::io;
use std::process::ExitCode;
use tickets::{MakeGuardedAndCall, MakeGuardedAndStore};

// The calls of the library, of tickets, scripts, lists and pictures.
struct Every;

impl Calls for Every {
    fn made_on(
        &self,
        layout: Layout,
        call: &str,
        alloc: Global,
        text: &[u8],
        cells: &mut [u64],
    ) -> Option<u32> {
        Some(match call {
            "new" => work_on(layout, &MakeDefault, alloc, text, cells),
            "limited" => work_on(layout, &MakeLimited, alloc, text, cells),
            "calls" => work_on(layout, &MakeAndCall, alloc, text, cells),
            "store" => work_on(layout, &MakeAndStore, alloc, text, cells),
            "fill" => work_on(layout, &MakeAndFill, alloc, text, cells),
            "play" => work_on(layout, &Play, alloc, text, cells),
            "list" => work_on(layout, &PlayList, alloc, text, cells),
            "tickets" => work_on(layout, &PlayTickets, alloc, text, cells),
            "guarded" => work_on(layout, &MakeGuardedAndCall, alloc, text, cells),
            "guarded_store" => work_on(layout, &MakeGuardedAndStore, alloc, text, cells),
            _ => return None,
        })
    }

    fn made(&self, call: &str, alloc: Global, text: &[u8], cells: &mut [u64]) -> Option<u32> {
        Some(match call {
            "parse" => code(scripts::parse_text(alloc, text, &mut cells.iter_mut())),
            "run" => code(scripts::run_text(alloc, text, cells)),
            "program" => code(programs::run_all(alloc, text, cells)),
            "lives" => code(pictures::put_lives(alloc, text, &mut cells.iter_mut())),
            "picture" => code(pictures::put_picture(alloc, text, &mut cells.iter_mut())),
            "drawing" => code(programs::draw_all(alloc, text, cells)),
            _ => return None,
        })
    }
}

fn main(rt: HostRuntime) -> io::Result<ExitCode> {
    run(rt, &Every)
}
