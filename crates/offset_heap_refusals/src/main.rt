//! The same of many heaps as `offset_refusals`: makes one call and prints its results as numbers.
#![tactic(auto)]

mod heaps;

use heaps::{
    MakeHeaps, MakeHeapsAndCall, MakeHeapsAndDump, MakeHeapsAndExtend, MakeHeapsAndGrow,
    MakeHeapsAndStore, MakeManyNumbers,
};
use offset_refusal_base::layouts::Layout;
use offset_refusal_base::program::{Calls, run, work_on};
use std::alloc::Global;
use std::io;
use std::process::ExitCode;

// The calls of many heaps.
struct OfHeaps;

impl Calls for OfHeaps {
    fn made_on(
        &self,
        layout: Layout,
        call: &str,
        alloc: Global,
        text: &[u8],
        cells: &mut [u64],
    ) -> Option<u32> {
        Some(match call {
            "heaps" => work_on(layout, &MakeHeaps, alloc, text, cells),
            "heaps_calls" => work_on(layout, &MakeHeapsAndCall, alloc, text, cells),
            "heaps_grow" => work_on(layout, &MakeHeapsAndGrow, alloc, text, cells),
            "heaps_extend" => work_on(layout, &MakeHeapsAndExtend, alloc, text, cells),
            "heaps_many" => work_on(layout, &MakeManyNumbers, alloc, text, cells),
            "heaps_dump" => work_on(layout, &MakeHeapsAndDump, alloc, text, cells),
            "heaps_store" => work_on(layout, &MakeHeapsAndStore, alloc, text, cells),
            _ => return None,
        })
    }

    // each has tables
    fn made(&self, _call: &str, _alloc: Global, _text: &[u8], _cells: &mut [u64]) -> Option<u32> {
        None
    }
}

fn main(rt: HostRuntime) -> io::Result<ExitCode> {
    run(rt, &OfHeaps)
}
