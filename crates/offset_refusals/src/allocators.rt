//! Allocators that are made for the header of a script.

use crate::numbers::{put_answers, put_report};
use offset_allocator::{AllocatorOf, NodeIndex, ReadError, Tables};
use offset_refusal_base::cells::{Cells, put};
use offset_refusal_base::layouts::{Kept, Work};
use offset_refusal_base::outcomes::Failure;
use offset_script::{Script, play_of};
use offset_test_base::mixed::mixed_calls;
use std::alloc::Global;

fn put_report_of<T: Tables>(cells: &mut Cells<'_>, allocator: AllocatorOf<T>) {
    put_report(cells, &allocator.storage_report());
}

/// Makes an allocator by `new`, and puts its report into the cells.
pub struct MakeDefault;

impl Work for MakeDefault {
    fn run<T: Tables>(
        &self,
        alloc: Global,
        script: &Script,
        _kept: &mut [Kept<T::Index>],
        cells: &mut Cells<'_>,
    ) -> Result<(), Failure> {
        put_report_of(cells, AllocatorOf::<T>::new(alloc, script.size)?);
        Ok(())
    }
}

// An allocator of a script's size and node limit.
fn limited<T: Tables>(alloc: Global, script: &Script) -> Result<AllocatorOf<T>, Failure> {
    let limit = script.max_allocs;
    if limit >= T::Index::MAX - 1 {
        return Err(Failure::Unfit);
    }
    Ok(AllocatorOf::with_max_allocs(alloc, script.size, limit)?)
}

/// Makes an allocator by `with_max_allocs`, and puts its report into the cells.
pub struct MakeLimited;

impl Work for MakeLimited {
    fn run<T: Tables>(
        &self,
        alloc: Global,
        script: &Script,
        _kept: &mut [Kept<T::Index>],
        cells: &mut Cells<'_>,
    ) -> Result<(), Failure> {
        put_report_of(cells, limited::<T>(alloc, script)?);
        Ok(())
    }
}

/// Makes an allocator by `with_max_allocs`, makes 1,000 calls, and puts a checksum of their results into the
/// cells.
pub struct MakeAndCall;

impl Work for MakeAndCall {
    fn run<T: Tables>(
        &self,
        alloc: Global,
        script: &Script,
        kept: &mut [Kept<T::Index>],
        cells: &mut Cells<'_>,
    ) -> Result<(), Failure> {
        put(cells, mixed_calls(&mut limited::<T>(alloc, script)?, kept));
        Ok(())
    }
}

// The same under a limit that is larger by one, or the largest that the index type admits.
fn raised<T: Tables>(alloc: Global, allocator: &AllocatorOf<T>) -> Result<AllocatorOf<T>, Failure> {
    let limit = allocator.max_allocs();
    if limit >= T::Index::MAX - 1 {
        return Err(Failure::Unfit);
    }
    Ok(allocator.raised(alloc, (limit + 1).min(T::Index::MAX - 2))?)
}

/// Makes an allocator by `with_max_allocs`, makes 1,000 calls, copies it, also under a larger limit, writes
/// its state and reads that, and puts the report of the copy, that limit, the number of bytes, and the report
/// of what was read into the cells.
pub struct MakeAndStore;

impl Work for MakeAndStore {
    fn run<T: Tables>(
        &self,
        alloc: Global,
        script: &Script,
        kept: &mut [Kept<T::Index>],
        cells: &mut Cells<'_>,
    ) -> Result<(), Failure> {
        let mut allocator = limited::<T>(alloc, script)?;
        let sum = mixed_calls(&mut allocator, kept);
        let copy = allocator.try_clone(alloc)?;
        let larger = raised(alloc, &allocator)?;
        let bytes = allocator.write_state(alloc)?;
        let read = match AllocatorOf::<T>::read_state(alloc, &bytes, script.max_allocs) {
            Err(ReadError::Memory) => return Err(Failure::OutOfMemory),
            Err(ReadError::Fault(fault)) => Err(fault),
            Ok(read) => Ok(read),
        };
        // nothing is put before the last request
        put(cells, sum);
        put_report_of(cells, copy);
        put(cells, u64::from(larger.max_allocs()));
        put(cells, bytes.len() as u64);
        match read {
            Ok(read) => put_report_of(cells, read),
            Err(fault) => put(cells, fault.at as u64),
        }
        Ok(())
    }
}

// Makes 3,000 requests for one unit each, and then a reset. It returns how many were granted.
fn fill_and_reset<T: Tables>(allocator: &mut AllocatorOf<T>) -> u64 {
    let mut granted = 0u64;
    for _ in 0..3_000u32 {
        if allocator.allocate(1).is_some() {
            granted = granted.wrapping_add(1);
        }
    }
    allocator.reset();
    granted
}

/// Makes an allocator by `with_max_allocs`, twice makes 3,000 requests and a reset, and puts the numbers of
/// grants, and the report in the end, into the cells.
pub struct MakeAndFill;

impl Work for MakeAndFill {
    fn run<T: Tables>(
        &self,
        alloc: Global,
        script: &Script,
        _kept: &mut [Kept<T::Index>],
        cells: &mut Cells<'_>,
    ) -> Result<(), Failure> {
        let mut allocator = limited::<T>(alloc, script)?;
        let first = fill_and_reset(&mut allocator);
        let second = fill_and_reset(&mut allocator);
        put(cells, first);
        put(cells, second);
        put_report_of(cells, allocator);
        Ok(())
    }
}

/// Plays the commands of a script, and puts their answers into the cells.
pub struct Play;

impl Work for Play {
    fn run<T: Tables>(
        &self,
        alloc: Global,
        script: &Script,
        _kept: &mut [Kept<T::Index>],
        cells: &mut Cells<'_>,
    ) -> Result<(), Failure> {
        let limit = script.max_allocs;
        if limit >= T::Index::MAX - 1 {
            return Err(Failure::Unfit);
        }
        let answers = play_of::<T>(alloc, script.size, limit, &script.commands)?;
        put_answers(cells, &answers);
        Ok(())
    }
}
