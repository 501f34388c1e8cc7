//! Guarded allocators, and calls of every kind with tickets.

use offset_allocator::{ByNode, NodeIndex, ReadError, Tables};
use offset_guarded::{Beside, GuardedOf, Ticket};
use offset_refusal_base::cells::{Cells, put};
use offset_refusal_base::layouts::{Kept, Work};
use offset_refusal_base::outcomes::Failure;
use offset_script::Script;
use offset_test_base::random::Random;
use std::alloc::Global;

// Makes one call. It returns the result as a number.
fn call<T: Tables>(
    space: &mut GuardedOf<T>,
    kept: &mut Option<Ticket>,
    kind: u32,
    number: u32,
) -> u64 {
    match *kept {
        None => {
            *kept = match kind % 4 {
                0 => space.allocate_aligned(number, 8),
                1 => space.allocate_tight(number),
                2 => space.allocate_tight_aligned(number, 8),
                _ => space.allocate(number),
            };
            match kept {
                None => 1,
                Some(ticket) => ticket.serial(),
            }
        }
        Some(ticket) => match kind {
            0..=9 => u64::from(space.free(ticket)),
            10 => u64::from(space.shrink(ticket, number / 2) == Some(true)),
            11 => u64::from(space.grow_in_place(ticket, number) == Some(true)),
            12 => match number % 4 {
                0 => u64::from(space.extend(number)),
                1 => u64::from(space.retract(number % 8)),
                2 => match space.relocate_unaligned(ticket) {
                    None => 1,
                    Some(second) => u64::from(space.free(second)),
                },
                _ => u64::from(space.last_live() == Some(ticket)),
            },
            13 => u64::from(space.size_of(ticket).unwrap_or(0)),
            14 => u64::from(space.offset_of(ticket).unwrap_or(0)),
            _ => {
                *kept = None;
                if number % 8 == 0 {
                    space.reset();
                }
                2
            }
        },
    }
}

// Makes 1,000 calls of every kind, and returns a checksum of their results.
fn checksum<T: Tables>(space: &mut GuardedOf<T>) -> u64 {
    let mut kept: [Option<Ticket>; 16] = [None; 16];
    let mut random = Random::new(1);
    let mut sum = 0u64;
    for _ in 0..1_000u32 {
        let number = random.advance();
        if let Some(kept) = kept.get_mut((number / 16 % 16) as usize) {
            let answer = call(space, kept, number % 16, number / 256 % 100);
            sum = sum.wrapping_mul(31).wrapping_add(answer);
        }
    }
    sum
}

// The same under a limit that is larger by one, or the largest that the index type admits.
fn raised<T: Tables>(alloc: Global, space: &GuardedOf<T>) -> Result<GuardedOf<T>, Failure> {
    let limit = space.allocator().max_allocs();
    if limit >= T::Index::MAX - 1 {
        return Err(Failure::Unfit);
    }
    Ok(space.raised(alloc, (limit + 1).min(T::Index::MAX - 2))?)
}

// Grants 1,000 ranges, and puts values beside the first and the last, which needs more memory.
fn values(alloc: Global) -> Result<u64, Failure> {
    let mut space = GuardedOf::<ByNode<u32>>::with_realm(alloc, 1_000, 1_002, 1)?;
    let Some(ticket) = space.allocate(1) else {
        return Ok(0);
    };
    let mut other = ticket;
    for _ in 1..1_000u32 {
        other = space.allocate(1).unwrap_or(other);
    }
    let mut values = Beside::new(alloc);
    if let Err(_value) = values.put(&space, ticket, 5u64) {
        return Err(Failure::OutOfMemory);
    }
    if let Err(value) = values.put(&space, other, 7u64) {
        // the value is given back, and the first one stays
        return match values.take(ticket) {
            Some(first) if first.wrapping_add(value) == 12 => Err(Failure::OutOfMemory),
            _ => Ok(0),
        };
    }
    let first = values.take(ticket).unwrap_or(0);
    Ok(first.wrapping_add(values.take(other).unwrap_or(0)))
}

/// Makes a guarded allocator, makes 1,000 calls with tickets, copies it, also under a larger limit, puts
/// values beside tickets, and puts a checksum of the results, that of the same calls on the copy, that limit
/// and the sum of the values into the cells.
pub struct MakeGuardedAndCall;

impl Work for MakeGuardedAndCall {
    fn run<T: Tables>(
        &self,
        alloc: Global,
        script: &Script,
        _kept: &mut [Kept<T::Index>],
        cells: &mut Cells<'_>,
    ) -> Result<(), Failure> {
        let limit = script.max_allocs;
        if limit >= T::Index::MAX - 1 {
            return Err(Failure::Unfit);
        }
        let mut space = GuardedOf::<T>::with_realm(alloc, script.size, limit, 1)?;
        let sum = checksum(&mut space);
        let mut copy = space.try_clone(alloc)?;
        let larger = raised(alloc, &space)?;
        let values = values(alloc)?;
        put(cells, sum);
        put(cells, checksum(&mut copy));
        put(cells, u64::from(larger.allocator().max_allocs()));
        put(cells, values);
        Ok(())
    }
}

/// Makes a guarded allocator, makes 1,000 calls with tickets, writes its state and reads that, and puts a
/// checksum of their results, the number of bytes, and the same of what is read into the cells.
pub struct MakeGuardedAndStore;

impl Work for MakeGuardedAndStore {
    fn run<T: Tables>(
        &self,
        alloc: Global,
        script: &Script,
        _kept: &mut [Kept<T::Index>],
        cells: &mut Cells<'_>,
    ) -> Result<(), Failure> {
        let limit = script.max_allocs;
        if limit >= T::Index::MAX - 1 {
            return Err(Failure::Unfit);
        }
        let mut space = GuardedOf::<T>::with_realm(alloc, script.size, limit, 1)?;
        let sum = checksum(&mut space);
        let bytes = space.write_state(alloc)?;
        let read = match GuardedOf::<T>::read_state(alloc, &bytes, limit) {
            Err(ReadError::Memory) => return Err(Failure::OutOfMemory),
            Err(ReadError::Fault(fault)) => Err(fault),
            Ok(read) => Ok(read),
        };
        // nothing is put before the last request
        put(cells, sum);
        put(cells, bytes.len() as u64);
        match read {
            Ok(read) => {
                let mut read = read;
                put(cells, checksum(&mut read));
                put(cells, checksum(&mut space));
            }
            Err(fault) => put(cells, fault.at as u64),
        }
        Ok(())
    }
}
