//! Many heaps as one, and calls of every kind on them.

use offset_allocator::{NodeIndex, ReadError, Tables};
use offset_heaps::{HeapsOf, Limits, Place, Refusal, Totals, json_of};
use offset_refusal_base::cells::{Cells, put};
use offset_refusal_base::layouts::{Kept, Work};
use offset_refusal_base::outcomes::Failure;
use offset_script::Script;
use offset_test_base::random::Random;
use std::alloc::Global;

// Room for four heaps of a script's size and node limit, which begin with at most `nodes` nodes, and for three
// larger ones.
fn made_from<T: Tables>(alloc: Global, script: &Script, nodes: u32) -> Result<HeapsOf<T>, Failure> {
    let limit = script.max_allocs;
    if limit < 4 || limit >= T::Index::MAX - 1 {
        return Err(Failure::Unfit);
    }
    let limits = Limits {
        size: script.size,
        first_size: script.size,
        max_allocs: limit,
        first_allocs: limit.min(nodes.max(8)),
        most: 4,
        most_larger: 3,
    };
    Ok(HeapsOf::with_realms(alloc, limits, 1, 0)?)
}

// The same heaps, which begin with all nodes.
fn made<T: Tables>(alloc: Global, script: &Script) -> Result<HeapsOf<T>, Failure> {
    made_from(alloc, script, script.max_allocs)
}

/// Makes the heaps, none of which is there yet, and puts their number into the cells.
pub struct MakeHeaps;

impl Work for MakeHeaps {
    fn run<T: Tables>(
        &self,
        alloc: Global,
        script: &Script,
        _kept: &mut [Kept<T::Index>],
        cells: &mut Cells<'_>,
    ) -> Result<(), Failure> {
        let heaps = made::<T>(alloc, script)?;
        put(cells, u64::from(heaps.totals().heaps));
        Ok(())
    }
}

/// Makes heaps with 300 numbers in place of seven, none of which is there yet, and puts their number into the
/// cells.
pub struct MakeManyNumbers;

impl Work for MakeManyNumbers {
    fn run<T: Tables>(
        &self,
        alloc: Global,
        script: &Script,
        _kept: &mut [Kept<T::Index>],
        cells: &mut Cells<'_>,
    ) -> Result<(), Failure> {
        let limit = script.max_allocs;
        if limit < 4 || limit >= T::Index::MAX - 1 {
            return Err(Failure::Unfit);
        }
        let limits = Limits {
            size: script.size,
            first_size: script.size,
            max_allocs: limit,
            first_allocs: limit,
            most: 200,
            most_larger: 100,
        };
        let heaps = HeapsOf::<T>::with_realms(alloc, limits, 1, 0)?;
        put(cells, u64::from(heaps.totals().heaps));
        Ok(())
    }
}

// How many usual heaps were made, and how many larger ones.
#[derive(Drop)]
struct Counts {
    usual: u64,
    larger: u64,
}

// Makes a request. It returns its result as a number.
fn request<T: Tables>(
    heaps: &mut HeapsOf<T>,
    kept: &mut Option<Place>,
    made: &mut Counts,
    kind: u32,
    number: u32,
) -> Result<u64, Failure> {
    let limits = heaps.limits();
    let answer = match kind {
        0 => heaps.allocate(limits.size.saturating_add(number)),
        1..=7 => heaps.allocate_aligned(number, 8),
        _ => heaps.allocate(number),
    };
    match answer {
        Ok(granted) => {
            let (place, offset, is_new) = (granted.place, granted.offset, granted.is_new);
            *kept = Some(place);
            if is_new && place.heap < limits.most {
                made.usual = made.usual.wrapping_add(1);
            } else if is_new {
                made.larger = made.larger.wrapping_add(1);
            }
            Ok(u64::from(offset))
        }
        Err(Refusal::Memory) => Err(Failure::OutOfMemory),
        Err(why) => Ok(u64::from(why as u8)),
    }
}

// Makes another call on a place that was granted. It returns the result as a number.
fn call<T: Tables>(heaps: &mut HeapsOf<T>, place: Place, kind: u32, number: u32) -> u64 {
    match kind {
        0..=8 => u64::from(heaps.free(place)),
        9 => match heaps.relocate(place) {
            None => 9,
            Some(second) => u64::from(heaps.free(second.place)),
        },
        10 => u64::from(heaps.drop_heap(place.heap)),
        11 => u64::from(heaps.drop_empty(1).unwrap_or(9)),
        12 => u64::from(heaps.give_up(place.heap)),
        13 => u64::from(heaps.size_of(place).unwrap_or(0)),
        14 => u64::from(heaps.offset_of(place).unwrap_or(0)),
        _ => {
            if number % 8 == 0 {
                heaps.reset();
            }
            heaps.totals().live_units
        }
    }
}

// Makes 1,000 calls of every kind, and returns a checksum of their results.
fn checksum<T: Tables>(heaps: &mut HeapsOf<T>, made: &mut Counts) -> Result<u64, Failure> {
    let mut kept: [Option<Place>; 16] = [None; 16];
    let mut random = Random::new(1);
    let mut sum = 0u64;
    for _ in 0..1_000u32 {
        let number = random.advance();
        if let Some(kept) = kept.get_mut((number / 16 % 16) as usize) {
            let kind = number % 16;
            let size = number / 256 % 100;
            let answer = match *kept {
                None => request(heaps, kept, made, kind, size)?,
                Some(place) => {
                    if !heaps.is_live(place) || kind == 15 {
                        *kept = None;
                    }
                    call(heaps, place, kind, size)
                }
            };
            sum = sum.wrapping_mul(31).wrapping_add(answer);
        }
    }
    Ok(sum)
}

/// Makes the heaps and 1,000 calls, and puts the numbers of heaps that were made, usual ones and
/// larger, and a checksum of the results into the cells.
pub struct MakeHeapsAndCall;

impl Work for MakeHeapsAndCall {
    fn run<T: Tables>(
        &self,
        alloc: Global,
        script: &Script,
        _kept: &mut [Kept<T::Index>],
        cells: &mut Cells<'_>,
    ) -> Result<(), Failure> {
        let mut heaps = made::<T>(alloc, script)?;
        let mut made = Counts {
            usual: 0,
            larger: 0,
        };
        let sum = checksum(&mut heaps, &mut made)?;
        put(cells, made.usual);
        put(cells, made.larger);
        put(cells, sum);
        Ok(())
    }
}

// Puts what is live and free in all heaps into the cells.
fn put_totals(cells: &mut Cells<'_>, totals: Totals) {
    put(cells, u64::from(totals.heaps));
    put(cells, totals.units);
    put(cells, totals.live_units);
    put(cells, u64::from(totals.largest_free_region));
}

// How many usual heaps there are.
fn usual<T: Tables>(heaps: &HeapsOf<T>) -> u64 {
    let mut found = 0u64;
    for number in 0..4u32 {
        if heaps.heap(number).is_some() {
            found = found.wrapping_add(1);
        }
    }
    found
}

/// Makes the heaps and 1,000 calls, copies them, writes their state and reads that. It puts the number of
/// usual heaps, the totals of the copy, the number of bytes, and the totals of what is read into
/// the cells.
pub struct MakeHeapsAndStore;

impl Work for MakeHeapsAndStore {
    fn run<T: Tables>(
        &self,
        alloc: Global,
        script: &Script,
        _kept: &mut [Kept<T::Index>],
        cells: &mut Cells<'_>,
    ) -> Result<(), Failure> {
        let mut heaps = made::<T>(alloc, script)?;
        let mut counts = Counts {
            usual: 0,
            larger: 0,
        };
        let _sum = checksum(&mut heaps, &mut counts)?;
        let copy = heaps.try_clone(alloc)?;
        let bytes = heaps.write_state(alloc)?;
        let read = match HeapsOf::<T>::read_state(alloc, &bytes, 7, script.max_allocs) {
            Err(ReadError::Memory) => return Err(Failure::OutOfMemory),
            Err(ReadError::Fault(fault)) => Err(fault),
            Ok(read) => Ok(read),
        };
        // nothing is put before the last request
        put(cells, usual(&heaps));
        put_totals(cells, copy.totals());
        put(cells, bytes.len() as u64);
        match read {
            Ok(read) => put_totals(cells, read.totals()),
            Err(fault) => put(cells, fault.at as u64),
        }
        Ok(())
    }
}

/// Makes the heaps and 1,000 calls, and puts the bytes of their text as JSON into the cells.
pub struct MakeHeapsAndDump;

impl Work for MakeHeapsAndDump {
    fn run<T: Tables>(
        &self,
        alloc: Global,
        script: &Script,
        _kept: &mut [Kept<T::Index>],
        cells: &mut Cells<'_>,
    ) -> Result<(), Failure> {
        let mut heaps = made::<T>(alloc, script)?;
        let mut counts = Counts {
            usual: 0,
            larger: 0,
        };
        let _sum = checksum(&mut heaps, &mut counts)?;
        let text = json_of(alloc, &heaps)?;
        put(cells, text.len() as u64);
        Ok(())
    }
}

// Adds one unit to the first heap, where it is there and `extends` is set. Where memory is refused, all is as it
// was.
fn extend<T: Tables>(heaps: &mut HeapsOf<T>, extends: bool) -> Result<(), Failure> {
    let before = (heaps.totals(), node_limit(heaps));
    if !extends || before.1 == 0 {
        return Ok(());
    }
    match heaps.extend_heap(0, 1) {
        Ok(true) => Ok(()),
        Err(_) if (heaps.totals(), node_limit(heaps)) == before => Err(Failure::OutOfMemory),
        _ => Err(Failure::Unfit),
    }
}

// Makes the first heap, all units of which are one live range: then a further unit becomes a block of its own.
fn fill<T: Tables>(heaps: &mut HeapsOf<T>) -> Result<(), Failure> {
    let place = match heaps.allocate(1) {
        Ok(granted) => granted.place,
        Err(Refusal::Memory) => return Err(Failure::OutOfMemory),
        Err(_) => return Err(Failure::Unfit),
    };
    let units = heaps.units_of_heap(place.heap).unwrap_or(0);
    match heaps.grow_in_place(place, units) {
        Some(true) => Ok(()),
        _ => Err(Failure::Unfit),
    }
}

// Grants one unit, so often that a heap has as many nodes as it may have, and before each further one adds a unit
// to it, which is full, where `extends` is set. Where memory is refused, all is as it was.
fn grow<T: Tables>(heaps: &mut HeapsOf<T>, extends: bool) -> Result<(), Failure> {
    if extends {
        fill(heaps)?;
    }
    for _ in 0..heaps.limits().max_allocs.saturating_sub(4) {
        extend(heaps, extends)?;
        let before = (heaps.totals(), node_limit(heaps));
        match heaps.allocate(1) {
            Ok(_) => {}
            Err(Refusal::Memory) if (heaps.totals(), node_limit(heaps)) == before => {
                return Err(Failure::OutOfMemory);
            }
            Err(_) => return Err(Failure::Unfit),
        }
    }
    Ok(())
}

// The node limit of the first heap, or 0 where it is not there.
fn node_limit<T: Tables>(heaps: &HeapsOf<T>) -> u32 {
    match heaps.heap(0) {
        None => 0,
        Some(heap) => heap.allocator().max_allocs(),
    }
}

// Makes the heaps, of which each begins with 8 nodes, and lets one grow to all its nodes. It puts its node limit
// and the live units into the cells.
fn make_and_grow<T: Tables>(
    alloc: Global,
    script: &Script,
    extends: bool,
    cells: &mut Cells<'_>,
) -> Result<(), Failure> {
    let mut heaps = made_from::<T>(alloc, script, 8)?;
    grow(&mut heaps, extends)?;
    put(cells, u64::from(node_limit(&heaps)));
    put(cells, heaps.totals().live_units);
    Ok(())
}

/// Makes the heaps, of which each begins with 8 nodes, and lets one grow to all its nodes by what is granted in
/// it. It puts its node limit and the live units into the cells.
pub struct MakeHeapsAndGrow;

impl Work for MakeHeapsAndGrow {
    fn run<T: Tables>(
        &self,
        alloc: Global,
        script: &Script,
        _kept: &mut [Kept<T::Index>],
        cells: &mut Cells<'_>,
    ) -> Result<(), Failure> {
        make_and_grow::<T>(alloc, script, false, cells)
    }
}

/// The same of a heap that gets a unit more before each grant, so that it grows for that.
pub struct MakeHeapsAndExtend;

impl Work for MakeHeapsAndExtend {
    fn run<T: Tables>(
        &self,
        alloc: Global,
        script: &Script,
        _kept: &mut [Kept<T::Index>],
        cells: &mut Cells<'_>,
    ) -> Result<(), Failure> {
        make_and_grow::<T>(alloc, script, true, cells)
    }
}
