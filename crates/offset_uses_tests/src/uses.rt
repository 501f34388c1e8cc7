//! Tests of `offset_uses`.

use crate::asserts::{assert_same, assert_same_at, assert_that, assert_that_at};
use crate::layouts::{ALL, Expectation, Layout, check, check_each};
use offset_allocator::Refusal::{Fragmented, Nodes, Space};
use offset_allocator::{
    Accesses, Allocation, Allocator, AllocatorOf, ByNode, NodeIndex, Refusal, Tables,
};
use offset_script::{Answer, Command};
use offset_uses::daily::{
    Ring, defragment, first_byte, give_back, granted_units, insert, place, place_packed,
    place_within, resize, upload,
};
use offset_uses::engine::{free_named, restored, take_from, upload_units};
use offset_uses::walking::{count_holes, dump};
use offset_uses::{
    Tenant, allocate_or_grow, charge, frame, place_mesh, place_promised, place_uniforms,
    place_what_fits, refund, replay,
};
use std::alloc::{AllocError, Global};
use std::process::Abort;

// A request for a range. All begin with its size.
#[derive(Clone, Copy)]
enum Request {
    Plain(u32),
    Promised(u32),
    WhatFits(u32),
    // The space may grow by the second number.
    OrGrow(u32, u32),
    Place(u32, u32),
    Uniforms(u32),
    // At a multiple of the second number.
    Upload(u32, u32),
}

// A use of a space, and what it has to return. Ranges that are given are numbered from 0.
#[derive(Clone, Copy)]
enum Use {
    // The range has this offset and this size, or the request is refused.
    Gives(Request, Option<(u32, u32)>),
    // `place` of this size, with this growth, is refused for this reason.
    Lacks(u32, u32, Refusal),
    // Both hulls of a mesh are placed, at these offsets, or neither.
    GivesMesh(u32, u32, Option<(u32, u32)>),
    GivesBack(usize, bool),
    Resizes(usize, u32, bool),
    // The range is live, and has this size.
    Lives(usize, u32),
    // The byte at which a range begins, with this stride.
    BeginsAt(usize, u32, Option<u64>),
    // The size of the space, and its short report.
    Is(u32, u32, u32),
    GrantedUnits(Option<u32>),
    // The numbers of holes of some classes.
    Holes(&'static [(usize, u32)]),
    Dumps(&'static str),
}

use Request::{OrGrow, Place, Plain, Promised, Uniforms, Upload, WhatFits};
use Use::{
    BeginsAt, Dumps, Gives, GivesBack, GivesMesh, GrantedUnits, Holes, Is, Lacks, Lives, Resizes,
};

struct Case {
    name: &'static str,
    size: u32,
    limit: u32,
    uses: &'static [Use],
}

const CASES: [Case; 14] = [
    Case {
        name: "both hulls are placed or neither",
        size: 100,
        limit: 1_000,
        uses: &[
            GivesMesh(60, 30, Some((0, 60))),
            GivesMesh(5, 6, None),
            Is(100, 10, 10),
        ],
    },
    Case {
        name: "a promise is kept",
        size: 100,
        limit: 1_000,
        uses: &[
            Is(100, 100, 96),
            Gives(Promised(96), Some((0, 96))),
            Gives(WhatFits(9), Some((96, 4))),
            Gives(WhatFits(9), None),
        ],
    },
    Case {
        name: "a space grows after a refusal",
        size: 8,
        limit: 1_000,
        uses: &[
            Gives(OrGrow(10, 8), Some((0, 10))),
            Gives(OrGrow(10, 1), None),
        ],
    },
    Case {
        name: "uniforms begin at a multiple of 256",
        size: 4096,
        limit: 1_000,
        uses: &[
            Gives(Plain(3), Some((0, 3))),
            Gives(Uniforms(100), Some((256, 100))),
        ],
    },
    Case {
        name: "a range is freed once",
        size: 100,
        limit: 1_000,
        uses: &[
            Gives(Plain(10), Some((0, 10))),
            GivesBack(0, true),
            GivesBack(0, false),
            Is(100, 100, 96),
        ],
    },
    Case {
        name: "an upload is aligned",
        size: 4096,
        limit: 1_000,
        uses: &[
            Gives(Upload(3, 0), None),
            Gives(Upload(3, 1), Some((0, 3))),
            Gives(Upload(100, 64), Some((64, 100))),
            // from 3 to 64 it is free: the first multiple of 12 is 12
            Gives(Upload(10, 12), Some((12, 10))),
        ],
    },
    // 8 units and 8 more are enough for 10; then 6 of the 16 are free, and one more is too few for 9.
    Case {
        name: "a place extends its space",
        size: 8,
        limit: 1_000,
        uses: &[
            Gives(Place(10, 8), Some((0, 10))),
            Is(16, 6, 6),
            Lacks(9, 1, Space),
        ],
    },
    // Two free pieces of 24 units are not enough for 40.
    Case {
        name: "a place says that its space is fragmented",
        size: 96,
        limit: 1_000,
        uses: &[
            Gives(Plain(24), Some((0, 24))),
            Gives(Plain(24), Some((24, 24))),
            Gives(Plain(24), Some((48, 24))),
            Gives(Plain(24), Some((72, 24))),
            GivesBack(0, true),
            GivesBack(2, true),
            Lacks(40, 8, Fragmented),
        ],
    },
    // With a limit of 3 at most two blocks exist: one range and one free block.
    Case {
        name: "a place says that no node is left",
        size: 100,
        limit: 3,
        uses: &[Gives(Plain(10), Some((0, 10))), Lacks(10, 8, Nodes)],
    },
    Case {
        name: "granted units are the size less the free units",
        size: 100,
        limit: 4,
        uses: &[
            Gives(Plain(30), Some((0, 30))),
            GrantedUnits(Some(30)),
            Gives(Plain(20), Some((30, 20))),
            GrantedUnits(None),
        ],
    },
    Case {
        name: "a draw begins at a byte",
        size: 100,
        limit: 1_000,
        uses: &[
            Gives(Plain(30), Some((0, 30))),
            Gives(Plain(20), Some((30, 20))),
            BeginsAt(1, 12, Some(360)),
            GivesBack(1, true),
            BeginsAt(1, 12, None),
        ],
    },
    // Three holes, two of one class: of 16 and of 17 units, and of 5 units.
    Case {
        name: "holes are counted by class",
        size: 41,
        limit: 1_000,
        uses: &[
            Gives(Plain(16), Some((0, 16))),
            Gives(Plain(1), Some((16, 1))),
            Gives(Plain(5), Some((17, 5))),
            Gives(Plain(2), Some((22, 2))),
            GivesBack(0, true),
            GivesBack(2, true),
            Holes(&[(5, 1), (16, 2), (17, 0)]),
        ],
    },
    Case {
        name: "a dump has a line for each block",
        size: 100,
        limit: 1_000,
        uses: &[
            Gives(Plain(16), Some((0, 16))),
            Gives(Plain(8), Some((16, 8))),
            GivesBack(0, true),
            Dumps("at 24 size 76 free\nat 16 size 8 used\nat 0 size 16 free\n"),
        ],
    },
    Case {
        name: "a mesh is resized in place",
        size: 100,
        limit: 1_000,
        uses: &[
            Gives(Plain(60), Some((0, 60))),
            Resizes(0, 20, true),
            Resizes(0, 20, true),
            Is(100, 80, 80),
            Lives(0, 20),
            Resizes(0, 101, false),
            Lives(0, 20),
            Resizes(0, 100, true),
            Lives(0, 100),
        ],
    },
];

// A promise is made only where it can be kept.
fn promised<T: Tables>(
    space: &mut AllocatorOf<T>,
    size: u32,
) -> Option<(Allocation<T::Index>, u32)> {
    if size < 1 || size > space.storage_report().largest_free_region {
        return None;
    }
    Some((place_promised(space, size), size))
}

fn what_fits<T: Tables>(
    space: &mut AllocatorOf<T>,
    most: u32,
) -> Option<(Allocation<T::Index>, u32)> {
    if most < 1 {
        return None;
    }
    place_what_fits(space, most)
}

fn with_size<NI: NodeIndex>(
    range: Option<Allocation<NI>>,
    size: u32,
) -> Option<(Allocation<NI>, u32)> {
    Some((range?, size))
}

// The range and its size, or `None` where the request is refused, or a promise is none.
fn make_request<T: Tables>(
    space: &mut AllocatorOf<T>,
    request: Request,
) -> Option<(Allocation<T::Index>, u32)> {
    match request {
        Plain(size) => with_size(space.allocate(size), size),
        Promised(size) => promised(space, size),
        WhatFits(most) => what_fits(space, most),
        OrGrow(size, more) => with_size(allocate_or_grow(space, size, more), size),
        Place(size, more) => with_size(place(space, size, more).ok(), size),
        Uniforms(size) => with_size(place_uniforms(space, size), size),
        Upload(size, align) => with_size(upload(space, size, align), size),
    }
}

// Makes a use of a range.
fn use_range<T: Tables>(
    rt: &impl Abort,
    at: &(&'static str, usize),
    space: &mut AllocatorOf<T>,
    range: Allocation<T::Index>,
    step: Use,
) {
    match step {
        GivesBack(_, is_live) => assert_same_at(rt, at, &give_back(space, range), &is_live),
        Resizes(_, size, done) => {
            assert_that_at(rt, at, space.is_live(range));
            assert_same_at(rt, at, &resize(space, range, size), &done);
        }
        Lives(_, size) => {
            assert_that_at(rt, at, space.is_live(range));
            assert_same_at(rt, at, &space.allocation_size(range), &size);
        }
        BeginsAt(_, stride, byte) => {
            assert_same_at(rt, at, &first_byte(space, range, stride), &byte);
        }
        _ => assert_that_at(rt, at, false),
    }
}

fn expect_holes(
    rt: &impl Abort,
    at: &(&'static str, usize),
    holes: &[u32; 256],
    wanted: &[(usize, u32)],
) {
    for (class, count) in wanted {
        assert_same_at(rt, at, &holes.get(*class), &Some(count));
    }
}

// Looks at a space.
fn observe<T: Tables>(
    rt: &impl Abort,
    alloc: Global,
    at: &(&'static str, usize),
    space: &AllocatorOf<T>,
    step: Use,
) {
    match step {
        Is(size, total, largest) => {
            let report = space.storage_report();
            assert_same_at(rt, at, &space.size(), &size);
            assert_same_at(rt, at, &report.total_free_space, &total);
            assert_same_at(rt, at, &report.largest_free_region, &largest);
        }
        GrantedUnits(count) => assert_same_at(rt, at, &granted_units(space), &count),
        Holes(wanted) => expect_holes(rt, at, &count_holes(space), wanted),
        Dumps(wanted) => {
            let text = dump(space, alloc).expect(rt, "memory");
            assert_same_at(rt, at, &text.as_str(), &wanted);
        }
        _ => assert_that_at(rt, at, false),
    }
}

// Makes a use of a space.
fn use_space<T: Tables>(
    rt: &impl Abort,
    alloc: Global,
    at: &(&'static str, usize),
    space: &mut AllocatorOf<T>,
    ranges: &mut Vec<Allocation<T::Index>>,
    step: Use,
) {
    match step {
        Gives(request, wanted) => match make_request(space, request) {
            None => assert_that_at(rt, at, wanted.is_none()),
            Some((range, size)) => {
                assert_same_at(rt, at, &Some((range.offset, size)), &wanted);
                assert_same_at(rt, at, &space.allocation_size(range), &size);
                ranges.push(range).expect(rt, "memory");
            }
        },
        Lacks(size, more, why) => {
            assert_same_at(rt, at, &place(space, size, more).err(), &Some(why));
        }
        GivesMesh(outer, inner, wanted) => {
            let hulls = place_mesh(space, outer, inner);
            let offsets = hulls.map(|(outer, inner)| (outer.offset, inner.offset));
            assert_same_at(rt, at, &offsets, &wanted);
        }
        GivesBack(number, _) | Resizes(number, _, _) | Lives(number, _) | BeginsAt(number, _, _) =>
            {
                assert_that_at(rt, at, number < ranges.len());
                use_range(rt, at, space, ranges[number], step);
            }
        _ => observe(rt, alloc, at, space, step),
    }
}

impl Expectation for Case {
    fn check<T: Tables>(&self, rt: &impl Abort, alloc: Global) {
        assert_that_at(rt, &self.name, 2 <= self.limit && self.limit <= 1_000);
        assert_that_at(rt, &self.name, self.limit < T::Index::MAX - 1);
        let made = AllocatorOf::<T>::with_max_allocs(alloc, self.size, self.limit);
        let mut space = made.expect(rt, "memory");
        let mut ranges = Vec::new(alloc);
        for (place, step) in self.uses.iter().enumerate() {
            let at = (self.name, place);
            use_space(rt, alloc, &at, &mut space, &mut ranges, *step);
        }
    }
}

#[test]
fn one_space_is_used(rt: HostRuntime) {
    for case in &CASES {
        check_each(&rt, rt.alloc(), &[Layout::Wide, Layout::Narrow], case);
    }
}

// A new space of this size.
fn made<T: Tables>(rt: &impl Abort, alloc: Global, size: u32) -> AllocatorOf<T> {
    AllocatorOf::new(alloc, size).expect(rt, "memory")
}

// A grant of this size.
fn granted<T: Tables>(
    rt: &impl Abort,
    space: &mut AllocatorOf<T>,
    size: u32,
) -> Allocation<T::Index> {
    space.allocate(size).expect(rt, "room")
}

fn expect_free<T: Tables>(rt: &impl Abort, space: &AllocatorOf<T>, units: u32) {
    assert_same(rt, &space.storage_report().total_free_space, &units);
}

struct Quotas;

impl Expectation for Quotas {
    fn check<T: Tables>(&self, rt: &impl Abort, alloc: Global) {
        let mut space = made::<T>(rt, alloc, 100);
        let mut near = Tenant { quota: 20, held: 0 };
        let mut far = Tenant { quota: 50, held: 0 };
        assert_that(rt, charge(&mut space, &mut near, 15).is_some());
        assert_that(rt, charge(&mut space, &mut far, 50).is_some());
        assert_that(rt, charge(&mut space, &mut near, 6).is_none());
        assert_same(rt, &near.held, &15);
        assert_same(rt, &far.held, &50);
        let allocation = charge(&mut space, &mut near, 5).expect(rt, "room");
        refund(&mut space, &mut near, allocation);
        assert_same(rt, &near.held, &15);
        expect_free(rt, &space, 35);
    }
}

#[test]
fn a_tenant_stays_within_its_quota(rt: HostRuntime) {
    check(&rt, rt.alloc(), &Quotas);
}

struct Frames;

impl Expectation for Frames {
    fn check<T: Tables>(&self, rt: &impl Abort, alloc: Global) {
        let mut space = AllocatorOf::<T>::new(alloc, 100).expect(rt, "memory");
        let mut count = Accesses::new();
        assert_same(rt, &frame(&mut space, 40, &mut count), &Some(60));
        assert_same(rt, &frame(&mut space, 97, &mut count), &None);
        assert_same(rt, &space.storage_report().total_free_space, &100);
    }
}

#[test]
fn a_frame_leaves_the_space_as_it_was(rt: HostRuntime) {
    check_each(&rt, rt.alloc(), &ALL, &Frames);
}

#[test]
fn both_widths_give_equal_answers(rt: HostRuntime) {
    let both = replay(
        rt.alloc(),
        100,
        16,
        &[Command::Alloc(10), Command::Free(1), Command::Alloc(7)],
    );
    let (narrow, wide) = both.expect(&rt, "memory");
    for answers in [&narrow, &wide] {
        assert_same(&rt, &answers.len(), &3);
        match &answers[2] {
            Answer::Grant { number, offset } => assert_same(&rt, &(*number, *offset), &(2, 0)),
            _ => assert_that(&rt, false),
        }
    }
}

struct Meshes;

impl Expectation for Meshes {
    fn check<T: Tables>(&self, rt: &impl Abort, alloc: Global) {
        let mut vertices = made::<T>(rt, alloc, 100);
        let mut indices = made::<T>(rt, alloc, 10);
        assert_that(rt, insert(&mut vertices, &mut indices, 60, 20).is_none());
        expect_free(rt, &vertices, 100);
        let (first, second) = insert(&mut vertices, &mut indices, 60, 10).expect(rt, "room");
        assert_same(rt, &first.offset, &0);
        assert_same(rt, &second.offset, &0);
        assert_that(rt, insert(&mut vertices, &mut indices, 1, 1).is_none());
        expect_free(rt, &vertices, 40);
    }
}

#[test]
fn a_mesh_is_in_both_buffers_or_in_none(rt: HostRuntime) {
    check(&rt, rt.alloc(), &Meshes);
}

// A space that four ranges of 24 units filled, and the second and the fourth, which stay live.
fn fragmented<T: Tables>(
    rt: &impl Abort,
    alloc: Global,
) -> (AllocatorOf<T>, Allocation<T::Index>, Allocation<T::Index>) {
    let mut space = made::<T>(rt, alloc, 96);
    let first = granted(rt, &mut space, 24);
    let second = granted(rt, &mut space, 24);
    let third = granted(rt, &mut space, 24);
    let fourth = granted(rt, &mut space, 24);
    assert_that(rt, give_back(&mut space, first));
    assert_that(rt, give_back(&mut space, third));
    assert_same(rt, &space.refusal(40), &Some(Refusal::Fragmented));
    (space, second, fourth)
}

fn expect_packed<T: Tables>(
    rt: &impl Abort,
    space: &mut AllocatorOf<T>,
    second: Allocation<T::Index>,
    fourth: Allocation<T::Index>,
) {
    assert_same(rt, &space.allocation_offset(second), &Some(0));
    assert_same(rt, &space.allocation_offset(fourth), &Some(24));
    assert_same(rt, &granted(rt, space, 40).offset, &48);
}

// Each unit has its number.
fn numbered() -> [u32; 96] {
    let mut buffer = [0u32; 96];
    for unit in 0..96u32 {
        buffer[unit as usize] = unit;
    }
    buffer
}

fn expect_moved(rt: &impl Abort, buffer: &[u32; 96]) {
    assert_same(rt, &buffer[0], &24);
    assert_same(rt, &buffer[23], &47);
    assert_same(rt, &buffer[24], &72);
    assert_same(rt, &buffer[47], &95);
}

#[test]
fn data_is_moved_with_its_range(rt: HostRuntime) {
    let mut buffer = numbered();
    let (mut space, second, fourth) = fragmented::<ByNode<u32>>(&rt, rt.alloc());
    defragment(&mut space, &mut buffer);
    expect_moved(&rt, &buffer);
    expect_packed(&rt, &mut space, second, fourth);
}

// Where a range of the ring begins.
fn taken<T: Tables>(ring: &mut Ring<T>, size: u32) -> Option<u32> {
    Some(ring.take(size)?.offset)
}

struct Frame;

impl Expectation for Frame {
    fn check<T: Tables>(&self, rt: &impl Abort, alloc: Global) {
        let mut ring = Ring {
            even: made::<T>(rt, alloc, 100),
            odd: made::<T>(rt, alloc, 100),
            is_odd: false,
        };
        assert_that(rt, taken(&mut ring, 60).is_some());
        ring.begin();
        assert_that(rt, taken(&mut ring, 60).is_some());
        assert_that(rt, taken(&mut ring, 60).is_none());
        ring.begin();
        assert_same(rt, &taken(&mut ring, 60), &Some(0));
    }
}

#[test]
fn a_ring_frees_the_frame_before_the_last(rt: HostRuntime) {
    check(&rt, rt.alloc(), &Frame);
}

// A space with this node limit.
fn limited<T: Tables>(rt: &impl Abort, alloc: Global, size: u32, limit: u32) -> AllocatorOf<T> {
    assert_that(rt, 2 <= limit && limit < T::Index::MAX - 1);
    AllocatorOf::with_max_allocs(alloc, size, limit).expect(rt, "memory")
}

// Units of 256 bytes need no padding: a heap of 4,096 of them grants 4,096 requests.
fn expect_units<T: Tables>(rt: &impl Abort, alloc: Global) {
    let mut heap = limited::<T>(rt, alloc, 4_096, 4_098);
    for k in 0..4_096u64 {
        let bytes = if k % 2 == 0 { 256 } else { 1 };
        let (_, first) = upload_units(&mut heap, bytes).expect(rt, "room");
        assert_same_at(rt, &k, &first, &(256 * k));
    }
    assert_that(rt, upload_units(&mut heap, 1).is_none());
}

// By bytes, 15 of 16 are granted.
fn expect_padding<T: Tables>(rt: &impl Abort, alloc: Global) {
    let mut bytes = limited::<T>(rt, alloc, 1 << 20, 100);
    for k in 0..16u32 {
        let granted = bytes.allocate_aligned(1 << 16, 256).is_some();
        assert_same_at(rt, &k, &granted, &(k < 15));
    }
}

struct UnitsAndPadding;

impl Expectation for UnitsAndPadding {
    fn check<T: Tables>(&self, rt: &impl Abort, alloc: Global) {
        expect_units::<T>(rt, alloc);
        expect_padding::<T>(rt, alloc);
    }
}

#[test]
fn all_units_are_granted(rt: HostRuntime) {
    check(&rt, rt.alloc(), &UnitsAndPadding);
}

// A space with two ranges, the handle of the first one, and the name of the second one.
fn with_two<T: Tables>(
    rt: &impl Abort,
    alloc: Global,
) -> (AllocatorOf<T>, Allocation<T::Index>, u32) {
    let mut space = made::<T>(rt, alloc, 100);
    let first = granted(rt, &mut space, 10);
    let second = granted(rt, &mut space, 20);
    assert_that(rt, restored(second) == second);
    let (offset, name) = second.to_parts();
    assert_same(rt, &offset, &10);
    (space, first, name)
}

// With no clauses, so that each call has a short proof.
fn is_freed<T: Tables>(space: &mut AllocatorOf<T>, name: u32) -> bool {
    free_named(space, name)
}

fn expect_only<T: Tables>(rt: &impl Abort, space: &AllocatorOf<T>, first: Allocation<T::Index>) {
    assert_that(rt, space.is_live(first));
    expect_free(rt, space, 90);
}

struct Returned;

impl Expectation for Returned {
    fn check<T: Tables>(&self, rt: &impl Abort, alloc: Global) {
        let (mut space, first, name) = with_two::<T>(rt, alloc);
        assert_that(rt, is_freed(&mut space, name));
        assert_that(rt, !is_freed(&mut space, name));
        assert_that(rt, !is_freed(&mut space, T::Index::MAX));
        expect_only(rt, &space, first);
    }
}

#[test]
fn handles_come_back(rt: HostRuntime) {
    check(&rt, rt.alloc(), &Returned);
}

struct Slabs;

impl Expectation for Slabs {
    fn check<T: Tables>(&self, rt: &impl Abort, alloc: Global) {
        let mut slabs = Vec::new(alloc);
        for size in [10u32, 100] {
            assert_that(rt, slabs.push(made::<T>(rt, alloc, size)).is_ok());
        }
        assert_that(rt, take_from(&mut slabs, 0, 50).is_none());
        assert_that(rt, take_from(&mut slabs, 1, 50).is_some());
        assert_that(rt, take_from(&mut slabs, 2, 5).is_none());
    }
}

#[test]
fn spaces_are_in_a_vec(rt: HostRuntime) {
    check(&rt, rt.alloc(), &Slabs);
}

// A space whose first 24 units and last 24 units are free, with a range between them.
fn with_a_middle<T: Tables>(rt: &impl Abort, alloc: Global) -> AllocatorOf<T> {
    let mut space = made::<T>(rt, alloc, 96);
    let first = granted(rt, &mut space, 24);
    let _middle = granted(rt, &mut space, 48);
    assert_that(rt, give_back(&mut space, first));
    space
}

// Where each place begins, of these sizes.
fn packed(
    alloc: Global,
    space: &mut Allocator,
    sizes: &[u32],
) -> Result<Vec<Result<u32, Refusal>>, AllocError> {
    let mut buffer = [7u32; 96];
    let mut places = Vec::new(alloc);
    for size in sizes {
        let place = place_packed(space, &mut buffer, *size);
        places.push(place.map(|range| range.offset))?;
    }
    Ok(places)
}

#[test]
fn a_packed_place_is_granted(rt: HostRuntime) {
    let mut space = with_a_middle::<ByNode<u32>>(&rt, rt.alloc());
    let found = packed(rt.alloc(), &mut space, &[49, 97, 48]).expect(&rt, "memory");
    let wanted = [Err(Refusal::Space), Err(Refusal::TooLarge), Ok(48)];
    assert_same(&rt, &found.as_slice(), &wanted.as_slice());
}

// Where each place begins, of 48 units, that may move as many units at most.
fn within(
    alloc: Global,
    space: &mut Allocator,
    budgets: &[u32],
) -> Result<Vec<Result<u32, Refusal>>, AllocError> {
    let mut buffer = [7u32; 96];
    let mut places = Vec::new(alloc);
    for budget in budgets {
        let place = place_within(space, &mut buffer, 48, *budget);
        places.push(place.map(|range| range.offset))?;
    }
    Ok(places)
}

// The 48 units in the middle have to move.
#[test]
fn a_place_within_a_budget(rt: HostRuntime) {
    let mut space = with_a_middle::<ByNode<u32>>(&rt, rt.alloc());
    let found = within(rt.alloc(), &mut space, &[0, 47, 48, 48]).expect(&rt, "memory");
    let wanted = [
        Err(Refusal::Fragmented),
        Err(Refusal::Fragmented),
        Ok(48),
        Err(Refusal::Space),
    ];
    assert_same(&rt, &found.as_slice(), &wanted.as_slice());
}

struct TenLines;

impl Expectation for TenLines {
    // The example of `docs/USING.md`.
    fn check<T: Tables>(&self, rt: &impl Abort, alloc: Global) {
        let mut vertices = made::<T>(rt, alloc, 1 << 20);
        let report = vertices.storage_report();
        assert_same(rt, &report.total_free_space, &1048576);
        assert_same(rt, &report.largest_free_region, &1048576);
        let mesh = vertices.allocate(3000).expect(rt, "room");
        assert_same(rt, &mesh.offset, &0);
        assert_same(rt, &vertices.allocation_size(mesh), &3000);
        assert_same(rt, &vertices.refusal(1 << 20), &Some(Refusal::Space));
        let aligned = vertices.allocate_aligned(100, 256).expect(rt, "room");
        assert_same(rt, &(aligned.offset % 256), &0);
        assert_that(rt, vertices.is_live(mesh));
        vertices.free(mesh);
        assert_that(rt, !vertices.is_live(mesh));
    }
}

#[test]
fn ten_lines(rt: HostRuntime) {
    check(&rt, rt.alloc(), &TenLines);
}

fn put_used_units(text: &mut String, count: u32) -> Result<(), AllocError> {
    for offset in (0..count).rev() {
        writeln!(text, "at {offset} size 1 used")?;
    }
    Ok(())
}

struct Dumped;

impl Expectation for Dumped {
    fn check<T: Tables>(&self, rt: &impl Abort, alloc: Global) {
        let mut heap = limited::<T>(rt, alloc, 4_000, 5_000);
        for _ in 0..4_000u32 {
            assert_that(rt, heap.allocate(1).is_some());
        }
        let mut wanted = String::new(alloc);
        put_used_units(&mut wanted, 4_000).expect(rt, "memory");
        let text = dump(&heap, alloc).expect(rt, "memory");
        assert_that(rt, text == wanted);
    }
}

#[test]
fn a_dump_has_a_line_for_each_of_many_blocks(rt: HostRuntime) {
    check(&rt, rt.alloc(), &Dumped);
}
