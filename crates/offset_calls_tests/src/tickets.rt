//! Random tickets, between real ones, against a plain list of the live ranges.
ghost use Rattle.std.specs.Prelude.{◌<◌};

use crate::asserts::{assert_same, assert_that};
use offset_allocator::{ByNode, NodeIndex, Tables};
use offset_guarded::{GuardedOf, Ticket};
use offset_test_base::random::Random;
use std::alloc::Global;
use std::process::Abort;

const STEPS: u32 = 4_000;

const REALM: u32 = 1;

// A live range.
#[derive(Clone, Copy)]
struct Live {
    ticket: Ticket,
    offset: u32,
    size: u32,
}

// The ranges that are live, and the tickets of all that ever were.
#[derive(Drop)]
struct Plain {
    live: Vec<Live>,
    given: Vec<Ticket>,
}

impl Plain {
    // Where the range of a ticket is in the list. The ticket's offset does not count.
    fn place(&self, ticket: Ticket) -> Option<usize> {
        for (i, live) in self.live.iter().enumerate() {
            let mut same = live.ticket;
            same.offset = ticket.offset;
            if same == ticket {
                return Some(i);
            }
        }
        None
    }

    fn size_of(&self, ticket: Ticket) -> Option<u32> {
        let place = self.place(ticket)?;
        match self.live.get(place) {
            None => None,
            Some(live) => Some(live.size),
        }
    }
}

// A ticket: one of those given, stale or live, as it is or altered, or random numbers.
fn any_ticket(rt: &impl Abort, random: &mut Random, given: &[Ticket]) -> Ticket {
    let mut offset = random.advance();
    let mut name = random.advance() % 80;
    let mut serial = u64::from(random.advance() % 2_000);
    let mut realm = random.advance() % 3;
    let kind = random.advance() % 8;
    let place = random.place(given.len());
    if let Some(known) = given.get(place).filter(|_| kind > 0) {
        if kind != 1 {
            name = known.name();
        }
        if kind != 2 {
            serial = known.serial();
        }
        if kind != 3 {
            realm = known.realm();
        }
        if kind != 4 {
            offset = known.offset;
        }
    }
    Ticket::from_parts(offset, name, serial, realm).expect(rt, "a name")
}

// The last tickets are more often live.
fn recent_ticket(rt: &impl Abort, random: &mut Random, plain: &Plain) -> Ticket {
    let first = plain.given.len().saturating_sub(64);
    match plain.given.get(first..) {
        None => any_ticket(rt, random, &plain.given),
        Some(last) => any_ticket(rt, random, last),
    }
}

// Any ticket, also one of the first.
fn old_ticket(rt: &impl Abort, random: &mut Random, plain: &Plain) -> Ticket {
    any_ticket(rt, random, &plain.given)
}

fn keep(rt: &impl Abort, plain: &mut Plain, granted: Option<Ticket>, size: u32) {
    if let Some(ticket) = granted {
        // no serial is given twice
        assert_that(
            rt,
            plain
                .given
                .iter()
                .all(|other| other.serial() < ticket.serial()),
        );
        let live = Live {
            ticket,
            offset: ticket.offset,
            size,
        };
        plain.live.push(live).expect(rt, "memory");
        plain.given.push(ticket).expect(rt, "memory");
    }
}

fn free<T: Tables>(rt: &impl Abort, space: &mut GuardedOf<T>, plain: &mut Plain, ticket: Ticket) {
    let place = plain.place(ticket);
    assert_same(rt, &space.free(ticket), &place.is_some());
    if let Some(place) = place.filter(|place| *place < plain.live.len()) {
        let _freed = plain.live.remove(place);
    }
}

fn resize<T: Tables>(
    rt: &impl Abort,
    space: &mut GuardedOf<T>,
    plain: &mut Plain,
    ticket: Ticket,
    size: u32,
) {
    let place = plain.place(ticket);
    let done = if size % 2 == 0 {
        space.shrink(ticket, size)
    } else {
        space.grow_in_place(ticket, size)
    };
    assert_same(rt, &done.is_some(), &place.is_some());
    if let Some(place) = place
        && done == Some(true)
        && let Some(live) = plain.live.get_mut(place)
    {
        live.size = size;
    }
}

fn allocate<T: Tables>(space: &mut GuardedOf<T>, size: u32) -> Option<Ticket> {
    space.allocate(size)
}

fn allocate_aligned<T: Tables>(space: &mut GuardedOf<T>, size: u32) -> Option<Ticket> {
    space.allocate_aligned(size, 8)
}

fn extend<T: Tables>(space: &mut GuardedOf<T>, more: u32) {
    let _done = space.extend(more);
}

fn reset<T: Tables>(space: &mut GuardedOf<T>, plain: &mut Plain) {
    space.reset();
    plain.live.clear();
}

fn step<T: Tables>(
    rt: &impl Abort,
    space: &mut GuardedOf<T>,
    plain: &mut Plain,
    random: &mut Random,
) {
    let number = random.advance();
    let size = number / 32 % 40 + 1;
    match number % 32 {
        0..=9 => keep(rt, plain, allocate(space, size), size),
        10 => keep(rt, plain, allocate_aligned(space, size), size),
        11..=24 => {
            let ticket = recent_ticket(rt, random, plain);
            free(rt, space, plain, ticket)
        }
        25..=28 => {
            let ticket = recent_ticket(rt, random, plain);
            resize(rt, space, plain, ticket, size)
        }
        29 => {
            let ticket = old_ticket(rt, random, plain);
            free(rt, space, plain, ticket)
        }
        30 => extend(space, number / 32 % 4),
        _ => {
            if number / 32 % 16 == 0 {
                reset(space, plain)
            }
        }
    }
}

// The number of used blocks.
fn used_blocks<T: Tables>(space: &GuardedOf<T>) -> usize {
    let mut used = 0usize;
    for block in space.allocator().blocks() {
        if block.allocation.is_some() {
            used = used.wrapping_add(1);
        }
    }
    used
}

// Every live range is where the list has it, and there is no other.
fn expect_same<T: Tables>(rt: &impl Abort, space: &GuardedOf<T>, plain: &Plain) {
    for live in &plain.live {
        assert_same(rt, &space.offset_of(live.ticket), &Some(live.offset));
        assert_same(rt, &space.size_of(live.ticket), &Some(live.size));
    }
    assert_same(rt, &used_blocks(space), &plain.live.len());
}

// The next step on both, and any ticket after it.
fn expect_step<T: Tables>(
    rt: &impl Abort,
    space: &mut GuardedOf<T>,
    plain: &mut Plain,
    random: &mut Random,
) {
    step(rt, space, plain, random);
    let ticket = any_ticket(rt, random, &plain.given);
    assert_same(rt, &space.size_of(ticket), &plain.size_of(ticket));
    expect_same(rt, space, plain);
}

fn expect_plain<T: Tables>(rt: &impl Abort, alloc: Global, state: u64)
    requires { 71 < T.Index.MAX }
{
    let mut random = Random::new(state);
    let space = GuardedOf::<T>::with_realm(alloc, 1_000, 70, REALM);
    let mut space = space.expect(rt, "memory");
    let mut plain = Plain {
        live: Vec::new(alloc),
        given: Vec::new(alloc),
    };
    for _ in 0..STEPS {
        expect_step(rt, &mut space, &mut plain, &mut random);
    }
}

fn expect_plain_by_node<NI: NodeIndex>(rt: &impl Abort, alloc: Global, state: u64)
    requires { 71 < NI.MAX }
{
    expect_plain::<ByNode<NI>>(rt, alloc, state);
}

#[test]
fn tickets_of_32_bits_touch_no_other_range(rt: HostRuntime) {
    expect_plain_by_node::<u32>(&rt, rt.alloc(), 1);
}

#[test]
fn tickets_of_16_bits_touch_no_other_range(rt: HostRuntime) {
    expect_plain_by_node::<u16>(&rt, rt.alloc(), 2);
}
