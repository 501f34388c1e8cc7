//! Calls that may slide ranges: the moves, and the numbers of the ranges that move. It changes the space and the
//! numbers, and no handle or ticket.

ghost use Rattle.std.specs.Prelude.{◌≡◌, ◌++◌, ◌∷◌, [], All, IfOk, IsTrue, List, None, OnErr, false, map, slice_index};
ghost use Rattle.std.specs.List.{FoldsTo};
ghost use Rattle.offset_allocator.specs.Moving.Compacting as named;
ghost use Rattle.offset_allocator.specs.Moving.Compacting.{IsCalledWith};
ghost use Rattle.offset_allocator.specs.Ranges.{range_of};
ghost use Rattle.offset_guarded.specs.Guard.{KeepsSizes, serial_of};
ghost use Rattle.offset_calls.specs.Calling as calling;
ghost use Rattle.offset_calls.specs.Calling.{IsLost};
ghost use Rattle.offset_calls.specs.Calls.{is_valid, move_view, reply_view};
ghost use Rattle.offset_calls.specs.Slides.{IsSlid, done, named_move, numbered_move, slid_reply, so_far};
ghost use Rattle.offset_calls.specs.Steps.{AreKept, AreNumbers, Takes};
ghost use Rattle.offset_calls.specs.Tickets.{AreAllTickets, TakesTicket, handles_of};

use crate::calls::{Call, Moved, Reply};
use crate::numbers::Numbers;
use crate::ticket_player::TicketPlayer;
use offset_allocator::{Allocation, AllocatorOf, Move, NodeIndex, Progress, RoomCost, Tables};
use offset_guarded::GuardedOf;
use offset_script::Answer;
use offset_script::keeper::KeeperOf;
use std::alloc::{AllocError, Global};

// The moves so far, without numbers, each with the handle of its range after it, unless memory for one was
// refused.
#[derive(Drop)]
struct Seen<NI: NodeIndex> {
    found: Vec<(Allocation<NI>, Moved)>,
    is_refused: bool,
}

impl<NI: NodeIndex> Seen<NI> {
    // No moves.
    fn new(alloc: Global) -> Self
        ensures { result.found.items ≡ [] }
    {
        Seen {
            found: Vec::new(alloc),
            is_refused: false,
        }
    }

    // One more move.
    fn add(&mut self, range: Move<NI>)
        ensures { self.new.is_refused ≡ false → (self.old.is_refused ≡ false)
            × (map named_move self.new.found.items ≡ map named_move self.old.found.items ++ record {
              name = NI.NonMax.number range.name;
              from = range.from;
              to = range.to;
              size = range.size;
            } ∷ []) }
    {
        let moved = Moved {
            number: 0,
            from: range.from,
            to: range.to,
            size: range.size,
        };
        if self.found.push((range.allocation(), moved)).is_err() {
            self.is_refused = true;
        }
    }
}

// What a call that may slide ranges comes to: a reply without its moves.
#[derive(Drop)]
enum Slid {
    Refused,
    Compacted,
    CompactedWithin(Option<u32>),
    RoomMade(Option<RoomCost>),
}

// What a compaction comes to, which is done or refused.
fn done(is_done: bool) -> Slid
    ensures { result ≡ done is_done }
{
    if is_done {
        Slid::Compacted
    } else {
        Slid::Refused
    }
}

// What one within a budget comes to, which came so far or is refused.
fn so_far(progress: Option<Progress>) -> Slid
    ensures { result ≡ so_far progress }
{
    match progress {
        None => Slid::Refused,
        Some(progress) => Slid::CompactedWithin(progress.next),
    }
}

// What a call comes to, which reports its moves to a closure, in their order.
fn slide<T: Tables, F: FnMut(Move<T::Index>)>(
    space: &mut AllocatorOf<T>,
    call: Call,
    moved: &mut F,
) -> Slid
    requires callable { F.IsAlwaysCallable moved.old }
    requires slides { IsTrue (calling.slides call) }
    requires valid { IsTrue (is_valid call) }
    ensures { (xs : List named.Move)
        × FoldsTo (IsCalledWith T.Index.NonMax.number (λ f range g. F.step f range tt g)) moved.old xs moved.new
        × IsSlid call space.old result space.new xs }
{
    match call {
        Call::Compact => {
            space.compact(moved);
            Slid::Compacted
        }
        Call::CompactBy(step) => done(space.compact_by(step, moved)),
        Call::CompactWithin(step, from, most_units, most_ranges) => {
            so_far(space.compact_within(step, from, most_units, most_ranges, moved))
        }
        Call::MakeRoom(size) => Slid::RoomMade(space.make_room(size, moved)),
        Call::MakeRoomBy(size, align, step) => {
            Slid::RoomMade(space.make_room_by(size, align, step, moved))
        }
        _ => unreachable!(),
    }
}

// The same of a space with tickets, which keeps its serials.
fn slide_guarded<T: Tables, F: FnMut(Move<T::Index>)>(
    space: &mut GuardedOf<T>,
    call: Call,
    report: &mut F,
) -> Slid
    requires callable { F.IsAlwaysCallable report.old }
    requires slides { IsTrue (calling.slides call) }
    requires valid { IsTrue (is_valid call) }
    ensures step { (xs : List named.Move)
        × FoldsTo (IsCalledWith T.Index.NonMax.number (λ f range g. F.step f range tt g)) report.old xs report.new
        × IsSlid call space.old.space result space.new.space xs }
    ensures sizes { KeepsSizes space.old space.new }
    ensures serials { space.new ≡ record space.old { space = space.new.space } }
{
    match call {
        Call::Compact => {
            space.compact_unaligned(report);
            Slid::Compacted
        }
        Call::CompactBy(step) => done(space.compact_by(step, report)),
        Call::CompactWithin(step, from, most_units, most_ranges) => {
            so_far(space.compact_within_by(step, from, most_units, most_ranges, report))
        }
        Call::MakeRoom(size) => Slid::RoomMade(space.make_room_unaligned(size, report)),
        Call::MakeRoomBy(size, align, step) => {
            Slid::RoomMade(space.make_room_by(size, align, step, report))
        }
        _ => unreachable!(),
    }
}

// What a call comes to, whose moves are collected. Its index type is a parameter too, which keeps the proof short,
// here and below.
fn collect<NI: NodeIndex, T: Tables<Index = NI>>(
    space: &mut AllocatorOf<T>,
    call: Call,
    seen: &mut Seen<NI>,
) -> Slid
    requires slides { IsTrue (calling.slides call) }
    requires valid { IsTrue (is_valid call) }
    requires none { seen.old.found.items ≡ [] }
    ensures step { seen.new.is_refused ≡ false
        → IsSlid call space.old result space.new (map named_move seen.new.found.items) }
    // Whatever was collected, there are such moves.
    ensures some { (xs : List named.Move) × IsSlid call space.old result space.new xs }
{
    slide(space, call, &mut |range: Move<NI>| seen.add(range))
}

// The same of a space with tickets.
fn collect_guarded<NI: NodeIndex, T: Tables<Index = NI>>(
    space: &mut GuardedOf<T>,
    call: Call,
    seen: &mut Seen<NI>,
) -> Slid
    requires slides { IsTrue (calling.slides call) }
    requires valid { IsTrue (is_valid call) }
    requires none { seen.old.found.items ≡ [] }
    ensures step { seen.new.is_refused ≡ false
        → IsSlid call space.old.space result space.new.space (map named_move seen.new.found.items) }
    ensures sizes { KeepsSizes space.old space.new }
    ensures serials { space.new ≡ record space.old { space = space.new.space } }
{
    slide_guarded(space, call, &mut |range: Move<NI>| seen.add(range))
}

// The moves, with the numbers of the ranges.
fn numbered<NI: NodeIndex>(
    alloc: Global,
    numbers: &Numbers,
    slides: &[(Allocation<NI>, Moved)],
) -> Result<Vec<Moved>, AllocError>
    ensures { IfOk result (λ ms. map move_view ms.items
        ≡ map (numbered_move (λ x. slice_index numbers.now.by_name.items x)) slides.now) }
{
    let mut found = Vec::new(alloc);
    for i in 0..slides.len() {
        let (handle, moved) = slides[i];
        found.push(Moved {
            number: numbers.of(handle.name()),
            ..moved
        })?;
    }
    Ok(found)
}

// The same of a space with tickets, where the numbers are serials.
fn with_serials<T: Tables>(
    alloc: Global,
    space: &GuardedOf<T>,
    slides: &[(Allocation<T::Index>, Moved)],
) -> Result<Vec<Moved>, AllocError>
    requires live { All (λ s. range_of s.0.name space.now.space ≡ None → ⊥) slides.now }
    ensures { IfOk result (λ ms. map move_view ms.items
        ≡ map (numbered_move (λ x. serial_of x space.now)) slides.now) }
{
    let mut found = Vec::new(alloc);
    for i in 0..slides.len() {
        let (handle, range) = slides[i];
        // it is live, so it has a ticket
        let number = match space.ticket(handle) {
            None => 0,
            Some(ticket) => ticket.serial(),
        };
        found.push(Moved { number, ..range })?;
    }
    Ok(found)
}

// The reply to a call that came to this, with these moves.
fn slid_reply(came_to: Slid, moves: Vec<Moved>) -> Reply
    ensures { reply_view result ≡ slid_reply came_to (map move_view moves.items) }
{
    match came_to {
        Slid::Refused => Reply::Answer(Answer::Refused),
        Slid::Compacted => Reply::Compacted(moves),
        Slid::CompactedWithin(next) => Reply::CompactedWithin(next, moves),
        Slid::RoomMade(cost) => Reply::RoomMade(cost, moves),
    }
}

// The reply to a call.
#[inline(never)]
pub(crate) fn reply<T: Tables>(
    alloc: Global,
    player: &mut KeeperOf<T>,
    numbers: &mut Numbers,
    call: Call,
) -> Result<Reply, AllocError>
    requires kept { AreKept player.old.space player.old.handles.items }
    requires numbers { AreNumbers player.old.handles.items numbers.old.grants numbers.old.by_name.items }
    requires slides { IsTrue (calling.slides call) }
    requires valid { IsTrue (is_valid call) }
    ensures takes { IfOk result (λ r. Takes call player.old.space player.old.handles.items
        player.new.space player.new.handles.items (reply_view r)) }
    ensures lost { OnErr result (IsLost call player.old.space player.old.handles.items
        player.new.space player.new.handles.items) }
    ensures numbers { AreNumbers player.old.handles.items numbers.new.grants numbers.new.by_name.items }
{
    numbers.read(&player.handles, player.space.node_count())?;
    let mut seen = Seen::new(alloc);
    let came_to = collect(&mut player.space, call, &mut seen);
    if seen.is_refused {
        return Err(AllocError);
    }
    Ok(slid_reply(came_to, numbered(alloc, numbers, &seen.found)?))
}

// The reply of a space with tickets.
#[inline(never)]
pub(crate) fn reply_guarded<T: Tables>(
    alloc: Global,
    player: &mut TicketPlayer<T>,
    call: Call,
) -> Result<Reply, AllocError>
    requires all_tickets { AreAllTickets player.old.space player.old.tickets.items }
    requires kept { AreKept player.old.space.space (handles_of player.old.space player.old.tickets.items) }
    requires slides { IsTrue (calling.slides call) }
    requires valid { IsTrue (is_valid call) }
    ensures { IfOk result (λ r. TakesTicket call player.old.space player.old.tickets.items
        player.new.space player.new.tickets.items (reply_view r)) }
{
    let mut seen = Seen::new(alloc);
    let came_to = collect_guarded(&mut player.space, call, &mut seen);
    if seen.is_refused {
        return Err(AllocError);
    }
    Ok(slid_reply(came_to, with_serials(alloc, &player.space, &seen.found)?))
}
