//! Each call of `HeapMut` is a call of tickets in the laws, except `retract`, which is a call of heaps: so in the same state it
//! returns the same and reports the same moves. Where it goes by the step of the heap, or moves nothing, it is a step of a
//! history too: so every alignment is kept, and no place of a heap that is gone is live after it. Nothing calls these functions:
//! they are proved.

ghost use Rattle.std.specs.Prelude.{◌≤◌, [], List};
ghost use Rattle.offset_allocator.specs.Moving.Compacting.{Move};
ghost use Rattle.offset_guarded.specs.Answers as tickets;
ghost use Rattle.offset_heaps.specs.Calls.{Retract_heap, Takes, TakesOn, Was_done};
ghost use Rattle.offset_heaps.specs.Histories.{IsStep};

use offset_allocator::{ByNode, Move as Moved, Progress, RoomCost};
use offset_guarded::Ticket;
use offset_heaps::HeapMut;
use offset_heaps::laws::alignments_are_kept;

/// A request.
pub fn allocate(heap: &mut HeapMut<'_, ByNode<u32>>, size: u32) -> Option<Ticket>
    ensures call { TakesOn heap.old.number (tickets.Call.Allocate size) heap.old.heaps.now heap.new.heaps.now (tickets.Answer.Requested result) [] }
    ensures step { IsStep heap.old.heaps.now heap.new.heaps.now }
{
    alignments_are_kept();
    heap.allocate(size)
}

/// A request with an alignment.
pub fn allocate_aligned(
    heap: &mut HeapMut<'_, ByNode<u32>>,
    size: u32,
    align: u32,
) -> Option<Ticket>
    requires alignment { 1 ≤ align }
    ensures call { TakesOn heap.old.number (tickets.Call.Allocate_aligned size align) heap.old.heaps.now heap.new.heaps.now (tickets.Answer.Requested result) [] }
    ensures step { IsStep heap.old.heaps.now heap.new.heaps.now }
{
    alignments_are_kept();
    heap.allocate_aligned(size, align)
}

/// A tight request.
pub fn allocate_tight(heap: &mut HeapMut<'_, ByNode<u32>>, size: u32) -> Option<Ticket>
    ensures call { TakesOn heap.old.number (tickets.Call.Allocate_tight size) heap.old.heaps.now heap.new.heaps.now (tickets.Answer.Requested result) [] }
    ensures step { IsStep heap.old.heaps.now heap.new.heaps.now }
{
    alignments_are_kept();
    heap.allocate_tight(size)
}

/// A tight request with an alignment.
pub fn allocate_tight_aligned(
    heap: &mut HeapMut<'_, ByNode<u32>>,
    size: u32,
    align: u32,
) -> Option<Ticket>
    requires alignment { 1 ≤ align }
    ensures call { TakesOn heap.old.number (tickets.Call.Allocate_tight_aligned size align) heap.old.heaps.now heap.new.heaps.now (tickets.Answer.Requested result) [] }
    ensures step { IsStep heap.old.heaps.now heap.new.heaps.now }
{
    alignments_are_kept();
    heap.allocate_tight_aligned(size, align)
}

/// A request at an offset.
pub fn allocate_at(heap: &mut HeapMut<'_, ByNode<u32>>, offset: u32, size: u32) -> Option<Ticket>
    ensures call { TakesOn heap.old.number (tickets.Call.Allocate_at offset size) heap.old.heaps.now heap.new.heaps.now (tickets.Answer.Requested result) [] }
    ensures step { IsStep heap.old.heaps.now heap.new.heaps.now }
{
    alignments_are_kept();
    heap.allocate_at(offset, size)
}

/// A request for a second range.
pub fn relocate(heap: &mut HeapMut<'_, ByNode<u32>>, ticket: Ticket) -> Option<Ticket>
    ensures call { TakesOn heap.old.number (tickets.Call.Relocate ticket) heap.old.heaps.now heap.new.heaps.now (tickets.Answer.Requested result) [] }
    ensures step { IsStep heap.old.heaps.now heap.new.heaps.now }
{
    alignments_are_kept();
    heap.relocate(ticket)
}

/// The same with an alignment.
pub fn relocate_aligned(
    heap: &mut HeapMut<'_, ByNode<u32>>,
    ticket: Ticket,
    align: u32,
) -> Option<Ticket>
    requires alignment { 1 ≤ align }
    ensures call { TakesOn heap.old.number (tickets.Call.Relocate_aligned ticket align) heap.old.heaps.now heap.new.heaps.now (tickets.Answer.Requested result) [] }
    ensures step { IsStep heap.old.heaps.now heap.new.heaps.now }
{
    alignments_are_kept();
    heap.relocate_aligned(ticket, align)
}

/// The same with none.
pub fn relocate_unaligned(heap: &mut HeapMut<'_, ByNode<u32>>, ticket: Ticket) -> Option<Ticket>
    ensures call { TakesOn heap.old.number (tickets.Call.Relocate_unaligned ticket) heap.old.heaps.now heap.new.heaps.now (tickets.Answer.Requested result) [] }
    ensures step { IsStep heap.old.heaps.now heap.new.heaps.now }
{
    alignments_are_kept();
    heap.relocate_unaligned(ticket)
}

/// A range freed.
pub fn free(heap: &mut HeapMut<'_, ByNode<u32>>, ticket: Ticket) -> bool
    ensures call { TakesOn heap.old.number (tickets.Call.Free ticket) heap.old.heaps.now heap.new.heaps.now (tickets.Answer.Was_done result) [] }
    ensures step { IsStep heap.old.heaps.now heap.new.heaps.now }
{
    alignments_are_kept();
    heap.free(ticket)
}

/// A range made smaller.
pub fn shrink(heap: &mut HeapMut<'_, ByNode<u32>>, ticket: Ticket, size: u32) -> Option<bool>
    ensures call { TakesOn heap.old.number (tickets.Call.Shrink ticket size) heap.old.heaps.now heap.new.heaps.now (tickets.Answer.Resized result) [] }
    ensures step { IsStep heap.old.heaps.now heap.new.heaps.now }
{
    alignments_are_kept();
    heap.shrink(ticket, size)
}

/// A range made larger.
pub fn grow_in_place(heap: &mut HeapMut<'_, ByNode<u32>>, ticket: Ticket, size: u32) -> Option<bool>
    ensures call { TakesOn heap.old.number (tickets.Call.Grow_in_place ticket size) heap.old.heaps.now heap.new.heaps.now (tickets.Answer.Resized result) [] }
    ensures step { IsStep heap.old.heaps.now heap.new.heaps.now }
{
    alignments_are_kept();
    heap.grow_in_place(ticket, size)
}

/// More units.
pub fn extend(heap: &mut HeapMut<'_, ByNode<u32>>, more: u32) -> bool
    ensures call { TakesOn heap.old.number (tickets.Call.Extend more) heap.old.heaps.now heap.new.heaps.now (tickets.Answer.Was_done result) [] }
    ensures step { IsStep heap.old.heaps.now heap.new.heaps.now }
{
    alignments_are_kept();
    heap.extend(more)
}

/// Fewer units: a call of heaps, since the heap keeps the least units of its kind.
pub fn retract(heap: &mut HeapMut<'_, ByNode<u32>>, less: u32) -> bool
    ensures call { Takes (Retract_heap heap.old.number less) heap.old.heaps.now heap.new.heaps.now (Was_done result) }
    ensures step { IsStep heap.old.heaps.now heap.new.heaps.now }
{
    alignments_are_kept();
    heap.retract(less)
}

/// A larger step.
pub fn raise_step(heap: &mut HeapMut<'_, ByNode<u32>>, align: u32)
    requires alignment { 1 ≤ align }
    ensures call { TakesOn heap.old.number (tickets.Call.Raise_step align) heap.old.heaps.now heap.new.heaps.now tickets.Answer.Nothing [] }
    ensures step { IsStep heap.old.heaps.now heap.new.heaps.now }
{
    alignments_are_kept();
    heap.raise_step(align);
}

/// A reset.
pub fn reset(heap: &mut HeapMut<'_, ByNode<u32>>)
    ensures call { TakesOn heap.old.number tickets.Call.Reset heap.old.heaps.now heap.new.heaps.now tickets.Answer.Nothing [] }
    ensures step { IsStep heap.old.heaps.now heap.new.heaps.now }
{
    alignments_are_kept();
    heap.reset();
}

/// A compaction.
pub fn compact(heap: &mut HeapMut<'_, ByNode<u32>>) -> bool
    ensures call { (ms : List Move) × TakesOn heap.old.number tickets.Call.Compact heap.old.heaps.now heap.new.heaps.now (tickets.Answer.Was_done result) ms }
    ensures step { IsStep heap.old.heaps.now heap.new.heaps.now }
{
    alignments_are_kept();
    heap.compact(&mut |_range: Moved<u32>| ())
}

/// A compaction by a step.
pub fn compact_by(heap: &mut HeapMut<'_, ByNode<u32>>, step: u32) -> bool
    requires some { 1 ≤ step }
    ensures { (ms : List Move) × TakesOn heap.old.number (tickets.Call.Compact_by step) heap.old.heaps.now heap.new.heaps.now (tickets.Answer.Was_done result) ms }
{
    heap.compact_by(step, &mut |_range: Moved<u32>| ())
}

/// A compaction by none.
pub fn compact_unaligned(heap: &mut HeapMut<'_, ByNode<u32>>)
    ensures { (ms : List Move) × TakesOn heap.old.number tickets.Call.Compact_unaligned heap.old.heaps.now heap.new.heaps.now tickets.Answer.Nothing ms }
{
    heap.compact_unaligned(&mut |_range: Moved<u32>| ());
}

/// A compaction over frames.
pub fn compact_within(
    heap: &mut HeapMut<'_, ByNode<u32>>,
    from: u32,
    units: u32,
    ranges: u32,
) -> Option<Progress>
    ensures call { (ms : List Move) × TakesOn heap.old.number (tickets.Call.Compact_within from units ranges) heap.old.heaps.now heap.new.heaps.now (tickets.Answer.Progressed result) ms }
    ensures step { IsStep heap.old.heaps.now heap.new.heaps.now }
{
    alignments_are_kept();
    heap.compact_within(from, units, ranges, &mut |_range: Moved<u32>| ())
}

/// The same by a step.
pub fn compact_within_by(
    heap: &mut HeapMut<'_, ByNode<u32>>,
    step: u32,
    from: u32,
    units: u32,
    ranges: u32,
) -> Option<Progress>
    requires some { 1 ≤ step }
    ensures { (ms : List Move) × TakesOn heap.old.number (tickets.Call.Compact_within_by step from units ranges) heap.old.heaps.now heap.new.heaps.now (tickets.Answer.Progressed result) ms }
{
    heap.compact_within_by(step, from, units, ranges, &mut |_range: Moved<u32>| ())
}

/// Room for a request.
pub fn make_room(heap: &mut HeapMut<'_, ByNode<u32>>, size: u32) -> Option<RoomCost>
    ensures call { (ms : List Move) × TakesOn heap.old.number (tickets.Call.Make_room size 1) heap.old.heaps.now heap.new.heaps.now (tickets.Answer.Room_made result) ms }
    ensures step { IsStep heap.old.heaps.now heap.new.heaps.now }
{
    alignments_are_kept();
    heap.make_room(size, &mut |_range: Moved<u32>| ())
}

/// Room for a request with an alignment.
pub fn make_room_aligned(
    heap: &mut HeapMut<'_, ByNode<u32>>,
    size: u32,
    align: u32,
) -> Option<RoomCost>
    requires alignment { 1 ≤ align }
    ensures call { (ms : List Move) × TakesOn heap.old.number (tickets.Call.Make_room size align) heap.old.heaps.now heap.new.heaps.now (tickets.Answer.Room_made result) ms }
    ensures step { IsStep heap.old.heaps.now heap.new.heaps.now }
{
    alignments_are_kept();
    heap.make_room_aligned(size, align, &mut |_range: Moved<u32>| ())
}

/// The same by a step.
pub fn make_room_by(
    heap: &mut HeapMut<'_, ByNode<u32>>,
    size: u32,
    align: u32,
    step: u32,
) -> Option<RoomCost>
    requires alignment { 1 ≤ align }
    requires some { 1 ≤ step }
    ensures { (ms : List Move) × TakesOn heap.old.number (tickets.Call.Make_room_by size align step) heap.old.heaps.now heap.new.heaps.now (tickets.Answer.Room_made result) ms }
{
    heap.make_room_by(size, align, step, &mut |_range: Moved<u32>| ())
}

/// Room for a request by no step.
pub fn make_room_unaligned(heap: &mut HeapMut<'_, ByNode<u32>>, size: u32) -> Option<RoomCost>
    ensures { (ms : List Move) × TakesOn heap.old.number (tickets.Call.Make_room_unaligned size) heap.old.heaps.now heap.new.heaps.now (tickets.Answer.Room_made result) ms }
{
    heap.make_room_unaligned(size, &mut |_range: Moved<u32>| ())
}
