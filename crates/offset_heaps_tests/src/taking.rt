//! Each call is taken as the laws say it: so in the same state it has the same result. Nothing calls these
//! functions: they are proved.

ghost use Rattle.std.specs.Prelude.{◌≤◌};
ghost use Rattle.std.specs.Prelude.{None, false};
ghost use Rattle.offset_guarded.specs.Answers as tickets;
ghost use Rattle.offset_heaps.specs.Calls.{Allocates, AllocatesTight, Drops, DropsEmpty, ExtendsOne, Frees, GivesUp};
ghost use Rattle.offset_heaps.specs.Calls.{CompactsEach, Relocates, RelocatesOwn, TakesAt, TakesWhere};
ghost use Rattle.offset_heaps.specs.Histories.{ResetsAll};
ghost use Rattle.offset_heaps.specs.Places.{ticket_of};

use offset_allocator::{Move, RoomCost};
use offset_heaps::{Granted, Heaps, Place, Refusal};
use std::alloc::AllocError;

/// Makes a request.
pub fn allocate(heaps: &mut Heaps, size: u32) -> Result<Granted, Refusal>
    ensures { Allocates size 1 heaps.old heaps.new result }
{
    heaps.allocate(size)
}

/// Makes a request with an alignment.
pub fn allocate_aligned(heaps: &mut Heaps, size: u32, align: u32) -> Result<Granted, Refusal>
    requires { 1 ≤ align }
    ensures { Allocates size align heaps.old heaps.new result }
{
    heaps.allocate_aligned(size, align)
}

/// Makes a tight request.
pub fn allocate_tight(heaps: &mut Heaps, size: u32) -> Result<Granted, Refusal>
    ensures { AllocatesTight size 1 heaps.old heaps.new result }
{
    heaps.allocate_tight(size)
}

/// Makes a tight request with an alignment.
pub fn allocate_tight_aligned(heaps: &mut Heaps, size: u32, align: u32) -> Result<Granted, Refusal>
    requires { 1 ≤ align }
    ensures { AllocatesTight size align heaps.old heaps.new result }
{
    heaps.allocate_tight_aligned(size, align)
}

/// Frees a range.
pub fn free(heaps: &mut Heaps, place: Place) -> bool
    ensures { Frees place heaps.old heaps.new result }
{
    heaps.free(place)
}

/// Grants a second range in another heap, at each alignment that the first one has.
pub fn relocate(heaps: &mut Heaps, place: Place) -> Option<Granted>
    ensures { RelocatesOwn place heaps.old heaps.new result }
{
    heaps.relocate(place)
}

/// Grants a second range in another heap, with an alignment.
pub fn relocate_aligned(heaps: &mut Heaps, place: Place, align: u32) -> Option<Granted>
    requires { 1 ≤ align }
    ensures { Relocates place align heaps.old heaps.new result }
{
    heaps.relocate_aligned(place, align)
}

/// Drops the last empty heap, if more than `keep` are empty.
pub fn drop_empty(heaps: &mut Heaps, keep: u32) -> Option<u32>
    ensures { DropsEmpty keep heaps.old heaps.new result }
{
    heaps.drop_empty(keep)
}

/// Drops a heap, if it is empty.
pub fn drop_heap(heaps: &mut Heaps, number: u32) -> bool
    ensures { Drops number heaps.old heaps.new result }
{
    heaps.drop_heap(number)
}

/// Takes back a heap.
pub fn give_up(heaps: &mut Heaps, number: u32) -> bool
    ensures { GivesUp number heaps.old heaps.new result }
{
    heaps.give_up(number)
}

/// Resets all heaps.
pub fn reset(heaps: &mut Heaps)
    ensures { ResetsAll heaps.old heaps.new }
{
    heaps.reset();
}

/// Makes a range smaller in place.
pub fn shrink(heaps: &mut Heaps, place: Place, size: u32) -> Option<bool>
    ensures { TakesAt place (tickets.Call.Shrink (ticket_of place) size) heaps.old heaps.new result }
{
    heaps.shrink(place, size)
}

/// Makes a range larger in place.
pub fn grow_in_place(heaps: &mut Heaps, place: Place, size: u32) -> Option<bool>
    ensures { TakesAt place (tickets.Call.Grow_in_place (ticket_of place) size) heaps.old heaps.new result }
{
    heaps.grow_in_place(place, size)
}

/// Adds units at the end of a heap.
pub fn extend_heap(heaps: &mut Heaps, number: u32, more: u32) -> Result<bool, AllocError>
    ensures { ExtendsOne number more heaps.old heaps.new result }
{
    heaps.extend_heap(number, more)
}

/// Compacts a heap.
pub fn compact_heap(heaps: &mut Heaps, number: u32) -> bool
    ensures { TakesWhere number tickets.Call.Compact (tickets.Answer.Was_done false) heaps.old heaps.new
        (tickets.Answer.Was_done result) }
{
    heaps.compact_heap(number, &mut |_range: Move<u32>| ())
}

/// Compacts all heaps.
pub fn compact(heaps: &mut Heaps) -> bool
    ensures { CompactsEach heaps.old heaps.new result }
{
    heaps.compact(&mut |_number: u32, _range: Move<u32>| ())
}

/// Makes room for a request in a heap.
pub fn make_room(heaps: &mut Heaps, number: u32, size: u32) -> Option<RoomCost>
    ensures { TakesWhere number (tickets.Call.Make_room size 1) (tickets.Answer.Room_made None) heaps.old heaps.new
        (tickets.Answer.Room_made result) }
{
    heaps.make_room(number, size, &mut |_range: Move<u32>| ())
}

/// Makes room for a request with an alignment in a heap.
pub fn make_room_aligned(heaps: &mut Heaps, number: u32, size: u32, align: u32) -> Option<RoomCost>
    requires { 1 ≤ align }
    ensures { TakesWhere number (tickets.Call.Make_room size align) (tickets.Answer.Room_made None) heaps.old heaps.new
        (tickets.Answer.Room_made result) }
{
    heaps.make_room_aligned(number, size, align, &mut |_range: Move<u32>| ())
}
