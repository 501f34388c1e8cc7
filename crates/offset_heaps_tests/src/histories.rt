//! Any calls, one after another: each leaves a step of a history, so no place of a heap that is gone is live
//! after them. Nothing calls it: it is proved.

ghost use Rattle.offset_heaps.specs.Heaps.{IsLive};
ghost use Rattle.offset_heaps.specs.Histories.{IsGone, IsStep};

use crate::taking;
use offset_heaps::laws::{alignments_are_kept, dropped_heaps_stay_dropped};
use offset_heaps::{Heaps, Place};

/// A call that changes many heaps.
#[derive(Clone, Copy)]
pub enum Change {
    Allocate(u32),
    AllocateAligned(u32),
    AllocateTight(u32),
    AllocateTightAligned(u32),
    Relocate(Place),
    RelocateAligned(Place),
    Free(Place),
    DropEmpty(u32),
    DropHeap(u32),
    GiveUp(u32),
    Reset,
    Shrink(Place, u32),
    GrowInPlace(Place, u32),
    ExtendHeap(u32, u32),
    CompactHeap(u32),
    Compact,
    MakeRoom(u32, u32),
    MakeRoomAligned(u32, u32),
}

fn allocate(heaps: &mut Heaps, size: u32)
    ensures { IsStep heaps.old heaps.new }
{
    alignments_are_kept();
    let _ = taking::allocate(heaps, size);
}

fn allocate_aligned(heaps: &mut Heaps, size: u32)
    ensures { IsStep heaps.old heaps.new }
{
    alignments_are_kept();
    let _ = taking::allocate_aligned(heaps, size, 256);
}

fn allocate_tight(heaps: &mut Heaps, size: u32)
    ensures { IsStep heaps.old heaps.new }
{
    alignments_are_kept();
    let _ = taking::allocate_tight(heaps, size);
}

fn allocate_tight_aligned(heaps: &mut Heaps, size: u32)
    ensures { IsStep heaps.old heaps.new }
{
    alignments_are_kept();
    let _ = taking::allocate_tight_aligned(heaps, size, 256);
}

fn relocate(heaps: &mut Heaps, place: Place)
    ensures { IsStep heaps.old heaps.new }
{
    alignments_are_kept();
    let _ = taking::relocate(heaps, place);
}

fn relocate_aligned(heaps: &mut Heaps, place: Place)
    ensures { IsStep heaps.old heaps.new }
{
    alignments_are_kept();
    let _ = taking::relocate_aligned(heaps, place, 256);
}

fn free(heaps: &mut Heaps, place: Place)
    ensures { IsStep heaps.old heaps.new }
{
    alignments_are_kept();
    let _ = taking::free(heaps, place);
}

fn drop_empty(heaps: &mut Heaps, keep: u32)
    ensures { IsStep heaps.old heaps.new }
{
    alignments_are_kept();
    let _ = taking::drop_empty(heaps, keep);
}

fn drop_heap(heaps: &mut Heaps, number: u32)
    ensures { IsStep heaps.old heaps.new }
{
    alignments_are_kept();
    let _ = taking::drop_heap(heaps, number);
}

fn give_up(heaps: &mut Heaps, number: u32)
    ensures { IsStep heaps.old heaps.new }
{
    alignments_are_kept();
    let _ = taking::give_up(heaps, number);
}

fn reset(heaps: &mut Heaps)
    ensures { IsStep heaps.old heaps.new }
{
    alignments_are_kept();
    taking::reset(heaps);
}

fn shrink(heaps: &mut Heaps, place: Place, size: u32)
    ensures { IsStep heaps.old heaps.new }
{
    alignments_are_kept();
    let _ = taking::shrink(heaps, place, size);
}

fn grow_in_place(heaps: &mut Heaps, place: Place, size: u32)
    ensures { IsStep heaps.old heaps.new }
{
    alignments_are_kept();
    let _ = taking::grow_in_place(heaps, place, size);
}

fn extend_heap(heaps: &mut Heaps, number: u32, more: u32)
    ensures { IsStep heaps.old heaps.new }
{
    alignments_are_kept();
    let _ = taking::extend_heap(heaps, number, more);
}

fn compact(heaps: &mut Heaps)
    ensures { IsStep heaps.old heaps.new }
{
    alignments_are_kept();
    let _ = taking::compact(heaps);
}

fn compact_heap(heaps: &mut Heaps, number: u32)
    ensures { IsStep heaps.old heaps.new }
{
    alignments_are_kept();
    let _ = taking::compact_heap(heaps, number);
}

fn make_room(heaps: &mut Heaps, number: u32, size: u32)
    ensures { IsStep heaps.old heaps.new }
{
    alignments_are_kept();
    let _ = taking::make_room(heaps, number, size);
}

fn make_room_aligned(heaps: &mut Heaps, number: u32, size: u32)
    ensures { IsStep heaps.old heaps.new }
{
    alignments_are_kept();
    let _ = taking::make_room_aligned(heaps, number, size, 256);
}

/// Makes a call.
pub fn make(heaps: &mut Heaps, change: Change)
    ensures { IsStep heaps.old heaps.new }
{
    match change {
        Change::Allocate(size) => allocate(heaps, size),
        Change::AllocateAligned(size) => allocate_aligned(heaps, size),
        Change::AllocateTight(size) => allocate_tight(heaps, size),
        Change::AllocateTightAligned(size) => allocate_tight_aligned(heaps, size),
        Change::Relocate(place) => relocate(heaps, place),
        Change::RelocateAligned(place) => relocate_aligned(heaps, place),
        Change::Free(place) => free(heaps, place),
        Change::DropEmpty(keep) => drop_empty(heaps, keep),
        Change::DropHeap(number) => drop_heap(heaps, number),
        Change::GiveUp(number) => give_up(heaps, number),
        Change::Reset => reset(heaps),
        Change::Shrink(place, size) => shrink(heaps, place, size),
        Change::GrowInPlace(place, size) => grow_in_place(heaps, place, size),
        Change::ExtendHeap(number, more) => extend_heap(heaps, number, more),
        Change::CompactHeap(number) => compact_heap(heaps, number),
        Change::Compact => compact(heaps),
        Change::MakeRoom(number, size) => make_room(heaps, number, size),
        Change::MakeRoomAligned(number, size) => make_room_aligned(heaps, number, size),
    }
}

/// Makes calls, one after another, after the heap of a place is gone.
pub fn make_all(heaps: &mut Heaps, place: Place, changes: &[Change])
    requires { IsGone place heaps.old }
    ensures gone { IsGone place heaps.new }
    ensures dead { IsLive place heaps.new → ⊥ }
{
    dropped_heaps_stay_dropped(heaps);
    for change in changes {
        make(heaps, *change);
    }
}
