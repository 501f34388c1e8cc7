//! Plays calls on an allocator, whose handles it keeps. It touches that allocator, the handles and the numbers.

ghost use Rattle.std.specs.Prelude.{◌≡◌, ◌+◌, ◌<◌, ◌≤◌, All, IfOk, IsTrue, List, OnErr, Option, false, map};
ghost use Rattle.offset_allocator.specs.View.{Handle};
ghost use Rattle.offset_script.specs.Steps.{AreHeld, AreLive, Stays};
ghost use Rattle.offset_calls.specs.Calling.{IsLost};
ghost use Rattle.offset_calls.specs.Calls.{is_command, is_valid, reply_view};
ghost use Rattle.offset_calls.specs.Playing.{AreReplies, IsAppended};
ghost use Rattle.offset_calls.specs.Steps.{AreKept, AreNumbers, Takes};

use crate::calls::{Call, Reply, begins, resized};
use crate::numbers::Numbers;
use crate::{ending, sliding};
use offset_allocator::laws::is_well_formed;
use offset_allocator::{AllocatorOf, ByNode, NodeIndex, Tables};
use offset_script::Answer;
use offset_script::keeper::KeeperOf;
use std::alloc::{AllocError, Global};

// The reply to `Shrink`.
fn shrink<T: Tables>(player: &mut KeeperOf<T>, number: u32, size: u32) -> Reply
    requires { AreLive player.old.space player.old.handles.items }
    ensures { Takes (Call.Shrink number size) player.old.space player.old.handles.items
        player.new.space player.new.handles.items (reply_view result) }
{
    match player.handle(number) {
        None => Reply::Answer(Answer::Gone),
        Some(handle) => resized(player.space.shrink(handle, size)),
    }
}

// The reply to `Grow`.
fn grow<T: Tables>(player: &mut KeeperOf<T>, number: u32, size: u32) -> Reply
    requires { AreLive player.old.space player.old.handles.items }
    ensures { Takes (Call.Grow number size) player.old.space player.old.handles.items
        player.new.space player.new.handles.items (reply_view result) }
{
    match player.handle(number) {
        None => Reply::Answer(Answer::Gone),
        Some(handle) => resized(player.space.grow_in_place(handle, size)),
    }
}

// The reply to `Offset`.
fn offset<T: Tables>(player: &KeeperOf<T>, number: u32) -> Reply
    requires { AreLive player.now.space player.now.handles.items }
    ensures { Takes (Call.Offset number) player.now.space player.now.handles.items
        player.now.space player.now.handles.items (reply_view result) }
{
    match player.handle(number) {
        None => Reply::Answer(Answer::Gone),
        // it is live, so it has an offset
        Some(handle) => Reply::Offset(player.space.allocation_offset(handle).unwrap_or(0)),
    }
}

// The reply to `AllocateTight`.
#[inline(never)]
fn tight<T: Tables>(player: &mut KeeperOf<T>, size: u32) -> Result<Reply, AllocError>
    requires held { AreHeld player.old.space player.old.handles.items }
    ensures takes { IfOk result (λ r. Takes (Call.AllocateTight size) player.old.space player.old.handles.items
        player.new.space player.new.handles.items (reply_view r)) }
    ensures lost { OnErr result (Stays player.old.space player.old.handles.items
        player.new.space player.new.handles.items) }
{
    player.handles.reserve(1)?;
    let granted = player.space.allocate_tight(size);
    Ok(Reply::Answer(player.keep(granted)?))
}

// The reply to `AllocateTightAligned`.
#[inline(never)]
fn tight_aligned<T: Tables>(
    player: &mut KeeperOf<T>,
    size: u32,
    align: u32,
) -> Result<Reply, AllocError>
    requires held { AreHeld player.old.space player.old.handles.items }
    requires alignment { 1 ≤ align }
    ensures takes { IfOk result (λ r. Takes (Call.AllocateTightAligned size align)
        player.old.space player.old.handles.items player.new.space player.new.handles.items (reply_view r)) }
    ensures lost { OnErr result (Stays player.old.space player.old.handles.items
        player.new.space player.new.handles.items) }
{
    player.handles.reserve(1)?;
    let granted = player.space.allocate_tight_aligned(size, align);
    Ok(Reply::Answer(player.keep(granted)?))
}

// The reply to `AllocateAt`.
#[inline(never)]
fn allocate_at<T: Tables>(
    player: &mut KeeperOf<T>,
    offset: u32,
    size: u32,
) -> Result<Reply, AllocError>
    requires held { AreHeld player.old.space player.old.handles.items }
    ensures takes { IfOk result (λ r. Takes (Call.AllocateAt offset size)
        player.old.space player.old.handles.items player.new.space player.new.handles.items (reply_view r)) }
    ensures lost { OnErr result (Stays player.old.space player.old.handles.items
        player.new.space player.new.handles.items) }
{
    player.handles.reserve(1)?;
    let granted = player.space.allocate_at(offset, size);
    Ok(Reply::Answer(player.keep(granted)?))
}

// The reply to `RoomCost`.
#[inline(never)]
pub(crate) fn room_cost<T: Tables>(space: &AllocatorOf<T>, size: u32) -> Reply
    ensures { (hs : List (Option Handle)) → Takes (Call.RoomCost size) space.now hs space.now hs
        (reply_view result) }
{
    Reply::RoomCost(space.room_cost(size))
}

// The reply to `RoomCostBy`.
#[inline(never)]
pub(crate) fn room_cost_by<T: Tables>(
    space: &AllocatorOf<T>,
    size: u32,
    align: u32,
    step: u32,
) -> Reply
    requires alignment { 1 ≤ align }
    requires some { 1 ≤ step }
    ensures { (hs : List (Option Handle)) → Takes (Call.RoomCostBy size align step)
        space.now hs space.now hs (reply_view result) }
{
    Reply::RoomCost(space.room_cost_by(size, align, step))
}

// The reply to a call that is no command.
#[inline(never)]
fn other<T: Tables>(
    alloc: Global,
    player: &mut KeeperOf<T>,
    numbers: &mut Numbers,
    call: Call,
) -> Result<Reply, AllocError>
    requires held { AreHeld player.old.space player.old.handles.items }
    requires kept { AreKept player.old.space player.old.handles.items }
    requires numbers { AreNumbers player.old.handles.items numbers.old.grants numbers.old.by_name.items }
    requires valid { IsTrue (is_valid call) }
    requires rest { is_command call ≡ false }
    ensures takes { IfOk result (λ r. Takes call player.old.space player.old.handles.items
        player.new.space player.new.handles.items (reply_view r)) }
    ensures lost { OnErr result (IsLost call player.old.space player.old.handles.items
        player.new.space player.new.handles.items) }
    ensures numbers { AreNumbers player.old.handles.items numbers.new.grants numbers.new.by_name.items }
{
    match call {
        Call::Command(_) => unreachable!(),
        Call::Shrink(number, size) => Ok(shrink(player, number, size)),
        Call::Grow(number, size) => Ok(grow(player, number, size)),
        Call::Compact => sliding::reply(alloc, player, numbers, call),
        Call::CompactBy(_) => sliding::reply(alloc, player, numbers, call),
        Call::CompactWithin(_, _, _, _) => sliding::reply(alloc, player, numbers, call),
        Call::Offset(number) => Ok(offset(player, number)),
        Call::Refusal(size) => Ok(Reply::Refusal(player.space.refusal(size))),
        Call::RefusalAligned(size, align) => Ok(Reply::Refusal(
            player.space.refusal_aligned(size, align),
        )),
        Call::AllocateTight(size) => tight(player, size),
        Call::AllocateTightAligned(size, align) => tight_aligned(player, size, align),
        Call::AllocateAt(offset, size) => allocate_at(player, offset, size),
        Call::RefusalTight(size) => Ok(Reply::Refusal(player.space.refusal_tight(size))),
        Call::RefusalTightAligned(size, align) => Ok(Reply::Refusal(
            player.space.refusal_tight_aligned(size, align),
        )),
        Call::WouldBegin(size, align) => Ok(begins(player.space.would_begin(size, align))),
        Call::MakeRoom(_) => sliding::reply(alloc, player, numbers, call),
        Call::MakeRoomBy(_, _, _) => sliding::reply(alloc, player, numbers, call),
        Call::RoomCost(size) => Ok(room_cost(&player.space, size)),
        Call::RoomCostBy(size, align, step) => Ok(room_cost_by(&player.space, size, align, step)),
        Call::Relocate(number) => ending::relocate(player, number),
        Call::RelocateAligned(number, align) => ending::relocate_aligned(player, number, align),
        Call::Retract(less) => Ok(ending::retract(player, less)),
        Call::FirstLive => ending::first_live(player, numbers),
        Call::LastLive => ending::last_live(player, numbers),
        Call::LiveBefore(number) => ending::live_before(player, numbers, number),
        Call::LiveAfter(number) => ending::live_after(player, numbers, number),
    }
}

// The reply to one call.
pub(crate) fn reply<T: Tables>(
    alloc: Global,
    player: &mut KeeperOf<T>,
    numbers: &mut Numbers,
    call: Call,
) -> Result<Reply, AllocError>
    requires held { AreHeld player.old.space player.old.handles.items }
    requires kept { AreKept player.old.space player.old.handles.items }
    requires numbers { AreNumbers player.old.handles.items numbers.old.grants numbers.old.by_name.items }
    requires valid { IsTrue (is_valid call) }
    ensures takes { IfOk result (λ r. Takes call player.old.space player.old.handles.items
        player.new.space player.new.handles.items (reply_view r)) }
    ensures lost { OnErr result (IsLost call player.old.space player.old.handles.items
        player.new.space player.new.handles.items) }
    ensures numbers { AreNumbers player.old.handles.items numbers.new.grants numbers.new.by_name.items }
{
    match call {
        Call::Command(command) => Ok(Reply::Answer(player.call(alloc, command)?)),
        _ => other(alloc, player, numbers, call),
    }
}

// Appends the reply to a call that is no command.
#[inline(never)]
fn append_other<T: Tables>(
    alloc: Global,
    player: &mut KeeperOf<T>,
    numbers: &mut Numbers,
    call: &Call,
    replies: &mut Vec<Reply>,
) -> Result<(), AllocError>
    requires held { AreHeld player.old.space player.old.handles.items }
    requires kept { AreKept player.old.space player.old.handles.items }
    requires numbers { AreNumbers player.old.handles.items numbers.old.grants numbers.old.by_name.items }
    requires valid { IsTrue (is_valid call.now) }
    requires rest { is_command call.now ≡ false }
    ensures takes { IfOk result (λ _. IsAppended (λ r. Takes call.now player.old.space player.old.handles.items
        player.new.space player.new.handles.items r) replies.old.items replies.new.items) }
    ensures numbers { AreNumbers player.old.handles.items numbers.new.grants numbers.new.by_name.items }
{
    let reply = other(alloc, player, numbers, *call)?;
    replies.push(reply)?;
    Ok(())
}

// Appends the reply to one call. Most calls are commands. The others append theirs out of line, so that a command
// clears no stack, and keeps none, for their replies.
#[inline(always)]
fn append<T: Tables>(
    alloc: Global,
    player: &mut KeeperOf<T>,
    numbers: &mut Numbers,
    call: &Call,
    replies: &mut Vec<Reply>,
) -> Result<(), AllocError>
    requires held { AreHeld player.old.space player.old.handles.items }
    requires kept { AreKept player.old.space player.old.handles.items }
    requires numbers { AreNumbers player.old.handles.items numbers.old.grants numbers.old.by_name.items }
    requires valid { IsTrue (is_valid call.now) }
    ensures takes { IfOk result (λ _. IsAppended (λ r. Takes call.now player.old.space player.old.handles.items
        player.new.space player.new.handles.items r) replies.old.items replies.new.items) }
    ensures numbers { AreNumbers player.old.handles.items numbers.new.grants numbers.new.by_name.items }
{
    match call {
        Call::Command(command) => {
            let answer = player.call(alloc, *command)?;
            replies.push(Reply::Answer(answer))?;
            Ok(())
        }
        _ => append_other(alloc, player, numbers, call, replies),
    }
}

/// Plays calls on an allocator of `size` units with the node limit `max_allocs`, and returns the replies in
/// order, one for each.
///
/// The limit has to be 2 to `T::Index::MAX - 2`, each alignment and each step at least 1. All replies are kept in
/// memory. Each call costs what it costs in the allocator. Calls that may slide ranges, `FirstLive`, `LastLive`,
/// `LiveBefore` and `LiveAfter` also read the grants since the last one of them: from the first of these calls on
/// 8 bytes are kept for each node that was made, and twice as many while there are more nodes than at the last.
///
/// # Errors
///
/// It fails only where an allocation fails.
///
/// ```
/// let calls = [Call::AllocateTight(300), Call::MakeRoom(600), Call::LastLive];
/// let replies = play_calls_of::<offset_allocator::ByField<u16>>(alloc, 1000, 16, &calls)?;
/// assert!(matches!(replies[2], Reply::Found(Some(LiveRange { number: 1, offset: 0 }))));
/// ```
pub fn play_calls_of<T: Tables>(
    alloc: Global,
    size: u32,
    max_allocs: u32,
    calls: &[Call],
) -> Result<Vec<Reply>, AllocError>
    // The node limit is at least 2.
    requires low { 2 ≤ max_allocs }
    // The index type admits the node limit.
    requires high { max_allocs + 1 < T.Index.MAX }
    // Each alignment and each step is at least 1.
    requires valid { All (λ c. IsTrue (is_valid c)) calls.now }
    // The replies are those of the plain machine to these calls, from one free block of `size` units, and of
    // a run of the allocator's named steps.
    ensures { IfOk result (λ found. AreReplies size max_allocs calls.now (map reply_view found.items)) }
{
    let mut player: KeeperOf<T> = KeeperOf::start(alloc, size, max_allocs)?;
    // A step of the proof, which does nothing, here and below.
    is_well_formed(&player.space);
    let mut numbers = Numbers::new(alloc);
    let mut found = Vec::with_capacity(alloc, calls.len())?;
    for call in calls {
        append(alloc, &mut player, &mut numbers, call, &mut found)?;
        is_well_formed(&player.space);
    }
    Ok(found)
}

/// `play_calls_of` by node, as `Allocator` is. The limit has to be 2 to `NI::MAX - 2`.
///
/// ```
/// let replies = play_calls::<u32>(alloc, 1000, 16, &[Call::AllocateTight(300), Call::Shrink(1, 200)])?;
/// assert!(matches!(replies[1], Reply::Resized));
/// ```
pub fn play_calls<NI: NodeIndex>(
    alloc: Global,
    size: u32,
    max_allocs: u32,
    calls: &[Call],
) -> Result<Vec<Reply>, AllocError>
    requires low { 2 ≤ max_allocs }
    requires high { max_allocs + 1 < NI.MAX }
    requires valid { All (λ c. IsTrue (is_valid c)) calls.now }
    ensures { IfOk result (λ found. AreReplies size max_allocs calls.now (map reply_view found.items)) }
{
    play_calls_of::<ByNode<NI>>(alloc, size, max_allocs, calls)
}
