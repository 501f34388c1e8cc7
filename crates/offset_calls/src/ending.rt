//! The replies of a player to calls at the end of a space. It touches the space, the handles and the numbers.

ghost use Rattle.std.specs.Prelude.{IfOk, IsTrue, OnErr};
ghost use Rattle.offset_script.specs.Steps.{AreHeld, Stays};
ghost use Rattle.offset_calls.specs.declared.calls.Call.{Call};
ghost use Rattle.offset_calls.specs.Calls.{is_valid, reply_view};
ghost use Rattle.offset_calls.specs.Steps.{AreKept, AreNumbers, Finds, IsKeptSome, Takes};

use crate::calls::{LiveRange, Reply, resized};
use crate::numbers::Numbers;
use offset_allocator::{Allocation, NodeIndex, Tables};
use offset_script::Answer;
use offset_script::keeper::KeeperOf;
use std::alloc::AllocError;

// The reply to `Relocate`. The handle of a grant is kept.
#[inline(never)]
pub(crate) fn relocate<T: Tables>(
    player: &mut KeeperOf<T>,
    number: u32,
) -> Result<Reply, AllocError>
    requires { AreHeld player.old.space player.old.handles.items }
    ensures takes { IfOk result (λ r. Takes (Call.Relocate number) player.old.space player.old.handles.items
        player.new.space player.new.handles.items (reply_view r)) }
    ensures same { OnErr result (Stays player.old.space player.old.handles.items
        player.new.space player.new.handles.items) }
{
    let Some(handle) = player.handle(number) else {
        return Ok(Reply::Answer(Answer::Gone));
    };
    player.handles.reserve(1)?; // where this is refused, nothing has changed
    let granted = player.space.relocate(handle);
    Ok(Reply::Answer(player.keep(granted)?))
}

// The reply to `RelocateAligned`. The handle of a grant is kept.
#[inline(never)]
pub(crate) fn relocate_aligned<T: Tables>(
    player: &mut KeeperOf<T>,
    number: u32,
    align: u32,
) -> Result<Reply, AllocError>
    requires held { AreHeld player.old.space player.old.handles.items }
    requires valid { IsTrue (is_valid (Call.RelocateAligned number align)) }
    ensures takes { IfOk result (λ r. Takes (Call.RelocateAligned number align)
        player.old.space player.old.handles.items player.new.space player.new.handles.items (reply_view r)) }
    ensures same { OnErr result (Stays player.old.space player.old.handles.items
        player.new.space player.new.handles.items) }
{
    let Some(handle) = player.handle(number) else {
        return Ok(Reply::Answer(Answer::Gone));
    };
    player.handles.reserve(1)?;
    let second = player.space.relocate_aligned(handle, align);
    Ok(Reply::Answer(player.keep(second)?))
}

// The reply to `Retract`.
#[inline(never)]
pub(crate) fn retract<T: Tables>(player: &mut KeeperOf<T>, less: u32) -> Reply
    ensures { Takes (Call.Retract less) player.old.space player.old.handles.items
        player.new.space player.new.handles.items (reply_view result) }
{
    resized(player.space.retract(less))
}

// The reply to a question for this live range, or for none: with the number at its name.
fn find<NI: NodeIndex>(
    handles: &[Option<Allocation<NI>>],
    names: u32,
    numbers: &mut Numbers,
    found: Option<Allocation<NI>>,
) -> Result<Reply, AllocError>
    requires kept { IsKeptSome handles.now found }
    requires numbers { AreNumbers handles.now numbers.old.grants numbers.old.by_name.items }
    ensures finds { IfOk result (λ r. Finds handles.now found (reply_view r)) }
    ensures numbers { AreNumbers handles.now numbers.new.grants numbers.new.by_name.items }
{
    numbers.read(handles, names)?;
    match found {
        None => Ok(Reply::Found(None)),
        Some(handle) => {
            let (offset, name) = handle.to_parts();
            Ok(Reply::Found(Some(LiveRange {
                number: numbers.of(name),
                offset,
            })))
        }
    }
}

// The reply to `FirstLive`.
#[inline(never)]
pub(crate) fn first_live<T: Tables>(
    player: &KeeperOf<T>,
    numbers: &mut Numbers,
) -> Result<Reply, AllocError>
    requires kept { AreKept player.now.space player.now.handles.items }
    requires numbers { AreNumbers player.now.handles.items numbers.old.grants numbers.old.by_name.items }
    ensures takes { IfOk result (λ r. Takes Call.FirstLive player.now.space player.now.handles.items
        player.now.space player.now.handles.items (reply_view r)) }
    ensures numbers { AreNumbers player.now.handles.items numbers.new.grants numbers.new.by_name.items }
{
    let found = player.space.first_live();
    find(&player.handles, player.space.node_count(), numbers, found)
}

// The reply to `LastLive`.
#[inline(never)]
pub(crate) fn last_live<T: Tables>(
    player: &KeeperOf<T>,
    numbers: &mut Numbers,
) -> Result<Reply, AllocError>
    requires kept { AreKept player.now.space player.now.handles.items }
    requires numbers { AreNumbers player.now.handles.items numbers.old.grants numbers.old.by_name.items }
    ensures takes { IfOk result (λ r. Takes Call.LastLive player.now.space player.now.handles.items
        player.now.space player.now.handles.items (reply_view r)) }
    ensures numbers { AreNumbers player.now.handles.items numbers.new.grants numbers.new.by_name.items }
{
    let found = player.space.last_live();
    find(&player.handles, player.space.node_count(), numbers, found)
}

// The reply to `LiveBefore`.
#[inline(never)]
pub(crate) fn live_before<T: Tables>(
    player: &KeeperOf<T>,
    numbers: &mut Numbers,
    number: u32,
) -> Result<Reply, AllocError>
    requires kept { AreKept player.now.space player.now.handles.items }
    requires numbers { AreNumbers player.now.handles.items numbers.old.grants numbers.old.by_name.items }
    ensures takes { IfOk result (λ r. Takes (Call.LiveBefore number) player.now.space player.now.handles.items
        player.now.space player.now.handles.items (reply_view r)) }
    ensures numbers { AreNumbers player.now.handles.items numbers.new.grants numbers.new.by_name.items }
{
    let Some(handle) = player.handle(number) else {
        return Ok(Reply::Answer(Answer::Gone));
    };
    let found = player.space.live_before(handle);
    find(&player.handles, player.space.node_count(), numbers, found)
}

// The reply to `LiveAfter`.
#[inline(never)]
pub(crate) fn live_after<T: Tables>(
    player: &KeeperOf<T>,
    numbers: &mut Numbers,
    number: u32,
) -> Result<Reply, AllocError>
    requires kept { AreKept player.now.space player.now.handles.items }
    requires numbers { AreNumbers player.now.handles.items numbers.old.grants numbers.old.by_name.items }
    ensures takes { IfOk result (λ r. Takes (Call.LiveAfter number) player.now.space player.now.handles.items
        player.now.space player.now.handles.items (reply_view r)) }
    ensures numbers { AreNumbers player.now.handles.items numbers.new.grants numbers.new.by_name.items }
{
    let Some(handle) = player.handle(number) else {
        return Ok(Reply::Answer(Answer::Gone));
    };
    let found = player.space.live_after(handle);
    find(&player.handles, player.space.node_count(), numbers, found)
}
