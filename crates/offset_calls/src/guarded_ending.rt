//! The replies of a guarded allocator to calls at the end of a space. It touches the space and the tickets.

ghost use Rattle.std.specs.Prelude.{◌≡◌, ◌≤◌, IfOk, List, ℕ, option_map};
ghost use Rattle.offset_guarded.specs.Guard.{HasSerialLeft, Ticket};
ghost use Rattle.offset_calls.specs.declared.calls.Call.{Call};
ghost use Rattle.offset_calls.specs.Calls.{reply_view};
ghost use Rattle.offset_calls.specs.Steps.{AreKept};
ghost use Rattle.offset_calls.specs.Tickets.{AreAllTickets, TakesTicket, IsNumberOf, handles_of};

use crate::calls::{LiveRange, Reply, resized};
use crate::ticket_player::{TicketPlayer, keep};
use offset_allocator::Tables;
use offset_guarded::{GuardedOf, Ticket};
use offset_script::Answer;
use std::alloc::AllocError;

// The reply to `Relocate`. The ticket of a grant is kept.
pub(crate) fn relocate<T: Tables>(
    player: &mut TicketPlayer<T>,
    ticket: Option<Ticket>,
) -> Result<Reply, AllocError>
    requires all_tickets { AreAllTickets player.old.space player.old.tickets.items }
    requires left { HasSerialLeft player.old.space }
    ensures { IfOk result (λ r. (k : ℕ) → IsNumberOf k ticket player.old.space player.old.tickets.items
        → TakesTicket (Call.Relocate k) player.old.space player.old.tickets.items
        player.new.space player.new.tickets.items (reply_view r)) }
{
    let Some(ticket) = ticket else {
        return Ok(Reply::Answer(Answer::Gone));
    };
    if !player.space.is_live(ticket) {
        return Ok(Reply::Answer(Answer::Gone));
    }
    let granted = player.space.relocate_unaligned(ticket);
    Ok(Reply::Answer(keep(&mut player.tickets, granted)?))
}

// The reply to `RelocateAligned`. The ticket of a grant is kept.
pub(crate) fn relocate_aligned<T: Tables>(
    player: &mut TicketPlayer<T>,
    ticket: Option<Ticket>,
    align: u32,
) -> Result<Reply, AllocError>
    requires all_tickets { AreAllTickets player.old.space player.old.tickets.items }
    requires left { HasSerialLeft player.old.space }
    requires alignment { 1 ≤ align }
    ensures { IfOk result (λ r. (k : ℕ) → IsNumberOf k ticket player.old.space player.old.tickets.items
        → TakesTicket (Call.RelocateAligned k align) player.old.space player.old.tickets.items
        player.new.space player.new.tickets.items (reply_view r)) }
{
    let Some(ticket) = ticket else {
        return Ok(Reply::Answer(Answer::Gone));
    };
    if !player.space.is_live(ticket) {
        return Ok(Reply::Answer(Answer::Gone));
    }
    let granted = player.space.relocate_aligned(ticket, align);
    Ok(Reply::Answer(keep(&mut player.tickets, granted)?))
}

// The reply to `Retract`.
pub(crate) fn retract<T: Tables>(space: &mut GuardedOf<T>, less: u32) -> Reply
    ensures { (ts : List Ticket) → AreAllTickets space.old ts
        → TakesTicket (Call.Retract less) space.old ts space.new ts (reply_view result) }
{
    resized(space.retract(less))
}

// The range of a live ticket, whose number is its serial, or none.
fn numbered(found: Option<Ticket>) -> Reply
    ensures { result ≡ Reply.Found (option_map
        (λ (t : Ticket). record { number = t.serial; offset = t.offset }) found) }
{
    match found {
        None => Reply::Found(None),
        Some(ticket) => Reply::Found(Some(LiveRange {
            number: ticket.serial(),
            offset: ticket.offset,
        })),
    }
}

// The reply to `FirstLive`.
pub(crate) fn first_live<T: Tables>(player: &TicketPlayer<T>) -> Reply
    requires all_tickets { AreAllTickets player.now.space player.now.tickets.items }
    requires kept { AreKept player.now.space.space (handles_of player.now.space player.now.tickets.items) }
    ensures { TakesTicket Call.FirstLive player.now.space player.now.tickets.items
        player.now.space player.now.tickets.items (reply_view result) }
{
    numbered(player.space.first_live())
}

// The reply to `LastLive`.
pub(crate) fn last_live<T: Tables>(player: &TicketPlayer<T>) -> Reply
    requires all_tickets { AreAllTickets player.now.space player.now.tickets.items }
    requires kept { AreKept player.now.space.space (handles_of player.now.space player.now.tickets.items) }
    ensures { TakesTicket Call.LastLive player.now.space player.now.tickets.items
        player.now.space player.now.tickets.items (reply_view result) }
{
    numbered(player.space.last_live())
}

// The reply to `LiveBefore`.
pub(crate) fn live_before<T: Tables>(player: &TicketPlayer<T>, ticket: Option<Ticket>) -> Reply
    requires all_tickets { AreAllTickets player.now.space player.now.tickets.items }
    requires kept { AreKept player.now.space.space (handles_of player.now.space player.now.tickets.items) }
    ensures { (k : ℕ) → IsNumberOf k ticket player.now.space player.now.tickets.items
        → TakesTicket (Call.LiveBefore k) player.now.space player.now.tickets.items
        player.now.space player.now.tickets.items (reply_view result) }
{
    let Some(ticket) = ticket else {
        return Reply::Answer(Answer::Gone);
    };
    if !player.space.is_live(ticket) {
        return Reply::Answer(Answer::Gone);
    }
    numbered(player.space.live_before(ticket))
}

// The reply to `LiveAfter`.
pub(crate) fn live_after<T: Tables>(player: &TicketPlayer<T>, ticket: Option<Ticket>) -> Reply
    requires all_tickets { AreAllTickets player.now.space player.now.tickets.items }
    requires kept { AreKept player.now.space.space (handles_of player.now.space player.now.tickets.items) }
    ensures { (k : ℕ) → IsNumberOf k ticket player.now.space player.now.tickets.items
        → TakesTicket (Call.LiveAfter k) player.now.space player.now.tickets.items
        player.now.space player.now.tickets.items (reply_view result) }
{
    let Some(ticket) = ticket else {
        return Reply::Answer(Answer::Gone);
    };
    if !player.space.is_live(ticket) {
        return Reply::Answer(Answer::Gone);
    }
    numbered(player.space.live_after(ticket))
}
