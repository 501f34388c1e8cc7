//! The reply of a guarded allocator to one call, with the ticket that the call passes. It touches the space and the
//! tickets.

ghost use Rattle.std.specs.Prelude.{◌≡◌, IfOk, IsTrue, List, false, ℕ};
ghost use Rattle.offset_guarded.specs.Guard.{HasSerialLeft, Ticket};
ghost use Rattle.offset_script.specs.Grammar.{has_valid_alignment};
ghost use Rattle.offset_script.specs.Machine.{answer_view};
ghost use Rattle.offset_calls.specs.Calls.{is_command, is_valid, reply_view};
ghost use Rattle.offset_calls.specs.Calls as plain;
ghost use Rattle.offset_calls.specs.Histories.{renumber};
ghost use Rattle.offset_calls.specs.Steps.{AreKept};
ghost use Rattle.offset_calls.specs.Tickets.{AreAllTickets, TakesTicket, IsNumberOf, handles_of};

use crate::calls::{Call, Reply, begins, resized};
use crate::playing::{room_cost, room_cost_by};
use crate::ticket_player::{TicketPlayer, keep};
use crate::{guarded_ending, sliding};
use offset_allocator::Tables;
use offset_guarded::{GuardedOf, Ticket};
use offset_script::{Answer, Command, full_answer};
use std::alloc::{AllocError, Global};

// The answer to `alloc`.
fn allocate<T: Tables>(player: &mut TicketPlayer<T>, size: u32) -> Result<Answer, AllocError>
    requires all_tickets { AreAllTickets player.old.space player.old.tickets.items }
    requires left { HasSerialLeft player.old.space }
    ensures { IfOk result (λ a. TakesTicket (Call.Command (Command.Alloc size))
        player.old.space player.old.tickets.items player.new.space player.new.tickets.items
        (plain.Answer (answer_view a))) }
{
    let granted = player.space.allocate(size);
    keep(&mut player.tickets, granted)
}

// The answer to `align`.
fn allocate_aligned<T: Tables>(
    player: &mut TicketPlayer<T>,
    size: u32,
    align: u32,
) -> Result<Answer, AllocError>
    requires all_tickets { AreAllTickets player.old.space player.old.tickets.items }
    requires left { HasSerialLeft player.old.space }
    requires alignment { IsTrue (has_valid_alignment (Command.Align size align)) }
    ensures { IfOk result (λ a. TakesTicket (Call.Command (Command.Align size align))
        player.old.space player.old.tickets.items player.new.space player.new.tickets.items
        (plain.Answer (answer_view a))) }
{
    let granted = player.space.allocate_aligned(size, align);
    keep(&mut player.tickets, granted)
}

// The reply to `AllocateTight`.
fn allocate_tight<T: Tables>(player: &mut TicketPlayer<T>, size: u32) -> Result<Reply, AllocError>
    requires all_tickets { AreAllTickets player.old.space player.old.tickets.items }
    requires left { HasSerialLeft player.old.space }
    ensures { IfOk result (λ r. TakesTicket (Call.AllocateTight size)
        player.old.space player.old.tickets.items player.new.space player.new.tickets.items (reply_view r)) }
{
    let granted = player.space.allocate_tight(size);
    Ok(Reply::Answer(keep(&mut player.tickets, granted)?))
}

// The reply to `AllocateTightAligned`.
fn allocate_tight_aligned<T: Tables>(
    player: &mut TicketPlayer<T>,
    size: u32,
    align: u32,
) -> Result<Reply, AllocError>
    requires all_tickets { AreAllTickets player.old.space player.old.tickets.items }
    requires left { HasSerialLeft player.old.space }
    requires valid { IsTrue (is_valid (Call.AllocateTightAligned size align)) }
    ensures { IfOk result (λ r. TakesTicket (Call.AllocateTightAligned size align)
        player.old.space player.old.tickets.items player.new.space player.new.tickets.items (reply_view r)) }
{
    let granted = player.space.allocate_tight_aligned(size, align);
    Ok(Reply::Answer(keep(&mut player.tickets, granted)?))
}

// The reply to `AllocateAt`.
fn allocate_at<T: Tables>(
    player: &mut TicketPlayer<T>,
    offset: u32,
    size: u32,
) -> Result<Reply, AllocError>
    requires all_tickets { AreAllTickets player.old.space player.old.tickets.items }
    requires left { HasSerialLeft player.old.space }
    ensures { IfOk result (λ r. TakesTicket (Call.AllocateAt offset size)
        player.old.space player.old.tickets.items player.new.space player.new.tickets.items (reply_view r)) }
{
    let granted = player.space.allocate_at(offset, size);
    Ok(Reply::Answer(keep(&mut player.tickets, granted)?))
}

// The answer to `free`.
fn release<T: Tables>(space: &mut GuardedOf<T>, ticket: Option<Ticket>) -> Answer
    ensures { (ts : List Ticket) (k : ℕ) → AreAllTickets space.old ts → IsNumberOf k ticket space.old ts
        → TakesTicket (Call.Command (Command.Free k)) space.old ts space.new ts
        (plain.Answer (answer_view result)) }
{
    let Some(ticket) = ticket else {
        return Answer::Gone;
    };
    if space.free(ticket) {
        Answer::Freed
    } else {
        Answer::Gone
    }
}

// The answer to `size`.
fn size_of<T: Tables>(space: &GuardedOf<T>, ticket: Option<Ticket>) -> Answer
    ensures { (ts : List Ticket) (k : ℕ) → AreAllTickets space.now ts → IsNumberOf k ticket space.now ts
        → TakesTicket (Call.Command (Command.Size k)) space.now ts space.now ts
        (plain.Answer (answer_view result)) }
{
    let Some(ticket) = ticket else {
        return Answer::Gone;
    };
    match space.size_of(ticket) {
        None => Answer::Gone,
        Some(size) => Answer::Size(size),
    }
}

// The reply to `Offset`.
fn offset_of<T: Tables>(space: &GuardedOf<T>, ticket: Option<Ticket>) -> Reply
    ensures { (ts : List Ticket) (k : ℕ) → AreAllTickets space.now ts → IsNumberOf k ticket space.now ts
        → TakesTicket (Call.Offset k) space.now ts space.now ts (reply_view result) }
{
    let Some(ticket) = ticket else {
        return Reply::Answer(Answer::Gone);
    };
    match space.offset_of(ticket) {
        None => Reply::Answer(Answer::Gone),
        Some(offset) => Reply::Offset(offset),
    }
}

// The answer to `reset`.
fn reset<T: Tables>(space: &mut GuardedOf<T>) -> Answer
    ensures { (ts : List Ticket) → AreAllTickets space.old ts
        → TakesTicket (Call.Command Command.Reset) space.old ts space.new ts (plain.Answer (answer_view result)) }
{
    space.reset();
    Answer::Reset
}

// The answer to `extend`.
fn extend<T: Tables>(space: &mut GuardedOf<T>, more: u32) -> Answer
    ensures { (ts : List Ticket) → AreAllTickets space.old ts
        → TakesTicket (Call.Command (Command.Extend more)) space.old ts space.new ts
        (plain.Answer (answer_view result)) }
{
    if space.extend(more) {
        Answer::Extended
    } else {
        Answer::Refused
    }
}

// The reply to `Shrink`.
fn shrink<T: Tables>(space: &mut GuardedOf<T>, ticket: Option<Ticket>, size: u32) -> Reply
    ensures { (ts : List Ticket) (k : ℕ) → AreAllTickets space.old ts → IsNumberOf k ticket space.old ts
        → TakesTicket (Call.Shrink k size) space.old ts space.new ts (reply_view result) }
{
    let Some(ticket) = ticket else {
        return Reply::Answer(Answer::Gone);
    };
    match space.shrink(ticket, size) {
        None => Reply::Answer(Answer::Gone),
        Some(done) => resized(done),
    }
}

// The reply to `Grow`.
fn grow<T: Tables>(space: &mut GuardedOf<T>, ticket: Option<Ticket>, size: u32) -> Reply
    ensures { (ts : List Ticket) (k : ℕ) → AreAllTickets space.old ts → IsNumberOf k ticket space.old ts
        → TakesTicket (Call.Grow k size) space.old ts space.new ts (reply_view result) }
{
    let Some(ticket) = ticket else {
        return Reply::Answer(Answer::Gone);
    };
    match space.grow_in_place(ticket, size) {
        None => Reply::Answer(Answer::Gone),
        Some(done) => resized(done),
    }
}

// The answer to a command that passes this ticket.
pub(crate) fn answer<T: Tables>(
    alloc: Global,
    player: &mut TicketPlayer<T>,
    command: Command,
    ticket: Option<Ticket>,
) -> Result<Answer, AllocError>
    requires all_tickets { AreAllTickets player.old.space player.old.tickets.items }
    requires left { HasSerialLeft player.old.space }
    requires alignment { IsTrue (has_valid_alignment command) }
    ensures { IfOk result (λ a. (k : ℕ) → IsNumberOf k ticket player.old.space player.old.tickets.items
        → TakesTicket (renumber (λ j. k) (Call.Command command)) player.old.space player.old.tickets.items
        player.new.space player.new.tickets.items (plain.Answer (answer_view a))) }
{
    match command {
        Command::Alloc(size) => allocate(player, size),
        Command::Free(_) => Ok(release(&mut player.space, ticket)),
        Command::Size(_) => Ok(size_of(&player.space, ticket)),
        Command::Report => Ok(Answer::Report(player.space.allocator().storage_report())),
        Command::Full => full_answer(alloc, player.space.allocator()),
        Command::Reset => Ok(reset(&mut player.space)),
        Command::Align(size, align) => allocate_aligned(player, size, align),
        Command::Extend(more) => Ok(extend(&mut player.space, more)),
    }
}

// The reply to a call that is no command, and passes this ticket.
#[inline(never)]
pub(crate) fn other<T: Tables>(
    alloc: Global,
    player: &mut TicketPlayer<T>,
    call: Call,
    ticket: Option<Ticket>,
) -> Result<Reply, AllocError>
    requires all_tickets { AreAllTickets player.old.space player.old.tickets.items }
    requires left { HasSerialLeft player.old.space }
    requires kept { AreKept player.old.space.space (handles_of player.old.space player.old.tickets.items) }
    requires valid { IsTrue (is_valid call) }
    requires rest { is_command call ≡ false }
    ensures { IfOk result (λ r. (k : ℕ) → IsNumberOf k ticket player.old.space player.old.tickets.items
        → TakesTicket (renumber (λ j. k) call) player.old.space player.old.tickets.items
        player.new.space player.new.tickets.items (reply_view r)) }
{
    match call {
        Call::Command(_) => unreachable!(),
        Call::Shrink(_, size) => Ok(shrink(&mut player.space, ticket, size)),
        Call::Grow(_, size) => Ok(grow(&mut player.space, ticket, size)),
        Call::Compact => sliding::reply_guarded(alloc, player, call),
        Call::CompactBy(_) => sliding::reply_guarded(alloc, player, call),
        Call::CompactWithin(_, _, _, _) => sliding::reply_guarded(alloc, player, call),
        Call::Offset(_) => Ok(offset_of(&player.space, ticket)),
        Call::Refusal(size) => Ok(Reply::Refusal(player.space.allocator().refusal(size))),
        Call::RefusalAligned(size, align) => Ok(Reply::Refusal(
            player.space.allocator().refusal_aligned(size, align),
        )),
        Call::AllocateTight(size) => allocate_tight(player, size),
        Call::AllocateTightAligned(size, align) => allocate_tight_aligned(player, size, align),
        Call::AllocateAt(offset, size) => allocate_at(player, offset, size),
        Call::RefusalTight(size) => Ok(Reply::Refusal(
            player.space.allocator().refusal_tight(size),
        )),
        Call::RefusalTightAligned(size, align) => Ok(Reply::Refusal(
            player.space.allocator().refusal_tight_aligned(size, align),
        )),
        Call::WouldBegin(size, align) => Ok(begins(
            player.space.allocator().would_begin(size, align),
        )),
        Call::MakeRoom(_) => sliding::reply_guarded(alloc, player, call),
        Call::MakeRoomBy(_, _, _) => sliding::reply_guarded(alloc, player, call),
        Call::RoomCost(size) => Ok(room_cost(player.space.allocator(), size)),
        Call::RoomCostBy(size, align, step) => {
            Ok(room_cost_by(player.space.allocator(), size, align, step))
        }
        Call::Relocate(_) => guarded_ending::relocate(player, ticket),
        Call::RelocateAligned(_, align) => guarded_ending::relocate_aligned(player, ticket, align),
        Call::Retract(less) => Ok(guarded_ending::retract(&mut player.space, less)),
        Call::FirstLive => Ok(guarded_ending::first_live(player)),
        Call::LastLive => Ok(guarded_ending::last_live(player)),
        Call::LiveBefore(_) => Ok(guarded_ending::live_before(player, ticket)),
        Call::LiveAfter(_) => Ok(guarded_ending::live_after(player, ticket)),
    }
}
