//! Plays calls on a guarded allocator, which it makes and alone touches. Each call may pass any ticket.

ghost use Rattle.std.specs.Prelude.{◌≡◌, ◌+◌, ◌<◌, ◌≤◌, All, IfOk, IsTrue, Some, false, length, map, ℕ};
ghost use Rattle.offset_guarded.specs.Guard.{HasSerialLeft, Ticket};
ghost use Rattle.offset_script.specs.Machine.{start};
ghost use Rattle.offset_calls.specs.Calls.{after, is_command, is_valid, replies, reply_view};
ghost use Rattle.offset_calls.specs.Histories.{renumber};
ghost use Rattle.offset_calls.specs.Playing.{IsAppended};
ghost use Rattle.offset_calls.specs.Steps.{AreKept};
ghost use Rattle.offset_calls.specs.Tickets.{AreInOrder, IsGrantOf, AreAllTickets, IsNumberOf, TakesTicket, handles_of, meant, number_in};
ghost use Rattle.offset_calls.specs.Tickets.{passed, ticket_of};

use crate::calls::{Call, Reply};
use crate::guarded_playing::{answer, other};
use crate::ticket_player::TicketPlayer;
use offset_allocator::laws::is_well_formed;
use offset_allocator::{NodeIndex, Tables};
use offset_guarded::{GuardedOf, Ticket};
use offset_script::Command;
use std::alloc::{AllocError, Global};

/// A call to a guarded allocator.
#[derive(Clone, Copy, PartialEq, Debug)]
pub struct TicketCall {
    /// The call. Without a ticket it passes the one that the grant of its number gave, whether it is live or
    /// not.
    pub call: Call,
    /// The ticket that the call passes instead: any numbers.
    pub ticket: Option<Ticket>,
}

/// The replies to calls on a guarded allocator, and the tickets of its grants.
#[derive(Drop, Debug)]
pub struct Played {
    /// The replies, in order, one for each call.
    pub replies: Vec<Reply>,
    /// The ticket of grant k is at k - 1.
    pub tickets: Vec<Ticket>,
}

// The number in a call, or 0 where it has none.
fn number_in(call: &Call) -> u32
    ensures { result ≡ number_in call.now }
{
    match call {
        Call::Command(Command::Free(number)) => *number,
        Call::Command(Command::Size(number)) => *number,
        Call::Shrink(number, _) => *number,
        Call::Grow(number, _) => *number,
        Call::Offset(number) => *number,
        Call::Relocate(number) => *number,
        Call::RelocateAligned(number, _) => *number,
        Call::LiveBefore(number) => *number,
        Call::LiveAfter(number) => *number,
        _ => 0,
    }
}

// The ticket of the grant of this number.
fn ticket_of(tickets: &[Ticket], number: u32) -> Option<Ticket>
    ensures { result ≡ ticket_of tickets.now number }
{
    if number == 0 {
        return None;
    }
    match tickets.get(number as usize - 1) {
        None => None,
        Some(ticket) => Some(*ticket),
    }
}

// The ticket that a call passes, if there is one.
fn passed(tickets: &[Ticket], call: &TicketCall) -> Option<Ticket>
    ensures { result ≡ passed tickets.now call.now }
{
    match call.ticket {
        None => ticket_of(tickets, number_in(&call.call)),
        Some(ticket) => Some(ticket),
    }
}

// Appends the reply to a call that is no command.
#[inline(never)]
fn append_other<T: Tables>(
    alloc: Global,
    player: &mut TicketPlayer<T>,
    call: &TicketCall,
    replies: &mut Vec<Reply>,
) -> Result<(), AllocError>
    requires all_tickets { AreAllTickets player.old.space player.old.tickets.items }
    requires left { HasSerialLeft player.old.space }
    requires kept { AreKept player.old.space.space (handles_of player.old.space player.old.tickets.items) }
    requires valid { IsTrue (is_valid call.now.call) }
    requires rest { is_command call.now.call ≡ false }
    ensures { IfOk result (λ _. IsAppended (λ r. (k : ℕ) → IsNumberOf k (passed player.old.tickets.items call.now)
        player.old.space player.old.tickets.items → TakesTicket (renumber (λ j. k) call.now.call)
        player.old.space player.old.tickets.items player.new.space player.new.tickets.items r)
        replies.old.items replies.new.items) }
{
    let ticket = passed(&player.tickets, call);
    let reply = other(alloc, player, call.call, ticket)?;
    replies.push(reply)?;
    Ok(())
}

// Appends the reply to one call: those of calls that are no commands out of line, as a player without tickets does.
#[inline(always)]
fn append<T: Tables>(
    alloc: Global,
    player: &mut TicketPlayer<T>,
    call: &TicketCall,
    replies: &mut Vec<Reply>,
) -> Result<(), AllocError>
    requires all_tickets { AreAllTickets player.old.space player.old.tickets.items }
    requires left { HasSerialLeft player.old.space }
    requires kept { AreKept player.old.space.space (handles_of player.old.space player.old.tickets.items) }
    requires valid { IsTrue (is_valid call.now.call) }
    ensures { IfOk result (λ _. IsAppended (λ r. (k : ℕ) → IsNumberOf k (passed player.old.tickets.items call.now)
        player.old.space player.old.tickets.items → TakesTicket (renumber (λ j. k) call.now.call)
        player.old.space player.old.tickets.items player.new.space player.new.tickets.items r)
        replies.old.items replies.new.items) }
{
    match call.call {
        Call::Command(command) => {
            let ticket = passed(&player.tickets, call);
            let answer = answer(alloc, player, command, ticket)?;
            replies.push(Reply::Answer(answer))?;
            Ok(())
        }
        _ => append_other(alloc, player, call, replies),
    }
}

/// Plays calls on a guarded allocator of `size` units with the node limit `max_allocs` and a realm, and
/// returns the replies in order, one for each, and the tickets of the grants.
///
/// The calls may pass any tickets: live ones, those of ranges that were freed or reset, altered ones, random
/// numbers. The limit has to be 2 to `T::Index::MAX - 2`, each alignment and each step at
/// least 1.
///
/// # Errors
///
/// It fails only where an allocation fails.
///
/// ```
/// let call = TicketCall { call: Call::AllocateTight(300), ticket: None };
/// let played = play_guarded::<offset_allocator::ByNode<u32>>(alloc, 1000, 16, 7, &[call])?;
/// assert_eq!((played.tickets[0].realm(), played.tickets[0].serial()), (7, 1));
/// ```
pub fn play_guarded<T: Tables>(
    alloc: Global,
    size: u32,
    max_allocs: u32,
    realm: u32,
    calls: &[TicketCall],
) -> Result<Played, AllocError>
    // The node limit is at least 2.
    requires low { 2 ≤ max_allocs }
    // The index type admits the node limit.
    requires high { max_allocs + 1 < T.Index.MAX }
    // Each alignment and each step is at least 1.
    requires valid { All (λ c. IsTrue (is_valid c.call)) calls.now }
    // The replies are those of the plain machine to these calls, from one free block of `size` units, where
    // each ticket means the number of the grant that gave it, or no grant.
    ensures replies { IfOk result (λ p. map reply_view p.replies.items
        ≡ replies (map (meant p.tickets.items) calls.now) (start size max_allocs)) }
    // There is a ticket for each grant. They have this realm, in order the serials from 1 on, and each the
    // offset that is replied.
    ensures tickets { IfOk result (λ p. AreInOrder realm 0 p.tickets.items) }
    ensures count { IfOk result (λ p. length p.tickets.items
        ≡ (after (map (meant p.tickets.items) calls.now) (start size max_allocs)).grants) }
    ensures offsets { IfOk result (λ p.
        All (IsGrantOf (map reply_view p.replies.items)) p.tickets.items) }
{
    let mut player: TicketPlayer<T> = TicketPlayer {
        space: GuardedOf::with_realm(alloc, size, max_allocs, realm)?,
        tickets: Vec::new(alloc),
    };
    // A step of the proof, which does nothing, here and below.
    is_well_formed(player.space.allocator());
    let mut replies = Vec::with_capacity(alloc, calls.len())?;
    for call in calls {
        append(alloc, &mut player, call, &mut replies)?;
        is_well_formed(player.space.allocator());
    }
    Ok(Played {
        replies,
        tickets: player.tickets,
    })
}
