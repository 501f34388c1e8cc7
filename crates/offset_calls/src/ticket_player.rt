//! A guarded allocator with the tickets of its grants. It touches the list of tickets alone.

ghost use Rattle.std.specs.Prelude.{IfOk};
ghost use Rattle.offset_script.specs.Machine.{answer_view};
ghost use Rattle.offset_calls.specs.Tickets.{IsStored};

use offset_allocator::Tables;
use offset_guarded::{GuardedOf, Ticket};
use offset_script::Answer;
use std::alloc::AllocError;

// A guarded allocator, with the tickets of all grants so far.
#[derive(Drop)]
pub(crate) struct TicketPlayer<T: Tables> {
    pub(crate) space: GuardedOf<T>,
    pub(crate) tickets: Vec<Ticket>,
}

// The answer to a request with this result. The ticket of a grant is kept.
pub(crate) fn keep(tickets: &mut Vec<Ticket>, granted: Option<Ticket>) -> Result<Answer, AllocError>
    ensures { IfOk result (λ a. IsStored granted tickets.old.items tickets.new.items (answer_view a)) }
{
    match granted {
        None => Ok(Answer::Refused),
        Some(ticket) => {
            tickets.push(ticket)?;
            Ok(Answer::Grant {
                number: tickets.len() as u64,
                offset: ticket.offset,
            })
        }
    }
}
