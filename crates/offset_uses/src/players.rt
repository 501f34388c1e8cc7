//! A player of commands, one after the other. Proved from the contracts of a player alone.

ghost use Rattle.std.specs.Prelude.{◌≡◌, ◌+◌, ◌<◌, ◌⊎◌, IfOk, IsTrue, List, Option, length};
ghost use Rattle.offset_allocator.specs.View.{Handle, View};
ghost use Rattle.offset_script.specs.Grammar.{has_valid_alignment};
ghost use Rattle.offset_script.specs.Machine.{answer_view};
ghost use Rattle.offset_script.specs.Machine as machine;
ghost use Rattle.offset_script.specs.Steps.{AreHeld, Takes};

use offset_allocator::Tables;
use offset_script::{Answer, Command, PlayerOf};
use std::alloc::{AllocError, Global};

/// Two commands, one after the other, with their answers.
pub fn two_commands<T: Tables>(
    alloc: Global,
    player: &mut PlayerOf<T>,
    first: Command,
    second: Command,
) -> Result<(Answer, Answer), AllocError>
    requires first { IsTrue (has_valid_alignment first) }
    requires second { IsTrue (has_valid_alignment second) }
    ensures takes { IfOk result (λ a. (v : View) × (kept : List (Option Handle))
        × Takes first player.old.space player.old.handles v kept (answer_view a.0)
        × Takes second v kept player.new.space player.new.handles (answer_view a.1)) }
    ensures held { AreHeld player.new.space player.new.handles }
{
    let answer = player.call(alloc, first)?;
    let other = player.call(alloc, second)?;
    Ok((answer, other))
}

/// Requests a range, and frees it by the number of its grant. The answer is `Freed`, or `Refused` where the
/// request is.
pub fn request_and_free<T: Tables>(
    alloc: Global,
    player: &mut PlayerOf<T>,
    size: u32,
) -> Result<Answer, AllocError>
    requires few { length player.old.handles + 1 < 4294967296 }
    ensures answer { IfOk result (λ a. (answer_view a ≡ machine.Freed) ⊎ (answer_view a ≡ machine.Refused)) }
    ensures held { AreHeld player.new.space player.new.handles }
{
    match player.call(alloc, Command::Alloc(size))? {
        Answer::Grant { number, .. } => player.call(alloc, Command::Free(number as u32)),
        other => Ok(other),
    }
}
