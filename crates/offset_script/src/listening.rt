//! What hears the answers to commands while they are played, and may ask the space after each. It touches
//! nothing itself.

ghost use Rattle.std.specs.Prelude.{◌++◌, ◌∷◌, IfOk, IsTrue, List, OnOk, [], ◌≡◌};
ghost use Rattle.offset_script.specs.declared.scripts.Command.{Command};
ghost use Rattle.offset_script.specs.Grammar.{has_valid_alignment};
ghost use Rattle.offset_script.specs.Listening.{IsTold, Shows};
ghost use Rattle.offset_script.specs.Machine.{State, after, answer_view};

use crate::answers::Answer;
use crate::scripts::Command;
use offset_allocator::{AllocatorOf, Tables};
use std::alloc::{AllocError, Global};

/// Makes something of commands while they are played: of their answers, and of what their space says.
pub trait Listener: Drop {
    // What it is after these commands, the first of which finds the plain machine in this state.
    ghost Heard: { Self → State → List Command → Type 0 };

    // The command that is played in place of each.
    ghost played: { Command → Command };

    /// Returns the command that is played in place of this one. A picture, for one, needs no full reports,
    /// and has a short one played in their place. The alignment of either is at least 1.
    fn played(command: Command) -> Command
        requires { IsTrue (has_valid_alignment command) }
        ensures command { result ≡ played command }
        ensures alignment { IsTrue (has_valid_alignment result) };

    /// Returns a listener that has heard nothing, at the space before the first of this number of commands.
    ///
    /// # Errors
    ///
    /// It fails only where an allocation fails.
    fn begin<T: Tables>(
        alloc: Global,
        space: &AllocatorOf<T>,
        calls: usize,
    ) -> Result<Self, AllocError>
        ensures { IfOk result (λ l. (s : State) → Shows space.now s → Heard l s []) };

    /// Hears the answer to the next command, which left this space.
    ///
    /// # Errors
    ///
    /// It fails only where an allocation fails, and is not called again then.
    fn hear<T: Tables>(
        &mut self,
        alloc: Global,
        space: &AllocatorOf<T>,
        command: Command,
        answer: Answer,
    ) -> Result<(), AllocError>
        requires alignment { IsTrue (has_valid_alignment command) }
        // A named step of the allocator gave this answer, and in some state the plain machine gives it too,
        // and leaves what the space shows.
        requires told { (s : State) × IsTold command s space.now (answer_view answer) }
        // Whatever commands it had heard from whatever state, it has heard one more.
        ensures { OnOk result ((s : State) (cs : List Command)
            → IsTold command (after cs s) space.now (answer_view answer)
            → Heard self.old s cs → Heard self.new s (cs ++ command ∷ [])) };
}
