//! Which calls were refused, and why: what a space says after a refused call, which left it as it was. It
//! only asks the space.

ghost use Rattle.std.specs.Prelude.{◌≡◌, ◌≤◌, ◌++◌, [], true, IsTrue, OnOk, option_to_list, if◌then◌else◌};
ghost use Rattle.offset_allocator.specs.Requests.{CanGrant, blocks_needed, units_needed};
ghost use Rattle.offset_script.specs.Grammar.{has_valid_alignment};
ghost use Rattle.offset_script.specs.Machine.{answer_view};
ghost use Rattle.offset_pictures.specs.Refusals.{IsRefusedBy, is_refusal, numbers_of_view, refused_call};
ghost use Rattle.offset_pictures.specs.Refusals.{shortage, why_extend};

use offset_allocator::laws::is_well_formed;
use offset_allocator::{AllocatorOf, Refusal, Tables};
use offset_script::{Answer, Command};
use std::alloc::AllocError;

/// What a refused call asked for, in the words of scripts and recordings.
#[derive(Clone, Copy, PartialEq, Debug)]
pub enum Asked {
    /// `alloc N`: a range of N units.
    Alloc(u32),
    /// `align N A`: a range of N units that begins at a multiple of A.
    Align(u32, u32),
    /// `extend N`: N more units at the end of the space.
    Extend(u32),
    /// `shrink K N`: N units for grant K, which are fewer than it has.
    Shrink(u32, u32),
    /// `grow K N`: N units for grant K, which are more than it has, where it is.
    Grow(u32, u32),
}

/// Why a call was refused.
#[derive(Clone, Copy, PartialEq, Debug)]
pub enum Reason {
    /// What the allocator says of a request; `Nodes` of the other calls too.
    Request(Refusal),
    /// More units than a space may have: `extend`.
    TooManyUnits,
    /// Too few units directly after the range are free: `grow`.
    NoRoom,
    /// The range has fewer units: `shrink`.
    Smaller,
    /// The range has more units: `grow`.
    Larger,
}

/// A refused call.
#[derive(Clone, Copy, PartialEq, Debug)]
pub struct Refused {
    /// The call, counted from 0.
    pub call: usize,
    /// What it asked for.
    pub asked: Asked,
    /// Why it was refused.
    pub why: Reason,
}

/// Whether a call returned `none`.
pub fn is_refusal(answer: &Answer) -> bool
    ensures { result ≡ is_refusal (answer_view answer.now) }
{
    matches!(answer, Answer::Refused)
}

// Why a space refuses a request.
fn shortage<T: Tables>(space: &AllocatorOf<T>, size: u32, align: u32) -> Refusal
    requires alignment { 1 ≤ align }
    requires refuses { CanGrant (blocks_needed align) (units_needed size align) space.now → ⊥ }
    ensures { result ≡ shortage (blocks_needed align) (units_needed size align) (numbers_of_view space.now) }
{
    // A step of the proof, which does nothing.
    is_well_formed(space);
    match space.refusal_aligned(size, align) {
        Some(why) => why,
        // It would be granted.
        None => Refusal::Fragmented,
    }
}

// Why a space refuses more units.
fn why_extend<T: Tables>(space: &AllocatorOf<T>, more: u32) -> Reason
    ensures { result ≡ why_extend more (numbers_of_view space.now) }
{
    if space.size().checked_add(more).is_some() {
        Reason::Request(Refusal::Nodes)
    } else {
        Reason::TooManyUnits
    }
}

// What the call asked for and why it was refused; `None` for a command that is never refused.
fn refused_call<T: Tables>(space: &AllocatorOf<T>, call: usize, command: Command) -> Option<Refused>
    requires alignment { IsTrue (has_valid_alignment command) }
    requires refuses { IsRefusedBy space.now command }
    ensures { option_to_list result ≡ refused_call call command (numbers_of_view space.now) }
{
    let (asked, why) = match command {
        Command::Alloc(size) => (
            Asked::Alloc(size),
            Reason::Request(shortage(space, size, 1)),
        ),
        Command::Align(size, align) => (
            Asked::Align(size, align),
            Reason::Request(shortage(space, size, align)),
        ),
        Command::Extend(more) => (Asked::Extend(more), why_extend(space, more)),
        _ => return None,
    };
    Some(Refused { call, asked, why })
}

/// Adds a call to those that were refused, if its answer is `none`. This is the space after it.
pub fn note<T: Tables>(
    refused: &mut Vec<Refused>,
    space: &AllocatorOf<T>,
    call: usize,
    command: Command,
    answer: &Answer,
) -> Result<(), AllocError>
    requires alignment { IsTrue (has_valid_alignment command) }
    requires refuses { is_refusal (answer_view answer.now) ≡ true → IsRefusedBy space.now command }
    ensures { OnOk result (refused.new.items ≡ refused.old.items
        ++ (if is_refusal (answer_view answer.now)
        then refused_call call command (numbers_of_view space.now) else [])) }
{
    if !is_refusal(answer) {
        return Ok(());
    }
    if let Some(found) = refused_call(space, call, command) {
        refused.push(found)?;
    }
    Ok(())
}
