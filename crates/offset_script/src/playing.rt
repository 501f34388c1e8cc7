//! Plays commands in a row by a player, for a listener: a list of their answers is such a listener. It
//! changes spaces by its player alone.

ghost use Rattle.std.specs.Prelude.{◌≡◌, ◌+◌, ◌<◌, ◌≤◌, All, IfOk, IsTrue, map};
ghost use Rattle.offset_script.specs.Grammar.{has_valid_alignment};
ghost use Rattle.offset_script.specs.Machine as machine;
ghost use Rattle.offset_script.specs.Machine.{answer_view, answers, start};
ghost use Rattle.offset_script.specs.Playing.{AreAnswers};
ghost use Rattle.offset_script.specs.Steps.{AreStepsFromFresh, Takes};

use crate::answers::Answer;
use crate::listening::Listener;
use crate::player::PlayerOf;
use crate::scripts::{Command, IndexWidth, Script};
use offset_allocator::laws::is_well_formed;
use offset_allocator::{AllocatorOf, ByNode, NodeIndex, Tables};
use std::alloc::{AllocError, Global};

/// Plays commands on an allocator of `size` units with the node limit `max_allocs`, drops its space, and
/// returns the listener that has heard them.
///
/// The limit has to be 2 to `T::Index::MAX - 2`, and each alignment at least 1.
///
/// # Errors
///
/// It fails only where an allocation fails: of the allocator's tables, of the list of handles, of the rows
/// of a full report, or of the listener's.
pub(crate) fn play_to<T: Tables, L: Listener>(
    alloc: Global,
    size: u32,
    max_allocs: u32,
    commands: &[Command],
) -> Result<L, AllocError>
    requires low { 2 ≤ max_allocs }
    requires high { max_allocs + 1 < T.Index.MAX }
    requires alignments { All (λ c. IsTrue (has_valid_alignment c)) commands.now }
    // It has heard the commands that are played in place of these, from one free block of `size` units.
    ensures heard { IfOk result (λ l. L.Heard l (start size max_allocs) (map L.played commands.now)) }
    // The answers of the plain machine to them are those of the allocator's named steps, one after the other.
    ensures steps { IfOk result (λ _. let cs = map L.played commands.now in
        AreStepsFromFresh Takes size max_allocs cs (answers cs (start size max_allocs))) }
{
    let mut player: PlayerOf<T> = PlayerOf::start(alloc, size, max_allocs)?;
    let fresh = player.space();
    // A step of the proof, which does nothing, here and below.
    is_well_formed(fresh);
    let mut listener = L::begin(alloc, fresh, commands.len())?;
    for command in commands {
        let asked = L::played(*command);
        let answer = player.call(alloc, asked)?;
        let space = player.space();
        is_well_formed(space);
        listener.hear(alloc, space, asked, answer)?;
    }
    Ok(listener)
}

/// Plays a script on an allocator of its index width, by the layout that is named for it, drops its space,
/// and returns the listener that has heard its commands.
///
/// # Errors
///
/// It fails only where an allocation fails.
///
/// ```
/// let answers: Vec<Answer> = play_script_to::<ByNode<u16>, ByNode<u32>, _>(alloc, &script)?;
/// assert_eq!(answers.len(), 2);
/// ```
pub fn play_script_to<Narrow, Wide, L>(alloc: Global, script: &Script) -> Result<L, AllocError>
where
    Narrow: Tables<Index = u16>,
    Wide: Tables<Index = u32>,
    L: Listener,
    ensures heard { IfOk result (λ l. L.Heard l (start script.now.size script.now.max_allocs)
        (map L.played script.now.commands.items)) }
    ensures steps { IfOk result (λ _. let cs = map L.played script.now.commands.items in
        AreStepsFromFresh Takes script.now.size script.now.max_allocs cs
        (answers cs (start script.now.size script.now.max_allocs))) }
{
    let commands = &script.commands;
    match script.index {
        IndexWidth::Bits16 => play_to::<Narrow, L>(alloc, script.size, script.max_allocs, commands),
        IndexWidth::Bits32 => play_to::<Wide, L>(alloc, script.size, script.max_allocs, commands),
    }
}

// The answers in order.
impl Listener for Vec<Answer> {
    ghost Heard = { λ found s cs. map answer_view found.items ≡ machine.answers cs s };

    ghost played = { λ c. c };

    fn played(command: Command) -> Command {
        command
    }

    fn begin<T: Tables>(
        alloc: Global,
        _space: &AllocatorOf<T>,
        _calls: usize,
    ) -> Result<Self, AllocError> {
        Ok(Vec::new(alloc))
    }

    #[inline(always)]
    fn hear<T: Tables>(
        &mut self,
        _alloc: Global,
        _space: &AllocatorOf<T>,
        _command: Command,
        answer: Answer,
    ) -> Result<(), AllocError> {
        self.push(answer)?;
        Ok(())
    }
}

/// Plays commands on an allocator of `size` units with the node limit `max_allocs`, and returns their answers
/// in order, one for each.
///
/// The limit has to be 2 to `T::Index::MAX - 2`, and each alignment at least 1. All answers are kept in
/// memory. It fails only where an allocation fails: of the allocator's tables, of the list of handles, or of
/// the answers.
///
/// ```
/// let answers = play_of::<offset_allocator::ByField<u16>>(alloc, 1000, 16, &script.commands)?;
/// assert_eq!(answers.len(), 2);
/// ```
pub fn play_of<T: Tables>(
    alloc: Global,
    size: u32,
    max_allocs: u32,
    commands: &[Command],
) -> Result<Vec<Answer>, AllocError>
    // The node limit is at least 2.
    requires low { 2 ≤ max_allocs }
    // The index type admits the node limit.
    requires high { max_allocs + 1 < T.Index.MAX }
    // Each alignment is at least 1.
    requires alignments { All (λ c. IsTrue (has_valid_alignment c)) commands.now }
    // The answers are those of the plain machine to these commands, from one free block of `size` units. They
    // are also those of the allocator's named steps, one after the other, and three laws on histories hold of
    // them.
    ensures { IfOk result (λ found. AreAnswers size max_allocs commands.now (map answer_view found.items)) }
{
    play_to::<T, Vec<Answer>>(alloc, size, max_allocs, commands)
}

/// `play_of` by node, as `Allocator` is. The limit has to be 2 to `NI::MAX - 2`.
///
/// ```
/// let answers = play::<u32>(alloc, 1000, 16, &script.commands)?;
/// assert_eq!(answers.len(), 2);
/// ```
pub fn play<NI: NodeIndex>(
    alloc: Global,
    size: u32,
    max_allocs: u32,
    commands: &[Command],
) -> Result<Vec<Answer>, AllocError>
    requires low { 2 ≤ max_allocs }
    requires high { max_allocs + 1 < NI.MAX }
    requires alignments { All (λ c. IsTrue (has_valid_alignment c)) commands.now }
    ensures { IfOk result (λ found. AreAnswers size max_allocs commands.now (map answer_view found.items)) }
{
    play_of::<ByNode<NI>>(alloc, size, max_allocs, commands)
}

/// Plays a script on an allocator of its index width, and returns the answers to its commands in order, one
/// for each.
///
/// # Errors
///
/// It fails only where an allocation fails.
///
/// ```
/// let answers = play_script(alloc, &script)?;
/// assert!(matches!(answers[0], Answer::Grant { number: 1, offset: 0 }));
/// ```
pub fn play_script(alloc: Global, script: &Script) -> Result<Vec<Answer>, AllocError>
    ensures { IfOk result (λ found. AreAnswers script.now.size script.now.max_allocs
        script.now.commands.items (map answer_view found.items)) }
{
    play_script_to::<ByNode<u16>, ByNode<u32>, _>(alloc, script)
}
