//! A player: an allocator that takes commands one by one. Nothing but a command changes its space.

ghost use Rattle.std.specs.Prelude.{◌≡◌, ◌+◌, ◌<◌, ◌≤◌, [], IfOk, IfSome, IsTrue, OnErr, length, option_map};
ghost use Rattle.offset_script.specs.Steps.{kept_handle, kept_name, AreHeld, Stays, Takes};
ghost use Rattle.offset_script.specs.Machine.{answer_view};
ghost use Rattle.offset_script.specs.Grammar.{has_valid_alignment};
ghost use Rattle.offset_allocator.specs.Relations.{IsFresh};

use crate::answers::Answer;
use crate::keeper::KeeperOf;
use crate::scripts::Command;
use offset_allocator::{Allocation, AllocatorOf, ByNode, NodeIndex, Tables};
use std::alloc::{AllocError, Global};
use std::marker::Model;

/// A player of an allocator by node.
pub type Player<NI = u32> = PlayerOf<ByNode<NI>>;

/// An allocator, with the handles of its live grants: it takes commands one by one. Nothing else changes its
/// space, so each handle that is kept is live, and no two have one name. What would free one does not compile:
///
/// ```compile_fail,E0596
/// let mut player = offset_script::Player::<u32>::start(offset_script::Global, 1000, 16).unwrap();
/// let range = player.handle(1).unwrap();
/// player.space().free(range);
/// ```
///
/// ```compile_fail,E0616
/// let mut player = offset_script::Player::<u32>::start(offset_script::Global, 1000, 16).unwrap();
/// player.keeper.handles.clear();
/// ```
#[derive(Drop)]
pub struct PlayerOf<T: Tables> {
    keeper: KeeperOf<T>,
}

impl<T: Tables> Model for PlayerOf<T> {
    ghost use Rattle.offset_script.specs.Steps.{AreHeld, Player};

    ghost Value = { Player };

    ghost view = { λ p. record {
      space = p.keeper.space;
      handles = p.keeper.handles.items;
    } };

    ghost invariant = { λ p. AreHeld p.keeper.space p.keeper.handles.items };
}

impl<T: Tables> PlayerOf<T> {
    /// A fresh space, and no grants. The limit has to be 2 to `T::Index::MAX - 2`.
    ///
    /// # Errors
    ///
    /// It fails only where an allocation fails.
    ///
    /// ```
    /// let player = Player::<u16>::start(alloc, 1000, 16)?;
    /// assert_eq!(player.space().size(), 1000);
    /// ```
    pub fn start(alloc: Global, size: u32, max_allocs: u32) -> Result<Self, AllocError>
        requires low { 2 ≤ max_allocs }
        requires high { max_allocs + 1 < T.Index.MAX }
        ensures fresh { IfOk result (λ p. IsFresh size max_allocs p.space × (p.handles ≡ [])) }
        ensures held { IfOk result (λ p. AreHeld p.space p.handles) }
    {
        let keeper = KeeperOf::start(alloc, size, max_allocs)?;
        Ok(PlayerOf { keeper })
    }

    /// The allocator, to read.
    ///
    /// ```
    /// player.call(alloc, Command::Alloc(300))?;
    /// assert_eq!(player.space().free_units(), 700);
    /// ```
    pub fn space(&self) -> &AllocatorOf<T>
        ensures { result.now ≡ self.now.space }
    {
        &self.keeper.space
    }

    /// The handles of the grants so far: that of grant k is at k - 1 while the grant is live.
    ///
    /// ```
    /// player.call(alloc, Command::Alloc(300))?;
    /// assert_eq!(player.handles(), [player.handle(1)]);
    /// ```
    pub fn handles(&self) -> &[Option<Allocation<T::Index>>]
        ensures handles { result.now ≡ self.now.handles }
        ensures held { AreHeld self.now.space self.now.handles }
    {
        &self.keeper.handles
    }

    /// The handle of the grant of this number, if it is live.
    ///
    /// ```
    /// player.call(alloc, Command::Alloc(300))?;
    /// assert!(player.handle(1).is_some());
    /// ```
    pub fn handle(&self, number: u32) -> Option<Allocation<T::Index>>
        // The handle as it was kept, and so its name.
        ensures handle { result ≡ kept_handle self.now.handles number }
        ensures name { option_map (λ h. h.name) result ≡ kept_name self.now.handles number }
        ensures within { IfSome result (λ h. (1 ≤ number) × (number ≤ length self.now.handles)) }
    {
        self.keeper.handle(number)
    }

    /// Carries out one command, and returns its answer. The alignment of a request has to be at least 1.
    ///
    /// # Errors
    ///
    /// It fails only where an allocation fails. Then nothing was done: the space and the handles are as they
    /// were, and the command may be tried again.
    ///
    /// ```
    /// let answer = player.call(alloc, Command::Alloc(300))?;
    /// assert!(matches!(answer, Answer::Grant { number: 1, offset: 0 }));
    /// ```
    pub fn call(&mut self, alloc: Global, command: Command) -> Result<Answer, AllocError>
        requires alignment { IsTrue (has_valid_alignment command) }
        // The step of the command, with its answer.
        ensures takes { IfOk result (λ a. Takes command self.old.space self.old.handles
            self.new.space self.new.handles (answer_view a)) }
        // Each handle that is kept is live, and no two have one name.
        ensures held { AreHeld self.new.space self.new.handles }
        // Where memory is refused, nothing is done.
        ensures same { OnErr result (Stays self.old.space self.old.handles
            self.new.space self.new.handles) }
    {
        self.keeper.call(alloc, command)
    }
}
