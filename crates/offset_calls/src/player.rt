//! A player that takes calls one by one. It changes its own allocator alone.

ghost use Rattle.std.specs.Prelude.{◌≡◌, ◌+◌, ◌<◌, ◌≤◌, [], IfOk, IsTrue, OnErr};
ghost use Rattle.offset_allocator.specs.Relations.{IsFresh};
ghost use Rattle.offset_script.specs.Steps.{kept_handle};
ghost use Rattle.offset_calls.specs.Calling.{IsLost};
ghost use Rattle.offset_calls.specs.Calls.{is_valid, reply_view};
ghost use Rattle.offset_calls.specs.Steps.{Takes};

use crate::calls::{Call, Reply};
use crate::numbers::Numbers;
use crate::playing::reply;
use offset_allocator::laws::is_well_formed;
use offset_allocator::{Allocation, AllocatorOf, ByNode, NodeIndex, Tables};
use offset_script::keeper::KeeperOf;
use std::alloc::{AllocError, Global};
use std::marker::Model;

/// A player of an allocator by node.
pub type CallPlayer<NI = u32> = CallPlayerOf<ByNode<NI>>;

/// An allocator that takes calls one by one, and replies as `play_calls_of` does to the whole list.
#[derive(Drop)]
pub struct CallPlayerOf<T: Tables> {
    player: KeeperOf<T>,
    numbers: Numbers,
}

impl<T: Tables> Model for CallPlayerOf<T> {
    ghost use Rattle.offset_calls.specs.Calling.{Player, IsReached};
    ghost use Rattle.offset_calls.specs.Steps.{AreNumbers};

    ghost Value = { Player };

    ghost view = { λ p. record {
      space = p.player.space;
      handles = p.player.handles.items;
    } };

    ghost invariant = { λ p. IsReached p.player.space p.player.handles.items
        × AreNumbers p.player.handles.items p.numbers.grants p.numbers.by_name.items };
}

impl<T: Tables> CallPlayerOf<T> {
    /// A fresh space, and no grants. The limit has to be 2 to `T::Index::MAX - 2`.
    ///
    /// # Errors
    ///
    /// It fails only where an allocation fails.
    ///
    /// ```
    /// let player = CallPlayer::<u16>::start(alloc, 1000, 16)?;
    /// assert_eq!(player.space().size(), 1000);
    /// ```
    pub fn start(alloc: Global, size: u32, max_allocs: u32) -> Result<Self, AllocError>
        requires low { 2 ≤ max_allocs }
        requires high { max_allocs + 1 < T.Index.MAX }
        ensures fresh { IfOk result (λ p. IsFresh size max_allocs p.space × (p.handles ≡ [])) }
    {
        let player = KeeperOf::start(alloc, size, max_allocs)?;
        // A step of the proof, which does nothing.
        is_well_formed(&player.space);
        Ok(CallPlayerOf {
            player,
            numbers: Numbers::new(alloc),
        })
    }

    /// Makes one call, and returns its reply. Its alignment and its step, if it has them, have to be at least 1.
    ///
    /// It costs what the call costs in the allocator. Calls that may slide ranges (`Compact`, `CompactBy`,
    /// `CompactWithin`, `MakeRoom`, `MakeRoomBy`), `FirstLive`, `LastLive`, `LiveBefore` and `LiveAfter` also read
    /// the grants since the last one of them, and keep 8 bytes for each node.
    ///
    /// # Errors
    ///
    /// It fails only where an allocation fails. Then nothing was done, but by a call that may slide ranges: it
    /// may have moved them, and the reply that says so is lost. Any call may follow.
    ///
    /// ```
    /// let mut player = CallPlayer::<u32>::start(alloc, 1000, 16)?;
    /// assert!(matches!(player.call(alloc, Call::AllocateTight(300))?, Reply::Answer(_)));
    /// assert!(matches!(player.call(alloc, Call::Shrink(1, 200))?, Reply::Resized));
    /// assert_eq!(player.space().free_units(), 800);
    /// ```
    pub fn call(&mut self, alloc: Global, call: Call) -> Result<Reply, AllocError>
        requires valid { IsTrue (is_valid call) }
        // The step of the call, with its reply.
        ensures takes { IfOk result (λ r. Takes call self.old.space self.old.handles
            self.new.space self.new.handles (reply_view r)) }
        // Where memory is refused, all is as it was, or the call has moved ranges, and its reply is lost.
        ensures lost { OnErr result (IsLost call self.old.space self.old.handles
            self.new.space self.new.handles) }
    {
        let reply = reply(alloc, &mut self.player, &mut self.numbers, call);
        // A step of the proof, which does nothing.
        is_well_formed(&self.player.space);
        reply
    }

    /// The allocator, to read.
    ///
    /// ```
    /// let player = CallPlayer::<u32>::start(alloc, 1000, 16)?;
    /// assert!(player.space().is_empty());
    /// ```
    pub fn space(&self) -> &AllocatorOf<T>
        ensures { result.now ≡ self.now.space }
    {
        &self.player.space
    }

    /// The handle of the grant of this number, if it is live.
    ///
    /// ```
    /// let mut player = CallPlayer::<u32>::start(alloc, 1000, 16)?;
    /// player.call(alloc, Call::AllocateTight(300))?;
    /// assert!(player.handle(1).is_some());
    /// ```
    pub fn handle(&self, number: u32) -> Option<Allocation<T::Index>>
        ensures { result ≡ kept_handle self.now.handles number }
    {
        self.player.handle(number)
    }
}
