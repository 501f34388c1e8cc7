//! An allocator and the handles of its grants, as a player has them: it carries out commands. Lists of calls change
//! its space by other calls too, so its fields are public, and whoever changes one keeps `AreHeld`; all others take a
//! `PlayerOf`, whose fields are not. No other module of this crate changes a space.

ghost use Rattle.std.specs.Prelude.{◌≡◌, ◌+◌, ◌<◌, ◌≤◌, ℕ, IsTrue, [], length, slice_index_or, vec_len};
ghost use Rattle.std.specs.Prelude.{vec_capacity, None, IfOk, IfSome, IsOk, OnErr, OnOk, option_map};
ghost use Rattle.offset_script.specs.Steps.{kept_handle, kept_name, AreHeld, IsKept, MayBeKept, Stays, Takes};
ghost use Rattle.offset_script.specs.Machine.{answer_view};
ghost use Rattle.offset_script.specs.Grammar.{has_valid_alignment};
ghost use Rattle.offset_allocator.specs.Relations.{IsFresh};

use crate::answers::{Answer, full_answer};
use crate::scripts::Command;
use offset_allocator::{Allocation, AllocatorOf, NodeIndex, Tables};
use std::alloc::{AllocError, Global};

/// An allocator, with the handles of its live grants: what a player is made of. Where a handle that is kept is not
/// live, or two have one name, a later `call` may panic: lists of calls keep both, and a program takes a `PlayerOf`.
#[derive(Drop)]
pub struct KeeperOf<T: Tables> {
    /// The allocator.
    pub space: AllocatorOf<T>,
    /// The handle of grant k is at k - 1 while the grant is live.
    pub handles: Vec<Option<Allocation<T::Index>>>,
    // Resets have removed the first handles, up to this number.
    swept: usize,
    ghost within: { swept ≤ vec_len handles },
    ghost gone: { (k : ℕ) → k < swept → slice_index_or handles.items k None ≡ None },
}

impl<T: Tables> KeeperOf<T> {
    /// A fresh space, and no grants. The limit has to be 2 to `T::Index::MAX - 2`.
    ///
    /// # Errors
    ///
    /// It fails only where an allocation fails.
    pub fn start(alloc: Global, size: u32, max_allocs: u32) -> Result<Self, AllocError>
        requires low { 2 ≤ max_allocs }
        requires high { max_allocs + 1 < T.Index.MAX }
        ensures fresh { IfOk result (λ p. IsFresh size max_allocs p.space × (p.handles.items ≡ [])) }
        ensures held { IfOk result (λ p. AreHeld p.space p.handles.items) }
    {
        let space = AllocatorOf::with_max_allocs(alloc, size, max_allocs)?;
        Ok(KeeperOf {
            space,
            handles: Vec::new(alloc),
            swept: 0,
        })
    }

    /// The handle of the grant of this number, if it is live.
    pub fn handle(&self, number: u32) -> Option<Allocation<T::Index>>
        // The handle as it was kept, and so its name.
        ensures handle { result ≡ kept_handle self.now.handles.items number }
        ensures name { option_map (λ h. h.name) result ≡ kept_name self.now.handles.items number }
        ensures within { IfSome result (λ h. (1 ≤ number)
            × (number ≤ length self.now.handles.items)) }
    {
        if number == 0 {
            return None;
        }
        match self.handles.get(number as usize - 1) {
            Some(handle) => *handle,
            None => None,
        }
    }

    /// The answer to a request with this result. The handle of a grant is kept under the next number: it has
    /// to be live in `space`, and not kept yet.
    ///
    /// # Errors
    ///
    /// It fails only where an allocation fails, and never while `handles` has room for one more. Then the
    /// grant is live, and not kept: to free it, or to keep it later, is left to the caller.
    pub fn keep(&mut self, granted: Option<Allocation<T::Index>>) -> Result<Answer, AllocError>
        // Each handle that is kept is live, and no two have one name; so it is before and after each call.
        requires held { AreHeld self.old.space self.old.handles.items }
        // The grant is live, and no handle that is kept has its name.
        requires granted { MayBeKept granted self.old.space self.old.handles.items }
        ensures handle { IfOk result (λ a. IsKept granted self.old.handles.items
            self.new.handles.items (answer_view a)) }
        ensures held { AreHeld self.new.space self.new.handles.items }
        // The space is never touched, and where memory is refused, no handle either.
        ensures space { self.new.space ≡ self.old.space }
        ensures same { OnErr result (self.new.handles.items ≡ self.old.handles.items) }
        // With room for one more handle it takes no memory.
        ensures succeeds { vec_len self.old.handles < vec_capacity self.old.handles → IsOk result }
    {
        match granted {
            None => Ok(Answer::Refused),
            Some(handle) => {
                self.handles.push(Some(handle))?;
                Ok(Answer::Grant {
                    number: self.handles.len() as u64,
                    offset: handle.offset,
                })
            }
        }
    }

    // Makes room for one more handle. It comes before a request, so that no grant is without a number.
    fn reserve(&mut self) -> Result<(), AllocError>
        ensures room { OnOk result (vec_len self.new.handles < vec_capacity self.new.handles) }
        ensures same { Stays self.old.space self.old.handles.items self.new.space self.new.handles.items }
    {
        self.handles.reserve(1)
    }

    // The answer to `alloc`.
    fn allocate(&mut self, size: u32) -> Result<Answer, AllocError>
        requires { AreHeld self.old.space self.old.handles.items }
        ensures takes { IfOk result (λ a. Takes (Command.Alloc size) self.old.space self.old.handles.items
            self.new.space self.new.handles.items (answer_view a)) }
        ensures held { AreHeld self.new.space self.new.handles.items }
        ensures same { OnErr result (Stays self.old.space self.old.handles.items
            self.new.space self.new.handles.items) }
    {
        self.reserve()?;
        let granted = self.space.allocate(size);
        self.keep(granted)
    }

    // The answer to `free`. The grant's handle is removed.
    fn release(&mut self, number: u32) -> Answer
        requires { AreHeld self.old.space self.old.handles.items }
        ensures takes { Takes (Command.Free number) self.old.space self.old.handles.items
            self.new.space self.new.handles.items (answer_view result) }
        ensures held { AreHeld self.new.space self.new.handles.items }
    {
        match self.handle(number) {
            None => Answer::Gone,
            Some(handle) => {
                self.space.free(handle);
                self.handles[number as usize - 1] = None;
                Answer::Freed
            }
        }
    }

    // The answer to `size`.
    fn size(&self, number: u32) -> Answer
        ensures { Takes (Command.Size number) self.now.space self.now.handles.items
            self.now.space self.now.handles.items (answer_view result) }
    {
        match self.handle(number) {
            None => Answer::Gone,
            Some(handle) => Answer::Size(self.space.allocation_size(handle)),
        }
    }

    // The answer to `report`.
    fn report(&self) -> Answer
        ensures { Takes Command.Report self.now.space self.now.handles.items
            self.now.space self.now.handles.items (answer_view result) }
    {
        Answer::Report(self.space.storage_report())
    }

    // The answer to `reset`. All handles are removed, and numbers go on.
    fn reset(&mut self) -> Answer
        ensures takes { Takes Command.Reset self.old.space self.old.handles.items
            self.new.space self.new.handles.items (answer_view result) }
        ensures held { AreHeld self.new.space self.new.handles.items }
    {
        self.space.reset();
        for i in self.swept..self.handles.len() {
            self.handles[i] = None;
        }
        self.swept = self.handles.len();
        Answer::Reset
    }

    // The answer to `align`.
    fn allocate_aligned(&mut self, size: u32, align: u32) -> Result<Answer, AllocError>
        requires alignment { IsTrue (has_valid_alignment (Command.Align size align)) }
        requires held { AreHeld self.old.space self.old.handles.items }
        ensures takes { IfOk result (λ a. Takes (Command.Align size align) self.old.space self.old.handles.items
            self.new.space self.new.handles.items (answer_view a)) }
        ensures held { AreHeld self.new.space self.new.handles.items }
        ensures same { OnErr result (Stays self.old.space self.old.handles.items
            self.new.space self.new.handles.items) }
    {
        self.reserve()?;
        let granted = self.space.allocate_aligned(size, align);
        self.keep(granted)
    }

    // The answer to `extend`.
    fn extend(&mut self, more: u32) -> Answer
        requires { AreHeld self.old.space self.old.handles.items }
        ensures takes { Takes (Command.Extend more) self.old.space self.old.handles.items
            self.new.space self.new.handles.items (answer_view result) }
        ensures held { AreHeld self.new.space self.new.handles.items }
    {
        if self.space.extend(more) {
            Answer::Extended
        } else {
            Answer::Refused
        }
    }

    /// Carries out one command, and returns its answer. The alignment of a request has to be at least 1.
    /// Each handle that is kept has to be live, and no two may have one name: so it is in a player that
    /// `start` made, and after each `call` and each `keep`.
    ///
    /// # Errors
    ///
    /// It fails only where an allocation fails. Then nothing was done: the space and the handles are as they
    /// were, and the command may be tried again.
    pub fn call(&mut self, alloc: Global, command: Command) -> Result<Answer, AllocError>
        requires held { AreHeld self.old.space self.old.handles.items }
        requires alignment { IsTrue (has_valid_alignment command) }
        // The step of the command, with its answer.
        ensures takes { IfOk result (λ a. Takes command self.old.space self.old.handles.items
            self.new.space self.new.handles.items (answer_view a)) }
        // So the next call may follow.
        ensures held { AreHeld self.new.space self.new.handles.items }
        // Where memory is refused, nothing is done.
        ensures same { OnErr result (Stays self.old.space self.old.handles.items
            self.new.space self.new.handles.items) }
    {
        match command {
            Command::Alloc(size) => self.allocate(size),
            Command::Free(number) => Ok(self.release(number)),
            Command::Size(number) => Ok(self.size(number)),
            Command::Report => Ok(self.report()),
            Command::Full => full_answer(alloc, &self.space),
            Command::Reset => Ok(self.reset()),
            Command::Align(size, align) => self.allocate_aligned(size, align),
            Command::Extend(more) => Ok(self.extend(more)),
        }
    }
}
