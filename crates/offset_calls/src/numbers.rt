//! The numbers of grants, by their names. It touches its own list alone.

ghost use Rattle.std.specs.Prelude.{◌≡◌, [], IfOk, OnErr, ℕ, length, nat_eq, slice_index, if◌then◌else◌};
ghost use Rattle.offset_calls.specs.Steps.{AreNumbers};

use offset_allocator::{Allocation, NodeIndex};
use std::alloc::{AllocError, Global};

/// The numbers of the grants that it has read, by their names. It is empty, and takes no memory, until it
/// reads the first; then 8 bytes for each name. A grant is read once, so all reading costs what the grants
/// did.
#[derive(Drop)]
pub(crate) struct Numbers {
    // at a name the number of the last grant that had it when it was read, or 0 where none had
    by_name: Vec<u64>,
    // how many grants it has read
    grants: usize,
}

impl Numbers {
    // No grants.
    pub(crate) fn new(alloc: Global) -> Self
        ensures names { result.by_name.items ≡ [] }
        ensures grants { result.grants ≡ 0 }
    {
        Numbers {
            by_name: Vec::new(alloc),
            grants: 0,
        }
    }

    // The number at a name, or 0.
    pub(crate) fn of(&self, name: u32) -> u64
        ensures { result ≡ slice_index self.now.by_name.items name }
    {
        self.by_name.get(name as usize).copied().unwrap_or(0)
    }

    // Makes room for this many names at once. Where that is refused, room is made as they come.
    fn reserve(&mut self, names: usize)
        ensures names { (x : ℕ) → slice_index self.new.by_name.items x
            ≡ slice_index self.old.by_name.items x }
        ensures grants { self.new.grants ≡ self.old.grants }
    {
        let len = self.by_name.len();
        if len < names && self.by_name.reserve_exact(names - len).is_ok() {
            let _is_made = self.by_name.resize(names, 0);
        }
    }

    // Puts a number at a name.
    fn set(&mut self, name: u32, number: u64) -> Result<(), AllocError>
        ensures names { IfOk result (λ _. (x : ℕ) → slice_index self.new.by_name.items x
            ≡ (if nat_eq x name then number else slice_index self.old.by_name.items x)) }
        ensures same { OnErr result (self.new.by_name.items ≡ self.old.by_name.items) }
        ensures grants { self.new.grants ≡ self.old.grants }
    {
        let at = name as usize;
        if self.by_name.len() <= at {
            self.by_name.resize(at + 1, 0)?;
        }
        self.by_name[at] = number;
        Ok(())
    }

    // Reads the grants that it has not read yet. A name is below `names`.
    pub(crate) fn read<NI: NodeIndex>(
        &mut self,
        handles: &[Option<Allocation<NI>>],
        names: u32,
    ) -> Result<(), AllocError>
        requires { AreNumbers handles.now self.old.grants self.old.by_name.items }
        ensures numbers { AreNumbers handles.now self.new.grants self.new.by_name.items }
        ensures grants { IfOk result (λ _. self.new.grants ≡ length handles.now) }
    {
        self.reserve(names as usize);
        for i in self.grants..handles.len() {
            if let Some(handle) = handles[i] {
                self.set(handle.to_parts().1, i as u64 + 1)?;
            }
        }
        self.grants = handles.len();
        Ok(())
    }
}
