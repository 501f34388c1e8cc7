//! One range that slides to a smaller offset, as closures get it. It touches no table.
ghost use Rattle.std.specs.Prelude.{◌≡◌, ◌+◌, ◌<◌, ◌≤◌};

use crate::handle::Allocation;
use crate::index::{NodeIndex, NodeIndexNonMax};
use std::alloc::AllocError;
use std::marker::PhantomData;

/// A range that moves, whose name is of a type `N`: `size` units from the offset `from` to the offset `to`.
///
/// Every move is one to a smaller offset, with all its units below 4294967295: a closure that gets one may
/// rely on that, as `pieces` does.
#[derive(Copy, Debug, PartialEq)]
pub struct Move<NI, N> {
    name: N,
    /// The offset that the range had.
    pub from: u32,
    /// The offset that it has after the move.
    pub to: u32,
    /// Its units.
    pub size: u32,
    index: PhantomData<NI>,
    pub ghost down: { to < from },
    pub ghost within: { from + size ≤ 4294967295 },
}

impl<NI: Copy, N: Copy> Clone for Move<NI, N> {
    ghost use Rattle.std.specs.Prelude.{◌≡◌, ⊤};

    ghost is_clone = { λ x y. y ≡ x };

    ghost is_infallible = { λ _. ⊤ };

    fn clone(&self) -> Result<Self, AllocError> {
        Ok(*self)
    }
}

impl<NI: NodeIndex, N: NodeIndexNonMax> Move<NI, N> {
    // The move of a range of this name.
    pub(crate) fn make(name: N, from: u32, to: u32, size: u32) -> Self
        requires down { to < from }
        requires within { from + size ≤ 4294967295 }
        ensures { (result.name ≡ name) × (result.from ≡ from) × (result.to ≡ to) × (result.size ≡ size) }
    {
        Move {
            name,
            from,
            to,
            size,
            index: PhantomData,
        }
    }

    /// The handle of the range as it is after the move. Every older handle of the range is live too; only its
    /// `offset` is that of before.
    ///
    /// ```
    /// let hole = space.allocate(300).unwrap();
    /// let mesh = space.allocate(100).unwrap();
    /// space.free(hole);
    /// space.compact(&mut |it| assert_eq!(it.allocation().name(), mesh.name()));
    /// ```
    pub fn allocation(&self) -> Allocation<NI, N>
        ensures { result ≡ record { name = N.number self.now.name; offset = self.now.to } }
    {
        Allocation::make(self.to, self.name)
    }
}
