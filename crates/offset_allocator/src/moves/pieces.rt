//! The copies of a move, for devices whose copies may not overlap. It touches no table.
ghost use Rattle.std.specs.Prelude.{◌≡◌, ◌↔◌, ◌⊎◌, ◌+◌, ◌-◌, ◌<◌, ◌≤◌, ⊤, min, IsTrue};
ghost use Rattle.std.specs.Iterator.{YieldsFirst, item_count};
ghost use Rattle.offset_allocator.specs.Moving.Pieces.{pieces};

use crate::index::{NodeIndex, NodeIndexNonMax};
use crate::moves::one_move::Move;
use std::alloc::AllocError;
use std::iter::FusedIterator;
use std::marker::Model;

/// A piece of a move: `size` units from the offset `from` to the offset `to`. The two ranges have no unit in
/// common.
#[derive(Clone, Copy, Debug, PartialEq)]
pub struct Piece {
    /// Where the units are read.
    pub from: u32,
    /// Where they are written, below `from`.
    pub to: u32,
    /// How many they are.
    pub size: u32,
}

/// The pieces of a move, the lowest first, seen as the list of those that are left.
#[derive(Drop)]
pub struct MovePieces {
    // where the next piece begins
    from: u32,
    to: u32,
    // the units that are left to copy
    left: u32,
    // the most units of a piece
    most: u32,
}

impl Model for MovePieces {
    ghost use Rattle.std.specs.Prelude.{◌+◌, ◌<◌, ◌≤◌, List};
    ghost use Rattle.offset_allocator.specs.Moving.Pieces.{pieces};
    ghost use Rattle.offset_allocator.specs.declared.moves.pieces.Piece.{Piece};

    ghost Value = { List Piece };

    ghost view = { λ p. pieces p.left p.most p.from p.to p.left };

    ghost invariant = { λ p. (0 < p.most) × (p.to < p.from) × (p.from + p.left ≤ 4294967295) };
}

impl Clone for MovePieces {
    ghost is_clone = { λ it copy. copy ≡ it };

    ghost is_infallible = { λ _. ⊤ };

    fn clone(&self) -> Result<Self, AllocError> {
        Ok(MovePieces {
            from: self.from,
            to: self.to,
            left: self.left,
            most: self.most,
        })
    }
}

impl Iterator for MovePieces {
    type Item = Piece;

    ghost next_gives = { YieldsFirst (λ rest. rest) };

    ghost remaining = { item_count (λ rest. rest) };

    fn next(&mut self) -> Option<Piece> {
        if self.left == 0 {
            return None;
        }
        let size = self.most.min(self.left);
        let piece = Piece {
            from: self.from,
            to: self.to,
            size,
        };
        self.from += size;
        self.to += size;
        self.left -= size;
        Some(piece)
    }
}

impl FusedIterator for MovePieces {}

impl MovePieces {
    /// As `pieces` of a move of `size` units from the offset `from` to the offset `to`.
    ///
    /// ```
    /// let mut pieces = MovePieces::of(300, 0, 100, 64);
    /// assert_eq!(pieces.next(), Some(Piece { from: 300, to: 0, size: 64 }));
    /// assert_eq!(pieces.next(), Some(Piece { from: 364, to: 64, size: 36 }));
    /// ```
    pub fn of(from: u32, to: u32, size: u32, most: u32) -> Self
        requires some { 0 < most }
        requires down { to < from }
        requires within { from + size ≤ 4294967295 }
        ensures { result ≡ pieces size (min most (from - to)) from to size }
    {
        MovePieces {
            from,
            to,
            left: size,
            most: most.min(from - to),
        }
    }
}

impl<NI: NodeIndex, N: NodeIndexNonMax> Move<NI, N> {
    /// Whether the units that are read and those that are written have none in common. Then one copy makes
    /// the move on a device whose copies may not overlap; `pieces` are for all moves.
    ///
    /// ```
    /// let hole = space.allocate(300).unwrap();
    /// space.allocate(100);
    /// space.free(hole);
    /// space.compact(&mut |it| assert!(it.is_apart()));
    /// ```
    pub fn is_apart(&self) -> bool
        ensures { IsTrue result ↔ ((self.now.to + self.now.size ≤ self.now.from)
            ⊎ (self.now.from + self.now.size ≤ self.now.to)) }
    {
        if self.to <= self.from {
            self.from - self.to >= self.size
        } else {
            self.to - self.from >= self.size
        }
    }

    /// Copies of at most `most` units that together make the move, one after the other: each is apart in
    /// itself, and none is written on units that a later one reads. Each has as many units as it can: `most`,
    /// or as many as lie between `to` and `from`, the last one fewer.
    ///
    /// `most` has to be at least 1. A move whose fields were written since has to go to a smaller offset still,
    /// with all its units below 4294967295. It takes no memory.
    ///
    /// ```
    /// let hole = space.allocate(300).unwrap();
    /// space.allocate(100);
    /// space.free(hole);
    /// space.compact(&mut |it| assert_eq!(it.pieces(64).map(|piece| piece.size).sum::<u32>(), 100));
    /// ```
    pub fn pieces(&self, most: u32) -> MovePieces
        requires some { 0 < most }
        ensures { result ≡ pieces self.now.size
            (min most (self.now.from - self.now.to)) self.now.from self.now.to
            self.now.size }
    {
        MovePieces::of(self.from, self.to, self.size, most)
    }
}
