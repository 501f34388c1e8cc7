//! A buffer of bytes that is defragmented with the allocator of its ranges.

ghost use Rattle.std.specs.Prelude.{ℕ, ◌≡◌, ◌≤◌, ◌+◌, length};
ghost use Rattle.offset_allocator.specs.Ranges.{range_of};
ghost use Rattle.offset_allocator.specs.Moving.Compacting.{Compacts};
ghost use Rattle.offset_uses.specs.Pool.{HasSameBytes, IsCopied};

use offset_allocator::{Allocator, Move, Piece, laws};

/// Copies `size` bytes from one place to a smaller one, both in the buffer.
fn copy_down(bytes: &mut [u8], from: u32, to: u32, size: u32)
    ensures copied { IsCopied from to size bytes.old bytes.new }
{
    let (from, to, size) = (from as usize, to as usize, size as usize);
    if to <= from && from + size <= bytes.len() {
        bytes.copy_within(from..from + size, to);
    }
}

/// Slides all live ranges of a heap to its front, with their bytes. The buffer has to have a byte for each
/// unit. Every handle stays live, and its range holds the same bytes; `allocation_offset` returns where it
/// begins now.
pub fn defragment(heap: &mut Allocator, bytes: &mut [u8])
    requires whole { heap.old.size ≤ length bytes.old }
    ensures same { (x : ℕ)
        → HasSameBytes bytes.old bytes.new (range_of x heap.old) (range_of x heap.new) }
    ensures len { length bytes.new ≡ length bytes.old }
    ensures step { Compacts heap.old heap.new }
{
    laws::is_well_formed(heap);
    heap.compact(&mut |range: Move| copy_down(bytes, range.from, range.to, range.size));
}

/// Copies a piece of a move, which is not to overlap what it is written over: as a device copies.
fn copy_apart(bytes: &mut [u8], piece: &Piece)
    requires apart { piece.now.to + piece.now.size ≤ piece.now.from }
    ensures copied { IsCopied piece.now.from piece.now.to piece.now.size bytes.old bytes.new }
{
    copy_down(bytes, piece.from, piece.to, piece.size);
}

/// Copies the bytes of a move by copies of at most `most` bytes, or of one byte each where that is 0, one after
/// the other.
fn copy_in_pieces(bytes: &mut [u8], range: &Move, most: u32)
    ensures copied { IsCopied range.now.from range.now.to range.now.size bytes.old bytes.new }
{
    for piece in range.pieces(most.max(1)) {
        copy_apart(bytes, &piece);
    }
}

/// As `defragment`, by copies of at most `most` bytes, or of one byte each where that is 0, as a device makes
/// them: `copy_apart` asks that none overlaps what it is written over. That all bytes go by it, no clause says.
pub fn defragment_in_pieces(heap: &mut Allocator, bytes: &mut [u8], most: u32)
    requires whole { heap.old.size ≤ length bytes.old }
    ensures same { (x : ℕ)
        → HasSameBytes bytes.old bytes.new (range_of x heap.old) (range_of x heap.new) }
    ensures len { length bytes.new ≡ length bytes.old }
    ensures step { Compacts heap.old heap.new }
{
    laws::is_well_formed(heap);
    heap.compact(&mut |range: Move| copy_in_pieces(bytes, &range, most));
}
