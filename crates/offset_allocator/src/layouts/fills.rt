//! Requests the memory of tables, and fills it within its bounds. It touches the vectors that it is given.
ghost use Rattle.std.specs.Prelude.{◌≡◌, ◌+◌, ◌*◌, ◌<◌, [], ◌∷◌, ◌++◌, vec_len, vec_capacity, IfOk};
ghost use Rattle.offset_allocator.specs.Cells.{link_bytes};

use crate::index::NodeIndex;
use std::alloc::{AllocError, Global};

// The bytes that the tables of this many nodes reserve: of each node its offset, its size, four links and an
// entry of the stack. A link is taken to have the bytes that its numbers need, as those of `u16` and `u32`
// have.
fn table_bytes<NI: NodeIndex>(nodes: u32) -> usize
    ensures { result ≡ (8 + 5 * link_bytes NI.MAX) * nodes }
{
    let link: usize = if NI::MAX < 256 {
        1
    } else if NI::MAX < 65536 {
        2
    } else {
        4
    };
    (8 + 5 * link) * nodes as usize
}

// Tables of fewer bytes than these are not probed.
const PROBED: usize = 1 << 24;

/// Allocates the bytes of all tables in one piece and frees them: a system that promises more memory than it
/// has would grant each table, and end the program when they are written; the one request for all bytes it
/// refuses. Small tables are not probed: many would have to be promised before one ends the program, and the
/// C library, once a large block was freed, begins later ones anywhere in a page, so that each touches a page
/// more.
pub(crate) fn probe<NI: NodeIndex>(alloc: Global, nodes: u32) -> Result<(), AllocError> {
    let bytes = table_bytes::<NI>(nodes);
    if bytes < PROBED {
        return Ok(());
    }
    let _all: Vec<u8> = reserved(alloc, bytes)?;
    Ok(())
}

/// An empty table, with room for `length` values.
pub(crate) fn reserved<T>(alloc: Global, length: usize) -> Result<Vec<T>, AllocError>
    ensures empty { IfOk result (λ v. v.items ≡ []) }
    ensures exact { IfOk result (λ v. vec_capacity v ≡ length) }
{
    Vec::with_capacity(alloc, length)
}

/// Adds a value at the end of a table that has room for it. `push_reserved`, unlike `push`, promises that the
/// memory stays the same.
pub(crate) fn push_within<T: Copy>(values: &mut Vec<T>, value: T)
    requires { vec_len values.old < vec_capacity values.old }
    ensures items { values.new.items ≡ values.old.items ++ value ∷ [] }
    ensures len { vec_len values.new ≡ vec_len values.old + 1 }
    ensures memory { vec_capacity values.new ≡ vec_capacity values.old }
{
    values.push_reserved(value);
}
