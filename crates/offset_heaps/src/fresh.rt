//! Heaps that are made for a request, which they grant at once, and whose alignment their step takes in. It touches
//! nothing else.
ghost use Rattle.std.specs.Prelude.{◌≡◌, ◌+◌, ◌<◌, ◌≤◌, IfOk, Some};
ghost use Rattle.offset_guarded.specs.Answers as tickets;
ghost use Rattle.offset_guarded.specs.Guard.{Guard};
ghost use Rattle.offset_heaps.specs.Heaps.{GrantsNew, larger_limit, usual_room, usual_size};

use crate::heap;
use crate::limits::{Limits, usual_size};
use offset_allocator::Tables;
use offset_guarded::{GuardedOf, Ticket};
use std::alloc::{AllocError, Global};

/// The node limit of a larger heap: two ranges may be live in it.
pub(crate) const LARGER_LIMIT: u32 = 4;

/// The usual heap of a number, and its first grant, which it has room for.
pub(crate) fn usual<T: Tables>(
    alloc: Global,
    limits: Limits,
    number: u32,
    realm: u32,
    size: u32,
    align: u32,
) -> Result<(Option<GuardedOf<T>>, Ticket), AllocError>
    requires alignment { 1 ≤ align }
    requires limit_min { 4 ≤ limits.first_allocs }
    requires limit_max { limits.first_allocs + 1 < T.Index.MAX }
    requires some { 1 ≤ size }
    requires fits { size ≤ usual_room limits number }
    ensures grants { IfOk result (λ r. (h : Guard) × (r.0 ≡ Some h)
        × GrantsNew (λ g h. tickets.AllocatesAligned size 1 g h (Some r.1))
        (usual_size limits number) limits.first_allocs realm align h) }
    ensures start { IfOk result (λ r. r.1.offset ≡ 0) }
{
    let mut slot = Some(GuardedOf::with_realm(
        alloc,
        usual_size(limits, number),
        limits.first_allocs,
        realm,
    )?);
    let ticket = heap::grant_first_in(&mut slot, size, align);
    Ok((slot, ticket))
}

/// A heap of the size of the request, which is its first grant: all of it.
pub(crate) fn larger<T: Tables>(
    alloc: Global,
    realm: u32,
    size: u32,
    align: u32,
) -> Result<(Option<GuardedOf<T>>, Ticket), AllocError>
    requires alignment { 1 ≤ align }
    requires limit { 5 < T.Index.MAX }
    ensures grants { IfOk result (λ r. (h : Guard) × (r.0 ≡ Some h)
        × GrantsNew (λ g h. tickets.AllocatesTight size g h (Some r.1)) size larger_limit realm align h) }
    ensures start { IfOk result (λ r. r.1.offset ≡ 0) }
{
    let mut slot = Some(GuardedOf::with_realm(alloc, size, LARGER_LIMIT, realm)?);
    let ticket = heap::grant_tight_in(&mut slot, size, align);
    Ok((slot, ticket))
}
