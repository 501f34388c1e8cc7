//! What engines do beside: requests of one alignment, handles that travel, and several spaces.

ghost use Rattle.std.specs.Prelude.{ℕ, ◌≡◌, ◌≢◌, ◌↔◌, ◌⊎◌, ◌+◌, ◌*◌, ◌/◌, ◌%◌, ◌<◌, ◌≤◌, Some, None, false};
ghost use Rattle.std.specs.Prelude.{IfSome, IsSome, IsTrue, length, slice_index_or};
ghost use Rattle.offset_allocator.specs.View.{View, Handle, reported_largest};
ghost use Rattle.offset_allocator.specs.Ranges.{IsLive, KeepsAll, KeepsOthers};
ghost use Rattle.offset_allocator.specs.Relations.{Aligns, Allocates, Frees};
ghost use Rattle.offset_uses.specs.Grants.{IsGrantOf};

use crate::daily::{give_back, upload};
use offset_allocator::{Allocation, AllocatorOf, NodeIndex, Tables};

/// Allocates bytes at a multiple of 256, of a heap that counts in units of 256 bytes. It returns the handle
/// and the first byte, or `None` where the request is refused; then no live range has changed.
///
/// No padding is needed, where `allocate_aligned` needs up to 255 bytes a range: a fresh heap of 4,096 units
/// grants 4,096 requests for 256 bytes.
pub fn upload_units<T: Tables>(
    heap: &mut AllocatorOf<T>,
    bytes: u32,
) -> Option<(Allocation<T::Index>, u64)>
    ensures aligned { IfSome result (λ r. r.1 % 256 ≡ 0) }
    ensures first { IfSome result (λ r. r.1 ≡ 256 * r.0.offset) }
    ensures range { IfSome result (λ r. IsGrantOf ((bytes + 255) / 256) r.0 heap.new) }
    ensures others { IfSome result (λ r. KeepsOthers r.0.name heap.old heap.new) }
    ensures granted { 1 ≤ bytes → (IsSome result ↔ ((bytes + 255) / 256 ≤ reported_largest heap.old)) }
    ensures refused { result ≡ None → KeepsAll heap.old heap.new }
{
    let units = ((u64::from(bytes) + 255) / 256) as u32;
    let range = heap.allocate(units)?;
    Some((range, 256 * u64::from(range.offset)))
}

/// Two uploads of different alignments, both or neither.
///
/// It returns the two handles, or `None` where an alignment is 0, the first request is refused,
/// or the second after it. Then no live range has changed.
pub fn upload_both<T: Tables>(
    heap: &mut AllocatorOf<T>,
    size: u32,
    align: u32,
    other_size: u32,
    other_align: u32,
) -> Option<(Allocation<T::Index>, Allocation<T::Index>)>
    ensures first { IfSome result (λ r. IsGrantOf size r.0 heap.new) }
    ensures second { IfSome result (λ r. IsGrantOf other_size r.1 heap.new) }
    ensures aligned { IfSome result (λ r. (r.0.offset % align ≡ 0) × (r.1.offset % other_align ≡ 0)) }
    ensures differ { IfSome result (λ r. r.0.name ≢ r.1.name) }
    ensures some { IsSome result → (1 ≤ align) × (1 ≤ other_align) }
    ensures granted { IfSome result (λ r. (v : View) × Aligns size align heap.old v (Some r.0)
        × Aligns other_size other_align v heap.new (Some r.1)) }
    ensures refused { result ≡ None
        → 1 ≤ align → 1 ≤ other_align
        → ((v : View) × Aligns size align heap.old v None)
        ⊎ ((v w : View) × (g : Handle) × Aligns size align heap.old v (Some g)
        × Aligns other_size other_align v w None) }
    ensures kept { result ≡ None → KeepsAll heap.old heap.new }
{
    let one = upload(heap, size, align)?;
    match upload(heap, other_size, other_align) {
        None => {
            give_back(heap, one);
            None
        }
        Some(other) => Some((one, other)),
    }
}

/// A handle as two numbers, for a file or another language, and made of them again: it is the same.
pub fn restored<NI: NodeIndex>(mesh: Allocation<NI>) -> Allocation<NI>
    ensures { result ≡ mesh }
{
    let (offset, name) = mesh.to_parts();
    Allocation::from_parts(offset, name).unwrap()
}

/// Frees the range of a name that came from elsewhere, if it is live. It returns whether it was.
pub fn free_named<T: Tables>(space: &mut AllocatorOf<T>, name: u32) -> bool
    ensures live { name < T.Index.MAX → (IsTrue result ↔ IsLive name space.old) }
    ensures freed { IsTrue result → Frees name space.old space.new }
    ensures same { result ≡ false → space.new ≡ space.old }
{
    match Allocation::from_parts(0, name) {
        None => false,
        Some(allocation) => give_back(space, allocation),
    }
}

/// Allocates in one of several spaces, or returns `None` where there is no such space or it refuses the
/// request.
pub fn take_from<T: Tables>(
    slabs: &mut Vec<AllocatorOf<T>>,
    place: usize,
    size: u32,
) -> Option<Allocation<T::Index>>
    ensures len { length slabs.new.items ≡ length slabs.old.items }
    ensures none { length slabs.old.items ≤ place → result ≡ None }
    ensures step { (v : View) → place < length slabs.old.items
        → Allocates size (slice_index_or slabs.old.items place v)
        (slice_index_or slabs.new.items place v) result }
    ensures others { (k : ℕ) (v : View) → k ≢ place
        → slice_index_or slabs.new.items k v ≡ slice_index_or slabs.old.items k v }
{
    let slab = slabs.get_mut(place)?;
    slab.allocate(size)
}
