//! The daily use of an allocator, as `docs/PROOFS.md` lists it. `lacks_units`,
//! `place_packed`, `place_aligned_within` and `defragment` have a proof file.

ghost use Rattle.std.specs.Prelude.{ℕ, ◌≡◌, ◌≢◌, ◌↔◌, ◌⊎◌, ◌+◌, ◌-◌, ◌*◌, ◌<◌, ◌≤◌, ◌%◌, Some, None, false};
ghost use Rattle.std.specs.Prelude.{not, min, IfSome, IfOk, IfErr, IsOk, IsSome, IsTrue, length};
ghost use Rattle.offset_allocator.specs.View.{used_units, reported_largest};
ghost use Rattle.offset_allocator.specs.Ranges.{Range, range_of, size_of, KeepsAll, KeepsOthers, IsLive};
ghost use Rattle.offset_allocator.specs.Relations.{Aligns, Allocates, Frees, SameState, Resets};
ghost use Rattle.offset_allocator.specs.Requests.{CanGrant, IsWhy, blocks_needed, units_needed};
ghost use Rattle.offset_allocator.specs.Resizing.{CanShrink, CanGrow, HasUnits};
ghost use Rattle.offset_allocator.specs.Moving.Compacting.{Compacts, KeepsSizes};
ghost use Rattle.offset_uses.specs.Grants.{HasTooFewUnits, IsGrantOf};
ghost use Rattle.offset_uses.specs.Pool.{HasSameBytes, IsCopied};

use offset_allocator::{Allocation, Allocator, AllocatorOf, Move, Refusal, Tables, laws};

/// Allocates a mesh: a range of vertices and a range of indices, in two buffers, both or neither.
///
/// It returns the two handles, or `None` where either request is refused. Then no live range has changed.
pub fn insert<T: Tables>(
    vertices: &mut AllocatorOf<T>,
    indices: &mut AllocatorOf<T>,
    vertex_count: u32,
    index_count: u32,
) -> Option<(Allocation<T::Index>, Allocation<T::Index>)>
    ensures vertices { IfSome result (λ mesh. IsGrantOf vertex_count mesh.0 vertices.new) }
    ensures indices { IfSome result (λ mesh. IsGrantOf index_count mesh.1 indices.new) }
    ensures others { IfSome result (λ mesh. KeepsOthers mesh.0.name vertices.old vertices.new
        × KeepsOthers mesh.1.name indices.old indices.new) }
    ensures refused { result ≡ None
        → KeepsAll vertices.old vertices.new × KeepsAll indices.old indices.new }
    ensures granted { 1 ≤ vertex_count → 1 ≤ index_count
        → (IsSome result ↔ ((vertex_count ≤ reported_largest vertices.old)
        × (index_count ≤ reported_largest indices.old))) }
    ensures can_grant { IsSome result
        ↔ (CanGrant 1 vertex_count vertices.old × CanGrant 1 index_count indices.old) }
    ensures sizes { (vertices.new.size ≡ vertices.old.size) × (indices.new.size ≡ indices.old.size) }
{
    let first = vertices.allocate(vertex_count)?;
    match indices.allocate(index_count) {
        None => {
            vertices.free(first);
            None
        }
        Some(second) => Some((first, second)),
    }
}

/// Frees a range if its handle is live. It returns whether it was.
pub fn give_back<T: Tables>(space: &mut AllocatorOf<T>, allocation: Allocation<T::Index>) -> bool
    ensures live { IsTrue result ↔ IsLive allocation.name space.old }
    ensures freed { IsTrue result → Frees allocation.name space.old space.new }
    ensures same { result ≡ false → space.new ≡ space.old }
    ensures gone { IsTrue result → range_of allocation.name space.new ≡ None }
    ensures others { KeepsOthers allocation.name space.old space.new }
{
    let is_live = space.is_live(allocation);
    if is_live {
        space.free(allocation);
    }
    is_live
}

/// Allocates a range of bytes at a multiple of `align`, which a graphics device prescribes.
///
/// It returns `None` where `align` is 0, or the request is refused. Then no live range has
/// changed.
pub fn upload<T: Tables>(
    heap: &mut AllocatorOf<T>,
    size: u32,
    align: u32,
) -> Option<Allocation<T::Index>>
    ensures aligned { IfSome result (λ h. h.offset % align ≡ 0) }
    ensures range { IfSome result (λ h. IsGrantOf size h heap.new) }
    ensures fresh { IfSome result (λ h. range_of h.name heap.old ≡ None) }
    ensures others { IfSome result (λ h. KeepsOthers h.name heap.old heap.new) }
    ensures refused { result ≡ None → KeepsAll heap.old heap.new }
    ensures granted { 1 ≤ align
        → (IsSome result ↔ CanGrant (min align 2) (size + align - 1) heap.old) }
    ensures some { IsSome result → 1 ≤ align }
    ensures step { 1 ≤ align → Aligns size align heap.old heap.new result }
    ensures size { heap.new.size ≡ heap.old.size }
{
    if align == 0 {
        return None;
    }
    heap.allocate_aligned(size, align)
}

// Whether a request is refused since more units are needed, in the space or free.
fn lacks_units<T: Tables>(space: &AllocatorOf<T>, size: u32) -> bool
    ensures { IsTrue result ↔ HasTooFewUnits size space.now }
{
    laws::refusals_advise(space);
    match space.refusal(size) {
        None => false,
        Some(Refusal::Nodes) => false,
        Some(Refusal::TooLarge) => true,
        Some(Refusal::Space) => true,
        Some(Refusal::Fragmented) => false,
    }
}

/// Allocates `size` units, in a space that grows by `more` units where too few are free.
///
/// The error says why the request is refused, and so what is left to do: where the space is fragmented,
/// `compact` it; where no node is left, use another space. Then no live range has changed. Where too few
/// units are free, or the space is too small, it has grown once, whatever is returned, if it can have that
/// many more.
pub fn place<T: Tables>(
    space: &mut AllocatorOf<T>,
    size: u32,
    more: u32,
) -> Result<Allocation<T::Index>, Refusal>
    ensures range { IfOk result (λ h. IsGrantOf size h space.new) }
    ensures why { IfErr result (IsWhy 1 size space.new) }
    ensures grown { HasTooFewUnits size space.old → space.old.size + more ≤ 4294967295
        → space.new.size ≡ space.old.size + more }
    ensures others { IfOk result (λ h. KeepsOthers h.name space.old space.new) }
    ensures refused { IfErr result (λ _. KeepsAll space.old space.new) }
    ensures kept { ((HasTooFewUnits size space.old → ⊥) ⊎ (4294967295 < space.old.size + more))
        → space.new.size ≡ space.old.size }
{
    if lacks_units(space, size) {
        // where it cannot grow, the next call of `refusal` says so
        let _ = space.extend(more);
    }
    match space.refusal(size) {
        None => Ok(space.allocate(size).unwrap()),
        Some(why) => Err(why),
    }
}

// Copies `size` units from one place to a smaller one, where they are in the buffer.
fn copy_down(buffer: &mut [u32], from: u32, to: u32, size: u32)
    ensures { IsCopied from to size buffer.old buffer.new }
{
    let (from, to, size) = (from as usize, to as usize, size as usize);
    if to <= from && from + size <= buffer.len() {
        buffer.copy_within(from..from + size, to);
    }
}

/// Moves all live ranges of a buffer to its front, each with its data. The buffer has to be as long as the
/// space.
///
/// Every handle stays live, with its size; `allocation_offset` returns where its range begins then. A request
/// that was refused as fragmented can be granted afterwards.
pub fn defragment(space: &mut Allocator, buffer: &mut [u32])
    ensures sizes { KeepsSizes space.old space.new }
    ensures data { space.old.size ≤ length buffer.old
        → (x : ℕ) → HasSameBytes buffer.old buffer.new (range_of x space.old) (range_of x space.new) }
    ensures len { length buffer.new ≡ length buffer.old }
    ensures step { Compacts space.old space.new }
{
    laws::is_well_formed(space);
    space.compact(&mut |range: Move| copy_down(buffer, range.from, range.to, range.size));
}

/// Allocates `size` units of a buffer. Where they are free, but lie apart, it moves all live ranges to the
/// front first.
///
/// One compaction is enough, so the error is never `Fragmented`; then nothing has changed. The buffer has to
/// be as long as the space.
pub fn place_packed(
    space: &mut Allocator,
    buffer: &mut [u32],
    size: u32,
) -> Result<Allocation, Refusal>
    ensures range { IfOk result (λ h. IsGrantOf size h space.new) }
    ensures granted { IsWhy 1 size space.old Refusal.Fragmented → IsOk result }
    ensures why { IfErr result (λ why. IsWhy 1 size space.old why × (why ≢ Refusal.Fragmented)) }
    ensures same { IfErr result (λ _. space.new ≡ space.old) }
{
    laws::refusals_advise(space);
    match space.refusal(size) {
        None => Ok(space.allocate(size).unwrap()),
        Some(Refusal::Fragmented) => {
            defragment(space, buffer);
            Ok(space.allocate(size).unwrap())
        }
        Some(Refusal::Nodes) => Err(Refusal::Nodes),
        Some(Refusal::TooLarge) => Err(Refusal::TooLarge),
        Some(Refusal::Space) => Err(Refusal::Space),
    }
}

/// Allocates `size` units of a buffer. Where they are free, but lie apart, it first moves the fewest units
/// that make room for them, with their data, if these are at most `budget`.
///
/// The error says why the request is refused, as `Fragmented` where more units would have to move; then
/// nothing has changed. The buffer has to be as long as the space.
pub fn place_within(
    space: &mut Allocator,
    buffer: &mut [u32],
    size: u32,
    budget: u32,
) -> Result<Allocation, Refusal>
    ensures range { IfOk result (λ h. IsGrantOf size h space.new) }
    ensures why { IfErr result (IsWhy 1 size space.old) }
    ensures same { IfErr result (λ _. space.new ≡ space.old) }
{
    laws::room_is_advised(space);
    match space.refusal(size) {
        None => Ok(space.allocate(size).unwrap()),
        Some(Refusal::Fragmented) => {
            let is_cheap = match space.room_cost(size) {
                None => false,
                Some(cost) => cost.units <= budget,
            };
            if !is_cheap {
                return Err(Refusal::Fragmented);
            }
            space.make_room(
                size,
                &mut |range: Move| { copy_down(buffer, range.from, range.to, range.size) },
            );
            Ok(space.allocate(size).unwrap())
        }
        Some(Refusal::Nodes) => Err(Refusal::Nodes),
        Some(Refusal::TooLarge) => Err(Refusal::TooLarge),
        Some(Refusal::Space) => Err(Refusal::Space),
    }
}

/// The same from a multiple of `align` on, where ranges have alignments that they are to keep: they move by
/// multiples of `step` units, which is a multiple of each alignment that is used.
///
/// The error says why the request is refused, where more units would have to move or no moves by such steps
/// make room; then nothing has changed. It helps where too few nodes are left too.
pub fn place_aligned_within(
    space: &mut Allocator,
    buffer: &mut [u32],
    size: u32,
    align: u32,
    step: u32,
    budget: u32,
) -> Result<Allocation, Refusal>
    requires alignment { 1 ≤ align }
    requires some { 1 ≤ step }
    ensures aligned { IfOk result (λ h. h.offset % align ≡ 0) }
    ensures range { IfOk result (λ h. IsGrantOf size h space.new) }
    ensures why { IfErr result (IsWhy (blocks_needed align) (units_needed size align) space.old) }
    ensures same { IfErr result (λ _. SameState space.old space.new) }
{
    let is_cheap = match space.room_cost_by(size, align, step) {
        None => false,
        Some(cost) => cost.units <= budget,
    };
    if !is_cheap {
        return Err(space.refusal_aligned(size, align).unwrap());
    }
    space.make_room_by(
        size,
        align,
        step,
        &mut |range: Move| { copy_down(buffer, range.from, range.to, range.size) },
    );
    Ok(space.allocate_aligned(size, align).unwrap())
}

/// The byte at which the vertices of a mesh begin, with `stride` bytes each, as a draw call needs it, or
/// `None` where the mesh's handle is not live.
pub fn first_byte<T: Tables>(
    vertices: &AllocatorOf<T>,
    mesh: Allocation<T::Index>,
    stride: u32,
) -> Option<u64>
    ensures live { IsSome result ↔ IsLive mesh.name vertices.now }
    ensures byte { (r : Range) → range_of mesh.name vertices.now ≡ Some r
        → result ≡ Some (r.offset * stride) }
{
    let first = vertices.allocation_offset(mesh)?;
    Some(u64::from(first) * u64::from(stride))
}

/// Changes the number of vertices of a mesh in place: it gives the last ones back, or takes those that are
/// free directly after it. The handle has to be live. It returns whether the mesh has `size` vertices then;
/// if not, nothing has changed.
pub fn resize<T: Tables>(
    vertices: &mut AllocatorOf<T>,
    mesh: Allocation<T::Index>,
    size: u32,
) -> bool
    requires live { IsLive mesh.name vertices.old }
    ensures shrunk { size < size_of mesh.name vertices.old
        → (IsTrue result ↔ CanShrink mesh.name size vertices.old) }
    ensures grown { size_of mesh.name vertices.old ≤ size
        → (IsTrue result ↔ CanGrow mesh.name size vertices.old) }
    ensures range { IsTrue result → HasUnits mesh.name size vertices.old vertices.new }
    ensures others { KeepsOthers mesh.name vertices.old vertices.new }
    ensures same { result ≡ false → SameState vertices.old vertices.new }
    ensures size { vertices.new.size ≡ vertices.old.size }
{
    if size < vertices.allocation_size(mesh) {
        vertices.shrink(mesh, size)
    } else {
        vertices.grow_in_place(mesh, size)
    }
}

/// The number of units in live ranges, or `None` where the node limit is reached (`is_full`), since the
/// report is 0, 0 then.
pub fn granted_units<T: Tables>(space: &AllocatorOf<T>) -> Option<u32>
    ensures granted { IfSome result (λ n. n ≡ used_units space.now.blocks) }
    ensures full { result ≡ None ↔ (length space.now.blocks + 1 ≡ space.now.max_allocs) }
{
    laws::sizes_add_up(space);
    if space.is_full() {
        return None;
    }
    Some(space.size() - space.storage_report().total_free_space)
}

/// Two spaces for the data of single frames: one is filled while the device reads the other.
#[derive(Drop)]
pub struct Ring<T: Tables> {
    /// The space of the even frames.
    pub even: AllocatorOf<T>,
    /// The space of the odd frames.
    pub odd: AllocatorOf<T>,
    /// Whether the present frame is odd.
    pub is_odd: bool,
}

impl<T: Tables> Ring<T> {
    /// Begins a frame: it frees all ranges of two frames ago; those of the last frame stay live.
    pub fn begin(&mut self)
        ensures turn { self.new.is_odd ≡ not self.old.is_odd }
        ensures odd { IsTrue self.new.is_odd
            → Resets self.old.odd self.new.odd × (self.new.even ≡ self.old.even) }
        ensures even { self.new.is_odd ≡ false
            → Resets self.old.even self.new.even × (self.new.odd ≡ self.old.odd) }
    {
        self.is_odd = !self.is_odd;
        if self.is_odd {
            self.odd.reset();
        } else {
            self.even.reset();
        }
    }

    /// Allocates a range that is live until the frame after the next one begins, or returns `None` where it
    /// is refused.
    pub fn take(&mut self, size: u32) -> Option<Allocation<T::Index>>
        ensures turn { self.new.is_odd ≡ self.old.is_odd }
        ensures odd { IsTrue self.old.is_odd
            → Allocates size self.old.odd self.new.odd result × (self.new.even ≡ self.old.even) }
        ensures even { self.old.is_odd ≡ false
            → Allocates size self.old.even self.new.even result × (self.new.odd ≡ self.old.odd) }
    {
        if self.is_odd {
            self.odd.allocate(size)
        } else {
            self.even.allocate(size)
        }
    }
}
