//! Functions that use `offset_allocator` as an engine would, each with its contract.
#![tactic(auto)]

ghost use Rattle.std.specs.Prelude.{◌≡◌, ◌≢◌, ◌↔◌, ◌⊎◌, true, false, ◌+◌, ◌<◌, ◌≤◌, ◌%◌, Some, None, IfSome};
ghost use Rattle.std.specs.Prelude.{IsSome, IsTrue, IfOk, MatchOption, All, map, min, length};
ghost use Rattle.offset_allocator.specs.View.{View, Handle, reported_largest, reported_free};
ghost use Rattle.offset_allocator.specs.Ranges.{Range, AreDisjoint, IsLive, KeepsOthers, KeepsRanges};
ghost use Rattle.offset_allocator.specs.Ranges.{range_of, size_of};
ghost use Rattle.offset_allocator.specs.Requests.{CanGrant};
ghost use Rattle.offset_allocator.specs.Relations.{Aligns, Allocates, Extends, Frees, SameSpace, SameState};
ghost use Rattle.offset_script.specs.Machine.{answer_view, answers, start};
ghost use Rattle.offset_script.specs.Grammar.{has_valid_alignment};
ghost use Rattle.offset_uses.specs.Grants.{IsGrantOf, range_from};

pub mod assets;
pub mod daily;
pub mod engine;
pub mod in_memory;
pub mod players;
pub mod pool;
pub mod tickets;
pub mod walking;

use offset_allocator::{Accesses, Allocation, AllocatorOf, Tables, laws};
use offset_script::{Answer, Command, play};
use std::alloc::{AllocError, Global};

/// Allocates the vertices of a mesh's outer and inner hull, both or neither.
///
/// It returns the two handles, or `None` where the first request is refused, or the second after it. Then the
/// buffer is as it was, down to the order of its bins.
pub fn place_mesh<T: Tables>(
    vertices: &mut AllocatorOf<T>,
    outer: u32,
    inner: u32,
) -> Option<(Allocation<T::Index>, Allocation<T::Index>)>
    ensures outer { IfSome result (λ hulls. IsGrantOf outer hulls.0 vertices.new) }
    ensures inner { IfSome result (λ hulls. IsGrantOf inner hulls.1 vertices.new) }
    ensures apart { IfSome result (λ hulls.
        AreDisjoint (range_from hulls.0 outer) (range_from hulls.1 inner)) }
    ensures kept { KeepsRanges vertices.old vertices.new }
    ensures same { result ≡ None → SameSpace vertices.old vertices.new }
    ensures placed { IfSome result (λ hulls. (w : View)
        × Allocates outer vertices.old w (Some hulls.0) × Allocates inner w vertices.new (Some hulls.1)) }
    ensures refused { result ≡ None → ((w : View) × Allocates outer vertices.old w None)
        ⊎ ((v w : View) × (g : Handle) × Allocates outer vertices.old v (Some g) × Allocates inner v w None) }
{
    laws::is_well_formed(vertices);
    let one = vertices.allocate(outer)?;
    match vertices.allocate(inner) {
        None => {
            vertices.free(one);
            None
        }
        Some(other) => {
            laws::ranges_are_disjoint(vertices);
            Some((one, other))
        }
    }
}

/// States that the ranges of two live meshes, whose handles have different names, share no vertex. It changes
/// nothing.
pub fn are_apart<T: Tables>(
    vertices: &AllocatorOf<T>,
    one: Allocation<T::Index>,
    other: Allocation<T::Index>,
)
    requires distinct { one.name ≢ other.name }
    ensures { (r s : Range) → range_of one.name vertices.now ≡ Some r
        → range_of other.name vertices.now ≡ Some s → AreDisjoint r s }
{
    laws::ranges_are_disjoint(vertices);
}

/// Allocates `n` vertices, which the report has just promised.
///
/// It returns the handle; it cannot fail.
pub fn place_promised<T: Tables>(vertices: &mut AllocatorOf<T>, n: u32) -> Allocation<T::Index>
    requires some { 1 ≤ n }
    requires promised { n ≤ reported_largest vertices.old }
    ensures step { Allocates n vertices.old vertices.new (Some result) }
    ensures live { IsLive result.name vertices.new }
    ensures range { IsGrantOf n result vertices.new }
    ensures kept { KeepsRanges vertices.old vertices.new }
{
    vertices.allocate(n).unwrap()
}

/// Allocates `n` vertices, or as many as the report promises where these are fewer.
///
/// It returns the handle and the number of vertices, or `None` where the report promises none; then the space
/// is as it was.
pub fn place_what_fits<T: Tables>(
    vertices: &mut AllocatorOf<T>,
    n: u32,
) -> Option<(Allocation<T::Index>, u32)>
    requires some { 1 ≤ n }
    ensures range { IfSome result (λ got. IsGrantOf got.1 got.0 vertices.new) }
    ensures most { IfSome result (λ got. got.1 ≡ min n (reported_largest vertices.old)) }
    ensures some { IsSome result ↔ (1 ≤ reported_largest vertices.old) }
    ensures step { MatchOption result (SameState vertices.old vertices.new)
        (λ got. Allocates got.1 vertices.old vertices.new (Some got.0)) }
    ensures kept { KeepsRanges vertices.old vertices.new }
{
    let fits = vertices.storage_report().largest_free_region;
    if fits == 0 {
        return None;
    }
    let size = n.min(fits);
    Some((vertices.allocate(size).unwrap(), size))
}

/// Allocates `n` units, and extends the space by `more` units where they are refused at first.
///
/// It returns `None` where the space cannot grow or the second request is refused. In the second case the
/// space has grown.
pub fn allocate_or_grow<T: Tables>(
    space: &mut AllocatorOf<T>,
    n: u32,
    more: u32,
) -> Option<Allocation<T::Index>>
    ensures range { IfSome result (λ h. IsGrantOf n h space.new) }
    ensures at_once { 1 ≤ n → n ≤ reported_largest space.old
        → IsSome result × Allocates n space.old space.new result }
    ensures refused { 1 ≤ n → result ≡ None → reported_largest space.new < n }
    ensures step { (IsSome result × Allocates n space.old space.new result)
        ⊎ ((v w : View) × Allocates n space.old v None × Extends more v w true
        × Allocates n w space.new result)
        ⊎ ((v : View) × Allocates n space.old v None × Extends more v space.new false × (result ≡ None)) }
    ensures kept { KeepsRanges space.old space.new }
{
    if let Some(allocation) = space.allocate(n) {
        return Some(allocation);
    }
    if space.extend(more) {
        space.allocate(n)
    } else {
        None
    }
}

/// Allocates a uniform buffer at a multiple of 256 units, as graphics devices require.
///
/// It returns `None` unless two more blocks may exist and `n + 255` is at most the reported largest free
/// region.
pub fn place_uniforms<T: Tables>(heap: &mut AllocatorOf<T>, n: u32) -> Option<Allocation<T::Index>>
    ensures step { Aligns n 256 heap.old heap.new result }
    ensures aligned { IfSome result (λ h. h.offset % 256 ≡ 0) }
    ensures granted { IsSome result
        ↔ ((length heap.old.blocks + 2 < heap.old.max_allocs) × (n + 255 ≤ reported_largest heap.old)) }
    ensures range { IfSome result (λ h. IsGrantOf n h heap.new) }
    ensures kept { KeepsRanges heap.old heap.new }
{
    heap.allocate_aligned(n, 256)
}

/// The units that one tenant of a space may hold, and those that it holds.
#[derive(Drop)]
pub struct Tenant {
    /// The largest number of units that it may hold.
    pub quota: u32,
    /// The number of units that it holds.
    pub held: u32,
}

/// Allocates `n` units for a tenant, within its quota.
///
/// It returns `None` where they exceed the quota or the space refuses them. Then the tenant and the space are
/// as they were.
pub fn charge<T: Tables>(
    space: &mut AllocatorOf<T>,
    tenant: &mut Tenant,
    n: u32,
) -> Option<Allocation<T::Index>>
    requires within { tenant.old.held ≤ tenant.old.quota }
    ensures step { MatchOption result (SameState space.old space.new)
        (λ h. Allocates n space.old space.new (Some h)) }
    ensures within { tenant.new.held ≤ tenant.new.quota }
    ensures quota { tenant.new.quota ≡ tenant.old.quota }
    ensures charged { IfSome result (λ _. tenant.new.held ≡ tenant.old.held + n) }
    ensures refused { result ≡ None → tenant.new ≡ tenant.old }
    ensures granted { 1 ≤ n → tenant.old.held + n ≤ tenant.old.quota
        → (IsSome result ↔ (n ≤ reported_largest space.old)) }
    ensures can_grant { IsSome result
        ↔ ((tenant.old.held + n ≤ tenant.old.quota) × CanGrant 1 n space.old) }
    ensures range { IfSome result (λ h. IsGrantOf n h space.new) }
    ensures kept { KeepsRanges space.old space.new }
{
    if n > tenant.quota - tenant.held {
        return None;
    }
    let allocation = space.allocate(n)?;
    tenant.held += n;
    Some(allocation)
}

/// Frees a tenant's range, and subtracts its units from those that the tenant holds. The handle has to be
/// live, and the tenant has to hold at least the units of its range.
pub fn refund<T: Tables>(
    space: &mut AllocatorOf<T>,
    tenant: &mut Tenant,
    allocation: Allocation<T::Index>,
)
    requires live { IsLive allocation.name space.old }
    requires held { size_of allocation.name space.old ≤ tenant.old.held }
    ensures quota { tenant.new.quota ≡ tenant.old.quota }
    ensures held { tenant.new.held + size_of allocation.name space.old ≡ tenant.old.held }
    ensures step { Frees allocation.name space.old space.new }
    ensures gone { range_of allocation.name space.new ≡ None }
    ensures others { KeepsOthers allocation.name space.old space.new }
{
    tenant.held -= space.allocation_size(allocation);
    space.free(allocation);
}

/// Allocates `n` units for one frame, reads the report, and frees the units again.
///
/// It returns the free units that the report has while they are granted (0 at the node limit), or `None`
/// where the request is refused. The space is then as it was, after at most 192 accesses to its tables, and
/// at most 8 for the report, which `count` counts; where it is granted at least 16, and at least 1 where
/// units are left.
pub fn frame<T: Tables>(space: &mut AllocatorOf<T>, n: u32, count: &mut Accesses) -> Option<u32>
    ensures granted { 1 ≤ n → (IsSome result ↔ (n ≤ reported_largest space.old)) }
    ensures can_grant { IsSome result ↔ CanGrant 1 n space.old }
    ensures beside { IfSome result (λ left. (w : View) × (g : Handle) × Allocates n space.old w (Some g)
        × (left ≡ reported_free w) × (1 ≤ reported_largest w → count.old + 1 ≤ count.new)) }
    ensures same { SameSpace space.old space.new }
    ensures accesses_kept { space.old.accesses ≤ space.new.accesses }
    ensures accesses_min { IsSome result → space.old.accesses + 16 ≤ space.new.accesses }
    ensures accesses_max { space.new.accesses ≤ space.old.accesses + 192 }
    ensures count_kept { count.old ≤ count.new }
    ensures count_max { count.new ≤ count.old + 8 }
{
    laws::is_well_formed(space);
    let scratch = space.allocate(n)?;
    let beside = laws::storage_report_counted(space, count).total_free_space;
    space.free(scratch);
    Some(beside)
}

/// Plays one list of commands with node indices of 16 bits and of 32 bits.
///
/// It returns the answers of both, which are equal, or `AllocError` where an allocation fails.
pub fn replay(
    alloc: Global,
    size: u32,
    max_allocs: u32,
    commands: &[Command],
) -> Result<(Vec<Answer>, Vec<Answer>), AllocError>
    requires low { 2 ≤ max_allocs }
    requires high { max_allocs + 1 < 65535 }
    requires alignments { All (λ c. IsTrue (has_valid_alignment c)) commands.now }
    ensures answers { IfOk result (λ both.
        map answer_view both.0.items ≡ answers commands.now (start size max_allocs)) }
    ensures alike { IfOk result (λ both. map answer_view both.0.items ≡ map answer_view both.1.items) }
{
    let narrow = play::<u16>(alloc, size, max_allocs, commands)?;
    let wide = play::<u32>(alloc, size, max_allocs, commands)?;
    Ok((narrow, wide))
}
