//! Where a request would begin, if it were made now. It reads the tables, and changes nothing.
ghost use Rattle.std.specs.Prelude.{◌≡◌, ◌↔◌, ◌+◌, ◌≤◌, ℕ, Some, IsSome};
ghost use Rattle.offset_allocator.specs.Accesses.{Costs};
ghost use Rattle.offset_allocator.specs.Relations.{Aligns};
ghost use Rattle.offset_allocator.specs.Requests.{CanGrant, blocks_needed, units_needed};
ghost use Rattle.offset_allocator.specs.Moving.Relocating.{WouldBegin};
ghost use Rattle.offset_allocator.specs.View.{View, Handle, padding_to};

use crate::accesses::Accesses;
use crate::small_float::uint_to_float_round_up;
use crate::tables::Tables;
use crate::{AllocatorOf, bins};

/// As `Allocator::would_begin`. The count grows by at most 4.
pub fn would_begin_counted<T: Tables>(
    allocator: &AllocatorOf<T>,
    size: u32,
    align: u32,
    count: &mut Accesses,
) -> Option<u32>
    requires alignment { 1 ≤ align }
    ensures granted { IsSome result ↔ CanGrant (blocks_needed align) (units_needed size align) allocator.now }
    ensures begins { (w : View) (g : Handle) → Aligns size align allocator.now w (Some g)
        → result ≡ Some g.offset }
    ensures starts { (o : ℕ) → CanGrant (blocks_needed align) (units_needed size align) allocator.now
        → WouldBegin (units_needed size align) allocator.now o → result ≡ Some (o + padding_to align o) }
    ensures accesses { Costs 0 4 count.old count.new }
{
    allocator.formed();
    let tables = &allocator.store.tables;
    tables.shape();
    if allocator.unused_nodes() <= align.min(2) {
        return None;
    }
    if size > u32::MAX - (align - 1) {
        return None;
    }
    let smallest = uint_to_float_round_up(size + (align - 1));
    let class = bins::find_at_or_above(tables, allocator.store.top_mask, smallest, count)?;
    let name = tables.head(class, count);
    let offset = tables.offset(name, count);
    Some(offset + (align - offset % align) % align)
}

impl<T: Tables> AllocatorOf<T> {
    /// Where the range would begin that `allocate_aligned(size, align)` would grant now, in units from the
    /// start of the space, or `None` where it would refuse. `align` is at least 1, and 1 asks for
    /// `allocate`. Nothing is taken; this request, made next, begins there. It makes at most 4 accesses to the
    /// tables.
    ///
    /// ```
    /// space.allocate(300);
    /// assert_eq!(space.would_begin(100, 1), Some(300));
    /// assert_eq!(space.would_begin(100, 256), Some(512));
    /// assert_eq!(space.would_begin(700, 256), None);
    /// assert_eq!(space.allocate_aligned(100, 256).unwrap().offset, 512);
    /// ```
    pub fn would_begin(&self, size: u32, align: u32) -> Option<u32>
        requires alignment { 1 ≤ align }
        // `None` exactly where the request would be refused.
        ensures granted { IsSome result
            ↔ CanGrant (blocks_needed align) (units_needed size align) self.now }
        // Whatever a grant leaves, it begins there.
        ensures begins { (w : View) (g : Handle) → Aligns size align self.now w (Some g)
            → result ≡ Some g.offset }
        // The block that such a grant takes begins at o.
        ensures starts { (o : ℕ) → CanGrant (blocks_needed align) (units_needed size align) self.now
            → WouldBegin (units_needed size align) self.now o → result ≡ Some (o + padding_to align o) }
    {
        would_begin_counted(self, size, align, &mut Accesses::new())
    }
}
