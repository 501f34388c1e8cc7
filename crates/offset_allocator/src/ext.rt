//! What the allocator's users need of size classes. It touches no table.

ghost use Rattle.std.specs.Prelude.{◌≡◌, ◌≤◌};
ghost use Rattle.offset_allocator.specs.Classes.{value, up};

use crate::small_float::{float_to_uint, uint_to_float_round_up};

/// The smallest size in units of a fresh space, with a node limit of at least 3, that grants a request of
/// this size. The size has to be at most 4026531840: no space grants more.
///
/// ```
/// assert_eq!(ext::min_allocator_size(1000), 1024);
/// let mut space = Allocator::<u32>::new(alloc, 1024)?;
/// assert!(space.allocate(1000).is_some());
/// ```
pub fn min_allocator_size(needed_object_size: u32) -> u32
    requires { needed_object_size ≤ 4026531840 }
    ensures { result ≡ value (up needed_object_size) }
{
    float_to_uint(uint_to_float_round_up(needed_object_size))
}
