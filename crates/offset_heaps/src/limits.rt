//! How many heaps there may be, and how large. It touches no heap.
ghost use Rattle.std.specs.Prelude.{◌≡◌};
ghost use Rattle.offset_heaps.specs.Heaps.{least_units, usual_room, usual_size};

use offset_allocator::small_float::{float_to_uint, uint_to_float_round_down};

/// What the heaps of a `Heaps` are, and how many there may be.
#[derive(Clone, Copy, PartialEq, Eq, Debug)]
pub struct Limits {
    /// The most units of a usual heap, when it is made: a larger one has those of its request.
    pub size: u32,
    /// The units of the usual heap of number 0: `size`, and then all have that size; or at least 1 and at most
    /// `size`, and then the one of number 1 has twice as many, that of number 2 four times, and so on, up to
    /// `size`. Of `size: 1 << 26` and `first_size: 1 << 18` they have 256 Ki units, 512 Ki, 1 Mi, .. and 64 Mi
    /// from number 8 on: a program with little data takes little memory of the device.
    pub first_size: u32,
    /// The largest node limit of such a heap: at least 4, and at most `T::Index::MAX - 2`.
    pub max_allocs: u32,
    /// The node limit that such a heap begins with: `max_allocs`, and then no limit is ever raised; or at least 8
    /// and at most `max_allocs`, and then a heap has its limit doubled as its grants and extensions need nodes,
    /// up to `max_allocs`. It takes memory for the nodes of its limit alone: of `max_allocs: 65536` and
    /// `first_allocs: 64`, for what is live in it, and nobody has to guess how much that will be.
    pub first_allocs: u32,
    /// How many usual heaps there may be at a time: they have the numbers below this one.
    pub most: u32,
    /// How many larger heaps there may be at a time, each of the size of the request that it was made for:
    /// they have the numbers from `most` on. Together there are at most 4294967295. The node limit of a larger
    /// heap is 4, whatever the other limits are: at most two ranges are live in it.
    pub most_larger: u32,
}

/// The units of the usual heap of a number.
pub(crate) fn usual_size(limits: Limits, number: u32) -> u32
    ensures { result ≡ usual_size limits number }
{
    // doubled 32 times, even one unit is more than any size
    let doubled = (limits.first_size as u64) << number.min(32);
    doubled.min(limits.size as u64) as u32
}

/// The units that the heap of a number has at least.
pub(crate) fn least_units(limits: Limits, number: u32) -> u32
    ensures { result ≡ least_units limits number }
{
    if number < limits.most {
        usual_size(limits, number)
    } else {
        1
    }
}

/// The largest request that a usual heap grants when it is fresh.
pub(crate) fn usual_room(limits: Limits, number: u32) -> u32
    ensures { result ≡ usual_room limits number }
{
    let class = uint_to_float_round_down(usual_size(limits, number));
    float_to_uint(class)
}
