//! Which heaps have room, which are empty, and which numbers have no heap. It touches its own rows alone, and
//! reads one slot.
ghost use Rattle.std.specs.Prelude.{ℕ, ◌≡◌, ◌+◌, ◌-◌, ◌*◌, ◌^◌, ◌<◌, ◌≤◌, IfOk, length, max};
ghost use Rattle.std.specs.Prelude.{option_copied, replicate};
ghost use Rattle.offset_allocator.specs.Accesses.{Costs};
ghost use Rattle.offset_heaps.specs.Soundness.{spare_of};
ghost use Rattle.offset_heaps.specs.Maxima.{IsFirst};

use crate::heap::{is_empty_heap, rooms};
use crate::limits::{Limits, usual_room};
use crate::marks::Marks;
use crate::maxima::{Maxima, levels_for};
use crate::slots::Slots;
use offset_allocator::{Accesses, Tables};
use offset_guarded::GuardedOf;
use std::alloc::{AllocError, Global};

/// Four keys of each number: the largest requests that its heap grants where it may add one and two blocks,
/// or 0; where it has no heap, the largest request that one made for it would grant; and whether its heap is
/// empty.
#[derive(Drop)]
pub(crate) struct Index {
    pub(crate) one: Maxima,
    pub(crate) two: Maxima,
    pub(crate) spare: Maxima,
    pub(crate) empty: Marks,
}

/// The key of a number for a larger heap that has none: no heap grants that much.
pub(crate) const LARGER_KEY: u32 = 4294967295;

// The key of a number that has no heap, or 0 where it has one.
fn spare<T: Tables>(heap: Option<&GuardedOf<T>>, number: u32, limits: Limits) -> u32
    ensures { result ≡ spare_of limits number (option_copied heap.entry) }
{
    if heap.is_some() {
        0
    } else if number < limits.most {
        usual_room(limits, number)
    } else if (number as u64) < limits.most as u64 + limits.most_larger as u64 {
        LARGER_KEY
    } else {
        0
    }
}

impl Index {
    ghost use Rattle.offset_heaps.specs.Soundness.{IsNoted, IsWide};

    /// Keys for `count` numbers, each 0.
    pub(crate) fn with_room(alloc: Global, count: u32) -> Result<Self, AllocError>
        ensures one { IfOk result (λ i. i.one.keys ≡ replicate (2 ^ i.one.height) 0) }
        ensures two { IfOk result (λ i. (i.two.keys ≡ i.one.keys) × (i.two.height ≡ i.one.height)) }
        ensures spare { IfOk result (λ i. (i.spare.keys ≡ i.one.keys) × (i.spare.height ≡ i.one.height)) }
        ensures empty { IfOk result (λ i. (i.empty.keys ≡ i.one.keys) × (i.empty.height ≡ i.one.height)) }
        ensures room { IfOk result (λ i. count ≤ 2 ^ i.one.height) }
        ensures least { IfOk result (λ i. (bits : ℕ) → count ≤ 2 ^ bits → i.one.height ≤ bits) }
    {
        let (height, places) = levels_for(count);
        Ok(Index {
            one: Maxima::with_height(alloc, height, places)?,
            two: Maxima::with_height(alloc, height, places)?,
            spare: Maxima::with_height(alloc, height, places)?,
            empty: Marks::with_height(alloc, height, places)?,
        })
    }

    /// Notes what the heap of a number is.
    pub(crate) fn note<T: Tables>(
        &mut self,
        slots: &Slots<T>,
        number: u32,
        limits: Limits,
        count: &mut Accesses,
    )
        requires there { number < length slots.now }
        requires wide { IsWide slots.now self.old }
        ensures here { IsNoted limits slots.now self.new number }
        ensures others { (k : ℕ) → (k ≡ number → ⊥) → IsNoted limits slots.now self.old k
            → IsNoted limits slots.now self.new k }
        ensures wide { IsWide slots.now self.new }
        ensures levels { self.new.one.height ≡ self.old.one.height }
        ensures accesses { Costs 5 (12 * self.old.one.height + 9) count.old count.new }
    {
        let heap = slots.at(number, count);
        let (one, two) = rooms(heap, number, limits);
        self.one.set(number, one, count);
        self.two.set(number, two, count);
        self.spare.set(number, spare(heap, number, limits), count);
        self.empty.set(number, is_empty_heap(heap), count);
    }

    /// The first number whose heap has room for a request of these units at a multiple of `align`.
    #[inline]
    pub(crate) fn first_fit(&self, units: u64, align: u32, count: &mut Accesses) -> Option<u32>
        requires { 1 ≤ units }
        ensures one { align ≡ 1 → IsFirst units self.now.one.keys result }
        ensures two { (align ≡ 1 → ⊥) → IsFirst units self.now.two.keys result }
        ensures accesses { Costs 1 (1 + max self.now.one.height self.now.two.height) count.old count.new }
    {
        if align == 1 {
            self.one.first_at_least(units, count)
        } else {
            self.two.first_at_least(units, count)
        }
    }
}
