//! An asset pool whose loaders call back late, twice, or after the pool was emptied.

ghost use Rattle.std.specs.Prelude.{◌≡◌, Some, None, IfSome};
ghost use Rattle.offset_guarded.specs.Guard.{AreAlike, Guard, KeepsOthers, IsLive, Ticket, range_of};
ghost use Rattle.offset_uses.specs.Assets.{Loads, Unloads};

use offset_allocator::Tables;
use offset_guarded::{GuardedOf, Ticket};

/// Frees the range of an asset. It may be called any number of times, and at any time later: nothing else is
/// touched.
pub fn unload<T: Tables>(assets: &mut GuardedOf<T>, ticket: Ticket)
    ensures gone { range_of ticket assets.new ≡ None }
    ensures others { KeepsOthers ticket assets.old assets.new }
    ensures again { range_of ticket assets.old ≡ None → assets.new ≡ assets.old }
    ensures step { Unloads ticket assets.old assets.new }
{
    let _ = assets.free(ticket);
}

/// Gives an asset a new range of `size` units in place of its old one, which may be gone. It returns the new
/// ticket, or `None` where the request is refused; the old range is freed then too.
pub fn reload<T: Tables>(assets: &mut GuardedOf<T>, ticket: Ticket, size: u32) -> Option<Ticket>
    ensures range { IfSome result (λ t.
        range_of t assets.new ≡ Some (record { offset = t.offset; size = size })) }
    ensures others { (u : Ticket) → (AreAlike u ticket → ⊥) → IsLive u assets.old
        → range_of u assets.new ≡ range_of u assets.old }
    ensures step { (g : Guard) × Unloads ticket assets.old g × Loads size g assets.new result }
{
    unload(assets, ticket);
    assets.allocate(size)
}
