//! Laws: what holds of all heaps. Its functions do nothing, but that two look at each slot. With them are the calls
//! that leave all heaps as they are, with a count of their accesses.
ghost use Rattle.std.specs.Prelude.{ℕ, List, ◌≡◌, ◌↔◌, ◌+◌, ◌-◌, ◌*◌, ◌^◌, ◌<◌, ◌≤◌, ◌∷◌, None, Some, IfSome};
ghost use Rattle.std.specs.Prelude.{Bool, Err, IfErr, MatchOption, Option, Result, false, length, min, option_map, true};
ghost use Rattle.std.specs.Int.{◌∣◌};
ghost use Rattle.std.specs.List.{AllByRecursion};
ghost use Rattle.offset_allocator.specs.Ranges.{AreDisjoint, Range};
ghost use Rattle.offset_allocator.specs.Reporting.Reports.{IsReport};
ghost use Rattle.offset_allocator.specs.Requests.{AdmitsBlocks, CanGrant, blocks_needed, units_needed};
ghost use Rattle.offset_allocator.specs.declared.reports.StorageReport.{StorageReport};
ghost use Rattle.offset_allocator.specs.Moving.Compacting.{Move};
ghost use Rattle.offset_guarded.specs.Answers as tickets;
ghost use Rattle.offset_guarded.specs.Calls.{Event, Happens};
ghost use Rattle.offset_guarded.specs.Guard.{Guard, HasSerialLeft, IsRaised, Ticket};
ghost use Rattle.offset_heaps.specs.Heaps.{Heaps, room, AreAlike, AreTotals, heap_at, numbers, range_of, top_limit};
ghost use Rattle.offset_heaps.specs.Heaps.{Grants, IsFirstFit, IsLive, IsNext, IsRaisedAsNeeded, IsUsual, IsWhy};
ghost use Rattle.offset_heaps.specs.Heaps.{KeepsAlignments, MustRaiseIn, Puts, step_at};
ghost use Rattle.offset_heaps.specs.Heaps.{IsFirstSize, total, units_of_heap, usual_room, usual_size};
ghost use Rattle.offset_heaps.specs.Histories.{AreSteps, BeginsAt, IsGone, IsStep};
ghost use Rattle.offset_heaps.specs.Numbering.{AreOfLive, MeetsPlaces, first_from, live_places, next_place};
ghost use Rattle.offset_heaps.specs.Places.{Place, place_of, ticket_of};
ghost use Rattle.offset_heaps.specs.Spaces.{GoesByTheSteps, GoesOn, IsSpace, IsValid};
ghost use Rattle.offset_heaps.specs.State.{IsCopy, IsStateOf, IsWellFormed, SameHeaps};
ghost use Rattle.offset_heaps.specs.Relocating.{IsEmptiest, IsOwnAlign, NoneLive, offset_of, last_live_in, live_before_in};
ghost use Rattle.offset_heaps.specs.Relocating.{live_units_at, most_ranks, ranks, squares, size_of};
ghost use Rattle.offset_heaps.specs.Tight.{GrantsTight, IsRefusedForTight, IsServedTight, IsWhyTight};
ghost use Rattle.offset_heaps.specs.Twins.{AreTwins};
ghost use Rattle.offset_heaps.specs.Calls.{Allocates, AllocatesTight, Takes, TakesAll, TakesOn, TakesWhere, Call, Drops};
ghost use Rattle.offset_heaps.specs.Calls.{CompactsEach, DropsEmpty, GivesUp, GoAll, Goes, IsStarved, Reply};
ghost use Rattle.offset_heaps.specs.Asking.{IsRefusedFor, IsServed};
ghost use Rattle.offset_heaps.specs.Changing.{Alters};
ghost use Rattle.offset_heaps.specs.declared.limits.Limits.{Limits};
ghost use Rattle.offset_heaps.specs.declared.place.Granted.{Granted};
ghost use Rattle.offset_heaps.specs.declared.refusal.Refusal.{Refusal};
ghost use Rattle.offset_heaps.specs.declared.totals.Totals.{Totals};
ghost use Rattle.offset_heaps.specs.declared.refusal.Refusal.TheVariants.{Memory};

use crate::HeapsOf;
pub use crate::foretell::refusal_aligned_counted;
pub use crate::heap_numbers::{first_heap_counted, heap_after_counted};
pub use crate::relocate::emptiest_counted;
pub use crate::tight::refusal_tight_aligned_counted;
use offset_allocator::Tables;
use offset_allocator::laws::{is_well_formed, ranges_are_disjoint};

/// Two live places in the heap of this number, of two grants, have no unit in common. So live places are
/// apart: they are in two heaps, or share no unit of one.
pub fn places_are_apart<T: Tables>(heaps: &HeapsOf<T>, number: u32)
    ensures { (p q : Place) (r s : Range) → p.heap ≡ number → q.heap ≡ number → (AreAlike p q → ⊥)
        → range_of p heaps.now ≡ Some r → range_of q heaps.now ≡ Some s → AreDisjoint r s }
{
    if let Some(heap) = heaps.heap(number) {
        ranges_are_disjoint(heap.allocator());
    }
}

/// While it has a serial left, a heap has room for one more block and exactly the units that its report would have
/// under its largest node limit: those of its own report, where its space may have one more block, and of any
/// heap whose limit is the largest one that it may have.
pub fn room_is_reported()
    ensures largest { (limits : Limits) (k : ℕ) (g h : Guard) (r : StorageReport) → HasSerialLeft g
        → IsRaised (top_limit limits k g) g h → IsReport r h.space → room limits k 1 g ≡ r.largest_free_region }
    ensures own { (limits : Limits) (k : ℕ) (g : Guard) (r : StorageReport) → HasSerialLeft g
        → g.space.max_allocs ≤ top_limit limits k g
        → (g.space.max_allocs < top_limit limits k g → AdmitsBlocks 1 g.space)
        → IsReport r g.space → room limits k 1 g ≡ r.largest_free_region }
{}

/// A heap has room for exactly what it grants: where it has a serial left, what its space can grant under its
/// largest node limit, with as many more blocks as the request may add. For the one or two blocks of a request it
/// is what its space can grant once its limit is raised as the request needs it.
pub fn room_is_granted<T: Tables>(heaps: &HeapsOf<T>, number: u32)
    ensures largest { IfSome (heap_at number heaps.now) (λ g. (h : Guard) (blocks units : ℕ)
        → IsRaised (top_limit heaps.now.limits number g) g h → 1 ≤ units
        → (units ≤ room heaps.now.limits number blocks g) ↔ (HasSerialLeft g × CanGrant blocks units h.space)) }
    ensures raised { IfSome (heap_at number heaps.now) (λ g. (h : Guard) (blocks units : ℕ) → blocks ≤ 2
        → IsRaisedAsNeeded heaps.now.limits number blocks g h → 1 ≤ units
        → (units ≤ room heaps.now.limits number blocks g) ↔ (HasSerialLeft g × CanGrant blocks units h.space)) }
{
    // what is read recalls the invariant
    let _ = &heaps.made;
    if let Some(heap) = heaps.heap(number) {
        is_well_formed(heap.allocator());
    }
}

/// A usual heap has room for exactly as much as it would have under the largest node limit, however small its own
/// is: so which heap grants a request, and whether one does, does not depend on the limit that heaps begin with.
pub fn room_is_that_of_the_largest_limit()
    ensures { (limits : Limits) (k : ℕ) (g h : Guard) (blocks : ℕ) → k < limits.most
        → IsRaised limits.max_allocs g h → room limits k blocks h ≡ room limits k blocks g }
{}

/// At most one reason of a refusal holds of a request. Where a heap has room for it, none holds but that memory
/// was refused, and then the node limit of the first such heap has to be raised; and where another may be made
/// for it, none but that its memory was refused.
pub fn reasons_exclude_one_another()
    ensures one { (size align : ℕ) (hs : Heaps) (r s : Refusal) → IsWhy size align hs r
        → IsWhy size align hs s → r ≡ s }
    ensures found { (size align k : ℕ) (hs : Heaps) (r : Refusal) → 1 ≤ size
        → IsFirstFit (blocks_needed align) (units_needed size align) k hs → IsWhy size align hs r
        → (r ≡ Memory) × MustRaiseIn hs.limits k (blocks_needed align) (heap_at k hs) }
    ensures made { (size align k : ℕ) (hs : Heaps) (r : Refusal) → 1 ≤ size
        → IsNext size k hs → IsWhy size align hs r → r ≡ Memory }
    ensures tight { (size align : ℕ) (hs : Heaps) (r s : Refusal) → IsWhyTight size align hs r
        → IsWhyTight size align hs s → r ≡ s }
{}

/// What `refusal_aligned` says is what the same request is answered then: refused for this reason, or granted,
/// or refused its memory. So `refusal` and `allocate`, with the alignment 1.
pub fn refusals_are_foretold()
    ensures { (size align : ℕ) (hs ks : Heaps) (why : Option Refusal) (r : Result Granted Refusal)
        → MatchOption why (IsServed size align hs) (IsRefusedFor size align hs) → Allocates size align hs ks r
        → MatchOption why (IfErr r (λ w. w ≡ Memory)) (λ w. r ≡ Err w) }
{}

/// What `refusal_tight_aligned` says is what the same tight request is answered then, as `refusal_aligned` of
/// other requests. So `refusal_tight` and `allocate_tight`, with the alignment 1.
pub fn tight_refusals_are_foretold()
    ensures { (size align : ℕ) (hs ks : Heaps) (why : Option Refusal) (r : Result Granted Refusal)
        → MatchOption why (IsServedTight size align hs) (IsRefusedForTight size align hs)
        → AllocatesTight size align hs ks r
        → MatchOption why (IfErr r (λ w. w ≡ Memory)) (λ w. r ≡ Err w) }
{}

/// A heap that is made for a request is the usual one of its number where the request is usual, and else has
/// the units of the request: what `units_of_heap` returns after it.
pub fn new_heaps_have_their_units()
    ensures usual { (size align : ℕ) (hs ks : Heaps) (g : Granted) → Grants size align hs ks g
        → g.is_new ≡ true → IsUsual size hs
        → option_map units_of_heap (heap_at g.place.heap ks) ≡ Some (usual_size hs.limits g.place.heap) }
    ensures larger { (size align : ℕ) (hs ks : Heaps) (g : Granted) → Grants size align hs ks g
        → g.is_new ≡ true → (IsUsual size hs → ⊥) → option_map units_of_heap (heap_at g.place.heap ks) ≡ Some size }
{}

/// Usual heaps double: that of number 0 has `first_size` units, and each later one twice as many as the one
/// before it, up to `size`. Where `first_size` is `size`, all have that size. A request is usual exactly where
/// the usual heap of some number has room for it when it is fresh.
pub fn usual_heaps_double()
    ensures first { (limits : Limits) → IsFirstSize limits → usual_size limits 0 ≡ limits.first_size }
    ensures next { (limits : Limits) (k : ℕ)
        → usual_size limits (k + 1) ≡ min (2 * usual_size limits k) limits.size }
    ensures alike { (limits : Limits) (k : ℕ) → limits.first_size ≡ limits.size
        → usual_size limits k ≡ limits.size }
    ensures usual { (size : ℕ) (hs : Heaps) → hs.limits.size < 2 ^ 32
        → IsUsual size hs ↔ ((k : ℕ) × (k < hs.limits.most) × (size ≤ usual_room hs.limits k)) }
{}

/// There is a slot for each number, and no heap has a realm that a later one will have: theirs are above
/// `made`.
pub fn realms_are_given<T: Tables>(heaps: &HeapsOf<T>)
    ensures numbers { length heaps.now.slots ≡ numbers heaps.now }
    ensures realms { (k : ℕ) → IfSome (heap_at k heaps.now) (λ g. g.realm ≤ heaps.now.made) }
{
    let _ = &heaps.made;
}

/// No place of a heap that was dropped is ever live again, whatever calls follow: what `drop_empty`,
/// `drop_heap` and `give_up` leave of its number, each later call keeps.
pub fn dropped_heaps_stay_dropped<T: Tables>(heaps: &HeapsOf<T>)
    ensures never { (p : Place) (g : Guard) (dropped : Heaps) (later : List Heaps)
        → heap_at p.heap heaps.now ≡ Some g → p.heap_realm ≡ g.realm → Puts p.heap None heaps.now dropped
        → AreSteps dropped later → AllByRecursion (λ hs. IsLive p hs → ⊥) (dropped ∷ later) }
    ensures step { (p : Place) (hs ks : Heaps) → IsGone p hs → IsStep hs ks → IsGone p ks }
    // So does each call on one heap, also one that keeps no alignment: a heap keeps its realm.
    ensures on_heap { (p : Place) (k : ℕ) (hs ks : Heaps) → IsGone p hs → Alters k (λ g h. h.realm ≡ g.realm) hs ks
        → IsGone p ks }
    ensures dead { (p : Place) (hs : Heaps) → IsGone p hs → IsLive p hs → ⊥ }
{
    let _ = &heaps.made;
}

/// Every alignment is kept, by each call and by one after the other, of heaps and on one of them. Where an aligned request,
/// tight or not, granted a range at a multiple of a number, that range begins at a multiple of it as long as it lives,
/// whatever calls follow. So does the second range that `relocate` grants, at what divides the step of the heap and the
/// offset of the first one.
///
/// A step is what one call leaves. Each call of heaps is one, and each of `HeapMut`, except those whose names say that they keep
/// no alignment, and those by a step that is no multiple of that of the heap.
pub fn alignments_are_kept()
    ensures call { (c : Call) (hs ks : Heaps) (r : Reply) → IsValid c → GoesByTheSteps c hs → Takes c hs ks r → IsStep hs ks }
    ensures step { (hs ks : Heaps) → IsStep hs ks → KeepsAlignments hs ks }
    ensures lasts { (size align a : ℕ) (grant : Granted) (hs ks : Heaps) (later : List Heaps) → IsWellFormed hs
        → Grants size align hs ks grant → a ∣ align → a ∣ grant.offset → AreSteps ks later
        → AllByRecursion (BeginsAt a grant.place) (ks ∷ later) }
    ensures lasts_tight { (size align a : ℕ) (grant : Granted) (hs ks : Heaps) (later : List Heaps) → IsWellFormed hs
        → GrantsTight size align hs ks grant → a ∣ align → a ∣ grant.offset → AreSteps ks later
        → AllByRecursion (BeginsAt a grant.place) (ks ∷ later) }
    // A call of tickets on the heap of a number leaves a step, and the ranges that it grants keep alignments too.
    ensures on_heap { (k : ℕ) (e : Event) (hs ks : Heaps) → Alters k (Happens e) hs ks
        → IsStep hs ks }
    ensures answered_on_heap { (k : ℕ) (c : tickets.Call) (a : tickets.Answer) (ms : List Move) (hs ks : Heaps)
        → TakesOn k c hs ks a ms → ((g : Guard) → heap_at k hs ≡ Some g → tickets.GoesByTheStep c g) → IsStep hs ks }
    ensures lasts_on_heap { (k n align a : ℕ) (t : Ticket) (hs ks : Heaps) (later : List Heaps) → IsWellFormed hs
        → Alters k (λ g h. tickets.Requests n g h (Some t) × tickets.Aligns align g h (Some t)) hs ks → a ∣ align
        → AreSteps ks later → AllByRecursion (BeginsAt a (place_of k hs.realm t)) (ks ∷ later) }
    ensures relocated { (p : Place) (align a : ℕ) → (hs : Heaps) → IsOwnAlign p hs align → a ∣ step_at p.heap hs
        → a ∣ offset_of p hs → a ∣ align }
{}

/// Ranges that go from heap to heap, by `relocate` or `relocate_aligned`, each old range freed before the
/// next goes, come to an end, in whatever order they go. Each that has units adds at least 2 to the sum of the
/// squares of the heaps' live units, which is at most that of the squares of their units. One of no units leaves
/// that sum as it is, and adds to that of the ranks of the heaps, one for each live range: between two ranges that
/// have units, only so many of no units go.
///
/// From a heap of `a` live units to one of `b`, `u` units add `2 u (b - a) + 2 u²` to the sum of the squares.
pub fn relocations_end()
    ensures grows { (p q : Place) (hs ks : Heaps) → IsWellFormed hs → Goes p q hs ks → squares ks ≡ squares hs
        + 2 * (size_of p hs * (live_units_at q.heap hs - live_units_at p.heap hs)) + 2 * (size_of p hs * size_of p hs) }
    ensures fuller { (p q : Place) (hs ks : Heaps) → Goes p q hs ks
        → live_units_at p.heap hs ≤ live_units_at q.heap hs }
    ensures none { (p q : Place) (hs ks : Heaps) → IsWellFormed hs → Goes p q hs ks → size_of p hs ≡ 0
        → ranks hs < ranks ks }
    ensures ends { (n : ℕ) (ps : List Place) (hs ks : Heaps) → IsWellFormed hs → GoAll n hs ps ks
        → squares hs + 2 * n ≤ total (λ g. units_of_heap g * units_of_heap g) hs.slots }
    ensures all { (n : ℕ) (ps : List Place) (hs ks : Heaps) → IsWellFormed hs → GoAll n hs ps ks
        → squares hs * (most_ranks hs + 1) + ranks hs + length ps
        ≤ total (λ g. units_of_heap g * units_of_heap g) hs.slots * (most_ranks hs + 1) + most_ranks hs }
{}

/// A walk from `first_place` on by `place_after` meets the places of all live ranges, by the numbers of their
/// heaps, and in a heap in space order: each live place once, and no other. It looks at each slot.
pub fn each_live_place_is_met_once<T: Tables>(heaps: &HeapsOf<T>)
    ensures walk { MeetsPlaces (λ p. next_place p heaps.now) (first_from 0 heaps.now)
        (live_places heaps.now) }
    ensures once { AreOfLive (live_places heaps.now) heaps.now }
{
    a_state_is_read_back(heaps);
}

// The realm of the heap that was made last.
fn made<T: Tables>(heaps: &HeapsOf<T>) -> u32
    ensures { result ≡ heaps.now.made }
{
    heaps.made
}

/// Bytes are those of a state of one `Heaps` at most, however many accesses were counted; it has one list of
/// bytes; and those of these are refused by no `read_state` that admits their limits. So `read_state` of what
/// `write_state` returned are the same heaps, and each place is live there exactly if it is live here. It
/// looks at each slot.
pub fn a_state_is_read_back<T: Tables>(heaps: &HeapsOf<T>)
    ensures one { (hs ks : Heaps) (bytes : List ℕ) → IsWellFormed hs → IsWellFormed ks
        → IsStateOf hs bytes → IsStateOf ks bytes → SameHeaps hs ks }
    ensures bytes { (hs : Heaps) (a b : List ℕ) → AllByRecursion (λ x. x < 256) a
        → AllByRecursion (λ x. x < 256) b → IsStateOf hs a → IsStateOf hs b → a ≡ b }
    ensures formed { IsWellFormed heaps.now }
    ensures limit { heaps.now.limits.max_allocs + 1 < T.Index.MAX }
    ensures heaps { (k : ℕ) → IfSome (heap_at k heaps.now) (λ g. g.space.max_allocs + 1 < T.Index.MAX) }
{
    // what is read recalls the invariant, and that numbers have 32 bits
    let limits = heaps.limits;
    let _ = (heaps.realm(), made(heaps));
    for number in 0..limits.most + limits.most_larger {
        if let Some(heap) = heaps.heap(number) {
            offset_guarded::laws::a_state_is_read_back(heap);
        }
    }
}

/// Heaps and a call decide the result, and the heaps that are left. Heaps are twins where their spaces are in
/// the same state, and live names have the same serials, however many accesses were counted: of twins a call
/// returns the same, places included, and leaves twins. Only where memory is refused to a request
/// of one of them, or to its `extend_heap`, the other may have a heap or nodes more.
pub fn a_state_decides_each_step()
    // each call, those of tickets on one heap too, with their moves
    ensures call { (c : Call) (hs hs' ks ks' : Heaps) → IsWellFormed hs → AreTwins hs hs' → (r r' : Reply)
        → Takes c hs ks r → Takes c hs' ks' r' → (IsStarved r → ⊥) → (IsStarved r' → ⊥)
        → (r ≡ r') × AreTwins ks ks' }
    ensures drop_empty { (keep : ℕ) (hs hs' ks ks' : Heaps) → AreTwins hs hs' → (r r' : Option ℕ)
        → DropsEmpty keep hs ks r → DropsEmpty keep hs' ks' r' → (r ≡ r') × AreTwins ks ks' }
    ensures drop_heap { (k : ℕ) (hs hs' ks ks' : Heaps) → AreTwins hs hs' → (r r' : Bool)
        → Drops k hs ks r → Drops k hs' ks' r' → (r ≡ r') × AreTwins ks ks' }
    ensures give_up { (k : ℕ) (hs hs' ks ks' : Heaps) → AreTwins hs hs' → (r r' : Bool)
        → GivesUp k hs ks r → GivesUp k hs' ks' r' → (r ≡ r') × AreTwins ks ks' }
    ensures compact_heap { (k : ℕ) (hs hs' ks ks' : Heaps) → AreTwins hs hs' → (r r' : Bool)
        → TakesWhere k tickets.Call.Compact (tickets.Answer.Was_done false) hs ks (tickets.Answer.Was_done r)
        → TakesWhere k tickets.Call.Compact (tickets.Answer.Was_done false) hs' ks' (tickets.Answer.Was_done r')
        → (r ≡ r') × AreTwins ks ks' }
    ensures compact { (hs hs' ks ks' : Heaps) → AreTwins hs hs' → (r r' : Bool)
        → CompactsEach hs ks r → CompactsEach hs' ks' r' → (r ≡ r') × AreTwins ks ks' }
    ensures range { (hs hs' : Heaps) (p : Place) → AreTwins hs hs' → range_of p hs' ≡ range_of p hs }
    ensures emptiest { (hs hs' : Heaps) → AreTwins hs hs' → (r r' : Option ℕ)
        → MatchOption r (NoneLive (numbers hs) hs.slots) (IsEmptiest (numbers hs) hs.slots)
        → MatchOption r' (NoneLive (numbers hs') hs'.slots) (IsEmptiest (numbers hs') hs'.slots) → r ≡ r' }
    ensures totals { (hs hs' : Heaps) → AreTwins hs hs' → (r r' : Totals) → AreTotals r hs.limits hs.slots
        → AreTotals r' hs'.limits hs'.slots → r ≡ r' }
    ensures last_live { (k : ℕ) (hs hs' : Heaps) → IsWellFormed hs → AreTwins hs hs'
        → last_live_in k hs'.realm (heap_at k hs') ≡ last_live_in k hs.realm (heap_at k hs) }
    ensures live_before { (p : Place) (hs hs' : Heaps) → IsWellFormed hs → AreTwins hs hs' → IsLive p hs
        → live_before_in p.heap hs'.realm (ticket_of p) (heap_at p.heap hs')
        ≡ live_before_in p.heap hs.realm (ticket_of p) (heap_at p.heap hs) }
{}

/// Each heap is a space with tickets. Whatever call of heaps is made, each number has the heap that it had, after some calls of
/// tickets, or none; or, where it had none, a new one: a fresh space, after some calls of tickets. So after any list of calls
/// none of which returns out of memory, each heap is what a list of calls of tickets makes of a fresh space. Between these a
/// node limit may be raised, as `GuardedOf::raised` does.
///
/// It says that there are such calls, not which: that is in the contract of each call, with when a heap is dropped.
pub fn each_heap_is_a_space()
    ensures call { (c : Call) (hs ks : Heaps) (r : Reply) → IsValid c → Takes c hs ks r
        → (k : ℕ) → GoesOn (heap_at k hs) (heap_at k ks) }
    ensures calls { (cs : List Call) (rs : List Reply) (hs ks : Heaps) → AllByRecursion IsValid cs
        → ((k : ℕ) → IfSome (heap_at k hs) IsSpace) → TakesAll hs cs rs ks → (k : ℕ) → IfSome (heap_at k ks) IsSpace }
{}

/// A copy and the heaps that it was made of answer each list of calls alike, and so do heaps that differ in
/// the counts of accesses alone, as those that were read from the bytes of a state and those that it was
/// written of; while no request is refused because its memory was.
pub fn a_copy_continues_alike()
    ensures copy { (hs ks : Heaps) → IsCopy hs ks → AreTwins hs ks }
    ensures read { (hs ks : Heaps) → SameHeaps hs ks → AreTwins hs ks }
    ensures calls { (cs : List Call) (hs hs' ks ks' : Heaps) → IsWellFormed hs → AreTwins hs hs'
        → (rs rs' : List Reply) → TakesAll hs cs rs ks → TakesAll hs' cs rs' ks'
        → (rs ≡ rs') × AreTwins ks ks' }
{}
