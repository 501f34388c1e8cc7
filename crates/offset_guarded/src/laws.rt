//! What holds of every guarded allocator. Its functions do nothing. With them are questions with a count of their
//! accesses.
ghost use Rattle.std.specs.Int.{◌∣◌};
ghost use Rattle.std.specs.Prelude.{◌≡◌, ◌+◌, ◌<◌, ℕ, Bool, List, Option, Some};
ghost use Rattle.std.specs.List.{AllByRecursion};
ghost use Rattle.offset_allocator.specs.Moving.Compacting.{IsCalledWith, Move};
ghost use Rattle.offset_allocator.specs.Ranges.{Range};
ghost use Rattle.offset_allocator.specs.View as view;
ghost use Rattle.offset_guarded.specs.Answers.{Aligns, Answer, Answers, Call, Relocates, Requests};
ghost use Rattle.offset_guarded.specs.Answers.{Compacts, CompactsBy, CompactsUnaligned, CompactsWithin, CompactsWithinBy};
ghost use Rattle.offset_guarded.specs.Answers.{MakesRoom, MakesRoomBy, MakesRoomUnaligned};
ghost use Rattle.offset_guarded.specs.Answers.Answer.{Nothing, Progressed, Room_made, Was_done};
ghost use Rattle.offset_guarded.specs.Answers.Call.{Compact, Compact_by, Compact_unaligned, Compact_within, Compact_within_by};
ghost use Rattle.offset_guarded.specs.Answers.Call.{Make_room, Make_room_by, Make_room_unaligned};
ghost use Rattle.offset_allocator.specs.declared.moves.over_frames.Progress.{Progress};
ghost use Rattle.offset_allocator.specs.declared.moves.room.RoomCost.{RoomCost};
ghost use Rattle.offset_guarded.specs.Calls.{AllHappen, Continues, Event, Happens, HasAsked, KeepsAsked};
ghost use Rattle.offset_guarded.specs.Guard.{Guard, IsCopy, Ticket, range_of};
ghost use Rattle.offset_guarded.specs.State.{IsStateOf, IsWellFormed, SameGuard};
ghost use Rattle.offset_guarded.specs.Twins.{IsTwin};

use crate::GuardedOf;
pub use crate::allocate::would_begin_counted;
pub use crate::walks::in_the_way_counted;
use offset_allocator::{Tables, laws};

/// Bytes are those of a state of one guarded allocator at most, however many accesses were counted; it has
/// one list of bytes; and those of this one are refused by no `read_state` that admits its node limit. So
/// `read_state` of what `write_state` returned is the same guarded allocator: with the same space, the same
/// realm, serials and step, and so with the same live tickets.
pub fn a_state_is_read_back<T: Tables>(guarded: &GuardedOf<T>)
    ensures one { (g h : Guard) (bytes : List ℕ) → IsWellFormed g → IsWellFormed h
        → IsStateOf g bytes → IsStateOf h bytes → SameGuard g h }
    ensures bytes { (g : Guard) (a b : List ℕ) → AllByRecursion (λ x. x < 256) a
        → AllByRecursion (λ x. x < 256) b → IsStateOf g a → IsStateOf g b → a ≡ b }
    ensures formed { IsWellFormed guarded.now }
    ensures admitted { guarded.now.space.max_allocs + 1 < T.Index.MAX }
{
    laws::a_state_is_read_back(&guarded.space);
    // what is read recalls the invariant, and that a realm and a step have 32 bits
    let _ = guarded.realm();
    let _ = guarded.step_number();
}

/// For every list of calls of tickets, with their answers, without those whose names say that they keep no alignment: a
/// range that was granted at a multiple of an alignment that was asked for begins at one as long as it lives, whatever was
/// granted, freed, moved, copied, stored and read. Calls that take a step are in the list where that is a multiple of the
/// step of the space, and so is `relocate_unaligned`: it moves no range, and of the second one nothing is said.
pub fn alignments_are_kept()
    // What each call leaves continues what there was: it keeps the realm, makes no earlier ticket live, and each range keeps,
    // while it is live, each alignment that divides the step.
    ensures each { (e : Event) (g h : Guard) → Happens e g h → Continues g h }
    // So it keeps each alignment that was asked for.
    ensures kept { (g h : Guard) → Continues g h → KeepsAsked g h }
    // A grant at a multiple of an alignment has it, and a second range by the step has those of the first one.
    ensures granted { (n align : ℕ) (g h : Guard) (t : Ticket) → Requests n g h (Some t) → Aligns align g h (Some t)
        → HasAsked t align h }
    ensures second { (t u : Ticket) (a : ℕ) (g h : Guard) → Relocates t g h (Some u) → HasAsked t a g
        → HasAsked u a h }
    // So, whatever calls follow the grant, its range begins at a multiple as long as it lives.
    ensures lists { (n align : ℕ) (g h i : Guard) (t : Ticket) (es : List Event) → Requests n g h (Some t)
        → Aligns align g h (Some t) → AllHappen h es i → (r : Range) → range_of t i ≡ Some r → align ∣ r.offset }
{}

/// Each call that moves ranges reports a list of moves, whatever its closure does with them: so its contract gives `Answers`, and
/// the laws hold of the call. Of a call without a closure the contract is `Answers` as it stands.
pub fn moves_are_listed<T: Tables, F: FnMut(offset_allocator::Move<T::Index>)>()
    ensures compact { (f f' : F) (g h : Guard) (r : Bool)
        → Compacts (IsCalledWith T.Index.NonMax.number (λ f range g. F.step f range tt g))
        f g h f' r
        → (ms : List Move) × Answers Compact g h (Was_done r) ms }
    ensures by { (f f' : F) (g h : Guard) (s : ℕ) (r : Bool)
        → CompactsBy (IsCalledWith T.Index.NonMax.number (λ f range g. F.step f range tt g))
        s f g h f' r
        → (ms : List Move) × Answers (Compact_by s) g h (Was_done r) ms }
    ensures unaligned { (f f' : F) (g h : Guard)
        → CompactsUnaligned (IsCalledWith T.Index.NonMax.number (λ f range g. F.step f range tt g))
        f g h f'
        → (ms : List Move) × Answers Compact_unaligned g h Nothing ms }
    ensures within { (f f' : F) (g h : Guard) (from units ranges : ℕ) (r : Option Progress)
        → CompactsWithin (IsCalledWith T.Index.NonMax.number (λ f range g. F.step f range tt g))
        from units ranges f g h f' r
        → (ms : List Move) × Answers (Compact_within from units ranges) g h (Progressed r) ms }
    ensures within_by { (f f' : F) (g h : Guard) (s from units ranges : ℕ) (r : Option Progress)
        → CompactsWithinBy (IsCalledWith T.Index.NonMax.number (λ f range g. F.step f range tt g))
        s from units ranges f g h f' r
        → (ms : List Move) × Answers (Compact_within_by s from units ranges) g h (Progressed r) ms }
    ensures room { (f f' : F) (g h : Guard) (n align : ℕ) (r : Option RoomCost)
        → MakesRoom (IsCalledWith T.Index.NonMax.number (λ f range g. F.step f range tt g))
        n align f g h f' r
        → (ms : List Move) × Answers (Make_room n align) g h (Room_made r) ms }
    ensures room_by { (f f' : F) (g h : Guard) (n align s : ℕ) (r : Option RoomCost)
        → MakesRoomBy (IsCalledWith T.Index.NonMax.number (λ f range g. F.step f range tt g))
        n align s f g h f' r
        → (ms : List Move) × Answers (Make_room_by n align s) g h (Room_made r) ms }
    ensures room_unaligned { (f f' : F) (g h : Guard) (n : ℕ) (r : Option RoomCost)
        → MakesRoomUnaligned (IsCalledWith T.Index.NonMax.number (λ f range g. F.step f range tt g))
        n f g h f' r
        → (ms : List Move) × Answers (Make_room_unaligned n) g h (Room_made r) ms }
{}

/// A space with tickets and a call decide what is returned, which moves are seen, and what is left. Two are twins where
/// their spaces are in the same state, and live names have the same serials, however many accesses were counted: of twins
/// a call returns the same, tickets included, and leaves twins. So a copy, and what was read from a state, continue as the
/// first one does.
pub fn a_state_decides_each_step()
    ensures each { (c : Call) (g g' h h' : Guard) → view.IsWellFormed g.space → IsTwin g g'
        → (a a' : Answer) (ms ms' : List Move) → Answers c g h a ms → Answers c g' h' a' ms'
        → (a ≡ a') × (ms ≡ ms') × IsTwin h h' }
    ensures copy { (g h : Guard) → IsCopy g h → IsTwin g h }
    ensures read { (g h : Guard) → SameGuard g h → IsTwin g h }
{}
