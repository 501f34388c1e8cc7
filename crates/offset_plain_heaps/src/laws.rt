//! Laws of many heaps and plain lists of blocks. The functions do nothing.

ghost use Rattle.std.specs.Prelude.{◌≡◌, ◌≤◌, ℕ, IfSome, List, Option, Result, Some};
ghost use Rattle.std.specs.List.{AllByRecursion};
ghost use Rattle.offset_allocator.specs.Moving.Compacting.{Move};
ghost use Rattle.offset_guarded.specs.Answers as tickets;
ghost use Rattle.offset_guarded.specs.Guard.{Guard};
ghost use Rattle.offset_script.specs.Machine.{State};
ghost use Rattle.offset_script.specs.declared.scripts.Command.TheVariants as command;
ghost use Rattle.offset_calls.specs.PlainLists.{IsCall, IsPlain, Plays};
ghost use Rattle.offset_calls.specs.declared.calls.Call.{Call as PlainCall};
ghost use Rattle.offset_calls.specs.declared.calls.Call.TheVariants as call;
ghost use Rattle.offset_heaps.specs.Calls.{Allocates, AllocatesTight, Call, Reply, Takes, TakesAll, TakesOn};
ghost use Rattle.offset_heaps.specs.Heaps.{Heaps, heap_at};
ghost use Rattle.offset_heaps.specs.Spaces.{IsValid};
ghost use Rattle.offset_heaps.specs.State.{IsWellFormed};
ghost use Rattle.offset_heaps.specs.declared.place.Granted.{Granted};
ghost use Rattle.offset_heaps.specs.declared.refusal.Refusal.{Refusal};
ghost use Rattle.offset_plain_heaps.specs.PlainHeaps.{ArePlain, GoesOn, GoesToTheFirst};

/// Many heaps are plain lists of blocks, one for each heap. Whatever call is made, of heaps or on one of them, what is done
/// in each heap is done in its list, by calls of the plain machine that are answered alike.
pub fn heaps_are_plain_lists()
    ensures call { (c : Call) (hs ks : Heaps) (r : Reply) (lists : ℕ → Option State) → IsValid c → IsWellFormed hs
        → IsWellFormed ks → ArePlain hs lists → Takes c hs ks r
        → (left : ℕ → Option State) × ArePlain ks left
        × ((k : ℕ) → GoesOn (heap_at k hs) (lists k) (heap_at k ks) (left k)) }
    // A call on one heap has the answer and the moves of the plain machine.
    ensures on_heap { (k : ℕ) (c : tickets.Call) (hs ks : Heaps) (a : tickets.Answer) (ms : List Move) (g : Guard) (s : State)
        → tickets.IsAdmitted c → IsWellFormed ks → heap_at k hs ≡ Some g → IsPlain g s → TakesOn k c hs ks a ms
        → (o : Option PlainCall) × IsCall c g o × (t : State) × Plays o g a ms s t
        × IfSome (heap_at k ks) (λ h. IsPlain h t) }
    // So, after any list of calls none of which runs out of memory, each heap is a list that the plain machine has made of
    // one free block.
    ensures calls { (cs : List Call) (rs : List Reply) (hs ks : Heaps) (lists : ℕ → Option State) → AllByRecursion IsValid cs
        → IsWellFormed hs → ArePlain hs lists → TakesAll hs cs rs ks → (left : ℕ → Option State) × ArePlain ks left }
{}

/// A nonzero request goes to the first plain list that grants it, under the largest node limit that its heap may have, and
/// has the reply of that list. Where no list grants it, a heap is made for it. A refusal other than `Memory` is returned only
/// where no list grants it and no heap may be made.
pub fn requests_go_to_the_first_plain_list()
    ensures aligned { (size align : ℕ) (hs ks : Heaps) (r : Result Granted Refusal) (lists : ℕ → Option State) → 1 ≤ align
        → IsWellFormed hs → IsWellFormed ks → ArePlain hs lists → Allocates size align hs ks r
        → GoesToTheFirst (call.Command (command.Align size align)) size hs lists r }
    ensures tight { (size align : ℕ) (hs ks : Heaps) (r : Result Granted Refusal) (lists : ℕ → Option State) → 1 ≤ align
        → IsWellFormed hs → IsWellFormed ks → ArePlain hs lists → AllocatesTight size align hs ks r
        → GoesToTheFirst (call.AllocateTightAligned size align) size hs lists r }
{}
