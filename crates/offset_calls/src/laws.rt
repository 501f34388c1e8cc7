//! Laws on the replies of `play_calls`. The functions do nothing.

ghost use Rattle.std.specs.Prelude.{◌≡◌, ◌≤◌, ◌+◌, ◌++◌, ◌∷◌, IsTrue, ℕ, List, false, map, Option};
ghost use Rattle.offset_allocator.specs.Moving.Compacting as named;
ghost use Rattle.offset_allocator.specs.Relations.{IsFresh, SameState, SameUnder};
ghost use Rattle.offset_allocator.specs.View.{Handle, IsWellFormed, View};
ghost use Rattle.offset_guarded.specs.Answers as tickets;
ghost use Rattle.offset_guarded.specs.Answers.{IsAdmitted};
ghost use Rattle.offset_guarded.specs.Guard.{Guard, IsRaised, Ticket};
ghost use Rattle.offset_guarded.specs.State.{SameGuard};
ghost use Rattle.offset_script.specs.declared.scripts.Command.{Command};
ghost use Rattle.offset_script.specs.Histories.{HasNoLive, IsCollapse, IsNest, collapse, outline, releases};
ghost use Rattle.offset_script.specs.Machine as machine;
ghost use Rattle.offset_script.specs.Steps.{AreHeld};
ghost use Rattle.offset_script.specs.Machine.{State, ends_live, units_at_end, stamp_of_call, start, total};
ghost use Rattle.offset_script.specs.declared.scripts.Command.TheVariants as command;
ghost use Rattle.offset_calls.specs.declared.calls.Call.{Call};
ghost use Rattle.offset_calls.specs.declared.calls.Call.TheVariants as call;
ghost use Rattle.offset_calls.specs.Calls as plain;
ghost use Rattle.offset_calls.specs.Calls.{after, is_valid, replies, step};
ghost use Rattle.offset_calls.specs.Ending.{with_end};
ghost use Rattle.offset_calls.specs.Places.{ArePlaces, NoneIsLater, starts};
ghost use Rattle.offset_calls.specs.PlainLists.{IsCall, IsPlain, Plays};
ghost use Rattle.offset_calls.specs.Room.{Split};
ghost use Rattle.offset_calls.specs.Stepped.{slid_by};
ghost use Rattle.offset_script.specs.Totals.{live};
ghost use Rattle.offset_calls.specs.Limits.{AreServedWithNodes, RunsWithNodes, SameGuardUnder};
ghost use Rattle.offset_calls.specs.Steps.{Takes};
ghost use Rattle.offset_calls.specs.Tickets.{AreServed, AreAllTickets, handles_of};
ghost use Rattle.offset_calls.specs.declared.guarded.TicketCall.{TicketCall};
ghost use Rattle.offset_calls.specs.Histories.{IsQuestion, Runs, goes_by_begin, replies_renumbered, without_offset};
ghost use Rattle.offset_calls.specs.Histories.{retract_again};

/// The replies to calls that are commands of a script are the answers to the script.
pub fn commands_have_their_answers()
    ensures { (size limit : ℕ) (cs : List Command)
        → replies (map call.Command cs) (start size limit)
        ≡ map plain.Answer (machine.answers cs (start size limit)) }
{}

/// A space without live grants continues as a fresh one of its size, with every call; grant numbers are
/// larger by the grants so far, in moves too.
pub fn an_empty_space_continues_as_fresh()
    ensures { (size limit : ℕ) → 2 ≤ limit → (cs : List Call)
        → let s = after cs (start size limit) in
        HasNoLive s → (next : List Call)
        → replies next s ≡ replies_renumbered (start (total s.blocks) s.limit) s next }
{}

/// A nest of commands leaves no trace in the replies to any calls after it. Nothing is resized or compacted
/// in a nest.
pub fn a_nest_leaves_no_trace()
    ensures { (size limit : ℕ) → 2 ≤ limit → (cs : List Call) (nest : List Command)
        → let s = after cs (start size limit) in
        IsNest s nest → (next : List Call)
        → replies next (machine.after nest s) ≡ replies_renumbered s (machine.after nest s) next }
{}

/// Releases in a row leave the same sizes and the same live grants in any order, after any calls.
pub fn releases_commute()
    // The sizes and the live grants are those of the collapse, which does not depend on the order.
    ensures space { (size limit : ℕ) → 2 ≤ limit → (cs : List Call) (ks : List ℕ)
        → let s = after cs (start size limit) in
        outline (machine.after (releases ks) s).blocks ≡ collapse ks (outline s.blocks) }
    // A next call, also one that resizes or compacts, has the same reply as there, except for the offset of a
    // new grant. `WouldBegin` asks for such an offset, and `Relocate` and `RelocateAligned` are granted or
    // refused by one, so they are not among them.
    ensures next { (size limit : ℕ) → 2 ≤ limit → (cs : List Call) (ks : List ℕ) (t : State)
        → let s = after cs (start size limit) in
        IsCollapse ks s t → (c : Call) → goes_by_begin c ≡ false
        → without_offset (step c (machine.after (releases ks) s)).reply ≡ without_offset (step c t).reply }
{}

/// A question, put anywhere into the calls, changes no other reply.
pub fn a_question_changes_nothing()
    ensures { (size limit : ℕ) → 2 ≤ limit
        → (before : List Call) (q : Call) (rest : List Call) → IsQuestion q
        → let s = after before (start size limit) in
        replies (before ++ q ∷ rest) (start size limit)
        ≡ replies before (start size limit) ++ ((step q s).reply ∷ replies rest s) }
{}

/// `Retract` of as many units as `Extend` has just added leaves the blocks as they were, but for a free one
/// at the end: that is the newest of its bin then, or gone where it has no units and is not the only block.
pub fn retract_undoes_extend()
    ensures state { (size limit : ℕ) → 2 ≤ limit → (cs : List Call) (n : ℕ) → 1 ≤ n
        → let s = after cs (start size limit) in
        let grown = step (call.Command (command.Extend n)) s in
        grown.reply ≡ plain.Answer machine.Extended
        → ((retract_again n s).reply ≡ plain.Resized)
        × ((retract_again n s).state ≡ record s {
          calls = s.calls + 2;
          blocks = with_end (units_at_end s.blocks) (stamp_of_call grown.state) s.blocks;
        }) }
    // Where the last block was live, no later reply is another.
    ensures live { (size limit : ℕ) → 2 ≤ limit → (cs : List Call) (n : ℕ) → 1 ≤ n
        → let s = after cs (start size limit) in
        (step (call.Command (command.Extend n)) s).reply ≡ plain.Answer machine.Extended
        → IsTrue (ends_live s.blocks) → (next : List Call)
        → replies next (retract_again n s).state ≡ replies next s }
    // Where a free last block has units, sizes and live grants are as they were.
    ensures free { (size limit : ℕ) → 2 ≤ limit → (cs : List Call) (n : ℕ) → 1 ≤ n
        → let s = after cs (start size limit) in
        (step (call.Command (command.Extend n)) s).reply ≡ plain.Answer machine.Extended
        → 1 ≤ units_at_end s.blocks → outline (retract_again n s).state.blocks ≡ outline s.blocks }
{}

/// What slides by whole steps goes as far to the front as whole steps can take it. Of all places that the live
/// ranges could have, in their order, each whole steps from where it is, none is before the one that it gets. So these
/// places are fixed, whatever the way to find them.
pub fn whole_steps_go_furthest()
    // Of any run of blocks, from its start on: `CompactBy`, `CompactWithin` and `MakeRoomBy` slide one as `slid_by` does.
    ensures run { (size limit : ℕ) → 2 ≤ limit → (cs : List Call) (n : ℕ) (p : Split) → 1 ≤ n
        → let s = after cs (start size limit) in
        s.blocks ≡ p.front ++ (p.run ++ p.back)
        → let o = total p.front in
        let new = slid_by n (stamp_of_call s) p.run in
        (live new ≡ live p.run)
        × ArePlaces n o (live p.run) (starts o p.run) (starts o new)
        × ((qs : List ℕ) → ArePlaces n o (live p.run) (starts o p.run) qs → NoneIsLater (starts o new) qs) }
    // Of all ranges of the space, after a compaction that is not refused.
    ensures compact_by { (size limit : ℕ) → 2 ≤ limit → (cs : List Call) (n : ℕ) → 1 ≤ n
        → let s = after cs (start size limit) in
        let done = step (call.CompactBy n) s in
        (done.reply ≡ plain.Answer machine.Refused → ⊥)
        → (live done.state.blocks ≡ live s.blocks)
        × ArePlaces n 0 (live s.blocks) (starts 0 s.blocks) (starts 0 done.state.blocks)
        × ((qs : List ℕ) → ArePlaces n 0 (live s.blocks) (starts 0 s.blocks) qs
        → NoneIsLater (starts 0 done.state.blocks) qs) }
{}

/// In the same state, with the same handles kept, every list of calls has the same replies, and leaves the
/// same state and the same handles, each with its name and its offset. Only the counts of accesses may
/// differ.
///
/// So a copy that `try_clone` made continues as its original, since `IsCopy` gives `SameState`. And so do
/// two spaces of which `write_state` returns the same bytes, as a restored one and that which was saved:
/// `SameState` of these is a clause of the library's law `a_state_is_read_back`.
pub fn a_copy_continues_alike()
    ensures { (v v' w w' : View) (handles kept kept' : List (Option Handle)) (cs : List Call)
        (rs rs' : List plain.Reply) → IsWellFormed v → SameState v v' → AreHeld v handles
        → Runs v handles cs rs w kept → Runs v' handles cs rs' w' kept'
        → (rs ≡ rs') × SameState w w' × (kept ≡ kept') }
{}

/// In the same guarded allocator every list of calls, which may pass any tickets, has the same replies, and
/// the tickets of all grants are the same: each has its offset, name, serial and realm. It leaves the same
/// guarded allocator, serials included, so that all later calls are alike too. Only the counts of accesses may
/// differ.
///
/// So it is with a copy that `try_clone` made, since its `IsCopy` gives `SameGuard`, and with two of which
/// `write_state` returns the same bytes, by the law `a_state_is_read_back` of `offset_guarded`.
pub fn a_guarded_copy_continues_alike()
    ensures { (g g' h h' : Guard) (ts us us' : List Ticket) (cs : List TicketCall)
        (rs rs' : List plain.Reply) → IsWellFormed g.space → SameGuard g g' → AreAllTickets g ts
        → AreServed g ts cs rs h us → AreServed g' ts cs rs' h' us'
        → (rs ≡ rs') × SameGuard h h' × (us ≡ us') }
{}

/// In a space and in the same one under a larger node limit, as `raised` returns it, every list of calls has the
/// same replies, as long as none of the first one's is for want of nodes: a call that is refused there, that
/// reports no free units, that names `Nodes` as the reason, or that makes room by steps, or asks what it costs, has
/// room for the blocks that it wants, which are three at most (`blocks_wanted`). All else needs no room. Both leave
/// the same space again, under the one limit and the other, and the same handles.
///
/// The library's law `a_raised_limit_changes_no_answer` says of a space that was `raised` that it is the same
/// under that limit: `SameUnder`.
pub fn a_raised_space_continues_alike()
    ensures { (limit : ℕ) (v v' w w' : View) (handles kept kept' : List (Option Handle)) (cs : List Call)
        (rs rs' : List plain.Reply) → IsWellFormed v → v.max_allocs ≤ limit → SameUnder limit v v'
        → AreHeld v handles → RunsWithNodes v handles cs rs w kept → Runs v' handles cs rs' w' kept'
        → (rs ≡ rs') × SameUnder limit w w' × (kept ≡ kept') }
{}

/// The same of guarded allocators, one of which is `raised`: every list of calls, which may pass any tickets, has
/// the same replies and the same tickets, as long as none of the first one's replies is for want of nodes. Both
/// leave the same guarded allocator again, serials included, under the one limit and the other.
pub fn a_raised_guard_continues_alike()
    // What `raised` returns is the same under that limit.
    ensures raised { (limit : ℕ) (g h : Guard) → IsRaised limit g h → SameGuardUnder limit g h }
    ensures alike { (limit : ℕ) (g g' h h' : Guard) (ts us us' : List Ticket) (cs : List TicketCall)
        (rs rs' : List plain.Reply) → IsWellFormed g.space → g.space.max_allocs ≤ limit
        → SameGuardUnder limit g g' → AreAllTickets g ts → AreServedWithNodes g ts cs rs h us
        → AreServed g' ts cs rs' h' us' → (rs ≡ rs') × SameGuardUnder limit h h' × (us ≡ us') }
{}

/// A space with tickets is a plain list of blocks: its blocks, from the first to the last, its node limit, and the order in
/// each bin are those of a list that the plain machine made of one free block. A call of tickets is a call of the plain
/// machine, with the numbers of grants in place of their tickets, and has the answer and the moves of its reply; where it is
/// none, since no serial is left, or there is no step to go by, or it raises the step, nothing is done. So whatever calls are
/// made, one after another, and wherever the node limit is raised between them, all answers are those of the plain machine.
pub fn a_space_with_tickets_is_a_plain_list()
    // A fresh one is one free block.
    ensures fresh { (size limit : ℕ) (g : Guard) → 2 ≤ limit → IsWellFormed g.space → IsFresh size limit g.space → g.given ≡ 0
        → IsPlain g (start size limit) }
    // Each call, with its answer and its moves.
    ensures call { (c : tickets.Call) (g h : Guard) (a : tickets.Answer) (ms : List named.Move) (s : State) → IsPlain g s
        → IsAdmitted c → tickets.Answers c g h a ms → IsWellFormed h.space
        → (o : Option Call) × IsCall c g o × (t : State) × Plays o g a ms s t × IsPlain h t }
    ensures raised { (limit : ℕ) (g h : Guard) (s : State) → IsPlain g s → g.space.max_allocs ≤ limit → IsRaised limit g h
        → IsPlain h (record s { limit = limit }) }
    // A question has the reply of the plain machine: a report, a reason of a refusal, where a grant would begin, and the rest.
    ensures question { (q : Call) (g : Guard) (s : State) (r : plain.Reply) (is : IsPlain g s) → IsTrue (is_valid q)
        → Takes q g.space (handles_of g is.tickets) g.space (handles_of g is.tickets) r → r ≡ (step q s).reply }
{}
