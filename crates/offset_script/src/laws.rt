//! Laws on what `parse` reads and on the answers of `play`. The functions touch nothing.

ghost use Rattle.std.specs.Prelude.{◌≡◌, ◌↔◌, ℕ, ◌+◌, ◌≤◌, List, [], ◌∷◌, ◌++◌, length, sum};
ghost use Rattle.std.specs.Prelude.{IfSome, None, Option};
ghost use Rattle.offset_script.specs.declared.scripts.Command.{Command};
ghost use Rattle.offset_script.specs.declared.scripts.Command.TheVariants as command;
ghost use Rattle.offset_script.specs.declared.scripts.Header.{Header};
ghost use Rattle.offset_allocator.specs.Ranges.{Grants};
ghost use Rattle.offset_allocator.specs.Relations.{SameSpace};
ghost use Rattle.offset_allocator.specs.View.{Handle, View, max_size};
ghost use Rattle.offset_script.specs.Grammar.{command_of, header_of};
ghost use Rattle.offset_script.specs.Histories.{HasNoLive, IsCollapse, IsNest, IsQuestion};
ghost use Rattle.offset_script.specs.Histories.{answers_renumbered, collapse, outline, releases};
ghost use Rattle.offset_script.specs.Histories.{without_offset};
ghost use Rattle.offset_script.specs.Machine.{State, start, step, after, answers, total, free_sizes};
ghost use Rattle.offset_script.specs.Machine as machine;
ghost use Rattle.offset_script.specs.Spelling.{IsSpelling, IsHeaderSpelling};
ghost use Rattle.offset_script.specs.Steps.{AreHeld, MayBeKept};
ghost use Rattle.offset_script.specs.Totals.{live, added_by};

/// A line means a command exactly if it is a spelling of that command.
pub fn one_spelling()
    ensures { (c : Command) (line : List ℕ) → (command_of line ≡ Some c) ↔ IsSpelling c line }
{}

/// A line means a header exactly if it is a spelling of that header, whatever its limit.
pub fn one_header_spelling()
    ensures { (h : Header) (line : List ℕ) → (header_of line ≡ Some h) ↔ IsHeaderSpelling h line }
{}

/// A space without live grants continues as a fresh one of its size.
pub fn an_empty_space_continues_as_fresh()
    ensures { (size limit : ℕ) → 2 ≤ limit → (cs : List Command)
        → let s = after cs (start size limit) in
        HasNoLive s → (next : List Command)
        → answers next s ≡ answers_renumbered (start (total s.blocks) s.limit) s next }
{}

/// A fresh space that is extended continues as a fresh one of the summed size.
pub fn an_extended_space_is_larger()
    ensures { (size more limit : ℕ) → size + more ≤ max_size → (cs : List Command)
        → answers cs (after (command.Extend more ∷ []) (start size limit))
        ≡ answers cs (start (size + more) limit) }
{}

/// Releases in a row leave the same sizes and the same live grants in any order.
pub fn releases_commute()
    // The sizes and the live grants are those of the collapse, which does not depend on the order.
    ensures space { (size limit : ℕ) → 2 ≤ limit → (cs : List Command) (ks : List ℕ)
        → let s = after cs (start size limit) in
        outline (after (releases ks) s).blocks ≡ collapse ks (outline s.blocks) }
    // A next command has the same answer as there, except for the offset of a grant.
    ensures next { (size limit : ℕ) → 2 ≤ limit → (cs : List Command) (ks : List ℕ) (t : State)
        → let s = after cs (start size limit) in
        IsCollapse ks s t → (c : Command)
        → without_offset (step c (after (releases ks) s)).answer ≡ without_offset (step c t).answer }
{}

/// A nest leaves no trace: each of its grants is released in it, the last first, what lies between a grant
/// and its release is a nest too, no other grant is released, and nothing is reset or extended.
pub fn a_nest_leaves_no_trace()
    ensures { (size limit : ℕ) → 2 ≤ limit → (cs nest : List Command)
        → let s = after cs (start size limit) in
        IsNest s nest → (next : List Command)
        → answers next (after nest s) ≡ answers_renumbered s (after nest s) next }
{}

/// A report, a full report or a question for a size, put anywhere into the commands, changes no other answer.
pub fn a_question_changes_nothing()
    ensures { (size limit : ℕ) → 2 ≤ limit
        → (before : List Command) (q : Command) (rest : List Command) → IsQuestion q
        → let s = after before (start size limit) in
        answers (before ++ q ∷ rest) (start size limit)
        ≡ answers before (start size limit) ++ ((step q s).answer ∷ answers rest s) }
{}

/// After any commands, live and free units add up to the size of the space, extensions included.
pub fn sizes_add_up()
    ensures { (size limit : ℕ) (cs : List Command) → let bs = (after cs (start size limit)).blocks in
        total (live bs) + sum (free_sizes bs) ≡ size + added_by cs (start size limit) }
{}

/// After any commands, at most `limit - 2` grants are live.
pub fn few_are_live()
    ensures { (size limit : ℕ) → 2 ≤ limit → (cs : List Command)
        → length (live (after cs (start size limit)).blocks) + 2 ≤ limit }
{}

/// A space of `limit - 1` blocks refuses every request, and its report is 0 and 0.
pub fn a_full_space_refuses()
    ensures grants { (s : State) (n : ℕ) → s.limit ≤ length s.blocks + 1
        → (step (command.Alloc n) s).answer ≡ machine.Refused }
    ensures aligned { (s : State) (n align : ℕ) → s.limit ≤ length s.blocks + 1
        → (step (command.Align n align) s).answer ≡ machine.Refused }
    ensures report { (s : State) → s.limit ≤ length s.blocks + 1
        → (step command.Report s).answer ≡ machine.Report 0 0 }
{}

/// After a request to a space, the handles that are kept of it are live as before, each with a name of its own,
/// and what was granted may be kept beside them.
pub fn a_grant_may_be_kept()
    ensures held { (n : ℕ) (v w : View) (handles : List (Option Handle)) (granted : Option Handle)
        → IfSome granted (Grants n v w) → (granted ≡ None → SameSpace v w)
        → AreHeld v handles → AreHeld w handles }
    ensures granted { (n : ℕ) (v w : View) (handles : List (Option Handle)) (granted : Option Handle)
        → IfSome granted (Grants n v w) → AreHeld v handles → MayBeKept granted w handles }
{}
