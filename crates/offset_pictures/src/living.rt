//! The lives of grants. It reads commands and their answers, which `lives` has by a play of its script.

ghost use Rattle.std.specs.Prelude.{◌≡◌, ℕ, ◌+◌, ◌-◌, ◌^◌, ◌<◌, ◌≤◌, All, AllPairs, IfOk, length, map};
ghost use Rattle.std.specs.Prelude.{get_or, option_map, option_to_list, if◌then◌else◌};
ghost use Rattle.offset_script.specs.Machine.{answer_view};
ghost use Rattle.offset_script.specs.Machine as machine;
ghost use Rattle.offset_script.specs.Totals.{requested_units};
ghost use Rattle.offset_pictures.specs.Ends.{grants_in, end_in};
ghost use Rattle.offset_pictures.specs.Lives.{AreApart, IsOrdered, IsWithin, life_of_answer, leaves};
ghost use Rattle.offset_pictures.specs.Lives.{lives_from, lives_of, life_view};

use offset_script::{Answer, Command, Script, play_script};
use std::alloc::{AllocError, Global};

/// A life: a range that a grant has, and the calls between which it has it.
///
/// Calls are counted from 0. The grant has the range from after the call `first`, which returned it, to the
/// call `last`, which released it or was a reset; `last` is the number of all calls where the grant has the
/// range at the end.
///
/// In a script each grant has one life. In a course that is no script's, a grant may be moved or resized.
/// Then it has a life for each range that it has had, and `lived` is the same in all of them.
#[derive(Clone, Copy, PartialEq, Debug)]
pub struct Life {
    /// The number of the grant, from 1.
    pub number: u64,
    /// The offset of the range.
    pub offset: u32,
    /// The size of the range in units.
    pub size: u32,
    /// The call that granted the range.
    pub first: usize,
    /// The call that ended the life, or the number of all calls.
    pub last: usize,
    /// For how many calls the grant is live, with all its ranges; the colour of the rectangle says it.
    pub lived: usize,
}

// For each grant, the call that ends it, among the calls seen so far: they are seen from the last to the
// first.
#[derive(Drop)]
struct Ends {
    // The first release of each grant, or the number of calls.
    released: Vec<usize>,
    // The first reset, or the number of calls.
    reset: usize,
}

impl Ends {
    // No call is seen yet, of a script with this number of calls, which is at least the number of its grants.
    fn new(alloc: Global, calls: usize) -> Result<Self, AllocError>
        requires { calls < 2 ^ 64 - 1 }
        ensures len { IfOk result (λ e. grants_in e ≡ calls + 1) }
        ensures ends { IfOk result (λ e. (k : ℕ) → k ≤ calls → end_in e k ≡ calls) }
    {
        let mut released = Vec::new(alloc);
        released.resize(calls + 1, calls)?;
        Ok(Ends {
            released,
            reset: calls,
        })
    }

    // The call that ends a grant.
    fn of(&self, number: u64) -> usize
        requires { number < grants_in self.now }
        ensures { result ≡ end_in self.now number }
    {
        self.released[number as usize].min(self.reset)
    }

    // Adds call i, which comes before all that were seen.
    fn meet(&mut self, i: usize, command: Command)
        requires { (k : ℕ) → k < grants_in self.old → i ≤ end_in self.old k }
        ensures len { grants_in self.new ≡ grants_in self.old }
        ensures ends { (k : ℕ) → k < grants_in self.old
            → end_in self.new k ≡ (if leaves k command then end_in self.old k else i) }
    {
        match command {
            Command::Free(number) => {
                if (number as usize) < self.released.len() {
                    self.released[number as usize] = i;
                }
            }
            Command::Reset => self.reset = i,
            _ => {}
        }
    }
}

// The units that a command requests.
fn requested_units(command: Command) -> u32
    ensures { result ≡ requested_units command }
{
    match command {
        Command::Alloc(size) => size,
        Command::Align(size, _) => size,
        _ => 0,
    }
}

// The life that begins with this answer to call i, if it is a grant.
fn life_of_answer(i: usize, command: Command, answer: &Answer, ends: &Ends) -> Option<Life>
    requires { (k offset : ℕ) → answer_view answer.now ≡ machine.Grant k offset → k < grants_in ends.now }
    ensures { option_to_list (option_map life_view result)
        ≡ life_of_answer i command (answer_view answer.now) (end_in ends.now) }
{
    match answer {
        Answer::Grant { number, offset } => {
            let last = ends.of(*number);
            Some(Life {
                number: *number,
                offset: *offset,
                size: requested_units(command),
                first: i,
                last,
                lived: last.saturating_sub(i),
            })
        }
        _ => None,
    }
}

// How many of the answers are grants.
fn grants_among(answers: &[Answer]) -> usize {
    let mut grants = 0usize;
    for answer in answers {
        if matches!(answer, Answer::Grant { .. }) {
            grants = grants.saturating_add(1);
        }
    }
    grants
}

/// The lives of the grants among the answers to these commands, in the order of the calls.
///
/// It goes over the commands once, from the last to the first, so that the end of a life is known when its
/// beginning is seen.
pub fn lives_of_answers(
    alloc: Global,
    commands: &[Command],
    answers: &[Answer],
) -> Result<Vec<Life>, AllocError>
    requires len { length answers.now ≡ length commands.now }
    requires few { (i k offset : ℕ) → i < length commands.now
        → get_or (map answer_view answers.now) i machine.Refused ≡ machine.Grant k offset → k
        ≤ length commands.now }
    ensures { IfOk result
        (λ v. map life_view v.items ≡ lives_from 0 commands.now (map answer_view answers.now)) }
{
    let calls = commands.len();
    let mut ends = Ends::new(alloc, calls)?;
    // The caller keeps them: there is no room for more.
    let mut lives = Vec::with_capacity(alloc, grants_among(answers))?;
    for i in (0..calls).rev() {
        let command = commands[i];
        if let Some(life) = life_of_answer(i, command, &answers[i], &ends) {
            lives.push(life)?;
        }
        ends.meet(i, command);
    }
    lives.reverse();
    Ok(lives)
}

/// Plays a script, and returns the lives of all its grants, in the order of their numbers.
///
/// # Errors
///
/// It fails only where an allocation fails.
///
/// ```
/// let found = lives(alloc, &script)?;
/// assert_eq!((found[0].size, found[0].first, found[0].last), (300, 0, 1));
/// ```
pub fn lives(alloc: Global, script: &Script) -> Result<Vec<Life>, AllocError>
    // The lives are those of the grants that the plain machine makes, in order: each with its number, offset
    // and size, the call that granted it, and the call that ended it, or the number of all calls.
    ensures lives { IfOk result
        (λ v. map life_view v.items
        ≡ lives_of script.now.size script.now.max_allocs script.now.commands.items) }
    // No two lives share a unit at any time.
    ensures apart { IfOk result (λ v. AllPairs AreApart (map life_view v.items)) }
    // Each range lies within the space as the call of its grant left it.
    ensures within { IfOk result
        (λ v. All (IsWithin script.now.size script.now.max_allocs script.now.commands.items)
        (map life_view v.items)) }
    // No life ends before it begins.
    ensures ordered { IfOk result (λ v. All IsOrdered (map life_view v.items)) }
{
    let answers = play_script(alloc, script)?;
    lives_of_answers(alloc, &script.commands, &answers)
}
