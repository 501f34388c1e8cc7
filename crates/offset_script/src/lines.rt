//! The lines of a text that are neither empty nor comments. It only reads the text.

ghost use Rattle.std.specs.Prelude.{◌≡◌, ◌+◌, ◌-◌, ◌<◌, ◌^◌, ◌∷◌, [], if◌then◌else◌, length, MatchOption};
ghost use Rattle.offset_script.specs.Grammar.{is_skipped, significant_from, line_ends};

use crate::tokens::split_once;

/// What is not read of a text yet, and the number of its first line, from 1.
#[derive(Drop)]
pub struct Lines<'a> {
    pub rest: &'a [u8],
    pub number: u32,
    ghost fits: { number + length rest.now < 2 ^ 32 },
}

// Whether a line is empty or a comment.
fn is_skipped(line: &[u8]) -> bool
    ensures { result ≡ is_skipped line.now }
{
    match line {
        [] => true,
        [first, ..] => *first == b'#',
    }
}

impl<'a> Lines<'a> {
    /// All lines of a text.
    pub fn of(text: &'a [u8]) -> Self
        requires { length text.now < 2 ^ 32 - 1 }
        ensures number { result.number ≡ 1 }
        ensures rest { result.rest.now ≡ text.now }
    {
        Lines {
            rest: text,
            number: 1,
        }
    }

    // Takes the first line, and returns its number and its text.
    fn take_line(&mut self) -> (u32, &'a [u8])
        requires { 0 < length self.old.rest.now }
        ensures lines { significant_from self.old.number self.old.rest.now
            ≡ (if is_skipped result.1.now then significant_from self.new.number self.new.rest.now
            else record {
              number = result.0;
              text = result.1.now;
            } ∷ significant_from self.new.number self.new.rest.now) }
        ensures ends { self.new.number + line_ends self.new.rest.now
            ≡ self.old.number + line_ends self.old.rest.now }
        ensures shorter { length self.new.rest.now < length self.old.rest.now }
    {
        let (line, after) = split_once(self.rest, b'\n');
        let number = self.number;
        match after {
            None => self.rest = &[],
            Some(rest) => {
                self.rest = rest;
                self.number += 1;
            }
        }
        (number, line)
    }

    /// Takes lines up to the next one that is neither empty nor a comment, and returns its number and its
    /// text, or `None` where there is no such line.
    pub fn next_line(&mut self) -> Option<(u32, &'a [u8])>
        ensures line { MatchOption result
            (significant_from self.old.number self.old.rest.now ≡ [])
            (λ line. significant_from self.old.number self.old.rest.now
            ≡ record { number = line.0; text = line.1.now }
            ∷ significant_from self.new.number self.new.rest.now) }
        ensures end { MatchOption result
            (self.new.number ≡ self.old.number + line_ends self.old.rest.now)
            (λ _. length self.new.rest.now < length self.old.rest.now) }
        ensures ends { self.new.number + line_ends self.new.rest.now
            ≡ self.old.number + line_ends self.old.rest.now }
    {
        while !self.rest.is_empty() {
            let (number, line) = self.take_line();
            if !is_skipped(line) {
                return Some((number, line));
            }
        }
        None
    }
}
