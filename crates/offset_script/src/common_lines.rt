//! Reads lines of the commonest commands, in one pass over each; all others, and the last ones of a text,
//! are left to `parsing`. It only reads the text, and appends commands.

ghost use Rattle.std.specs.Prelude.{◌≡◌, ◌+◌, ◌-◌, ◌<◌, nat_lt, ◌≤◌, ◌++◌, length, All, IfOk, IfSome, IsTrue};
ghost use Rattle.std.specs.Char.{is_ascii_digit};
ghost use Rattle.std.specs.Int.{to_le_bytes, w32};
ghost use Rattle.offset_script.specs.CommonLines.{BeginsWithNumber, BeginsWithCommand, ReadsCommands};
ghost use Rattle.offset_script.specs.CommonLines.{with_number, name_of};
ghost use Rattle.offset_script.specs.Grammar.{has_valid_alignment, significant_from};

use crate::lines::Lines;
use crate::scripts::Command;
use crate::tokens::MOST_DIGITS;
use std::alloc::AllocError;

// The most bytes that are read here: a word, a space, and a number with its line end. Where fewer are left,
// `parsing` reads the line.
const LONGEST: usize = 17;

// The commonest commands of a word and a number.
#[derive(Clone, Copy)]
enum Word {
    Alloc,
    Free,
    Size,
}

impl Word {
    // The command with this number.
    fn with(self, n: u32) -> Command
        ensures { result ≡ with_number self n }
    {
        match self {
            Word::Alloc => Command::Alloc(n),
            Word::Free => Command::Free(n),
            Word::Size => Command::Size(n),
        }
    }
}

// Four bytes as one number, to compare them together.
fn joined(bytes: [u8; 4]) -> u32
    ensures { to_le_bytes w32 result ≡ bytes }
{
    u32::from_le_bytes(bytes)
}

// `allo`, `free` and `size`, joined.
const ALLO: u32 = 0x6f6c_6c61;

const FREE: u32 = 0x6565_7266;

const SIZE: u32 = 0x657a_6973;

// The word at the head of a text, and what comes after its space.
fn word_at_head(text: &[u8]) -> Option<(Word, &[u8])>
    ensures word { IfSome result (λ r. text.now ≡ name_of r.0 ++ r.1.now) }
    ensures room { IfSome result (λ r. length text.now ≤ length r.1.now + 6) }
{
    let [a, b, c, d, more @ ..] = text else {
        return None;
    };
    match joined([*a, *b, *c, *d]) {
        ALLO => match more {
            [b'c', b' ', rest @ ..] => Some((Word::Alloc, rest)),
            _ => None,
        },
        FREE => match more {
            [b' ', rest @ ..] => Some((Word::Free, rest)),
            _ => None,
        },
        SIZE => match more {
            [b' ', rest @ ..] => Some((Word::Size, rest)),
            _ => None,
        },
        _ => None,
    }
}

// The value of a digit. It is 10 or more of any other byte.
fn digit(b: u8) -> u64
    ensures digit { nat_lt result 10 ≡ is_ascii_digit b }
    ensures value { result < 10 → result ≡ b - 48 }
{
    u64::from(b).wrapping_sub(u64::from(b'0'))
}

// The number that a text begins with, and what comes after its line end. `None` where it does not begin so.
#[inline(always)]
fn number_at_head(text: &[u8]) -> Option<(u32, &[u8])>
    requires { 10 < length text.now }
    ensures { IfSome result (λ r. BeginsWithNumber text.now r.0 r.1.now) }
{
    let mut n = 0u64;
    // So few bytes that the loop is unrolled.
    for i in 0..=MOST_DIGITS {
        let d = digit(text[i]);
        if d >= 10 {
            if text[i] != b'\n' || i == 0 {
                return None;
            }
            if n > u64::from(u32::MAX) {
                return None;
            }
            return Some((n as u32, &text[i + 1..]));
        }
        n = n * 10 + d;
    }
    None
}

// The command on the first line of a text, if it is one of the commonest and its line end follows, and what
// comes after that. Where it is `None` the line may be a command too.
fn command_at_head(text: &[u8]) -> Option<(Command, &[u8])>
    ensures { IfSome result (λ r. BeginsWithCommand text.now r.0 r.1.now) }
{
    if text.len() < LONGEST {
        return None;
    }
    if let Some((word, rest)) = word_at_head(text) {
        let (n, rest) = number_at_head(rest)?;
        return Some((word.with(n), rest));
    }
    match text {
        [b'r', b'e', b'p', b'o', b'r', b't', b'\n', rest @ ..] => Some((Command::Report, rest)),
        _ => None,
    }
}

/// Reads the lines at the head that are of the commonest commands, up to the first that is not, and appends
/// their commands.
///
/// It is never inlined: with the code for all other lines around it the loop has too few registers.
#[inline(never)]
pub fn read_common(lines: &mut Lines, commands: &mut Vec<Command>) -> Result<(), AllocError>
    ensures read { IfOk result (λ _. ReadsCommands
        (significant_from lines.old.number lines.old.rest.now) commands.old.items
        (significant_from lines.new.number lines.new.rest.now) commands.new.items) }
    ensures alignments { IfOk result (λ _. All (λ c. IsTrue (has_valid_alignment c)) commands.old.items
        → All (λ c. IsTrue (has_valid_alignment c)) commands.new.items) }
    ensures shorter { length lines.new.rest.now ≤ length lines.old.rest.now }
{
    let mut rest = lines.rest;
    let mut number = lines.number;
    while let Some((command, after)) = command_at_head(rest) {
        commands.push(command)?;
        rest = after;
        number += 1;
    }
    lines.rest = rest;
    lines.number = number;
    Ok(())
}
