//! Parses a text as a script, the commonest lines by `common_lines`. It only reads the text.

ghost use Rattle.std.specs.Prelude.{◌≡◌, IfSome, IsTrue};
ghost use Rattle.offset_script.specs.Grammar.{one_word_command, number_command, pair_command, command_of};
ghost use Rattle.offset_script.specs.Grammar.{width_of};
ghost use Rattle.offset_script.specs.Grammar.{header_of, has_valid_alignment, is_admitted, meaning_of};
ghost use Rattle.offset_script.specs.Running.{IsParsed};

use crate::common_lines::read_common;
use crate::faults::ScriptFault;
use crate::lines::Lines;
use crate::scripts::{Command, Header, IndexWidth, Script};
use crate::tokens::{number, split_once};
use std::alloc::Global;

/// The largest number of bytes of a script.
pub const MAX_TEXT: usize = 1_048_576;

// The command of one word.
fn one_word_command(name: &[u8]) -> Option<Command>
    ensures command { result ≡ one_word_command name.now }
    ensures alignment { IfSome result (λ c. IsTrue (has_valid_alignment c)) }
{
    if name == b"report".as_slice() {
        Some(Command::Report)
    } else if name == b"full".as_slice() {
        Some(Command::Full)
    } else if name == b"reset".as_slice() {
        Some(Command::Reset)
    } else {
        None
    }
}

// The command of a word and a number.
fn number_command(name: &[u8], n: u32) -> Option<Command>
    ensures command { result ≡ number_command name.now n }
    ensures alignment { IfSome result (λ c. IsTrue (has_valid_alignment c)) }
{
    if name == b"alloc".as_slice() {
        Some(Command::Alloc(n))
    } else if name == b"free".as_slice() {
        Some(Command::Free(n))
    } else if name == b"size".as_slice() {
        Some(Command::Size(n))
    } else if name == b"extend".as_slice() {
        Some(Command::Extend(n))
    } else {
        None
    }
}

// The command of a word and two numbers, of which the second is an alignment.
#[tactic(auto, using(crate::proofs::Numbers::power_some))]
fn pair_command(name: &[u8], n: u32, a: u32) -> Option<Command>
    ensures command { result ≡ pair_command name.now n a }
    ensures alignment { IfSome result (λ c. IsTrue (has_valid_alignment c)) }
{
    if name == b"align".as_slice() && a.is_power_of_two() {
        Some(Command::Align(n, a))
    } else {
        None
    }
}

// The command that a line spells, or `None`.
#[tactic(auto, using(crate::proofs::FirstLine::four_words), unfolding(crate::specs::Grammar::command_of_words))]
fn command(line: &[u8]) -> Option<Command>
    ensures command { result ≡ command_of line.now }
    ensures alignment { IfSome result (λ c. IsTrue (has_valid_alignment c)) }
{
    let (name, rest) = split_once(line, b' ');
    let Some(rest) = rest else {
        return one_word_command(name);
    };
    let (first, rest) = split_once(rest, b' ');
    let Some(rest) = rest else {
        return number_command(name, number(first)?);
    };
    let (second, rest) = split_once(rest, b' ');
    if rest.is_some() {
        return None;
    }
    pair_command(name, number(first)?, number(second)?)
}

// The index width that a word spells.
fn width(word: &[u8]) -> Option<IndexWidth>
    ensures { result ≡ width_of word.now }
{
    if word == b"16".as_slice() {
        Some(IndexWidth::Bits16)
    } else if word == b"32".as_slice() {
        Some(IndexWidth::Bits32)
    } else {
        None
    }
}

// The header that a line spells, or `None`, whatever its limit.
#[tactic(auto, using(crate::proofs::FirstLine::seven_words), unfolding(crate::specs::Grammar::header_of_words))]
fn header(line: &[u8]) -> Option<Header>
    ensures { result ≡ header_of line.now }
{
    let (space, rest) = split_once(line, b' ');
    let (size, rest) = split_once(rest?, b' ');
    let (nodes, rest) = split_once(rest?, b' ');
    let (max_allocs, rest) = split_once(rest?, b' ');
    let (index, rest) = split_once(rest?, b' ');
    let (bits, rest) = split_once(rest?, b' ');
    if rest.is_some() {
        return None;
    }
    if space != b"space".as_slice()
        || nodes != b"nodes".as_slice()
        || index != b"index".as_slice()
    {
        return None;
    }
    Some(Header {
        size: number(size)?,
        max_allocs: number(max_allocs)?,
        index: width(bits)?,
    })
}

impl Header {
    // Whether the limit is at least 2, and the index width admits it.
    fn is_admitted(&self) -> bool
        ensures { result ≡ is_admitted self.now }
    {
        let largest = match self.index {
            IndexWidth::Bits16 => 65533,
            IndexWidth::Bits32 => 4_294_967_293,
        };
        2 <= self.max_allocs && self.max_allocs <= largest
    }
}

/// Reads a text as a script, and returns it, or the fault of its first faulty line.
///
/// A text of more than 1,048,576 bytes is `TooLong`. Lines end with LF and are counted from 1; empty lines
/// and those that begin with `#` are skipped. The first other line must be a header: it is `BadHeader` where
/// it is none, or there is no such line, and `BadLimit` where its limit is not admitted. Each later line must
/// be a command, or is `BadCommand`. `Memory` is returned only where an allocation failed.
///
/// ```
/// let script = parse(alloc, b"space 1000 nodes 16 index 32\nalloc 300\n")?;
/// assert_eq!((script.size, script.commands.len()), (1000, 1));
/// ```
#[tactic(auto, using(crate::proofs::Meaning::steps))]
pub fn parse(alloc: Global, text: &[u8]) -> Result<Script, ScriptFault>
    // The result is the script that the text means, or the fault of its first faulty line, or `Memory`.
    ensures { IsParsed result (meaning_of text.now) }
{
    if text.len() > MAX_TEXT {
        return Err(ScriptFault::TooLong);
    }
    let mut lines = Lines::of(text);
    let Some((number, line)) = lines.next_line() else {
        return Err(ScriptFault::BadHeader(lines.number));
    };
    let Some(header) = header(line) else {
        return Err(ScriptFault::BadHeader(number));
    };
    if !header.is_admitted() {
        return Err(ScriptFault::BadLimit(number));
    }
    let mut commands = Vec::new(alloc);
    // reads the commonest lines, up to the first that is another; again after each of those
    read_common(&mut lines, &mut commands)?;
    while let Some((number, line)) = lines.next_line() {
        let Some(command) = command(line) else {
            return Err(ScriptFault::BadCommand(number));
        };
        commands.push(command)?;
        read_common(&mut lines, &mut commands)?;
    }
    Ok(Script {
        size: header.size,
        max_allocs: header.max_allocs,
        index: header.index,
        commands,
    })
}
