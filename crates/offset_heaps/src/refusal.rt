//! Why a request is refused. It touches no heap.

use std::fmt;

/// Why a request is refused. No two of these apply to one request: see `laws::reasons_exclude_one_another`. A
/// heap has room for a tight request where a free block holds it.
#[derive(Clone, Copy, Debug, PartialEq)]
pub enum Refusal {
    /// The request is for no unit.
    Empty,
    /// No heap has room, and none may ever be large enough: the last usual one would not have room when it is
    /// fresh either, and there may be no larger ones.
    TooLarge,
    /// No heap has room, and though one may be large enough, none may be made for it now: each number of its
    /// kind whose heap would be large enough has one, or all 4294967295 realms are given. Its kind is the usual
    /// one where the last usual heap would have room when it is fresh, and else a larger one. Free ranges, or
    /// drop empty heaps of that kind. It says nothing of `is_full`, which is a space at its node limit.
    Full,
    /// Memory was refused: where no heap has room, that for another one, which may be made; where one has room,
    /// that for more nodes of the first such, whose own node limit, below `max_allocs`, leaves too few for it.
    Memory,
}

impl fmt::Display for Refusal {
    ghost use Rattle.std.specs.Prelude.{Some};
    ghost use Rattle.offset_heaps.specs.Heaps.{refusal_words};

    ghost output = { λ why. Some (refusal_words why) };

    fn fmt<W: fmt::Write>(&self, f: &mut fmt::Formatter<W>) -> fmt::Result {
        let words = match self {
            Refusal::Empty => "the request is for no unit",
            Refusal::TooLarge => "the request is larger than any heap may be",
            Refusal::Full => "no heap has room, and no other may be made",
            Refusal::Memory => "no memory is left for another heap or for more nodes",
        };
        write!(f, "{words}")
    }
}
