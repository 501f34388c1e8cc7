//! The form of a state with tickets, and faults. It touches no space.
use std::fmt;

/// The number that a state with tickets begins with: its first bytes are the letters OATK.
pub(crate) const FORM: u64 = 1263812943;

/// The version of the form.
pub(crate) const VERSION: u64 = 2;

/// What is wrong with the bytes of a state, and where.
#[derive(Clone, Copy, PartialEq, Debug)]
pub struct StateFault {
    /// The place of the byte from which on the bytes are wrong; or their number, where there are too few or
    /// too many.
    pub at: usize,
    /// What is wrong there.
    pub kind: StateFaultKind,
}

/// What is wrong with the bytes of a state: of the numbers of tickets the first that applies of `Length`, for
/// fewer than 56 bytes, `Form`, `Length` again, for the counts, `Realm`, `Step` and `Checksum`; then what is wrong
/// with the space; and then with the first serial that is wrong. The place is that of the number that is wrong, if
/// nothing else is said.
#[derive(Clone, Copy, PartialEq, Debug)]
pub enum StateFaultKind {
    /// They are fewer than the numbers of tickets, of which they say how many there are.
    Length,
    /// They do not begin as a state with tickets does, or are of another version: the place is 0.
    Form,
    /// The realm has more than 32 bits.
    Realm,
    /// The step has more than 32 bits.
    Step,
    /// The checksum is not that of the numbers of tickets.
    Checksum,
    /// The serial of a name: it is above the number of grants; or, where none is, there is none for a live
    /// range, and then the place is that of the serial, which is 0, or of the number of serials, which is too
    /// small.
    Serial,
    /// The state of the space, which is behind the numbers of tickets, has this fault: the place is that in
    /// its bytes, and counts from where all bytes begin.
    Allocator(offset_allocator::StateFaultKind),
}

impl fmt::Display for StateFaultKind {
    ghost use Rattle.std.specs.Prelude.{Some};
    ghost use Rattle.offset_guarded.specs.Faults.{fault_words};

    ghost output = { λ kind. Some (fault_words kind) };

    fn fmt<W: fmt::Write>(&self, f: &mut fmt::Formatter<W>) -> fmt::Result {
        match self {
            StateFaultKind::Length => write!(f, "fewer bytes than the counts say"),
            StateFaultKind::Form => write!(f, "no state with tickets, or one of another version"),
            StateFaultKind::Realm => write!(f, "a realm of more than 32 bits"),
            StateFaultKind::Step => write!(f, "a step of more than 32 bits"),
            StateFaultKind::Checksum => write!(f, "a checksum that is not that of the tickets"),
            StateFaultKind::Serial => write!(
                f,
                "a serial that was not given, or none for a live range"
            ),
            StateFaultKind::Allocator(kind) => write!(f, "{kind}"),
        }
    }
}
