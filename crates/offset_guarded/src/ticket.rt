//! The ticket of a grant. It touches no space.
ghost use Rattle.std.specs.Prelude.{◌≡◌, ◌/◌, ◌%◌, ◌<◌, MatchOption};

use offset_allocator::NonMaxU32;
use std::alloc::AllocError;
use std::fmt;
use std::hash::{Hash, Hasher};
use std::marker::Model;

/// A granted range, for calls on the `Guarded` that granted it. It is four numbers in 20 bytes, and can be kept,
/// copied and made from them anywhere: each call tests whether it is live.
#[derive(Copy)]
pub struct Ticket {
    /// Where the range began when this ticket was made, by the grant or by `ticket`, in units from the start
    /// of the space. No call reads it. So after a move two tickets of one grant may differ in it, and are
    /// not equal then.
    pub offset: u32,
    name: NonMaxU32,
    // the serial, in two halves, since 64 bits at once would take 24 bytes
    low: u32,
    high: u32,
    realm: u32,
}

impl Model for Ticket {
    ghost use Rattle.std.specs.Prelude.{◌+◌, ◌*◌, ◌/◌, ◌%◌, ◌<◌, ◌^◌};
    ghost use Rattle.offset_guarded.specs.Guard as seen;

    ghost Value = { seen.Ticket };

    ghost view = { λ t. record {
      offset = t.offset;
      name = t.name;
      serial = t.high * 4294967296 + t.low;
      realm = t.realm;
    } };

    ghost invariant = { λ t. t.low < 4294967296 };

    ghost inverse = { λ t. record {
      offset = t.offset;
      name = t.name;
      low = t.serial % 4294967296;
      high = t.serial / 4294967296;
      realm = t.realm;
    } };
}

impl Clone for Ticket {
    ghost use Rattle.std.specs.Prelude.{◌≡◌, ⊤};

    ghost is_clone = { λ x y. y ≡ x };

    ghost is_infallible = { λ _. ⊤ };

    fn clone(&self) -> Result<Self, AllocError> {
        Ok(*self)
    }
}

/// Two tickets are equal where all four numbers are.
impl PartialEq for Ticket {
    ghost use Rattle.std.specs.Prelude.{◌==◌, ◌&&◌};
    ghost use Rattle.std.proofs.Common.{rules};
    ghost use Rattle.std.specs.Cmp.Rules.{comparing};

    ghost eq = { λ x y. (x.offset == y.offset) && (x.name == y.name) && (x.serial == y.serial) && (x.realm == y.realm) };

    ghost laws = { Prim.search (comparing, rules) };

    fn eq(&self, other: &Self) -> bool {
        self.offset == other.offset
            && self.name == other.name
            && self.serial() == other.serial()
            && self.realm == other.realm
    }
}

impl Eq for Ticket {
    ghost use Rattle.std.proofs.Common.{rules};
    ghost use Rattle.std.specs.Cmp.Rules.{comparing};

    ghost laws = { Prim.search (comparing, rules) };
}

impl Hash for Ticket {
    ghost use Rattle.std.specs.Prelude.{◌++◌};
    ghost use Rattle.std.proofs.Common.{rules};
    ghost use Rattle.std.specs.Cmp.Rules.{hashing};
    ghost use Rattle.std.specs.Hash as fed;

    ghost hash_input = { λ t. fed.u32 t.offset ++ fed.u32 t.name ++ fed.u64 t.serial ++ fed.u32 t.realm };

    ghost respects_eq = { Prim.search (hashing, rules) };

    fn hash<H: Hasher>(&self, state: &mut H) {
        state.write_u32(self.offset);
        state.write_u32(self.name());
        state.write_u64(self.serial());
        state.write_u32(self.realm);
    }
}

/// The text is that of a struct with the four numbers.
impl fmt::Debug for Ticket {
    fn fmt<W: fmt::Write>(&self, f: &mut fmt::Formatter<W>) -> fmt::Result {
        f.debug_struct("Ticket")
            .field("offset", &self.offset)
            .field("name", &self.name())
            .field("serial", &self.serial())
            .field("realm", &self.realm)
            .finish()
    }
}

// The low and the high half of a serial.
fn halves(serial: u64) -> (u32, u32)
    ensures { (result.0 ≡ serial % 4294967296) × (result.1 ≡ serial / 4294967296) }
{
    ((serial % 4294967296) as u32, (serial / 4294967296) as u32)
}

impl Ticket {
    /// The name of the range, which later grants may have too: a number below 4294967295.
    ///
    /// ```
    /// let mesh = guarded.allocate(300).unwrap();
    /// assert_eq!(mesh.name(), 0);
    /// ```
    #[inline]
    pub fn name(self) -> u32
        ensures name { result ≡ self.name }
        ensures below { result < 4294967295 }
    {
        self.name.get()
    }

    /// The number of the grant: those of one `Guarded` are numbered from 1 in their order, and none is given
    /// twice.
    ///
    /// ```
    /// guarded.allocate(300);
    /// let texture = guarded.allocate(100).unwrap();
    /// assert_eq!(texture.serial(), 2);
    /// ```
    #[inline]
    pub fn serial(self) -> u64
        ensures { result ≡ self.serial }
    {
        (self.high as u64) << 32 | self.low as u64
    }

    /// The realm of the `Guarded`.
    ///
    /// ```
    /// let mesh = guarded.allocate(300).unwrap();
    /// assert_eq!(mesh.realm(), guarded.realm());
    /// ```
    #[inline]
    pub fn realm(self) -> u32
        ensures { result ≡ self.realm }
    {
        self.realm
    }

    /// The ticket as four numbers: its offset, name, serial and realm. `from_parts` makes the ticket of them
    /// again.
    ///
    /// ```
    /// let mesh = guarded.allocate(300).unwrap();
    /// assert_eq!(mesh.to_parts(), (mesh.offset, mesh.name(), mesh.serial(), mesh.realm()));
    /// ```
    pub fn to_parts(self) -> (u32, u32, u64, u32)
        ensures offset { result.0 ≡ self.offset }
        ensures name { result.1 ≡ self.name }
        ensures serial { result.2 ≡ self.serial }
        ensures realm { result.3 ≡ self.realm }
    {
        (self.offset, self.name(), self.serial(), self.realm)
    }

    /// The ticket of an offset, a name, a serial and a realm, as `to_parts` returns them, or `None` where `name`
    /// is 4294967295, which is no name.
    ///
    /// It is as any other ticket: `is_live` reports whether it is live in a space.
    ///
    /// ```
    /// let mesh = guarded.allocate(300).unwrap();
    /// let (offset, name, serial, realm) = mesh.to_parts();
    /// assert_eq!(Ticket::from_parts(offset, name, serial, realm), Some(mesh));
    /// ```
    pub fn from_parts(offset: u32, name: u32, serial: u64, realm: u32) -> Option<Self>
        ensures { MatchOption result (name ≡ 4294967295) (λ t. (name < 4294967295)
            × (t ≡ record { offset = offset; name = name; serial = serial; realm = realm })) }
    {
        match NonMaxU32::new(name) {
            None => None,
            Some(name) => {
                let (low, high) = halves(serial);
                Some(Ticket {
                    offset,
                    name,
                    low,
                    high,
                    realm,
                })
            }
        }
    }

    // The same of the name of a node.
    #[inline(always)]
    pub(crate) fn of(offset: u32, name: u32, serial: u64, realm: u32) -> Self
        requires { name < 4294967295 }
        ensures { result ≡ record { offset = offset; name = name; serial = serial; realm = realm } }
    {
        match Ticket::from_parts(offset, name, serial, realm) {
            None => unreachable!(),
            Some(ticket) => ticket,
        }
    }
}
