//! Where a range is: the number of its heap, and its grant there. It touches no heap.
ghost use Rattle.std.specs.Prelude.{◌≡◌, ◌/◌, ◌%◌, ◌<◌, MatchOption};
ghost use Rattle.offset_heaps.specs.Places.{place_of, ticket_from, ticket_of};

use offset_allocator::NonMaxU32;
use offset_guarded::Ticket;
use std::alloc::AllocError;
use std::fmt;
use std::hash::{Hash, Hasher};
use std::marker::Model;

/// A granted range, for calls on the `Heaps` that granted it. It is five numbers in 24 bytes, and so is an
/// `Option<Place>`. It can be kept, copied and made from them anywhere: each call tests whether it is live.
///
/// It says which grant it is of, and not where the range begins: so a move leaves it as it is, and two places of
/// one grant are always equal. `Granted` has the offset of the grant, and `offset_of` returns the present one.
#[derive(Copy)]
pub struct Place {
    /// The number of its heap, which a later heap may have too.
    pub heap: u32,
    /// The realm of the `Heaps`.
    pub realm: u32,
    name: NonMaxU32,
    // the serial, in two halves: so a place can lie at any multiple of 4 bytes
    low: u32,
    high: u32,
    heap_realm: u32,
}

impl Model for Place {
    ghost use Rattle.std.specs.Prelude.{◌+◌, ◌*◌, ◌/◌, ◌%◌, ◌<◌, ◌^◌};
    ghost use Rattle.offset_heaps.specs.Places as seen;

    ghost Value = { seen.Place };

    ghost view = { λ p. record {
      heap = p.heap;
      realm = p.realm;
      name = p.name;
      serial = p.high * 4294967296 + p.low;
      heap_realm = p.heap_realm;
    } };

    ghost invariant = { λ p. p.low < 4294967296 };

    ghost inverse = { λ p. record {
      heap = p.heap;
      realm = p.realm;
      name = p.name;
      low = p.serial % 4294967296;
      high = p.serial / 4294967296;
      heap_realm = p.heap_realm;
    } };
}

impl Clone for Place {
    ghost use Rattle.std.specs.Prelude.{◌≡◌, ⊤};

    ghost is_clone = { λ x y. y ≡ x };

    ghost is_infallible = { λ _. ⊤ };

    fn clone(&self) -> Result<Self, AllocError> {
        Ok(*self)
    }
}

/// Two places are equal where all five numbers are: then they are of one grant.
impl PartialEq for Place {
    ghost use Rattle.std.specs.Prelude.{◌==◌, ◌&&◌};
    ghost use Rattle.std.proofs.Common.{rules};
    ghost use Rattle.std.specs.Cmp.Rules.{comparing};

    ghost eq = { λ x y. (x.heap == y.heap) && (x.realm == y.realm) && (x.name == y.name) && (x.serial == y.serial)
        && (x.heap_realm == y.heap_realm) };

    ghost laws = { Prim.search (comparing, rules) };

    fn eq(&self, other: &Self) -> bool {
        self.heap == other.heap
            && self.realm == other.realm
            && self.name == other.name
            && self.serial() == other.serial()
            && self.heap_realm == other.heap_realm
    }
}

impl Eq for Place {
    ghost use Rattle.std.proofs.Common.{rules};
    ghost use Rattle.std.specs.Cmp.Rules.{comparing};

    ghost laws = { Prim.search (comparing, rules) };
}

impl Hash for Place {
    ghost use Rattle.std.specs.Prelude.{◌++◌};
    ghost use Rattle.std.proofs.Common.{rules};
    ghost use Rattle.std.specs.Cmp.Rules.{hashing};
    ghost use Rattle.std.specs.Hash as fed;

    ghost hash_input = { λ p. fed.u32 p.heap ++ fed.u32 p.realm ++ fed.u32 p.name ++ fed.u64 p.serial ++ fed.u32 p.heap_realm };

    ghost respects_eq = { Prim.search (hashing, rules) };

    fn hash<H: Hasher>(&self, state: &mut H) {
        state.write_u32(self.heap);
        state.write_u32(self.realm);
        state.write_u32(self.name());
        state.write_u64(self.serial());
        state.write_u32(self.heap_realm);
    }
}

/// The text is that of a struct with the five numbers.
impl fmt::Debug for Place {
    fn fmt<W: fmt::Write>(&self, f: &mut fmt::Formatter<W>) -> fmt::Result {
        f.debug_struct("Place")
            .field("heap", &self.heap)
            .field("realm", &self.realm)
            .field("name", &self.name())
            .field("serial", &self.serial())
            .field("heap_realm", &self.heap_realm)
            .finish()
    }
}

// The low and the high half of a serial.
fn halves(serial: u64) -> (u32, u32)
    ensures { (result.0 ≡ serial % 4294967296) × (result.1 ≡ serial / 4294967296) }
{
    ((serial % 4294967296) as u32, (serial / 4294967296) as u32)
}

impl Place {
    /// The name of the range in its heap, which later grants may have too: a number below 4294967295.
    ///
    /// ```
    /// let mesh = heaps.allocate(300).unwrap().place;
    /// assert_eq!(mesh.name(), 0);
    /// ```
    #[inline]
    pub fn name(self) -> u32
        ensures name { result ≡ self.name }
        ensures below { result < 4294967295 }
    {
        self.name.get()
    }

    /// The number of the grant in its heap: those of one heap are numbered from 1 in their order, and none is
    /// given twice there.
    ///
    /// ```
    /// heaps.allocate(300).unwrap();
    /// let texture = heaps.allocate(100).unwrap().place;
    /// assert_eq!(texture.serial(), 2);
    /// ```
    #[inline]
    pub fn serial(self) -> u64
        ensures { result ≡ self.serial }
    {
        (self.high as u64) << 32 | self.low as u64
    }

    /// The realm of its heap, which no other heap of these `Heaps` ever has.
    ///
    /// ```
    /// let mesh = heaps.allocate(300).unwrap().place;
    /// assert_eq!(mesh.heap_realm(), heaps.heap(mesh.heap).unwrap().realm());
    /// ```
    #[inline]
    pub fn heap_realm(self) -> u32
        ensures { result ≡ self.heap_realm }
    {
        self.heap_realm
    }

    /// Its ticket in its heap, to ask that heap itself, as `heap` returns it. A ticket has an offset too, which no
    /// call reads, and which is as it is passed here: that of the grant, or what `offset_of` returns.
    ///
    /// ```
    /// let mesh = heaps.allocate(300).unwrap();
    /// let ticket = mesh.place.ticket(mesh.offset);
    /// assert_eq!(heaps.heap(mesh.place.heap).unwrap().size_of(ticket), Some(300));
    /// ```
    #[inline]
    pub fn ticket(self, offset: u32) -> Ticket
        ensures { result ≡ ticket_from offset self }
    {
        match Ticket::from_parts(offset, self.name(), self.serial(), self.heap_realm) {
            None => unreachable!(),
            Some(ticket) => ticket,
        }
    }

    // The number of its heap, the realm, and its ticket in the heap, for calls there, none of which reads the offset.
    #[inline]
    pub(crate) fn split(self) -> (u32, u32, Ticket)
        ensures { result ≡ (self.heap, self.realm, ticket_of self) }
    {
        (self.heap, self.realm, self.ticket(0))
    }

    /// The place as five numbers: its heap, the realm, and of its grant in that heap the name, the serial and the
    /// realm. `from_parts` makes the place of them again.
    ///
    /// ```
    /// let mesh = heaps.allocate(300).unwrap().place;
    /// assert_eq!(mesh.to_parts(), (mesh.heap, mesh.realm, mesh.name(), mesh.serial(), mesh.heap_realm()));
    /// ```
    pub fn to_parts(self) -> (u32, u32, u32, u64, u32)
        ensures heap { result.0 ≡ self.heap }
        ensures realm { result.1 ≡ self.realm }
        ensures name { result.2 ≡ self.name }
        ensures serial { result.3 ≡ self.serial }
        ensures heap_realm { result.4 ≡ self.heap_realm }
    {
        (
            self.heap,
            self.realm,
            self.name(),
            self.serial(),
            self.heap_realm,
        )
    }

    /// The place of a heap, a realm, a name, a serial and the realm of the heap, as `to_parts` returns them, or
    /// `None` where `name` is 4294967295, which is no name.
    ///
    /// It is as any other place: `is_live` reports whether it is live in a `Heaps`.
    ///
    /// ```
    /// let mesh = heaps.allocate(300).unwrap().place;
    /// let (heap, realm, name, serial, heap_realm) = mesh.to_parts();
    /// assert_eq!(Place::from_parts(heap, realm, name, serial, heap_realm), Some(mesh));
    /// ```
    pub fn from_parts(
        heap: u32,
        realm: u32,
        name: u32,
        serial: u64,
        heap_realm: u32,
    ) -> Option<Self>
        ensures { MatchOption result (name ≡ 4294967295) (λ p. (name < 4294967295)
            × (p ≡ record {
              heap = heap;
              realm = realm;
              name = name;
              serial = serial;
              heap_realm = heap_realm;
            })) }
    {
        match NonMaxU32::new(name) {
            None => None,
            Some(name) => {
                let (low, high) = halves(serial);
                Some(Place {
                    heap,
                    realm,
                    name,
                    low,
                    high,
                    heap_realm,
                })
            }
        }
    }

    /// The place of a ticket of the heap of a number, in the `Heaps` of a realm. The offset of the ticket is left
    /// out.
    ///
    /// ```
    /// let mesh = heaps.allocate(300).unwrap().place;
    /// let ticket = heaps.heap(mesh.heap).unwrap().first_live().unwrap();
    /// assert_eq!(Place::from_ticket(mesh.heap, heaps.realm(), ticket), mesh);
    /// ```
    #[inline]
    pub fn from_ticket(heap: u32, realm: u32, ticket: Ticket) -> Self
        ensures { result ≡ place_of heap realm ticket }
    {
        match Place::from_parts(heap, realm, ticket.name(), ticket.serial(), ticket.realm()) {
            None => unreachable!(),
            Some(place) => place,
        }
    }
}

/// What a request is granted.
#[derive(Clone, Copy, PartialEq, Eq, Debug)]
pub struct Granted {
    /// The range.
    pub place: Place,
    /// Where it begins, in units from the start of its heap.
    pub offset: u32,
    /// Whether its heap was made for it. Then make the buffer of that number before the range is used, or
    /// take the heap back by `give_up`.
    pub is_new: bool,
}

impl Granted {
    // What the ticket of a grant in a heap says.
    #[inline]
    pub(crate) fn of(heap: u32, realm: u32, ticket: Ticket, is_new: bool) -> Self
        ensures { result ≡ record { place = place_of heap realm ticket; offset = ticket.offset; is_new = is_new } }
    {
        let offset = ticket.offset;
        Granted {
            place: Place::from_ticket(heap, realm, ticket),
            offset,
            is_new,
        }
    }
}
