//! Values of the caller's beside tickets. It touches no space.
ghost use Rattle.std.specs.Prelude.{ℕ, ◌≡◌, ◌+◌, ◌<◌, ◌≤◌, ◌&&◌, [], None, Some, IfErr, IfOk, OnErr, OnOk, IfSome, IsErr, length, max, slice_set};
ghost use Rattle.std.specs.Prelude.{nat_eq, option_copied, option_map, replicate, ◌==◌, ⊤, IsSome};
ghost use Rattle.std.specs.Borrow.{sem};
ghost use Rattle.std.specs.Iterator.{YieldsFirstBy, item_count};
ghost use Rattle.std.specs.Option.{option_copied_mut};
ghost use Rattle.offset_guarded.specs.Guard.{IsLive};
ghost use Rattle.offset_guarded.specs.Lends.{lends_second};
ghost use Rattle.offset_guarded.specs.Values.{AreNamed, KeepsOtherEntries, SameEntries, entries, entry, value_of};

use crate::GuardedOf;
use crate::ticket::Ticket;
use offset_allocator::Tables;
use offset_allocator::laws::is_well_formed;
use std::alloc::{AllocError, Global};
use std::fmt;
use std::iter::FusedIterator;
use std::marker::Model;
use std::mem::replace;

/// One value of the caller's beside each of some tickets, such as a name, a resource or an exact size.
///
/// Put one where a range is granted, and take it where the range is freed: what `iter` has in the end was
/// never freed. Use one for each space. It has a cell for each name up to the largest that was given, so never
/// more than the node limit of the space, and each call but `put`, `clear` and a walk takes constant time; any
/// ticket may be given, and one of another grant has no value here.
///
/// States have no values: store each that `iter` has, with the parts of its ticket, and put it beside the space that is read.
///
/// ```
/// let mut names = Beside::new(alloc);
/// let mesh = guarded.allocate(300).unwrap();
/// assert!(names.put(&guarded, mesh, "mesh").is_ok());
/// assert_eq!(names.get(mesh), Some(&"mesh"));
/// guarded.free(mesh);
/// assert_eq!(names.take(mesh), Some("mesh"));
/// ```
#[derive(Drop)]
pub struct Beside<V> {
    // by name
    cells: Vec<Option<(Ticket, V)>>,
    // how many of them have a value
    kept: usize,
}

impl<V> Model for Beside<V> {
    ghost use Rattle.std.specs.Prelude.{◌≡◌, List, Option, length};
    ghost use Rattle.std.specs.Coded.{coded_list, coded_option, coded×};
    ghost use Rattle.offset_guarded.specs.Guard.{Ticket};
    ghost use Rattle.offset_guarded.specs.Values.{AreNamed, entries};

    ghost Value = { List (Option (Ticket × V)) };

    ghost view = { λ b. b.cells.items };

    ghost invariant = { λ b. AreNamed b.cells.items × (b.kept ≡ length (entries b.cells.items)) };
}

// Whether two tickets of one name are of one grant.
fn are_alike(one: Ticket, other: Ticket) -> bool
    ensures { result ≡ (nat_eq one.serial other.serial && nat_eq one.realm other.realm) }
{
    one.serial() == other.serial() && one.realm() == other.realm()
}

// The value of the entry of a cell that has one.
fn lend_value<V>(cell: &mut Option<(Ticket, V)>) -> &mut V
    requires { IsSome cell.old }
    ensures* writes_back { sem 𝓛 (lends_second V.row cell.entry result) }
    ensures value { option_map (λ e. e.1) cell.old ≡ Some result.now }
{
    match cell {
        Some(entry) => &mut entry.1,
        None => unreachable!(),
    }
}

// Drops what some cells have.
fn empty<X: Drop>(cells: &mut Vec<Option<X>>)
    ensures { cells.new.items ≡ replicate (length cells.old.items) None }
{
    for place in 0..cells.len() {
        cells[place] = None;
    }
}

impl<V> Beside<V> {
    ghost use Rattle.offset_guarded.specs.Lends.{lends_named, lends_value};

    /// No value. It takes no memory.
    pub fn new(alloc: Global) -> Self
        ensures { result ≡ [] }
    {
        Beside {
            cells: Vec::new(alloc),
            kept: 0,
        }
    }

    // Makes the cells of all names below a number.
    fn cover(&mut self, names: usize) -> Result<(), AllocError>
        ensures covers { OnOk result (names ≤ length self.new) }
        ensures cells { OnOk result (length self.new ≡ max (length self.old) names) }
        ensures none { OnErr result (length self.new ≡ length self.old) }
        ensures room { IsErr result → length self.old < names }
        ensures same { SameEntries self.old self.new }
    {
        let more = names.saturating_sub(self.cells.len());
        self.cells.reserve(more)?;
        while self.cells.len() < names {
            self.cells.push_reserved(None);
        }
        Ok(())
    }

    // Puts an entry, or none, into the cell of a name, and returns what was there.
    fn exchange(&mut self, name: usize, with: Option<(Ticket, V)>) -> Option<(Ticket, V)>
        requires cell { name < length self.old }
        requires named { IfSome with (λ e. e.0.name ≡ name) }
        ensures after { self.new ≡ slice_set self.old name with }
        ensures was { result ≡ entry name self.old }
    {
        let more = usize::from(with.is_some());
        let was = replace(&mut self.cells[name], with);
        self.kept -= usize::from(was.is_some());
        self.kept += more;
        was
    }

    // Puts a value under the name of a ticket, and returns what was there.
    fn put_at(&mut self, ticket: Ticket, value: V) -> Result<Option<(Ticket, V)>, V>
        ensures put { OnOk result (entry ticket.name self.new ≡ Some (ticket, value)) }
        ensures was { IfOk result (λ e. e ≡ entry ticket.name self.old) }
        ensures others { KeepsOtherEntries ticket.name self.old self.new }
        ensures back { IfErr result (λ v. v ≡ value) }
        ensures same { OnErr result (SameEntries self.old self.new) }
        ensures cells { OnOk result (length self.new ≡ max (length self.old) (ticket.name + 1)) }
        ensures none { OnErr result (length self.new ≡ length self.old) }
        ensures room { IsErr result → length self.old ≤ ticket.name }
    {
        let name = ticket.name() as usize;
        if self.cover(name + 1).is_err() {
            return Err(value);
        }
        Ok(self.exchange(name, Some((ticket, value))))
    }

    /// Puts a value beside a ticket that is live in its space, and returns what was under its name: the same
    /// ticket's value, or one of an earlier grant that was not taken. Where the name is larger than any before,
    /// it takes memory and time for the cells up to it.
    ///
    /// # Errors
    ///
    /// The value is returned where the ticket is not live in the space, and where the name has no cell yet, and
    /// an allocation failed; then all values are as they were.
    ///
    /// ```
    /// let mut sizes = Beside::new(alloc);
    /// let mesh = guarded.allocate(300).unwrap();
    /// assert_eq!(sizes.put(&guarded, mesh, 76_800), Ok(None));
    /// assert_eq!(sizes.put(&guarded, mesh, 76_801), Ok(Some((mesh, 76_800))));
    /// guarded.free(mesh);
    /// assert_eq!(sizes.put(&guarded, mesh, 76_802), Err(76_802));
    /// ```
    pub fn put<T: Tables>(
        &mut self,
        space: &GuardedOf<T>,
        ticket: Ticket,
        value: V,
    ) -> Result<Option<(Ticket, V)>, V>
        // Only a live ticket gets a value, and it does where its name has a cell.
        ensures live { OnOk result (IsLive ticket space.now) }
        ensures refused { IsErr result → IsLive ticket space.now → length self.old ≤ ticket.name }
        // There is a cell for each name up to this one, which is below the node limit.
        ensures cells { OnOk result (length self.new ≡ max (length self.old) (ticket.name + 1)) }
        ensures few { OnOk result (ticket.name + 1 ≤ space.now.space.max_allocs) }
        // It is the value of the ticket, and no other name has another one.
        ensures put { OnOk result (entry ticket.name self.new ≡ Some (ticket, value)) }
        ensures was { IfOk result (λ e. e ≡ entry ticket.name self.old) }
        ensures others { KeepsOtherEntries ticket.name self.old self.new }
        // A refusal gives the value back, and leaves all as it was.
        ensures back { IfErr result (λ v. v ≡ value) }
        ensures same { OnErr result (SameEntries self.old self.new) }
        ensures none { OnErr result (length self.new ≡ length self.old) }
    {
        if !space.is_live(ticket) {
            return Err(value);
        }
        // A step of the proof, which does nothing: the name of a live ticket is below the node limit.
        is_well_formed(space.allocator());
        self.put_at(ticket, value)
    }

    /// The value beside a ticket, or `None` where it has none.
    ///
    /// ```
    /// let names = Beside::<u32>::new(alloc);
    /// assert_eq!(names.get(guarded.allocate(300).unwrap()), None);
    /// ```
    pub fn get(&self, ticket: Ticket) -> Option<&V>
        ensures { option_copied result ≡ value_of ticket self.now }
    {
        match self.cells.get(ticket.name() as usize) {
            Some(Some((kept, value))) => {
                if are_alike(*kept, ticket) {
                    Some(value)
                } else {
                    None
                }
            }
            _ => None,
        }
    }

    /// The value under a name, with its ticket, or `None` where there is none: of a range that moves, where the
    /// space itself cannot be asked, that of `range.allocation().name()`.
    ///
    /// It is the last that was put under that name. So where each grant gets a value, it is that of the range
    /// that has the name; where one got none, it may be one of an earlier grant that was not taken.
    ///
    /// ```
    /// let mut names = Beside::new(alloc);
    /// let rock = guarded.allocate(300).unwrap();
    /// let mesh = guarded.allocate(300).unwrap();
    /// assert!(names.put(&guarded, mesh, "mesh").is_ok());
    /// guarded.free(rock);
    /// guarded.compact_unaligned(&mut |range| {
    ///     assert_eq!(names.under(range.allocation().name()), Some((mesh, &"mesh")));
    /// });
    /// ```
    pub fn under(&self, name: u32) -> Option<(Ticket, &V)>
        ensures entry { option_map (λ e. (e.0, e.1.now)) result ≡ entry name self.now }
        // The ticket has this name, as each has the name of its cell.
        ensures named { AreNamed self.now }
    {
        match self.cells.get(name as usize) {
            Some(Some((ticket, value))) => Some((*ticket, value)),
            _ => None,
        }
    }

    /// The value beside a ticket, to be changed in place, or `None` where it has none.
    ///
    /// ```
    /// let mut uses = Beside::new(alloc);
    /// let mesh = guarded.allocate(300).unwrap();
    /// assert!(uses.put(&guarded, mesh, 0).is_ok());
    /// *uses.get_mut(mesh).unwrap() += 1;
    /// assert_eq!(uses.get(mesh), Some(&1));
    /// ```
    pub fn get_mut(&mut self, ticket: Ticket) -> Option<&mut V>
        ensures* writes_back { sem 𝓛 (lends_value V.row self.entry ticket result) }
        ensures value { option_copied_mut result ≡ value_of ticket self.old }
    {
        if self.get(ticket).is_some() {
            Some(self.value_mut(ticket.name()))
        } else {
            None
        }
    }

    // The value under a name that has one.
    fn value_mut(&mut self, name: u32) -> &mut V
        requires { IsSome (entry name self.old) }
        ensures* writes_back { sem 𝓛 (lends_named V.row self.entry name result) }
        ensures value { option_map (λ e. e.1) (entry name self.old) ≡ Some result.now }
    {
        lend_value(&mut self.cells[name as usize])
    }

    /// Takes out the value beside a ticket, or returns `None` where it has none, and then all is as it was.
    ///
    /// ```
    /// let mut names = Beside::new(alloc);
    /// let mesh = guarded.allocate(300).unwrap();
    /// assert!(names.put(&guarded, mesh, "mesh").is_ok());
    /// assert_eq!((names.take(mesh), names.take(mesh)), (Some("mesh"), None));
    /// ```
    pub fn take(&mut self, ticket: Ticket) -> Option<V>
        ensures value { result ≡ value_of ticket self.old }
        ensures gone { value_of ticket self.new ≡ None }
        ensures others { KeepsOtherEntries ticket.name self.old self.new }
        // Its cell is empty, and no cell is gone.
        ensures cell { IfSome result (λ _. self.new ≡ slice_set self.old ticket.name None) }
        ensures same { result ≡ None → self.new ≡ self.old }
    {
        if self.get(ticket).is_none() {
            return None;
        }
        match self.exchange(ticket.name() as usize, None) {
            Some((_ticket, value)) => Some(value),
            None => unreachable!(),
        }
    }

    /// The cells, by name: what was put and not taken, each value with its ticket. `iter` gives these alone.
    ///
    /// ```
    /// let mut names = Beside::new(alloc);
    /// let mesh = guarded.allocate(300).unwrap();
    /// assert!(names.put(&guarded, mesh, "mesh").is_ok());
    /// for (ticket, name) in names.leaks().iter().flatten() {
    ///     assert_eq!((*ticket, *name), (mesh, "mesh"));
    /// }
    /// ```
    pub fn leaks(&self) -> &[Option<(Ticket, V)>]
        ensures all { result.now ≡ self.now }
        // Each has the name of its ticket, so no two tickets have one.
        ensures named { AreNamed self.now }
    {
        &self.cells
    }

    /// An iterator over what was put and not taken, each value with its ticket, by name. It reads each cell once.
    ///
    /// ```
    /// let mut names = Beside::new(alloc);
    /// let mesh = guarded.allocate(300).unwrap();
    /// assert!(names.put(&guarded, mesh, "mesh").is_ok());
    /// for (ticket, name) in names.iter() {
    ///     assert_eq!((ticket, *name), (mesh, "mesh"));
    /// }
    /// ```
    pub fn iter(&self) -> BesideIter<'_, V>
        ensures { result ≡ entries self.now }
    {
        BesideIter {
            cells: &self.cells,
            left: self.kept,
        }
    }

    /// How many values there are.
    ///
    /// ```
    /// let mut names = Beside::new(alloc);
    /// let mesh = guarded.allocate(300).unwrap();
    /// assert!(names.put(&guarded, mesh, "mesh").is_ok());
    /// assert_eq!(names.len(), 1);
    /// ```
    pub fn len(&self) -> usize
        ensures { result ≡ length (entries self.now) }
    {
        self.kept
    }

    /// Whether there is no value.
    ///
    /// ```
    /// assert!(Beside::<u32>::new(alloc).is_empty());
    /// ```
    pub fn is_empty(&self) -> bool
        ensures { result ≡ (length (entries self.now) == 0) }
    {
        self.kept == 0
    }

    /// Drops all values, and keeps the cells, in time that grows with these.
    ///
    /// ```
    /// let mut names = Beside::new(alloc);
    /// let mesh = guarded.allocate(300).unwrap();
    /// assert!(names.put(&guarded, mesh, "mesh").is_ok());
    /// names.clear();
    /// assert_eq!(names.get(mesh), None);
    /// ```
    pub fn clear(&mut self)
    where
        V: Drop,
        ensures { self.new ≡ replicate (length self.old) None }
    {
        empty(&mut self.cells);
        self.kept = 0;
    }
}

impl<'a, V> IntoIterator for &'a Beside<V> {
    type Item = (Ticket, &'a V);

    type IntoIter = BesideIter<'a, V>;

    ghost into_iter_gives = { λ b it. it ≡ entries b.now };

    fn into_iter(self) -> BesideIter<'a, V> {
        self.iter()
    }
}

/// The text is that of a map from tickets to values.
impl<V: fmt::Debug> fmt::Debug for Beside<V> {
    fn fmt<W: fmt::Write>(&self, f: &mut fmt::Formatter<W>) -> fmt::Result {
        f.debug_map().entries(self.iter()).finish()
    }
}

/// The values of a `Beside` with their tickets, by name, seen as the list of those that are left.
#[derive(Drop)]
pub struct BesideIter<'a, V> {
    cells: &'a [Option<(Ticket, V)>],
    // how many values are left
    left: usize,
}

impl<'a, V> Model for BesideIter<'a, V> {
    ghost use Rattle.std.specs.Prelude.{◌≡◌, List, length};
    ghost use Rattle.std.specs.Coded.{coded_list, coded×};
    ghost use Rattle.offset_guarded.specs.Guard.{Ticket};
    ghost use Rattle.offset_guarded.specs.Values.{entries};

    ghost Value = { List (Ticket × V) };

    ghost view = { λ it. entries it.cells.now };

    ghost invariant = { λ it. it.left ≡ length (entries it.cells.now) };
}

impl<'a, V> Clone for BesideIter<'a, V> {
    ghost is_clone = { λ it copy. copy ≡ it };

    ghost is_infallible = { λ _. ⊤ };

    fn clone(&self) -> Result<Self, AllocError> {
        Ok(BesideIter {
            cells: self.cells,
            left: self.left,
        })
    }
}

impl<'a, V> Iterator for BesideIter<'a, V> {
    type Item = (Ticket, &'a V);

    ghost next_gives = { YieldsFirstBy (λ item. (item.0, item.1.now)) (λ rest. rest) };

    ghost remaining = { item_count (λ rest. rest) };

    fn next(&mut self) -> Option<(Ticket, &'a V)> {
        while let Some((cell, rest)) = self.cells.split_first() {
            self.cells = rest;
            if let Some((ticket, value)) = cell {
                self.left -= 1;
                return Some((*ticket, value));
            }
        }
        None
    }

    fn size_hint(&self) -> (usize, Option<usize>) {
        (self.left, Some(self.left))
    }
}

impl<'a, V> ExactSizeIterator for BesideIter<'a, V> {
    fn len(&self) -> usize {
        self.left
    }
}

impl<'a, V> FusedIterator for BesideIter<'a, V> {}

impl<'a, V> fmt::Debug for BesideIter<'a, V> {
    fn fmt<W: fmt::Write>(&self, f: &mut fmt::Formatter<W>) -> fmt::Result {
        f.debug_struct("BesideIter")
            .field("remaining", &self.len())
            .finish()
    }
}
