//! The steps of requests, releases, `extend` and `reset`, by `store`, `neighbours`, `chain` and `bins`; offsets
//! and sizes are read here too. Each leaves an allocator whose blocks and bins agree, and whose `free_total` is the sum of its
//! free units.
ghost use Rattle.std.specs.Prelude.{◌≡◌, ◌↔◌, ◌+◌, ◌-◌, ◌*◌, ◌<◌, ◌≤◌, ◌≢◌, ℕ, [], ◌∷◌, length, replicate};
ghost use Rattle.std.specs.Prelude.{None, false, true, IsTrue, IsSome, IfSome, Some};
ghost use Rattle.offset_allocator.specs.Accesses.{Costs};
ghost use Rattle.offset_allocator.specs.Classes.{up, down};
ghost use Rattle.offset_allocator.specs.Cells.{IsBare};
ghost use Rattle.offset_allocator.specs.Bins.{IsFoundFrom};
ghost use Rattle.offset_allocator.specs.Store.{AreBinned, bins_of};
ghost use Rattle.offset_allocator.specs.Ranges.{range_of, IsLive, KeepsAll, KeepsOthers};
ghost use Rattle.offset_allocator.specs.Requests.{NewestHolds, AdmitsBlocks, blocks_needed};
ghost use Rattle.offset_allocator.specs.View.{IsWellFormed, bin_at, ends_used, padding_to, free_block, push};
ghost use Rattle.offset_allocator.specs.View.{last_used, count_used};
ghost use Rattle.offset_allocator.specs.Relations.{Splits, Aligns, Frees, Adds, SameState, Resets};
ghost use Rattle.offset_allocator.specs.Relations.{FreesLast, IsEmpty};
ghost use Rattle.offset_allocator.specs.Soundness.{IsSound, view_of};

use crate::accesses::Accesses;
use crate::handle::Allocation;
use crate::index::NodeIndex;
use crate::neighbours::Parts;
use crate::small_float::{uint_to_float_round_down, uint_to_float_round_up};
use crate::store::{Store, ensure_spare};
use crate::tables::Tables;
use crate::{AllocatorOf, bins, chain, neighbours};

/// The handle of an offset and a name.
pub(crate) fn handle_of<NI: NodeIndex>(offset: u32, name: u32) -> Allocation<NI>
    requires { name < NI.MAX }
    ensures { result ≡ record { name = name; offset = offset } }
{
    Allocation::make(offset, NI::from_u32(name).to_name())
}

/// Makes the whole space one free block, alone in its bin, where all bins are empty and only node 0 is made.
pub(crate) fn start<T: Tables>(store: &mut Store<T>, size: u32, max_allocs: u32)
    requires bare { IsBare max_allocs (T.cells store.old.tables).chain }
    requires binned { AreBinned T.cells T.Index.MAX store.old }
    requires empty { bins_of T.cells T.Index.MAX store.old ≡ replicate 256 [] }
    requires limit_min { 2 ≤ max_allocs }
    requires limit_max { max_allocs + 1 < T.Index.MAX }
    ensures sound { IsSound T.Index.MAX size max_allocs
        (T.cells store.new.tables) 0 0 store.new.top_mask size }
    // under the name 0; of the view, no access is counted
    ensures view { view_of T.Index.MAX size max_allocs (T.cells store.new.tables) 0 0 0 ≡ record {
      size = size;
      max_allocs = max_allocs;
      blocks = free_block 0 size ∷ [];
      bins = push (down size) 0 (replicate 256 []);
      unused = [];
      accesses = 0;
    } }
    ensures last { store.new.last ≡ store.old.last }
    ensures spares { store.new.spare_count ≡ store.old.spare_count }
    ensures accesses { Costs 9 10 store.old.accesses store.new.accesses }
{
    chain::start(&mut store.tables, size, max_allocs, &mut store.accesses);
    bins::push(store, 0, uint_to_float_round_down(size));
}

impl<T: Tables> AllocatorOf<T> {
    /// The name of the last live range, or `None` where nothing is live: then the whole space is one free block.
    /// Since no two neighbours are free, the last used block is the last block or the one before it.
    pub(crate) fn last_used(&mut self) -> Option<u32>
        ensures same { SameState self.old self.new }
        ensures last { result ≡ last_used self.old.blocks }
        ensures used { IfSome result (λ x. IsLive x self.new) }
        ensures none { result ≡ None → IsEmpty self.new }
        ensures accesses { Costs 1 2 self.old.accesses self.new.accesses }
    {
        let last = self.store.last;
        if chain::is_used(&self.store.tables, last, &mut self.store.accesses) {
            return Some(last);
        }
        chain::before(&self.store.tables, last, &mut self.store.accesses)
    }

    /// Frees every live range, the last one first. It is out of line, so that `reset` stays small where it is inlined.
    #[inline(never)]
    pub(crate) fn free_all(&mut self)
        ensures freed { FreesLast (count_used self.old.blocks) self.old self.new }
        ensures empty { IsEmpty self.new }
        ensures accesses { Costs 1 (38 * count_used self.old.blocks + 2) self.old.accesses self.new.accesses }
    {
        while let Some(name) = self.last_used() {
            self.release(name);
        }
    }

    /// Starts the blocks and the bins anew, each in place. It is out of line, so that `reset` stays small
    /// where it is inlined.
    #[inline(never)]
    pub(crate) fn clear(&mut self)
        requires many { 5 < length self.old.blocks }
        ensures step { Resets self.old self.new }
        ensures accesses { Costs 269 270 self.old.accesses self.new.accesses }
    {
        self.store.tables.clear();
        bins::empty(&mut self.store);
        start(&mut self.store, self.size, self.max_allocs);
        self.free_total = self.size;
        self.store.spare_count = 0;
        self.store.last = 0;
    }

    /// How many nodes no block has, made or not: so at least as many as there are unused names.
    pub(crate) fn unused_nodes(&self) -> u32
        ensures { result + length self.now.blocks ≡ self.now.max_allocs }
    {
        self.max_allocs - self.block_count()
    }

    /// Whether the node limit admits this number of further blocks. The first test costs less, and is mostly
    /// enough: at most `max_allocs` nodes are made, so it implies the second.
    #[inline(always)]
    pub(crate) fn admits_blocks(&self, blocks: u32) -> bool
        ensures { IsTrue result ↔ AdmitsBlocks blocks self.now }
    {
        self.store.spare_count > blocks || self.unused_nodes() > blocks
    }

    /// Grants `size` units of the newest block of a class, beginning at the first multiple of `align` in that
    /// block. The block has to hold them.
    #[inline(always)]
    pub(crate) fn grant(&mut self, class: u32, size: u32, align: u32) -> Allocation<T::Index>
        requires alignment { 1 ≤ align }
        requires enough { AdmitsBlocks (blocks_needed align) self.old }
        requires classed { class < 256 }
        requires filled { bin_at self.old.bins class ≢ [] }
        requires holds { NewestHolds class size align self.old }
        ensures step { (needed : ℕ) → IsFoundFrom (up needed) self.old.bins (Some class)
            → Splits needed size (padding_to align) self.old self.new result }
        ensures accesses { Costs 6 59 self.old.accesses self.new.accesses }
    {
        let name = bins::pop(&mut self.store, class);
        let offset = self.store.tables.offset(name, &mut self.store.accesses);
        let whole = self.store.tables.size(name, &mut self.store.accesses);
        let padding = (align - offset % align) % align;
        let start = offset + padding;
        let parts = Parts {
            padding,
            size,
            remainder: whole - (padding + size),
        };
        neighbours::divide(&mut self.store, name, start, parts);
        self.free_total -= size;
        handle_of(start, name)
    }

    /// A request for units from a multiple of `align` on. With `align` 1, which is a constant where this is
    /// inlined into `allocate`, there is no padding. It may add `align.min(2)` blocks: the remainder, and the
    /// padding where `align` is above 1.
    #[inline(always)]
    pub(crate) fn serve(&mut self, size: u32, align: u32) -> Option<Allocation<T::Index>>
        requires { 1 ≤ align }
        // the public clauses follow from the step and from this
        ensures formed { IsWellFormed self.old }
        // with `align` 1 `Aligns` says what `Allocates` does
        ensures step { Aligns size align self.old self.new result }
        ensures accesses { Costs 0 61 self.old.accesses self.new.accesses }
        ensures accesses_min { IsSome result → self.old.accesses + 7 ≤ self.new.accesses }
    {
        if !self.admits_blocks(align.min(2)) {
            return None;
        }
        if size > u32::MAX - (align - 1) {
            return None;
        }
        // the smallest class whose blocks all hold the units
        let smallest = uint_to_float_round_up(size + (align - 1));
        match bins::find_at_or_above(
            &self.store.tables,
            self.store.top_mask,
            smallest,
            &mut self.store.accesses,
        ) {
            None => None,
            Some(class) => Some(self.grant(class, size, align)),
        }
    }

    /// Frees the block of a name. It is inlined into both its callers, so that a program's only call of
    /// `free` can be inlined whole.
    #[inline(always)]
    pub(crate) fn release(&mut self, name: u32)
        requires live { IsLive name self.old }
        ensures step { Frees name self.old self.new }
        ensures gone { range_of name self.new ≡ None }
        ensures others { KeepsOthers name self.old self.new }
        ensures accesses { Costs 9 36 self.old.accesses self.new.accesses }
    {
        let size = self.store.tables.size(name, &mut self.store.accesses);
        self.free_total += size;
        chain::set_used(
            &mut self.store.tables,
            name,
            false,
            &mut self.store.accesses,
        );
        neighbours::coalesce(&mut self.store, name, size);
    }

    /// Whether a name is that of a live range.
    pub(crate) fn is_name_live(&self, name: u32, count: &mut Accesses) -> bool
        ensures live { IsTrue result ↔ IsLive name self.now }
        ensures accesses { count.new ≡ count.old + 1 }
    {
        chain::is_live(&self.store.tables, name, count)
    }

    /// Adds units to the last block, which is free.
    pub(crate) fn widen(&mut self, more: u32)
        requires more { 0 < more }
        requires fits { self.old.size + more ≤ 4294967295 }
        requires free { ends_used self.old.blocks ≡ false }
        ensures step { Adds more self.old self.new }
        ensures kept { KeepsAll self.old self.new }
        ensures accesses { Costs 10 16 self.old.accesses self.new.accesses }
    {
        let end = self.store.last;
        let size = self.store.tables.size(end, &mut self.store.accesses);
        bins::remove(&mut self.store, end, size);
        chain::grow(&mut self.store.tables, end, more, &mut self.store.accesses);
        bins::push(&mut self.store, end, uint_to_float_round_down(size + more));
        self.size += more;
        self.free_total += more;
    }

    /// Puts a free block after the last one, which is used.
    pub(crate) fn append(&mut self, more: u32)
        requires more { 0 < more }
        requires fits { self.old.size + more ≤ 4294967295 }
        requires used { ends_used self.old.blocks ≡ true }
        requires enough { AdmitsBlocks 1 self.old }
        ensures step { Adds more self.old self.new }
        ensures kept { KeepsAll self.old self.new }
        ensures accesses { Costs 9 27 self.old.accesses self.new.accesses }
    {
        ensure_spare(
            &mut self.store.tables,
            &mut self.store.spare_count,
            &mut self.store.accesses,
        );
        let end = self.store.last;
        let offset = self.store.tables.offset(end, &mut self.store.accesses);
        let whole = self.store.tables.size(end, &mut self.store.accesses);
        let name = chain::split(&mut self.store, end, offset, whole, whole);
        chain::grow(
            &mut self.store.tables,
            self.store.last,
            more,
            &mut self.store.accesses,
        );
        bins::push(&mut self.store, name, uint_to_float_round_down(more));
        self.size += more;
        self.free_total += more;
    }

    /// The blocks and the bins agree. A step of proofs, which does nothing.
    pub(crate) fn formed(&self)
        ensures { IsWellFormed self.now }
    {
        // a look at a field recalls the invariant
        let _ = &self.size;
    }
}
