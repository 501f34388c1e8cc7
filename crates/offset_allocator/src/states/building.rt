//! The tables of a state that is read, made block by block from the end of the space, then name by name. It
//! changes no other tables.
ghost use Rattle.std.specs.Prelude.{◌≡◌, ◌+◌, ◌-◌, ◌*◌, ◌/◌, ◌%◌, ◌<◌, ◌≤◌, ◌∷◌, ◌++◌, [], ℕ};
ghost use Rattle.std.specs.Prelude.{List, Option, None, Some, false};
ghost use Rattle.std.specs.Prelude.{length, replicate, sum, take, IfErr, IfOk, IfSome, IsErr, IsSome};
ghost use Rattle.offset_allocator.specs.Bins.{IsUnlisted};
ghost use Rattle.offset_allocator.specs.Saving.Building.{AreEach, AreOrdered, HasBack, IsBuilt, IsLaidOut};
ghost use Rattle.offset_allocator.specs.Saving.Building.{IsMade};
ghost use Rattle.offset_allocator.specs.Cells.{link_of, node};
ghost use Rattle.offset_allocator.specs.Chain.{IsChain, IsSpace, first_or, last_or, blocks as blocks_in};
ghost use Rattle.offset_allocator.specs.Classes.{down};
ghost use Rattle.offset_allocator.specs.Saving.ListFaults.{IsBlockFault, IsFreeFault, IsNeighboursFault};
ghost use Rattle.offset_allocator.specs.Saving.ListFaults.{IsUnusedFault, IsWrong};
ghost use Rattle.offset_allocator.specs.Saving.State.{block_words, filed, freed};
ghost use Rattle.offset_allocator.specs.Store.{AreBinned, bins_of};
ghost use Rattle.offset_allocator.specs.View.{Block, AreCoalesced, count_named, free_sizes, push, times};
ghost use Rattle.offset_allocator.specs.View.{units, used_block, count_used};

use crate::accesses::Accesses;
use crate::bins;
use crate::chain::point_back;
use crate::index::{link_to, linked, no_link};
use crate::small_float::uint_to_float_round_down;
use crate::states::copy::with_nodes;
use crate::store::Store;
use crate::tables::Tables;
use std::alloc::{AllocError, Global};

// Puts a used block before those that are there, the first of which `next` links to. It ends at their offset.
#[tactic(auto, using(crate::proofs::Linking::Nodes::lengths))]
fn prepend<T: Tables>(
    tables: &mut T,
    last: &mut u32,
    next: T::Index,
    name: u32,
    offset: u32,
    size: u32,
    count: &mut Accesses,
)
    requires named { name < length (T.cells tables.old).chain.nodes }
    requires idle { (node (T.cells tables.old).chain name).used ≡ false }
    requires there { (o : ℕ) × (bs : List Block) × HasBack (T.cells tables.old) o bs []
        × (first_or None bs ≡ link_of T.Index.MAX (T.Index.number next)) }
    ensures back { (o : ℕ) (bs : List Block) → HasBack (T.cells tables.old) o bs []
        → first_or None bs ≡ link_of T.Index.MAX (T.Index.number next) → o ≡ offset + size
        → HasBack (T.cells tables.new) offset (used_block name size ∷ bs) [] }
    ensures last { (bs : List Block) → first_or None bs ≡ link_of T.Index.MAX (T.Index.number next)
        → (bs ≡ [] → ⊥) → last_or None bs ≡ Some last.old
        → last_or None (used_block name size ∷ bs) ≡ Some last.new }
    ensures only { link_of T.Index.MAX (T.Index.number next) ≡ None → last.new ≡ name }
    ensures made { (n limit : ℕ) → IsMade T.Index.MAX n limit (T.cells tables.old)
        → IsMade T.Index.MAX n limit (T.cells tables.new) }
    ensures nodes { length (T.cells tables.new).chain.nodes ≡ length (T.cells tables.old).chain.nodes }
{
    tables.set_block(name, offset, size, no_link(), next, count);
    tables.set_used(name, true, count);
    point_back(tables, last, next, name, count);
}

/// Writes the blocks of these words, all of them used: name and size of each, from the end of the space to
/// its start. Returns the name of the last one, or the place of the word that is wrong.
pub(crate) fn place_blocks<T: Tables>(
    tables: &mut T,
    words: &[u32],
    size: u32,
    count: &mut Accesses,
) -> Result<u32, usize>
    requires even { length words.now % 2 ≡ 0 }
    requires some { 2 ≤ length words.now }
    requires idle { (x : ℕ) → (node (T.cells tables.old).chain x).used ≡ false }
    ensures placed { IfOk result (λ last. (bs : List Block) × HasBack (T.cells tables.new) 0 bs []
        × (block_words bs ≡ words.now) × (units bs ≡ size) × (last_or None bs ≡ Some last)) }
    ensures wrong { IsErr result → (bs : List Block) → block_words bs ≡ words.now → units bs ≡ size
        → ((x : ℕ) → count_named x bs ≤ 1)
        → ((x : ℕ) → length (T.cells tables.old).chain.nodes ≤ x → count_named x bs ≡ 0) → ⊥ }
    ensures fault { IfErr result (IsBlockFault (length (T.cells tables.old).chain.nodes) size words.now) }
    ensures made { (n limit : ℕ) → IsMade T.Index.MAX n limit (T.cells tables.old)
        → IsMade T.Index.MAX n limit (T.cells tables.new) }
{
    let nodes = tables.len();
    let mut left = size;
    let mut next = no_link();
    let mut last = 0;
    for i in 0..words.len() / 2 {
        let name = words[2 * i];
        let units = words[2 * i + 1];
        if name >= nodes || tables.used(name, count) {
            return Err(2 * i);
        }
        if units > left {
            return Err(2 * i + 1);
        }
        left -= units;
        prepend(tables, &mut last, next, name, left, units, count);
        next = tables.link_to(name);
    }
    if left != 0 {
        return Err(words.len() - 1);
    }
    Ok(last)
}

// Writes an unused name onto the stack, and marks its node as used.
#[tactic(auto, using(crate::proofs::Linking::Nodes::lengths))]
fn put_unused<T: Tables>(tables: &mut T, place: u32, name: u32, count: &mut Accesses)
    requires named { name < length (T.cells tables.old).chain.nodes }
    requires place { place < length (T.cells tables.old).chain.nodes }
    requires idle { (node (T.cells tables.old).chain name).used ≡ false }
    ensures back { (o : ℕ) (bs : List Block) (xs : List ℕ) → HasBack (T.cells tables.old) o bs xs
        → take place (T.cells tables.old).chain.spare ≡ xs
        → HasBack (T.cells tables.new) o bs (xs ++ name ∷ [])
        × (take (place + 1) (T.cells tables.new).chain.spare ≡ xs ++ name ∷ []) }
    ensures made { (n limit : ℕ) → IsMade T.Index.MAX n limit (T.cells tables.old)
        → IsMade T.Index.MAX n limit (T.cells tables.new) }
    ensures nodes { length (T.cells tables.new).chain.nodes ≡ length (T.cells tables.old).chain.nodes }
{
    tables.shape();
    tables.set_spare(place, link_to(name), count);
    tables.set_used(name, true, count);
}

/// Writes the unused names, and marks their nodes as used. Returns the place of the word that is wrong, if
/// one is.
pub(crate) fn place_unused<T: Tables>(
    tables: &mut T,
    words: &[u32],
    count: &mut Accesses,
) -> Option<usize>
    requires few { length words.now ≤ length (T.cells tables.old).chain.nodes }
    requires back { (o : ℕ) × (bs : List Block) × HasBack (T.cells tables.old) o bs [] }
    ensures placed { result ≡ None → (o : ℕ) (bs : List Block) → HasBack (T.cells tables.old) o bs []
        → HasBack (T.cells tables.new) o bs words.now
        × (take (length words.now) (T.cells tables.new).chain.spare ≡ words.now) }
    ensures wrong { IsSome result → (o : ℕ) (bs : List Block) → HasBack (T.cells tables.old) o bs []
        → ((x : ℕ) → count_named x bs + times x words.now ≤ 1)
        → ((x : ℕ) → length (T.cells tables.old).chain.nodes ≤ x → times x words.now ≡ 0) → ⊥ }
    ensures fault { IfSome result (λ at. (o : ℕ) (bs : List Block) → HasBack (T.cells tables.old) o bs []
        → IsUnusedFault (length (T.cells tables.old).chain.nodes) bs words.now at) }
    ensures made { (n limit : ℕ) → IsMade T.Index.MAX n limit (T.cells tables.old)
        → IsMade T.Index.MAX n limit (T.cells tables.new) }
    ensures nodes { length (T.cells tables.new).chain.nodes ≡ length (T.cells tables.old).chain.nodes }
{
    tables.shape();
    let nodes = tables.len();
    for i in 0..words.len() {
        let name = words[i];
        if name >= nodes || tables.used(name, count) {
            return Some(i);
        }
        put_unused(tables, i as u32, name, count);
    }
    None
}

/// Takes the marks of the unused names away.
pub(crate) fn clear_marks<T: Tables>(tables: &mut T, words: &[u32], count: &mut Accesses)
    requires named { (x : ℕ) → 1 ≤ times x words.now → x < length (T.cells tables.old).chain.nodes }
    ensures back { (o : ℕ) (bs : List Block) → HasBack (T.cells tables.old) o bs words.now
        → HasBack (T.cells tables.new) o bs [] }
    ensures spare { (T.cells tables.new).chain.spare ≡ (T.cells tables.old).chain.spare }
    ensures made { (n limit : ℕ) → IsMade T.Index.MAX n limit (T.cells tables.old)
        → IsMade T.Index.MAX n limit (T.cells tables.new) }
{
    for i in 0..words.len() {
        tables.set_used(words[i], false, count);
    }
}

// Makes a used block free, and the newest of its bin, which is that of this class.
#[tactic(auto, using(crate::proofs::Linking::Nodes::lengths))]
fn free_name<T: Tables>(store: &mut Store<T>, name: u32, class: u32)
    requires class { class ≡ down (node (T.cells store.old.tables).chain name).size }
    requires binned { AreBinned T.cells T.Index.MAX store.old }
    requires named { name < length (T.cells store.old.tables).chain.nodes }
    requires unlisted { IsUnlisted name (bins_of T.cells T.Index.MAX store.old) }
    ensures chain { (limit : ℕ) (xs : List ℕ) (bs : List Block)
        → IsChain (T.cells store.old.tables).chain limit store.old.last store.old.spare_count (freed xs bs)
        → count_named name bs ≡ 1
        → IsChain (T.cells store.new.tables).chain limit store.new.last store.new.spare_count
        (freed (name ∷ xs) bs) }
    ensures binned { AreBinned T.cells T.Index.MAX store.new }
    ensures lists { bins_of T.cells T.Index.MAX store.new
        ≡ push class name (bins_of T.cells T.Index.MAX store.old) }
    ensures nodes { length (T.cells store.new.tables).chain.nodes
        ≡ length (T.cells store.old.tables).chain.nodes }
    ensures same { (store.new.last ≡ store.old.last) × (store.new.spare_count ≡ store.old.spare_count)
        × ((T.cells store.new.tables).chain.spare ≡ (T.cells store.old.tables).chain.spare) }
{
    store.tables.set_used(name, false, &mut store.accesses);
    bins::push(store, name, class);
}

/// Frees the blocks of these names, which are in the order of bins, the last one first. Returns the place of
/// the word that is wrong, if one is.
pub(crate) fn free_names<T: Tables>(store: &mut Store<T>, words: &[u32]) -> Option<usize>
    requires binned { AreBinned T.cells T.Index.MAX store.old }
    requires empty { bins_of T.cells T.Index.MAX store.old ≡ replicate 256 [] }
    requires chain { (limit : ℕ) × (bs : List Block) × (freed [] bs ≡ bs)
        × IsChain (T.cells store.old.tables).chain limit store.old.last store.old.spare_count bs }
    ensures chain { result ≡ None → (limit : ℕ) (bs : List Block) → freed [] bs ≡ bs
        → IsChain (T.cells store.old.tables).chain limit store.old.last store.old.spare_count bs
        → IsChain (T.cells store.new.tables).chain limit store.new.last store.new.spare_count
        (freed words.now bs)
        × (bins_of T.cells T.Index.MAX store.new ≡ filed bs words.now)
        × ((x : ℕ) → times x words.now ≤ count_named x bs)
        × AreOrdered bs 0 words.now }
    ensures binned { AreBinned T.cells T.Index.MAX store.new }
    ensures wrong { IsSome result → (limit : ℕ) (bs : List Block) → freed [] bs ≡ bs
        → IsChain (T.cells store.old.tables).chain limit store.old.last store.old.spare_count bs
        → ((x : ℕ) → times x words.now ≤ count_named x bs) → AreOrdered bs 0 words.now → ⊥ }
    ensures fault { IfSome result (λ at. (limit : ℕ) (bs : List Block) → freed [] bs ≡ bs
        → IsChain (T.cells store.old.tables).chain limit store.old.last store.old.spare_count bs
        → IsFreeFault bs words.now at) }
    ensures same { (store.new.last ≡ store.old.last) × (store.new.spare_count ≡ store.old.spare_count)
        × ((T.cells store.new.tables).chain.spare ≡ (T.cells store.old.tables).chain.spare) }
{
    let nodes = store.tables.len();
    // the class of the name after
    let mut most = 255;
    for i in 0..words.len() {
        let at = words.len() - 1 - i;
        let name = words[at];
        if name >= nodes || !store.tables.used(name, &mut store.accesses) {
            return Some(at);
        }
        let size = store.tables.size(name, &mut store.accesses);
        let class = uint_to_float_round_down(size);
        if class > most {
            return Some(at);
        }
        most = class;
        free_name(store, name, class);
    }
    None
}

/// What a walk over the blocks finds.
#[derive(Drop)]
pub(crate) struct Overview {
    /// The units of the free blocks.
    pub(crate) free_units: u32,
    /// The number of used blocks.
    pub(crate) used: u32,
}

/// Walks over the blocks, from the end of the space to its start. Returns how many it passed where it meets
/// two neighbours that are both free.
pub(crate) fn look_over<T: Tables>(
    tables: &T,
    last: u32,
    blocks: u32,
    count: &mut Accesses,
) -> Result<Overview, usize>
    requires space { (spare_count : ℕ) × IsSpace (T.cells tables.now).chain last spare_count }
    requires all { length (blocks_in (T.cells tables.now).chain last) ≡ blocks }
    ensures found { IfOk result (λ s. AreCoalesced (blocks_in (T.cells tables.now).chain last)
        × (s.free_units ≡ sum (free_sizes (blocks_in (T.cells tables.now).chain last)))
        × (s.used ≡ count_used (blocks_in (T.cells tables.now).chain last))) }
    ensures wrong { IsErr result → AreCoalesced (blocks_in (T.cells tables.now).chain last) → ⊥ }
    ensures fault { IfErr result (IsNeighboursFault (blocks_in (T.cells tables.now).chain last)) }
{
    let mut found = Overview {
        free_units: 0,
        used: 0,
    };
    let mut name = last;
    let mut is_free_after = false;
    tables.shape();
    for i in 0..blocks {
        let is_free = !tables.used(name, count);
        if is_free && is_free_after {
            return Err(i as usize);
        }
        if is_free {
            found.free_units += tables.size(name, count);
        } else {
            found.used += 1;
        }
        is_free_after = is_free;
        if let Some(before) = linked(tables.before(name, count)) {
            name = before;
        }
    }
    Ok(found)
}

/// What is wrong with the words of a state, and the place of the word in its list.
#[derive(Drop)]
pub(crate) enum Wrong {
    /// A block: its name is that of no node or of another block, or the sizes are not that of the space.
    Block(usize),
    /// An unused name: it is that of no node or of a block, or listed twice.
    Unused(usize),
    /// The name of a free block: it is that of no block, listed twice, or not in the order of bins.
    Free(usize),
    /// A block and the one after it are both free.
    Neighbours(usize),
}

// The blocks, all used, and the unused names.
fn lay_out<T: Tables>(
    alloc: Global,
    size: u32,
    limit: u32,
    blocks: &[u32],
    unused: &[u32],
) -> Result<Result<Store<T>, Wrong>, AllocError>
    requires even { length blocks.now % 2 ≡ 0 }
    requires some { 2 ≤ length blocks.now }
    requires within { length blocks.now / 2 + length unused.now ≤ limit }
    requires limit { limit < T.Index.MAX }
    ensures out { IfOk result (λ r. IfOk r (IsLaidOut T.cells T.Index.MAX size limit blocks.now unused.now)) }
    ensures wrong { IfOk result (λ r. IsErr r → (bs : List Block) → block_words bs ≡ blocks.now
        → units bs ≡ size
        → AreEach bs unused.now → ⊥) }
    ensures fault { (free : List ℕ) → IfOk result (λ r. IfErr r
        (IsWrong (length blocks.now / 2 + length unused.now) size blocks.now free unused.now)) }
{
    let mut count = Accesses::new();
    let nodes = (blocks.len() / 2 + unused.len()) as u32;
    let mut tables: T = with_nodes(alloc, limit, nodes, &mut count)?;
    let last = match place_blocks(&mut tables, blocks, size, &mut count) {
        Err(at) => return Ok(Err(Wrong::Block(at))),
        Ok(last) => last,
    };
    if let Some(at) = place_unused(&mut tables, unused, &mut count) {
        return Ok(Err(Wrong::Unused(at)));
    }
    clear_marks(&mut tables, unused, &mut count);
    tables.shape();
    let top_mask = bins::empty_mask(&tables);
    Ok(Ok(Store {
        tables,
        top_mask,
        last,
        spare_count: unused.len() as u32,
        accesses: Accesses::new(),
    }))
}

/// The store of a space with these blocks, of which those with the names in `free` are free, and these unused
/// names.
pub(crate) fn build<T: Tables>(
    alloc: Global,
    size: u32,
    limit: u32,
    blocks: &[u32],
    free: &[u32],
    unused: &[u32],
) -> Result<Result<(Store<T>, Overview), Wrong>, AllocError>
    requires even { length blocks.now % 2 ≡ 0 }
    requires some { 2 ≤ length blocks.now }
    requires within { length blocks.now / 2 + length unused.now ≤ limit }
    requires limit { limit < T.Index.MAX }
    ensures built { IfOk result (λ r. IfOk r (λ p.
        IsBuilt T.cells T.Index.MAX size limit blocks.now free.now unused.now p.0
        × (p.1.free_units ≡ sum (free_sizes (blocks_in (T.cells p.0.tables).chain p.0.last)))
        × (p.1.used ≡ count_used (blocks_in (T.cells p.0.tables).chain p.0.last)))) }
    ensures wrong { IfOk result (λ r. IsErr r → (bs : List Block) → block_words bs ≡ blocks.now
        → units bs ≡ size
        → AreEach bs unused.now → ((x : ℕ) → times x free.now ≤ count_named x bs)
        → AreOrdered bs 0 free.now → AreCoalesced (freed free.now bs) → ⊥) }
    ensures fault { IfOk result (λ r. IfErr r
        (IsWrong (length blocks.now / 2 + length unused.now) size blocks.now free.now unused.now)) }
{
    let mut store = match lay_out(alloc, size, limit, blocks, unused)? {
        Err(wrong) => return Ok(Err(wrong)),
        Ok(store) => store,
    };
    if let Some(at) = free_names(&mut store, free) {
        return Ok(Err(Wrong::Free(at)));
    }
    let mut count = Accesses::new();
    match look_over(
        &store.tables,
        store.last,
        (blocks.len() / 2) as u32,
        &mut count,
    ) {
        Err(at) => Ok(Err(Wrong::Neighbours(at))),
        Ok(found) => Ok(Ok((store, found))),
    }
}
