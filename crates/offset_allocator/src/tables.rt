//! What every layout of the tables does: only the layouts, `by_node` and `by_field`, touch cells. A function
//! on single cells counts each that it touches; `with_capacity` makes tables, `clear` empties them, and
//! neither counts.

ghost use Rattle.std.specs.Prelude.{◌≡◌, ◌≢◌, ◌+◌, ◌-◌, ◌<◌, ◌≤◌, false, Some, [], ◌∷◌, ◌++◌, length};
ghost use Rattle.std.specs.Prelude.{slice_set, slice_index, IfOk, IsTrue};
ghost use Rattle.offset_allocator.specs.Cells.{Cells, AreEmpty, AreShaped, IsBare, link_of, mark_of, node};
ghost use Rattle.offset_allocator.specs.Cells.{put, with_node, with_spare};

use crate::accesses::Accesses;
use crate::index::NodeIndex;
use std::alloc::{AllocError, Global};

/// The nodes that were made, the stack of unused names, the newest name of each bin, and the masks of the
/// bins. A node is made when its name is needed for the first time; the memory for all is reserved before.
///
/// A layout is lawful that keeps these contracts: a cell has what was last written, the others stay, and each
/// access is counted.
pub trait Tables: Drop {
    /// The type of the links. A link is the number of a node, or the largest number, which names none.
    type Index: NodeIndex;

    // What the tables hold.
    ghost cells: { Self → Cells };

    /// Tables with one node, which is blank, and memory for `capacity` nodes.
    fn with_capacity(alloc: Global, capacity: u32) -> Result<Self, AllocError>
        requires some { 0 < capacity }
        requires limit { capacity < Self.Index.MAX }
        ensures chain { IfOk result (λ t. IsBare capacity (cells t).chain) }
        ensures bins { IfOk result (λ t. AreEmpty Self.Index.MAX (cells t).bins) };

    /// Leaves one node, which is blank, and the memory. The bins may still name others: `bins::empty` has to
    /// follow.
    fn clear(&mut self)
        requires { 0 < (cells self.old).chain.reserved }
        ensures chain { IsBare (cells self.old).chain.reserved (cells self.new).chain }
        ensures heads { (cells self.new).bins.heads ≡ (cells self.old).bins.heads }
        ensures masks { (cells self.new).bins.masks ≡ (cells self.old).bins.masks };

    /// The number of nodes that were made.
    fn len(&self) -> u32
        ensures { result ≡ length (cells self.now).chain.nodes };

    /// Whether a number is the name of a node that was made. Where it is not, as with the largest number,
    /// it is no place in the tables either: so one test is both.
    fn has(&self, name: u32) -> bool
        ensures made { IsTrue result → name < length (cells self.now).chain.nodes }
        ensures past { result ≡ false → length (cells self.now).chain.nodes ≤ name };

    /// Makes one more node, which is blank. The stack of unused names becomes one entry longer, and the new
    /// name is written there, at its end, and at the index `place` too.
    fn add(&mut self, place: u32, count: &mut Accesses)
        requires memory { length (cells self.old).chain.nodes < (cells self.old).chain.reserved }
        requires place { place ≤ length (cells self.old).chain.nodes }
        ensures chain { (cells self.new).chain ≡ with_node (cells self.old).chain place }
        ensures newer { (cells self.new).bins.newer ≡ (cells self.old).bins.newer ++ Self.Index.MAX ∷ [] }
        ensures older { (cells self.new).bins.older ≡ (cells self.old).bins.older ++ Self.Index.MAX ∷ [] }
        ensures heads { (cells self.new).bins.heads ≡ (cells self.old).bins.heads }
        ensures masks { (cells self.new).bins.masks ≡ (cells self.old).bins.masks }
        ensures accesses { count.new ≡ count.old + 8 };

    /// The tables have their lengths, and links say which nodes are used. A step of proofs, which does
    /// nothing.
    fn shape(&self)
        ensures { AreShaped Self.Index.MAX (cells self.now) };

    /// The link to a node: its name is below the largest number.
    fn link_to(&self, name: u32) -> Self::Index
        requires { name < length (cells self.now).chain.nodes }
        ensures { link_of Self.Index.MAX (Self.Index.number result) ≡ Some name };

    /// The offset of a node.
    fn offset(&self, name: u32, count: &mut Accesses) -> u32
        requires { name < length (cells self.now).chain.nodes }
        ensures cell { result ≡ (node (cells self.now).chain name).offset }
        ensures accesses { count.new ≡ count.old + 1 };

    /// The size of a node.
    fn size(&self, name: u32, count: &mut Accesses) -> u32
        requires { name < length (cells self.now).chain.nodes }
        ensures cell { result ≡ (node (cells self.now).chain name).size }
        ensures accesses { count.new ≡ count.old + 1 };

    /// Writes the size of a node.
    fn set_size(&mut self, name: u32, size: u32, count: &mut Accesses)
        requires { name < length (cells self.old).chain.nodes }
        ensures cells { cells self.new ≡ record (cells self.old) {
          chain = put (cells self.old).chain name
              (record (node (cells self.old).chain name) { size = size });
        } }
        ensures accesses { count.new ≡ count.old + 1 };

    /// Whether a node is used.
    fn used(&self, name: u32, count: &mut Accesses) -> bool
        requires { name < length (cells self.now).chain.nodes }
        ensures cell { result ≡ (node (cells self.now).chain name).used }
        ensures accesses { count.new ≡ count.old + 1 };

    /// Writes whether a node, which is in no bin, is used: its link to a newer node says so.
    fn set_used(&mut self, name: u32, used: bool, count: &mut Accesses)
        requires { name < length (cells self.old).chain.nodes }
        ensures cells { cells self.new ≡ record (cells self.old) {
          chain = put (cells self.old).chain name
              (record (node (cells self.old).chain name) { used = used });
          bins = record (cells self.old).bins
              { newer = slice_set (cells self.old).bins.newer name (mark_of Self.Index.MAX used) };
        } }
        ensures accesses { count.new ≡ count.old + 1 };

    /// The link to the node of the block before.
    fn before(&self, name: u32, count: &mut Accesses) -> Self::Index
        requires { name < length (cells self.now).chain.nodes }
        ensures cell { link_of Self.Index.MAX (Self.Index.number result)
            ≡ (node (cells self.now).chain name).before }
        ensures accesses { count.new ≡ count.old + 1 };

    /// Writes the link to the node of the block before.
    fn set_before(&mut self, name: u32, link: Self::Index, count: &mut Accesses)
        requires { name < length (cells self.old).chain.nodes }
        ensures cells { cells self.new ≡ record (cells self.old) {
          chain = put (cells self.old).chain name
              (record (node (cells self.old).chain name) {
                before = link_of Self.Index.MAX
                    (Self.Index.number link);
              });
        } }
        ensures accesses { count.new ≡ count.old + 1 };

    /// The link to the node of the block after.
    fn after(&self, name: u32, count: &mut Accesses) -> Self::Index
        requires { name < length (cells self.now).chain.nodes }
        ensures cell { link_of Self.Index.MAX (Self.Index.number result)
            ≡ (node (cells self.now).chain name).after }
        ensures accesses { count.new ≡ count.old + 1 };

    /// Writes the link to the node of the block after.
    fn set_after(&mut self, name: u32, link: Self::Index, count: &mut Accesses)
        requires { name < length (cells self.old).chain.nodes }
        ensures cells { cells self.new ≡ record (cells self.old) {
          chain = put (cells self.old).chain name
              (record (node (cells self.old).chain name) {
                after = link_of Self.Index.MAX
                    (Self.Index.number link);
              });
        } }
        ensures accesses { count.new ≡ count.old + 1 };

    /// Writes the cells of a node that is not used, for a free block between two links.
    fn set_block(
        &mut self,
        name: u32,
        offset: u32,
        size: u32,
        before: Self::Index,
        after: Self::Index,
        count: &mut Accesses,
    )
        requires name { name < length (cells self.old).chain.nodes }
        requires idle { (node (cells self.old).chain name).used ≡ false }
        ensures cells { cells self.new ≡ record (cells self.old) {
          chain = put (cells self.old).chain name (record {
            offset = offset;
            size = size;
            used = false;
            before = link_of Self.Index.MAX (Self.Index.number before);
            after = link_of Self.Index.MAX (Self.Index.number after);
          });
        } }
        ensures accesses { count.new ≡ count.old + 4 };

    /// Writes where a block begins, its size, and the link to the node of the block before.
    fn set_start(
        &mut self,
        name: u32,
        offset: u32,
        size: u32,
        link: Self::Index,
        count: &mut Accesses,
    )
        requires { name < length (cells self.old).chain.nodes }
        ensures cells { cells self.new ≡ record (cells self.old) {
          chain = put (cells self.old).chain name
              (record (node (cells self.old).chain name) {
                offset = offset;
                size = size;
                before = link_of Self.Index.MAX (Self.Index.number link);
              });
        } }
        ensures accesses { count.new ≡ count.old + 3 };

    /// Writes the size of a node, and the link to the node of the block after.
    fn set_end(&mut self, name: u32, size: u32, link: Self::Index, count: &mut Accesses)
        requires { name < length (cells self.old).chain.nodes }
        ensures cells { cells self.new ≡ record (cells self.old) {
          chain = put (cells self.old).chain name
              (record (node (cells self.old).chain name)
              { size = size; after = link_of Self.Index.MAX (Self.Index.number link) });
        } }
        ensures accesses { count.new ≡ count.old + 2 };

    /// An entry of the stack of unused names.
    fn spare(&self, place: u32, count: &mut Accesses) -> Self::Index
        requires { place < length (cells self.now).chain.spare }
        ensures cell { Self.Index.number result ≡ slice_index (cells self.now).chain.spare place }
        ensures accesses { count.new ≡ count.old + 1 };

    /// Writes an entry of the stack of unused names.
    fn set_spare(&mut self, place: u32, name: Self::Index, count: &mut Accesses)
        requires { place < length (cells self.old).chain.spare }
        ensures cells { cells self.new ≡ record (cells self.old)
            { chain = with_spare (cells self.old).chain place (Self.Index.number name) } }
        ensures accesses { count.new ≡ count.old + 1 };

    /// The link to the next newer node of a node's bin.
    fn newer(&self, name: u32, count: &mut Accesses) -> Self::Index
        requires { name < length (cells self.now).bins.newer }
        ensures cell { Self.Index.number result ≡ slice_index (cells self.now).bins.newer name }
        ensures accesses { count.new ≡ count.old + 1 };

    /// Writes the link to the next newer node of a node's bin. The node is not used.
    fn set_newer(&mut self, name: u32, link: Self::Index, count: &mut Accesses)
        requires name { name < length (cells self.old).bins.newer }
        requires idle { (node (cells self.old).chain name).used ≡ false }
        requires link { Self.Index.number link ≢ Self.Index.MAX - 1 }
        ensures cells { cells self.new ≡ record (cells self.old) {
          bins = record (cells self.old).bins
              { newer = slice_set (cells self.old).bins.newer name (Self.Index.number link) };
        } }
        ensures accesses { count.new ≡ count.old + 1 };

    /// The link to the next older node of a node's bin.
    fn older(&self, name: u32, count: &mut Accesses) -> Self::Index
        requires { name < length (cells self.now).bins.older }
        ensures cell { Self.Index.number result ≡ slice_index (cells self.now).bins.older name }
        ensures accesses { count.new ≡ count.old + 1 };

    /// Writes the link to the next older node of a node's bin.
    fn set_older(&mut self, name: u32, link: Self::Index, count: &mut Accesses)
        requires { name < length (cells self.old).bins.older }
        ensures cells { cells self.new ≡ record (cells self.old) {
          bins = record (cells self.old).bins
              { older = slice_set (cells self.old).bins.older name (Self.Index.number link) };
        } }
        ensures accesses { count.new ≡ count.old + 1 };

    /// Writes both links of a node in its bin. The node is not used.
    fn set_links(&mut self, name: u32, newer: Self::Index, older: Self::Index, count: &mut Accesses)
        requires name { name < length (cells self.old).bins.newer }
        requires idle { (node (cells self.old).chain name).used ≡ false }
        requires link { Self.Index.number newer ≢ Self.Index.MAX - 1 }
        ensures cells { cells self.new ≡ record (cells self.old) {
          bins = record (cells self.old).bins {
            newer = slice_set (cells self.old).bins.newer name (Self.Index.number newer);
            older = slice_set (cells self.old).bins.older name (Self.Index.number older);
          };
        } }
        ensures accesses { count.new ≡ count.old + 2 };

    /// The newest name of a bin, or `MAX`.
    fn head(&self, class: u32, count: &mut Accesses) -> u32
        requires { class < length (cells self.now).bins.heads }
        ensures cell { result ≡ slice_index (cells self.now).bins.heads class }
        ensures accesses { count.new ≡ count.old + 1 };

    /// Writes the newest name of a bin, or `MAX`.
    fn set_head(&mut self, class: u32, name: u32, count: &mut Accesses)
        requires { class < length (cells self.old).bins.heads }
        ensures cells { cells self.new ≡ record (cells self.old) {
          bins = record (cells self.old).bins
              { heads = slice_set (cells self.old).bins.heads class name };
        } }
        ensures accesses { count.new ≡ count.old + 1 };

    /// A word of the masks: bit `c % 64` of word `c / 64` says whether the bin of class c is not empty.
    fn mask(&self, word: u32, count: &mut Accesses) -> u64
        requires { word < 4 }
        ensures cell { result ≡ slice_index (cells self.now).bins.masks word }
        ensures accesses { count.new ≡ count.old + 1 };

    /// Writes a word of the masks.
    fn set_mask(&mut self, word: u32, mask: u64, count: &mut Accesses)
        requires { word < 4 }
        ensures cells { cells self.new ≡ record (cells self.old) {
          bins = record (cells self.old).bins
              { masks = slice_set (cells self.old).bins.masks word mask };
        } }
        ensures accesses { count.new ≡ count.old + 1 };
}
