//! The layout with a table for each field of a node. It alone touches the cells of these tables.

ghost use Rattle.std.specs.Prelude.{◌<◌};

use crate::accesses::Accesses;
use crate::index::{NodeIndex, link_to, mark, no_link, number};
use crate::layouts::fills::{probe, push_within, reserved};
use crate::tables::Tables;
use std::alloc::{AllocError, Global};
use std::marker::Model;

/// A table for each field of a node. A used block is in no bin: its link to a newer node is the number below
/// the largest, which names none.
#[derive(Drop)]
pub struct ByField<NI: NodeIndex> {
    offset: Vec<u32>,
    size: Vec<u32>,
    before: Vec<NI>,
    after: Vec<NI>,
    newer: Vec<NI>,
    older: Vec<NI>,
    spare: Vec<NI>,
    heads: [u32; 256],
    masks: [u64; 4],
}

impl<NI: NodeIndex> Model for ByField<NI> {
    ghost use Rattle.offset_allocator.specs.Cells.{Cells};

    ghost Value = { Cells };

    ghost use Rattle.offset_allocator.specs.Layouts.{cells_by_field, AreLevel};

    ghost view = { λ t. cells_by_field NI.MAX NI.number t };

    ghost invariant = { λ t. AreLevel NI.MAX t };
}

#[tactic(auto, using(crate::proofs::Arranging::Fields::cells))]
impl<NI: NodeIndex> Tables for ByField<NI> {
    type Index = NI;

    ghost cells = { λ c. c };

    fn with_capacity(alloc: Global, capacity: u32) -> Result<Self, AllocError> {
        let count = capacity as usize;
        probe::<NI>(alloc, capacity)?;
        let mut offset = reserved(alloc, count)?;
        let mut size = reserved(alloc, count)?;
        let mut before = reserved(alloc, count)?;
        let mut after = reserved(alloc, count)?;
        let mut newer = reserved(alloc, count)?;
        let mut older = reserved(alloc, count)?;
        let mut spare = reserved(alloc, count)?;
        push_within(&mut offset, 0);
        push_within(&mut size, 0);
        push_within(&mut before, no_link::<NI>());
        push_within(&mut after, no_link::<NI>());
        push_within(&mut newer, no_link::<NI>());
        push_within(&mut older, no_link::<NI>());
        push_within(&mut spare, link_to::<NI>(0));
        Ok(ByField {
            offset,
            size,
            before,
            after,
            newer,
            older,
            spare,
            heads: [NI::MAX; 256],
            masks: [0; 4],
        })
    }

    fn clear(&mut self) {
        self.offset.clear();
        self.size.clear();
        self.before.clear();
        self.after.clear();
        self.newer.clear();
        self.older.clear();
        self.spare.clear();
        push_within(&mut self.offset, 0);
        push_within(&mut self.size, 0);
        push_within(&mut self.before, no_link());
        push_within(&mut self.after, no_link());
        push_within(&mut self.newer, no_link());
        push_within(&mut self.older, no_link());
        push_within(&mut self.spare, link_to(0));
    }

    fn len(&self) -> u32 {
        self.offset.len() as u32
    }

    fn has(&self, name: u32) -> bool {
        (name as usize) < self.offset.len()
    }

    #[inline(always)]
    fn add(&mut self, place: u32, count: &mut Accesses) {
        count.tick();
        count.tick();
        count.tick();
        count.tick();
        count.tick();
        count.tick();
        count.tick();
        count.tick();
        let name = link_to(self.offset.len() as u32);
        push_within(&mut self.offset, 0);
        push_within(&mut self.size, 0);
        push_within(&mut self.before, no_link());
        push_within(&mut self.after, no_link());
        push_within(&mut self.newer, no_link());
        push_within(&mut self.older, no_link());
        push_within(&mut self.spare, name);
        self.spare[place as usize] = name;
    }

    fn shape(&self) {
        // a look at a field recalls the invariant
        let _ = &self.offset;
    }

    fn link_to(&self, name: u32) -> NI {
        let _ = &self.offset;
        link_to(name)
    }

    fn offset(&self, name: u32, count: &mut Accesses) -> u32 {
        count.tick();
        self.offset[name as usize]
    }

    fn size(&self, name: u32, count: &mut Accesses) -> u32 {
        count.tick();
        self.size[name as usize]
    }

    fn set_size(&mut self, name: u32, size: u32, count: &mut Accesses) {
        count.tick();
        self.size[name as usize] = size;
    }

    fn used(&self, name: u32, count: &mut Accesses) -> bool {
        count.tick();
        number(self.newer[name as usize]) == NI::MAX - 1
    }

    fn set_used(&mut self, name: u32, used: bool, count: &mut Accesses) {
        count.tick();
        self.newer[name as usize] = mark(used);
    }

    fn before(&self, name: u32, count: &mut Accesses) -> NI {
        count.tick();
        self.before[name as usize]
    }

    fn set_before(&mut self, name: u32, link: NI, count: &mut Accesses) {
        count.tick();
        self.before[name as usize] = link;
    }

    fn after(&self, name: u32, count: &mut Accesses) -> NI {
        count.tick();
        self.after[name as usize]
    }

    fn set_after(&mut self, name: u32, link: NI, count: &mut Accesses) {
        count.tick();
        self.after[name as usize] = link;
    }

    fn set_block(
        &mut self,
        name: u32,
        offset: u32,
        size: u32,
        before: NI,
        after: NI,
        count: &mut Accesses,
    ) {
        count.tick();
        count.tick();
        count.tick();
        count.tick();
        self.offset[name as usize] = offset;
        self.size[name as usize] = size;
        self.before[name as usize] = before;
        self.after[name as usize] = after;
    }

    fn set_start(&mut self, name: u32, offset: u32, size: u32, link: NI, count: &mut Accesses) {
        count.tick();
        count.tick();
        count.tick();
        self.offset[name as usize] = offset;
        self.size[name as usize] = size;
        self.before[name as usize] = link;
    }

    fn set_end(&mut self, name: u32, size: u32, link: NI, count: &mut Accesses) {
        count.tick();
        count.tick();
        self.size[name as usize] = size;
        self.after[name as usize] = link;
    }

    fn spare(&self, place: u32, count: &mut Accesses) -> NI {
        count.tick();
        self.spare[place as usize]
    }

    fn set_spare(&mut self, place: u32, name: NI, count: &mut Accesses) {
        count.tick();
        self.spare[place as usize] = name;
    }

    fn newer(&self, name: u32, count: &mut Accesses) -> NI {
        count.tick();
        self.newer[name as usize]
    }

    fn set_newer(&mut self, name: u32, link: NI, count: &mut Accesses) {
        count.tick();
        self.newer[name as usize] = link;
    }

    fn older(&self, name: u32, count: &mut Accesses) -> NI {
        count.tick();
        self.older[name as usize]
    }

    fn set_older(&mut self, name: u32, link: NI, count: &mut Accesses) {
        count.tick();
        self.older[name as usize] = link;
    }

    fn set_links(&mut self, name: u32, newer: NI, older: NI, count: &mut Accesses) {
        count.tick();
        count.tick();
        self.newer[name as usize] = newer;
        self.older[name as usize] = older;
    }

    fn head(&self, class: u32, count: &mut Accesses) -> u32 {
        count.tick();
        self.heads[class as usize]
    }

    fn set_head(&mut self, class: u32, name: u32, count: &mut Accesses) {
        count.tick();
        self.heads[class as usize] = name;
    }

    fn mask(&self, word: u32, count: &mut Accesses) -> u64 {
        count.tick();
        self.masks[word as usize]
    }

    fn set_mask(&mut self, word: u32, mask: u64, count: &mut Accesses) {
        count.tick();
        self.masks[word as usize] = mask;
    }
}
