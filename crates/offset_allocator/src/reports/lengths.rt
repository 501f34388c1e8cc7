//! How many names the bins have. It reads the tables, and counts each cell.

ghost use Rattle.std.specs.Prelude.{◌≡◌, ◌≢◌, ℕ, ◌+◌, ◌<◌, ◌≤◌, [], ◌∷◌, length, sum};
ghost use Rattle.offset_allocator.specs.View.{bin_at};
ghost use Rattle.offset_allocator.specs.Bins.{IsTail, HasBins, bins_in};

use crate::accesses::Accesses;
use crate::index::{NodeIndex, number};
use crate::tables::Tables;

// A walk along a bin: how many names were met, and the next one, or `MAX`.
#[derive(Clone, Copy)]
struct Walk {
    met: u32,
    name: u32,
}

impl Walk {
    // Meets the next name, if there is one.
    #[inline(always)]
    fn step<T: Tables>(&mut self, tables: &T, count: &mut Accesses)
        requires linked { HasBins T.Index.MAX (T.cells tables.now).bins
            (bins_in T.Index.MAX (T.cells tables.now).bins) }
        requires tail { (total : ℕ)
            × IsTail T.Index.MAX (T.cells tables.now).bins self.old.name self.old.met total
            × (total ≤ T.Index.MAX) }
        ensures tail { (total : ℕ)
            → IsTail T.Index.MAX (T.cells tables.now).bins self.old.name self.old.met total
            → IsTail T.Index.MAX (T.cells tables.now).bins self.new.name self.new.met total }
        ensures further { self.old.name ≢ T.Index.MAX → self.new.met ≡ self.old.met + 1 }
        ensures least { self.old.met ≤ self.new.met }
        ensures accesses { count.new + self.old.met ≡ count.old + self.new.met }
    {
        if self.name != T::Index::MAX {
            self.met += 1;
            self.name = number(tables.older(self.name, count));
        }
    }

    // Meets all names that are left.
    fn finish<T: Tables>(&mut self, tables: &T, count: &mut Accesses)
        requires linked { HasBins T.Index.MAX (T.cells tables.now).bins
            (bins_in T.Index.MAX (T.cells tables.now).bins) }
        requires tail { (total : ℕ)
            × IsTail T.Index.MAX (T.cells tables.now).bins self.old.name self.old.met total
            × (total ≤ T.Index.MAX) }
        ensures all { (total : ℕ)
            → IsTail T.Index.MAX (T.cells tables.now).bins self.old.name self.old.met total
            → self.new.met ≡ total }
        ensures accesses { count.new + self.old.met ≡ count.old + self.new.met }
    {
        while self.name != T::Index::MAX {
            self.step(tables, count);
        }
    }
}

/// How many names are in the bins of four classes, from `class` on. While two lists go on or more, the four
/// are followed side by side, so that the links of several nodes are on their way from memory at once. The
/// last one is followed alone.
pub(crate) fn lengths_of<T: Tables>(tables: &T, class: u32, count: &mut Accesses) -> [u32; 4]
    requires linked { HasBins T.Index.MAX (T.cells tables.now).bins
        (bins_in T.Index.MAX (T.cells tables.now).bins) }
    requires classed { class + 3 < 256 }
    ensures names { result ≡ length (bin_at (bins_in T.Index.MAX (T.cells tables.now).bins) class)
        ∷ length (bin_at (bins_in T.Index.MAX (T.cells tables.now).bins) (class + 1))
        ∷ length (bin_at (bins_in T.Index.MAX (T.cells tables.now).bins) (class + 2))
        ∷ length (bin_at (bins_in T.Index.MAX (T.cells tables.now).bins) (class + 3)) ∷ [] }
    ensures accesses { count.new ≡ count.old + 4 + sum result }
{
    let mut a = Walk {
        met: 0,
        name: tables.head(class, count),
    };
    let mut b = Walk {
        met: 0,
        name: tables.head(class + 1, count),
    };
    let mut c = Walk {
        met: 0,
        name: tables.head(class + 2, count),
    };
    let mut d = Walk {
        met: 0,
        name: tables.head(class + 3, count),
    };
    let none = T::Index::MAX;
    while a.name != none && b.name != none
        || c.name != none && d.name != none
        || (a.name != none || b.name != none) && (c.name != none || d.name != none)
    {
        a.step(tables, count);
        b.step(tables, count);
        c.step(tables, count);
        d.step(tables, count);
    }
    // one list at most goes on
    a.finish(tables, count);
    b.finish(tables, count);
    c.finish(tables, count);
    d.finish(tables, count);
    [a.met, b.met, c.met, d.met]
}
