//! The search for the cheapest of the runs of blocks that serve a request, where their ranges slide together: by
//! whole steps, or plainly, which is by steps of one unit. It reads the tables, and changes nothing.
ghost use Rattle.std.specs.Prelude.{◌≡◌, ◌≤◌, ◌<◌, ◌+◌, ◌-◌, ◌*◌, ◌^◌, ◌↔◌, ◌⊎◌, ℕ, List, [], ◌∷◌, ◌++◌};
ghost use Rattle.std.specs.Prelude.{IsTrue, None, Some, false, true, if◌then◌else◌, length, nat_eq};
ghost use Rattle.offset_allocator.specs.Accesses.{Costs};
ghost use Rattle.offset_allocator.specs.Chain.{IsSpace, blocks, first_or, last_or};
ghost use Rattle.offset_allocator.specs.Moving.Room.{IsLess};
ghost use Rattle.offset_allocator.specs.Moving.RoomBySteps.{IsCheapestBy};
ghost use Rattle.offset_allocator.specs.Moving.Spans.{AreSums, HaveSteps, HasNoneAlone, IsBetter, IsLeft, IsSpan};
ghost use Rattle.offset_allocator.specs.Moving.Spans.{IsWay, in_space, link_on};
ghost use Rattle.offset_allocator.specs.View.{Block, one, units};

use crate::accesses::Accesses;
use crate::chain;
use crate::moves::room::RoomCost;
use crate::tables::Tables;

// Neighbouring blocks in numbers: the whole steps of the free ones in units, how many of these are whole steps,
// the live units, and how many are live.
#[derive(Clone, Copy)]
struct Sums {
    whole: u32,
    names: u32,
    units: u32,
    ranges: u32,
}

impl Sums {
    // With one more block.
    #[inline(always)]
    fn and(self, size: u32, used: bool, step: u32) -> Self
        requires some { 1 ≤ step }
        requires fits { (bs : List Block) × AreSums step self bs × (units bs + size < 2 ^ 32)
            × (length bs + 1 < 2 ^ 32) }
        ensures sums { (bs : List Block) (b : Block) → b.size ≡ size → b.used ≡ used → AreSums step self bs
            → AreSums step result (bs ++ b ∷ []) }
    {
        if used {
            return Sums {
                units: self.units + size,
                ranges: self.ranges + 1,
                ..self
            };
        }
        let left = size % step;
        Sums {
            whole: self.whole + (size - left),
            names: if left == 0 {
                self.names + 1
            } else {
                self.names
            },
            ..self
        }
    }

    // Without the first of them.
    #[inline(always)]
    fn without(self, size: u32, used: bool, step: u32) -> Self
        requires some { 1 ≤ step }
        requires first { (b : Block) × (bs : List Block) × (b.size ≡ size) × (b.used ≡ used)
            × AreSums step self (b ∷ bs) }
        ensures sums { (b : Block) (bs : List Block) → b.size ≡ size → b.used ≡ used
            → AreSums step self (b ∷ bs) → AreSums step result bs }
    {
        if used {
            return Sums {
                units: self.units - size,
                ranges: self.ranges - 1,
                ..self
            };
        }
        let left = size % step;
        Sums {
            whole: self.whole - (size - left),
            names: if left == 0 {
                self.names - 1
            } else {
                self.names
            },
            ..self
        }
    }

    // Whether their whole steps are at least `need` units, and at least `few` free ones are whole steps.
    #[inline(always)]
    fn have(self, need: u32, few: u32) -> bool
        ensures { IsTrue result ↔ (need ≤ self.whole) × (few ≤ self.names) }
    {
        self.whole >= need && self.names >= few
    }
}

// Neighbouring blocks on a way: the first of them, and their numbers.
#[derive(Clone, Copy)]
struct Span {
    first: u32,
    size: u32,
    used: bool,
    sums: Sums,
}

// A run of blocks, from a free one to a free one: the names of both, and what it costs to slide it together.
#[derive(Clone, Copy)]
pub(crate) struct Run {
    pub(crate) first: u32,
    pub(crate) end: u32,
    pub(crate) cost: RoomCost,
}

// How many free blocks before the last one of a run have to be whole steps, where steps leave `left` units of
// that one: it gives its name, and is counted itself where they leave none.
#[inline(always)]
fn few_of(left: u32, short: u32) -> u32
    ensures { result ≡ short - (1 - one (nat_eq left 0)) }
{
    if left == 0 {
        short
    } else {
        short.saturating_sub(1)
    }
}

// Whether a cost is less than another.
#[inline(always)]
fn is_less(cost: RoomCost, other: RoomCost) -> bool
    ensures { IsTrue result ↔ IsLess cost other }
{
    cost.units < other.units || cost.units == other.units && cost.ranges < other.ranges
}

// The cheaper of the known run and the one that was found, or the only one. Of two that cost as much it is the
// one that begins later in space.
#[inline(always)]
fn better(known: Option<Run>, found: Run, back: bool) -> Run
    ensures { IsBetter back known found result }
{
    match known {
        None => found,
        Some(known) => {
            if back {
                if is_less(found.cost, known.cost) {
                    found
                } else {
                    known
                }
            } else {
                if is_less(known.cost, found.cost) {
                    known
                } else {
                    found
                }
            }
        }
    }
}

// The next block on a way, which goes back to the first block of the space, or on to the last one.
#[inline(always)]
fn next<T: Tables>(tables: &T, name: u32, back: bool, count: &mut Accesses) -> Option<u32>
    requires { name < length (T.cells tables.now).chain.nodes }
    ensures next { result ≡ link_on (T.cells tables.now).chain back name }
    ensures accesses { count.new ≡ count.old + 1 }
{
    if back {
        chain::before(tables, name, count)
    } else {
        chain::after(tables, name, count)
    }
}

// The block that a way begins with.
#[inline(never)]
fn begin<T: Tables>(tables: &T, last: u32, back: bool, count: &mut Accesses) -> u32
    requires space { (spare : ℕ) × IsSpace (T.cells tables.now).chain last spare }
    ensures first { (if back then last_or None (blocks (T.cells tables.now).chain last)
        else first_or None (blocks (T.cells tables.now).chain last)) ≡ Some result }
    ensures accesses { count.new
        ≡ count.old + (if back then 0 else length (blocks (T.cells tables.now).chain last)) }
{
    if back {
        return last;
    }
    let mut first = last;
    let mut at = chain::before(tables, last, count);
    while let Some(name) = at {
        first = name;
        at = chain::before(tables, name, count);
    }
    first
}

// Leaves out the first blocks, as long as the others have enough whole steps.
#[inline(always)]
fn shorten<T: Tables>(
    tables: &T,
    mut span: Span,
    back: bool,
    step: u32,
    need: u32,
    few: u32,
    count: &mut Accesses,
) -> Span
    requires some { 1 ≤ step }
    requires more { 1 ≤ need + few }
    requires place { (bs rest : List Block) × IsWay (T.cells tables.now).chain back (bs ++ rest)
        × IsSpan step span bs × HaveSteps step need few bs
        × (length bs ≤ length (T.cells tables.now).chain.nodes) }
    ensures left { (bs rest : List Block) → IsWay (T.cells tables.now).chain back (bs ++ rest)
        → IsSpan step span bs → HaveSteps step need few bs → ((l : IsLeft step need few result bs)
        × (HaveSteps step need few l.span.more → ⊥) × (count.new ≡ count.old + 3 * length l.gone)) }
{
    while span
        .sums
        .without(span.size, span.used, step)
        .have(need, few)
    {
        let sums = span.sums.without(span.size, span.used, step);
        let Some(first) = next(tables, span.first, back, count) else {
            // no other has no step
            return span;
        };
        let first_size = tables.size(first, count);
        let first_used = chain::is_used(tables, first, count);
        span = Span {
            first,
            size: first_size,
            used: first_used,
            sums,
        };
    }
    span
}

// The last in space of the cheapest runs that serve a request: that give up by steps at least `want` units, and
// `short` names. Its first block is that on the way, which goes on to the last block, or back to the first one.
// By steps the way goes on, since the last block of a run gives up all its units. By steps of one unit each does,
// so it goes back, and needs no walk to the first block. At a free block the span leaves out its first blocks,
// as long as the others still serve, and then is a run. Where it does not serve, blocks that were left out could
// help, but such a run has one within it that was found, and costs no less.
#[inline(always)]
fn walk<T: Tables>(
    tables: &T,
    last: u32,
    back: bool,
    step: u32,
    want: u32,
    short: u32,
    count: &mut Accesses,
) -> Option<Run>
    requires space { (spare : ℕ) × IsSpace (T.cells tables.now).chain last spare }
    requires some { 1 ≤ step }
    requires single { back ≡ true → (step ≡ 1) × (short ≡ 0) }
    requires alone { HasNoneAlone want short (blocks (T.cells tables.now).chain last) }
    ensures run { IsCheapestBy step want short (blocks (T.cells tables.now).chain last)
        (in_space back result) }
    ensures accesses { (n : ℕ) → n ≡ length (blocks (T.cells tables.now).chain last)
        → Costs (3 * n + (if back then 0 else n)) (6 * n + (if back then 0 else n)) count.old count.new }
{
    tables.shape();
    let first = begin(tables, last, back, count);
    let first_size = tables.size(first, count);
    let first_used = chain::is_used(tables, first, count);
    let none = Sums {
        whole: 0,
        names: 0,
        units: 0,
        ranges: 0,
    };
    let mut span = Span {
        first,
        size: first_size,
        used: first_used,
        sums: none.and(first_size, first_used, step),
    };
    let mut run = None;
    let mut at = next(tables, first, back, count);
    while let Some(name) = at {
        let size = tables.size(name, count);
        let used = chain::is_used(tables, name, count);
        span.sums = span.sums.and(size, used, step);
        if !used {
            let need = want.saturating_sub(size % step);
            let few = few_of(size % step, short);
            if span.sums.have(need, few) {
                span = shorten(tables, span, back, step, need, few, count);
                let found = Run {
                    first: span.first,
                    end: name,
                    cost: RoomCost {
                        units: span.sums.units,
                        ranges: span.sums.ranges,
                    },
                };
                run = Some(better(run, found, back));
            }
        }
        at = next(tables, name, back, count);
    }
    run
}

// The last of the cheapest runs with at least `want` free units, where each free block has fewer.
#[inline(never)]
pub(crate) fn cheapest<T: Tables>(
    tables: &T,
    last: u32,
    want: u32,
    count: &mut Accesses,
) -> Option<Run>
    requires space { (spare : ℕ) × IsSpace (T.cells tables.now).chain last spare }
    requires alone { HasNoneAlone want 0 (blocks (T.cells tables.now).chain last) }
    ensures run { IsCheapestBy 1 want 0 (blocks (T.cells tables.now).chain last) result }
    ensures accesses { Costs (3 * length (blocks (T.cells tables.now).chain last))
        (6 * length (blocks (T.cells tables.now).chain last)) count.old count.new }
{
    let run = walk(tables, last, true, 1, want, 0, count)?;
    Some(Run {
        first: run.end,
        end: run.first,
        cost: run.cost,
    })
}

// The last of the cheapest runs that give up by steps at least `want` units, and `short` names, where no free
// block alone does.
#[inline(never)]
pub(crate) fn cheapest_by<T: Tables>(
    tables: &T,
    last: u32,
    step: u32,
    want: u32,
    short: u32,
    count: &mut Accesses,
) -> Option<Run>
    requires space { (spare : ℕ) × IsSpace (T.cells tables.now).chain last spare }
    requires some { 1 ≤ step }
    requires alone { HasNoneAlone want short (blocks (T.cells tables.now).chain last) }
    ensures run { IsCheapestBy step want short (blocks (T.cells tables.now).chain last) result }
    ensures accesses { Costs (4 * length (blocks (T.cells tables.now).chain last))
        (7 * length (blocks (T.cells tables.now).chain last)) count.old count.new }
{
    walk(tables, last, false, step, want, short, count)
}
