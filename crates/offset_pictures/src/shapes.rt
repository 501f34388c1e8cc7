//! The rectangle of a life, in hundredths of a pixel. It only computes.

ghost use Rattle.std.specs.Prelude.{◌≡◌, ◌-◌, ◌<◌, ◌≤◌};
ghost use Rattle.offset_pictures.specs.Shapes.{shape_of};

use crate::ages::age_of;
use crate::living::Life;
use crate::plots::Plot;

/// A rectangle before it is made thicker, in hundredths of a pixel. Merging orders rectangles by these
/// fields, the first one first.
#[derive(Clone, Copy, PartialEq, Debug)]
pub struct Shape {
    pub top: u32,
    pub bottom: u32,
    /// The group of its age.
    pub age: usize,
    pub left: u32,
    pub right: u32,
}

impl Shape {
    /// How wide it is.
    pub fn width(&self) -> u32
        ensures { result ≡ self.now.right - self.now.left }
    {
        self.right.saturating_sub(self.left)
    }

    /// How high it is.
    pub fn height(&self) -> u32
        ensures { result ≡ self.now.bottom - self.now.top }
    {
        self.bottom.saturating_sub(self.top)
    }
}

/// The rectangle of a life: from the call that granted it to the one that ended it, as high as its range, and
/// of the age of its grant.
pub fn shape_of(plot: &Plot, life: &Life) -> Shape
    ensures shape { result ≡ shape_of plot.now life.now }
    ensures right { result.right ≤ 120000 }
    ensures bottom { result.bottom ≤ 120000 }
    ensures left { result.left ≤ 120000 }
    ensures top { result.top ≤ 120000 }
    ensures age { result.age < 8 }
{
    Shape {
        top: plot.units.up(u64::from(life.offset) + u64::from(life.size)),
        bottom: plot.units.up(u64::from(life.offset)),
        age: age_of(life.lived),
        left: plot.calls.right(life.first.saturating_add(1) as u64),
        right: plot.calls.right(life.last.saturating_add(1) as u64),
    }
}
