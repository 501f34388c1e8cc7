//! Laws on lives, on reports, on refusals, and on the picture of them. The functions touch nothing.

ghost use Rattle.offset_pictures.specs.Levels.{ReportsAreLevelled};
ghost use Rattle.offset_pictures.specs.Lines.{EachLineShowsItsValues};
ghost use Rattle.offset_pictures.specs.Lives.{LivesAreSeen, LivesAreWithin, LivesAreApart};
ghost use Rattle.offset_pictures.specs.Marks.{EachRefusalIsMarked};
ghost use Rattle.offset_pictures.specs.Merging.{MergedRectanglesCoverLives};
ghost use Rattle.offset_pictures.specs.Overlaps.{RectanglesAreApart};
ghost use Rattle.offset_pictures.specs.Picture.{FiguresAreFixed, PicturesAreFixed, PicturesAreWellFormed};
ghost use Rattle.offset_pictures.specs.Picture.{PicturesHaveTitles, ScriptsFixTheirPictures};
ghost use Rattle.offset_pictures.specs.Reasons.{EachRefusalIsToldOf};
ghost use Rattle.offset_pictures.specs.Rectangles.{EachLifeHasARectangle, MergedRectanglesAreDrawn};
ghost use Rattle.offset_pictures.specs.Refusals.{RefusalsHaveReasons};

/// After any number of calls, a live block of a life's number exists, with its range, exactly while the life
/// is on.
pub fn a_life_is_what_the_space_shows()
    ensures { LivesAreSeen }
{}

/// No life leaves the space, in any script.
pub fn a_life_is_within_the_space()
    ensures { LivesAreWithin }
{}

/// No two lives share a unit at any time, in any script.
pub fn no_two_lives_overlap()
    ensures { LivesAreApart }
{}

/// No report has a larger free region than if its free units were one block, and that is at most these units.
pub fn lines_never_cross()
    ensures { ReportsAreLevelled }
{}

/// Where lives have titles, each has exactly one rectangle, with its title, in the group of its age.
pub fn each_life_has_a_rectangle()
    ensures { EachLifeHasARectangle }
{}

/// Where rectangles are merged, as those of more than 20,000 lives are, each point of a life's rectangle,
/// whose edges are rounded outwards where it is tiny, is covered by one of its row, and no other point is: a
/// row has an upper and a lower edge, and the colour of an age. The groups of the ages have each of them
/// once.
pub fn merged_rectangles_cover_each_life()
    ensures covered { MergedRectanglesCoverLives }
    ensures drawn { MergedRectanglesAreDrawn }
{}

/// The rectangles of two lives do not overlap, but by the 0.3 pixels that thin ones are drawn with.
pub fn rectangles_never_overlap()
    ensures { RectanglesAreApart }
{}

/// Each line has a point where each of its states lies, at the y of its value, both to a tenth of a pixel;
/// and each of its points is at the y of a state that is on there, or upright between two of them.
pub fn each_line_shows_its_values()
    ensures { EachLineShowsItsValues }
{}

/// Each refused call has its mark, to a tenth of a pixel.
pub fn each_refusal_is_marked()
    ensures { EachRefusalIsMarked }
{}

/// The calls with a reason are those that are refused, in the course of any script.
pub fn each_refusal_has_a_reason()
    ensures { RefusalsHaveReasons }
{}

/// Each refused call is reported by one title over the marks: that of its pixel, which says of the first of
/// its calls why it was refused, and of the others how many they are.
pub fn each_refusal_is_in_one_title()
    ensures { EachRefusalIsToldOf }
{}

/// Each picture, of any course, begins with its title, and has it once more as its heading.
pub fn a_picture_has_its_title()
    ensures { PicturesHaveTitles }
{}

/// Each picture, of any course, is well-formed XML: one element, in which tags nest, names of attributes
/// differ, and each character is one that XML allows.
pub fn a_picture_is_well_formed()
    ensures { PicturesAreWellFormed }
{}

/// The figures of a course, which the legend shows, are fixed by the course.
pub fn a_course_fixes_its_figures()
    ensures { FiguresAreFixed }
{}

/// A course and a title fix the whole text of their picture.
pub fn a_course_fixes_its_picture()
    ensures { PicturesAreFixed }
{}

/// A script and a title do so too.
pub fn a_script_fixes_its_picture()
    ensures { ScriptsFixTheirPictures }
{}
