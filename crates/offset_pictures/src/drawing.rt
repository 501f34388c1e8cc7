//! The picture of a script, which it plays, or of a course: its parts in order. It appends text.

ghost use Rattle.std.specs.Prelude.{◌≡◌, ◌≤◌, ◌++◌, ℕ, List, All, IfOk, OnOk, length, map, string_bytes};
ghost use Rattle.offset_pictures.specs.Lives.{IsOrdered, life_view};
ghost use Rattle.offset_pictures.specs.Marks.{refusals_text};
ghost use Rattle.offset_pictures.specs.Picture.{IsBody, IsPicture, IsPictureOf};
ghost use Rattle.offset_script.specs.Running.{as_plan};
ghost use Rattle.offset_pictures.specs.StepLines.{AreXs, beyond_text, reports_text};

use crate::course::{Course, course_of};
use crate::figures::figures_of;
use crate::legend::{put_legend, put_notes};
use crate::levels::levels_of;
use crate::plots::{Plot, ranges_plot, reports_plot};
use crate::reasons::put_reasons;
use crate::rectangles::put_rectangles;
use crate::refusing::Refused;
use crate::step_lines::{put_line, put_marks, xs_of};
use crate::style::{OPENING, STYLE};
use crate::titles::{put_escaped, put_heading};
use offset_allocator::StorageReport;
use offset_script::Script;
use std::alloc::{AllocError, Global};

// The units that are not in the space yet, where the plot goes beyond it.
fn put_beyond(out: &mut String, plot: &Plot, course: &Course, xs: &[u32]) -> Result<(), AllocError>
    requires enough { length course.now.sizes.items ≤ length xs.now }
    requires xs { AreXs plot.now.calls xs.now }
    ensures { OnOk result (string_bytes out.new
        ≡ string_bytes out.old ++ beyond_text plot.now course.now) }
{
    put_line(out, "out", plot, plot.units.start, &course.sizes, xs)
}

// The marks of refused calls below the plot, and their reasons; nothing where no call was refused.
fn put_refusals(
    out: &mut String,
    plot: &Plot,
    reports: &[StorageReport],
    refused: &[Refused],
) -> Result<(), AllocError>
    ensures { OnOk result (string_bytes out.new
        ≡ string_bytes out.old ++ refusals_text plot.now reports.now refused.now) }
{
    if refused.is_empty() {
        return Ok(());
    }
    write!(out, "<path class='refusal' d='")?;
    put_marks(out, &plot.calls, plot.bottom(), refused)?;
    writeln!(out, "'/>")?;
    put_reasons(out, plot, reports, refused)
}

// The free units, in front of them what the largest free region would be without fragmentation, and in front
// of both what it is.
fn put_reports(
    alloc: Global,
    out: &mut String,
    plot: &Plot,
    course: &Course,
    xs: &[u32],
) -> Result<(), AllocError>
    requires enough { length course.now.reports.items ≤ length xs.now }
    requires xs { AreXs plot.now.calls xs.now }
    ensures { OnOk result (string_bytes out.new
        ≡ string_bytes out.old ++ reports_text plot.now course.now) }
{
    let levels = levels_of(alloc, &course.reports)?;
    let base = plot.bottom();
    put_line(out, "free", plot, base, &levels.free, xs)?;
    put_line(out, "joined", plot, base, &levels.joined, xs)?;
    put_line(out, "most", plot, base, &levels.most, xs)
}

// Appends what a picture holds after its heading.
fn put_body(alloc: Global, out: &mut String, course: &Course) -> Result<(), AllocError>
    requires { All IsOrdered (map life_view course.now.lives.items) }
    ensures { OnOk result ((text : List ℕ) × (string_bytes out.new ≡ string_bytes out.old ++ text)
        × IsBody course.now text) }
{
    let figures = figures_of(alloc, course)?;
    let ranges = ranges_plot(&figures);
    let reports = reports_plot(&figures);
    // The axes of calls of both plots are the same. A line has a value for each entry of its list: so this is
    // the larger of the two numbers, and `states` of a course is the smaller.
    let entries = course.sizes.len().max(course.reports.len());
    let xs = xs_of(alloc, &ranges.calls, entries)?;
    put_legend(out, &figures, course.max_allocs, ranges.units.most)?;
    put_beyond(out, &ranges, course, &xs)?;
    ranges.put_axes(out, 6, 12)?;
    let merged = put_rectangles(alloc, out, &ranges, &course.lives, figures.calls)?;
    put_refusals(out, &ranges, &course.reports, &course.refused)?;
    put_reports(alloc, out, &reports, course, &xs)?;
    reports.put_axes(out, 4, 12)?;
    put_notes(out, merged)?;
    Ok(())
}

/// The picture of a course, as SVG, with this title: its accessible name, and the heading that it shows. In
/// the title a space takes the place of each line end and tab, and of each character that XML 1.0 forbids.
///
/// It is drawn as the course says, of whichever calls: `course_of` makes that of a script. No life may end
/// before it begins.
///
/// # Errors
///
/// It fails only where an allocation fails.
///
/// ```
/// let svg = picture_of(alloc, "two calls", &course_of(alloc, &script)?)?;
/// assert!(svg.ends_with("</svg>\n"));
/// ```
pub fn picture_of(alloc: Global, title: &str, course: &Course) -> Result<String, AllocError>
    requires { All IsOrdered (map life_view course.now.lives.items) }
    ensures { IfOk result (λ text. IsPictureOf title.now course.now (string_bytes text)) }
{
    let mut out = String::from_str(alloc, OPENING)?;
    put_escaped(&mut out, title)?;
    out.push_str("</title>\n")?;
    out.push_str(STYLE)?;
    put_heading(&mut out, title)?;
    put_body(alloc, &mut out, course)?;
    out.push_str("</svg>\n")?;
    Ok(out)
}

/// Plays a script, and returns its picture as SVG, with this title: its accessible name, and the heading that
/// it shows.
///
/// In the title a space takes the place of each line end and tab, and of each character that XML 1.0 forbids.
///
/// # Errors
///
/// It fails only where an allocation fails.
///
/// ```
/// let svg = picture(alloc, "two calls", &script)?;
/// assert!(svg.starts_with("<svg xmlns='http://www.w3.org/2000/svg'"));
/// ```
pub fn picture(alloc: Global, title: &str, script: &Script) -> Result<String, AllocError>
    // All of the text: the tag of an SVG, the title, the style, the title as heading, and what is drawn of
    // the course of the script, whose lives, reports, sizes and refusals are those of the plain machine.
    ensures { IfOk result (λ text. IsPicture title.now (as_plan script.now) (string_bytes text)) }
{
    picture_of(alloc, title, &course_of(alloc, script)?)
}
