//! Why calls were refused, as the titles of their marks. It only appends text.

ghost use Rattle.std.specs.Prelude.{◌≡◌, ◌++◌, OnOk, string_bytes};
ghost use Rattle.offset_pictures.specs.Numerals.{counted_from_1};
ghost use Rattle.offset_pictures.specs.Reasons.{asked_text, more_text, one_spot, pixel_of, reason_text};
ghost use Rattle.offset_pictures.specs.Reasons.{reasons_text, report_after, report_text, rounded_text};
ghost use Rattle.offset_pictures.specs.Reasons.{said_text, spot_text};

use crate::numerals::Pixels;
use crate::plots::Plot;
use crate::refusing::{Asked, Reason, Refused};
use offset_allocator::ext::min_allocator_size;
use offset_allocator::{Refusal, StorageReport};
use std::alloc::AllocError;

// The largest value of a class that a block can have: no space grants a request for more units.
const LARGEST_CLASS: u64 = 4_026_531_840;

// What the units of a request are rounded up to, where a request for so many can be granted in any space at
// all.
fn put_rounded(out: &mut String, units: u64) -> Result<(), AllocError>
    ensures { OnOk result (string_bytes out.new ≡ string_bytes out.old ++ rounded_text units) }
{
    if units > LARGEST_CLASS {
        return Ok(());
    }
    let rounded = min_allocator_size(units as u32);
    write!(out, ", rounded up to {rounded}")
}

// What a call asked for.
fn put_asked(out: &mut String, asked: Asked) -> Result<(), AllocError>
    ensures { OnOk result (string_bytes out.new ≡ string_bytes out.old ++ asked_text asked) }
{
    match asked {
        Asked::Alloc(size) => {
            write!(out, "alloc {size}")?;
            put_rounded(out, u64::from(size))
        }
        Asked::Align(size, align) => {
            write!(out, "align {size} {align}")?;
            put_rounded(out, (u64::from(size) + u64::from(align)).saturating_sub(1))
        }
        Asked::Extend(more) => write!(out, "extend {more}"),
        Asked::Shrink(number, size) => write!(out, "shrink {number} {size}"),
        Asked::Grow(number, size) => write!(out, "grow {number} {size}"),
    }
}

// What is free; nothing where nodes are too few.
fn put_report(out: &mut String, why: Refusal, report: StorageReport) -> Result<(), AllocError>
    ensures { OnOk result (string_bytes out.new ≡ string_bytes out.old ++ report_text why report) }
{
    let largest = report.largest_free_region;
    let free = report.total_free_space;
    match why {
        Refusal::Nodes => Ok(()),
        _ => write!(out, "; largest free region {largest}, of {free} free"),
    }
}

// Why a call was refused.
fn put_reason(out: &mut String, why: Reason, report: StorageReport) -> Result<(), AllocError>
    ensures { OnOk result (string_bytes out.new ≡ string_bytes out.old ++ reason_text why report) }
{
    match why {
        Reason::Request(why) => {
            write!(out, "{why}")?;
            put_report(out, why, report)
        }
        Reason::TooManyUnits => write!(out, "a space has at most 4294967295 units"),
        Reason::NoRoom => write!(out, "too few units directly after the range are free"),
        Reason::Smaller => write!(out, "the range has fewer units"),
        Reason::Larger => write!(out, "the range has more units"),
    }
}

// The report after so many calls: that which the call with this number from 0 found.
fn report_after(reports: &[StorageReport], call: usize) -> StorageReport
    ensures { result ≡ report_after reports.now call }
{
    if call < reports.len() {
        reports[call]
    } else {
        StorageReport {
            total_free_space: 0,
            largest_free_region: 0,
        }
    }
}

// What is said of a refused call, counted from 1.
fn put_said(
    out: &mut String,
    refused: &Refused,
    reports: &[StorageReport],
) -> Result<(), AllocError>
    ensures { OnOk result (string_bytes out.new ≡ string_bytes out.old ++ said_text reports.now refused.now) }
{
    let call = refused.call.saturating_add(1);
    write!(out, "call {call}: ")?;
    put_asked(out, refused.asked)?;
    write!(out, ": ")?;
    put_reason(out, refused.why, report_after(reports, refused.call))
}

// The refused calls that lie within one pixel: where it begins, the first of them, and how many more there
// are.
#[derive(Clone, Copy)]
pub struct Spot {
    left: u32,
    first: Refused,
    more: usize,
}

impl Spot {
    // The spot of one call.
    fn new(left: u32, first: Refused) -> Self
        ensures { result ≡ one_spot left first }
    {
        Spot {
            left,
            first,
            more: 0,
        }
    }

    // One more call.
    fn add(&mut self)
        ensures left { self.new.left ≡ self.old.left }
        ensures first { self.new.first ≡ self.old.first }
        ensures more { self.new.more ≡ counted_from_1 self.old.more }
    {
        self.more = self.more.saturating_add(1);
    }

    // How many more calls there are, if there are any.
    fn put_more(&self, out: &mut String) -> Result<(), AllocError>
        ensures { OnOk result (string_bytes out.new ≡ string_bytes out.old ++ more_text self.now.more) }
    {
        let more = self.more;
        if more == 0 {
            return Ok(());
        }
        write!(out, "; {more} more refused here")
    }

    // The spot of its marks, with its title: one pixel, and the halves of marks beyond.
    fn put(&self, out: &mut String, y: u32, reports: &[StorageReport]) -> Result<(), AllocError>
        ensures { OnOk result (string_bytes out.new
            ≡ string_bytes out.old ++ spot_text y reports.now self.now) }
    {
        let left = Pixels(self.left.saturating_sub(100));
        let top = Pixels(y);
        write!(
            out,
            "<rect x='{left}' y='{top}' width='3' height='12'><title>"
        )?;
        put_said(out, &self.first, reports)?;
        self.put_more(out)?;
        writeln!(out, "</title></rect>")
    }
}

// Where the pixel begins in which a call lies. The call is counted from 0.
fn pixel_of(plot: &Plot, call: usize) -> u32
    ensures { result ≡ pixel_of plot.now.calls call }
{
    plot.calls.right(call.saturating_add(1) as u64) / 100 * 100
}

/// Appends why calls were refused, as titles over their marks: for each pixel that has marks, of the first of
/// its calls, and how many more there are. These are the reports of all states.
pub fn put_reasons(
    out: &mut String,
    plot: &Plot,
    reports: &[StorageReport],
    refused: &[Refused],
) -> Result<(), AllocError>
    ensures { OnOk result (string_bytes out.new
        ≡ string_bytes out.old ++ reasons_text plot.now reports.now refused.now) }
{
    let y = plot.bottom();
    writeln!(out, "<g class='why'>")?;
    let mut spot: Option<Spot> = None;
    for call in refused {
        let left = pixel_of(plot, call.call);
        match &mut spot {
            Some(spot) if spot.left == left => spot.add(),
            _ => {
                if let Some(spot) = &spot {
                    spot.put(out, y, reports)?;
                }
                spot = Some(Spot::new(left, *call));
            }
        }
    }
    if let Some(spot) = &spot {
        spot.put(out, y, reports)?;
    }
    writeln!(out, "</g>")
}
