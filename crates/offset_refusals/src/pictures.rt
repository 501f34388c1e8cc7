//! Lives, reports and pictures of scripts.

use crate::numbers::put_report;
use offset_pictures::{lives, picture, reports};
use offset_refusal_base::cells::{Cells, put};
use offset_refusal_base::layouts::script;
use offset_refusal_base::outcomes::Failure;
use std::alloc::Global;

/// The title of the pictures.
pub const TITLE: &str = "a title";

/// Puts the numbers of each life of a script, and then of each report, into the cells.
pub fn put_lives(alloc: Global, text: &[u8], cells: &mut Cells<'_>) -> Result<(), Failure> {
    let script = script(alloc, text)?;
    let lives = lives(alloc, &script)?;
    let reports = reports(alloc, &script)?;
    for life in &lives {
        put(cells, life.number);
        put(cells, u64::from(life.offset));
        put(cells, u64::from(life.size));
        put(cells, life.first as u64);
        put(cells, life.last as u64);
    }
    for report in &reports {
        put_report(cells, report);
    }
    Ok(())
}

/// Puts each byte of the picture of a script into a cell.
pub fn put_picture(alloc: Global, text: &[u8], cells: &mut Cells<'_>) -> Result<(), Failure> {
    let script = script(alloc, text)?;
    for byte in picture(alloc, TITLE, &script)?.as_bytes() {
        put(cells, u64::from(*byte));
    }
    Ok(())
}
