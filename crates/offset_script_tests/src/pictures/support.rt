//! What the tests of pictures share.

use crate::asserts::assert_same_at;
use crate::playing::script_of;
use offset_pictures::picture;
use std::alloc::{AllocError, Global};
use std::process::Abort;

/// A part of a script.
#[derive(Clone, Copy)]
pub enum Part {
    /// The same lines so often.
    Lines(u32, &'static str),
    /// Grants of so many units, each with its release, with the numbers from one on and below another.
    Lives(u32, u32, u32),
}

/// A script, texts that its picture has exactly once, and others that it has so often.
pub struct Picture {
    pub script: &'static [Part],
    pub once: &'static [&'static str],
    pub counts: &'static [(&'static str, usize)],
}

/// The picture of a script.
pub fn picture_of(rt: &impl Abort, alloc: Global, parts: &[Part]) -> String {
    titled_picture_of(rt, alloc, "A script", parts)
}

fn put_lines(text: &mut String, times: u32, lines: &str) -> Result<(), AllocError> {
    for _ in 0..times {
        text.push_str(lines)?;
    }
    Ok(())
}

fn put_lives(text: &mut String, units: u32, first: u32, below: u32) -> Result<(), AllocError> {
    for number in first..below {
        writeln!(text, "alloc {units}\nfree {number}")?;
    }
    Ok(())
}

// The text of a script of these parts.
fn text_of(alloc: Global, parts: &[Part]) -> Result<String, AllocError> {
    let mut text = String::new(alloc);
    for part in parts {
        match part {
            Part::Lines(times, lines) => put_lines(&mut text, *times, lines)?,
            Part::Lives(units, first, below) => put_lives(&mut text, *units, *first, *below)?,
        }
    }
    Ok(text)
}

/// The picture of a script with a title.
pub fn titled_picture_of(rt: &impl Abort, alloc: Global, title: &str, parts: &[Part]) -> String {
    let text = text_of(alloc, parts).expect(rt, "memory");
    let script = script_of(rt, alloc, text.as_bytes());
    picture(alloc, title, &script).expect(rt, "memory")
}

/// How often a word is in a text.
pub fn count(text: &str, word: &str) -> usize {
    text.matches(word).count()
}

/// What the rectangle of a grant begins with. The background has a class and no place.
pub const RECTANGLE: &str = "<rect x=";

/// What the title of a grant begins with.
pub const GRANT_TITLE: &str = "<title>grant ";

// Expects that a picture has a word so often.
fn expect_count(rt: &impl Abort, picture: &str, word: &str, wanted: usize) {
    assert_same_at(rt, &(word, picture), &count(picture, word), &wanted);
}

/// Expects the texts of a picture.
pub fn expect_picture(rt: &impl Abort, alloc: Global, row: &Picture) {
    let picture = picture_of(rt, alloc, row.script);
    for word in row.once {
        expect_count(rt, &picture, word, 1);
    }
    for (word, wanted) in row.counts {
        expect_count(rt, &picture, word, *wanted);
    }
}

/// Expects the texts of each of these pictures.
pub fn expect_pictures(rt: &impl Abort, alloc: Global, rows: &[Picture]) {
    for row in rows {
        expect_picture(rt, alloc, row);
    }
}
