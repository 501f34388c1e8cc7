//! Pictures are well-formed XML.

use super::support::Part::Lines;
use super::support::titled_picture_of;
use crate::asserts::{assert_same_at, assert_that_at};
use std::alloc::{AllocError, Global};
use std::process::Abort;

// Whether a text is the name of an element or of an attribute.
fn is_name(word: &str) -> bool {
    for byte in word.bytes() {
        if !byte.is_ascii_alphanumeric() && byte != b'-' {
            return false;
        }
    }
    !word.is_empty()
}

// Whether a text is attributes alone, each after a space, with its value in single quotes, and none twice.
fn are_attributes(alloc: Global, text: &str) -> Result<bool, AllocError> {
    let mut names: Vec<&str> = Vec::new(alloc);
    let mut rest = text;
    for _ in 0..text.len() {
        if rest.is_empty() {
            break;
        }
        let Some((before, after)) = rest.split_once("='") else {
            return Ok(false);
        };
        let Some(name) = before.strip_prefix(" ") else {
            return Ok(false);
        };
        let Some((_, others)) = after.split_once("'") else {
            return Ok(false);
        };
        if !is_name(name) || names.contains(&name) {
            return Ok(false);
        }
        names.push(name)?;
        rest = others;
    }
    Ok(rest.is_empty())
}

// Whether each `&` of a text begins one of the three names of characters that pictures have.
fn are_names(text: &str) -> bool {
    for piece in text.split("&").skip(1) {
        if !piece.starts_with("amp;") && !piece.starts_with("lt;") && !piece.starts_with("gt;") {
            return false;
        }
    }
    true
}

// The name and the attributes in a tag.
fn name_of(inner: &str) -> (&str, &str) {
    let length = inner.find(" ").unwrap_or(inner.len());
    inner.split_at_checked(length).unwrap_or((inner, ""))
}

// The elements of a text so far.
#[derive(Drop)]
struct Elements<'a> {
    // The names of those that are open, from the outermost on.
    open: Vec<&'a str>,
    // The number of those that are in no other.
    roots: u32,
}

impl<'a> Elements<'a> {
    // Opens an element, unless its tag closes it too. It returns whether the tag is right.
    fn begin(
        &mut self,
        alloc: Global,
        inner: &'a str,
        is_closed: bool,
    ) -> Result<bool, AllocError> {
        let (name, attributes) = name_of(inner);
        if !is_name(name) || !are_attributes(alloc, attributes)? {
            return Ok(false);
        }
        if self.open.is_empty() {
            self.roots = self.roots.saturating_add(1);
        }
        if !is_closed {
            self.open.push(name)?;
        }
        Ok(true)
    }

    // Takes the next tag, and returns whether it is right.
    fn take(&mut self, alloc: Global, tag: &'a str) -> Result<bool, AllocError> {
        if let Some(name) = tag.strip_prefix("/") {
            return Ok(self.open.pop() == Some(name));
        }
        match tag.strip_suffix("/") {
            Some(inner) => self.begin(alloc, inner, true),
            None => self.begin(alloc, tag, false),
        }
    }

    // Takes the next tag and the text after it, and returns whether both are right.
    fn take_piece(&mut self, alloc: Global, piece: &'a str) -> Result<bool, AllocError> {
        let Some((tag, data)) = piece.split_once(">") else {
            return Ok(false);
        };
        if data.contains(">") || !self.take(alloc, tag)? {
            return Ok(false);
        }
        Ok(!self.open.is_empty() || data.trim().is_empty())
    }

    // Takes all tags of a text and the texts between them, and returns whether they are right.
    fn take_all(&mut self, alloc: Global, text: &'a str) -> Result<bool, AllocError> {
        for piece in text.split("<").skip(1) {
            if !self.take_piece(alloc, piece)? {
                return Ok(false);
            }
        }
        Ok(true)
    }
}

// Whether a text is one element, with its elements closed in turn, and no bare `&`, `<` or `>` in text or
// attributes. It knows no comments, declarations or other names, which pictures do not have.
fn is_well_formed(alloc: Global, text: &str) -> Result<bool, AllocError> {
    if !text.starts_with("<") || !are_names(text) {
        return Ok(false);
    }
    let mut elements = Elements {
        open: Vec::new(alloc),
        roots: 0,
    };
    let is_right = elements.take_all(alloc, text)?;
    Ok(is_right && elements.open.is_empty() && elements.roots == 1)
}

fn expect_check(rt: &impl Abort, alloc: Global, text: &str, wanted: bool) {
    let found = is_well_formed(alloc, text).expect(rt, "memory");
    assert_same_at(rt, &text, &found, &wanted);
}

// Texts, and whether they are well-formed.
const CHECKS: [(&str, bool); 20] = [
    ("<a/>", true),
    ("<a b='c' d='e'>f<g/>h</a>\n", true),
    ("<a>", false),
    ("<a></b>", false),
    ("<a><b></a></b>", false),
    ("<a/><a/>", false),
    ("<a/>b", false),
    ("b<a/>", false),
    ("<a>&amp;b&lt;&gt;</a>", true),
    ("<a>&</a>", false),
    ("<a>&amp</a>", false),
    ("<a>&amp;&b;</a>", false),
    ("<a>></a>", false),
    ("<a b=c/>", false),
    ("<a b='c/>", false),
    ("<a b='c'd='e'/>", false),
    ("<a b='c' b='d'/>", false),
    ("<a b='c''/>", false),
    ("<a", false),
    ("", false),
];

// The other tests of this file rely on this check.
#[test]
fn the_check_of_markup_works(rt: HostRuntime) {
    for (text, wanted) in &CHECKS {
        expect_check(&rt, rt.alloc(), text, *wanted);
    }
}

fn expect_well_formed(rt: &impl Abort, alloc: Global, text: &'static str) {
    let picture = titled_picture_of(rt, alloc, "</title><b> & 'c' \"d\"", &[Lines(1, text)]);
    let is_so = is_well_formed(alloc, &picture).expect(rt, "memory");
    assert_that_at(rt, &text, is_so);
}

#[test]
fn draws_well_formed_pictures(rt: HostRuntime) {
    for text in [
        "space 0 nodes 2 index 16\n",
        "space 100 nodes 16 index 32\n",
        "space 100 nodes 16 index 32\nalloc 101\nalloc 102\n",
        "space 100 nodes 3 index 32\nalloc 10\nalloc 10\nfree 1\n",
        "space 100 nodes 16 index 32\nalloc 10\nalign 8 16\nfree 1\nalloc 90\nextend 50\nalloc 0\nsize 3\nfull\nreport\nreset\nalloc 7\n",
        "space 4294967295 nodes 16 index 32\nalloc 4026531840\nextend 1\nfree 9\n",
    ] {
        expect_well_formed(&rt, rt.alloc(), text);
    }
}
