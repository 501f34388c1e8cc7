//! Each call of an adapter is one call of its reader or writer, also after a failure.

use crate::asserts::{assert_same, assert_same_at, assert_that, assert_that_at};
use offset_script::{FromRead, IntoWrite, Sink, Source};
use offset_test_base::devices::{Reader, Writer};
use std::alloc::Global;
use std::process::Abort;

// Calls of `pull` on a reader whose text is the first `length` letters.
struct Pulls {
    name: &'static str,
    length: usize,
    piece: usize,
    fails_at: u32,
    empty_at: u32,
    // The length of each buffer, what the call returns, and what the buffer begins with after it.
    calls: &'static [(usize, Option<usize>, &'static [u8])],
    reads: u32,
    left: usize,
}

const PULLS: [Pulls; 4] = [
    Pulls {
        name: "one read",
        length: 7,
        piece: 3,
        fails_at: 0,
        empty_at: 0,
        calls: &[(5, Some(3), b"abc\x00\x00")],
        reads: 1,
        left: 4,
    },
    Pulls {
        name: "after a failure",
        length: 3,
        piece: 3,
        fails_at: 1,
        empty_at: 0,
        calls: &[(5, None, b""), (5, Some(3), b"abc")],
        reads: 2,
        left: 0,
    },
    Pulls {
        name: "nothing",
        length: 3,
        piece: 3,
        fails_at: 0,
        empty_at: 1,
        calls: &[(5, Some(0), b"")],
        reads: 1,
        left: 3,
    },
    Pulls {
        name: "into an empty buffer, and into a longer one than a run uses",
        length: 100_000,
        piece: 100_000,
        fails_at: 0,
        empty_at: 0,
        calls: &[(0, Some(0), b""), (90_000, Some(90_000), b"abcdefgaaa")],
        reads: 2,
        left: 10_000,
    },
];

// The letters that rows take a beginning of.
fn letters(rt: &impl Abort, alloc: Global) -> Vec<u8> {
    let mut letters = vec![in alloc; b'a'; 100_000].expect(rt, "memory");
    letters[..7].copy_from_slice(b"abcdefg");
    letters
}

fn beginning<'a>(rt: &impl Abort, letters: &'a [u8], length: usize) -> &'a [u8] {
    let (text, _) = letters.split_at_checked(length).expect(rt, "letters");
    text
}

// Pulls once, into a buffer of this length.
fn expect_pull<S: Source>(
    rt: &impl Abort,
    alloc: Global,
    input: &mut S,
    name: &str,
    (length, wanted, start): (usize, Option<usize>, &[u8]),
) {
    let mut buf = vec![in alloc; 0u8; length].expect(rt, "memory");
    assert_same_at(rt, &name, &input.pull(&mut buf), &wanted);
    assert_that_at(rt, &name, buf.starts_with(start));
}

fn expect_pulls(rt: &impl Abort, alloc: Global, text: &[u8], row: &Pulls) {
    let mut reader = Reader::new(text, row.piece);
    reader.fails_at = row.fails_at;
    reader.empty_at = row.empty_at;
    let mut input = FromRead::new(reader);
    for call in row.calls {
        expect_pull(rt, alloc, &mut input, row.name, *call);
    }
    let reader = input.into_inner();
    assert_same_at(rt, &row.name, &reader.reads, &row.reads);
    assert_same_at(rt, &row.name, &reader.text.len(), &row.left);
}

#[test]
fn each_pull_is_one_read(rt: HostRuntime) {
    let letters = letters(&rt, rt.alloc());
    for row in &PULLS {
        let text = beginning(&rt, &letters, row.length);
        expect_pulls(&rt, rt.alloc(), text, row);
    }
}

// A push of all letters of a row, or a flush, and what it returns.
enum Call {
    Push(Option<usize>),
    Flush(bool),
}

// Calls on a writer. Each push is of the first `length` letters.
struct Calls {
    name: &'static str,
    length: usize,
    piece: usize,
    fails_at: u32,
    empty_at: u32,
    fails_flush: bool,
    calls: &'static [Call],
    // How many letters were taken, and how many of them before the last flush.
    taken: usize,
    flushed: Option<usize>,
    writes: u32,
    flushes: u32,
}

const CALLS: [Calls; 8] = [
    Calls {
        name: "one push",
        length: 7,
        piece: 3,
        fails_at: 0,
        empty_at: 0,
        fails_flush: false,
        calls: &[Call::Push(Some(3))],
        taken: 3,
        flushed: None,
        writes: 1,
        flushes: 0,
    },
    Calls {
        name: "a push of much",
        length: 100_000,
        piece: 100_000,
        fails_at: 0,
        empty_at: 0,
        fails_flush: false,
        calls: &[Call::Push(Some(100_000))],
        taken: 100_000,
        flushed: None,
        writes: 1,
        flushes: 0,
    },
    Calls {
        name: "a push after a failure",
        length: 3,
        piece: 3,
        fails_at: 1,
        empty_at: 0,
        fails_flush: false,
        calls: &[Call::Push(None), Call::Push(Some(3))],
        taken: 3,
        flushed: None,
        writes: 2,
        flushes: 0,
    },
    Calls {
        name: "a write that takes nothing is a failure, and is not tried again",
        length: 3,
        piece: 3,
        fails_at: 0,
        empty_at: 1,
        fails_flush: false,
        calls: &[Call::Push(None)],
        taken: 0,
        flushed: None,
        writes: 1,
        flushes: 0,
    },
    Calls {
        name: "one flush",
        length: 3,
        piece: 3,
        fails_at: 0,
        empty_at: 0,
        fails_flush: false,
        calls: &[Call::Flush(true)],
        taken: 0,
        flushed: Some(0),
        writes: 0,
        flushes: 1,
    },
    Calls {
        name: "one flush that fails",
        length: 3,
        piece: 3,
        fails_at: 0,
        empty_at: 0,
        fails_flush: true,
        calls: &[Call::Flush(false)],
        taken: 0,
        flushed: Some(0),
        writes: 0,
        flushes: 1,
    },
    Calls {
        name: "a flush right after a flush, and one after a write that came between",
        length: 3,
        piece: 3,
        fails_at: 0,
        empty_at: 0,
        fails_flush: false,
        calls: &[
            Call::Flush(true),
            Call::Flush(true),
            Call::Push(Some(3)),
            Call::Flush(true),
        ],
        taken: 3,
        flushed: Some(3),
        writes: 1,
        flushes: 3,
    },
    Calls {
        name: "a flush after a failure",
        length: 3,
        piece: 3,
        fails_at: 1,
        empty_at: 0,
        fails_flush: false,
        calls: &[Call::Push(None), Call::Flush(true)],
        taken: 0,
        flushed: Some(0),
        writes: 1,
        flushes: 1,
    },
];

fn expect_call(
    rt: &impl Abort,
    output: &mut IntoWrite<Writer>,
    name: &str,
    text: &[u8],
    call: &Call,
) {
    match call {
        Call::Push(wanted) => assert_same_at(rt, &name, &output.push(text), wanted),
        Call::Flush(wanted) => assert_same_at(rt, &name, &output.flush(), wanted),
    }
}

// The writer after the calls of a row.
fn writer_after(rt: &impl Abort, alloc: Global, text: &[u8], row: &Calls) -> Writer {
    let mut writer = Writer::new(alloc, row.piece);
    writer.fails_at = row.fails_at;
    writer.empty_at = row.empty_at;
    writer.fails_flush = row.fails_flush;
    let mut output = IntoWrite::new(writer);
    for call in row.calls {
        expect_call(rt, &mut output, row.name, text, call);
    }
    output.into_inner()
}

fn expect_calls(rt: &impl Abort, alloc: Global, letters: &[u8], row: &Calls) {
    let text = beginning(rt, letters, row.length);
    let writer = writer_after(rt, alloc, text, row);
    assert_that_at(rt, &row.name, letters.starts_with(&writer.taken));
    assert_same_at(rt, &row.name, &writer.taken.len(), &row.taken);
    assert_same_at(rt, &row.name, &writer.flushed, &row.flushed);
    assert_same_at(rt, &row.name, &writer.writes, &row.writes);
    assert_same_at(rt, &row.name, &writer.flushes, &row.flushes);
}

#[test]
fn each_push_is_one_write_and_each_flush_one_flush(rt: HostRuntime) {
    let letters = letters(&rt, rt.alloc());
    for row in &CALLS {
        expect_calls(&rt, rt.alloc(), &letters, row);
    }
}

#[test]
fn pulls_two_mebibytes_by_one_read(rt: HostRuntime) {
    let text = vec![in rt.alloc(); b'a'; 3_000_000].expect(&rt, "memory");
    let mut input = FromRead::new(Reader::new(&text, 3_000_000));
    let mut buf = vec![in rt.alloc(); 0u8; 2_097_152].expect(&rt, "memory");
    assert_same(&rt, &input.pull(&mut buf), &Some(2_097_152));
    assert_that(&rt, buf.iter().all(|byte| *byte == b'a'));
    let reader = input.into_inner();
    assert_same(&rt, &reader.reads, &1);
    assert_same(&rt, &reader.text.len(), &902_848);
}
