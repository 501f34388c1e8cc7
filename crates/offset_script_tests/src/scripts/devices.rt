//! Runs over readers and writers that fail, that stop, and that give or take small pieces.

use crate::asserts::assert_same_at;
use crate::playing::run_result;
use offset_script::{FromRead, IntoWrite, RunFault, ScriptFault};
use offset_test_base::devices::{Reader, Writer};
use std::alloc::Global;
use std::process::Abort;

const TEXT: &[u8] = b"space 10 nodes 4 index 32\nalloc 10\nfree 1\n";

const ANSWERS: &[u8] = b"grant 1 at 0\nfreed\n";

const HEADER: &[u8] = b"space 10 nodes 4 index 32";

// The result of a run over these devices, and the devices after it.
fn run_over(
    alloc: Global,
    reader: Reader<'_>,
    writer: Writer,
) -> (Result<(), RunFault>, Reader<'_>, Writer) {
    let mut input = FromRead::new(reader);
    let mut output = IntoWrite::new(writer);
    let result = run_result(alloc, &mut input, &mut output);
    (result, input.into_inner(), output.into_inner())
}

// A run over this reader ends so, at the read of this number.
fn expect_stop(rt: &impl Abort, alloc: Global, reader: Reader<'_>, stop: u32, wanted: RunFault) {
    let (result, reader, writer) = run_over(alloc, reader, Writer::new(alloc, 1));
    assert_same_at(rt, &stop, &result, &Err(wanted));
    assert_same_at(rt, &wanted, &reader.reads, &stop);
    assert_same_at(rt, &stop, &writer.writes, &0);
    assert_same_at(rt, &stop, &writer.flushes, &0);
}

// Each read gives one byte, and one of them fails once, or gives 0 bytes, which is the end of the text, even
// where more would follow. Nothing is read after it, and nothing written.
#[test]
fn stops_at_a_failed_or_empty_read(rt: HostRuntime) {
    for stop in 1..44u32 {
        let mut reader = Reader::new(TEXT, 1);
        reader.fails_at = stop;
        expect_stop(&rt, rt.alloc(), reader, stop, RunFault::Read);
    }
    for stop in 1..26u32 {
        let mut reader = Reader::new(TEXT, 1);
        reader.empty_at = stop;
        let wanted = RunFault::Script(ScriptFault::BadHeader(1));
        expect_stop(&rt, rt.alloc(), reader, stop, wanted);
    }
}

// A run to this writer fails, at the write of this number, after those that took this many bytes.
fn expect_failed_write(rt: &impl Abort, alloc: Global, writer: Writer, stop: u32, before: usize) {
    let fails = writer.fails_at > 0;
    let (result, _reader, writer) = run_over(alloc, Reader::new(TEXT, 4096), writer);
    let (start, _rest) = ANSWERS.split_at_checked(before).expect(rt, "a beginning");
    assert_same_at(rt, &(fails, stop), &result, &Err(RunFault::Write));
    assert_same_at(rt, &(fails, stop), &writer.taken.as_slice(), &start);
    assert_same_at(rt, &(fails, stop), &writer.writes, &stop);
    assert_same_at(rt, &(fails, stop), &writer.flushes, &0);
}

// Each write takes one byte, and one of them fails once, or takes 0 bytes, which is a failure, even where
// more would be taken. Nothing is written after it, and it is not flushed.
#[test]
fn stops_at_a_failed_or_empty_write(rt: HostRuntime) {
    for stop in 1..20u32 {
        let mut failing = Writer::new(rt.alloc(), 1);
        failing.fails_at = stop;
        expect_failed_write(&rt, rt.alloc(), failing, stop, stop as usize - 1);
        let mut empty = Writer::new(rt.alloc(), 1);
        empty.empty_at = stop;
        expect_failed_write(&rt, rt.alloc(), empty, stop, stop as usize - 1);
    }
}

// A run over this reader ends so, and leaves this many bytes.
fn expect_read<'a>(
    rt: &impl Abort,
    alloc: Global,
    reader: Reader<'a>,
    wanted: Result<(), RunFault>,
    left: usize,
) -> Reader<'a> {
    let piece = reader.piece;
    let (result, reader, _writer) = run_over(alloc, reader, Writer::new(alloc, 1));
    assert_same_at(rt, &piece, &result, &wanted);
    assert_same_at(rt, &piece, &reader.text.len(), &left);
    reader
}

// The last read is the one that finds the end. Reading stops one byte after the largest length, in pieces of
// any length.
#[test]
fn reads_in_pieces(rt: HostRuntime) {
    for (piece, reads) in [(1usize, 26u32), (2, 14), (4096, 2)] {
        let reader = expect_read(&rt, rt.alloc(), Reader::new(HEADER, piece), Ok(()), 0);
        assert_same_at(&rt, &piece, &reader.reads, &reads);
    }
    let long = vec![in rt.alloc(); b'#'; 1_048_577 + 5].expect(&rt, "memory");
    let too_long = Err(RunFault::Script(ScriptFault::TooLong));
    for piece in [1000usize, 1 << 20, 1 << 30] {
        let reader = Reader::new(&long, piece);
        let _reader = expect_read(&rt, rt.alloc(), reader, too_long, 5);
    }
}

// A run of a text, with its answers, whose output takes this many bytes in one write.
struct Flush {
    text: &'static [u8],
    answers: &'static [u8],
    piece: usize,
    fails_flush: bool,
    writes: u32,
}

const FLUSHES: [Flush; 6] = [
    Flush {
        text: HEADER,
        answers: b"",
        piece: 1,
        fails_flush: false,
        writes: 0,
    },
    Flush {
        text: HEADER,
        answers: b"",
        piece: 1,
        fails_flush: true,
        writes: 0,
    },
    Flush {
        text: TEXT,
        answers: ANSWERS,
        piece: 1,
        fails_flush: false,
        writes: 19,
    },
    Flush {
        text: TEXT,
        answers: ANSWERS,
        piece: 2,
        fails_flush: false,
        writes: 10,
    },
    Flush {
        text: TEXT,
        answers: ANSWERS,
        piece: 4096,
        fails_flush: false,
        writes: 1,
    },
    Flush {
        text: TEXT,
        answers: ANSWERS,
        piece: 1,
        fails_flush: true,
        writes: 19,
    },
];

fn expect_flush(rt: &impl Abort, alloc: Global, row: &Flush) {
    let mut writer = Writer::new(alloc, row.piece);
    writer.fails_flush = row.fails_flush;
    let (result, _reader, writer) = run_over(alloc, Reader::new(row.text, 4096), writer);
    let wanted = if row.fails_flush {
        Err(RunFault::Write)
    } else {
        Ok(())
    };
    let at = (row.text, row.piece);
    assert_same_at(rt, &at, &result, &wanted);
    assert_same_at(rt, &at, &writer.taken.as_slice(), &row.answers);
    assert_same_at(rt, &at, &writer.writes, &row.writes);
    assert_same_at(rt, &at, &writer.flushes, &1);
    assert_same_at(rt, &at, &writer.flushed, &Some(row.answers.len()));
}

// There is one flush, after all bytes, and none of these is written again where it fails.
#[test]
fn flushes_once_and_last(rt: HostRuntime) {
    for row in &FLUSHES {
        expect_flush(&rt, rt.alloc(), row);
    }
}
