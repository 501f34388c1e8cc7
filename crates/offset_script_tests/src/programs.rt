//! Whole programs, with the line and the status of each fault: `run_program`, and `draw_program`, which draws
//! nothing after a fault.

use crate::asserts::{assert_same, assert_same_at, assert_that};
use offset_pictures::draw_program;
use offset_script::{FromRead, IntoWrite, Sink, Source, run_program};
use offset_test_base::devices::{Reader, Writer};
use std::alloc::Global;
use std::process::Abort;

const TEXT: &[u8] = b"space 10 nodes 4 index 32\nalloc 10\nfree 1\n";

#[derive(Clone, Copy)]
enum Program {
    Run,
    Draw,
}

// The status of a program. It promises no more, which keeps the proof of its caller short.
fn status_of<S: Source, K: Sink, E: Sink>(
    program: Program,
    alloc: Global,
    input: &mut S,
    output: &mut K,
    errors: &mut E,
) -> u8 {
    match program {
        Program::Run => run_program(alloc, input, output, errors),
        Program::Draw => draw_program(alloc, "A script", input, output, errors),
    }
}

// The status of a program over these devices, and the output and the errors that it leaves.
fn run_over(
    program: Program,
    alloc: Global,
    input: Reader<'_>,
    output: Writer,
    errors: Writer,
) -> (u8, Writer, Writer) {
    let mut input = FromRead::new(input);
    let mut output = IntoWrite::new(output);
    let mut errors = IntoWrite::new(errors);
    let status = status_of(program, alloc, &mut input, &mut output, &mut errors);
    (status, output.into_inner(), errors.into_inner())
}

// Faulty texts, each with its status and the line that names the fault.
const FAULTS: [(&[u8], u8, &[u8]); 9] = [
    (b"", 2, b"line 1: bad header\n"),
    (b"\n\n", 2, b"line 3: bad header\n"),
    (b"\n\nspace 10 nodes 4\n", 2, b"line 3: bad header\n"),
    (
        b"# An index of 8 bits.\n\nspace 100 nodes 16 index 8\nalloc 10\n",
        2,
        b"line 3: bad header\n",
    ),
    (b"space 10 nodes 1 index 32\n", 2, b"line 1: bad limit\n"),
    (
        b"space 10 nodes 4 index 32\nalloc 10\n#\n\nfree one\n",
        2,
        b"line 5: bad command\n",
    ),
    (
        b"space 10 nodes 4 index 32\nalloc 10\n#\n\n\n\n\n\n\nfree one\n",
        2,
        b"line 10: bad command\n",
    ),
    (
        b"space 100 nodes 16 index 32\nalloc 10\nfree 1\nalloc -1\n",
        2,
        b"line 4: bad command\n",
    ),
    // The tables for this number of nodes do not fit in memory.
    (
        b"space 10 nodes 4294967293 index 32\n",
        3,
        b"out of memory\n",
    ),
];

// A program ends so on a text, and writes the line in pieces of this length.
fn expect_line(
    rt: &impl Abort,
    alloc: Global,
    program: Program,
    piece: usize,
    (text, status, line): (&[u8], u8, &[u8]),
) {
    let (found, output, errors) = run_over(
        program,
        alloc,
        Reader::new(text, 4096),
        Writer::new(alloc, 4096),
        Writer::new(alloc, piece),
    );
    assert_same_at(rt, &line, &found, &status);
    assert_same_at(rt, &line, &output.writes, &0);
    assert_same_at(rt, &line, &output.flushes, &0);
    assert_same_at(rt, &piece, &errors.taken.as_slice(), &line);
    assert_same_at(rt, &line, &errors.flushes, &1);
    assert_same_at(rt, &line, &errors.flushed, &Some(line.len()));
}

// Either program ends so on a text, and writes the line in pieces of any length.
fn expect_fault(rt: &impl Abort, alloc: Global, fault: (&[u8], u8, &[u8])) {
    for program in [Program::Run, Program::Draw] {
        expect_line(rt, alloc, program, 1, fault);
        expect_line(rt, alloc, program, 4096, fault);
    }
}

#[test]
fn a_fault_ends_with_its_status_and_its_line(rt: HostRuntime) {
    for fault in &FAULTS {
        expect_fault(&rt, rt.alloc(), *fault);
    }
    let long = vec![in rt.alloc(); b'#'; 1_048_577].expect(&rt, "memory");
    expect_fault(&rt, rt.alloc(), (&long, 2, b"too long\n"));
}

// What a program writes on a good text. It flushes once, after all of it.
fn output_of(
    rt: &impl Abort,
    alloc: Global,
    program: Program,
    read: usize,
    written: usize,
) -> Vec<u8> {
    let (status, output, errors) = run_over(
        program,
        alloc,
        Reader::new(TEXT, read),
        Writer::new(alloc, written),
        Writer::new(alloc, written),
    );
    assert_same_at(rt, &read, &status, &0);
    assert_same_at(rt, &read, &output.flushes, &1);
    assert_same_at(rt, &read, &output.flushed, &Some(output.taken.len()));
    assert_same_at(rt, &read, &errors.writes, &0);
    assert_same_at(rt, &read, &errors.flushes, &0);
    output.taken
}

#[test]
fn a_good_program_ends_with_0_and_no_line(rt: HostRuntime) {
    let answers = output_of(&rt, rt.alloc(), Program::Run, 4096, 4096);
    assert_same(
        &rt,
        &answers.as_slice(),
        &b"grant 1 at 0\nfreed\n".as_slice(),
    );
    let picture = output_of(&rt, rt.alloc(), Program::Draw, 7, 1000);
    assert_that(&rt, picture.starts_with(b"<svg "));
    assert_that(&rt, picture.ends_with(b"</svg>\n"));
}

// A read, a write or a flush that fails, how the output begins, and the line that names the fault.
struct Failure {
    program: Program,
    // The number of the read and of the write that fails, or 0.
    read: u32,
    write: u32,
    fails_flush: bool,
    // The largest number of bytes that one write takes.
    piece: usize,
    start: &'static [u8],
    line: &'static [u8],
}

const FAILURES: [Failure; 5] = [
    Failure {
        program: Program::Run,
        read: 2,
        write: 0,
        fails_flush: false,
        piece: 4096,
        start: b"",
        line: b"read failed\n",
    },
    Failure {
        program: Program::Run,
        read: 0,
        write: 2,
        fails_flush: false,
        piece: 8,
        start: b"grant 1 ",
        line: b"write failed\n",
    },
    Failure {
        program: Program::Draw,
        read: 2,
        write: 0,
        fails_flush: false,
        piece: 4096,
        start: b"",
        line: b"read failed\n",
    },
    Failure {
        program: Program::Draw,
        read: 0,
        write: 2,
        fails_flush: false,
        piece: 5,
        start: b"<svg ",
        line: b"write failed\n",
    },
    Failure {
        program: Program::Draw,
        read: 0,
        write: 0,
        fails_flush: true,
        piece: 4096,
        start: b"<svg ",
        line: b"write failed\n",
    },
];

fn expect_failure(rt: &impl Abort, alloc: Global, row: &Failure) {
    let mut input = Reader::new(TEXT, 4096);
    input.fails_at = row.read;
    let mut output = Writer::new(alloc, row.piece);
    output.fails_at = row.write;
    output.fails_flush = row.fails_flush;
    let errors = Writer::new(alloc, 4096);
    let (status, output, errors) = run_over(row.program, alloc, input, output, errors);
    assert_same_at(rt, &row.start, &status, &4);
    assert_same_at(rt, &row.start, &output.flushes, &u32::from(row.fails_flush));
    assert_same_at(rt, &row.start, &errors.taken.as_slice(), &row.line);
    assert_that(rt, output.taken.starts_with(row.start));
    if !row.fails_flush {
        assert_same_at(rt, &row.start, &output.taken.len(), &row.start.len());
        assert_same_at(rt, &row.start, &output.writes, &row.write);
    }
}

// Nothing follows a failed read or write, and all of the picture comes before the flush.
#[test]
fn a_device_that_fails_ends_with_4_and_its_line(rt: HostRuntime) {
    for row in &FAILURES {
        expect_failure(&rt, rt.alloc(), row);
    }
}

// A text whose fault this line names.
const FAULTY: &[u8] = b"\n\n\n\n\n\n\n\n\n\n\nalloc 1";

const LINE: &[u8] = b"line 12: bad header\n";

// The status stays, where the write of this number fails, and this many bytes are written before.
fn expect_status(rt: &impl Abort, alloc: Global, program: Program, fails_at: u32, before: usize) {
    let mut errors = Writer::new(alloc, 1);
    errors.fails_at = fails_at;
    errors.fails_flush = true;
    let (status, output, errors) = run_over(
        program,
        alloc,
        Reader::new(FAULTY, 4096),
        Writer::new(alloc, 4096),
        errors,
    );
    assert_same_at(rt, &fails_at, &status, &2);
    assert_same_at(rt, &fails_at, &output.writes, &0);
    assert_same_at(rt, &fails_at, &errors.flushes, &u32::from(fails_at == 21));
    let (start, _rest) = LINE.split_at_checked(before).expect(rt, "a beginning");
    assert_same_at(rt, &fails_at, &errors.taken.as_slice(), &start);
}

// Each write of the line takes one byte, and one of the writes fails, or the flush does.
#[test]
fn errors_that_fail_change_no_status(rt: HostRuntime) {
    for program in [Program::Run, Program::Draw] {
        for fails_at in 1..22u32 {
            expect_status(&rt, rt.alloc(), program, fails_at, fails_at as usize - 1);
        }
    }
}
