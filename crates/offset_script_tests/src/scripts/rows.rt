//! Scripts with their answers, read and written in pieces of several lengths, and played on each layout.

use crate::asserts::assert_same_at;
use crate::layouts::expect_answers;
use crate::playing::{answers_of, run_result, script_of};
use offset_script::{FromRead, IntoWrite};
use offset_test_base::devices::{Reader, Writer};
use std::alloc::Global;
use std::process::Abort;

// Releases in any order leave the same space.
const RELEASED: &str =
    "grant 1 at 0\ngrant 2 at 10\ngrant 3 at 20\ngrant 4 at 30\nfreed\nfreed\nfreed\nfull 2\nclass 18 size 20 count 1\nclass 23 size 30 count 1\n";

// A header without its index width, the lines after it, and the answers.
type Row = (&'static str, &'static str, &'static str);

const ROWS: [Row; 31] = [
    (
        "space 100 nodes 16 index",
        "\nalloc 10\nalloc 20\n",
        "grant 1 at 0\ngrant 2 at 10\n",
    ),
    (
        "space 17 nodes 4 index",
        "\nalloc 17\nalloc 16\nalloc 1\n",
        "none\ngrant 1 at 0\ngrant 2 at 16\n",
    ),
    // An exact fit is refused where no further block may exist.
    (
        "space 100 nodes 4 index",
        "\nalloc 10\nalloc 10\nfree 1\nalloc 10\nreport\nfull\n",
        "grant 1 at 0\ngrant 2 at 10\nfreed\nnone\nfree 0 largest 0\nfull 2\nclass 10 size 10 count 1\nclass 34 size 80 count 1\n",
    ),
    // The newest block of a class is taken, and not the lowest.
    (
        "space 100 nodes 16 index",
        "\nalloc 10\nalloc 10\nalloc 10\nalloc 10\nfree 1\nfree 3\nalloc 10\nalloc 10\nreport\n",
        "grant 1 at 0\ngrant 2 at 10\ngrant 3 at 20\ngrant 4 at 30\nfreed\nfreed\ngrant 5 at 20\ngrant 6 at 0\nfree 60 largest 60\n",
    ),
    (
        "space 120 nodes 16 index",
        "\nalloc 20\nalloc 4\nfree 1\nalloc 18\nalloc 2\nfree 1\nsize 4\n",
        "grant 1 at 0\ngrant 2 at 20\nfreed\ngrant 3 at 0\ngrant 4 at 18\ngone\nsize 2\n",
    ),
    // Padding of 6 units stays free between two used blocks.
    (
        "space 100 nodes 16 index",
        "\nalloc 10\nalign 8 16\nreport\n",
        "grant 1 at 0\ngrant 2 at 16\nfree 82 largest 72\n",
    ),
    (
        "space 50 nodes 8 index",
        "\nalloc 10\nreset\nfree 1\nalloc 10\nsize 2\nreport\n",
        "grant 1 at 0\nreset\ngone\ngrant 2 at 0\nsize 10\nfree 40 largest 40\n",
    ),
    // A free last block grows also where no further block may exist.
    (
        "space 10 nodes 4 index",
        "\nalloc 8\nextend 20\nalloc 20\nreport\nextend 5\nfull\n",
        "grant 1 at 0\nextended\ngrant 2 at 8\nfree 0 largest 0\nextended\nfull 1\nclass 7 size 7 count 1\n",
    ),
    (
        "space 20 nodes 4 index",
        "\nalloc 12\nalloc 8\nfree 1\nalloc 5\nextend 1\nextend 0\nfree 2\nextend 1\nfull\n",
        "grant 1 at 0\ngrant 2 at 12\nfreed\ngrant 3 at 0\nnone\nextended\nfreed\nextended\nfull 1\nclass 16 size 16 count 1\n",
    ),
    // A block that grows inside its class is the newest.
    (
        "space 66 nodes 8 index",
        "\nalloc 32\nalloc 1\nfree 1\nextend 1\nalloc 32\n",
        "grant 1 at 0\ngrant 2 at 32\nfreed\nextended\ngrant 3 at 33\n",
    ),
    (
        "space 10 nodes 4 index",
        "\nalloc 10\nextend 6\nreset\nreport\n",
        "grant 1 at 0\nextended\nreset\nfree 16 largest 16\n",
    ),
    (
        "space 4294967295 nodes 4 index",
        "\nextend 1\nextend 0\n",
        "none\nextended\n",
    ),
    // Skipped lines and leading zeros.
    (
        "# c\n\nspace 010 nodes 4 index",
        "\nalloc 0000000001\n",
        "grant 1 at 0\n",
    ),
    // The newest block of a class, and not the smallest.
    (
        "space 1000 nodes 16 index",
        "\nalloc 32\nalloc 1\nalloc 35\nalloc 1\nfree 1\nfree 3\nalloc 28\n",
        "grant 1 at 0\ngrant 2 at 32\ngrant 3 at 33\ngrant 4 at 68\nfreed\nfreed\ngrant 5 at 33\n",
    ),
    // A space without grants continues as a fresh one, except for the numbers.
    (
        "space 48 nodes 8 index",
        "\nalloc 10\nalloc 20\nfree 1\nfree 2\nalloc 48\nsize 3\nfree 1\n",
        "grant 1 at 0\ngrant 2 at 10\nfreed\nfreed\ngrant 3 at 0\nsize 48\ngone\n",
    ),
    (
        "space 48 nodes 8 index",
        "\nalloc 48\nsize 1\nfree 0\n",
        "grant 1 at 0\nsize 48\ngone\n",
    ),
    // Grants and releases that nest leave no trace.
    (
        "space 100 nodes 16 index",
        "\nalloc 10\nalloc 10\nalloc 10\nalloc 10\nfree 1\nfree 3\nalloc 5\nalloc 7\nfree 6\nfree 5\nalloc 10\nalloc 10\nreport\n",
        "grant 1 at 0\ngrant 2 at 10\ngrant 3 at 20\ngrant 4 at 30\nfreed\nfreed\ngrant 5 at 20\ngrant 6 at 0\nfreed\nfreed\ngrant 7 at 20\ngrant 8 at 0\nfree 60 largest 60\n",
    ),
    (
        "space 100 nodes 16 index",
        "\nalloc 10\nalloc 10\nalloc 10\nalloc 10\nfree 1\nfree 3\nalloc 5\nalloc 7\nfree 5\nfree 6\nalloc 10\nalloc 10\nreport\n",
        "grant 1 at 0\ngrant 2 at 10\ngrant 3 at 20\ngrant 4 at 30\nfreed\nfreed\ngrant 5 at 20\ngrant 6 at 0\nfreed\nfreed\ngrant 7 at 0\ngrant 8 at 20\nfree 60 largest 60\n",
    ),
    // Blocks of no units.
    (
        "space 6 nodes 5 index",
        "\nalloc 0\nalloc 0\nalloc 0\nalloc 0\nfree 2\nfull\nalloc 0\nfree 3\nalloc 0\nreport\n",
        "grant 1 at 0\ngrant 2 at 0\ngrant 3 at 0\nnone\nfreed\nfull 2\nclass 0 size 0 count 1\nclass 6 size 6 count 1\nnone\nfreed\ngrant 4 at 0\nfree 6 largest 6\n",
    ),
    // The largest space.
    (
        "space 4294967295 nodes 8 index",
        "\nalloc 4294967295\nalloc 4026531840\nalloc 268435455\nreport\nalloc 251658240\n",
        "none\ngrant 1 at 0\nnone\nfree 268435455 largest 251658240\ngrant 2 at 4026531840\n",
    ),
    (
        "space 64 nodes 8 index",
        "\nalign 16 16\nalign 16 16\nfull\n",
        "grant 1 at 0\ngrant 2 at 16\nfull 1\nclass 24 size 32 count 1\n",
    ),
    // First the sum is too large, then two further blocks are needed and only one may exist.
    (
        "space 100 nodes 4 index",
        "\nalign 4294967295 2\nalloc 10\nalign 1 2\nalign 1 1\n",
        "none\ngrant 1 at 0\nnone\ngrant 2 at 10\n",
    ),
    // Padding and remainder are of one class, and the remainder is newer.
    (
        "space 15 nodes 8 index",
        "\nalloc 2\nalign 1 8\nalloc 6\n",
        "grant 1 at 0\ngrant 2 at 8\ngrant 3 at 9\n",
    ),
    (
        "space 40 nodes 8 index",
        "\nalloc 3\nalign 0 16\nfree 2\nreport\n",
        "grant 1 at 0\ngrant 2 at 16\nfreed\nfree 37 largest 36\n",
    ),
    ("space 10 nodes 65533 index", "", ""),
    (
        "space 60 nodes 8 index",
        "\nalloc 10\nalloc 10\nalloc 10\nalloc 10\nfree 1\nfree 2\nfree 3\nfull\n",
        RELEASED,
    ),
    (
        "space 60 nodes 8 index",
        "\nalloc 10\nalloc 10\nalloc 10\nalloc 10\nfree 1\nfree 3\nfree 2\nfull\n",
        RELEASED,
    ),
    (
        "space 60 nodes 8 index",
        "\nalloc 10\nalloc 10\nalloc 10\nalloc 10\nfree 2\nfree 1\nfree 3\nfull\n",
        RELEASED,
    ),
    (
        "space 60 nodes 8 index",
        "\nalloc 10\nalloc 10\nalloc 10\nalloc 10\nfree 2\nfree 3\nfree 1\nfull\n",
        RELEASED,
    ),
    (
        "space 60 nodes 8 index",
        "\nalloc 10\nalloc 10\nalloc 10\nalloc 10\nfree 3\nfree 1\nfree 2\nfull\n",
        RELEASED,
    ),
    (
        "space 60 nodes 8 index",
        "\nalloc 10\nalloc 10\nalloc 10\nalloc 10\nfree 3\nfree 2\nfree 1\nfull\n",
        RELEASED,
    ),
];

// The whole text of a row, with this index width.
fn text_of(rt: &impl Abort, alloc: Global, header: &str, bits: u32, lines: &str) -> String {
    format!(in alloc; "{header} {bits}{lines}").expect(rt, "memory")
}

// Expects these answers of a script, read and written in pieces of at most this many bytes.
fn expect_written(rt: &impl Abort, alloc: Global, text: &str, piece: usize, wanted: &str) {
    let mut input = FromRead::new(Reader::new(text.as_bytes(), piece));
    let mut output = IntoWrite::new(Writer::new(alloc, piece));
    let result = run_result(alloc, &mut input, &mut output);
    assert_same_at(rt, &(text, piece), &result, &Ok(()));
    let written = String::from_utf8(output.into_inner().taken).expect(rt, "a text");
    assert_same_at(rt, &(text, piece), &written.as_str(), &wanted);
}

// Expects these answers of a script, in pieces of each length.
fn expect_in_pieces(rt: &impl Abort, alloc: Global, text: &str, wanted: &str) {
    for piece in [1usize, 2, 4096] {
        expect_written(rt, alloc, text, piece, wanted);
    }
}

// Expects the answers of a row with this index width.
fn expect_row(rt: &impl Abort, alloc: Global, row: &Row, bits: u32) {
    let (header, lines, wanted) = row;
    let text = text_of(rt, alloc, header, bits, lines);
    expect_in_pieces(rt, alloc, &text, wanted);
}

fn expect_rows(rt: &impl Abort, alloc: Global, rows: &[Row]) {
    for row in rows {
        expect_row(rt, alloc, row, 16);
        expect_row(rt, alloc, row, 32);
    }
}

#[test]
fn plays_scripts(rt: HostRuntime) {
    expect_rows(&rt, rt.alloc(), &ROWS);
}

// Expects the same answers to a script by each layout. `play_script` plays it by node.
fn expect_same_answers(rt: &impl Abort, alloc: Global, text: &str) {
    let script = script_of(rt, alloc, text.as_bytes());
    let wanted = answers_of(rt, alloc, &script);
    expect_answers(rt, alloc, &script, &wanted);
}

// A script whose limit each index type admits.
fn expect_small_answers(rt: &impl Abort, alloc: Global) {
    let text = b"space 40 nodes 5 index 16\nalloc 10\nalloc 10\nalloc 10\nalloc 10\n".as_slice();
    let script = script_of(rt, alloc, text);
    expect_answers(
        rt,
        alloc,
        &script,
        "[Grant { number: 1, offset: 0 }, Grant { number: 2, offset: 10 }, Grant { number: 3, offset: 20 }, Refused]",
    );
}

fn expect_same_answers_of_each(rt: &impl Abort, alloc: Global, rows: &[Row]) {
    for (header, lines, _wanted) in rows {
        let text = text_of(rt, alloc, header, 32, lines);
        expect_same_answers(rt, alloc, &text);
    }
}

#[test]
fn all_layouts_return_the_same_answers(rt: HostRuntime) {
    expect_same_answers_of_each(&rt, rt.alloc(), &ROWS);
    expect_small_answers(&rt, rt.alloc());
}
