//! What a run of a text writes, with the line and the status of its fault.

use crate::asserts::assert_same_at;
use crate::playing::outcome;
use std::alloc::Global;
use std::process::Abort;

// Texts that have this outcome.
const OUTCOMES: [(&str, &[&[u8]]); 6] = [
    (
        "line 1: bad header, status 2",
        &[
            b"",
            b"# c",
            b"space 4294967296 nodes 4 index 32\n",
            b"space 10 nodes 4294967296 index 32\n",
            b"space 10 nodes 4 index 8\n",
            b"space 10 nodes 4 index 32\r\n",
        ],
    ),
    ("line 3: bad header, status 2", &[b"# c\n\n"]),
    (
        "line 1: bad limit, status 2",
        &[
            b"space 10 nodes 1 index 32\n",
            b"space 10 nodes 4294967294 index 32\n",
            b"space 10 nodes 65534 index 16\n",
        ],
    ),
    ("", &[b"space 10 nodes 65533 index 16"]),
    (
        "line 2: bad command, status 2",
        &[
            b"space 10 nodes 4 index 32\nalloc  1\n",
            b"space 10 nodes 4 index 32\n alloc 1\n",
            b"space 10 nodes 4 index 32\nalloc 1 \n",
            b"space 10 nodes 4 index 32\nalloc -1\n",
            b"space 10 nodes 4 index 32\nalloc +1\n",
            b"space 10 nodes 4 index 32\nAlloc 1\n",
            b"space 10 nodes 4 index 32\nalloc\n",
            b"space 10 nodes 4 index 32\nreport 1\n",
            b"space 10 nodes 4 index 32\nalloc 1\r\n",
            b"space 10 nodes 4 index 32\n\xff\n",
            b"space 10 nodes 4 index 32\n\x00\n",
            b"space 10 nodes 4 index 32\nspace 10 nodes 4 index 32\n",
            b"space 10 nodes 4 index 32\nalloc 4294967296\n",
            b"space 10 nodes 4 index 32\nalign 1 3\n",
            b"space 10 nodes 4 index 32\nalign 1 0\n",
            b"space 10 nodes 4 index 32\nalign 1\n",
        ],
    ),
    // Skipped lines are counted, the size has leading zeros, and the last number has eleven digits.
    (
        "line 5: bad command, status 2",
        &[b"# c\n\nspace 010 nodes 4 index 32\nalloc 0000000001\nalloc 00000000001\n"],
    ),
];

const SCRIPT: &[u8] = b"space 10 nodes 4 index 32\nalloc 10\nfree 1\n";

// The outcome of the beginnings of that script, from one length on and below another.
const BEGINNINGS: [(usize, usize, &str); 6] = [
    (0, 25, "line 1: bad header, status 2"),
    (25, 27, ""),
    (27, 33, "line 2: bad command, status 2"),
    (33, 36, "grant 1 at 0\n"),
    (36, 41, "line 3: bad command, status 2"),
    (41, 43, "grant 1 at 0\nfreed\n"),
];

fn expect_outcome(rt: &impl Abort, alloc: Global, text: &[u8], wanted: &str) {
    assert_same_at(rt, &text, &outcome(rt, alloc, text).as_str(), &wanted);
}

#[test]
fn reports_the_first_faulty_line_of_a_text(rt: HostRuntime) {
    for (wanted, texts) in &OUTCOMES {
        for text in *texts {
            expect_outcome(&rt, rt.alloc(), text, wanted);
        }
    }
}

#[test]
fn plays_each_beginning_of_a_script(rt: HostRuntime) {
    for (from, below, wanted) in BEGINNINGS {
        for length in from..below {
            let (text, _) = SCRIPT.split_at_checked(length).expect(&rt, "a beginning");
            expect_outcome(&rt, rt.alloc(), text, wanted);
        }
    }
}

#[test]
fn reads_texts_up_to_the_largest_length(rt: HostRuntime) {
    for (length, wanted) in [
        (1_048_576usize, "line 1: bad header, status 2"),
        (1_048_577, "too long, status 2"),
    ] {
        let text = vec![in rt.alloc(); b'#'; length].expect(&rt, "memory");
        expect_outcome(&rt, rt.alloc(), &text, wanted);
    }
}
