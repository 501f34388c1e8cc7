//! The text of each type that has `Debug`, and of faults the line and the status too.

use crate::asserts::{assert_same, assert_text};
use offset_allocator::StorageReport;
use offset_script::{Answer, Command, FullRow, IndexWidth, RunFault, ScriptFault};
use std::alloc::Global;
use std::process::Abort;

const COMMANDS: [(Command, &str); 8] = [
    (Command::Alloc(1), "Alloc(1)"),
    (Command::Free(2), "Free(2)"),
    (Command::Size(3), "Size(3)"),
    (Command::Report, "Report"),
    (Command::Full, "Full"),
    (Command::Reset, "Reset"),
    (Command::Align(5, 16), "Align(5, 16)"),
    (Command::Extend(4_294_967_295), "Extend(4294967295)"),
];

const ROWS: [FullRow; 2] = [
    FullRow {
        class: 35,
        size: 88,
        count: 1,
    },
    FullRow {
        class: 239,
        size: 4_026_531_840,
        count: 2,
    },
];

const ANSWERS: [(Answer, &str); 8] = [
    (
        Answer::Grant {
            number: 4_294_967_296,
            offset: 7,
        },
        "Grant { number: 4294967296, offset: 7 }",
    ),
    (Answer::Refused, "Refused"),
    (Answer::Freed, "Freed"),
    (Answer::Gone, "Gone"),
    (Answer::Size(3), "Size(3)"),
    (
        Answer::Report(StorageReport {
            total_free_space: 90,
            largest_free_region: 88,
        }),
        "Report(StorageReport { total_free_space: 90, largest_free_region: 88 })",
    ),
    (Answer::Reset, "Reset"),
    (Answer::Extended, "Extended"),
];

fn expect_full_texts(rt: &impl Abort, alloc: Global) {
    let none = Answer::Full(Vec::new(alloc));
    assert_text(rt, alloc, &none, "Full([])");
    let full = Answer::Full(ROWS.to_vec(alloc).expect(rt, "memory"));
    assert_text(
        rt,
        alloc,
        &full,
        "Full([FullRow { class: 35, size: 88, count: 1 }, FullRow { class: 239, size: 4026531840, count: 2 }])",
    );
}

#[test]
fn prints_commands_and_answers(rt: HostRuntime) {
    for (command, wanted) in &COMMANDS {
        assert_text(&rt, rt.alloc(), command, wanted);
    }
    assert_text(&rt, rt.alloc(), &IndexWidth::Bits16, "Bits16");
    assert_text(&rt, rt.alloc(), &IndexWidth::Bits32, "Bits32");
    for (answer, wanted) in &ANSWERS {
        assert_text(&rt, rt.alloc(), answer, wanted);
    }
    expect_full_texts(&rt, rt.alloc());
}

// Each fault with its text, its line and its status.
const FAULTS: [(RunFault, &str, &str, u8); 8] = [
    (
        RunFault::Script(ScriptFault::TooLong),
        "Script(TooLong)",
        "too long",
        2,
    ),
    (
        RunFault::Script(ScriptFault::BadHeader(1)),
        "Script(BadHeader(1))",
        "line 1: bad header",
        2,
    ),
    (
        RunFault::Script(ScriptFault::BadLimit(20)),
        "Script(BadLimit(20))",
        "line 20: bad limit",
        2,
    ),
    (
        RunFault::Script(ScriptFault::BadCommand(300)),
        "Script(BadCommand(300))",
        "line 300: bad command",
        2,
    ),
    (
        RunFault::Script(ScriptFault::Memory),
        "Script(Memory)",
        "out of memory",
        3,
    ),
    (RunFault::Memory, "Memory", "out of memory", 3),
    (RunFault::Read, "Read", "read failed", 4),
    (RunFault::Write, "Write", "write failed", 4),
];

fn expect_line(rt: &impl Abort, alloc: Global, fault: &RunFault, line: &str) {
    let found = format!(in alloc; "{fault}").expect(rt, "memory");
    assert_same(rt, &found.as_str(), &line);
}

#[test]
fn prints_faults(rt: HostRuntime) {
    for (fault, text, line, status) in &FAULTS {
        assert_text(&rt, rt.alloc(), fault, text);
        expect_line(&rt, rt.alloc(), fault, line);
        assert_same(&rt, &fault.status(), status);
    }
}
