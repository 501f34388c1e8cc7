//! Parsing, and a run on bytes in memory.

use crate::asserts::assert_same;
use offset_script::{Command, IndexWidth, RunFault, ScriptFault, parse};
use offset_uses::in_memory::answers_in_memory;

const TEXT: &[u8] =
    b"# c\n\nspace 010 nodes 4 index 16\nalloc 1\nfree 2\nsize 3\nreport\nfull\nreset\nalign 5 16\nextend 4294967295";

#[test]
fn parses_each_command(rt: HostRuntime) {
    let script = parse(rt.alloc(), TEXT).expect(&rt, "a script");
    assert_same(&rt, &(script.size, script.max_allocs), &(10, 4));
    assert_same(&rt, &script.index, &IndexWidth::Bits16);
    let wanted = [
        Command::Alloc(1),
        Command::Free(2),
        Command::Size(3),
        Command::Report,
        Command::Full,
        Command::Reset,
        Command::Align(5, 16),
        Command::Extend(4_294_967_295),
    ];
    assert_same(&rt, &script.commands.as_slice(), &wanted.as_slice());
}

#[test]
fn plays_a_script_in_memory(rt: HostRuntime) {
    let text = b"space 10 nodes 4 index 16\nalloc 3\nalloc 3\n".as_slice();
    assert_same(
        &rt,
        &answers_in_memory(rt.alloc(), text)
            .expect(&rt, "a script")
            .as_slice(),
        &b"grant 1 at 0\ngrant 2 at 3\n".as_slice(),
    );
    let faulty = b"space 10 nodes 4 index 16\nalloc\n".as_slice();
    assert_same(
        &rt,
        &answers_in_memory(rt.alloc(), faulty),
        &Err(RunFault::Script(ScriptFault::BadCommand(2))),
    );
}
