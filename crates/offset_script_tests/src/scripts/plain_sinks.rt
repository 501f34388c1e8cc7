//! A sink that says what it holds and whether it has failed, and nothing else.
ghost use Rattle.std.specs.Prelude.{Some};

use crate::asserts::assert_same_at;
use crate::playing::run_result;
use offset_script::{FromRead, RunFault, Sink};

// Holds the bytes that it took, at most two of each push. It takes none where it has `room` for none.
#[derive(Drop)]
struct Plain {
    taken: Vec<u8>,
    room: usize,
    flushes: u32,
    fails_flush: bool,
    failed: bool,
}

impl Sink for Plain {
    ghost held = { λ s. Some s.taken.items };

    ghost has_failed = { λ s. s.failed };

    fn push(&mut self, bytes: &[u8]) -> Option<usize> {
        let n = bytes.len().min(self.room).min(2);
        if n == 0 || self.taken.extend_from_slice(&bytes[..n]).is_err() {
            self.failed = true;
            return None;
        }
        self.room -= n;
        Some(n)
    }

    fn flush(&mut self) -> bool {
        self.flushes = self.flushes.saturating_add(1);
        if self.fails_flush {
            self.failed = true;
            return false;
        }
        true
    }
}

const SCRIPT: &[u8] = b"space 10 nodes 4 index 32\nalloc 10\nfree 1\n";

// All of the answers, a beginning of them where there is no more room, and all where only the flush fails.
#[test]
fn runs_to_a_plain_sink(rt: HostRuntime) {
    for (room, fails_flush, wanted, answers, flushes) in [
        (
            100usize,
            false,
            Ok(()),
            b"grant 1 at 0\nfreed\n".as_slice(),
            1u32,
        ),
        (7, false, Err(RunFault::Write), b"grant 1", 0),
        (100, true, Err(RunFault::Write), b"grant 1 at 0\nfreed\n", 1),
    ] {
        let mut output = Plain {
            taken: Vec::new(rt.alloc()),
            room,
            flushes: 0,
            fails_flush,
            failed: false,
        };
        let result = run_result(rt.alloc(), &mut FromRead::new(SCRIPT), &mut output);
        assert_same_at(&rt, &room, &result, &wanted);
        assert_same_at(&rt, &room, &output.taken.as_slice(), &answers);
        assert_same_at(&rt, &room, &output.flushes, &flushes);
    }
}
