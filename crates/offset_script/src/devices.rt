//! Where a script comes from, and where its answers go: these alone touch readers and writers. No call that
//! failed is tried again.

ghost use Rattle.std.specs.Prelude.{◌≡◌, ℕ, ◌<◌, ◌≤◌, Bool, true, false, not, ◌||◌, IsTrue, List, Option};
ghost use Rattle.std.specs.Prelude.{length, take, IfSome, MatchOption, is_none};
ghost use Rattle.offset_script.specs.Devices.{Reading, Writing};
ghost use Rattle.std.specs.Io.KnownBytes.{Consumes, Appends, Keeps, IsAtEnd};

use std::io::{Read, Write};
use std::marker::Model;

/// Bytes that come in pieces.
pub trait Source {
    // The bytes left, where they are known.
    ghost left: { Self → Option (List ℕ) };

    // Whether a pull has failed.
    ghost has_failed: { Self → Bool };

    /// Moves the first bytes of what is left to the beginning of `buf`, and returns their number. It is 0
    /// only at the end of the bytes, or for an empty `buf`. `None` is a failure, which takes nothing.
    fn pull(&mut self, buf: &mut [u8]) -> Option<usize>
        ensures count { IfSome result (λ n. n ≤ length buf.new) }
        ensures bytes { MatchOption result (Keeps (left self.old) (left self.new))
            (λ n. Consumes (left self.old) (left self.new) (take n buf.new)
            × (n ≡ 0 → 0 < length buf.new → IsAtEnd (left self.new))) }
        ensures failed { has_failed self.new ≡ (is_none result || has_failed self.old) };
}

/// A receiver of bytes that come in pieces.
pub trait Sink {
    // The bytes held, where they are known.
    ghost held: { Self → Option (List ℕ) };

    // Whether a push or a flush has failed.
    ghost has_failed: { Self → Bool };

    // Whether a push has failed. A sink need not know: then this is always true, and the clauses on it say
    // nothing.
    ghost push_has_failed: { Self → Bool } = { λ _. true };

    // Whether all bytes held are flushed. A sink need not know: then this is always true, and says nothing.
    ghost is_flushed: { Self → Bool } = { λ _. true };

    /// Appends the first bytes of `bytes`, at least one, and returns their number. `None` is a failure, which
    /// appends nothing.
    fn push(&mut self, bytes: &[u8]) -> Option<usize>
        requires { 0 < length bytes.now }
        ensures least { IfSome result (λ n. 0 < n) }
        ensures count { IfSome result (λ n. n ≤ length bytes.now) }
        ensures bytes { MatchOption result (Keeps (held self.old) (held self.new))
            (λ n. Appends (held self.old) (held self.new) (take n bytes.now)) }
        ensures failed { has_failed self.new ≡ (is_none result || has_failed self.old) }
        ensures failed_push { push_has_failed self.new ≡ (is_none result || push_has_failed self.old) };

    /// Passes on what was appended, and appends nothing itself. `false` is a failure.
    fn flush(&mut self) -> bool
        ensures bytes { Keeps (held self.old) (held self.new) }
        ensures failed { has_failed self.new ≡ (not result || has_failed self.old) }
        ensures failed_push { push_has_failed self.new ≡ push_has_failed self.old }
        ensures flushed { IsTrue result → is_flushed self.new ≡ true };
}

/// A reader as a source. Each call makes one read, and fails exactly where that read does.
#[derive(Drop)]
pub struct FromRead<R: Read> {
    inner: R,
    failed: bool,
}

impl<R: Read> Model for FromRead<R> {
    ghost Value = { Reading R };

    ghost view = { λ s. record { inner = s.inner; has_failed = s.failed } };
}

impl<R: Read> FromRead<R> {
    /// A source over a reader. It has not failed.
    ///
    /// ```
    /// let mut input = FromRead::new(&b"space 1000 nodes 16 index 32\n"[..]);
    /// assert!(read_script(alloc, &mut input)?.commands.is_empty());
    /// ```
    pub fn new(inner: R) -> Self
        ensures { result ≡ record { inner = inner; has_failed = false } }
    {
        FromRead {
            inner,
            failed: false,
        }
    }

    /// Returns the reader, as the reads have left it.
    ///
    /// ```
    /// let mut input = FromRead::new(&b"ab"[..]);
    /// assert_eq!(input.pull(&mut [0]), Some(1));
    /// assert_eq!(input.into_inner(), b"b");
    /// ```
    pub fn into_inner(self) -> R
        ensures { result ≡ self.inner }
    {
        let FromRead { inner, failed: _ } = self;
        inner
    }
}

impl<R: Read> Source for FromRead<R> {
    ghost left = { λ s. R.remaining s.inner };

    ghost has_failed = { λ s. s.has_failed };

    fn pull(&mut self, buf: &mut [u8]) -> Option<usize> {
        match self.inner.read(buf) {
            Ok(n) => Some(n),
            Err(_) => {
                self.failed = true;
                None
            }
        }
    }
}

/// A writer as a sink. Each call makes one write or one flush, and fails exactly where that does. A write
/// that takes 0 bytes is a failure too. It is flushed from a flush that succeeds to the next call.
#[derive(Drop)]
pub struct IntoWrite<W: Write> {
    inner: W,
    failed_push: bool,
    failed_flush: bool,
    flushed: bool,
}

impl<W: Write> Model for IntoWrite<W> {
    ghost Value = { Writing W };

    ghost view = { λ s. record {
      inner = s.inner;
      push_has_failed = s.failed_push;
      flush_has_failed = s.failed_flush;
      is_flushed = s.flushed;
    } };
}

impl<W: Write> IntoWrite<W> {
    /// A sink over a writer. It has not failed, and is not flushed.
    ///
    /// ```
    /// let mut output = IntoWrite::new(std::vec::Vec::new());
    /// assert!(send(&mut output, b"text"));
    /// ```
    pub fn new(inner: W) -> Self
        ensures { result ≡ record {
          inner = inner;
          push_has_failed = false;
          flush_has_failed = false;
          is_flushed = false;
        } }
    {
        IntoWrite {
            inner,
            failed_push: false,
            failed_flush: false,
            flushed: false,
        }
    }

    /// Returns the writer, as the writes have left it.
    ///
    /// ```
    /// let mut output = IntoWrite::new(std::vec::Vec::new());
    /// assert!(send(&mut output, b"text"));
    /// assert_eq!(output.into_inner(), b"text");
    /// ```
    pub fn into_inner(self) -> W
        ensures { result ≡ self.inner }
    {
        let IntoWrite {
            inner,
            failed_push: _,
            failed_flush: _,
            flushed: _,
        } = self;
        inner
    }
}

impl<W: Write> Sink for IntoWrite<W> {
    ghost held = { λ s. W.contents s.inner };

    ghost has_failed = { λ s. s.push_has_failed || s.flush_has_failed };

    ghost push_has_failed = { λ s. s.push_has_failed };

    ghost is_flushed = { λ s. s.is_flushed };

    fn push(&mut self, bytes: &[u8]) -> Option<usize>
        ensures least { IfSome result (λ n. 0 < n) }
        ensures count { IfSome result (λ n. n ≤ length bytes.now) }
        ensures bytes { MatchOption result (Keeps (W.contents self.old.inner) (W.contents self.new.inner))
            (λ n. Appends (W.contents self.old.inner) (W.contents self.new.inner) (take n bytes.now)) }
        ensures failed { self.new.flush_has_failed ≡ self.old.flush_has_failed }
        ensures failed_push { self.new.push_has_failed ≡ (is_none result || self.old.push_has_failed) }
        // What comes after a flush is not flushed, nor is what a write that failed may have left.
        ensures flushed { self.new.is_flushed ≡ false }
    {
        self.flushed = false;
        match self.inner.write(bytes) {
            Ok(0) | Err(_) => {
                self.failed_push = true;
                None
            }
            Ok(n) => Some(n),
        }
    }

    fn flush(&mut self) -> bool
        ensures bytes { Keeps (W.contents self.old.inner) (W.contents self.new.inner) }
        ensures failed { self.new.flush_has_failed ≡ (not result || self.old.flush_has_failed) }
        ensures failed_push { self.new.push_has_failed ≡ self.old.push_has_failed }
        ensures flushed { self.new.is_flushed ≡ result }
    {
        self.flushed = self.inner.flush().is_ok();
        self.failed_flush = self.failed_flush || !self.flushed;
        self.flushed
    }
}
