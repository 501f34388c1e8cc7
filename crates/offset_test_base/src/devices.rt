//! Readers and writers that count their calls, and fail at a chosen call.

use std::alloc::Global;
use std::io;
use std::io::{Error, ErrorKind, Read, Write};

/// A reader that gives a text in pieces, and counts the reads.
#[derive(Drop)]
pub struct Reader<'a> {
    pub text: &'a [u8],
    /// The largest number of bytes that one read gives.
    pub piece: usize,
    pub reads: u32,
    /// The read of this number, from 1, fails.
    pub fails_at: u32,
    /// The read of this number, from 1, gives no bytes.
    pub empty_at: u32,
}

impl<'a> Reader<'a> {
    /// A reader that gives all of the text and never fails.
    pub fn new(text: &'a [u8], piece: usize) -> Self {
        Reader {
            text,
            piece,
            reads: 0,
            fails_at: 0,
            empty_at: 0,
        }
    }
}

impl<'a> Read for Reader<'a> {
    fn read(&mut self, buf: &mut [u8]) -> io::Result<usize> {
        self.reads = self.reads.saturating_add(1);
        if self.reads == self.fails_at {
            return Err(Error::from(ErrorKind::Interrupted));
        }
        if self.reads == self.empty_at {
            return Ok(0);
        }
        let n = self.piece.min(buf.len()).min(self.text.len());
        let (taken, left) = self.text.split_at(n);
        buf[..n].copy_from_slice(taken);
        self.text = left;
        Ok(n)
    }
}

/// A writer that takes bytes in pieces, and counts the writes and flushes.
#[derive(Drop)]
pub struct Writer {
    pub taken: Vec<u8>,
    /// The largest number of bytes that one write takes.
    pub piece: usize,
    pub writes: u32,
    pub flushes: u32,
    /// The number of bytes that were taken at the last flush.
    pub flushed: Option<usize>,
    /// The write of this number, from 1, fails.
    pub fails_at: u32,
    /// The write of this number, from 1, takes no bytes.
    pub empty_at: u32,
    pub fails_flush: bool,
}

impl Writer {
    /// A writer that takes all and never fails.
    pub fn new(alloc: Global, piece: usize) -> Self {
        Writer {
            taken: Vec::new(alloc),
            piece,
            writes: 0,
            flushes: 0,
            flushed: None,
            fails_at: 0,
            empty_at: 0,
            fails_flush: false,
        }
    }
}

impl Write for Writer {
    fn write(&mut self, buf: &[u8]) -> io::Result<usize> {
        self.writes = self.writes.saturating_add(1);
        if self.writes == self.fails_at {
            return Err(Error::from(ErrorKind::Interrupted));
        }
        if self.writes == self.empty_at {
            return Ok(0);
        }
        let n = self.piece.min(buf.len());
        self.taken.extend_from_slice(&buf[..n])?;
        Ok(n)
    }

    fn flush(&mut self) -> io::Result<()> {
        self.flushes = self.flushes.saturating_add(1);
        self.flushed = Some(self.taken.len());
        if self.fails_flush {
            return Err(Error::from(ErrorKind::Interrupted));
        }
        Ok(())
    }
}
