//! A short text, put together from its end, so that its numbers need no room of their own. It touches only
//! itself.

ghost use Rattle.std.specs.Prelude.{◌≡◌, ◌+◌, ◌<◌, ◌≤◌, ◌++◌, [], true, drop, length};
ghost use Rattle.std.specs.Fmt.{decimal};
ghost use Rattle.std.specs.Str.{is_utf8};

use std::marker::Model;
use std::str;

/// The end of a text of at most `ROOM` bytes, seen as its bytes. It takes no memory of the allocator.
#[derive(Drop)]
pub struct TextBuffer<const ROOM: usize> {
    room: [u8; ROOM],
    start: usize,
}

impl<const ROOM: usize> Model for TextBuffer<ROOM> {
    ghost use Rattle.std.specs.Prelude.{ℕ, true, ◌≡◌, ◌≤◌, List, drop, length};
    ghost use Rattle.std.specs.Str.{is_utf8};

    ghost Value = { List ℕ };

    ghost view = { λ l. drop l.start l.room };

    ghost invariant = { λ l. (l.start ≤ ROOM) × (length l.room ≡ ROOM)
        × (is_utf8 (drop l.start l.room) ≡ true) };
}

// Writes the digits of a number before the byte `end`, and returns where they begin.
fn prepend_digits<const ROOM: usize>(room: &mut [u8; ROOM], end: usize, n: u64) -> usize
    requires first { 20 ≤ end }
    requires last { end ≤ ROOM }
    ensures text { drop result room.new ≡ decimal n ++ drop end room.old }
    ensures room { length room.new ≡ ROOM }
    ensures least { end ≤ 20 + result }
    ensures most { result < end }
{
    let mut rest = n;
    let mut at = end - 1;
    while rest >= 10 {
        room[at] = b'0' + (rest % 10) as u8;
        rest /= 10;
        at -= 1;
    }
    room[at] = b'0' + rest as u8;
    at
}

impl<const ROOM: usize> TextBuffer<ROOM> {
    /// An end of no bytes.
    ///
    /// ```
    /// let line = TextBuffer::<80>::new();
    /// assert_eq!(line.text(), "");
    /// ```
    #[inline(always)]
    pub fn new() -> Self
        ensures { result ≡ [] }
    {
        TextBuffer {
            room: [0; ROOM],
            start: ROOM,
        }
    }

    /// Puts a text before it.
    ///
    /// ```
    /// let mut line = TextBuffer::<80>::new();
    /// line.prepend("units");
    /// line.prepend("300 ");
    /// assert_eq!(line.text(), "300 units");
    /// ```
    #[inline(always)]
    pub fn prepend(&mut self, text: &str)
        requires { length text.now + length self.old ≤ ROOM }
        ensures { self.new ≡ text.now ++ self.old }
    {
        let end = self.start;
        let start = end - text.len();
        let room = &mut self.room[..];
        room[start..end].copy_from_slice(text.as_bytes());
        self.start = start;
    }

    /// Puts one digit before it.
    ///
    /// ```
    /// let mut line = TextBuffer::<80>::new();
    /// line.prepend_digit(7);
    /// assert_eq!(line.text(), "7");
    /// ```
    #[inline(always)]
    pub fn prepend_digit(&mut self, n: u32)
        requires digit { n < 10 }
        requires room { 1 + length self.old ≤ ROOM }
        ensures text { self.new ≡ decimal n ++ self.old }
        ensures length { length self.new ≡ 1 + length self.old }
    {
        let start = self.start - 1;
        self.room[start] = b'0' + n as u8;
        self.start = start;
    }

    /// Puts the digits of a number before it, without leading zeros: at most 20.
    ///
    /// ```
    /// let mut line = TextBuffer::<80>::new();
    /// line.prepend_number(300);
    /// assert_eq!(line.text(), "300");
    /// ```
    pub fn prepend_number(&mut self, n: u64)
        requires { 20 + length self.old ≤ ROOM }
        ensures text { self.new ≡ decimal n ++ self.old }
        ensures length { length self.new ≤ 20 + length self.old }
    {
        self.start = prepend_digits(&mut self.room, self.start, n);
    }

    /// Returns its bytes, which are text.
    ///
    /// ```
    /// let mut line = TextBuffer::<80>::new();
    /// line.prepend("none");
    /// assert_eq!(line.bytes(), b"none");
    /// ```
    #[inline(always)]
    pub fn bytes(&self) -> &[u8]
        ensures bytes { result.now ≡ self.now }
        ensures utf8 { is_utf8 result.now ≡ true }
    {
        let room = &self.room[..];
        &room[self.start..]
    }

    /// Returns it as text.
    ///
    /// ```
    /// let mut line = TextBuffer::<80>::new();
    /// line.prepend("none");
    /// assert_eq!(line.text(), "none");
    /// ```
    pub fn text(&self) -> &str
        ensures { result.now ≡ self.now }
    {
        match str::from_utf8(self.bytes()) {
            Ok(text) => text,
            // Its bytes are always text.
            Err(_) => "",
        }
    }
}
