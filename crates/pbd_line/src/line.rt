//! A line of at most 256 bytes.
ghost use Rattle.std.specs.Prelude.{◌≡◌, ◌+◌, ◌≤◌, ◌++◌, [], length, decimal};
ghost use Rattle.std.specs.Fmt.{signed_decimal};

use arrayvec::ArrayVec;
use itoa::Buffer;
use std::marker::Model;

/// At most 256 bytes, seen as their list. The caller knows that a piece fits, where a number counts as the most bytes that
/// it may have. Nothing here takes memory.
#[derive(Drop)]
pub struct Line {
    bytes: ArrayVec<u8, 256>,
}

impl Model for Line {
    ghost use Rattle.std.specs.Prelude.{ℕ, List};

    ghost Value = { List ℕ };

    ghost view = { λ line. line.bytes.items };
}

impl Line {
    /// An empty line.
    #[inline]
    pub fn new() -> Line
        ensures { result ≡ [] }
    {
        Line {
            bytes: ArrayVec::new(),
        }
    }

    /// Its bytes.
    #[inline]
    pub fn as_slice(&self) -> &[u8]
        ensures { result.now ≡ self.now }
    {
        self.bytes.as_slice()
    }

    /// How many more bytes fit.
    #[inline]
    pub fn room(&self) -> usize
        ensures { result + length self.now ≡ 256 }
    {
        self.bytes.remaining_capacity()
    }

    /// Appends a text.
    #[inline]
    pub fn push(&mut self, text: &str)
        requires { length self.old + length text.now ≤ 256 }
        ensures { self.new ≡ self.old ++ text.now }
    {
        self.push_bytes(text.as_bytes());
    }

    /// Appends bytes.
    #[inline]
    pub fn push_bytes(&mut self, piece: &[u8])
        requires { length self.old + length piece.now ≤ 256 }
        ensures { self.new ≡ self.old ++ piece.now }
    {
        let _ = self.bytes.try_extend_from_slice(piece);
    }

    /// Appends the decimal of a number, at most 20 bytes.
    #[inline]
    pub fn push_number(&mut self, n: u64)
        requires { length self.old + 20 ≤ 256 }
        ensures bytes { self.new ≡ self.old ++ decimal n }
        ensures len { length self.new ≤ length self.old + 20 }
    {
        let mut buffer = Buffer::new();
        self.push(buffer.format(n));
    }

    /// Appends the decimal of a number, with a minus below zero, at most 20 bytes.
    #[inline]
    pub fn push_signed(&mut self, n: i64)
        requires { length self.old + 20 ≤ 256 }
        ensures bytes { self.new ≡ self.old ++ signed_decimal n }
        ensures len { length self.new ≤ length self.old + 20 }
    {
        let mut buffer = Buffer::new();
        self.push(buffer.format(n));
    }

    /// Appends the decimal of a wide number, with a minus below zero, at most 40 bytes.
    #[inline]
    pub fn push_wide(&mut self, n: i128)
        requires { length self.old + 40 ≤ 256 }
        ensures bytes { self.new ≡ self.old ++ signed_decimal n }
        ensures len { length self.new ≤ length self.old + 40 }
    {
        let mut buffer = Buffer::new();
        self.push(buffer.format(n));
    }
}
