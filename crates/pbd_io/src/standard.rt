//! Readers and writers of std as source and sink. What a file or a pipe gave or took is not told.
ghost use Rattle.std.specs.Prelude.{◌≡◌, None, OnOk};
ghost use Rattle.std.specs.Io.{ReadsAtMost};
ghost use Rattle.std.specs.Io.KnownBytes.{Appends, ReadConsumes};
ghost use Rattle.pbd_io.specs.Causes.{CountsFaults, HasCause};
ghost use Rattle.pbd_io.specs.Pieces.{WritesPiece};

use crate::{Failed, Sink, Source};
use std::io::{Read, Write};
use std::marker::Model;

/// A reader or a writer of std as a source or a sink. It tells no content.
/// Clauses see what it was made of, and how often that failed, a count that stays at 2^64 - 1.
#[derive(Drop)]
pub struct StdStream<T> {
    inner: T,
    faults: u64,
}

/// A reader of std.
pub type StdSource<R> = StdStream<R>;

/// A writer of std.
pub type StdSink<W> = StdStream<W>;

impl<T> Model for StdStream<T> {
    ghost use Rattle.pbd_io.specs.Standard.{Adapted};

    ghost Value = { Adapted T };

    ghost view = { λ s. record { inner = s.inner; faults = s.faults } };
}

impl<T> StdStream<T> {
    pub fn new(inner: T) -> StdStream<T>
        ensures { result ≡ record { inner = inner; faults = 0 } }
    {
        StdStream { inner, faults: 0 }
    }
}

impl<R: Read> Source for StdStream<R> {
    ghost left = { λ s. None };

    ghost faults = { λ s. s.faults };

    /// One read of the reader. An error of it is a failure.
    fn read(&mut self, into: &mut [u8]) -> Result<usize, Failed>
        ensures bound { ReadsAtMost result into.new }
        ensures bytes { ReadConsumes None None result into.new }
        ensures inner { ReadConsumes (R.remaining self.old.inner) (R.remaining self.new.inner) result into.new }
        ensures cause { HasCause self.old.faults self.new.faults result }
        ensures faults { CountsFaults self.old.faults self.new.faults result }
    {
        match self.inner.read(into) {
            Ok(count) => Ok(count),
            Err(_) => {
                self.faults = self.faults.saturating_add(1);
                Err(Failed)
            }
        }
    }
}

impl<W: Write> Sink for StdStream<W> {
    ghost written = { λ s. None };

    ghost faults = { λ s. s.faults };

    /// Writes until the piece is gone, again after a write that was interrupted, and flushes. Any
    /// other error of a write is a failure, and so are an error of the flush and a write that takes
    /// nothing of a piece that isn't gone.
    fn write(&mut self, piece: &[u8]) -> Result<(), Failed>
        ensures bytes { WritesPiece None None result piece.now }
        ensures inner { OnOk result (Appends (W.contents self.old.inner) (W.contents self.new.inner) piece.now) }
        ensures cause { HasCause self.old.faults self.new.faults result }
        ensures faults { CountsFaults self.old.faults self.new.faults result }
    {
        let done = match self.inner.write_all(piece) {
            Ok(()) => self.inner.flush().is_ok(),
            Err(_) => false,
        };
        if done {
            return Ok(());
        }
        self.faults = self.faults.saturating_add(1);
        Err(Failed)
    }
}
