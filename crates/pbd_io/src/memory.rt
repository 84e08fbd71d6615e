//! Sources and sinks in memory. A test can have them fail at any call.
ghost use Rattle.std.specs.Prelude.{◌≡◌, ◌+◌, ◌≤◌, ◌++◌, Some, IfOk, is_err, is_some, length, vec_len, vec_capacity};
ghost use Rattle.std.specs.Io.{ReadsAtMost};
ghost use Rattle.std.specs.Io.KnownBytes.{ReadConsumes};
ghost use Rattle.pbd_io.specs.Causes.{CountsFaults, HasCause, next_count};
ghost use Rattle.pbd_io.specs.Memory.{cut_at};
ghost use Rattle.pbd_io.specs.Pieces.{WritesPiece};

use crate::{Failed, Sink, Source};
use std::alloc::{AllocError, Global};
use std::marker::Model;

/// Bytes in memory that come in pieces of at most a given length, and the numbers of the calls that fail.
/// Clauses see it as a `SourceState`.
#[derive(Drop)]
pub struct MemSource {
    bytes: Vec<u8>,
    at: usize,
    piece: usize,
    fails: Vec<u64>,
    calls: u64,
    faults: u64,
}

impl Model for MemSource {
    ghost use Rattle.std.specs.Prelude.{◌≤◌, drop, length};
    ghost use Rattle.pbd_io.specs.Memory.{SourceState};

    ghost Value = { SourceState };

    ghost view = { λ s. record {
      left = drop s.at s.bytes.items;
      piece = s.piece;
      fails = s.fails.items;
      calls = s.calls;
      faults = s.faults;
    } };

    ghost invariant = { λ s. (s.at ≤ length s.bytes.items) × (1 ≤ s.piece) };
}

impl MemSource {
    ghost use Rattle.pbd_io.specs.Memory.{new_source};

    /// Gives these bytes, at most `piece` of them a call, and fails the calls whose numbers,
    /// from 1, are listed.
    pub fn new(bytes: Vec<u8>, piece: usize, fails: Vec<u64>) -> MemSource
        requires { 1 ≤ piece }
        ensures { result ≡ new_source bytes.items piece fails.items }
    {
        MemSource {
            bytes,
            at: 0,
            piece,
            fails,
            calls: 0,
            faults: 0,
        }
    }
}

impl Source for MemSource {
    ghost use Rattle.pbd_io.specs.Memory.{is_failing, given};

    ghost left = { λ s. Some s.left };

    ghost faults = { λ s. s.faults };

    /// Fails exactly the listed calls. Both counts stay at 2^64 - 1 once they are there.
    fn read(&mut self, into: &mut [u8]) -> Result<usize, Failed>
        ensures bound { ReadsAtMost result into.new }
        ensures bytes { ReadConsumes (Some self.old.left) (Some self.new.left) result into.new }
        ensures cause { HasCause self.old.faults self.new.faults result }
        ensures fails { is_err result ≡ is_failing self.old }
        ensures count { IfOk result (λ n. n ≡ given self.old (length into.old)) }
        ensures calls { self.new.calls ≡ next_count self.old.calls }
        ensures faults { CountsFaults self.old.faults self.new.faults result }
        ensures same_piece { self.new.piece ≡ self.old.piece }
        ensures same_fails { self.new.fails ≡ self.old.fails }
    {
        self.calls = self.calls.saturating_add(1);
        if self.fails.contains(&self.calls) {
            self.faults = self.faults.saturating_add(1);
            return Err(Failed);
        }
        let rest = &self.bytes[self.at..];
        let count = into.len().min(rest.len()).min(self.piece);
        let (front, _) = rest.split_at(count);
        into[..count].copy_from_slice(front);
        self.at += count;
        Ok(count)
    }
}

/// A sink with a fixed room in memory. It fails a piece longer than the room that is left, and the
/// calls that are listed, each with how many bytes it still takes at most.
/// Clauses see it as a `SinkState`.
#[derive(Drop)]
pub struct MemSink {
    bytes: Vec<u8>,
    room: usize,
    fails: Vec<(u64, usize)>,
    calls: u64,
    faults: u64,
}

impl Model for MemSink {
    ghost use Rattle.std.specs.Prelude.{◌≤◌, vec_len, vec_capacity};
    ghost use Rattle.pbd_io.specs.Memory.{SinkState};

    ghost Value = { SinkState };

    ghost view = { λ s. record {
      bytes = s.bytes.items;
      room = s.room;
      fails = s.fails.items;
      calls = s.calls;
      faults = s.faults;
    } };

    ghost invariant = { λ s. (vec_len s.bytes ≤ s.room) × (s.room ≤ vec_capacity s.bytes) };
}

// Adds a piece, for which there is room.
fn append(bytes: &mut Vec<u8>, piece: &[u8])
    requires { vec_len bytes.old + length piece.now ≤ vec_capacity bytes.old }
    ensures items { bytes.new.items ≡ bytes.old.items ++ piece.now }
    ensures capacity { vec_capacity bytes.old ≤ vec_capacity bytes.new }
{
    let _ = bytes.extend_from_slice(piece);
}

impl MemSink {
    ghost use Rattle.pbd_io.specs.Memory.{new_sink};

    /// Takes memory for `room` bytes. Of two entries for one call the first counts.
    pub fn open(alloc: Global, room: usize, fails: Vec<(u64, usize)>) -> Result<MemSink, AllocError>
        ensures { IfOk result (λ s. s ≡ new_sink room fails.items) }
    {
        Ok(MemSink {
            bytes: Vec::with_capacity(alloc, room)?,
            room,
            fails,
            calls: 0,
            faults: 0,
        })
    }

    /// What it holds.
    pub fn written(&self) -> &[u8]
        ensures { result.now ≡ self.now.bytes }
    {
        &self.bytes
    }
}

// How many bytes the call takes at most before it fails, if it is listed.
fn cut_at(fails: &[(u64, usize)], call: u64) -> Option<usize>
    ensures { result ≡ cut_at fails.now call }
{
    fails
        .iter()
        .find(|entry| entry.0 == call)
        .map(|entry| entry.1)
}

impl Sink for MemSink {
    ghost use Rattle.pbd_io.specs.Memory.{cut, appended};

    ghost written = { λ s. Some s.bytes };

    ghost faults = { λ s. s.faults };

    /// Fails a piece longer than the room that is left, and the listed calls.
    /// Both counts stay at 2^64 - 1 once they are there.
    fn write(&mut self, piece: &[u8]) -> Result<(), Failed>
        ensures bytes { WritesPiece (Some self.old.bytes) (Some self.new.bytes) result piece.now }
        ensures cause { HasCause self.old.faults self.new.faults result }
        ensures fails { is_err result ≡ is_some (cut self.old piece.now) }
        ensures appended { self.new.bytes ≡ self.old.bytes ++ appended self.old piece.now }
        ensures calls { self.new.calls ≡ next_count self.old.calls }
        ensures faults { CountsFaults self.old.faults self.new.faults result }
        ensures same_room { self.new.room ≡ self.old.room }
        ensures same_fails { self.new.fails ≡ self.old.fails }
    {
        self.calls = self.calls.saturating_add(1);
        if piece.len() > self.room - self.bytes.len() {
            self.faults = self.faults.saturating_add(1);
            return Err(Failed);
        }
        match cut_at(&self.fails, self.calls) {
            None => {
                append(&mut self.bytes, piece);
                Ok(())
            }
            Some(count) => {
                append(&mut self.bytes, &piece[..count.min(piece.len())]);
                self.faults = self.faults.saturating_add(1);
                Err(Failed)
            }
        }
    }
}
