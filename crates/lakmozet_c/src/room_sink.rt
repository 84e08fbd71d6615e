//! A sink with room for so many bytes, which can tell why it failed.
ghost use Rattle.std.specs.Prelude.{◌≡◌, [], Some, IfOk};
ghost use Rattle.pbd_io.specs.Causes.{CountsFaults, HasCause};
ghost use Rattle.pbd_io.specs.Pieces.{WritesPiece};
ghost use Rattle.lakmozet_c.specs.Runs.{IsShortage};

use crate::runs::NoRun;
use pbd_io::{Failed, Sink};
use std::alloc::{AllocError, Global};

/// Bytes in memory. The piece that comes past the room is taken whole, and fails, so that what is held then is longer than
/// the room. A piece for which there is no memory fails too, and nothing of it is taken.
#[derive(Drop)]
pub(crate) struct RoomSink {
    pub(crate) bytes: Vec<u8>,
    pub(crate) room: usize,
    faults: u64,
}

impl RoomSink {
    /// Takes memory for `room` bytes.
    pub(crate) fn open(alloc: Global, room: usize) -> Result<RoomSink, AllocError>
        ensures bytes { IfOk result (λ s. s.bytes.items ≡ []) }
        ensures room { IfOk result (λ s. s.room ≡ room) }
    {
        Ok(RoomSink {
            bytes: Vec::with_capacity(alloc, room)?,
            room,
            faults: 0,
        })
    }

    /// Why it failed, by the room that it had: a write says nothing of the room, so that it is looked at here.
    pub(crate) fn why_failed(&self, room: usize) -> NoRun
        ensures { IsShortage room self.now.bytes.items result }
    {
        if room < self.bytes.len() {
            NoRun::NoRoom
        } else {
            NoRun::NoMemory
        }
    }
}

impl Sink for RoomSink {
    ghost written = { λ s. Some s.bytes.items };

    ghost faults = { λ s. s.faults };

    /// Fails where what it holds is longer than the room then, or where there is no memory.
    fn write(&mut self, piece: &[u8]) -> Result<(), Failed>
        ensures bytes { WritesPiece (Some self.old.bytes.items) (Some self.new.bytes.items) result piece.now }
        ensures cause { HasCause self.old.faults self.new.faults result }
        ensures faults { CountsFaults self.old.faults self.new.faults result }
    {
        if self.bytes.extend_from_slice(piece).is_ok() && self.bytes.len() <= self.room {
            return Ok(());
        }
        self.faults = self.faults.saturating_add(1);
        Err(Failed)
    }
}
