// A list with a fixed room.
ghost use Rattle.std.specs.Prelude.{◌≡◌, ◌<◌, ◌≤◌, ◌++◌, [], ◌∷◌, length, replicate, IfOk, OnOk, OnErr, IsOk};
ghost use Rattle.std.specs.Borrow.{sem};
ghost use Rattle.pbd_world.specs.Lending.{LendsItems};

use std::alloc::{AllocError, Global};
use std::marker::Model;

/// A list with a fixed room, which contracts see as its items and its room.
#[derive(Drop)]
pub struct RoomList<T> {
    entries: Vec<T>,
    room: u32,
}

/// The room is taken.
#[derive(Clone, Copy, Debug, PartialEq, Eq)]
pub struct Full;

impl<T> Model for RoomList<T> {
    ghost use Rattle.std.specs.Prelude.{◌≤◌, vec_len, vec_capacity};
    ghost use Rattle.pbd_world.specs.Room.{Roomed};

    ghost Value = { Roomed T };

    ghost view = { λ s. record { entries = s.entries.items; room = s.room } };

    ghost invariant = { λ s. (vec_len s.entries ≤ s.room) × (s.room ≤ vec_capacity s.entries) };
}

impl<T: Copy> RoomList<T> {
    /// An empty list. All its memory is taken here.
    pub fn open(alloc: Global, room: u32) -> Result<RoomList<T>, AllocError>
        ensures { IfOk result (λ list. list ≡ record { entries = []; room = room }) }
    {
        let entries = Vec::with_capacity(alloc, room as usize)?;
        Ok(RoomList { entries, room })
    }

    /// Adds an item at the end. `Full` comes exactly where the room is taken; the list is unchanged then.
    pub fn push(&mut self, item: T) -> Result<(), Full>
        ensures ok { OnOk result (length self.old.entries < self.old.room) }
        ensures pushed { OnOk result (self.new ≡ record self.old { entries = self.old.entries ++ item ∷ [] }) }
        ensures full { OnErr result (length self.old.entries ≡ self.old.room) }
        ensures err { OnErr result (self.new ≡ self.old) }
        // The same for a caller that knows of room left, with no cases on the result.
        ensures fits { length self.old.entries < self.old.room
            → self.new ≡ record self.old { entries = self.old.entries ++ item ∷ [] } }
        ensures ok_where_it_fits { length self.old.entries < self.old.room → IsOk result }
    {
        if self.entries.len() == self.room as usize {
            return Err(Full);
        }
        match self.entries.push(item) {
            Ok(()) => Ok(()),
            Err(_) => Err(Full),
        }
    }

    pub fn as_slice(&self) -> &[T]
        ensures { result.now ≡ self.now.entries }
    {
        self.entries.as_slice()
    }

    /// The items for writing: after the loan they are what was written.
    pub fn as_mut_slice(&mut self) -> &mut [T]
        ensures* writes_back { sem 𝓛 (LendsItems T.row self.entry result) }
        ensures value { result.now ≡ self.old.entries }
    {
        self.entries.as_mut_slice()
    }

    pub fn clear(&mut self)
        ensures { self.new ≡ record self.old { entries = [] } }
    {
        self.entries.clear();
    }

    /// Makes it n copies of an item, in place of what it had.
    pub fn fill(&mut self, item: T, n: u32)
        requires { n ≤ self.old.room }
        ensures { self.new ≡ record self.old { entries = replicate n item } }
    {
        self.clear();
        for _ in 0..n {
            let _ = self.push(item);
        }
    }

    /// How many items there may be.
    pub fn room(&self) -> u32
        ensures { result ≡ self.now.room }
    {
        self.room
    }
}
