//! Marks on numbers, of which the next is found without a look at each number: a block of 256 numbers has a mark of its own.
ghost use Rattle.std.specs.Prelude.{◌≡◌, ◌+◌, ◌*◌, ◌/◌, ◌<◌, ◌≤◌, ◌||◌, [], ℕ, IfOk, IsTrue, IsFalse, false, length, replicate, slice_set};
ghost use Rattle.pbd_world.specs.Colours.{live_at};
ghost use Rattle.pbd_colour.specs.Marked.{AreBlocked, AreUnmarked};

use crate::lists::open_filled;
use pbd_world::RoomList;
use std::alloc::{AllocError, Global};
use std::marker::Model;

/// Marks on numbers, seen as a flag for each. The block of a marked number is marked too.
#[derive(Drop)]
pub(crate) struct MarkedNumbers {
    numbers: RoomList<bool>,
    blocks: RoomList<bool>,
}

impl Model for MarkedNumbers {
    ghost use Rattle.std.specs.Prelude.{◌≡◌, ◌+◌, ◌/◌, Bool};
    ghost use Rattle.pbd_world.specs.Room.{Roomed};
    ghost use Rattle.pbd_colour.specs.Marked.{AreBlocked};

    ghost Value = { Roomed Bool };

    ghost view = { λ s. s.numbers };

    ghost invariant = { λ s. AreBlocked s.numbers.entries s.blocks.entries × (s.blocks.room ≡ s.numbers.room / 256 + 1) };
}

// Whether one of the two holds.
fn either(a: bool, b: bool) -> bool
    ensures { result ≡ (a || b) }
{
    a || b
}

// Marks a number where it is to be, and so its block.
fn mark_both(marks: &mut [bool], blocks: &mut [bool], k: u32, is_met: bool)
    requires k { k < length marks.old }
    requires blocked { AreBlocked marks.old blocks.old }
    ensures marks { marks.new ≡ slice_set marks.old k (live_at marks.old k || is_met) }
    ensures blocked { AreBlocked marks.new blocks.new }
{
    let block = (k / 256) as usize;
    marks[k as usize] = either(marks[k as usize], is_met);
    blocks[block] = either(blocks[block], is_met);
}

// Takes the mark of a number.
fn take_mark(marks: &mut [bool], k: u32)
    requires { k < length marks.old }
    ensures { marks.new ≡ slice_set marks.old k false }
{
    marks[k as usize] = false;
}

// The first marked number of some, or their end.
fn first_between(marks: &[bool], from: u32, to: u32) -> u32
    requires from { from ≤ to }
    requires to { to ≤ length marks.now }
    ensures above { from ≤ result }
    ensures below { result ≤ to }
    ensures unmarked { AreUnmarked marks.now from result }
{
    for k in from..to {
        if marks[k as usize] {
            return k;
        }
    }
    to
}

// The first marked number of a piece of a block, or the end of the piece.
fn first_of_block(marks: &[bool], blocks: &[bool], from: u32, to: u32) -> u32
    requires from { from < to }
    requires to { to ≤ length marks.now }
    requires piece { to ≤ (from / 256 + 1) * 256 }
    requires blocked { AreBlocked marks.now blocks.now }
    ensures above { from ≤ result }
    ensures below { result ≤ to }
    ensures unmarked { AreUnmarked marks.now from result }
{
    if blocks[(from / 256) as usize] {
        first_between(marks, from, to)
    } else {
        to
    }
}

// The first marked number from a number on, or how many numbers there are.
fn next_marked(marks: &[bool], blocks: &[bool], from: u32) -> u32
    requires few { length marks.now ≤ 524288 }
    requires from { from ≤ length marks.now }
    requires blocked { AreBlocked marks.now blocks.now }
    ensures above { from ≤ result }
    ensures below { result ≤ length marks.now }
    ensures unmarked { AreUnmarked marks.now from result }
{
    let count = marks.len() as u32;
    let mut at = from;
    while at < count {
        let to = ((at / 256 + 1) * 256).min(count);
        let found = first_of_block(marks, blocks, at, to);
        if found < to {
            return found;
        }
        at = to;
    }
    at
}

// Takes the marks of all blocks away.
fn clear(blocks: &mut [bool])
    ensures { (b : ℕ) → IsFalse (live_at blocks.new b) }
{
    for block in blocks.iter_mut() {
        *block = false;
    }
}

impl MarkedNumbers {
    // Room for the marks of so many numbers. There are no numbers yet.
    pub(crate) fn open(alloc: Global, room: u32) -> Result<MarkedNumbers, AllocError>
        ensures { IfOk result (λ marks. marks ≡ record { entries = []; room = room }) }
    {
        let numbers = RoomList::open(alloc, room)?;
        let blocks = open_filled(alloc, room / 256 + 1, false, 1)?;
        Ok(MarkedNumbers { numbers, blocks })
    }

    // Takes so many numbers, of which none is marked.
    pub(crate) fn refill(&mut self, count: u32)
        requires { count ≤ self.old.room }
        ensures { self.new ≡ record self.old { entries = replicate count false } }
    {
        self.numbers.fill(false, count);
        self.blocks.fill(false, count / 256 + 1);
    }

    // Marks a number where it is to be.
    pub(crate) fn mark_if(&mut self, k: u32, is_met: bool)
        requires { k < length self.old.entries }
        ensures { self.new ≡ record self.old { entries = slice_set self.old.entries k (live_at self.old.entries k || is_met) } }
    {
        mark_both(
            self.numbers.as_mut_slice(),
            self.blocks.as_mut_slice(),
            k,
            is_met,
        );
    }

    // Takes the mark of a number.
    pub(crate) fn unmark(&mut self, k: u32)
        requires { k < length self.old.entries }
        ensures { self.new ≡ record self.old { entries = slice_set self.old.entries k false } }
    {
        take_mark(self.numbers.as_mut_slice(), k);
    }

    // The first marked number from a number on, or how many numbers there are.
    pub(crate) fn next(&self, from: u32) -> u32
        requires few { length self.now.entries ≤ 524288 }
        requires from { from ≤ length self.now.entries }
        ensures above { from ≤ result }
        ensures below { result ≤ length self.now.entries }
        ensures unmarked { AreUnmarked self.now.entries from result }
    {
        next_marked(self.numbers.as_slice(), self.blocks.as_slice(), from)
    }

    // Takes the marks of all blocks away, where no number is marked.
    pub(crate) fn forget(&mut self)
        requires { (k : ℕ) → IsFalse (live_at self.old.entries k) }
        ensures { self.new ≡ self.old }
    {
        clear(self.blocks.as_mut_slice());
    }
}
