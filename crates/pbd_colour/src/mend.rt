//! Colours after pairs were dropped: only pairs whose neighbours changed are looked at again.
ghost use Rattle.std.specs.Prelude.{◌≡◌, ◌+◌, ◌<◌, ◌≤◌, ℕ, IsTrue, IsFalse, length, slice_index};
ghost use Rattle.pbd_world.specs.Colours.{live_at};
ghost use Rattle.pbd_colour.specs.Held.{AreHeld};
ghost use Rattle.pbd_colour.specs.Marked.{AreAsMany};
ghost use Rattle.pbd_colour.specs.Mended.{meets};
ghost use Rattle.pbd_colour.specs.Swept.{ArePainted, IsSwept, WerePainted};

use crate::held::Held;
use crate::marks::MarkedNumbers;
use crate::neighbours::{free_colour, mark_neighbours};

// Marks the live pairs that share a particle with an earlier pair of the numbers.
#[tactic(auto, using(crate::proofs::Marking::as_many_then))]
fn mark_all(held: Held<'_>, numbers: &[u32], marks: &mut MarkedNumbers)
    requires held { AreHeld held.pairs.now held.live.now held.chains.now }
    requires in_range { (k : ℕ) → k < length numbers.now → slice_index numbers.now k < length held.pairs.now }
    requires marks { length held.pairs.now ≤ length marks.old.entries }
    ensures marked { (m k : ℕ) → m < length numbers.now
        → IsTrue (meets held.entry.pairs.now held.entry.chains.now.chains (slice_index numbers.now m) k)
        → IsTrue (live_at marks.new.entries k) }
    ensures sized { AreAsMany marks.old marks.new }
{
    for i in numbers {
        mark_neighbours(held, *i, marks);
    }
}

// Gives pair i its colour where it is live, and marks the later pairs that share a particle with it where that changed.
fn look_again(held: Held<'_>, colours: &mut [u8], marks: &mut MarkedNumbers, i: u32)
    requires i { i < length held.pairs.now }
    requires held { AreHeld held.pairs.now held.live.now held.chains.now }
    requires colours { length colours.old ≡ length held.pairs.now }
    requires marks { length marks.old.entries ≡ length held.pairs.now }
    requires swept { IsSwept held.pairs.now held.live.now colours.old marks.old.entries i }
    ensures swept { IsSwept held.entry.pairs.now held.entry.live.now colours.new marks.new.entries (i + 1) }
    ensures before { (k : ℕ) → k ≤ i → live_at marks.new.entries k ≡ live_at marks.old.entries k }
    ensures sized { AreAsMany marks.old marks.new }
{
    let is_live = held.live[i as usize];
    if !is_live {
        return;
    }
    let colour = free_colour(held, colours, i);
    if colour == colours[i as usize] {
        return;
    }
    colours[i as usize] = colour;
    mark_neighbours(held, i, marks);
}

// Goes over the marked pairs, in the order of their numbers, and takes their marks away.
fn sweep(held: Held<'_>, colours: &mut [u8], marks: &mut MarkedNumbers)
    requires held { AreHeld held.pairs.now held.live.now held.chains.now }
    requires colours { length colours.old ≡ length held.pairs.now }
    requires marks { length marks.old.entries ≡ length held.pairs.now }
    requires swept { IsSwept held.pairs.now held.live.now colours.old marks.old.entries 0 }
    ensures painted { ArePainted held.entry.pairs.now held.entry.live.now colours.new }
    ensures unmarked { (k : ℕ) → IsFalse (live_at marks.new.entries k) }
    ensures sized { AreAsMany marks.old marks.new }
{
    let count = held.pairs.len() as u32;
    let mut i = marks.next(0);
    while i < count {
        look_again(held, colours, marks, i);
        marks.unmark(i);
        i = marks.next(i + 1);
    }
    marks.forget();
}

// Mends the colours of the live pairs after those of the numbers were dropped.
pub(crate) fn mend(held: Held<'_>, numbers: &[u32], colours: &mut [u8], marks: &mut MarkedNumbers)
    requires held { AreHeld held.pairs.now held.live.now held.chains.now }
    requires in_range { (k : ℕ) → k < length numbers.now → slice_index numbers.now k < length held.pairs.now }
    requires colours { length colours.old ≡ length held.pairs.now }
    requires marks { length marks.old.entries ≡ length held.pairs.now }
    requires before { WerePainted held.pairs.now held.live.now colours.old numbers.now }
    ensures painted { ArePainted held.entry.pairs.now held.entry.live.now colours.new }
    ensures unmarked { (k : ℕ) → IsFalse (live_at marks.new.entries k) }
    ensures sized { AreAsMany marks.old marks.new }
{
    mark_all(held, numbers, marks);
    sweep(held, colours, marks);
}
