//! A list of pairs with live flags, its greedy colours, and the chain of each particle's live pairs.
ghost use Rattle.std.specs.Prelude.{◌≡◌, ◌<◌, ◌≤◌, ◌++◌, [], ℕ, length, slice_index, replicate, IfOk, slice_range};
ghost use Rattle.std.specs.Prelude.{◌+◌, ◌*◌, IsTrue, true, count_by};
ghost use Rattle.std.specs.Bool.{Decides};
ghost use Rattle.std.specs.List.Sorted.{IsStrictlyIncreasing};
ghost use Rattle.pbd_world.specs.Colours.{live_at, colour, order, joined, joins};
ghost use Rattle.pbd_colour.specs.Pairs.{InRange, batch_of, dropped};
ghost use Rattle.pbd_colour.specs.Batch.{AreApart, AreLive};

use crate::gather::{gather, open_order};
use crate::held::{Held, are_same, hold_as, hold_instead, leads, take_out};
use crate::lists::{copy_all, copy_over, open_filled};
use crate::marks::MarkedNumbers;
use crate::mend::mend;
use crate::paint::paint;
use crate::toward::{may_lead, tell_all};
use pbd_chain::Chains;
use pbd_world::RoomList;
use std::alloc::{AllocError, Global};
use std::marker::Model;

/// Pairs of particles with a live flag each, and their greedy colours.
///
/// The colour of a live pair is the least of 0 to 62 that no live pair before it which shares a
/// particle with it has, or 63 where there is none. So pairs of one colour below 63 may be
/// projected in any order, or side by side; pairs of colour 63 go one after another. Only opening
/// takes memory.
#[derive(Drop)]
pub struct Colouring {
    particles: u32,
    room: u32,
    pairs: RoomList<(u32, u32)>,
    live: RoomList<bool>,
    marks: MarkedNumbers,
    colours: RoomList<u8>,
    used: RoomList<u64>,
    toward: RoomList<u64>,
    order: RoomList<u32>,
    starts: RoomList<u32>,
    chains: Chains,
}

impl Model for Colouring {
    ghost use Rattle.pbd_colour.specs.Pairs.{Coloured};

    ghost Value = { Coloured };

    ghost use Rattle.pbd_colour.specs.Kept.{IsKept};

    ghost view = { λ s. record { particles = s.particles; room = s.room; pairs = s.pairs.entries; live = s.live.entries } };

    ghost invariant = { λ s. IsKept s.particles s.room s.pairs s.live s.marks
        s.colours s.used s.toward s.order s.starts s.chains };
}

// Two empty sets for each particle: of the colours of its pairs, and of where they lead.
fn open_sets(alloc: Global, particles: u32) -> Result<(RoomList<u64>, RoomList<u64>), AllocError>
    ensures used { IfOk result (λ both. both.0.entries ≡ replicate particles 0) }
    ensures toward { IfOk result (λ both. both.1.entries ≡ replicate particles 0) }
{
    let used = open_filled(alloc, particles, 0, particles)?;
    let toward = open_filled(alloc, particles, 0, particles)?;
    Ok((used, toward))
}

// The numbers from the start of the c-th piece to that of the next.
fn piece<'a>(order: &'a [u32], starts: &[u32], c: usize) -> &'a [u32]
    requires next { c + 1 < length starts.now }
    requires ordered { slice_index starts.now c ≤ slice_index starts.now (c + 1) }
    requires within { slice_index starts.now (c + 1) ≤ length order.now }
    ensures { result.now ≡ slice_range order.now (slice_index starts.now c) (slice_index starts.now (c + 1)) }
{
    &order[starts[c] as usize..starts[c + 1] as usize]
}

impl Colouring {
    /// Makes room for so many pairs, at most 524,288, of particles below `particles`, at most 65,536.
    /// There are no pairs yet.
    pub fn open(alloc: Global, particles: u32, room: u32) -> Result<Colouring, AllocError>
        requires particles { particles ≤ 65536 }
        requires room { room ≤ 524288 }
        ensures { IfOk result (λ c. c ≡ record { particles = particles; room = room; pairs = []; live = [] }) }
    {
        let chains = Chains::open(alloc, particles, 2 * room)?;
        let pairs = RoomList::open(alloc, room)?;
        let live = RoomList::open(alloc, room)?;
        let colours = RoomList::open(alloc, room)?;
        let marks = MarkedNumbers::open(alloc, room)?;
        let (used, toward) = open_sets(alloc, particles)?;
        let (order, starts) = open_order(alloc, room)?;
        Ok(Colouring {
            particles,
            room,
            pairs,
            live,
            marks,
            colours,
            used,
            toward,
            order,
            starts,
            chains,
        })
    }

    /// Takes other pairs, at most as many as there is room for, each of two different particles.
    /// All are live.
    pub fn refill(&mut self, pairs: &[(u32, u32)])
        requires fits { length pairs.now ≤ self.old.room }
        requires in_range { InRange self.old.particles pairs.now }
        ensures { self.new ≡ record self.old { pairs = pairs.now; live = replicate (length pairs.now) true } }
    {
        hold_instead(
            &mut self.chains,
            self.pairs.as_slice(),
            self.live.as_mut_slice(),
            pairs,
        );
        copy_all(&mut self.pairs, pairs);
        tell_all(self.toward.as_mut_slice(), pairs);
        let count = pairs.len() as u32;
        self.live.fill(true, count);
        self.marks.refill(count);
        self.colours.fill(0, count);
        paint(
            self.pairs.as_slice(),
            self.live.as_slice(),
            self.used.as_mut_slice(),
            self.colours.as_mut_slice(),
        );
        gather(
            self.live.as_slice(),
            self.colours.as_slice(),
            &mut self.order,
            self.starts.as_mut_slice(),
        );
    }

    /// Drops the live pairs of these numbers, which must rise. The others keep their numbers and
    /// get the colours that they have without the dropped ones.
    pub fn drop_pairs(&mut self, sorted: &[u32])
        requires increasing { IsStrictlyIncreasing sorted.now }
        requires live { (k : ℕ) → k < length sorted.now → IsTrue (live_at self.old.live (slice_index sorted.now k)) }
        ensures { self.new ≡ record self.old { live = dropped sorted.now self.old.live } }
    {
        if sorted.is_empty() {
            return;
        }
        take_out(
            self.pairs.as_slice(),
            self.live.as_mut_slice(),
            &mut self.chains,
            sorted,
        );
        let held = Held {
            pairs: self.pairs.as_slice(),
            live: self.live.as_slice(),
            chains: &self.chains,
        };
        mend(held, sorted, self.colours.as_mut_slice(), &mut self.marks);
        gather(
            self.live.as_slice(),
            self.colours.as_slice(),
            &mut self.order,
            self.starts.as_mut_slice(),
        );
    }

    /// Whether the pairs that are live are those of another colouring of the same pairs.
    pub fn has_flags_of(&self, other: &Colouring) -> bool
        ensures { Decides result (self.now.live ≡ other.now.live) }
    {
        are_same(self.live.as_slice(), other.live.as_slice())
    }

    /// Takes over which pairs are live, and their colours, from a colouring of the same pairs. It takes no memory, and as long as
    /// copying the colours where few flags differ.
    pub fn copy_from(&mut self, other: &Colouring)
        requires { self.old.pairs ≡ other.now.pairs }
        ensures { self.new ≡ record self.old { live = other.now.live } }
    {
        hold_as(
            self.pairs.as_slice(),
            self.live.as_mut_slice(),
            &mut self.chains,
            other.live.as_slice(),
        );
        copy_over(&mut self.colours, other.colours.as_slice());
        copy_over(&mut self.starts, other.starts.as_slice());
        copy_all(&mut self.order, other.order.as_slice());
    }

    /// The colour of a live pair, 0 to 63.
    pub fn colour(&self, i: u32) -> u8
        requires { IsTrue (live_at self.now.live i) }
        ensures value { result ≡ colour self.now.pairs self.now.live i }
        ensures within { result ≤ 63 }
    {
        self.colours.as_slice()[i as usize]
    }

    /// The live pairs of a colour below 63, ascending. No two of them share a particle.
    pub fn batch(&self, c: u8) -> &[u32]
        requires { c ≤ 62 }
        ensures value { result.now ≡ batch_of self.now.pairs self.now.live c }
        ensures live { AreLive self.now.pairs self.now.live result.now }
        ensures apart { AreApart self.now.pairs result.now }
    {
        piece(self.order.as_slice(), self.starts.as_slice(), c as usize)
    }

    /// The live pairs of colour 63, ascending. These may share particles.
    pub fn serial(&self) -> &[u32]
        ensures value { result.now ≡ batch_of self.now.pairs self.now.live 63 }
        ensures live { AreLive self.now.pairs self.now.live result.now }
    {
        piece(self.order.as_slice(), self.starts.as_slice(), 63)
    }

    /// The live pairs of all colours, those of the least first. Of one colour they ascend.
    pub fn order(&self) -> &[u32]
        ensures { result.now ≡ order self.now.pairs self.now.live }
    {
        self.order.as_slice()
    }

    /// Whether a live pair joins two particles, in either order.
    pub fn linked(&self, i: u32, j: u32) -> bool
        requires i_in { i < self.now.particles }
        requires j_in { j < self.now.particles }
        ensures { result ≡ joined self.now.pairs self.now.live i j }
    {
        if !may_lead(self.toward.as_slice(), i, j) {
            return false;
        }
        leads(self.pairs.as_slice(), &self.chains, i, j)
    }

    /// Whether a pair is live.
    pub fn is_live(&self, i: u32) -> bool
        requires { i < length self.now.pairs }
        ensures { result ≡ live_at self.now.live i }
    {
        self.live.as_slice()[i as usize]
    }

    /// Which of the pairs are live, in their order.
    pub fn live(&self) -> &[bool]
        ensures value { result.now ≡ self.now.live }
        ensures length { length result.now ≡ length self.now.pairs }
    {
        self.live.as_slice()
    }

    /// The number of live pairs.
    pub fn live_count(&self) -> u32
        ensures { result ≡ count_by (λ b. b) self.now.live }
    {
        self.live.as_slice().iter().filter(|b| **b).count() as u32
    }
}
