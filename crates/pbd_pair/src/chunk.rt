// The bonds of a chunk, number by number.
ghost use Rattle.std.specs.Prelude.{◌≡◌, ◌<◌, ◌≤◌, length, slice_index_or, take};
ghost use Rattle.pbd_pair.specs.Bonds.{bond_of};
ghost use Rattle.pbd_pair.specs.Laid.{lists_of, CanSplit, AreSplit};
ghost use Rattle.pbd_pair.specs.Chunks.{rows_of, AreKnown, AreEnds, AreShared, AreWeighed};

use crate::bonds::Bonds;
use crate::laid::{Laid, laid_of};
use pbd_num::{CHUNK, Row};
use pbd_store::{Between, Pairs};
use pbd_world::Left;

/// Up to 128 numbers of bonds, and their columns where there are some.
#[derive(Clone, Copy)]
pub(crate) struct Chunk<'a> {
    pub(crate) bonds: Bonds<'a>,
    pub(crate) numbers: &'a [u32],
    pub(crate) laid: Option<Laid<'a>>,
}

/// A chunk of bonds in columns, and the ways from their second ends to the first.
#[derive(Clone, Copy)]
pub(crate) struct Found<'a> {
    pub(crate) chunk: Chunk<'a>,
    pub(crate) pairs: Pairs<'a>,
    pub(crate) laid: Laid<'a>,
    pub(crate) ways: &'a [Row; CHUNK],
}

/// Bonds in columns, and the ways between their ends.
#[derive(Clone, Copy)]
pub(crate) struct Rows<'a> {
    pub(crate) pairs: Pairs<'a>,
    pub(crate) laid: Laid<'a>,
    pub(crate) ways: &'a [Row; CHUNK],
}

/// The columns of a chunk whose bonds came without.
#[derive(Clone, Copy)]
pub(crate) struct Columns {
    first: [u32; CHUNK],
    second: [u32; CHUNK],
    rest: [i32; CHUNK],
    factor: [i32; CHUNK],
    stiffness: [i32; CHUNK],
    portion: [i32; CHUNK],
}

/// That bond j of a chunk would leave the limit.
pub(crate) fn left_at(found: &Found<'_>, j: usize) -> Left
    requires { j < length found.now.chunk.numbers.now }
    ensures { result.element ≡ slice_index_or found.now.chunk.numbers.now j 0 }
{
    Left {
        element: found.chunk.numbers[j],
    }
}

/// The columns of the first bonds, and of those after them, where there are some.
pub(crate) fn split_columns<'a>(
    laid: Option<Laid<'a>>,
    count: usize,
) -> (Option<Laid<'a>>, Option<Laid<'a>>)
    requires { CanSplit count laid }
    ensures { AreSplit count laid.entry result.0 result.1 }
{
    match laid {
        None => (None, None),
        Some(laid) => {
            let (front, back) = laid.split_at(count);
            (Some(front), Some(back))
        }
    }
}

impl Columns {
    /// Zeros.
    pub(crate) fn new() -> Columns {
        Columns {
            first: [0; CHUNK],
            second: [0; CHUNK],
            rest: [0; CHUNK],
            factor: [0; CHUNK],
            stiffness: [0; CHUNK],
            portion: [0; CHUNK],
        }
    }

    /// Takes the ends of a chunk's bonds.
    #[inline(never)]
    pub(crate) fn take_ends(&mut self, chunk: &Chunk<'_>)
        requires { AreKnown chunk.now.bonds chunk.now.numbers.now }
        ensures { AreEnds (bond_of chunk.now.bonds) chunk.now.numbers.now self.new }
    {
        for (j, n) in chunk.numbers.iter().enumerate() {
            let bond = chunk.bonds.get(*n);
            self.first[j] = bond.a;
            self.second[j] = bond.b;
        }
    }

    /// The ends of the first bonds.
    #[inline(always)]
    pub(crate) fn pairs(&self, count: usize) -> Pairs<'_>
        requires { count ≤ 128 }
        ensures first { result.first.now ≡ take count self.now.first }
        ensures second { result.second.now ≡ take count self.now.second }
    {
        Pairs {
            first: &self.first[..count],
            second: &self.second[..count],
        }
    }

    /// Lays the bonds of a chunk, from the weights of their ends.
    #[inline(never)]
    pub(crate) fn lay(&mut self, chunk: &Chunk<'_>, between: &Between)
        requires known { AreKnown chunk.now.bonds chunk.now.numbers.now }
        requires sized { AreWeighed (length chunk.now.numbers.now) between.now.first_weight between.now.second_weight }
        ensures ends { (self.new.first ≡ self.old.first) × (self.new.second ≡ self.old.second) }
        ensures first_whole { length between.now.first_weight ≡ 128 }
        ensures second_whole { length between.now.second_weight ≡ 128 }
        ensures laid { AreShared (bond_of chunk.now.bonds) chunk.now.numbers.now between.now self.new }
    {
        for (j, n) in chunk.numbers.iter().enumerate() {
            let bond = laid_of(
                chunk.bonds.get(*n),
                between.first_weight[j],
                between.second_weight[j],
            );
            self.rest[j] = bond.rest;
            self.factor[j] = bond.factor;
            self.stiffness[j] = bond.stiffness;
            self.portion[j] = bond.portion;
        }
    }

    /// The first bonds in columns, and what lies between their ends.
    #[inline(always)]
    pub(crate) fn rows<'a>(&'a self, between: &'a Between, count: usize) -> Rows<'a>
        requires { count ≤ 128 }
        ensures first { result.pairs.first.now ≡ take count self.now.first }
        ensures second { result.pairs.second.now ≡ take count self.now.second }
        ensures laid { lists_of result.laid ≡ rows_of count between.now self.now }
        ensures ways { result.ways.now ≡ between.now.ways }
    {
        let laid = Laid {
            first: &self.first[..count],
            second: &self.second[..count],
            rest: &self.rest[..count],
            factor: &self.factor[..count],
            stiffness: &self.stiffness[..count],
            portion: &self.portion[..count],
            first_weight: &between.first_weight[..count],
            second_weight: &between.second_weight[..count],
        };
        Rows {
            pairs: laid.pairs(),
            laid,
            ways: &between.ways,
        }
    }
}
