//! Pairs of particles: what lies between their ends, and how the ends move.
ghost use Rattle.std.specs.Prelude.{◌≡◌, ℕ, ◌+◌, ◌-◌, ◌*◌, ◌^◌, ◌<◌, ◌≤◌, ◌≤ℤ◌, ◌&&◌, if◌then◌else◌, pos, length, replicate, slice_index_or, unsigned_abs, IsTrue, MatchResult};
ghost use Rattle.pbd_num.specs.Rows.{no_row};
ghost use Rattle.pbd_num.specs.Vectors.{Within, is_within, plus};
ghost use Rattle.pbd_world.specs.Particles.{particle_at, placed, effective_weight};
ghost use Rattle.pbd_store.specs.Blocks.{blocks_of};
ghost use Rattle.pbd_store.specs.Gathering.{index_at};
ghost use Rattle.pbd_store.specs.Moving.{fixed_parts, AreInside};
ghost use Rattle.pbd_store.specs.Pairs.{ArePairs, PairsApart, AreBetween, AreShort, AreMoves, Parted, EachMoved, LeavesAt, OutsideAt, IsWay, row_in, ways_in, opposites_in, first_moves, second_moves, ends_within};
ghost use Rattle.pbd_store.specs.Reaching.{CoversEnds};

use crate::pulling::{RowMoves, put_ways};
use crate::reach::Reach;
use crate::steps::Steps;
use crate::store::Store;
use pbd_num::{CHUNK, Row, Vec3, within};
use std::sync::ledger::Ledger;

/// Up to 128 pairs of particles: pair j is `first[j]` and `second[j]`.
#[derive(Clone, Copy)]
pub struct Pairs<'a> {
    pub first: &'a [u32],
    pub second: &'a [u32],
}

/// What lies between the ends of up to 128 pairs.
#[derive(Clone, Copy)]
pub struct Between {
    /// The ways from the second ends to the first, with flag 0.
    pub ways: [Row; CHUNK],
    /// The effective weights of the first ends.
    pub first_weight: [i32; CHUNK],
    /// The effective weights of the second ends.
    pub second_weight: [i32; CHUNK],
}

impl Between {
    /// Nothing but zeros.
    pub fn new() -> Between
        ensures ways { result.ways ≡ replicate 128 no_row }
        ensures first_weight { result.first_weight ≡ replicate 128 (pos 0) }
        ensures second_weight { result.second_weight ≡ replicate 128 (pos 0) }
    {
        Between {
            ways: [Row::ZERO; CHUNK],
            first_weight: [0; CHUNK],
            second_weight: [0; CHUNK],
        }
    }
}

/// The moves of the two ends of a pair.
#[derive(Clone, Copy)]
pub struct EndMoves {
    pub first: Vec3,
    pub second: Vec3,
}

// How many accesses two for each block of L of n pairs are.
fn accesses(n: usize, lanes: usize) -> u64
    requires some { 0 < lanes }
    requires few { n ≤ 128 }
    requires lanes { lanes ≤ 16 }
    ensures { result ≡ 2 * blocks_of n lanes }
{
    2 * n.div_ceil(lanes) as u64
}

// Where two moves lead.
#[inline(always)]
fn moved(places: EndMoves, moves: EndMoves) -> EndMoves
    requires first { Within (2 ^ 29) places.first }
    requires second { Within (2 ^ 29) places.second }
    requires first_move { Within (2 ^ 31) moves.first }
    requires second_move { Within (2 ^ 31) moves.second }
    ensures first { result.first ≡ plus places.first moves.first }
    ensures second { result.second ≡ plus places.second moves.second }
{
    EndMoves {
        first: places.first.plus(moves.first),
        second: places.second.plus(moves.second),
    }
}

// Whether two places are within the limit.
#[inline(always)]
fn both_within(places: EndMoves, limit: i64) -> bool
    requires low { pos 0 ≤ℤ limit }
    requires high { unsigned_abs limit ≤ 2 ^ 29 }
    ensures { result ≡ (is_within limit places.first && is_within limit places.second) }
{
    let first = within(places.first, limit);
    let second = within(places.second, limit);
    first & second
}

impl<const L: usize> Store<L> {
    // Takes the ways between the ends.
    #[inline(never)]
    fn take_ways(&self, pairs: Pairs<'_>, between: &mut Between)
        requires lanes { L ≤ 16 }
        requires pairs { ArePairs (length pairs.first.now) (length self.now.particles) pairs }
        requires inside { AreInside self.now.limit self.now.particles }
        ensures { (j : ℕ) → j < length pairs.entry.first.now → IsWay (row_in between.new.ways j)
            (particle_at self.now.particles (index_at pairs.entry.first.now j)).at
            (particle_at self.now.particles (index_at pairs.entry.second.now j)).at }
    {
        put_ways(self.columns.place_rows(), pairs, &mut between.ways);
    }

    // Takes the effective weights of the ends.
    #[inline(never)]
    fn take_weights(&self, pairs: Pairs<'_>, between: &mut Between)
        requires lanes { L ≤ 16 }
        requires pairs { ArePairs (length pairs.first.now) (length self.now.particles) pairs }
        ensures ways { between.new.ways ≡ between.old.ways }
        ensures first { (j : ℕ) → j < length pairs.entry.first.now → slice_index_or between.new.first_weight j (pos 0)
            ≡ pos (effective_weight (particle_at self.now.particles (index_at pairs.entry.first.now j))) }
        ensures second { (j : ℕ) → j < length pairs.entry.first.now → slice_index_or between.new.second_weight j (pos 0)
            ≡ pos (effective_weight (particle_at self.now.particles (index_at pairs.entry.second.now j))) }
    {
        for j in 0..pairs.first.len() {
            between.first_weight[j] = self.columns.effective(pairs.first[j]);
            between.second_weight[j] = self.columns.effective(pairs.second[j]);
        }
    }

    // Moves the first ends by the opposite of `back`, and the second ends by `forth`, and tells the reach of the new
    // places.
    #[inline(always)]
    fn pull_ends(&mut self, pairs: Pairs<'_>, back: &[Row], forth: &[Row]) -> Reach
        requires lanes { L ≤ 16 }
        requires pairs { ArePairs (length pairs.first.now) (length self.old.particles) pairs }
        requires apart { PairsApart (length pairs.first.now) pairs }
        requires inside { AreInside self.old.limit self.old.particles }
        requires back { AreShort (length pairs.first.now) back.now }
        requires forth { AreShort (length pairs.first.now) forth.now }
        ensures particles { Parted (length pairs.entry.first.now) pairs.entry.first.now pairs.entry.second.now
            (opposites_in back.now) (ways_in forth.now)
            self.old.particles self.new.particles }
        ensures covered { CoversEnds (length pairs.entry.first.now) pairs.entry.first.now pairs.entry.second.now
            (opposites_in back.now) (ways_in forth.now) result self.old.limit (λ i. (particle_at self.old.particles i).at) }
        ensures limit { self.new.limit ≡ self.old.limit }
        ensures copies { self.new.copies ≡ self.old.copies }
        ensures fixed { fixed_parts self.new.particles ≡ fixed_parts self.old.particles }
    {
        self.columns
            .pull(pairs, RowMoves { back, forth }, self.limit)
    }

    // The first pair of which an end is outside the limit.
    #[inline(never)]
    fn find_outside(&self, pairs: Pairs<'_>) -> Result<(), usize>
        requires lanes { L ≤ 16 }
        requires pairs { ArePairs (length pairs.first.now) (length self.now.particles) pairs }
        ensures { MatchResult result
            (λ _. (j : ℕ) → j < length pairs.entry.first.now → IsTrue (ends_within self.now.limit self.now.particles
            pairs.entry.first.now pairs.entry.second.now j))
            (λ k. OutsideAt k (length pairs.entry.first.now) self.now.limit self.now.particles
            pairs.entry.first.now pairs.entry.second.now) }
    {
        for j in 0..pairs.first.len() {
            let ends = self.ends_of(pairs.first[j], pairs.second[j]);
            let inside = both_within(ends, self.limit);
            if !inside {
                return Err(j);
            }
        }
        Ok(())
    }

    // The places of two particles.
    #[inline(always)]
    fn ends_of(&self, first: u32, second: u32) -> EndMoves
        requires first { first < length self.now.particles }
        requires second { second < length self.now.particles }
        ensures first { result.first ≡ (particle_at self.now.particles first).at }
        ensures second { result.second ≡ (particle_at self.now.particles second).at }
    {
        EndMoves {
            first: self.columns.get(first as usize).at,
            second: self.columns.get(second as usize).at,
        }
    }

    // Moves two particles if both stay within the limit.
    #[inline(always)]
    fn move_pair(&mut self, first: u32, second: u32, moves: EndMoves) -> bool
        requires lanes { L ≤ 16 }
        requires first { first < length self.old.particles }
        requires second { second < length self.old.particles }
        requires first_place { Within (unsigned_abs self.old.limit) (particle_at self.old.particles first).at }
        requires second_place { Within (unsigned_abs self.old.limit) (particle_at self.old.particles second).at }
        requires first_move { Within (2 ^ 31) moves.first }
        requires second_move { Within (2 ^ 31) moves.second }
        ensures test { result ≡ (is_within self.old.limit (plus (particle_at self.old.particles first).at moves.first)
            && is_within self.old.limit (plus (particle_at self.old.particles second).at moves.second)) }
        ensures particles { self.new.particles ≡ (if result
            then placed (placed self.old.particles first (plus (particle_at self.old.particles first).at moves.first))
            second (plus (particle_at self.old.particles second).at moves.second)
            else self.old.particles) }
        ensures limit { self.new.limit ≡ self.old.limit }
        ensures copies { self.new.copies ≡ self.old.copies }
    {
        let ends = self.ends_of(first, second);
        let goals = moved(ends, moves);
        if !both_within(goals, self.limit) {
            return false;
        }
        self.columns.place(first as usize, goals.first);
        self.columns.place(second as usize, goals.second);
        true
    }

    /// What lies between the ends of up to 128 pairs.
    pub fn between<G: Ledger>(&self, pairs: Pairs<'_>, between: &mut Between, steps: &mut Steps<G>)
        requires some_lanes { 0 < L }
        requires lanes { L ≤ 16 }
        requires pairs { ArePairs (length pairs.first.now) (length self.now.particles) pairs }
        requires inside { AreInside self.now.limit self.now.particles }
        ensures value { AreBetween (length pairs.entry.first.now) self.now.particles
            pairs.entry.first.now pairs.entry.second.now between.new }
        ensures cost { steps.new ≡ steps.old + 2 * blocks_of (length pairs.entry.first.now) L }
    {
        steps.add(accesses(pairs.first.len(), L));
        self.take_ways(pairs, between);
        self.take_weights(pairs, between);
    }

    /// The ways between the ends of up to 128 pairs alone.
    pub fn ways<G: Ledger>(&self, pairs: Pairs<'_>, between: &mut Between, steps: &mut Steps<G>)
        requires some_lanes { 0 < L }
        requires lanes { L ≤ 16 }
        requires pairs { ArePairs (length pairs.first.now) (length self.now.particles) pairs }
        requires inside { AreInside self.now.limit self.now.particles }
        ensures value { (j : ℕ) → j < length pairs.entry.first.now → IsWay (row_in between.new.ways j)
            (particle_at self.now.particles (index_at pairs.entry.first.now j)).at
            (particle_at self.now.particles (index_at pairs.entry.second.now j)).at }
        ensures cost { steps.new ≡ steps.old + 2 * blocks_of (length pairs.entry.first.now) L }
    {
        steps.add(accesses(pairs.first.len(), L));
        self.take_ways(pairs, between);
    }

    /// Moves the first ends of up to 128 pairs by the opposite of `back`, and the second ends by `forth`. No two ends are one
    /// particle, and no axis of a move is above 2^22 in size. The error is the number of the first pair of which an end has
    /// left the limit.
    #[inline(never)]
    pub fn pull<G: Ledger>(
        &mut self,
        pairs: Pairs<'_>,
        back: &[Row],
        forth: &[Row],
        steps: &mut Steps<G>,
    ) -> Result<(), usize>
        requires some_lanes { 0 < L }
        requires lanes { L ≤ 16 }
        requires pairs { ArePairs (length pairs.first.now) (length self.old.particles) pairs }
        requires apart { PairsApart (length pairs.first.now) pairs }
        requires inside { AreInside self.old.limit self.old.particles }
        requires back { AreShort (length pairs.first.now) back.now }
        requires forth { AreShort (length pairs.first.now) forth.now }
        ensures outcome { MatchResult result
            (λ _. EachMoved (length pairs.entry.first.now) self.old.limit pairs.entry.first.now pairs.entry.second.now
            (opposites_in back.now) (ways_in forth.now) self.old.particles self.new.particles)
            (λ k. LeavesAt k (length pairs.entry.first.now) self.old.limit pairs.entry.first.now pairs.entry.second.now
            (opposites_in back.now) (ways_in forth.now) self.old.particles) }
        ensures limit { self.new.limit ≡ self.old.limit }
        ensures copies { self.new.copies ≡ self.old.copies }
        ensures fixed { fixed_parts self.new.particles ≡ fixed_parts self.old.particles }
        ensures cost { steps.new ≡ steps.old + 2 * blocks_of (length pairs.entry.first.now) L }
    {
        steps.add(accesses(pairs.first.len(), L));
        let reach = self.pull_ends(pairs, back, forth);
        if reach.is_within(self.limit) {
            return Ok(());
        }
        self.find_outside(pairs)
    }

    /// Moves the ends of up to 128 pairs, pair by pair, until one would leave the limit: then its number is told. No two ends
    /// are one particle, and no axis of a move is above 2^31 in size.
    pub fn move_each<G: Ledger>(
        &mut self,
        pairs: Pairs<'_>,
        moves: &[EndMoves],
        steps: &mut Steps<G>,
    ) -> Result<(), usize>
        requires some_lanes { 0 < L }
        requires lanes { L ≤ 16 }
        requires pairs { ArePairs (length pairs.first.now) (length self.old.particles) pairs }
        requires apart { PairsApart (length pairs.first.now) pairs }
        requires inside { AreInside self.old.limit self.old.particles }
        requires moves { AreMoves (length pairs.first.now) moves.now }
        ensures outcome { MatchResult result
            (λ _. EachMoved (length pairs.entry.first.now) self.old.limit pairs.entry.first.now pairs.entry.second.now
            (first_moves moves.now) (second_moves moves.now) self.old.particles self.new.particles)
            (λ k. LeavesAt k (length pairs.entry.first.now) self.old.limit pairs.entry.first.now pairs.entry.second.now
            (first_moves moves.now) (second_moves moves.now) self.old.particles) }
        ensures limit { self.new.limit ≡ self.old.limit }
        ensures copies { self.new.copies ≡ self.old.copies }
        ensures fixed { fixed_parts self.new.particles ≡ fixed_parts self.old.particles }
        ensures cost { steps.new ≡ steps.old + 2 * blocks_of (length pairs.entry.first.now) L }
    {
        steps.add(accesses(pairs.first.len(), L));
        for j in 0..pairs.first.len() {
            let stays = self.move_pair(pairs.first[j], pairs.second[j], moves[j]);
            if !stays {
                return Err(j);
            }
        }
        Ok(())
    }
}
