// Pairs of rows: the ways between them, and how they are pulled. What a loop reads is in slices of its own, so that no write
// makes it read anew where they lie.
ghost use Rattle.std.specs.Prelude.{◌≡◌, ℕ, ◌<◌, ◌≤◌, ◌^◌, ◌≤ℤ◌, pos, length, unsigned_abs};
ghost use Rattle.pbd_num.specs.Vectors.{Within};
ghost use Rattle.pbd_world.specs.Particles.{particle_at};
ghost use Rattle.pbd_store.specs.Gathering.{index_at};
ghost use Rattle.pbd_store.specs.InRows.{places_in, AreFlat};
ghost use Rattle.pbd_store.specs.Listed.{place_at};
ghost use Rattle.pbd_store.specs.Moving.{fixed_parts};
ghost use Rattle.pbd_store.specs.Pairs.{ArePairs, PairsApart, CanPull, Parted, PlacesParted, IsWay, row_in, ways_in, opposites_in};
ghost use Rattle.pbd_store.specs.Reaching.{CoversEnds};

use crate::columns::Columns;
use crate::pairs::Pairs;
use crate::reach::Reach;
use crate::rows::{Place, PlaceRows, put_row, row_in};
use pbd_num::{CHUNK, Row};

/// The moves of pairs: the opposites of those of the first ends, and those of the second.
#[derive(Clone, Copy)]
pub(crate) struct RowMoves<'a> {
    pub(crate) back: &'a [Row],
    pub(crate) forth: &'a [Row],
}

/// Puts the ways from the second rows of pairs to the first.
#[inline(always)]
pub(crate) fn put_ways(rows: &[Place], pairs: Pairs<'_>, ways: &mut [Row; CHUNK])
    requires pairs { ArePairs (length pairs.first.now) (length rows.now) pairs }
    requires flat { AreFlat rows.now }
    requires first { (j : ℕ) → j < length pairs.first.now
        → Within (2 ^ 29) (place_at (places_in rows.now) (index_at pairs.first.now j)) }
    requires second { (j : ℕ) → j < length pairs.first.now
        → Within (2 ^ 29) (place_at (places_in rows.now) (index_at pairs.second.now j)) }
    ensures { (j : ℕ) → j < length pairs.entry.first.now → IsWay (row_in ways.new j)
        (place_at (places_in rows.now) (index_at pairs.entry.first.now j))
        (place_at (places_in rows.now) (index_at pairs.entry.second.now j)) }
{
    let first = pairs.first;
    let second = pairs.second;
    for j in 0..first.len() {
        let to = row_in(rows, first[j]);
        let from = row_in(rows, second[j]);
        ways[j] = to.way_from(from);
    }
}

// Moves the first rows of pairs by the opposite of `back`, and the second by `forth`, and tells the reach of the new places.
#[inline(always)]
fn pull_rows(rows: &mut [Place], pairs: Pairs<'_>, moves: RowMoves<'_>, limit: i64) -> Reach
    requires pairs { ArePairs (length pairs.first.now) (length rows.old) pairs }
    requires apart { PairsApart (length pairs.first.now) pairs }
    requires flat { AreFlat rows.old }
    requires first { (j : ℕ) → j < length pairs.first.now
        → Within (2 ^ 29) (place_at (places_in rows.old) (index_at pairs.first.now j)) }
    requires second { (j : ℕ) → j < length pairs.first.now
        → Within (2 ^ 29) (place_at (places_in rows.old) (index_at pairs.second.now j)) }
    requires can { CanPull (length pairs.first.now) moves limit }
    ensures places { PlacesParted (length pairs.entry.first.now) pairs.entry.first.now pairs.entry.second.now
        (opposites_in moves.entry.back.now) (ways_in moves.entry.forth.now) (places_in rows.old) (places_in rows.new) }
    ensures flat { AreFlat rows.new }
    ensures covered { CoversEnds (length pairs.entry.first.now) pairs.entry.first.now pairs.entry.second.now
        (opposites_in moves.entry.back.now) (ways_in moves.entry.forth.now) result limit (place_at (places_in rows.old)) }
{
    let first = pairs.first;
    let second = pairs.second;
    let back = moves.back;
    let forth = moves.forth;
    let mut reach = Reach::NONE;
    for j in 0..first.len() {
        let one = row_in(rows, first[j]).minus(back[j]);
        put_row(rows, first[j], one);
        let other = row_in(rows, second[j]).plus(forth[j]);
        put_row(rows, second[j], other);
        reach = reach.with(one, limit).with(other, limit);
    }
    reach
}

impl PlaceRows {
    /// Moves the first places of pairs by the opposite of `back`, and the second by `forth`, and tells the reach of the new ones.
    #[inline(always)]
    fn pull(&mut self, pairs: Pairs<'_>, moves: RowMoves<'_>, limit: i64) -> Reach
        requires pairs { ArePairs (length pairs.first.now) (length self.old) pairs }
        requires apart { PairsApart (length pairs.first.now) pairs }
        requires first { (j : ℕ) → j < length pairs.first.now → Within (2 ^ 29) (place_at self.old (index_at pairs.first.now j)) }
        requires second { (j : ℕ) → j < length pairs.first.now → Within (2 ^ 29) (place_at self.old (index_at pairs.second.now j)) }
        requires can { CanPull (length pairs.first.now) moves limit }
        ensures places { PlacesParted (length pairs.entry.first.now) pairs.entry.first.now pairs.entry.second.now
            (opposites_in moves.entry.back.now) (ways_in moves.entry.forth.now) self.old self.new }
        ensures covered { CoversEnds (length pairs.entry.first.now) pairs.entry.first.now pairs.entry.second.now
            (opposites_in moves.entry.back.now) (ways_in moves.entry.forth.now) result limit (place_at self.old) }
    {
        pull_rows(self.low.as_mut_slice(), pairs, moves, limit)
    }
}

impl<const L: usize> Columns<L> {
    /// Moves the first ends of pairs by the opposite of `back`, and the second by `forth`, and tells the reach of the new places.
    #[inline(always)]
    pub(crate) fn pull(&mut self, pairs: Pairs<'_>, moves: RowMoves<'_>, limit: i64) -> Reach
        requires lanes { L ≤ 16 }
        requires pairs { ArePairs (length pairs.first.now) (length self.old) pairs }
        requires apart { PairsApart (length pairs.first.now) pairs }
        requires inside { (i : ℕ) → i < length self.old → Within (2 ^ 29) (particle_at self.old i).at }
        requires can { CanPull (length pairs.first.now) moves limit }
        ensures particles { Parted (length pairs.entry.first.now) pairs.entry.first.now pairs.entry.second.now
            (opposites_in moves.entry.back.now) (ways_in moves.entry.forth.now) self.old self.new }
        ensures covered { CoversEnds (length pairs.entry.first.now) pairs.entry.first.now pairs.entry.second.now
            (opposites_in moves.entry.back.now) (ways_in moves.entry.forth.now) result limit (λ i. (particle_at self.old i).at) }
        ensures fixed { fixed_parts self.new ≡ fixed_parts self.old }
    {
        self.at.pull(pairs, moves, limit)
    }
}
