// The bonds of a chunk, each corrected exactly.
ghost use Rattle.std.specs.Prelude.{◌≡◌, ℕ, ◌+◌, ◌*◌, ◌<◌, ◌≤◌, ◌^◌, pos, ◌≤ℤ◌, length, slice_index_or, OnOk};
ghost use Rattle.pbd_pair.specs.Prelude.{blocks_of, fixed_parts, ledger_of, moves_in, opposite, vector_of, HaveRoom, Within};
ghost use Rattle.pbd_pair.specs.Bonds.{bond_of, bond_count};
ghost use Rattle.pbd_pair.specs.Projecting.{CanProject, ComesTo, StaysSound};
ghost use Rattle.pbd_pair.specs.Moves.{moves_by, settled};
ghost use Rattle.pbd_pair.specs.Laid.{IsFirm};
ghost use Rattle.pbd_pair.specs.Chunks.{entries_in, kept_by, lying_in, unplaced, AreExact, AreKnown, AreSized, AreTried, AreWeights, IsExact, IsFound, IsNear};

use crate::book::{HeldEnds, book};
use crate::chunk::{Found, left_at};
use crate::wide::{pull_of, weights_of};
use pbd_num::{CHUNK, Row, Vec3, Weights, moves_along};
use pbd_store::{EndMoves, Steps, Store};
use pbd_world::{Bond, Left, Shift, Totals};
use std::sync::ledger::Ledger;

/// No moves.
pub(crate) const NO_MOVES: EndMoves = EndMoves {
    first: Vec3::ZERO,
    second: Vec3::ZERO,
};

/// The moves of two ends.
pub(crate) fn exact_moves(way: Vec3, bond: Bond, weights: Weights) -> EndMoves
    requires way { Within (2 ^ 30) way }
    requires bond { IsFirm bond }
    requires weights { AreWeights weights }
    ensures moves { (result.first, result.second) ≡ moves_by way weights.first weights.second bond }
    ensures first { Within (2 ^ 31) result.first }
    ensures second { Within (2 ^ 31) result.second }
{
    let (first, second) = moves_along(way, pull_of(bond), weights);
    EndMoves { first, second }
}

// A row where an end is free, and nothing where it is held.
#[inline(always)]
fn kept(weight: i64, row: Row) -> Vec3
    ensures { result ≡ vector_of (kept_by weight row) }
{
    let free = 0 < weight;
    if free { row.vector() } else { Vec3::ZERO }
}

/// What a row without a flag tells of two ends.
#[inline(always)]
pub(crate) fn row_moves(row: Row, weights: Weights) -> EndMoves
    requires { Within (2 ^ 22) (vector_of row) }
    ensures first { result.first ≡ opposite (vector_of (kept_by weights.first row)) }
    ensures second { result.second ≡ vector_of (kept_by weights.second row) }
{
    let back = kept(weights.first, row);
    EndMoves {
        first: back.opposite(),
        second: kept(weights.second, row),
    }
}

// The moves of two ends, by what a row of the bond tells where it has no flag.
#[inline(always)]
fn moves_of(row: Row, way: Vec3, bond: Bond, weights: Weights) -> EndMoves
    requires row { row.flag ≡ pos 0 → IsNear way weights.first weights.second bond row }
    requires way { Within (2 ^ 30) way }
    requires bond { IsFirm bond }
    requires weights { AreWeights weights }
    ensures { IsExact way weights.first weights.second bond result }
{
    let told = row.flag == 0;
    if told {
        return row_moves(row, weights);
    }
    exact_moves(way, bond, weights)
}

/// The moves of a chunk's bonds, one by one, from rows that tell those of some of them.
#[inline(never)]
pub(crate) fn exact_each(found: &Found<'_>, rows: &[Row; CHUNK], moves: &mut [EndMoves; CHUNK])
    requires known { AreKnown found.now.chunk.bonds found.now.chunk.numbers.now }
    requires first_long { length found.now.laid.first_weight.now ≡ length found.now.chunk.numbers.now }
    requires second_long { length found.now.laid.second_weight.now ≡ length found.now.chunk.numbers.now }
    requires sized { AreSized (length found.now.chunk.numbers.now) (lying_in found.now) }
    requires tried { AreTried (bond_of found.now.chunk.bonds) found.now.chunk.numbers.now (lying_in found.now) rows.now }
    ensures { AreExact found.now moves.new }
{
    for (j, n) in found.chunk.numbers.iter().enumerate() {
        let way = found.ways[j].vector();
        let weights = weights_of(found.laid.first_weight[j], found.laid.second_weight[j]);
        moves[j] = moves_of(rows[j], way, found.chunk.bonds.get(*n), weights);
    }
}

// Moves as a shift: the ledger has no use for its places.
#[inline(always)]
fn as_shift(moves: EndMoves) -> Shift
    ensures { result ≡ unplaced moves.first moves.second }
{
    Shift {
        first: Vec3::ZERO,
        second: Vec3::ZERO,
        first_move: moves.first,
        second_move: moves.second,
    }
}

/// Adds the moves of a chunk's bonds to the totals.
#[inline(never)]
pub(crate) fn book_each(totals: &mut Totals, found: &Found<'_>, moves: &[EndMoves; CHUNK])
    requires few { length found.now.chunk.numbers.now ≤ 128 }
    requires first_long { length found.now.laid.first_weight.now ≡ length found.now.chunk.numbers.now }
    requires second_long { length found.now.laid.second_weight.now ≡ length found.now.chunk.numbers.now }
    requires sized { AreSized (length found.now.chunk.numbers.now) (lying_in found.now) }
    requires numbers { (j : ℕ) → j < length found.now.chunk.numbers.now
        → slice_index_or found.now.chunk.numbers.now j 0 < bond_count found.now.chunk.bonds }
    requires room { HaveRoom (2 ^ 124) (ledger_of totals.old) }
    requires first { (j : ℕ) → j < length found.now.chunk.numbers.now → Within (2 ^ 31) (moves_in moves.now j).first }
    requires second { (j : ℕ) → j < length found.now.chunk.numbers.now → Within (2 ^ 31) (moves_in moves.now j).second }
    ensures value { ledger_of totals.new
        ≡ settled (entries_in found.now moves.now) (length found.now.chunk.numbers.now) (ledger_of totals.old) }
    ensures room { (n : ℕ) → HaveRoom n (ledger_of totals.old)
        → HaveRoom (n + length found.now.chunk.numbers.now * 2 ^ 32) (ledger_of totals.new) }
{
    for (j, n) in found.chunk.numbers.iter().enumerate() {
        let held = HeldEnds {
            first: found.laid.first_weight[j] <= 0,
            second: found.laid.second_weight[j] <= 0,
        };
        book(totals, held, found.chunk.bonds.get(*n), as_shift(moves[j]));
    }
}
