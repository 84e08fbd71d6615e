// The bonds of a chunk that the loops of 64-bit numbers left, corrected exactly and told by a row each, until one row can't tell the
// moves of a bond.
ghost use Rattle.std.specs.Prelude.{◌≡◌, ◌<◌, ◌≤◌, ◌^◌, pos, ◌<ℤ◌, ◌≤ℤ◌, length, slice_index_or, IsTrue};
ghost use Rattle.pbd_pair.specs.Prelude.{opposite, row_in, vector_of, Within};
ghost use Rattle.pbd_pair.specs.Bonds.{bond_of};
ghost use Rattle.pbd_pair.specs.Laid.{number_in};
ghost use Rattle.pbd_pair.specs.Chunks.{lying_in, AreInColumns, AreKnown, AreRightIf, AreTried, IsNear, IsTold};

use crate::chunk::Found;
use crate::slow::{exact_moves, row_moves};
use crate::wide::{free_move, row_of, try_wide, weights_of};
use pbd_num::{CHUNK, Row, Vec3, Weights};
use pbd_store::EndMoves;

// A row whose flag says that it tells nothing.
const FLAGGED: Row = Row {
    x: 0,
    y: 0,
    z: 0,
    flag: 1,
};

#[inline(always)]
fn are_same(v: Vec3, w: Vec3) -> bool
    ensures { IsTrue result → v ≡ w }
{
    (v.x == w.x) & (v.y == w.y) & (v.z == w.z)
}

// A short row where it tells the moves of both ends, and else a flagged one.
fn checked(row: Row, moves: EndMoves, weights: Weights) -> Row
    requires flag { row.flag ≡ pos 0 }
    requires size { Within (2 ^ 22) (vector_of row) }
    ensures { IsTold weights.first weights.second moves result }
{
    let told = row_moves(row, weights);
    let same = are_same(told.first, moves.first) & are_same(told.second, moves.second);
    if same { row } else { FLAGGED }
}

// Two moves as a row, which is flagged where one row can't tell both, or they are long.
fn told_row(moves: EndMoves, weights: Weights) -> Row
    requires first { Within (2 ^ 31) moves.first }
    requires second { Within (2 ^ 31) moves.second }
    ensures { IsTold weights.first weights.second moves result }
{
    let row = row_of(free_move(moves.first, moves.second, weights.second), true);
    let short = row.flag == 0;
    if short {
        checked(row, moves, weights)
    } else {
        FLAGGED
    }
}

// The row of bond j of a chunk, found exactly where the one that was tried is flagged.
#[inline(always)]
fn mended(found: &Found<'_>, j: usize, row: Row) -> Row
    requires one { j < length found.now.chunk.numbers.now }
    requires known { AreKnown found.now.chunk.bonds found.now.chunk.numbers.now }
    requires columns { AreInColumns found.now }
    requires row { row.flag ≡ pos 0 → IsNear (vector_of (row_in found.now.ways.now j))
        (number_in found.now.laid.first_weight.now j) (number_in found.now.laid.second_weight.now j)
        (bond_of found.now.chunk.bonds (slice_index_or found.now.chunk.numbers.now j 0)) row }
    ensures { result.flag ≡ pos 0 → IsNear (vector_of (row_in found.now.ways.now j))
        (number_in found.now.laid.first_weight.now j) (number_in found.now.laid.second_weight.now j)
        (bond_of found.now.chunk.bonds (slice_index_or found.now.chunk.numbers.now j 0)) result }
{
    let right = row.flag == 0;
    if right {
        return row;
    }
    let bond = found.chunk.bonds.get(found.chunk.numbers[j]);
    let weights = weights_of(found.laid.first_weight[j], found.laid.second_weight[j]);
    told_row(exact_moves(found.ways[j].vector(), bond, weights), weights)
}

// Finds the flagged rows of a chunk exactly, until one row can't tell the moves of a bond. True where each row is right.
#[inline(never)]
fn mend(found: &Found<'_>, rows: &mut [Row; CHUNK]) -> bool
    requires known { AreKnown found.now.chunk.bonds found.now.chunk.numbers.now }
    requires columns { AreInColumns found.now }
    requires tried { AreTried (bond_of found.now.chunk.bonds) found.now.chunk.numbers.now (lying_in found.now) rows.old }
    ensures { AreRightIf result found.now rows.new }
{
    for j in 0..found.chunk.numbers.len() {
        let row = mended(found, j, rows[j]);
        rows[j] = row;
        let flagged = row.flag != 0;
        if flagged {
            return false;
        }
    }
    true
}

/// Tries the moves of a chunk's bonds in 64-bit numbers, and mends those that don't come out of them. True where each row is
/// right.
pub(crate) fn try_rows(found: &Found<'_>, rows: &mut [Row; CHUNK]) -> bool
    requires known { AreKnown found.now.chunk.bonds found.now.chunk.numbers.now }
    requires columns { AreInColumns found.now }
    ensures { AreRightIf result found.now rows.new }
{
    if try_wide(found, rows) {
        return true;
    }
    mend(found, rows)
}
