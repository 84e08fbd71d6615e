//! What the ends of a chunk's bonds move by together, in two sums: of the bonds with a held end, and of the others.
ghost use Rattle.std.specs.Prelude.{◌≡◌, ℕ, ◌*◌, ◌<◌, ◌≤◌, ◌^◌, ◌+ℤ◌, neg_ℤ, pos, length, unsigned_abs, if◌then◌else◌, not};
ghost use Rattle.pbd_pair.specs.Prelude.{plus, row_in, vector_of, Within};
ghost use Rattle.pbd_pair.specs.Moves.{moved_below};
ghost use Rattle.pbd_pair.specs.Laid.{number_in};
ghost use Rattle.pbd_pair.specs.Chunks.{has_held, lying_in, moved_if, AreSized};

use crate::chunk::Found;
use pbd_num::{CHUNK, Row, Vec3};

/// What the ends of bonds move by together.
#[derive(Clone, Copy)]
pub(crate) struct MoveSums {
    /// Of the bonds with a held end.
    pub(crate) pins: Vec3,
    /// Of the others.
    pub(crate) own: Vec3,
}

// What two ends move by together on one axis, where that counts.
#[inline(always)]
fn moved_if(counts: bool, back: i32, forth: i32) -> i32
    requires back { unsigned_abs back ≤ 2 ^ 22 }
    requires forth { unsigned_abs forth ≤ 2 ^ 22 }
    ensures value { result ≡ (if counts then neg_ℤ back +ℤ forth else pos 0) }
    ensures size { unsigned_abs result ≤ 2 ^ 23 }
{
    if counts { forth - back } else { 0 }
}

// A sum of moves, and what two ends move more where that counts.
#[inline(always)]
fn with_rows_if(counts: bool, sum: Row, back: Row, forth: Row) -> Row
    requires sum { Within (2 ^ 30) (vector_of sum) }
    requires back { Within (2 ^ 22) (vector_of back) }
    requires forth { Within (2 ^ 22) (vector_of forth) }
    ensures { vector_of result ≡ plus (vector_of sum) (moved_if counts back forth) }
{
    let x = moved_if(counts, back.x, forth.x);
    let y = moved_if(counts, back.y, forth.y);
    let z = moved_if(counts, back.z, forth.z);
    Row {
        x: sum.x + x,
        y: sum.y + y,
        z: sum.z + z,
        flag: 0,
    }
}

#[inline(always)]
fn has_held(first: i32, second: i32) -> bool
    ensures { result ≡ has_held first second }
{
    (first <= 0) | (second <= 0)
}

/// Sums what the ends of a chunk's bonds move by: `back` are the opposites of the moves of the first ends, and `forth` the
/// moves of the second ends. They come to at most 2^30, so that 32 bits hold them.
#[inline(never)]
pub(crate) fn sums_of(found: &Found<'_>, back: &[Row; CHUNK], forth: &[Row; CHUNK]) -> MoveSums
    requires few { length found.now.chunk.numbers.now ≤ 128 }
    requires first_long { length found.now.laid.first_weight.now ≡ length found.now.chunk.numbers.now }
    requires second_long { length found.now.laid.second_weight.now ≡ length found.now.chunk.numbers.now }
    requires sized { AreSized (length found.now.chunk.numbers.now) (lying_in found.now) }
    requires back { (j : ℕ) → j < length found.now.chunk.numbers.now → Within (2 ^ 22) (vector_of (row_in back.now j)) }
    requires forth { (j : ℕ) → j < length found.now.chunk.numbers.now → Within (2 ^ 22) (vector_of (row_in forth.now j)) }
    ensures pins { result.pins ≡ moved_below (λ j. moved_if (has_held (number_in found.now.laid.first_weight.now j)
        (number_in found.now.laid.second_weight.now j)) (row_in back.now j) (row_in forth.now j)) (length found.now.chunk.numbers.now) }
    ensures own { result.own ≡ moved_below (λ j. moved_if (not (has_held (number_in found.now.laid.first_weight.now j)
        (number_in found.now.laid.second_weight.now j))) (row_in back.now j) (row_in forth.now j)) (length found.now.chunk.numbers.now) }
    ensures pins_size { Within (length found.now.chunk.numbers.now * 2 ^ 23) result.pins }
    ensures own_size { Within (length found.now.chunk.numbers.now * 2 ^ 23) result.own }
{
    let mut pins = Row::ZERO;
    let mut own = Row::ZERO;
    let count = found
        .laid
        .first_weight
        .len()
        .min(found.laid.second_weight.len());
    for j in 0..count.min(CHUNK) {
        let held = has_held(found.laid.first_weight[j], found.laid.second_weight[j]);
        pins = with_rows_if(held, pins, back[j], forth[j]);
        own = with_rows_if(!held, own, back[j], forth[j]);
    }
    MoveSums {
        pins: pins.vector(),
        own: own.vector(),
    }
}
