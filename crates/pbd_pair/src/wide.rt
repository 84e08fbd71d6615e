// The bonds of a chunk in 64-bit numbers.
ghost use Rattle.std.specs.Prelude.{◌≡◌, ℕ, ◌/◌, ◌<◌, ◌≤◌, ◌^◌, pos, neg_ℤ, ◌<ℤ◌, ◌≤ℤ◌, length, unsigned_abs, IsTrue, if◌then◌else◌};
ghost use Rattle.pbd_pair.specs.Prelude.{opposite, vector_of, Within};
ghost use Rattle.pbd_pair.specs.Bonds.{bond_of};
ghost use Rattle.pbd_pair.specs.Laid.{number_in, IsFirm};
ghost use Rattle.pbd_pair.specs.Chunks.{pull_by, lying_in, ArePulled, AreInColumns, AreKnown, AreRightIf, AreSized, AreWeights, HoldsFactor, HoldsRest, IsPull, IsMild, IsNear};

use crate::chunk::{Chunk, Found};
use pbd_num::{CHUNK, Pull, Row, Vec3, Weights, try_moves};
use pbd_world::Bond;

// The length from which on a bond does nothing. No length is 2^31.
#[inline(always)]
fn reach(contact: bool, rest: i64) -> i64
    ensures { result ≡ (if contact then rest else pos (2 ^ 31)) }
{
    if contact { rest } else { 2_147_483_648 }
}

/// What a bond pulls its ends to.
#[inline(always)]
pub(crate) fn pull_of(bond: Bond) -> Pull
    ensures { result ≡ pull_by bond }
{
    Pull {
        rest: bond.rest,
        k: bond.k,
        reach: reach(bond.contact, bond.rest),
    }
}

/// Two weights.
#[inline(always)]
pub(crate) fn weights_of(first: i32, second: i32) -> Weights
    ensures first { result.first ≡ first }
    ensures second { result.second ≡ second }
{
    Weights {
        first: i64::from(first),
        second: i64::from(second),
    }
}

#[inline(always)]
fn short_axis(axis: i64) -> i32
    requires { unsigned_abs axis ≤ 2 ^ 31 }
    ensures { unsigned_abs result ≤ 2 ^ 22 → result ≡ axis }
{
    axis.min(2_147_483_647) as i32
}

#[inline(always)]
fn is_short(axis: i32) -> bool
    ensures { IsTrue result → unsigned_abs axis ≤ 2 ^ 22 }
{
    (-4_194_304 <= axis) & (axis <= 4_194_304)
}

#[inline(always)]
fn flag_of(exact: bool) -> i32
    ensures exact { result ≡ pos 0 → IsTrue exact }
    ensures size { unsigned_abs result ≤ 1 }
{
    if exact { 0 } else { 1 }
}

/// A move as a row. It has flag 0 only where the move is exact, and at most 64 metres on each axis.
#[inline(always)]
pub(crate) fn row_of(axes: Vec3, exact: bool) -> Row
    requires { Within (2 ^ 31) axes }
    ensures exact { result.flag ≡ pos 0 → IsTrue exact }
    ensures value { result.flag ≡ pos 0 → vector_of result ≡ axes }
    ensures size { result.flag ≡ pos 0 → Within (2 ^ 22) (vector_of result) }
    ensures flag { unsigned_abs result.flag ≤ 1 }
{
    let x = short_axis(axes.x);
    let y = short_axis(axes.y);
    let z = short_axis(axes.z);
    let short = is_short(x) & is_short(y) & is_short(z);
    Row {
        x,
        y,
        z,
        flag: flag_of(exact & short),
    }
}

/// The move of the second end, or the opposite of that of the first where the second is held.
#[inline(always)]
pub(crate) fn free_move(first: Vec3, second: Vec3, weight: i64) -> Vec3
    requires first { Within (2 ^ 31) first }
    requires second { Within (2 ^ 31) second }
    ensures free { pos 0 <ℤ weight → result ≡ second }
    ensures held { weight ≤ℤ pos 0 → result ≡ opposite first }
    ensures size { Within (2 ^ 31) result }
{
    let back = first.opposite();
    if 0 < weight { second } else { back }
}

// The move of two ends as a row, whose flag is 0 only where it is exact.
#[inline(always)]
fn wide_row(way: Vec3, pull: Pull, weights: Weights) -> Row
    requires way { Within (2 ^ 30) way }
    requires pull { IsMild pull }
    requires weights { AreWeights weights }
    ensures near { (b : Bond) → pull ≡ pull_by b → result.flag ≡ pos 0 → IsNear way weights.first weights.second b result }
    ensures flag { unsigned_abs result.flag ≤ 1 }
{
    let tried = try_moves(way, pull, weights);
    let axes = free_move(tried.first, tried.second, weights.second);
    row_of(axes, tried.exact)
}

// What the bonds of a chunk pull their ends to.
#[inline(never)]
fn put_pulls(chunk: &Chunk<'_>, pulls: &mut [Pull; CHUNK])
    requires { AreKnown chunk.now.bonds chunk.now.numbers.now }
    ensures { ArePulled (bond_of chunk.now.bonds) chunk.now.numbers.now pulls.new }
{
    for (j, n) in chunk.numbers.iter().enumerate() {
        pulls[j] = pull_of(chunk.bonds.get(*n));
    }
}

// The moves of the bonds. True where no row is flagged. Each `if` in it only picks one of two numbers, and it reads through slices
// of its own, so that the compiler can make vectors of it.
#[inline(never)]
fn put_rows(found: &Found<'_>, pulls: &[Pull; CHUNK], rows: &mut [Row; CHUNK]) -> bool
    requires known { AreKnown found.now.chunk.bonds found.now.chunk.numbers.now }
    requires first_long { length found.now.laid.first_weight.now ≡ length found.now.chunk.numbers.now }
    requires second_long { length found.now.laid.second_weight.now ≡ length found.now.chunk.numbers.now }
    requires sized { AreSized (length found.now.chunk.numbers.now) (lying_in found.now) }
    requires pulled { ArePulled (bond_of found.now.chunk.bonds) found.now.chunk.numbers.now pulls.now }
    ensures { AreRightIf result found.now rows.new }
{
    let laid = found.laid;
    let ways = found.ways;
    let mut all = true;
    for j in 0..found.chunk.numbers.len() {
        let weights = weights_of(laid.first_weight[j], laid.second_weight[j]);
        let row = wide_row(ways[j].vector(), pulls[j], weights);
        all = all & (row.flag == 0);
        rows[j] = row;
    }
    all
}

// The stiffness of a short bond whose ends have these weights.
#[inline(always)]
fn stiffness_by(factor: i64, weights: Weights) -> i64
    requires { pos 0 ≤ℤ factor }
    ensures both { pos 0 <ℤ weights.first → pos 0 <ℤ weights.second → result ≡ factor }
    ensures first { weights.first ≤ℤ pos 0 → result ≡ pos (unsigned_abs factor / 2) }
    ensures second { weights.second ≤ℤ pos 0 → result ≡ pos (unsigned_abs factor / 2) }
{
    let both = (0 < weights.first) & (0 < weights.second);
    if both { factor } else { factor / 2 }
}

// What a short bond pulls its ends to, by its columns.
#[inline(always)]
fn short_pull(rest: i32, factor: i32, weights: Weights, contact: bool) -> Pull
    requires first { pos 0 ≤ℤ weights.first }
    requires second { pos 0 ≤ℤ weights.second }
    requires factor { pos 0 ≤ℤ factor }
    ensures { (b : Bond) → IsFirm b → HoldsRest b rest → HoldsFactor b weights.first weights.second factor → b.contact ≡ contact
        → IsPull b result }
{
    let rest = i64::from(rest);
    Pull {
        rest,
        k: stiffness_by(i64::from(factor), weights),
        reach: reach(contact, rest),
    }
}

// The moves of short bonds, as `put_rows` has them.
#[inline(never)]
fn put_short_rows(found: &Found<'_>, rows: &mut [Row; CHUNK]) -> bool
    requires known { AreKnown found.now.chunk.bonds found.now.chunk.numbers.now }
    requires columns { AreInColumns found.now }
    requires short { (j : ℕ) → j < length found.now.chunk.numbers.now → pos 0 ≤ℤ number_in found.now.laid.factor.now j }
    ensures { AreRightIf result found.now rows.new }
{
    let contact = found.chunk.bonds.are_contacts();
    let laid = found.laid;
    let ways = found.ways;
    let mut all = true;
    for j in 0..found.chunk.numbers.len() {
        let weights = weights_of(laid.first_weight[j], laid.second_weight[j]);
        let pull = short_pull(laid.rest[j], laid.factor[j], weights, contact);
        let row = wide_row(ways[j].vector(), pull, weights);
        all = all & (row.flag == 0);
        rows[j] = row;
    }
    all
}

// The moves of any bonds, as `put_rows` has them.
#[inline(never)]
fn put_pulled_rows(found: &Found<'_>, rows: &mut [Row; CHUNK]) -> bool
    requires known { AreKnown found.now.chunk.bonds found.now.chunk.numbers.now }
    requires columns { AreInColumns found.now }
    ensures { AreRightIf result found.now rows.new }
{
    let none = Pull {
        rest: 0,
        k: 0,
        reach: 0,
    };
    let mut pulls = [none; CHUNK];
    put_pulls(&found.chunk, &mut pulls);
    put_rows(found, &pulls, rows)
}

/// The least of some factors or stiffnesses, or 512, which none is above.
#[inline(never)]
pub(crate) fn least_of(numbers: &[i32]) -> i32
    requires low { (j : ℕ) → j < length numbers.now → neg_ℤ (pos 1) ≤ℤ number_in numbers.now j }
    requires high { (j : ℕ) → j < length numbers.now → number_in numbers.now j ≤ℤ pos 512 }
    ensures { (j : ℕ) → j < length numbers.now → result ≤ℤ number_in numbers.now j }
{
    let mut least: i32 = 512;
    for j in 0..numbers.len() {
        least = least.min(numbers[j]);
    }
    least
}

/// Tries the moves of a chunk's bonds in 64-bit numbers. True where all of them are exact and short.
pub(crate) fn try_wide(found: &Found<'_>, rows: &mut [Row; CHUNK]) -> bool
    requires known { AreKnown found.now.chunk.bonds found.now.chunk.numbers.now }
    requires columns { AreInColumns found.now }
    ensures { AreRightIf result found.now rows.new }
{
    let short = 0 <= least_of(found.laid.factor);
    if short {
        return put_short_rows(found, rows);
    }
    put_pulled_rows(found, rows)
}

/// Whether the first of a chunk's bonds is on one axis longer than the loops of 32-bit numbers go, so that they needn't be tried.
#[inline(always)]
pub(crate) fn begins_long(found: &Found<'_>) -> bool {
    let way = found.ways[0];
    let size = way.x.unsigned_abs() | way.y.unsigned_abs() | way.z.unsigned_abs();
    32_768 <= size
}
