//! Whole-number vectors, rounded division, square roots and the correction of one pair.
#![tactic(auto)]

ghost use Rattle.std.specs.Prelude.{◌≡◌, ◌↔◌, ◌≤◌, ◌<◌, ◌^◌, ◌+◌, ◌*◌, pos, ◌-ℤ◌, ◌*ℤ◌, ◌<ℤ◌, ◌≤ℤ◌, IsTrue, unsigned_abs};
ghost use Rattle.pbd_num.specs.Rounding.{rdiv as rounded, root as whole_root};
ghost use Rattle.pbd_num.specs.Vectors.{Within, minus, squared_length, length_of, opposite, zero_vector, is_axis_within, is_within};
ghost use Rattle.pbd_num.specs.PairMove.{corrections, shares, pair_moves};

mod laws;
mod near;
mod row;
mod tried;
mod vectors;

pub use laws::{
    axes_are_within_the_length, equal_weights_move_oppositely, moves_go_by_the_way,
    roots_are_greatest, rounding_is_odd,
};
use near::near_root;
pub use row::Row;
use tried::is_root;
pub use tried::{Pull, TriedMoves, Weights, try_moves};
pub use vectors::square;

/// The greatest size of a coordinate, in units of 1/65,536 metre.
pub const RANGE: i64 = 536_870_912;

/// How many constraints go through short loops together at most.
pub const CHUNK: usize = 128;

/// Three whole numbers: a place or a way, in units of 1/65,536 metre.
#[derive(Clone, Copy, Debug, PartialEq, Eq)]
pub struct Vec3 {
    pub x: i64,
    pub y: i64,
    pub z: i64,
}

impl Vec3 {
    pub const ZERO: Vec3 = Vec3 { x: 0, y: 0, z: 0 };
}

/// `n / d`, rounded to the nearest whole number, halves away from zero.
pub fn rdiv(n: i64, d: i64) -> i64
    requires divisor { pos 0 <ℤ d }
    requires divisor_size { unsigned_abs d ≤ 2 ^ 40 }
    requires size { unsigned_abs n ≤ 2 ^ 61 }
    ensures { result ≡ rounded n d }
{
    if n < 0 {
        (2 * n - d) / (2 * d)
    } else {
        (2 * n + d) / (2 * d)
    }
}

/// The first number from `start` down whose square is at most `n`.
fn stepped_down(n: u64, start: u64) -> u64
    requires { start < 2 ^ 32 }
    ensures { result * result ≤ n }
{
    let mut r = start;
    while r * r > n {
        r -= 1;
    }
    r
}

/// The first number from `start` up whose next square is above `n`.
fn stepped_up(n: u64, start: u64) -> u64
    requires square { start * start ≤ n }
    requires size { n < 2 ^ 63 }
    ensures value { result ≡ whole_root n }
    ensures size { result < 2 ^ 32 }
{
    let mut r = start;
    while (r + 1) * (r + 1) <= n {
        r += 1;
    }
    r
}

/// The root of a number, by steps from a guess.
#[inline(never)]
fn stepped_root(n: u64, guess: u64) -> u64
    requires size { n < 2 ^ 63 }
    requires guess { guess < 2 ^ 32 }
    ensures value { result ≡ whole_root n }
    ensures size { result < 2 ^ 32 }
{
    stepped_up(n, stepped_down(n, guess))
}

/// A number near a root: from 2^62 up, where [`near_root`] guesses none, twice that of a fourth.
fn guess_root(n: i64) -> u64
    ensures { result < 2 ^ 32 }
{
    let near = if n < 4_611_686_018_427_387_904 {
        near_root(n).root
    } else {
        2 * near_root(n / 4).root
    };
    near.unsigned_abs()
}

/// The greatest whole number whose square is at most `n`.
pub fn root(n: i64) -> i64
    requires { pos 0 ≤ℤ n }
    ensures { result ≡ pos (whole_root (unsigned_abs n)) }
{
    let near = near_root(n).root;
    if is_root(n, near) {
        near
    } else {
        stepped_root(n.unsigned_abs(), guess_root(n)) as i64
    }
}

/// Whether a number lies in `-limit..=limit`.
#[inline(always)]
pub fn axis_within(n: i64, limit: i64) -> bool
    requires low { pos 0 ≤ℤ limit }
    requires high { unsigned_abs limit ≤ 2 ^ 29 }
    ensures { result ≡ is_axis_within limit n }
{
    (-limit <= n) & (n <= limit)
}

#[inline(always)]
fn axes_within(v: Vec3, limit: i64) -> bool
    requires low { pos 0 ≤ℤ limit }
    requires high { unsigned_abs limit ≤ 2 ^ 29 }
    ensures { result ≡ is_within limit v }
{
    let x = axis_within(v.x, limit);
    let y = axis_within(v.y, limit);
    let z = axis_within(v.z, limit);
    x & y & z
}

/// Whether each axis lies in `-limit..=limit`.
#[inline(always)]
pub fn within(v: Vec3, limit: i64) -> bool
    requires low { pos 0 ≤ℤ limit }
    requires high { unsigned_abs limit ≤ 2 ^ 29 }
    ensures test { result ≡ is_within limit v }
    ensures facts { IsTrue result ↔ Within (unsigned_abs limit) v }
{
    axes_within(v, limit)
}

/// Whether each axis lies in `-RANGE..=RANGE`.
pub fn inside(v: Vec3) -> bool
    ensures test { result ≡ is_within (pos (2 ^ 29)) v }
    ensures facts { IsTrue result ↔ Within (2 ^ 29) v }
{
    within(v, RANGE)
}

/// How far a vector `d` of length `len` is from the length `rest`, on each axis.
fn correction(d: Vec3, len: i64, rest: i64) -> Vec3
    requires size { Within (2 ^ 30) d }
    requires length { len ≡ pos (length_of d) }
    requires length_size { length_of d < 2 ^ 31 }
    requires some { 0 < length_of d }
    requires rest_low { pos 0 ≤ℤ rest }
    requires rest_high { rest ≤ℤ pos (2 ^ 31) }
    ensures value { result ≡ corrections d rest }
    ensures size { Within (2 ^ 31) result }
{
    d.scaled(len - rest, len)
}

/// The share of a correction `s` that stiffness k / 256 and weight `w` out of `total` give, on each axis.
fn share(s: Vec3, k: i64, w: i64, total: i64) -> Vec3
    requires size { Within (2 ^ 31) s }
    requires stiffness { unsigned_abs k ≤ 256 }
    requires weight_low { pos 0 ≤ℤ w }
    requires weight { unsigned_abs w ≤ unsigned_abs total }
    requires total_low { pos 0 <ℤ total }
    requires total_high { unsigned_abs total ≤ 131070 }
    ensures value { result ≡ shares s k w (unsigned_abs total) }
    ensures size { Within (2 ^ 31) result }
{
    s.part_of(k * w, 256 * total)
}

/// The moves of two ends whose way is `way`, `len` long, by divisions.
#[inline(never)]
fn divided_moves(way: Vec3, len: i64, pull: Pull, weights: Weights) -> (Vec3, Vec3)
    requires way { Within (2 ^ 30) way }
    requires length { len ≡ pos (length_of way) }
    requires rest_low { pos 0 ≤ℤ pull.rest }
    requires rest_high { pull.rest ≤ℤ pos (2 ^ 31) }
    requires stiffness { unsigned_abs pull.k ≤ 256 }
    requires first_low { pos 0 ≤ℤ weights.first }
    requires first_high { weights.first ≤ℤ pos 65535 }
    requires second_low { pos 0 ≤ℤ weights.second }
    requires second_high { weights.second ≤ℤ pos 65535 }
    ensures moves { result ≡ pair_moves way zero_vector pull.rest pull.k weights.first weights.second }
    ensures first_size { Within (2 ^ 31) result.0 }
    ensures second_size { Within (2 ^ 31) result.1 }
{
    let total = weights.first + weights.second;
    if len == 0 || total == 0 {
        return (Vec3::ZERO, Vec3::ZERO);
    }
    let s = correction(way, len, pull.rest);
    let first = share(s, pull.k, weights.first, total);
    let second = share(s, pull.k, weights.second, total);
    (first.opposite(), second)
}

/// The moves of two ends by the way from the second to the first: as [`pair_move`] gives them where they are nearer than
/// `pull.reach`, and none elsewhere.
pub fn moves_along(way: Vec3, pull: Pull, weights: Weights) -> (Vec3, Vec3)
    requires way { Within (2 ^ 30) way }
    requires rest_low { pos 0 ≤ℤ pull.rest }
    requires rest_high { pull.rest ≤ℤ pos (2 ^ 31) }
    requires stiffness { unsigned_abs pull.k ≤ 256 }
    requires first_low { pos 0 ≤ℤ weights.first }
    requires first_high { weights.first ≤ℤ pos 65535 }
    requires second_low { pos 0 ≤ℤ weights.second }
    requires second_high { weights.second ≤ℤ pos 65535 }
    ensures moves { pos (length_of way) <ℤ pull.reach
        → result ≡ pair_moves way zero_vector pull.rest pull.k weights.first weights.second }
    ensures rests { pull.reach ≤ℤ pos (length_of way) → result ≡ (zero_vector, zero_vector) }
    ensures first_size { Within (2 ^ 31) result.0 }
    ensures second_size { Within (2 ^ 31) result.1 }
{
    let tried = try_moves(way, pull, weights);
    if tried.exact {
        return (tried.first, tried.second);
    }
    let len = way.length();
    if pull.reach <= len {
        return (Vec3::ZERO, Vec3::ZERO);
    }
    divided_moves(way, len, pull, weights)
}

/// The moves of two ends toward the distance `rest`, with stiffness k / 256: the distance correction
/// of Müller and others 2007, each step of it rounded. A weight is an inverse mass, 0 where an end is
/// held. Nothing moves where the ends lie together or both weights are 0.
pub fn pair_move(a: Vec3, b: Vec3, rest: i64, k: i64, wa: i64, wb: i64) -> (Vec3, Vec3)
    requires a { Within (2 ^ 29) a }
    requires b { Within (2 ^ 29) b }
    requires rest_low { pos 0 ≤ℤ rest }
    requires rest_high { rest ≤ℤ pos (2 ^ 31) }
    requires stiffness_low { pos 0 ≤ℤ k }
    requires stiffness_high { k ≤ℤ pos 256 }
    requires wa_low { pos 0 ≤ℤ wa }
    requires wa_high { wa ≤ℤ pos 65535 }
    requires wb_low { pos 0 ≤ℤ wb }
    requires wb_high { wb ≤ℤ pos 65535 }
    ensures moves { result ≡ pair_moves a b rest k wa wb }
    ensures first_size { Within (2 ^ 31) result.0 }
    ensures second_size { Within (2 ^ 31) result.1 }
{
    let pull = Pull {
        rest,
        k,
        reach: 2_147_483_648,
    };
    let weights = Weights {
        first: wa,
        second: wb,
    };
    moves_along(a.minus(b), pull, weights)
}

/// The distance of two places in range, rounded down.
pub fn distance(a: Vec3, b: Vec3) -> i64
    requires a { Within (2 ^ 29) a }
    requires b { Within (2 ^ 29) b }
    ensures { result ≡ pos (length_of (minus a b)) }
{
    a.minus(b).length()
}
