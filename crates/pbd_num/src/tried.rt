//! The moves of two ends without a division but by powers of two, where each `if` only picks one of two numbers, so that the
//! compiler can make vectors of a loop over bonds. A length and the parts of its error are guessed, nearly always right where
//! both are below 2^20, and an exact test stands behind each guess.
ghost use Rattle.std.specs.Prelude.{◌≡◌, ◌<◌, ◌≤◌, ◌^◌, ◌+◌, ◌-◌, ◌*◌, ◌/◌, pos, ◌+ℤ◌, ◌-ℤ◌, ◌*ℤ◌, ◌<ℤ◌, ◌≤ℤ◌, IsTrue, unsigned_abs, FitsSigned};
ghost use Rattle.std.specs.Int.{w32};
ghost use Rattle.pbd_num.specs.Rounding.{rdiv as rounded, root as whole_root};
ghost use Rattle.pbd_num.specs.Vectors.{Within, opposite, length_of, zero_vector};
ghost use Rattle.pbd_num.specs.PairMove.{along, pair_moves};

use crate::Vec3;
use crate::near::{NearRoot, near_root};

/// What two ends of a constraint are pulled to: the distance `rest`, in units of 1/65,536 metre, with stiffness `k` / 256,
/// where they are nearer than `reach`.
#[derive(Clone, Copy)]
pub struct Pull {
    pub rest: i64,
    pub k: i64,
    pub reach: i64,
}

/// The weights (inverse masses) of two ends, 0 where an end is held.
#[derive(Clone, Copy)]
pub struct Weights {
    pub first: i64,
    pub second: i64,
}

/// The moves of two ends and the length between them, guessed: what they are only where `exact` is true.
#[derive(Clone, Copy)]
pub struct TriedMoves {
    pub first: Vec3,
    pub second: Vec3,
    pub length: i64,
    pub exact: bool,
}

#[inline(always)]
fn product(a: i32, b: i32) -> i64
    ensures value { result ≡ a *ℤ b }
    ensures size { unsigned_abs result ≤ 2 ^ 62 }
{
    i64::from(a) * i64::from(b)
}

/// Whether `r` is the root of `n`.
#[inline(always)]
pub(crate) fn is_root(n: i64, r: i64) -> bool
    requires n { pos 0 ≤ℤ n }
    requires low { pos 0 ≤ℤ r }
    requires high { r ≤ℤ pos 3037000499 }
    ensures { IsTrue result → r ≡ pos (whole_root (unsigned_abs n)) }
{
    let over = n - r * r;
    (0 <= over) & (over <= 2 * r)
}

/// What a quotient `q` leaves of `n`.
#[inline(always)]
fn rest_of(n: i64, length: i64, q: i32) -> i64
    requires size { unsigned_abs n ≤ 2 ^ 62 }
    requires length { unsigned_abs length < 2 ^ 31 }
    ensures value { result ≡ n -ℤ q *ℤ length }
    ensures size { unsigned_abs result + 2 ^ 31 ≤ 2 ^ 63 }
{
    n - i64::from(q) * length
}

/// The greatest rest that a quotient of `n` may leave below 0: halves go away from zero, so that is half of `length`, but
/// less than half where `n` is below 0.
#[inline(always)]
fn half_of(length: i64, n: i64) -> i64
    requires low { pos 0 ≤ℤ length }
    requires high { length <ℤ pos (2 ^ 31) }
    ensures above { pos 0 ≤ℤ n → result ≡ pos (unsigned_abs length / 2) }
    ensures below { n <ℤ pos 0 → pos 0 <ℤ length → result ≡ pos ((unsigned_abs length - 1) / 2) }
    ensures size { unsigned_abs result < 2 ^ 31 }
{
    if n < 0 {
        (length + 1) / 2 - 1
    } else {
        length / 2
    }
}

/// Whether `q` is `n / length`, rounded.
#[inline(always)]
fn is_quotient(n: i64, length: i64, q: i32) -> bool
    requires size { unsigned_abs n ≤ 2 ^ 62 }
    requires low { pos 0 ≤ℤ length }
    requires high { length <ℤ pos (2 ^ 31) }
    ensures { IsTrue result → pos 0 <ℤ length → q ≡ rounded n (pos (unsigned_abs length)) }
{
    let raised = rest_of(n, length, q) + half_of(length, n);
    (0 <= raised) & (raised < length)
}

/// A product with what is added before it is divided by 512: half of that, or one less where the product is below 0, and 2^41
/// so that the sum isn't below 0.
#[inline(always)]
fn raise(p: i64) -> i64
    requires { unsigned_abs p ≤ 2 ^ 40 }
    ensures above { pos 0 ≤ℤ p → result ≡ p +ℤ pos 2199023255808 }
    ensures below { p <ℤ pos 0 → result ≡ p +ℤ pos 2199023255807 }
    ensures low { pos 0 ≤ℤ result }
    ensures high { unsigned_abs result ≤ 2 ^ 42 }
{
    p + if p < 0 {
        2_199_023_255_807
    } else {
        2_199_023_255_808
    }
}

/// `p / 512`, rounded.
#[inline(always)]
fn part_of_512(p: i64) -> i64
    requires { unsigned_abs p ≤ 2 ^ 40 }
    ensures value { result ≡ rounded p (pos 512) }
    ensures size { unsigned_abs result ≤ 2 ^ 31 }
{
    (raise(p) as u64 / 512) as i64 - 4_294_967_296
}

/// A way, axis by axis.
#[derive(Clone, Copy)]
struct Way {
    x: i32,
    y: i32,
    z: i32,
}

#[inline(always)]
fn short(axis: i64) -> i32
    requires { unsigned_abs axis ≤ 2 ^ 30 }
    ensures { result ≡ axis }
{
    axis as i32
}

#[inline(always)]
fn short_way(way: Vec3) -> Way
    requires { Within (2 ^ 30) way }
    ensures x { result.x ≡ way.x }
    ensures y { result.y ≡ way.y }
    ensures z { result.z ≡ way.z }
{
    Way {
        x: short(way.x),
        y: short(way.y),
        z: short(way.z),
    }
}

/// A length, guessed: between 0 and 2^31, and what it is only where `exact` is true.
#[derive(Clone, Copy)]
struct TriedLength {
    near: NearRoot,
    length: i64,
    exact: bool,
}

impl Way {
    /// The square of the length.
    #[inline(always)]
    fn square(self) -> i64
        requires x { unsigned_abs self.x ≤ 2 ^ 30 }
        requires y { unsigned_abs self.y ≤ 2 ^ 30 }
        requires z { unsigned_abs self.z ≤ 2 ^ 30 }
        ensures { result ≡ pos (unsigned_abs self.x * unsigned_abs self.x + unsigned_abs self.y * unsigned_abs self.y
            + unsigned_abs self.z * unsigned_abs self.z) }
    {
        product(self.x, self.x) + product(self.y, self.y) + product(self.z, self.z)
    }

    /// The length, rounded down: guessed, and exact only where it is above 0.
    #[inline(always)]
    fn try_length(self) -> TriedLength
        requires x { unsigned_abs self.x ≤ 2 ^ 30 }
        requires y { unsigned_abs self.y ≤ 2 ^ 30 }
        requires z { unsigned_abs self.z ≤ 2 ^ 30 }
        ensures value { IsTrue result.exact → result.length
            ≡ pos (whole_root (unsigned_abs self.x * unsigned_abs self.x + unsigned_abs self.y * unsigned_abs self.y
            + unsigned_abs self.z * unsigned_abs self.z)) }
        ensures some { IsTrue result.exact → pos 0 <ℤ result.length }
        ensures low { pos 0 ≤ℤ result.length }
        ensures high { result.length <ℤ pos (2 ^ 31) }
    {
        let square = self.square();
        let near = near_root(square);
        let length = near.root;
        TriedLength {
            near,
            length,
            exact: (0 < length) & is_root(square, length),
        }
    }
}

/// The error of a length.
#[derive(Clone, Copy)]
struct Stretch {
    error: i32,
    length: i64,
    near: NearRoot,
}

#[inline(always)]
fn stretch_of(near: NearRoot, length: i64, rest: i64) -> Stretch
    requires low { pos 0 ≤ℤ length }
    requires high { length <ℤ pos (2 ^ 31) }
    requires rest_low { pos 0 ≤ℤ rest }
    requires rest_high { rest ≤ℤ pos (2 ^ 31) }
    ensures error { result.error ≡ length -ℤ rest }
    ensures fits { FitsSigned w32 result.error }
    ensures length { result.length ≡ length }
{
    let error = (length - rest) as i32;
    Stretch {
        error,
        length,
        near,
    }
}

/// A part of a correction, guessed: what it is only where `exact` is true.
#[derive(Clone, Copy)]
struct TriedPart {
    part: i64,
    exact: bool,
}

impl Stretch {
    /// The part `f` / 512 of the error along one axis, guessed.
    #[inline(always)]
    fn try_part(self, axis: i32, f: i32) -> TriedPart
        requires low { pos 0 ≤ℤ self.length }
        requires high { self.length <ℤ pos (2 ^ 31) }
        requires error { FitsSigned w32 self.error }
        requires axis { unsigned_abs axis ≤ 2 ^ 30 }
        requires f { unsigned_abs f ≤ 512 }
        ensures value { IsTrue result.exact → pos 0 <ℤ self.length
            → result.part ≡ rounded (along self.error axis (unsigned_abs self.length) *ℤ f) (pos 512) }
        ensures size { unsigned_abs result.part ≤ 2 ^ 31 }
    {
        let quotient = self.near.near_quotient(self.error, axis);
        TriedPart {
            part: part_of_512(product(quotient, f)),
            exact: is_quotient(product(self.error, axis), self.length, quotient),
        }
    }
}

impl Weights {
    /// Whether one end is held and the other is not, or both are free and have one weight.
    #[inline(always)]
    fn are_even(self) -> bool
        requires first_low { pos 0 ≤ℤ self.first }
        requires second_low { pos 0 ≤ℤ self.second }
        ensures some { IsTrue result → 0 < unsigned_abs self.first + unsigned_abs self.second }
        ensures even { IsTrue result → pos 0 <ℤ self.first → pos 0 <ℤ self.second → self.first ≡ self.second }
    {
        let first = 0 < self.first;
        let second = 0 < self.second;
        (first | second) & ((self.first == self.second) | !(first & second))
    }

    /// The factor f by which the share of a free end is f / 512, where the weights are even.
    #[inline(always)]
    fn factor(self, k: i64) -> i32
        requires k { unsigned_abs k ≤ 256 }
        ensures both { pos 0 <ℤ self.first → pos 0 <ℤ self.second → result ≡ k }
        ensures first { self.second ≡ pos 0 → result ≡ pos 2 *ℤ k }
        ensures second { self.first ≡ pos 0 → result ≡ pos 2 *ℤ k }
        ensures none { k ≡ pos 0 → result ≡ pos 0 }
        ensures size { unsigned_abs result ≤ 512 }
    {
        let both = (0 < self.first) & (0 < self.second);
        (if both { k } else { 2 * k }) as i32
    }
}

/// The move of an end on one axis, 0 where the end is held.
#[inline(always)]
fn moved_axis(weight: i64, part: i64) -> i64
    ensures free { pos 0 <ℤ weight → result ≡ part }
    ensures held { weight ≤ℤ pos 0 → result ≡ pos 0 }
    ensures size { unsigned_abs result ≤ unsigned_abs part }
{
    if 0 < weight { part } else { 0 }
}

#[inline(always)]
fn moved(weight: i64, parts: Vec3) -> Vec3
    requires { Within (2 ^ 31) parts }
    ensures free { pos 0 <ℤ weight → result ≡ parts }
    ensures held { weight ≤ℤ pos 0 → result ≡ zero_vector }
    ensures size { Within (2 ^ 31) result }
{
    Vec3 {
        x: moved_axis(weight, parts.x),
        y: moved_axis(weight, parts.y),
        z: moved_axis(weight, parts.z),
    }
}

#[inline(always)]
fn pulled(length: i64, pull: Pull) -> i64
    requires { unsigned_abs pull.k ≤ 256 }
    ensures near { length <ℤ pull.reach → result ≡ pull.k }
    ensures far { pull.reach ≤ℤ length → result ≡ pos 0 }
    ensures size { unsigned_abs result ≤ 256 }
{
    if length < pull.reach { pull.k } else { 0 }
}

/// The moves of two ends by the way from the second to the first, as [`crate::moves_along`] gives them: guessed, and
/// tested.
#[inline(always)]
pub fn try_moves(way: Vec3, pull: Pull, weights: Weights) -> TriedMoves
    requires way { Within (2 ^ 30) way }
    requires rest_low { pos 0 ≤ℤ pull.rest }
    requires rest_high { pull.rest ≤ℤ pos (2 ^ 31) }
    requires stiffness { unsigned_abs pull.k ≤ 256 }
    requires first_low { pos 0 ≤ℤ weights.first }
    requires first_high { weights.first ≤ℤ pos 65535 }
    requires second_low { pos 0 ≤ℤ weights.second }
    requires second_high { weights.second ≤ℤ pos 65535 }
    ensures length { IsTrue result.exact → result.length ≡ pos (length_of way) }
    ensures moves { IsTrue result.exact → result.length <ℤ pull.reach
        → (result.first, result.second) ≡ pair_moves way zero_vector pull.rest pull.k weights.first weights.second }
    ensures first_rests { IsTrue result.exact → pull.reach ≤ℤ result.length → result.first ≡ zero_vector }
    ensures second_rests { IsTrue result.exact → pull.reach ≤ℤ result.length → result.second ≡ zero_vector }
    ensures first_held { weights.first ≡ pos 0 → result.first ≡ zero_vector }
    ensures second_held { weights.second ≡ pos 0 → result.second ≡ zero_vector }
    ensures opposed { pos 0 <ℤ weights.first → pos 0 <ℤ weights.second → result.first ≡ opposite result.second }
    ensures first_size { Within (2 ^ 31) result.first }
    ensures second_size { Within (2 ^ 31) result.second }
{
    let way = short_way(way);
    let tried = way.try_length();
    let stretch = stretch_of(tried.near, tried.length, pull.rest);
    let factor = weights.factor(pulled(tried.length, pull));
    let x = stretch.try_part(way.x, factor);
    let y = stretch.try_part(way.y, factor);
    let z = stretch.try_part(way.z, factor);
    let parts = Vec3 {
        x: x.part,
        y: y.part,
        z: z.part,
    };
    TriedMoves {
        first: moved(weights.first, parts.opposite()),
        second: moved(weights.second, parts),
        length: tried.length,
        exact: tried.exact & weights.are_even() & x.exact & y.exact & z.exact,
    }
}
