//! The move of one bond by its guesses, and the exact tests of what is guessed: of a length by its square, and of a quotient
//! by what it leaves.
ghost use Rattle.std.specs.Prelude.{◌≡◌, ◌↔◌, ◌+◌, ◌*◌, ◌^◌, ◌<◌, ◌≤◌, pos, ◌/◌, ◌-◌, IsTrue, ◌<ℤ◌, ◌≤ℤ◌, ◌+ℤ◌, ◌-ℤ◌, ◌*ℤ◌, neg_ℤ, unsigned_abs};
ghost use Rattle.pbd_num.specs.Rounding.{rdiv as rounded, root as whole_root};
ghost use Rattle.pbd_num.specs.PairMove.{along};
ghost use Rattle.pbd_num.specs.Rows.{vector_of};
ghost use Rattle.pbd_near.specs.Columns.{IsMove, IsTaken};

use crate::guesses::Guess;
use crate::products::{low15, product, square_of, upper};
use pbd_num::Row;

/// The axes of a way, each brought within 2^15, and the square of their length.
#[derive(Clone, Copy)]
pub(crate) struct Taken {
    pub(crate) x: i32,
    pub(crate) y: i32,
    pub(crate) z: i32,
    pub(crate) square: u32,
}

/// What the axes of a bond are moved by: its guesses, what its length is too great by, and the factor that counts.
#[derive(Clone, Copy)]
pub(crate) struct GuessedPull {
    pub(crate) shift: u32,
    pub(crate) ratio: i32,
    pub(crate) error: i32,
    pub(crate) length: i32,
    pub(crate) factor: i32,
    /// Whether its move is asked of these loops.
    pub(crate) asked: bool,
}

/// The move of one axis: what it is only where `right` is true.
#[derive(Clone, Copy)]
struct Share {
    share: i32,
    right: bool,
}

/// A quotient: what it is only where `right` is true.
#[derive(Clone, Copy)]
struct Tested {
    quotient: i32,
    right: bool,
}

#[inline(always)]
pub(crate) fn pull_of(guess: Guess, rest: i32, factor: i32, slack: i32) -> GuessedPull
    requires rest_low { pos 0 ≤ℤ rest }
    requires rest_high { rest ≤ℤ pos 16383 }
    requires factor { unsigned_abs factor ≤ 512 }
    ensures shift { result.shift ≤ 30 }
    ensures ratio { unsigned_abs result.ratio ≤ 65535 }
    ensures low { pos 0 ≤ℤ result.length }
    ensures high { result.length ≤ℤ pos 32767 }
    ensures error { result.error ≡ result.length -ℤ rest }
    ensures error_size { unsigned_abs result.error ≤ 32767 }
    ensures slack { slack ≤ℤ result.error → result.factor ≡ pos 0 }
    ensures pulled { result.error <ℤ slack → result.factor ≡ factor }
    ensures factor_size { unsigned_abs result.factor ≤ 512 }
    ensures asked { IsTrue result.asked → pos 0 ≤ℤ factor }
{
    let length = low15(guess.length) as i32;
    let error = length - rest;
    GuessedPull {
        shift: (guess.up & 30) / 2 + 15,
        ratio: guess.ratio.clamp(-65_535, 65_535),
        error,
        length,
        factor: if slack <= error { 0 } else { factor },
        asked: 0 <= factor,
    }
}

/// The quotient `axis * error / length`, guessed: it is seldom anything but right or one too small.
#[inline(always)]
fn quotient_of(axis: i32, shift: u32, ratio: i32) -> i32
    requires shift { shift ≤ 30 }
    requires ratio { unsigned_abs ratio ≤ 65535 }
    ensures { unsigned_abs result ≤ 32768 }
{
    upper(product(upper(axis << shift), ratio) + 4_096)
}

/// The greatest rest that a quotient of `n` may leave below 0: halves go away from zero, so that is half of `length`, but
/// less than half where `n` is below 0.
#[inline(always)]
fn half_of(length: i32, n: i32) -> i32
    requires low { pos 0 ≤ℤ length }
    requires high { length ≤ℤ pos 32767 }
    ensures above { pos 0 ≤ℤ n → result ≡ pos (unsigned_abs length / 2) }
    ensures below { n <ℤ pos 0 → pos 0 <ℤ length → result ≡ pos ((unsigned_abs length - 1) / 2) }
    ensures low { neg_ℤ (pos 1) ≤ℤ result }
    ensures high { result ≤ℤ pos 16383 }
{
    if n < 0 {
        (length + 1) / 2 - 1
    } else {
        length / 2
    }
}

/// What `quotient` leaves of `n`.
#[inline(always)]
fn left_of(n: i32, quotient: i32, length: i32) -> i32
    requires n { unsigned_abs n ≤ 32768 * 32767 }
    requires quotient { unsigned_abs quotient ≤ 32768 }
    requires low { pos 0 ≤ℤ length }
    requires high { length ≤ℤ pos 32767 }
    ensures value { result ≡ n -ℤ quotient *ℤ length }
    ensures size { unsigned_abs result ≤ 65536 * 32767 }
{
    n - product(quotient, length)
}

/// The quotient or the number above it.
#[inline(always)]
fn mended(quotient: i32, raised: i32, length: i32) -> i32
    requires { unsigned_abs quotient ≤ 32768 }
    ensures same { raised <ℤ length → result ≡ quotient }
    ensures next { length ≤ℤ raised → result ≡ quotient +ℤ pos 1 }
    ensures size { unsigned_abs result ≤ 32769 }
{
    if length <= raised {
        quotient + 1
    } else {
        quotient
    }
}

#[inline(always)]
fn is_near(raised: i32, length: i32) -> bool
    requires low { pos 0 ≤ℤ length }
    requires high { length ≤ℤ pos 32767 }
    ensures low { IsTrue result → pos 0 ≤ℤ raised }
    ensures high { IsTrue result → raised <ℤ (pos 2 *ℤ length) }
{
    (0 <= raised) & (raised < 2 * length)
}

/// `n / length`, rounded, by a guess that is right or one too small.
#[inline(always)]
fn test_of(n: i32, quotient: i32, length: i32) -> Tested
    requires n { unsigned_abs n ≤ 32768 * 32767 }
    requires quotient { unsigned_abs quotient ≤ 32768 }
    requires low { pos 0 ≤ℤ length }
    requires high { length ≤ℤ pos 32767 }
    ensures value { IsTrue result.right → result.quotient ≡ rounded n (pos (unsigned_abs length)) }
    ensures some { IsTrue result.right → pos 0 <ℤ length }
    ensures size { unsigned_abs result.quotient ≤ 32769 }
{
    let raised = left_of(n, quotient, length) + half_of(length, n);
    Tested {
        quotient: mended(quotient, raised, length),
        right: is_near(raised, length),
    }
}

#[inline(always)]
fn share_of(quotient: i32, factor: i32) -> i32
    requires quotient { unsigned_abs quotient ≤ 32769 }
    requires factor { unsigned_abs factor ≤ 512 }
    ensures value { result ≡ quotient *ℤ factor }
    ensures size { unsigned_abs result ≤ 2 ^ 25 }
{
    quotient * factor
}

#[inline(always)]
fn raise(share: i32) -> i32
    requires { unsigned_abs share ≤ 2 ^ 25 }
    ensures above { pos 0 ≤ℤ share → result ≡ share +ℤ pos 256 }
    ensures below { share <ℤ pos 0 → result ≡ share +ℤ pos 255 }
{
    share + if share < 0 { 255 } else { 256 }
}

/// `share / 512`, rounded.
#[inline(always)]
fn part_of_512(share: i32) -> i32
    requires { unsigned_abs share ≤ 2 ^ 25 }
    ensures value { result ≡ rounded share (pos 512) }
    ensures size { unsigned_abs result ≤ 2 ^ 16 }
{
    raise(share) >> 9
}

/// Whether `length` is the root of `square`.
#[inline(always)]
fn is_length(square: u32, length: i32) -> bool
    requires low { pos 0 ≤ℤ length }
    requires high { length ≤ℤ pos 32767 }
    ensures { IsTrue result → length ≡ pos (whole_root square) }
{
    let left = square.min(2_147_483_647) as i32 - square_of(length) as i32;
    (0 <= left) & (left <= 2 * length)
}

/// 0 only where all is right.
#[inline(always)]
fn flag_of(right: bool) -> i32
    ensures right { result ≡ pos 0 → IsTrue right }
    ensures size { unsigned_abs result ≤ 1 }
{
    if right { 0 } else { -1 }
}

impl GuessedPull {
    #[inline(always)]
    fn share(self, axis: i32) -> Share
        requires axis { unsigned_abs axis ≤ 32768 }
        requires shift { self.shift ≤ 30 }
        requires ratio { unsigned_abs self.ratio ≤ 65535 }
        requires low { pos 0 ≤ℤ self.length }
        requires high { self.length ≤ℤ pos 32767 }
        requires error { unsigned_abs self.error ≤ 32767 }
        requires factor { unsigned_abs self.factor ≤ 512 }
        ensures some { IsTrue result.right → pos 0 <ℤ self.length }
        ensures size { unsigned_abs result.share ≤ 2 ^ 16 }
        ensures value { IsTrue result.right → result.share
            ≡ rounded (along self.error axis (unsigned_abs self.length) *ℤ self.factor) (pos 512) }
    {
        let n = product(axis, self.error);
        let quotient = quotient_of(axis, self.shift, self.ratio);
        let tested = test_of(n, quotient, self.length);
        Share {
            share: part_of_512(share_of(tested.quotient, self.factor)),
            right: tested.right,
        }
    }

    /// The move of the second end of a bond of which the columns hold this: what it is only where its flag is 0.
    #[inline(always)]
    pub(crate) fn row(self, taken: Taken) -> Row
        requires x { unsigned_abs taken.x ≤ 32768 }
        requires y { unsigned_abs taken.y ≤ 32768 }
        requires z { unsigned_abs taken.z ≤ 32768 }
        requires shift { self.shift ≤ 30 }
        requires ratio { unsigned_abs self.ratio ≤ 65535 }
        requires low { pos 0 ≤ℤ self.length }
        requires high { self.length ≤ℤ pos 32767 }
        requires error { unsigned_abs self.error ≤ 32767 }
        requires factor { unsigned_abs self.factor ≤ 512 }
        ensures value { result.flag ≡ pos 0 → (way : Row) → IsTaken way taken
            → IsMove (vector_of way) self.length self.error self.factor (vector_of result) }
        ensures asked { result.flag ≡ pos 0 → IsTrue self.asked }
        ensures flag { unsigned_abs result.flag ≤ 1 }
    {
        let root = is_length(taken.square, self.length);
        let along_x = self.share(taken.x);
        let along_y = self.share(taken.y);
        let along_z = self.share(taken.z);
        Row {
            x: along_x.share,
            y: along_y.share,
            z: along_z.share,
            flag: flag_of(root & along_x.right & along_y.right & along_z.right & self.asked),
        }
    }
}
