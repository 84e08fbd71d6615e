// Guesses of roots, and of quotients by them, by products, sums and shifts of whole numbers, without a division but by 2
// (docs/SPEED.md has why). An exact test stands behind each, so nothing is said of a guess but its size. Products are of the
// low 32 bits of numbers, so that what lies above them needs no bound.
ghost use Rattle.std.specs.Prelude.{◌<◌, ◌≤◌, ◌^◌, ◌+◌, pos, ◌<ℤ◌, ◌≤ℤ◌};

use crate::vectors::square;

#[inline(always)]
fn low(n: u64) -> u64
    ensures { result < 2 ^ 32 }
{
    n & 4_294_967_295
}

/// The product of the low 32 bits of two numbers: one instruction, for vectors too.
#[inline(always)]
fn product(a: u64, b: u64) -> u64
    ensures { result + 2 ^ 32 ≤ 2 ^ 64 }
{
    low(a) * low(b)
}

/// The high 32 bits of that product.
#[inline(always)]
fn high_product(a: u64, b: u64) -> u64
    ensures { result < 2 ^ 32 }
{
    product(a, b) >> 32
}

/// The high 32 bits of a number that is shifted left by an even count, so that one of the two highest is set unless it is 0,
/// and half of that count.
#[derive(Clone, Copy)]
struct Raised {
    high: u64,
    half: u32,
}

#[inline(always)]
fn raise(n: i64) -> Raised {
    let count = (n | 1).leading_zeros() & 62;
    Raised {
        high: (n.cast_unsigned() << count) >> 32,
        half: count / 2,
    }
}

/// One step of Newton's iteration from `inverse` toward 2^29 / root(high / 2^32). What is subtracted from is 3 * 2^29 and
/// 2^32 more, which the low 32 bits don't show.
#[inline(always)]
fn nearer(high: u64, inverse: u64) -> u64 {
    let squared = product(inverse, inverse) >> 29;
    product(inverse, 5_905_580_032 - high_product(squared, high)) >> 30
}

/// A number near 2^29 / root(high / 2^32), where one of the two highest of 32 bits is set: by the polynomial of degree 3
/// that is within 0.71 % of it there, each coefficient but the highest 2^32 more, and two steps.
#[inline(always)]
fn near_inverse_root(high: u64) -> u64 {
    let third = high_product(high, 1_309_134_401);
    let second = high_product(high, 7_639_642_077 - third);
    let first = high_product(high, 7_468_359_856 - second);
    nearer(high, nearer(high, 5_965_910_466 - first))
}

/// A number near a root, and one near 2^61 / (root * 2^half). Of a root below 2^24 it is at most one below it, and hardly ever
/// above it; of a greater one it may be wrong by more.
#[derive(Clone, Copy)]
pub(crate) struct NearRoot {
    pub(crate) root: i64,
    half: u32,
    inverse: u64,
}

/// `guess` in 31 bits, or one less where its square is above `n`.
#[inline(always)]
fn lowered(n: i64, guess: u64) -> i64
    ensures low { pos 0 ≤ℤ result }
    ensures high { result <ℤ pos (2 ^ 31) }
{
    let root = (guess & 2_147_483_647) as i64;
    if n & i64::MAX < square(root) {
        root - 1
    } else {
        root
    }
}

/// A number near the root of `n`, nearly always right where that is below 2^24; where `n` is 2^62 or more, it may be any.
#[inline(always)]
pub(crate) fn near_root(n: i64) -> NearRoot
    ensures low { pos 0 ≤ℤ result.root }
    ensures high { result.root <ℤ pos (2 ^ 31) }
{
    let Raised { high, half } = raise(n);
    let near = near_inverse_root(high);
    let whole = (product(high, near) >> 30) + 16;
    let root = lowered(n, product(whole, 4_294_967_296 >> (half & 31)) >> 31);
    let over = product(root.cast_unsigned() << (half & 31), near) >> 30;
    NearRoot {
        root,
        half,
        inverse: product(near, 4_294_967_296 - low(over)) >> 31,
    }
}

impl NearRoot {
    /// A number near `e * d / root`, rounded, where `d` is at most `root` in size. Its size is a little too great rather than
    /// too small, so that halves go away from zero.
    #[inline(always)]
    pub(crate) fn near_quotient(self, e: i32, d: i32) -> i32 {
        let axis = u64::from(d.unsigned_abs()) << (self.half & 31);
        let ratio = (product(axis, self.inverse) >> 30) + 16;
        let whole = (product(u64::from(e.unsigned_abs()), ratio) + 1_073_741_824) >> 31;
        let size = (whole & 2_147_483_647) as i32;
        if (e < 0) == (d < 0) { size } else { -size }
    }
}
