//! Guesses of lengths, and of their errors over them. Each loop brings what it reads into range, so that it is safe whatever
//! the loop before it wrote, and nothing else is said of what it writes.
ghost use Rattle.std.specs.Prelude.{◌<◌, ◌≤◌, ◌≤ℤ◌, pos, neg_ℤ, unsigned_abs};

use crate::products::{low15, product, upper, upper_ten};
use crate::ways::Ways;
use pbd_num::CHUNK;

/// Of one bond: the even shift that makes its square, unless that is 0, a number of 31 or 32 bits, and a number near 2^22 over
/// the root of the square's upper 16 bits so shifted.
#[derive(Clone, Copy)]
struct Seed {
    up: u32,
    inverse: i32,
}

/// Of one bond: the shift of its square, its length, and the error of its length over its length, times 2^17 and shifted down
/// by half of that shift.
#[derive(Clone, Copy)]
pub(crate) struct Guess {
    pub(crate) up: u32,
    pub(crate) length: i32,
    pub(crate) ratio: i32,
}

/// The guesses of a chunk.
#[derive(Clone, Copy)]
pub(crate) struct Guesses {
    up: [u32; 128],
    inverse: [i32; 128],
    root: [i32; 128],
    length: [i32; 128],
    ratio: [i32; 128],
}

#[inline(always)]
fn step(r: i32, y: i32) -> i32
    requires r { unsigned_abs r ≤ 80000 }
    requires y { unsigned_abs y ≤ 24576 }
    ensures { unsigned_abs result ≤ 32768 }
{
    upper(r * y)
}

// A polynomial of the fourth degree, that is wrong by 0.22 % at most.
#[inline(always)]
fn seed_of(square: u32) -> Seed {
    let up = (square | 1).leading_zeros() & 30;
    let high = ((square << up) >> 16).max(16_384);
    let y = high as i32 - 40_960;
    let first = step(62_332, y);
    let second = step(first - 40_343, y);
    let third = step(second + 18_418, y);
    let fourth = step(third - 16_033, y);
    Seed {
        up,
        inverse: fourth + 20_736,
    }
}

// The root, by one step of Heron's with the seed's inverse: it is seldom too small, and hardly ever more than 1 too great.
#[inline(always)]
fn root_of(square: u32, seed: Seed) -> i32 {
    let up = seed.up & 30;
    let r = low15(seed.inverse);
    let shifted = square << up;
    let root = (((shifted >> 16) * r) >> 14).min(65_535);
    let left = ((shifted >> 9) as i32 - ((root * root) >> 9) as i32).clamp(-65_535, 65_535);
    let root = root as i32 + upper_ten(left * r as i32);
    (root + 2) >> (up / 2)
}

// -1 below 0, else 0.
#[inline(always)]
fn sign(x: i32) -> i32
    ensures low { neg_ℤ (pos 1) ≤ℤ result }
    ensures high { result ≤ℤ pos 0 }
{
    x >> 31
}

// The root, or one less where its square is above `square`.
#[inline(always)]
fn lowered(root: i32, square: i32) -> i32
    requires square_low { pos 0 ≤ℤ square }
    requires low { pos 0 ≤ℤ root }
    requires high { root ≤ℤ pos 32767 }
    ensures low { pos 0 ≤ℤ result }
    ensures high { result ≤ℤ pos 32767 }
{
    (root + sign(square - root * root)).max(0)
}

// 2^31 over the shifted length, by one step of Newton's.
#[inline(always)]
fn inverse_of(length: u32, half: u32, r: u32) -> i32
    requires half { half ≤ 15 }
    requires r { r ≤ 32767 }
    ensures low { pos 0 ≤ℤ result }
    ensures high { result ≤ℤ pos 65535 }
{
    let over = ((length << half) & 65_535) * r;
    ((((2_147_483_648 - over) >> 14) * r) >> 15).min(65_535) as i32
}

#[inline(always)]
fn rest_of(rest: i32) -> i32
    ensures low { pos 0 ≤ℤ result }
    ensures high { result ≤ℤ pos 16383 }
{
    (rest.cast_unsigned() & 16_383) as i32
}

#[inline(always)]
fn guess_of(square: u32, seed: Seed, root: i32, rest: i32) -> Guess {
    let square = (square & 1_073_741_823) as i32;
    let length = lowered(low15(root) as i32, square);
    let half = (seed.up & 30) / 2;
    let inverse = inverse_of(length as u32, half, low15(seed.inverse));
    let error = length - rest_of(rest);
    Guess {
        up: seed.up,
        length,
        ratio: (product(error, inverse) + 8_192) >> 14,
    }
}

impl Guesses {
    pub(crate) fn new() -> Guesses {
        Guesses {
            up: [0; 128],
            inverse: [0; 128],
            root: [0; 128],
            length: [0; 128],
            ratio: [0; 128],
        }
    }

    /// Inverse roots near those of squares.
    #[inline(never)]
    pub(crate) fn seeds(&mut self, ways: &Ways) {
        for j in 0..ways.count.min(CHUNK) {
            let seed = seed_of(ways.square[j]);
            self.up[j] = seed.up;
            self.inverse[j] = seed.inverse;
        }
    }

    #[inline(always)]
    fn seed(&self, j: usize) -> Seed
        requires { j < 128 }
    {
        Seed {
            up: self.up[j],
            inverse: self.inverse[j],
        }
    }

    /// The roots of squares.
    #[inline(never)]
    pub(crate) fn roots(&mut self, ways: &Ways) {
        for j in 0..ways.count.min(CHUNK) {
            self.root[j] = root_of(ways.square[j], self.seed(j));
        }
    }

    /// The lengths, and the errors over them.
    #[inline(never)]
    pub(crate) fn pulls(&mut self, ways: &Ways, rest: &[i32]) {
        for j in 0..ways.count.min(rest.len()).min(CHUNK) {
            let guess = guess_of(ways.square[j], self.seed(j), self.root[j], rest[j]);
            self.length[j] = guess.length;
            self.ratio[j] = guess.ratio;
        }
    }

    #[inline(always)]
    pub(crate) fn guess(&self, j: usize) -> Guess
        requires { j < 128 }
    {
        Guess {
            up: self.up[j],
            length: self.length[j],
            ratio: self.ratio[j],
        }
    }
}
