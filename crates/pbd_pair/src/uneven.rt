//! The bonds of a chunk in which some ends have unequal weights. How far each is from its rest length comes out of the loops
//! of 32-bit numbers as for all others, and here it is shared by both weights: the first end's share is guessed and tested
//! by what it leaves, and the second end's comes of what the first leaves.
ghost use Rattle.std.specs.Prelude.{◌≡◌, ℕ, ◌+◌, ◌*◌, ◌-◌, ◌%◌, ◌<◌, ◌≤◌, ◌^◌, ℤ, pos, ◌<ℤ◌, ◌≤ℤ◌, ◌-ℤ◌, neg_ℤ, length, unsigned_abs, IsTrue};
ghost use Rattle.pbd_pair.specs.Prelude.{row_in, vector_of, Within};
ghost use Rattle.pbd_num.specs.Rounding.{rdiv};
ghost use Rattle.pbd_num.specs.PairMove.{share_of};
ghost use Rattle.pbd_pair.specs.Laid.{number_in};
ghost use Rattle.pbd_pair.specs.Shares.{AreShareable, AreSharedOut, IsPortion, IsPortionOf, IsShare, Leaves};

use pbd_num::{CHUNK, Row};

/// What the corrections of bonds are shared by, in columns.
#[derive(Clone, Copy)]
pub(crate) struct Portions<'a> {
    /// The stiffness, in 256: 0 where both ends are held.
    pub(crate) stiffness: &'a [i32],
    /// 2^30 times the part of a correction that the first end moves by, guessed.
    pub(crate) guess: &'a [i32],
    /// The weights of the first ends.
    pub(crate) first: &'a [i32],
    /// The weights of the second ends.
    pub(crate) second: &'a [i32],
}

/// What the corrections of one bond are shared by.
#[derive(Clone, Copy)]
pub(crate) struct Portion {
    /// The stiffness, in 256.
    pub(crate) k: u32,
    /// The weight of the first end.
    pub(crate) first: u32,
    /// The weight of both, or 1 where both are held.
    pub(crate) total: u32,
    /// 2^30 times the part of a correction that the first end moves by, guessed.
    pub(crate) guess: u32,
}

/// The shares of both ends: what they are only where `right` is true.
#[derive(Clone, Copy)]
struct EndShares {
    first: Row,
    second: Row,
    right: bool,
}

/// The shares of one axis of a correction: what they are only where `right` is true.
#[derive(Clone, Copy)]
struct Shares {
    first: i32,
    second: i32,
    right: bool,
}

// The part `guess` / 2^30 of a size, rounded.
#[inline(always)]
fn guessed(size: u32, guess: u32) -> u32
    requires size { size ≤ 2 ^ 16 }
    requires guess { guess ≤ 2 ^ 30 }
    ensures { result ≤ 2 ^ 16 }
{
    ((u64::from(size) * u64::from(guess) + 536_870_912) >> 30) as u32
}

// The low 25 bits: the number itself where it is from 0 up, and less than 2^25.
#[inline(always)]
fn low25(left: i64) -> u32
    ensures same { pos 0 ≤ℤ left → left <ℤ pos (2 ^ 25) → result ≡ unsigned_abs left }
    ensures size { result < 2 ^ 25 }
{
    (left.cast_unsigned() % 33_554_432) as u32
}

// The low 8 bits.
#[inline(always)]
fn low8(both: i32) -> u32
    ensures rest { pos 0 ≤ℤ both → result ≡ unsigned_abs both % 256 }
    ensures size { result < 256 }
{
    both.cast_unsigned() % 256
}

// What the first end's share leaves of that of both, in 256, and a whole.
#[inline(always)]
fn left_for_both(pulled: u32, share: u32) -> i32
    requires pulled { pulled ≤ 2 ^ 24 }
    requires share { share ≤ 2 ^ 16 }
    ensures value { result ≡ pos (pulled + 256) -ℤ pos (256 * share) }
    ensures size { unsigned_abs result ≤ 2 ^ 25 }
{
    (pulled + 256) as i32 - (256 * share) as i32
}

// `whole`, or one less where `rest` is below `left`.
#[inline(always)]
fn lowered(whole: i32, rest: u32, left: u32) -> i32
    requires { unsigned_abs whole ≤ 2 ^ 24 }
    ensures lower { rest < left → result ≡ whole -ℤ pos 1 }
    ensures same { left ≤ rest → result ≡ whole }
    ensures size { unsigned_abs result ≤ 2 ^ 25 }
{
    whole - if rest < left { 1 } else { 0 }
}

// A share with the sign of its axis.
#[inline(always)]
fn signed(axis: i32, share: i32) -> i32
    requires { unsigned_abs share ≤ 2 ^ 25 }
    ensures above { pos 0 ≤ℤ axis → result ≡ share }
    ensures below { axis <ℤ pos 0 → result ≡ neg_ℤ share }
{
    if axis < 0 { -share } else { share }
}

impl Portion {
    // What the first end's share leaves of its part of `pulled`, in 256 * `total`, and a half: from 0 up and less than
    // 256 * `total` where the share is right.
    #[inline(always)]
    fn left(self, pulled: u32, share: u32) -> i64
        requires portion { IsPortion self }
        requires pulled { pulled ≤ 2 ^ 24 }
        requires share { share ≤ 2 ^ 16 }
        ensures { pos 0 ≤ℤ result → Leaves self pulled share (unsigned_abs result) }
    {
        let part = i64::from(pulled) * i64::from(self.first) + i64::from(128 * self.total);
        part - i64::from(share) * i64::from(256 * self.total)
    }

    // The second end's share, of what the first end's leaves.
    #[inline(always)]
    fn other(self, pulled: u32, share: u32, left: u32) -> i32
        requires portion { IsPortion self }
        requires pulled { pulled ≤ 2 ^ 24 }
        requires share { share ≤ 2 ^ 16 }
        ensures value { left < 256 * self.total → Leaves self pulled share left
            → result ≡ rdiv (pos (pulled * (self.total - self.first))) (pos (256 * self.total)) }
        ensures size { unsigned_abs result ≤ 2 ^ 25 }
    {
        let both = left_for_both(pulled, share);
        lowered(both >> 8, low8(both) * self.total, left)
    }

    // The shares of one axis of a correction.
    #[inline(always)]
    fn shares(self, axis: i32) -> Shares
        requires portion { IsPortion self }
        requires axis { unsigned_abs axis ≤ 2 ^ 16 }
        ensures first { IsTrue result.right → result.first ≡ share_of axis (pos self.k) (pos self.first) self.total }
        ensures second { IsTrue result.right → result.second ≡ share_of axis (pos self.k) (pos (self.total - self.first)) self.total }
        ensures first_size { IsTrue result.right → unsigned_abs result.first ≤ 2 ^ 16 }
        ensures second_size { IsTrue result.right → unsigned_abs result.second ≤ 2 ^ 16 }
    {
        let size = axis.unsigned_abs();
        let pulled = size * self.k;
        let share = guessed(size, self.guess);
        let left = self.left(pulled, share);
        let other = self.other(pulled, share, low25(left));
        Shares {
            first: signed(axis, share as i32),
            second: signed(axis, other),
            right: (0 <= left) & (left < i64::from(256 * self.total)),
        }
    }

    // The shares of a correction.
    #[inline(always)]
    fn rows(self, correction: Row) -> EndShares
        requires portion { IsPortion self }
        requires correction { Within (2 ^ 16) (vector_of correction) }
        ensures first { IsTrue result.right → IsShare (vector_of correction) (pos self.k) (pos self.first) self.total result.first }
        ensures second { IsTrue result.right
            → IsShare (vector_of correction) (pos self.k) (pos (self.total - self.first)) self.total result.second }
    {
        let x = self.shares(correction.x);
        let y = self.shares(correction.y);
        let z = self.shares(correction.z);
        EndShares {
            first: Row {
                x: x.first,
                y: y.first,
                z: z.first,
                flag: 0,
            },
            second: Row {
                x: x.second,
                y: y.second,
                z: z.second,
                flag: 0,
            },
            right: x.right & y.right & z.right,
        }
    }
}

impl Portions<'_> {
    #[inline(always)]
    fn count(self) -> usize
        requires { AreShareable self }
        ensures { result ≡ length self.entry.first.now }
    {
        let ends = self.first.len().min(self.second.len());
        ends.min(self.stiffness.len())
            .min(self.guess.len())
            .min(CHUNK)
    }

    #[inline(always)]
    fn get(self, j: usize) -> Portion
        requires shareable { AreShareable self }
        requires some { j < length self.first.now }
        ensures portion { IsPortion result }
        ensures value { IsPortionOf (number_in self.entry.stiffness.now j) (number_in self.entry.first.now j)
            (number_in self.entry.second.now j) result }
    {
        Portion {
            k: self.stiffness[j] as u32,
            first: self.first[j] as u32,
            total: (self.first[j] + self.second[j]).max(1) as u32,
            guess: self.guess[j] as u32,
        }
    }
}

/// Shares corrections by two weights each: `back` are the first ends' shares, against which those move, and `forth` the
/// second ends'. True where all of them are right.
#[inline(never)]
pub(crate) fn share(
    portions: Portions<'_>,
    corrections: &[Row; CHUNK],
    back: &mut [Row; CHUNK],
    forth: &mut [Row; CHUNK],
) -> bool
    requires shareable { AreShareable portions }
    requires short { (j : ℕ) → j < length portions.first.now → Within (2 ^ 16) (vector_of (row_in corrections.now j)) }
    ensures { IsTrue result → AreSharedOut portions.entry corrections.now back.new forth.new }
{
    // Slices of its own, so that no write makes the loop read them anew.
    let own = Portions {
        stiffness: portions.stiffness,
        guess: portions.guess,
        first: portions.first,
        second: portions.second,
    };
    let mut all = true;
    for j in 0..own.count() {
        let shares = own.get(j).rows(corrections[j]);
        back[j] = shares.first;
        forth[j] = shares.second;
        all = all & shares.right;
    }
    all
}
