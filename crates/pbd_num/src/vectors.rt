//! Sums, differences, parts and lengths of vectors.
ghost use Rattle.std.specs.Prelude.{◌≡◌, ℕ, ◌≤◌, ◌<◌, ◌^◌, ◌+◌, ◌*◌, pos, ◌*ℤ◌, ◌<ℤ◌, unsigned_abs};
ghost use Rattle.pbd_num.specs.Rounding.{rdiv as rounded};
ghost use Rattle.pbd_num.specs.Vectors.{Within, plus, minus, opposite, times, scaled, squared_length, length_of};

use crate::{Vec3, rdiv, root};

/// The square of a number.
#[inline(always)]
pub fn square(n: i64) -> i64
    requires { unsigned_abs n ≤ 2 ^ 31 }
    ensures { result ≡ pos (unsigned_abs n * unsigned_abs n) }
{
    n * n
}

/// The part `part / whole` of one axis.
fn scaled_axis(axis: i64, part: i64, whole: i64) -> i64
    requires product { unsigned_abs (axis *ℤ part) ≤ 2 ^ 61 }
    requires whole_low { pos 0 <ℤ whole }
    requires whole_high { unsigned_abs whole ≤ 2 ^ 40 }
    ensures value { result ≡ rounded (axis *ℤ part) whole }
    ensures fits { unsigned_abs result ≤ 2 ^ 61 }
    ensures size { (bound : ℕ) → unsigned_abs part ≤ unsigned_abs whole → unsigned_abs axis ≤ bound → unsigned_abs result ≤ bound }
{
    rdiv(axis * part, whole)
}

impl Vec3 {
    /// The sum of two vectors: the place to which the way `other` leads from this place.
    #[inline(always)]
    pub fn plus(self, other: Vec3) -> Vec3
        requires first { Within (2 ^ 61) self }
        requires second { Within (2 ^ 61) other }
        ensures value { result ≡ plus self other }
        ensures size { (m n : ℕ) → Within m self → Within n other → Within (m + n) result }
    {
        Vec3 {
            x: self.x + other.x,
            y: self.y + other.y,
            z: self.z + other.z,
        }
    }

    /// The difference of two vectors: the way from the place `other` to this place.
    pub fn minus(self, other: Vec3) -> Vec3
        requires first { Within (2 ^ 61) self }
        requires second { Within (2 ^ 61) other }
        ensures value { result ≡ minus self other }
        ensures size { (m n : ℕ) → Within m self → Within n other → Within (m + n) result }
    {
        Vec3 {
            x: self.x - other.x,
            y: self.y - other.y,
            z: self.z - other.z,
        }
    }

    /// The opposite vector.
    pub fn opposite(self) -> Vec3
        requires { Within (2 ^ 61) self }
        ensures value { result ≡ opposite self }
        ensures size { (n : ℕ) → Within n self → Within n result }
    {
        Vec3 {
            x: -self.x,
            y: -self.y,
            z: -self.z,
        }
    }

    /// The part `part / whole` of the vector, each axis rounded to the nearest whole number, halves away from zero.
    pub fn scaled(self, part: i64, whole: i64) -> Vec3
        requires vector { Within (2 ^ 30) self }
        requires part { unsigned_abs part ≤ 2 ^ 31 }
        requires whole_low { pos 0 <ℤ whole }
        requires whole_high { unsigned_abs whole ≤ 2 ^ 40 }
        ensures value { result ≡ scaled part whole self }
        ensures fits { Within (2 ^ 61) result }
        ensures size { (n : ℕ) → unsigned_abs part ≤ unsigned_abs whole → Within n self → Within n result }
    {
        self.part_of(part, whole)
    }

    /// The same, of any vector of which no axis times `part` is too great to be divided.
    #[inline(always)]
    pub(crate) fn part_of(self, part: i64, whole: i64) -> Vec3
        requires vector { Within (2 ^ 61) self }
        requires products { Within (2 ^ 61) (times part self) }
        requires whole_low { pos 0 <ℤ whole }
        requires whole_high { unsigned_abs whole ≤ 2 ^ 40 }
        ensures value { result ≡ scaled part whole self }
        ensures fits { Within (2 ^ 61) result }
        ensures size { (n : ℕ) → unsigned_abs part ≤ unsigned_abs whole → Within n self → Within n result }
    {
        Vec3 {
            x: scaled_axis(self.x, part, whole),
            y: scaled_axis(self.y, part, whole),
            z: scaled_axis(self.z, part, whole),
        }
    }

    /// The sum of the squares of the three axes.
    pub fn squared_length(self) -> i64
        requires { Within (2 ^ 30) self }
        ensures { result ≡ pos (squared_length self) }
    {
        square(self.x) + square(self.y) + square(self.z)
    }

    /// The length, rounded down.
    pub fn length(self) -> i64
        requires { Within (2 ^ 30) self }
        ensures value { result ≡ pos (length_of self) }
        ensures size { length_of self < 2 ^ 31 }
    {
        root(self.squared_length())
    }
}
