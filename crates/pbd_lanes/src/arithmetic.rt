//! Sums, differences, products, tests, rounded quotients and roots of L numbers, lane by lane.
ghost use Rattle.std.specs.Prelude.{◌≡◌, ℕ, ◌<◌, ◌≤◌, ◌^◌, pos, ◌+ℤ◌, ◌-ℤ◌, ◌*ℤ◌, ◌<ℤ◌, ◌≤ℤ◌, IsTrue, unsigned_abs, FitsSigned, int_lt, if◌then◌else◌};
ghost use Rattle.std.specs.Int.{w64};
ghost use Rattle.pbd_num.specs.Rounding.{rdiv as rounded, root as whole_root};
ghost use Rattle.pbd_lanes.specs.Lane.{lane, is_set, lanes_of};

use crate::{Lanes, Mask};
use pbd_num::{rdiv, root};

impl<const L: usize> Lanes<L> {
    /// The sums. Each has to fit 64 bits.
    #[inline(always)]
    pub fn add(&self, other: &Lanes<L>) -> Lanes<L>
        requires { (j : ℕ) → j < L → FitsSigned w64 (lane self.now j +ℤ lane other.now j) }
        ensures { result ≡ lanes_of L (λ j. lane self.now j +ℤ lane other.now j) }
    {
        let mut values = [0; L];
        for j in 0..L {
            values[j] = self.values[j] + other.values[j];
        }
        Lanes { values }
    }

    /// The differences. Each has to fit 64 bits.
    #[inline(always)]
    pub fn sub(&self, other: &Lanes<L>) -> Lanes<L>
        requires { (j : ℕ) → j < L → FitsSigned w64 (lane self.now j -ℤ lane other.now j) }
        ensures { result ≡ lanes_of L (λ j. lane self.now j -ℤ lane other.now j) }
    {
        let mut values = [0; L];
        for j in 0..L {
            values[j] = self.values[j] - other.values[j];
        }
        Lanes { values }
    }

    /// The products. Each has to fit 64 bits.
    #[inline(always)]
    pub fn mul(&self, other: &Lanes<L>) -> Lanes<L>
        requires { (j : ℕ) → j < L → FitsSigned w64 (lane self.now j *ℤ lane other.now j) }
        ensures { result ≡ lanes_of L (λ j. lane self.now j *ℤ lane other.now j) }
    {
        let mut values = [0; L];
        for j in 0..L {
            values[j] = self.values[j] * other.values[j];
        }
        Lanes { values }
    }

    /// Where this is less than the other.
    #[inline(always)]
    pub fn less(&self, other: &Lanes<L>) -> Mask<L>
        ensures { result ≡ lanes_of L (λ j. int_lt (lane self.now j) (lane other.now j)) }
    {
        let mut set = [false; L];
        for j in 0..L {
            set[j] = self.values[j] < other.values[j];
        }
        Mask { set }
    }

    /// The quotients, rounded to the nearest whole number, halves away from zero, where the mask is set, and 0 elsewhere.
    /// Where it is set, the divisor is in 1..=2^40 and the dividend at most 2^61 in size.
    #[inline(always)]
    pub fn rdiv_lanes(n: &Lanes<L>, d: &Lanes<L>, mask: &Mask<L>) -> Lanes<L>
        requires divisor { (j : ℕ) → j < L → IsTrue (is_set mask.now j) → pos 0 <ℤ lane d.now j }
        requires divisor_size { (j : ℕ) → j < L → IsTrue (is_set mask.now j) → unsigned_abs (lane d.now j) ≤ 2 ^ 40 }
        requires size { (j : ℕ) → j < L → IsTrue (is_set mask.now j) → unsigned_abs (lane n.now j) ≤ 2 ^ 61 }
        ensures { result ≡ lanes_of L (λ j. if is_set mask.now j then rounded (lane n.now j) (lane d.now j) else pos 0) }
    {
        let mut values = [0; L];
        for j in 0..L {
            if mask.set[j] {
                values[j] = rdiv(n.values[j], d.values[j]);
            }
        }
        Lanes { values }
    }

    /// The square roots, rounded down, where the mask is set, and 0 elsewhere. Where it is set, the number isn't below 0.
    #[inline(always)]
    pub fn root_lanes(n: &Lanes<L>, mask: &Mask<L>) -> Lanes<L>
        requires { (j : ℕ) → j < L → IsTrue (is_set mask.now j) → pos 0 ≤ℤ lane n.now j }
        ensures { result ≡ lanes_of L (λ j. if is_set mask.now j then pos (whole_root (unsigned_abs (lane n.now j))) else pos 0) }
    {
        let mut values = [0; L];
        for j in 0..L {
            if mask.set[j] {
                values[j] = root(n.values[j]);
            }
        }
        Lanes { values }
    }
}
