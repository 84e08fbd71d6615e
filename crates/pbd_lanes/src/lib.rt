//! L whole numbers, or L truth values, side by side. The contracts hold for any L; the program has 1, 2, 4, 8 and 16.
#![tactic(auto)]

ghost use Rattle.std.specs.Prelude.{◌≡◌, ℕ, ◌<◌, ◌&&◌, if◌then◌else◌, position, IfSome};
ghost use Rattle.pbd_lanes.specs.Lane.{lane, is_set, lanes_of};

mod arithmetic;

use std::marker::Model;

/// L numbers, which contracts see as a list of L.
#[derive(Clone, Copy)]
pub struct Lanes<const L: usize> {
    values: [i64; L],
}

impl<const L: usize> Model for Lanes<L> {
    ghost use Rattle.std.specs.Prelude.{◌≡◌, List, ℤ, length};

    ghost Value = { List ℤ };

    ghost view = { λ a. a.values };

    ghost invariant = { λ a. length a.values ≡ L };

    ghost inverse = { λ v. record { values = v } };
}

/// L truth values, which contracts see as a list of L.
#[derive(Clone, Copy)]
pub struct Mask<const L: usize> {
    set: [bool; L],
}

impl<const L: usize> Model for Mask<L> {
    ghost use Rattle.std.specs.Prelude.{◌≡◌, List, Bool, length};

    ghost Value = { List Bool };

    ghost view = { λ a. a.set };

    ghost invariant = { λ a. length a.set ≡ L };

    ghost inverse = { λ v. record { set = v } };
}

impl<const L: usize> Lanes<L> {
    /// One number in each lane.
    #[inline(always)]
    pub fn splat(value: i64) -> Lanes<L>
        ensures { result ≡ lanes_of L (λ _. value) }
    {
        Lanes { values: [value; L] }
    }

    /// The numbers of an array.
    #[inline(always)]
    pub fn from_array(values: [i64; L]) -> Lanes<L>
        ensures { result ≡ values.entry }
    {
        Lanes { values }
    }

    /// The numbers as an array.
    #[inline(always)]
    pub fn to_array(&self) -> [i64; L]
        ensures { result ≡ self.now }
    {
        self.values
    }

    /// The number of lane j.
    #[inline(always)]
    pub fn at(&self, j: usize) -> i64
        requires { j < L }
        ensures { result ≡ lane self.now j }
    {
        self.values[j]
    }

    /// Puts another number into lane j.
    #[inline(always)]
    pub fn put(&mut self, j: usize, value: i64)
        requires { j < L }
        ensures here { lane self.new j ≡ value }
        ensures others { (k : ℕ) → (k ≡ j → ⊥) → lane self.new k ≡ lane self.old k }
    {
        self.values[j] = value;
    }

    /// The lanes of `yes` where the mask is set, and of `no` elsewhere.
    #[inline(always)]
    pub fn select(mask: &Mask<L>, yes: &Lanes<L>, no: &Lanes<L>) -> Lanes<L>
        ensures { result ≡ lanes_of L (λ j. if is_set mask.now j then lane yes.now j else lane no.now j) }
    {
        let mut values = [0; L];
        for j in 0..L {
            values[j] = if mask.set[j] {
                yes.values[j]
            } else {
                no.values[j]
            };
        }
        Lanes { values }
    }
}

impl<const L: usize> Mask<L> {
    /// The truth values of an array.
    #[inline(always)]
    pub fn from_array(set: [bool; L]) -> Mask<L>
        ensures { result ≡ set.entry }
    {
        Mask { set }
    }

    /// The truth values as an array.
    #[inline(always)]
    pub fn to_array(&self) -> [bool; L]
        ensures { result ≡ self.now }
    {
        self.set
    }

    /// One truth value in each lane.
    #[inline(always)]
    pub fn splat(value: bool) -> Mask<L>
        ensures { result ≡ lanes_of L (λ _. value) }
    {
        Mask { set: [value; L] }
    }

    /// Whether lane j is set.
    #[inline(always)]
    pub fn at(&self, j: usize) -> bool
        requires { j < L }
        ensures { result ≡ is_set self.now j }
    {
        self.set[j]
    }

    /// Puts another truth value into lane j.
    #[inline(always)]
    pub fn put(&mut self, j: usize, value: bool)
        requires { j < L }
        ensures here { is_set self.new j ≡ value }
        ensures others { (k : ℕ) → (k ≡ j → ⊥) → is_set self.new k ≡ is_set self.old k }
    {
        self.set[j] = value;
    }

    /// Where both masks are set.
    #[inline(always)]
    pub fn and(&self, other: &Mask<L>) -> Mask<L>
        ensures { result ≡ lanes_of L (λ j. is_set self.now j && is_set other.now j) }
    {
        let mut set = [false; L];
        for j in 0..L {
            set[j] = self.set[j] && other.set[j];
        }
        Mask { set }
    }

    /// The least lane that is set, and `None` where none is.
    #[inline(always)]
    pub fn first(&self) -> Option<usize>
        ensures value { result ≡ position (λ b. b) self.now }
        ensures below { IfSome result (λ j. j < L) }
    {
        self.set.iter().position(|b| *b)
    }
}
