// Bonds in columns, as short loops take them.
ghost use Rattle.std.specs.Prelude.{◌≡◌, ◌<◌, ◌≤◌, pos, ◌≤ℤ◌, length, IfOk};
ghost use Rattle.pbd_store.specs.Gathering.{index_at};
ghost use Rattle.pbd_pair.specs.Bonds.{bond_of};
ghost use Rattle.pbd_pair.specs.Laid.{back_of, factor_of, front_of, laid_bond, lists_in, lists_of, portion_of, short_rest, stiffness_of, with_row, AreEven, AreLaid, AreLayable, HaveRows, IsFirm};

use crate::bonds::Bonds;
use pbd_store::Pairs;
use pbd_world::Bond;
use std::alloc::{AllocError, Global};

/// A bond as short loops take it: its ends, their effective weights, its rest length where that is below 16,384 units,
/// the part of a correction that a free end moves by, in 512, or -1 where it isn't for those loops; and for unequal weights
/// its stiffness in 256, or -1, and 2^30 times the first end's part of a correction.
#[derive(Clone, Copy)]
pub(crate) struct LaidBond {
    pub(crate) first: u32,
    pub(crate) second: u32,
    pub(crate) rest: i32,
    pub(crate) factor: i32,
    pub(crate) stiffness: i32,
    pub(crate) portion: i32,
    pub(crate) first_weight: i32,
    pub(crate) second_weight: i32,
}

/// Bonds in columns, in the order in which they are projected.
#[derive(Clone, Copy)]
pub struct Laid<'a> {
    pub(crate) first: &'a [u32],
    pub(crate) second: &'a [u32],
    pub(crate) rest: &'a [i32],
    pub(crate) factor: &'a [i32],
    pub(crate) stiffness: &'a [i32],
    pub(crate) portion: &'a [i32],
    pub(crate) first_weight: &'a [i32],
    pub(crate) second_weight: &'a [i32],
}

/// Room for bonds in columns. Only opening takes memory.
#[derive(Drop)]
pub struct BondColumns {
    first: Vec<u32>,
    second: Vec<u32>,
    rest: Vec<i32>,
    factor: Vec<i32>,
    stiffness: Vec<i32>,
    portion: Vec<i32>,
    first_weight: Vec<i32>,
    second_weight: Vec<i32>,
}

// A rest length as 32-bit numbers go by it: less than a fourth of a metre, 16,383 units at most.
#[inline(always)]
fn short_rest(rest: i64) -> i32
    requires { pos 0 ≤ℤ rest }
    ensures { result ≡ short_rest rest }
{
    rest.min(16_383) as i32
}

// The factor of a bond: -1 where the rest length is a fourth of a metre or more, or both ends are free and their weights
// differ; else its stiffness where both ends are free, and twice that where one is held, or both are.
#[inline(always)]
#[tactic(auto, unfolding(crate::specs::Laid::factor_of))]
fn factor_of(bond: Bond, first: i32, second: i32) -> i32
    requires { IsFirm bond }
    ensures { result ≡ factor_of bond first second }
{
    let both = (0 < first) & (0 < second);
    let differ = (first < second) | (second < first);
    if (16_384 <= bond.rest) | (both & differ) {
        -1
    } else if both {
        bond.k as i32
    } else {
        2 * bond.k as i32
    }
}

// The stiffness that both ends share: -1 where the rest length is a fourth of a metre or more, and else 0 where both are held.
#[inline(always)]
#[tactic(auto, unfolding(crate::specs::Laid::stiffness_of))]
fn stiffness_of(bond: Bond, first: i32, second: i32) -> i32
    requires { IsFirm bond }
    ensures { result ≡ stiffness_of bond first second }
{
    let held = (first <= 0) & (second <= 0);
    if 16_384 <= bond.rest {
        -1
    } else if held {
        0
    } else {
        bond.k as i32
    }
}

// 2^30 times the first end's part of a correction. It is a little too much, but 2^30 at most, so that where a share lies halfway
// between two whole numbers the guess is the upper one, as rounding has it.
#[inline(always)]
#[tactic(auto, unfolding(crate::specs::Laid::portion_of))]
fn portion_of(bond: Bond, first: i32, second: i32) -> i32
    requires { IsFirm bond }
    ensures { result ≡ portion_of bond first second }
{
    let first = u64::from(first.unsigned_abs());
    let total = (first + u64::from(second.unsigned_abs())).max(1);
    let part = bond.k.unsigned_abs() * first * 4_194_304 / total;
    (part + 1).min(1_073_741_824) as i32
}

/// A bond whose ends have these effective weights.
#[inline(always)]
pub(crate) fn laid_of(bond: Bond, first: i32, second: i32) -> LaidBond
    requires { IsFirm bond }
    ensures { result ≡ laid_bond bond first second }
{
    LaidBond {
        first: bond.a,
        second: bond.b,
        rest: short_rest(bond.rest),
        factor: factor_of(bond, first, second),
        stiffness: stiffness_of(bond, first, second),
        portion: portion_of(bond, first, second),
        first_weight: first,
        second_weight: second,
    }
}

impl<'a> Laid<'a> {
    /// The ends of the bonds.
    #[inline(always)]
    pub(crate) fn pairs(self) -> Pairs<'a>
        ensures first { result.first.now ≡ self.entry.first.now }
        ensures second { result.second.now ≡ self.entry.second.now }
    {
        Pairs {
            first: self.first,
            second: self.second,
        }
    }

    /// The first bonds, and those after them.
    pub fn split_at(self, count: usize) -> (Laid<'a>, Laid<'a>)
        requires even { AreEven (lists_of self) }
        requires fits { count ≤ length self.first.now }
        ensures front { lists_of result.0 ≡ front_of count (lists_of self.entry) }
        ensures back { lists_of result.1 ≡ back_of count (lists_of self.entry) }
    {
        let (first, first_after) = self.first.split_at(count);
        let (second, second_after) = self.second.split_at(count);
        let (rest, rest_after) = self.rest.split_at(count);
        let (factor, factor_after) = self.factor.split_at(count);
        let (stiffness, stiffness_after) = self.stiffness.split_at(count);
        let (portion, portion_after) = self.portion.split_at(count);
        let (first_weight, first_weight_after) = self.first_weight.split_at(count);
        let (second_weight, second_weight_after) = self.second_weight.split_at(count);
        let front = Laid {
            first,
            second,
            rest,
            factor,
            stiffness,
            portion,
            first_weight,
            second_weight,
        };
        let back = Laid {
            first: first_after,
            second: second_after,
            rest: rest_after,
            factor: factor_after,
            stiffness: stiffness_after,
            portion: portion_after,
            first_weight: first_weight_after,
            second_weight: second_weight_after,
        };
        (front, back)
    }
}

impl BondColumns {
    /// Room for so many bonds. The only call that takes memory.
    pub fn open(alloc: Global, room: u32) -> Result<BondColumns, AllocError>
        ensures { IfOk result (λ columns. HaveRows room columns) }
    {
        Ok(BondColumns {
            first: vec![in alloc; 0; room as usize]?,
            second: vec![in alloc; 0; room as usize]?,
            rest: vec![in alloc; 0; room as usize]?,
            factor: vec![in alloc; 0; room as usize]?,
            stiffness: vec![in alloc; 0; room as usize]?,
            portion: vec![in alloc; 0; room as usize]?,
            first_weight: vec![in alloc; 0; room as usize]?,
            second_weight: vec![in alloc; 0; room as usize]?,
        })
    }

    // Puts a bond into row i.
    #[inline(always)]
    fn put(&mut self, i: usize, laid: LaidBond)
        requires even { AreEven (lists_in self.old) }
        requires some { i < length self.old.first.items }
        ensures { lists_in self.new ≡ with_row i laid (lists_in self.old) }
    {
        self.first[i] = laid.first;
        self.second[i] = laid.second;
        self.rest[i] = laid.rest;
        self.factor[i] = laid.factor;
        self.stiffness[i] = laid.stiffness;
        self.portion[i] = laid.portion;
        self.first_weight[i] = laid.first_weight;
        self.second_weight[i] = laid.second_weight;
    }

    /// Lays the bonds of some numbers, whose particles have these effective weights, from the first row on.
    pub fn lay(&mut self, bonds: Bonds<'_>, order: &[u32], weights: &[u16])
        requires layable { AreLayable bonds order.now weights.now }
        requires even { AreEven (lists_in self.old) }
        requires room { length order.now ≤ length self.old.first.items }
        ensures laid { AreLaid (bond_of bonds.entry) (index_at weights.now) order.now (lists_in self.new) }
        ensures room { length self.new.first.items ≡ length self.old.first.items }
    {
        for (i, n) in order.iter().enumerate() {
            let bond = bonds.get(*n);
            let first = i32::from(weights[bond.a as usize]);
            let second = i32::from(weights[bond.b as usize]);
            self.put(i, laid_of(bond, first, second));
        }
    }

    /// The bonds of the first rows.
    pub fn first_rows(&self, count: usize) -> Laid<'_>
        requires even { AreEven (lists_in self.now) }
        requires fits { count ≤ length self.now.first.items }
        ensures { lists_of result ≡ front_of count (lists_in self.now) }
    {
        Laid {
            first: &self.first[..count],
            second: &self.second[..count],
            rest: &self.rest[..count],
            factor: &self.factor[..count],
            stiffness: &self.stiffness[..count],
            portion: &self.portion[..count],
            first_weight: &self.first_weight[..count],
            second_weight: &self.second_weight[..count],
        }
    }
}
