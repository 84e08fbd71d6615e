//! Each call over whole arrays, at each width, and at width 4 what is put into one lane.
ghost use Rattle.std.specs.Prelude.{ℕ, ◌<◌, ◌≤◌, ◌^◌, pos, ◌<ℤ◌, IsTrue, unsigned_abs};
ghost use Rattle.pbd_lanes.specs.Lane.{lane};

use pbd_lanes::{Lanes, Mask};
use pbd_num::{RANGE, axis_within};

/// What each call comes to.
#[derive(Clone, Copy, Drop)]
struct Seen<const L: usize> {
    sum: [i64; L],
    difference: [i64; L],
    product: [i64; L],
    less: [bool; L],
    quotient: [i64; L],
    root: [i64; L],
    chosen: [i64; L],
    both: [bool; L],
    first: Option<usize>,
    ones: [i64; L],
}

/// Numbers, which of their lanes are set in two masks, and what is seen of them.
struct Case<const L: usize> {
    x: [i64; L],
    y: [i64; L],
    set: [bool; L],
    other: [bool; L],
    seen: Seen<L>,
}

/// Whether each number is in range.
fn are_in_range<const L: usize>(numbers: &Lanes<L>) -> bool
    requires { L ≤ 16 }
    ensures { IsTrue result → (j : ℕ) → j < L → unsigned_abs (lane numbers.now j) ≤ 2 ^ 29 }
{
    for j in 0..L {
        if !axis_within(numbers.at(j), RANGE) {
            return false;
        }
    }
    true
}

/// Whether each number is above 0.
fn are_above_0<const L: usize>(numbers: &Lanes<L>) -> bool
    requires { L ≤ 16 }
    ensures { IsTrue result → (j : ℕ) → j < L → pos 0 <ℤ lane numbers.now j }
{
    for j in 0..L {
        if numbers.at(j) <= 0 {
            return false;
        }
    }
    true
}

fn see<const L: usize>(x: &Lanes<L>, y: &Lanes<L>, mask: &Mask<L>, other: &Mask<L>) -> Seen<L>
    requires lanes { L ≤ 16 }
    requires x { (j : ℕ) → j < L → unsigned_abs (lane x.now j) ≤ 2 ^ 29 }
    requires y { (j : ℕ) → j < L → unsigned_abs (lane y.now j) ≤ 2 ^ 29 }
    requires above { (j : ℕ) → j < L → pos 0 <ℤ lane y.now j }
{
    let both = mask.and(other);
    Seen {
        sum: x.add(y).to_array(),
        difference: x.sub(y).to_array(),
        product: x.mul(y).to_array(),
        less: x.less(y).to_array(),
        quotient: Lanes::rdiv_lanes(x, y, mask).to_array(),
        root: Lanes::root_lanes(y, mask).to_array(),
        chosen: Lanes::select(mask, x, y).to_array(),
        both: both.to_array(),
        first: both.first(),
        ones: Lanes::splat(1).to_array(),
    }
}

/// Which calls come to what a case says. None where one of its numbers is out of range, or a second one isn't above 0.
fn compared<const L: usize>(case: &Case<L>) -> Option<[bool; 10]>
    requires { L ≤ 16 }
{
    let x = Lanes::from_array(case.x);
    let y = Lanes::from_array(case.y);
    if !are_in_range(&x) {
        return None;
    }
    if !are_in_range(&y) {
        return None;
    }
    if !are_above_0(&y) {
        return None;
    }
    let other = Mask::from_array(case.other);
    let seen = see(&x, &y, &Mask::from_array(case.set), &other);
    Some([
        seen.sum == case.seen.sum,
        seen.difference == case.seen.difference,
        seen.product == case.seen.product,
        seen.less == case.seen.less,
        seen.quotient == case.seen.quotient,
        seen.root == case.seen.root,
        seen.chosen == case.seen.chosen,
        seen.both == case.seen.both,
        seen.first == case.seen.first,
        seen.ones == case.seen.ones,
    ])
}

/// Four lanes, what was put into one of them, and what one of them has.
fn changed(put: usize, seen: usize) -> ([i64; 4], [bool; 4], i64, bool)
    requires put { put < 4 }
    requires seen { seen < 4 }
{
    let mut numbers: Lanes<4> = Lanes::splat(3);
    let mut mask: Mask<4> = Mask::splat(false);
    numbers.put(put, 8);
    mask.put(put, true);
    let (number, set) = (numbers.at(seen), mask.at(seen));
    (numbers.to_array(), mask.to_array(), number, set)
}

#[test]
fn a_number_is_put_into_one_lane(rt: HostRuntime) {
    let four = [changed(0, 3), changed(2, 2)];
    let wanted = [
        ([8, 3, 3, 3], [true, false, false, false], 3, false),
        ([3, 3, 8, 3], [false, false, true, false], 8, true),
    ];
    assert!(rt;
        four == wanted,
        "lanes after a number was put into one: {four:?}"
    );
}

static ONE: Case<1> = Case {
    x: [-2],
    y: [4],
    set: [false],
    other: [true],
    seen: Seen {
        sum: [2],
        difference: [-6],
        product: [-8],
        less: [true],
        quotient: [0],
        root: [0],
        chosen: [4],
        both: [false],
        first: None,
        ones: [1],
    },
};

static TWO: Case<2> = Case {
    x: [6, -2],
    y: [5, 4],
    set: [true, true],
    other: [false, true],
    seen: Seen {
        sum: [11, 2],
        difference: [1, -6],
        product: [30, -8],
        less: [false, true],
        quotient: [1, -1],
        root: [2, 2],
        chosen: [6, -2],
        both: [false, true],
        first: Some(1),
        ones: [1, 1],
    },
};

static FOUR: Case<4> = Case {
    x: [-9, 4, 6, -2],
    y: [6, 8, 5, 4],
    set: [false, false, true, true],
    other: [true, true, false, true],
    seen: Seen {
        sum: [-3, 12, 11, 2],
        difference: [-15, -4, 1, -6],
        product: [-54, 32, 30, -8],
        less: [true, true, false, true],
        quotient: [0, 0, 1, -1],
        root: [0, 0, 2, 2],
        chosen: [6, 8, 6, -2],
        both: [false, false, false, true],
        first: Some(3),
        ones: [1, 1, 1, 1],
    },
};

static EIGHT: Case<8> = Case {
    x: [2, -6, 7, 1, -9, 4, 6, -2],
    y: [4, 7, 2, 3, 6, 8, 5, 4],
    set: [false, true, false, true, true, false, true, true],
    other: [true, true, false, true, true, true, false, true],
    seen: Seen {
        sum: [6, 1, 9, 4, -3, 12, 11, 2],
        difference: [-2, -13, 5, -2, -15, -4, 1, -6],
        product: [8, -42, 14, 3, -54, 32, 30, -8],
        less: [true, true, false, true, true, true, false, true],
        quotient: [0, -1, 0, 0, -2, 0, 1, -1],
        root: [0, 2, 0, 1, 2, 0, 2, 2],
        chosen: [4, -6, 2, 1, -9, 8, 6, -2],
        both: [false, true, false, true, true, false, false, true],
        first: Some(1),
        ones: [1, 1, 1, 1, 1, 1, 1, 1],
    },
};

static SIXTEEN: Case<16> = Case {
    x: [-7, 5, 0, 9, -1, 8, 3, -4, 2, -6, 7, 1, -9, 4, 6, -2],
    y: [2, 3, 4, 2, 3, 5, 2, 3, 4, 7, 2, 3, 6, 8, 5, 4],
    set: [
        true, false, true, true, false, true, true, false, false, true, false, true, true, false,
        true, true,
    ],
    other: [
        true, false, true, false, true, false, false, true, true, true, false, true, true, true,
        false, true,
    ],
    seen: Seen {
        sum: [-5, 8, 4, 11, 2, 13, 5, -1, 6, 1, 9, 4, -3, 12, 11, 2],
        difference: [-9, 2, -4, 7, -4, 3, 1, -7, -2, -13, 5, -2, -15, -4, 1, -6],
        product: [
            -14, 15, 0, 18, -3, 40, 6, -12, 8, -42, 14, 3, -54, 32, 30, -8,
        ],
        less: [
            true, false, true, false, true, false, false, true, true, true, false, true, true,
            true, false, true,
        ],
        quotient: [-4, 0, 0, 5, 0, 2, 2, 0, 0, -1, 0, 0, -2, 0, 1, -1],
        root: [1, 0, 2, 1, 0, 2, 1, 0, 0, 2, 0, 1, 2, 0, 2, 2],
        chosen: [-7, 3, 0, 9, 3, 8, 3, 3, 4, -6, 2, 1, -9, 8, 6, -2],
        both: [
            true, false, true, false, false, false, false, false, false, true, false, true, true,
            false, false, true,
        ],
        first: Some(0),
        ones: [1, 1, 1, 1, 1, 1, 1, 1, 1, 1, 1, 1, 1, 1, 1, 1],
    },
};

static GREAT: Case<4> = Case {
    x: [536870912, -536870912, 536870911, -5],
    y: [536870912, 7, 2, 10],
    set: [true, true, true, true],
    other: [false, false, true, true],
    seen: Seen {
        sum: [1073741824, -536870905, 536870913, 5],
        difference: [0, -536870919, 536870909, -15],
        product: [288230376151711744, -3758096384, 1073741822, -50],
        less: [false, true, false, true],
        quotient: [1, -76695845, 268435456, -1],
        root: [23170, 2, 1, 3],
        chosen: [536870912, -536870912, 536870911, -5],
        both: [false, false, true, true],
        first: Some(2),
        ones: [1, 1, 1, 1],
    },
};

#[test]
fn each_width_calculates_as_its_case_says(rt: HostRuntime) {
    let told = [
        compared(&ONE),
        compared(&TWO),
        compared(&FOUR),
        compared(&EIGHT),
        compared(&SIXTEEN),
        compared(&GREAT),
    ];
    assert!(rt;
        told == [Some([true; 10]); 6],
        "at widths 1, 2, 4, 8, 16 and of the greatest numbers, which calls come to what they should: {told:?}"
    );
}
