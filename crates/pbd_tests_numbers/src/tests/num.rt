//! Quotients, vectors and the range.
ghost use Rattle.std.specs.Prelude.{◌^◌, IsTrue};
ghost use Rattle.pbd_num.specs.Vectors.{Within};

use pbd_num::{RANGE, Vec3, distance, inside, pair_move, rdiv, within};
use pbd_tests_rows::{WrongRows, all_hold, is_within, place, wrong_row};

fn both_inside(a: Vec3, b: Vec3) -> bool
    ensures first { IsTrue result → Within (2 ^ 29) a }
    ensures second { IsTrue result → Within (2 ^ 29) b }
{
    if !inside(a) {
        return false;
    }
    inside(b)
}

/// The moves of both ends of a pair. None where it is out of range.
pub(crate) fn exact_moves(
    ends: (Vec3, Vec3),
    rest: u32,
    k: u16,
    weights: (u16, u16),
) -> Option<(Vec3, Vec3)> {
    let (a, b) = ends;
    if !both_inside(a, b) {
        return None;
    }
    if rest > 1 << 31 {
        return None;
    }
    if k > 256 {
        return None;
    }
    Some(pair_move(
        a,
        b,
        rest as i64,
        k as i64,
        weights.0 as i64,
        weights.1 as i64,
    ))
}

/// The distance of two places. None where one of them is out of range.
pub(crate) fn apart(a: Vec3, b: Vec3) -> Option<i64> {
    if !both_inside(a, b) {
        return None;
    }
    Some(distance(a, b))
}

#[test]
fn halves_are_rounded_away_from_zero(rt: HostRuntime) {
    let near_halves = [
        rdiv(5, 2),
        rdiv(-5, 2),
        rdiv(4, 3),
        rdiv(-4, 3),
        rdiv(0, 7),
        rdiv(1 << 61, 1),
        rdiv(-(1 << 61), 1 << 40),
        rdiv(1 << 39, 1 << 40),
        rdiv(-(1 << 39), 1 << 40),
        rdiv((1 << 39) - 1, 1 << 40),
    ];
    assert!(rt;
        near_halves == [3, -3, 1, -1, 0, 1 << 61, -2_097_152, 1, -1, 0],
        "quotients: {near_halves:?}"
    );
}

/// The sum of two places, the ways from the second to the first and back, the opposite of a way, half of the first place, and
/// its squared length and length. None where an axis of the first place is above 2^30 in size, or one of the others above 2^61.
fn calculated(a: Vec3, b: Vec3, way: Vec3) -> Option<([Vec3; 5], [i64; 2])> {
    if !is_within(a, 1 << 61) {
        return None;
    }
    if !is_within(b, 1 << 61) {
        return None;
    }
    if !is_within(way, 1 << 61) {
        return None;
    }
    if !is_within(a, 1 << 30) {
        return None;
    }
    Some((
        [
            a.plus(b),
            a.minus(b),
            b.minus(a),
            way.opposite(),
            a.scaled(1, 2),
        ],
        [a.squared_length(), a.length()],
    ))
}

/// Two places, their sum, the ways from the second to the first and back, and of the first place the half, the squared
/// length and the length.
type Calculated = (Vec3, Vec3, (Vec3, Vec3, Vec3), Vec3, [i64; 2]);

static CALCULATED: [Calculated; 2] = [
    (
        place!(3, -4, 12),
        place!(1, 2, -2),
        (place!(4, -2, 10), place!(2, -6, 14), place!(-2, 6, -14)),
        place!(2, -2, 6),
        [169, 13],
    ),
    (
        place!(-RANGE, 0, 0),
        place!(RANGE, 0, 0),
        (Vec3::ZERO, place!(-1 << 30, 0, 0), place!(1 << 30, 0, 0)),
        place!(-1 << 28, 0, 0),
        [1 << 58, RANGE],
    ),
];

#[test]
fn vectors_are_calculated_axis_by_axis(rt: HostRuntime) -> Result<(), WrongRows> {
    let mut wrong = 0u32;
    for (a, b, (sum, way, back), half, lengths) in &CALCULATED {
        let came_to = calculated(*a, *b, *way);
        let wanted = Some(([*sum, *way, *back, *back, *half], *lengths));
        wrong = wrong.saturating_add(wrong_row(&rt, (&(a, b), "come to"), &came_to, &wanted));
    }
    all_hold(wrong)
}

#[test]
fn the_range_has_its_limits(rt: HostRuntime) {
    let tests = [
        inside(place!(RANGE, -RANGE, 0)),
        inside(place!(0, 0, RANGE + 1)),
        inside(place!(i64::MIN, 0, 0)),
        within(place!(5, -5, 5), 5),
        within(place!(5, -6, 5), 5),
        within(Vec3::ZERO, 0),
    ];
    assert!(rt;
        tests == [true, false, false, true, false, true],
        "within the range or a bound: {tests:?}"
    );
    let lengths = [
        apart(place!(0, 3, 0), place!(4, 0, 0)),
        apart(place!(RANGE, RANGE, RANGE), place!(-RANGE, -RANGE, -RANGE)),
    ];
    assert!(rt;
        lengths == [Some(5), Some(1_859_775_393)],
        "distances: {lengths:?}"
    );
}
