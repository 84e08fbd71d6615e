//! The moves of pairs, among them hard ones: short lengths, quotients at halves, weights from 0 to 65,535.
use super::num::exact_moves;
use pbd_num::{Pull, RANGE, TriedMoves, Vec3, Weights, try_moves};
use pbd_tests_rows::{WrongRows, all_hold, is_within, place, wrong_row};

/// Two places, a rest length, a stiffness, two effective weights, and how both places move.
type Pair = ((Vec3, Vec3), u32, u16, (u16, u16), (Vec3, Vec3));

/// A pair: its places; its rest length and stiffness; its weights; and how its places move.
macro_rules! pair {
    (
        [$($a:expr),*], [$($b:expr),*]; $rest:expr, $k:expr; $first:expr, $second:expr;
        [$($first_by:expr),*], [$($second_by:expr),*]
    ) => {
        (
            (place!($($a),*), place!($($b),*)),
            $rest,
            $k,
            ($first, $second),
            (place!($($first_by),*), place!($($second_by),*)),
        )
    };
}

/// How many of the pairs, from the first on, are hard ones.
const HARD: usize = 30;

static PAIRS: [Pair; 40] = [
    pair!([0, 0, 0], [0, 0, 0]; 0, 256; 1, 1; [0, 0, 0], [0, 0, 0]),
    pair!([0, 0, 0], [0, 0, 0]; 2, 256; 1, 1; [0, 0, 0], [0, 0, 0]),
    pair!([0, 0, 0], [0, 0, 0]; 5, 256; 1, 1; [0, 0, 0], [0, 0, 0]),
    pair!([1, 0, 0], [0, 0, 0]; 0, 256; 1, 1; [-1, 0, 0], [1, 0, 0]),
    pair!([1, 0, 0], [0, 0, 0]; 2, 256; 1, 1; [1, 0, 0], [-1, 0, 0]),
    pair!([1, 0, 0], [0, 0, 0]; 5, 256; 1, 1; [2, 0, 0], [-2, 0, 0]),
    pair!([2, 0, 0], [0, 0, 0]; 0, 256; 1, 1; [-1, 0, 0], [1, 0, 0]),
    pair!([2, 0, 0], [0, 0, 0]; 2, 256; 1, 1; [0, 0, 0], [0, 0, 0]),
    pair!([2, 0, 0], [0, 0, 0]; 5, 256; 1, 1; [2, 0, 0], [-2, 0, 0]),
    pair!([3, 0, 0], [0, 0, 0]; 0, 256; 1, 1; [-2, 0, 0], [2, 0, 0]),
    pair!([3, 0, 0], [0, 0, 0]; 2, 256; 1, 1; [-1, 0, 0], [1, 0, 0]),
    pair!([3, 0, 0], [0, 0, 0]; 5, 256; 1, 1; [1, 0, 0], [-1, 0, 0]),
    pair!([1, 1, 0], [0, 0, 0]; 0, 256; 1, 1; [-1, -1, 0], [1, 1, 0]),
    pair!([1, 1, 1], [0, 0, 0]; 3, 256; 3, 1; [2, 2, 2], [-1, -1, -1]),
    pair!([RANGE, -RANGE, RANGE], [-RANGE, RANGE, -RANGE]; 1 << 31, 256; 1, 65_535;
        [2_535, -2_535, 2_535], [-166_105_904, 166_105_904, -166_105_904]),
    pair!([RANGE, -RANGE, RANGE], [-RANGE, RANGE, -RANGE]; 1 << 31, 256; 65_535, 65_534;
        [83_054_853, -83_054_853, 83_054_853], [-83_053_586, 83_053_586, -83_053_586]),
    pair!([RANGE, -RANGE, RANGE], [-RANGE, RANGE, -RANGE]; 1 << 31, 256; 65_535, 65_535;
        [83_054_220, -83_054_220, 83_054_220], [-83_054_220, 83_054_220, -83_054_220]),
    pair!([RANGE, -RANGE, RANGE], [-RANGE, RANGE, -RANGE]; 1 << 31, 256; 1, 2;
        [55_369_480, -55_369_480, 55_369_480], [-110_738_959, 110_738_959, -110_738_959]),
    pair!([RANGE, -RANGE, RANGE], [-RANGE, RANGE, -RANGE]; 1 << 31, 256; 0, 65_535;
        [0, 0, 0], [-166_108_439, 166_108_439, -166_108_439]),
    pair!([RANGE, -RANGE, RANGE], [-RANGE, RANGE, -RANGE]; 1 << 31, 256; 65_535, 0;
        [166_108_439, -166_108_439, 166_108_439], [0, 0, 0]),
    pair!([4, 0, 0], [0, 0, 0]; 3, 256; 1, 0; [-1, 0, 0], [0, 0, 0]),
    pair!([3, 4, 0], [0, 0, 0]; 0, 128; 1, 1; [-1, -1, 0], [1, 1, 0]),
    pair!([6, 8, 0], [0, 0, 0]; 5, 256; 1, 1; [-2, -2, 0], [2, 2, 0]),
    pair!([6, 8, 0], [0, 0, 0]; 15, 256; 1, 1; [2, 2, 0], [-2, -2, 0]),
    pair!([2, 1, 0], [0, 0, 0]; 1, 256; 1, 1; [-1, -1, 0], [1, 1, 0]),
    pair!([1, 2, 2], [0, 0, 0]; 2, 64; 1, 1; [0, 0, 0], [0, 0, 0]),
    pair!([-1, 2, -2], [0, 0, 0]; 4, 64; 1, 1; [0, 0, 0], [0, 0, 0]),
    pair!([RANGE, 0, 0], [-RANGE, 0, 0]; 0, 1; 1, 1; [-2_097_152, 0, 0], [2_097_152, 0, 0]),
    pair!([RANGE, RANGE, RANGE], [-RANGE, -RANGE, -RANGE]; 0, 256; 1, 1;
        [-536_870_912, -536_870_912, -536_870_912], [536_870_912, 536_870_912, 536_870_912]),
    pair!([RANGE, RANGE, RANGE], [536_870_911, RANGE, RANGE]; 1 << 31, 256; 1, 1;
        [1_073_741_824, 0, 0], [-1_073_741_824, 0, 0]),
    // Behind the hard ones: on one axis, and at the ends of the range.
    pair!([0, 0, 0], [105, 0, 0]; 100, 256; 1, 1; [3, 0, 0], [-3, 0, 0]),
    pair!([0, 0, 0], [105, 0, 0]; 100, 256; 0, 1; [0, 0, 0], [-5, 0, 0]),
    pair!([0, 0, 0], [105, 0, 0]; 100, 256; 1, 2; [2, 0, 0], [-3, 0, 0]),
    pair!([0, 0, 0], [105, 0, 0]; 100, 0; 1, 1; [0, 0, 0], [0, 0, 0]),
    pair!([0, 0, 0], [105, 0, 0]; 100, 256; 0, 0; [0, 0, 0], [0, 0, 0]),
    pair!([105, 0, 0], [105, 0, 0]; 100, 256; 1, 1; [0, 0, 0], [0, 0, 0]),
    pair!([RANGE, RANGE, RANGE], [-RANGE, -RANGE, -RANGE]; 0, 256; 1, 1;
        [-RANGE, -RANGE, -RANGE], [RANGE, RANGE, RANGE]),
    pair!([RANGE, RANGE, RANGE], [-RANGE, -RANGE, -RANGE]; 1 << 31, 256; 65_535, 0;
        [166_108_439, 166_108_439, 166_108_439], [0, 0, 0]),
    pair!([-RANGE, RANGE, -RANGE], [RANGE, -RANGE, RANGE]; 1 << 31, 128; 65_535, 65_535;
        [-41_527_110, 41_527_110, -41_527_110], [41_527_110, -41_527_110, 41_527_110]),
    pair!([RANGE, 0, 0], [-RANGE, 0, 0]; 0, 1; 1, 65_535; [-64, 0, 0], [4_194_240, 0, 0]),
];

#[test]
fn pairs_move_as_their_rows_say(rt: HostRuntime) -> Result<(), WrongRows> {
    let mut wrong = 0u32;
    for (ends, rest, k, weights, moves) in &PAIRS {
        let came_to = exact_moves(*ends, *rest, *k, *weights);
        let row = (ends, rest, k, weights);
        wrong = wrong.saturating_add(wrong_row(&rt, (&row, "moves by"), &came_to, &Some(*moves)));
    }
    all_hold(wrong)
}

/// The way from the second place to the first.
fn way_between((a, b): (Vec3, Vec3)) -> Vec3 {
    place!(
        a.x.wrapping_sub(b.x),
        a.y.wrapping_sub(b.y),
        a.z.wrapping_sub(b.z)
    )
}

/// The moves of a pair, guessed, where it is nearer than `reach`. None where it is out of range.
fn guessed(pair: &Pair, reach: i64) -> Option<TriedMoves> {
    let (ends, rest, k, weights, _) = *pair;
    let way = way_between(ends);
    if !is_within(way, 1 << 30) {
        return None;
    }
    if rest > 1 << 31 {
        return None;
    }
    if k > 256 {
        return None;
    }
    let pull = Pull {
        rest: rest as i64,
        k: k as i64,
        reach,
    };
    let weights = Weights {
        first: weights.0 as i64,
        second: weights.1 as i64,
    };
    Some(try_moves(way, pull, weights))
}

/// Whether a guess is said not to be exact, or is these moves.
fn is_sound(guess: Option<TriedMoves>, moves: (Vec3, Vec3)) -> bool {
    match guess {
        Some(tried) => !tried.exact || (tried.first, tried.second) == moves,
        None => false,
    }
}

// No guess is right where there is no length, or neither weight is 0 and they differ; and few are where a length is above 2^27.
#[test]
fn no_guess_of_a_hard_pair_is_taken_where_it_is_wrong(rt: HostRuntime) -> Result<(), WrongRows> {
    let mut right = 0u32;
    let mut wrong = 0u32;
    for pair in &PAIRS[..HARD] {
        let near = guessed(pair, 1 << 31);
        let out_of_reach = guessed(pair, 0);
        let told = [
            is_sound(near, pair.4),
            is_sound(out_of_reach, (Vec3::ZERO, Vec3::ZERO)),
        ];
        right = right.saturating_add(u32::from(near.is_some_and(|it| it.exact)));
        wrong = wrong.saturating_add(wrong_row(
            &rt,
            (pair, "guessed, near and out of reach"),
            &told,
            &[true; 2],
        ));
    }
    assert!(rt; right == 16, "{right} guesses are right, and not 16");
    all_hold(wrong)
}
