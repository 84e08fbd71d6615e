// Pairs of particles, and what a store comes to that reads, pulls or moves their ends.
use pbd_num::{RANGE, Row, Vec3};
use pbd_store::{EndMoves, Pairs};
use pbd_tests_rows::place;
use pbd_world::Particle;

/// What is done with the ends of pairs.
#[derive(Clone, Copy)]
pub(crate) enum Trial {
    /// They are looked at, and this lies between them: the way from the second end to the first, and the effective weights of both.
    Read(&'static [([i32; 3], [i32; 2])]),
    /// The first ends go back by the first ways, and the second ends forth by the others.
    Pull(&'static [Row], &'static [Row]),
    /// They are moved pair by pair, as long as none leaves.
    Move(&'static [EndMoves]),
}

/// What is done with the ends of pairs, the first pair that leaves, and the particles that are elsewhere then, with their places.
#[derive(Clone, Copy)]
pub(crate) struct Case {
    pub(crate) name: &'static str,
    pub(crate) trial: Trial,
    pub(crate) answer: Result<(), usize>,
    pub(crate) moved: &'static [(u32, Vec3)],
}

/// Particles with a limit, pairs of them, and what is tried on these.
#[derive(Clone, Copy)]
pub(crate) struct Drawing {
    pub(crate) limit: i64,
    pub(crate) particles: &'static [Particle],
    pub(crate) pairs: Pairs<'static>,
    pub(crate) cases: &'static [Case],
}

macro_rules! particle {
    ($x:expr, $y:expr, $z:expr, $weight:expr, $held:expr) => {
        Particle {
            at: place!($x, $y, $z),
            before: place!(1, 2, 3),
            weight: $weight,
            held: $held,
        }
    };
}

macro_rules! way {
    ($x:expr, $y:expr, $z:expr) => {
        Row {
            x: $x,
            y: $y,
            z: $z,
            flag: 0,
        }
    };
}

macro_rules! moves {
    (($x:expr, $y:expr, $z:expr), ($second_x:expr, $second_y:expr, $second_z:expr)) => {
        EndMoves {
            first: place!($x, $y, $z),
            second: place!($second_x, $second_y, $second_z),
        }
    };
}

// A case by its name, what it comes to and its trial; and the particles that are elsewhere then.
macro_rules! case {
    ($name:literal, $answer:expr, $trial:expr; $($i:literal: ($x:expr, $y:expr, $z:expr)),*) => {
        Case {
            name: $name,
            trial: $trial,
            answer: $answer,
            moved: &[$(($i, place!($x, $y, $z))),*],
        }
    };
}

// The way back of the first end of each pair, and the way forth of its second.
macro_rules! pull {
    ($(($x:expr, $y:expr, $z:expr) ($forth_x:expr, $forth_y:expr, $forth_z:expr)),*) => {
        Trial::Pull(
            &[$(way!($x, $y, $z)),*],
            &[$(way!($forth_x, $forth_y, $forth_z)),*],
        )
    };
}

// The moves of the ends of each pair.
macro_rules! each {
    ($($first:tt $second:tt),*) => {
        Trial::Move(&[$(moves!($first, $second)),*])
    };
}

// Three pairs, two of them with a held end, and particle 5 in none.
const THREE: Drawing = Drawing {
    limit: RANGE,
    particles: &[
        particle!(10, -20, 30, 3, false),
        particle!(100, 0, 0, 1, false),
        particle!(-7, 8, 9, 65_535, false),
        particle!(0, 0, 5, 2, true),
        particle!(60, 5, -5, 7, false),
        particle!(1, 2, 3, 1, false),
        particle!(10, 20, 30, 9, true),
    ],
    pairs: Pairs {
        first: &[4, 0, 3],
        second: &[1, 6, 2],
    },
    cases: &[
        case!(
            "three pairs, read", Ok(()),
            Trial::Read(&[([-40, 5, -5], [7, 1]), ([0, -40, 0], [3, 0]), ([7, -8, -4], [0, 65_535])]);
        ),
        case!(
            "three pairs, pulled", Ok(()),
            pull!((5, 0, 0) (3, 0, 0), (0, -7, 0) (0, 0, 0), (0, 0, 0) (1, 2, -3));
            0: (10, -13, 30), 1: (103, 0, 0), 2: (-6, 10, 6), 4: (55, 5, -5)
        ),
        case!(
            "long ways", Ok(()),
            pull!((65_536, -65_536, 0) (0, 65_536, -65_536), (0, 0, 0) (0, 0, 0), (0, 0, 0) (0, 0, 0));
            1: (100, 65_536, -65_536), 4: (-65_476, 65_541, -5)
        ),
        case!(
            "three pairs, moved", Ok(()),
            each!((-5, 0, 0) (3, 0, 0), (0, 7, 0) (0, 0, 0), (0, 0, 0) (1, 2, -3));
            0: (10, -13, 30), 1: (103, 0, 0), 2: (-6, 10, 6), 4: (55, 5, -5)
        ),
    ],
};

const NO_PAIRS: Drawing = Drawing {
    pairs: Pairs {
        first: &[],
        second: &[],
    },
    cases: &[
        case!("no pairs, read", Ok(()), Trial::Read(&[]);),
        case!("no pairs, pulled", Ok(()), pull!();),
        case!("no pairs, moved", Ok(()), each!();),
    ],
    ..THREE
};

// Three pairs, the first two of them near the limit, and the third with an end on it.
const NEAR_THE_LIMIT: Drawing = Drawing {
    limit: RANGE,
    particles: &[
        particle!(RANGE - 10, 0, 0, 1, false),
        particle!(0, 0, 0, 1, false),
        particle!(0, 10 - RANGE, 0, 1, false),
        particle!(0, 0, RANGE - 2, 1, false),
        particle!(0, 0, 0, 1, false),
        particle!(7, 7, RANGE, 1, false),
    ],
    pairs: Pairs {
        first: &[0, 2, 4],
        second: &[1, 3, 5],
    },
    cases: &[
        case!(
            "near the limit, read", Ok(()),
            Trial::Read(&[
                ([536_870_902, 0, 0], [1, 1]),
                ([0, -536_870_902, -536_870_910], [1, 1]),
                ([-7, -7, -536_870_912], [1, 1])
            ]);
        ),
        case!(
            "to the limit, pulled", Ok(()),
            pull!((-10, 0, 0) (1, 0, 0), (0, 10, 0) (0, 0, 2), (0, 0, 0) (0, 0, 0));
            0: (RANGE, 0, 0), 1: (1, 0, 0), 2: (0, -RANGE, 0), 3: (0, 0, RANGE)
        ),
        case!(
            "a first end leaves, pulled", Err(1),
            pull!((-10, 0, 0) (1, 0, 0), (0, 11, 0) (0, 0, 2), (0, 0, 0) (0, 0, 0));
            0: (RANGE, 0, 0), 1: (1, 0, 0), 2: (0, -1 - RANGE, 0), 3: (0, 0, RANGE)
        ),
        case!(
            "a second end leaves, pulled", Err(1),
            pull!((-10, 0, 0) (1, 0, 0), (0, 10, 0) (0, 0, 3), (0, 0, 0) (0, 0, 0));
            0: (RANGE, 0, 0), 1: (1, 0, 0), 2: (0, -RANGE, 0), 3: (0, 0, 1 + RANGE)
        ),
        case!(
            "the last two leave, pulled", Err(1),
            pull!((-10, 0, 0) (1, 0, 0), (0, 10, 0) (0, 0, 3), (0, 0, 0) (0, 0, 1));
            0: (RANGE, 0, 0), 1: (1, 0, 0), 2: (0, -RANGE, 0), 3: (0, 0, 1 + RANGE), 5: (7, 7, 1 + RANGE)
        ),
        case!(
            "to the limit, moved", Ok(()),
            each!((10, 0, 0) (1, 0, 0), (0, -10, 0) (0, 0, 2), (0, 0, 0) (0, 0, 0));
            0: (RANGE, 0, 0), 1: (1, 0, 0), 2: (0, -RANGE, 0), 3: (0, 0, RANGE)
        ),
        case!(
            "a first end leaves, moved", Err(1),
            each!((10, 0, 0) (1, 0, 0), (0, -11, 0) (0, 0, 2), (3, 3, 3) (0, 0, 0));
            0: (RANGE, 0, 0), 1: (1, 0, 0)
        ),
        case!(
            "a second end leaves, moved", Err(1),
            each!((10, 0, 0) (1, 0, 0), (0, -10, 0) (0, 0, 3), (0, 0, 0) (0, 0, 1));
            0: (RANGE, 0, 0), 1: (1, 0, 0)
        ),
        case!(
            "the last pair leaves by the longest moves", Err(2),
            each!((10, 0, 0) (1, 0, 0), (0, -10, 0) (0, 0, 2), (2_147_483_648, 0, 0) (0, -2_147_483_648, 0));
            0: (RANGE, 0, 0), 1: (1, 0, 0), 2: (0, -RANGE, 0), 3: (0, 0, RANGE)
        ),
    ],
};

// A pair at a limit that is half of the greatest.
const SMALLER: Drawing = Drawing {
    limit: 1 << 28,
    particles: &[
        particle!(1 << 28, 0, 0, 1, false),
        particle!(0, 0, 0, 1, false),
    ],
    pairs: Pairs {
        first: &[0],
        second: &[1],
    },
    cases: &[
        case!(
            "out of a smaller limit, pulled", Err(0),
            pull!((-1, 0, 0) (0, 0, 0));
            0: (268_435_457, 0, 0)
        ),
        case!("out of a smaller limit, moved", Err(0), each!((1, 0, 0) (5, 5, 5));),
    ],
};

// The same within the greatest limit.
const WIDER: Drawing = Drawing {
    limit: RANGE,
    cases: &[
        case!(
            "within a wider limit, pulled", Ok(()),
            pull!((-1, 0, 0) (0, 0, 0));
            0: (268_435_457, 0, 0)
        ),
        case!(
            "across the range, moved", Ok(()),
            each!((-805_306_368, 0, 0) (0, 536_870_912, 0));
            0: (-RANGE, 0, 0), 1: (0, RANGE, 0)
        ),
        case!(
            "within a wider limit, moved", Ok(()),
            each!((1, 0, 0) (5, 5, 5));
            0: (268_435_457, 0, 0), 1: (5, 5, 5)
        ),
    ],
    ..SMALLER
};

pub(crate) static DRAWINGS: [Drawing; 5] = [THREE, NO_PAIRS, NEAR_THE_LIMIT, SMALLER, WIDER];
