//! Tests of batches whose reads and writes are mixed.
// A particle that rests at (x, y, 0).
macro_rules! free {
    ($x:expr, $y:expr, $weight:expr) => {
        Particle {
            at: Vec3 { x: $x, y: $y, z: 0 },
            before: Vec3 { x: $x, y: $y, z: 0 },
            weight: $weight,
            held: false,
        }
    };
}

// One that is held there.
macro_rules! held {
    ($x:expr, $y:expr) => {
        Particle {
            at: Vec3 { x: $x, y: $y, z: 0 },
            before: Vec3 { x: $x, y: $y, z: 0 },
            weight: 1,
            held: true,
        }
    };
}

// A particle at (x, y, 0) that is held, or is free with a weight.
macro_rules! resting {
    (($x:expr, held), $y:expr) => {
        held!($x, $y)
    };
    (($x:expr, $weight:expr), $y:expr) => {
        free!($x, $y, $weight)
    };
}

// Three pairs of particles, at y 0, 1,000 and 2,000: the x of each, and its weight or that it is held.
macro_rules! three_pairs {
    ($a:tt, $b:tt; $c:tt, $d:tt; $e:tt, $f:tt) => {
        &[
            resting!($a, 0),
            resting!($b, 0),
            resting!($c, 1000),
            resting!($d, 1000),
            resting!($e, 2000),
            resting!($f, 2000),
        ]
    };
}

// A link of full stiffness and of rest length 100.
macro_rules! link {
    ($a:expr, $b:expr) => {
        Link {
            a: $a,
            b: $b,
            rest: 100,
            k: 256,
            tear: 0,
            kind: Kind::Plain,
            live: true,
        }
    };
}

mod batches;
mod counting;
mod drawn;
mod given;
mod illegal;
mod legal;
