//! Particles, links and keys of tracks, as scenes are drawn with them.
/// A particle on the plane of the first two axes: where it is there, its x before, its weight, and whether it is held.
#[macro_export]
macro_rules! particle {
    ($x:expr, $y:expr, $back:expr, $weight:expr, $held:expr) => {
        Particle {
            at: $crate::place!($x, $y, 0),
            before: $crate::place!($back, $y, 0),
            weight: $weight,
            held: $held,
        }
    };
}

/// A free particle of weight 1 that rests there.
#[macro_export]
macro_rules! free {
    ($x:expr, $y:expr) => {
        $crate::particle!($x, $y, $x, 1, false)
    };
}

/// The same, held.
#[macro_export]
macro_rules! held {
    ($x:expr, $y:expr) => {
        $crate::particle!($x, $y, $x, 1, true)
    };
}

/// A live link of full stiffness: its ends, its rest length, and above which length it tears, or 0 where it never does.
#[macro_export]
macro_rules! link {
    ($a:expr, $b:expr, $rest:expr, $tear:expr) => {
        Link {
            a: $a,
            b: $b,
            rest: $rest,
            k: 256,
            tear: $tear,
            kind: Kind::Plain,
            live: true,
        }
    };
}

/// Where a track is on the x axis at a step.
#[macro_export]
macro_rules! key {
    ($step:expr, $x:expr) => {
        Key {
            step: $step,
            place: $crate::place!($x, 0, 0),
        }
    };
}

/// Free particles at these places of the plane.
#[macro_export]
macro_rules! free_at {
    ($($x:expr, $y:expr);*) => { &[$($crate::free!($x, $y)),*] };
}

/// Links between these pairs, of one rest length, that never tear.
#[macro_export]
macro_rules! links {
    ($rest:expr; $($a:expr, $b:expr);*) => { &[$($crate::link!($a, $b, $rest, 0)),*] };
}
