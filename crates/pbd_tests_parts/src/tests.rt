//! The tests, a module for each kind of part.

// Places that are tried, each as what the macro of a name makes of it: a place, or a particle that rests there.

// 100 apart, and nearer.
macro_rules! in_line {
    ($of:ident) => {
        [$of!(0, 0, 0), $of!(99, 0, 0), $of!(100, 0, 0)]
    };
}

// On both sides of 0.
macro_rules! beside_zero {
    ($of:ident) => {
        [$of!(-1, 0, 0), $of!(0, 0, 0)]
    };
}

// Three of four are equal.
macro_rules! equal {
    ($of:ident) => {
        [
            $of!(5, -7, 9),
            $of!(5, -7, 9),
            $of!(5, -7, 10),
            $of!(5, -7, 9),
        ]
    };
}

// Round a corner where eight cells meet.
macro_rules! corner {
    ($of:ident) => {
        [
            $of!(-1, -1, -1),
            $of!(-1, -1, 0),
            $of!(-1, 0, -1),
            $of!(-1, 0, 0),
            $of!(0, -1, -1),
            $of!(0, -1, 0),
            $of!(0, 0, -1),
            $of!(0, 0, 0),
        ]
    };
}

// For the greatest thickness, at the ends of the range and on the edges of cells.
macro_rules! wide {
    ($of:ident) => {
        [
            $of!(RANGE, -RANGE, RANGE),
            $of!(RANGE - 1_048_575, -RANGE, RANGE),
            $of!(RANGE - 1_048_576, -RANGE, RANGE),
            $of!(-RANGE, -RANGE, -RANGE),
            $of!(-RANGE, 1_048_575 - RANGE, -RANGE),
            $of!(0, 1_048_576, 0),
            $of!(0, 1_048_575, 0),
        ]
    };
}

mod chain;
mod colour;
mod grid;
mod loose;
mod pairs;
mod touching;
mod world;
