//! The momentum at each width, and whether it agrees with a ledger.
ghost use Rattle.std.specs.Prelude.{◌≡◌, ◌<◌};

use pbd_ledger::{balanced, momentum};
use pbd_num::{RANGE, Vec3};
use pbd_store::{Steps, Store};
use pbd_tests_rows::{WIDTHS, WrongRows, all_hold, at_widths, held, moved, resting, wrong_row};
use pbd_world::{Particle, Totals};
use std::alloc::Global;
use std::marker::Brand;
use std::sync::ledger::{Blank, Ledger};

/// A momentum. None where there is no memory, or there are more particles than a store holds.
type Sum = Option<[i128; 3]>;

fn sum_in<const L: usize, G: Ledger>(
    alloc: Global,
    particles: &[Particle],
    steps: &mut Steps<G>,
) -> Sum {
    if particles.len() > 65_536 {
        return None;
    }
    match Store::<L>::open(alloc, particles, RANGE) {
        Ok(store) => {
            let sum = momentum(&store, steps);
            drop(store);
            Some(sum)
        }
        Err(_) => None,
    }
}

/// The momentum at each width.
fn counted<G: Ledger>(alloc: Global, blank: Blank, particles: &[Particle]) -> [Sum; 5]
    requires name { blank.name ≡ G.name }
    requires parts { blank.parts ≡ G.parts }
    requires some { 0 < blank.parts }
{
    at_widths!(blank, sum_in(alloc, particles))
}

const PULLED: [Particle; 3] = [
    held!(0, 0, 0),
    moved!((100, 0, 0), (105, 0, 0)),
    Particle {
        held: true,
        ..moved!((9, 9, 0), (0, 0, 0))
    },
];

const PUSHED: [Particle; 3] = [
    moved!((6, 8, 0), (3, 4, 0)),
    moved!((0, 10, 0), (0, 0, 0)),
    resting!(10, 0, 0),
];

/// Particles and their momentum.
static SUMS: [(&[Particle], [i128; 3]); 3] = [
    (&PULLED, [-5, 0, 0]),
    (&PUSHED, [3, 14, 0]),
    (&[], [0; 3]),
];

#[test]
fn the_momentum_is_the_sum_of_velocities_at_every_width(rt: HostRuntime) -> Result<(), WrongRows> {
    let mut wrong = 0u32;
    for (particles, sum) in &SUMS {
        let sums = counted::<Brand>(rt.alloc(), Blank::new(1), particles);
        wrong = wrong.saturating_add(wrong_row(&rt, (particles, WIDTHS), &sums, &[Some(*sum); 5]));
    }
    all_hold(wrong)
}

/// What links, pins and shapes have booked along x.
#[derive(Clone, Copy, Debug)]
struct Booked {
    link: i64,
    pin: i64,
    shape: i64,
}

macro_rules! booked {
    ($link:expr, $pin:expr, $shape:expr) => {
        Booked {
            link: $link,
            pin: $pin,
            shape: $shape,
        }
    };
}

/// Whether a momentum along x agrees with the opening one and with what was booked.
fn agree(opening: i64, now: i64, booked: Booked) -> bool {
    let totals = Totals {
        gravity: [0; 3],
        damping: [0; 3],
        link: [i128::from(booked.link), 0, 0],
        contact: [0; 3],
        pin: [i128::from(booked.pin), 0, 0],
        shape: [i128::from(booked.shape), 0, 0],
    };
    balanced(
        &[i128::from(opening), 0, 0],
        &[i128::from(now), 0, 0],
        &totals,
    )
}

/// A momentum at first, one that agrees with it, and what was booked.
static AGREEING: [(i64, i64, Booked); 4] = [
    (0, -5, booked!(0, -5, 0)),
    (0, -1, booked!(-1, 0, 0)),
    (5, 0, booked!(0, -5, 0)),
    (0, 3, booked!(0, 0, 3)),
];

#[test]
fn a_momentum_agrees_with_its_ledger_alone(rt: HostRuntime) -> Result<(), WrongRows> {
    let mut wrong = 0u32;
    for row in &AGREEING {
        let (opening, now, booked) = *row;
        let told = [
            agree(opening, now, booked),
            agree(opening, now.wrapping_add(1), booked),
        ];
        wrong = wrong.saturating_add(wrong_row(
            &rt,
            (row, "as it is, and with one more"),
            &told,
            &[true, false],
        ));
    }
    all_hold(wrong)
}
