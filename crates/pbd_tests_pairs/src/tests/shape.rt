//! Shapes that push places out, and friction, at each width.
ghost use Rattle.std.specs.Prelude.{◌≡◌, ◌<◌, ◌≤◌, pos, length, IfSome, IsTrue};
ghost use Rattle.std.specs.List.{list_all};
ghost use Rattle.pbd_world.specs.Shapes.{are_valid_shapes};
ghost use Rattle.pbd_world.specs.Valid.{is_between};
ghost use Rattle.pbd_store.specs.Moving.{AreInside};
ghost use Rattle.pbd_shape.specs.Rubbing.{AreWithin};
ghost use Rattle.pbd_shape.specs.Valid.{lists_of};
ghost use Rattle.pbd_tests_pairs.specs.Drawn.{may_push};

use pbd_num::{RANGE, Vec3};
use pbd_shape::{Shapes, Touched};
use pbd_store::{Steps, Store};
use pbd_tests_rows::{
    WIDTHS, WrongRows, all_hold, at_widths, axes, moved, place, plane, resting, wrong_row,
};
use pbd_world::{Particle, Plane, Sphere, Totals};
use std::alloc::Global;
use std::io::Eprint;
use std::marker::Brand;
use std::sync::ledger::{Blank, Ledger};

macro_rules! ball {
    ($radius:expr) => {
        Sphere {
            centre: Vec3::ZERO,
            radius: $radius,
        }
    };
}

const NOWHERE: Particle = resting!(0, 0, 0);

/// Three places, now or before, three flags, the total of shapes, and the particle that left.
#[derive(Clone, Copy, Debug, PartialEq)]
struct Seen {
    places: [[i64; 3]; 3],
    touched: [bool; 3],
    shape: [i128; 3],
    left: Option<u32>,
}

/// Clear flags of so many particles. None where there is no memory.
fn clear_flags(alloc: Global, len: u32) -> Option<Touched>
    requires { len ≤ 65536 }
    ensures { IfSome result (λ touched. length touched ≡ len) }
{
    match Touched::open(alloc, len) {
        Ok(touched) => Some(touched),
        Err(_) => None,
    }
}

/// The first three of `len` particles, with their flags.
fn first_three<const L: usize, G: Ledger>(
    store: &Store<L>,
    touched: &Touched,
    len: u32,
    steps: &mut Steps<G>,
) -> [(Particle, bool); 3]
    requires { length touched.now ≡ len }
{
    let mut seen = [(NOWHERE, false); 3];
    for i in 0..len.min(3) {
        if i < store.len() {
            seen[i as usize] = (store.at(i, steps), touched.is_set(i));
        }
    }
    seen
}

/// Particles, the shapes that push them, and what is seen then.
#[derive(Clone, Copy)]
struct Case {
    name: &'static str,
    particles: &'static [Particle],
    shapes: Shapes<'static>,
    seen: Seen,
}

macro_rules! stay {
    ($places:expr, $touched:expr, $shape:expr) => {
        Seen {
            places: $places,
            touched: $touched,
            shape: $shape,
            left: None,
        }
    };
}

/// What is seen of one particle.
macro_rules! alone {
    ($at:expr, $touched:expr, $by:expr) => {
        stay!([$at, [0; 3], [0; 3]], [$touched, false, false], $by)
    };
}

const NOTHING: Seen = alone!([0; 3], false, [0; 3]);

/// Pushes the particles of a store out, with flags that are clear, unless there is no memory for these. What is left behind where
/// one leaves isn't looked at.
fn pushed_by<const L: usize, G: Ledger>(
    alloc: Global,
    store: &mut Store<L>,
    case: &Case,
    steps: &mut Steps<G>,
) -> Option<Seen>
    requires low { 0 < L }
    requires high { L ≤ 16 }
    requires shapes { IsTrue (are_valid_shapes store.old.limit (lists_of case.now.shapes)) }
    requires inside { AreInside store.old.limit store.old.particles }
{
    let len = store.len();
    let mut touched = clear_flags(alloc, len)?;
    let mut totals = Totals::zero();
    let done = case
        .shapes
        .push_out(store, &mut touched, &mut totals, steps);
    let [first, second, third] = first_three(store, &touched, len, steps);
    drop(touched);
    Some(match done {
        Ok(()) => stay!(
            [axes(first.0.at), axes(second.0.at), axes(third.0.at)],
            [first.1, second.1, third.1],
            totals.shape
        ),
        Err(left) => Seen {
            left: Some(left.element),
            ..NOTHING
        },
    })
}

/// A store of a case's particles. None where there is no memory.
fn store_of<const L: usize>(alloc: Global, case: &Case) -> Option<Store<L>>
    requires { IsTrue (may_push case.now.particles.now (lists_of case.now.shapes)) }
    ensures shapes { IfSome result (λ s. IsTrue (are_valid_shapes s.limit (lists_of case.now.shapes))) }
    ensures inside { IfSome result (λ s. AreInside s.limit s.particles) }
{
    match Store::open(alloc, case.particles, RANGE) {
        Ok(store) => Some(store),
        Err(_) => None,
    }
}

/// What is seen of a store of its own, unless there is no memory.
fn pushed_in<const L: usize, G: Ledger>(
    alloc: Global,
    case: &Case,
    steps: &mut Steps<G>,
) -> Option<Seen>
    requires low { 0 < L }
    requires high { L ≤ 16 }
    requires drawn { IsTrue (may_push case.now.particles.now (lists_of case.now.shapes)) }
{
    match store_of::<L>(alloc, case) {
        Some(mut store) => {
            let seen = pushed_by(alloc, &mut store, case, steps);
            drop(store);
            seen
        }
        None => None,
    }
}

/// One where a case doesn't come to what it says at each width, which is told then, and else nothing.
fn wrong_push<G: Ledger>(rt: &impl Eprint, alloc: Global, blank: Blank, case: &Case) -> u32
    requires name { blank.name ≡ G.name }
    requires parts { blank.parts ≡ G.parts }
    requires some { 0 < blank.parts }
    requires drawn { IsTrue (may_push case.now.particles.now (lists_of case.now.shapes)) }
{
    let told = at_widths!(blank, pushed_in(alloc, case));
    wrong_row(rt, (&case.name, WIDTHS), &told, &[Some(case.seen); 5])
}

/// How many cases don't come to what they say.
fn wrong_pushes(rt: &impl Eprint, alloc: Global, cases: &[Case]) -> u32
    requires { IsTrue (list_all (λ (c : Case). may_push c.particles.now (lists_of c.shapes)) cases.now) }
{
    let mut wrong = 0u32;
    for case in cases {
        let told = wrong_push::<Brand>(rt, alloc, Blank::new(1), case);
        wrong = wrong.saturating_add(told);
    }
    wrong
}

static MOVING: [Particle; 3] = [
    moved!((6, 8, 0), (3, 4, 0)),
    moved!((0, 10, 0), (0, 0, 0)),
    moved!((10, 0, 0), (9, 0, 0)),
];

/// The places before of three particles, after friction with shapes that touched those whose flags are set.
fn rubbed_by<const L: usize, G: Ledger>(
    store: &mut Store<L>,
    friction: i64,
    touched: &Touched,
    steps: &mut Steps<G>,
) -> Seen
    requires low { 0 < L }
    requires high { L ≤ 16 }
    requires friction { IsTrue (is_between (pos 0) (pos 256) friction) }
    requires within { AreWithin store.old.limit store.old.particles }
    requires three { length store.old.particles ≡ 3 }
    requires flags { length touched.now ≡ 3 }
{
    let mut totals = Totals::zero();
    touched.rub(friction, store, &mut totals, steps);
    let [first, second, third] = first_three(store, touched, 3, steps);
    stay!(
        [
            axes(first.0.before),
            axes(second.0.before),
            axes(third.0.before),
        ],
        [first.1, second.1, third.1],
        totals.shape
    )
}

/// The same in a store of its own, where the first two were touched, unless there is no memory.
fn rubbed_in<const L: usize, G: Ledger>(
    alloc: Global,
    friction: i64,
    steps: &mut Steps<G>,
) -> Option<Seen>
    requires low { 0 < L }
    requires high { L ≤ 16 }
    requires friction { IsTrue (is_between (pos 0) (pos 256) friction) }
{
    let mut touched = clear_flags(alloc, 3)?;
    touched.set(0);
    touched.set(1);
    let seen = match Store::<L>::open(alloc, &MOVING, RANGE) {
        Ok(mut store) => {
            let seen = rubbed_by(&mut store, friction, &touched, steps);
            drop(store);
            Some(seen)
        }
        Err(_) => None,
    };
    drop(touched);
    seen
}

/// One where friction doesn't come to what is to be seen at each width, which is told then, and else nothing.
fn wrong_rub<G: Ledger>(
    rt: &impl Eprint,
    alloc: Global,
    blank: Blank,
    friction: i64,
    seen: &Seen,
) -> u32
    requires name { blank.name ≡ G.name }
    requires parts { blank.parts ≡ G.parts }
    requires some { 0 < blank.parts }
    requires friction { IsTrue (is_between (pos 0) (pos 256) friction) }
{
    let told = at_widths!(blank, rubbed_in(alloc, friction));
    wrong_row(rt, (&friction, WIDTHS), &told, &[Some(*seen); 5])
}

/// A plane that pushes what is below 5 up to there.
const LIFTING: Shapes<'static> = Shapes {
    planes: &[plane!(0, 1, 0, 5)],
    ..Shapes::NONE
};

static PUSHES: [Case; 5] = [
    Case {
        name: "two in a ball and one on it",
        particles: &[resting!(3, 4, 0), resting!(0, 0, 0), resting!(10, 0, 0)],
        shapes: Shapes {
            spheres: &[ball!(10)],
            ..Shapes::NONE
        },
        seen: stay!(
            [[6, 8, 0], [0, 10, 0], [10, 0, 0]],
            [true, true, false],
            [3, 14, 0]
        ),
    },
    Case {
        name: "one behind a plane",
        particles: &[resting!(0, 0, 0)],
        shapes: Shapes {
            planes: &[plane!(1, 2, 2, 20)],
            ..Shapes::NONE
        },
        seen: alone!([2, 4, 4], true, [2, 4, 4]),
    },
    Case {
        name: "one so near behind a plane that it stays",
        particles: &[resting!(0, 0, 0)],
        shapes: Shapes {
            planes: &[plane!(3, 0, 0, 1)],
            ..Shapes::NONE
        },
        seen: alone!([0, 0, 0], true, [0, 0, 0]),
    },
    Case {
        name: "one in the greatest ball, which goes to the edge of the range",
        particles: &[resting!(1, 0, 0)],
        shapes: Shapes {
            spheres: &[ball!(536870912)],
            ..Shapes::NONE
        },
        seen: alone!([536870912, 0, 0], true, [536870911, 0, 0]),
    },
    Case {
        name: "one that a plane pushes before a ball does",
        particles: &[resting!(0, -3, 0)],
        shapes: Shapes {
            spheres: &[ball!(10)],
            ..LIFTING
        },
        seen: alone!([0, 10, 0], true, [0, 13, 0]),
    },
];

#[test]
fn shapes_push_places_out(rt: HostRuntime) -> Result<(), WrongRows> {
    all_hold(wrong_pushes(&rt, rt.alloc(), &PUSHES))
}

static AT_THE_EDGE: [Case; 1] = [Case {
    name: "two that leave",
    particles: &[resting!(536870912, 2, 0), resting!(536870912, 0, 0)],
    shapes: Shapes {
        planes: &[
            plane!(1, 1, 0, 536870914),
            plane!(0, 1, 0, -5),
            plane!(1, 0, 1, 536870914),
        ],
        ..Shapes::NONE
    },
    seen: Seen {
        left: Some(0),
        ..NOTHING
    },
}];

#[test]
fn the_first_particle_leaves(rt: HostRuntime) -> Result<(), WrongRows> {
    all_hold(wrong_pushes(&rt, rt.alloc(), &AT_THE_EDGE))
}

/// What is seen at half of the greatest friction.
static HALF_RUBBED: Seen = stay!(
    [[5, 6, 0], [0, 5, 0], [9, 0, 0]],
    [true, true, false],
    [-2, -7, 0]
);

/// What is seen at all of it.
static RUBBED: Seen = stay!(
    [[6, 8, 0], [0, 10, 0], [9, 0, 0]],
    [true, true, false],
    [-3, -14, 0]
);

#[test]
fn friction_takes_of_velocities(rt: HostRuntime) -> Result<(), WrongRows> {
    let half = wrong_rub::<Brand>(&rt, rt.alloc(), Blank::new(1), 128, &HALF_RUBBED);
    let whole = wrong_rub::<Brand>(&rt, rt.alloc(), Blank::new(1), 256, &RUBBED);
    all_hold(half.saturating_add(whole))
}

#[test]
fn flags_are_set_and_cleared(rt: HostRuntime) -> Result<(), WrongRows> {
    let mut touched = Touched::open(rt.alloc(), 3).expect(&rt, "no memory");
    touched.set(1);
    let set = [touched.is_set(1), touched.is_set(0)];
    touched.clear();
    let told = [set[0], set[1], touched.is_set(1)];
    drop(touched);
    all_hold(wrong_row(
        &rt,
        (&"flag 1", "set, flag 0 beside it, and flag 1 cleared"),
        &told,
        &[true, false, false],
    ))
}
