//! Batches one by one at two widths, and side by side at each.
ghost use Rattle.std.specs.Prelude.{◌≡◌, ◌<◌, ◌≤◌, ◌^◌, length, IfSome, IsTrue};
ghost use Rattle.std.specs.List.{list_all};
ghost use Rattle.pbd_world.specs.Ledger.{ledger_of, HaveRoom};
ghost use Rattle.pbd_store.specs.Moving.{AreInside, Weigh};
ghost use Rattle.pbd_pair.specs.Laid.{Suit};
ghost use Rattle.pbd_pair.specs.Projecting.{IsBatch};
ghost use Rattle.pbd_tests_pairs.specs.Drawn.{may_project};

use pbd_num::{RANGE, Vec3};
use pbd_pair::{Bonds, LaneProjector, Projector, Scalar};
use pbd_store::{Steps, Store};
use pbd_tests_rows::{WrongRows, all_hold, held, link, place, wrong_row};
use pbd_world::{Kind, Link, Particle, Totals};
use std::alloc::Global;
use std::io::Eprint;
use std::marker::Brand;
use std::sync::ledger::{Blank, Ledger};

macro_rules! free {
    ($x:expr, $y:expr, $weight:expr) => {
        Particle {
            at: place!($x, $y, 0),
            before: place!($x, $y, 0),
            weight: $weight,
            held: false,
        }
    };
}

/// What a batch came to: the bond that left, the first and the last two places on x, how many are at 3 or 102
/// on x, and the totals on x.
#[derive(Clone, Copy, Debug, PartialEq)]
struct Seen {
    left: Option<u32>,
    x: [i64; 4],
    settled: u32,
    link: i128,
    contact: i128,
    pin: i128,
}

macro_rules! stays {
    ($x:expr, $settled:expr, $link:expr, $contact:expr, $pin:expr) => {
        Seen {
            left: None,
            x: $x,
            settled: $settled,
            link: $link,
            contact: $contact,
            pin: $pin,
        }
    };
}

macro_rules! leaves {
    ($element:expr) => {
        Seen {
            left: Some($element),
            ..stays!([0; 4], 0, 0, 0, 0)
        }
    };
}

/// A particle at this place on x and y, which is held, or free of this weight, or of weight 1.
macro_rules! end {
    (($x:literal held) $y:literal) => {
        held!($x, $y, 0)
    };
    (($x:literal $weight:literal) $y:literal) => {
        free!($x, $y, $weight)
    };
    ($x:literal $y:literal) => {
        free!($x, $y, 1)
    };
}

/// Two particles side by side at these places on x, at each of these heights.
macro_rules! ends {
    ($($first:tt $second:tt $y:literal);*) => {
        [$(end!($first $y), end!($second $y)),*]
    };
}

/// A link of 100 from each of these particles to the next.
macro_rules! between_next {
    ($($i:expr),*) => {
        Bonds::Links(&[$(link!($i, $i + 1, 100)),*])
    };
}

/// Particles, a batch of bonds, and what it is to come to.
#[derive(Clone, Copy)]
struct Case {
    name: &'static str,
    particles: &'static [Particle],
    bonds: Bonds<'static>,
    batch: &'static [u32],
    seen: Seen,
}

const ONE: Bonds<'static> = Bonds::Links(&[link!(0, 1, 100)]);

const PULLS: Case = Case {
    name: "a short pull",
    particles: &[free!(0, 0, 1), free!(105, 0, 1)],
    bonds: ONE,
    batch: &[0],
    seen: stays!([3, 102, 3, 102], 2, 0, 0, 0),
};

const TOUCHES: Case = Case {
    name: "two just a thickness apart",
    particles: &[free!(0, 0, 1), free!(100, 0, 1)],
    bonds: Bonds::Contacts {
        pairs: &[(0, 1)],
        thickness: 100,
    },
    batch: &[0],
    seen: stays!([0, 100, 0, 100], 0, 0, 0, 0),
};

const FIVE_PULL: Case = Case {
    name: "five pulls",
    particles: &ends!(0 105 0; 0 105 10; 0 105 20; 0 105 30; 0 110 40),
    bonds: between_next!(0, 2, 4, 6, 8),
    batch: &[4, 0, 3, 1, 2],
    seen: stays!([3, 102, 5, 105], 8, 0, 0, 0),
};

static CASES: [Case; 13] = [
    PULLS,
    Case {
        name: "a pull beside a held end",
        particles: &[held!(0, 0, 0), free!(105, 0, 1)],
        seen: stays!([0, 100, 0, 100], 0, 0, 0, -5),
        ..PULLS
    },
    Case {
        name: "two held ends",
        particles: &[held!(0, 0, 0), held!(105, 0, 0)],
        seen: stays!([0, 105, 0, 105], 0, 0, 0, 0),
        ..PULLS
    },
    Case {
        name: "unequal weights",
        particles: &[free!(0, 0, 1), free!(105, 0, 2)],
        seen: stays!([2, 102, 2, 102], 1, -1, 0, 0),
        ..PULLS
    },
    FIVE_PULL,
    Case {
        name: "two of five that leave",
        particles: &ends!(0 105 0; 536870912 536870911 10; 0 105 20; 536870912 536870911 30; 0 110 40),
        seen: leaves!(3),
        ..FIVE_PULL
    },
    Case {
        name: "seventeen pulls",
        particles: &ends!(
            0 105 0; 0 105 1000; 0 105 2000; 0 105 3000; 0 105 4000; 0 105 5000;
            0 105 6000; 0 105 7000; 0 105 8000; 0 105 9000; 0 105 10000; 0 105 11000;
            0 105 12000; 0 105 13000; 0 105 14000; 0 105 15000; 0 105 16000
        ),
        bonds: between_next!(
            0, 2, 4, 6, 8, 10, 12, 14, 16, 18, 20, 22, 24, 26, 28, 30, 32
        ),
        batch: &[0, 1, 2, 3, 4, 5, 6, 7, 8, 9, 10, 11, 12, 13, 14, 15, 16],
        seen: stays!([3, 102, 3, 102], 34, 0, 0, 0),
    },
    Case {
        name: "pulls with a held second end, a held first end and none",
        particles: &ends!(0 (105 held) 0; (0 held) 110 10; 0 105 20),
        bonds: Bonds::Links(&[link!(0, 1, 100), link!(2, 3, 100), link!(4, 5, 100)]),
        batch: &[0, 1, 2],
        seen: stays!([5, 105, 3, 102], 2, 0, 0, -5),
    },
    Case {
        name: "a long bond of unequal weights beside a short one with a held end",
        particles: &ends!(0 (20012 3) 0; (0 held) 105 10),
        bonds: Bonds::Links(&[link!(0, 1, 20000), link!(2, 3, 100)]),
        batch: &[1, 0],
        seen: stays!([3, 20003, 0, 100], 1, -6, 0, -5),
    },
    TOUCHES,
    Case {
        name: "two that are too near",
        particles: &[free!(0, 0, 1), free!(95, 0, 2)],
        seen: stays!([-2, 98, -2, 98], 0, 0, 1, 0),
        ..TOUCHES
    },
    Case {
        name: "across the range",
        particles: &[free!(-536870912, 0, 65535), free!(536870912, 0, 1)],
        bonds: Bonds::Links(&[link!(0, 1, 0)]),
        batch: &[0],
        seen: stays!(
            [536854528, 536854528, 536854528, 536854528],
            0,
            1073709056,
            0,
            0
        ),
    },
    Case {
        name: "one that leaves",
        particles: &[free!(536870912, 0, 1), free!(536870911, 0, 1)],
        seen: leaves!(0),
        ..TOUCHES
    },
];

/// How many places are at 3 or 102 on x.
fn settled_places<G: Ledger, const L: usize>(store: &Store<L>, steps: &mut Steps<G>) -> u32 {
    let mut count = 0u32;
    for i in 0..store.len() {
        let x = store.at(i, steps).at.x;
        if x == 3 || x == 102 {
            count = count.saturating_add(1);
        }
    }
    count
}

/// The first and the last two places on x.
fn ends_on_x<G: Ledger, const L: usize>(store: &Store<L>, steps: &mut Steps<G>) -> [i64; 4]
    requires { 2 ≤ length store.now.particles }
{
    let last = store.len() - 1;
    [
        store.at(0, steps).at.x,
        store.at(1, steps).at.x,
        store.at(last - 1, steps).at.x,
        store.at(last, steps).at.x,
    ]
}

/// A store of a case's particles, in which its batch may be projected. None where there is no memory.
fn store_of<const L: usize>(alloc: Global, case: &Case) -> Option<Store<L>>
    requires { IsTrue (may_project case.now.particles.now case.now.bonds case.now.batch.now) }
    ensures two { IfSome result (λ s. 2 ≤ length s.particles) }
    ensures batch { IfSome result (λ s. IsBatch s.limit (length s.particles) case.now.bonds case.now.batch.now) }
    ensures columns { IfSome result (λ s. Suit case.now.bonds case.now.batch.now s.particles) }
    ensures inside { IfSome result (λ s. AreInside s.limit s.particles) }
    ensures weights { IfSome result (λ s. Weigh s.particles) }
{
    match Store::open(alloc, case.particles, RANGE) {
        Ok(store) => Some(store),
        Err(_) => None,
    }
}

/// Totals of nothing, to which any move may be added.
fn no_totals() -> Totals
    ensures { HaveRoom (2 ^ 120) (ledger_of result) }
{
    Totals::zero()
}

/// What a case's batch comes to in a store. What is left behind where a bond leaves isn't looked at.
fn projected<G: Ledger, P: Projector<L>, const L: usize>(
    steps: &mut Steps<G>,
    projector: &mut P,
    store: &mut Store<L>,
    case: &Case,
) -> Seen
    requires low { 0 < L }
    requires high { L ≤ 16 }
    requires two { 2 ≤ length store.old.particles }
    requires batch { IsBatch store.old.limit (length store.old.particles) case.now.bonds case.now.batch.now }
    requires columns { Suit case.now.bonds case.now.batch.now store.old.particles }
    requires inside { AreInside store.old.limit store.old.particles }
    requires weights { Weigh store.old.particles }
{
    let mut totals = no_totals();
    let outcome = projector.project(store, case.bonds, case.batch, &mut totals, steps);
    let x = ends_on_x(store, steps);
    let settled = settled_places(store, steps);
    match outcome {
        Ok(()) => stays!(x, settled, totals.link[0], totals.contact[0], totals.pin[0]),
        Err(left) => leaves!(left.element),
    }
}

/// The same in a store of its own, unless there is no memory.
fn projected_in<G: Ledger, P: Projector<L>, const L: usize>(
    alloc: Global,
    steps: &mut Steps<G>,
    projector: &mut P,
    case: &Case,
) -> Option<Seen>
    requires low { 0 < L }
    requires high { L ≤ 16 }
    requires drawn { IsTrue (may_project case.now.particles.now case.now.bonds case.now.batch.now) }
{
    match store_of::<L>(alloc, case) {
        Some(mut store) => {
            let seen = projected(steps, projector, &mut store, case);
            drop(store);
            Some(seen)
        }
        None => None,
    }
}

/// How many cases don't come to what they say, and how many bonds their projector was handed.
fn batches<G: Ledger, P: Projector<L>, const L: usize>(
    rt: &impl Eprint,
    alloc: Global,
    steps: &mut Steps<G>,
    projector: &mut P,
    cases: &[Case],
) -> (u32, u64)
    requires low { 0 < L }
    requires high { L ≤ 16 }
    requires drawn { IsTrue (list_all (λ (c : Case). may_project c.particles.now c.bonds c.batch.now) cases.now) }
{
    let mut wrong = 0u32;
    for case in cases {
        let told = projected_in(alloc, steps, projector, case);
        wrong = wrong.saturating_add(wrong_row(
            rt,
            (
                &(case.name, L, projector.lanes()),
                "is a case, its width and its lanes",
            ),
            &told,
            &Some(case.seen),
        ));
    }
    (wrong, projector.handed())
}

/// What is told of two widths one by one, and of each width side by side.
fn widths<G: Ledger>(
    rt: &impl Eprint,
    alloc: Global,
    blank: Blank,
    cases: &[Case],
) -> [(u32, u64); 7]
    requires name { blank.name ≡ G.name }
    requires parts { blank.parts ≡ G.parts }
    requires some { 0 < blank.parts }
    requires drawn { IsTrue (list_all (λ (c : Case). may_project c.particles.now c.bonds c.batch.now) cases.now) }
{
    let mut steps: Steps<G> = Steps::open(blank);
    let told = [
        batches::<G, Scalar<1>, 1>(rt, alloc, &mut steps, &mut Scalar::new(), cases),
        batches::<G, Scalar<16>, 16>(rt, alloc, &mut steps, &mut Scalar::new(), cases),
        batches::<G, LaneProjector<1>, 1>(rt, alloc, &mut steps, &mut LaneProjector::new(), cases),
        batches::<G, LaneProjector<2>, 2>(rt, alloc, &mut steps, &mut LaneProjector::new(), cases),
        batches::<G, LaneProjector<4>, 4>(rt, alloc, &mut steps, &mut LaneProjector::new(), cases),
        batches::<G, LaneProjector<8>, 8>(rt, alloc, &mut steps, &mut LaneProjector::new(), cases),
        batches::<G, LaneProjector<16>, 16>(
            rt,
            alloc,
            &mut steps,
            &mut LaneProjector::new(),
            cases,
        ),
    ];
    drop(steps);
    told
}

#[test]
fn batches_come_to_the_same_one_by_one_and_side_by_side(rt: HostRuntime) -> Result<(), WrongRows> {
    let told = widths::<Brand>(&rt, rt.alloc(), Blank::new(1), &CASES);
    let projectors = "one by one at widths 1 and 16, and side by side at 1, 2, 4, 8 and 16";
    // The thirteen cases hand over 40 bonds.
    let counts = wrong_row(
        &rt,
        (&"wrong cases, and bonds that were handed", projectors),
        &told,
        &[(0, 40); 7],
    );
    let lanes = wrong_row(
        &rt,
        (&"lanes", "one by one and four side by side"),
        &[
            Scalar::<4>::new().lanes(),
            LaneProjector::<4>::new().lanes(),
        ],
        &[1, 4],
    );
    all_hold(counts.saturating_add(lanes))
}
