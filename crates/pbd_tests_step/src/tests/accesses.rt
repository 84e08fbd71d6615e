//! What steps hand to a projector, colour by colour: how often their bonds may reach the store, at each width.
ghost use Rattle.std.specs.Prelude.{◌≡◌, ◌<◌, ◌≤◌};

use pbd_num::Vec3;
use pbd_pair::{Bonds, LaneProjector, Projector};
use pbd_step::Solver;
use pbd_store::{Steps, Store};
use pbd_tests_rows::{WIDTHS, WrongRows, all_hold, at_widths, wrong_row};
use pbd_tests_scenes::{Drawing, EMPTY, free, free_at, link, links, particle, scene};
use pbd_world::{Kind, Left, Link, Particle, PartsFault, Scene, Totals};
use std::alloc::{AllocError, Global};
use std::marker::Brand;
use std::sync::ledger::{Blank, Ledger};

/// A projector, and what the batches that it was handed may cost: four accesses for each piece of as many bonds as it has
/// lanes.
#[derive(Drop)]
struct Counting<P: Drop> {
    inner: P,
    accesses: usize,
}

impl<const L: usize, P: Projector<L> + Drop> Projector<L> for Counting<P> {
    ghost width = { λ s. P.width s.inner };

    ghost count = { λ s. P.count s.inner };

    fn lanes(&self) -> usize {
        self.inner.lanes()
    }

    fn handed(&self) -> u64 {
        self.inner.handed()
    }

    fn project<G: Ledger>(
        &mut self,
        store: &mut Store<L>,
        bonds: Bonds<'_>,
        batch: &[u32],
        totals: &mut Totals,
        steps: &mut Steps<G>,
    ) -> Result<(), Left> {
        let pieces = batch.len().div_ceil(self.inner.lanes());
        self.accesses = self.accesses.saturating_add(pieces.saturating_mul(4));
        self.inner.project(store, bonds, batch, totals, steps)
    }
}

/// Ten pairs with a link each, all of one colour.
const PAIRS: Drawing = Drawing {
    particles: free_at!(
        0, 0; 5, 0; 100, 0; 105, 0; 200, 0; 205, 0; 300, 0; 305, 0; 400, 0; 405, 0;
        500, 0; 505, 0; 600, 0; 605, 0; 700, 0; 705, 0; 800, 0; 805, 0; 900, 0; 905, 0
    ),
    links: links!(6; 0, 1; 2, 3; 4, 5; 6, 7; 8, 9; 10, 11; 12, 13; 14, 15; 16, 17; 18, 19),
    passes: 3,
    ..EMPTY
};

/// Five particles in a line: links of the colours 0, 1, 0, 1.
const LINE: Drawing = Drawing {
    particles: free_at!(0, 0; 10, 0; 20, 0; 30, 0; 40, 0),
    links: links!(10; 0, 1; 1, 2; 2, 3; 3, 4),
    passes: 2,
    ..EMPTY
};

/// Three particles that touch each other: three colours of one contact each.
const CORNER: Drawing = Drawing {
    particles: free_at!(0, 0; 200, 0; 0, 200),
    thickness: 400,
    ..EMPTY
};

/// How many accesses there may be, unless there is no memory.
type Accesses = Result<usize, AllocError>;

/// A scene, how many steps it takes, and what its bonds may cost in them at the widths 1, 2, 4, 8 and 16.
#[derive(Clone, Copy)]
struct Row {
    name: &'static str,
    scene: Drawing,
    steps: u64,
    accesses: [Accesses; 5],
}

static ROWS: [Row; 3] = [
    // Two steps of three passes: in each ten links in 10, 5, 3, 2 and 1 pieces.
    Row {
        name: "pairs",
        scene: PAIRS,
        steps: 2,
        accesses: [Ok(240), Ok(120), Ok(72), Ok(48), Ok(24)],
    },
    // Two passes: four pieces of one link each, or two colours of one piece each.
    Row {
        name: "line",
        scene: LINE,
        steps: 1,
        accesses: [Ok(32), Ok(16), Ok(16), Ok(16), Ok(16)],
    },
    // One pass: a piece for each contact.
    Row {
        name: "corner",
        scene: CORNER,
        steps: 1,
        accesses: [Ok(12); 5],
    },
];

fn accesses<const L: usize, G: Ledger>(
    alloc: Global,
    scene: &Scene,
    n: u64,
    steps: &mut Steps<G>,
) -> Accesses
    requires low { 0 < L }
    requires high { L ≤ 16 }
{
    let projector = Counting {
        inner: LaneProjector::<L>::new(),
        accesses: 0,
    };
    let mut solver = Solver::open(alloc, scene, projector)?;
    let _ = solver.steps(n, steps);
    let accesses = solver.projector().accesses;
    drop(solver);
    Ok(accesses)
}

fn counted<G: Ledger>(alloc: Global, blank: Blank, scene: &Scene, n: u64) -> [Accesses; 5]
    requires name { blank.name ≡ G.name }
    requires parts { blank.parts ≡ G.parts }
    requires some { 0 < blank.parts }
{
    at_widths!(blank, accesses(alloc, scene, n))
}

/// What the bonds of a row may cost, at each width.
fn cost(alloc: Global, row: &Row) -> Result<[Accesses; 5], PartsFault> {
    let scene = scene(alloc, &row.scene)?;
    let told = counted::<Brand>(alloc, Blank::new(1), &scene, row.steps);
    drop(scene);
    Ok(told)
}

/// How many rows cost otherwise than they say.
fn wrong_rows(rt: &HostRuntime, rows: &[Row]) -> u32 {
    let mut wrong = 0u32;
    for row in rows {
        let told = cost(rt.alloc(), row);
        wrong = wrong.saturating_add(wrong_row(rt, (&row.name, WIDTHS), &told, &Ok(row.accesses)));
    }
    wrong
}

#[test]
fn bonds_may_cost_four_accesses_a_piece(rt: HostRuntime) -> Result<(), WrongRows> {
    all_hold(wrong_rows(&rt, &ROWS))
}
