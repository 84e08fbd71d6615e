//! Bytes of a hostile peer are taken as the state that they are, or are refused and change nothing.
ghost use Rattle.std.specs.Prelude.{◌≡◌, ◌<◌};

use super::rows::{ROWS, Row, SIZE};
use pbd_num::Vec3;
use pbd_pair::Scalar;
use pbd_state::{digest, read_state, state_size, write_state};
use pbd_step::Solver;
use pbd_store::Steps;
use pbd_tests_rows::{WrongRows, all_hold, held, link, place, resting, wrong_row};
use pbd_tests_scenes::{Drawing, EMPTY, scene};
use pbd_world::{Kind, Link, Particle, PartsFault, Scene};
use std::alloc::{AllocError, Global};
use std::marker::Brand;
use std::sync::ledger::{Blank, Ledger};

pub(crate) const NAME: [u8; 32] = [7; 32];

/// Of the state before the first step, as Python's hashlib gives it of bytes that were put together by hand.
const DIGEST: [u8; 32] = [
    175, 158, 13, 68, 217, 9, 136, 60, 132, 227, 192, 194, 26, 77, 102, 48, 169, 59, 90, 254, 86,
    252, 57, 130, 185, 105, 49, 168, 5, 228, 253, 85,
];

/// A solver at the width of these tests.
pub(crate) type Tested = Solver<4, Scalar<4>>;

/// The scene that the rows speak of.
pub(crate) static DRAWING: Drawing = Drawing {
    particles: &[
        held!(0, 0, 0),
        resting!(100, 0, 0),
        Particle {
            weight: 2,
            ..resting!(200, 0, 0)
        },
    ],
    links: &[link!(0, 1, 100), link!(1, 2, 100)],
    gravity: place!(0, -10, 0),
    ..EMPTY
};

/// A solver of a scene, where there is memory for both.
pub(crate) fn solver_of(
    alloc: Global,
    scene: Result<Scene, PartsFault>,
) -> Result<Tested, PartsFault> {
    let scene = scene?;
    let opened = Solver::open(alloc, &scene, Scalar::<4>::new());
    drop(scene);
    match opened {
        Ok(solver) => Ok(solver),
        Err(AllocError) => Err(PartsFault::OutOfMemory),
    }
}

/// The bytes of a state, and a byte 0.
type Bytes = [u8; SIZE + 1];

/// The bytes of a state as a row changes them, and the byte behind it.
fn changed(state: &Bytes, row: &Row) -> Bytes {
    let mut wrong = *state;
    let mut to = row.at;
    for byte in row.bytes {
        if let Some(place) = wrong.get_mut(to) {
            *place = *byte;
        }
        to = to.saturating_add(1);
    }
    wrong
}

/// The state of a solver, or zeros if it is of another size.
fn written<G: Ledger>(solver: &Tested, steps: &mut Steps<G>) -> Bytes {
    let mut state = [0; SIZE + 1];
    match write_state(&NAME, &solver.shown(), &mut state, steps) {
        Ok(SIZE) => state,
        _ => [0; SIZE + 1],
    }
}

/// Where bytes are refused, or none where the world of a solver is then the one whose state they are. After a refusal the
/// world is what it was.
fn fault_of<G: Ledger>(
    solver: &mut Tested,
    bytes: &[u8],
    steps: &mut Steps<G>,
) -> Result<Option<u64>, &'static str> {
    let before = written(solver, steps);
    let answer = read_state(&NAME, solver, bytes, steps);
    let now = written(solver, steps);
    match answer {
        Ok(()) if now.get(..SIZE) == Some(bytes) => Ok(None),
        Ok(()) => Err("another state"),
        Err(fault) if now == before => Ok(Some(fault.offset)),
        Err(_) => Err("another world"),
    }
}

const STARTS: &str =
    "has no room in one byte less, and has this size, this digest and a first step";

/// Takes a solver's first step. One where its state before that has room in one byte less, or isn't of the size and the digest
/// that it should be, or the step isn't done, which is told then, and else nothing.
fn wrong_start<G: Ledger>(rt: &impl Eprint, solver: &mut Tested, steps: &mut Steps<G>) -> u32 {
    let mut room = [0; SIZE - 1];
    let shown = solver.shown();
    let is_short = write_state(&NAME, &shown, &mut room, steps).is_err();
    let size = state_size(&shown);
    let sum = digest(&NAME, &shown, steps);
    let told = (is_short, size, sum, solver.steps(1, steps));
    wrong_row(
        rt,
        (&"the state", STARTS),
        &told,
        &(true, SIZE, DIGEST, Ok(())),
    )
}

/// How many rows don't hold where a solver reads its own state, changed, and one more where its start doesn't. Each is told.
fn wrong_rows<G: Ledger>(rt: &impl Eprint, blank: Blank, solver: &mut Tested, rows: &[Row]) -> u32
    requires name { blank.name ≡ G.name }
    requires parts { blank.parts ≡ G.parts }
    requires some { 0 < blank.parts }
{
    let mut steps: Steps<G> = Steps::open(blank);
    let mut wrong = wrong_start(rt, solver, &mut steps);
    let state = written(solver, &mut steps);
    for row in rows {
        let bytes = changed(&state, row);
        let fault = fault_of(solver, bytes.get(..row.len).unwrap_or(&bytes), &mut steps);
        let change = (row.name, row.at, row.bytes, row.len);
        wrong = wrong.saturating_add(wrong_row(
            rt,
            (&change, "is refused at"),
            &fault,
            &Ok(row.fault),
        ));
    }
    drop(steps);
    wrong
}

#[test]
fn hostile_bytes_are_taken_or_refused_as_rows_say(rt: HostRuntime) -> Result<(), WrongRows> {
    let opened = solver_of(rt.alloc(), scene(rt.alloc(), &DRAWING));
    let mut solver = opened.expect(&rt, "no solver");
    let wrong = wrong_rows::<Brand>(&rt, Blank::new(1), &mut solver, &ROWS);
    drop(solver);
    all_hold(wrong)
}
