//! The digest and the checksum of a world, and of one that is kept while a solver goes on.
ghost use Rattle.std.specs.Prelude.{◌≡◌, ◌<◌};
ghost use Rattle.pbd_world.specs.World.{AreOfOneScene};

use super::hostile::{DRAWING, NAME, Tested};
use pbd_pair::Scalar;
use pbd_state::{checksum, digest};
use pbd_step::{Shown, Snapshot, Solver};
use pbd_store::Steps;
use pbd_tests_rows::{WrongRows, all_hold, wrong_row};
use pbd_tests_scenes::scene;
use pbd_world::Scene;
use std::alloc::Global;
use std::marker::Brand;
use std::sync::ledger::{Blank, Ledger};

/// Of the world before the first step, as a fold in Python gives it of words that were put together by hand.
const CHECKSUM: u64 = 5_398_114_305_768_885_009;

/// A digest and a checksum.
type Sums = ([u8; 32], u64);

fn sums_of<G: Ledger>(shown: &Shown<'_, 4>, steps: &mut Steps<G>) -> Sums {
    (digest(&NAME, shown, steps), checksum(shown, steps))
}

/// What is told of the sums of a first world, and of one that a slot keeps while its solver goes on.
const HOLD: &str =
    "has its checksum, two steps are done, the first of which a slot keeps with its sums, and the second changes them";

/// Whether that holds, part by part.
fn parts_that_hold<G: Ledger>(
    solver: &mut Tested,
    saved: &mut Snapshot<4>,
    steps: &mut Steps<G>,
) -> [bool; 5]
    requires { AreOfOneScene saved.old solver.old.world }
{
    let first = checksum(&solver.shown(), steps);
    let stepped = solver.steps(1, steps);
    saved.keep(solver);
    let before = sums_of(&solver.shown(), steps);
    let again = solver.steps(1, steps);
    let kept = sums_of(&saved.shown(), steps);
    let other = sums_of(&solver.shown(), steps);
    [
        first == CHECKSUM,
        stepped.is_ok(),
        again.is_ok(),
        kept == before,
        other != before,
    ]
}

/// The same in a slot and a solver of their own, where there is memory for them.
fn told<G: Ledger>(alloc: Global, blank: Blank, scene: &Scene) -> Option<[bool; 5]>
    requires name { blank.name ≡ G.name }
    requires parts { blank.parts ≡ G.parts }
    requires some { 0 < blank.parts }
{
    let mut steps: Steps<G> = Steps::open(blank);
    let told = match Snapshot::open(alloc, scene) {
        Ok(mut saved) => {
            let told = match Solver::open(alloc, scene, Scalar::<4>::new()) {
                Ok(mut solver) => {
                    let told = parts_that_hold(&mut solver, &mut saved, &mut steps);
                    drop(solver);
                    Some(told)
                }
                Err(_) => None,
            };
            drop(saved);
            told
        }
        Err(_) => None,
    };
    drop(steps);
    told
}

#[test]
fn a_kept_world_keeps_its_digest_and_checksum(rt: HostRuntime) -> Result<(), WrongRows> {
    let scene = scene(rt.alloc(), &DRAWING).expect(&rt, "no scene");
    let told = told::<Brand>(rt.alloc(), Blank::new(1), &scene);
    drop(scene);
    all_hold(wrong_row(&rt, (&"the first world", HOLD), &told, &Some([true; 5])))
}
