//! Batches by events that are drawn.

use super::batches::{Work, are_alike, by_projector};
use super::counting::{Trial, holding, tried};
use pbd_num::Vec3;
use pbd_pair::{Bonds, Projector, Scalar};
use pbd_schedule::Event::{Read, WriteA, WriteB};
use pbd_schedule::{Event, EventFault, ScrambleProjector};
use pbd_store::Steps;
use pbd_world::{Kind, Link, Particle};
use std::alloc::{AllocError, Global};
use std::marker::Brand;
use std::sync::ledger::{Blank, Ledger};

// What the words of PCG-XSH-RR with stream 1 draw from the seed 7 for three bonds.
const FROM_SEVEN: [Event; 9] = [
    Read(2),
    Read(1),
    WriteA(1),
    Read(0),
    WriteA(0),
    WriteB(0),
    WriteB(1),
    WriteA(2),
    WriteB(2),
];

// And from the seed 8.
const FROM_EIGHT: [Event; 9] = [
    Read(1),
    Read(0),
    WriteA(1),
    Read(2),
    WriteA(2),
    WriteA(0),
    WriteB(2),
    WriteB(1),
    WriteB(0),
];

// What the words behind those of the seed 7 draw for two bonds.
const AND_THEN: [Event; 6] = [Read(0), Read(1), WriteA(1), WriteA(0), WriteB(1), WriteB(0)];

const LINKS: Bonds<'static> = Bonds::Links(&[link!(0, 1), link!(2, 3), link!(4, 5)]);

static PULLED: Work<'static> = Work {
    particles: three_pairs!((0, 1), (105, 1); (0, 1), (110, 1); (0, 1), (100, 1)),
    bonds: LINKS,
    batch: &[2, 0, 1],
};

// The third link leaves.
const LEAVES: Work<'static> = Work {
    particles: three_pairs!((0, 1), (105, 1); (0, 1), (110, 1); (536870912, 1), (536870911, 1)),
    bonds: LINKS,
    batch: &[0, 2, 1],
};

static LEAVING: Work<'static> = LEAVES;

static TWO_OTHERS: Work<'static> = Work {
    batch: &[1, 0],
    ..LEAVES
};

/// A seed draws these events for three bonds, and they come to what the scalar projector does.
fn draws<G: Ledger>(
    alloc: Global,
    steps: &mut Steps<G>,
    seed: u64,
    events: &[Event],
) -> Result<bool, AllocError> {
    let mut projector = ScrambleProjector::open(alloc, seed)?;
    let none_yet = projector.last_events().is_empty() && projector.handed() == 0;
    let seen = by_projector::<1, ScrambleProjector, G>(alloc, steps, &mut projector, &PULLED)?;
    let mut plain: Scalar<1> = Scalar::new();
    let wanted = by_projector(alloc, steps, &mut plain, &PULLED)?;
    let moved = seen.answer == Ok(()) && seen.particles[0].at.x == 3;
    let drawn = projector.last_events() == events && projector.handed() == 3;
    drop(projector);
    Ok(none_yet && moved && are_alike(&seen, &wanted) && drawn)
}

/// The words of the seed 7 go on with the next batch, also where the one before it left.
fn goes_on<G: Ledger>(
    alloc: Global,
    steps: &mut Steps<G>,
    events: &[Event],
) -> Result<bool, AllocError> {
    let mut projector = ScrambleProjector::open(alloc, 7)?;
    let first = by_projector::<1, ScrambleProjector, G>(alloc, steps, &mut projector, &LEAVING)?;
    let left = first.answer == Err(EventFault::Left { element: 2 });
    let next = by_projector::<1, ScrambleProjector, G>(alloc, steps, &mut projector, &TWO_OTHERS)?;
    let drawn = projector.last_events() == events && projector.handed() == 5;
    drop(projector);
    Ok(left && next.answer == Ok(()) && drawn)
}

/// What the seeds 7 and 8 draw, and how the words of the seed 7 go on.
pub(crate) fn try_all<G: Ledger>(alloc: Global, steps: &mut Steps<G>) -> Result<usize, AllocError> {
    Ok(holding(&[
        draws(alloc, steps, 7, &FROM_SEVEN)?,
        draws(alloc, steps, 8, &FROM_EIGHT)?,
        goes_on(alloc, steps, &AND_THEN)?,
    ]))
}

#[test]
fn a_seed_draws_its_events(rt: HostRuntime) {
    let told = tried::<Brand>(rt.alloc(), Blank::new(1), Trial::DrawnLists);
    assert_eq!(rt; told.ok(), Some(3), "seeds 7 and 8, and 7 that goes on");
}
