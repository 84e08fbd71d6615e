//! Worked lists of events.

use super::batches::{Schedule, Work, by_own_events};
use super::counting::{Trial, holding, tried};
use pbd_num::Vec3;
use pbd_pair::Bonds;
use pbd_schedule::Event::{Read, WriteA, WriteB};
use pbd_schedule::{Event, EventFault};
use pbd_store::Steps;
use pbd_world::{Kind, Link, Particle};
use std::alloc::{AllocError, Global};
use std::marker::Brand;
use std::sync::ledger::{Blank, Ledger};

macro_rules! bad {
    ($at:expr) => {
        Err(EventFault::BadEvent { at: $at })
    };
}

/// Six particles in pairs at a distance of 105, with a link of rest length 100 in each of the first two pairs.
static TWO: Work<'static> = Work {
    particles: three_pairs!((0, 1), (105, 1); (0, 1), (105, 1); (0, 1), (105, 1)),
    bonds: Bonds::Links(&[link!(0, 1), link!(2, 3)]),
    batch: &[0, 1],
};

/// Events of two bonds, and the answer and the places on x to which they come.
#[derive(Clone, Copy)]
struct Row {
    events: &'static [Event],
    answer: Result<(), EventFault>,
    x: [i64; 6],
}

const PULLED: [i64; 6] = [3, 102, 3, 102, 0, 105];

const AS_BEFORE: [i64; 6] = [0, 105, 0, 105, 0, 105];

/// Events as lanes go and mixed, out of turn, cut short, of no bond of the batch, and of one that is done.
static ROWS: [Row; 6] = [
    Row {
        events: &[Read(0), Read(1), WriteA(0), WriteA(1), WriteB(0), WriteB(1)],
        answer: Ok(()),
        x: PULLED,
    },
    Row {
        events: &[Read(1), Read(0), WriteA(0), WriteA(1), WriteB(0), WriteB(1)],
        answer: Ok(()),
        x: PULLED,
    },
    Row {
        events: &[Read(0), WriteB(0)],
        answer: bad!(1),
        x: AS_BEFORE,
    },
    Row {
        events: &[Read(0), WriteA(0)],
        answer: bad!(2),
        x: AS_BEFORE,
    },
    Row {
        events: &[Read(2)],
        answer: bad!(0),
        x: AS_BEFORE,
    },
    Row {
        events: &[Read(0), WriteA(0), WriteB(0), Read(0)],
        answer: bad!(3),
        x: AS_BEFORE,
    },
];

/// Whether the events of both links come to what a row says. At most six events are run.
fn comes_to<G: Ledger>(alloc: Global, steps: &mut Steps<G>, row: &Row) -> Result<bool, AllocError> {
    if row.events.len() > 6 {
        return Ok(false);
    }
    let schedule = Schedule {
        work: TWO,
        events: row.events,
    };
    let seen = by_own_events::<1, G>(alloc, steps, &schedule)?;
    let [p, q, r, s, t, u] = seen.particles;
    let x = [p.at.x, q.at.x, r.at.x, s.at.x, t.at.x, u.at.x];
    Ok(seen.answer == row.answer && x == row.x)
}

fn two_bonds<G: Ledger>(alloc: Global, steps: &mut Steps<G>) -> Result<bool, AllocError> {
    for row in &ROWS {
        if !comes_to(alloc, steps, row)? {
            return Ok(false);
        }
    }
    Ok(true)
}

/// No bonds, of which no event comes.
static NOTHING_TO_DO: Schedule<'static> = Schedule {
    work: Work {
        particles: &[free!(0, 0, 1); 6],
        bonds: Bonds::Links(&[]),
        batch: &[],
    },
    events: &[],
};

/// One bond, whose events end after its read.
static CUT_SHORT: Schedule<'static> = Schedule {
    work: Work {
        particles: three_pairs!((0, 1), (105, 1); (0, 1), (0, 1); (0, 1), (0, 1)),
        bonds: Bonds::Links(&[link!(0, 1)]),
        batch: &[0],
    },
    events: &[Read(0)],
};

/// The empty list of events is legal for a batch of no bonds, and moves nothing.
fn nothing_to_do<G: Ledger>(alloc: Global, steps: &mut Steps<G>) -> Result<bool, AllocError> {
    let seen = by_own_events::<1, G>(alloc, steps, &NOTHING_TO_DO)?;
    Ok(seen.answer == Ok(()) && seen.particles.as_slice() == NOTHING_TO_DO.work.particles)
}

/// A bond that is only read stays as it was.
fn cut_short<G: Ledger>(alloc: Global, steps: &mut Steps<G>) -> Result<bool, AllocError> {
    let seen = by_own_events::<1, G>(alloc, steps, &CUT_SHORT)?;
    Ok(seen.answer == bad!(1) && seen.particles.as_slice() == CUT_SHORT.work.particles)
}

/// Two bonds by several lists, no bond at all, and one bond that was only read.
pub(crate) fn try_all<G: Ledger>(alloc: Global, steps: &mut Steps<G>) -> Result<usize, AllocError> {
    Ok(holding(&[
        two_bonds(alloc, steps)?,
        nothing_to_do(alloc, steps)?,
        cut_short(alloc, steps)?,
    ]))
}

#[test]
fn given_events_come_to_what_their_rows_say(rt: HostRuntime) {
    let told = tried::<Brand>(rt.alloc(), Blank::new(1), Trial::GivenLists);
    assert_eq!(rt; told.ok(), Some(3), "two bonds, none, and one only read");
}
