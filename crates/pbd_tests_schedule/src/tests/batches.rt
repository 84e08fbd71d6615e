//! A batch over six particles, and what it comes to.
ghost use Rattle.std.specs.Prelude.{◌≡◌, ◌<◌, ◌≤◌, ◌^◌, pos, IsTrue, length, None};
ghost use Rattle.pbd_pair.specs.Laid.{laid_in};
ghost use Rattle.pbd_tests_schedule.specs.Work.{may_stand};

use pbd_num::RANGE;
use pbd_pair::{Bonds, Projector};
use pbd_schedule::{Event, EventFault, Notes, run_events};
use pbd_store::{Steps, Store};
use pbd_world::{Particle, Totals};
use std::alloc::{AllocError, Global};
use std::sync::ledger::Ledger;

/// Six particles, bonds of them, and a batch of these.
#[derive(Clone, Copy)]
pub(crate) struct Work<'a> {
    pub(crate) particles: &'a [Particle],
    pub(crate) bonds: Bonds<'a>,
    pub(crate) batch: &'a [u32],
}

/// Work, and the events by which it is done.
#[derive(Clone, Copy)]
pub(crate) struct Schedule<'a> {
    pub(crate) work: Work<'a>,
    pub(crate) events: &'a [Event],
}

/// What a batch came to: the answer, the particles and the totals.
#[derive(Clone, Copy)]
pub(crate) struct Seen {
    pub(crate) answer: Result<(), EventFault>,
    pub(crate) particles: [Particle; 6],
    pub(crate) totals: Totals,
}

/// Whether two batches came to the same. After a fault the particles and the totals aren't compared.
pub(crate) fn are_alike(one: &Seen, other: &Seen) -> bool {
    if one.answer != other.answer {
        return false;
    }
    one.answer.is_err() || one.particles == other.particles && one.totals == other.totals
}

fn all_particles<const L: usize, G: Ledger>(store: &Store<L>, steps: &mut Steps<G>) -> [Particle; 6]
    requires { length store.now.particles ≡ 6 }
{
    [
        store.at(0, steps),
        store.at(1, steps),
        store.at(2, steps),
        store.at(3, steps),
        store.at(4, steps),
        store.at(5, steps),
    ]
}

/// What work comes to by events, in a store.
fn run_in<const L: usize, G: Ledger>(
    steps: &mut Steps<G>,
    notes: &mut Notes,
    store: &mut Store<L>,
    schedule: &Schedule<'_>,
) -> Seen
    requires low { 0 < L }
    requires high { L ≤ 16 }
    requires limit { store.old.limit ≡ pos (2 ^ 29) }
    requires work { IsTrue (may_stand store.old.particles schedule.now.work.bonds schedule.now.work.batch.now) }
    requires few { length schedule.now.events.now < 2 ^ 32 }
{
    let mut totals = Totals::zero();
    let answer = run_events(
        notes,
        store,
        schedule.work.bonds,
        schedule.work.batch,
        schedule.events,
        &mut totals,
        steps,
    );
    let particles = all_particles(store, steps);
    Seen {
        answer,
        particles,
        totals,
    }
}

/// The same in a store of its own.
pub(crate) fn by_events<const L: usize, G: Ledger>(
    alloc: Global,
    steps: &mut Steps<G>,
    notes: &mut Notes,
    schedule: &Schedule<'_>,
) -> Result<Seen, AllocError>
    requires low { 0 < L }
    requires high { L ≤ 16 }
    requires work { IsTrue (may_stand schedule.now.work.particles.now schedule.now.work.bonds schedule.now.work.batch.now) }
    requires few { length schedule.now.events.now < 2 ^ 32 }
{
    let mut store = Store::<L>::open(alloc, schedule.work.particles, RANGE)?;
    let seen = run_in(steps, notes, &mut store, schedule);
    drop(store);
    Ok(seen)
}

/// The same with notes of its own.
pub(crate) fn by_own_events<const L: usize, G: Ledger>(
    alloc: Global,
    steps: &mut Steps<G>,
    schedule: &Schedule<'_>,
) -> Result<Seen, AllocError>
    requires low { 0 < L }
    requires high { L ≤ 16 }
    requires work { IsTrue (may_stand schedule.now.work.particles.now schedule.now.work.bonds schedule.now.work.batch.now) }
    requires few { length schedule.now.events.now < 2 ^ 32 }
{
    let mut notes = Notes::open(alloc)?;
    let seen = by_events::<L, G>(alloc, steps, &mut notes, schedule);
    drop(notes);
    seen
}

/// What work comes to by a projector, in a store.
fn project_in<const L: usize, P: Projector<L>, G: Ledger>(
    steps: &mut Steps<G>,
    projector: &mut P,
    store: &mut Store<L>,
    work: &Work<'_>,
) -> Seen
    requires low { 0 < L }
    requires high { L ≤ 16 }
    requires limit { store.old.limit ≡ pos (2 ^ 29) }
    requires work { IsTrue (may_stand store.old.particles work.now.bonds work.now.batch.now) }
    requires plain { laid_in work.now.bonds ≡ None }
{
    let mut totals = Totals::zero();
    let outcome = projector.project(store, work.bonds, work.batch, &mut totals, steps);
    let particles = all_particles(store, steps);
    let answer = match outcome {
        Ok(()) => Ok(()),
        Err(left) => Err(EventFault::Left {
            element: left.element,
        }),
    };
    Seen {
        answer,
        particles,
        totals,
    }
}

/// The same in a store of its own.
pub(crate) fn by_projector<const L: usize, P: Projector<L>, G: Ledger>(
    alloc: Global,
    steps: &mut Steps<G>,
    projector: &mut P,
    work: &Work<'_>,
) -> Result<Seen, AllocError>
    requires low { 0 < L }
    requires high { L ≤ 16 }
    requires work { IsTrue (may_stand work.now.particles.now work.now.bonds work.now.batch.now) }
    requires plain { laid_in work.now.bonds ≡ None }
{
    let mut store = Store::<L>::open(alloc, work.particles, RANGE)?;
    let seen = project_in(steps, projector, &mut store, work);
    drop(store);
    Ok(seen)
}
