//! Every legal interleaving of two bonds and of three comes to what the scalar projector does.
ghost use Rattle.std.specs.Prelude.{◌≡◌, ◌<◌, ◌≤◌, IsTrue, length, None};
ghost use Rattle.pbd_pair.specs.Laid.{laid_in};
ghost use Rattle.pbd_tests_schedule.specs.Work.{may_stand};

use super::batches::{Schedule, Seen, Work, are_alike, by_events, by_projector};
use super::counting::{Trial, holding, tried};
use pbd_num::Vec3;
use pbd_pair::{Bonds, Scalar};
use pbd_schedule::{Event, EventFault, Notes};
use pbd_store::Steps;
use pbd_world::{Kind, Link, Particle};
use std::alloc::{AllocError, Global};
use std::marker::Brand;
use std::sync::ledger::{Blank, Ledger};

/// Work of two bonds or three, how many lists of its bonds are as long as its list of events, how many of these lists are
/// interleavings, and what the scalar projector answers.
#[derive(Clone, Copy)]
struct Row {
    work: Work<'static>,
    lists: u32,
    all: u32,
    answer: Result<(), EventFault>,
}

/// Work, so many lists of its bonds, and what their interleavings are to come to.
#[derive(Clone, Copy)]
struct Mixed {
    work: Work<'static>,
    lists: u32,
    wanted: Seen,
}

/// The next event of bond k, of which so many came.
fn next_event(k: u32, came: u8) -> Option<Event> {
    match came {
        0 => Some(Event::Read(k)),
        1 => Some(Event::WriteA(k)),
        2 => Some(Event::WriteB(k)),
        _ => None,
    }
}

/// The interleaving whose digits, in base `bonds`, say which bond goes on: none where one goes on a fourth time.
fn interleaving(number: u32, bonds: u32) -> Option<[Event; 9]>
    requires some { 0 < bonds }
    requires few { bonds ≤ 3 }
{
    let mut rest = number;
    let mut came = [0u8; 3];
    let mut events = [Event::Read(0); 9];
    for i in 0..3 * bonds as usize {
        let k = rest % bonds;
        rest /= bonds;
        events[i] = next_event(k, came[k as usize])?;
        came[k as usize] = came[k as usize].saturating_add(1);
    }
    Some(events)
}

/// How many interleavings there are, and how many of them come to what is wanted.
fn interleavings_with<const L: usize, G: Ledger>(
    alloc: Global,
    steps: &mut Steps<G>,
    notes: &mut Notes,
    mixed: &Mixed,
) -> Result<[u32; 2], AllocError>
    requires low { 0 < L }
    requires high { L ≤ 16 }
    requires work { IsTrue (may_stand mixed.now.work.particles.now mixed.now.work.bonds mixed.now.work.batch.now) }
    requires some { 0 < length mixed.now.work.batch.now }
    requires few { length mixed.now.work.batch.now ≤ 3 }
{
    let count = mixed.work.batch.len();
    let mut all = 0u32;
    let mut alike = 0u32;
    for number in 0..mixed.lists {
        if let Some(events) = interleaving(number, count as u32) {
            let schedule = Schedule {
                work: mixed.work,
                events: &events[..3 * count],
            };
            let seen = by_events::<L, G>(alloc, steps, notes, &schedule)?;
            all = all.saturating_add(1);
            alike = alike.saturating_add(u32::from(are_alike(&seen, &mixed.wanted)));
        }
    }
    Ok([all, alike])
}

/// Whether work has as many interleavings as its row says, all of which come to what the scalar projector does.
fn are_as_told<const L: usize, G: Ledger>(
    alloc: Global,
    steps: &mut Steps<G>,
    row: &Row,
) -> Result<bool, AllocError>
    requires low { 0 < L }
    requires high { L ≤ 16 }
    requires work { IsTrue (may_stand row.now.work.particles.now row.now.work.bonds row.now.work.batch.now) }
    requires plain { laid_in row.now.work.bonds ≡ None }
    requires some { 0 < length row.now.work.batch.now }
    requires few { length row.now.work.batch.now ≤ 3 }
{
    let mut plain: Scalar<L> = Scalar::new();
    let wanted = by_projector(alloc, steps, &mut plain, &row.work)?;
    let mixed = Mixed {
        work: row.work,
        lists: row.lists,
        wanted,
    };
    let mut notes = Notes::open(alloc)?;
    let told = interleavings_with::<L, G>(alloc, steps, &mut notes, &mixed);
    drop(notes);
    Ok(told? == [row.all; 2] && wanted.answer == row.answer)
}

const TWO: Bonds<'static> = Bonds::Links(&[link!(0, 1), link!(2, 3)]);

const THREE: Bonds<'static> = Bonds::Links(&[link!(0, 1), link!(2, 3), link!(4, 5)]);

/// Two bonds that move.
static TWO_MOVE: Row = Row {
    work: Work {
        particles: three_pairs!((0, 1), (105, 2); (0, held), (107, 1); (0, 1), (100, 1)),
        bonds: TWO,
        batch: &[1, 0],
    },
    lists: 64,
    all: 20,
    answer: Ok(()),
};

/// Two bonds of which one leaves.
static ONE_OF_TWO_LEAVES: Row = Row {
    work: Work {
        particles: three_pairs!((0, 1), (105, 2); (536870912, 1), (536870911, 1); (0, 1), (100, 1)),
        bonds: TWO,
        batch: &[0, 1],
    },
    lists: 64,
    all: 20,
    answer: Err(EventFault::Left { element: 1 }),
};

/// Three bonds that move, one of them with a held end.
static THREE_MOVE: Row = Row {
    work: Work {
        particles: three_pairs!((0, 1), (105, 2); (0, held), (107, 1); (0, 3), (80, 1)),
        bonds: THREE,
        batch: &[2, 0, 1],
    },
    lists: 19683,
    all: 1680,
    answer: Ok(()),
};

/// Three bonds of which two leave: each interleaving leaves with the first of them in the batch.
static TWO_OF_THREE_LEAVE: Row = Row {
    work: Work {
        particles: three_pairs!((536870912, 1), (536870911, 1); (0, 1), (105, 1); (-536870912, 1), (-536870911, 1)),
        bonds: THREE,
        batch: &[1, 2, 0],
    },
    lists: 19683,
    all: 1680,
    answer: Err(EventFault::Left { element: 2 }),
};

/// Each row at two widths.
pub(crate) fn try_all<G: Ledger>(alloc: Global, steps: &mut Steps<G>) -> Result<usize, AllocError> {
    Ok(holding(&[
        are_as_told::<1, G>(alloc, steps, &TWO_MOVE)?,
        are_as_told::<4, G>(alloc, steps, &TWO_MOVE)?,
        are_as_told::<1, G>(alloc, steps, &ONE_OF_TWO_LEAVES)?,
        are_as_told::<4, G>(alloc, steps, &ONE_OF_TWO_LEAVES)?,
        are_as_told::<1, G>(alloc, steps, &THREE_MOVE)?,
        are_as_told::<16, G>(alloc, steps, &THREE_MOVE)?,
        are_as_told::<1, G>(alloc, steps, &TWO_OF_THREE_LEAVE)?,
        are_as_told::<8, G>(alloc, steps, &TWO_OF_THREE_LEAVE)?,
    ]))
}

#[test]
fn legal_interleavings_come_to_the_same(rt: HostRuntime) {
    let told = tried::<Brand>(rt.alloc(), Blank::new(1), Trial::LegalLists);
    assert_eq!(rt; told.ok(), Some(8), "four rows, each at two widths");
}
