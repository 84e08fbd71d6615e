//! Every list of up to seven events over two bonds: the illegal ones are refused, each at its first wrong event, or at its end
//! where that comes too soon.
ghost use Rattle.std.specs.Prelude.{◌≤◌};

use super::batches::{Schedule, Work, by_events};
use super::counting::{Trial, tried};
use pbd_num::Vec3;
use pbd_pair::Bonds;
use pbd_schedule::{Event, EventFault, Notes};
use pbd_store::Steps;
use pbd_world::{Kind, Link, Particle};
use std::alloc::{AllocError, Global};
use std::marker::Brand;
use std::sync::ledger::{Blank, Ledger};

/// How many lists ran, how many were refused where they had to be, with the particles as before, and how many
/// were answered otherwise.
#[derive(Clone, Copy)]
struct Tally {
    ran: u32,
    refused: u32,
    wrong: u32,
}

/// One of the six events of two bonds.
fn event_named(digit: u32) -> Event {
    match digit {
        0 => Event::Read(0),
        1 => Event::WriteA(0),
        2 => Event::WriteB(0),
        3 => Event::Read(1),
        4 => Event::WriteA(1),
        _ => Event::WriteB(1),
    }
}

/// The seven events that the digits of a number name, in base 6.
fn events_named(number: u32) -> [Event; 7] {
    let mut rest = number;
    let mut events = [Event::Read(0); 7];
    for i in 0..7 {
        events[i] = event_named(rest % 6);
        rest /= 6;
    }
    events
}

/// Whether an event comes in turn: it didn't come yet, and what it waits for did.
fn is_in_turn(earlier: &[Event], event: Event) -> bool {
    if earlier.contains(&event) {
        return false;
    }
    match event {
        Event::Read(_) => true,
        Event::WriteA(k) => earlier.contains(&Event::Read(k)),
        Event::WriteB(k) => earlier.contains(&Event::WriteA(k)),
    }
}

/// How many events at the prefix of a list come in turn.
fn in_turn(events: &[Event]) -> usize {
    for i in 0..events.len() {
        if !is_in_turn(&events[..i], events[i]) {
            return i;
        }
    }
    events.len()
}

/// The answer that a list of events of two bonds has to have. Six events in turn are all there are.
fn wanted(events: &[Event]) -> Result<(), EventFault> {
    match in_turn(events) {
        6 if events.len() == 6 => Ok(()),
        at => Err(EventFault::BadEvent {
            at: u32::try_from(at).unwrap_or(u32::MAX),
        }),
    }
}

/// Two bonds that move.
static TWO: Work<'static> = Work {
    particles: three_pairs!((0, 1), (105, 2); (0, 1), (107, 1); (0, 1), (100, 1)),
    bonds: Bonds::Links(&[link!(0, 1), link!(2, 3)]),
    batch: &[0, 1],
};

/// How many lists of each length there are.
const LISTS: [u32; 8] = [1, 6, 36, 216, 1296, 7776, 46656, 279936];

/// Runs all lists of a length.
fn all_lists_with<G: Ledger>(
    alloc: Global,
    steps: &mut Steps<G>,
    notes: &mut Notes,
    size: usize,
) -> Result<Tally, AllocError>
    requires size { size ≤ 7 }
{
    let mut tally = Tally {
        ran: 0,
        refused: 0,
        wrong: 0,
    };
    for number in 0..LISTS[size] {
        let events = events_named(number);
        let schedule = Schedule {
            work: TWO,
            events: &events[..size],
        };
        let seen = by_events::<1, G>(alloc, steps, notes, &schedule)?;
        if seen.answer != wanted(schedule.events) {
            tally.wrong = tally.wrong.saturating_add(1);
        } else if seen.answer.is_ok() {
            tally.ran = tally.ran.saturating_add(1);
        } else if seen.particles.as_slice() == schedule.work.particles {
            tally.refused = tally.refused.saturating_add(1);
        }
    }
    Ok(tally)
}

/// Whether all lists of up to seven events are as told, by their length. Of the 335,923 the 20 legal ones have six events.
fn all_lengths_with<G: Ledger>(
    alloc: Global,
    steps: &mut Steps<G>,
    notes: &mut Notes,
) -> Result<usize, AllocError> {
    let mut good = true;
    for size in 0..8 {
        let tally = all_lists_with(alloc, steps, notes, size)?;
        let legal = if size == 6 { 20 } else { 0 };
        good = good && tally.ran == legal && tally.wrong == 0;
        good = good && tally.refused.saturating_add(legal) == LISTS[size];
    }
    Ok(usize::from(good))
}

/// Lists of up to seven events.
pub(crate) fn try_all<G: Ledger>(alloc: Global, steps: &mut Steps<G>) -> Result<usize, AllocError> {
    let mut notes = Notes::open(alloc)?;
    let told = all_lengths_with(alloc, steps, &mut notes);
    drop(notes);
    told
}

#[test]
fn other_lists_of_up_to_seven_events_are_refused(rt: HostRuntime) {
    let told = tried::<Brand>(rt.alloc(), Blank::new(1), Trial::ShortLists);
    assert_eq!(rt; told.ok(), Some(1), "of 335,923 lists 20 are legal");
}
