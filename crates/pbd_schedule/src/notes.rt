//! Runs of events.
ghost use Rattle.std.specs.Prelude.{◌≡◌, ◌<◌, ◌≤◌, ◌^◌, ◌+◌, ◌*◌, [], length, replicate, IfOk, MatchResult, OnOk, Ok};
ghost use Rattle.pbd_world.specs.Ledger.{ledger_of, HaveRoom};
ghost use Rattle.pbd_pair.specs.Bonds.{bond_of};
ghost use Rattle.pbd_pair.specs.Projecting.{IsBatch, StaysSound};
ghost use Rattle.pbd_store.specs.Moving.{motion_of, fixed_parts, AreInside, Weigh};
ghost use Rattle.pbd_schedule.specs.Mixed.{no_note};
ghost use Rattle.pbd_schedule.specs.Notes.{ComeTo, Faults};

use crate::check::stops_at;
use crate::event::{Event, EventFault};
use crate::mix::{Mix, first_leaving};
use pbd_pair::{Bonds, Note};
use pbd_store::{Steps, Store};
use pbd_world::{Correction, RoomList, Totals};
use std::alloc::{AllocError, Global};
use std::marker::Model;
use std::sync::ledger::Ledger;

// A batch of pairs without a common particle, of 65,536 particles at most, has so many at most.
const MOST_BONDS: u32 = 32_768;

/// What is noted of each bond of a batch while its events come. Each run begins anew.
#[derive(Drop)]
pub struct Notes {
    notes: RoomList<Note>,
    stages: RoomList<u8>,
}

impl Model for Notes {
    ghost use Rattle.std.specs.Prelude.{◌≡◌};
    ghost use Rattle.pbd_schedule.specs.Notes.{Noted};

    ghost Value = { Noted };

    ghost view = { λ s. record { notes = s.notes.entries; stages = s.stages.entries } };

    ghost invariant = { λ s. (s.notes.room ≡ 32768) × (s.stages.room ≡ 32768) };
}

impl Notes {
    /// Makes room for the 32,768 bonds that a batch may have. No other call takes memory.
    pub fn open(alloc: Global) -> Result<Notes, AllocError>
        ensures { IfOk result (λ s. s ≡ record { notes = []; stages = [] }) }
    {
        let notes = RoomList::open(alloc, MOST_BONDS)?;
        let stages = RoomList::open(alloc, MOST_BONDS)?;
        Ok(Notes { notes, stages })
    }

    // Nothing is noted of n bonds.
    fn begin(&mut self, n: u32)
        requires { n ≤ 32768 }
        ensures { self.new ≡ record { notes = replicate n no_note; stages = replicate n 0 } }
    {
        let none = Note {
            correction: Correction::Slack,
            first_held: false,
            second_held: false,
        };
        self.notes.fill(none, n);
        self.stages.fill(0, n);
    }
}

/// How many bonds a batch has: no more than pairs of particles, since none share one.
#[tactic(auto, using(crate::proofs::Counting::half_as_many))]
pub(crate) fn count_bonds<const L: usize>(store: &Store<L>, bonds: Bonds<'_>, batch: &[u32]) -> u32
    requires { IsBatch store.now.limit (length store.now.particles) bonds batch.now }
    ensures value { result ≡ length batch.now }
    ensures few { result ≤ 32768 }
{
    let pairs = store.len() / 2;
    let few = batch.len() <= pairs as usize;
    prove!(few);
    batch.len() as u32
}

/// Runs the events of a batch in their order.
///
/// They are legal where each bond's three events come once each, in the order `Read`, `WriteA`, `WriteB`; those of
/// different bonds are mixed freely. Legal events do what the bonds do one by one, in the batch's order.
/// After `BadEvent` the store and the totals are as before. After `Left` the places and the totals are any, and all
/// else of the store is as it was.
pub fn run_events<const L: usize, G: Ledger>(
    notes: &mut Notes,
    store: &mut Store<L>,
    bonds: Bonds<'_>,
    batch: &[u32],
    events: &[Event],
    totals: &mut Totals,
    steps: &mut Steps<G>,
) -> Result<(), EventFault>
    requires lanes_low { 0 < L }
    requires lanes_high { L ≤ 16 }
    requires batch { IsBatch store.old.limit (length store.old.particles) bonds batch.now }
    requires inside { AreInside store.old.limit store.old.particles }
    requires weights { Weigh store.old.particles }
    requires room { HaveRoom (2 ^ 120) (ledger_of totals.old) }
    requires few { length events.now < 2 ^ 32 }
    ensures outcome { MatchResult result
        (λ _. ComeTo store.old.limit (bond_of bonds.entry) batch.now events.now (motion_of store.old totals.old)
        (Ok (motion_of store.new totals.new)))
        (λ fault. Faults store.old.limit (bond_of bonds.entry) batch.now events.now (motion_of store.old totals.old)
        ((store.new ≡ store.old) × (totals.new ≡ totals.old)) fault) }
    ensures limit { store.new.limit ≡ store.old.limit }
    ensures copies { store.new.copies ≡ store.old.copies }
    ensures fixed { fixed_parts store.new.particles ≡ fixed_parts store.old.particles }
    ensures sound { OnOk result (StaysSound (length batch.now) store.old store.new totals.old totals.new) }
    ensures cost { steps.new ≤ steps.old + 4 * length batch.now }
{
    notes.begin(count_bonds(store, bonds, batch));
    if let Some(at) = stops_at(notes.stages.as_mut_slice(), events) {
        return Err(EventFault::BadEvent { at });
    }
    let mut mix = Mix {
        notes: notes.notes.as_mut_slice(),
        store,
        totals,
        steps,
    };
    mix.run(&bonds, batch, events);
    if let Some(element) = first_leaving(batch, mix.notes) {
        return Err(EventFault::Left { element });
    }
    Ok(())
}
