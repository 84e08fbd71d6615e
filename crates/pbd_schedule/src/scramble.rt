//! Batches whose reads and writes are mixed as words of a generator draw.
ghost use Rattle.std.specs.Prelude.{◌≡◌, ◌≤◌, ◌^◌, ◌+◌, ◌-◌, ◌*◌, [], min, length, IfOk, OnOk};
ghost use Rattle.pbd_world.specs.Ledger.{ledger_of, HaveRoom};
ghost use Rattle.pbd_pair.specs.Projecting.{IsBatch, ComesTo, StaysSound};
ghost use Rattle.pbd_store.specs.Moving.{fixed_parts, AreInside, Weigh};
ghost use Rattle.pbd_schedule.specs.Drawn.{drawn, later, words_of};

use crate::draw::draw;
use crate::event::{Event, EventFault};
use crate::lists::list_reads;
use crate::notes::{Notes, count_bonds, run_events};
use pbd_pair::{Bonds, Projector};
use pbd_store::{Steps, Store};
use pbd_world::{Left, RoomList, Totals};
use rand_pcg::Lcg64Xsh32;
use std::alloc::{AllocError, Global};
use std::marker::Model;
use std::sync::ledger::Ledger;

/// Projects a batch by events in an order that is drawn anew for each batch.
#[derive(Drop)]
pub struct ScrambleProjector {
    words: Lcg64Xsh32,
    notes: Notes,
    coming: RoomList<Event>,
    events: RoomList<Event>,
    count: u64,
}

impl Model for ScrambleProjector {
    ghost use Rattle.std.specs.Prelude.{◌≡◌};
    ghost use Rattle.pbd_schedule.specs.Drawn.{Drawing};

    ghost Value = { Drawing };

    ghost view = { λ s. record { words = s.words; events = s.events.entries; handed = s.count } };

    ghost invariant = { λ s. (s.coming.room ≡ 32768) × (s.events.room ≡ 98304) };
}

impl ScrambleProjector {
    /// Makes room for the events of the greatest batch. The generator begins with the seed. No other call takes
    /// memory.
    pub fn open(alloc: Global, seed: u64) -> Result<ScrambleProjector, AllocError>
        ensures { IfOk result (λ s. s ≡ record { words = words_of seed; events = []; handed = 0 }) }
    {
        let notes = Notes::open(alloc)?;
        let coming = RoomList::open(alloc, 32_768)?;
        let events = RoomList::open(alloc, 98_304)?;
        Ok(ScrambleProjector {
            words: Lcg64Xsh32::new(seed, 1),
            notes,
            coming,
            events,
            count: 0,
        })
    }

    // Draws the events of n bonds.
    fn draw_events(&mut self, n: u32)
        requires { n ≤ 32768 }
        ensures { self.new ≡ record self.old { words = later (3 * n) self.old.words; events = drawn self.old.words n } }
    {
        list_reads(&mut self.coming, n);
        draw(
            &mut self.words,
            self.coming.as_mut_slice(),
            &mut self.events,
        );
    }

    /// Projects a batch by events that are drawn, as its bonds do one by one in the batch's order.
    ///
    /// `Left` has the number of the first bond that would move an end out of the store's limit. The places and
    /// the totals are then any, and all else of the store is as it was.
    pub fn project_drawn<G: Ledger>(
        &mut self,
        store: &mut Store<1>,
        bonds: Bonds<'_>,
        batch: &[u32],
        totals: &mut Totals,
        steps: &mut Steps<G>,
    ) -> Result<(), Left>
        requires batch { IsBatch store.old.limit (length store.old.particles) bonds batch.now }
        requires inside { AreInside store.old.limit store.old.particles }
        requires weights { Weigh store.old.particles }
        requires room { HaveRoom (2 ^ 120) (ledger_of totals.old) }
        ensures outcome { ComesTo bonds.entry batch.now store.old store.new totals.old totals.new result }
        ensures limit { store.new.limit ≡ store.old.limit }
        ensures copies { store.new.copies ≡ store.old.copies }
        ensures fixed { fixed_parts store.new.particles ≡ fixed_parts store.old.particles }
        ensures sound { OnOk result (StaysSound (length batch.now) store.old store.new totals.old totals.new) }
        ensures cost { steps.new ≤ steps.old + 4 * length batch.now }
        ensures events { self.new.events ≡ drawn self.old.words (length batch.now) }
        ensures words { self.new.words ≡ later (3 * length batch.now) self.old.words }
        ensures handed { self.new.handed ≡ min (self.old.handed + length batch.now) (2 ^ 64 - 1) }
    {
        self.count = self.count.saturating_add(batch.len() as u64);
        self.draw_events(count_bonds(store, bonds, batch));
        let events = self.events.as_slice();
        match run_events(&mut self.notes, store, bonds, batch, events, totals, steps) {
            Ok(()) => Ok(()),
            Err(EventFault::Left { element }) => Err(Left { element }),
            Err(EventFault::BadEvent { .. }) => unreachable!(),
        }
    }

    /// The events of the last batch, in the order in which they came.
    pub fn last_events(&self) -> &[Event]
        ensures { result.now ≡ self.now.events }
    {
        self.events.as_slice()
    }
}

impl Projector<1> for ScrambleProjector {
    ghost width = { λ _. 1 };

    ghost count = { λ s. s.handed };

    fn lanes(&self) -> usize {
        1
    }

    fn handed(&self) -> u64 {
        self.count
    }

    fn project<G: Ledger>(
        &mut self,
        store: &mut Store<1>,
        bonds: Bonds<'_>,
        batch: &[u32],
        totals: &mut Totals,
        steps: &mut Steps<G>,
    ) -> Result<(), Left> {
        self.project_drawn(store, bonds, batch, totals, steps)
    }
}
