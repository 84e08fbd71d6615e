//! The reads and writes of a batch, one after another.
ghost use Rattle.std.specs.Prelude.{◌≡◌, ℕ, ◌<◌, ◌≤◌, ◌^◌, ◌+◌, ◌*◌, length, IsTrue};
ghost use Rattle.pbd_world.specs.Ledger.{ledger_of, HaveRoom};
ghost use Rattle.pbd_pair.specs.Bonds.{bond_of, IsBond, IsSound};
ghost use Rattle.pbd_store.specs.Moving.{AreInside};
ghost use Rattle.std.specs.List.{sum_by};
ghost use Rattle.pbd_schedule.specs.Legal.{are_below, position_of};
ghost use Rattle.pbd_schedule.specs.Mixed.{bond_at, first_leaving, first_written, happened, mixed, second_written};
ghost use Rattle.pbd_schedule.specs.Mixing.{mixed_in, CanMix, IsMoved, WorksOnSame};
ghost use Rattle.pbd_schedule.specs.Stages.{accesses, bookings, AreSound};

use crate::event::Event;
use pbd_pair::{Bonds, Note, book_moves, read_bond};
use pbd_store::{Steps, Store};
use pbd_world::{Bond, Correction, Totals};
use std::sync::ledger::Ledger;

/// What the events of a batch work on: a note for each of its bonds, the particles, the ledger of their moves, and the count
/// of accesses to them.
#[derive(Drop)]
pub(crate) struct Mix<'a, const L: usize, G: Ledger> {
    pub(crate) notes: &'a mut [Note],
    pub(crate) store: &'a mut Store<L>,
    pub(crate) totals: &'a mut Totals,
    pub(crate) steps: &'a mut Steps<G>,
}

impl<const L: usize, G: Ledger> Mix<'_, L, G> {
    /// The events of a batch, one after another.
    pub(crate) fn run(&mut self, bonds: &Bonds<'_>, batch: &[u32], events: &[Event])
        requires ready { CanMix (2 ^ 120) bonds.now batch.now self.old }
        requires positions { IsTrue (are_below (length batch.now) events.now) }
        requires few { length events.now < 2 ^ 32 }
        ensures value { mixed_in self.new
            ≡ mixed self.old.store.now.limit (bond_at (bond_of bonds.now) batch.now) events.now (mixed_in self.old) }
        ensures moved { IsMoved self.old.store.now self.new.store.now }
        ensures notes { length self.new.notes.now ≡ length self.old.notes.now }
        ensures sound { AreSound self.old.store.now.limit self.new.notes.now }
        ensures same { WorksOnSame self.old self.new }
        ensures room { (n : ℕ) → HaveRoom n (ledger_of self.old.totals.now)
            → HaveRoom (n + sum_by bookings events.now * 2 ^ 32) (ledger_of self.new.totals.now) }
        ensures cost { self.new.steps.now ≤ self.old.steps.now + sum_by accesses events.now }
    {
        for event in events {
            self.happen(bonds, batch, *event);
        }
    }

    // One event of a batch.
    fn happen(&mut self, bonds: &Bonds<'_>, batch: &[u32], event: Event)
        requires ready { CanMix (2 ^ 125) bonds.now batch.now self.old }
        requires position { position_of event < length batch.now }
        ensures value { mixed_in self.new
            ≡ happened self.old.store.now.limit (bond_at (bond_of bonds.now) batch.now) event (mixed_in self.old) }
        ensures moved { IsMoved self.old.store.now self.new.store.now }
        ensures notes { length self.new.notes.now ≡ length self.old.notes.now }
        ensures sound { AreSound self.old.store.now.limit self.new.notes.now }
        ensures same { WorksOnSame self.old self.new }
        ensures room { (n : ℕ) → HaveRoom n (ledger_of self.old.totals.now)
            → HaveRoom (n + bookings event * 2 ^ 32) (ledger_of self.new.totals.now) }
        ensures cost { self.new.steps.now ≤ self.old.steps.now + accesses event }
    {
        let k = event.position() as usize;
        let bond = bonds.get(batch[k]);
        let note = self.notes[k];
        match event {
            Event::Read(_) => self.notes[k] = read_bond(self.store, bond, self.steps),
            Event::WriteA(_) => self.write_first(bond, note),
            Event::WriteB(_) => self.write_second(bond, note),
        }
    }

    // Writes the first end of a bond as noted.
    fn write_first(&mut self, bond: Bond, note: Note)
        requires bond { IsBond self.old.store.now.limit (length self.old.store.now.particles) bond }
        requires sound { IsSound self.old.store.now.limit note.correction }
        requires inside { AreInside self.old.store.now.limit self.old.store.now.particles }
        ensures value { mixed_in self.new ≡ first_written bond note.correction (mixed_in self.old) }
        ensures moved { IsMoved self.old.store.now self.new.store.now }
        ensures same { WorksOnSame self.old self.new }
        ensures notes { self.new.notes.now ≡ self.old.notes.now }
        ensures totals { self.new.totals.now ≡ self.old.totals.now }
        ensures cost { self.new.steps.now ≤ self.old.steps.now + 1 }
    {
        if let Correction::Moves(shift) = note.correction {
            self.store.put(bond.a, shift.first, self.steps);
        }
    }

    // Writes the second end of a bond as noted, and books its moves.
    fn write_second(&mut self, bond: Bond, note: Note)
        requires bond { IsBond self.old.store.now.limit (length self.old.store.now.particles) bond }
        requires sound { IsSound self.old.store.now.limit note.correction }
        requires inside { AreInside self.old.store.now.limit self.old.store.now.particles }
        requires room { HaveRoom (2 ^ 125) (ledger_of self.old.totals.now) }
        ensures value { mixed_in self.new ≡ second_written bond note note.correction (mixed_in self.old) }
        ensures moved { IsMoved self.old.store.now self.new.store.now }
        ensures same { WorksOnSame self.old self.new }
        ensures notes { self.new.notes.now ≡ self.old.notes.now }
        ensures room { (n : ℕ) → HaveRoom n (ledger_of self.old.totals.now)
            → HaveRoom (n + 2 ^ 32) (ledger_of self.new.totals.now) }
        ensures cost { self.new.steps.now ≤ self.old.steps.now + 1 }
    {
        if let Correction::Moves(shift) = note.correction {
            self.store.put(bond.b, shift.second, self.steps);
            book_moves(self.totals, note, bond, shift);
        }
    }
}

/// The number of the first bond of a batch that is noted to leave the limit.
pub(crate) fn first_leaving(batch: &[u32], notes: &[Note]) -> Option<u32>
    requires { length batch.now ≤ length notes.now }
    ensures { result ≡ first_leaving batch.now notes.now }
{
    for k in 0..batch.len() {
        if let Correction::Leaves = notes[k].correction {
            return Some(batch[k]);
        }
    }
    None
}
