//! A bond in parts, for those who read and write its two ends apart.
ghost use Rattle.std.specs.Prelude.{◌≡◌, ℕ, ◌≤◌, ◌^◌, ◌+◌, length};
ghost use Rattle.pbd_num.specs.Vectors.{Within};
ghost use Rattle.pbd_world.specs.Ledger.{ledger_of, booked, HaveRoom};
ghost use Rattle.pbd_world.specs.Particles.{particle_at};
ghost use Rattle.pbd_world.specs.Bonds.{class_of, correction_at, entries_of};
ghost use Rattle.pbd_store.specs.Moving.{AreInside};
ghost use Rattle.pbd_pair.specs.Bonds.{IsBond, IsSound};

use crate::book::{HeldEnds, book};
use crate::correct::{as_end, correct, limit_of};
use pbd_store::{Steps, Store};
use pbd_world::{Bond, Correction, Shift, Totals};
use std::sync::ledger::Ledger;

/// What is noted of a bond as its particles are read: what it is to do with them, and which of them are held.
#[derive(Clone, Copy)]
pub struct Note {
    pub correction: Correction,
    pub first_held: bool,
    pub second_held: bool,
}

/// Reads both particles of a bond.
pub fn read_bond<const L: usize, G: Ledger>(
    store: &Store<L>,
    bond: Bond,
    steps: &mut Steps<G>,
) -> Note
    requires bond { IsBond store.now.limit (length store.now.particles) bond }
    requires inside { AreInside store.now.limit store.now.particles }
    ensures value { result ≡ record {
      correction = correction_at store.now.limit store.now.particles bond;
      first_held = (particle_at store.now.particles bond.a).held;
      second_held = (particle_at store.now.particles bond.b).held;
    } }
    ensures sound { IsSound store.now.limit result.correction }
    ensures cost { steps.new ≡ steps.old + 2 }
{
    let limit = limit_of(store);
    let p = store.at(bond.a, steps);
    let q = store.at(bond.b, steps);
    Note {
        correction: correct(limit, as_end(p), as_end(q), bond),
        first_held: p.held,
        second_held: q.held,
    }
}

/// Adds both moves of two free ends to the total of the bond's class, or the move of the free end alone to
/// that of pins. Where both ends are held, nothing is added.
pub fn book_moves(totals: &mut Totals, note: Note, bond: Bond, shift: Shift)
    requires room { HaveRoom (2 ^ 125) (ledger_of totals.old) }
    requires first { Within (2 ^ 31) shift.first_move }
    requires second { Within (2 ^ 31) shift.second_move }
    ensures value { ledger_of totals.new ≡ booked (ledger_of totals.old)
        (entries_of note.first_held note.second_held (class_of bond) shift) }
    ensures room { (n : ℕ) → HaveRoom n (ledger_of totals.old) → HaveRoom (n + 2 ^ 32) (ledger_of totals.new) }
{
    let held = HeldEnds {
        first: note.first_held,
        second: note.second_held,
    };
    book(totals, held, bond, shift);
}
