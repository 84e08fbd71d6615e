// One bond of a store.
ghost use Rattle.std.specs.Prelude.{◌≡◌, ℕ, ◌≤◌, ◌^◌, ◌+◌, length, MatchResult, Result, Ok, Err};
ghost use Rattle.pbd_world.specs.Ledger.{ledger_of, HaveRoom};
ghost use Rattle.pbd_world.specs.Bonds.{corrected, correction_at};
ghost use Rattle.pbd_pair.specs.Bonds.{IsBond};
ghost use Rattle.pbd_store.specs.Moving.{motion_of, fixed_parts, AreInside};

use crate::parts::{book_moves, read_bond};
use pbd_store::{Steps, Store};
use pbd_world::{Bond, Correction, Left, Totals};
use std::sync::ledger::Ledger;

/// A bond, and its number.
#[derive(Clone, Copy)]
pub(crate) struct NumberedBond {
    pub(crate) number: u32,
    pub(crate) bond: Bond,
}

impl NumberedBond {
    /// Projects the bond, unless that leaves the limit.
    pub(crate) fn project<const L: usize, G: Ledger>(
        self,
        store: &mut Store<L>,
        totals: &mut Totals,
        steps: &mut Steps<G>,
    ) -> Result<(), Left>
        requires bond { IsBond store.old.limit (length store.old.particles) self.bond }
        requires inside { AreInside store.old.limit store.old.particles }
        requires room { HaveRoom (2 ^ 125) (ledger_of totals.old) }
        ensures outcome { MatchResult result
            (λ _. corrected self.number self.bond (correction_at store.old.limit store.old.particles self.bond)
            (motion_of store.old totals.old) ≡ Ok (motion_of store.new totals.new))
            (λ left. corrected self.number self.bond (correction_at store.old.limit store.old.particles self.bond)
            (motion_of store.old totals.old) ≡ Err left.element) }
        ensures inside { AreInside store.old.limit store.new.particles }
        ensures limit { store.new.limit ≡ store.old.limit }
        ensures copies { store.new.copies ≡ store.old.copies }
        ensures fixed { fixed_parts store.new.particles ≡ fixed_parts store.old.particles }
        ensures room { (k : ℕ) → HaveRoom k (ledger_of totals.old) → HaveRoom (k + 2 ^ 32) (ledger_of totals.new) }
        ensures cost { steps.new ≤ steps.old + 4 }
    {
        let note = read_bond(store, self.bond, steps);
        match note.correction {
            Correction::Slack => Ok(()),
            Correction::Leaves => Err(Left {
                element: self.number,
            }),
            Correction::Moves(shift) => {
                store.put(self.bond.a, shift.first, steps);
                store.put(self.bond.b, shift.second, steps);
                book_moves(totals, note, self.bond, shift);
                Ok(())
            }
        }
    }
}
