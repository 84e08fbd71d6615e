// The projector that projects one bond after another.
ghost use Rattle.std.specs.Prelude.{◌≡◌};

use crate::bonds::Bonds;
use crate::one::NumberedBond;
use crate::projector::Projector;
use pbd_store::{Steps, Store};
use pbd_world::{Left, Totals};
use std::sync::ledger::Ledger;

/// Projects one bond after another.
#[derive(Clone, Copy)]
pub struct Scalar<const L: usize> {
    count: u64,
}

impl<const L: usize> Scalar<L> {
    pub fn new() -> Scalar<L>
        ensures { ⟦<Scalar<L> as Projector<L>>⟧.count result ≡ 0 }
    {
        Scalar { count: 0 }
    }
}

impl<const L: usize> Projector<L> for Scalar<L> {
    ghost width = { λ _. 1 };

    ghost count = { λ s. s.count };

    fn lanes(&self) -> usize {
        1
    }

    fn handed(&self) -> u64 {
        self.count
    }

    fn project<G: Ledger>(
        &mut self,
        store: &mut Store<L>,
        bonds: Bonds<'_>,
        batch: &[u32],
        totals: &mut Totals,
        steps: &mut Steps<G>,
    ) -> Result<(), Left> {
        self.count = self.count.saturating_add(batch.len() as u64);
        for n in batch {
            let bond = bonds.get(*n);
            let one = NumberedBond { number: *n, bond };
            if let Err(left) = one.project(store, totals, steps) {
                return Err(left);
            }
        }
        Ok(())
    }
}
