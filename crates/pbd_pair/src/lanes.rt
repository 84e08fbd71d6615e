// The projector that projects bonds side by side, up to a chunk together.
ghost use Rattle.std.specs.Prelude.{◌≡◌};

use crate::bonds::Bonds;
use crate::chunk::{Chunk, split_columns};
use crate::correct::limit_of;
use crate::desk::Desk;
use crate::projector::Projector;
use pbd_num::CHUNK;
use pbd_store::{Steps, Store};
use pbd_world::{Left, Totals};
use std::sync::ledger::Ledger;

/// Projects bonds side by side, up to 128 together: a multiple of L of them, but for the last of a batch. A move that isn't found
/// exactly so is found for its bond alone, and the bonds of its chunk may then go one by one.
#[derive(Clone, Copy)]
pub struct LaneProjector<const L: usize> {
    count: u64,
    /// What each chunk writes before it reads it.
    desk: Desk,
}

impl<const L: usize> LaneProjector<L> {
    pub fn new() -> LaneProjector<L>
        ensures { ⟦<LaneProjector<L> as Projector<L>>⟧.count result ≡ 0 }
    {
        LaneProjector {
            count: 0,
            desk: Desk::new(),
        }
    }
}

impl<const L: usize> Projector<L> for LaneProjector<L> {
    ghost width = { λ _. L };

    ghost count = { λ s. s.count };

    fn lanes(&self) -> usize {
        L
    }

    fn handed(&self) -> u64 {
        self.count
    }

    fn project<G: Ledger>(
        &mut self,
        store: &mut Store<L>,
        bonds: Bonds<'_>,
        batch: &[u32],
        totals: &mut Totals,
        steps: &mut Steps<G>,
    ) -> Result<(), Left> {
        self.count = self.count.saturating_add(batch.len() as u64);
        if batch.is_empty() {
            return Ok(());
        }
        limit_of(store);
        let most = CHUNK - CHUNK % L;
        let mut rest = batch;
        let mut columns = bonds.columns();
        'steps_on: while !rest.is_empty() {
            let size = rest.len().min(most);
            let (numbers, after) = rest.split_at(size);
            let (laid, laid_after) = split_columns(columns, size);
            let chunk = Chunk {
                bonds,
                numbers,
                laid,
            };
            if let Err(left) = self.desk.project(store, chunk, totals, steps) {
                return Err(left);
            }
            rest = after;
            columns = laid_after;
        }
        Ok(())
    }
}
