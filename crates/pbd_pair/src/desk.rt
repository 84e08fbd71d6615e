// A chunk of bonds from its numbers on.
ghost use Rattle.std.specs.Prelude.{◌≡◌, ◌+◌, ◌*◌, ◌<◌, ◌≤◌, length, OnOk};
ghost use Rattle.pbd_pair.specs.Prelude.{blocks_of, fixed_parts};
ghost use Rattle.pbd_pair.specs.Bonds.{bond_of};
ghost use Rattle.pbd_pair.specs.Laid.{SuitIf};
ghost use Rattle.pbd_pair.specs.Projecting.{CanProject, ComesTo, StaysSound};

use crate::chunk::{Chunk, Columns, Found};
use crate::near::NearMoves;
use pbd_store::{Between, Steps, Store};
use pbd_world::{Left, Totals};
use std::sync::ledger::Ledger;

/// What is written of one chunk after another.
#[derive(Clone, Copy)]
pub(crate) struct Desk {
    columns: Columns,
    between: Between,
    near: NearMoves,
}

impl Desk {
    /// Zeros.
    pub(crate) fn new() -> Desk {
        Desk {
            columns: Columns::new(),
            between: Between::new(),
            near: NearMoves::new(),
        }
    }

    /// Projects a chunk of bonds, which are laid in columns unless they came in such.
    pub(crate) fn project<const L: usize, G: Ledger>(
        &mut self,
        store: &mut Store<L>,
        chunk: Chunk<'_>,
        totals: &mut Totals,
        steps: &mut Steps<G>,
    ) -> Result<(), Left>
        requires some_lanes { 0 < L }
        requires lanes { L ≤ 16 }
        requires can { CanProject 128 chunk.bonds chunk.numbers.now store.old totals.old }
        requires laid { SuitIf chunk.laid (bond_of chunk.bonds) chunk.numbers.now store.old.particles }
        ensures outcome { ComesTo chunk.entry.bonds chunk.entry.numbers.now store.old store.new totals.old totals.new result }
        ensures limit { store.new.limit ≡ store.old.limit }
        ensures copies { store.new.copies ≡ store.old.copies }
        ensures fixed { fixed_parts store.new.particles ≡ fixed_parts store.old.particles }
        ensures sound { OnOk result (StaysSound (length chunk.entry.numbers.now) store.old store.new totals.old totals.new) }
        ensures cost { steps.new ≡ steps.old + 4 * blocks_of (length chunk.entry.numbers.now) L }
    {
        match chunk.laid {
            Some(laid) => {
                let pairs = laid.pairs();
                store.ways(pairs, &mut self.between, steps);
                let found = Found {
                    chunk,
                    pairs,
                    laid,
                    ways: &self.between.ways,
                };
                self.near.project(store, &found, totals, steps)
            }
            None => {
                let count = chunk.numbers.len();
                self.columns.take_ends(&chunk);
                let ends = self.columns.pairs(count);
                store.between(ends, &mut self.between, steps);
                self.columns.lay(&chunk, &self.between);
                let rows = self.columns.rows(&self.between, count);
                let found = Found {
                    chunk,
                    pairs: rows.pairs,
                    laid: rows.laid,
                    ways: rows.ways,
                };
                self.near.project(store, &found, totals, steps)
            }
        }
    }
}
