// What a projector is: how a batch of bonds is projected, and what that costs.
ghost use Rattle.std.specs.Prelude.{◌≡◌, ℕ, ◌<◌, ◌≤◌, ◌^◌, ◌+◌, ◌-◌, ◌*◌, min, length, MatchResult, OnOk, Result, Ok, Err};
ghost use Rattle.pbd_pair.specs.Prelude.{blocks_of, fixed_parts, ledger_of, motion_of, AreInside, HaveRoom, Weigh};
ghost use Rattle.pbd_world.specs.Bonds.{projected};
ghost use Rattle.pbd_pair.specs.Bonds.{bond_of};
ghost use Rattle.pbd_pair.specs.Laid.{Suit};
ghost use Rattle.pbd_pair.specs.Projecting.{IsBatch};

use crate::bonds::Bonds;
use pbd_store::{Steps, Store};
use pbd_world::{Left, Totals};
use std::sync::ledger::Ledger;

/// What projects batches of constraints: bonds of which no two share a particle, as those of one colour below 63 in a
/// Gauss-Seidel sweep, so that the order within a batch has no effect but on which bond `Left` names.
pub trait Projector<const L: usize> {
    /// Its lane width.
    ghost width: { Self → ℕ };

    /// How many bonds it was handed.
    ghost count: { Self → ℕ };

    /// Its lane width, at least 1.
    fn lanes(&self) -> usize
        requires { 0 < L }
        ensures value { result ≡ width self.now }
        ensures some { 0 < result };

    /// How many bonds it was handed since it was made, up to 2^64 - 1.
    fn handed(&self) -> u64
        ensures { result ≡ count self.now };

    /// Projects a batch as its bonds do one by one, in the batch's order.
    ///
    /// `Left` has the number of the first bond that would move an end out of the store's limit. The places and
    /// the totals are then any, and all else of the store is as it was. Columns that come with the bonds are those of the batch.
    fn project<G: Ledger>(
        &mut self,
        store: &mut Store<L>,
        bonds: Bonds<'_>,
        batch: &[u32],
        totals: &mut Totals,
        steps: &mut Steps<G>,
    ) -> Result<(), Left>
        requires lanes_low { 0 < L }
        requires lanes_high { L ≤ 16 }
        requires batch { IsBatch store.old.limit (length store.old.particles) bonds batch.now }
        requires columns { Suit bonds batch.now store.old.particles }
        requires inside { AreInside store.old.limit store.old.particles }
        requires weights { Weigh store.old.particles }
        requires room { HaveRoom (2 ^ 120) (ledger_of totals.old) }
        ensures outcome { MatchResult result
            (λ _. projected store.old.limit (bond_of bonds.entry) batch.now (motion_of store.old totals.old)
            ≡ Ok (motion_of store.new totals.new))
            (λ left. projected store.old.limit (bond_of bonds.entry) batch.now (motion_of store.old totals.old) ≡ Err left.element) }
        ensures limit { store.new.limit ≡ store.old.limit }
        ensures copies { store.new.copies ≡ store.old.copies }
        ensures fixed { fixed_parts store.new.particles ≡ fixed_parts store.old.particles }
        ensures inside { OnOk result (AreInside store.old.limit store.new.particles) }
        ensures room { OnOk result ((n : ℕ) → HaveRoom n (ledger_of totals.old)
            → HaveRoom (n + length batch.now * 2 ^ 32) (ledger_of totals.new)) }
        ensures cost { steps.new ≤ steps.old + 4 * blocks_of (length batch.now) (width self.old) }
        ensures handed { count self.new ≡ min (count self.old + length batch.now) (2 ^ 64 - 1) }
        ensures width { width self.new ≡ width self.old };
}
