// All live bonds of a list, projected colour by colour.
ghost use Rattle.std.specs.Prelude.{◌≡◌, ◌+◌, ◌-◌, ◌*◌, ◌<◌, ◌≤◌, ◌^◌, [], min, length, IsTrue, OnOk};
ghost use Rattle.pbd_world.specs.Colours.{order};
ghost use Rattle.pbd_world.specs.Work.{bonds_work};
ghost use Rattle.pbd_colour.specs.Batch.{AreApart, AreLive};
ghost use Rattle.pbd_colour.specs.Pairs.{batch_of};
ghost use Rattle.pbd_step.specs.Projecting.{AreProjected, CanProjectAll, nth_batch};

use pbd_colour::Colouring;
use pbd_pair::{Bonds, Laid, Projector};
use pbd_store::{Steps, Store};
use pbd_world::{Left, Totals};
use std::sync::ledger::Ledger;

/// Bonds, the colouring of their pairs, and the columns of the live ones in the order of their colours.
#[derive(Drop)]
pub(crate) struct BondList<'a> {
    pub(crate) bonds: Bonds<'a>,
    pub(crate) laid: Laid<'a>,
    pub(crate) colours: &'a Colouring,
}

/// A projector's count of what it was handed fits 64 bits.
pub(crate) fn counts<const L: usize, P: Projector<L>>(projector: &P)
    ensures { P.count projector.now ≤ 2 ^ 64 - 1 }
{
    let _count = projector.handed();
}

/// Whether there are no numbers.
pub(crate) fn are_none(numbers: &[u32]) -> bool
    ensures { IsTrue result → numbers.now ≡ [] }
{
    numbers.is_empty()
}

impl BondList<'_> {
    // The k-th of the batches in which live pairs are projected: colour k where k is below 63, and behind these each
    // serial pair alone.
    fn batch(&self, k: usize) -> &[u32]
        requires { k < 63 + length (batch_of self.now.colours.now.pairs self.now.colours.now.live 63) }
        ensures value { result.now ≡ nth_batch self.now.colours.now.pairs self.now.colours.now.live k }
        ensures live { AreLive self.now.colours.now.pairs self.now.colours.now.live result.now }
        ensures apart { AreApart self.now.colours.now.pairs result.now }
    {
        if k < 63 {
            return self.colours.batch(k as u8);
        }
        let at = k - 63;
        &self.colours.serial()[at..at + 1]
    }

    /// Projects the live pairs of a colouring, each as the bond of its number: colour by colour, each colour as one
    /// batch, and then the serial pairs one by one. `Left` has the number of the first that would leave the limit;
    /// places and totals are then any.
    pub(crate) fn project_all<const L: usize, P: Projector<L>, G: Ledger>(
        &self,
        projector: &mut P,
        store: &mut Store<L>,
        totals: &mut Totals,
        steps: &mut Steps<G>,
    ) -> Result<(), Left>
        requires lanes_low { 0 < L }
        requires lanes_high { L ≤ 16 }
        requires can { CanProjectAll (2 ^ 119) self.now.bonds self.now.laid self.now.colours.now.pairs self.now.colours.now.live
            store.old totals.old }
        ensures done { AreProjected result self.now.bonds (order self.now.colours.now.pairs self.now.colours.now.live)
            (2 ^ 60) store.old store.new totals.old totals.new }
        ensures handed { OnOk result
            (P.count projector.new
            ≡ min (P.count projector.old + length (order self.now.colours.now.pairs self.now.colours.now.live)) (2 ^ 64 - 1)) }
        ensures not_fallen { P.count projector.old ≤ P.count projector.new }
        ensures width { P.width projector.new ≡ P.width projector.old }
        ensures cost { steps.new ≤ steps.old + bonds_work (P.width projector.old) self.now.colours.now.pairs self.now.colours.now.live }
    {
        counts(projector);
        let serial = self.colours.serial();
        let mut rest = self.laid;
        for k in 0..63 + serial.len() {
            let numbers = self.batch(k);
            if are_none(numbers) {
                continue;
            }
            let (laid, after) = rest.split_at(numbers.len());
            rest = after;
            let bonds = self.bonds.with_columns(laid);
            projector.project(store, bonds, numbers, totals, steps)?;
        }
        Ok(())
    }
}
