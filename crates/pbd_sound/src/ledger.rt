// Tests of the ledger.
ghost use Rattle.std.specs.Prelude.{◌≡◌, ◌+◌, ◌*◌, ◌≤◌, ◌^◌, not, length, ◌&&◌, nat_le, unsigned_abs, OnOk, if◌then◌else◌, [], ◌∷◌};
ghost use Rattle.pbd_world.specs.Ledger.{sum_of, ledger_of, SumWithin};
ghost use Rattle.pbd_world.specs.Momentum.{momentum as momentum_of};
ghost use Rattle.pbd_world.specs.Outcomes.{unless};
ghost use Rattle.pbd_world.specs.World.{AreBounded};
ghost use Rattle.pbd_sound.specs.Soundness.{is_sum_within, total_checked, totals_checked, is_balanced, most_unless, ledger_checked};

use crate::Unsound;
use crate::judging::Numbers;
use crate::particles::weigh_alike;
use pbd_ledger::{balanced, momentum, sums_with_room_fit};
use pbd_store::{Steps, Store};
use pbd_world::{Class, MOST_CONTACTS, Totals};
use std::sync::ledger::Ledger;

fn is_sum_within(most: u128, sum: &[i128; 3]) -> bool
    ensures { result ≡ is_sum_within most (sum_of sum.now) }
{
    sum[0].unsigned_abs() <= most && sum[1].unsigned_abs() <= most && sum[2].unsigned_abs() <= most
}

fn check_total(class: Class, most: u128, sum: &[i128; 3]) -> Result<(), Unsound>
    ensures { result ≡ total_checked class most (sum_of sum.now) }
{
    if !is_sum_within(most, sum) {
        return Err(Unsound::Total(class));
    }
    Ok(())
}

/// How far totals may have grown.
#[derive(Clone, Copy)]
pub(crate) struct Most {
    pub(crate) any: u128,
    pub(crate) damped: u128,
    pub(crate) bonded: u128,
}

/// The first total that is too large, of all but the pin total.
#[tactic(auto, unfolding(crate::specs::Soundness::totals_checked))]
fn check_totals(most: &Most, totals: &Totals) -> Result<(), Unsound>
    ensures { result ≡ totals_checked most.now.any most.now.damped most.now.bonded (ledger_of totals.now) }
{
    check_total(Class::Gravity, most.any, &totals.gravity)?;
    check_total(Class::Damping, most.damped, &totals.damping)?;
    check_total(Class::Link, most.bonded, &totals.link)?;
    check_total(Class::Contact, most.bonded, &totals.contact)?;
    check_total(Class::Shape, most.any, &totals.shape)
}

fn most_unless(still: bool, steps: u64) -> u128
    ensures { result ≡ most_unless still steps }
{
    if still {
        0
    } else {
        (1 << 64) * u128::from(steps)
    }
}

/// Whether momentum is the opening momentum and the six totals together, where all but the pin total are small.
fn is_balanced<const L: usize, G: Ledger>(
    opening: &[i128; 3],
    totals: &Totals,
    store: &Store<L>,
    steps: &mut Steps<G>,
) -> bool
    requires lanes { L ≤ 16 }
    requires opening { SumWithin (2 ^ 84) (sum_of opening.now) }
    requires totals { AreBounded (2 ^ 84) (ledger_of totals.now) }
    requires now { SumWithin (2 ^ 84) (momentum_of store.now.particles) }
    ensures value { result ≡ is_balanced (sum_of opening.now) (ledger_of totals.now) store.now.particles }
    ensures cost { steps.new ≤ steps.old + length store.now.particles }
{
    if !is_sum_within(1 << 99, &totals.pin) {
        return false;
    }
    let now = momentum(store, steps);
    sums_with_room_fit();
    balanced(opening, &now, totals)
}

/// The first of the contacts and the totals that can't be.
#[tactic(auto, unfolding(crate::specs::Soundness::ledger_checked))]
pub(crate) fn check_ledger<const L: usize, G: Ledger>(
    numbers: &Numbers,
    store: &Store<L>,
    steps: &mut Steps<G>,
) -> Result<(), Unsound>
    requires lanes { L ≤ 16 }
    requires few { numbers.now.steps ≤ 1000000 }
    requires opening { SumWithin (2 ^ 46) (sum_of numbers.now.opening) }
    requires now { SumWithin (2 ^ 84) (momentum_of store.now.particles) }
    ensures value { result ≡ ledger_checked numbers.now.steps numbers.now.damping numbers.now.contacts
        (sum_of numbers.now.opening) (ledger_of numbers.now.totals) store.now.particles }
    ensures cost { steps.new ≤ steps.old + 2 * length store.now.particles + 1 }
{
    if numbers.contacts > MOST_CONTACTS {
        return Err(Unsound::Contacts);
    }
    let alike = weigh_alike(store, steps);
    let most = Most {
        any: most_unless(false, numbers.steps),
        damped: most_unless(numbers.damping == 0, numbers.steps),
        bonded: most_unless(alike, numbers.steps),
    };
    check_totals(&most, &numbers.totals)?;
    if !is_balanced(&numbers.opening, &numbers.totals, store, steps) {
        return Err(Unsound::Total(Class::Pin));
    }
    Ok(())
}
