//! The momentum of the particles of a store, and whether it agrees with the ledger.
#![tactic(auto)]

ghost use Rattle.std.specs.Prelude.{◌≡◌, ◌↔◌, ℕ, ◌+◌, ◌≤◌, ◌^◌, ◌+ℤ◌, ◌-ℤ◌, unsigned_abs, length, IsTrue, if◌then◌else◌};
ghost use Rattle.pbd_num.specs.Vectors.{minus};
ghost use Rattle.pbd_world.specs.Ledger.{sum_of, ledger_of, sum_plus, both_sums, all_totals, SumWithin, SumFits};
ghost use Rattle.pbd_world.specs.Particles.{velocity, is_free};
ghost use Rattle.pbd_world.specs.Momentum.{momentum};
ghost use Rattle.pbd_ledger.specs.Fitting.{SumsFit};

use pbd_num::Vec3;
use pbd_store::{Steps, Store};
use pbd_world::{Particle, Totals};
use std::sync::ledger::Ledger;

mod laws;

pub use laws::sums_with_room_fit;

fn add_velocity(sum: i128, at: i64, before: i64) -> i128
    requires { unsigned_abs sum ≤ 2 ^ 80 }
    ensures value { result ≡ sum +ℤ (at -ℤ before) }
    ensures size { unsigned_abs result ≤ unsigned_abs sum + 2 ^ 64 }
{
    sum + (i128::from(at) - i128::from(before))
}

fn add_velocity_on_axes(sum: [i128; 3], at: Vec3, before: Vec3) -> [i128; 3]
    requires { SumWithin (2 ^ 80) (sum_of sum) }
    ensures value { sum_of result ≡ sum_plus (sum_of sum) (minus at before) }
    ensures size { (bound : ℕ) → SumWithin bound (sum_of sum) → SumWithin (bound + 2 ^ 64) (sum_of result) }
{
    [
        add_velocity(sum[0], at.x, before.x),
        add_velocity(sum[1], at.y, before.y),
        add_velocity(sum[2], at.z, before.z),
    ]
}

/// A sum of velocities with that of one more particle, unless it is held.
fn with_velocity(sum: [i128; 3], particle: Particle) -> [i128; 3]
    requires { SumWithin (2 ^ 80) (sum_of sum) }
    ensures value { sum_of result ≡ (if is_free particle then sum_plus (sum_of sum) (velocity particle) else sum_of sum) }
    ensures size { (bound : ℕ) → SumWithin bound (sum_of sum) → SumWithin (bound + 2 ^ 64) (sum_of result) }
{
    if particle.held {
        return sum;
    }
    add_velocity_on_axes(sum, particle.at, particle.before)
}

/// The momentum of a list of at most 65,536 particles, as `momentum` of a store.
pub fn momentum_of(particles: &[Particle]) -> [i128; 3]
    requires { length particles.now ≤ 65536 }
    ensures { sum_of result ≡ momentum particles.now }
{
    let mut sum = [0; 3];
    for i in 0..particles.len() {
        let next = with_velocity(sum, particles[i]);
        sum = next;
    }
    sum
}

/// The sum of the velocities of the particles that are not held, axis by axis, in units per step.
pub fn momentum<const L: usize, G: Ledger>(store: &Store<L>, steps: &mut Steps<G>) -> [i128; 3]
    ensures value { sum_of result ≡ momentum store.now.particles }
    ensures cost { steps.new ≡ steps.old + length store.now.particles }
{
    let mut sum = [0; 3];
    for i in 0..store.len() {
        let next = with_velocity(sum, store.at(i, steps));
        sum = next;
    }
    sum
}

fn both(a: &[i128; 3], b: &[i128; 3]) -> [i128; 3]
    requires { SumFits (both_sums (sum_of a.now) (sum_of b.now)) }
    ensures { sum_of result ≡ both_sums (sum_of a.now) (sum_of b.now) }
{
    [a[0] + b[0], a[1] + b[1], a[2] + b[2]]
}

fn same(a: &[i128; 3], b: &[i128; 3]) -> bool
    ensures { IsTrue result ↔ (sum_of a.now ≡ sum_of b.now) }
{
    a[0] == b[0] && a[1] == b[1] && a[2] == b[2]
}

/// Whether `now` is the opening momentum and the six totals together, on each axis.
/// The sums on the way have to fit 128 bits, as they do where the opening momentum and the totals are at most 2^120 in size.
pub fn balanced(opening: &[i128; 3], now: &[i128; 3], totals: &Totals) -> bool
    requires { SumsFit (sum_of opening.now) (ledger_of totals.now) }
    ensures { IsTrue result ↔ (sum_of now.now ≡ both_sums (sum_of opening.now) (all_totals (ledger_of totals.now))) }
{
    let from_pin = both(&totals.pin, &totals.shape);
    let from_contact = both(&totals.contact, &from_pin);
    let from_link = both(&totals.link, &from_contact);
    let from_damping = both(&totals.damping, &from_link);
    let all = both(&totals.gravity, &from_damping);
    same(now, &both(opening, &all))
}
