// The test of soundness.
ghost use Rattle.std.specs.Prelude.{◌≡◌, ◌+◌, ◌*◌, ◌≤◌, ◌^◌, pos, ◌≤ℤ◌, unsigned_abs, length};
ghost use Rattle.pbd_world.specs.Ledger.{sum_of, SumWithin};
ghost use Rattle.pbd_sound.specs.Soundness.{counts_checked, soundness};
ghost use Rattle.pbd_sound.specs.Numbers.{standing};

use crate::Unsound;
use crate::ledger::check_ledger;
use crate::particles::check_particles;
use pbd_num::{Vec3, within};
use pbd_store::{Steps, Store};
use pbd_world::{LAST_STEP, Totals, Track};
use std::sync::ledger::Ledger;

/// What is asked of a world beside its particles and tracks.
#[derive(Clone, Copy)]
pub struct Numbers {
    pub steps: u64,
    pub gravity: Vec3,
    pub damping: i64,
    pub contacts: u32,
    pub totals: Totals,
    pub opening: [i128; 3],
}

#[tactic(auto, unfolding(crate::specs::Soundness::counts_checked))]
fn check_counts(limit: i64, numbers: &Numbers) -> Result<(), Unsound>
    requires low { pos 0 ≤ℤ limit }
    requires high { unsigned_abs limit ≤ 2 ^ 29 }
    ensures { result ≡ counts_checked limit numbers.now.steps numbers.now.gravity }
{
    if numbers.steps > u64::from(LAST_STEP) {
        return Err(Unsound::Steps);
    }
    if !within(numbers.gravity, limit) {
        return Err(Unsound::Gravity);
    }
    Ok(())
}

/// Nothing, or the first that is unsound of particles and numbers that were told on a sound world. In the order in which
/// states are written.
#[tactic(auto, unfolding(crate::specs::Soundness::soundness))]
pub fn judge<const L: usize, G: Ledger>(
    tracks: &[Track],
    store: &Store<L>,
    numbers: &Numbers,
    steps: &mut Steps<G>,
) -> Result<(), Unsound>
    requires lanes { L ≤ 16 }
    requires opening { SumWithin (2 ^ 46) (sum_of numbers.now.opening) }
    ensures value { result ≡ soundness (standing tracks.now store.now numbers.now) }
    ensures cost { steps.new ≤ steps.old + 5 * length store.now.particles + 1 }
{
    check_counts(store.limit(), numbers)?;
    check_particles(tracks, store, steps)?;
    check_ledger(numbers, store, steps)
}
