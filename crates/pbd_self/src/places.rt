//! The places and held flags of a store's particles, copied.
ghost use Rattle.std.specs.Prelude.{◌≡◌, ◌+◌, ◌<◌, ◌≤◌, ◌^◌, map, length, unsigned_abs};

use pbd_num::Vec3;
use pbd_store::{Steps, Store};
use pbd_world::RoomList;
use std::sync::ledger::Ledger;

// Takes the place of each particle and whether it is held.
pub(crate) fn copy_particles<const L: usize, G: Ledger>(
    store: &Store<L>,
    places: &mut RoomList<Vec3>,
    held: &mut RoomList<bool>,
    steps: &mut Steps<G>,
)
    requires places { length store.now.particles ≤ places.old.room }
    requires held { length store.now.particles ≤ held.old.room }
    ensures places { places.new ≡ record places.old { entries = map (λ p. p.at) store.now.particles } }
    ensures held { held.new ≡ record held.old { entries = map (λ p. p.held) store.now.particles } }
    ensures limit { 0 < length store.now.particles → unsigned_abs store.now.limit ≤ 2 ^ 29 }
    ensures cost { steps.new ≡ steps.old + length store.now.particles }
{
    places.clear();
    held.clear();
    for i in 0..store.len() {
        let particle = store.at(i, steps);
        let _ = places.push(particle.at);
        let _ = held.push(particle.held);
    }
}
