// Tests of all particles.
ghost use Rattle.std.specs.Prelude.{◌≡◌, ℕ, ◌+◌, ◌*◌, ◌≤◌, ◌^◌, pos, ◌≤ℤ◌, unsigned_abs, length, not, ◌&&◌, if◌then◌else◌, IsTrue, OnOk};
ghost use Rattle.pbd_num.specs.Vectors.{is_within};
ghost use Rattle.pbd_world.specs.Particles.{particle_at};
ghost use Rattle.pbd_world.specs.Valid.{is_at_rest};
ghost use Rattle.pbd_sound.specs.Soundness.{first_where, particles_checked, weigh_alike};
ghost use Rattle.pbd_sound.specs.Tests.{fails};

use crate::Unsound;
use pbd_num::{Vec3, within};
use pbd_store::{Steps, Store};
use pbd_track::is_tracked;
use pbd_world::{Particle, Track};
use std::sync::ledger::Ledger;

/// What can be wrong with a particle.
#[derive(Clone, Copy)]
pub(crate) enum Test {
    Outside,
    WasOutside,
    HeldWrongly,
    WeighsOtherwise(u16),
}

#[tactic(auto, using(pbd_world::proofs::ValidLemmas::at_rest_test))]
fn is_at_rest(p: &Particle) -> bool
    ensures { result ≡ is_at_rest p.now }
{
    p.at == p.before
}

fn is_held_wrongly(tracked: bool, p: &Particle) -> bool
    ensures { result ≡ (if tracked then not p.now.held else (p.now.held && not (is_at_rest p.now))) }
{
    if tracked {
        return !p.held;
    }
    p.held && !is_at_rest(p)
}

fn is_outside(place: Vec3, limit: i64) -> bool
    requires low { pos 0 ≤ℤ limit }
    requires high { unsigned_abs limit ≤ 2 ^ 29 }
    ensures { result ≡ not (is_within limit place) }
{
    !within(place, limit)
}

impl Test {
    /// Whether particle i fails.
    fn fails(self, limit: i64, tracks: &[Track], i: u32, p: &Particle) -> bool
        requires low { pos 0 ≤ℤ limit }
        requires high { unsigned_abs limit ≤ 2 ^ 29 }
        ensures { result ≡ fails self limit tracks.now i p.now }
    {
        match self {
            Test::Outside => is_outside(p.at, limit),
            Test::WasOutside => is_outside(p.before, limit),
            Test::HeldWrongly => is_held_wrongly(is_tracked(tracks, i), p),
            Test::WeighsOtherwise(weight) => p.weight != weight,
        }
    }
}

/// The number of the first particle that fails a test.
fn first_that_fails<const L: usize, G: Ledger>(
    test: Test,
    tracks: &[Track],
    store: &Store<L>,
    steps: &mut Steps<G>,
) -> Option<u32>
    requires lanes { L ≤ 16 }
    ensures value { result ≡ first_where 0 (fails test store.now.limit tracks.now) store.now.particles }
    ensures few { length store.now.particles ≤ 65536 }
    ensures cost { steps.new ≤ steps.old + length store.now.particles }
{
    let limit = store.limit();
    for i in 0..store.len() {
        let p = store.at(i, steps);
        if test.fails(limit, tracks, i, &p) {
            return Some(i);
        }
    }
    None
}

/// The first place outside the limit, else the first place before, else the first particle that is held wrongly.
#[tactic(auto, unfolding(crate::specs::Soundness::particles_checked))]
pub(crate) fn check_particles<const L: usize, G: Ledger>(
    tracks: &[Track],
    store: &Store<L>,
    steps: &mut Steps<G>,
) -> Result<(), Unsound>
    requires lanes { L ≤ 16 }
    ensures value { result ≡ particles_checked store.now.limit tracks.now store.now.particles }
    ensures few { length store.now.particles ≤ 65536 }
    ensures cost { steps.new ≤ steps.old + 3 * length store.now.particles }
{
    if let Some(i) = first_that_fails(Test::Outside, tracks, store, steps) {
        return Err(Unsound::Place(i));
    }
    if let Some(i) = first_that_fails(Test::WasOutside, tracks, store, steps) {
        return Err(Unsound::Before(i));
    }
    if let Some(i) = first_that_fails(Test::HeldWrongly, tracks, store, steps) {
        return Err(Unsound::Held(i));
    }
    Ok(())
}

/// Whether all particles weigh the same.
#[tactic(auto, unfolding(crate::specs::Soundness::weigh_alike))]
pub(crate) fn weigh_alike<const L: usize, G: Ledger>(store: &Store<L>, steps: &mut Steps<G>) -> bool
    requires lanes { L ≤ 16 }
    ensures value { result ≡ weigh_alike store.now.particles }
    ensures cost { steps.new ≤ steps.old + length store.now.particles + 1 }
{
    if store.len() == 0 {
        return true;
    }
    let first = store.at(0, steps);
    first_that_fails(Test::WeighsOtherwise(first.weight), &[], store, steps).is_none()
}
