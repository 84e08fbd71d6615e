//! The sums of a frame.
ghost use Rattle.std.specs.Prelude.{◌≡◌, ◌+◌, ◌≤◌, length};
ghost use Rattle.pbd_num.specs.Vectors.{axes, plus};
ghost use Rattle.pbd_world.specs.Replay.{frame_sums, sum_over};

use crate::Session;
use pbd_num::Vec3;
use pbd_pair::Projector;
use pbd_step::Solver;
use pbd_store::Steps;
use pbd_world::FrameSums;
use std::sync::ledger::Ledger;

/// The sums of the places and of the places before over some particles.
#[derive(Clone, Copy)]
pub struct PlaceSums {
    at: Vec3,
    before: Vec3,
}

/// The sums over all particles, of which there are at most 65,536, so that each axis is at most 2^45 in size.
fn summed<const L: usize, P: Projector<L> + Drop, G: Ledger>(
    solver: &Solver<L, P>,
    steps: &mut Steps<G>,
) -> PlaceSums
    requires lanes_high { L ≤ 16 }
    ensures at { result.at ≡ sum_over (λ p. p.at) solver.now.world.particles }
    ensures before { result.before ≡ sum_over (λ p. p.before) solver.now.world.particles }
    ensures cost { steps.new ≡ steps.old + length solver.now.world.particles }
{
    let mut at = Vec3::ZERO;
    let mut before = Vec3::ZERO;
    for i in 0..solver.particles() {
        let particle = solver.particle(i, steps);
        at = at.plus(particle.at);
        before = before.plus(particle.before);
    }
    PlaceSums { at, before }
}

fn axes(v: Vec3) -> [i64; 3]
    ensures { result ≡ axes v }
{
    [v.x, v.y, v.z]
}

impl<const L: usize, P: Projector<L> + Drop> Session<L, P> {
    /// What a log keeps of the world: counts, and the sums of the places and of the places before over all particles.
    pub fn frame_sums<G: Ledger>(&self, steps: &mut Steps<G>) -> FrameSums
        requires lanes_high { L ≤ 16 }
        ensures value { result ≡ frame_sums self.now }
        ensures cost { steps.new ≡ steps.old + length self.now.particles }
    {
        let solver = self.solver();
        let sums = summed(solver, steps);
        FrameSums {
            steps: solver.step_count(),
            live: solver.live(),
            contacts: solver.contacts(),
            at: axes(sums.at),
            before: axes(sums.before),
        }
    }
}
