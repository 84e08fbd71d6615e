// The start of a step: held particles are attached and free ones predicted.
ghost use Rattle.std.specs.Prelude.{◌≡◌, ◌+◌, ◌*◌, ◌<◌, ◌≤◌, ◌^◌, ◌*ℤ◌, unsigned_abs, length, OnOk, MatchResult, Ok, Err};
ghost use Rattle.pbd_num.specs.Vectors.{Within, opposite};
ghost use Rattle.pbd_world.specs.declared.command.Phase.TheVariants as phases;
ghost use Rattle.pbd_world.specs.declared.totals.Class.TheVariants as classes;
ghost use Rattle.pbd_world.specs.Ledger.{ledger_of, added, HaveRoom};
ghost use Rattle.pbd_world.specs.Outcomes.{with_fault};
ghost use Rattle.pbd_world.specs.Step.{leaves, predict as predicted_motion};
ghost use Rattle.pbd_world.specs.Work.{beginning_work};
ghost use Rattle.pbd_world.specs.World.{IsSound};
ghost use Rattle.pbd_store.specs.Blocks.{blocks_of};
ghost use Rattle.pbd_step.specs.States.{world_of, now_of, IsUnderWay};
ghost use Rattle.pbd_step.specs.Staying.{IsMoved};
ghost use Rattle.pbd_step.specs.Predicting.{unled, times};

use crate::leaving::leaving;
use crate::state::{Setting, State};
use pbd_num::Vec3;
use pbd_store::{Forces, Steps};
use pbd_track::place;
use pbd_world::{Class, Left, Phase, Refusal, Totals};
use std::sync::ledger::Ledger;

fn product(g: i64, n: i64) -> i64
    requires g { unsigned_abs g ≤ 2 ^ 29 }
    requires n { unsigned_abs n ≤ 65536 }
    ensures value { result ≡ g *ℤ n }
    ensures size { unsigned_abs result ≤ 2 ^ 45 }
{
    g * n
}

/// What gravity adds to n particles together.
fn pulled_by(gravity: Vec3, n: i64) -> Vec3
    requires gravity { Within (2 ^ 29) gravity }
    requires n { unsigned_abs n ≤ 65536 }
    ensures value { result ≡ times gravity n }
    ensures size { Within (2 ^ 45) result }
{
    Vec3 {
        x: product(gravity.x, n),
        y: product(gravity.y, n),
        z: product(gravity.z, n),
    }
}

/// Books what gravity and damping do to all free particles, each at once.
fn book(totals: &mut Totals, pulled: Vec3, lost: Vec3)
    requires pulled { Within (2 ^ 45) pulled }
    requires lost { Within (2 ^ 46) lost }
    requires room { HaveRoom (2 ^ 120) (ledger_of totals.old) }
    ensures { ledger_of totals.new ≡ added (added (ledger_of totals.old) classes.Gravity pulled) classes.Damping (opposite lost) }
{
    totals.add(Class::Gravity, pulled);
    totals.add(Class::Damping, lost.opposite());
}

// What acts on particles at the start of a step.
fn forces_within(setting: &Setting, limit: i64) -> Forces
    ensures { result ≡ record { damping = setting.now.damping; gravity = setting.now.gravity; limit = limit } }
{
    Forces {
        damping: setting.damping,
        gravity: setting.gravity,
        limit,
    }
}

impl<const L: usize> State<L> {
    /// Advances all particles, up to the first that would leave the limit.
    fn advance<G: Ledger>(&mut self, setting: &Setting, steps: &mut Steps<G>) -> Result<(), Left>
        requires lanes_low { 0 < L }
        requires lanes_high { L ≤ 16 }
        requires sound { IsSound (world_of setting.now self.old) }
        ensures outcome { MatchResult result
            (λ _. predicted_motion (unled (world_of setting.now self.old)) ≡ Ok (now_of self.new))
            (λ left. predicted_motion (unled (world_of setting.now self.old)) ≡ Err left.element) }
        ensures moved { IsMoved self.old self.new }
        ensures room { OnOk result (HaveRoom (2 ^ 100) (ledger_of self.new.totals)) }
        ensures cost { steps.new ≤ steps.old + 2 * blocks_of (length self.old.store.particles) L }
    {
        let forces = forces_within(setting, self.store.limit());
        match self.store.fly(forces, steps) {
            Err(element) => Err(Left { element }),
            Ok(flown) => {
                let pulled = pulled_by(setting.gravity, flown.free);
                book(&mut self.totals, pulled, flown.lost);
                Ok(())
            }
        }
    }
}

/// Attaches the held particles and predicts the free ones (Verlet's step, Jakobsen 2001), or says in which step which
/// particle would leave the limit. After a refusal places and totals are any.
/// It reaches the store at most twice for each block, and once for each track.
pub(crate) fn predict<const L: usize, G: Ledger>(
    setting: &Setting,
    state: &mut State<L>,
    steps: &mut Steps<G>,
) -> Result<(), Refusal>
    requires lanes_low { 0 < L }
    requires lanes_high { L ≤ 16 }
    requires sound { IsSound (world_of setting.now state.old) }
    ensures outcome { MatchResult result
        (λ _. with_fault (leaves (world_of setting.now state.old) phases.Predict) (predicted_motion (world_of setting.now state.old))
        ≡ Ok (now_of state.new))
        (λ refusal. with_fault (leaves (world_of setting.now state.old) phases.Predict)
        (predicted_motion (world_of setting.now state.old)) ≡ Err refusal) }
    ensures moved { IsMoved state.old state.new }
    ensures under_way { OnOk result (IsUnderWay (2 ^ 100) (world_of setting.now state.new)) }
    ensures cost { steps.new ≤ steps.old + beginning_work L (world_of setting.now state.old) }
{
    let taken = state.steps;
    if let Err(left) = state.advance(setting, steps) {
        return Err(leaving(taken, Phase::Predict, left));
    }
    let t = taken as u32 + 1;
    place(setting.tracks.as_slice(), t, &mut state.store, steps);
    Ok(())
}
