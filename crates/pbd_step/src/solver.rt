// The solver: a world that steps and takes commands.
ghost use Rattle.std.specs.Prelude.{◌≡◌, ◌+◌, ◌-◌, ◌<◌, ◌≤◌, ◌^◌, min, length, IfOk, MatchResult, OnOk};
ghost use Rattle.pbd_num.specs.Vectors.{Within};
ghost use Rattle.pbd_world.specs.Ledger.{sum_of, ledger_of};
ghost use Rattle.pbd_world.specs.declared.command.Command.TheVariants as commands;
ghost use Rattle.pbd_world.specs.Meaning.{outcome};
ghost use Rattle.pbd_world.specs.Momentum.{momentum as momentum_of};
ghost use Rattle.pbd_world.specs.Particles.{particle_at};
ghost use Rattle.pbd_world.specs.Work.{steps_work};
ghost use Rattle.pbd_world.specs.World.{opened, live_count, IsSound, AreOfOneScene};
ghost use Rattle.pbd_step.specs.States.{world_of};
ghost use Rattle.pbd_step.specs.Solving.{bonds_over, IsSnapshot};
ghost use Rattle.pbd_step.specs.Obeying.{Commanded};

use crate::again::restore_coloured;
use crate::open::{open_kept, open_running};
use crate::state::{Running, Setting, State};
use pbd_colour::Colouring;
use pbd_ledger::momentum;
use pbd_pair::Projector;
use pbd_store::Steps;
use pbd_world::{LAST_STEP, MOST_STEPS, Particle, Refusal, Scene, Totals};
use std::alloc::{AllocError, Global};
use std::marker::Model;
use std::sync::ledger::Ledger;

/// A world that steps and takes commands. Only opening takes memory.
///
/// Clauses see it as a sound world, the projector through which its steps project, and how often all particles of
/// its two states were taken over, which no count of accesses tells. Its columns of particles, colours, contacts and
/// the second state that a refused step goes back to are its inside.
#[derive(Drop)]
pub struct Solver<const L: usize, P: Projector<L> + Drop> {
    pub(crate) setting: Setting,
    pub(crate) run: Running<L, P>,
    pub(crate) kept: State<L>,
}

impl<const L: usize, P: Projector<L> + Drop> Model for Solver<L, P> {
    ghost use Rattle.std.specs.Prelude.{◌+◌};
    ghost use Rattle.pbd_step.specs.Solving.{Solved};
    ghost use Rattle.pbd_step.specs.States.{world_of};

    ghost Value = { Solved P };

    ghost view = { λ s. record {
      world = world_of s.setting s.run.state;
      projector = s.run.projector;
      copies = s.run.state.store.copies + s.kept.store.copies;
    } };

    ghost use Rattle.pbd_step.specs.Solving.{IsKept};

    ghost invariant = { λ s. IsKept s.setting s.run.state s.kept s.run.colours s.run.scratch };
}

impl<const L: usize, P: Projector<L> + Drop> Solver<L, P> {
    /// The world of a scene before its first command. The only call that takes memory.
    pub fn open(alloc: Global, scene: &Scene, projector: P) -> Result<Solver<L, P>, AllocError>
        requires lanes_low { 0 < L }
        requires lanes_high { L ≤ 16 }
        ensures world { IfOk result (λ s. s.world ≡ opened scene.now) }
        ensures projector { IfOk result (λ s. s.projector ≡ projector) }
        ensures copies { IfOk result (λ s. s.copies ≡ 0) }
        ensures sound { IfOk result (λ s. IsSound s.world) }
    {
        let parts = scene.parts();
        let run = open_running(alloc, parts, projector)?;
        match open_kept(alloc, parts) {
            Ok((setting, kept)) => Ok(Solver { setting, run, kept }),
            Err(AllocError) => {
                drop(run);
                Err(AllocError)
            }
        }
    }

    /// Takes n steps, 1 to 100,000. A refusal keeps the world: `BadCount` where there are none or more, `StepLimit`
    /// where the world would come past step 1,000,000, `LeavesRange` or `TooManyContacts` where a step meets it.
    pub fn steps<G: Ledger>(&mut self, n: u64, steps: &mut Steps<G>) -> Result<(), Refusal>
        requires lanes_low { 0 < L }
        requires lanes_high { L ≤ 16 }
        ensures commanded { Commanded result (outcome self.old.world (commands.Step n)) self.old.world self.new.world }
        // Where the steps were taken, the projector was handed as many bonds as their passes have live links and contacts,
        // counted up to 2^64 - 1. Which bonds these were, no clause says.
        ensures handed { OnOk result
            (P.count self.new.projector ≡ min (P.count self.old.projector + bonds_over n self.old.world) (2 ^ 64 - 1)) }
        ensures not_fallen { P.count self.old.projector ≤ P.count self.new.projector }
        ensures width { P.width self.new.projector ≡ P.width self.old.projector }
        // The particles are reached at most as often as the work of the steps says, also where one is refused.
        ensures cost { steps.new ≤ steps.old + steps_work L (P.width self.old.projector) n self.old.world }
        // All particles are taken over at most once, and once more where a step is refused.
        ensures copies { MatchResult result (λ _. self.new.copies ≤ self.old.copies + 1) (λ _. self.new.copies ≤ self.old.copies + 2) }
    {
        let count = self.run.state.steps;
        if n < 1 || MOST_STEPS < n {
            return Err(Refusal::BadCount);
        }
        if u64::from(LAST_STEP) < count + n {
            return Err(Refusal::StepLimit);
        }
        self.run.run_whole(&self.setting, &mut self.kept, n, steps)
    }

    /// Takes over the world of another solver of one scene.
    pub fn copy_from(&mut self, other: &Solver<L, P>)
        requires lanes_low { 0 < L }
        requires lanes_high { L ≤ 16 }
        requires one_scene { AreOfOneScene self.old.world other.now.world }
        ensures world { self.new.world ≡ other.now.world }
        ensures projector { self.new.projector ≡ self.old.projector }
        ensures copies { self.new.copies ≤ self.old.copies + 1 }
        ensures sound { IsSound self.new.world }
    {
        self.take_world(&other.setting, &other.run.state, &other.run.colours);
    }

    /// Takes over a world of one scene, with the colours of its links.
    pub(crate) fn take_world(&mut self, setting: &Setting, state: &State<L>, colours: &Colouring)
        requires lanes_low { 0 < L }
        requires lanes_high { L ≤ 16 }
        requires saved { IsSnapshot setting.now state.now colours.now }
        requires one_scene { AreOfOneScene self.old.world (world_of setting.now state.now) }
        ensures world { self.new.world ≡ world_of setting.now state.now }
        ensures projector { self.new.projector ≡ self.old.projector }
        ensures copies { self.new.copies ≤ self.old.copies + 1 }
        ensures sound { IsSound self.new.world }
    {
        self.setting.gravity = setting.gravity;
        restore_coloured(&mut self.run, state, colours);
    }

    // ---- what is there

    /// The projector through which all bonds go.
    pub fn projector(&self) -> &P
        requires lanes_high { L ≤ 16 }
        ensures { result.now ≡ self.now.projector }
    {
        &self.run.projector
    }

    /// The greatest size of a coordinate: 2^28 or 2^29.
    pub fn limit(&self) -> i64
        requires lanes_high { L ≤ 16 }
        ensures value { result ≡ self.now.world.limit }
        ensures sound { IsSound self.now.world }
    {
        self.run.state.store.limit()
    }

    /// Particle i.
    pub fn particle<G: Ledger>(&self, i: u32, steps: &mut Steps<G>) -> Particle
        requires lanes_high { L ≤ 16 }
        requires within { i < length self.now.world.particles }
        ensures value { result ≡ particle_at self.now.world.particles i }
        ensures at { Within (2 ^ 29) result.at }
        ensures before { Within (2 ^ 29) result.before }
        ensures cost { steps.new ≡ steps.old + 1 }
    {
        self.run.state.store.at(i, steps)
    }

    /// How many particles there are, at most 65,536.
    pub fn particles(&self) -> u32
        requires lanes_high { L ≤ 16 }
        ensures value { result ≡ length self.now.world.particles }
        ensures size { result ≤ 65536 }
    {
        self.run.state.store.len()
    }

    /// How many links are live.
    pub fn live(&self) -> u32
        requires lanes_high { L ≤ 16 }
        ensures { result ≡ live_count self.now.world.links }
    {
        self.run.colours.live_count()
    }

    /// How many contacts the last step found, at most 262,144.
    pub fn contacts(&self) -> u32
        requires lanes_high { L ≤ 16 }
        ensures value { result ≡ self.now.world.contacts }
        ensures sound { IsSound self.now.world }
    {
        self.run.state.contacts
    }

    /// How many steps were taken, at most 1,000,000.
    pub fn step_count(&self) -> u64
        requires lanes_high { L ≤ 16 }
        ensures value { result ≡ self.now.world.steps }
        ensures sound { IsSound self.now.world }
    {
        self.run.state.steps
    }

    /// Where momentum came from since opening, by what made it: with the momentum at opening these totals are the momentum.
    pub fn totals(&self) -> &Totals
        requires lanes_high { L ≤ 16 }
        ensures value { ledger_of result.now ≡ self.now.world.totals }
        ensures sound { IsSound self.now.world }
    {
        &self.run.state.totals
    }

    /// The momentum at opening.
    pub fn opening(&self) -> &[i128; 3]
        requires lanes_high { L ≤ 16 }
        ensures value { sum_of result.now ≡ self.now.world.opening }
        ensures sound { IsSound self.now.world }
    {
        &self.setting.opening
    }

    /// The sum of the velocities of the particles that are not held.
    pub fn momentum<G: Ledger>(&self, steps: &mut Steps<G>) -> [i128; 3]
        requires lanes_high { L ≤ 16 }
        ensures value { sum_of result ≡ momentum_of self.now.world.particles }
        ensures sound { IsSound self.now.world }
        ensures cost { steps.new ≡ steps.old + length self.now.world.particles }
    {
        momentum(&self.run.state.store, steps)
    }
}
