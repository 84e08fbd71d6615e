//! Taking over a world that is described item by item.
ghost use Rattle.std.specs.Prelude.{◌≡◌, ◌+◌, ◌*◌, ◌<◌, ◌≤◌, length, OnOk, OnErr};
ghost use Rattle.pbd_world.specs.World.{IsSound, AreOfOneScene};
ghost use Rattle.pbd_sound.specs.Described.{told};
ghost use Rattle.pbd_sound.specs.Soundness.{soundness};
ghost use Rattle.pbd_step.specs.declared.state.Setting.{Setting};
ghost use Rattle.pbd_step.specs.States.{world_of, AreWeights};
ghost use Rattle.pbd_step.specs.Solving.{AreAlike};

use crate::Solver;
use crate::again::restore;
use crate::state::{Setting, State};
use pbd_num::Vec3;
use pbd_pair::Projector;
use pbd_sound::{Described, Numbers, Unsound, judge, write_links, write_particles};
use pbd_store::Steps;
use std::sync::ledger::Ledger;

/// Makes a state the one that is described, with the weights of another one, and its links but for which of them are live.
fn describe<const L: usize, D: Described, G: Ledger>(
    state: &mut State<L>,
    other: &State<L>,
    described: &D,
    steps: &mut Steps<G>,
)
    requires lanes { L ≤ 16 }
    requires alike { AreAlike state.old other.now }
    requires particles { (D.seen described.now).particles ≡ length other.now.store.particles }
    requires links { (D.seen described.now).links ≡ length other.now.links.items }
    requires few { length other.now.links.items ≤ 524288 }
    requires weights { AreWeights other.now }
    ensures world { (setting : Setting) → world_of (record setting { gravity = (D.seen described.now).gravity }) state.new
        ≡ told (D.seen described.now) (world_of setting other.now) }
    ensures weights { AreWeights state.new }
    ensures copies { state.new.store.copies ≡ state.old.store.copies }
    ensures cost { steps.new ≡ steps.old + 2 * length other.now.store.particles }
{
    write_particles(
        &mut state.store,
        &other.store,
        described,
        state.weights.as_mut_slice(),
        steps,
    );
    write_links(state.links.as_mut_slice(), &other.links, described);
    state.totals = described.totals();
    state.steps = described.steps();
    state.contacts = described.contacts();
}

/// The numbers of a state with this gravity.
fn numbers_of<const L: usize>(setting: &Setting, state: &State<L>, gravity: Vec3) -> Numbers
    requires { L ≤ 16 }
    ensures { result ≡ record {
      steps = state.now.steps;
      gravity = gravity;
      damping = setting.now.damping;
      contacts = state.now.contacts;
      totals = state.now.totals;
      opening = setting.now.opening;
    } }
{
    Numbers {
        steps: state.steps,
        gravity,
        damping: setting.damping,
        contacts: state.contacts,
        totals: state.totals,
        opening: setting.opening,
    }
}

impl<const L: usize, P: Projector<L> + Drop> Solver<L, P> {
    /// Takes over the world of its scene that is described, where that is sound. Else it says what of it is not, and the
    /// world is what it was. It takes no memory.
    pub fn assume<D: Described, G: Ledger>(
        &mut self,
        described: &D,
        steps: &mut Steps<G>,
    ) -> Result<(), Unsound>
        requires lanes_low { 0 < L }
        requires lanes_high { L ≤ 16 }
        requires particles { (D.seen described.now).particles ≡ length self.old.world.particles }
        requires links { (D.seen described.now).links ≡ length self.old.world.links }
        ensures exact { result ≡ soundness (told (D.seen described.now) self.old.world) }
        ensures world { OnOk result (self.new.world ≡ told (D.seen described.now) self.old.world) }
        ensures kept { OnErr result (self.new ≡ self.old) }
        ensures projector { self.new.projector ≡ self.old.projector }
        ensures sound { IsSound self.new.world }
        ensures one_scene { AreOfOneScene self.old.world self.new.world }
        ensures copies { self.new.copies ≤ self.old.copies + 1 }
        ensures cost { steps.new ≤ steps.old + 7 * length self.old.world.particles + 1 }
    {
        describe(&mut self.kept, &self.run.state, described, steps);
        let gravity = described.gravity();
        let numbers = numbers_of(&self.setting, &self.kept, gravity);
        let tracks = self.setting.tracks.as_slice();
        if let Err(fault) = judge(tracks, &self.kept.store, &numbers, steps) {
            return Err(fault);
        }
        self.setting.gravity = gravity;
        restore(
            &mut self.run.state,
            &self.kept,
            &mut self.run.colours,
            &mut self.run.scratch,
        );
        Ok(())
    }
}
