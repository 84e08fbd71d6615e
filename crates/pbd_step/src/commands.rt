// What a solver does of commands. After a refusal all is as it was.
ghost use Rattle.std.specs.Prelude.{◌≡◌, ℕ, ◌+◌, ◌<◌, ◌≤◌, ◌^◌, length, IfSome, IfNone, MatchResult, false};
ghost use Rattle.pbd_world.specs.Meaning.{answer, deed, outcome};
ghost use Rattle.pbd_world.specs.Work.{command_work};
ghost use Rattle.pbd_num.specs.Vectors.{Within, opposite};
ghost use Rattle.pbd_world.specs.Ledger.{ledger_of, HaveRoom};
ghost use Rattle.pbd_world.specs.Particles.{particle_at, velocity};
ghost use Rattle.pbd_world.specs.World.{is_tracked};
ghost use Rattle.pbd_step.specs.declared.state.Setting.{Setting};
ghost use Rattle.pbd_step.specs.States.{world_of, AreWeights, HasLinks};
ghost use Rattle.pbd_step.specs.Obeying.{Obeys, Commanded, IsAnswered};

use crate::solver::Solver;
use crate::state::{Setting, State};
use pbd_colour::Colouring;
use pbd_num::{Vec3, within};
use pbd_pair::Projector;
use pbd_store::{Steps, Store};
use pbd_track::is_tracked;
use pbd_world::{Class, Command, Link, Particle, Refusal, Reply, totals_with_room_take_moves};
use std::sync::ledger::Ledger;

/// Particle i and its number, if there is one.
fn particle_of<const L: usize, G: Ledger>(
    store: &Store<L>,
    i: u64,
    steps: &mut Steps<G>,
) -> Option<(u32, Particle)>
    requires lanes { L ≤ 16 }
    ensures there { IfSome result (λ found. (found.0 ≡ i) × (i < length store.now.particles)) }
    ensures particle { IfSome result (λ found. found.1 ≡ particle_at store.now.particles i) }
    ensures missing { IfNone result (length store.now.particles ≤ i) }
    ensures cost { steps.new ≤ steps.old + 1 }
{
    if u64::from(store.len()) <= i {
        return None;
    }
    let n = i as u32;
    Some((n, store.at(n, steps)))
}

/// Whether a track leads particle n.
fn is_led(setting: &Setting, n: u32) -> bool
    ensures { result ≡ is_tracked setting.now.tracks n }
{
    is_tracked(setting.tracks.as_slice(), n)
}

/// A particle at rest.
fn resting(at: Vec3, weight: u16, held: bool) -> Particle
    ensures { result ≡ record { at = at; before = at; weight = weight; held = held } }
{
    Particle {
        at,
        before: at,
        weight,
        held,
    }
}

/// What momentum gains where a particle is held: its velocity, turned round.
fn lost(p: Particle) -> Vec3
    requires at { Within (2 ^ 29) p.at }
    requires before { Within (2 ^ 29) p.before }
    ensures value { result ≡ opposite (velocity p) }
    ensures size { Within (2 ^ 30) result }
{
    p.at.minus(p.before).opposite()
}

/// A link that is live no longer.
fn dead(link: Link) -> Link
    ensures { result ≡ record link { live = false } }
{
    Link {
        live: false,
        ..link
    }
}

impl<const L: usize> State<L> {
    /// Holds particle i where it is, and books its velocity, turned round, to pin.
    fn pin<G: Ledger>(&mut self, i: u64, steps: &mut Steps<G>) -> Result<(), Refusal>
        requires lanes { L ≤ 16 }
        requires at { (k : ℕ) → k < length self.old.store.particles → Within (2 ^ 29) (particle_at self.old.store.particles k).at }
        requires before { (k : ℕ) → k < length self.old.store.particles → Within (2 ^ 29) (particle_at self.old.store.particles k).before }
        requires room { HaveRoom (2 ^ 99) (ledger_of self.old.totals) }
        requires weights { AreWeights self.old }
        ensures obeys { (setting : Setting) → Obeys (λ s. world_of setting s) result (outcome (world_of setting self.old) (Command.Pin i))
            self.old self.new }
        ensures same { self.new ≡ record self.old { store = self.new.store; weights = self.new.weights; totals = self.new.totals } }
        ensures weights { AreWeights self.new }
        ensures copies { self.new.store.copies ≡ self.old.store.copies }
        ensures cost { steps.new ≤ steps.old + 2 }
    {
        let Some((n, p)) = particle_of(&self.store, i, steps) else {
            return Err(Refusal::NoParticle);
        };
        if p.held {
            return Err(Refusal::Held);
        }
        totals_with_room_take_moves();
        self.totals.add(Class::Pin, lost(p));
        self.store.set(n, resting(p.at, p.weight, true), steps);
        self.weights[n as usize] = 0;
        Ok(())
    }

    /// Frees particle i, at rest.
    fn unpin<G: Ledger>(
        &mut self,
        setting: &Setting,
        i: u64,
        steps: &mut Steps<G>,
    ) -> Result<(), Refusal>
        requires lanes { L ≤ 16 }
        requires weights { AreWeights self.old }
        ensures obeys { Obeys (λ s. world_of setting.now s) result (outcome (world_of setting.now self.old) (Command.Unpin i)) self.old self.new }
        ensures same { self.new ≡ record self.old { store = self.new.store; weights = self.new.weights } }
        ensures weights { AreWeights self.new }
        ensures copies { self.new.store.copies ≡ self.old.store.copies }
        ensures cost { steps.new ≤ steps.old + 2 }
    {
        let Some((n, p)) = particle_of(&self.store, i, steps) else {
            return Err(Refusal::NoParticle);
        };
        if !p.held {
            return Err(Refusal::NotHeld);
        }
        if is_led(setting, n) {
            return Err(Refusal::Tracked);
        }
        self.store.set(n, resting(p.at, p.weight, false), steps);
        self.weights[n as usize] = p.weight;
        Ok(())
    }

    /// Puts the held particle i at a place, at rest.
    fn place_held<G: Ledger>(
        &mut self,
        setting: &Setting,
        i: u64,
        to: Vec3,
        steps: &mut Steps<G>,
    ) -> Result<(), Refusal>
        requires lanes { L ≤ 16 }
        requires weights { AreWeights self.old }
        ensures obeys { Obeys (λ s. world_of setting.now s) result (outcome (world_of setting.now self.old) (Command.Move i to)) self.old self.new }
        ensures same { self.new ≡ record self.old { store = self.new.store } }
        ensures weights { AreWeights self.new }
        ensures copies { self.new.store.copies ≡ self.old.store.copies }
        ensures cost { steps.new ≤ steps.old + 2 }
    {
        let Some((n, p)) = particle_of(&self.store, i, steps) else {
            return Err(Refusal::NoParticle);
        };
        if !within(to, self.store.limit()) {
            return Err(Refusal::OutOfRange);
        }
        if !p.held {
            return Err(Refusal::NotHeld);
        }
        if is_led(setting, n) {
            return Err(Refusal::Tracked);
        }
        self.store.set(n, resting(to, p.weight, true), steps);
        Ok(())
    }

    /// Lets link l go, and mends the colours of the others.
    fn cut(&mut self, colours: &mut Colouring, l: u64) -> Result<(), Refusal>
        requires lanes { L ≤ 16 }
        requires few { length self.old.links.items ≤ 524288 }
        requires links { HasLinks (length self.old.store.particles) self.old.links.items colours.old }
        ensures obeys { (setting : Setting) → Obeys (λ s. world_of setting s) result (outcome (world_of setting self.old) (Command.Cut l))
            self.old self.new }
        ensures same { self.new ≡ record self.old { links = self.new.links } }
        ensures links_length { length self.new.links.items ≡ length self.old.links.items }
        ensures links { HasLinks (length self.old.store.particles) self.new.links.items colours.new }
    {
        let Ok(n) = usize::try_from(l) else {
            return Err(Refusal::NoLink);
        };
        if self.links.len() <= n {
            return Err(Refusal::NoLink);
        }
        if !self.links[n].live {
            return Err(Refusal::LinkGone);
        }
        self.links[n] = dead(self.links[n]);
        colours.drop_pairs(&[n as u32]);
        Ok(())
    }
}

/// Sets gravity.
fn set_gravity<const L: usize>(
    setting: &mut Setting,
    state: &State<L>,
    g: Vec3,
) -> Result<(), Refusal>
    requires lanes { L ≤ 16 }
    ensures obeys { Obeys (λ s. world_of s state.now) result (outcome (world_of setting.old state.now) (Command.Gravity g)) setting.old setting.new }
    ensures same { setting.new ≡ record setting.old { gravity = setting.new.gravity } }
{
    if !within(g, state.store.limit()) {
        return Err(Refusal::OutOfRange);
    }
    setting.gravity = g;
    Ok(())
}

/// The answer to a command that was done, or its refusal.
fn told(outcome: Result<(), Refusal>, command: &Command) -> Reply
    ensures { MatchResult outcome (λ _. result ≡ answer (deed command.now)) (λ refusal. result ≡ Reply.Refused refusal) }
{
    match outcome {
        Ok(()) => command.answer(),
        Err(refusal) => Reply::Refused(refusal),
    }
}

impl<const L: usize, P: Projector<L> + Drop> Solver<L, P> {
    /// Holds particle i where it is, and books its velocity, turned round, to pin. `NoParticle` where there is none, `Held`
    /// where it is held.
    pub fn pin<G: Ledger>(&mut self, i: u64, steps: &mut Steps<G>) -> Result<(), Refusal>
        requires lanes_low { 0 < L }
        requires lanes_high { L ≤ 16 }
        ensures commanded { Commanded result (outcome self.old.world (Command.Pin i)) self.old.world self.new.world }
        ensures projector { self.new.projector ≡ self.old.projector }
        ensures copies { self.new.copies ≡ self.old.copies }
        ensures cost { steps.new ≤ steps.old + 2 }
    {
        self.run.scratch.are_links_laid = false;
        self.run.state.pin(i, steps)
    }

    /// Frees particle i, at rest. `NoParticle` where there is none, `NotHeld` where it is free, `Tracked` where a track
    /// holds it.
    pub fn unpin<G: Ledger>(&mut self, i: u64, steps: &mut Steps<G>) -> Result<(), Refusal>
        requires lanes_low { 0 < L }
        requires lanes_high { L ≤ 16 }
        ensures commanded { Commanded result (outcome self.old.world (Command.Unpin i)) self.old.world self.new.world }
        ensures projector { self.new.projector ≡ self.old.projector }
        ensures copies { self.new.copies ≡ self.old.copies }
        ensures cost { steps.new ≤ steps.old + 2 }
    {
        self.run.scratch.are_links_laid = false;
        self.run.state.unpin(&self.setting, i, steps)
    }

    /// Puts the held particle i at a place, at rest. `NoParticle` where there is none, `OutOfRange` where the place is
    /// outside the limit, `NotHeld` where it is free, `Tracked` where a track leads it.
    pub fn place_held<G: Ledger>(
        &mut self,
        i: u64,
        to: Vec3,
        steps: &mut Steps<G>,
    ) -> Result<(), Refusal>
        requires lanes_low { 0 < L }
        requires lanes_high { L ≤ 16 }
        ensures commanded { Commanded result (outcome self.old.world (Command.Move i to)) self.old.world self.new.world }
        ensures projector { self.new.projector ≡ self.old.projector }
        ensures copies { self.new.copies ≡ self.old.copies }
        ensures cost { steps.new ≤ steps.old + 2 }
    {
        self.run.state.place_held(&self.setting, i, to, steps)
    }

    /// Lets link l go, and mends the colours of the others. `NoLink` where there is none, `LinkGone` where it is live no
    /// longer.
    pub fn cut(&mut self, l: u64) -> Result<(), Refusal>
        requires lanes_low { 0 < L }
        requires lanes_high { L ≤ 16 }
        ensures commanded { Commanded result (outcome self.old.world (Command.Cut l)) self.old.world self.new.world }
        ensures projector { self.new.projector ≡ self.old.projector }
        ensures copies { self.new.copies ≡ self.old.copies }
    {
        self.run.scratch.are_links_laid = false;
        self.run.state.cut(&mut self.run.colours, l)
    }

    /// Sets gravity, in units per step squared. `OutOfRange` where it is outside the limit.
    pub fn set_gravity(&mut self, g: Vec3) -> Result<(), Refusal>
        requires lanes_low { 0 < L }
        requires lanes_high { L ≤ 16 }
        ensures commanded { Commanded result (outcome self.old.world (Command.Gravity g)) self.old.world self.new.world }
        ensures projector { self.new.projector ≡ self.old.projector }
        ensures copies { self.new.copies ≡ self.old.copies }
    {
        set_gravity(&mut self.setting, &self.run.state, g)
    }

    /// Does what a command asks for. `BadCommand` where its line was none.
    #[tactic(auto, unfolding(pbd_world::specs::Work::command_work))]
    fn carry_out<G: Ledger>(
        &mut self,
        command: &Command,
        steps: &mut Steps<G>,
    ) -> Result<(), Refusal>
        requires lanes_low { 0 < L }
        requires lanes_high { L ≤ 16 }
        ensures commanded { Commanded result (outcome self.old.world command.now) self.old.world self.new.world }
        ensures cost { steps.new ≤ steps.old + command_work L (P.width self.old.projector) self.old.world command.now }
    {
        let _ = &self.setting;
        match command {
            Command::Step(n) => self.steps(*n, steps),
            Command::Pin(i) => self.pin(*i, steps),
            Command::Unpin(i) => self.unpin(*i, steps),
            Command::Move { particle, to } => self.place_held(*particle, *to, steps),
            Command::Cut(l) => self.cut(*l),
            Command::Gravity(g) => self.set_gravity(*g),
            Command::Frame => Ok(()),
            Command::Ledger => Ok(()),
            Command::Bad => Err(Refusal::BadCommand),
        }
    }

    /// Does a command, and answers it. A refused command changes nothing.
    pub fn obey<G: Ledger>(&mut self, command: &Command, steps: &mut Steps<G>) -> Reply
        requires lanes_low { 0 < L }
        requires lanes_high { L ≤ 16 }
        ensures does { IsAnswered self.old.world self.new.world command.now result }
        // The particles are reached at most as often as the command's work says, also where it is refused.
        ensures cost { steps.new ≤ steps.old + command_work L (P.width self.old.projector) self.old.world command.now }
    {
        let outcome = self.carry_out(command, steps);
        told(outcome, command)
    }
}
