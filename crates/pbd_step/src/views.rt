// What a world shows to a reader, whether a solver plays it or it was kept.
ghost use Rattle.std.specs.Prelude.{◌≡◌, ◌+◌, ◌<◌, ◌≤◌, ◌^◌, length, IsTrue};
ghost use Rattle.pbd_num.specs.Vectors.{Within};
ghost use Rattle.pbd_world.specs.Ledger.{sum_of, ledger_of};
ghost use Rattle.pbd_world.specs.Particles.{particle_at};
ghost use Rattle.pbd_world.specs.Shapes.{are_valid_shapes};
ghost use Rattle.pbd_world.specs.World.{IsSound};

use crate::Solver;
use crate::state::{Setting, State};
use pbd_num::Vec3;
use pbd_pair::Projector;
use pbd_store::Steps;
use pbd_world::{Link, Particle, ShapeLists, Totals, Track};
use std::marker::Model;
use std::sync::ledger::Ledger;

/// A world to read from: the one that a solver plays, or one that was kept of it. Clauses see the world. It is sound, as each
/// call that shows one says.
#[derive(Drop)]
pub struct Shown<'a, const L: usize> {
    pub(crate) setting: &'a Setting,
    pub(crate) state: &'a State<L>,
}

impl<'a, const L: usize> Model for Shown<'a, L> {
    ghost use Rattle.pbd_world.specs.World.{World, IsSound};
    ghost use Rattle.pbd_step.specs.States.{world_of};

    ghost Value = { World };

    ghost view = { λ s. world_of s.setting.now s.state.now };

    ghost invariant = { λ s. IsSound (world_of s.setting.now s.state.now) };
}

impl<'a, const L: usize> Shown<'a, L> {
    // ---- what commands change

    /// Particle i.
    pub fn particle<G: Ledger>(&self, i: u32, steps: &mut Steps<G>) -> Particle
        requires lanes_high { L ≤ 16 }
        requires within { i < length self.now.particles }
        ensures value { result ≡ particle_at self.now.particles i }
        ensures at { Within (2 ^ 29) result.at }
        ensures before { Within (2 ^ 29) result.before }
        ensures cost { steps.new ≡ steps.old + 1 }
    {
        self.state.store.at(i, steps)
    }

    /// How many particles there are, at most 65,536.
    pub fn particles(&self) -> u32
        requires lanes_high { L ≤ 16 }
        ensures value { result ≡ length self.now.particles }
        ensures size { result ≤ 65536 }
    {
        self.state.store.len()
    }

    /// The links, live ones and others. There are at most 524,288.
    pub fn links(&self) -> &[Link]
        requires lanes_high { L ≤ 16 }
        ensures value { result.now ≡ self.now.links }
        ensures size { length result.now ≤ 524288 }
    {
        &self.state.links
    }

    /// How many steps were taken, at most 1,000,000.
    pub fn step_count(&self) -> u64
        requires lanes_high { L ≤ 16 }
        ensures value { result ≡ self.now.steps }
        ensures sound { IsSound self.now }
    {
        self.state.steps
    }

    /// How many contacts the last step found, at most 262,144.
    pub fn contacts(&self) -> u32
        requires lanes_high { L ≤ 16 }
        ensures value { result ≡ self.now.contacts }
        ensures sound { IsSound self.now }
    {
        self.state.contacts
    }

    /// Gravity, in units per step squared.
    pub fn gravity(&self) -> Vec3
        requires lanes_high { L ≤ 16 }
        ensures { result ≡ self.now.gravity }
    {
        self.setting.gravity
    }

    /// Where momentum came from since opening, by what made it.
    pub fn totals(&self) -> &Totals
        requires lanes_high { L ≤ 16 }
        ensures value { ledger_of result.now ≡ self.now.totals }
        ensures sound { IsSound self.now }
    {
        &self.state.totals
    }

    // ---- what is the same for all worlds of a scene

    /// The momentum at opening.
    pub fn opening(&self) -> &[i128; 3]
        requires lanes_high { L ≤ 16 }
        ensures value { sum_of result.now ≡ self.now.opening }
        ensures sound { IsSound self.now }
    {
        &self.setting.opening
    }

    /// The greatest size of a coordinate: 2^28 or 2^29.
    pub fn limit(&self) -> i64
        requires lanes_high { L ≤ 16 }
        ensures value { result ≡ self.now.limit }
        ensures sound { IsSound self.now }
    {
        self.state.store.limit()
    }

    /// How often a step projects all constraints, at most 64 times.
    pub fn passes(&self) -> u32
        requires lanes_high { L ≤ 16 }
        ensures { result ≡ self.now.passes }
    {
        self.setting.passes
    }

    /// The part c / 1024 of its velocity that a free particle loses in a step, with c in 0..=1,024.
    pub fn damping(&self) -> i64
        requires lanes_high { L ≤ 16 }
        ensures { result ≡ self.now.damping }
    {
        self.setting.damping
    }

    /// The distance that contacts keep, in 0..=1,048,576.
    pub fn thickness(&self) -> i64
        requires lanes_high { L ≤ 16 }
        ensures { result ≡ self.now.thickness }
    {
        self.setting.thickness
    }

    /// The part f / 256 of its velocity that a particle which touched a shape loses in a step, with f in 0..=256.
    pub fn friction(&self) -> i64
        requires lanes_high { L ≤ 16 }
        ensures { result ≡ self.now.friction }
    {
        self.setting.friction
    }

    /// The tracks, at most 4,096.
    pub fn tracks(&self) -> &[Track]
        requires lanes_high { L ≤ 16 }
        ensures value { result.now ≡ self.now.tracks }
        ensures size { length result.now ≤ 4096 }
    {
        self.setting.tracks.as_slice()
    }

    /// The shapes. They are valid, so there are at most 256 of each kind.
    pub fn shapes(&self) -> &ShapeLists
        requires lanes_high { L ≤ 16 }
        ensures value { result.now ≡ self.now.shapes }
        ensures valid { IsTrue (are_valid_shapes self.now.limit result.now) }
    {
        &self.setting.shapes
    }
}

impl<const L: usize, P: Projector<L> + Drop> Solver<L, P> {
    /// The world, to read from.
    pub fn shown(&self) -> Shown<'_, L>
        requires lanes_high { L ≤ 16 }
        ensures world { result ≡ self.now.world }
        ensures sound { IsSound result }
    {
        Shown {
            setting: &self.setting,
            state: &self.run.state,
        }
    }

    /// The links, live ones and others. There are at most 524,288.
    pub fn links(&self) -> &[Link]
        requires lanes_high { L ≤ 16 }
        ensures value { result.now ≡ self.now.world.links }
        ensures size { length result.now ≤ 524288 }
    {
        &self.run.state.links
    }

    /// Gravity, in units per step squared.
    pub fn gravity(&self) -> Vec3
        requires lanes_high { L ≤ 16 }
        ensures { result ≡ self.now.world.gravity }
    {
        self.setting.gravity
    }
}
