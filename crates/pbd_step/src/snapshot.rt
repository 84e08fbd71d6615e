//! Worlds kept beside a solver, to go back to.
ghost use Rattle.std.specs.Prelude.{◌≡◌, ◌+◌, ◌<◌, ◌≤◌, IfOk, length};
ghost use Rattle.pbd_world.specs.World.{opened, AreOfOneScene, IsSound};

use crate::again::{open_colours, take_colours, take_over};
use crate::open::open_kept;
use crate::state::{Setting, State};
use crate::{Shown, Solver};
use pbd_colour::Colouring;
use pbd_pair::Projector;
use pbd_world::{Link, Scene};
use std::alloc::{AllocError, Global};
use std::marker::Model;

/// A world that a solver was in, with the colours of its links, and without what else its steps work with. Only opening takes memory.
#[derive(Drop)]
pub struct Snapshot<const L: usize> {
    setting: Setting,
    state: State<L>,
    colours: Colouring,
}

impl<const L: usize> Model for Snapshot<L> {
    ghost use Rattle.pbd_world.specs.World.{World};
    ghost use Rattle.pbd_step.specs.States.{world_of};
    ghost use Rattle.pbd_step.specs.Solving.{IsSnapshot};

    ghost Value = { World };

    ghost view = { λ s. world_of s.setting s.state };

    ghost invariant = { λ s. IsSnapshot s.setting s.state s.colours };
}

impl<const L: usize> Snapshot<L> {
    /// The world of a scene before its first command. The only call that takes memory.
    pub fn open(alloc: Global, scene: &Scene) -> Result<Snapshot<L>, AllocError>
        requires lanes_high { L ≤ 16 }
        ensures world { IfOk result (λ saved. saved ≡ opened scene.now) }
        ensures sound { IfOk result (λ saved. IsSound saved) }
    {
        let parts = scene.parts();
        let colours = open_colours(alloc, parts)?;
        match open_kept(alloc, parts) {
            Ok((setting, state)) => Ok(Snapshot {
                setting,
                state,
                colours,
            }),
            Err(AllocError) => {
                drop(colours);
                Err(AllocError)
            }
        }
    }

    /// Keeps the world of a solver of one scene. It takes over all particles once, and colours unless the same links are live.
    pub fn keep<P: Projector<L> + Drop>(&mut self, solver: &Solver<L, P>)
        requires lanes_high { L ≤ 16 }
        requires one_scene { AreOfOneScene self.old solver.now.world }
        ensures world { self.new ≡ solver.now.world }
        ensures sound { IsSound self.new }
    {
        self.setting.gravity = solver.setting.gravity;
        let _ = take_colours(&mut self.colours, &solver.run.colours);
        take_over(&mut self.state, &solver.run.state);
    }

    /// The world, to read from.
    pub fn shown(&self) -> Shown<'_, L>
        requires lanes_high { L ≤ 16 }
        ensures world { result ≡ self.now }
        ensures sound { IsSound result }
    {
        Shown {
            setting: &self.setting,
            state: &self.state,
        }
    }

    /// The links, live ones and others. There are at most 524,288.
    pub fn links(&self) -> &[Link]
        requires lanes_high { L ≤ 16 }
        ensures value { result.now ≡ self.now.links }
        ensures size { length result.now ≤ 524288 }
    {
        &self.state.links
    }
}

impl<const L: usize, P: Projector<L> + Drop> Solver<L, P> {
    /// Goes back to the world that was kept of a solver of one scene. It takes over all particles once, and colours unless the
    /// same links are live.
    pub fn go_back(&mut self, saved: &Snapshot<L>)
        requires lanes_low { 0 < L }
        requires lanes_high { L ≤ 16 }
        requires one_scene { AreOfOneScene self.old.world saved.now }
        ensures world { self.new.world ≡ saved.now }
        ensures projector { self.new.projector ≡ self.old.projector }
        ensures copies { self.new.copies ≤ self.old.copies + 1 }
        ensures sound { IsSound self.new.world }
    {
        self.take_world(&saved.setting, &saved.state, &saved.colours);
    }
}
