//! A solver that takes commands.
ghost use Rattle.std.specs.Prelude.{◌≡◌, ◌+◌, ◌≤◌, ◌<◌, ℕ, IfOk, IsTrue};
ghost use Rattle.std.specs.Borrow.{sem};
ghost use Rattle.pbd_world.specs.Meaning.{after, reply};
ghost use Rattle.pbd_world.specs.Valid.{is_limit};
ghost use Rattle.pbd_world.specs.Work.{command_work};
ghost use Rattle.pbd_world.specs.World.{opened, IsSound, AreOfOneScene};
ghost use Rattle.pbd_session.specs.Lending.{LendsSolver};

use pbd_pair::Projector;
use pbd_step::Solver;
use pbd_store::Steps;
use pbd_world::{Command, Reply, Scene};
use std::alloc::{AllocError, Global};
use std::marker::Model;
use std::sync::ledger::Ledger;

/// A solver that takes commands, seen as its world. Only opening takes memory.
#[derive(Drop)]
pub struct Session<const L: usize, P: Projector<L> + Drop> {
    solver: Solver<L, P>,
}

impl<const L: usize, P: Projector<L> + Drop> Model for Session<L, P> {
    ghost use Rattle.pbd_world.specs.World.{World};

    ghost Value = { World };

    ghost view = { λ s. s.solver.world };
}

impl<const L: usize, P: Projector<L> + Drop> Session<L, P> {
    /// The world of a scene before its first command. The only call that takes memory.
    pub fn open(alloc: Global, scene: &Scene, projector: P) -> Result<Session<L, P>, AllocError>
        requires lanes_low { 0 < L }
        requires lanes_high { L ≤ 16 }
        ensures world { IfOk result (λ session. session ≡ opened scene.now) }
        ensures sound { IfOk result (λ session. IsSound session) }
    {
        let solver = Solver::open(alloc, scene, projector)?;
        Ok(Session { solver })
    }

    /// The greatest size of a coordinate: 2^28 or 2^29.
    pub fn limit(&self) -> i64
        requires lanes_high { L ≤ 16 }
        ensures value { result ≡ self.now.limit }
        ensures one_of_two { IsTrue (is_limit self.now.limit) }
        ensures sound { IsSound self.now }
    {
        self.solver.limit()
    }

    /// Does a command. A refused command changes nothing.
    pub fn apply<G: Ledger>(&mut self, command: &Command, steps: &mut Steps<G>) -> Reply
        requires lanes_low { 0 < L }
        requires lanes_high { L ≤ 16 }
        ensures reply { result ≡ reply self.old command.now }
        ensures world { self.new ≡ after self.old command.now }
        ensures sound { IsSound self.new }
        ensures one_scene { AreOfOneScene self.old self.new }
        // The particles are reached at most as often as the command's work says, for as many bonds side by side as each
        // projector of its type projects, also where it is refused.
        ensures cost { (lanes : ℕ) → 0 < lanes → ((projector : P) → lanes ≤ P.width projector)
            → steps.new ≤ steps.old + command_work L lanes self.old command.now }
    {
        self.solver.obey(command, steps)
    }

    /// The solver, whose world is the session's.
    pub fn solver(&self) -> &Solver<L, P>
        requires lanes_high { L ≤ 16 }
        ensures { result.now.world ≡ self.now }
    {
        &self.solver
    }

    /// The solver for other calls, whose world is the session's: after the loan the session has the world that it is
    /// left with.
    pub fn solver_mut(&mut self) -> &mut Solver<L, P>
        requires lanes_high { L ≤ 16 }
        ensures* writes_back { sem 𝓛 (LendsSolver L.row P.row P.Projector self.entry result) }
        ensures value { result.now.world ≡ self.old }
    {
        &mut self.solver
    }
}
