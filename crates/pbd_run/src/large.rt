//! `large`: takes thirty steps of a generated scene, and writes what came of them.
ghost use Rattle.std.specs.Prelude.{◌<◌, ◌≡◌, ◌≤◌, [], IfOk};
ghost use Rattle.pbd_run.specs.Prelude.{HasCause, WritesPiece};
ghost use Rattle.pbd_world.specs.Meaning.{after, reply};
ghost use Rattle.pbd_world.specs.declared.command.Command.TheVariants.{Step};
ghost use Rattle.pbd_outcome.specs.Generated.{summary, summary_head, summary_tail};
ghost use Rattle.pbd_outcome.specs.Outcome.{large_outcome};
ghost use Rattle.pbd_run.specs.Calls.{Does};

use crate::generated::generated;
use crate::line::{large_line, sums_line};
use crate::task::{BatchOrder, OnScene, Task, run_task};
use pbd_io::{Failed, Sink};
use pbd_outcome::Status;
use pbd_pair::Projector;
use pbd_session::Session;
use pbd_store::Steps;
use pbd_world::{Command, PartsFault, Reply, Scene, Width};
use std::alloc::Global;
use std::sync::ledger::Ledger;

/// The number and the size of a generated scene.
#[derive(Clone, Copy, Debug, PartialEq, Eq)]
pub struct Large {
    pub number: u64,
    pub size: u32,
}

/// Writes the sums and the ledger.
fn write_tail<const L: usize, P: Projector<L> + Drop, K: Sink, G: Ledger>(
    session: &Session<L, P>,
    sink: &mut K,
    steps: &mut Steps<G>,
) -> Result<(), Failed>
    requires lanes_high { L ≤ 16 }
    ensures bytes { WritesPiece (K.written sink.old) (K.written sink.new) result (summary_tail session.now) }
    ensures cause { HasCause (K.faults sink.old) (K.faults sink.new) result }
{
    let sums = session.frame_sums(steps);
    if let Err(failed) = sink.write(sums_line(&sums).as_slice()) {
        return Err(failed);
    }
    session.write_reply(&Reply::Ledger, sink, steps)
}

impl Large {
    /// Writes the first line, and the reply to the steps.
    fn write_head<const L: usize, P: Projector<L> + Drop, K: Sink, G: Ledger>(
        self,
        session: &Session<L, P>,
        reply: &Reply,
        sink: &mut K,
        steps: &mut Steps<G>,
    ) -> Result<(), Failed>
        requires lanes_high { L ≤ 16 }
        ensures bytes { WritesPiece (K.written sink.old) (K.written sink.new) result
            (summary_head self.number self.size session.now reply.now) }
        ensures cause { HasCause (K.faults sink.old) (K.faults sink.new) result }
    {
        if let Err(failed) = sink.write(large_line(self.number, self.size).as_slice()) {
            return Err(failed);
        }
        session.write_reply(reply, sink, steps)
    }

    /// Takes the steps, and writes the first line, the reply to the steps, and the sums and the ledger of the world after them.
    pub fn run<const L: usize, P: Projector<L> + Drop, K: Sink, G: Ledger>(
        self,
        session: &mut Session<L, P>,
        sink: &mut K,
        steps: &mut Steps<G>,
    ) -> Result<Reply, Failed>
        requires lanes_low { 0 < L }
        requires lanes_high { L ≤ 16 }
        ensures bytes { WritesPiece (K.written sink.old) (K.written sink.new) result
            (summary self.number self.size (after session.old (Step 30)) (reply session.old (Step 30))) }
        ensures reply { IfOk result (λ said. said ≡ reply session.old (Step 30)) }
        ensures cause { HasCause (K.faults sink.old) (K.faults sink.new) result }
    {
        let reply = session.apply(&Command::Step(30), steps);
        if let Err(failed) = self.write_head(session, &reply, sink, steps) {
            return Err(failed);
        }
        match write_tail(session, sink, steps) {
            Ok(()) => Ok(reply),
            Err(failed) => Err(failed),
        }
    }
}

/// Runs the scene of a number and a size.
pub fn large_run<K: Sink>(alloc: Global, width: Width, large: Large, sink: &mut K) -> Status
    requires low { 2 ≤ large.size }
    requires high { large.size ≤ 128 }
    ensures { Does (large_outcome large.number large.size [])
        (K.written sink.old) (K.written sink.new) (K.faults sink.old) (K.faults sink.new) result }
{
    let Ok(parts) = generated(alloc, large.number, large.size) else {
        return Status::OutOfMemory;
    };
    match Scene::from_parts(alloc, parts) {
        Ok(scene) => {
            let on = OnScene {
                scene: &scene,
                task: Task::Large { large },
            };
            run_task(alloc, BatchOrder::AtWidth(width), on, sink)
        }
        Err(PartsFault::OutOfMemory) => Status::OutOfMemory,
        Err(PartsFault::NotValid) => unreachable!(),
    }
}
