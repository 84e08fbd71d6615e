//! What a run does on the session that its scene opens.
ghost use Rattle.std.specs.Prelude.{◌≡◌, ◌<◌, ◌≤◌, IfOk};
ghost use Rattle.pbd_world.specs.World.{opened};
ghost use Rattle.pbd_run.specs.Calls.{Does};
ghost use Rattle.pbd_run.specs.Forms.{IsReady, task_on};

use crate::ending::status_of;
use crate::form::{AtWidth, Counted, Form, Settled, with_counter};
use crate::large::Large;
use crate::obj_text::Faces;
use crate::serving::Serve;
use pbd_io::Sink;
use pbd_log::LogView;
use pbd_obj::ObjMesh;
use pbd_outcome::Status;
use pbd_pair::{LaneProjector, Projector};
use pbd_schedule::ScrambleProjector;
use pbd_session::{Session, run_record, run_replay, run_script};
use pbd_store::Steps;
use pbd_world::{Command, Scene, Width};
use std::alloc::{AllocError, Global};
use std::sync::ledger::Ledger;

/// What is done on a session.
#[derive(Drop)]
pub enum Task<'a> {
    /// Runs a script, and writes the replies.
    Simulate {
        script: &'a [u8],
    },
    /// Runs a script, and writes the log, which has the bytes of the scene too.
    Record {
        text: &'a [u8],
        script: &'a [u8],
    },
    /// Runs a script, and writes the replies as OBJ text.
    Obj {
        mesh: &'a ObjMesh,
        /// The particle of the mesh's first vertex.
        base: u32,
        script: &'a [u8],
    },
    /// Runs the commands of a log, and writes the replies up to the first that differs from its record.
    Replay {
        log: LogView<'a>,
    },
    /// Takes the steps of a generated scene, and writes what came of them.
    Large {
        large: Large,
    },
}

/// A task on the session that a scene opens.
#[derive(Drop)]
pub struct OnScene<'a> {
    pub scene: &'a Scene,
    pub task: Task<'a>,
}

impl Settled for OnScene<'_> {
    ghost ready = { λ it. IsReady it.task it.scene.now };

    ghost outcome = { λ it. task_on it.task it.scene.now };
}

/// Does the task on the session that the scene opened.
fn on_session<const L: usize, P: Projector<L> + Drop, G: Ledger, K: Sink>(
    it: OnScene<'_>,
    session: &mut Session<L, P>,
    sink: &mut K,
    steps: &mut Steps<G>,
) -> Status
    requires lanes_low { 0 < L }
    requires lanes_high { L ≤ 16 }
    requires ready { IsReady it.task it.scene.now }
    requires begins { session.old ≡ opened it.scene.now }
    ensures { Does (task_on it.entry.task it.entry.scene.now)
        (K.written sink.old) (K.written sink.new) (K.faults sink.old) (K.faults sink.new) result }
{
    match it.task {
        Task::Simulate { script } => status_of(run_script(session, script, sink, steps)),
        Task::Record { text, script } => {
            status_of(run_record(session, text, script, sink, steps))
        }
        Task::Obj { mesh, base, script } => {
            let faces = Faces { mesh, base };
            status_of(<Faces as Serve<Session<L, P>, Command>>::serve_script(
                &faces, session, script, sink, steps,
            ))
        }
        Task::Replay { log } => status_of(run_replay(session, log, sink, steps)),
        Task::Large { large } => status_of(large.run(session, sink, steps)),
    }
}

/// Does the task on what came of opening its session, and lets the session go.
fn on_opened<const L: usize, P: Projector<L> + Drop, G: Ledger, K: Sink>(
    it: OnScene<'_>,
    outcome: Result<Session<L, P>, AllocError>,
    sink: &mut K,
    steps: &mut Steps<G>,
) -> Status
    requires lanes_low { 0 < L }
    requires lanes_high { L ≤ 16 }
    requires begins { IfOk outcome (λ session. session ≡ opened it.scene.now) }
    requires ready { IsReady it.task it.scene.now }
    ensures { Does (task_on it.entry.task it.entry.scene.now)
        (K.written sink.old) (K.written sink.new) (K.faults sink.old) (K.faults sink.new) result }
{
    match outcome {
        Ok(mut session) => {
            let status = on_session(it, &mut session, sink, steps);
            drop(session);
            status
        }
        Err(AllocError) => Status::OutOfMemory,
    }
}

impl<const L: usize> Form<L> for OnScene<'_> {
    fn over<G: Ledger, K: Sink>(self, alloc: Global, sink: &mut K, steps: &mut Steps<G>) -> Status {
        let outcome = Session::open(alloc, self.scene, LaneProjector::<L>::new());
        on_opened(self, outcome, sink, steps)
    }
}

/// A task on the session that a scene opens, with the reads and writes of each batch in an order that the words of a
/// generator draw.
#[derive(Drop)]
pub struct Scrambled<'a> {
    pub on: OnScene<'a>,
    /// The seed of the generator.
    pub seed: u64,
}

impl Settled for Scrambled<'_> {
    ghost ready = { λ it. IsReady it.on.task it.on.scene.now };

    ghost outcome = { λ it. task_on it.on.task it.on.scene.now };
}

/// A session that projects each batch by events in a drawn order.
fn open_scrambled(
    alloc: Global,
    scene: &Scene,
    seed: u64,
) -> Result<Session<1, ScrambleProjector>, AllocError>
    ensures { IfOk result (λ session. session ≡ opened scene.now) }
{
    match ScrambleProjector::open(alloc, seed) {
        Ok(projector) => Session::open(alloc, scene, projector),
        Err(failed) => Err(failed),
    }
}

impl Counted for Scrambled<'_> {
    fn run<G: Ledger, K: Sink>(self, alloc: Global, sink: &mut K, steps: &mut Steps<G>) -> Status {
        let Scrambled { on, seed } = self;
        let outcome = open_scrambled(alloc, on.scene, seed);
        on_opened(on, outcome, sink, steps)
    }
}

/// In which order the bonds of a batch are projected: side by side, in a session of a width, or as a seed draws it.
#[derive(Clone, Copy, Debug, PartialEq, Eq)]
pub enum BatchOrder {
    AtWidth(Width),
    Scrambled { seed: u64 },
}

/// Runs a task, in any order the same.
pub fn run_task<K: Sink>(alloc: Global, order: BatchOrder, on: OnScene<'_>, sink: &mut K) -> Status
    requires { IsReady on.task on.scene.now }
    ensures { Does (task_on on.entry.task on.entry.scene.now)
        (K.written sink.old) (K.written sink.new) (K.faults sink.old) (K.faults sink.new) result }
{
    match order {
        BatchOrder::AtWidth(width) => with_counter(alloc, AtWidth { width, form: on }, sink),
        BatchOrder::Scrambled { seed } => with_counter(alloc, Scrambled { on, seed }, sink),
    }
}
