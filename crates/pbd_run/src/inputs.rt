//! The forms of the program on an input that was read to its end.
ghost use Rattle.std.specs.Prelude.{◌≡◌, ◌≤◌, ◌^◌, length};
ghost use Rattle.pbd_outcome.specs.Outcome.{IsReplayed, meshed};
ghost use Rattle.pbd_run.specs.Calls.{Does, DoesSome, IsOne, IsRecordable};
ghost use Rattle.pbd_run.specs.Forms.{job_of, script_on};

use crate::halves::{Halves, halves_of};
use crate::marks::{Marking, run_marking};
use crate::scene::{scene_in, stop_log, stop_scene};
use crate::task::{BatchOrder, OnScene, Task, run_task};
use crate::thirds::thirds_of;
use pbd_io::Sink;
use pbd_log::read_log;
use pbd_outcome::Status;
use pbd_world::Width;
use std::alloc::Global;

/// A job that runs a script on a scene.
#[derive(Clone, Copy, Debug, PartialEq, Eq)]
pub enum ScriptJob {
    Simulate(Width),
    Record(Width),
    Scramble { seed: u64 },
    Marks(Width),
}

/// Does such a job on the halves of its input.
fn on_halves<K: Sink>(alloc: Global, job: ScriptJob, halves: &Halves<'_>, sink: &mut K) -> Status
    requires { IsRecordable halves.now.text.now halves.now.scene halves.now.script.now }
    ensures { Does (script_on job halves.now.text.now halves.now.scene halves.now.script.now)
        (K.written sink.old) (K.written sink.new) (K.faults sink.old) (K.faults sink.new) result }
{
    let (text, scene, script) = (halves.text, &halves.scene, halves.script);
    match job {
        ScriptJob::Simulate(width) => {
            let on = OnScene {
                scene,
                task: Task::Simulate { script },
            };
            run_task(alloc, BatchOrder::AtWidth(width), on, sink)
        }
        ScriptJob::Record(width) => {
            let on = OnScene {
                scene,
                task: Task::Record { text, script },
            };
            run_task(alloc, BatchOrder::AtWidth(width), on, sink)
        }
        ScriptJob::Scramble { seed } => {
            let on = OnScene {
                scene,
                task: Task::Simulate { script },
            };
            run_task(alloc, BatchOrder::Scrambled { seed }, on, sink)
        }
        ScriptJob::Marks(width) => run_marking(alloc, width, Marking { scene, script }, sink),
    }
}

/// Does a job that runs a script, on an input that has a scene and a script.
pub fn script_input<K: Sink>(alloc: Global, job: ScriptJob, input: &[u8], sink: &mut K) -> Status
    requires { length input.now ≤ 2 ^ 31 }
    ensures { DoesSome (IsOne (job_of job) input.now)
        (K.written sink.old) (K.written sink.new) (K.faults sink.old) (K.faults sink.new) result }
{
    match halves_of(alloc, input, sink) {
        Ok(halves) => on_halves(alloc, job, &halves, sink),
        Err(status) => status,
    }
}

/// Runs the script of an input on its scene with its mesh.
pub fn obj_input<K: Sink>(alloc: Global, width: Width, input: &[u8], sink: &mut K) -> Status
    requires { length input.now ≤ 2 ^ 31 }
    ensures { Does (meshed input.now) (K.written sink.old) (K.written sink.new) (K.faults sink.old) (K.faults sink.new) result }
{
    match thirds_of(alloc, input, sink) {
        Ok(thirds) => {
            let on = OnScene {
                scene: &thirds.scene,
                task: Task::Obj {
                    mesh: &thirds.mesh,
                    base: thirds.base,
                    script: thirds.script,
                },
            };
            run_task(alloc, BatchOrder::AtWidth(width), on, sink)
        }
        Err(status) => status,
    }
}

/// Replays the log that an input is.
pub fn replay_input<K: Sink>(alloc: Global, width: Width, input: &[u8], sink: &mut K) -> Status
    ensures { DoesSome (IsReplayed input.now) (K.written sink.old) (K.written sink.new) (K.faults sink.old) (K.faults sink.new) result }
{
    match read_log(input) {
        Ok(log) => match scene_in(alloc, log.scene(), log.limit()) {
            Ok(scene) => {
                let on = OnScene {
                    scene: &scene,
                    task: Task::Replay { log },
                };
                run_task(alloc, BatchOrder::AtWidth(width), on, sink)
            }
            Err(why) => stop_scene(why, sink),
        },
        Err(fault) => stop_log(fault, sink),
    }
}
