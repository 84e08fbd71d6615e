//! The scene of a run, and the lines of what stops a run before its session.
ghost use Rattle.std.specs.Prelude.{◌≡◌, ◌≢◌, [], IsTrue};
ghost use Rattle.pbd_world.specs.Valid.{is_limit};
ghost use Rattle.pbd_outcome.specs.Outcome.{log_refused, scene_in, stops};
ghost use Rattle.pbd_run.specs.Calls.{Does, EndsForMesh, EndsForScene, EndsReading, GivesParts, IsPlain};

use crate::line::{log_line, obj_line, refused_line};
use crate::reading::ReadEnd;
use pbd_io::{Failed, Sink};
use pbd_log::LogFault;
use pbd_obj::ObjFault;
use pbd_outcome::{Status, status_line};
use pbd_scene::{SceneFault, read_scene};
use pbd_world::Scene;
use std::alloc::Global;

/// Why a scene's bytes give no scene.
#[derive(Clone, Copy, Debug, PartialEq, Eq)]
pub enum SceneStop {
    /// They are no UTF-8.
    NotText,
    /// They are no TOML, or deeper or longer than is read, or they break a rule, or memory ran out.
    Fault(SceneFault),
}

/// The scene of these bytes, read with a limit.
#[tactic(auto, unfolding(pbd_outcome::specs::Outcome::scene_in))]
pub fn scene_in(alloc: Global, bytes: &[u8], limit: i64) -> Result<Scene, SceneStop>
    requires { IsTrue (is_limit limit) }
    ensures { GivesParts result (scene_in limit bytes.now) }
{
    match str::from_utf8(bytes) {
        Ok(text) => match read_scene(alloc, text, limit) {
            Ok(scene) => Ok(scene),
            Err(fault) => Err(SceneStop::Fault(fault)),
        },
        Err(_) => Err(SceneStop::NotText),
    }
}

/// Writes the line of a status, and answers the status, or `WriteFault` where the line can't be written.
pub fn stop<K: Sink>(status: Status, sink: &mut K) -> Status
    requires plain { IsPlain status }
    ensures does { Does (stops status []) (K.written sink.old) (K.written sink.new) (K.faults sink.old) (K.faults sink.new) result }
    ensures memory { result ≢ Status.OutOfMemory }
{
    match sink.write(status_line(status).as_bytes()) {
        Ok(()) => status,
        Err(Failed) => Status::WriteFault,
    }
}

/// Ends a run whose input was not read to its end.
pub fn stop_reading<K: Sink>(end: ReadEnd, sink: &mut K) -> Status
    ensures { EndsReading end (K.written sink.old) (K.written sink.new) (K.faults sink.old) (K.faults sink.new) result }
{
    match end {
        ReadEnd::Failed => stop(Status::ReadFault, sink),
        ReadEnd::TooLong => stop(Status::InputTooLong, sink),
        ReadEnd::OutOfMemory => Status::OutOfMemory,
    }
}

/// Ends a run whose scene gives no parts, whatever it would have done with them.
pub fn stop_scene<K: Sink>(why: SceneStop, sink: &mut K) -> Status
    ensures { EndsForScene why (K.written sink.old) (K.written sink.new) (K.faults sink.old) (K.faults sink.new) result }
{
    match why {
        SceneStop::NotText => stop(Status::SceneNotText, sink),
        SceneStop::Fault(SceneFault::NotToml) => stop(Status::SceneNotToml, sink),
        SceneStop::Fault(SceneFault::OutOfMemory) => Status::OutOfMemory,
        SceneStop::Fault(
            SceneFault::Refused {
                rule,
                table,
                position,
                key,
            },
        ) => match sink.write(refused_line(rule, table, position, key).as_slice()) {
            Ok(()) => Status::SceneRefused,
            Err(Failed) => Status::WriteFault,
        },
    }
}

/// Ends a run whose bytes are no log.
pub fn stop_log<K: Sink>(fault: LogFault, sink: &mut K) -> Status
    ensures { Does (log_refused fault.offset) (K.written sink.old) (K.written sink.new) (K.faults sink.old) (K.faults sink.new) result }
{
    match sink.write(log_line(fault.offset).as_slice()) {
        Ok(()) => Status::LogRefused,
        Err(Failed) => Status::WriteFault,
    }
}

/// Ends a run whose mesh is refused, or for which there was no memory.
pub fn stop_mesh<K: Sink>(fault: ObjFault, sink: &mut K) -> Status
    ensures { EndsForMesh fault (K.written sink.old) (K.written sink.new) (K.faults sink.old) (K.faults sink.new) result }
{
    if let ObjFault::OutOfMemory = fault {
        return Status::OutOfMemory;
    }
    match sink.write(obj_line(fault).as_slice()) {
        Ok(()) => Status::ObjRefused,
        Err(Failed) => Status::WriteFault,
    }
}
