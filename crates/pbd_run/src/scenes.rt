//! The scenes of a host.
ghost use Rattle.std.specs.Prelude.{◌≡◌, ◌<◌, ◌≤◌, ◌^◌, [], ◌∷◌, nat_le, length, MatchOption, IfErr, IfOk, OnOk, Ok};
ghost use Rattle.pbd_outcome.specs.Outcome.{scenes_in};
ghost use Rattle.pbd_outcome.specs.Split.{scenes};
ghost use Rattle.pbd_run.specs.Calls.{AddsScene, Does, EndsForSceneIn, IsPlain, StopsAtScenes, StopsInScene};

use crate::line::{not_text_line_in, not_toml_line_in, push_in, refused_words};
use crate::scene::{SceneStop, scene_in};
use crate::split::split;
use pbd_io::{Failed, Sink};
use pbd_line::Line;
use pbd_num::RANGE;
use pbd_outcome::Status;
use pbd_scene::SceneFault;
use pbd_world::Scene;
use std::alloc::Global;

/// The first of some scenes, and the others, if there are any.
#[tactic(auto, using(crate::proofs::HostingLaws::one_scene, crate::proofs::HostingLaws::more_scenes))]
fn first_scene(text: &[u8]) -> (&[u8], Option<&[u8]>)
    ensures { MatchOption result.1 (scenes text.now ≡ result.0.now ∷ []) (λ later. scenes text.now ≡ result.0.now ∷ scenes later.now) }
{
    match split(text) {
        Some((scene, later)) => (scene, Some(later)),
        None => (text, None),
    }
}

/// Whether there are at most 16 scenes.
pub fn are_few(text: &[u8]) -> bool
    ensures { result ≡ nat_le (length (scenes text.now)) 16 }
{
    let mut rest = text;
    for _ in 0..16_u32 {
        let (_, later) = first_scene(rest);
        let Some(later) = later else {
            return true;
        };
        rest = later;
    }
    false
}

/// Writes a line, and ends with a status, or with `WriteFault` where the line can't be written.
fn end_with<K: Sink>(line: &Line, status: Status, sink: &mut K) -> Status
    requires plain { IsPlain status }
    ensures { Does (record { text = line.now; status = status; rest = [] })
        (K.written sink.old) (K.written sink.new) (K.faults sink.old) (K.faults sink.new) result }
{
    match sink.write(line.as_slice()) {
        Ok(()) => status,
        Err(Failed) => Status::WriteFault,
    }
}

/// Ends a run whose scene n gives no parts, whatever it would have done with them.
fn stop_in<K: Sink>(n: u32, why: SceneStop, sink: &mut K) -> Status
    ensures { EndsForSceneIn n why (K.written sink.old) (K.written sink.new) (K.faults sink.old) (K.faults sink.new) result }
{
    match why {
        SceneStop::NotText => end_with(&not_text_line_in(n), Status::SceneNotText, sink),
        SceneStop::Fault(SceneFault::NotToml) => {
            end_with(&not_toml_line_in(n), Status::SceneNotToml, sink)
        }
        SceneStop::Fault(SceneFault::OutOfMemory) => Status::OutOfMemory,
        SceneStop::Fault(
            SceneFault::Refused {
                rule,
                table,
                position,
                key,
            },
        ) => {
            let mut line = refused_words(rule, table, position, key);
            push_in(&mut line, n);
            end_with(&line, Status::SceneRefused, sink)
        }
    }
}

/// Reads one scene more. Where it gives no parts, the line of that is written, unless memory ran out or the sink failed, and the
/// status is the answer.
fn add_scene<K: Sink>(
    alloc: Global,
    text: &[u8],
    scenes: &mut Vec<Scene>,
    sink: &mut K,
) -> Result<(), Status>
    requires few { length scenes.old.items < 2 ^ 32 }
    ensures added { OnOk result (AddsScene text.now scenes.old.items scenes.new.items) }
    ensures unwritten { OnOk result (sink.new ≡ sink.old) }
    ensures stopped { IfErr result (StopsInScene (length scenes.old.items) text.now
        (K.written sink.old) (K.written sink.new) (K.faults sink.old) (K.faults sink.new)) }
{
    match scene_in(alloc, text, RANGE) {
        Ok(scene) => {
            if scenes.push(scene).is_err() {
                return Err(Status::OutOfMemory);
            }
            Ok(())
        }
        Err(why) => Err(stop_in(scenes.len() as u32, why, sink)),
    }
}

/// Reads at most 16 scenes. At the first that gives no parts the line of that is written, unless memory ran out or the sink failed,
/// and the status is the answer.
pub fn read_scenes<K: Sink>(alloc: Global, text: &[u8], sink: &mut K) -> Result<Vec<Scene>, Status>
    requires few { length (scenes text.now) ≤ 16 }
    ensures scenes { IfOk result (λ read. scenes_in 0 (scenes text.now) ≡ Ok read.items) }
    ensures unwritten { OnOk result (sink.new ≡ sink.old) }
    ensures stopped { IfErr result (StopsAtScenes (scenes text.now)
        (K.written sink.old) (K.written sink.new) (K.faults sink.old) (K.faults sink.new)) }
{
    let mut read = Vec::new(alloc);
    let mut rest = Some(text);
    while let Some(text) = rest {
        let (scene, later) = first_scene(text);
        match add_scene(alloc, scene, &mut read, sink) {
            Ok(()) => rest = later,
            Err(status) => return Err(status),
        }
    }
    Ok(read)
}
