//! The halves of an input: a scene and a script.
ghost use Rattle.std.specs.Prelude.{◌≡◌, ◌≤◌, length, IfErr, IfOk, OnOk};
ghost use Rattle.pbd_run.specs.Calls.{HasHalves, StopsAtHalves};

use crate::scene::{scene_in, stop, stop_scene};
use crate::split::split;
use pbd_io::Sink;
use pbd_num::RANGE;
use pbd_outcome::Status;
use pbd_world::Scene;
use std::alloc::Global;

/// A scene, the bytes that it was read from, and the script behind it.
#[derive(Drop)]
pub struct Halves<'a> {
    pub text: &'a [u8],
    pub scene: Scene,
    pub script: &'a [u8],
}

/// The halves of an input. Where it has none, the line of that is written, unless memory ran out or the sink failed, and the status
/// is the answer.
pub fn halves_of<'a, K: Sink>(
    alloc: Global,
    input: &'a [u8],
    sink: &mut K,
) -> Result<Halves<'a>, Status>
    ensures halves { IfOk result (λ halves. HasHalves input.now halves.text.now halves.scene halves.script.now) }
    ensures unwritten { OnOk result (sink.new ≡ sink.old) }
    ensures stopped { IfErr result (StopsAtHalves input.now
        (K.written sink.old) (K.written sink.new) (K.faults sink.old) (K.faults sink.new)) }
{
    let Some((text, script)) = split(input) else {
        return Err(stop(Status::NoScript, sink));
    };
    match scene_in(alloc, text, RANGE) {
        Ok(scene) => Ok(Halves {
            text,
            scene,
            script,
        }),
        Err(why) => Err(stop_scene(why, sink)),
    }
}
