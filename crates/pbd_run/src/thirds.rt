//! The thirds of an input: a mesh, a scene and a script.
ghost use Rattle.std.specs.Prelude.{◌≡◌, ◌≤◌, ◌^◌, length, pos, IfErr, IfOk, OnOk};
ghost use Rattle.pbd_obj.specs.Meshes.{IsMesh};
ghost use Rattle.pbd_obj.specs.MeshLinks.{with_mesh};
ghost use Rattle.pbd_obj.specs.Reading.{IsFaultOf};
ghost use Rattle.pbd_outcome.specs.Outcome.{meshed};
ghost use Rattle.pbd_run.specs.Calls.{Does, HasMesh, IsDrawable, with_text};
ghost use Rattle.pbd_run.specs.Forms.{obj_on};

use crate::halves::{Halves, halves_of};
use crate::scene::{stop, stop_mesh};
use crate::split::split;
use pbd_io::Sink;
use pbd_obj::{ObjFault, ObjMesh, add_mesh, meshes_are_added_validly, read_obj};
use pbd_outcome::Status;
use pbd_world::{PartsFault, Scene};
use std::alloc::Global;

/// A mesh, the scene that has its particles and links, and the script behind it.
#[derive(Drop)]
pub struct Thirds<'a> {
    pub mesh: ObjMesh,
    /// The particle of the mesh's first vertex.
    pub base: u32,
    pub scene: Scene,
    pub script: &'a [u8],
}

/// A scene with the particles and links of a mesh after its own.
fn with_mesh(alloc: Global, mesh: &ObjMesh, scene: Scene) -> Result<Scene, ObjFault>
    requires mesh { IsMesh mesh.now }
    requires limit { scene.limit ≡ pos 536870912 }
    ensures ok { IfOk result (λ whole. with_mesh mesh.now scene ≡ Ok whole) }
    ensures err { IfErr result (λ fault. IsFaultOf (with_mesh mesh.now scene) fault) }
{
    let mut parts = scene.into_parts();
    if let Err(fault) = add_mesh(alloc, mesh, &mut parts) {
        drop(parts);
        return Err(fault);
    }
    meshes_are_added_validly();
    match Scene::from_parts(alloc, parts) {
        Ok(whole) => Ok(whole),
        Err(PartsFault::OutOfMemory) => Err(ObjFault::OutOfMemory),
        Err(PartsFault::NotValid) => unreachable!(),
    }
}

/// How many particles a scene has.
fn count(scene: &Scene) -> u32
    ensures value { result ≡ length scene.now.particles }
    ensures most { result ≤ 65536 }
{
    scene.parts().particles.len() as u32
}

/// The mesh of a text, in the scene of an input's halves.
fn in_scene<'a>(alloc: Global, text: &[u8], halves: Halves<'a>) -> Result<Thirds<'a>, ObjFault>
    requires text { length text.now ≤ 2 ^ 31 }
    requires limit { halves.scene.limit ≡ pos 536870912 }
    ensures ok { IfOk result (λ thirds. HasMesh text.now halves.entry.scene thirds.mesh thirds.base thirds.scene) }
    ensures script { IfOk result (λ thirds. thirds.script ≡ halves.entry.script) }
    ensures err { IfErr result (λ fault. IsFaultOf (with_text text.now halves.entry.scene) fault) }
{
    match read_obj(alloc, text) {
        Ok(mesh) => {
            let base = count(&halves.scene);
            match with_mesh(alloc, &mesh, halves.scene) {
                Ok(scene) => Ok(Thirds {
                    mesh,
                    base,
                    scene,
                    script: halves.script,
                }),
                Err(fault) => {
                    drop(mesh);
                    Err(fault)
                }
            }
        }
        Err(fault) => {
            drop(halves);
            Err(fault)
        }
    }
}

/// The thirds of an input. Where it has none, the line of that is written, unless memory ran out or the sink failed, and the status
/// is the answer.
pub fn thirds_of<'a, K: Sink>(
    alloc: Global,
    input: &'a [u8],
    sink: &mut K,
) -> Result<Thirds<'a>, Status>
    requires { length input.now ≤ 2 ^ 31 }
    ensures thirds { IfOk result (λ thirds. meshed input.now ≡ obj_on thirds.base thirds.mesh thirds.scene thirds.script.now) }
    ensures drawable { IfOk result (λ thirds. IsDrawable thirds.base thirds.mesh) }
    ensures short { IfOk result (λ thirds. length thirds.script.now ≤ length input.now) }
    ensures unwritten { OnOk result (sink.new ≡ sink.old) }
    ensures stopped { IfErr result (λ status. Does (meshed input.now)
        (K.written sink.old) (K.written sink.new) (K.faults sink.old) (K.faults sink.new) status) }
{
    let Some((text, rest)) = split(input) else {
        return Err(stop(Status::NoScript, sink));
    };
    match halves_of(alloc, rest, sink) {
        Ok(halves) => match in_scene(alloc, text, halves) {
            Ok(thirds) => Ok(thirds),
            Err(fault) => Err(stop_mesh(fault, sink)),
        },
        Err(status) => Err(status),
    }
}
