//! Opening a scene with a mesh that a C program has in memory.
ghost use Rattle.std.specs.Prelude.{◌≡◌, ◌++◌, map, pos, take, IfErr, IfOk, IsTrue, MatchResult, Ok, OnOk};
ghost use Rattle.pbd_num.specs.declared.Vec3.{Vec3};
ghost use Rattle.pbd_cloth.specs.declared.place.Place.{Place};
ghost use Rattle.lakmozet_c.specs.Prelude.{AreSlots, IsArraysFault};
ghost use Rattle.pbd_obj.specs.MeshLinks.{with_mesh_as};
ghost use Rattle.pbd_obj.specs.Meshes.{IsMesh};
ghost use Rattle.pbd_obj.specs.Reading.{IsFaultOf};
ghost use Rattle.pbd_obj.specs.Settings.{are_settings};
ghost use Rattle.lakmozet_c.specs.Calls.{vector_of, HoldsSound};
ghost use Rattle.lakmozet_c.specs.Meshed.{mesh_fault_of, mesh_in, mesh_of_arrays, mesh_stop_number, settings_of, some_settings, unfit_fault, unfit_number, IsMeshOpened, IsMeshWhy, IsUnfit, IsWhole, IsWith, OpensMeshOr, TellsSceneWhy};

use crate::commands::vector_of;
use crate::handle::Handle;
use crate::numbers::{IN_USE, MESH_REFUSED, OUT_OF_MEMORY};
use crate::opening::{NOTHING_WRONG, NoCloth, cloth_on, fault_of, scene_in, stop_number};
use crate::plain::{Fault, MeshEntry, MeshFault};
use pbd_cloth::{Cloth, MOST_SLOTS, Place};
use pbd_num::{RANGE, Vec3};
use pbd_obj::{
    ArraysFault, LinkSettings, MeshSettings, ObjFault, ObjMesh, add_mesh_with, mesh_of,
    meshes_with_settings_are_added_validly,
};
use pbd_world::{List, PartsFault, Scene};
use std::alloc::{AllocError, Global};

/// A mesh of a program's, in its memory.
#[derive(Clone, Copy)]
pub struct MeshArrays<'a> {
    pub vertices: &'a [Place],
    /// How many corners each face has.
    pub sizes: &'a [u32],
    /// Those of all faces, one face after another: vertices by number from 0.
    pub corners: &'a [u32],
}

/// A mesh of a program's, and how it is made cloth.
#[derive(Clone, Copy)]
struct Given<'a> {
    arrays: MeshArrays<'a>,
    settings: MeshSettings,
}

/// Why a mesh isn't added to a scene.
#[derive(Clone, Copy)]
pub enum Unfit {
    /// A setting is out of its range.
    BadSettings,
    /// The arrays are no mesh, or memory ran out.
    NoArrays(ArraysFault),
    /// The mesh makes too many particles or links, or too many at a vertex, or memory ran out.
    NotAdded(ObjFault),
}

/// Why nothing was opened.
#[derive(Clone, Copy)]
pub enum NoWhole {
    ByScene(NoCloth),
    ByMesh(Unfit),
}

// ---- what a program hands in

fn some_settings(bends: u8, stiffness: u16, tear: i64) -> Option<LinkSettings>
    ensures { result ≡ some_settings bends stiffness tear }
{
    if bends == 0 {
        return None;
    }
    Some(LinkSettings { stiffness, tear })
}

fn settings_of(entry: &MeshEntry) -> MeshSettings
    ensures { result ≡ settings_of entry.now }
{
    MeshSettings {
        weight: entry.weight,
        stretch: LinkSettings {
            stiffness: entry.stretch,
            tear: entry.stretch_tear,
        },
        shear: LinkSettings {
            stiffness: entry.shear,
            tear: entry.shear_tear,
        },
        bend: some_settings(entry.bends, entry.bend, entry.bend_tear),
    }
}

#[tactic(auto, using(pbd_obj::proofs::AddLemmas::pushed_begin, pbd_obj::proofs::AddLemmas::pushed_next, pbd_obj::proofs::AddLemmas::pushed_all))]
fn push_vectors(places: &[Place], vectors: &mut List<Vec3>) -> Result<(), AllocError>
    ensures { OnOk result (vectors.new ≡ vectors.old ++ map {A = Place} {B = Vec3} vector_of places.now) }
{
    for place in places {
        vectors.push(vector_of(*place))?;
    }
    Ok(())
}

/// The mesh that a program hands in.
pub(crate) fn mesh_in(alloc: Global, arrays: &MeshArrays) -> Result<ObjMesh, ArraysFault>
    ensures ok { IfOk result (λ mesh. mesh_of_arrays arrays.now ≡ Ok mesh) }
    ensures err { IfErr result (λ fault. IsArraysFault (mesh_of_arrays arrays.now) fault) }
    ensures mesh { IfOk result IsMesh }
{
    let mut vectors = List::new(alloc);
    push_vectors(arrays.vertices, &mut vectors)?;
    mesh_of(alloc, vectors.as_slice(), arrays.sizes, arrays.corners)
}

// ---- a scene and a mesh

/// A scene with the particles and links of a mesh after its own.
fn with_mesh(
    alloc: Global,
    mesh: &ObjMesh,
    settings: &MeshSettings,
    scene: Scene,
) -> Result<Scene, ObjFault>
    requires mesh { IsMesh mesh.now }
    requires settings { IsTrue (are_settings settings.now) }
    requires limit { scene.limit ≡ pos 536870912 }
    ensures ok { IfOk result (λ whole. with_mesh_as settings.now mesh.now scene ≡ Ok whole) }
    ensures err { IfErr result (λ fault. IsFaultOf (with_mesh_as settings.now mesh.now scene) fault) }
{
    let mut parts = scene.into_parts();
    if let Err(fault) = add_mesh_with(alloc, mesh, settings, &mut parts) {
        drop(parts);
        return Err(fault);
    }
    prove!(settings.weight <= u16::MAX);
    meshes_with_settings_are_added_validly();
    match Scene::from_parts(alloc, parts) {
        Ok(whole) => Ok(whole),
        Err(PartsFault::OutOfMemory) => Err(ObjFault::OutOfMemory),
        Err(PartsFault::NotValid) => unreachable!(),
    }
}

/// The same with a mesh that a program hands in.
fn with_given(alloc: Global, given: &Given, scene: Scene) -> Result<Scene, Unfit>
    requires { scene.limit ≡ pos 536870912 }
    ensures { MatchResult result
        (λ whole. IsWith given.now.settings (mesh_of_arrays given.now.arrays) scene whole)
        (λ why. IsUnfit given.now.settings (mesh_of_arrays given.now.arrays) scene why) }
{
    if !given.settings.are_in_range() {
        drop(scene);
        return Err(Unfit::BadSettings);
    }
    match mesh_in(alloc, &given.arrays) {
        Ok(mesh) => match with_mesh(alloc, &mesh, &given.settings, scene) {
            Ok(whole) => Ok(whole),
            Err(fault) => Err(Unfit::NotAdded(fault)),
        },
        Err(fault) => {
            drop(scene);
            Err(Unfit::NoArrays(fault))
        }
    }
}

/// The scene of a text with the mesh that a program hands in.
#[tactic(auto, using(crate::proofs::Meshing::its_limit))]
fn whole_of(alloc: Global, toml: &[u8], given: &Given) -> Result<Scene, NoWhole>
    ensures { MatchResult result
        (λ whole. IsWhole toml.now given.now.settings (mesh_of_arrays given.now.arrays) whole)
        (λ why. IsMeshWhy toml.now 0 given.now.settings (mesh_of_arrays given.now.arrays) why) }
{
    match scene_in(alloc, toml, RANGE) {
        Ok(scene) => match with_given(alloc, given, scene) {
            Ok(whole) => Ok(whole),
            Err(why) => Err(NoWhole::ByMesh(why)),
        },
        Err(why) => Err(NoWhole::ByScene(why)),
    }
}

/// The cloth of a text and of the mesh that a program hands in.
#[tactic(auto, using(crate::proofs::Meshing::with_any_slots))]
fn cloth_with_mesh(
    alloc: Global,
    toml: &[u8],
    slots: u32,
    given: &Given,
) -> Result<Box<Cloth>, NoWhole>
    ensures cloth { MatchResult result
        (λ cloth. IsMeshOpened toml.now slots given.now.settings (mesh_of_arrays given.now.arrays) cloth.value)
        (λ why. IsMeshWhy toml.now slots given.now.settings (mesh_of_arrays given.now.arrays) why) }
    ensures sound { IfOk result (λ cloth. AreSlots cloth.value.world cloth.value.slots) }
{
    if MOST_SLOTS < slots {
        return Err(NoWhole::ByScene(NoCloth::TooManySlots));
    }
    match whole_of(alloc, toml, given) {
        Ok(whole) => match cloth_on(alloc, whole, slots) {
            Ok(cloth) => Ok(cloth),
            Err(why) => Err(NoWhole::ByScene(why)),
        },
        Err(why) => Err(why),
    }
}

// ---- numbers of reasons

pub(crate) fn unfit_number(why: Unfit) -> i32
    ensures { result ≡ pos (unfit_number why) }
{
    match why {
        Unfit::NoArrays(ArraysFault::OutOfMemory) | Unfit::NotAdded(ObjFault::OutOfMemory) => {
            OUT_OF_MEMORY
        }
        _ => MESH_REFUSED,
    }
}

/// The number of a reason, a status of the program's where it has one.
fn mesh_stop_number(why: &NoWhole) -> i32
    ensures { result ≡ pos (mesh_stop_number why.now) }
{
    match why {
        NoWhole::ByScene(why) => stop_number(why),
        NoWhole::ByMesh(why) => unfit_number(*why),
    }
}

const NO_MESH_FAULT: MeshFault = MeshFault { number: 0, rule: 0 };

pub(crate) fn unfit_fault(why: Unfit) -> MeshFault
    ensures { result ≡ unfit_fault why }
{
    match why {
        Unfit::NoArrays(ArraysFault::OutOfRange { vertex }) => MeshFault {
            number: vertex as u64,
            rule: 1,
        },
        Unfit::NoArrays(ArraysFault::BadFace { face }) => MeshFault {
            number: face as u64,
            rule: 2,
        },
        Unfit::NoArrays(ArraysFault::BadCount) => MeshFault { number: 0, rule: 3 },
        Unfit::BadSettings => MeshFault { number: 0, rule: 4 },
        Unfit::NotAdded(ObjFault::TooMany) => MeshFault { number: 0, rule: 5 },
        Unfit::NotAdded(ObjFault::TooManyAtParticle { vertex }) => MeshFault {
            number: vertex.saturating_sub(1) as u64,
            rule: 6,
        },
        _ => NO_MESH_FAULT,
    }
}

/// What is wrong with the mesh, if that is the reason.
fn mesh_fault_of(why: &NoWhole) -> MeshFault
    ensures { result ≡ mesh_fault_of why.now }
{
    match why {
        NoWhole::ByScene(_) => NO_MESH_FAULT,
        NoWhole::ByMesh(why) => unfit_fault(*why),
    }
}

/// What is wrong with the scene, if that is the reason.
fn scene_fault_of(why: &NoWhole) -> Fault
    ensures { TellsSceneWhy why.now result }
{
    match why {
        NoWhole::ByScene(why) => fault_of(why),
        NoWhole::ByMesh(_) => NOTHING_WRONG,
    }
}

// ---- opening

/// Opens the scene of a TOML text with a mesh behind it, with up to 16 slots.
#[unsafe(no_mangle)]
pub extern "C" fn lak_open_mesh(
    alloc: Global,
    handle: &mut Handle,
    toml: &[u8],
    vertices: &[Place],
    sizes: &[u32],
    corners: &[u32],
    settings: MeshEntry,
    slots: u32,
    fault: &mut Fault,
    mesh_fault: &mut MeshFault,
) -> i32
    ensures opened { OpensMeshOr handle.old.held toml.now slots (settings_of settings) (mesh_in vertices.now sizes.now corners.now)
        handle.new.held result fault.old fault.new mesh_fault.old mesh_fault.new }
    ensures sound { HoldsSound handle.new.held }
{
    let given = Given {
        arrays: MeshArrays {
            vertices,
            sizes,
            corners,
        },
        settings: settings_of(&settings),
    };
    match handle.take(alloc) {
        Some(cloth) => {
            handle.put(alloc, cloth);
            IN_USE
        }
        None => match cloth_with_mesh(alloc, toml, slots, &given) {
            Ok(cloth) => {
                handle.put(alloc, cloth);
                0
            }
            Err(why) => {
                *fault = scene_fault_of(&why);
                *mesh_fault = mesh_fault_of(&why);
                mesh_stop_number(&why)
            }
        },
    }
}
