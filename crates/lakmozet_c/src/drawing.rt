//! The triangles of a mesh that a C program has in memory.
ghost use Rattle.std.specs.Prelude.{◌≡◌, IfErr, IfOk};
ghost use Rattle.pbd_obj.specs.Arrays.{IsArraysFault};
ghost use Rattle.pbd_world.specs.Lending.{overwritten};
ghost use Rattle.lakmozet_c.specs.Drawn.{AreTriangles, WritesTrianglesOr};
ghost use Rattle.lakmozet_c.specs.Meshed.{mesh_in, mesh_of_arrays};

use crate::lists::room_for;
use crate::meshes::{MeshArrays, Unfit, mesh_in, unfit_fault, unfit_number};
use crate::plain::MeshFault;
use pbd_cloth::Place;
use pbd_obj::{ArraysFault, Triangle, triangles_of};
use pbd_world::List;
use std::alloc::Global;

/// The triangles of the mesh that a program hands in.
fn triangles_in(alloc: Global, arrays: &MeshArrays) -> Result<List<Triangle>, ArraysFault>
    ensures ok { IfOk result (AreTriangles (mesh_of_arrays arrays.now)) }
    ensures err { IfErr result (λ fault. IsArraysFault (mesh_of_arrays arrays.now) fault) }
{
    let mesh = mesh_in(alloc, arrays)?;
    Ok(triangles_of(alloc, &mesh)?)
}

/// Writes as many as there is room for.
fn write_over(triangles: &[Triangle], into: &mut [Triangle])
    ensures { into.new ≡ overwritten into.old triangles.now }
{
    let count = into.len().min(triangles.len());
    for i in 0..count {
        into[i] = triangles[i];
    }
}

/// Writes the triangles of the faces of a mesh, as many as there is room for, and how many there are.
#[unsafe(no_mangle)]
pub extern "C" fn lak_mesh_triangles(
    alloc: Global,
    vertices: &[Place],
    sizes: &[u32],
    corners: &[u32],
    into: &mut [Triangle],
    count: &mut usize,
    mesh_fault: &mut MeshFault,
) -> i32
    ensures { WritesTrianglesOr (mesh_in vertices.now sizes.now corners.now) into.old into.new result
        count.old count.new mesh_fault.old mesh_fault.new }
{
    let arrays = MeshArrays {
        vertices,
        sizes,
        corners,
    };
    match triangles_in(alloc, &arrays) {
        Ok(triangles) => {
            write_over(triangles.as_slice(), into);
            *count = triangles.len();
            drop(triangles);
            room_for(*count, into.len())
        }
        Err(fault) => {
            let why = Unfit::NoArrays(fault);
            *mesh_fault = unfit_fault(why);
            unfit_number(why)
        }
    }
}
