//! The faces of a mesh as triangles, to draw.
ghost use Rattle.std.specs.Prelude.{◌≡◌, ◌≤◌, ◌<◌, ◌++◌, length, IfOk, OnOk};
ghost use Rattle.pbd_obj.specs.Meshes.{IsMesh};
ghost use Rattle.pbd_obj.specs.Triangles.{fan, fan_triangle, triangles};

use crate::ObjMesh;
use pbd_world::List;
use std::alloc::{AllocError, Global};

/// Three vertices, by number from 0.
#[repr(C)]
#[derive(Clone, Copy, Debug, PartialEq, Eq)]
pub struct Triangle {
    pub a: u32,
    pub b: u32,
    pub c: u32,
}

/// The triangle of a face from its first corner to the side that ends at corner `i`.
#[tactic(auto, unfolding(crate::specs::Triangles::fan_triangle))]
fn fan_triangle(face: &[u32], i: usize) -> Triangle
    requires low { 2 ≤ i }
    requires high { i < length face.now }
    ensures { result ≡ fan_triangle face.now i }
{
    Triangle {
        a: face[0],
        b: face[i - 1],
        c: face[i],
    }
}

fn push_fan(face: &[u32], triangles: &mut List<Triangle>) -> Result<(), AllocError>
    ensures { OnOk result (triangles.new ≡ triangles.old ++ fan face.now) }
{
    for i in 2..face.len() {
        triangles.push(fan_triangle(face, i))?;
    }
    Ok(())
}

/// The triangles of all faces, one face after another: a face a b c d is a b c and a c d.
pub fn triangles_of(alloc: Global, mesh: &ObjMesh) -> Result<List<Triangle>, AllocError>
    requires { IsMesh mesh.now }
    ensures { IfOk result (λ found. found ≡ triangles mesh.now) }
{
    let sizes = mesh.sizes.as_slice();
    let mut rest = mesh.corners.as_slice();
    let mut triangles = List::new(alloc);
    for size in sizes {
        let (face, behind) = rest.split_at(*size as usize);
        push_fan(face, &mut triangles)?;
        rest = behind;
    }
    Ok(triangles)
}
