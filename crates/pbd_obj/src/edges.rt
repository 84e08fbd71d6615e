//! The edges of the faces of a mesh.
ghost use Rattle.std.specs.Prelude.{◌≡◌, ◌<◌, ◌++◌, length, IfOk, OnOk};
ghost use Rattle.pbd_obj.specs.Meshes.{faces, IsMesh};
ghost use Rattle.pbd_obj.specs.Facing.{edge, edge_between, edges, face_edges};

use crate::ObjMesh;
use pbd_world::List;
use std::alloc::{AllocError, Global};

/// An edge of a face: its ends, the smaller number first, and the corner beside each end in the face.
#[derive(Clone, Copy)]
pub struct Edge {
    pub(crate) low: u32,
    pub(crate) high: u32,
    pub(crate) beside_low: u32,
    pub(crate) beside_high: u32,
}

fn edge_between(before: u32, a: u32, b: u32, behind: u32) -> Edge
    ensures { result ≡ edge_between before a b behind }
{
    if a < b {
        Edge {
            low: a,
            high: b,
            beside_low: before,
            beside_high: behind,
        }
    } else {
        Edge {
            low: b,
            high: a,
            beside_low: behind,
            beside_high: before,
        }
    }
}

/// The edge from corner `i` to the next.
#[tactic(auto, unfolding(crate::specs::Facing::edge))]
fn nth_edge(face: &[u32], i: usize) -> Edge
    requires { i < length face.now }
    ensures { result ≡ edge face.now i }
{
    let n = face.len();
    edge_between(
        face[(i + n - 1) % n],
        face[i],
        face[(i + 1) % n],
        face[(i + 2) % n],
    )
}

fn push_edges(face: &[u32], edges: &mut List<Edge>) -> Result<(), AllocError>
    ensures { OnOk result (edges.new ≡ edges.old ++ face_edges face.now) }
{
    for i in 0..face.len() {
        edges.push(nth_edge(face, i))?;
    }
    Ok(())
}

/// The edges of all faces, one face after another.
pub(crate) fn edges_of(alloc: Global, mesh: &ObjMesh) -> Result<List<Edge>, AllocError>
    requires { IsMesh mesh.now }
    ensures { IfOk result (λ found. found ≡ edges (faces mesh.now)) }
{
    let sizes = mesh.sizes.as_slice();
    let mut rest = mesh.corners.as_slice();
    let mut edges = List::new(alloc);
    for size in sizes {
        let (face, behind) = rest.split_at(*size as usize);
        push_edges(face, &mut edges)?;
        rest = behind;
    }
    Ok(edges)
}
