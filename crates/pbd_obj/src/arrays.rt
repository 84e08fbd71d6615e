//! A mesh of vertices and faces in memory.
ghost use Rattle.std.specs.Prelude.{◌≡◌, ◌==◌, length, position, sum, IfErr, IfOk, Ok};
ghost use Rattle.pbd_obj.specs.declared.arrays.ArraysFault.TheVariants.{OutOfMemory};
ghost use Rattle.pbd_obj.specs.Arrays.{is_face_of, is_no_face, is_outside, mesh_of, IsArraysFault};
ghost use Rattle.pbd_obj.specs.Meshes.{cut, IsMesh};

use crate::ObjMesh;
use pbd_num::{Vec3, inside};
use pbd_world::List;
use std::alloc::{AllocError, Global};
use std::collections::BTreeSet;

/// Why arrays are no mesh. Vertices and faces are counted from 0.
#[derive(Clone, Copy, Debug, PartialEq, Eq)]
pub enum ArraysFault {
    /// The faces don't have as many corners together as there are.
    BadCount,
    /// A vertex is further than 536,870,912 units from the origin on some axis.
    OutOfRange { vertex: usize },
    /// A face isn't three or more different vertices.
    BadFace { face: usize },
    OutOfMemory,
}

impl From<AllocError> for ArraysFault {
    ghost from_gives = { λ _ e. e ≡ OutOfMemory };

    fn from(_: AllocError) -> Self {
        ArraysFault::OutOfMemory
    }
}

/// Whether faces of these sizes have so many corners together.
#[tactic(auto, using(crate::proofs::ArrayLemmas::left_next, crate::proofs::ArrayLemmas::left_short, crate::proofs::ArrayLemmas::left_end))]
fn are_together(sizes: &[u32], corners: usize) -> bool
    ensures { result ≡ (sum sizes.now == corners) }
{
    let mut left = corners;
    for size in sizes {
        if *size as usize > left {
            return false;
        }
        left -= *size as usize;
    }
    left == 0
}

fn first_outside(places: &[Vec3]) -> Option<usize>
    ensures { result ≡ position is_outside places.now }
{
    places.iter().position(|place| !inside(*place))
}

/// Whether corners are at least three of so many vertices, and none twice.
#[tactic(auto, using(crate::proofs::ArrayLemmas::corners_begin, crate::proofs::ArrayLemmas::corners_next, crate::proofs::ArrayLemmas::corner_outside, crate::proofs::ArrayLemmas::corner_again, crate::proofs::ArrayLemmas::corners_end))]
fn is_face_of(alloc: Global, vertices: usize, face: &[u32]) -> Result<bool, AllocError>
    ensures { IfOk result (λ is. is ≡ is_face_of vertices face.now) }
{
    let mut named = BTreeSet::new(alloc);
    for corner in face {
        if *corner as usize >= vertices {
            return Ok(false);
        }
        if !named.insert(*corner)? {
            return Ok(false);
        }
    }
    Ok(3 <= face.len())
}

#[tactic(auto, using(crate::proofs::ArrayLemmas::good_begin, crate::proofs::ArrayLemmas::good_next, crate::proofs::ArrayLemmas::good_stops, crate::proofs::ArrayLemmas::good_end))]
fn first_bad_face(
    alloc: Global,
    vertices: usize,
    sizes: &[u32],
    corners: &[u32],
) -> Result<Option<usize>, AllocError>
    requires { sum sizes.now ≡ length corners.now }
    ensures { IfOk result (λ bad. bad ≡ position (is_no_face vertices) (cut sizes.now corners.now)) }
{
    let mut rest = corners;
    for i in 0..sizes.len() {
        let (face, behind) = rest.split_at(sizes[i] as usize);
        if !is_face_of(alloc, vertices, face)? {
            return Ok(Some(i));
        }
        rest = behind;
    }
    Ok(None)
}

/// The mesh of these vertices, and of faces of which each has so many of the corners: vertices by number from 0, one face after
/// another. The fault is the first of these: that the numbers of corners don't agree, that of the first bad vertex, that of the
/// first bad face; or it is want of memory.
#[tactic(auto, using(crate::proofs::ArrayLemmas::bad_count, crate::proofs::ArrayLemmas::bad_vertex, crate::proofs::ArrayLemmas::bad_face, crate::proofs::ArrayLemmas::mesh_found, crate::proofs::ArrayLemmas::mesh_is))]
pub fn mesh_of(
    alloc: Global,
    places: &[Vec3],
    sizes: &[u32],
    corners: &[u32],
) -> Result<ObjMesh, ArraysFault>
    ensures ok { IfOk result (λ mesh. mesh_of places.now sizes.now corners.now ≡ Ok mesh) }
    ensures err { IfErr result (λ fault. IsArraysFault (mesh_of places.now sizes.now corners.now) fault) }
    ensures mesh { IfOk result IsMesh }
{
    if !are_together(sizes, corners.len()) {
        return Err(ArraysFault::BadCount);
    }
    if let Some(vertex) = first_outside(places) {
        return Err(ArraysFault::OutOfRange { vertex });
    }
    if let Some(face) = first_bad_face(alloc, places.len(), sizes, corners)? {
        return Err(ArraysFault::BadFace { face });
    }
    Ok(ObjMesh {
        places: List::copied(alloc, places)?,
        sizes: List::copied(alloc, sizes)?,
        corners: List::copied(alloc, corners)?,
    })
}
