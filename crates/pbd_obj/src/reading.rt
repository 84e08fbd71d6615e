//! The mesh that the lines of a text give.
ghost use Rattle.std.specs.Prelude.{◌≡◌, ◌+◌, ◌*◌, ◌≤◌, ◌<◌, ◌^◌, ◌==◌, ◌∷◌, length, position, IfOk, OnOk, IfErr, Ok};
ghost use Rattle.std.specs.List.{position_or_len};
ghost use Rattle.std.specs.Option.{option_map};
ghost use Rattle.pbd_script.specs.Commands.{vector_of};
ghost use Rattle.pbd_script.specs.Lines.{words};
ghost use Rattle.pbd_obj.specs.Decimals.{units_of};
ghost use Rattle.pbd_obj.specs.Meshes.{IsMesh};
ghost use Rattle.pbd_obj.specs.Sizes.{capped_axes};
ghost use Rattle.pbd_obj.specs.Reading.{corner, face, kth_vertex, named_by, no_mesh, read, vertex, with_face, with_line, with_vertex, with_words, IsFaultOf, PushesFace};

use crate::decimal::units_of;
use crate::words::{byte_at, is_minus, short_count, without_minus};
use crate::{ObjFault, ObjMesh};
use pbd_num::{Vec3, inside};
use pbd_script::lines::{first_line, next_word, without_return};
use pbd_world::List;
use std::alloc::{AllocError, Global};
use std::collections::BTreeSet;

/// The most digits of a corner.
const MOST_DIGITS: usize = 9;

// ---- vertices

fn place_of(x: &[u8], y: &[u8], z: &[u8]) -> Option<Vec3>
    ensures { result ≡ option_map capped_axes (vector_of (units_of x.now) (units_of y.now) (units_of z.now)) }
{
    Some(Vec3 {
        x: units_of(x)?,
        y: units_of(y)?,
        z: units_of(z)?,
    })
}

fn vertex(rest: &[u8]) -> Option<Vec3>
    ensures { result ≡ option_map capped_axes (vertex (words rest.now)) }
{
    let (x, rest) = next_word(rest)?;
    let (y, rest) = next_word(rest)?;
    let (z, _) = next_word(rest)?;
    place_of(x, y, z)
}

fn add_vertex(line: u32, rest: &[u8], mesh: &mut ObjMesh) -> Result<(), ObjFault>
    ensures ok { OnOk result (with_vertex line mesh.old (vertex (words rest.now)) ≡ Ok mesh.new) }
    ensures err { IfErr result (λ fault. IsFaultOf (with_vertex line mesh.old (vertex (words rest.now))) fault) }
{
    let Some(place) = vertex(rest) else {
        return Err(ObjFault::BadNumber { line });
    };
    if !inside(place) {
        return Err(ObjFault::OutOfRange { line });
    }
    mesh.places.push(place)?;
    Ok(())
}

// ---- faces

/// Vertex `k` of so many, counted from 1, from the first on or from the last back.
fn kth_vertex(vertices: u32, from_last: bool, k: u64) -> Option<u32>
    ensures { result ≡ kth_vertex vertices from_last k }
{
    if k < 1 || k > u64::from(vertices) {
        return None;
    }
    let k = k as u32;
    Some(if from_last { vertices - k } else { k - 1 })
}

fn named_by(vertices: u32, part: &[u8]) -> Option<u32>
    ensures { result ≡ named_by vertices part.now }
{
    let k = short_count(MOST_DIGITS, without_minus(part))?;
    kth_vertex(vertices, is_minus(part), k)
}

#[tactic(auto, unfolding(crate::specs::Reading::corner))]
fn corner(vertices: u32, word: &[u8]) -> Option<u32>
    ensures { result ≡ corner vertices word.now }
{
    named_by(vertices, &word[..byte_at(word, b'/')])
}

/// Pushes the corners that words name. Says whether they are a face.
#[tactic(auto, using(crate::proofs::FaceLemmas::named_begins, crate::proofs::FaceLemmas::front_within, crate::proofs::FaceLemmas::unnamed))]
fn push_face(
    alloc: Global,
    vertices: u32,
    rest: &[u8],
    corners: &mut List<u32>,
) -> Result<bool, AllocError>
    ensures { IfOk result (λ is. PushesFace (face vertices (words rest.now)) corners.old corners.new is) }
{
    let start = corners.len();
    let mut named = BTreeSet::new(alloc);
    let mut ahead = rest;
    while let Some((word, behind)) = next_word(ahead) {
        let Some(corner) = corner(vertices, word) else {
            return Ok(false);
        };
        if !named.insert(corner)? {
            return Ok(false);
        }
        corners.push(corner)?;
        ahead = behind;
    }
    Ok(3 <= corners.len() - start)
}

fn add_face(alloc: Global, line: u32, rest: &[u8], mesh: &mut ObjMesh) -> Result<(), ObjFault>
    requires words { length rest.now ≤ 2 ^ 31 }
    requires places { length mesh.old.places < 2 ^ 32 }
    ensures ok { OnOk result (with_face line mesh.old (face (length mesh.old.places) (words rest.now)) ≡ Ok mesh.new) }
    ensures err { IfErr result (λ fault. IsFaultOf (with_face line mesh.old (face (length mesh.old.places) (words rest.now))) fault) }
{
    let start = mesh.corners.len();
    let vertices = mesh.places.len() as u32;
    if !push_face(alloc, vertices, rest, &mut mesh.corners)? {
        return Err(ObjFault::BadFace { line });
    }
    mesh.sizes.push((mesh.corners.len() - start) as u32)?;
    Ok(())
}

// ---- lines

fn add_words(
    alloc: Global,
    line: u32,
    word: &[u8],
    rest: &[u8],
    mesh: &mut ObjMesh,
) -> Result<(), ObjFault>
    requires words { length rest.now ≤ 2 ^ 31 }
    requires places { length mesh.old.places < 2 ^ 32 }
    ensures ok { OnOk result (with_words line mesh.old (word.now ∷ words rest.now) ≡ Ok mesh.new) }
    ensures err { IfErr result (λ fault. IsFaultOf (with_words line mesh.old (word.now ∷ words rest.now)) fault) }
{
    if word == b"v".as_slice() {
        add_vertex(line, rest, mesh)
    } else if word == b"f".as_slice() {
        add_face(alloc, line, rest, mesh)
    } else {
        Ok(())
    }
}

fn add_line(alloc: Global, number: u32, line: &[u8], mesh: &mut ObjMesh) -> Result<(), ObjFault>
    requires line { length line.now ≤ 2 ^ 31 }
    requires places { length mesh.old.places < 2 ^ 32 }
    ensures ok { OnOk result (with_line (number, line.now) mesh.old ≡ Ok mesh.new) }
    ensures err { IfErr result (λ fault. IsFaultOf (with_line (number, line.now) mesh.old) fault) }
    ensures few { OnOk result (3 * length mesh.new.places ≤ 3 * length mesh.old.places + length line.now) }
{
    match next_word(without_return(line)) {
        Some((word, rest)) => add_words(alloc, number, word, rest, mesh),
        None => Ok(()),
    }
}

fn no_mesh(alloc: Global) -> ObjMesh
    ensures { result ≡ no_mesh }
{
    ObjMesh {
        places: List::new(alloc),
        sizes: List::new(alloc),
        corners: List::new(alloc),
    }
}

/// Reads a mesh. A line whose first word is `v` has three decimals, in metres, and one whose first
/// word is `f` at least three different vertices of the lines before it, counted from 1, or from the
/// last back with a minus. What stands behind the three decimals, or behind a `/` in a vertex of a
/// face, is read past, and so are all other lines.
/// The fault is that of the first bad line, or want of memory.
#[tactic(auto, using(crate::proofs::ReadLemmas::read_begins))]
pub fn read_obj(alloc: Global, text: &[u8]) -> Result<ObjMesh, ObjFault>
    requires { length text.now ≤ 2 ^ 31 }
    ensures ok { IfOk result (λ mesh. read text.now ≡ Ok mesh) }
    ensures err { IfErr result (λ fault. IsFaultOf (read text.now) fault) }
    ensures mesh { IfOk result IsMesh }
    ensures few { IfOk result (λ mesh. length mesh.places < 10 ^ 9) }
{
    let mut mesh = no_mesh(alloc);
    let mut rest = text;
    let mut number = 1;
    loop {
        let (line, behind) = first_line(rest);
        add_line(alloc, number, line, &mut mesh)?;
        match behind {
            Some(next) => rest = next,
            None => return Ok(mesh),
        }
        number += 1;
    }
}
