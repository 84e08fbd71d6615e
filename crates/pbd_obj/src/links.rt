//! The particles and links of a mesh.
ghost use Rattle.std.specs.Prelude.{◌≡◌, ◌+◌, ◌-◌, ◌^◌, ◌<◌, ◌≤◌, ◌++◌, pos, [], ◌∷◌, length, map, take, replicate, All, IfOk, IfErr, IfSome, OnOk, OnErr, Ok, IsTrue, slice_set, slice_index};
ghost use Rattle.pbd_num.specs.declared.Vec3.{Vec3};
ghost use Rattle.pbd_world.specs.declared.parts.Particle.{Particle};
ghost use Rattle.pbd_world.specs.declared.parts.Link.{Link};
ghost use Rattle.pbd_world.specs.Valid.{is_valid};
ghost use Rattle.pbd_mesh.specs.Appending.{WithFront};
ghost use Rattle.pbd_obj.specs.Meshes.{IsMesh};
ghost use Rattle.pbd_obj.specs.MeshLinks.{at_rest, diagonal_links, face_links, first_overfull, kind_links, link, mesh_links, particles, ring_links, with_all, with_mesh, with_mesh_as};
ghost use Rattle.pbd_obj.specs.Reading.{IsFaultOf};
ghost use Rattle.pbd_obj.specs.Nets.{counted_end, ordered, Adds, AreFew, CountsLink, FitsNet, HoldsJoined, IsFrom, IsFullAt, IsLinkFrom, IsStopped, Names};

use crate::settings::{LinkSettings, MeshSettings};
use crate::{ObjFault, ObjMesh};
use pbd_mesh::resting;
use pbd_num::{Vec3, distance};
use pbd_world::{Kind, Link, List, MOST_AT_PARTICLE, MOST_LINKS, MOST_PARTICLES, Particle, Parts};
use std::alloc::{AllocError, Global};
use std::collections::BTreeSet;

const MOST_AT_ONE: u32 = MOST_AT_PARTICLE as u32;

/// Links that are found one by one, each once.
#[derive(Drop)]
pub struct FoundLinks {
    /// The particle of the first vertex.
    pub(crate) base: u32,
    /// How many links there may be.
    room: usize,
    links: List<Link>,
    /// The pairs of particles that they join, the smaller number first.
    joined: BTreeSet<(u32, u32)>,
}

impl FoundLinks {
    /// The link of two vertices, at the length between them.
    #[tactic(auto, unfolding(crate::specs::MeshLinks::link))]
    pub(crate) fn link(
        &self,
        mesh: &ObjMesh,
        kind: Kind,
        settings: LinkSettings,
        ends: (u32, u32),
    ) -> Link
        requires mesh { FitsNet mesh.now self.now.base }
        requires a { ends.0 < length mesh.now.places }
        requires b { ends.1 < length mesh.now.places }
        ensures { result ≡ link mesh.now self.now.base kind settings ends }
    {
        let places = mesh.places.as_slice();
        Link {
            a: self.base + ends.0,
            b: self.base + ends.1,
            rest: distance(places[ends.0 as usize], places[ends.1 as usize]),
            k: settings.stiffness,
            tear: settings.tear,
            kind,
            live: true,
        }
    }
}

#[tactic(auto, unfolding(crate::specs::Nets::ordered))]
fn ordered(a: u32, b: u32) -> (u32, u32)
    ensures { result ≡ ordered a b }
{
    (a.min(b), a.max(b))
}

/// Adds a link, unless one before it joins its particles.
pub(crate) fn add(found: &mut FoundLinks, link: Link) -> Result<(), ObjFault>
    requires { HoldsJoined found.old }
    ensures ok { OnOk result (Adds (link ∷ []) found.old found.new) }
    ensures err { IfErr result (λ fault. IsStopped (link ∷ []) found.old fault) }
{
    if !found.joined.insert(ordered(link.a, link.b))? {
        return Ok(());
    }
    if found.links.len() >= found.room {
        return Err(ObjFault::TooMany);
    }
    found.links.push(link)?;
    Ok(())
}

/// Links each corner to the next, and the last to the first.
fn add_ring(
    mesh: &ObjMesh,
    settings: LinkSettings,
    face: &[u32],
    found: &mut FoundLinks,
) -> Result<(), ObjFault>
    requires mesh { FitsNet mesh.now found.old.base }
    requires joined { HoldsJoined found.old }
    requires face { Names mesh.now face.now }
    ensures ok { OnOk result (Adds (ring_links mesh.now found.old.base settings face.now) found.old found.new) }
    ensures err { IfErr result (λ fault. IsStopped (ring_links mesh.now found.old.base settings face.now) found.old fault) }
{
    for i in 0..face.len() {
        let ends = (face[i], face[(i + 1) % face.len()]);
        let side = found.link(mesh, Kind::Stretch, settings, ends);
        add(found, side)?;
    }
    Ok(())
}

/// Links both diagonals of a face with four corners.
fn add_diagonals(
    mesh: &ObjMesh,
    settings: LinkSettings,
    face: &[u32],
    found: &mut FoundLinks,
) -> Result<(), ObjFault>
    requires mesh { FitsNet mesh.now found.old.base }
    requires joined { HoldsJoined found.old }
    requires face { Names mesh.now face.now }
    ensures ok { OnOk result (Adds (diagonal_links mesh.now found.old.base settings face.now) found.old found.new) }
    ensures err { IfErr result (λ fault. IsStopped (diagonal_links mesh.now found.old.base settings face.now) found.old fault) }
{
    if face.len() != 4 {
        return Ok(());
    }
    let first = found.link(mesh, Kind::Shear, settings, (face[0], face[2]));
    let second = found.link(mesh, Kind::Shear, settings, (face[1], face[3]));
    add(found, first)?;
    add(found, second)
}

impl MeshSettings {
    /// Adds the links of a kind that a face has of itself.
    fn add_face(
        &self,
        mesh: &ObjMesh,
        kind: Kind,
        face: &[u32],
        found: &mut FoundLinks,
    ) -> Result<(), ObjFault>
        requires mesh { FitsNet mesh.now found.old.base }
        requires joined { HoldsJoined found.old }
        requires face { Names mesh.now face.now }
        ensures ok { OnOk result (Adds (face_links self.now mesh.now found.old.base kind face.now) found.old found.new) }
        ensures err { IfErr result (λ fault. IsStopped (face_links self.now mesh.now found.old.base kind face.now) found.old fault) }
    {
        match kind {
            Kind::Stretch => add_ring(mesh, self.stretch, face, found),
            Kind::Shear => add_diagonals(mesh, self.shear, face, found),
            Kind::Bend | Kind::Plain => Ok(()),
        }
    }
}

fn add_kind(
    mesh: &ObjMesh,
    settings: &MeshSettings,
    kind: Kind,
    found: &mut FoundLinks,
) -> Result<(), ObjFault>
    requires mesh { IsMesh mesh.now }
    requires fits { FitsNet mesh.now found.old.base }
    requires joined { HoldsJoined found.old }
    ensures ok { OnOk result (Adds (kind_links settings.now mesh.now found.old.base kind) found.old found.new) }
    ensures err { IfErr result (λ fault. IsStopped (kind_links settings.now mesh.now found.old.base kind) found.old fault) }
{
    let sizes = mesh.sizes.as_slice();
    let mut rest = mesh.corners.as_slice();
    for size in sizes {
        let (face, behind) = rest.split_at(*size as usize);
        settings.add_face(mesh, kind, face, found)?;
        rest = behind;
    }
    Ok(())
}

/// The links of a mesh whose first vertex is particle `base`. `TooMany` comes only where there are
/// more than `room`.
#[tactic(auto, unfolding(crate::specs::MeshLinks::mesh_links))]
fn mesh_links(
    alloc: Global,
    mesh: &ObjMesh,
    settings: &MeshSettings,
    base: u32,
    room: usize,
) -> Result<List<Link>, ObjFault>
    requires mesh { IsMesh mesh.now }
    requires fits { FitsNet mesh.now base }
    ensures links { IfOk result (λ links. links ≡ mesh_links settings.now mesh.now base) }
    ensures few { IfOk result (λ links. length links ≤ room) }
    ensures err { IfErr result (λ fault. IsFullAt (mesh_links settings.now mesh.now base) room fault) }
{
    let mut found = FoundLinks {
        base,
        room,
        links: List::new(alloc),
        joined: BTreeSet::new(alloc),
    };
    add_kind(mesh, settings, Kind::Stretch, &mut found)?;
    add_kind(mesh, settings, Kind::Shear, &mut found)?;
    settings.add_bends(alloc, mesh, &mut found)?;
    let FoundLinks { links, .. } = found;
    Ok(links)
}

// ---- how many are at a particle

/// The end of a link at which there are 32 already.
fn counted_end(base: u32, link: &Link, counts: &[u32]) -> Option<u32>
    requires { IsLinkFrom base (length counts.now) link.now }
    ensures { result ≡ counted_end base counts.now link.now }
{
    if counts[(link.a - base) as usize] == MOST_AT_ONE {
        Some(link.a)
    } else if counts[(link.b - base) as usize] == MOST_AT_ONE {
        Some(link.b)
    } else {
        None
    }
}

fn no_counts(alloc: Global, count: usize) -> Result<Vec<u32>, AllocError>
    ensures { IfOk result (λ counts. counts.items ≡ replicate count 0) }
{
    vec![in alloc; 0; count]
}

fn add_one(index: u32, counts: &mut Vec<u32>)
    requires index { index < length counts.old.items }
    requires fits { slice_index counts.old.items index < 2 ^ 31 }
    ensures { counts.new.items ≡ slice_set counts.old.items index (slice_index counts.old.items index + 1) }
{
    counts[index as usize] += 1;
}

/// Counts a link at both its ends.
fn count(base: u32, link: &Link, counts: &mut Vec<u32>)
    requires link { IsLinkFrom base (length counts.old.items) link.now }
    requires few { AreFew counts.old.items }
    ensures { CountsLink base link.now counts.old.items counts.new.items }
{
    add_one(link.a - base, counts);
    add_one(link.b - base, counts);
}

/// The first particle at which a link is the 33rd.
#[tactic(auto, using(crate::proofs::AddLemmas::counts_begin))]
fn first_overfull(
    alloc: Global,
    base: u32,
    vertices: usize,
    links: &[Link],
) -> Result<Option<u32>, AllocError>
    requires { All (IsLinkFrom base vertices) links.now }
    ensures first { IfOk result (λ end. end ≡ first_overfull [] links.now) }
    ensures within { IfOk result (λ end. IfSome end (IsFrom base vertices)) }
{
    let mut counts = no_counts(alloc, vertices)?;
    for link in links {
        if let Some(end) = counted_end(base, link, counts.as_slice()) {
            return Ok(Some(end));
        }
        count(base, link, &mut counts);
    }
    Ok(None)
}

// ---- a scene and a mesh

#[tactic(auto, using(crate::proofs::AddLemmas::pushed_begin, crate::proofs::AddLemmas::pushed_next, crate::proofs::AddLemmas::pushed_all, pbd_mesh::proofs::Growing::front_of_append))]
fn push_particles(
    places: &[Vec3],
    weight: u16,
    particles: &mut List<Particle>,
) -> Result<(), AllocError>
    ensures ok { OnOk result (particles.new ≡ particles.old ++ map {A = Vec3} {B = Particle} (at_rest weight) places.now) }
    ensures err { OnErr result (take (length particles.old) particles.new ≡ particles.old) }
{
    for place in places {
        particles.push(resting(*place, weight))?;
    }
    Ok(())
}

#[tactic(auto, using(crate::proofs::AddLemmas::copied_begin, crate::proofs::AddLemmas::copied_next, pbd_mesh::proofs::Growing::front_of_append))]
fn push_links(new: &[Link], links: &mut List<Link>) -> Result<(), AllocError>
    ensures ok { OnOk result (links.new ≡ links.old ++ new.now) }
    ensures err { OnErr result (take (length links.old) links.new ≡ links.old) }
{
    for link in new {
        links.push(*link)?;
    }
    Ok(())
}

fn push_all(
    mesh: &ObjMesh,
    weight: u16,
    links: &[Link],
    parts: &mut Parts,
) -> Result<(), AllocError>
    ensures ok { OnOk result (parts.new ≡ with_all (particles weight mesh.now) links.now parts.old) }
    ensures err { OnErr result (WithFront parts.old parts.new) }
{
    push_particles(mesh.places.as_slice(), weight, &mut parts.particles)?;
    push_links(links, &mut parts.links)
}

/// Pushes the particles and links, or leaves the parts as they were.
fn append(mesh: &ObjMesh, weight: u16, links: &[Link], parts: &mut Parts) -> Result<(), AllocError>
    ensures ok { OnOk result (parts.new ≡ with_all (particles weight mesh.now) links.now parts.old) }
    ensures err { OnErr result (parts.new ≡ parts.old) }
{
    let particles_before = parts.particles.len();
    let links_before = parts.links.len();
    let pushed = push_all(mesh, weight, links, parts);
    if pushed.is_err() {
        parts.particles.truncate(particles_before);
        parts.links.truncate(links_before);
    }
    pushed
}

/// Appends the vertices of a mesh as free particles at rest, and links them, no two of them twice:
/// along the sides of each face, across each face with four corners, and if there are settings for it
/// what faces each other across each edge that exactly two faces share. After a fault the parts are as
/// before. `TooMany` comes before `TooManyAtParticle`, which names the vertex of the first link that is
/// the 33rd there.
#[tactic(auto, unfolding(crate::specs::MeshLinks::with_mesh_as))]
pub fn add_mesh_with(
    alloc: Global,
    mesh: &ObjMesh,
    settings: &MeshSettings,
    parts: &mut Parts,
) -> Result<(), ObjFault>
    requires mesh { IsMesh mesh.now }
    requires valid { IsTrue (is_valid parts.old) }
    requires limit { parts.old.limit ≡ pos 536870912 }
    ensures ok { OnOk result (with_mesh_as settings.now mesh.now parts.old ≡ Ok parts.new) }
    ensures err { IfErr result (λ fault. IsFaultOf (with_mesh_as settings.now mesh.now parts.old) fault) }
    ensures kept { OnErr result (parts.new ≡ parts.old) }
{
    let base = parts.particles.len();
    let vertices = mesh.places.len();
    if vertices > MOST_PARTICLES - base {
        return Err(ObjFault::TooMany);
    }
    let room = MOST_LINKS - parts.links.len();
    let links = mesh_links(alloc, mesh, settings, base as u32, room)?;
    if let Some(end) = first_overfull(alloc, base as u32, vertices, links.as_slice())? {
        let vertex = end - base as u32 + 1;
        return Err(ObjFault::TooManyAtParticle { vertex });
    }
    append(mesh, settings.weight, links.as_slice(), parts)?;
    Ok(())
}

/// The same with the settings of the form `obj`: weight 1, links of stiffness 256 that never tear, and no bend links.
#[tactic(auto, unfolding(crate::specs::MeshLinks::with_mesh))]
pub fn add_mesh(alloc: Global, mesh: &ObjMesh, parts: &mut Parts) -> Result<(), ObjFault>
    requires mesh { IsMesh mesh.now }
    requires valid { IsTrue (is_valid parts.old) }
    requires limit { parts.old.limit ≡ pos 536870912 }
    ensures ok { OnOk result (with_mesh mesh.now parts.old ≡ Ok parts.new) }
    ensures err { IfErr result (λ fault. IsFaultOf (with_mesh mesh.now parts.old) fault) }
    ensures kept { OnErr result (parts.new ≡ parts.old) }
{
    add_mesh_with(alloc, mesh, &MeshSettings::stiff(), parts)
}
