//! The links across the edges that two faces share.
ghost use Rattle.std.specs.Prelude.{◌≡◌, ◌<◌, length, All, IfErr, IfOk, OnOk};
ghost use Rattle.pbd_obj.specs.declared.mesh.ObjFault.TheVariants.{OutOfMemory};
ghost use Rattle.pbd_obj.specs.Meshes.{IsMesh};
ghost use Rattle.pbd_obj.specs.Facing.{apart, facing, IsEdgeOf};
ghost use Rattle.pbd_obj.specs.SharedEdges.{across_shared, with_one, HoldsShared, Notes, SharesWithin};
ghost use Rattle.pbd_obj.specs.MeshLinks.{bend_links, bends};
ghost use Rattle.pbd_obj.specs.Nets.{Adds, FitsNet, HoldsJoined, IsStopped};

use crate::edges::{Edge, edges_of};
use crate::links::{FoundLinks, add};
use crate::settings::{LinkSettings, MeshSettings};
use crate::{ObjFault, ObjMesh};
use pbd_world::Kind;
use std::alloc::Global;
use std::collections::BTreeMap;

/// How many faces share an edge, with the edge of each where they are two at most.
#[derive(Clone, Copy)]
pub enum Sharing {
    One(Edge),
    Two(Edge, Edge),
    More,
}

/// The faces that share each edge, by its ends.
type SharedEdges = BTreeMap<(u32, u32), Sharing>;

fn with_one(known: Option<Sharing>, edge: Edge) -> Sharing
    ensures { result ≡ with_one known edge }
{
    match known {
        None => Sharing::One(edge),
        Some(Sharing::One(first)) => Sharing::Two(first, edge),
        Some(Sharing::Two(..) | Sharing::More) => Sharing::More,
    }
}

/// Counts one more face at an edge.
fn note(edge: Edge, shared: &mut SharedEdges) -> Result<(), ObjFault>
    ensures ok { OnOk result (Notes edge shared.old shared.new) }
    ensures err { IfErr result (λ fault. fault ≡ OutOfMemory) }
{
    let ends = (edge.low, edge.high);
    let known = with_one(shared.get(&ends).copied(), edge);
    shared.insert(ends, known)?;
    Ok(())
}

fn shared_edges(alloc: Global, edges: &[Edge]) -> Result<SharedEdges, ObjFault>
    ensures ok { IfOk result (λ shared. HoldsShared edges.now shared) }
    ensures err { IfErr result (λ fault. fault ≡ OutOfMemory) }
{
    let mut shared = BTreeMap::new(alloc);
    for edge in edges {
        note(*edge, &mut shared)?;
    }
    Ok(shared)
}

/// Links two corners, unless they are one.
fn add_pair(
    mesh: &ObjMesh,
    settings: LinkSettings,
    ends: (u32, u32),
    found: &mut FoundLinks,
) -> Result<(), ObjFault>
    requires mesh { FitsNet mesh.now found.old.base }
    requires joined { HoldsJoined found.old }
    requires a { ends.0 < length mesh.now.places }
    requires b { ends.1 < length mesh.now.places }
    ensures ok { OnOk result (Adds (bends mesh.now found.old.base settings (apart ends)) found.old found.new) }
    ensures err { IfErr result (λ fault. IsStopped (bends mesh.now found.old.base settings (apart ends)) found.old fault) }
{
    if ends.0 == ends.1 {
        return Ok(());
    }
    let bend = found.link(mesh, Kind::Bend, settings, ends);
    add(found, bend)
}

/// Links what faces each other across an edge.
fn add_across(
    mesh: &ObjMesh,
    settings: LinkSettings,
    known: Option<Sharing>,
    found: &mut FoundLinks,
) -> Result<(), ObjFault>
    requires mesh { FitsNet mesh.now found.old.base }
    requires joined { HoldsJoined found.old }
    requires within { SharesWithin (length mesh.now.places) known }
    ensures ok { OnOk result (Adds (bends mesh.now found.old.base settings (across_shared known)) found.old found.new) }
    ensures err { IfErr result (λ fault. IsStopped (bends mesh.now found.old.base settings (across_shared known)) found.old fault) }
{
    match known {
        Some(Sharing::Two(first, second)) => {
            let low = (first.beside_low, second.beside_low);
            let high = (first.beside_high, second.beside_high);
            add_pair(mesh, settings, low, found)?;
            add_pair(mesh, settings, high, found)
        }
        None | Some(Sharing::One(_) | Sharing::More) => Ok(()),
    }
}

/// The edges of the faces of a mesh, one after another, and which of them are one.
#[derive(Drop)]
struct MeshEdges<'a> {
    edges: &'a [Edge],
    shared: &'a SharedEdges,
}

fn add_facing(
    mesh: &ObjMesh,
    settings: LinkSettings,
    all: &MeshEdges<'_>,
    found: &mut FoundLinks,
) -> Result<(), ObjFault>
    requires mesh { FitsNet mesh.now found.old.base }
    requires joined { HoldsJoined found.old }
    requires within { All (IsEdgeOf (length mesh.now.places)) all.now.edges.now }
    requires shared { HoldsShared all.now.edges.now all.now.shared.now }
    ensures ok { OnOk result (Adds (bends mesh.now found.old.base settings (facing all.now.edges.now)) found.old found.new) }
    ensures err { IfErr result (λ fault. IsStopped (bends mesh.now found.old.base settings (facing all.now.edges.now)) found.old fault) }
{
    for edge in all.edges {
        let known = all.shared.get(&(edge.low, edge.high)).copied();
        add_across(mesh, settings, known, found)?;
    }
    Ok(())
}

impl MeshSettings {
    /// Adds bend links, if there are to be some.
    pub(crate) fn add_bends(
        &self,
        alloc: Global,
        mesh: &ObjMesh,
        found: &mut FoundLinks,
    ) -> Result<(), ObjFault>
        requires mesh { IsMesh mesh.now }
        requires fits { FitsNet mesh.now found.old.base }
        requires joined { HoldsJoined found.old }
        ensures ok { OnOk result (Adds (bend_links self.now mesh.now found.old.base) found.old found.new) }
        ensures err { IfErr result (λ fault. IsStopped (bend_links self.now mesh.now found.old.base) found.old fault) }
    {
        let Some(bend) = self.bend else {
            return Ok(());
        };
        let edges = edges_of(alloc, mesh)?;
        let shared = shared_edges(alloc, edges.as_slice())?;
        let all = MeshEdges {
            edges: edges.as_slice(),
            shared: &shared,
        };
        add_facing(mesh, bend, &all, found)
    }
}
