// Whether each link of a scene stands alone, and each track has a particle of its own.
ghost use Rattle.std.specs.Prelude.{◌≡◌, ◌<◌, [], All, IfOk, false, replicate, slice_index_or, length};
ghost use Rattle.pbd_world.specs.Neighbours.{AreJoined, is_room_for, stand_alone, name_apart};

use crate::limits::MOST_AT_PARTICLE;
use crate::neighbours::NeighbourLists;
use crate::parts::{Link, Track};
use std::alloc::{AllocError, Global};

// ---- links

/// Whether there is room for a link: it is no double, and at most the 32nd at each of its ends.
#[tactic(auto, unfolding(crate::specs::Neighbours::is_room_for))]
fn has_room(link: &Link, lists: &NeighbourLists) -> bool
    requires { AreJoined (length lists.now) link.now }
    ensures { result ≡ is_room_for link.now.b (slice_index_or lists.now link.now.a []) (slice_index_or lists.now link.now.b []) }
{
    lists.at(link.a).len() < MOST_AT_PARTICLE
        && lists.at(link.b).len() < MOST_AT_PARTICLE
        && !lists.are_linked(link.a, link.b)
}

/// Whether at most one link joins two particles, and at most 32 are at each of `count` particles.
/// Takes time and memory in proportion to particles and links.
#[tactic(auto, using(crate::proofs::ApartLemmas::alone_begins))]
pub fn stand_alone(alloc: Global, count: usize, links: &[Link]) -> Result<bool, AllocError>
    requires { All (AreJoined count) links.now }
    ensures { IfOk result (λ alone. alone ≡ stand_alone count links.now) }
{
    let mut lists = NeighbourLists::new(alloc, count)?;
    for link in links {
        if !has_room(link, &lists) {
            return Ok(false);
        }
        lists.add(link)?;
    }
    Ok(true)
}

// ---- tracks

fn no_flags(alloc: Global, count: usize) -> Result<Vec<bool>, AllocError>
    ensures { IfOk result (λ flags. flags.items ≡ replicate count false) }
{
    vec![in alloc; false; count]
}

/// Whether no two tracks name one particle.
pub fn name_apart(alloc: Global, count: usize, tracks: &[Track]) -> Result<bool, AllocError>
    requires { All (λ t. t.particle < count) tracks.now }
    ensures { IfOk result (λ apart. apart ≡ name_apart tracks.now) }
{
    let mut flags = no_flags(alloc, count)?;
    for track in tracks {
        let i = track.particle as usize;
        if flags[i] {
            return Ok(false);
        }
        flags[i] = true;
    }
    Ok(true)
}
