// Whether parts are a scene.
ghost use Rattle.std.specs.Prelude.{◌≡◌, ◌≤◌, ◌^◌, pos, ◌≤ℤ◌, unsigned_abs, IfOk};
ghost use Rattle.pbd_world.specs.Valid.{are_valid_links, are_valid_tracks, is_well_formed, is_valid};

use crate::joined::{name_apart, stand_alone};
use crate::limits::{MOST_LINKS, MOST_TRACKS};
use crate::parts::{Link, Parts, Track};
use crate::single::{
    all_links, all_tracks, are_held_at_rest, are_live, are_tracked_held, are_valid_numbers,
    are_valid_particles, are_valid_shapes, is_limit,
};
use pbd_num::within;
use std::alloc::{AllocError, Global};

#[tactic(auto, using(crate::proofs::WholeLemmas::links_joined, crate::proofs::WholeLemmas::links_alone, crate::proofs::WholeLemmas::links_broken))]
fn are_valid_links(
    alloc: Global,
    limit: i64,
    count: usize,
    links: &[Link],
) -> Result<bool, AllocError>
    requires low { pos 0 ≤ℤ limit }
    requires high { unsigned_abs limit ≤ 2 ^ 29 }
    ensures { IfOk result (λ valid. valid ≡ are_valid_links limit count links.now) }
{
    if links.len() > MOST_LINKS || !all_links(limit, count, links) {
        return Ok(false);
    }
    stand_alone(alloc, count, links)
}

#[tactic(auto, using(crate::proofs::WholeLemmas::tracks_among, crate::proofs::WholeLemmas::tracks_apart, crate::proofs::WholeLemmas::tracks_broken))]
fn are_valid_tracks(
    alloc: Global,
    limit: i64,
    count: usize,
    tracks: &[Track],
) -> Result<bool, AllocError>
    requires low { pos 0 ≤ℤ limit }
    requires high { unsigned_abs limit ≤ 2 ^ 29 }
    ensures { IfOk result (λ valid. valid ≡ are_valid_tracks limit count tracks.now) }
{
    if tracks.len() > MOST_TRACKS || !all_tracks(limit, count, tracks) {
        return Ok(false);
    }
    name_apart(alloc, count, tracks)
}

/// All that is asked of parts but what is held, at rest and live.
#[tactic(auto, unfolding(crate::specs::Valid::is_well_formed), using(crate::proofs::WholeLemmas::limit_low, crate::proofs::WholeLemmas::limit_high))]
fn is_well_formed(alloc: Global, parts: &Parts) -> Result<bool, AllocError>
    ensures { IfOk result (λ valid. valid ≡ is_well_formed parts.now) }
{
    let limit = parts.limit;
    let particles = parts.particles.as_slice();
    if !is_limit(limit) || !are_valid_particles(limit, particles) {
        return Ok(false);
    }
    let count = particles.len();
    let links = are_valid_links(alloc, limit, count, parts.links.as_slice())?;
    let tracks = are_valid_tracks(alloc, limit, count, parts.tracks.as_slice())?;
    Ok(
        links
            && are_valid_shapes(limit, parts)
            && tracks
            && within(parts.gravity, limit)
            && are_valid_numbers(parts),
    )
}

#[tactic(auto, unfolding(crate::specs::Valid::is_valid))]
pub fn is_valid(alloc: Global, parts: &Parts) -> Result<bool, AllocError>
    ensures { IfOk result (λ valid. valid ≡ is_valid parts.now) }
{
    let formed = is_well_formed(alloc, parts)?;
    let particles = parts.particles.as_slice();
    Ok(
        formed
            && are_live(parts.links.as_slice())
            && are_held_at_rest(particles)
            && are_tracked_held(parts.tracks.as_slice(), particles),
    )
}
