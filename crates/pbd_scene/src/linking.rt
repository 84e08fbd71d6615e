// The links of the `[[link]]` entries, once all particles are known.
ghost use Rattle.std.specs.Prelude.{◌≡◌, ◌≤◌, ◌<◌, ◌^◌, [], length, slice_index_or, unwrap_or, IfOk};
ghost use Rattle.std.specs.List.{All};
ghost use Rattle.pbd_num.specs.Vectors.{Within};
ghost use Rattle.pbd_world.specs.Neighbours.{HoldsNeighbours};
ghost use Rattle.pbd_scene.specs.Checks.{Gives};
ghost use Rattle.pbd_scene.specs.Naming.{particle_number, plain_link, room_for_link, entry_link, length_between, all_links};

use crate::fault::{Place, SceneFault, SceneRule};
use crate::raw::LinkEntry;
use crate::tables::{KeyName, TableName};
use crate::values::broken;
use pbd_num::distance;
use pbd_world::{Kind, Link, List, MOST_AT_PARTICLE, MOST_LINKS, NeighbourLists, Particle};
use std::alloc::Global;

/// A number that names one of `count` particles.
#[tactic(auto, unfolding(crate::specs::Naming::particle_number))]
pub fn particle_number(count: u32, place: Place, key: KeyName, n: i64) -> Result<u32, SceneFault>
    ensures number { Gives (λ n. n) result (particle_number count place key n) }
    ensures low { IfOk result (λ n. n < count) }
{
    if 0 <= n && n < count as i64 {
        Ok(n as u32)
    } else {
        broken(SceneRule::BadIndex, place, key)
    }
}

/// The rest that is given, or the distance of two particles.
#[tactic(auto, unfolding(crate::specs::Naming::length_between))]
fn rest_of(particles: &[Particle], a: u32, b: u32, rest: Option<i64>) -> i64
    requires places { All (λ p. Within (2 ^ 29) p.at) particles.now }
    requires a { a < length particles.now }
    requires b { b < length particles.now }
    ensures { result ≡ unwrap_or rest (length_between particles.now a b) }
{
    match rest {
        Some(rest) => rest,
        None => distance(particles[a as usize].at, particles[b as usize].at),
    }
}

#[tactic(auto, unfolding(crate::specs::Naming::plain_link))]
fn plain_link(a: u32, b: u32, rest: i64, l: LinkEntry) -> Link
    ensures { result ≡ plain_link a b rest l }
{
    Link {
        a,
        b,
        rest,
        k: l.k,
        tear: l.tear,
        kind: Kind::Plain,
        live: true,
    }
}

/// Refuses a link from `a` to `b` that is a double, or the 33rd at one of them.
#[tactic(auto, unfolding(crate::specs::Naming::room_for_link))]
fn room_for_link(place: Place, lists: &NeighbourLists, a: u32, b: u32) -> Result<(), SceneFault>
    requires a { a < length lists.now }
    requires b { b < length lists.now }
    ensures { Gives (λ x. x) result (room_for_link place b (slice_index_or lists.now a []) (slice_index_or lists.now b [])) }
{
    let is_new = !lists.are_linked(a, b);
    place.expect(is_new, SceneRule::DoubleLink, KeyName::NoKey)?;
    let has_room = lists.at(a).len() < MOST_AT_PARTICLE;
    place.expect(has_room, SceneRule::TooManyAtParticle, KeyName::A)?;
    let has_room = lists.at(b).len() < MOST_AT_PARTICLE;
    place.expect(has_room, SceneRule::TooManyAtParticle, KeyName::B)
}

/// The links so far, and for each particle the other ends of those at it.
#[derive(Drop)]
struct LinksSoFar<'a> {
    links: &'a [Link],
    lists: &'a NeighbourLists,
}

/// The link of an entry, where `position` entries and these links stand before it.
#[tactic(auto, unfolding(crate::specs::Naming::entry_link))]
fn entry_link(
    particles: &[Particle],
    position: u32,
    so_far: &LinksSoFar<'_>,
    l: LinkEntry,
) -> Result<Link, SceneFault>
    requires few { length particles.now ≤ 65536 }
    requires places { All (λ p. Within (2 ^ 29) p.at) particles.now }
    requires lists { HoldsNeighbours (length particles.now) so_far.now.links.now so_far.now.lists.now }
    ensures { Gives (λ l. l) result (entry_link particles.now position so_far.now.links.now l) }
{
    let place = Place {
        table: TableName::Link,
        position,
    };
    let count = particles.len() as u32;
    let has_room = so_far.links.len() < MOST_LINKS;
    place.expect(has_room, SceneRule::TooMany, KeyName::NoKey)?;
    let a = particle_number(count, place, KeyName::A, l.a)?;
    let b = particle_number(count, place, KeyName::B, l.b)?;
    place.expect(a != b, SceneRule::SelfLink, KeyName::NoKey)?;
    room_for_link(place, so_far.lists, a, b)?;
    Ok(plain_link(a, b, rest_of(particles, a, b, l.rest), l))
}

/// Adds the links of the entries to those of the meshes, or answers the first rule that an entry breaks, unless memory runs out.
pub fn add_links(
    alloc: Global,
    particles: &[Particle],
    entries: &[LinkEntry],
    links: &mut List<Link>,
) -> Result<(), SceneFault>
    requires few { length particles.now ≤ 65536 }
    requires places { All (λ p. Within (2 ^ 29) p.at) particles.now }
    requires entries { length entries.now ≤ 524288 }
    ensures { Gives (λ _. links.new) result (all_links particles.now links.old entries.now) }
{
    let mut lists = NeighbourLists::of(alloc, particles.len(), links.as_slice())?;
    for (i, entry) in entries.iter().enumerate() {
        let so_far = LinksSoFar {
            links: links.as_slice(),
            lists: &lists,
        };
        let link = entry_link(particles, i as u32, &so_far, *entry)?;
        lists.add(&link)?;
        links.push(link)?;
    }
    Ok(())
}
