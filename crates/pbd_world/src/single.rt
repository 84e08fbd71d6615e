// Whether the single parts of a scene are in their ranges.
ghost use Rattle.std.specs.Prelude.{◌≡◌, ◌≤◌, ◌==◌, ◌&&◌, ◌||◌, not, ◌^◌, nat_lt, pos, ◌≤ℤ◌, ◌*ℤ◌, unsigned_abs};
ghost use Rattle.std.specs.List.{list_all};
ghost use Rattle.pbd_world.specs.Valid.{is_between, is_limit, is_valid_particle, are_valid_particles, is_valid_link, are_valid_keys, is_valid_track, are_valid_numbers, is_at_rest, is_next_key, are_tracked_held};
ghost use Rattle.pbd_world.specs.Shapes.{shapes_in, is_valid_plane, are_valid_planes, is_reach_within, is_valid_sphere, are_valid_spheres, are_valid_shapes};
ghost use Rattle.pbd_world.specs.Particles.{particle_at};

use crate::limits::{LAST_STEP, MOST_PARTICLES, MOST_THICKNESS, OLD_RANGE};
use crate::parts::{Key, Link, Particle, Parts, Plane, Sphere, Track};
use pbd_num::{RANGE, Vec3, within};

fn is_between(low: i64, high: i64, n: i64) -> bool
    ensures { result ≡ is_between low high n }
{
    low <= n && n <= high
}

/// 2^28 or 2^29.
pub fn is_limit(n: i64) -> bool
    ensures { result ≡ is_limit n }
{
    n == OLD_RANGE || n == RANGE
}

// ---- particles

fn is_valid_particle(limit: i64, p: &Particle) -> bool
    requires low { pos 0 ≤ℤ limit }
    requires high { unsigned_abs limit ≤ 2 ^ 29 }
    ensures { result ≡ is_valid_particle limit p.now }
{
    within(p.at, limit) && within(p.before, limit) && 1 <= p.weight
}

fn all_particles(limit: i64, particles: &[Particle]) -> bool
    requires low { pos 0 ≤ℤ limit }
    requires high { unsigned_abs limit ≤ 2 ^ 29 }
    ensures { result ≡ list_all (is_valid_particle limit) particles.now }
{
    particles.iter().all(|p| is_valid_particle(limit, p))
}

pub fn are_valid_particles(limit: i64, particles: &[Particle]) -> bool
    requires low { pos 0 ≤ℤ limit }
    requires high { unsigned_abs limit ≤ 2 ^ 29 }
    ensures { result ≡ are_valid_particles limit particles.now }
{
    particles.len() <= MOST_PARTICLES && all_particles(limit, particles)
}

#[tactic(auto, using(crate::proofs::ValidLemmas::at_rest_test))]
fn is_at_rest(p: &Particle) -> bool
    ensures { result ≡ is_at_rest p.now }
{
    p.at == p.before
}

fn rests_if_held(p: &Particle) -> bool
    ensures { result ≡ (not p.now.held || is_at_rest p.now) }
{
    !p.held || is_at_rest(p)
}

pub fn are_held_at_rest(particles: &[Particle]) -> bool
    ensures { result ≡ list_all (λ p. not p.held || is_at_rest p) particles.now }
{
    particles.iter().all(rests_if_held)
}

// ---- links

fn joins_two_of(count: usize, l: &Link) -> bool
    ensures { result ≡ (nat_lt l.now.a count && nat_lt l.now.b count && not (l.now.a == l.now.b)) }
{
    (l.a as usize) < count && (l.b as usize) < count && l.a != l.b
}

/// Whether two particles are joined at lengths in range.
fn has_valid_lengths(limit: i64, count: usize, l: &Link) -> bool
    requires low { pos 0 ≤ℤ limit }
    requires high { unsigned_abs limit ≤ 2 ^ 29 }
    ensures { result ≡ (nat_lt l.now.a count && nat_lt l.now.b count && not (l.now.a == l.now.b)
        && is_between (pos 0) (pos 4 *ℤ limit) l.now.rest && is_between (pos 0) (pos 4 *ℤ limit) l.now.tear) }
{
    joins_two_of(count, l) && is_between(0, 4 * limit, l.rest) && is_between(0, 4 * limit, l.tear)
}

fn is_valid_link(limit: i64, count: usize, l: &Link) -> bool
    requires low { pos 0 ≤ℤ limit }
    requires high { unsigned_abs limit ≤ 2 ^ 29 }
    ensures { result ≡ is_valid_link limit count l.now }
{
    has_valid_lengths(limit, count, l) && l.k <= 256
}

pub fn all_links(limit: i64, count: usize, links: &[Link]) -> bool
    requires low { pos 0 ≤ℤ limit }
    requires high { unsigned_abs limit ≤ 2 ^ 29 }
    ensures { result ≡ list_all (is_valid_link limit count) links.now }
{
    links.iter().all(|l| is_valid_link(limit, count, l))
}

pub fn are_live(links: &[Link]) -> bool
    ensures { result ≡ list_all (λ l. l.live) links.now }
{
    links.iter().all(|l| l.live)
}

// ---- shapes

fn is_valid_plane(plane: &Plane) -> bool
    ensures { result ≡ is_valid_plane plane.now }
{
    within(plane.normal, 1024)
        && plane.normal != Vec3::ZERO
        && is_between(-(1 << 40), 1 << 40, plane.offset)
}

fn all_planes(planes: &[Plane]) -> bool
    ensures { result ≡ list_all is_valid_plane planes.now }
{
    planes.iter().all(is_valid_plane)
}

fn are_valid_planes(planes: &[Plane]) -> bool
    ensures { result ≡ are_valid_planes planes.now }
{
    planes.len() <= 256 && all_planes(planes)
}

/// Whether `centre - radius` and `centre + radius` are within the limit.
fn axis_reaches_within(limit: i64, centre: i64, radius: i64) -> bool
    requires low { pos 0 ≤ℤ limit }
    requires high { unsigned_abs limit ≤ 2 ^ 29 }
    requires radius { pos 1 ≤ℤ radius }
    ensures { result ≡ is_reach_within limit centre radius }
{
    is_between(radius - limit, limit - radius, centre)
}

fn reaches_within(limit: i64, centre: Vec3, radius: i64) -> bool
    requires low { pos 0 ≤ℤ limit }
    requires high { unsigned_abs limit ≤ 2 ^ 29 }
    requires radius { pos 1 ≤ℤ radius }
    ensures { result ≡ (is_reach_within limit centre.x radius
        && is_reach_within limit centre.y radius && is_reach_within limit centre.z radius) }
{
    axis_reaches_within(limit, centre.x, radius)
        && axis_reaches_within(limit, centre.y, radius)
        && axis_reaches_within(limit, centre.z, radius)
}

fn is_ball_within(limit: i64, centre: Vec3, radius: i64) -> bool
    requires low { pos 0 ≤ℤ limit }
    requires high { unsigned_abs limit ≤ 2 ^ 29 }
    ensures { result ≡ is_valid_sphere limit (record { centre = centre; radius = radius }) }
{
    if radius < 1 {
        return false;
    }
    reaches_within(limit, centre, radius)
}

fn all_spheres(limit: i64, spheres: &[Sphere]) -> bool
    requires low { pos 0 ≤ℤ limit }
    requires high { unsigned_abs limit ≤ 2 ^ 29 }
    ensures { result ≡ list_all (is_valid_sphere limit) spheres.now }
{
    spheres
        .iter()
        .all(|s| is_ball_within(limit, s.centre, s.radius))
}

fn are_valid_spheres(limit: i64, spheres: &[Sphere]) -> bool
    requires low { pos 0 ≤ℤ limit }
    requires high { unsigned_abs limit ≤ 2 ^ 29 }
    ensures { result ≡ are_valid_spheres limit spheres.now }
{
    spheres.len() <= 256 && all_spheres(limit, spheres)
}

pub fn are_valid_shapes(limit: i64, parts: &Parts) -> bool
    requires low { pos 0 ≤ℤ limit }
    requires high { unsigned_abs limit ≤ 2 ^ 29 }
    ensures { result ≡ are_valid_shapes limit (shapes_in parts.now) }
{
    are_valid_planes(parts.planes.as_slice()) && are_valid_spheres(limit, parts.spheres.as_slice())
}

// ---- tracks

/// Whether a key is in its ranges and its step is at least `low`.
fn is_next_key(limit: i64, low: u32, key: &Key) -> bool
    requires low { pos 0 ≤ℤ limit }
    requires high { unsigned_abs limit ≤ 2 ^ 29 }
    ensures { result ≡ is_next_key limit low key.now }
{
    low <= key.step && key.step <= LAST_STEP && within(key.place, limit)
}

/// Whether all keys are in their ranges, and their steps increase.
#[tactic(auto, using(crate::proofs::ValidLemmas::rising_begins))]
fn are_valid_keys(limit: i64, keys: &[Key]) -> bool
    requires low { pos 0 ≤ℤ limit }
    requires high { unsigned_abs limit ≤ 2 ^ 29 }
    ensures { result ≡ are_valid_keys limit keys.now }
{
    let mut next = 0;
    for key in keys {
        if !is_next_key(limit, next, key) {
            return false;
        }
        next = key.step + 1;
    }
    true
}

fn is_valid_track(limit: i64, count: usize, track: &Track) -> bool
    requires low { pos 0 ≤ℤ limit }
    requires high { unsigned_abs limit ≤ 2 ^ 29 }
    ensures { result ≡ is_valid_track limit count track.now }
{
    let keys = track.keys.as_slice();
    (track.particle as usize) < count
        && 1 <= keys.len()
        && keys.len() <= 1024
        && are_valid_keys(limit, keys)
}

pub fn all_tracks(limit: i64, count: usize, tracks: &[Track]) -> bool
    requires low { pos 0 ≤ℤ limit }
    requires high { unsigned_abs limit ≤ 2 ^ 29 }
    ensures { result ≡ list_all (is_valid_track limit count) tracks.now }
{
    tracks
        .iter()
        .all(|track| is_valid_track(limit, count, track))
}

fn is_held(particles: &[Particle], i: u32) -> bool
    ensures { result ≡ (particle_at particles.now i).held }
{
    match particles.get(i as usize) {
        Some(p) => p.held,
        None => false,
    }
}

pub fn are_tracked_held(tracks: &[Track], particles: &[Particle]) -> bool
    ensures { result ≡ are_tracked_held tracks.now particles.now }
{
    tracks
        .iter()
        .all(|track| is_held(particles, track.particle))
}

// ---- numbers

pub fn are_valid_numbers(parts: &Parts) -> bool
    ensures { result ≡ are_valid_numbers parts.now }
{
    parts.passes <= 64
        && is_between(0, 1024, parts.damping)
        && is_between(0, MOST_THICKNESS, parts.thickness)
        && is_between(0, 256, parts.friction)
}
