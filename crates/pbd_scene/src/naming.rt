// The particles that pins and tracks name.
ghost use Rattle.std.specs.Prelude.{◌≡◌, ◌≤◌, ◌<◌, [], true, length, slice_set, if◌then◌else◌, IfOk, OnOk, false, replicate};
ghost use Rattle.pbd_world.specs.Neighbours.{HoldsTracked};
ghost use Rattle.pbd_scene.specs.Marks.{Flags};
ghost use Rattle.pbd_scene.specs.Checks.{Gives, each};
ghost use Rattle.pbd_scene.specs.Naming.{pinned, placed_track, held_still, holding};
ghost use Rattle.pbd_scene.specs.Scene.{named};

use crate::fault::{Place, SceneFault, SceneRule};
use crate::linking::particle_number;
use crate::raw::TrackEntry;
use crate::tables::{KeyName, TableName};
use crate::values::broken;
use pbd_world::{Key, List, Particle, Track};
use std::alloc::{AllocError, Global};

// ---- pins

#[tactic(auto, unfolding(crate::specs::Naming::pinned))]
fn pinned(count: u32, before: &[u32], n: &i64) -> Result<u32, SceneFault>
    ensures { Gives (λ n. n) result (pinned count before.now n.now) }
{
    let place = Place {
        table: TableName::Scene,
        position: 0,
    };
    particle_number(count, place, KeyName::Pins, *n)
}

/// The particles that `pins` names.
pub fn pinned_particles(alloc: Global, count: u32, pins: &[i64]) -> Result<List<u32>, SceneFault>
    ensures { Gives (λ ns. ns) result (each (pinned count) [] pins.now) }
{
    let mut held = List::new(alloc);
    for n in pins.iter() {
        let i = pinned(count, held.as_slice(), n)?;
        held.push(i)?;
    }
    Ok(held)
}

// ---- tracks

fn no_flags(alloc: Global, count: usize) -> Result<Vec<bool>, AllocError>
    ensures { IfOk result (λ flags. flags.items ≡ replicate count false) }
{
    vec![in alloc; false; count]
}

/// The track of an entry, where these tracks stand before it.
#[tactic(auto, unfolding(crate::specs::Naming::placed_track))]
fn placed_track(
    alloc: Global,
    count: u32,
    before: &[Track],
    tracked: &[bool],
    entry: &TrackEntry,
) -> Result<Track, SceneFault>
    requires few { length before.now < 4096 }
    requires tracked { HoldsTracked count before.now tracked.now }
    ensures track { Gives (λ t. t) result (placed_track count before.now entry.now) }
    ensures particle { IfOk result (λ t. t.particle < count) }
{
    let place = Place {
        table: TableName::Track,
        position: before.len() as u32,
    };
    let particle = particle_number(count, place, KeyName::Particle, entry.particle)?;
    if tracked[particle as usize] {
        return broken(SceneRule::BadTrack, place, KeyName::Particle);
    }
    let keys = List::copied(alloc, entry.keys.as_slice())?;
    Ok(Track { particle, keys })
}

/// The tracks of the entries, each of a particle of its own.
pub fn place_tracks(
    alloc: Global,
    count: u32,
    entries: &[TrackEntry],
) -> Result<List<Track>, SceneFault>
    requires { length entries.now ≤ 4096 }
    ensures { Gives (λ ts. ts) result (each (placed_track count) [] entries.now) }
{
    let mut tracked = no_flags(alloc, count as usize)?;
    let mut tracks = List::new(alloc);
    for entry in entries.iter() {
        let track = placed_track(alloc, count, tracks.as_slice(), tracked.as_slice(), entry)?;
        tracked[track.particle as usize] = true;
        tracks.push(track)?;
    }
    Ok(tracks)
}

// ---- what is held

/// Adds the particles of the tracks.
pub fn add_tracked(tracks: &[Track], names: &mut List<u32>) -> Result<(), AllocError>
    ensures { OnOk result (names.new ≡ named names.old tracks.now) }
{
    for track in tracks.iter() {
        names.push(track.particle)?;
    }
    Ok(())
}

/// Raises flag i, if there is one.
fn mark(i: u32, flags: &mut Vec<bool>)
    ensures { flags.new.items ≡ slice_set flags.old.items i true }
{
    if (i as usize) < flags.len() {
        flags[i as usize] = true;
    }
}

fn flags_of(alloc: Global, count: usize, names: &[u32]) -> Result<Vec<bool>, AllocError>
    ensures { IfOk result (λ flags. Flags count names.now flags.items) }
{
    let mut flags = no_flags(alloc, count)?;
    for i in names.iter() {
        mark(*i, &mut flags);
    }
    Ok(flags)
}

fn held_if(named: bool, p: Particle) -> Particle
    ensures { result ≡ (if named then held_still p else p) }
{
    if named {
        Particle {
            before: p.at,
            held: true,
            ..p
        }
    } else {
        p
    }
}

/// The particles, where those that are named are held, at rest where they are.
pub fn holding(
    alloc: Global,
    names: &[u32],
    particles: &[Particle],
) -> Result<List<Particle>, AllocError>
    ensures { IfOk result (λ ps. ps ≡ holding names.now 0 particles.now) }
{
    let flags = flags_of(alloc, particles.len(), names)?;
    let mut held = List::new(alloc);
    for (i, p) in particles.iter().enumerate() {
        held.push(held_if(flags[i], *p))?;
    }
    Ok(held)
}
