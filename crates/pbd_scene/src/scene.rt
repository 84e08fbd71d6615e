// The scene of a text.
ghost use Rattle.std.specs.Prelude.{◌≡◌, ◌≤◌, ◌≤ℤ◌, ◌^◌, IsTrue, Ok, pos, unsigned_abs, length};
ghost use Rattle.std.specs.List.{All};
ghost use Rattle.toml.specs.View.{table_view};
ghost use Rattle.toml.specs.Parse.{parse_document};
ghost use Rattle.pbd_num.specs.Vectors.{Within};
ghost use Rattle.pbd_world.specs.Shapes.{with_shapes};
ghost use Rattle.pbd_world.specs.Valid.{is_limit, is_valid};
ghost use Rattle.pbd_world.specs.World.{no_parts};
ghost use Rattle.pbd_scene.specs.Calls.{from_tracks, from_pins, from_tables};
ghost use Rattle.pbd_scene.specs.Checks.{Gives};
ghost use Rattle.pbd_scene.specs.Scene.{pins_of, numbers_of, settings_of, with_entries, scene_of, Reads};

use crate::fault::{Place, SceneFault, SceneRule};
use crate::linking::add_links;
use crate::meshes::add_meshes;
use crate::naming::{add_tracked, holding, pinned_particles, place_tracks};
use crate::raw::{LinkEntry, Numbers, Settings, TrackEntry};
use crate::table_lists::tables_of;
use crate::tables::{KeyName, TableName};
use crate::values::{Entry, broken, known};
use pbd_world::{
    List, MOST_PARTICLES, MOST_THICKNESS, Particle, Parts, PartsFault, Scene, ShapeLists,
};
use std::alloc::{AllocError, Global};
use toml::Table;

const AT_SCENE: Place = Place {
    table: TableName::Scene,
    position: 0,
};

#[tactic(auto, unfolding(crate::specs::Scene::pins_of))]
fn pins_of(alloc: Global, members: &Table) -> Result<List<i64>, SceneFault>
    ensures { Gives (λ ns. ns) result (pins_of (table_view members.now)) }
{
    let scene = Entry {
        place: AT_SCENE,
        members,
    };
    let pins = scene.integers_of(alloc, KeyName::Pins)?;
    if pins.len() <= MOST_PARTICLES {
        Ok(pins)
    } else {
        broken(SceneRule::TooMany, AT_SCENE, KeyName::Pins)
    }
}

#[tactic(auto, unfolding(crate::specs::Scene::numbers_of))]
fn numbers_of(members: &Table) -> Result<Numbers, SceneFault>
    ensures { Gives (λ n. n) result (numbers_of (table_view members.now)) }
{
    let scene = Entry {
        place: AT_SCENE,
        members,
    };
    let passes = scene.count_or(KeyName::Passes, 0, 64, 1)?;
    let damping = scene.integer_or(KeyName::Damping, 0, 1024, 0)?;
    let thickness = scene.integer_or(KeyName::Thickness, 0, MOST_THICKNESS, 0)?;
    let friction = scene.integer_or(KeyName::Friction, 0, 256, 0)?;
    Ok(Numbers {
        passes: passes as u32,
        damping,
        thickness,
        friction,
    })
}

#[tactic(auto, unfolding(crate::specs::Scene::settings_of))]
fn settings_of(alloc: Global, limit: i64, members: &Table) -> Result<Settings, SceneFault>
    requires low { pos 0 ≤ℤ limit }
    requires high { unsigned_abs limit ≤ 2 ^ 29 }
    ensures { Gives (λ s. s) result (settings_of limit (table_view members.now)) }
{
    known(AT_SCENE, members)?;
    let scene = Entry {
        place: AT_SCENE,
        members,
    };
    let gravity = scene.vector_or_zero(KeyName::Gravity, limit)?;
    let numbers = numbers_of(members)?;
    let pins = pins_of(alloc, members)?;
    Ok(Settings {
        gravity,
        numbers,
        pins,
    })
}

/// Places the tracks of the entries, and holds their particles and those that are named already.
#[tactic(auto, unfolding(crate::specs::Calls::from_tracks))]
fn place_and_hold(
    alloc: Global,
    tracks: &[TrackEntry],
    names: &mut List<u32>,
    parts: &mut Parts,
) -> Result<(), SceneFault>
    requires few { length parts.old.particles ≤ 65536 }
    requires tracks { length tracks.now ≤ 4096 }
    ensures { Gives (λ _. parts.new) result (from_tracks names.old tracks.now parts.old) }
{
    let count = parts.particles.len() as u32;
    parts.tracks = place_tracks(alloc, count, tracks)?;
    add_tracked(parts.tracks.as_slice(), names)?;
    parts.particles = holding(alloc, names.as_slice(), parts.particles.as_slice())?;
    Ok(())
}

/// Places the tracks of the entries, and holds their particles and those that `pins` names.
#[tactic(auto, unfolding(crate::specs::Calls::from_pins))]
fn hold_named(
    alloc: Global,
    pins: &[i64],
    tracks: &[TrackEntry],
    parts: &mut Parts,
) -> Result<(), SceneFault>
    requires few { length parts.old.particles ≤ 65536 }
    requires tracks { length tracks.now ≤ 4096 }
    ensures { Gives (λ _. parts.new) result (from_pins pins.now tracks.now parts.old) }
{
    let count = parts.particles.len() as u32;
    match pinned_particles(alloc, count, pins) {
        Ok(mut names) => {
            let held = place_and_hold(alloc, tracks, &mut names, parts);
            drop(names);
            held
        }
        Err(fault) => Err(fault),
    }
}

/// Adds the links, pins and tracks that the entries name.
#[tactic(auto, unfolding(crate::specs::Scene::with_entries, crate::specs::Calls::from_pins, crate::specs::Calls::from_tracks))]
fn add_entries(
    alloc: Global,
    pins: &[i64],
    links: &[LinkEntry],
    tracks: &[TrackEntry],
    parts: &mut Parts,
) -> Result<(), SceneFault>
    requires few { length parts.old.particles ≤ 65536 }
    requires places { All (λ p. Within (2 ^ 29) p.at) parts.old.particles }
    requires links { length links.now ≤ 524288 }
    requires tracks { length tracks.now ≤ 4096 }
    ensures { Gives (λ _. parts.new) result (with_entries pins.now links.now tracks.now parts.old) }
{
    add_links(alloc, parts.particles.as_slice(), links, &mut parts.links)?;
    hold_named(alloc, pins, tracks, parts)
}

/// The parts without meshes, links and tracks.
fn plain_parts(
    alloc: Global,
    limit: i64,
    settings: &Settings,
    particles: List<Particle>,
    shapes: ShapeLists,
) -> Parts
    ensures { result ≡ with_shapes shapes (record (no_parts limit) {
      particles = particles;
      gravity = settings.now.gravity;
      passes = settings.now.numbers.passes;
      damping = settings.now.numbers.damping;
      thickness = settings.now.numbers.thickness;
      friction = settings.now.numbers.friction;
    }) }
{
    let mut parts = Parts {
        particles,
        gravity: settings.gravity,
        passes: settings.numbers.passes,
        damping: settings.numbers.damping,
        thickness: settings.numbers.thickness,
        friction: settings.numbers.friction,
        ..Parts::empty(alloc, limit)
    };
    shapes.put_into(&mut parts);
    parts
}

/// Adds the links, pins and tracks that the entries name to parts, and drops the entries.
fn with_entries(
    alloc: Global,
    pins: &[i64],
    links: List<LinkEntry>,
    tracks: List<TrackEntry>,
    mut parts: Parts,
) -> Result<Parts, SceneFault>
    requires few { length parts.particles ≤ 65536 }
    requires places { All (λ p. Within (2 ^ 29) p.at) parts.particles }
    requires links { length links ≤ 524288 }
    requires tracks { length tracks ≤ 4096 }
    ensures { Gives (λ p. p) result (with_entries pins.now links tracks parts) }
{
    let added = add_entries(alloc, pins, links.as_slice(), tracks.as_slice(), &mut parts);
    drop(links);
    drop(tracks);
    match added {
        Ok(()) => Ok(parts),
        Err(fault) => {
            drop(parts);
            Err(fault)
        }
    }
}

/// The parts of the tables, with these settings.
#[tactic(auto, unfolding(crate::specs::Calls::from_tables, crate::specs::Scene::with_meshes))]
fn parts_with(
    alloc: Global,
    limit: i64,
    settings: &Settings,
    members: &Table,
) -> Result<Parts, SceneFault>
    requires { IsTrue (is_limit limit) }
    ensures { Gives (λ parts. parts) result (from_tables limit settings.now (table_view members.now)) }
{
    let tables = tables_of(alloc, limit, members)?;
    let mut parts = plain_parts(alloc, limit, settings, tables.particles, tables.shapes);
    let meshed = add_meshes(
        alloc,
        tables.cloths.as_slice(),
        tables.ropes.as_slice(),
        &mut parts,
    );
    drop(tables.cloths);
    drop(tables.ropes);
    match meshed {
        Ok(()) => with_entries(
            alloc,
            settings.pins.as_slice(),
            tables.links,
            tables.tracks,
            parts,
        ),
        Err(AllocError) => {
            drop(tables.links);
            drop(tables.tracks);
            drop(parts);
            Err(SceneFault::OutOfMemory)
        }
    }
}

/// The parts of a tree.
#[tactic(auto, unfolding(crate::specs::Scene::scene_of, crate::specs::Calls::from_tables))]
fn parts_of(alloc: Global, limit: i64, members: &Table) -> Result<Parts, SceneFault>
    requires { IsTrue (is_limit limit) }
    ensures { Gives (λ parts. parts) result (scene_of limit (table_view members.now)) }
{
    match settings_of(alloc, limit, members) {
        Ok(settings) => {
            let parts = parts_with(alloc, limit, &settings, members);
            drop(settings);
            parts
        }
        Err(fault) => Err(fault),
    }
}

fn scene_of_parts(alloc: Global, parts: Parts) -> Result<Scene, SceneFault>
    requires { IsTrue (is_valid parts) }
    ensures { Gives (λ s. s) result (Ok parts) }
{
    match Scene::from_parts(alloc, parts) {
        Ok(scene) => Ok(scene),
        Err(PartsFault::OutOfMemory) => Err(SceneFault::OutOfMemory),
        Err(PartsFault::NotValid) => unreachable!(),
    }
}

fn scene_of_table(alloc: Global, limit: i64, members: &Table) -> Result<Scene, SceneFault>
    requires { IsTrue (is_limit limit) }
    ensures { Gives (λ s. s) result (scene_of limit (table_view members.now)) }
{
    let parts = parts_of(alloc, limit, members)?;
    scene_of_parts(alloc, parts)
}

/// The scene of a TOML text, read with a limit of 2^28 or 2^29 units, which the parts of the scene have. Unless memory
/// runs out, `NotToml` comes exactly where `toml` refuses the text, and `Refused` exactly where a rule is broken, with
/// the first one.
pub fn read_scene(alloc: Global, text: &str, limit: i64) -> Result<Scene, SceneFault>
    requires { IsTrue (is_limit limit) }
    ensures { Reads limit result (parse_document text.now) }
{
    match toml::table_from_str(alloc, text) {
        Ok(table) => scene_of_table(alloc, limit, &table),
        Err(error) => Err(if error.is_memory() {
            SceneFault::OutOfMemory
        } else {
            SceneFault::NotToml
        }),
    }
}
