// The entries of all tables.
ghost use Rattle.std.specs.Prelude.{◌≡◌, ◌+◌, ◌≤◌, ◌≤ℤ◌, ◌^◌, IfOk, pos, unsigned_abs, length};
ghost use Rattle.toml.specs.View.{table_view};
ghost use Rattle.pbd_scene.specs.Checks.{Gives};
ghost use Rattle.pbd_scene.specs.Entries.{all_cloths_size, shape_lists_of};
ghost use Rattle.pbd_scene.specs.Scene.{particles_of, cloths_of, ropes_of, links_of, tracks_of, tables_of};

use crate::arrays::{EntriesOf, read_table};
use crate::fault::SceneFault;
use crate::limit::Limit;
use crate::link_entries::Links;
use crate::mesh_entries::{Meshes, all_sizes};
use crate::particles::Particles;
use crate::raw::{LinkEntry, Tables, TrackEntry};
use crate::shapes::shape_lists_of;
use crate::tables::TableName;
use crate::track_entries::Tracks;
use pbd_mesh::{ClothSpec, RopeSpec};
use pbd_world::{List, MOST_LINKS, MOST_PARTICLES, MOST_TRACKS, Particle, ShapeLists};
use std::alloc::Global;
use std::marker::PhantomData;
use toml::Table;

#[tactic(auto, unfolding(crate::specs::Scene::particles_of))]
fn particles_of(alloc: Global, limit: &Limit, members: &Table) -> Result<List<Particle>, SceneFault>
    ensures value { Gives (λ xs. xs) result (particles_of limit.now.units (table_view members.now)) }
    ensures few { IfOk result (λ xs. length xs ≤ 65536) }
{
    let particles = EntriesOf {
        table: TableName::Particle,
        reader: Particles { limit: *limit },
    };
    read_table(alloc, MOST_PARTICLES, &particles, members)
}

/// `count` particles stand before the first cloth.
#[tactic(auto, unfolding(crate::specs::Scene::cloths_of))]
fn cloths_of(
    alloc: Global,
    limit: &Limit,
    count: u32,
    members: &Table,
) -> Result<List<ClothSpec>, SceneFault>
    requires room { count ≤ 65536 }
    ensures value { Gives (λ xs. xs) result (cloths_of limit.now.units count (table_view members.now)) }
    ensures room { IfOk result (λ xs. count + all_cloths_size xs ≤ 65536) }
{
    let cloths = EntriesOf {
        table: TableName::Cloth,
        reader: Meshes {
            limit: *limit,
            count,
            of: PhantomData,
        },
    };
    read_table(alloc, 64, &cloths, members)
}

/// `count` particles stand before the first rope.
#[tactic(auto, unfolding(crate::specs::Scene::ropes_of))]
fn ropes_of(
    alloc: Global,
    limit: &Limit,
    count: u32,
    members: &Table,
) -> Result<List<RopeSpec>, SceneFault>
    requires room { count ≤ 65536 }
    ensures value { Gives (λ xs. xs) result (ropes_of limit.now.units count (table_view members.now)) }
{
    let ropes = EntriesOf {
        table: TableName::Rope,
        reader: Meshes {
            limit: *limit,
            count,
            of: PhantomData,
        },
    };
    read_table(alloc, 64, &ropes, members)
}

#[tactic(auto, unfolding(crate::specs::Scene::links_of))]
fn links_of(alloc: Global, limit: &Limit, members: &Table) -> Result<List<LinkEntry>, SceneFault>
    ensures value { Gives (λ xs. xs) result (links_of limit.now.units (table_view members.now)) }
{
    let links = EntriesOf {
        table: TableName::Link,
        reader: Links { limit: *limit },
    };
    read_table(alloc, MOST_LINKS, &links, members)
}

#[tactic(auto, unfolding(crate::specs::Scene::tracks_of))]
fn tracks_of(alloc: Global, limit: &Limit, members: &Table) -> Result<List<TrackEntry>, SceneFault>
    ensures value { Gives (λ xs. xs) result (tracks_of limit.now.units (table_view members.now)) }
{
    let tracks = EntriesOf {
        table: TableName::Track,
        reader: Tracks {
            limit: *limit,
            alloc,
        },
    };
    read_table(alloc, MOST_TRACKS, &tracks, members)
}

/// Reads the links, shapes and tracks in place of those that are there, where the tables before them are read.
#[tactic(auto, unfolding(crate::specs::Scene::tables_of))]
fn fill_from_links(
    alloc: Global,
    limit: &Limit,
    members: &Table,
    tables: &mut Tables,
) -> Result<(), SceneFault>
    requires particles { particles_of limit.now.units (table_view members.now) ≡ Ok tables.old.particles }
    requires cloths { cloths_of limit.now.units (length tables.old.particles) (table_view members.now) ≡ Ok tables.old.cloths }
    requires ropes { ropes_of limit.now.units (length tables.old.particles + all_cloths_size tables.old.cloths) (table_view members.now)
        ≡ Ok tables.old.ropes }
    ensures { Gives (λ _. tables.new) result (tables_of limit.now.units (table_view members.now)) }
{
    tables.links = links_of(alloc, limit, members)?;
    tables.shapes = shape_lists_of(alloc, limit, members)?;
    tables.tracks = tracks_of(alloc, limit, members)?;
    Ok(())
}

/// Reads the entries of all tables in place of those that are there.
#[tactic(auto, unfolding(crate::specs::Scene::tables_of))]
fn fill(
    alloc: Global,
    limit: &Limit,
    members: &Table,
    tables: &mut Tables,
) -> Result<(), SceneFault>
    ensures { Gives (λ _. tables.new) result (tables_of limit.now.units (table_view members.now)) }
{
    tables.particles = particles_of(alloc, limit, members)?;
    let count = tables.particles.len() as u32;
    tables.cloths = cloths_of(alloc, limit, count, members)?;
    let count = count + all_sizes(tables.cloths.as_slice());
    tables.ropes = ropes_of(alloc, limit, count, members)?;
    fill_from_links(alloc, limit, members, tables)
}

/// The entries of all tables.
pub fn tables_of(alloc: Global, limit: i64, members: &Table) -> Result<Tables, SceneFault>
    requires low { pos 0 ≤ℤ limit }
    requires high { unsigned_abs limit ≤ 2 ^ 29 }
    ensures { Gives (λ t. t) result (tables_of limit (table_view members.now)) }
{
    let mut tables = Tables {
        particles: List::new(alloc),
        cloths: List::new(alloc),
        ropes: List::new(alloc),
        links: List::new(alloc),
        shapes: ShapeLists::empty(alloc),
        tracks: List::new(alloc),
    };
    let limit = Limit { units: limit };
    match fill(alloc, &limit, members, &mut tables) {
        Ok(()) => Ok(tables),
        Err(fault) => {
            drop(tables);
            Err(fault)
        }
    }
}
