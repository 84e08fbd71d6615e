// The shapes: the `[[plane]]` and `[[sphere]]` entries.
ghost use Rattle.std.specs.Prelude.{◌≡◌, ◌≤◌, ◌^◌, unsigned_abs, nat_lt, ◌&&◌};
ghost use Rattle.toml.specs.View.{table_view};
ghost use Rattle.pbd_num.specs.Vectors.{Within, squared_length};
ghost use Rattle.pbd_scene.specs.Checks.{Gives};
ghost use Rattle.pbd_scene.specs.Entries.{plane_of, planes_of, reaches_within, sphere_of, spheres_of, shape_lists_of};

use crate::arrays::{EntriesOf, EntryReader, read_table};
use crate::fault::{SceneFault, SceneRule};
use crate::limit::Limit;
use crate::tables::{KeyName, TableName};
use crate::values::Entry;
use pbd_num::Vec3;
use pbd_world::{List, Plane, ShapeLists, Sphere};
use std::alloc::Global;
use toml::Table;

// ---- planes

#[derive(Clone, Copy)]
struct Planes;

fn has_length(v: Vec3) -> bool
    ensures { result ≡ nat_lt 0 (squared_length v) }
{
    v.x != 0 || v.y != 0 || v.z != 0
}

impl EntryReader for Planes {
    type Item = Plane;

    ghost reads = { λ s before place ms. plane_of place ms };

    #[tactic(auto, unfolding(crate::specs::Entries::plane_of))]
    fn read(&self, _before: &[Plane], entry: &Entry<'_>) -> Result<Plane, SceneFault> {
        let most = Limit { units: 1024 };
        let normal = entry.required_vector(KeyName::Normal, &most)?;
        let offset = entry.required_within(KeyName::Offset, 1_099_511_627_776)?;
        entry
            .place
            .expect(has_length(normal), SceneRule::OutOfRange, KeyName::Normal)?;
        Ok(Plane { normal, offset })
    }
}

#[tactic(auto, unfolding(crate::specs::Entries::planes_of))]
fn planes_of(alloc: Global, members: &Table) -> Result<List<Plane>, SceneFault>
    ensures value { Gives (λ xs. xs) result (planes_of (table_view members.now)) }
{
    let planes = EntriesOf {
        table: TableName::Plane,
        reader: Planes,
    };
    read_table(alloc, 256, &planes, members)
}

// ---- spheres

#[derive(Clone, Copy)]
struct Spheres {
    limit: Limit,
}

/// The vector of so much along each axis.
fn on_each_axis(n: i64) -> Vec3
    requires { unsigned_abs n ≤ 2 ^ 29 }
    ensures value { result ≡ record { x = n; y = n; z = n } }
    ensures size { Within (2 ^ 29) result }
{
    Vec3 { x: n, y: n, z: n }
}

/// Whether the centre, so far to both sides on each axis, is within the limit.
#[tactic(auto, unfolding(crate::specs::Entries::reaches_within))]
fn reaches_within(limit: &Limit, centre: Vec3, radius: i64) -> bool
    requires centre { Within (2 ^ 30) centre }
    requires radius { unsigned_abs radius ≤ 2 ^ 29 }
    ensures { result ≡ reaches_within limit.now.units centre radius }
{
    let way = on_each_axis(radius);
    limit.holds(centre.plus(way)) && limit.holds(centre.minus(way))
}

impl EntryReader for Spheres {
    type Item = Sphere;

    ghost reads = { λ s before place ms. sphere_of s.limit.units place ms };

    #[tactic(auto, unfolding(crate::specs::Entries::sphere_of))]
    fn read(&self, _before: &[Sphere], entry: &Entry<'_>) -> Result<Sphere, SceneFault> {
        let centre = entry.required_vector(KeyName::Centre, &self.limit)?;
        let radius = entry.required_length(KeyName::Radius, &self.limit)?;
        let reaches = reaches_within(&self.limit, centre, radius);
        entry
            .place
            .expect(reaches, SceneRule::OutOfRange, KeyName::Radius)?;
        Ok(Sphere { centre, radius })
    }
}

#[tactic(auto, unfolding(crate::specs::Entries::spheres_of))]
fn spheres_of(alloc: Global, limit: &Limit, members: &Table) -> Result<List<Sphere>, SceneFault>
    ensures value { Gives (λ xs. xs) result (spheres_of limit.now.units (table_view members.now)) }
{
    let spheres = EntriesOf {
        table: TableName::Sphere,
        reader: Spheres { limit: *limit },
    };
    read_table(alloc, 256, &spheres, members)
}

// ---- all shapes

/// The entries of the tables of shapes, one table after another.
#[tactic(auto, unfolding(crate::specs::Entries::shape_lists_of))]
pub fn shape_lists_of(
    alloc: Global,
    limit: &Limit,
    members: &Table,
) -> Result<ShapeLists, SceneFault>
    ensures { Gives (λ shapes. shapes) result (shape_lists_of limit.now.units (table_view members.now)) }
{
    let planes = planes_of(alloc, members)?;
    let spheres = spheres_of(alloc, limit, members)?;
    Ok(ShapeLists { planes, spheres })
}
