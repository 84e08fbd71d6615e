// The `[[cloth]]` and `[[rope]]` entries.
ghost use Rattle.std.specs.Prelude.{◌≡◌, ◌≤◌, ◌+◌, ℕ, ℤ, Bool, true, length, IfOk, OnOk, IsTrue};
ghost use Rattle.std.specs.List.{All, sum_by};
ghost use Rattle.toml.specs.Data.{Members};
ghost use Rattle.toml.specs.View.{table_view};
ghost use Rattle.pbd_world.specs.declared.parts.Parts.{Parts};
ghost use Rattle.pbd_world.specs.Valid.{is_limit};
ghost use Rattle.pbd_mesh.specs.Cloth.{cloth_fits};
ghost use Rattle.pbd_mesh.specs.Rope.{rope_fits};
ghost use Rattle.pbd_scene.specs.declared.fault.Place.{Place};
ghost use Rattle.pbd_scene.specs.declared.fault.SceneRule.TheVariants.{OutOfRange};
ghost use Rattle.pbd_scene.specs.declared.tables.KeyName.TheVariants.{NoKey};
ghost use Rattle.pbd_scene.specs.Checks.{Checked, Gives, expect};
ghost use Rattle.pbd_scene.specs.Entries.{cloth_size, rope_size, room_for, mesh_of, cloth_vectors_of, cloth_counts_of, cloth_stiffness_of, cloth_tears_of};
ghost use Rattle.pbd_scene.specs.Entries.{cloth_with, cloth_spec_of, rope_particles_of, rope_links_of, rope_with, rope_spec_of};
ghost use Rattle.pbd_scene.specs.Scene.{with_cloth, with_rope, IsGrown};

use crate::arrays::EntryReader;
use crate::fault::{Place, SceneFault, SceneRule};
use crate::limit::Limit;
use crate::raw::{ClothCounts, ClothStiffness, ClothTears, ClothVectors, RopeLinks, RopeParticles};
use crate::tables::KeyName;
use crate::values::Entry;
use pbd_mesh::{ClothSpec, RopeSpec, cloth, rope};
use pbd_world::{MOST_PARTICLES, Parts};
use std::alloc::{AllocError, Global};
use std::marker::PhantomData;

/// A mesh that an entry of its own table gives: a cloth or a rope.
pub trait MeshEntry: Sized + Drop {
    /// Its numbers are in their ranges, and its particles within a limit.
    ghost fits: { ℤ → Self → Bool };

    /// The number of its particles.
    ghost size: { Self → ℕ };

    /// What the keys of an entry give, whether it fits or not.
    ghost given: { Place → ℤ → Members → Checked Self };

    /// Parts with its particles and links after their own.
    ghost added: { Parts → Self → Parts };

    fn given(entry: &Entry<'_>, limit: &Limit) -> Result<Self, SceneFault>
        ensures { Gives (λ s. s) result (given entry.now.place limit.now.units (table_view entry.now.members.now)) };

    /// Whether it fits. What fits has at most 65,536 particles.
    fn is_fitting(&self, limit: &Limit) -> bool
        ensures value { result ≡ fits limit.now.units self.now }
        ensures few { IsTrue result → size self.now ≤ 65536 };

    fn size(&self) -> u32
        requires { size self.now ≤ 65536 }
        ensures { result ≡ size self.now };

    fn add_to(&self, alloc: Global, parts: &mut Parts) -> Result<(), AllocError>
        requires limit { IsTrue (is_limit parts.old.limit) }
        requires fits { IsTrue (fits parts.old.limit self.now) }
        requires room { length parts.old.particles + size self.now ≤ 65536 }
        ensures added { OnOk result (parts.new ≡ added parts.old self.now) }
        ensures grown { OnOk result (IsGrown parts.old parts.new (size self.now)) };
}

/// Reads the meshes of a table, where `count` particles stand before the first.
#[derive(Clone, Copy)]
pub struct Meshes<M> {
    pub limit: Limit,
    pub count: u32,
    pub of: PhantomData<M>,
}

/// The number of the meshes' particles.
pub fn all_sizes<M: MeshEntry>(meshes: &[M]) -> u32
    requires { sum_by M.size meshes.now ≤ 65536 }
    ensures { result ≡ sum_by M.size meshes.now }
{
    let mut total = 0;
    for mesh in meshes.iter() {
        total += mesh.size();
    }
    total
}

/// Refuses a mesh that doesn't fit.
fn fitting(fits: bool, place: Place) -> Result<(), SceneFault>
    ensures value { Gives (λ x. x) result (expect fits OutOfRange place NoKey) }
    ensures holds { IfOk result (λ _. IsTrue fits) }
{
    place.expect(fits, SceneRule::OutOfRange, KeyName::NoKey)
}

#[tactic(auto, unfolding(crate::specs::Entries::room_for))]
fn room_for(place: Place, n: u32) -> Result<(), SceneFault>
    ensures value { Gives (λ x. x) result (room_for place n) }
    ensures room { IfOk result (λ _. n ≤ 65536) }
{
    let has_room = n as usize <= MOST_PARTICLES;
    place.expect(has_room, SceneRule::TooMany, KeyName::NoKey)
}

impl<M: MeshEntry> EntryReader for Meshes<M> {
    type Item = M;

    ghost fits = { λ s before. (s.count + sum_by M.size before ≤ 65536) × All (λ m. M.fits s.limit.units m ≡ true) before };

    ghost reads = { λ s before place ms. mesh_of (M.fits s.limit.units) M.size s.count before place (M.given place s.limit.units ms) };

    #[tactic(auto, unfolding(crate::specs::Entries::mesh_of))]
    fn read(&self, before: &[M], entry: &Entry<'_>) -> Result<M, SceneFault> {
        let mesh = M::given(entry, &self.limit)?;
        fitting(mesh.is_fitting(&self.limit), entry.place)?;
        room_for(entry.place, self.count + all_sizes(before) + mesh.size())?;
        Ok(mesh)
    }
}

// ---- cloths

#[tactic(auto, unfolding(crate::specs::Entries::cloth_vectors_of))]
fn cloth_vectors_of(entry: &Entry<'_>, limit: &Limit) -> Result<ClothVectors, SceneFault>
    ensures { Gives (λ v. v) result (cloth_vectors_of entry.now.place limit.now.units (table_view entry.now.members.now)) }
{
    let origin = entry.required_vector(KeyName::Origin, limit)?;
    let across = entry.required_vector(KeyName::Across, limit)?;
    let down = entry.required_vector(KeyName::Down, limit)?;
    Ok(ClothVectors {
        origin,
        across,
        down,
    })
}

#[tactic(auto, unfolding(crate::specs::Entries::cloth_counts_of))]
fn cloth_counts_of(entry: &Entry<'_>) -> Result<ClothCounts, SceneFault>
    ensures { Gives (λ n. n) result (cloth_counts_of entry.now.place (table_view entry.now.members.now)) }
{
    let rows = entry.required_count(KeyName::Rows, 1, 256)?;
    let columns = entry.required_count(KeyName::Columns, 1, 256)?;
    let weight = entry.count_or(KeyName::Weight, 1, 65_535, 1)?;
    Ok(ClothCounts {
        rows,
        columns,
        weight,
    })
}

#[tactic(auto, unfolding(crate::specs::Entries::cloth_stiffness_of))]
fn cloth_stiffness_of(entry: &Entry<'_>) -> Result<ClothStiffness, SceneFault>
    ensures { Gives (λ k. k) result (cloth_stiffness_of entry.now.place (table_view entry.now.members.now)) }
{
    let stretch = entry.count_or(KeyName::Stretch, 0, 256, 256)?;
    let shear = entry.count_or(KeyName::Shear, 0, 256, 256)?;
    let bend = entry.count_or(KeyName::Bend, 0, 256, 64)?;
    Ok(ClothStiffness {
        stretch,
        shear,
        bend,
    })
}

#[tactic(auto, unfolding(crate::specs::Entries::cloth_tears_of))]
fn cloth_tears_of(entry: &Entry<'_>, limit: &Limit) -> Result<ClothTears, SceneFault>
    ensures { Gives (λ t. t) result (cloth_tears_of entry.now.place limit.now.units (table_view entry.now.members.now)) }
{
    let stretch = entry.length_or_zero(KeyName::StretchTear, limit)?;
    let shear = entry.length_or_zero(KeyName::ShearTear, limit)?;
    let bend = entry.length_or_zero(KeyName::BendTear, limit)?;
    Ok(ClothTears {
        stretch,
        shear,
        bend,
    })
}

#[tactic(auto, unfolding(crate::specs::Entries::cloth_with))]
fn cloth_with(
    vectors: ClothVectors,
    counts: ClothCounts,
    stiffness: ClothStiffness,
    tears: ClothTears,
) -> ClothSpec
    ensures { result ≡ cloth_with vectors counts stiffness tears }
{
    ClothSpec {
        origin: vectors.origin,
        across: vectors.across,
        down: vectors.down,
        rows: counts.rows,
        columns: counts.columns,
        weight: counts.weight,
        stretch: stiffness.stretch,
        shear: stiffness.shear,
        bend: stiffness.bend,
        stretch_tear: tears.stretch,
        shear_tear: tears.shear,
        bend_tear: tears.bend,
    }
}

#[tactic(auto, unfolding(crate::specs::Entries::cloth_spec_of))]
fn cloth_spec_of(entry: &Entry<'_>, limit: &Limit) -> Result<ClothSpec, SceneFault>
    ensures { Gives (λ s. s) result (cloth_spec_of entry.now.place limit.now.units (table_view entry.now.members.now)) }
{
    let vectors = cloth_vectors_of(entry, limit)?;
    let counts = cloth_counts_of(entry)?;
    let stiffness = cloth_stiffness_of(entry)?;
    let tears = cloth_tears_of(entry, limit)?;
    Ok(cloth_with(vectors, counts, stiffness, tears))
}

impl MeshEntry for ClothSpec {
    ghost fits = { cloth_fits };

    ghost size = { cloth_size };

    ghost given = { cloth_spec_of };

    ghost added = { with_cloth };

    fn given(entry: &Entry<'_>, limit: &Limit) -> Result<ClothSpec, SceneFault> {
        cloth_spec_of(entry, limit)
    }

    fn is_fitting(&self, limit: &Limit) -> bool {
        self.fits(limit.units)
    }

    fn size(&self) -> u32 {
        self.rows * self.columns
    }

    fn add_to(&self, alloc: Global, parts: &mut Parts) -> Result<(), AllocError> {
        cloth(alloc, self, parts)
    }
}

// ---- ropes

#[tactic(auto, unfolding(crate::specs::Entries::rope_particles_of))]
fn rope_particles_of(entry: &Entry<'_>, limit: &Limit) -> Result<RopeParticles, SceneFault>
    ensures { Gives (λ p. p) result (rope_particles_of entry.now.place limit.now.units (table_view entry.now.members.now)) }
{
    let origin = entry.required_vector(KeyName::Origin, limit)?;
    let spacing = entry.required_vector(KeyName::Spacing, limit)?;
    let count = entry.required_count(KeyName::Count, 1, 4096)?;
    let weight = entry.count_or(KeyName::Weight, 1, 65_535, 1)?;
    Ok(RopeParticles {
        origin,
        spacing,
        count,
        weight,
    })
}

#[tactic(auto, unfolding(crate::specs::Entries::rope_links_of))]
fn rope_links_of(entry: &Entry<'_>, limit: &Limit) -> Result<RopeLinks, SceneFault>
    ensures { Gives (λ l. l) result (rope_links_of entry.now.place limit.now.units (table_view entry.now.members.now)) }
{
    let stretch = entry.count_or(KeyName::Stretch, 0, 256, 256)?;
    let bend = entry.count_or(KeyName::Bend, 0, 256, 64)?;
    let stretch_tear = entry.length_or_zero(KeyName::StretchTear, limit)?;
    let bend_tear = entry.length_or_zero(KeyName::BendTear, limit)?;
    Ok(RopeLinks {
        stretch,
        bend,
        stretch_tear,
        bend_tear,
    })
}

#[tactic(auto, unfolding(crate::specs::Entries::rope_with))]
fn rope_with(particles: RopeParticles, links: RopeLinks) -> RopeSpec
    ensures { result ≡ rope_with particles links }
{
    RopeSpec {
        origin: particles.origin,
        spacing: particles.spacing,
        count: particles.count,
        weight: particles.weight,
        stretch: links.stretch,
        bend: links.bend,
        stretch_tear: links.stretch_tear,
        bend_tear: links.bend_tear,
    }
}

#[tactic(auto, unfolding(crate::specs::Entries::rope_spec_of))]
fn rope_spec_of(entry: &Entry<'_>, limit: &Limit) -> Result<RopeSpec, SceneFault>
    ensures { Gives (λ s. s) result (rope_spec_of entry.now.place limit.now.units (table_view entry.now.members.now)) }
{
    let particles = rope_particles_of(entry, limit)?;
    let links = rope_links_of(entry, limit)?;
    Ok(rope_with(particles, links))
}

impl MeshEntry for RopeSpec {
    ghost fits = { rope_fits };

    ghost size = { rope_size };

    ghost given = { rope_spec_of };

    ghost added = { with_rope };

    fn given(entry: &Entry<'_>, limit: &Limit) -> Result<RopeSpec, SceneFault> {
        rope_spec_of(entry, limit)
    }

    fn is_fitting(&self, limit: &Limit) -> bool {
        self.fits(limit.units)
    }

    fn size(&self) -> u32 {
        self.count
    }

    fn add_to(&self, alloc: Global, parts: &mut Parts) -> Result<(), AllocError> {
        rope(alloc, self, parts)
    }
}
