// The particles and links of the meshes.
ghost use Rattle.std.specs.Prelude.{◌≡◌, ◌+◌, ◌≤◌, true, length, fold, IsTrue, OnOk};
ghost use Rattle.std.specs.List.{All, sum_by};
ghost use Rattle.pbd_world.specs.Valid.{is_limit};
ghost use Rattle.pbd_mesh.specs.Cloth.{cloth_fits};
ghost use Rattle.pbd_mesh.specs.Rope.{rope_fits};
ghost use Rattle.pbd_scene.specs.Entries.{all_cloths_size, all_ropes_size};
ghost use Rattle.pbd_scene.specs.Scene.{with_cloth, with_rope};

use crate::mesh_entries::MeshEntry;
use pbd_mesh::{ClothSpec, RopeSpec};
use pbd_world::Parts;
use std::alloc::{AllocError, Global};

/// Adds the meshes one after another.
fn add_all<M: MeshEntry>(alloc: Global, meshes: &[M], parts: &mut Parts) -> Result<(), AllocError>
    requires limit { IsTrue (is_limit parts.old.limit) }
    requires fit { All (λ m. M.fits parts.old.limit m ≡ true) meshes.now }
    requires room { length parts.old.particles + sum_by M.size meshes.now ≤ 65536 }
    ensures { OnOk result (parts.new ≡ fold M.added parts.old meshes.now) }
{
    for mesh in meshes.iter() {
        mesh.add_to(alloc, parts)?;
    }
    Ok(())
}

/// Adds the cloths and then the ropes.
#[tactic(auto, using(crate::proofs::Limits::cloths_keep_limit, crate::proofs::Parted::cloths_grow))]
pub fn add_meshes(
    alloc: Global,
    cloths: &[ClothSpec],
    ropes: &[RopeSpec],
    parts: &mut Parts,
) -> Result<(), AllocError>
    requires limit { IsTrue (is_limit parts.old.limit) }
    requires cloths { All (λ s. cloth_fits parts.old.limit s ≡ true) cloths.now }
    requires ropes { All (λ s. rope_fits parts.old.limit s ≡ true) ropes.now }
    requires room { length parts.old.particles + all_cloths_size cloths.now + all_ropes_size ropes.now ≤ 65536 }
    ensures { OnOk result (parts.new ≡ fold with_rope (fold with_cloth parts.old cloths.now) ropes.now) }
{
    add_all(alloc, cloths, parts)?;
    add_all(alloc, ropes, parts)
}
