//! Laws of the definitions, each the contract of a function that does nothing.
ghost use Rattle.std.specs.Prelude.{◌≡◌, ℕ, ◌*◌, ℤ, IsTrue, length};
ghost use Rattle.pbd_world.specs.Valid.{is_limit};
ghost use Rattle.pbd_mesh.specs.declared.spec.ClothSpec.{ClothSpec};
ghost use Rattle.pbd_mesh.specs.declared.spec.RopeSpec.{RopeSpec};
ghost use Rattle.pbd_mesh.specs.Cloth.{cloth_particles, cloth_links, cloth_fits};
ghost use Rattle.pbd_mesh.specs.Rope.{rope_particles, rope_links, rope_fits};
ghost use Rattle.pbd_mesh.specs.Meshes.{IsMesh};

/// A cloth that fits is valid: no link stands twice, and few are at a particle.
pub fn cloths_are_meshes()
    ensures mesh { (limit : ℤ) (base : ℕ) (s : ClothSpec) → IsTrue (is_limit limit) → IsTrue (cloth_fits limit s)
        → IsMesh limit base (cloth_particles s) (cloth_links s base) }
    ensures size { (s : ClothSpec) → length (cloth_particles s) ≡ s.rows * s.columns }
{}

/// A rope that fits is valid too.
pub fn ropes_are_meshes()
    ensures mesh { (limit : ℤ) (base : ℕ) (s : RopeSpec) → IsTrue (is_limit limit) → IsTrue (rope_fits limit s)
        → IsMesh limit base (rope_particles s) (rope_links s base) }
    ensures size { (s : RopeSpec) → length (rope_particles s) ≡ s.count }
{}
