//! Laws of the definitions, each the contract of a function that does nothing.
ghost use Rattle.std.specs.Prelude.{◌≡◌, ◌<◌, ◌≤◌, ◌^◌, ℤ, pos, Some, Ok, IsTrue, length, unsigned_abs};
ghost use Rattle.pbd_obj.specs.Decimals.{units_of};
ghost use Rattle.pbd_obj.specs.declared.mesh.ObjMesh.{ObjMesh};
ghost use Rattle.pbd_world.specs.declared.parts.Parts.{Parts};
ghost use Rattle.pbd_world.specs.Valid.{is_valid};
ghost use Rattle.pbd_obj.specs.Meshes.{IsMesh};
ghost use Rattle.pbd_obj.specs.MeshLinks.{with_mesh, with_mesh_as};
ghost use Rattle.pbd_obj.specs.Settings.{are_settings};
ghost use Rattle.pbd_obj.specs.declared.settings.MeshSettings.{MeshSettings};
ghost use Rattle.pbd_obj.specs.Reading.{read};
ghost use Rattle.pbd_obj.specs.Writing.{coordinate, mesh_text};

/// A coordinate in -2^29..=2^29 that is written is read back.
#[tactic(auto, using(crate::proofs::ReadBack::coordinate_back))]
pub fn coordinates_are_read_back()
    ensures { (u : ℤ) → unsigned_abs u ≤ 2 ^ 29 → units_of (coordinate u) ≡ Some u }
{}

/// A mesh of fewer than 10^9 vertices whose vertices and then faces are written is read back. A mesh
/// that `read_obj` answers has so few.
#[tactic(auto, using(crate::proofs::MeshBack::mesh_back))]
pub fn meshes_are_read_back()
    ensures { (mesh : ObjMesh) → IsMesh mesh → length mesh.places < 10 ^ 9 → read (mesh_text mesh) ≡ Ok mesh }
{}

/// Valid parts with the limit 2^29 to which a mesh was added, with settings in their ranges, are valid.
#[tactic(auto, using(crate::proofs::AddedValid::added_valid))]
pub fn meshes_with_settings_are_added_validly()
    ensures { (t : MeshSettings) (mesh : ObjMesh) (parts new : Parts) → IsTrue (are_settings t) → t.weight ≤ 65535 → IsMesh mesh →
        IsTrue (is_valid parts) → parts.limit ≡ pos 536870912 → with_mesh_as t mesh parts ≡ Ok new → IsTrue (is_valid new) }
{}

/// The same with the settings of the form `obj`.
#[tactic(auto, using(crate::proofs::AddedValid::stiff_valid))]
pub fn meshes_are_added_validly()
    ensures { (mesh : ObjMesh) (parts new : Parts) → IsMesh mesh → IsTrue (is_valid parts) →
        parts.limit ≡ pos 536870912 → with_mesh mesh parts ≡ Ok new → IsTrue (is_valid new) }
{}
