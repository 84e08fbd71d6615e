//! A law of the definitions, the contract of a function that does nothing.
ghost use Rattle.std.specs.Prelude.{◌≡◌, ℤ, IsTrue, Ok};
ghost use Rattle.toml.specs.Data.{Members};
ghost use Rattle.pbd_world.specs.declared.parts.Parts.{Parts};
ghost use Rattle.pbd_world.specs.Valid.{is_limit, is_valid};
ghost use Rattle.pbd_scene.specs.Scene.{scene_of};

/// The parts of a tree that breaks no rule are valid.
pub fn accepted_scenes_are_valid()
    ensures { (limit : ℤ) (tree : Members) (parts : Parts) → IsTrue (is_limit limit) → scene_of limit tree ≡ Ok parts
        → IsTrue (is_valid parts) }
{}
