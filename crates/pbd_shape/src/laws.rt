//! What the definitions mean for a world.
ghost use Rattle.std.specs.Prelude.{◌≡◌, ℤ, List, IsTrue};
ghost use Rattle.pbd_world.specs.declared.parts.Particle.{Particle};
ghost use Rattle.pbd_world.specs.World.{World};
ghost use Rattle.pbd_world.specs.Shapes.{shapes_of};
ghost use Rattle.pbd_world.specs.Step.{Passing, shape_part};
ghost use Rattle.pbd_world.specs.Valid.{is_limit, are_valid_particles};
ghost use Rattle.pbd_shape.specs.Shaping.{all_pushed};
ghost use Rattle.pbd_shape.specs.Rubbing.{AreWithin};

/// The shape part of a pass takes the particles one by one through the world's own shapes, up to the first that leaves the limit.
pub fn shape_parts_push_all()
    ensures { (w : World) (s : Passing) → shape_part w s ≡ all_pushed w.limit (shapes_of w.shapes) s }
{}

/// Valid particles are within the limit, now and before.
pub fn valid_particles_are_within()
    ensures { (limit : ℤ) (ps : List Particle) → IsTrue (is_limit limit) → IsTrue (are_valid_particles limit ps) → AreWithin limit ps }
{}
