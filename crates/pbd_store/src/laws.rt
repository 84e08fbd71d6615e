//! Where valid particles are.
ghost use Rattle.std.specs.Prelude.{ℤ, List, IsTrue};
ghost use Rattle.pbd_world.specs.declared.parts.Particle.{Particle};
ghost use Rattle.pbd_world.specs.Valid.{is_limit, are_valid_particles};
ghost use Rattle.pbd_store.specs.Moving.{AreInside};

/// Valid particles are at places within the limit.
pub fn valid_particles_are_inside()
    ensures { (limit : ℤ) (ps : List Particle) → IsTrue (is_limit limit) → IsTrue (are_valid_particles limit ps) → AreInside limit ps }
{}
