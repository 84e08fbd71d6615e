//! Where shapes leave a particle.
ghost use Rattle.std.specs.Prelude.{◌≡◌, ◌<◌, ℕ, Some, None, Ok, false, length};
ghost use Rattle.pbd_num.specs.declared.Vec3.{Vec3};
ghost use Rattle.pbd_world.specs.Step.{Passing, shape_part};
ghost use Rattle.pbd_laws.specs.Prelude.{particle_at, World, IsSound};
ghost use Rattle.pbd_laws.specs.Solids.{Solid, solids_of, shape_by, CanPush, last_solid, IsOut};

/// A shape that touches a place leaves it out of itself, but for what rounding may take, as `IsOut` says for each kind; it isn't a
/// plane whose normal is 0, as no scene has one. After the shape part of a pass a free particle is so out of the shape that touched it
/// last, and where none touched it, it stands where it stood.
pub fn shapes_leave_particles_outside()
    ensures touched { (solid : Solid) (p to : Vec3) → CanPush solid → shape_by solid p ≡ Some to → IsOut solid to }
    ensures last { (w : World) (s t : Passing) (i : ℕ) (solid : Solid) → IsSound w → shape_part w s ≡ Ok t
        → i < length s.motion.particles → (particle_at s.motion.particles i).held ≡ false
        → last_solid (solids_of w.shapes) (particle_at s.motion.particles i).at ≡ Some solid
        → IsOut solid (particle_at t.motion.particles i).at }
    ensures none { (w : World) (s t : Passing) (i : ℕ) → IsSound w → shape_part w s ≡ Ok t
        → i < length s.motion.particles → last_solid (solids_of w.shapes) (particle_at s.motion.particles i).at ≡ None
        → (particle_at t.motion.particles i).at ≡ (particle_at s.motion.particles i).at }
{}
