//! What never changes in a session.
ghost use Rattle.std.specs.Prelude.{◌≡◌, ◌≢◌, ℕ, List, Some, false, IsTrue, All};
ghost use Rattle.pbd_world.specs.Bonds.{link_at};
ghost use Rattle.pbd_world.specs.World.{is_tracked};
ghost use Rattle.pbd_laws.specs.Prelude.{Command, Step, Parts, after, particle_at, last_world, is_valid, World, opened};
ghost use Rattle.pbd_laws.specs.Targets.{target};
ghost use Rattle.pbd_laws.specs.Targets.Target.{OneParticle};
ghost use Rattle.pbd_laws.specs.Scenes.{HasPartsOf};

/// A held particle without a track keeps its place, whatever pulls at it and however long, and stays held: through any number
/// of steps, and through any commands but those that name it.
pub fn held_particles_keep_their_places()
    ensures steps { (w : World) (n i : ℕ) → IsTrue (particle_at w.particles i).held → is_tracked w.tracks i ≡ false
        → (particle_at (after w (Step n)).particles i).at ≡ (particle_at w.particles i).at }
    ensures session { (w : World) (i : ℕ) (commands : List Command) → IsTrue (particle_at w.particles i).held
        → is_tracked w.tracks i ≡ false → All (λ c. target c ≢ Some (OneParticle i)) commands
        → (particle_at (last_world w commands).particles i).at ≡ (particle_at w.particles i).at }
    ensures held { (w : World) (i : ℕ) (commands : List Command) → IsTrue (particle_at w.particles i).held
        → is_tracked w.tracks i ≡ false → All (λ c. target c ≢ Some (OneParticle i)) commands
        → IsTrue (particle_at (last_world w commands).particles i).held }
{}

/// A link that was cut or torn is never live again.
pub fn gone_links_stay_gone()
    ensures { (w : World) (n : ℕ) (commands : List Command) → (link_at w.links n).live ≡ false
        → (link_at (last_world w commands).links n).live ≡ false }
{}

/// Weights, ends of links, rest lengths, stiffnesses, tear lengths, kinds, tracks, shapes and the scene's numbers but gravity
/// are in every world of a session those of its scene.
pub fn sessions_keep_their_scene()
    ensures { (parts : Parts) (commands : List Command) → IsTrue (is_valid parts)
        → HasPartsOf parts (last_world (opened parts) commands) }
{}
