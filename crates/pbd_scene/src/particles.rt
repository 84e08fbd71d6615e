// The `[[particle]]` entries.
ghost use Rattle.std.specs.Prelude.{◌≡◌, if◌then◌else◌, ◌^◌};
ghost use Rattle.pbd_num.specs.Vectors.{Within};
ghost use Rattle.pbd_scene.specs.Checks.{Gives};
ghost use Rattle.pbd_scene.specs.Entries.{inside_before, particle_of};

use crate::arrays::EntryReader;
use crate::fault::{Place, SceneFault, SceneRule};
use crate::limit::Limit;
use crate::tables::KeyName;
use crate::values::Entry;
use pbd_num::Vec3;
use pbd_world::Particle;

#[derive(Clone, Copy)]
pub struct Particles {
    pub limit: Limit,
}

fn if_held(held: bool, at: Vec3, gone: Vec3) -> Vec3
    ensures { result ≡ (if held then at else gone) }
{
    if held { at } else { gone }
}

#[tactic(auto, unfolding(crate::specs::Entries::inside_before, crate::specs::Entries::place_before))]
fn inside_before(limit: &Limit, place: Place, at: Vec3, velocity: Vec3) -> Result<Vec3, SceneFault>
    requires at { Within (2 ^ 30) at }
    requires velocity { Within (2 ^ 30) velocity }
    ensures { Gives (λ v. v) result (inside_before limit.now.units place at velocity) }
{
    let gone = at.minus(velocity);
    place.expect(limit.holds(gone), SceneRule::OutOfRange, KeyName::Velocity)?;
    Ok(gone)
}

impl EntryReader for Particles {
    type Item = Particle;

    ghost reads = { λ s before place ms. particle_of s.limit.units place ms };

    #[tactic(auto, unfolding(crate::specs::Entries::particle_of))]
    fn read(&self, _before: &[Particle], entry: &Entry<'_>) -> Result<Particle, SceneFault> {
        let at = entry.required_vector(KeyName::At, &self.limit)?;
        let velocity = entry.velocity_or_zero(KeyName::Velocity, &self.limit)?;
        let weight = entry.count_or(KeyName::Weight, 1, 65_535, 1)?;
        let held = entry.boolean_or(KeyName::Held, false)?;
        let gone = inside_before(&self.limit, entry.place, at, velocity)?;
        Ok(Particle {
            at,
            before: if_held(held, at, gone),
            weight,
            held,
        })
    }
}
