// Particles and links as they are told.
ghost use Rattle.std.specs.Prelude.{◌≡◌, ◌+◌, ◌*◌, ◌<◌, ◌≤◌, length, map};
ghost use Rattle.pbd_world.specs.Particles.{effective_weight};
ghost use Rattle.pbd_sound.specs.Described.{particle_told, link_told, particles_told, links_told};

use crate::Described;
use pbd_store::{Steps, Store, effective_weight_of};
use pbd_world::{Link, Particle};
use std::sync::ledger::Ledger;

fn particle_told<D: Described>(described: &D, i: u32, p: Particle) -> Particle
    requires { i < (D.seen described.now).particles }
    ensures { result ≡ particle_told (D.seen described.now) i p }
{
    Particle {
        at: described.place(i),
        before: described.before(i),
        weight: p.weight,
        held: described.is_held(i),
    }
}

/// Makes the particles of a store those of another one of the same length, as they are told: the weights are the other's. The list
/// is that of the effective weights.
pub fn write_particles<const L: usize, D: Described, G: Ledger>(
    store: &mut Store<L>,
    other: &Store<L>,
    described: &D,
    weights: &mut [u16],
    steps: &mut Steps<G>,
)
    requires lanes { L ≤ 16 }
    requires weights { length weights.old ≡ length other.now.particles }
    requires count { (D.seen described.now).particles ≡ length other.now.particles }
    requires same { length store.old.particles ≡ length other.now.particles }
    ensures particles { store.new.particles ≡ particles_told (D.seen described.now) other.now.particles }
    ensures limit { store.new.limit ≡ store.old.limit }
    ensures weights { weights.new ≡ map effective_weight store.new.particles }
    ensures copies { store.new.copies ≡ store.old.copies }
    ensures cost { steps.new ≡ steps.old + 2 * length other.now.particles }
{
    for i in 0..other.len() {
        let particle = particle_told(described, i, other.at(i, steps));
        weights[i as usize] = effective_weight_of(particle);
        store.set(i, particle, steps);
    }
}

fn link_told<D: Described>(described: &D, l: u32, link: Link) -> Link
    requires { l < (D.seen described.now).links }
    ensures { result ≡ link_told (D.seen described.now) l link }
{
    Link {
        a: link.a,
        b: link.b,
        rest: link.rest,
        k: link.k,
        tear: link.tear,
        kind: link.kind,
        live: described.is_live(l),
    }
}

/// Makes a list of links another one of the same length, as they are told: all but which are live is the other's.
pub fn write_links<D: Described>(links: &mut [Link], other: &[Link], described: &D)
    requires count { (D.seen described.now).links ≡ length other.now }
    requires few { length other.now ≤ 524288 }
    requires same { length links.old ≡ length other.now }
    ensures { links.new ≡ links_told (D.seen described.now) other.now }
{
    for l in 0..other.len() {
        links[l] = link_told(described, l as u32, other[l]);
    }
}
