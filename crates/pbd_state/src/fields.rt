// The fields of a world's state, each as a piece of at most 148 bytes.
ghost use Rattle.std.specs.Prelude.{◌≡◌, ℕ, List, ◌+◌, ◌*◌, ◌≤◌, ◌<◌, length};
ghost use Rattle.pbd_world.specs.Bonds.{link_at};
ghost use Rattle.pbd_world.specs.World.{IsSound};
ghost use Rattle.pbd_encoding.specs.Encoding.{header_of, head_bytes, flag_bytes, first_totals_bytes, last_totals_bytes};
ghost use Rattle.pbd_encoding.specs.Form.{AreCounts};
ghost use Rattle.pbd_state.specs.Fields.{field_bytes, fields_of};

use pbd_encoding::{Counts, first_totals, flag, header, last_totals, vector};
use pbd_line::Line;
use pbd_log::{push_u64, push_vector};
use pbd_step::Shown;
use pbd_store::Steps;
use pbd_world::Link;
use std::sync::ledger::Ledger;

/// How many particles and links a world has.
pub(crate) fn counts_of<const L: usize>(shown: &Shown<'_, L>) -> Counts
    requires lanes { L ≤ 16 }
    ensures particles { result.particles ≡ length shown.now.particles }
    ensures links { result.links ≡ length shown.now.links }
    ensures few { AreCounts result }
{
    Counts {
        particles: shown.particles(),
        links: shown.links().len() as u32,
    }
}

/// What is the same for all worlds of a scene.
pub(crate) fn header_of<const L: usize>(scene: &[u8; 32], shown: &Shown<'_, L>) -> Line
    requires lanes { L ≤ 16 }
    ensures bytes { result ≡ header_of scene.now shown.now }
    ensures len { length result ≡ 96 }
    ensures sound { IsSound shown.now }
{
    header(scene, &counts_of(shown), shown.opening())
}

#[tactic(auto, unfolding(pbd_encoding::specs::Encoding::head_bytes))]
fn head<const L: usize>(scene: &[u8; 32], shown: &Shown<'_, L>) -> Line
    requires lanes { L ≤ 16 }
    ensures { result ≡ head_bytes scene.now shown.now }
{
    let mut piece = header_of(scene, shown);
    push_u64(&mut piece, shown.step_count());
    push_vector(&mut piece, &shown.gravity());
    piece
}

// The flag of link l.
fn live(links: &[Link], l: usize) -> Line
    requires { l < length links.now }
    ensures { result ≡ flag_bytes (link_at links.now l).live }
{
    flag(links[l].live)
}

/// How many fields a state has.
pub(crate) fn field_count<const L: usize>(shown: &Shown<'_, L>) -> u32
    requires lanes { L ≤ 16 }
    ensures { result ≡ fields_of (length shown.now.particles) (length shown.now.links) }
{
    let counts = counts_of(shown);
    3 * counts.particles + counts.links + 3
}

/// A field of a particle: a place, a place before or a flag.
fn particle_field<const L: usize, G: Ledger>(
    shown: &Shown<'_, L>,
    k: u32,
    steps: &mut Steps<G>,
) -> Line
    requires lanes { L ≤ 16 }
    requires low { 1 ≤ k }
    requires high { k < 3 * length shown.now.particles + 1 }
    ensures bytes { (scene : List ℕ) → result ≡ field_bytes scene shown.now k }
    ensures cost { steps.new ≤ steps.old + 1 }
{
    let n = shown.particles();
    if k < n + 1 {
        return vector(&shown.particle(k - 1, steps).at);
    }
    if k < 2 * n + 1 {
        return vector(&shown.particle(k - (n + 1), steps).before);
    }
    flag(shown.particle(k - (2 * n + 1), steps).held)
}

/// Field k.
pub(crate) fn field<const L: usize, G: Ledger>(
    scene: &[u8; 32],
    shown: &Shown<'_, L>,
    k: u32,
    steps: &mut Steps<G>,
) -> Line
    requires lanes { L ≤ 16 }
    requires within { k < fields_of (length shown.now.particles) (length shown.now.links) }
    ensures bytes { result ≡ field_bytes scene.now shown.now k }
    ensures cost { steps.new ≤ steps.old + 1 }
{
    let n = shown.particles();
    let links = shown.links();
    let m = links.len() as u32;
    if k < 1 {
        return head(scene, shown);
    }
    if k < 3 * n + 1 {
        return particle_field(shown, k, steps);
    }
    if k < 3 * n + m + 1 {
        return live(links, (k - (3 * n + 1)) as usize);
    }
    if k < 3 * n + m + 2 {
        return first_totals(shown.contacts(), shown.totals());
    }
    last_totals(shown.totals())
}
