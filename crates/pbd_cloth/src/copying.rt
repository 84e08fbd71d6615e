//! Lists that are copied into a caller's memory, item by item, as far as there is room.
ghost use Rattle.std.specs.Prelude.{◌≡◌, ◌<◌, length, map};
ghost use Rattle.pbd_world.specs.Lending.{overwritten};
ghost use Rattle.pbd_world.specs.Particles.{particle_at};
ghost use Rattle.pbd_encoding.specs.Scene.{kind_number};
ghost use Rattle.pbd_cloth.specs.Counting.{IsBlankOf};
ghost use Rattle.pbd_cloth.specs.Reading.{place_now, place_before, held_byte, link_entry, live_byte};

use crate::entry::LinkEntry;
use crate::{LANES, Place};
use pbd_pair::LaneProjector;
use pbd_step::Solver;
use pbd_store::Steps;
use pbd_world::{Kind, Link, Particle};
use std::sync::ledger::{Blank, Ledger};

/// What a caller reads of each particle, or of each link.
pub(crate) trait Reading<S, T> {
    ghost value: { S → T };

    fn of(item: S) -> T
        ensures { result ≡ value item };
}

/// Where a particle is.
pub(crate) struct Now;

impl Reading<Particle, Place> for Now {
    ghost value = { place_now };

    fn of(item: Particle) -> Place {
        Place::of(item.at)
    }
}

/// Where a particle was one step before.
pub(crate) struct Before;

impl Reading<Particle, Place> for Before {
    ghost value = { place_before };

    fn of(item: Particle) -> Place {
        Place::of(item.before)
    }
}

/// Whether a particle is held.
pub(crate) struct Held;

impl Reading<Particle, u8> for Held {
    ghost value = { held_byte };

    fn of(item: Particle) -> u8 {
        u8::from(item.held)
    }
}

/// Whether a link is live.
pub(crate) struct Live;

impl Reading<Link, u8> for Live {
    ghost value = { live_byte };

    fn of(item: Link) -> u8 {
        u8::from(item.live)
    }
}

/// All of a link.
pub(crate) struct Whole;

impl Reading<Link, LinkEntry> for Whole {
    ghost value = { link_entry };

    fn of(item: Link) -> LinkEntry {
        LinkEntry {
            rest: item.rest,
            tear: item.tear,
            a: item.a,
            b: item.b,
            stiffness: item.k,
            kind: kind_number(item.kind),
            live: Live::of(item),
        }
    }
}

fn kind_number(kind: Kind) -> u8
    ensures { result ≡ kind_number kind }
{
    kind as u8
}

// What is read of particle i.
fn read_at<T: Copy, R: Reading<Particle, T>, G: Ledger>(
    solver: &Solver<LANES, LaneProjector<LANES>>,
    i: u32,
    steps: &mut Steps<G>,
) -> T
    requires { i < length solver.now.world.particles }
    ensures { result ≡ R.value (particle_at solver.now.world.particles i) }
{
    R::of(solver.particle(i, steps))
}

fn write_each<T: Copy, R: Reading<Particle, T>, G: Ledger>(
    solver: &Solver<LANES, LaneProjector<LANES>>,
    into: &mut [T],
    steps: &mut Steps<G>,
)
    ensures { into.new ≡ overwritten into.old (map R.value solver.now.world.particles) }
{
    let count = into.len().min(solver.particles() as usize);
    for i in 0..count {
        into[i] = read_at::<T, R, G>(solver, i as u32, steps);
    }
}

/// Writes what is read of the particles, with a count of accesses of its own, which nobody sees.
pub(crate) fn write_particles<T: Copy, R: Reading<Particle, T>, G: Ledger>(
    blank: Blank,
    solver: &Solver<LANES, LaneProjector<LANES>>,
    into: &mut [T],
)
    requires { IsBlankOf G.name G.parts blank }
    ensures { into.new ≡ overwritten into.old (map R.value solver.now.world.particles) }
{
    let mut steps: Steps<G> = Steps::open(blank);
    write_each::<T, R, G>(solver, into, &mut steps);
}

/// Writes what is read of the links.
pub(crate) fn write_links<T: Copy, R: Reading<Link, T>>(links: &[Link], into: &mut [T])
    ensures { into.new ≡ overwritten into.old (map R.value links.now) }
{
    let count = into.len().min(links.len());
    for i in 0..count {
        into[i] = R::of(links[i]);
    }
}
