//! Small scenes and commands, drawn at random.
ghost use Rattle.std.specs.Prelude.{◌<◌, ◌≤◌};

use pbd_num::{RANGE, Vec3};
use pbd_pair::LaneProjector;
use pbd_step::Solver;
use pbd_store::Steps;
use pbd_tests_scenes::{Drawing, EMPTY, parts_of};
use pbd_world::{
    Key, Kind, Link, List, Particle, Parts, PartsFault, Plane, Refusal, Scene, Sphere, Track,
};
use rand_core::utils::NextWord;
use rand_pcg::Lcg64Xsh32;
use std::alloc::{AllocError, Global};
use std::sync::ledger::Ledger;

/// How the particles of a body are joined.
#[derive(Clone, Copy)]
enum Form {
    /// Each to the next one, and to the one after it.
    Rope,
    /// Each to the next one of its row, to the one below it, and to the one below that next one.
    Cloth,
    /// Some of those that stand near each other in the list.
    Own,
    /// None.
    Loose,
}

/// Particles in rows.
#[derive(Clone, Copy)]
struct Body {
    form: Form,
    rows: u32,
    columns: u32,
    /// Whether particle 0 is led by a track.
    tracked: bool,
    /// Whether links tear.
    tears: bool,
}

/// A number of so many, the first of which is the least.
fn pick(words: &mut Lcg64Xsh32, least: i64, count: u32) -> i64 {
    least.saturating_add(i64::from(words.next_word() % count.max(1)))
}

/// Whether one of so many was drawn.
fn one_of(words: &mut Lcg64Xsh32, count: u32) -> bool {
    words.next_word() % count.max(1) == 0
}

/// A vector of which each axis is one of so many numbers about 0.
fn vector(words: &mut Lcg64Xsh32, size: u32) -> Vec3 {
    let least = 0i64.saturating_sub(i64::from(size / 2));
    Vec3 {
        x: pick(words, least, size),
        y: pick(words, least, size),
        z: pick(words, least, size),
    }
}

fn drawn_body(words: &mut Lcg64Xsh32) -> Body {
    let form = match words.next_word() % 4 {
        0 => Form::Rope,
        1 => Form::Cloth,
        2 => Form::Own,
        _ => Form::Loose,
    };
    let rows = match form {
        Form::Cloth => 2 + words.next_word() % 4,
        _ => 1,
    };
    Body {
        form,
        rows,
        columns: 3 + words.next_word() % 4,
        tracked: one_of(words, 4),
        tears: one_of(words, 3),
    }
}

/// Particle i of a body: about 100 units from those beside it. One of six is held, and one that a track leads.
fn particle(words: &mut Lcg64Xsh32, body: &Body, i: u32) -> Particle {
    let columns = body.columns.max(1);
    let off = vector(words, 9);
    let at = Vec3 {
        x: off
            .x
            .saturating_add(i64::from(i % columns).saturating_mul(100)),
        y: off
            .y
            .saturating_sub(i64::from(i / columns).saturating_mul(100)),
        z: off.z,
    };
    let held = one_of(words, 6) || (body.tracked && i == 0);
    let way = vector(words, 21);
    let before = Vec3 {
        x: at.x.saturating_sub(way.x),
        y: at.y.saturating_sub(way.y),
        z: at.z.saturating_sub(way.z),
    };
    Particle {
        at,
        before: if held { at } else { before },
        weight: (1 + words.next_word() % 4) as u16,
        held,
    }
}

/// What a link of the particles a and b is, where there is one.
fn kind(words: &mut Lcg64Xsh32, body: &Body, a: u32, b: u32) -> Option<Kind> {
    let after = b.saturating_sub(a);
    let last = (a % body.columns.max(1)).saturating_add(1) == body.columns;
    match body.form {
        _ if after == 0 => None,
        Form::Rope if after == 1 => Some(Kind::Stretch),
        Form::Rope if after == 2 => Some(Kind::Bend),
        Form::Cloth if after == 1 && !last => Some(Kind::Stretch),
        Form::Cloth if after == body.columns => Some(Kind::Stretch),
        Form::Cloth if after == body.columns.saturating_add(1) && !last => Some(Kind::Shear),
        Form::Own if after < 6 && one_of(words, 3) => Some(Kind::Plain),
        _ => None,
    }
}

/// A link, whose rest length is about how far its ends are apart, or any from 50 to 350 where it is plain.
fn link(words: &mut Lcg64Xsh32, body: &Body, ends: (u32, u32), kind: Kind) -> Link {
    let rest = match kind {
        Kind::Stretch => pick(words, 90, 21),
        Kind::Shear => pick(words, 131, 21),
        Kind::Bend => pick(words, 190, 21),
        Kind::Plain => pick(words, 50, 301),
    };
    Link {
        a: ends.0,
        b: ends.1,
        rest,
        k: (words.next_word() % 257) as u16,
        tear: if body.tears {
            rest.saturating_add(pick(words, 5, 40))
        } else {
            0
        },
        kind,
        live: true,
    }
}

/// Adds the links of each particle to those after it.
fn draw_links(words: &mut Lcg64Xsh32, body: &Body, parts: &mut Parts) -> bool {
    let count = body.rows.saturating_mul(body.columns).max(1);
    let mut drawn = true;
    for pair in 0..count.saturating_mul(count) {
        let (a, b) = (pair / count, pair % count);
        if let Some(kind) = kind(words, body, a, b) {
            let joined = link(words, body, (a, b), kind);
            drawn = drawn & parts.links.push(joined).is_ok();
        }
    }
    drawn
}

/// Adds a plane below particle 0, and a sphere near it, each to one of three scenes.
fn draw_shapes(words: &mut Lcg64Xsh32, parts: &mut Parts) -> bool {
    let mut drawn = true;
    if one_of(words, 3) {
        let normal = Vec3 {
            x: pick(words, -2, 5),
            y: pick(words, 1, 4),
            z: 0,
        };
        let offset = pick(words, -900, 800);
        drawn = drawn & parts.planes.push(Plane { normal, offset }).is_ok();
    }
    if one_of(words, 3) {
        let centre = vector(words, 401);
        let radius = pick(words, 1, 150);
        drawn = drawn & parts.spheres.push(Sphere { centre, radius }).is_ok();
    }
    drawn
}

/// Adds the track of particle 0, with two keys.
fn draw_track(alloc: Global, words: &mut Lcg64Xsh32, parts: &mut Parts) -> bool {
    let keys = [
        Key {
            step: words.next_word() % 3,
            place: vector(words, 101),
        },
        Key {
            step: 3 + words.next_word() % 9,
            place: vector(words, 101),
        },
    ];
    match List::copied(alloc, &keys) {
        Ok(keys) => parts.tracks.push(Track { particle: 0, keys }).is_ok(),
        Err(_) => false,
    }
}

/// The numbers of a scene. One of three scenes has a thickness.
fn drawn_numbers(words: &mut Lcg64Xsh32) -> Drawing {
    Drawing {
        gravity: vector(words, 21),
        passes: words.next_word() % 4,
        damping: pick(words, 0, 100),
        friction: pick(words, 0, 257),
        thickness: if one_of(words, 3) {
            pick(words, 20, 150)
        } else {
            0
        },
        ..EMPTY
    }
}

/// Draws a body and shapes, where there is memory.
fn draw(alloc: Global, words: &mut Lcg64Xsh32, body: &Body, parts: &mut Parts) -> bool {
    let mut drawn = true;
    for i in 0..body.rows.saturating_mul(body.columns) {
        drawn = drawn & parts.particles.push(particle(words, body, i)).is_ok();
    }
    let others = [
        draw_links(words, body, parts),
        draw_shapes(words, parts),
        !body.tracked || draw_track(alloc, words, parts),
    ];
    drawn && others == [true; 3]
}

/// The scene of a session.
pub(crate) fn drawn_scene(alloc: Global, seed: u64) -> Result<Scene, PartsFault> {
    let mut words = Lcg64Xsh32::new(seed, 1);
    let body = drawn_body(&mut words);
    match parts_of(alloc, &drawn_numbers(&mut words)) {
        Ok(mut parts) => {
            if draw(alloc, &mut words, &body, &mut parts) {
                Scene::from_parts(alloc, parts)
            } else {
                drop(parts);
                Err(PartsFault::OutOfMemory)
            }
        }
        Err(AllocError) => Err(PartsFault::OutOfMemory),
    }
}

/// A vector that is short in seven of eight cases, and else on the limit or beyond it.
fn short_or_far(words: &mut Lcg64Xsh32, size: u32) -> Vec3 {
    let short = vector(words, size);
    if one_of(words, 8) {
        let x = pick(words, RANGE, 2);
        return Vec3 { x, ..short };
    }
    short
}

/// Plays a command. Some particles and links that it names aren't there.
pub(crate) fn play<const L: usize, G: Ledger>(
    words: &mut Lcg64Xsh32,
    solver: &mut Solver<L, LaneProjector<L>>,
    steps: &mut Steps<G>,
) -> Result<(), Refusal>
    requires low { 0 < L }
    requires high { L ≤ 16 }
{
    let number = u64::from(words.next_word() % 12);
    match words.next_word() % 8 {
        0 | 1 | 2 => solver.steps(number / 3, steps),
        3 => solver.pin(number, steps),
        4 => solver.unpin(number, steps),
        5 => solver.place_held(number, short_or_far(words, 301), steps),
        6 => solver.cut(number),
        _ => solver.set_gravity(short_or_far(words, 31)),
    }
}
