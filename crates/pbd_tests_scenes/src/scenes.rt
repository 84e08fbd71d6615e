//! Scenes as they are drawn for the tests of steps, sessions, states and marks.
use crate::{free, free_at, held, key, link, links, particle};
use pbd_num::{RANGE, Vec3};
use pbd_tests_rows::place;
use pbd_world::{Key, Kind, Link, List, Particle, Parts, PartsFault, Plane, Scene, Sphere, Track};
use std::alloc::{AllocError, Global};

/// A scene as it is drawn here: lists of its parts, and its numbers.
#[derive(Clone, Copy)]
pub struct Drawing {
    pub particles: &'static [Particle],
    pub links: &'static [Link],
    pub planes: &'static [Plane],
    pub spheres: &'static [Sphere],
    pub tracks: &'static [(u32, &'static [Key])],
    pub gravity: Vec3,
    pub passes: u32,
    pub damping: i64,
    pub thickness: i64,
    pub friction: i64,
    pub limit: i64,
}

pub const EMPTY: Drawing = Drawing {
    particles: &[],
    links: &[],
    planes: &[],
    spheres: &[],
    tracks: &[],
    gravity: place!(0, 0, 0),
    passes: 1,
    damping: 0,
    thickness: 0,
    friction: 0,
    limit: RANGE,
};

pub const PULLS: Drawing = Drawing {
    particles: free_at!(0, 0; 105, 0),
    links: links!(100; 0, 1),
    ..EMPTY
};

pub const PULLS_AT_A_HELD_ONE: Drawing = Drawing {
    particles: &[held!(0, 0), free!(105, 0)],
    ..PULLS
};

pub const PUSHES: Drawing = Drawing {
    particles: free_at!(0, 0; 99, 0; 100, 0),
    thickness: 100,
    ..EMPTY
};

pub const ON_A_SPHERE: Drawing = Drawing {
    particles: free_at!(3, 4; 0, 0; 10, 0),
    spheres: &[Sphere {
        centre: place!(0, 0, 0),
        radius: 10,
    }],
    ..EMPTY
};

pub const TEARS: Drawing = Drawing {
    particles: free_at!(0, 0; 100, 0; 0, 1000; 101, 1000; 0, 2000; 102, 2000),
    links: &[
        link!(0, 1, 100, 100),
        link!(2, 3, 101, 100),
        link!(4, 5, 102, 100),
    ],
    ..EMPTY
};

pub const LED: Drawing = Drawing {
    particles: &[held!(0, 0), held!(1, 0)],
    tracks: &[(0, &[key!(0, 0), key!(3, 10)]), (1, &[key!(2, 5)])],
    ..EMPTY
};

pub const FLIES: Drawing = Drawing {
    particles: &[particle!(0, 0, -5, 1, false)],
    ..EMPTY
};

/// One step takes its particle out of the range.
pub const AT_THE_EDGE: Drawing = Drawing {
    particles: &[free!(RANGE, 0)],
    gravity: place!(1, 0, 0),
    ..EMPTY
};

/// Seven steps take its particle out of the range.
pub const NEAR_THE_EDGE: Drawing = Drawing {
    particles: &[particle!(RANGE - 6, 0, RANGE - 7, 1, false)],
    ..EMPTY
};

static CROWDED: Drawing = Drawing {
    passes: 0,
    thickness: 1000,
    ..EMPTY
};

fn copied_tracks(alloc: Global, tracks: &[(u32, &[Key])]) -> Result<List<Track>, AllocError> {
    let mut copies = List::new(alloc);
    for (particle, keys) in tracks {
        let particle = *particle;
        let keys = List::copied(alloc, keys)?;
        copies.push(Track { particle, keys })?;
    }
    Ok(copies)
}

/// What a drawing consists of. Its parts have nothing of a kind that no drawing has.
pub fn parts_of(alloc: Global, drawing: &Drawing) -> Result<Parts, AllocError> {
    let particles = List::copied(alloc, drawing.particles)?;
    let links = List::copied(alloc, drawing.links)?;
    let planes = List::copied(alloc, drawing.planes)?;
    let spheres = List::copied(alloc, drawing.spheres)?;
    let tracks = copied_tracks(alloc, drawing.tracks)?;
    Ok(Parts {
        particles,
        links,
        planes,
        spheres,
        tracks,
        gravity: drawing.gravity,
        passes: drawing.passes,
        damping: drawing.damping,
        thickness: drawing.thickness,
        friction: drawing.friction,
        ..Parts::empty(alloc, drawing.limit)
    })
}

/// The scene of parts, where there was memory for them.
pub fn scene_of(alloc: Global, parts: Result<Parts, AllocError>) -> Result<Scene, PartsFault> {
    match parts {
        Ok(parts) => Scene::from_parts(alloc, parts),
        Err(AllocError) => Err(PartsFault::OutOfMemory),
    }
}

/// A drawing as a scene.
pub fn scene(alloc: Global, drawing: &Drawing) -> Result<Scene, PartsFault> {
    scene_of(alloc, parts_of(alloc, drawing))
}

fn row_of(alloc: Global, count: u16) -> Result<Parts, AllocError> {
    let mut parts = parts_of(alloc, &CROWDED)?;
    for x in 0..count {
        parts.particles.push(free!(i64::from(x), 0))?;
    }
    Ok(parts)
}

/// So many particles in a row. Where they are at most 1,000, each is nearer to all others than the thickness.
pub fn in_a_row(alloc: Global, count: u16) -> Result<Scene, PartsFault> {
    scene_of(alloc, row_of(alloc, count))
}
