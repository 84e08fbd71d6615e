//! Scenes that are valid and others that aren't, lists, totals, lanes and numbers of refusals.
ghost use Rattle.std.specs.Prelude.{◌<◌, ◌≤◌};

use pbd_num::{RANGE, Vec3};
use pbd_tests_rows::{WrongRows, all_hold, held, link, place, resting, wrong_row};
use pbd_world::{
    Class, Full, Key, Kind, Link, List, Particle, Parts, PartsFault, Phase, Plane, Refusal,
    RoomList, Scene, Sphere, Totals, Track, Width,
};
use std::alloc::Global;

/// Two rows of three particles.
static CLOTH_PARTICLES: [Particle; 6] = [
    resting!(0, 0, 0),
    resting!(100, 0, 0),
    resting!(200, 0, 0),
    resting!(0, 0, 100),
    resting!(100, 0, 100),
    resting!(200, 0, 100),
];

/// Links of full stiffness, by their rest lengths and the particles between which they are.
macro_rules! links {
    ($($rest:literal: $($a:literal $b:literal),*);*) => {
        [$($(link!($a, $b, $rest)),*),*]
    };
}

/// All their links.
static CLOTH_LINKS: [Link; 13] = links!(
    100: 0 1, 0 3, 1 2, 1 4, 2 5, 3 4, 4 5;
    141: 0 4, 1 3, 1 5, 2 4;
    200: 0 2, 3 5
);

/// What a scene has beside a cloth, and whether it is one.
#[derive(Clone, Copy)]
struct Beside {
    name: &'static str,
    particles: &'static [Particle],
    links: &'static [Link],
    planes: &'static [Plane],
    spheres: &'static [Sphere],
    /// A particle with the steps of its keys each.
    tracks: &'static [(u32, &'static [u32])],
    gravity: Vec3,
    passes: u32,
    limit: i64,
    fits: bool,
}

/// The cloth alone.
const CLOTH: Beside = Beside {
    name: "the cloth",
    particles: &[],
    links: &[],
    planes: &[],
    spheres: &[],
    tracks: &[],
    gravity: Vec3::ZERO,
    passes: 1,
    limit: RANGE,
    fits: true,
};

/// One thing that makes it no scene.
const BROKEN: Beside = Beside {
    fits: false,
    ..CLOTH
};

/// A held seventh particle beside it, and tracks that make it no scene unless a row says that it is one.
const MISLED: Beside = Beside {
    particles: &[held!(0, 9, 0)],
    ..BROKEN
};

/// What is beside the cloth, as another says but for some parts.
macro_rules! beside {
    ($other:ident, $name:expr; $($part:ident: $value:expr),*) => {
        Beside { name: $name, $($part: $value,)* ..$other }
    };
}

static SCENES: [Beside; 19] = [
    CLOTH,
    beside!(BROKEN, "a double link"; links: &[link!(0, 1, 100)]),
    beside!(BROKEN, "a double link the other way round"; links: &[link!(1, 0, 100)]),
    beside!(BROKEN, "a double link at the end"; links: &[link!(5, 3, 100)]),
    beside!(BROKEN, "a limit of 1000"; limit: 1000),
    beside!(BROKEN, "a link to its own particle"; links: &[link!(2, 2, 100)]),
    beside!(BROKEN, "a link to no particle"; links: &[link!(2, 6, 100)]),
    beside!(BROKEN, "a particle of no weight"; particles: &[Particle { weight: 0, ..resting!(0, 0, 0) }]),
    beside!(BROKEN, "a held particle that moves";
        particles: &[Particle { before: place!(0, 1, 0), ..held!(0, 0, 0) }]),
    beside!(BROKEN, "a plane without a normal"; planes: &[Plane { normal: Vec3::ZERO, offset: 0 }]),
    beside!(BROKEN, "a sphere past the range";
        spheres: &[Sphere { centre: place!(RANGE, 0, 0), radius: 1 }]),
    beside!(BROKEN, "a pass too many"; passes: 65),
    beside!(BROKEN, "gravity past the range"; gravity: place!(0, -RANGE - 1, 0)),
    beside!(MISLED, "a track"; tracks: &[(6, &[3, 4, 1_000_000])], fits: true),
    beside!(MISLED, "a track of a free particle"; tracks: &[(0, &[3])]),
    beside!(MISLED, "two keys at a step"; tracks: &[(6, &[3, 3])]),
    beside!(MISLED, "a track without keys"; tracks: &[(6, &[])]),
    beside!(MISLED, "a key past the last step"; tracks: &[(6, &[1_000_001])]),
    beside!(MISLED, "two tracks of a particle"; tracks: &[(6, &[3]), (6, &[0])]),
];

fn push_all<T: Copy + Drop>(list: &mut List<T>, items: &[T]) -> bool {
    for item in items {
        if list.push(*item).is_err() {
            return false;
        }
    }
    true
}

fn push_keys(keys: &mut List<Key>, steps: &[u32]) -> bool {
    for step in steps {
        let key = Key {
            step: *step,
            place: place!(0, 9, 0),
        };
        if keys.push(key).is_err() {
            return false;
        }
    }
    true
}

fn push_tracks(alloc: Global, list: &mut List<Track>, tracks: &[(u32, &[u32])]) -> bool {
    for (particle, steps) in tracks {
        let mut keys = List::new(alloc);
        let pushed = push_keys(&mut keys, steps);
        let track = Track {
            particle: *particle,
            keys,
        };
        if list.push(track).is_err() || !pushed {
            return false;
        }
    }
    true
}

/// Adds the cloth and what is beside it to parts, where there is memory.
fn push_parts(alloc: Global, beside: &Beside, parts: &mut Parts) -> bool {
    parts.gravity = beside.gravity;
    parts.passes = beside.passes;
    let pushed = [
        push_all(&mut parts.particles, &CLOTH_PARTICLES),
        push_all(&mut parts.particles, beside.particles),
        push_all(&mut parts.links, &CLOTH_LINKS),
        push_all(&mut parts.links, beside.links),
        push_all(&mut parts.planes, beside.planes),
        push_all(&mut parts.spheres, beside.spheres),
        push_tracks(alloc, &mut parts.tracks, beside.tracks),
    ];
    pushed == [true; 7]
}

/// How many particles and links the scene of some parts has, and how many particles its parts have again.
type Counts = (usize, usize, usize);

fn counts(scene: Scene) -> Counts {
    let particles = scene.parts().particles.len();
    let links = scene.parts().links.len();
    let parts = scene.into_parts();
    let again = parts.particles.len();
    drop(parts);
    (particles, links, again)
}

/// The counts of parts, all of which were pushed. None where they are no scene.
fn counted(alloc: Global, parts: Parts, pushed: bool) -> Result<Option<Counts>, PartsFault> {
    match Scene::from_parts(alloc, parts) {
        Ok(scene) => {
            let counts = counts(scene);
            if pushed {
                Ok(Some(counts))
            } else {
                Err(PartsFault::OutOfMemory)
            }
        }
        Err(PartsFault::NotValid) if pushed => Ok(None),
        Err(_) => Err(PartsFault::OutOfMemory),
    }
}

/// The counts of a cloth and what is beside it.
fn counted_beside(alloc: Global, beside: &Beside) -> Result<Option<Counts>, PartsFault> {
    let mut parts = Parts::empty(alloc, beside.limit);
    let pushed = push_parts(alloc, beside, &mut parts);
    counted(alloc, parts, pushed)
}

#[test]
fn valid_parts_are_a_scene_and_no_others(rt: HostRuntime) -> Result<(), WrongRows> {
    let mut wrong = 0u32;
    for row in &SCENES {
        let particles = 6usize.saturating_add(row.particles.len());
        let wanted = if row.fits {
            Some((particles, 13, particles))
        } else {
            None
        };
        let told = counted_beside(rt.alloc(), row);
        wrong = wrong.saturating_add(wrong_row(&rt, (&row.name, "has"), &told, &Ok(wanted)));
    }
    all_hold(wrong)
}

/// Adds so many particles in a row, and from one of them on each one's links to so many behind it, round the end.
fn push_ring(parts: &mut Parts, particles: u32, first: u32, links: u32) -> bool
    requires some { 0 < particles }
    requires size { particles ≤ 65536 }
    requires few { links ≤ 33 }
{
    for i in 0..particles {
        if parts.particles.push(resting!(i as i64, 0, 0)).is_err() {
            return false;
        }
    }
    for i in first..particles {
        for far in 0..links {
            let link = link!(i, (i + far + 1) % particles, 1);
            if parts.links.push(link).is_err() {
                return false;
            }
        }
    }
    true
}

/// The counts of such parts.
fn counted_ring(
    alloc: Global,
    particles: u32,
    first: u32,
    links: u32,
) -> Result<Option<Counts>, PartsFault>
    requires some { 0 < particles }
    requires size { particles ≤ 65536 }
    requires few { links ≤ 33 }
{
    let mut parts = Parts::empty(alloc, RANGE);
    let pushed = push_ring(&mut parts, particles, first, links);
    counted(alloc, parts, pushed)
}

/// As many links as there may be, and those of the last of forty particles, as many as it may have and one more.
#[test]
fn a_scene_has_as_many_links_as_there_may_be(rt: HostRuntime) {
    let rings = [
        counted_ring(rt.alloc(), 65_536, 0, 8),
        counted_ring(rt.alloc(), 40, 39, 32),
        counted_ring(rt.alloc(), 40, 39, 33),
    ];
    let wanted = [
        Ok(Some((65_536, 524_288, 65_536))),
        Ok(Some((40, 32, 40))),
        Ok(None),
    ];
    assert!(rt;
        rings == wanted,
        "particles, links and particles of three rings: {rings:?}"
    );
}

#[test]
fn a_list_keeps_its_items(rt: HostRuntime) {
    let mut list = List::new(rt.alloc());
    let pushed = [list.push(3_u8), list.push(1), list.push(4)];
    let long = list.len();
    list.truncate(2);
    list.truncate(5);
    let short = list.as_slice() == [3, 1].as_slice();
    drop(list);
    assert!(rt;
        (pushed, long, short) == ([Ok(()); 3], 3, true),
        "three items, {long} of them there, and whether the first two stay: {short}"
    );
}

/// Sets the items to 1, and says whether the list is two ones then.
fn becomes_ones(list: &mut RoomList<u8>) -> bool {
    list.as_mut_slice().fill(1);
    list.as_slice() == [1, 1].as_slice()
}

#[test]
fn a_list_with_room_takes_no_more_items(rt: HostRuntime) {
    let mut list = RoomList::open(rt.alloc(), 2).expect(&rt, "no memory");
    let pushed = [list.push(7), list.push(8), list.push(9)];
    let ones = becomes_ones(&mut list);
    list.clear();
    let left = (list.as_slice().len(), list.room());
    drop(list);
    assert!(rt;
        (pushed, ones, left) == ([Ok(()), Ok(()), Err(Full)], true, (0, 2)),
        "three items for a room of two, whether they are ones then: {ones}, and items and room at the end: {left:?}"
    );
}

#[test]
fn a_move_is_added_to_one_total(rt: HostRuntime) {
    let mut totals = Totals::zero();
    totals.add(Class::Pin, place!(1, -2, 3));
    let others = [
        totals.gravity,
        totals.damping,
        totals.link,
        totals.contact,
        totals.shape,
    ];
    assert!(rt;
        totals.pin == [1, -2, 3] && others == [[0; 3]; 5],
        "a move of a pin went elsewhere"
    );
    let mut totals = Totals {
        link: [i128::MAX - 1, 0, i128::MIN + 1],
        ..Totals::zero()
    };
    totals.add(Class::Link, place!(1, 0, -1));
    assert!(rt;
        totals.link == [i128::MAX, 0, i128::MIN],
        "the greatest totals of links: {:?}",
        totals.link
    );
}

#[test]
fn widths_and_refusals_have_their_numbers(rt: HostRuntime) {
    let lanes = [
        Width::W1.lanes(),
        Width::W2.lanes(),
        Width::W4.lanes(),
        Width::W8.lanes(),
        Width::W16.lanes(),
    ];
    assert!(rt; lanes == [1, 2, 4, 8, 16], "lanes of widths: {lanes:?}");
    let leaves = Refusal::LeavesRange {
        step: 1,
        phase: Phase::Link,
        element: 0,
    };
    let numbers = [
        Refusal::BadCommand.number(),
        Refusal::StepLimit.number(),
        leaves.number(),
        Refusal::TooManyContacts { step: 1 }.number(),
    ];
    assert!(rt;
        numbers == [1, 10, 11, 12],
        "numbers of refusals: {numbers:?}"
    );
}
