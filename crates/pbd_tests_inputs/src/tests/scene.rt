//! Scenes, each with the first rule that it breaks, and what an accepted one holds.
use super::parts::link;
use super::scene_keys::{KEYS, TOO_MANY};
use pbd_num::Vec3;
use pbd_scene::{SceneFault, read_scene};
use pbd_tests_rows::{WrongRows, all_hold, place, wrong_row};
use pbd_world::{Kind, Link, Particle, Parts};
use std::alloc::Global;
use std::fmt::{Debug, Write};
use std::io::Eprint;

const LIMIT: i64 = 536_870_912;

/// Scenes, each with the number, table, position and key of the first rule that it breaks, or that it is accepted or no TOML.
/// `;` ends a line of a scene.
const RULES: &str = " => ok
gravity=[0,-10,0]; particle=[{at=[0,1000,0]}] => ok
= 1 => not toml
zebra=1; cloth=[{}] => 2 scene 0 -
passes=99; passed=1 => 2 scene 0 -
passes=1.0 => 4 scene 0 passes
passes=65 => 5 scene 0 passes
friction=257; passes=65 => 5 scene 0 passes
damping=1025 => 5 scene 0 damping
thickness=-1 => 5 scene 0 thickness
friction=257 => 5 scene 0 friction
gravity=[0,0] => 4 scene 0 gravity
gravity=[536870913,0,true] => 4 scene 0 gravity
gravity=[0,0,-536870913] => 5 scene 0 gravity
pins=[1,true] => 4 scene 0 pins
pins=[3] => 7 scene 0 pins
pins=[-1]; particle=[{at=[0,0,0]}] => 7 scene 0 pins
pins=[3]; particle=1 => 4 particle 0 -
pins=[0,0]; particle=[{at=[0,0,0]}] => ok
particle=[1] => 4 particle 0 -
particle=[{at=[0,0,0]},{at=[0],mass=1}] => 2 particle 1 -
particle=[{weight=0}] => 3 particle 0 at
particle=[{at=[0,0,536870913]}] => 5 particle 0 at
particle=[{at=[0,0,0],weight=0}] => 5 particle 0 weight
particle=[{at=[0,0,0],weight=65536}] => 5 particle 0 weight
particle=[{at=[0,0,0],held=1}] => 4 particle 0 held
particle=[{at=[0,0,0],velocity=[1073741825,0,0]}] => 5 particle 0 velocity
particle=[{at=[536870912,0,0],velocity=[-1,0,0]}] => 5 particle 0 velocity
particle=[{at=[536870912,0,0],velocity=[-1,0,0],weight=0}] => 5 particle 0 weight
particle=[{at=[536870912,0,0],velocity=[1073741824,0,0],held=true}] => ok
cloth=[{}] => 3 cloth 0 origin
cloth=[{origin=[0,0,0],across=[9,0,0],down=[0,0,9],rows=256,columns=256}] => ok
cloth=[{origin=[0,0,0],across=[1,0,0],down=[0,0,1],rows=0,columns=257}] => 5 cloth 0 rows
cloth=[{origin=[0,0,0],across=[1,0,0],down=[0,0,1],rows=2,columns=257}] => 5 cloth 0 columns
cloth=[{origin=[0,0,0],across=[1,0,0],down=[0,0,1],rows=2,columns=2,bend=257}] => 5 cloth 0 bend
cloth=[{origin=[0,0,0],across=[1,0,0],down=[0,0,1],rows=2,columns=2,bend_tear=-1,shear_tear=2147483649}] => 5 cloth 0 shear_tear
cloth=[{origin=[536870900,0,0],across=[9,0,0],down=[0,0,9],rows=3,columns=3}] => 5 cloth 0 -
particle=[{at=[0,0,0]}]; cloth=[{origin=[0,0,0],across=[0,0,0],down=[0,0,0],rows=256,columns=256}] => 6 cloth 0 -
particle=[{at=[0,0,0]}]; cloth=[{origin=[536870912,0,0],across=[1,0,0],down=[0,0,0],rows=256,columns=256}] => 5 cloth 0 -
cloth=[{origin=[0,0,0],across=[0,0,0],down=[0,0,0],rows=256,columns=256}]; rope=[{origin=[0,0,0],spacing=[0,0,0],count=1}] => 6 rope 0 -
rope=[{origin=[0,0,0],spacing=[0,0,0],count=4097}] => 5 rope 0 count
rope=[{origin=[0,0,0],count=4097}] => 3 rope 0 spacing
rope=[{origin=[536870900,0,0],spacing=[9,0,0],count=3}] => 5 rope 0 -
rope=[{origin=[536870900,0,0],spacing=[4,0,0],count=4}] => ok
particle=[{at=[0,0,0]},{at=[3,4,0]}]; link=[{a=0}] => 3 link 0 b
particle=[{at=[0,0,0]},{at=[3,4,0]}]; link=[{a=true,b=1}] => 4 link 0 a
particle=[{at=[0,0,0]},{at=[3,4,0]}]; link=[{a=0,b=1,rest=2147483649}] => 5 link 0 rest
particle=[{at=[0,0,0]},{at=[3,4,0]}]; link=[{a=0,b=1,rest=2147483648}] => ok
particle=[{at=[0,0,0]},{at=[3,4,0]}]; link=[{a=0,b=1,stiffness=257}] => 5 link 0 stiffness
particle=[{at=[0,0,0]},{at=[3,4,0]}]; link=[{a=9,b=0},{a=0,b=1,tear=-1}] => 5 link 1 tear
particle=[{at=[0,0,0]},{at=[3,4,0]}]; link=[{a=9,b=0}]; plane=[{}] => 3 plane 0 normal
particle=[{at=[0,0,0]},{at=[3,4,0]}]; link=[{a=2,b=-1}] => 7 link 0 a
particle=[{at=[0,0,0]},{at=[3,4,0]}]; link=[{a=1,b=-1}] => 7 link 0 b
particle=[{at=[0,0,0]},{at=[3,4,0]}]; link=[{a=1,b=1}] => 8 link 0 -
particle=[{at=[0,0,0]},{at=[3,4,0]}]; link=[{a=0,b=1},{a=1,b=0}] => 9 link 1 -
cloth=[{origin=[0,0,0],across=[9,0,0],down=[0,0,9],rows=3,columns=3}]; link=[{a=8,b=0},{a=4,b=8}] => 9 link 1 -
particle=[{at=[0,0,0]}]; pins=[7]; link=[{a=0,b=0}] => 8 link 0 -
plane=[{normal=[0,0,0]}] => 3 plane 0 offset
plane=[{normal=[0,0,0],offset=0}] => 5 plane 0 normal
plane=[{normal=[0,1025,0],offset=0}] => 5 plane 0 normal
plane=[{normal=[0,0,0],offset=-1099511627777}] => 5 plane 0 offset
plane=[{normal=[0,0,1],offset=-1099511627776}] => ok
sphere=[{centre=[1,0,0],radius=0}] => 5 sphere 0 radius
sphere=[{centre=[1,0,0],radius=536870912}] => 5 sphere 0 radius
sphere=[{centre=[0,0,0],radius=536870912}] => ok
particle=[{at=[0,0,0]}]; track=[{particle=0}] => 3 track 0 keys
particle=[{at=[0,0,0]}]; track=[{particle=0,keys=[]}] => 11 track 0 keys
particle=[{at=[0,0,0]}]; track=[{particle=0,keys=[[0,0,0,0],[0,1,1,1]]}] => 11 track 0 keys
particle=[{at=[0,0,0]}]; track=[{particle=0,keys=[[1000001,0,0,0],[1,1,1]]}] => 4 track 0 keys
particle=[{at=[0,0,0]}]; track=[{particle=0,keys=[[1000001,0,0,0]]}] => 5 track 0 keys
particle=[{at=[0,0,0]}]; track=[{particle=0,keys=[[0,0,0,536870913]]}] => 5 track 0 keys
particle=[{at=[0,0,0]}]; track=[{particle=9,keys=[[5,0,0,0],[4,0,0,0]]}] => 11 track 0 keys
particle=[{at=[0,0,0]}]; track=[{particle=1,keys=[[0,0,0,0]]}] => 7 track 0 particle
particle=[{at=[0,0,0]}]; track=[{particle=0,keys=[[0,0,0,0]]},{particle=0,keys=[[1,0,0,0]]}] => 11 track 1 particle
particle=[{at=[0,0,0]}]; pins=[7]; track=[{particle=1,keys=[[0,0,0,0]]}] => 7 scene 0 pins
particle=[{at=[0,0,0]}]; track=[{particle=0,keys=[[3,5,6,7],[4,1,1,1]]}] => ok
track=1; sphere=[2] => 4 sphere 0 -
track=1 => 4 track 0 -";

/// Adds what is told of a text, where there is memory for it.
fn push_told(told: &mut String, alloc: Global, text: &str) -> bool {
    match read_scene(alloc, text, LIMIT) {
        Ok(scene) => {
            drop(scene);
            told.push_str("ok").is_ok()
        }
        Err(SceneFault::NotToml) => told.push_str("not toml").is_ok(),
        Err(SceneFault::OutOfMemory) => false,
        Err(
            SceneFault::Refused {
                rule,
                table,
                position,
                key,
            },
        ) => {
            let (rule, table, key) = (rule.number(), table.name(), key.name());
            write!(told, "{rule} {table} {position} {key}").is_ok()
        }
    }
}

/// One where something else is told of a text, or nothing, which is told then behind the row. Else nothing.
fn wrong_text<R: Debug>(
    rt: &impl Eprint,
    alloc: Global,
    (row, text): (&R, &str),
    answer: &str,
) -> u32 {
    let mut told = String::new(alloc);
    let is_told = push_told(&mut told, alloc, text);
    let wrong = wrong_row(
        rt,
        (row, "is told"),
        &(is_told, told.as_str()),
        &(true, answer),
    );
    drop(told);
    wrong
}

/// The same of a case, in which `;` ends a line.
fn wrong_case(rt: &impl Eprint, alloc: Global, case: &str) -> u32 {
    let (scene, answer) = case.split_once(" => ").unwrap_or((case, "no answer"));
    match scene.replace(alloc, ";", "\n") {
        Ok(text) => {
            let wrong = wrong_text(rt, alloc, (&case, text.as_str()), answer);
            drop(text);
            wrong
        }
        Err(_) => wrong_text(rt, alloc, (&case, scene), "memory for its lines"),
    }
}

/// How many of some cases, a line each, are wrong. Each of them is told.
fn wrong_cases(rt: &impl Eprint, alloc: Global, cases: &str) -> u32 {
    let mut wrong = 0u32;
    for case in cases.lines() {
        wrong = wrong.saturating_add(wrong_case(rt, alloc, case));
    }
    wrong
}

#[test]
fn the_first_broken_rule_is_told(rt: HostRuntime) -> Result<(), WrongRows> {
    let mut wrong = wrong_cases(&rt, rt.alloc(), RULES);
    for cases in &KEYS {
        wrong = wrong.saturating_add(wrong_cases(&rt, rt.alloc(), cases));
    }
    all_hold(wrong)
}

/// A text for each number from the first on and below the second: its beginning, and texts with a number before each, which is
/// so much more.
type Lines = (u32, u32, &'static str, &'static [(u32, &'static str)]);

fn push_line(text: &mut String, number: u32, lines: &Lines) -> bool {
    let mut is_whole = text.push_str(lines.2).is_ok();
    for (more, behind) in lines.3 {
        let number = number.saturating_add(*more);
        is_whole &= write!(text, "{number}{behind}").is_ok();
    }
    is_whole
}

fn push_all(text: &mut String, parts: &[Lines]) -> bool {
    let mut is_whole = true;
    for lines in parts {
        for number in lines.0..lines.1 {
            is_whole &= push_line(text, number, lines);
        }
    }
    is_whole
}

/// One where something else is told of a scene of a row's texts, which is told then behind the row. Else nothing.
fn wrong_limit(rt: &impl Eprint, alloc: Global, row: &(&[Lines], &str)) -> u32 {
    let (parts, answer) = *row;
    let mut text = String::new(alloc);
    let is_whole = push_all(&mut text, parts);
    let answer = if is_whole { answer } else { "memory" };
    let wrong = wrong_text(rt, alloc, (row, text.as_str()), answer);
    drop(text);
    wrong
}

const TWO: Lines = (
    0,
    1,
    "particle=[{at=[0,0,0]},{at=[0,0,0]}]\ntrack=[{particle=0,keys=[[0,0,0,0]]},{particle=1,keys=[",
    &[],
);

/// 390,658 links.
const WIDE: Lines = (
    0,
    1,
    "cloth=[{origin=[0,0,0],across=[9,0,0],down=[0,0,9],rows=256,columns=256}]\nlink=[",
    &[],
);

/// Links to the particle three numbers on, and to that five numbers on: 131,064.
const BY_THREE: Lines = (0, 65_533, "{a=", &[(0, ",b="), (3, "},")]);

const BY_FIVE: Lines = (0, 65_531, "{a=", &[(0, ",b="), (5, "},")]);

const HUB: Lines = (0, 34, "[[particle]]\nat = [", &[(0, ", 0, 0]\n")]);

const SPOKES: Lines = (1, 33, "[[link]]\na = ", &[(0, "\nb = 0\n")]);

const END: Lines = (0, 1, "]", &[]);

#[test]
fn a_list_past_its_greatest_number_is_refused(rt: HostRuntime) -> Result<(), WrongRows> {
    let mut wrong = 0u32;
    for (begin, entry, count, told) in &TOO_MANY {
        let list: [Lines; 3] = [(0, 1, *begin, &[]), (0, *count, *entry, &[]), END];
        let row: (&[Lines], &str) = (&list, *told);
        wrong = wrong.saturating_add(wrong_limit(&rt, rt.alloc(), &row));
    }
    all_hold(wrong)
}

/// Scenes, and what is told of them: keys, links of meshes and entries, and links of one particle up to their greatest numbers
/// and past them.
static LIMITS: [(&[Lines], &str); 7] = [
    (
        &[TWO, (0, 1_024, "[", &[(0, ",0,0,0],")]), (0, 1, "]}]", &[])],
        "ok",
    ),
    (
        &[TWO, (0, 1_025, "[", &[(0, ",0,0,0],")]), (0, 1, "]}]", &[])],
        "6 track 1 keys",
    ),
    (
        &[
            WIDE,
            BY_THREE,
            BY_FIVE,
            (0, 2_566, "{a=", &[(0, ",b="), (7, "},")]),
            END,
        ],
        "ok",
    ),
    (
        &[
            WIDE,
            BY_THREE,
            BY_FIVE,
            (0, 2_567, "{a=", &[(0, ",b="), (7, "},")]),
            END,
        ],
        "6 link 133630 -",
    ),
    (&[HUB, SPOKES], "ok"),
    (
        &[HUB, SPOKES, (0, 1, "[[link]]\na = 33\nb = 0\n", &[])],
        "10 link 32 b",
    ),
    (
        &[HUB, SPOKES, (0, 1, "[[link]]\na = 0\nb = 33\n", &[])],
        "10 link 32 a",
    ),
];

#[test]
fn what_is_past_the_greatest_numbers_is_refused(rt: HostRuntime) -> Result<(), WrongRows> {
    let mut wrong = 0u32;
    for row in &LIMITS {
        wrong = wrong.saturating_add(wrong_limit(&rt, rt.alloc(), row));
    }
    all_hold(wrong)
}

static ENTRY_LINKS: [Link; 1] = [link!(Kind::Plain, 1, 0, 5, 256, 0)];

macro_rules! particle {
    ($at:expr, $before:expr, $weight:expr, $held:expr) => {
        Particle {
            at: $at,
            before: $before,
            weight: $weight,
            held: $held,
        }
    };
}

static ENTRIES: [Particle; 4] = [
    particle!(place!(0, 0, 0), place!(0, 0, 0), 1, false),
    particle!(place!(3, 4, 0), place!(2, 3, -1), 7, false),
    particle!(place!(9, 9, 9), place!(9, 9, 9), 1, true),
    particle!(place!(5, 5, 5), place!(5, 5, 5), 1, true),
];

/// One where the parts of the scene below hold something else, which is told then. Else nothing. Its own numbers are what they
/// are where a scene has gravity alone.
fn wrong_entries(rt: &impl Eprint, parts: &Parts) -> u32 {
    let shares = [parts.damping, parts.thickness, parts.friction];
    let numbers = (parts.passes, parts.gravity, shares, parts.limit);
    let (particles, links) = (parts.particles.as_slice(), parts.links.as_slice());
    let gravity = place!(0, -10, 0);
    wrong_row(
        rt,
        (&"the scene", "holds"),
        &(particles, links, numbers),
        &(
            ENTRIES.as_slice(),
            ENTRY_LINKS.as_slice(),
            (1, gravity, [0; 3], LIMIT),
        ),
    )
}

#[test]
fn keys_that_are_left_out_have_their_defaults(rt: HostRuntime) -> Result<(), WrongRows> {
    let text = "
        gravity = [0, -10, 0]
        pins = [2]
        particle = [{at=[0,0,0]}, {at=[3,4,0],velocity=[1,1,1],weight=7}, {at=[9,9,9],velocity=[1,0,0]}, {at=[5,5,5]}]
        link = [{a=1,b=0}]
        track = [{particle=3,keys=[[4,1,2,3]]}]
    ";
    match read_scene(rt.alloc(), text, LIMIT) {
        Ok(scene) => {
            let wrong = wrong_entries(&rt, scene.parts());
            drop(scene);
            all_hold(wrong)
        }
        Err(fault) => all_hold(wrong_row(&rt, (&text, "is read"), &Some(fault), &None)),
    }
}
