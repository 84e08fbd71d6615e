//! A scene has one name, which each of seven of its fixed numbers changes, and which a step, a cut and another gravity don't.
ghost use Rattle.std.specs.Prelude.{◌≡◌, ◌<◌};

use super::hostile::{Tested, solver_of};
use pbd_num::Vec3;
use pbd_state::scene_name;
use pbd_store::Steps;
use pbd_tests_rows::{WrongRows, all_hold, held, link, place, plane, resting, wrong_row};
use pbd_tests_scenes::{Drawing, EMPTY, scene};
use pbd_world::{Key, Kind, Link, Particle, PartsFault, Plane, Sphere};
use std::alloc::Global;
use std::marker::Brand;
use std::sync::ledger::{Blank, Ledger};

/// A scene, and its name, as Python's hashlib gives it of bytes that were put together by hand.
#[derive(Clone, Copy)]
struct Row {
    what: &'static str,
    scene: Drawing,
    name: &'static [u8; 32],
}

/// What differs from the first scene, and the name; then the numbers in which scenes differ: the weight of the free one of two
/// particles, the stiffness and the kind of the link between them, the step of a track's key, the normal of a plane, upwards,
/// the radius of a sphere, and the friction.
macro_rules! row {
    ($what:expr; $name:expr; $weight:expr, $k:expr, $kind:ident, $step:expr, $normal:expr, $radius:expr, $friction:expr) => {
        Row {
            what: $what,
            scene: Drawing {
                particles: &[
                    held!(0, 0, 0),
                    Particle {
                        weight: $weight,
                        ..resting!(100, 0, 0)
                    },
                ],
                links: &[Link {
                    k: $k,
                    kind: Kind::$kind,
                    ..link!(0, 1, 100)
                }],
                planes: &[plane!(0, $normal, 0, -5000)],
                spheres: &[Sphere {
                    centre: place!(0, -10000, 0),
                    radius: $radius,
                }],
                tracks: &[(
                    0,
                    &[Key {
                        step: $step,
                        place: place!(0, 0, 0),
                    }],
                )],
                friction: $friction,
                ..EMPTY
            },
            name: $name,
        }
    };
}

static ROWS: [Row; 8] = [
    row!("none"; b"\xdd\x9f\x2b\xfa\x6c\x1b\xd0\x95\x5a\x4a\xa8\x5c\x58\x5b\x4e\x2c\xfc\x88\x1f\x61\x03\x66\x41\x3f\x20\x0b\xf8\xd2\x8e\x1a\xf2\x37"; 2, 256, Plain, 9, 1, 50, 7),
    row!("weight"; b"\xba\xb1\xfc\x8c\xe6\x02\x85\xe7\x23\xb2\x02\x41\xf7\x90\x11\xcf\x1c\x83\xbe\x95\x69\x25\x45\xb1\x36\xff\xa2\xb4\x61\x4d\x4b\x79"; 3, 256, Plain, 9, 1, 50, 7),
    row!("stiffness"; b"\xac\x63\x8c\x8b\xa4\xa7\x9f\x46\xd9\x31\xb8\xd2\xf1\xa1\x8e\x8b\xc0\xb2\x65\x5d\x7e\x79\x01\xec\x50\x7a\x5f\x17\x7e\x67\x44\xf6"; 2, 255, Plain, 9, 1, 50, 7),
    row!("kind"; b"\x1d\xbc\x8d\x50\xb6\xdf\xd8\x62\xb4\x10\xa7\x88\xd8\x50\x32\xc5\xe4\x66\xb4\x74\xf2\xcf\x44\x66\xde\xe9\xc8\x81\xae\x24\xbd\x13"; 2, 256, Bend, 9, 1, 50, 7),
    row!("key"; b"\xce\x1a\x9e\x5e\x71\xb6\x63\xdc\x88\x5d\xa4\x87\x87\xa7\xb7\xe4\x6c\x53\xde\xf8\x7d\xcf\x7c\x6b\xe1\xf8\xf5\x02\x2f\x51\x12\x2b"; 2, 256, Plain, 10, 1, 50, 7),
    row!("plane"; b"\xc2\x9b\x98\x7c\x9a\xca\x8b\x31\x9a\x5a\xdc\x7c\xa7\x51\xd7\x6a\x66\xd8\xb4\xdd\x97\xc9\xbf\xa4\x5f\x61\xdd\xe9\xc5\xc0\xca\x16"; 2, 256, Plain, 9, 2, 50, 7),
    row!("sphere"; b"\x55\xcc\x64\x00\x0c\x4d\x5f\x5a\x1e\x97\x80\x78\xb6\x8f\x04\x5b\x5b\x6c\xc1\xd3\x6b\xa3\x88\xab\xcc\x64\xa4\xc7\x85\xd2\xb9\xd0"; 2, 256, Plain, 9, 1, 51, 7),
    row!("friction"; b"\x1f\x16\x17\x9d\x03\x78\xda\x17\x98\x8a\x98\xce\xe6\xb0\xe9\x7b\x84\xde\x3b\xe6\x46\x2f\x30\x57\x9a\x8e\x1f\x89\x6e\xd5\x6e\x87"; 2, 256, Plain, 9, 1, 50, 8),
];

/// Whether the name stands before any command, and after a step, a cut and another gravity.
fn keeps_its_name<G: Ledger>(solver: &mut Tested, name: &[u8; 32], steps: &mut Steps<G>) -> bool {
    let opened = scene_name(&solver.shown(), steps);
    let played = [
        solver.steps(1, steps),
        solver.cut(0),
        solver.set_gravity(Vec3 { x: 0, y: -10, z: 0 }),
    ];
    let names = [opened, scene_name(&solver.shown(), steps)];
    played == [Ok(()); 3] && names == [*name; 2]
}

fn holds<G: Ledger>(alloc: Global, row: &Row, steps: &mut Steps<G>) -> Result<bool, PartsFault> {
    let mut solver = solver_of(alloc, scene(alloc, &row.scene))?;
    let holds = keeps_its_name(&mut solver, row.name, steps);
    drop(solver);
    Ok(holds)
}

/// How many rows have this name.
fn rows_of(rows: &[Row], name: &[u8; 32]) -> u32 {
    let mut count = 0u32;
    for row in rows {
        count = count.saturating_add(u32::from(row.name == name));
    }
    count
}

const OWN: &str =
    "has a name of its own, which a step, a cut and another gravity don't change at width 4";

/// How many rows don't hold, or share their name. Each of them is told.
fn wrong_rows<G: Ledger>(rt: &impl Eprint, alloc: Global, blank: Blank, rows: &[Row]) -> u32
    requires name { blank.name ≡ G.name }
    requires parts { blank.parts ≡ G.parts }
    requires some { 0 < blank.parts }
{
    let mut steps: Steps<G> = Steps::open(blank);
    let mut wrong = 0u32;
    for row in rows {
        let told = (rows_of(rows, row.name), holds(alloc, row, &mut steps));
        wrong = wrong.saturating_add(wrong_row(rt, (&row.what, OWN), &told, &(1, Ok(true))));
    }
    drop(steps);
    wrong
}

#[test]
fn fixed_numbers_change_the_name_and_three_commands_do_not(
    rt: HostRuntime,
) -> Result<(), WrongRows> {
    all_hold(wrong_rows::<Brand>(&rt, rt.alloc(), Blank::new(1), &ROWS))
}
