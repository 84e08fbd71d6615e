//! Worked steps and commands at each width: both projectors answer as the rows say, and leave the same worlds.
use super::both::{Script, wrong_script};
use super::step_rows::{ROWS, Row};
use pbd_num::Vec3;
use pbd_tests_rows::{WrongRows, all_hold};
use pbd_tests_scenes::in_a_row;
use pbd_world::{Command, Refusal, Reply};

/// How many rows the two projectors don't answer as they say.
fn wrong_rows(rt: &HostRuntime, rows: &[Row]) -> u32 {
    let mut wrong = 0u32;
    for row in rows {
        let script = Script {
            commands: row.commands,
            particles: row.scene.particles.len(),
            places: row.places,
        };
        let scene = row.drawn(rt.alloc());
        wrong = wrong.saturating_add(wrong_script(rt, &row.name, scene, &script));
    }
    wrong
}

#[test]
fn both_projectors_answer_as_the_rows_say(rt: HostRuntime) -> Result<(), WrongRows> {
    all_hold(wrong_rows(&rt, &ROWS))
}

static TOO_MANY_TOUCH: Script<'static> = Script {
    commands: &[
        (
            Command::Step(1),
            Some(Reply::Refused(Refusal::TooManyContacts { step: 1 })),
        ),
        (Command::Pin(0), Some(Reply::Done)),
        (
            Command::Step(7),
            Some(Reply::Refused(Refusal::TooManyContacts { step: 1 })),
        ),
    ],
    particles: 725,
    places: &[Vec3 { x: 0, y: 0, z: 0 }, Vec3 { x: 1, y: 0, z: 0 }],
};

#[test]
fn contacts_past_their_greatest_number_are_refused(rt: HostRuntime) -> Result<(), WrongRows> {
    let name = "725 particles that touch each other";
    let scene = in_a_row(rt.alloc(), 725);
    all_hold(wrong_script(&rt, &name, scene, &TOO_MANY_TOUCH))
}
