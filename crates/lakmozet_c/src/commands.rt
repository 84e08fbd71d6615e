//! Commands: each does to the handle's world what its meaning says, or refuses and changes nothing.
ghost use Rattle.std.specs.Prelude.{◌≡◌};
ghost use Rattle.pbd_world.specs.declared.command.Command.TheVariants as commands;
ghost use Rattle.pbd_cloth.specs.Slots.{played};
ghost use Rattle.lakmozet_c.specs.Calls.{answer_to, done_to, left_of, vector_of, HoldsSound, Obeys};

use crate::handle::Handle;
use crate::numbers::CLOSED;
use crate::plain::Left;
use pbd_cloth::Place;
use pbd_log::{Answer, answer_of};
use pbd_num::Vec3;
use pbd_world::Command;
use std::alloc::Global;

/// Does a command on what the handle holds.
#[tactic(auto, using(crate::proofs::Refusing::refused))]
fn answer_to(alloc: Global, handle: &mut Handle, command: &Command) -> Answer
    ensures held { handle.new.held ≡ done_to (λ c. played c command.now) handle.old.held }
    ensures answer { result ≡ answer_to handle.old.held command.now }
    ensures kept { (result.number ≡ 0 → ⊥) → handle.new.held ≡ handle.old.held }
    ensures sound { HoldsSound handle.new.held }
{
    match handle.take(alloc) {
        Some(mut cloth) => {
            let reply = cloth.apply(command);
            handle.put(alloc, cloth);
            answer_of(&reply)
        }
        None => Answer {
            number: CLOSED as u8,
            step: 0,
            phase: 0,
            element: 0,
        },
    }
}

/// The same, and its number alone.
fn obeyed(alloc: Global, handle: &mut Handle, command: &Command) -> i32
    ensures { Obeys command.now handle.old.held handle.new.held result }
{
    let answer = answer_to(alloc, handle, command);
    i32::from(answer.number)
}

pub(crate) fn vector_of(place: Place) -> Vec3
    ensures { result ≡ vector_of place }
{
    Vec3 {
        x: place.x,
        y: place.y,
        z: place.z,
    }
}

/// Takes n steps, 1 to 100,000, or none where one of them is refused.
#[unsafe(no_mangle)]
pub extern "C" fn lak_step(alloc: Global, handle: &mut Handle, n: u64, left: &mut Left) -> i32
    ensures stepped { Obeys (commands.Step n) handle.old.held handle.new.held result }
    ensures left { left.new ≡ left_of (answer_to handle.old.held (commands.Step n)) }
{
    let answer = answer_to(alloc, handle, &Command::Step(n));
    *left = Left {
        step: answer.step,
        element: answer.element,
        phase: answer.phase,
    };
    i32::from(answer.number)
}

/// Holds particle i where it is.
#[unsafe(no_mangle)]
pub extern "C" fn lak_pin(alloc: Global, handle: &mut Handle, i: u64) -> i32
    ensures { Obeys (commands.Pin i) handle.old.held handle.new.held result }
{
    obeyed(alloc, handle, &Command::Pin(i))
}

/// Frees particle i, at rest.
#[unsafe(no_mangle)]
pub extern "C" fn lak_unpin(alloc: Global, handle: &mut Handle, i: u64) -> i32
    ensures { Obeys (commands.Unpin i) handle.old.held handle.new.held result }
{
    obeyed(alloc, handle, &Command::Unpin(i))
}

/// Puts the held particle i at a place.
#[unsafe(no_mangle)]
pub extern "C" fn lak_move(alloc: Global, handle: &mut Handle, i: u64, to: Place) -> i32
    ensures { Obeys (commands.Move i (vector_of to)) handle.old.held handle.new.held result }
{
    let to = vector_of(to);
    obeyed(alloc, handle, &Command::Move { particle: i, to })
}

/// Lets link l go.
#[unsafe(no_mangle)]
pub extern "C" fn lak_cut(alloc: Global, handle: &mut Handle, l: u64) -> i32
    ensures { Obeys (commands.Cut l) handle.old.held handle.new.held result }
{
    obeyed(alloc, handle, &Command::Cut(l))
}

/// Sets gravity, in units per step squared.
#[unsafe(no_mangle)]
pub extern "C" fn lak_gravity(alloc: Global, handle: &mut Handle, gravity: Place) -> i32
    ensures { Obeys (commands.Gravity (vector_of gravity)) handle.old.held handle.new.held result }
{
    obeyed(alloc, handle, &Command::Gravity(vector_of(gravity)))
}
