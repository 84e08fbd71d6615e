//! Opening and closing.
ghost use Rattle.std.specs.Prelude.{◌≡◌};
ghost use Rattle.std.specs.declared.option.Option.TheVariants.{None};
ghost use Rattle.lakmozet_c.specs.Calls.{HoldsSound};
ghost use Rattle.lakmozet_c.specs.Faults.{OpensOr};

use crate::handle::Handle;
use crate::numbers;
use crate::opening::{cloth_of, fault_of, stop_number};
use crate::plain::Fault;
use std::alloc::Global;

/// Opens the scene of a TOML text, with up to 16 slots.
#[unsafe(no_mangle)]
pub extern "C" fn lak_open(
    alloc: Global,
    handle: &mut Handle,
    toml: &[u8],
    slots: u32,
    fault: &mut Fault,
) -> i32
    ensures opened { OpensOr handle.old.held toml.now slots handle.new.held result fault.old fault.new }
    ensures sound { HoldsSound handle.new.held }
{
    match handle.take(alloc) {
        Some(cloth) => {
            handle.put(alloc, cloth);
            numbers::IN_USE
        }
        None => match cloth_of(alloc, toml, slots) {
            Ok(cloth) => {
                handle.put(alloc, cloth);
                0
            }
            Err(why) => {
                *fault = fault_of(&why);
                stop_number(&why)
            }
        },
    }
}

/// Gives all memory back. What is closed stays closed.
#[unsafe(no_mangle)]
pub extern "C" fn lak_close(alloc: Global, handle: &mut Handle)
    ensures { handle.new.held ≡ None }
{
    match handle.take(alloc) {
        Some(cloth) => drop(cloth),
        None => (),
    }
}
