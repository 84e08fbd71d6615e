//! Saving and restoring whole worlds.
ghost use Rattle.std.specs.Prelude.{Some};
ghost use Rattle.lakmozet_c.specs.Calls.{has_slot, restored_from, saved_in, Acts};

use crate::handle::{Handle, with_cloth};
use crate::numbers::{CLOSED, NO_SLOT};
use pbd_cloth::Cloth;
use std::alloc::Global;

/// Answers by a slot of a cloth: `NO_SLOT` where it isn't there.
macro_rules! with_slot {
    ($cloth:ident, $slot:ident => $answer:expr) => {
        if $slot < $cloth.slots() {
            $answer
        } else {
            NO_SLOT
        }
    };
}

pub(crate) use with_slot;

fn save(cloth: &mut Cloth, slot: u32) -> i32
    ensures { Acts (λ c. saved_in c slot) (λ c. has_slot c slot) (Some cloth.old) (Some cloth.new) result }
{
    with_slot!(cloth, slot => {
        cloth.save(slot);
        0
    })
}

fn restore(cloth: &mut Cloth, slot: u32) -> i32
    ensures { Acts (λ c. restored_from c slot) (λ c. has_slot c slot) (Some cloth.old) (Some cloth.new) result }
{
    with_slot!(cloth, slot => {
        cloth.restore(slot);
        0
    })
}

/// Keeps the world in a slot, and changes no other slot.
#[unsafe(no_mangle)]
pub extern "C" fn lak_save(alloc: Global, handle: &mut Handle, slot: u32) -> i32
    ensures { Acts (λ c. saved_in c slot) (λ c. has_slot c slot) handle.old.held handle.new.held result }
{
    with_cloth!(alloc, handle, mut cloth => save(&mut cloth, slot))
}

/// Goes back to the world in a slot, and changes no slot.
#[unsafe(no_mangle)]
pub extern "C" fn lak_restore(alloc: Global, handle: &mut Handle, slot: u32) -> i32
    ensures { Acts (λ c. restored_from c slot) (λ c. has_slot c slot) handle.old.held handle.new.held result }
{
    with_cloth!(alloc, handle, mut cloth => restore(&mut cloth, slot))
}
