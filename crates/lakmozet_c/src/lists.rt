//! Lists that a program reads of what its handle holds, which stays as it is.
ghost use Rattle.std.specs.Prelude.{◌≡◌, pos, length};
ghost use Rattle.pbd_cloth.specs.Reading.{held_bytes, link_entries, live_bytes, places, places_before};
ghost use Rattle.lakmozet_c.specs.Calls.{answered, gone_answer, gone_count, gone_left, read_from, room_answer, Keeps, ReadsList};

use crate::handle::{Handle, with_cloth};
use crate::numbers::{CLOSED, NO_ROOM, NO_SLOT};
use crate::slots::with_slot;
use pbd_cloth::{Cloth, LinkEntry, Place};
use std::alloc::Global;

/// Whether so many fit.
pub(crate) fn room_for(count: usize, room: usize) -> i32
    ensures { result ≡ pos (room_answer count room) }
{
    if count <= room { 0 } else { NO_ROOM }
}

/// Writes the places of the particles, as many as there is room for, and how many there are.
#[unsafe(no_mangle)]
pub extern "C" fn lak_places(
    alloc: Global,
    handle: &mut Handle,
    into: &mut [Place],
    count: &mut u32,
) -> i32
    ensures { ReadsList (λ c. length c.world.particles) (λ c. places c.world) handle.old.held handle.new.held result
        count.old count.new into.old into.new }
{
    with_cloth!(alloc, handle, cloth => {
        *count = cloth.places(into);
        room_for(*count as usize, into.len())
    })
}

/// Writes the places of one step before, as friction and commands left them, as many as there is room for, and how many there are.
#[unsafe(no_mangle)]
pub extern "C" fn lak_places_before(
    alloc: Global,
    handle: &mut Handle,
    into: &mut [Place],
    count: &mut u32,
) -> i32
    ensures { ReadsList (λ c. length c.world.particles) (λ c. places_before c.world) handle.old.held handle.new.held result
        count.old count.new into.old into.new }
{
    with_cloth!(alloc, handle, cloth => {
        *count = cloth.places_before(into);
        room_for(*count as usize, into.len())
    })
}

/// Writes a 1 for each held particle and a 0 for each other, as many as there is room for, and how many particles there are.
#[unsafe(no_mangle)]
pub extern "C" fn lak_held(
    alloc: Global,
    handle: &mut Handle,
    into: &mut [u8],
    count: &mut u32,
) -> i32
    ensures { ReadsList (λ c. length c.world.particles) (λ c. held_bytes c.world) handle.old.held handle.new.held result
        count.old count.new into.old into.new }
{
    with_cloth!(alloc, handle, cloth => {
        *count = cloth.held(into);
        room_for(*count as usize, into.len())
    })
}

/// Writes a 1 for each live link and a 0 for each other, as many as there is room for, and how many links there are.
#[unsafe(no_mangle)]
pub extern "C" fn lak_live(
    alloc: Global,
    handle: &mut Handle,
    into: &mut [u8],
    count: &mut u32,
) -> i32
    ensures { ReadsList (λ c. length c.world.links) (λ c. live_bytes c.world) handle.old.held handle.new.held result
        count.old count.new into.old into.new }
{
    with_cloth!(alloc, handle, cloth => {
        *count = cloth.live(into);
        room_for(*count as usize, into.len())
    })
}

/// Writes the links, as many as there is room for, and how many there are, live ones and others.
#[unsafe(no_mangle)]
pub extern "C" fn lak_links(
    alloc: Global,
    handle: &mut Handle,
    into: &mut [LinkEntry],
    count: &mut u32,
) -> i32
    ensures { ReadsList (λ c. length c.world.links) (λ c. link_entries c.world) handle.old.held handle.new.held result
        count.old count.new into.old into.new }
{
    with_cloth!(alloc, handle, cloth => {
        *count = cloth.link_entries(into);
        room_for(*count as usize, into.len())
    })
}

/// Writes the numbers of the links that are live in a slot's world and not live now, and answers whether all fit, or that there is
/// no such slot.
fn gone_since(cloth: &Cloth, slot: u32, into: &mut [u32], count: &mut u32) -> i32
    ensures answer { result ≡ pos (gone_answer cloth.now slot (length into.old)) }
    ensures count { count.new ≡ gone_count cloth.now slot count.old }
    ensures written { into.new ≡ gone_left cloth.now slot into.old }
{
    with_slot!(cloth, slot => {
        *count = cloth.gone_since(slot, into);
        room_for(*count as usize, into.len())
    })
}

/// Writes the numbers, ascending, of the links that are live in a slot's world and not live now, as many as there is room
/// for, and how many there are.
#[unsafe(no_mangle)]
pub extern "C" fn lak_gone_since(
    alloc: Global,
    handle: &mut Handle,
    slot: u32,
    into: &mut [u32],
    count: &mut u32,
) -> i32
    ensures kept { Keeps handle.old.held handle.new.held }
    ensures answer { result ≡ pos (answered handle.old.held (λ c. gone_answer c slot (length into.old))) }
    ensures count { count.new ≡ read_from handle.old.held (λ c. gone_count c slot count.old) count.old }
    ensures written { into.new ≡ read_from handle.old.held (λ c. gone_left c slot into.old) into.old }
{
    with_cloth!(alloc, handle, cloth => gone_since(&cloth, slot, into, count))
}
