//! Worlds as bytes: written, read and hashed.
ghost use Rattle.std.specs.Prelude.{◌≡◌, pos, length, Some};
ghost use Rattle.sha2.specs.Sha256.{sha256};
ghost use Rattle.pbd_encoding.specs.Encoding.{state_bytes};
ghost use Rattle.pbd_state.specs.Checksum.{checksum};
ghost use Rattle.pbd_state.specs.Reading.{reading};
ghost use Rattle.pbd_cloth.specs.States.{resumed};
ghost use Rattle.lakmozet_c.specs.Calls.{answered, has_slot, read_from, room_answer, slot_left, Acts, Keeps, Reads, ReadsSlot};
ghost use Rattle.lakmozet_c.specs.States.{offset_left, size_of, state_answer, state_left};

use crate::handle::{Handle, with_cloth};
use crate::numbers::{CLOSED, NO_ROOM, NO_SLOT, NO_STATE};
use crate::plain::Hash;
use crate::slots::with_slot;
use pbd_cloth::Cloth;
use pbd_state::NoRoom;
use std::alloc::Global;

/// Says how many bytes a state of the handle's scene has.
#[unsafe(no_mangle)]
pub extern "C" fn lak_state_size(alloc: Global, handle: &mut Handle, size: &mut usize) -> i32
    ensures { Reads (λ c. size_of c) handle.old.held handle.new.held result size.old size.new }
{
    with_cloth!(alloc, handle, cloth => {
        *size = cloth.state_size();
        0
    })
}

fn write(cloth: &Cloth, scene: &[u8; 32], into: &mut [u8]) -> i32
    ensures answer { result ≡ pos (room_answer (size_of cloth.now) (length into.old)) }
    ensures into { into.new ≡ state_left scene.now cloth.now into.old }
{
    if into.len() < cloth.state_size() {
        return NO_ROOM;
    }
    match cloth.write_state(scene, into) {
        Ok(_) => 0,
        Err(NoRoom) => NO_ROOM,
    }
}

/// Writes the state of the world at the front of `into`, where there is room for all of it, and says how many bytes it has.
#[unsafe(no_mangle)]
pub extern "C" fn lak_state_write(
    alloc: Global,
    handle: &mut Handle,
    scene: Hash,
    into: &mut [u8],
    size: &mut usize,
) -> i32
    ensures kept { Keeps handle.old.held handle.new.held }
    ensures answer { result ≡ pos (answered handle.old.held (λ c. room_answer (size_of c) (length into.old))) }
    ensures size { size.new ≡ read_from handle.old.held (λ c. size_of c) size.old }
    ensures written { into.new ≡ read_from handle.old.held (λ c. state_left scene.bytes c into.old) into.old }
{
    with_cloth!(alloc, handle, cloth => {
        *size = cloth.state_size();
        write(&cloth, &scene.bytes, into)
    })
}

fn read(cloth: &mut Cloth, scene: &[u8; 32], bytes: &[u8], offset: &mut u64) -> i32
    ensures read { Acts (λ c. resumed scene.now c bytes.now) (λ c. state_answer (reading scene.now c.world bytes.now))
        (Some cloth.old) (Some cloth.new) result }
    ensures offset { offset.new ≡ offset_left (reading scene.now cloth.old.world bytes.now) offset.old }
{
    match cloth.read_state(scene, bytes) {
        Ok(()) => 0,
        Err(fault) => {
            *offset = fault.offset;
            NO_STATE
        }
    }
}

/// Goes over to the world of the scene whose state the bytes are, and changes no slot; or says where they go wrong.
#[unsafe(no_mangle)]
pub extern "C" fn lak_state_read(
    alloc: Global,
    handle: &mut Handle,
    scene: Hash,
    bytes: &[u8],
    offset: &mut u64,
) -> i32
    ensures read { Acts (λ c. resumed scene.bytes c bytes.now) (λ c. state_answer (reading scene.bytes c.world bytes.now))
        handle.old.held handle.new.held result }
    ensures offset { offset.new
        ≡ read_from handle.old.held (λ c. offset_left (reading scene.bytes c.world bytes.now) offset.old) offset.old }
{
    with_cloth!(alloc, handle, mut cloth => read(&mut cloth, &scene.bytes, bytes, offset))
}

/// Writes the SHA-256 digest of the state of the world.
#[unsafe(no_mangle)]
pub extern "C" fn lak_digest(
    alloc: Global,
    handle: &mut Handle,
    scene: Hash,
    digest: &mut Hash,
) -> i32
    ensures { Reads (λ c. sha256 (state_bytes scene.bytes c.world))
        handle.old.held handle.new.held result digest.old.bytes digest.new.bytes }
{
    with_cloth!(alloc, handle, cloth => {
        digest.bytes = cloth.digest(&scene.bytes);
        0
    })
}

fn digest_slot(cloth: &Cloth, scene: &[u8; 32], slot: u32, digest: &mut Hash) -> i32
    ensures answer { result ≡ pos (has_slot cloth.now slot) }
    ensures digest { digest.new.bytes ≡ slot_left cloth.now slot (λ w. sha256 (state_bytes scene.now w)) digest.old.bytes }
{
    with_slot!(cloth, slot => {
        digest.bytes = cloth.digest_slot(scene, slot);
        0
    })
}

/// Writes the SHA-256 digest of the state of the world in a slot.
#[unsafe(no_mangle)]
pub extern "C" fn lak_digest_slot(
    alloc: Global,
    handle: &mut Handle,
    slot: u32,
    scene: Hash,
    digest: &mut Hash,
) -> i32
    ensures { ReadsSlot (λ w. sha256 (state_bytes scene.bytes w)) slot
        handle.old.held handle.new.held result digest.old.bytes digest.new.bytes }
{
    with_cloth!(alloc, handle, cloth => digest_slot(&cloth, &scene.bytes, slot, digest))
}

/// Writes the checksum of the world, a 64-bit number for each turn.
#[unsafe(no_mangle)]
pub extern "C" fn lak_checksum(alloc: Global, handle: &mut Handle, sum: &mut u64) -> i32
    ensures { Reads (λ c. checksum c.world) handle.old.held handle.new.held result sum.old sum.new }
{
    with_cloth!(alloc, handle, cloth => {
        *sum = cloth.checksum();
        0
    })
}

fn checksum_slot(cloth: &Cloth, slot: u32, sum: &mut u64) -> i32
    ensures answer { result ≡ pos (has_slot cloth.now slot) }
    ensures sum { sum.new ≡ slot_left cloth.now slot checksum sum.old }
{
    with_slot!(cloth, slot => {
        *sum = cloth.checksum_slot(slot);
        0
    })
}

/// Writes the checksum of the world in a slot.
#[unsafe(no_mangle)]
pub extern "C" fn lak_checksum_slot(
    alloc: Global,
    handle: &mut Handle,
    slot: u32,
    sum: &mut u64,
) -> i32
    ensures { ReadsSlot checksum slot handle.old.held handle.new.held result sum.old sum.new }
{
    with_cloth!(alloc, handle, cloth => checksum_slot(&cloth, slot, sum))
}
