//! The world of a cloth as bytes.
ghost use Rattle.std.specs.Prelude.{◌≡◌, ◌<◌, ◌≤◌, ◌++◌, drop, length, IfOk, OnErr};
ghost use Rattle.sha2.specs.Sha256.{sha256};
ghost use Rattle.pbd_encoding.specs.Encoding.{state_bytes, state_size};
ghost use Rattle.pbd_state.specs.Checksum.{checksum as checksum_of};
ghost use Rattle.pbd_state.specs.Reading.{reading};
ghost use Rattle.pbd_cloth.specs.Slots.{slot_at, AreSlots};
ghost use Rattle.pbd_cloth.specs.States.{resumed};

use crate::Cloth;
use crate::counted::{checksum_counted, digest_counted, read_counted, write_counted};
use pbd_encoding::StateFault;
use pbd_state::{NoRoom, state_size};
use std::marker::Brand;
use std::sync::ledger::Blank;

impl Cloth {
    /// How many bytes a state of the cloth's scene has, at most 3,735,972.
    pub fn state_size(&self) -> usize
        ensures value { result ≡ state_size (length self.now.world.particles) (length self.now.world.links) }
        ensures size { result ≤ 3735972 }
        ensures sound { AreSlots self.now.world self.now.slots }
    {
        state_size(&self.playing.solver().shown())
    }

    /// Writes the state of the world at the front of some bytes, and answers how many it has. `scene` names the scene. It
    /// fails only where there is no room, and writes nothing then.
    pub fn write_state(&self, scene: &[u8; 32], into: &mut [u8]) -> Result<usize, NoRoom>
        ensures written { IfOk result (λ len. into.new ≡ state_bytes scene.now self.now.world ++ drop len into.old) }
        ensures size { IfOk result (λ len. len ≡ state_size (length self.now.world.particles) (length self.now.world.links)) }
        ensures kept { OnErr result (into.new ≡ into.old) }
        ensures short { OnErr result (length into.old < state_size (length self.now.world.particles) (length self.now.world.links)) }
        ensures sound { AreSlots self.now.world self.now.slots }
    {
        write_counted::<Brand>(Blank::new(1), scene, &self.playing.solver().shown(), into)
    }

    /// Goes over to the world of the scene of which some bytes are the state, and changes no slot. `scene` names the scene.
    /// Else the fault says where they go wrong, and nothing changes.
    pub fn read_state(&mut self, scene: &[u8; 32], bytes: &[u8]) -> Result<(), StateFault>
        ensures value { result ≡ reading scene.now self.old.world bytes.now }
        ensures cloth { self.new ≡ resumed scene.now self.old bytes.now }
        ensures sound { AreSlots self.new.world self.new.slots }
    {
        read_counted::<Brand>(Blank::new(1), scene, &mut self.playing, bytes)
    }

    /// The SHA-256 digest of the state of the world. `scene` names the scene.
    pub fn digest(&self, scene: &[u8; 32]) -> [u8; 32]
        ensures value { result ≡ sha256 (state_bytes scene.now self.now.world) }
        ensures sound { AreSlots self.now.world self.now.slots }
    {
        digest_counted::<Brand>(Blank::new(1), scene, &self.playing.solver().shown())
    }

    /// The SHA-256 digest of the state of the world in a slot. `scene` names the scene.
    pub fn digest_slot(&self, scene: &[u8; 32], slot: u32) -> [u8; 32]
        requires { slot < length self.now.slots }
        ensures value { result ≡ sha256 (state_bytes scene.now (slot_at self.now slot)) }
        ensures sound { AreSlots self.now.world self.now.slots }
    {
        digest_counted::<Brand>(Blank::new(1), scene, &self.kept[slot as usize].shown())
    }

    /// The checksum of the world, a 64-bit number for each turn.
    pub fn checksum(&self) -> u64
        ensures value { result ≡ checksum_of self.now.world }
        ensures sound { AreSlots self.now.world self.now.slots }
    {
        checksum_counted::<Brand>(Blank::new(1), &self.playing.solver().shown())
    }

    /// The checksum of the world in a slot.
    pub fn checksum_slot(&self, slot: u32) -> u64
        requires { slot < length self.now.slots }
        ensures value { result ≡ checksum_of (slot_at self.now slot) }
        ensures sound { AreSlots self.now.world self.now.slots }
    {
        checksum_counted::<Brand>(Blank::new(1), &self.kept[slot as usize].shown())
    }
}
