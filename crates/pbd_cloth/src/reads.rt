//! What a cloth shows, copied into a caller's memory.
ghost use Rattle.std.specs.Prelude.{◌≡◌, ◌+◌, ◌<◌, ◌≤◌, if◌then◌else◌, length, nat_lt, slice_set};
ghost use Rattle.std.specs.List.{position};
ghost use Rattle.pbd_world.specs.Bonds.{link_at};
ghost use Rattle.pbd_world.specs.Ledger.{ledger_of, sum_of};
ghost use Rattle.pbd_world.specs.Lending.{overwritten};
ghost use Rattle.pbd_world.specs.Momentum.{momentum};
ghost use Rattle.pbd_world.specs.World.{live_count};
ghost use Rattle.pbd_cloth.specs.Slots.{slot_at, AreSlots};
ghost use Rattle.pbd_cloth.specs.Reading.{places, places_before, live_bytes, held_bytes, link_entries, joins_ends, link_between, has_gone, gone_numbers, gone_since};

use crate::copying::{Before, Held, Live, Now, Whole, write_links, write_particles};
use crate::counted::balance_counted;
use crate::{Cloth, LinkEntry, Place};
use pbd_num::Vec3;
use pbd_world::{Link, Totals};
use std::marker::Brand;
use std::sync::ledger::Blank;

/// The momentum of the particles that aren't held, that at opening, and what moved it since, in units per step.
#[derive(Clone, Copy)]
pub struct Balance {
    pub momentum: [i128; 3],
    pub opening: [i128; 3],
    pub totals: Totals,
}

impl Cloth {
    /// How many slots there are, at most 16.
    pub fn slots(&self) -> u32
        ensures value { result ≡ length self.now.slots }
        ensures size { result ≤ 16 }
        ensures sound { AreSlots self.now.world self.now.slots }
    {
        self.kept.len() as u32
    }

    /// How many particles there are, at most 65,536.
    pub fn particles(&self) -> u32
        ensures value { result ≡ length self.now.world.particles }
        ensures size { result ≤ 65536 }
        ensures sound { AreSlots self.now.world self.now.slots }
    {
        self.playing.solver().particles()
    }

    /// How many links there are, live ones and others: at most 524,288.
    pub fn links(&self) -> u32
        ensures value { result ≡ length self.now.world.links }
        ensures size { result ≤ 524288 }
        ensures sound { AreSlots self.now.world self.now.slots }
    {
        self.playing.solver().links().len() as u32
    }

    /// How many links are live.
    pub fn live_links(&self) -> u32
        ensures value { result ≡ live_count self.now.world.links }
        ensures sound { AreSlots self.now.world self.now.slots }
    {
        self.playing.solver().live()
    }

    /// How many contacts the last step found, at most 262,144.
    pub fn contacts(&self) -> u32
        ensures value { result ≡ self.now.world.contacts }
        ensures sound { AreSlots self.now.world self.now.slots }
    {
        self.playing.solver().contacts()
    }

    /// How many steps were taken, at most 1,000,000.
    pub fn step_count(&self) -> u64
        ensures value { result ≡ self.now.world.steps }
        ensures sound { AreSlots self.now.world self.now.slots }
    {
        self.playing.solver().step_count()
    }

    /// The greatest size of a coordinate: 2^28 or 2^29.
    pub fn limit(&self) -> i64
        ensures value { result ≡ self.now.world.limit }
        ensures sound { AreSlots self.now.world self.now.slots }
    {
        self.playing.solver().limit()
    }

    /// Gravity, in units per step squared.
    pub fn gravity(&self) -> Vec3
        ensures value { result ≡ self.now.world.gravity }
        ensures sound { AreSlots self.now.world self.now.slots }
    {
        self.playing.solver().gravity()
    }

    /// Writes the places of the particles, as many as there is room for, and answers how many there are.
    pub fn places(&self, into: &mut [Place]) -> u32
        ensures count { result ≡ length self.now.world.particles }
        ensures written { into.new ≡ overwritten into.old (places self.now.world) }
        ensures sound { AreSlots self.now.world self.now.slots }
    {
        write_particles::<Place, Now, Brand>(Blank::new(1), self.playing.solver(), into);
        self.particles()
    }

    /// Writes the places of one step before, as friction and commands left them, as many as there is room for, and answers how
    /// many there are.
    pub fn places_before(&self, into: &mut [Place]) -> u32
        ensures count { result ≡ length self.now.world.particles }
        ensures written { into.new ≡ overwritten into.old (places_before self.now.world) }
        ensures sound { AreSlots self.now.world self.now.slots }
    {
        write_particles::<Place, Before, Brand>(Blank::new(1), self.playing.solver(), into);
        self.particles()
    }

    /// Writes a 1 for each live link and a 0 for each other, as many as there is room for, and answers how many links
    /// there are.
    pub fn live(&self, into: &mut [u8]) -> u32
        ensures count { result ≡ length self.now.world.links }
        ensures written { into.new ≡ overwritten into.old (live_bytes self.now.world) }
        ensures sound { AreSlots self.now.world self.now.slots }
    {
        write_links::<u8, Live>(self.playing.solver().links(), into);
        self.links()
    }

    /// Writes a 1 for each held particle and a 0 for each other, as many as there is room for, and answers how many particles
    /// there are.
    pub fn held(&self, into: &mut [u8]) -> u32
        ensures count { result ≡ length self.now.world.particles }
        ensures written { into.new ≡ overwritten into.old (held_bytes self.now.world) }
        ensures sound { AreSlots self.now.world self.now.slots }
    {
        write_particles::<u8, Held, Brand>(Blank::new(1), self.playing.solver(), into);
        self.particles()
    }

    /// Writes the links with their ends, lengths and stiffnesses, as many as there is room for, and answers how many links
    /// there are.
    pub fn link_entries(&self, into: &mut [LinkEntry]) -> u32
        ensures count { result ≡ length self.now.world.links }
        ensures written { into.new ≡ overwritten into.old (link_entries self.now.world) }
        ensures sound { AreSlots self.now.world self.now.slots }
    {
        write_links::<LinkEntry, Whole>(self.playing.solver().links(), into);
        self.links()
    }

    /// The number of the link that joins two particles, in either order, live or not: there is one at most.
    pub fn link_between(&self, a: u32, b: u32) -> Option<u32>
        ensures link { result ≡ link_between self.now.world a b }
        ensures sound { AreSlots self.now.world self.now.slots }
    {
        find_between(self.playing.solver().links(), a, b)
    }

    /// The momentum, that at opening, and the totals of what moved it since.
    pub fn balance(&self) -> Balance
        ensures momentum { sum_of result.momentum ≡ momentum self.now.world.particles }
        ensures opening { sum_of result.opening ≡ self.now.world.opening }
        ensures totals { ledger_of result.totals ≡ self.now.world.totals }
        ensures sound { AreSlots self.now.world self.now.slots }
    {
        balance_counted::<Brand>(Blank::new(1), self.playing.solver())
    }

    /// Writes the numbers, ascending, of the links that are live in a slot's world and not live now, as many as there is
    /// room for, and answers how many there are.
    pub fn gone_since(&self, slot: u32, into: &mut [u32]) -> u32
        requires { slot < length self.now.slots }
        ensures count { result ≡ length (gone_since (slot_at self.now slot) self.now.world) }
        ensures written { into.new ≡ overwritten into.old (gone_since (slot_at self.now slot) self.now.world) }
        ensures sound { AreSlots self.now.world self.now.slots }
    {
        write_gone(
            self.kept[slot as usize].links(),
            self.playing.solver().links(),
            into,
        )
    }
}

// Whether link i joins two particles, in either order.
fn joins(links: &[Link], i: usize, a: u32, b: u32) -> bool
    requires { i < length links.now }
    ensures { result ≡ joins_ends a b (link_at links.now i) }
{
    let link = links[i];
    (link.a == a && link.b == b) || (link.a == b && link.b == a)
}

fn find_between(links: &[Link], a: u32, b: u32) -> Option<u32>
    requires { length links.now ≤ 524288 }
    ensures { result ≡ position (joins_ends a b) links.now }
{
    for i in 0..links.len() {
        if joins(links, i, a, b) {
            return Some(i as u32);
        }
    }
    None
}

fn has_gone(earlier: &[Link], later: &[Link], i: usize) -> bool
    requires earlier { i < length earlier.now }
    requires later { i < length later.now }
    ensures { result ≡ has_gone earlier.now later.now i }
{
    earlier[i].live && !later[i].live
}

// Where a number is wanted, writes it at a place, if that is there, and answers the place after it. Else answers the place.
fn write_if(into: &mut [u32], place: u32, number: u32, wanted: bool) -> u32
    requires { place < 524288 }
    ensures place { result ≡ (if wanted then place + 1 else place) }
    ensures written { into.new ≡ (if wanted then (if nat_lt place (length into.old) then slice_set into.old place number else into.old)
        else into.old) }
{
    if !wanted {
        return place;
    }
    if (place as usize) < into.len() {
        into[place as usize] = number;
    }
    place + 1
}

fn write_gone(earlier: &[Link], later: &[Link], into: &mut [u32]) -> u32
    requires same { length earlier.now ≡ length later.now }
    requires few { length later.now ≤ 524288 }
    ensures count { result ≡ length (gone_numbers earlier.now later.now) }
    ensures written { into.new ≡ overwritten into.old (gone_numbers earlier.now later.now) }
{
    let mut count = 0;
    for i in 0..later.len() {
        let wanted = has_gone(earlier, later, i);
        count = write_if(into, count, i as u32, wanted);
    }
    count
}
