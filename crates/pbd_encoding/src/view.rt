// The numbers of a state, read where they stand.
ghost use Rattle.std.specs.Prelude.{◌≡◌, ◌+◌, ◌*◌, ◌<◌, ◌≤◌, ◌==◌, length, drop, slice_index};
ghost use Rattle.std.specs.Int.{w64, w128, cast_signed};
ghost use Rattle.pbd_world.specs.Ledger.{sum_of, ledger_of};
ghost use Rattle.pbd_sound.specs.Described.{Description};
ghost use Rattle.pbd_encoding.specs.Described.{number_from, vector_from, sum_from, ledger_from, told_by};
ghost use Rattle.pbd_encoding.specs.Encoding.{state_size};
ghost use Rattle.pbd_encoding.specs.Form.{AreCounts};

use crate::form::Counts;
use byteorder::{BigEndian, ByteOrder};
use pbd_num::Vec3;
use pbd_sound::Described;
use pbd_world::Totals;
use std::marker::Model;

// The bytes from a place on.
fn tail(bytes: &[u8], at: usize) -> &[u8]
    requires { at ≤ length bytes.now }
    ensures { result.now ≡ drop at bytes.now }
{
    &bytes[at..]
}

#[tactic(auto, unfolding(crate::specs::Described::number_from))]
fn u32_from(bytes: &[u8], at: usize) -> u32
    requires { at + 4 ≤ length bytes.now }
    ensures { result ≡ number_from 4 bytes.now at }
{
    BigEndian::read_u32(tail(bytes, at))
}

#[tactic(auto, unfolding(crate::specs::Described::number_from))]
fn u64_from(bytes: &[u8], at: usize) -> u64
    requires { at + 8 ≤ length bytes.now }
    ensures { result ≡ number_from 8 bytes.now at }
{
    BigEndian::read_u64(tail(bytes, at))
}

#[tactic(auto, unfolding(crate::specs::Described::number_from))]
fn u128_from(bytes: &[u8], at: usize) -> u128
    requires { at + 16 ≤ length bytes.now }
    ensures { result ≡ number_from 16 bytes.now at }
{
    BigEndian::read_u128(tail(bytes, at))
}

fn signed_from(bytes: &[u8], at: usize) -> i64
    requires { at + 8 ≤ length bytes.now }
    ensures { result ≡ cast_signed w64 (number_from 8 bytes.now at) }
{
    u64_from(bytes, at).cast_signed()
}

#[tactic(auto, unfolding(crate::specs::Described::vector_from))]
fn vector_from(bytes: &[u8], at: usize) -> Vec3
    requires { at + 24 ≤ length bytes.now }
    ensures { result ≡ vector_from bytes.now at }
{
    Vec3 {
        x: signed_from(bytes, at),
        y: signed_from(bytes, at + 8),
        z: signed_from(bytes, at + 16),
    }
}

fn wide_from(bytes: &[u8], at: usize) -> i128
    requires { at + 16 ≤ length bytes.now }
    ensures { result ≡ cast_signed w128 (number_from 16 bytes.now at) }
{
    u128_from(bytes, at).cast_signed()
}

#[tactic(auto, unfolding(crate::specs::Described::sum_from))]
fn sum_from(bytes: &[u8], at: usize) -> [i128; 3]
    requires { at + 48 ≤ length bytes.now }
    ensures { sum_of result ≡ sum_from bytes.now at }
{
    [
        wide_from(bytes, at),
        wide_from(bytes, at + 16),
        wide_from(bytes, at + 32),
    ]
}

fn totals_from(bytes: &[u8], at: usize) -> Totals
    requires { at + 288 ≤ length bytes.now }
    ensures { ledger_of result ≡ ledger_from bytes.now at }
{
    Totals {
        gravity: sum_from(bytes, at),
        damping: sum_from(bytes, at + 48),
        link: sum_from(bytes, at + 96),
        contact: sum_from(bytes, at + 144),
        pin: sum_from(bytes, at + 240),
        shape: sum_from(bytes, at + 192),
    }
}

/// The bytes of a state of a scene, as what they tell.
#[derive(Drop)]
pub struct StateView<'a> {
    bytes: &'a [u8],
    counts: Counts,
}

impl<'a> Model for StateView<'a> {
    ghost use Rattle.pbd_encoding.specs.Views.{IsLong, Viewed};

    ghost Value = { Viewed };

    ghost view = { λ s. record { text = s.bytes.now; particles = s.counts.particles; links = s.counts.links } };

    ghost invariant = { λ s. IsLong s.counts s.bytes.now };
}

impl<'a> StateView<'a> {
    /// What bytes tell that are as many as a state of the scene has.
    pub fn new(bytes: &'a [u8], counts: Counts) -> StateView<'a>
        requires few { AreCounts counts }
        requires long { length bytes.now ≡ state_size counts.particles counts.links }
        ensures text { result.text ≡ bytes.now }
        ensures particles { result.particles ≡ counts.particles }
        ensures links { result.links ≡ counts.links }
    {
        StateView { bytes, counts }
    }
}

impl<'a> Described for StateView<'a> {
    ghost seen = { λ s. told_by s.text s.particles s.links };

    fn steps(&self) -> u64 {
        u64_from(self.bytes, 96)
    }

    fn gravity(&self) -> Vec3 {
        vector_from(self.bytes, 104)
    }

    fn place(&self, i: u32) -> Vec3 {
        vector_from(self.bytes, 128 + 24 * i as usize)
    }

    fn before(&self, i: u32) -> Vec3 {
        vector_from(
            self.bytes,
            128 + 24 * self.counts.particles as usize + 24 * i as usize,
        )
    }

    fn is_held(&self, i: u32) -> bool {
        self.bytes[128 + 48 * self.counts.particles as usize + i as usize] == 1
    }

    fn is_live(&self, l: u32) -> bool {
        self.bytes[128 + 49 * self.counts.particles as usize + l as usize] == 1
    }

    fn contacts(&self) -> u32 {
        u32_from(self.bytes, self.counts.contacts_at())
    }

    fn totals(&self) -> Totals {
        totals_from(self.bytes, self.counts.contacts_at() + 4)
    }
}
