//! Where tracked particles are at a step.
#![tactic(auto)]

ghost use Rattle.std.specs.Prelude.{◌≡◌, ◌+◌, ◌<◌, ◌≤◌, length, IsTrue, All};
ghost use Rattle.pbd_world.specs.Tracks.{place_between, place_after, place_at};
ghost use Rattle.pbd_world.specs.World.{is_tracked};
ghost use Rattle.pbd_world.specs.Valid.{are_valid_tracks};
ghost use Rattle.pbd_track.specs.Tracking.{IsKey, IsTrack, Attached};

use pbd_num::Vec3;
use pbd_store::{Steps, Store};
use pbd_world::{Key, Track};
use std::sync::ledger::Ledger;

fn place_between(k: Key, l: Key, t: u32) -> Vec3
    requires first { IsKey k }
    requires second { IsKey l }
    requires after { k.step ≤ t }
    requires before { t < l.step }
    ensures { result ≡ place_between k l t }
{
    let part = t - k.step;
    let whole = l.step - k.step;
    let way = l.place.minus(k.place);
    k.place.plus(way.scaled(i64::from(part), i64::from(whole)))
}

fn place_after(first: Key, later: &[Key], t: u32) -> Vec3
    requires first { IsKey first }
    requires later { All IsKey later.now }
    requires after { first.step ≤ t }
    ensures { result ≡ place_after first later.now t }
{
    let mut from = first;
    for key in later {
        if t < key.step {
            return place_between(from, *key, t);
        }
        from = *key;
    }
    from.place
}

/// The place of a track at step t: its first key's place up to that key's step, the share of the way
/// between two keys, rounded to the nearest whole number with halves away from zero, and its last
/// key's place from then on. In units of 1/65,536 metre.
pub fn track_at(track: &Track, t: u32) -> Vec3
    requires { IsTrack track.now }
    ensures { result ≡ place_at track.now.keys t }
{
    let keys = track.keys.as_slice();
    if keys.len() == 0 {
        return Vec3::ZERO;
    }
    if t <= keys[0].step {
        return keys[0].place;
    }
    place_after(keys[0], &keys[1..], t)
}

/// Whether some track names particle i.
pub fn is_tracked(tracks: &[Track], i: u32) -> bool
    ensures { result ≡ is_tracked tracks.now i }
{
    tracks.iter().any(|track| track.particle == i)
}

/// Moves each tracked particle to the place of its track at step t. All else stays.
/// It reaches the store once for each track.
pub fn place<const L: usize, G: Ledger>(
    tracks: &[Track],
    t: u32,
    store: &mut Store<L>,
    steps: &mut Steps<G>,
)
    requires { IsTrue (are_valid_tracks store.old.limit (length store.old.particles) tracks.now) }
    ensures particles { Attached tracks.now t store.old.particles store.new.particles }
    ensures limit { store.new.limit ≡ store.old.limit }
    ensures copies { store.new.copies ≡ store.old.copies }
    ensures cost { steps.new ≡ steps.old + length tracks.now }
{
    // By it each track is valid with one of the two limits.
    let _limit = store.limit();
    for track in tracks {
        let place = track_at(track, t);
        store.put(track.particle, place, steps);
    }
}
