//! Tracked particles at each width, step by step.
ghost use Rattle.std.specs.Prelude.{◌≡◌, ◌<◌, ◌^◌, [], ◌∷◌, pos, negsuc, IfOk, IsTrue};
ghost use Rattle.pbd_world.specs.Valid.{are_valid_tracks};

use pbd_num::{RANGE, Vec3};
use pbd_store::{Steps, Store};
use pbd_tests_rows::{WIDTHS, WrongRows, all_hold, at_widths, held, place, wrong_row};
use pbd_track::{is_tracked, track_at};
use pbd_world::{Key, List, Particle, Track};
use std::alloc::{AllocError, Global};
use std::marker::Brand;
use std::sync::ledger::{Blank, Ledger};

const START: Key = Key {
    step: 0,
    place: Vec3::ZERO,
};

const END: Key = Key {
    step: 3,
    place: place!(10, -10, 0),
};

const ALONE: Key = Key {
    step: 2,
    place: place!(5, 0, 0),
};

fn one_way(alloc: Global) -> Result<Track, AllocError>
    ensures { IfOk result (λ track. track ≡ record {
      particle = 0;
      keys = record { step = 0; place = record { x = pos 0; y = pos 0; z = pos 0 } }
          ∷ record { step = 3; place = record { x = pos 10; y = negsuc 9; z = pos 0 } } ∷ [];
    }) }
{
    let keys = List::copied(alloc, &[START, END])?;
    Ok(Track { particle: 0, keys })
}

fn one_place(alloc: Global) -> Result<Track, AllocError>
    ensures { IfOk result (λ track. track ≡ record {
      particle = 1;
      keys = record { step = 2; place = record { x = pos 5; y = pos 0; z = pos 0 } } ∷ [];
    }) }
{
    let keys = List::copied(alloc, &[ALONE])?;
    Ok(Track { particle: 1, keys })
}

static THREE: [Particle; 3] = [held!(0, 0, 0), held!(1, 0, 0), held!(9, 0, 0)];

/// The places of three particles on x, and between them that of the first on y, unless there is no memory.
type Places = Result<[i64; 4], AllocError>;

/// The places of three particles at step t, of which two are tracked.
fn places_in<const L: usize, G: Ledger>(
    alloc: Global,
    tracks: &[Track],
    t: u32,
    steps: &mut Steps<G>,
) -> Places
    requires { IsTrue (are_valid_tracks (pos (2 ^ 29)) 3 tracks.now) }
{
    match Store::<L>::open(alloc, &THREE, RANGE) {
        Ok(mut store) => {
            pbd_track::place(tracks, t, &mut store, steps);
            let mut places = [Vec3::ZERO; 3];
            for i in 0..3 {
                places[i as usize] = store.at(i, steps).at;
            }
            drop(store);
            let [first, second, third] = places;
            Ok([first.x, first.y, second.x, third.x])
        }
        Err(error) => Err(error),
    }
}

fn counted<G: Ledger>(alloc: Global, blank: Blank, tracks: &[Track], t: u32) -> [Places; 5]
    requires name { blank.name ≡ G.name }
    requires parts { blank.parts ≡ G.parts }
    requires some { 0 < blank.parts }
    requires tracks { IsTrue (are_valid_tracks (pos (2 ^ 29)) 3 tracks.now) }
{
    at_widths!(blank, places_in(alloc, tracks, t))
}

/// Both tracks.
fn two_tracks(alloc: Global) -> Result<[Track; 2], AllocError>
    ensures { IfOk result (λ tracks. IsTrue (are_valid_tracks (pos (2 ^ 29)) 3 tracks)) }
{
    let first = one_way(alloc)?;
    match one_place(alloc) {
        Ok(second) => Ok([first, second]),
        Err(error) => {
            drop(first);
            Err(error)
        }
    }
}

/// The places at each width.
fn places(alloc: Global, t: u32) -> [Places; 5] {
    match two_tracks(alloc) {
        Ok(tracks) => {
            let places = counted::<Brand>(alloc, Blank::new(1), &tracks, t);
            drop(tracks);
            places
        }
        Err(error) => [Err(error); 5],
    }
}

/// A step, and the places of the three particles.
static PLACES: [(u32, [i64; 4]); 5] = [
    (0, [0, 0, 5, 9]),
    (1, [3, -3, 5, 9]),
    (2, [7, -7, 5, 9]),
    (3, [10, -10, 5, 9]),
    (4, [10, -10, 5, 9]),
];

#[test]
fn tracks_move_at_every_width(rt: HostRuntime) -> Result<(), WrongRows> {
    let mut wrong = 0u32;
    for (t, wanted) in &PLACES {
        let told = places(rt.alloc(), *t);
        wrong = wrong.saturating_add(wrong_row(&rt, (t, WIDTHS), &told, &[Ok(*wanted); 5]));
    }
    all_hold(wrong)
}

#[test]
fn tracks_name_particles(rt: HostRuntime) -> Result<(), WrongRows> {
    let track = one_place(rt.alloc()).expect(&rt, "no memory");
    let place = track_at(&track, 7);
    let tracks = [track];
    let tracked = [is_tracked(&tracks, 1), is_tracked(&tracks, 0)];
    drop(tracks);
    all_hold(wrong_row(
        &rt,
        (
            &"a track",
            "is at on x, and is of particle 1 and of particle 0",
        ),
        &(place.x, tracked),
        &(5, [true, false]),
    ))
}
