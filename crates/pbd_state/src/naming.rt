// The name of a scene.
ghost use Rattle.std.specs.Prelude.{◌≡◌, ◌+◌, ◌<◌, ◌≤◌, ◌^◌, length};
ghost use Rattle.pbd_encoding.specs.Scene.{listed, settings_of, weight_bytes, track_bytes};
ghost use Rattle.pbd_encoding.specs.Feeding.{Fed};
ghost use Rattle.pbd_state.specs.Naming.{scene_name as name_of, HaveFewKeys};

use pbd_encoding::{ScenePiece, Settings, feed_all, feed_shapes, number, scene_head};
use pbd_step::Shown;
use pbd_store::Steps;
use pbd_world::Track;
use sha2::{Digest, Sha256};
use std::sync::ledger::Ledger;

/// The numbers that the scene of a world sets for all its steps.
fn settings_of<const L: usize>(shown: &Shown<'_, L>) -> Settings
    requires lanes { L ≤ 16 }
    ensures { result ≡ settings_of shown.now }
{
    Settings {
        limit: shown.limit(),
        passes: shown.passes(),
        damping: shown.damping(),
        thickness: shown.thickness(),
        friction: shown.friction(),
    }
}

/// Feeds how many particles there are, and the weight of each.
fn feed_weights<const L: usize, G: Ledger>(
    hasher: &mut Sha256,
    shown: &Shown<'_, L>,
    steps: &mut Steps<G>,
)
    requires lanes { L ≤ 16 }
    ensures fed { Fed hasher.old hasher.new (listed weight_bytes shown.now.particles) }
    ensures cost { steps.new ≤ steps.old + length shown.now.particles }
{
    let particles = shown.particles();
    let count = number(particles);
    hasher.update(count.as_slice());
    for i in 0..particles {
        let piece = shown.particle(i, steps).piece();
        hasher.update(piece.as_slice());
    }
}

/// Feeds the particle of a track, how many keys it has, and each.
fn feed_track(hasher: &mut Sha256, track: &Track)
    requires { length track.now.keys < 2 ^ 32 }
    ensures { Fed hasher.old hasher.new (track_bytes track.now) }
{
    let particle = number(track.particle);
    hasher.update(particle.as_slice());
    feed_all(hasher, track.keys.as_slice());
}

/// Feeds how many tracks there are, and each.
fn feed_tracks(hasher: &mut Sha256, tracks: &[Track])
    requires few { length tracks.now < 2 ^ 32 }
    requires keys { HaveFewKeys tracks.now }
    ensures { Fed hasher.old hasher.new (listed track_bytes tracks.now) }
{
    let count = number(tracks.len() as u32);
    hasher.update(count.as_slice());
    for track in tracks {
        feed_track(hasher, track);
    }
}

/// The name of a world's scene: the SHA-256 digest of all that no command changes. So worlds of one scene have one name, and
/// the bytes that are hashed tell scenes apart. They are fed piece by piece, which takes no memory.
pub fn scene_name<const L: usize, G: Ledger>(shown: &Shown<'_, L>, steps: &mut Steps<G>) -> [u8; 32]
    requires lanes { L ≤ 16 }
    ensures value { result ≡ name_of shown.now }
    ensures cost { steps.new ≤ steps.old + length shown.now.particles }
{
    let mut hasher = Sha256::new();
    let head = scene_head(&settings_of(shown), shown.opening());
    hasher.update(head.as_slice());
    feed_weights(&mut hasher, shown, steps);
    feed_all(&mut hasher, shown.links());
    feed_tracks(&mut hasher, shown.tracks());
    feed_shapes(&mut hasher, shown.shapes());
    hasher.finalize()
}
