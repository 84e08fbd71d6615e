// The digest of a world.
ghost use Rattle.std.specs.Prelude.{◌≡◌, ◌+◌, ◌*◌, ◌≤◌, length};
ghost use Rattle.sha2.specs.Sha256.{sha256};
ghost use Rattle.pbd_encoding.specs.Encoding.{state_bytes};

use crate::fields::{field, field_count};
use pbd_step::Shown;
use pbd_store::Steps;
use sha2::{Digest, Sha256};
use std::sync::ledger::Ledger;

/// The SHA-256 digest of the state of a world, which is fed to it field by field. `scene` names the scene. It takes no
/// memory.
pub fn digest<const L: usize, G: Ledger>(
    scene: &[u8; 32],
    shown: &Shown<'_, L>,
    steps: &mut Steps<G>,
) -> [u8; 32]
    requires lanes { L ≤ 16 }
    ensures value { result ≡ sha256 (state_bytes scene.now shown.now) }
    ensures cost { steps.new ≤ steps.old + 3 * length shown.now.particles + length shown.now.links + 3 }
{
    let mut hasher = Sha256::new();
    for k in 0..field_count(shown) {
        let piece = field(scene, shown, k, steps);
        hasher.update(piece.as_slice());
    }
    hasher.finalize()
}
