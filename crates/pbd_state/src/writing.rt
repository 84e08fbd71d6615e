// Writing a state.
ghost use Rattle.std.specs.Prelude.{◌≡◌, ◌+◌, ◌*◌, ◌<◌, ◌≤◌, ◌++◌, length, take, drop, IfOk, OnErr};
ghost use Rattle.pbd_encoding.specs.Encoding.{state_bytes, state_size as size_of};

use crate::fields::{counts_of, field, field_count};
use pbd_step::Shown;
use pbd_store::Steps;
use std::sync::ledger::Ledger;

/// There are fewer bytes than a state has.
#[derive(Clone, Copy, Debug, PartialEq, Eq)]
pub struct NoRoom;

/// How many bytes a state of a world's scene has.
pub fn state_size<const L: usize>(shown: &Shown<'_, L>) -> usize
    requires lanes { L ≤ 16 }
    ensures value { result ≡ size_of (length shown.now.particles) (length shown.now.links) }
    ensures size { result ≤ 3735972 }
{
    counts_of(shown).state_size()
}

// Puts a piece where it stands, and answers where it ends.
fn put(into: &mut [u8], at: usize, piece: &[u8]) -> usize
    requires { at + length piece.now ≤ length into.old }
    ensures bytes { into.new ≡ take at into.old ++ piece.now ++ drop (at + length piece.now) into.old }
    ensures end { result ≡ at + length piece.now }
{
    let end = at + piece.len();
    into[at..end].copy_from_slice(piece);
    end
}

/// Writes the state of a world at the front of some bytes, and answers how many it has. `scene` names the scene. It takes
/// no memory, and fails only where there is no room.
pub fn write_state<const L: usize, G: Ledger>(
    scene: &[u8; 32],
    shown: &Shown<'_, L>,
    into: &mut [u8],
    steps: &mut Steps<G>,
) -> Result<usize, NoRoom>
    requires lanes { L ≤ 16 }
    ensures written { IfOk result (λ len. into.new ≡ state_bytes scene.now shown.now ++ drop len into.old) }
    ensures size { IfOk result (λ len. len ≡ size_of (length shown.now.particles) (length shown.now.links)) }
    ensures kept { OnErr result (into.new ≡ into.old) }
    ensures short { OnErr result (length into.old < size_of (length shown.now.particles) (length shown.now.links)) }
    ensures cost { steps.new ≤ steps.old + 3 * length shown.now.particles + length shown.now.links + 3 }
{
    let size = state_size(shown);
    if into.len() < size {
        return Err(NoRoom);
    }
    let mut at = 0;
    for k in 0..field_count(shown) {
        let piece = field(scene, shown, k, steps);
        at = put(into, at, piece.as_slice());
    }
    Ok(size)
}
