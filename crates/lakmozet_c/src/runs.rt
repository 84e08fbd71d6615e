//! What whole runs share, from bytes to bytes.
ghost use Rattle.std.specs.Prelude.{◌≡◌, ◌<◌, ◌≤◌, MatchResult, drop, length, pos, take};
ghost use Rattle.lakmozet_c.specs.Prelude.{opened};
ghost use Rattle.lakmozet_c.specs.declared.runs.NoRun.TheVariants.{NoMemory, NoRoom};
ghost use Rattle.lakmozet_c.specs.Runs.{end_number, no_run_number};

use crate::numbers::{NO_LOG_ROOM, OUT_OF_MEMORY, SOME_REFUSED, TOO_LONG};
use crate::opening::{NoCloth, stop_number};
use pbd_cloth::LANES;
use pbd_pair::LaneProjector;
use pbd_session::Session;
use pbd_world::Scene;
use std::alloc::{AllocError, Global};

/// Why a run wrote nothing.
#[derive(Clone, Copy)]
pub enum NoRun {
    NoScene(NoCloth),
    /// The caller's memory is too short.
    NoRoom,
    /// What it was given is longer than it may be.
    TooLong,
    NoMemory,
}

pub(crate) fn no_run_number(why: &NoRun) -> i32
    ensures { result ≡ pos (no_run_number why.now) }
{
    match why {
        NoRun::NoRoom => NO_LOG_ROOM,
        NoRun::TooLong => TOO_LONG,
        NoRun::NoScene(why) => stop_number(why),
        NoRun::NoMemory => OUT_OF_MEMORY,
    }
}

pub(crate) fn end_number(refused: u64) -> i32
    ensures { result ≡ pos (end_number refused) }
{
    if refused == 0 { 0 } else { SOME_REFUSED }
}

/// The session of a scene, which is let go.
pub(crate) fn session_on(
    alloc: Global,
    scene: Scene,
) -> Result<Session<LANES, LaneProjector<LANES>>, NoRun>
    ensures { MatchResult result (λ session. session ≡ opened scene) (λ why. why ≡ NoMemory) }
{
    let outcome = Session::open(alloc, &scene, LaneProjector::<LANES>::new());
    drop(scene);
    match outcome {
        Ok(session) => Ok(session),
        Err(AllocError) => Err(NoRun::NoMemory),
    }
}

/// Copies the bytes where there is room for them, and answers how many there are. What stands behind them is left as it was.
pub(crate) fn copied(bytes: &[u8], output: &mut [u8]) -> Result<usize, NoRun>
    ensures { MatchResult result
        (λ count. (count ≤ length output.new) × (take count output.new ≡ bytes.now)
        × (drop count output.new ≡ drop count output.old))
        (λ why. (why ≡ NoRoom) × (length output.old < length bytes.now) × (output.new ≡ output.old)) }
{
    if output.len() < bytes.len() {
        return Err(NoRun::NoRoom);
    }
    output[..bytes.len()].copy_from_slice(bytes);
    Ok(bytes.len())
}
