//! Calls of a session and of what it shows, each with a count of accesses of its own, which nobody sees.
ghost use Rattle.std.specs.Prelude.{◌≡◌, ◌<◌, ◌++◌, drop, length, IfOk, OnErr, OnOk};
ghost use Rattle.sha2.specs.Sha256.{sha256};
ghost use Rattle.pbd_world.specs.Ledger.{ledger_of, sum_of};
ghost use Rattle.pbd_world.specs.Meaning.{after, reply};
ghost use Rattle.pbd_world.specs.Momentum.{momentum};
ghost use Rattle.pbd_world.specs.Replay.{frame_sums};
ghost use Rattle.pbd_world.specs.World.{AreOfOneScene, IsSound};
ghost use Rattle.pbd_encoding.specs.Encoding.{state_bytes, state_size};
ghost use Rattle.pbd_encoding.specs.Laws.{told_on};
ghost use Rattle.pbd_state.specs.Checksum.{checksum as checksum_of};
ghost use Rattle.pbd_state.specs.Naming.{scene_name as name_of};
ghost use Rattle.pbd_state.specs.Reading.{reading};
ghost use Rattle.pbd_cloth.specs.Counting.{IsBlankOf};

use crate::LANES;
use crate::reads::Balance;
use pbd_encoding::StateFault;
use pbd_pair::LaneProjector;
use pbd_session::Session;
use pbd_state::{NoRoom, checksum, digest, read_state, scene_name, write_state};
use pbd_step::{Shown, Solver};
use pbd_store::Steps;
use pbd_world::{Command, FrameSums, Reply};
use std::sync::ledger::{Blank, Ledger};

pub(crate) fn apply_counted<G: Ledger>(
    blank: Blank,
    playing: &mut Session<LANES, LaneProjector<LANES>>,
    command: &Command,
) -> Reply
    requires { IsBlankOf G.name G.parts blank }
    ensures reply { result ≡ reply playing.old command.now }
    ensures world { playing.new ≡ after playing.old command.now }
    ensures sound { IsSound playing.new }
    ensures one_scene { AreOfOneScene playing.old playing.new }
{
    let mut steps: Steps<G> = Steps::open(blank);
    playing.apply(command, &mut steps)
}

pub(crate) fn sums_counted<G: Ledger>(
    blank: Blank,
    playing: &Session<LANES, LaneProjector<LANES>>,
) -> FrameSums
    requires { IsBlankOf G.name G.parts blank }
    ensures { result ≡ frame_sums playing.now }
{
    let mut steps: Steps<G> = Steps::open(blank);
    playing.frame_sums(&mut steps)
}

pub(crate) fn name_counted<G: Ledger>(blank: Blank, shown: &Shown<'_, LANES>) -> [u8; 32]
    requires { IsBlankOf G.name G.parts blank }
    ensures { result ≡ name_of shown.now }
{
    let mut steps: Steps<G> = Steps::open(blank);
    scene_name(shown, &mut steps)
}

pub(crate) fn balance_counted<G: Ledger>(
    blank: Blank,
    solver: &Solver<LANES, LaneProjector<LANES>>,
) -> Balance
    requires { IsBlankOf G.name G.parts blank }
    ensures momentum { sum_of result.momentum ≡ momentum solver.now.world.particles }
    ensures opening { sum_of result.opening ≡ solver.now.world.opening }
    ensures totals { ledger_of result.totals ≡ solver.now.world.totals }
{
    let mut steps: Steps<G> = Steps::open(blank);
    Balance {
        momentum: solver.momentum(&mut steps),
        opening: *solver.opening(),
        totals: *solver.totals(),
    }
}

pub(crate) fn write_counted<G: Ledger>(
    blank: Blank,
    scene: &[u8; 32],
    shown: &Shown<'_, LANES>,
    into: &mut [u8],
) -> Result<usize, NoRoom>
    requires { IsBlankOf G.name G.parts blank }
    ensures written { IfOk result (λ len. into.new ≡ state_bytes scene.now shown.now ++ drop len into.old) }
    ensures size { IfOk result (λ len. len ≡ state_size (length shown.now.particles) (length shown.now.links)) }
    ensures kept { OnErr result (into.new ≡ into.old) }
    ensures short { OnErr result (length into.old < state_size (length shown.now.particles) (length shown.now.links)) }
{
    let mut steps: Steps<G> = Steps::open(blank);
    write_state(scene, shown, into, &mut steps)
}

pub(crate) fn read_counted<G: Ledger>(
    blank: Blank,
    scene: &[u8; 32],
    playing: &mut Session<LANES, LaneProjector<LANES>>,
    bytes: &[u8],
) -> Result<(), StateFault>
    requires { IsBlankOf G.name G.parts blank }
    ensures value { result ≡ reading scene.now playing.old bytes.now }
    ensures world { OnOk result (playing.new ≡ told_on playing.old bytes.now) }
    ensures kept { OnErr result (playing.new ≡ playing.old) }
    ensures sound { IsSound playing.new }
    ensures one_scene { AreOfOneScene playing.old playing.new }
{
    let mut steps: Steps<G> = Steps::open(blank);
    read_state(scene, playing.solver_mut(), bytes, &mut steps)
}

pub(crate) fn digest_counted<G: Ledger>(
    blank: Blank,
    scene: &[u8; 32],
    shown: &Shown<'_, LANES>,
) -> [u8; 32]
    requires { IsBlankOf G.name G.parts blank }
    ensures { result ≡ sha256 (state_bytes scene.now shown.now) }
{
    let mut steps: Steps<G> = Steps::open(blank);
    digest(scene, shown, &mut steps)
}

pub(crate) fn checksum_counted<G: Ledger>(blank: Blank, shown: &Shown<'_, LANES>) -> u64
    requires { IsBlankOf G.name G.parts blank }
    ensures { result ≡ checksum_of shown.now }
{
    let mut steps: Steps<G> = Steps::open(blank);
    checksum(shown, &mut steps)
}
