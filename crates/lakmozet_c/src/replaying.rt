//! A log, replayed from bytes to text.
ghost use Rattle.std.specs.Prelude.{◌≡◌, ◌⊎◌, ◌≤◌, ◌<◌, [], Some, IfErr, IfOk, MatchResult, drop, length, pos, slice_get, take};
ghost use Rattle.lakmozet_c.specs.Prelude.{opened, parse_document, IsUtf8, WritesPiece};
ghost use Rattle.pbd_log.specs.Logs.{IsVersion};
ghost use Rattle.pbd_session.specs.Replaying.{replayed};
ghost use Rattle.lakmozet_c.specs.Faults.{IsSceneIn, IsWhyIn};
ghost use Rattle.lakmozet_c.specs.Replays.{fault_at, field_names, no_replay_number, replay_number, IsNotReplayed, IsReplay, IsReplayed, IsWhyNoReplay, TellsStop};
ghost use Rattle.lakmozet_c.specs.Runs.{IsShortage};

use crate::numbers::{LOG_REFUSED, MISMATCH};
use crate::opening::{NoCloth, scene_in};
use crate::plain::Stop;
use crate::room_sink::RoomSink;
use crate::runs::{NoRun, copied, end_number, no_run_number, session_on};
use pbd_cloth::LANES;
use pbd_io::Failed;
use pbd_log::{LogView, read_log};
use pbd_pair::LaneProjector;
use pbd_session::{Field, ReplayEnd, Session, run_replay};
use pbd_store::Steps;
use pbd_world::Scene;
use std::alloc::{AllocError, Global};
use std::marker::Brand;
use std::sync::ledger::{Blank, Ledger};

/// How many bytes a log may have.
const MOST_OF_LOG: usize = 134_217_728;

/// Why nothing was replayed.
#[derive(Clone, Copy)]
pub enum NoReplay {
    /// The bytes are no log: how many of them stand before the part that can't be read.
    NoLog(u64),
    /// They may be one, and something else stopped the replay.
    Stopped(NoRun),
}

// Replays on a session, which is let go, with a count of accesses of its own, which nobody sees.
fn replay_counted<G: Ledger>(
    blank: Blank,
    mut session: Session<LANES, LaneProjector<LANES>>,
    log: LogView<'_>,
    sink: &mut RoomSink,
) -> Result<ReplayEnd, Failed>
    requires name { blank.name ≡ G.name }
    requires parts { blank.parts ≡ G.parts }
    requires some { 0 < blank.parts }
    ensures bytes { WritesPiece (Some sink.old.bytes.items) (Some sink.new.bytes.items) result
        (replayed session log.entry.entries).text }
    ensures ended { IfOk result (λ end. end ≡ (replayed session log.entry.entries).ended) }
{
    let mut steps: Steps<G> = Steps::open(blank);
    let end = run_replay(&mut session, log, sink, &mut steps);
    drop(session);
    end
}

/// Replays the log on its scene, which is let go.
#[tactic(auto, using(crate::proofs::Shortages::of_whole))]
fn replay_on(
    alloc: Global,
    scene: Scene,
    log: LogView<'_>,
    sink: &mut RoomSink,
) -> Result<ReplayEnd, NoRun>
    requires empty { sink.old.bytes.items ≡ [] }
    ensures text { IfOk result (λ _. sink.new.bytes.items ≡ (replayed (opened scene) log.entry.entries).text) }
    ensures ended { IfOk result (λ end. end ≡ (replayed (opened scene) log.entry.entries).ended) }
    ensures none { IfErr result (λ why. IsShortage sink.old.room (replayed (opened scene) log.entry.entries).text why) }
{
    let room = sink.room;
    match session_on(alloc, scene) {
        Ok(session) => match replay_counted::<Brand>(Blank::new(1), session, log, sink) {
            Ok(end) => Ok(end),
            Err(Failed) => Err(sink.why_failed(room)),
        },
        Err(why) => Err(why),
    }
}

/// The scene on which a log's session began, read with the log's limit.
fn scene_of_log(alloc: Global, log: &LogView<'_>) -> Result<Scene, NoCloth>
    requires { IsVersion log.now.version log.now.limit }
    ensures { MatchResult result
        (λ parts. IsUtf8 log.now.scene × IsSceneIn log.now.limit (parse_document log.now.scene) parts)
        (λ why. IsWhyIn log.now.limit log.now.scene 0 why) }
{
    scene_in(alloc, log.scene(), log.limit())
}

/// Replays the log that the bytes are.
#[tactic(auto, using(crate::proofs::Shortages::no_replay))]
fn replay_bytes(alloc: Global, bytes: &[u8], sink: &mut RoomSink) -> Result<ReplayEnd, NoReplay>
    requires empty { sink.old.bytes.items ≡ [] }
    ensures { MatchResult result (λ ended. IsReplay bytes.now sink.new.bytes.items ended)
        (λ why. IsWhyNoReplay bytes.now sink.old.room why) }
{
    match read_log(bytes) {
        Ok(log) => match scene_of_log(alloc, &log) {
            Ok(scene) => match replay_on(alloc, scene, log, sink) {
                Ok(ended) => Ok(ended),
                Err(why) => Err(NoReplay::Stopped(why)),
            },
            Err(why) => Err(NoReplay::Stopped(NoRun::NoScene(why))),
        },
        Err(fault) => Err(NoReplay::NoLog(fault.offset)),
    }
}

/// The text of a log's replay in the caller's memory: how many bytes it has, and how the replay ended.
fn replayed(alloc: Global, log: &[u8], output: &mut [u8]) -> Result<(usize, ReplayEnd), NoReplay>
    ensures { MatchResult result
        (λ end. (end.0 ≤ length output.new) × IsReplay log.now (take end.0 output.new) end.1
        × (drop end.0 output.new ≡ drop end.0 output.old))
        (λ why. IsWhyNoReplay log.now (length output.old) why × (output.new ≡ output.old)) }
{
    if MOST_OF_LOG < log.len() {
        return Err(NoReplay::Stopped(NoRun::TooLong));
    }
    match RoomSink::open(alloc, output.len()) {
        Ok(mut sink) => match replay_bytes(alloc, log, &mut sink) {
            Ok(ended) => match copied(&sink.bytes, output) {
                Ok(count) => Ok((count, ended)),
                Err(why) => Err(NoReplay::Stopped(why)),
            },
            Err(why) => Err(why),
        },
        Err(AllocError) => Err(NoReplay::Stopped(NoRun::NoMemory)),
    }
}

fn field_number(field: Field) -> u8
    ensures { slice_get field_names result ≡ Some (Some field) }
{
    match field {
        Field::Answer => 1,
        Field::Step => 2,
        Field::Phase => 3,
        Field::Element => 4,
        Field::Steps => 5,
        Field::Live => 6,
        Field::Contacts => 7,
        Field::X => 8,
        Field::Y => 9,
        Field::Z => 10,
        Field::BeforeX => 11,
        Field::BeforeY => 12,
        Field::BeforeZ => 13,
    }
}

fn replay_number(ended: &ReplayEnd) -> i32
    ensures { result ≡ pos (replay_number ended.now) }
{
    match *ended {
        ReplayEnd::Done { refused } => end_number(refused),
        ReplayEnd::Mismatch { .. } => MISMATCH,
    }
}

/// The first entry that differs and its field, if one does.
fn stop_of(ended: &ReplayEnd) -> Stop
    ensures { TellsStop ended.now result }
{
    match *ended {
        ReplayEnd::Done { .. } => Stop {
            offset: 0,
            entry: 0,
            field: 0,
        },
        ReplayEnd::Mismatch { entry, field, .. } => Stop {
            offset: 0,
            entry,
            field: field_number(field),
        },
    }
}

fn no_replay_number(why: &NoReplay) -> i32
    ensures { result ≡ pos (no_replay_number why.now) }
{
    match why {
        NoReplay::NoLog(_) => LOG_REFUSED,
        NoReplay::Stopped(why) => no_run_number(why),
    }
}

/// Where the bytes stop being a log, if that is the reason.
fn fault_at(why: &NoReplay) -> Stop
    ensures { result ≡ fault_at why.now }
{
    let offset = match *why {
        NoReplay::NoLog(offset) => offset,
        NoReplay::Stopped(_) => 0,
    };
    Stop {
        offset,
        entry: 0,
        field: 0,
    }
}

/// Replays a log, and writes what the program's `replay` writes of it.
#[unsafe(no_mangle)]
pub extern "C" fn lak_replay(
    alloc: Global,
    log: &[u8],
    output: &mut [u8],
    written: &mut usize,
    stop: &mut Stop,
) -> i32
    ensures within { written.new ≤ length output.new }
    ensures outcome { IsReplayed log.now result (take written.new output.new) stop.new
        ⊎ IsNotReplayed log.now (length output.old) result written.new stop.new }
    ensures behind { drop written.new output.new ≡ drop written.new output.old }
{
    match replayed(alloc, log, output) {
        Ok((count, ended)) => {
            *written = count;
            *stop = stop_of(&ended);
            replay_number(&ended)
        }
        Err(why) => {
            *written = 0;
            *stop = fault_at(&why);
            no_replay_number(&why)
        }
    }
}
