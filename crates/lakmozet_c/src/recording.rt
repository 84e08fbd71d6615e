//! A script on a scene, recorded into a log, from bytes to bytes.
ghost use Rattle.std.specs.Prelude.{◌≡◌, ◌⊎◌, ◌≤◌, ◌<◌, ◌^◌, [], Some, IfErr, IfOk, MatchResult, drop, length, take};
ghost use Rattle.lakmozet_c.specs.Prelude.{opened, WritesPiece};
ghost use Rattle.pbd_script.specs.Commands.{commands};
ghost use Rattle.pbd_world.specs.Session.{refused_count};
ghost use Rattle.lakmozet_c.specs.Logs.{log_of, IsLog, IsNotRecorded, IsRecorded, IsWhyNot};
ghost use Rattle.lakmozet_c.specs.Runs.{IsShortage};

use crate::opening::scene_in;
use crate::room_sink::RoomSink;
use crate::runs::{NoRun, copied, end_number, no_run_number, session_on};
use pbd_cloth::LANES;
use pbd_io::Failed;
use pbd_num::RANGE;
use pbd_pair::LaneProjector;
use pbd_session::{RunEnd, Session, run_record};
use pbd_store::Steps;
use pbd_world::Scene;
use std::alloc::{AllocError, Global};
use std::marker::Brand;
use std::sync::ledger::{Blank, Ledger};

/// How many bytes a scene may have, and as many a script.
const MOST: usize = 16_777_216;

/// What is recorded, as bytes.
#[derive(Clone, Copy)]
struct Texts<'a> {
    /// The TOML text of a scene.
    scene: &'a [u8],
    /// The commands on it, a line each.
    script: &'a [u8],
}

impl Texts<'_> {
    // Records on a session, which is let go, with a count of accesses of its own, which nobody sees.
    fn record_counted<G: Ledger>(
        &self,
        blank: Blank,
        mut session: Session<LANES, LaneProjector<LANES>>,
        sink: &mut RoomSink,
    ) -> Result<RunEnd, Failed>
        requires name { blank.name ≡ G.name }
        requires parts { blank.parts ≡ G.parts }
        requires some { 0 < blank.parts }
        requires scene { length self.now.scene.now < 2 ^ 32 }
        requires script { length self.now.script.now ≤ 2 ^ 31 }
        ensures bytes { WritesPiece (Some sink.old.bytes.items) (Some sink.new.bytes.items) result
            (log_of session self.now.scene.now self.now.script.now) }
        ensures refused { IfOk result (λ end. end.refused ≡ refused_count session (commands self.now.script.now)) }
    {
        let mut steps: Steps<G> = Steps::open(blank);
        let end = run_record(&mut session, self.scene, self.script, sink, &mut steps);
        drop(session);
        end
    }

    /// Records the script on the scene, which is let go.
    #[tactic(auto, using(crate::proofs::Shortages::of_whole))]
    fn log_on(&self, alloc: Global, scene: Scene, sink: &mut RoomSink) -> Result<u64, NoRun>
        requires text { length self.now.scene.now < 2 ^ 32 }
        requires script { length self.now.script.now ≤ 2 ^ 31 }
        requires empty { sink.old.bytes.items ≡ [] }
        ensures log { IfOk result (λ _. sink.new.bytes.items ≡ log_of (opened scene) self.now.scene.now self.now.script.now) }
        ensures count { IfOk result (λ refused. refused ≡ refused_count (opened scene) (commands self.now.script.now)) }
        ensures none { IfErr result (λ why. IsShortage sink.old.room (log_of (opened scene) self.now.scene.now self.now.script.now) why) }
    {
        let room = sink.room;
        match session_on(alloc, scene) {
            Ok(session) => match self.record_counted::<Brand>(Blank::new(1), session, sink) {
                Ok(end) => Ok(end.refused),
                Err(Failed) => Err(sink.why_failed(room)),
            },
            Err(why) => Err(why),
        }
    }

    /// Records the script on the scene of the text.
    #[tactic(auto, using(crate::proofs::Shortages::no_log))]
    fn logged(&self, alloc: Global, sink: &mut RoomSink) -> Result<u64, NoRun>
        requires scene { length self.now.scene.now < 2 ^ 32 }
        requires script { length self.now.script.now ≤ 2 ^ 31 }
        requires empty { sink.old.bytes.items ≡ [] }
        ensures { MatchResult result (λ refused. IsLog self.now.scene.now self.now.script.now sink.new.bytes.items refused)
            (λ why. IsWhyNot self.now.scene.now self.now.script.now sink.old.room why) }
    {
        match scene_in(alloc, self.scene, RANGE) {
            Ok(parts) => self.log_on(alloc, parts, sink),
            Err(why) => Err(NoRun::NoScene(why)),
        }
    }
}

/// The log of the script on the scene of a text, in the caller's memory: how many bytes it has, and how many commands were
/// refused.
fn recorded(
    alloc: Global,
    scene: &[u8],
    script: &[u8],
    output: &mut [u8],
) -> Result<(usize, u64), NoRun>
    ensures { MatchResult result
        (λ end. (end.0 ≤ length output.new) × IsLog scene.now script.now (take end.0 output.new) end.1
        × (drop end.0 output.new ≡ drop end.0 output.old))
        (λ why. IsWhyNot scene.now script.now (length output.old) why × (output.new ≡ output.old)) }
{
    if MOST < scene.len() || MOST < script.len() {
        return Err(NoRun::TooLong);
    }
    match RoomSink::open(alloc, output.len()) {
        Ok(mut sink) => match (Texts { scene, script }).logged(alloc, &mut sink) {
            Ok(refused) => match copied(&sink.bytes, output) {
                Ok(count) => Ok((count, refused)),
                Err(why) => Err(why),
            },
            Err(why) => Err(why),
        },
        Err(AllocError) => Err(NoRun::NoMemory),
    }
}

/// Runs a script on the scene of a TOML text, and writes the log of the session.
#[unsafe(no_mangle)]
pub extern "C" fn lak_record(
    alloc: Global,
    scene: &[u8],
    script: &[u8],
    output: &mut [u8],
    written: &mut usize,
) -> i32
    ensures within { written.new ≤ length output.new }
    ensures outcome { IsRecorded scene.now script.now result (take written.new output.new)
        ⊎ IsNotRecorded scene.now script.now (length output.old) result written.new }
    ensures behind { drop written.new output.new ≡ drop written.new output.old }
{
    match recorded(alloc, scene, script, output) {
        Ok((count, refused)) => {
            *written = count;
            end_number(refused)
        }
        Err(why) => {
            *written = 0;
            no_run_number(&why)
        }
    }
}
