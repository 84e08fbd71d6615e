//! A script, run on a session whose log is written.
ghost use Rattle.std.specs.Prelude.{◌≡◌, ◌<◌, ◌≤◌, ◌^◌, ◌++◌, length, IsTrue, IfOk, OnErr, OnOk};
ghost use Rattle.std.specs.List.{Contains};
ghost use Rattle.pbd_io.specs.Causes.{HasCause};
ghost use Rattle.pbd_io.specs.Pieces.{WritesPiece};
ghost use Rattle.pbd_log.specs.Logs.{Spells, header_bytes};
ghost use Rattle.pbd_script.specs.Commands.{commands};
ghost use Rattle.pbd_world.specs.Session.{last_world, refused_count, session_text, worlds};
ghost use Rattle.pbd_world.specs.Valid.{is_limit};
ghost use Rattle.pbd_session.specs.declared.ending.ReplayEnd.TheVariants as ends;
ghost use Rattle.pbd_session.specs.Recording.{entries_of, log_bytes};
ghost use Rattle.pbd_session.specs.Replaying.{replayed};

use crate::script::refusals;
use crate::{RunEnd, Session};
use pbd_io::{Failed, Sink};
use pbd_log::LogWriter;
use pbd_pair::Projector;
use pbd_script::Script;
use pbd_store::Steps;
use std::sync::ledger::Ledger;

impl<const L: usize, P: Projector<L> + Drop> Session<L, P> {
    /// Writes what stands before the entries of the session's log.
    fn begin_log<K: Sink>(&self, scene: &[u8], sink: &mut K) -> Result<LogWriter, Failed>
        requires lanes_high { L ≤ 16 }
        requires scene { length scene.now < 2 ^ 32 }
        ensures bytes { WritesPiece (K.written sink.old) (K.written sink.new) result
            (header_bytes 2 self.now.limit (length scene.now) ++ scene.now) }
        ensures cause { HasCause (K.faults sink.old) (K.faults sink.new) result }
        ensures entries { IfOk result (λ writer. writer ≡ 0) }
        ensures known { IsTrue (is_limit self.now.limit) }
    {
        LogWriter::begin(sink, self.limit(), scene)
    }
}

/// Does the commands of a script of at most 2^31 bytes on the session of a scene of fewer than 2^32 bytes, and writes its
/// log, of version 2 and with the limit of the session's world.
///
/// `Failed` comes only where the sink's count of faults rose, or stands at 2^64 - 1. Then a prefix of the log was appended,
/// and the session's world is one of those that the commands lead through.
pub fn run_record<const L: usize, P: Projector<L> + Drop, K: Sink, G: Ledger>(
    session: &mut Session<L, P>,
    scene: &[u8],
    script: &[u8],
    sink: &mut K,
    steps: &mut Steps<G>,
) -> Result<RunEnd, Failed>
    requires lanes_low { 0 < L }
    requires lanes_high { L ≤ 16 }
    requires scene { length scene.now < 2 ^ 32 }
    requires script { length script.now ≤ 2 ^ 31 }
    ensures bytes { WritesPiece (K.written sink.old) (K.written sink.new) result
        (log_bytes session.old.limit scene.now (entries_of session.old (commands script.now))) }
    ensures spells { OnOk result
        (Spells (log_bytes session.old.limit scene.now (entries_of session.old (commands script.now))) 2 session.old.limit scene.now
        (entries_of session.old (commands script.now))) }
    // What is written replays alike: those entries give the session's text, and no mismatch.
    ensures replays { replayed session.old (entries_of session.old (commands script.now))
        ≡ record {
          text = session_text session.old (commands script.now);
          ended = ends.Done (refused_count session.old (commands script.now));
          world = last_world session.old (commands script.now);
        } }
    ensures refused { IfOk result (λ end. end.refused ≡ refused_count session.old (commands script.now)) }
    ensures world { OnOk result (session.new ≡ last_world session.old (commands script.now)) }
    ensures one_of { OnErr result (Contains (worlds session.old (commands script.now)) session.new) }
    ensures cause { HasCause (K.faults sink.old) (K.faults sink.new) result }
{
    let mut script = Script::new(script);
    let mut refused = 0;
    let mut writer = session.begin_log(scene, sink)?;
    while let Some(command) = script.next() {
        let reply = session.apply(&command, steps);
        let entry = session.entry(command, &reply, steps);
        writer.append(sink, &entry)?;
        refused += refusals(&reply);
    }
    writer.finish(sink)?;
    Ok(RunEnd { refused })
}
