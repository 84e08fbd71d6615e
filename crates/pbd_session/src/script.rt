//! A script, run on a session.
ghost use Rattle.std.specs.Prelude.{◌≡◌, ◌+◌, ◌<◌, ◌≤◌, ◌^◌, ℕ, length, IfOk, OnErr, OnOk, if◌then◌else◌};
ghost use Rattle.std.specs.List.{Contains};
ghost use Rattle.pbd_io.specs.Causes.{HasCause};
ghost use Rattle.pbd_io.specs.Pieces.{WritesPiece};
ghost use Rattle.pbd_script.specs.Commands.{commands};
ghost use Rattle.pbd_world.specs.Session.{is_refused, last_world, refused_count, session_text, worlds};
ghost use Rattle.pbd_world.specs.Work.{session_work};

use crate::{RunEnd, Session};
use pbd_io::{Failed, Sink};
use pbd_pair::Projector;
use pbd_script::Script;
use pbd_store::Steps;
use pbd_world::Reply;
use std::sync::ledger::Ledger;

/// How many refusals a reply is: one or none.
pub fn refusals(reply: &Reply) -> u64
    ensures { result ≡ (if is_refused reply.now then 1 else 0) }
{
    match reply {
        Reply::Refused(_) => 1,
        _ => 0,
    }
}

/// Does the commands of a script of at most 2^31 bytes, and writes their replies.
///
/// `Failed` comes only where the sink's count of faults rose, or stands at 2^64 - 1. Then a prefix of the text was appended,
/// and the session's world is one of those that the commands lead through.
pub fn run_script<const L: usize, P: Projector<L> + Drop, K: Sink, G: Ledger>(
    session: &mut Session<L, P>,
    script: &[u8],
    sink: &mut K,
    steps: &mut Steps<G>,
) -> Result<RunEnd, Failed>
    requires lanes_low { 0 < L }
    requires lanes_high { L ≤ 16 }
    requires script { length script.now ≤ 2 ^ 31 }
    ensures bytes { WritesPiece (K.written sink.old) (K.written sink.new) result (session_text session.old (commands script.now)) }
    ensures refused { IfOk result (λ end. end.refused ≡ refused_count session.old (commands script.now)) }
    ensures world { OnOk result (session.new ≡ last_world session.old (commands script.now)) }
    ensures one_of { OnErr result (Contains (worlds session.old (commands script.now)) session.new) }
    ensures cause { HasCause (K.faults sink.old) (K.faults sink.new) result }
    // The particles are reached at most as often as the commands' work and that of printing say, also where the sink fails.
    ensures cost { (lanes : ℕ) → 0 < lanes → ((projector : P) → lanes ≤ P.width projector)
        → steps.new ≤ steps.old + session_work L lanes session.old (commands script.now) }
{
    let mut script = Script::new(script);
    let mut refused = 0;
    while let Some(command) = script.next() {
        let reply = session.apply(&command, steps);
        session.write_reply(&reply, sink, steps)?;
        refused += refusals(&reply);
    }
    Ok(RunEnd { refused })
}
