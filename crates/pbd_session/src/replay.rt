//! A log, replayed on a session.
ghost use Rattle.std.specs.Prelude.{◌≡◌, ◌≤◌, ◌<◌, OnOk, IfOk};
ghost use Rattle.std.specs.List.{Contains};
ghost use Rattle.pbd_io.specs.Causes.{HasCause};
ghost use Rattle.pbd_io.specs.Pieces.{WritesPiece};
ghost use Rattle.pbd_world.specs.Session.{worlds};
ghost use Rattle.pbd_session.specs.declared.ending.ReplayEnd.TheVariants as ends;
ghost use Rattle.pbd_session.specs.Replaying.{against, axis, commands_of, compared_answers, compared_sums, difference, differs, first_difference, mismatch_line, replayed};

use crate::line::mismatch_line;
use crate::script::refusals;
use crate::{Compared, Field, ReplayEnd, Session};
use pbd_io::{Failed, Sink};
use pbd_log::{Answer, Entry, LogView};
use pbd_pair::Projector;
use pbd_store::Steps;
use pbd_world::FrameSums;
use std::sync::ledger::Ledger;

/// Replays a log from the session's world: prints the reply of each entry up to the first that differs, and for that one
/// the line of the mismatch, and ends there.
///
/// `Failed` comes only where the sink's count of faults rose, or stands at 2^64 - 1. Then a prefix of that text was appended,
/// and the session's world is one of those that the log's commands lead through.
pub fn run_replay<const L: usize, P: Projector<L> + Drop, K: Sink, G: Ledger>(
    session: &mut Session<L, P>,
    view: LogView<'_>,
    sink: &mut K,
    steps: &mut Steps<G>,
) -> Result<ReplayEnd, Failed>
    requires lanes_low { 0 < L }
    requires lanes_high { L ≤ 16 }
    ensures bytes { WritesPiece (K.written sink.old) (K.written sink.new) result (replayed session.old view.entry.entries).text }
    ensures ended { IfOk result (λ end. end ≡ (replayed session.old view.entry.entries).ended) }
    ensures world { OnOk result (session.new ≡ (replayed session.old view.entry.entries).world) }
    ensures one_of { Contains (worlds session.old (commands_of view.entry.entries)) session.new }
    ensures cause { HasCause (K.faults sink.old) (K.faults sink.new) result }
{
    let mut view = view;
    let mut refused = 0;
    let mut number = 1;
    while let Some(entry) = view.next() {
        let reply = session.apply(&entry.command, steps);
        let found = session.entry(entry.command, &reply, steps);
        if let Some(compared) = difference(&entry, &found) {
            return write_mismatch(number, &compared, sink);
        }
        session.write_reply(&reply, sink, steps)?;
        refused += refusals(&reply);
        number += 1;
    }
    Ok(ReplayEnd::Done { refused })
}

/// Writes the line of a mismatch, and ends with it.
fn write_mismatch<K: Sink>(
    number: u64,
    compared: &Compared,
    sink: &mut K,
) -> Result<ReplayEnd, Failed>
    ensures bytes { WritesPiece (K.written sink.old) (K.written sink.new) result (mismatch_line number compared.now) }
    ensures ended { IfOk result (λ end. end ≡ ends.Mismatch number compared.now.field compared.now.recorded compared.now.found) }
    ensures cause { HasCause (K.faults sink.old) (K.faults sink.new) result }
{
    sink.write(mismatch_line(number, compared).as_slice())?;
    Ok(ReplayEnd::Mismatch {
        entry: number,
        field: compared.field,
        recorded: compared.recorded,
        found: compared.found,
    })
}

/// The first field in which a recorded entry and a found one differ.
fn difference(recorded: &Entry, found: &Entry) -> Option<Compared>
    ensures { result ≡ difference recorded.now found.now }
{
    let answers = compared_answers(&recorded.answer, &found.answer);
    if let Some(compared) = first_difference(&answers) {
        return Some(compared);
    }
    match (&recorded.sums, &found.sums) {
        (Some(recorded), Some(found)) => first_difference(&compared_sums(recorded, found)),
        _ => None,
    }
}

fn differs(compared: &Compared) -> bool
    ensures { result ≡ differs compared.now }
{
    compared.recorded != compared.found
}

fn first_difference(compared: &[Compared]) -> Option<Compared>
    ensures { result ≡ first_difference compared.now }
{
    for item in compared {
        if differs(item) {
            return Some(*item);
        }
    }
    None
}

fn against(field: Field, recorded: i128, found: i128) -> Compared
    ensures { result ≡ against field recorded found }
{
    Compared {
        field,
        recorded,
        found,
    }
}

/// The fields of two answers, in the order of their comparison.
fn compared_answers(recorded: &Answer, found: &Answer) -> [Compared; 4]
    ensures { result ≡ compared_answers recorded.now found.now }
{
    [
        against(
            Field::Answer,
            i128::from(recorded.number),
            i128::from(found.number),
        ),
        against(
            Field::Step,
            i128::from(recorded.step),
            i128::from(found.step),
        ),
        against(
            Field::Phase,
            i128::from(recorded.phase),
            i128::from(found.phase),
        ),
        against(
            Field::Element,
            i128::from(recorded.element),
            i128::from(found.element),
        ),
    ]
}

fn against_axis(field: Field, recorded: &[i64; 3], found: &[i64; 3], i: usize) -> Compared
    requires { i < 3 }
    ensures { result ≡ against field (axis recorded.now i) (axis found.now i) }
{
    against(field, i128::from(recorded[i]), i128::from(found[i]))
}

/// The fields of two entries' sums, in the order of their comparison.
fn compared_sums(recorded: &FrameSums, found: &FrameSums) -> [Compared; 9]
    ensures { result ≡ compared_sums recorded.now found.now }
{
    [
        against(
            Field::Steps,
            i128::from(recorded.steps),
            i128::from(found.steps),
        ),
        against(
            Field::Live,
            i128::from(recorded.live),
            i128::from(found.live),
        ),
        against(
            Field::Contacts,
            i128::from(recorded.contacts),
            i128::from(found.contacts),
        ),
        against_axis(Field::X, &recorded.at, &found.at, 0),
        against_axis(Field::Y, &recorded.at, &found.at, 1),
        against_axis(Field::Z, &recorded.at, &found.at, 2),
        against_axis(Field::BeforeX, &recorded.before, &found.before, 0),
        against_axis(Field::BeforeY, &recorded.before, &found.before, 1),
        against_axis(Field::BeforeZ, &recorded.before, &found.before, 2),
    ]
}
