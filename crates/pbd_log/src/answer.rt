// What the log keeps of a reply.
ghost use Rattle.std.specs.Prelude.{◌≡◌};
ghost use Rattle.pbd_log.specs.Entries.{answer_of, IsAnswer, phase_number, refusal_answer, plain};

use crate::Answer;
use pbd_world::{Phase, Refusal, Reply};

fn phase_number(phase: Phase) -> u8
    ensures { result ≡ phase_number phase }
{
    match phase {
        Phase::Predict => 1,
        Phase::Link => 2,
        Phase::Contact => 3,
        Phase::Shape => 4,
    }
}

fn plain(number: u8) -> Answer
    ensures { result ≡ plain number }
{
    Answer {
        number,
        step: 0,
        phase: 0,
        element: 0,
    }
}

fn refusal_answer(refusal: &Refusal) -> Answer
    ensures { result ≡ refusal_answer refusal.now }
{
    match *refusal {
        Refusal::LeavesRange {
            step,
            phase,
            element,
        } => Answer {
            number: 11,
            step,
            phase: phase_number(phase),
            element,
        },
        Refusal::TooManyContacts { step } => Answer {
            number: 12,
            step,
            phase: 0,
            element: 0,
        },
        _ => plain(refusal.number()),
    }
}

/// What the log keeps of a reply.
pub fn answer_of(reply: &Reply) -> Answer
    ensures exact { result ≡ answer_of reply.now }
    ensures grammar { IsAnswer result }
{
    of_reply(reply)
}

fn of_reply(reply: &Reply) -> Answer
    ensures { result ≡ answer_of reply.now }
{
    match reply {
        Reply::Done | Reply::Frame | Reply::Ledger => plain(0),
        Reply::Refused(refusal) => refusal_answer(refusal),
    }
}
