//! A session, and the marks to which it goes back.
ghost use Rattle.std.specs.Prelude.{◌≡◌, ◌<◌, ◌≤◌, if◌then◌else◌, IfOk, MatchResult, Ok, Err};
ghost use Rattle.pbd_run.specs.Prelude.{opened, HasCause, WritesPiece};
ghost use Rattle.pbd_marks.specs.Marked.{answer, answer_text, is_refused_answer, marked_after, mark_refusal_line, unmarked};

use crate::serving::Serve;
use pbd_io::{Failed, Sink};
use pbd_marks::{MarkCommand, MarkRefusal, Marks};
use pbd_pair::LaneProjector;
use pbd_session::Session;
use pbd_store::Steps;
use pbd_world::{Reply, Scene};
use std::alloc::{AllocError, Global};
use std::marker::Model;
use std::sync::ledger::Ledger;

/// What a command is answered: a reply, or why its mark is refused.
pub type Answer = Result<Reply, MarkRefusal>;

/// A session and its marks, seen as the world and the marks. Only opening takes memory.
#[derive(Drop)]
pub struct MarkedSession<const L: usize> {
    session: Session<L, LaneProjector<L>>,
    marks: Marks<L, LaneProjector<L>>,
}

impl<const L: usize> Model for MarkedSession<L> {
    ghost use Rattle.pbd_marks.specs.Keeping.{IsOfScene};
    ghost use Rattle.pbd_marks.specs.Marked.{Marked};

    ghost Value = { Marked };

    ghost view = { λ s. record { world = s.session; marks = s.marks.marks } };

    ghost invariant = { λ s. IsOfScene s.marks.scene s.session };
}

/// The answer of a call that a mark may refuse.
fn answered(outcome: Result<(), MarkRefusal>) -> Answer
    ensures { MatchResult outcome (λ _. result ≡ Ok Reply.Done) (λ refusal. result ≡ Err refusal) }
{
    match outcome {
        Ok(()) => Ok(Reply::Done),
        Err(refusal) => Err(refusal),
    }
}

/// The line of a refused mark.
#[tactic(auto, unfolding(pbd_marks::specs::Marked::mark_refusal_line))]
fn mark_refusal_line(refusal: MarkRefusal) -> &'static str
    ensures { result.now ≡ mark_refusal_line refusal }
{
    match refusal {
        MarkRefusal::BadMark => "refused 13 BadMark\n",
        MarkRefusal::MarkEmpty => "refused 14 MarkEmpty\n",
    }
}

/// How many refusals an answer is: one or none.
fn refusals(answer: &Answer) -> u64
    ensures { result ≡ (if is_refused_answer answer.now then 1 else 0) }
{
    match answer {
        Ok(Reply::Refused(_)) => 1,
        Ok(_) => 0,
        Err(_) => 1,
    }
}

impl<const L: usize> MarkedSession<L> {
    /// The world of a scene before its first command, with empty marks. The only call that takes memory.
    pub fn open(alloc: Global, scene: &Scene) -> Result<MarkedSession<L>, AllocError>
        requires lanes_low { 0 < L }
        requires lanes_high { L ≤ 16 }
        ensures { IfOk result (λ marked. marked ≡ unmarked (opened scene.now)) }
    {
        let projector = LaneProjector::<L>::new();
        match Session::open(alloc, scene, projector) {
            Ok(session) => match Marks::open(alloc, scene, projector) {
                Ok(marks) => Ok(MarkedSession { session, marks }),
                Err(failed) => {
                    drop(session);
                    Err(failed)
                }
            },
            Err(failed) => Err(failed),
        }
    }

    /// Does a command. A refused command changes nothing.
    #[tactic(auto, unfolding(pbd_marks::specs::Marked::marked_meaning))]
    fn apply<G: Ledger>(&mut self, command: MarkCommand, steps: &mut Steps<G>) -> Answer
        requires lanes_low { 0 < L }
        requires lanes_high { L ≤ 16 }
        ensures answer { result ≡ answer self.old command }
        ensures state { self.new ≡ marked_after self.old command }
    {
        match command {
            MarkCommand::Plain(command) => Ok(self.session.apply(&command, steps)),
            MarkCommand::Mark(k) => answered(self.marks.set(k, self.session.solver())),
            MarkCommand::Rewind(k) => answered(self.marks.rewind(k, self.session.solver_mut())),
        }
    }

    /// Writes the lines of an answer, with frames and ledgers read from the world as it is now.
    fn write_answer<K: Sink, G: Ledger>(
        &self,
        answer: &Answer,
        sink: &mut K,
        steps: &mut Steps<G>,
    ) -> Result<(), Failed>
        requires lanes_high { L ≤ 16 }
        ensures bytes { WritesPiece (K.written sink.old) (K.written sink.new) result (answer_text self.now.world answer.now) }
        ensures cause { HasCause (K.faults sink.old) (K.faults sink.new) result }
    {
        match answer {
            Ok(reply) => self.session.write_reply(reply, sink, steps),
            Err(refusal) => sink.write(mark_refusal_line(*refusal).as_bytes()),
        }
    }
}

/// What does commands and marks on a session that has marks.
#[derive(Clone, Copy)]
pub struct WithMarks;

impl<const L: usize> Serve<MarkedSession<L>, MarkCommand> for WithMarks {
    ghost ready = { λ _. (0 < L) × (L ≤ 16) };

    ghost state_after = { λ _ m c. marked_after m c };

    ghost answer_to = { λ _ m c. answer_text (marked_after m c).world (answer m c) };

    ghost refuses = { λ _ m c. is_refused_answer (answer m c) };

    fn serve<K: Sink, G: Ledger>(
        &self,
        state: &mut MarkedSession<L>,
        command: MarkCommand,
        sink: &mut K,
        steps: &mut Steps<G>,
    ) -> Result<u64, Failed> {
        let answer = state.apply(command, steps);
        match state.write_answer(&answer, sink, steps) {
            Ok(()) => Ok(refusals(&answer)),
            Err(failed) => Err(failed),
        }
    }
}
