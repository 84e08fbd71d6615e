//! Commands of a script, done one after another on a state, and answered.
ghost use Rattle.std.specs.Prelude.{◌≡◌, ◌≤◌, ◌^◌, ℕ, Bool, List, if◌then◌else◌, length, IfOk};
ghost use Rattle.pbd_run.specs.Prelude.{HasCause, WritesPiece};
ghost use Rattle.pbd_run.specs.Serving.{served_refusals, served_text};

use pbd_io::{Failed, Sink};
use pbd_script::{CommandLines, LineCommand};
use pbd_session::RunEnd;
use pbd_store::Steps;
use std::sync::ledger::Ledger;

/// What does commands `C` on a state `S`, and writes their answers.
pub trait Serve<S, C: LineCommand> {
    /// What it asks for that.
    ghost ready: { Self → Type 0 };

    /// The state after a command.
    ghost state_after: { Self → S → C → S };

    /// What a command is answered.
    ghost answer_to: { Self → S → C → List ℕ };

    /// Whether a command is refused.
    ghost refuses: { Self → S → C → Bool };

    /// Does a command, and writes its answer. How many refusals that is, one or none, comes back.
    fn serve<K: Sink, G: Ledger>(
        &self,
        state: &mut S,
        command: C,
        sink: &mut K,
        steps: &mut Steps<G>,
    ) -> Result<u64, Failed>
        requires { ready self.now }
        ensures state { state.new ≡ state_after self.now state.old command }
        ensures bytes { WritesPiece (K.written sink.old) (K.written sink.new) result (answer_to self.now state.old command) }
        ensures refused { IfOk result (λ n. n ≡ (if refuses self.now state.old command then 1 else 0)) }
        ensures cause { HasCause (K.faults sink.old) (K.faults sink.new) result };

    /// Does the commands of a script of at most 2^31 bytes, and writes their answers. How many were refused comes back.
    ///
    /// `Failed` comes only where the sink's count of faults rose, or stands at 2^64 - 1, and then a prefix of the text was
    /// appended.
    final fn serve_script<K: Sink, G: Ledger>(
        &self,
        state: &mut S,
        script: &[u8],
        sink: &mut K,
        steps: &mut Steps<G>,
    ) -> Result<RunEnd, Failed>
        requires ready { ready self.now }
        requires script { length script.now ≤ 2 ^ 31 }
        ensures bytes { WritesPiece (K.written sink.old) (K.written sink.new) result
            (served_text (state_after self.now) (answer_to self.now) state.old (C.of_script script.now)) }
        ensures refused { IfOk result (λ end. end.refused
            ≡ served_refusals (state_after self.now) (refuses self.now) state.old (C.of_script script.now)) }
        ensures cause { HasCause (K.faults sink.old) (K.faults sink.new) result }
    {
        let mut script = CommandLines::<C>::new(script);
        let mut refused = 0;
        while let Some(command) = script.next() {
            refused += self.serve(state, command, sink, steps)?;
        }
        Ok(RunEnd { refused })
    }
}
