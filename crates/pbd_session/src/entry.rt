//! What a log keeps of a command.
ghost use Rattle.std.specs.Prelude.{◌≡◌, ◌≤◌};
ghost use Rattle.pbd_log.specs.Entries.{answer_of};
ghost use Rattle.pbd_world.specs.Replay.{kept_sums};

use crate::Session;
use pbd_log::{Entry, answer_of};
use pbd_pair::Projector;
use pbd_store::Steps;
use pbd_world::{Command, FrameSums, Reply};
use std::sync::ledger::Ledger;

impl<const L: usize, P: Projector<L> + Drop> Session<L, P> {
    /// The sums after a step that was done.
    fn kept_sums<G: Ledger>(
        &self,
        command: &Command,
        reply: &Reply,
        steps: &mut Steps<G>,
    ) -> Option<FrameSums>
        requires lanes_high { L ≤ 16 }
        ensures { result ≡ kept_sums self.now command.now reply.now }
    {
        match (command, reply) {
            (Command::Step(_), Reply::Done) => Some(self.frame_sums(steps)),
            _ => None,
        }
    }

    /// The entry of a command that was answered so, where the world is the one after it.
    pub(crate) fn entry<G: Ledger>(
        &self,
        command: Command,
        reply: &Reply,
        steps: &mut Steps<G>,
    ) -> Entry
        requires lanes_high { L ≤ 16 }
        ensures { result ≡ record { command = command; answer = answer_of reply.now; sums = kept_sums self.now command reply.now } }
    {
        Entry {
            command,
            answer: answer_of(reply),
            sums: self.kept_sums(&command, reply, steps),
        }
    }
}
