//! What the program does, from the words to the status.
ghost use Rattle.std.specs.Prelude.{◌≡◌};
ghost use Rattle.pbd_outcome.specs.Job.{job_of};
ghost use Rattle.pbd_outcome.specs.Clauses.{run_of, Settles, GoesAsSome, TellsUsage, ScramblesAlike, BlamesSource, BlamesSink, GivesUp, Reads};
ghost use Rattle.pbd_outcome.specs.Headline.{KeepsHeadline};
ghost use Rattle.pbd_outcome.specs.Hosting.{HostsApart};

use pbd_io::{Sink, Source};
use pbd_outcome::{Status, job_of};
use pbd_run::perform;
use std::alloc::Global;

/// Does what the words ask for, from the source to the sink.
pub fn run<S: Source, K: Sink>(
    alloc: Global,
    words: &[String],
    source: &mut S,
    sink: &mut K,
) -> Status
    // For every accepted scene and every script, at each width, where the input is told and the status isn't 2, 3 or 12, the
    // bytes that `simulate` writes are those of the scalar solver, from one sound world to the next; a refused command changes
    // nothing, and no later byte but its own line; and, undamped with equal weights, momentum changes exactly by gravity, pins
    // and shapes.
    ensures headline { KeepsHeadline (run_of S.Source K.Sink (job_of words.now) source.old sink.old source.new sink.new result) }
    // Where the input is told or not read, and unless the status is 2, 3 or 12, the status and the bytes are those of the
    // outcome, whatever failed on the way.
    ensures outcome { Settles (run_of S.Source K.Sink (job_of words.now) source.old sink.old source.new sink.new result) }
    // The same holds of the outcome of some input, where the source doesn't tell what it gives.
    ensures untold { GoesAsSome (run_of S.Source K.Sink (job_of words.now) source.old sink.old source.new sink.new result) }
    // Status 1 comes only where the words are no form, and there always, but where its line can't be written; whatever the
    // source tells.
    ensures usage { TellsUsage (run_of S.Source K.Sink (job_of words.now) source.old sink.old source.new sink.new result) }
    // Where the input is told and the status isn't 2, 3 or 12, `scramble` does what `simulate` does, whatever its number.
    ensures scrambled { ScramblesAlike (run_of S.Source K.Sink (job_of words.now) source.old sink.old source.new sink.new result) }
    // In `host`, where the scenes are accepted, the input is told and the status isn't 2, 3 or 12, each session writes what it
    // writes alone, but for the lines that name it, whatever is asked of the others.
    ensures hosted { HostsApart (run_of S.Source K.Sink (job_of words.now) source.old sink.old source.new sink.new result) }
    // A fault of reading or writing is told only where the source or the sink failed.
    ensures read_fault { result ≡ Status.ReadFault
        → BlamesSource (run_of S.Source K.Sink (job_of words.now) source.old sink.old source.new sink.new result) }
    ensures write_fault { result ≡ Status.WriteFault
        → BlamesSink (run_of S.Source K.Sink (job_of words.now) source.old sink.old source.new sink.new result) }
    // Want of memory comes before the first byte of output.
    ensures no_memory { result ≡ Status.OutOfMemory
        → GivesUp (run_of S.Source K.Sink (job_of words.now) source.old sink.old source.new sink.new result) }
    // A job that reads nothing leaves the source as it was.
    ensures unread { (Reads (job_of words.now) → ⊥) → source.new ≡ source.old }
{
    perform(alloc, job_of(words), source, sink)
}
