//! The forms of the program: how much each reads, and what does it.
ghost use Rattle.std.specs.Prelude.{◌≡◌, ◌≤◌, ◌^◌, length, Some, IfSome};
ghost use Rattle.pbd_outcome.specs.Job.{IsSized};
ghost use Rattle.pbd_outcome.specs.Clauses.{Promises, Reads, run_of};
ghost use Rattle.pbd_run.specs.Calls.{DoesSome, IsOne, limit_of};

use crate::host::host_input;
use crate::inputs::{ScriptJob, obj_input, replay_input, script_input};
use crate::large::{Large, large_run};
use crate::reading::read_all;
use crate::scene::{stop, stop_reading};
use pbd_io::{Sink, Source};
use pbd_outcome::{Job, Status};
use std::alloc::Global;

/// How many bytes an input with a scene and a script may have.
const LIMIT: usize = 16_777_216;

/// How many bytes a log may have.
const LOG_LIMIT: usize = 134_217_728;

/// How many bytes a job's input may have.
#[tactic(auto, unfolding(pbd_outcome::specs::Outcome::most, pbd_outcome::specs::Outcome::most_of_log))]
fn limit_of(job: Job) -> usize
    ensures value { result ≡ limit_of job }
    ensures small { result ≤ 2 ^ 31 }
{
    match job {
        Job::Replay(_) => LOG_LIMIT,
        _ => LIMIT,
    }
}

/// Does a job that reads, on an input that was read to its end.
fn on_input<K: Sink>(alloc: Global, job: Job, input: &[u8], sink: &mut K) -> Status
    requires reads { Reads (Some job) }
    requires short { length input.now ≤ 2 ^ 31 }
    ensures { DoesSome (IsOne job input.now) (K.written sink.old) (K.written sink.new) (K.faults sink.old) (K.faults sink.new) result }
{
    match job {
        Job::Simulate(width) => script_input(alloc, ScriptJob::Simulate(width), input, sink),
        Job::Record(width) => script_input(alloc, ScriptJob::Record(width), input, sink),
        Job::Scramble { seed } => script_input(alloc, ScriptJob::Scramble { seed }, input, sink),
        Job::Marks(width) => script_input(alloc, ScriptJob::Marks(width), input, sink),
        Job::Replay(width) => replay_input(alloc, width, input, sink),
        Job::Obj(width) => obj_input(alloc, width, input, sink),
        Job::Host(width) => host_input(alloc, width, input, sink),
        Job::Large { .. } => unreachable!(),
    }
}

/// Reads the input of a job to its end, and does the job on it.
fn read_and_do<S: Source, K: Sink>(alloc: Global, job: Job, source: &mut S, sink: &mut K) -> Status
    requires reads { Reads (Some job) }
    ensures { Promises (run_of S.Source K.Sink (Some job) source.old sink.old source.new sink.new result) }
{
    match read_all(alloc, limit_of(job), source) {
        Ok(input) => on_input(alloc, job, &input, sink),
        Err(end) => stop_reading(end, sink),
    }
}

/// Does a job, or says that the words ask for none.
pub fn perform<S: Source, K: Sink>(
    alloc: Global,
    job: Option<Job>,
    source: &mut S,
    sink: &mut K,
) -> Status
    requires { IfSome job IsSized }
    ensures promises { Promises (run_of S.Source K.Sink job source.old sink.old source.new sink.new result) }
    ensures unread { (Reads job → ⊥) → source.new ≡ source.old }
{
    let Some(job) = job else {
        return stop(Status::Usage, sink);
    };
    match job {
        Job::Large { width, seed, size } => {
            let large = Large { number: seed, size };
            large_run(alloc, width, large, sink)
        }
        _ => read_and_do(alloc, job, source, sink),
    }
}
