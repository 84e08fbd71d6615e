//! What runs answer and write, and rows of tables that say what they are to write.
ghost use Rattle.std.specs.Prelude.{IfOk, IfSome};
ghost use Rattle.pbd_outcome.specs.Job.{IsSized};

use pbd_io::{MemSink, MemSource};
use pbd_outcome::{Job, Status, job_of};
use pbd_run::perform;
use pbd_tests_rows::wrong_row;
use std::alloc::{AllocError, Global};
use std::fmt::Write;

/// How many bytes a run may write here.
const ROOM: usize = 1_048_576;

/// What a run answers and writes.
pub(crate) type Outcome = Result<(Status, Vec<u8>), AllocError>;

/// The words of a run, and the width that stands for a `*` among them; the bytes that it reads, at most so many of them a
/// call, the reads that fail, by their number, and the writes that fail, each after some bytes.
#[derive(Clone, Copy)]
pub(crate) struct Given<'a> {
    pub(crate) words: &'a str,
    pub(crate) width: &'a str,
    pub(crate) input: &'a [u8],
    pub(crate) piece: usize,
    pub(crate) reads: &'a [u64],
    pub(crate) writes: &'a [(u64, usize)],
}

/// Words, and an input of which no read fails, and no write.
pub(crate) fn all_of<'a>(words: &'a str, input: &'a [u8]) -> Given<'a> {
    Given {
        words,
        width: "*",
        input,
        piece: 65_536,
        reads: &[],
        writes: &[],
    }
}

fn push_words(alloc: Global, given: &Given<'_>, words: &mut Vec<String>) -> Result<(), AllocError> {
    for word in given.words.split(' ') {
        let word = if word == "*" { given.width } else { word };
        words.push(String::from_str(alloc, word)?)?;
    }
    Ok(())
}

/// What the words of a run ask for.
fn job_in(alloc: Global, given: &Given<'_>) -> Result<Option<Job>, AllocError>
    ensures { IfOk result (λ job. IfSome job IsSized) }
{
    let mut words = Vec::new(alloc);
    let pushed = push_words(alloc, given, &mut words);
    let job = job_of(&words);
    drop(words);
    match pushed {
        Ok(()) => Ok(job),
        Err(error) => Err(error),
    }
}

fn source_of(alloc: Global, given: &Given<'_>) -> Result<MemSource, AllocError> {
    let bytes = given.input.to_vec(alloc)?;
    match given.reads.to_vec(alloc) {
        Ok(reads) => Ok(MemSource::new(bytes, given.piece.max(1), reads)),
        Err(error) => {
            drop(bytes);
            Err(error)
        }
    }
}

fn sink_of(alloc: Global, given: &Given<'_>) -> Result<MemSink, AllocError> {
    MemSink::open(alloc, ROOM, given.writes.to_vec(alloc)?)
}

/// What a run answers and writes.
pub(crate) fn run(alloc: Global, given: &Given<'_>) -> Outcome {
    let job = job_in(alloc, given)?;
    let mut source = source_of(alloc, given)?;
    match sink_of(alloc, given) {
        Ok(mut sink) => {
            let status = perform(alloc, job, &mut source, &mut sink);
            let written = sink.written().to_vec(alloc);
            drop(sink);
            drop(source);
            Ok((status, written?))
        }
        Err(error) => {
            drop(source);
            Err(error)
        }
    }
}

/// What a run on a text answers and writes.
pub(crate) fn run_on(alloc: Global, words: &str, input: Result<String, AllocError>) -> Outcome {
    match input {
        Ok(input) => {
            let outcome = run(alloc, &all_of(words, input.as_str().as_bytes()));
            drop(input);
            outcome
        }
        Err(error) => Err(error),
    }
}

/// Bytes as a text, where they are one.
fn shown(bytes: &[u8]) -> Result<&str, &[u8]> {
    match str::from_utf8(bytes) {
        Ok(text) => Ok(text),
        Err(_) => Err(bytes),
    }
}

/// One where a run doesn't end with the status of this number and write this, which is told then, and else nothing.
pub(crate) fn wrong_run(rt: &HostRuntime, given: &Given<'_>, (number, output): (u8, &[u8])) -> u32 {
    let input = given.input.get(..1000).unwrap_or(given.input);
    let words = (given.words, given.width);
    let name = (words, shown(input), given.piece, given.reads, given.writes);
    let outcome = run(rt.alloc(), given);
    let came_to = match &outcome {
        Ok((answer, written)) => Some((answer.code(), shown(written))),
        Err(_) => None,
    };
    let wanted = Some((number, shown(output)));
    let wrong = wrong_row(rt, (&name, "comes to"), &came_to, &wanted);
    drop(outcome);
    wrong
}

/// The widths that stand for a `*` in some words.
fn widths_of(words: &str) -> &'static [&'static str] {
    if words.contains('*') {
        &["1", "2", "4", "8", "16"]
    } else {
        &[""]
    }
}

/// How many runs don't end with the status of this number and write this, with each width in place of a `*` in the words.
pub(crate) fn wrong_runs(rt: &HostRuntime, runs: &Given<'_>, wanted: (u8, &[u8])) -> u32 {
    let mut wrong = 0u32;
    for width in widths_of(runs.words) {
        let run = Given {
            width: *width,
            ..*runs
        };
        wrong = wrong.saturating_add(wrong_run(rt, &run, wanted));
    }
    wrong
}

/// The same where a text has the input up to this place, and behind it what is to be written.
pub(crate) fn wrong_runs_of(
    rt: &HostRuntime,
    words: &str,
    (text, at): (&str, usize),
    number: u8,
) -> u32 {
    let bytes = text.as_bytes();
    let (input, output) = bytes.split_at(at.min(bytes.len()));
    wrong_runs(rt, &all_of(words, input), (number, output))
}

/// Whether one of the ends, each a status by its number and the beginning of a text, is that of a run.
fn is_among(ends: &[(u8, &[u8])], number: u8, written: &[u8]) -> bool {
    for (end, front) in ends {
        if *end == number && written.starts_with(*front) {
            return true;
        }
    }
    false
}

/// How many runs are wrong of one that is to have one of the ends, and of those to other words, which are to come to the same.
pub(crate) fn wrong_alike(
    rt: &HostRuntime,
    one: &Given<'_>,
    others: &[&str],
    ends: &[(u8, &[u8])],
) -> u32 {
    match run(rt.alloc(), one) {
        Ok((answer, written)) => {
            let number = answer.code();
            let front = written.get(..100).unwrap_or(&written);
            let name = (one.words, number, shown(front));
            let has_an_end = is_among(ends, number, &written);
            let mut wrong = wrong_row(rt, (&name, "is an end of its row"), &has_an_end, &true);
            for words in others {
                let other = Given {
                    words: *words,
                    ..*one
                };
                wrong = wrong.saturating_add(wrong_run(rt, &other, (number, &written)));
            }
            drop(written);
            wrong
        }
        Err(error) => wrong_row(rt, (&one.words, "comes to"), &Err(error), &Ok(())),
    }
}

/// The parts of a row `WORDS < INPUT => STATUS OUTPUT`.
fn parts_of(row: &str) -> Option<(&str, &str, u8, &str)> {
    let (words, rest) = row.split_once(" < ")?;
    let (input, answer) = rest.split_once(" => ")?;
    let (status, output) = answer.split_once(' ').unwrap_or((answer, ""));
    let number = status.parse::<u8>().ok()?;
    Some((words, input, number, output))
}

/// Adds lines that are written with `; ` between them.
fn push_lines(alloc: Global, text: &mut String, lines: &str) -> Result<(), AllocError> {
    let end = if lines.is_empty() { "" } else { "\n" };
    let lines = lines.replace(alloc, "; ", "\n")?;
    let pushed = text.push_str(lines.as_str()).and(text.push_str(end));
    drop(lines);
    pushed
}

/// How many runs of a row `WORDS < INPUT => STATUS OUTPUT` are wrong, and one where it is no row. A `*` in the words stands for
/// each width, and `; ` for the end of a line.
pub(crate) fn wrong_in(rt: &HostRuntime, row: &str) -> u32 {
    let Some((words, input, number, output)) = parts_of(row) else {
        return wrong_row(rt, (&row, "is a row"), &false, &true);
    };
    let mut text = String::new(rt.alloc());
    let read = push_lines(rt.alloc(), &mut text, input);
    let at = text.len();
    let written = push_lines(rt.alloc(), &mut text, output);
    let wrong = wrong_runs_of(rt, words, (text.as_str(), at), number);
    drop(text);
    wrong.saturating_add(wrong_texts(rt, row, [read, written]))
}

/// One where there was no memory for an input, or for what is to be written, of a row that is told then.
pub(crate) fn wrong_texts(rt: &HostRuntime, row: &str, made: [Result<(), AllocError>; 2]) -> u32 {
    wrong_row(rt, (&row, "has texts"), &made, &[Ok(()); 2])
}

/// Adds each of some texts.
pub(crate) fn push_each(text: &mut String, pieces: &[&str]) -> Result<(), AllocError> {
    for piece in pieces {
        text.push_str(*piece)?;
    }
    Ok(())
}

/// Adds a line, in which the next number stands for each `#`.
pub(crate) fn push_line(text: &mut String, line: &str, numbers: &[u32]) -> Result<(), AllocError> {
    let mut rest = line;
    for number in numbers {
        if let Some((before, behind)) = rest.split_once('#') {
            if write!(text, "{before}{number}").is_err() {
                return Err(AllocError);
            }
            rest = behind;
        }
    }
    text.push_str(rest)
}

/// A text, where there was memory for the last that was added to it.
pub(crate) fn whole(text: String, added: Result<(), AllocError>) -> Result<String, AllocError> {
    match added {
        Ok(()) => Ok(text),
        Err(error) => {
            drop(text);
            Err(error)
        }
    }
}
