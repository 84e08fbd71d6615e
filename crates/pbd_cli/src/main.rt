//! Does the form that its words name. What that reads, as a scene, a line `%%` and a script, is on standard input, and what it
//! writes goes to standard output.
#![tactic(auto)]

mod run;

use pbd_io::{StdSink, StdSource};
use pbd_outcome::Status;
use run::run;
use std::env;
use std::io::{self, ErrorKind};
use std::process::ExitCode;

fn words(rt: &HostRuntime) -> Result<Vec<String>, io::Error> {
    let mut words = Vec::new(rt.alloc());
    for word in env::args(rt)?.skip(1) {
        words.push(word)?;
    }
    Ok(words)
}

fn main(rt: HostRuntime) -> ExitCode {
    let words = match words(&rt) {
        Ok(words) => words,
        // A word that isn't UTF-8 is in no form, and no words are none either.
        Err(error) if error.kind() == ErrorKind::InvalidData => Vec::new(rt.alloc()),
        Err(_) => return ExitCode::from(Status::OutOfMemory.code()),
    };
    let mut source = StdSource::new(rt.stdin());
    let mut sink = StdSink::new(rt.stdout());
    ExitCode::from(run(rt.alloc(), &words, &mut source, &mut sink).code())
}
