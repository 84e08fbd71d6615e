// Reads an input to its end, or to its limit.
ghost use Rattle.std.specs.Prelude.{◌≡◌, ◌+◌, ◌≤◌, ◌<◌, ◌^◌, ℕ, List, length, IfOk, OnErr, IsErrOf};
ghost use Rattle.std.specs.Io.KnownBytes.{Consumes, IsAtEnd};
ghost use Rattle.pbd_io.specs.Causes.{HasRisen};
ghost use Rattle.pbd_run.specs.Reading.{ReadsAll};

use pbd_io::{Failed, Source};
use std::alloc::{AllocError, Global};

const CHUNK: usize = 4096;

/// Why an input was not read to its end.
#[derive(Clone, Copy, Debug, PartialEq, Eq)]
pub enum ReadEnd {
    Failed,
    TooLong,
    OutOfMemory,
}

/// Reads to the end, or one byte past the limit.
pub fn read_all<S: Source>(alloc: Global, limit: usize, source: &mut S) -> Result<Vec<u8>, ReadEnd>
    requires { limit < 2 ^ 40 }
    ensures bytes { ReadsAll limit (S.left source.old) (S.left source.new) result }
    ensures cause { IsErrOf result ReadEnd.Failed → HasRisen (S.faults source.old) (S.faults source.new) }
    ensures later { S.faults source.old ≤ S.faults source.new }
{
    let mut input = Vec::new(alloc);
    let mut chunk = [0; CHUNK];
    'reading: while input.len() <= limit {
        let room = CHUNK.min(limit + 1 - input.len());
        let into = &mut chunk[..room];
        match source.read(into) {
            Err(Failed) => return Err(ReadEnd::Failed),
            Ok(0) => return Ok(input),
            Ok(count) => {
                if input.extend_from_slice(&into[..count]).is_err() {
                    return Err(ReadEnd::OutOfMemory);
                }
            }
        }
    }
    Err(ReadEnd::TooLong)
}
