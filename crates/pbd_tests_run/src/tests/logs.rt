//! Logs: written, replayed, changed and cut, as this version and the one before it wrote them; and bytes that are no text.
use super::written::{all_of, wrong_run, wrong_runs};
use pbd_outcome::Status;
use pbd_tests_rows::{WrongRows, all_hold};

/// The log of a particle that falls for three steps, and a frame.
pub(crate) const LOG: &[u8] =
    b"PBDSLOG\x02\x00\x00\x00\x00 \x00\x00\x00\x00\x00\x005gravity = [0, -10, 0]\n[[particle]]\nat = [0, 1000, 0]\n\x01\x00\x00\x00\x00\x00\x00\x00\x03\x00\x00\x00\x00\x00\x00\x00\x00\x03\x00\x00\x00\x00\x00\x00\x00\x00\x00\x00\x00\x00\x00\x00\x00\x00\x00\x00\x00\x00\x00\x00\x03\xac\x00\x00\x00\x00\x00\x00\x00\x00\x00\x00\x00\x00\x00\x00\x00\x00\x00\x00\x00\x00\x00\x00\x03\xca\x00\x00\x00\x00\x00\x00\x00\x00\x02\x00\x00\x00\x00\x00\x00\x00\x00\x00\x02";

/// The same as version 1 wrote it.
pub(crate) const OLD_LOG: &[u8] =
    b"PBDSLOG\x01\x00\x00\x005gravity = [0, -10, 0]\n[[particle]]\nat = [0, 1000, 0]\n\x01\x00\x00\x00\x00\x00\x00\x00\x03\x00\x00\x00\x00\x00\x00\x00\x00\x03\x00\x00\x00\x00\x00\x00\x00\x00\x00\x00\x00\x00\x00\x00\x00\x00\x00\x00\x00\x00\x00\x00\x03\xac\x00\x00\x00\x00\x00\x00\x00\x00\x00\x00\x00\x00\x00\x00\x00\x00\x00\x00\x00\x00\x00\x00\x03\xca\x00\x00\x00\x00\x00\x00\x00\x00\x02\x00\x00\x00\x00\x00\x00\x00\x00\x00\x02";

/// Words, an input, what is written, and the status, where bytes are no text: logs, and scenes that are none.
static BYTES: [(&str, &[u8], &[u8], Status); 19] = [
    (
        "record 4",
        b"%%\nframe\n",
        b"PBDSLOG\x02\x00\x00\x00\x00 \x00\x00\x00\x00\x00\x00\x00\x02\x00\x00\x00\x00\x00\x00\x00\x00\x00\x01",
        Status::Done,
    ),
    (
        "replay 16",
        b"PBDSLOG\x02\x00\x00\x00\x00 \x00\x00\x00\x00\x00\x00\x00\x02\x00\x00\x00\x00\x00\x00\x00\x00\x00\x01",
        b"frame 0 0 0 0\n",
        Status::Done,
    ),
    (
        "replay 16",
        b"PBDSLOG\x02\x00\x00\x00\x00 \x00\x00\x00\x00\x00\x00\x00\x02\x00\x00\x00\x00\x00\x00\x00\x00\x00",
        b"error 9 LogRefused offset 22\n",
        Status::LogRefused,
    ),
    (
        "replay 16",
        b"",
        b"error 9 LogRefused offset 0\n",
        Status::LogRefused,
    ),
    (
        "replay 16",
        b"PBDSLOG\x02\x00\x00\x00\x00 \x00\x00\x00\x00\x00\x00\x00\x02\x00\x00\x00\x00\x00\x00\x00\x00\x00\x01\x00",
        b"error 9 LogRefused offset 31\n",
        Status::LogRefused,
    ),
    (
        "replay 16",
        b"PBDSLOG\x02\x00\x00\x00\x00 \x00\x00\x00\x00\x00\x00\x00\x02\x02\x00\x00\x00\x00\x00\x00\x00\x00\x01",
        b"error 10 Mismatch record 1 field answer recorded 2 found 0\n",
        Status::Mismatch,
    ),
    (
        "record 1",
        b"gravity = [0, -10, 0]\n[[particle]]\nat = [0, 1000, 0]\n%%\nstep 3\nframe\n",
        b"PBDSLOG\x02\x00\x00\x00\x00 \x00\x00\x00\x00\x00\x005gravity = [0, -10, 0]\n[[particle]]\nat = [0, 1000, 0]\n\x01\x00\x00\x00\x00\x00\x00\x00\x03\x00\x00\x00\x00\x00\x00\x00\x00\x03\x00\x00\x00\x00\x00\x00\x00\x00\x00\x00\x00\x00\x00\x00\x00\x00\x00\x00\x00\x00\x00\x00\x03\xac\x00\x00\x00\x00\x00\x00\x00\x00\x00\x00\x00\x00\x00\x00\x00\x00\x00\x00\x00\x00\x00\x00\x03\xca\x00\x00\x00\x00\x00\x00\x00\x00\x02\x00\x00\x00\x00\x00\x00\x00\x00\x00\x02",
        Status::Done,
    ),
    (
        "replay 1",
        b"PBDSLOG\x02\x00\x00\x00\x00 \x00\x00\x00\x00\x00\x005gravity = [0, -10, 0]\n[[particle]]\nat = [0, 1000, 0]\n\x01\x00\x00\x00\x00\x00\x00\x00\x03\x00\x00\x00\x00\x00\x00\x00\x00\x03\x00\x00\x00\x00\x00\x00\x00\x00\x00\x00\x00\x00\x00\x00\x00\x00\x00\x00\x00\x00\x00\x00\x03\xac\x00\x00\x00\x00\x00\x00\x00\x00\x00\x00\x00\x00\x00\x00\x00\x00\x00\x00\x00\x00\x00\x00\x03\xca\x00\x00\x00\x00\x00\x00\x00\x00\x02\x00\x00\x00\x00\x00\x00\x00\x00\x00\x02",
        b"ok\nframe 3 1 0 0\n0 940 0\n",
        Status::Done,
    ),
    (
        "replay 16",
        b"PBDSLOG\x01\x00\x00\x00\x00\x02\x00\x00\x00\x00\x00\x00\x00\x00\x00\x01",
        b"frame 0 0 0 0\n",
        Status::Done,
    ),
    (
        "replay 1",
        b"PBDSLOG\x01\x00\x00\x005gravity = [0, -10, 0]\n[[particle]]\nat = [0, 1000, 0]\n\x01\x00\x00\x00\x00\x00\x00\x00\x03\x00\x00\x00\x00\x00\x00\x00\x00\x03\x00\x00\x00\x00\x00\x00\x00\x00\x00\x00\x00\x00\x00\x00\x00\x00\x00\x00\x00\x00\x00\x00\x03\xac\x00\x00\x00\x00\x00\x00\x00\x00\x00\x00\x00\x00\x00\x00\x00\x00\x00\x00\x00\x00\x00\x00\x03\xca\x00\x00\x00\x00\x00\x00\x00\x00\x02\x00\x00\x00\x00\x00\x00\x00\x00\x00\x02",
        b"ok\nframe 3 1 0 0\n0 940 0\n",
        Status::Done,
    ),
    (
        "replay 1",
        b"PBDSLOG\x01\xff\xff\xff\xff",
        b"error 9 LogRefused offset 8\n",
        Status::LogRefused,
    ),
    (
        "replay 1",
        b"PBDSLOG\x01\x00\x00\x00\x00\x02\x00\x00\x00\x00\x00\x00\x00\x00\x00\x02",
        b"error 9 LogRefused offset 14\n",
        Status::LogRefused,
    ),
    (
        "replay 1",
        b"PBDSLOG\x01\x00\x00\x00\x00\xff\x00\x00\x00\x00\x00\x00\x00\x00\x00\x01",
        b"error 9 LogRefused offset 12\n",
        Status::LogRefused,
    ),
    (
        "replay 1",
        b"PBDSLOG\x01\x00\x00\x00\x00\x02\x0d\x00\x00\x00\x00\x00\x00\x00\x00\x01",
        b"error 9 LogRefused offset 12\n",
        Status::LogRefused,
    ),
    (
        "replay 1",
        b"PBDSLOG\x01\x00\x00\x00\x00\x01\xff\xff\xff\xff\xff\xff\xff\xff\x09\x00\x00\x00\x00\x00\x00\x00\x00\x01",
        b"refused 9 BadCount\n",
        Status::SomeRefused,
    ),
    (
        "replay 1",
        b"PBDSLOG\x01\x00\x00\x008gravity = [1, 0, 0]\n[[particle]]\nat = [268435456, 0, 0]\n\x01\x00\x00\x00\x00\x00\x00\x00\x01\x0b\x00\x00\x00\x00\x00\x00\x00\x01\x01\x00\x00\x00\x00\x00\x00\x00\x00\x00\x00\x00\x00\x01",
        b"refused 11 LeavesRange step 1 phase predict element 0\n",
        Status::SomeRefused,
    ),
    (
        "replay 1",
        b"PBDSLOG\x02\x00\x00\x00\x00 \x00\x00\x00\x00\x00\x008gravity = [1, 0, 0]\n[[particle]]\nat = [268435456, 0, 0]\n\x01\x00\x00\x00\x00\x00\x00\x00\x01\x0b\x00\x00\x00\x00\x00\x00\x00\x01\x01\x00\x00\x00\x00\x00\x00\x00\x00\x00\x00\x00\x00\x01",
        b"error 10 Mismatch record 1 field answer recorded 11 found 0\n",
        Status::Mismatch,
    ),
    (
        "simulate *",
        b"\xff\n%%\n",
        b"error 6 SceneNotText\n",
        Status::SceneNotText,
    ),
    (
        "obj 4",
        b"v 1 2\n%%\n\xff\n%%\n",
        b"error 6 SceneNotText\n",
        Status::SceneNotText,
    ),
];

/// How many runs of some rows are wrong.
fn wrong_rows(rt: &HostRuntime, rows: &[(&str, &[u8], &[u8], Status)]) -> u32 {
    let mut wrong = 0u32;
    for (words, input, output, status) in rows {
        let wanted = (status.code(), *output);
        wrong = wrong.saturating_add(wrong_runs(rt, &all_of(*words, *input), wanted));
    }
    wrong
}

#[test]
fn bytes_are_read_and_written_as_their_rows_say(rt: HostRuntime) -> Result<(), WrongRows> {
    all_hold(wrong_rows(&rt, &BYTES))
}

/// From which length on a log that is cut to it is refused how: each line from there up to the length of the next.
type Refusals<'a> = &'a [(usize, &'a [u8])];

/// Where the log is refused.
static CUTS: [(usize, &[u8]); 6] = [
    (0, b"error 9 LogRefused offset 0\n"),
    (8, b"error 9 LogRefused offset 8\n"),
    (16, b"error 9 LogRefused offset 16\n"),
    (73, b"error 9 LogRefused offset 73\n"),
    (147, b"error 9 LogRefused offset 147\n"),
    (149, b"error 9 LogRefused offset 149\n"),
];

/// Where the same of version 1 is.
static OLD_CUTS: [(usize, &[u8]); 5] = [
    (0, b"error 9 LogRefused offset 0\n"),
    (8, b"error 9 LogRefused offset 8\n"),
    (65, b"error 9 LogRefused offset 65\n"),
    (139, b"error 9 LogRefused offset 139\n"),
    (141, b"error 9 LogRefused offset 141\n"),
];

/// The line of a log that is cut to this length: that of the last row which begins at or before it.
fn line_of<'a>(len: usize, refusals: Refusals<'a>) -> &'a [u8] {
    let mut found: &'a [u8] = b"";
    for (from, line) in refusals {
        if *from <= len {
            found = *line;
        }
    }
    found
}

/// How many lengths there are to which a log is cut and isn't refused where it goes wrong.
fn wrong_cuts(rt: &HostRuntime, log: &[u8], refusals: Refusals<'_>) -> u32 {
    let mut wrong = 0u32;
    for len in 0..log.len() {
        let wanted = (9, line_of(len, refusals));
        wrong = wrong.saturating_add(wrong_run(rt, &all_of("replay 1", &log[..len]), wanted));
    }
    wrong
}

#[test]
fn a_log_that_is_cut_is_refused_where_it_goes_wrong(rt: HostRuntime) -> Result<(), WrongRows> {
    let new = wrong_cuts(&rt, LOG, &CUTS);
    let old = wrong_cuts(&rt, OLD_LOG, &OLD_CUTS);
    all_hold(new.saturating_add(old))
}
