//! Sources and sinks that fail at each call, and inputs that are too long.
use super::logs::{LOG, OLD_LOG};
use super::written::{Given, all_of, wrong_run};
use pbd_tests_rows::{WrongRows, all_hold, wrong_row};

const FALLS: &[u8] = b"gravity = [0, -10, 0]\n[[particle]]\nat = [0, 1000, 0]\n%%\nstep 3\nframe\n";

const TEXT: &[u8] = b"ok\nframe 3 1 0 0\n0 940 0\n";

/// Words, an input, and what is written where no read fails.
static READERS: [(&str, &[u8], &[u8]); 7] = [
    ("simulate 1", FALLS, TEXT),
    ("record 2", FALLS, LOG),
    ("replay 4", LOG, TEXT),
    ("scramble 7", FALLS, TEXT),
    ("marks 8", FALLS, TEXT),
    (
        "obj 16",
        b"v 0 0 0\n%%\n%%\nframe\n",
        b"# frame 0 1 0 0\nv 0 0 0\n",
    ),
    (
        "host 1",
        b"%%\n%%%\n1 frame\n",
        b"session 1\nframe 0 0 0 0\n",
    ),
];

/// One where a run whose read of this number fails doesn't end with a read fault, which is told then, and else nothing.
fn wrong_read(rt: &HostRuntime, run: &Given<'_>, call: u64) -> u32 {
    let failing = Given {
        reads: &[call],
        ..*run
    };
    wrong_run(rt, &failing, (2, b"error 2 ReadFault\n"))
}

/// How many runs are wrong whose source gives a byte a call and fails at one of them, at each that is made and at the next.
fn wrong_reads(rt: &HostRuntime, bytes: &Given<'_>, output: &[u8]) -> u32 {
    let past = (bytes.input.len() as u64).saturating_add(2);
    let unmade = Given {
        reads: &[past],
        ..*bytes
    };
    let mut wrong = wrong_run(rt, &unmade, (0, output));
    for call in 1..past {
        wrong = wrong.saturating_add(wrong_read(rt, bytes, call));
    }
    wrong
}

/// How many runs of some rows are wrong where a read fails, or a read and a write.
fn wrong_readers(rt: &HostRuntime, rows: &[(&str, &[u8], &[u8])]) -> u32 {
    let mut wrong = 0u32;
    for (words, input, output) in rows {
        let pieces = Given {
            piece: 4096,
            ..all_of(*words, *input)
        };
        let bytes = Given { piece: 1, ..pieces };
        let both = Given {
            reads: &[1],
            writes: &[(1, 7)],
            ..pieces
        };
        wrong = wrong
            .saturating_add(wrong_reads(rt, &bytes, *output))
            .saturating_add(wrong_read(rt, &pieces, 1))
            .saturating_add(wrong_run(rt, &both, (3, b"error 2")));
    }
    wrong
}

#[test]
fn each_failed_read_ends_a_run(rt: HostRuntime) -> Result<(), WrongRows> {
    all_hold(wrong_readers(&rt, &READERS))
}

/// Words, an input, what is written, of `large` the first line alone, and how many bytes each call of `write` is handed for it:
/// each line and each part of a log by one, and a face corner by corner.
type Writer = (&'static str, &'static [u8], &'static [u8], &'static [usize]);

static WRITERS: [Writer; 14] = [
    ("simulate 1", FALLS, TEXT, &[3, 14, 8]),
    ("simulate 2", FALLS, TEXT, &[3, 14, 8]),
    ("simulate 4", FALLS, TEXT, &[3, 14, 8]),
    ("scramble 7", FALLS, TEXT, &[3, 14, 8]),
    ("record 1", FALLS, LOG, &[20, 53, 74, 2, 9]),
    ("record 16", FALLS, LOG, &[20, 53, 74, 2, 9]),
    ("replay 1", LOG, TEXT, &[3, 14, 8]),
    ("replay 2", OLD_LOG, TEXT, &[3, 14, 8]),
    ("replay 16", b"", b"error 9 LogRefused offset 0\n", &[28]),
    ("large 2 7 2", b"", b"large 7 2\n", &[10]),
    (
        "marks 4",
        b"%%\nmark 1\nrewind 8\n",
        b"ok\nrefused 13 BadMark\n",
        &[3, 19],
    ),
    (
        "host 8",
        b"%%\n%%%\n1 frame\n",
        b"session 1\nframe 0 0 0 0\n",
        &[10, 14],
    ),
    ("simulate 16", b"", b"error 5 NoScript\n", &[17]),
    (
        "obj 8",
        b"v 0 0 0\nv 1 0 0\nv 1 1 0\nf 1 2 3\n%%\n%%\nframe\n",
        b"# frame 0 3 3 0\nv 0 0 0\nv 1 0 0\nv 1 1 0\nf 1 2 3\n",
        &[16, 8, 8, 8, 1, 2, 2, 2, 1],
    ),
];

/// How many runs are wrong whose call of `write` fails after 0 to 14 bytes of its piece, which has so many bytes before it.
fn wrong_write(rt: &HostRuntime, writer: &Writer, call: u64, (before, len): (usize, usize)) -> u32 {
    let (words, input, output, _) = *writer;
    let mut wrong = 0u32;
    for count in 0..15usize {
        let end = before.saturating_add(count.min(len));
        let failing = Given {
            piece: 4096,
            writes: &[(call, count)],
            ..all_of(words, input)
        };
        let front = output.get(..end).unwrap_or(b"less than is written");
        wrong = wrong.saturating_add(wrong_run(rt, &failing, (3, front)));
    }
    wrong
}

/// How many runs are wrong where a text is handed on by one call for each of the lengths, and one of them fails.
fn wrong_writes(rt: &HostRuntime, writer: &Writer) -> u32 {
    let mut wrong = 0u32;
    let mut call: u64 = 0;
    let mut before: usize = 0;
    for len in writer.3 {
        call = call.saturating_add(1);
        wrong = wrong.saturating_add(wrong_write(rt, writer, call, (before, *len)));
        before = before.saturating_add(*len);
    }
    wrong
}

fn wrong_writers(rt: &HostRuntime, writers: &[Writer]) -> u32 {
    let mut wrong = 0u32;
    for writer in writers {
        wrong = wrong.saturating_add(wrong_writes(rt, writer));
    }
    wrong
}

#[test]
fn each_failed_write_ends_a_run(rt: HostRuntime) -> Result<(), WrongRows> {
    all_hold(wrong_writers(&rt, &WRITERS))
}

/// Words, and so many of a byte that they are too long an input.
static TOO_LONG: [(&str, u8, usize); 7] = [
    ("simulate 16", b' ', 16_777_217),
    ("record 1", b' ', 16_777_217),
    ("scramble 0", b' ', 16_777_217),
    ("obj 2", b' ', 16_777_217),
    ("marks 4", b' ', 16_777_217),
    ("host 8", b' ', 16_777_217),
    ("replay 1", 0, 134_217_729),
];

/// How many runs are wrong that read so many bytes of one kind.
fn wrong_length(rt: &HostRuntime, (words, byte, count): &(&str, u8, usize)) -> u32 {
    match vec![in rt.alloc(); *byte; *count] {
        Ok(input) => {
            let wanted: (u8, &[u8]) = (4, b"error 4 InputTooLong\n");
            let wrong = wrong_run(rt, &all_of(*words, &input), wanted);
            drop(input);
            wrong
        }
        Err(error) => wrong_row(rt, (words, "has an input"), &Err(error), &Ok(())),
    }
}

fn wrong_lengths(rt: &HostRuntime, rows: &[(&str, u8, usize)]) -> u32 {
    let mut wrong = 0u32;
    for row in rows {
        wrong = wrong.saturating_add(wrong_length(rt, row));
    }
    wrong
}

#[test]
fn an_input_too_long_stops_a_run(rt: HostRuntime) -> Result<(), WrongRows> {
    all_hold(wrong_lengths(&rt, &TOO_LONG))
}
