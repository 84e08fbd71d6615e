//! Logs byte by byte, cut and changed, sinks that fail, and what is read back.
ghost use Rattle.std.specs.Prelude.{◌≡◌, ◌<◌, ◌^◌, ◌++◌, IsTrue, length, OnOk};
ghost use Rattle.std.specs.Io.KnownBytes.{Appends};
ghost use Rattle.std.specs.List.{All, flat_map};
ghost use Rattle.pbd_world.specs.Valid.{is_limit};
ghost use Rattle.pbd_log.specs.Entries.{IsGrammatical, entry_bytes};
ghost use Rattle.pbd_log.specs.Logs.{header_bytes, end_bytes};

use super::io::failing_sink;
use pbd_io::{Failed, Sink};
use pbd_log::{Entry, LogView, LogWriter, answer_of, read_log};
use pbd_num::Vec3;
use pbd_tests_rows::logs::{LONG, OLD, OLD_BAD_COUNT, SCENE, SMALL};
use pbd_tests_rows::{WrongRows, all_hold, wrong_row};
use pbd_world::{Command, FrameSums, Phase, Refusal, Reply};
use std::alloc::Global;
use std::io::Eprint;

const OLD_SMALL: [u8; 23] = [
    80, 66, 68, 83, 76, 79, 71, 1, 0, 0, 0, 0, 2, 0, 0, 0, 0, 0, 0, 0, 0, 0, 1,
];

// One step, refused with 11: step 1, predict, element 0.
const OLD_LEAVES: [u8; 44] = [
    80, 66, 68, 83, 76, 79, 71, 1, 0, 0, 0, 0, 1, 0, 0, 0, 0, 0, 0, 0, 1, 11, 0, 0, 0, 0, 0, 0, 0,
    1, 1, 0, 0, 0, 0, 0, 0, 0, 0, 0, 0, 0, 0, 1,
];

const STEP_SUMS: FrameSums = FrameSums {
    steps: 3,
    live: 0,
    contacts: 0,
    at: [0, 940, 0],
    before: [0, 970, 0],
};

/// What a session keeps of this command and this reply, with these sums where sums stand.
fn kept(command: Command, reply: &Reply, sums: FrameSums) -> Entry
    ensures { IsGrammatical result }
{
    let answer = answer_of(reply);
    let sums = match command {
        Command::Step(_) if answer.number == 0 => Some(sums),
        _ => None,
    };
    Entry {
        command,
        answer,
        sums,
    }
}

fn step() -> Entry
    ensures { IsGrammatical result }
{
    kept(Command::Step(3), &Reply::Done, STEP_SUMS)
}

fn frame() -> Entry
    ensures { IsGrammatical result }
{
    kept(Command::Frame, &Reply::Frame, STEP_SUMS)
}

/// A whole log of version 2, part by part: what it appends is known from the writer's clauses alone.
fn write_log<K: Sink>(
    sink: &mut K,
    limit: i64,
    scene: &[u8],
    entries: &[Entry],
) -> Result<(), Failed>
    requires limit { IsTrue (is_limit limit) }
    requires scene { length scene.now < 2 ^ 32 }
    requires grammar { All IsGrammatical entries.now }
    requires room { length entries.now < 2 ^ 32 }
    ensures { OnOk result (Appends (K.written sink.old) (K.written sink.new)
        ((header_bytes 2 limit (length scene.now) ++ scene.now)
        ++ flat_map entry_bytes entries.now ++ end_bytes (length entries.now))) }
{
    let mut writer = LogWriter::begin(sink, limit, scene)?;
    for entry in entries {
        writer.append(sink, entry)?;
    }
    writer.finish(sink)
}

/// Whether a log goes on with just these commands and replies, and with these sums where sums stand.
fn has_replies(view: &mut LogView<'_>, replies: &[(Command, Reply)], sums: &FrameSums) -> bool {
    for (command, reply) in replies {
        if view.next() != Some(kept(*command, reply, *sums)) {
            return false;
        }
    }
    view.next().is_none() && view.next().is_none()
}

/// What a log holds: its version and its limit, its scene, the commands with their replies, and the sums of its steps.
struct Held {
    head: (u8, i64),
    scene: &'static [u8],
    replies: &'static [(Command, Reply)],
    sums: FrameSums,
}

/// The version and the limit of a log, and whether its scene, and its commands and replies, are as they should be; or where it
/// is refused.
type Told = Result<((u8, i64), [bool; 2]), u64>;

/// What is told of bytes beside what they hold.
fn told_of(bytes: &[u8], held: &Held) -> Told {
    match read_log(bytes) {
        Ok(mut view) => {
            let head = (view.version(), view.limit());
            let is_scene = view.scene() == held.scene;
            let are_replies = has_replies(&mut view, held.replies, &held.sums);
            Ok((head, [is_scene, are_replies]))
        }
        Err(fault) => Err(fault.offset),
    }
}

macro_rules! held {
    ($version:expr, $limit:expr, $scene:expr, $replies:expr) => {
        Held {
            head: ($version, $limit),
            scene: $scene,
            replies: $replies,
            sums: STEP_SUMS,
        }
    };
}

const STEP_AND_FRAME: &[(Command, Reply)] = &[
    (Command::Step(3), Reply::Done),
    (Command::Frame, Reply::Frame),
];

const FRAME: &[(Command, Reply)] = &[(Command::Frame, Reply::Frame)];

static EXAMPLES: [(&[u8], Held); 6] = [
    (&LONG, held!(2, 536_870_912, SCENE, STEP_AND_FRAME)),
    (&SMALL, held!(2, 536_870_912, &[], FRAME)),
    (&OLD, held!(1, 268_435_456, SCENE, STEP_AND_FRAME)),
    (&OLD_SMALL, held!(1, 268_435_456, &[], FRAME)),
    (
        &OLD_BAD_COUNT,
        held!(
            1,
            268_435_456,
            &[],
            &[(Command::Step(u64::MAX), Reply::Refused(Refusal::BadCount))]
        ),
    ),
    (
        &OLD_LEAVES,
        held!(
            1,
            268_435_456,
            &[],
            &[(
                Command::Step(1),
                Reply::Refused(Refusal::LeavesRange {
                    step: 1,
                    phase: Phase::Predict,
                    element: 0,
                })
            )]
        ),
    ),
];

#[test]
fn the_examples_are_read(rt: HostRuntime) -> Result<(), WrongRows> {
    let mut wrong = 0u32;
    for (bytes, held) in &EXAMPLES {
        let told = told_of(bytes, held);
        let wanted = Ok((held.head, [true; 2]));
        wrong = wrong.saturating_add(wrong_row(&rt, (bytes, "is read"), &told, &wanted));
    }
    all_hold(wrong)
}

fn offset_of(bytes: &[u8]) -> Option<u64> {
    match read_log(bytes) {
        Ok(_) => None,
        Err(fault) => Some(fault.offset),
    }
}

/// The offset for the first n bytes: that of the first row that n isn't past.
fn expected_at(n: usize, rows: &[(usize, u64)]) -> Option<u64> {
    for (last, offset) in rows {
        if n <= *last {
            return Some(*offset);
        }
    }
    None
}

/// Logs, and the offset at which each cut of them is refused, by the last of the cuts that have it.
static CUTS: [(&[u8], &[(usize, u64)]); 4] = [
    (
        &LONG,
        &[(7, 0), (15, 8), (72, 16), (146, 73), (148, 147), (157, 149)],
    ),
    (&OLD, &[(7, 0), (64, 8), (138, 65), (140, 139), (149, 141)]),
    (&SMALL, &[(7, 0), (15, 8), (19, 16), (21, 20), (30, 22)]),
    (&OLD_SMALL, &[(7, 0), (11, 8), (13, 12), (22, 14)]),
];

/// The first cut of a log that isn't refused as the rows say.
fn first_wrong_cut(bytes: &[u8], rows: &[(usize, u64)]) -> Option<usize> {
    for n in 0..=bytes.len() {
        if offset_of(&bytes[..n]) != expected_at(n, rows) {
            return Some(n);
        }
    }
    None
}

#[test]
fn each_cut_and_what_is_too_long_are_refused(rt: HostRuntime) -> Result<(), WrongRows> {
    let mut wrong = 0u32;
    for (bytes, rows) in &CUTS {
        let cut = first_wrong_cut(bytes, rows);
        wrong = wrong.saturating_add(wrong_row(&rt, (bytes, "is cut wrongly at"), &cut, &None));
    }
    for (bytes, offset) in &TOO_LONG {
        let found = offset_of(bytes);
        wrong = wrong.saturating_add(wrong_row(
            &rt,
            (bytes, "is refused at"),
            &found,
            &Some(*offset),
        ));
    }
    all_hold(wrong)
}

/// Where the bytes are refused with this one set, or none where they are taken.
fn offset_with<const N: usize>(bytes: &[u8; N], (at, byte): (usize, u8)) -> Option<u64> {
    let mut changed = *bytes;
    if at < N {
        changed[at] = byte;
    }
    offset_of(&changed)
}

/// Where a log is refused of which one byte is another, or none where it is taken, and such bytes, each behind its index.
type Wrong = (Option<u64>, &'static [(usize, u8)]);

/// How many changed bytes of a log don't come to what their rows say. Each of them is told.
fn wrong_rows<const N: usize>(rt: &impl Eprint, bytes: &[u8; N], rows: &[Wrong]) -> u32 {
    let mut wrong = 0u32;
    for (offset, changes) in rows {
        for change in *changes {
            let found = offset_with(bytes, *change);
            wrong = wrong.saturating_add(wrong_row(rt, (change, "is refused at"), &found, offset));
        }
    }
    wrong
}

static SMALL_CHANGED: [Wrong; 7] = [
    (Some(0), &[(0, 81), (6, 103), (7, 0), (7, 3)]),
    (Some(8), &[(8, 1), (12, 48), (15, 1)]),
    (Some(16), &[(16, 255), (19, 12)]),
    (Some(20), &[(20, 255), (21, 13)]),
    (Some(22), &[(22, 255), (23, 1), (30, 2)]),
    (Some(29), &[(20, 0)]),
    (None, &[(12, 16), (21, 2)]),
];

static OLD_SMALL_CHANGED: [Wrong; 3] = [
    (Some(8), &[(11, 12)]),
    (Some(12), &[(12, 255), (13, 13)]),
    (Some(14), &[(22, 2)]),
];

static OLD_LEAVES_CHANGED: [Wrong; 2] = [
    (Some(12), &[(21, 0), (30, 0), (30, 5)]),
    (None, &[(30, 1), (30, 4)]),
];

#[test]
fn changed_fields_are_refused_where_they_stand(rt: HostRuntime) -> Result<(), WrongRows> {
    let small = wrong_rows(&rt, &SMALL, &SMALL_CHANGED);
    let old = wrong_rows(&rt, &OLD_SMALL, &OLD_SMALL_CHANGED);
    let leaves = wrong_rows(&rt, &OLD_LEAVES, &OLD_LEAVES_CHANGED);
    all_hold(small.saturating_add(old).saturating_add(leaves))
}

/// A header of version 1 with the greatest length of a scene, logs with bytes after the end, and where they are refused.
static TOO_LONG: [(&[u8], u64); 3] = [
    (&[80, 66, 68, 83, 76, 79, 71, 1, 255, 255, 255, 255], 8),
    (
        &[
            80, 66, 68, 83, 76, 79, 71, 2, 0, 0, 0, 0, 32, 0, 0, 0, 0, 0, 0, 0, 2, 0, 0, 0, 0, 0,
            0, 0, 0, 0, 1, 0,
        ],
        31,
    ),
    (
        &[
            80, 66, 68, 83, 76, 79, 71, 1, 0, 0, 0, 0, 2, 0, 0, 0, 0, 0, 0, 0, 0, 0, 1, 2, 2, 2, 2,
            2, 2, 2, 2, 2, 2, 2, 2, 2, 2, 2, 2, 2,
        ],
        23,
    ),
];

const FAR: Vec3 = Vec3 {
    x: i64::MIN,
    y: -1,
    z: i64::MAX,
};

/// Commands with each kind of operands, and replies to them.
const REPLIES: [(Command, Reply); 13] = [
    (Command::Step(u64::MAX), Reply::Refused(Refusal::BadCount)),
    (Command::Step(1), Reply::Done),
    (
        Command::Step(1),
        Reply::Refused(Refusal::LeavesRange {
            step: 1_000_000,
            phase: Phase::Shape,
            element: 65_535,
        }),
    ),
    (
        Command::Step(256),
        Reply::Refused(Refusal::TooManyContacts { step: u64::MAX }),
    ),
    (Command::Frame, Reply::Frame),
    (Command::Pin(7), Reply::Done),
    (Command::Unpin(65_536), Reply::Refused(Refusal::NotHeld)),
    (
        Command::Move {
            particle: 3,
            to: FAR,
        },
        Reply::Done,
    ),
    (
        Command::Move {
            particle: 4,
            to: FAR,
        },
        Reply::Refused(Refusal::OutOfRange),
    ),
    (Command::Cut(0), Reply::Refused(Refusal::NoLink)),
    (Command::Gravity(FAR), Reply::Done),
    (Command::Ledger, Reply::Ledger),
    (Command::Bad, Reply::Refused(Refusal::BadCommand)),
];

const FAR_SUMS: FrameSums = FrameSums {
    steps: u64::MAX,
    live: u32::MAX,
    contacts: 65_536,
    at: [i64::MIN, -256, 1],
    before: [i64::MAX, 0, -1],
};

static WRITTEN: Held = Held {
    head: (2, 268_435_456),
    scene: &[],
    replies: &REPLIES,
    sums: FAR_SUMS,
};

/// Writes a log of these commands and replies.
fn write_replies<K: Sink>(sink: &mut K, table: &[(Command, Reply)]) -> Result<(), Failed>
    requires { length table.now < 2 ^ 32 }
{
    let mut writer = LogWriter::begin(sink, 268_435_456, &[])?;
    for (command, reply) in table {
        let _ = writer.append(sink, &kept(*command, reply, FAR_SUMS));
    }
    writer.finish(sink)
}

#[test]
fn what_was_written_is_read_back(rt: HostRuntime) -> Result<(), WrongRows> {
    let mut sink = failing_sink(rt.alloc(), 1000, &[]).expect(&rt, "no memory");
    let written = write_replies(&mut sink, &REPLIES);
    let told = (written, told_of(sink.written(), &WRITTEN));
    drop(sink);
    let wanted = (Ok(()), Ok((WRITTEN.head, [true; 2])));
    all_hold(wrong_row(&rt, (&REPLIES, "are written and read"), &told, &wanted))
}

/// A call that fails, how many bytes it takes, and how many the sink holds then. No call has the number 0.
type Cut = (u64, usize, usize);

static LONG_CUTS: [Cut; 9] = [
    (0, 0, 158),
    (1, 0, 0),
    (1, 19, 19),
    (2, 0, 20),
    (2, 52, 72),
    (3, 1, 74),
    (4, 0, 147),
    (4, 2, 149),
    (5, 8, 157),
];

static SMALL_CUTS: [Cut; 4] = [(0, 0, 31), (1, 0, 0), (2, 0, 20), (3, 0, 22)];

/// A scene, entries, and their log, with what is told of a wrong cut of it.
#[derive(Clone, Copy)]
struct Logged<'a> {
    name: &'a str,
    scene: &'a [u8],
    entries: &'a [Entry],
    log: &'a [u8],
}

/// Whether a scene and entries are written as their log, up to the call that fails.
fn writes(alloc: Global, logged: &Logged<'_>, cut: &Cut) -> bool
    requires scene { length logged.now.scene.now < 2 ^ 32 }
    requires grammar { All IsGrammatical logged.now.entries.now }
    requires room { length logged.now.entries.now < 2 ^ 32 }
{
    let (call, taken, held) = *cut;
    match failing_sink(alloc, logged.log.len(), &[(call, taken)]) {
        Ok(mut sink) => {
            let ended = write_log(&mut sink, 536_870_912, logged.scene, logged.entries).is_ok();
            let same = sink.written().len() == held && logged.log.starts_with(sink.written());
            drop(sink);
            same && ended == (call == 0)
        }
        Err(_) => false,
    }
}

/// How many cuts of a log aren't so. Each of them is told.
fn wrong_cuts(rt: &impl Eprint, alloc: Global, logged: &Logged<'_>, cuts: &[Cut]) -> u32
    requires scene { length logged.now.scene.now < 2 ^ 32 }
    requires grammar { All IsGrammatical logged.now.entries.now }
    requires room { length logged.now.entries.now < 2 ^ 32 }
{
    let mut wrong = 0u32;
    for cut in cuts {
        let holds = writes(alloc, logged, cut);
        wrong = wrong.saturating_add(wrong_row(rt, (cut, logged.name), &holds, &true));
    }
    wrong
}

// The header, a scene that isn't empty, each entry and the end are one call each.
#[test]
fn a_log_stops_at_the_call_that_fails(rt: HostRuntime) -> Result<(), WrongRows> {
    let entries = [step(), frame()];
    let long = Logged {
        name: "cuts the long log",
        scene: SCENE,
        entries: &entries,
        log: &LONG,
    };
    let small = Logged {
        name: "cuts the small log",
        scene: &[],
        entries: &entries[1..],
        log: &SMALL,
    };
    let wrong = wrong_cuts(&rt, rt.alloc(), &long, &LONG_CUTS);
    all_hold(wrong.saturating_add(wrong_cuts(&rt, rt.alloc(), &small, &SMALL_CUTS)))
}

/// Writes a frame whose first append fails, and again, and ends. Whether each of the three went well.
fn append_again<K: Sink>(sink: &mut K) -> Result<[bool; 3], Failed> {
    let mut writer = LogWriter::begin(sink, 536_870_912, &[])?;
    let first = writer.append(sink, &frame()).is_ok();
    let again = writer.append(sink, &frame()).is_ok();
    Ok([first, again, writer.finish(sink).is_ok()])
}

// After an append that failed the end has the number of the entries that were written.
#[test]
fn a_log_goes_on_after_a_failed_append(rt: HostRuntime) -> Result<(), WrongRows> {
    let mut sink = failing_sink(rt.alloc(), 31, &[(2, 0)]).expect(&rt, "no memory");
    let ended = append_again(&mut sink);
    let wrong = wrong_row(
        &rt,
        (&"a frame", "is appended again"),
        &(ended, sink.written()),
        &(Ok([false, true, true]), SMALL.as_slice()),
    );
    drop(sink);
    all_hold(wrong)
}
