//! Scripts, records and replays at each width and with both projectors: their text, sinks that fail at each call, and
//! replays in which each field differs.
ghost use Rattle.std.specs.Prelude.{◌≡◌, ◌<◌, ◌≤◌};

use pbd_io::{Failed, MemSink};
use pbd_log::read_log;
use pbd_num::Vec3;
use pbd_pair::{LaneProjector, Projector, Scalar};
use pbd_session::{Field, ReplayEnd, RunEnd, Session, run_record, run_replay, run_script};
use pbd_store::Steps;
use pbd_tests_rows::logs::{LONG, OLD, OLD_BAD_COUNT, SCENE, SMALL};
use pbd_tests_rows::{WrongRows, all_hold, at_widths, place, wrong_row};
use pbd_tests_scenes::{
    AT_THE_EDGE, Drawing, EMPTY, FLIES, LED, NEAR_THE_EDGE, ON_A_SPHERE, PULLS,
    PULLS_AT_A_HELD_ONE, PUSHES, TEARS, in_a_row, particle, scene,
};
use pbd_world::{Particle, PartsFault, Scene};
use std::alloc::{AllocError, Global};
use std::fmt::Debug;
use std::marker::Brand;
use std::sync::ledger::{Blank, Ledger};

const FALLS: Drawing = Drawing {
    particles: &[particle!(0, 1000, 0, 1, false)],
    gravity: place!(0, -10, 0),
    ..EMPTY
};

const RUBS: Drawing = Drawing {
    friction: 128,
    ..ON_A_SPHERE
};

static FALLING: Drawing = FALLS;

static LEAVING: Drawing = AT_THE_EDGE;

/// What a session is to do.
#[derive(Clone, Copy, Debug)]
enum Job<'a> {
    Script(&'a [u8]),
    /// A scene's bytes and a script.
    Record(&'a [u8], &'a [u8]),
    Replay(&'a [u8]),
}

fn refusals(end: Result<RunEnd, Failed>) -> Option<ReplayEnd> {
    match end {
        Ok(end) => Some(ReplayEnd::Done {
            refused: end.refused,
        }),
        Err(_) => None,
    }
}

/// How a job ends. None where the sink fails, where a log isn't one, and where a text is longer than any here.
fn ended<const L: usize, P: Projector<L> + Drop, G: Ledger>(
    session: &mut Session<L, P>,
    job: Job<'_>,
    sink: &mut MemSink,
    steps: &mut Steps<G>,
) -> Option<ReplayEnd>
    requires low { 0 < L }
    requires high { L ≤ 16 }
{
    match job {
        Job::Script(script) if script.len() < 1000 => {
            refusals(run_script(session, script, sink, steps))
        }
        Job::Record(scene, script) if scene.len() < 1000 && script.len() < 1000 => {
            refusals(run_record(session, scene, script, sink, steps))
        }
        Job::Replay(log) => match read_log(log) {
            Ok(view) => run_replay(session, view, sink, steps).ok(),
            Err(_) => None,
        },
        _ => None,
    }
}

/// A job, the failures of its sink, how it ends, and what is in the sink then.
#[derive(Clone, Copy)]
struct Case<'a> {
    job: Job<'a>,
    fails: &'a [(u64, usize)],
    ends: Option<ReplayEnd>,
    text: &'a [u8],
}

/// Whether a job ends in a session and writes as a case says.
fn holds_in<const L: usize, P: Projector<L> + Drop, G: Ledger>(
    alloc: Global,
    session: &mut Session<L, P>,
    case: &Case<'_>,
    steps: &mut Steps<G>,
) -> Result<bool, AllocError>
    requires low { 0 < L }
    requires high { L ≤ 16 }
{
    let mut sink = MemSink::open(alloc, 1000, case.fails.to_vec(alloc)?)?;
    let ends = ended(session, case.job, &mut sink, steps);
    let holds = ends == case.ends && sink.written() == case.text;
    drop(sink);
    Ok(holds)
}

/// Whether it does in a session that was just opened, where there was memory for it.
fn holds_once_open<const L: usize, P: Projector<L> + Drop, G: Ledger>(
    alloc: Global,
    opened: Result<Session<L, P>, AllocError>,
    case: &Case<'_>,
    steps: &mut Steps<G>,
) -> Result<bool, AllocError>
    requires low { 0 < L }
    requires high { L ≤ 16 }
{
    match opened {
        Ok(mut session) => {
            let holds = holds_in(alloc, &mut session, case, steps);
            drop(session);
            holds
        }
        Err(fault) => Err(fault),
    }
}

/// What is told of both projectors.
type Told = [Result<bool, AllocError>; 2];

/// Whether it does with bonds that are projected one by one, and side by side.
fn both_hold<const L: usize, G: Ledger>(
    alloc: Global,
    scene: &Scene,
    case: &Case<'_>,
    steps: &mut Steps<G>,
) -> Told
    requires low { 0 < L }
    requires high { L ≤ 16 }
{
    let one_by_one = Session::open(alloc, scene, Scalar::<L>::new());
    let one_by_one = holds_once_open(alloc, one_by_one, case, steps);
    let in_lanes = Session::open(alloc, scene, LaneProjector::<L>::new());
    let in_lanes = holds_once_open(alloc, in_lanes, case, steps);
    [one_by_one, in_lanes]
}

fn counted<G: Ledger>(alloc: Global, blank: Blank, scene: &Scene, case: &Case<'_>) -> [Told; 5]
    requires name { blank.name ≡ G.name }
    requires parts { blank.parts ≡ G.parts }
    requires some { 0 < blank.parts }
{
    at_widths!(blank, both_hold(alloc, scene, case))
}

const WITH_BOTH: &str = "with both projectors at widths 1, 2, 4, 8 and 16";

/// What is told of a case that holds.
const ALL_HOLD: [Told; 5] = [[Ok(true); 2]; 5];

/// One where a case doesn't hold on a scene, which is told then.
fn wrong_case<R: Debug>(
    rt: &HostRuntime,
    name: &R,
    scene: Result<Scene, PartsFault>,
    case: &Case<'_>,
) -> u32 {
    let told = match scene {
        Ok(scene) => {
            let told = counted::<Brand>(rt.alloc(), Blank::new(1), &scene, case);
            drop(scene);
            Ok(told)
        }
        Err(fault) => Err(fault),
    };
    wrong_row(rt, (name, WITH_BOTH), &told, &Ok(ALL_HOLD))
}

/// A job, its text, and how many bytes of it each call to the sink is handed.
type Calls<'a> = (Job<'a>, &'a [u8], &'a [usize]);

/// How often a job doesn't stop at this call, wherever in its piece of so many bytes the call fails, or leaves other bytes than
/// those up to there.
fn wrong_call(rt: &HostRuntime, calls: &Calls<'_>, call: u64, piece: (usize, usize)) -> u32 {
    let (job, text, _) = *calls;
    let (before, len) = piece;
    let mut wrong = 0u32;
    // (a call that is to fail after more bytes than it is handed takes them all)
    for n in 0..len.saturating_add(2) {
        let end = before.saturating_add(n.min(len));
        let text = text.get(..end).unwrap_or(b"less than is written");
        let case = Case {
            job,
            fails: &[(call, n)],
            ends: None,
            text,
        };
        let scene = scene(rt.alloc(), &FALLING);
        wrong = wrong.saturating_add(wrong_case(rt, &(job, call, n), scene, &case));
    }
    wrong
}

/// How often a job that writes its text by one call for each of the lengths doesn't stop at a call that fails.
fn wrong_calls(rt: &HostRuntime, calls: &Calls<'_>) -> u32 {
    let (job, text, lengths) = *calls;
    let mut wrong = 0u32;
    let mut call: u64 = 0;
    let mut before: usize = 0;
    for len in lengths {
        call = call.saturating_add(1);
        wrong = wrong.saturating_add(wrong_call(rt, calls, call, (before, *len)));
        before = before.saturating_add(*len);
    }
    let bytes = (&job, "hands on so many bytes");
    wrong.saturating_add(wrong_row(rt, bytes, &before, &text.len()))
}

macro_rules! done {
    ($refused:expr) => {
        ReplayEnd::Done { refused: $refused }
    };
}

const SCRIPT: &[u8] = b"step 3\nframe\n";

const TEXT: &[u8] = b"ok\nframe 3 1 0 0\n0 940 0\n";

/// A log with an empty scene and one step, refused with 11: step 1, predict, element 0.
const LEAVES: [u8; 52] = [
    80, 66, 68, 83, 76, 79, 71, 2, 0, 0, 0, 0, 32, 0, 0, 0, 0, 0, 0, 0, 1, 0, 0, 0, 0, 0, 0, 0, 1,
    11, 0, 0, 0, 0, 0, 0, 0, 1, 1, 0, 0, 0, 0, 0, 0, 0, 0, 0, 0, 0, 0, 1,
];

/// What is to be done on a drawing, how many commands are refused, and what is written.
macro_rules! run {
    ($drawing:ident; $job:expr; $refused:expr => $text:expr) => {
        (
            $drawing,
            Case {
                job: $job,
                fails: &[],
                ends: Some(done!($refused)),
                text: $text,
            },
        )
    };
}

/// Drawings, and what is to be done on them: scripts, records and replays.
static RUNS: [(Drawing, Case<'static>); 20] = [
    run!(EMPTY; Job::Script(b"\n \nframe\n"); 0 => b"frame 0 0 0 0\n"),
    run!(FALLS; Job::Script(SCRIPT); 0 => TEXT),
    run!(AT_THE_EDGE; Job::Script(b"step 1\nframe\n"); 1 =>
        b"refused 11 LeavesRange step 1 phase predict element 0\nframe 0 1 0 0\n536870912 0 0\n"),
    run!(NEAR_THE_EDGE; Job::Script(b"step 10\nframe\n"); 1 =>
        b"refused 11 LeavesRange step 7 phase predict element 0\nframe 0 1 0 0\n536870906 0 0\n"),
    run!(PULLS; Job::Script(b"step 1\nframe\n"); 0 => b"ok\nframe 1 2 1 0\n3 0 0\n102 0 0\n"),
    run!(PULLS_AT_A_HELD_ONE; Job::Script(b"step 1\nledger\n"); 0 =>
        b"ok\nledger momentum -5 0 0\nledger opening 0 0 0\nledger gravity 0 0 0\nledger damping 0 0 0\nledger link 0 0 0\nledger contact 0 0 0\nledger pin -5 0 0\nledger shape 0 0 0\n"),
    run!(TEARS; Job::Script(b"step 1\nframe\ncut 1\n"); 1 =>
        b"ok\nframe 1 6 1 0\n0 0 0\n100 0 0\n0 1000 0\n101 1000 0\n0 2000 0\n102 2000 0\nrefused 4 LinkGone\n"),
    run!(PUSHES; Job::Script(b"step 1\nframe\n"); 0 => b"ok\nframe 1 3 0 2\n-1 0 0\n100 0 0\n100 0 0\n"),
    run!(RUBS; Job::Script(b"step 1\nframe\nstep 1\nframe\n"); 0 =>
        b"ok\nframe 1 3 0 0\n6 8 0\n0 10 0\n10 0 0\nok\nframe 2 3 0 0\n7 10 0\n0 15 0\n10 0 0\n"),
    run!(LED; Job::Script(b"step 1\nstep 1\nframe\nstep 1\nframe\nunpin 0\n"); 1 =>
        b"ok\nok\nframe 2 2 0 0\n7 0 0\n5 0 0\nok\nframe 3 2 0 0\n10 0 0\n5 0 0\nrefused 8 Tracked\n"),
    run!(FLIES; Job::Script(b"pin 0\n\npin 0\nmove 0 1 2 3\nunpin 0\nunpin 0\npin 9\ncut 0\ngravity 536870913 0 0\nstep 0\nfly\n \nframe\n"); 7 =>
        b"ok\nrefused 7 Held\nok\nok\nrefused 6 NotHeld\nrefused 2 NoParticle\nrefused 3 NoLink\nrefused 5 OutOfRange\nrefused 9 BadCount\nrefused 1 BadCommand\nframe 0 1 0 0\n1 2 3\n"),
    run!(FALLS; Job::Record(SCENE, SCRIPT); 0 => &LONG),
    run!(EMPTY; Job::Record(b"", b"frame\n"); 0 => &SMALL),
    run!(AT_THE_EDGE; Job::Record(b"", b"step 1\n"); 1 => &LEAVES),
    run!(FALLS; Job::Replay(&LONG); 0 => TEXT),
    run!(FALLS; Job::Replay(&OLD); 0 => TEXT),
    run!(EMPTY; Job::Replay(&SMALL); 0 => b"frame 0 0 0 0\n"),
    run!(EMPTY; Job::Replay(&OLD_BAD_COUNT); 1 => b"refused 9 BadCount\n"),
    run!(AT_THE_EDGE; Job::Replay(&LEAVES); 1 => b"refused 11 LeavesRange step 1 phase predict element 0\n"),
    (
        FALLS,
        Case {
            job: Job::Replay(&LEAVES),
            fails: &[],
            ends: Some(ReplayEnd::Mismatch {
                entry: 1,
                field: Field::Answer,
                recorded: 11,
                found: 0,
            }),
            text: b"error 10 Mismatch record 1 field answer recorded 11 found 0\n",
        },
    ),
];

/// How many jobs don't end and write as their rows say.
fn wrong_jobs(rt: &HostRuntime, rows: &[(Drawing, Case<'_>)]) -> u32 {
    let mut wrong = 0u32;
    for (drawing, case) in rows {
        let scene = scene(rt.alloc(), drawing);
        let name = (case.job, case.ends, case.text);
        wrong = wrong.saturating_add(wrong_case(rt, &name, scene, case));
    }
    wrong
}

#[test]
fn jobs_end_and_write_as_their_rows_say(rt: HostRuntime) -> Result<(), WrongRows> {
    all_hold(wrong_jobs(&rt, &RUNS))
}

static TOO_MANY_TOUCH: Case<'static> = Case {
    job: Job::Script(b"step 1\nfly\n"),
    fails: &[],
    ends: Some(done!(2)),
    text: b"refused 12 TooManyContacts step 1\nrefused 1 BadCommand\n",
};

#[test]
fn contacts_past_their_greatest_number_are_printed(rt: HostRuntime) -> Result<(), WrongRows> {
    let name = "725 particles that touch each other";
    let scene = in_a_row(rt.alloc(), 725);
    all_hold(wrong_case(&rt, &name, scene, &TOO_MANY_TOUCH))
}

const LEDGER: &[u8] =
    b"ledger momentum 0 0 0\nledger opening 0 0 0\nledger gravity 0 0 0\nledger damping 0 0 0\nledger link 0 0 0\nledger contact 0 0 0\nledger pin 0 0 0\nledger shape 0 0 0\nrefused 1 BadCommand\n";

const MISMATCH: &[u8] = b"error 10 Mismatch record 1 field answer recorded 11 found 0\n";

static CALLS: [Calls<'static>; 5] = [
    (Job::Script(SCRIPT), TEXT, &[3, 14, 8]),
    (Job::Replay(&LONG), TEXT, &[3, 14, 8]),
    (
        Job::Script(b"ledger\nfly\n"),
        LEDGER,
        &[22, 21, 21, 21, 18, 21, 17, 19, 21],
    ),
    (Job::Replay(&LEAVES), MISMATCH, &[60]),
    (Job::Record(SCENE, SCRIPT), &LONG, &[20, 53, 74, 2, 9]),
];

/// How often that is so of some jobs.
fn wrong_texts(rt: &HostRuntime, texts: &[Calls<'_>]) -> u32 {
    let mut wrong = 0u32;
    for calls in texts {
        wrong = wrong.saturating_add(wrong_calls(rt, calls));
    }
    wrong
}

#[test]
fn each_line_and_each_part_of_a_log_is_one_call(rt: HostRuntime) -> Result<(), WrongRows> {
    all_hold(wrong_texts(&rt, &CALLS))
}

/// A byte of a log, its wrong value, how its replay ends then, and what is printed: the first record that differs, its field,
/// and the numbers that are recorded and found, behind the reply of the record before it, where there is one.
struct Wrong {
    at: usize,
    byte: u8,
    ends: ReplayEnd,
    text: &'static [u8],
}

macro_rules! wrong {
    ($at:expr, $byte:expr; $record:expr, $field:ident, $recorded:expr, $found:expr => $text:expr) => {
        Wrong {
            at: $at,
            byte: $byte,
            ends: ReplayEnd::Mismatch {
                entry: $record,
                field: Field::$field,
                recorded: $recorded,
                found: $found,
            },
            text: $text,
        }
    };
}

static WRONG_ANSWERS: [Wrong; 3] = [
    wrong!(37, 2; 1, Step, 2, 1 => b"error 10 Mismatch record 1 field step recorded 2 found 1\n"),
    wrong!(38, 3; 1, Phase, 3, 1 => b"error 10 Mismatch record 1 field phase recorded 3 found 1\n"),
    wrong!(42, 6; 1, Element, 6, 0 => b"error 10 Mismatch record 1 field element recorded 6 found 0\n"),
];

static WRONG_SUMS: [Wrong; 10] = [
    wrong!(90, 4; 1, Steps, 4, 3 => b"error 10 Mismatch record 1 field steps recorded 4 found 3\n"),
    wrong!(94, 1; 1, Live, 1, 0 => b"error 10 Mismatch record 1 field live recorded 1 found 0\n"),
    wrong!(98, 2; 1, Contacts, 2, 0 => b"error 10 Mismatch record 1 field contacts recorded 2 found 0\n"),
    wrong!(106, 5; 1, X, 5, 0 => b"error 10 Mismatch record 1 field x recorded 5 found 0\n"),
    wrong!(114, 173; 1, Y, 941, 940 => b"error 10 Mismatch record 1 field y recorded 941 found 940\n"),
    wrong!(122, 7; 1, Z, 7, 0 => b"error 10 Mismatch record 1 field z recorded 7 found 0\n"),
    wrong!(130, 8; 1, BeforeX, 8, 0 => b"error 10 Mismatch record 1 field before-x recorded 8 found 0\n"),
    wrong!(138, 203; 1, BeforeY, 971, 970 => b"error 10 Mismatch record 1 field before-y recorded 971 found 970\n"),
    wrong!(146, 9; 1, BeforeZ, 9, 0 => b"error 10 Mismatch record 1 field before-z recorded 9 found 0\n"),
    wrong!(148, 2; 2, Answer, 2, 0 => b"ok\nerror 10 Mismatch record 2 field answer recorded 2 found 0\n"),
];

/// One where the replay of a log with a wrong byte doesn't end and print so, which is told then.
fn wrong_replay(rt: &HostRuntime, drawing: &Drawing, job: Job<'_>, row: &Wrong) -> u32 {
    let case = Case {
        job,
        fails: &[],
        ends: Some(row.ends),
        text: row.text,
    };
    let name = (row.at, row.byte, row.ends);
    wrong_case(rt, &name, scene(rt.alloc(), drawing), &case)
}

/// The same of a log before its byte is wrong.
fn wrong_byte(rt: &HostRuntime, drawing: &Drawing, log: &[u8], row: &Wrong) -> u32 {
    match log.to_vec(rt.alloc()) {
        Ok(mut wrong) => {
            if row.at < wrong.len() {
                wrong[row.at] = row.byte;
            }
            let told = wrong_replay(rt, drawing, Job::Replay(&wrong), row);
            drop(wrong);
            told
        }
        Err(error) => wrong_row(rt, (&row.at, "has a log"), &Err(error), &Ok(())),
    }
}

/// How many wrong bytes of a log aren't told as their rows say.
fn wrong_bytes(rt: &HostRuntime, drawing: &Drawing, log: &[u8], rows: &[Wrong]) -> u32 {
    let mut wrong = 0u32;
    for row in rows {
        wrong = wrong.saturating_add(wrong_byte(rt, drawing, log, row));
    }
    wrong
}

#[test]
fn each_answer_and_each_sum_can_differ(rt: HostRuntime) -> Result<(), WrongRows> {
    let answers = wrong_bytes(&rt, &LEAVING, &LEAVES, &WRONG_ANSWERS);
    let sums = wrong_bytes(&rt, &FALLING, &LONG, &WRONG_SUMS);
    all_hold(answers.saturating_add(sums))
}
