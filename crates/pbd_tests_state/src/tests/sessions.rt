//! A thousand random sessions: what a solver of one width writes, one of another width reads, and both go on to the same
//! world.
ghost use Rattle.std.specs.Prelude.{◌≡◌, ◌<◌, ◌≤◌};

use super::drawn::{drawn_scene, play};
use pbd_pair::LaneProjector;
use pbd_state::{digest, read_state, write_state};
use pbd_step::Solver;
use pbd_store::Steps;
use pbd_tests_rows::{WrongRows, all_hold, wrong_row};
use pbd_world::{Refusal, Scene};
use rand_core::utils::NextWord;
use rand_pcg::Lcg64Xsh32;
use std::alloc::Global;
use std::marker::Brand;
use std::sync::ledger::{Blank, Ledger};

const SESSIONS: u64 = 1_000;

/// More bytes than a state of these sessions has.
const ROOM: usize = 2_560;

const NAME: [u8; 32] = [42; 32];

static WIDTHS: [u32; 5] = [1, 2, 4, 8, 16];

/// The state of a world, as many bytes as there are, and its digest.
#[derive(Clone, Copy)]
struct State {
    bytes: [u8; ROOM],
    len: usize,
    digest: [u8; 32],
}

/// At which width a session is played, what it is drawn from, and the state that it reads in place of its first commands.
#[derive(Clone, Copy)]
struct Start<'a> {
    width: u32,
    seed: u64,
    kept: Option<&'a State>,
}

/// What six commands answer.
type Answers = [Result<(), Refusal>; 6];

/// The state after a session's first commands, whether a wrong byte of it was taken, what six more commands answer, and the
/// state behind them.
#[derive(Clone, Copy)]
struct Played {
    begun: State,
    taken: bool,
    answers: Answers,
    end: State,
}

/// What went wrong, and at which byte: `ROOM` where states differ in their length or their digest alone, and 0 where it is at none.
type Wrong = (&'static str, usize);

/// The widths at which the state of a session is written and read: each pair of different ones has one of twenty seeds.
fn widths_of(seed: u64) -> (u32, u32) {
    let from = seed % 5;
    let to = (seed / 5 % 4).wrapping_add(from).wrapping_add(1) % 5;
    (WIDTHS[from as usize], WIDTHS[to as usize])
}

fn state_of<const L: usize, G: Ledger>(
    solver: &Solver<L, LaneProjector<L>>,
    steps: &mut Steps<G>,
) -> State
    requires { L ≤ 16 }
{
    let world = &solver.shown();
    let mut bytes = [0; ROOM];
    let len = write_state(&NAME, world, &mut bytes, steps).unwrap_or(0);
    State {
        bytes,
        len,
        digest: digest(&NAME, world, steps),
    }
}

/// The bytes of a state.
fn bytes_of(state: &State) -> &[u8] {
    state.bytes.get(..state.len).unwrap_or(&[])
}

/// Plays six commands.
fn play_six<const L: usize, G: Ledger>(
    words: &mut Lcg64Xsh32,
    solver: &mut Solver<L, LaneProjector<L>>,
    steps: &mut Steps<G>,
) -> Answers
    requires low { 0 < L }
    requires high { L ≤ 16 }
{
    [
        play(words, solver, steps),
        play(words, solver, steps),
        play(words, solver, steps),
        play(words, solver, steps),
        play(words, solver, steps),
        play(words, solver, steps),
    ]
}

/// Whether two states are the same, and else what is said of that, and where they differ.
fn same_state(what: &'static str, one: &State, other: &State) -> Result<(), Wrong> {
    let mut at = 0usize;
    for (a, b) in one.bytes.iter().zip(other.bytes.iter()) {
        if a != b {
            return Err((what, at));
        }
        at = at.saturating_add(1);
    }
    if one.len == other.len && one.digest == other.digest {
        Ok(())
    } else {
        Err((what, at))
    }
}

/// Reads a state, of which the solver's world is then the one.
fn read<const L: usize, G: Ledger>(
    solver: &mut Solver<L, LaneProjector<L>>,
    state: &State,
    steps: &mut Steps<G>,
) -> Result<(), Wrong>
    requires low { 0 < L }
    requires high { L ≤ 16 }
{
    match read_state(&NAME, solver, bytes_of(state), steps) {
        Ok(()) => same_state(
            "the state that was read differs at byte",
            state,
            &state_of(solver, steps),
        ),
        Err(fault) => Err(("the state is refused at byte", fault.offset as usize)),
    }
}

/// A state with one byte changed.
fn with_a_wrong_byte(seed: u64, state: &State) -> State {
    let mut words = Lcg64Xsh32::new(seed, 4);
    let mut wrong = *state;
    let at = words.next_word() as usize % state.len.max(1);
    let change = (1 + words.next_word() % 255) as u8;
    if let Some(byte) = wrong.bytes.get_mut(at) {
        *byte = *byte ^ change;
    }
    wrong
}

/// Whether a state with a wrong byte is taken. It is then the state of the solver's world. Where it is refused the world is the
/// one before.
fn takes_a_wrong_byte<const L: usize, G: Ledger>(
    solver: &mut Solver<L, LaneProjector<L>>,
    seed: u64,
    state: &State,
    steps: &mut Steps<G>,
) -> Result<bool, Wrong>
    requires low { 0 < L }
    requires high { L ≤ 16 }
{
    let mut wrong = with_a_wrong_byte(seed, state);
    let answer = read_state(&NAME, solver, bytes_of(&wrong), steps);
    let now = state_of(solver, steps);
    let same = if answer.is_ok() {
        wrong.digest = now.digest;
        same_state(
            "a wrong state is taken as another one at byte",
            &wrong,
            &now,
        )
    } else {
        same_state("a refused state changes the world at byte", state, &now)
    };
    same?;
    Ok(answer.is_ok())
}

/// Reads a state, a wrong one, and the first again, and says whether the wrong one was taken.
fn read_again<const L: usize, G: Ledger>(
    solver: &mut Solver<L, LaneProjector<L>>,
    seed: u64,
    state: &State,
    steps: &mut Steps<G>,
) -> Result<bool, Wrong>
    requires low { 0 < L }
    requires high { L ≤ 16 }
{
    read(solver, state, steps)?;
    let taken = takes_a_wrong_byte(solver, seed, state, steps)?;
    read(solver, state, steps)?;
    Ok(taken)
}

/// Plays a session.
fn play_on<const L: usize, G: Ledger>(
    solver: &mut Solver<L, LaneProjector<L>>,
    start: &Start<'_>,
    steps: &mut Steps<G>,
) -> Result<Played, Wrong>
    requires low { 0 < L }
    requires high { L ≤ 16 }
{
    let taken = match start.kept {
        Some(state) => read_again(solver, start.seed, state, steps)?,
        None => {
            let _ = play_six(&mut Lcg64Xsh32::new(start.seed, 2), solver, steps);
            false
        }
    };
    let begun = state_of(solver, steps);
    let answers = play_six(&mut Lcg64Xsh32::new(start.seed, 3), solver, steps);
    Ok(Played {
        begun,
        taken,
        answers,
        end: state_of(solver, steps),
    })
}

/// The same on a solver of its own.
fn play_at<const L: usize, G: Ledger>(
    alloc: Global,
    scene: &Scene,
    start: &Start<'_>,
    steps: &mut Steps<G>,
) -> Result<Played, Wrong>
    requires low { 0 < L }
    requires high { L ≤ 16 }
{
    match Solver::open(alloc, scene, LaneProjector::<L>::new()) {
        Ok(mut solver) => {
            let played = play_on(&mut solver, start, steps);
            drop(solver);
            played
        }
        Err(_) => Err(("no memory", 0)),
    }
}

fn play_by_width<G: Ledger>(
    alloc: Global,
    scene: &Scene,
    start: &Start<'_>,
    steps: &mut Steps<G>,
) -> Result<Played, Wrong> {
    match start.width {
        1 => play_at::<1, G>(alloc, scene, start, steps),
        2 => play_at::<2, G>(alloc, scene, start, steps),
        4 => play_at::<4, G>(alloc, scene, start, steps),
        8 => play_at::<8, G>(alloc, scene, start, steps),
        _ => play_at::<16, G>(alloc, scene, start, steps),
    }
}

/// How many commands were accepted.
fn accepted(answers: &Answers) -> u32 {
    let mut count = 0u32;
    for answer in answers {
        count = count.saturating_add(u32::from(answer.is_ok()));
    }
    count
}

/// How many of a session's further commands were accepted, and of its wrong byte, where both widths come to the same.
type Counts = Result<(u32, u32), Wrong>;

fn counts_on<G: Ledger>(alloc: Global, scene: &Scene, seed: u64, steps: &mut Steps<G>) -> Counts {
    let (from, to) = widths_of(seed);
    let first = Start {
        width: from,
        seed,
        kept: None,
    };
    let one = play_by_width(alloc, scene, &first, steps)?;
    let second = Start {
        width: to,
        seed,
        kept: Some(&one.begun),
    };
    let other = play_by_width(alloc, scene, &second, steps)?;
    if one.answers != other.answers {
        return Err(("answers differ", 0));
    }
    same_state("the states at the end differ at byte", &one.end, &other.end)?;
    Ok((accepted(&one.answers), u32::from(other.taken)))
}

/// The same on the scene of a seed.
fn counts_of_seed<G: Ledger>(alloc: Global, seed: u64, steps: &mut Steps<G>) -> Counts {
    match drawn_scene(alloc, seed) {
        Ok(scene) => {
            let counts = counts_on(alloc, &scene, seed, steps);
            drop(scene);
            counts
        }
        Err(_) => Err(("no scene", 0)),
    }
}

/// What is said of all sessions: that some of their commands and wrong bytes were accepted, and some refused.
const COUNTED: &str = "of 6,000 commands and of 1,000 wrong bytes were accepted";

const WRITES: &str =
    "is a seed, and the widths at which the state of its session is written and read";

/// How many sessions don't come to the same at two widths, and one more where all of them accept too little or too much. Each
/// is told.
fn wrong_sessions<G: Ledger>(rt: &impl Eprint, alloc: Global, blank: Blank) -> u32
    requires name { blank.name ≡ G.name }
    requires parts { blank.parts ≡ G.parts }
    requires some { 0 < blank.parts }
{
    let mut steps: Steps<G> = Steps::open(blank);
    let mut wrong = 0u32;
    let mut commands = 0u32;
    let mut bytes = 0u32;
    for seed in 0..SESSIONS {
        let counts = counts_of_seed(alloc, seed, &mut steps);
        let (accepted, taken) = counts.unwrap_or((0, 0));
        commands = commands.saturating_add(accepted);
        bytes = bytes.saturating_add(taken);
        let session = (seed, widths_of(seed));
        wrong = wrong.saturating_add(wrong_row(rt, (&session, WRITES), &counts.err(), &None));
    }
    drop(steps);
    let wanted = (commands.clamp(2_001, 5_999), bytes.clamp(1, 499));
    wrong.saturating_add(wrong_row(rt, (&"all sessions", COUNTED), &(commands, bytes), &wanted))
}

#[test]
fn a_state_that_one_width_writes_another_reads(rt: HostRuntime) -> Result<(), WrongRows> {
    all_hold(wrong_sessions::<Brand>(&rt, rt.alloc(), Blank::new(1)))
}
