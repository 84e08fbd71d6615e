//! Sixteen sessions in one host, whose commands come in a hundred orders that a generator draws: each prints what it
//! prints alone.
use super::written::{push_each, run_on, whole, wrong_runs_of, wrong_texts};
use pbd_outcome::Status;
use pbd_tests_rows::{WrongRows, all_hold, wrong_row};
use std::alloc::{AllocError, Global};

/// What each session is asked in turn. Session t begins with entry t mod 4.
static COMMANDS: [&str; 4] = ["step 1", "frame", "fly", "gravity 0 -3 0"];

/// The numbers of the sessions.
static NUMBERS: [&str; 16] = [
    "0", "1", "2", "3", "4", "5", "6", "7", "8", "9", "10", "11", "12", "13", "14", "15",
];

/// How often the four commands of all sessions come, each time in another order.
const ORDERS: usize = 100;

/// A free particle that falls as fast as its session's number says, behind a text.
fn push_scene(input: &mut String, before: &str, number: &str) -> Result<(), AllocError> {
    let pieces = [
        before,
        "gravity = [0, -",
        number,
        ", 0]\n[[particle]]\nat = [",
        number,
        ", 1000, 0]\n",
    ];
    push_each(input, &pieces)
}

/// Four lines for each of sixteen sessions, in an order of their sessions that is drawn.
fn drawn_order(state: &mut u64) -> [usize; 64] {
    let mut order = [0; 64];
    for (place, session) in order.iter_mut().enumerate() {
        *session = place / 4;
    }
    for place in 0..64 {
        *state = state
            .wrapping_mul(6_364_136_223_846_793_005)
            .wrapping_add(1_442_695_040_888_963_407);
        order.swap(place, (*state >> 33) as usize % 64);
    }
    order
}

fn push_order(input: &mut String, state: &mut u64) -> Result<(), AllocError> {
    let mut next: [usize; 16] = [0, 1, 2, 3, 0, 1, 2, 3, 0, 1, 2, 3, 0, 1, 2, 3];
    for session in drawn_order(state) {
        let session = session % 16;
        let command = next[session] % 4;
        next[session] = command + 1;
        push_each(input, &[NUMBERS[session], " ", COMMANDS[command], "\n"])?;
    }
    Ok(())
}

fn push_scenes(input: &mut String) -> Result<(), AllocError> {
    let mut before = "";
    for number in &NUMBERS {
        push_scene(input, before, *number)?;
        before = "%%\n";
    }
    input.push_str("%%%\n")
}

fn push_host_input(input: &mut String) -> Result<(), AllocError> {
    push_scenes(input)?;
    let mut state = 7;
    for _ in 0..ORDERS {
        push_order(input, &mut state)?;
    }
    Ok(())
}

fn host_input(alloc: Global) -> Result<String, AllocError> {
    let mut input = String::new(alloc);
    let added = push_host_input(&mut input);
    whole(input, added)
}

/// The scene and the commands of one session.
fn push_own_input(input: &mut String, session: usize) -> Result<(), AllocError> {
    push_scene(input, "", NUMBERS[session % 16])?;
    input.push_str("%%\n")?;
    for place in 0..4 * ORDERS {
        push_each(input, &[COMMANDS[(session % 4 + place) % 4], "\n"])?;
    }
    Ok(())
}

/// What a host printed for the session of a number, without the lines that name it.
fn push_own_text(text: &mut String, written: &str, number: &str) -> Result<(), AllocError> {
    let mut is_own = false;
    for line in written.split('\n') {
        if let Some(named) = line.strip_prefix("session ") {
            is_own = named == number;
        } else if is_own && !line.is_empty() {
            push_each(text, &[line, "\n"])?;
        }
    }
    Ok(())
}

/// How many runs are wrong of the one of a session, of whose commands some are refused: alone it prints what a host printed for
/// it, which is something.
fn wrong_alone(rt: &HostRuntime, written: &str, session: usize) -> u32 {
    let number = NUMBERS[session % 16];
    let mut text = String::new(rt.alloc());
    let read = push_own_input(&mut text, session);
    let at = text.len();
    let own = push_own_text(&mut text, written, number);
    let is_told = at < text.len();
    let wrong = wrong_runs_of(
        rt,
        "simulate 1",
        (text.as_str(), at),
        Status::SomeRefused.code(),
    );
    drop(text);
    wrong
        .saturating_add(wrong_texts(rt, number, [read, own]))
        .saturating_add(u32::from(!is_told))
}

/// The same of all sessions.
fn wrong_sessions(rt: &HostRuntime, written: &[u8]) -> u32 {
    let written = str::from_utf8(written).unwrap_or("");
    let mut wrong = 0u32;
    for session in 0..16usize {
        wrong = wrong.saturating_add(wrong_alone(rt, written, session));
    }
    wrong
}

#[test]
fn sixteen_sessions_print_what_each_prints_alone(rt: HostRuntime) -> Result<(), WrongRows> {
    let outcome = run_on(rt.alloc(), "host 4", host_input(rt.alloc()));
    let (answer, written) = outcome.expect(&rt, "no memory");
    let wrong = wrong_sessions(&rt, &written);
    drop(written);
    let ended = (answer.code(), Status::SomeRefused.code());
    let told = wrong_row(&rt, (&"a host of sixteen", "ends with"), &ended.0, &ended.1);
    all_hold(wrong.saturating_add(told))
}
