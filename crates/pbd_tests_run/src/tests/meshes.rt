//! A mesh of many faces.
use super::written::{all_of, push_line, run_on, whole, wrong_run, wrong_texts};
use pbd_outcome::Status;
use pbd_tests_rows::{WrongRows, all_hold, wrong_row};
use std::alloc::{AllocError, Global};

/// The vertices of a net of 100 by 100.
fn push_vertices(text: &mut String) -> Result<(), AllocError> {
    for n in 0..10_000u32 {
        push_line(text, "v #.5 -# 1e-3\n", &[n / 100, n % 100])?;
    }
    Ok(())
}

/// A face between each four neighbours of such a net.
fn push_faces(text: &mut String) -> Result<(), AllocError> {
    for n in 0..9_801u32 {
        let first = 100 * (n / 99) + n % 99 + 1;
        let below = first + 100;
        push_line(text, "f # # # #\n", &[first, first + 1, below + 1, below])?;
    }
    Ok(())
}

/// A net of 100 by 100, and a frame of it.
fn push_net(text: &mut String) -> Result<(), AllocError> {
    push_vertices(text)?;
    push_faces(text)?;
    text.push_str("%%\n%%\nframe\n")
}

fn net(alloc: Global) -> Result<String, AllocError> {
    let mut text = String::new(alloc);
    let added = push_net(&mut text);
    whole(text, added)
}

/// One where a frame doesn't come to itself where it is read as a mesh, which is told then.
fn wrong_mesh(rt: &HostRuntime, frame: &[u8]) -> u32 {
    let mut input = Vec::new(rt.alloc());
    let made = [
        input.extend_from_slice(frame),
        input.extend_from_slice(b"%%\n%%\nframe\n"),
    ];
    let wrong = wrong_run(rt, &all_of("obj 16", &input), (0, frame));
    drop(input);
    wrong.saturating_add(wrong_texts(rt, "a frame as a mesh", made))
}

const FRAME: &str = "ends well, and its frame begins and ends so";

#[test]
fn a_frame_is_read_again_as_its_mesh(rt: HostRuntime) -> Result<(), WrongRows> {
    let outcome = run_on(rt.alloc(), "obj 1", net(rt.alloc()));
    let (answer, frame) = outcome.expect(&rt, "no memory");
    let so = [
        answer == Status::Done,
        frame.starts_with(b"# frame 0 10000 39402 0\nv 0.5 0 0.001007080078125\nv 0.5 -1 "),
        frame.ends_with(b"\nf 9899 9900 10000 9999\n"),
    ];
    let wrong = wrong_mesh(&rt, &frame);
    drop(frame);
    let told = wrong_row(&rt, (&"the net's run", FRAME), &so, &[true; 3]);
    all_hold(wrong.saturating_add(told))
}
