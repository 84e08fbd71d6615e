//! Tagged lines, one by one, on two empty scenes.
use super::written::{all_of, push_each, wrong_run};
use pbd_outcome::Status;
use pbd_tests_rows::{WrongRows, all_hold};

const BAD: &str = "session -\nrefused 15 BadTag\n";

/// A line, what is printed of it, and how the host ends.
static LINES: [(&str, &str, Status); 20] = [
    ("", "", Status::Done),
    ("\r", "", Status::Done),
    (" \t ", "", Status::Done),
    ("# 0 frame", "", Status::Done),
    ("#0", "", Status::Done),
    ("1 frame", "session 1\nframe 0 0 0 0\n", Status::Done),
    ("\t1  frame \r", "session 1\nframe 0 0 0 0\n", Status::Done),
    ("1 frame\r\r", "session 1\nframe 0 0 0 0\n", Status::Done),
    ("001 gravity 0 0 1", "session 1\nok\n", Status::Done),
    (
        "000000000000000001 gravity 0 0 1",
        "session 1\nok\n",
        Status::Done,
    ),
    ("0000000000000000001 frame", BAD, Status::SomeRefused),
    ("999999999999999999 frame", BAD, Status::SomeRefused),
    ("2 frame", BAD, Status::SomeRefused),
    ("-0 frame", BAD, Status::SomeRefused),
    ("x frame", BAD, Status::SomeRefused),
    ("%%%", BAD, Status::SomeRefused),
    ("0\r\r", BAD, Status::SomeRefused),
    (
        "0",
        "session 0\nrefused 1 BadCommand\n",
        Status::SomeRefused,
    ),
    (
        "0 # frame",
        "session 0\nrefused 1 BadCommand\n",
        Status::SomeRefused,
    ),
    (
        "1 cut 0",
        "session 1\nrefused 3 NoLink\n",
        Status::SomeRefused,
    ),
];

/// How many runs are wrong of a host of which the line is the only one, with and without its end.
fn wrong_line(rt: &HostRuntime, line: &str, wanted: (u8, &[u8])) -> u32 {
    let mut input = String::new(rt.alloc());
    let made = push_each(&mut input, &["%%\n%%%\n", line, "\n"]);
    let ended = input.as_str().as_bytes();
    let (open, _) = ended.split_at(ended.len().saturating_sub(1));
    let wrong = wrong_run(rt, &all_of("host 8", ended), wanted);
    let wrong = wrong.saturating_add(wrong_run(rt, &all_of("host 8", open), wanted));
    drop(input);
    wrong.saturating_add(u32::from(made.is_err()))
}

fn wrong_lines(rt: &HostRuntime, lines: &[(&str, &str, Status)]) -> u32 {
    let mut wrong = 0u32;
    for (line, text, status) in lines {
        let wanted = (status.code(), text.as_bytes());
        wrong = wrong.saturating_add(wrong_line(rt, *line, wanted));
    }
    wrong
}

#[test]
fn a_tagged_line_prints_what_its_row_says(rt: HostRuntime) -> Result<(), WrongRows> {
    all_hold(wrong_lines(&rt, &LINES))
}
