//! Lines of scripts with marks, and what they ask for.
use pbd_marks::{MarkCommand, MarkScript};
use pbd_tests_rows::{WrongRows, all_hold, wrong_row};
use pbd_world::Command;

const BAD: Option<MarkCommand> = Some(MarkCommand::Plain(Command::Bad));

static LINES: [(&[u8], Option<MarkCommand>); 24] = [
    (b"mark 2", Some(MarkCommand::Mark(2))),
    (b"\t mark\t\t0012 \t\r", Some(MarkCommand::Mark(12))),
    (b"mark 8\n", Some(MarkCommand::Mark(8))),
    (
        b"mark 999999999999999999",
        Some(MarkCommand::Mark(999_999_999_999_999_999)),
    ),
    (b"mark 0000000000000000001", BAD),
    (b"mark", BAD),
    (b"mark x", BAD),
    (b"mark -1", BAD),
    (b"mark 1 2", BAD),
    (b"mark 1 #", BAD),
    (b"mark 1\r\r", BAD),
    (b"Mark 1", BAD),
    (b"mark1", BAD),
    (b"m\xc3\xa4rk 1", BAD),
    (b"rewind 7", Some(MarkCommand::Rewind(7))),
    (b"# one\n\r\n rewind 007\n", Some(MarkCommand::Rewind(7))),
    (b"rewind", BAD),
    (b"rewind 1 2", BAD),
    (b"rewind +1", BAD),
    (b"rewinds 1", BAD),
    (b"frame\r", Some(MarkCommand::Plain(Command::Frame))),
    (b"cut 5", Some(MarkCommand::Plain(Command::Cut(5)))),
    (b"# mark 1", None),
    (b"", None),
];

/// How many lines ask for something else than they should.
fn wrong_lines(rt: &HostRuntime, lines: &[(&[u8], Option<MarkCommand>)]) -> u32 {
    let mut wrong = 0u32;
    for (line, command) in lines {
        let asked = MarkScript::new(*line).next();
        wrong = wrong.saturating_add(wrong_row(rt, (line, "asks for"), &asked, command));
    }
    wrong
}

#[test]
fn a_line_asks_for_a_mark_or_a_command(rt: HostRuntime) -> Result<(), WrongRows> {
    all_hold(wrong_lines(&rt, &LINES))
}

/// What a script of five lines asks for, of which the second and the fourth are no commands, and what it gives behind them.
static ASKED: [Option<MarkCommand>; 5] = [
    Some(MarkCommand::Mark(1)),
    Some(MarkCommand::Plain(Command::Step(2))),
    Some(MarkCommand::Rewind(1)),
    None,
    None,
];

#[test]
fn a_script_is_its_lines(rt: HostRuntime) -> Result<(), WrongRows> {
    let mut script = MarkScript::new(b"mark 1\n#\nstep 2\r\n\nrewind 1");
    let told = [
        script.next(),
        script.next(),
        script.next(),
        script.next(),
        script.next(),
    ];
    all_hold(wrong_row(&rt, (&"five calls", "give"), &told, &ASKED))
}
