//! Lines and the commands that they ask for.
use pbd_num::Vec3;
use pbd_script::lines::{
    are_digits, count_of, first_line, next_word, number_of, only_count, value_of, without_return,
};
use pbd_script::{Script, line_command};
use pbd_tests_rows::{WrongRows, all_hold, each_row, wrong_row};
use pbd_world::Command;

const TO: Vec3 = Vec3 {
    x: -4,
    y: 5,
    z: -60,
};

/// Lines and the commands that they ask for: known ones, others, and none.
static LINES: [(&[u8], Option<Command>); 44] = [
    (b"step 12", Some(Command::Step(12))),
    (b"\t step\t\t0012 \t\r", Some(Command::Step(12))),
    (
        b"step 999999999999999999",
        Some(Command::Step(999_999_999_999_999_999)),
    ),
    (b"step 000000000000000007", Some(Command::Step(7))),
    (b"frame", Some(Command::Frame)),
    (b"pin 3", Some(Command::Pin(3))),
    (b"unpin 4", Some(Command::Unpin(4))),
    (
        b"move 9 -4 5 -060",
        Some(Command::Move {
            particle: 9,
            to: TO,
        }),
    ),
    (b"cut 5", Some(Command::Cut(5))),
    (b"gravity -4 5 -60", Some(Command::Gravity(TO))),
    (b"gravity -0 00 0", Some(Command::Gravity(Vec3::ZERO))),
    (b"ledger", Some(Command::Ledger)),
    (b"step 0000000000000000007", Some(Command::Bad)),
    (b"step", Some(Command::Bad)),
    (b"step 1 2", Some(Command::Bad)),
    (b"step -1", Some(Command::Bad)),
    (b"step +1", Some(Command::Bad)),
    (b"step 1\r\r", Some(Command::Bad)),
    (b"step 1 # one", Some(Command::Bad)),
    (b"step1", Some(Command::Bad)),
    (b"Step 1", Some(Command::Bad)),
    (b"frame 1", Some(Command::Bad)),
    (b"pin", Some(Command::Bad)),
    (b"unpin x", Some(Command::Bad)),
    (b"move -9 -4 5 -60", Some(Command::Bad)),
    (b"move 9 -4 5", Some(Command::Bad)),
    (b"move 9 -4 5 -60 7", Some(Command::Bad)),
    (b"move 9 -4 5 --60", Some(Command::Bad)),
    (b"move 9 -4 5 -", Some(Command::Bad)),
    (b"move", Some(Command::Bad)),
    (b"cut 0x5", Some(Command::Bad)),
    (b"gravity -4 5", Some(Command::Bad)),
    (b"gravity -4 5 -60 1", Some(Command::Bad)),
    (b"gravity 1 2 -1234567890123456789", Some(Command::Bad)),
    (b"ledger 0", Some(Command::Bad)),
    (b"mark 1", Some(Command::Bad)),
    (b"fr\xC3\xA9me", Some(Command::Bad)),
    (b"frame\x0B", Some(Command::Bad)),
    (b"\rframe", Some(Command::Bad)),
    (b"\r", None),
    (b" \t ", None),
    (b"# step 1", None),
    (b" #\xC3\xA9", None),
    (b"##frame", None),
];

#[test]
fn a_line_is_a_command_or_none(rt: HostRuntime) -> Result<(), WrongRows> {
    each_row!(rt, &LINES, "is a command", (line, command) => line_command(line), command)
}

/// Scripts and their first three commands.
static SCRIPTS: [(&[u8], [Option<Command>; 3]); 5] = [
    (b"", [None, None, None]),
    (b"\n\r\n# none\n", [None, None, None]),
    (
        b"frame\r\n\nledger\n",
        [Some(Command::Frame), Some(Command::Ledger), None],
    ),
    (
        b"frame\n#\nstep 2",
        [Some(Command::Frame), Some(Command::Step(2)), None],
    ),
    (
        b"frame\rledger\ncut 1\n",
        [Some(Command::Bad), Some(Command::Cut(1)), None],
    ),
];

#[test]
fn a_script_is_its_lines(rt: HostRuntime) -> Result<(), WrongRows> {
    each_row!(rt, &SCRIPTS, "has its commands", (bytes, commands) => {
        let mut script = Script::new(*bytes);
        [script.next(), script.next(), script.next()]
    }, commands)
}

type Bytes = &'static [u8];

/// First lines with what is behind them; a line without its return, and first words with what is behind them; whether all are
/// digits; and the numbers of words and of lines.
type Taken = (
    ((Bytes, Option<Bytes>), (Bytes, Option<Bytes>)),
    (Bytes, Option<(Bytes, Bytes)>, Option<(Bytes, Bytes)>),
    [bool; 3],
    (Option<u64>, Option<i64>, Option<u64>, Option<u64>),
);

static TAKEN: Taken = (
    ((b"a\r", Some(b"\nb")), (b"a\r", None)),
    (b"a\r", Some((b"ab", b" c ")), None),
    [true, true, false],
    (Some(120), Some(-120), Some(7), None),
);

#[test]
fn words_and_numbers_are_taken_from_lines(rt: HostRuntime) -> Result<(), WrongRows> {
    let taken = (
        (first_line(b"a\r\n\nb"), first_line(b"a\r")),
        (
            without_return(b"a\r\r"),
            next_word(b" \tab c "),
            next_word(b" \t"),
        ),
        [are_digits(b""), are_digits(b"0129"), are_digits(b"12/")],
        (
            count_of(b"0120"),
            number_of(b"-0120"),
            only_count(b" 7 "),
            only_count(b" 7 8"),
        ),
    );
    all_hold(wrong_row(&rt, (&"what is taken", "from twelve texts"), &taken, &TAKEN))
}

static VALUES: [(&[u8], u128); 4] = [
    (b"", 0),
    (b"0120", 120),
    (b"18446744073709551616", 18_446_744_073_709_551_616),
    (
        b"99999999999999999999999999999999999999",
        99_999_999_999_999_999_999_999_999_999_999_999_999,
    ),
];

#[test]
fn digits_have_their_value(rt: HostRuntime) -> Result<(), WrongRows> {
    each_row!(rt, &VALUES, "is its value", (word, value) => {
        if word.len() <= 38 && are_digits(word) {
            Some(value_of(word))
        } else {
            None
        }
    }, &Some(*value))
}
