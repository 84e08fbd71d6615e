//! Lines of bytes.
use pbd_line::Line;
use pbd_tests_rows::{WrongRows, all_hold, wrong_row};

/// Numbers of three kinds, and a line with them.
static NUMBERS: [(u64, i64, i128, &[u8]); 4] = [
    (0, 0, 0, b"0 0 0\n"),
    (10, -1, -65_536, b"10 -1 -65536\n"),
    (
        u64::MAX,
        i64::MIN,
        i128::MIN,
        b"18446744073709551615 -9223372036854775808 -170141183460469231731687303715884105728\n",
    ),
    (
        9,
        i64::MAX,
        i128::MAX,
        b"9 9223372036854775807 170141183460469231731687303715884105727\n",
    ),
];

#[test]
fn a_line_has_numbers_of_three_kinds(rt: HostRuntime) -> Result<(), WrongRows> {
    let mut wrong = 0u32;
    for row in &NUMBERS {
        let (number, signed, wide, bytes) = row;
        let mut line = Line::new();
        line.push_number(*number);
        line.push(" ");
        line.push_signed(*signed);
        line.push_bytes(b" ");
        line.push_wide(*wide);
        line.push("\n");
        wrong = wrong.saturating_add(wrong_row(&rt, (row, "is its line"), &line.as_slice(), bytes));
    }
    all_hold(wrong)
}

#[test]
fn two_hundred_and_fifty_six_bytes_fill_a_line(rt: HostRuntime) -> Result<(), WrongRows> {
    let mut line = Line::new();
    line.push("ab");
    let room = line.room();
    line.push_bytes(&[b'c'; 254]);
    let told = ([room, line.room()], &line.as_slice()[..3]);
    all_hold(wrong_row(
        &rt,
        (&"two bytes and 254", "leave room, and begin the line"),
        &told,
        &([254, 0], b"abc".as_slice()),
    ))
}
