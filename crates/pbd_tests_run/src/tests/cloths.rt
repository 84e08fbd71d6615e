//! Cloths: on a sphere, in free fall, at rest, generated, and as large as they may be.
use super::written::{Given, all_of, push_line, run, wrong_alike, wrong_in, wrong_run, wrong_runs};
use pbd_tests_rows::{WrongRows, all_hold, wrong_row};
use std::alloc::AllocError;

const ON_A_SPHERE: &[u8] =
    b"gravity = [0, -179, 0]\npasses = 8\nthickness = 3000\npins = [0, 31]\n[[cloth]]\norigin = [0, 65536, 0]\nacross = [6554, 0, 0]\ndown = [0, 0, 6554]\nrows = 32\ncolumns = 32\n[[sphere]]\ncentre = [101587, -65536, 101587]\nradius = 45000\n%%\nstep 60\nframe\nledger\n";

const IN_FREE_FALL: &[u8] =
    b"gravity = [0, -179, 0]\npasses = 8\nthickness = 3000\n[[cloth]]\norigin = [0, 65536, 0]\nacross = [6554, 0, 0]\ndown = [0, 0, 6554]\nrows = 32\ncolumns = 32\n%%\nstep 60\nframe\nledger\n";

const AT_REST: &str =
    "simulate 1 < passes = 0; thickness = 3000; [[cloth]]; origin = [0, 0, 0]; across = [6554, 0, 0]; down = [0, 0, 6554]; rows = 256; columns = 256; %%; step 200; ledger => 0 ok; ledger momentum 0 0 0; ledger opening 0 0 0; ledger gravity 0 0 0; ledger damping 0 0 0; ledger link 0 0 0; ledger contact 0 0 0; ledger pin 0 0 0; ledger shape 0 0 0";

const LARGEST: &[u8] =
    b"[[cloth]]\norigin = [0, 0, 0]\nacross = [0, 0, 0]\ndown = [0, 0, 0]\nrows = 256\ncolumns = 256\n%%\nframe\n";

const QUIET: &str = "ledger damping 0 0 0\nledger link 0 0 0\nledger contact 0 0 0\n";

/// How many runs are wrong of those of the cloth on a sphere: its log is replayed as what one lane writes, in whose ledger only
/// gravity, pins and shapes move.
fn wrong_replay(rt: &HostRuntime, log: &[u8]) -> u32 {
    match run(rt.alloc(), &all_of("simulate 1", ON_A_SPHERE)) {
        Ok((answer, written)) => {
            let text = str::from_utf8(&written).unwrap_or("");
            let quiet = wrong_row(rt, (&QUIET, "is written"), &text.contains(QUIET), &true);
            let replayed = wrong_run(rt, &all_of("replay 16", log), (answer.code(), &written));
            drop(written);
            quiet.saturating_add(replayed)
        }
        Err(error) => wrong_row(rt, (&"one lane", "writes"), &Err(error), &Ok(())),
    }
}

#[test]
fn a_cloth_on_a_sphere_is_replayed(rt: HostRuntime) -> Result<(), WrongRows> {
    let outcome = run(rt.alloc(), &all_of("record 4", ON_A_SPHERE));
    let (_, log) = outcome.expect(&rt, "no memory");
    let wrong = wrong_replay(&rt, &log);
    drop(log);
    all_hold(wrong)
}

/// The frame and the ledger of the falling cloth: gravity took each of its 1,024 particles down by 327,570.
fn push_fallen(text: &mut String) -> Result<(), AllocError> {
    text.push_str("ok\nframe 60 1024 5826 0\n")?;
    for n in 0..1024u32 {
        push_line(text, "# -262034 #\n", &[6554 * (n % 32), 6554 * (n / 32)])?;
    }
    text.push_str(
        "ledger momentum 0 -10997760 0\nledger opening 0 0 0\nledger gravity 0 -10997760 0\nledger damping 0 0 0\nledger link 0 0 0\nledger contact 0 0 0\nledger pin 0 0 0\nledger shape 0 0 0\n",
    )
}

#[test]
fn a_cloth_in_free_fall_keeps_its_form(rt: HostRuntime) -> Result<(), WrongRows> {
    let mut text = String::new(rt.alloc());
    let made = push_fallen(&mut text);
    let output = text.as_str().as_bytes();
    let wrong = wrong_runs(&rt, &all_of("simulate *", IN_FREE_FALL), (0, output));
    drop(text);
    all_hold(wrong.saturating_add(u32::from(made.is_err())))
}

/// No search of all pairs of 65,536 particles ends two hundred times in a test's time.
#[test]
fn a_wide_cloth_at_rest_ends_in_time(rt: HostRuntime) -> Result<(), WrongRows> {
    all_hold(wrong_in(&rt, AT_REST))
}

/// Words and what they are given, others whose runs come to the same, and how they may end, each end with the beginning of what
/// is written then.
type Forms = (
    Given<'static>,
    &'static [&'static str],
    &'static [(u8, &'static [u8])],
);

const READ: Given<'static> = Given {
    words: "simulate 1",
    width: "",
    input: ON_A_SPHERE,
    piece: 4096,
    reads: &[],
    writes: &[],
};

/// Reads nothing: the first read would fail.
const UNREAD: Given<'static> = Given {
    input: b"",
    piece: 1,
    reads: &[1],
    ..READ
};

static CLOTHS: [Forms; 5] = [
    (
        READ,
        &[
            "simulate 2",
            "simulate 4",
            "simulate 8",
            "simulate 16",
            "scramble 7",
            "scramble 8",
        ],
        &[(0, b"ok\nframe 60 1024 5826 ")],
    ),
    (
        Given {
            input: LARGEST,
            ..READ
        },
        &[],
        &[(0, b"frame 0 65536 ")],
    ),
    (
        Given {
            words: "large 1 7 016",
            ..UNREAD
        },
        &[
            "large 2 7 16",
            "large 4 7 16",
            "large 8 7 16",
            "large 16 07 16",
        ],
        &[
            (0, b"large 7 16\nok\nsums 30 1378 "),
            (11, b"large 7 16\nrefused 1"),
        ],
    ),
    (
        Given {
            words: "large 1 7 32",
            ..UNREAD
        },
        &["large 16 7 32"],
        &[(0, b"large 7 32\n"), (11, b"large 7 32\n")],
    ),
    (
        Given {
            words: "large 1 7 128",
            ..UNREAD
        },
        &["large 16 7 128"],
        &[(0, b"large 7 128\n"), (11, b"large 7 128\n")],
    ),
];

fn wrong_forms(rt: &HostRuntime, forms: &[Forms]) -> u32 {
    let mut wrong = 0u32;
    for (one, others, ends) in forms {
        wrong = wrong.saturating_add(wrong_alike(rt, one, *others, *ends));
    }
    wrong
}

#[test]
fn cloths_are_the_same_at_every_width_and_scrambled(rt: HostRuntime) -> Result<(), WrongRows> {
    all_hold(wrong_forms(&rt, &CLOTHS))
}
