//! Inputs that are generated: particles in a row, links side by side, and links that meet at one particle.
use super::written::{all_of, push_line, wrong_alike, wrong_runs_of, wrong_texts};
use pbd_tests_rows::{WrongRows, all_hold};
use std::alloc::AllocError;

/// A line for each number from the first on and below the second, which stands at the first two `#` of it.
type Lines = (u32, u32, &'static str);

fn push_lines(text: &mut String, (from, to, line): Lines) -> Result<(), AllocError> {
    for number in from..to {
        push_line(text, line, &[number, number])?;
    }
    Ok(())
}

fn push_all(text: &mut String, parts: &[Lines]) -> Result<(), AllocError> {
    for lines in parts {
        push_lines(text, *lines)?;
    }
    Ok(())
}

const PARTICLE: &str = "[[particle]]\nat = [#, 0, 0]\n";

static SEVENTY: [Lines; 3] = [
    (0, 1, "thickness = 100\npasses = 1\n"),
    (0, 70, PARTICLE),
    (0, 1, "%%\nstep 1\nframe\n"),
];

#[test]
fn contacts_of_seventy_particles_are_the_same_at_every_width(
    rt: HostRuntime,
) -> Result<(), WrongRows> {
    let mut text = String::new(rt.alloc());
    let made = push_all(&mut text, &SEVENTY);
    let wrong = wrong_alike(
        &rt,
        &all_of("simulate 1", text.as_str().as_bytes()),
        &["simulate 2", "simulate 4", "simulate 8", "simulate 16"],
        &[(0, b"ok\nframe 1 70 0 2415\n")],
    );
    drop(text);
    all_hold(wrong.saturating_add(wrong_texts(&rt, "seventy", [made, Ok(())])))
}

/// Links of length 105 and of rest length 100, side by side.
const SEVENTEEN_LINKS: &str =
    "[[link]]\na = 0\nb = 1\nrest = 100\n[[link]]\na = 2\nb = 3\nrest = 100\n[[link]]\na = 4\nb = 5\nrest = 100\n[[link]]\na = 6\nb = 7\nrest = 100\n[[link]]\na = 8\nb = 9\nrest = 100\n[[link]]\na = 10\nb = 11\nrest = 100\n[[link]]\na = 12\nb = 13\nrest = 100\n[[link]]\na = 14\nb = 15\nrest = 100\n[[link]]\na = 16\nb = 17\nrest = 100\n[[link]]\na = 18\nb = 19\nrest = 100\n[[link]]\na = 20\nb = 21\nrest = 100\n[[link]]\na = 22\nb = 23\nrest = 100\n[[link]]\na = 24\nb = 25\nrest = 100\n[[link]]\na = 26\nb = 27\nrest = 100\n[[link]]\na = 28\nb = 29\nrest = 100\n[[link]]\na = 30\nb = 31\nrest = 100\n[[link]]\na = 32\nb = 33\nrest = 100\n";

/// Words, an input, the number of a status, and what is written.
static ROWS: [(&str, &[Lines], u8, &[Lines]); 5] = [
    (
        "simulate *",
        &[
            (0, 1, "thickness = 1000\npasses = 0\n"),
            (0, 724, PARTICLE),
            (0, 1, "%%\nstep 1\nframe\n"),
        ],
        0,
        &[(0, 1, "ok\nframe 1 724 0 261726\n"), (0, 724, "# 0 0\n")],
    ),
    (
        "simulate *",
        &[
            (0, 1, "thickness = 1000\npasses = 0\n"),
            (0, 725, PARTICLE),
            (0, 1, "%%\nstep 1\nframe\n"),
        ],
        11,
        &[
            (0, 1, "refused 12 TooManyContacts step 1\nframe 0 725 0 0\n"),
            (0, 725, "# 0 0\n"),
        ],
    ),
    (
        "simulate *",
        &[
            (0, 1, "passes = 1\n"),
            (
                0,
                1,
                "[[particle]]\nat = [0, 0, 0]\n[[particle]]\nat = [105, 0, 0]\n",
            ),
            (
                1,
                17,
                "[[particle]]\nat = [0, #000, 0]\n[[particle]]\nat = [105, #000, 0]\n",
            ),
            (0, 1, SEVENTEEN_LINKS),
            (0, 1, "%%\nstep 1\nframe\n"),
        ],
        0,
        &[
            (0, 1, "ok\nframe 1 34 17 0\n3 0 0\n102 0 0\n"),
            (1, 17, "3 #000 0\n102 #000 0\n"),
        ],
    ),
    (
        "simulate 1",
        &[
            (0, 34, PARTICLE),
            (1, 33, "[[link]]\na = 0\nb = #\n"),
            (0, 1, "%%\n"),
        ],
        0,
        &[],
    ),
    (
        "simulate 1",
        &[
            (0, 34, PARTICLE),
            (1, 34, "[[link]]\na = 0\nb = #\n"),
            (0, 1, "%%\n"),
        ],
        8,
        &[(
            0,
            1,
            "error 8 SceneRefused 10 TooManyAtParticle link 32 a\n",
        )],
    ),
];

/// How many runs of a row are wrong.
fn wrong_in(
    rt: &HostRuntime,
    (words, input, number, output): &(&str, &[Lines], u8, &[Lines]),
) -> u32 {
    let mut text = String::new(rt.alloc());
    let read = push_all(&mut text, *input);
    let at = text.len();
    let written = push_all(&mut text, *output);
    let wrong = wrong_runs_of(rt, *words, (text.as_str(), at), *number);
    drop(text);
    wrong.saturating_add(wrong_texts(rt, *words, [read, written]))
}

fn wrong_rows(rt: &HostRuntime, rows: &[(&str, &[Lines], u8, &[Lines])]) -> u32 {
    let mut wrong = 0u32;
    for row in rows {
        wrong = wrong.saturating_add(wrong_in(rt, row));
    }
    wrong
}

#[test]
fn runs_on_many_particles_and_links_end_and_write_as_their_rows_say(
    rt: HostRuntime,
) -> Result<(), WrongRows> {
    all_hold(wrong_rows(&rt, &ROWS))
}
