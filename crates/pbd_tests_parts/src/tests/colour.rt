//! Colours of pairs, before and after some are dropped.
ghost use Rattle.std.specs.Prelude.{◌≡◌, ◌<◌, ◌≤◌, ℕ, IsTrue, IfSome, true, length, slice_index, replicate};
ghost use Rattle.std.specs.List.Sorted.{IsStrictlyIncreasing};

use super::pairs::are_in_range;
use pbd_colour::Colouring;
use pbd_tests_rows::{WrongRows, all_hold, wrong_row};
use std::alloc::Global;

// Whether numbers rise, all of them below n.
fn are_rising(numbers: &[u32], n: u32) -> bool
    ensures rising { IsTrue result → IsStrictlyIncreasing numbers.now }
    ensures below { IsTrue result → (k : ℕ) → k < length numbers.now → slice_index numbers.now k < n }
{
    for k in 0..numbers.len() {
        if numbers[k] >= n {
            return false;
        }
        if k + 1 < numbers.len() && numbers[k] >= numbers[k + 1] {
            return false;
        }
    }
    true
}

// A colouring of some pairs. None where there is no memory, there are more than 70 particles or 2,415 pairs, or one of them is no
// pair of particles.
fn coloured(alloc: Global, particles: u32, pairs: &[(u32, u32)]) -> Option<Colouring>
    ensures pairs { IfSome result (λ c. c.pairs ≡ pairs.now) }
    ensures live { IfSome result (λ c. c.live ≡ replicate (length pairs.now) true) }
    ensures particles { IfSome result (λ c. c.particles ≡ particles) }
    ensures few { IfSome result (λ _. length pairs.now ≤ 2415) }
{
    if particles > 70 {
        return None;
    }
    if pairs.len() > 2415 {
        return None;
    }
    if !are_in_range(pairs, particles) {
        return None;
    }
    match Colouring::open(alloc, particles, pairs.len() as u32) {
        Ok(mut colouring) => {
            colouring.refill(pairs);
            Some(colouring)
        }
        Err(_) => None,
    }
}

// Drops some of the pairs, all of which are live. False where their numbers don't rise, or one isn't below `count`.
fn drop_some(colouring: &mut Colouring, count: u32, numbers: &[u32]) -> bool
    requires { colouring.old.live ≡ replicate count true }
    ensures pairs { colouring.new.pairs ≡ colouring.old.pairs }
    ensures particles { colouring.new.particles ≡ colouring.old.particles }
{
    if !are_rising(numbers, count) {
        return false;
    }
    colouring.drop_pairs(numbers);
    true
}

// Whether the live pairs have these colours, and the others none.
fn has_colours(colouring: &Colouring, wanted: &[Option<u8>]) -> bool
    requires pairs { length colouring.now.pairs ≡ length wanted.now }
    requires few { length wanted.now ≤ 2415 }
{
    for (i, colour) in wanted.iter().enumerate() {
        let now = if colouring.is_live(i as u32) {
            Some(colouring.colour(i as u32))
        } else {
            None
        };
        if now != *colour {
            return false;
        }
    }
    true
}

// Whether a colour below 63 has these pairs as its batch.
fn has_batch(colouring: &Colouring, colour: u8, wanted: &[u32]) -> bool {
    colour < 63 && colouring.batch(colour) == wanted
}

// Pairs, their colours, and the colours of those that are live after a drop.
#[derive(Clone, Copy)]
struct Case {
    name: &'static str,
    particles: u32,
    pairs: &'static [(u32, u32)],
    colours: &'static [Option<u8>],
    dropped: &'static [u32],
    mended: &'static [Option<u8>],
    first_batch: &'static [u32],
    last_batch: (u8, &'static [u32]),
    unlinked: (u32, u32),
}

// Whether a colouring of a case's pairs, all of which are live, has its colours before the drop, what the drop says, and
// whether it has its colours after it, its first and its last batch, and doesn't link its two particles. None where the case
// has not a colour for each pair, or not two particles.
fn try_colours(colouring: &mut Colouring, case: &Case) -> Option<[bool; 6]>
    requires pairs { colouring.old.pairs ≡ case.now.pairs.now }
    requires live { colouring.old.live ≡ replicate (length case.now.pairs.now) true }
    requires particles { colouring.old.particles ≡ case.now.particles }
    requires few { length case.now.pairs.now ≤ 2415 }
{
    let count = case.pairs.len();
    let (a, b) = case.unlinked;
    if case.colours.len() != count {
        return None;
    }
    if case.mended.len() != count {
        return None;
    }
    if a >= case.particles {
        return None;
    }
    if b >= case.particles {
        return None;
    }
    let before = has_colours(colouring, case.colours);
    let dropped = drop_some(colouring, count as u32, case.dropped);
    Some([
        before,
        dropped,
        has_colours(colouring, case.mended),
        has_batch(colouring, 0, case.first_batch),
        has_batch(colouring, case.last_batch.0, case.last_batch.1),
        !colouring.linked(a, b),
    ])
}

fn try_case(alloc: Global, case: &Case) -> Option<[bool; 6]> {
    match coloured(alloc, case.particles, case.pairs) {
        Some(mut colouring) => {
            let told = try_colours(&mut colouring, case);
            drop(colouring);
            told
        }
        None => None,
    }
}

const FOUR_PAIRS: Case = Case {
    name: "four pairs",
    particles: 4,
    pairs: &[(0, 1), (1, 2), (2, 3), (0, 2)],
    colours: &[Some(0), Some(1), Some(0), Some(2)],
    dropped: &[1],
    mended: &[Some(0), None, Some(0), Some(1)],
    first_batch: &[0, 2],
    last_batch: (1, &[3]),
    unlinked: (1, 2),
};

// Two rows and three columns: the sides, the diagonals, and the links between particles two apart.
const CLOTH: Case = Case {
    name: "a cloth",
    particles: 6,
    pairs: &[
        (0, 1),
        (0, 3),
        (1, 2),
        (1, 4),
        (2, 5),
        (3, 4),
        (4, 5),
        (0, 4),
        (1, 3),
        (1, 5),
        (2, 4),
        (0, 2),
        (3, 5),
    ],
    colours: &[
        Some(0),
        Some(1),
        Some(1),
        Some(2),
        Some(0),
        Some(0),
        Some(1),
        Some(3),
        Some(3),
        Some(4),
        Some(4),
        Some(2),
        Some(2),
    ],
    dropped: &[0, 5],
    mended: &[
        None,
        Some(0),
        Some(0),
        Some(1),
        Some(1),
        None,
        Some(0),
        Some(2),
        Some(2),
        Some(3),
        Some(3),
        Some(4),
        Some(4),
    ],
    first_batch: &[1, 2, 6],
    last_batch: (4, &[11, 12]),
    unlinked: (4, 3),
};

static CASES: [Case; 2] = [FOUR_PAIRS, CLOTH];

#[test]
fn colours_are_mended_after_a_drop(rt: HostRuntime) -> Result<(), WrongRows> {
    let what =
        "has its colours, is dropped from, has mended ones, a first and a last batch, and two that aren't linked";
    let mut wrong = 0u32;
    for case in &CASES {
        let told = try_case(rt.alloc(), case);
        wrong = wrong.saturating_add(wrong_row(&rt, (&case.name, what), &told, &Some([true; 6])));
    }
    all_hold(wrong)
}

// Adds the pairs i < j of seventy particles.
fn push_pairs(pairs: &mut Vec<(u32, u32)>) -> bool {
    for i in 0..70 {
        for j in i + 1..70 {
            if pairs.push((i, j)).is_err() {
                return false;
            }
        }
    }
    true
}

// Whether the pairs below 64 have the colours (i xor j) - 1, and all others with an end there are serial.
fn has_known_colours(colouring: &Colouring, pairs: &[(u32, u32)]) -> bool
    requires pairs { length colouring.now.pairs ≡ length pairs.now }
    requires few { length pairs.now ≤ 2415 }
{
    for (k, pair) in pairs.iter().enumerate() {
        if !colouring.is_live(k as u32) {
            return false;
        }
        let wanted = if pair.1 < 64 {
            (pair.0 ^ pair.1).wrapping_sub(1)
        } else {
            63
        };
        if pair.0 < 64 && colouring.colour(k as u32) as u32 != wanted {
            return false;
        }
    }
    true
}

// Whether the pairs from number 69 on have the colours of the pairs of another colouring.
fn has_colours_of(colouring: &Colouring, other: &Colouring) -> bool
    requires pairs { length colouring.now.pairs ≡ 2415 }
    requires others { length other.now.pairs ≡ 2346 }
{
    for k in 0..2346 {
        if !colouring.is_live(k + 69) || !other.is_live(k) {
            return false;
        }
        if colouring.colour(k + 69) != other.colour(k) {
            return false;
        }
    }
    true
}

// The numbers of the pairs of the first particle.
fn first_numbers() -> [u32; 69] {
    let mut numbers = [0; 69];
    for (k, number) in numbers.iter_mut().enumerate() {
        *number = k as u32;
    }
    numbers
}

// How many pairs of seventy particles are live and serial, and live without those of the first; and whether they have known
// colours, the first are dropped, and the others have the colours that they have alone.
type Seventy = ([usize; 3], [bool; 3]);

// Drops the pairs of the first particle from a colouring of all pairs, and compares it with one of the others.
fn without_first(all: &mut Colouring, pairs: &[(u32, u32)], fewer: &Colouring) -> Seventy
    requires pairs { all.old.pairs ≡ pairs.now }
    requires live { all.old.live ≡ replicate (length pairs.now) true }
    requires count { length pairs.now ≡ 2415 }
    requires fewer { length fewer.now.pairs ≡ 2346 }
{
    let (live, serial) = (all.live_count() as usize, all.serial().len());
    let known = has_known_colours(all, pairs);
    let dropped = drop_some(all, pairs.len() as u32, &first_numbers());
    let left = all.live_count() as usize;
    (
        [live, serial, left],
        [known, dropped, has_colours_of(all, fewer)],
    )
}

// The same, of a colouring of its own.
fn try_all(alloc: Global, pairs: &[(u32, u32)], fewer: &Colouring) -> Option<Seventy>
    requires count { length pairs.now ≡ 2415 }
    requires fewer { length fewer.now.pairs ≡ 2346 }
{
    match coloured(alloc, 70, pairs) {
        Some(mut all) => {
            let told = without_first(&mut all, pairs, fewer);
            drop(all);
            Some(told)
        }
        None => None,
    }
}

// All pairs of seventy particles, and all but those of the first, which stand before the others.
fn try_seventy(alloc: Global, pairs: &[(u32, u32)]) -> Option<Seventy> {
    if pairs.len() != 2415 {
        return None;
    }
    let others = &pairs[69..];
    if others.len() != 2346 {
        return None;
    }
    match coloured(alloc, 70, others) {
        Some(fewer) => {
            let told = try_all(alloc, pairs, &fewer);
            drop(fewer);
            told
        }
        None => None,
    }
}

#[test]
fn seventy_particles_use_all_colours(rt: HostRuntime) {
    let mut pairs = Vec::new(rt.alloc());
    let pushed = push_pairs(&mut pairs);
    let told = try_seventy(rt.alloc(), pairs.as_slice());
    drop(pairs);
    assert!(rt; pushed, "no memory");
    assert!(rt;
        told == Some(([2415, 384, 2346], [true; 3])),
        "pairs live, serial, and live without the first particle, and whether their colours are known, some were dropped, and the others are coloured as alone: {told:?}"
    );
}
