//! The moves of short bonds, many at a time, and their flags.
ghost use Rattle.std.specs.Prelude.{◌≡◌, ℕ, ◌<◌, ◌≤◌, pos, length, slice_index_or};

use super::num::{apart, exact_moves};
use pbd_near::Near;
use pbd_num::{Row, Vec3};
use pbd_tests_rows::{WrongRows, all_hold, axes, wrong_row};
use rand_core::utils::NextWord;
use rand_pcg::Lcg64Xsh32;

/// The way between two ends, a rest length, and a factor.
type Bond = ([i32; 3], u16, i16);

/// Bonds, and how their second ends move: as links, and as contacts.
static BONDS: [(Bond, [[i64; 3]; 2]); 22] = [
    (([6_554, 0, 0], 6_554, 256), [[0, 0, 0], [0, 0, 0]]),
    (([6_600, 0, 0], 6_554, 256), [[23, 0, 0], [0, 0, 0]]),
    (([6_500, 10, -20], 6_554, 256), [[-27, 0, 0], [-27, 0, 0]]),
    (([6_500, 10, -20], 6_554, 512), [[-54, 0, 0], [-54, 0, 0]]),
    (
        ([-6_500, 100, 4_000], 6_554, 64),
        [[-115, 2, 71], [0, 0, 0]],
    ),
    (([1, 0, 0], 5, 256), [[-2, 0, 0], [-2, 0, 0]]),
    (([-1, 2, -2], 4, 64), [[0, 0, 0], [0, 0, 0]]),
    (([3, 0, 0], 0, 256), [[2, 0, 0], [0, 0, 0]]),
    (([-3, 0, 0], 0, 256), [[-2, 0, 0], [0, 0, 0]]),
    (([-3, 3, 1], 0, 512), [[-3, 3, 1], [0, 0, 0]]),
    (([1, 1, 1], 0, 512), [[1, 1, 1], [0, 0, 0]]),
    (([-5, 9, 3], 100, 300), [[26, -47, -16], [26, -47, -16]]),
    (([1, 0, 0], 16_383, 512), [[-16_382, 0, 0], [-16_382, 0, 0]]),
    (([32_767, 0, 0], 16_383, 512), [[16_384, 0, 0], [0, 0, 0]]),
    (
        ([-23_170, 23_169, 0], 16_383, 511),
        [[-11_562, 11_562, 0], [0, 0, 0]],
    ),
    (
        ([18_918, -18_918, 18_918], 0, 512),
        [[18_918, -18_918, 18_918], [0, 0, 0]],
    ),
    (([0, 0, -32_767], 16_383, 512), [[0, 0, -16_384], [0, 0, 0]]),
    (([0, 0, -30_000], 0, 512), [[0, 0, -30_000], [0, 0, 0]]),
    (([3_000, 4_000, 0], 5_000, 256), [[0, 0, 0], [0, 0, 0]]),
    (([3_000, 4_000, 0], 5_001, 256), [[-1, -1, 0], [-1, -1, 0]]),
    (([3_000, 4_000, 0], 4_999, 256), [[1, 1, 0], [0, 0, 0]]),
    (([100, -200, 300], 400, 0), [[0, 0, 0], [0, 0, 0]]),
];

/// Bonds of length 0, of half a metre or more, and with a factor below 0.
static OTHERS: [Bond; 11] = [
    ([0, 0, 0], 5, 256),
    ([32_768, 0, 0], 16_383, 256),
    ([-32_768, 0, 0], 16_383, 256),
    ([32_768, 32_768, 32_768], 1, 256),
    ([40_000, 0, 0], 100, 256),
    ([0, -65_536, 0], 100, 256),
    ([2_147_483_647, -2_147_483_648, 0], 100, 256),
    ([46_341, 46_341, 0], 100, 256),
    ([65_536, 65_536, 65_536], 0, 1),
    ([6_600, 0, 0], 6_554, -1),
    ([6_500, 0, 0], 6_554, -1),
];

const LINK_AND_CONTACT: &str = "as a link and as a contact";

fn row(axes: [i32; 3]) -> Row {
    Row {
        x: axes[0],
        y: axes[1],
        z: axes[2],
        flag: 0,
    }
}

fn alike(value: i32) -> [i32; 128]
    ensures { (j : ℕ) → j < 128 → slice_index_or result j (pos 0) ≡ value }
{
    [value; 128]
}

/// What bonds have in common that differ in their ways alone.
#[derive(Clone, Copy)]
struct Common {
    rest: u16,
    factor: i16,
    contact: bool,
}

/// The moves of such bonds, and whether none of them is flagged. None where their rest length or their factor is out of range.
fn run_alike(near: &mut Near, ways: &[Row], bonds: Common) -> Option<([Row; 128], bool)>
    requires count { length ways.now ≤ 128 }
{
    if bonds.rest > 16_383 {
        return None;
    }
    if bonds.factor < -1 {
        return None;
    }
    if bonds.factor > 512 {
        return None;
    }
    let mut moves = [Row::ZERO; 128];
    let rests = alike(i32::from(bonds.rest));
    let factors = alike(i32::from(bonds.factor));
    let right = near.run(ways, &rests, &factors, bonds.contact, &mut moves);
    Some((moves, right))
}

/// The move of the second end of a bond, and none where it is flagged. Nothing where it is out of range, or where its flag and
/// the answer for all bonds, of which it is the one, disagree.
type Moved = Option<Option<[i64; 3]>>;

fn moved(near: &mut Near, bond: Bond, contact: bool) -> Moved {
    let (way, rest, factor) = bond;
    let bonds = Common {
        rest,
        factor,
        contact,
    };
    let (moves, right) = run_alike(near, &[row(way)], bonds)?;
    if right != (moves[0].flag == 0) {
        return None;
    }
    if right {
        Some(Some(axes(moves[0].vector())))
    } else {
        Some(None)
    }
}

/// The same as a link and as a contact.
fn moved_both(near: &mut Near, bond: Bond) -> [Moved; 2] {
    [moved(near, bond, false), moved(near, bond, true)]
}

#[test]
fn short_bonds_move_as_their_rows_say(rt: HostRuntime) -> Result<(), WrongRows> {
    let mut near = Near::new();
    let mut wrong = 0u32;
    for (bond, [link, contact]) in &BONDS {
        let came_to = moved_both(&mut near, *bond);
        let wanted = [Some(Some(*link)), Some(Some(*contact))];
        wrong = wrong.saturating_add(wrong_row(&rt, (bond, LINK_AND_CONTACT), &came_to, &wanted));
    }
    all_hold(wrong)
}

#[test]
fn other_bonds_are_flagged(rt: HostRuntime) -> Result<(), WrongRows> {
    let mut near = Near::new();
    let mut wrong = 0u32;
    for bond in &OTHERS {
        let came_to = moved_both(&mut near, *bond);
        wrong = wrong.saturating_add(wrong_row(
            &rt,
            (bond, LINK_AND_CONTACT),
            &came_to,
            &[Some(None); 2],
        ));
    }
    all_hold(wrong)
}

/// Whether the second end of a bond moves as the exact call says: of two free ends where its factor is at most 256, else of
/// one beside a held one. A contact that is no shorter than its rest length stays.
fn is_exact(moved: Vec3, way: Vec3, bond: Common) -> bool {
    let factor = bond.factor.unsigned_abs();
    let free = factor <= 256;
    let k = if free { factor } else { factor / 2 };
    let weights = (u16::from(free), 1);
    let exact = exact_moves((way, Vec3::ZERO), u32::from(bond.rest), k, weights);
    match (exact, apart(way, Vec3::ZERO)) {
        (Some((_, second)), Some(length)) => {
            let slack = bond.contact && i64::from(bond.rest) <= length;
            moved == if slack { Vec3::ZERO } else { second }
        }
        _ => false,
    }
}

/// An axis of at most 2^14 in size, and mostly much smaller.
fn random_axis(words: &mut Lcg64Xsh32) -> i32 {
    let word = words.next_word();
    ((word & 32_767) as i32 - 16_384) >> (word >> 29)
}

fn random_ways(words: &mut Lcg64Xsh32) -> [Row; 128] {
    let mut ways = [Row::ZERO; 128];
    for j in 0..128usize {
        let x = random_axis(words);
        let y = random_axis(words);
        ways[j] = row([x, y, random_axis(words)]);
    }
    ways
}

/// How many of the moves of random bonds are flagged. None where another isn't that of the exact call, or where the flags and the
/// answer for all bonds disagree.
fn flagged(near: &mut Near, words: &mut Lcg64Xsh32, contact: bool) -> Option<u32> {
    let ways = random_ways(words);
    let bonds = Common {
        rest: (words.next_word() & 16_383) as u16,
        factor: (words.next_word() & 510) as i16,
        contact,
    };
    let (moves, right) = run_alike(near, &ways, bonds)?;
    let mut count = 0u32;
    for j in 0..128usize {
        if moves[j].flag != 0 {
            count = count.saturating_add(1);
        } else if !is_exact(moves[j].vector(), ways[j].vector(), bonds) {
            return None;
        }
    }
    if right == (count == 0) {
        Some(count)
    } else {
        None
    }
}

#[test]
fn random_bonds_move_as_the_exact_call_says(rt: HostRuntime) {
    let mut near = Near::new();
    let mut words = Lcg64Xsh32::new(7, 0);
    let mut count = 0u32;
    for n in 0..32u32 {
        match flagged(&mut near, &mut words, n % 2 == 1) {
            Some(more) => count = count.saturating_add(more),
            None => assert!(rt; false, "chunk {n} of 128 bonds moves otherwise"),
        }
    }
    // of 4,096 hardly one
    assert!(rt; count < 8, "{count} of 4,096 bonds are flagged");
}
