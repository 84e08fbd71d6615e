//! A store at each width.
ghost use Rattle.std.specs.Prelude.{◌≡◌, ℕ, ◌<◌, ◌≤◌, ◌+◌, IsTrue, length};
ghost use Rattle.pbd_lanes.specs.Lane.{is_set};
ghost use Rattle.pbd_store.specs.Gathering.{index_at};

use pbd_lanes::{Lanes, Mask};
use pbd_num::Vec3;
use pbd_store::{Lanes3, Steps, Store};
use pbd_tests_rows::{WIDTHS, WrongRows, all_hold, at_widths, place, wrong_row};
use pbd_world::Particle;
use std::alloc::{AllocError, Global};
use std::marker::Brand;
use std::sync::ledger::{Blank, Ledger};

macro_rules! particle {
    ($x:expr) => {
        Particle {
            at: place!($x, 5, -5),
            before: place!(1, 5, -5),
            weight: 3,
            held: false,
        }
    };
}

/// Five particles on x, from this place on.
macro_rules! five {
    ($first:expr) => {
        [
            particle!($first),
            particle!($first + 1),
            particle!($first + 2),
            particle!($first + 3),
            particle!($first + 4),
        ]
    };
}

/// What the last block of five particles holds after a move and a replacement; and after its lanes were saved with another number,
/// what a copy then tells, with the copies of both, and its places on x.
#[derive(Clone, Copy, Debug, PartialEq)]
struct Seen {
    blocks: u32,
    loaded: i64,
    filled: usize,
    len: u32,
    limit: i64,
    copies: [u64; 2],
    x: [i64; 5],
}

/// How many numbers aren't 0, and the greatest of them, or -1 where there is none above it.
fn count_and_greatest(numbers: &[i64]) -> (i64, i64) {
    let (mut count, mut greatest) = (0i64, -1);
    for number in numbers {
        count = count.saturating_add(i64::from(*number != 0));
        greatest = greatest.max(*number);
    }
    (count, greatest)
}

/// How many lanes are set.
fn set_lanes(lanes: &[bool]) -> usize {
    let mut count = 0usize;
    for lane in lanes {
        count = count.saturating_add(usize::from(*lane));
    }
    count
}

/// The five places on x.
fn places_on_x<G: Ledger, const L: usize>(store: &Store<L>, steps: &mut Steps<G>) -> [i64; 5]
    requires { length store.now.particles ≡ 5 }
{
    let mut places = [0; 5];
    for i in 0..5 {
        places[i as usize] = store.at(i, steps).at.x;
    }
    places
}

/// Moves a particle, replaces another, and saves the last block with another number. Says how many blocks there are, the
/// greatest place in the last one before that, and how many of its lanes are filled.
fn save_last<G: Ledger, const L: usize>(
    store: &mut Store<L>,
    steps: &mut Steps<G>,
) -> Option<(u32, i64, usize)>
    requires low { 0 < L }
    requires high { L ≤ 16 }
    requires five { length store.old.particles ≡ 5 }
    ensures len { length store.new.particles ≡ 5 }
    ensures limit { store.new.limit ≡ store.old.limit }
{
    store.put(1, place!(70, 5, -5), steps);
    store.set(4, particle!(40), steps);
    let blocks = store.blocks();
    if blocks == 0 {
        return None;
    }
    let mut values = store.load(blocks - 1, steps);
    let (_, loaded) = count_and_greatest(&values.at.x.to_array());
    let filled = set_lanes(&values.filled.to_array());
    values.at.x = Lanes::splat(9);
    let mask = values.filled;
    store.save(blocks - 1, &values, &mask, steps);
    Some((blocks, loaded, filled))
}

/// What is seen of a store, and of a copy that takes it over.
fn walk_in<G: Ledger, const L: usize>(
    store: &mut Store<L>,
    copy: &mut Store<L>,
    steps: &mut Steps<G>,
) -> Option<Seen>
    requires low { 0 < L }
    requires high { L ≤ 16 }
    requires five { length store.old.particles ≡ 5 }
    requires alike { length copy.old.particles ≡ 5 }
    requires limit { copy.old.limit ≡ store.old.limit }
{
    let (blocks, loaded, filled) = save_last(store, steps)?;
    copy.copy_from(store);
    Some(Seen {
        blocks,
        loaded,
        filled,
        len: copy.len(),
        limit: copy.limit(),
        copies: [copy.copies(), store.copies()],
        x: places_on_x(copy, steps),
    })
}

static WALKING: [Particle; 5] = five!(0);

/// The same of two stores of their own.
fn walk<G: Ledger, const L: usize>(
    alloc: Global,
    steps: &mut Steps<G>,
) -> Result<Option<Seen>, AllocError>
    requires low { 0 < L }
    requires high { L ≤ 16 }
{
    let mut copy = Store::<L>::open(alloc, &WALKING, 1 << 29)?;
    let seen = match Store::<L>::open(alloc, &WALKING, 1 << 29) {
        Ok(mut store) => {
            let seen = walk_in(&mut store, &mut copy, steps);
            drop(store);
            Ok(seen)
        }
        Err(error) => Err(error),
    };
    drop(copy);
    seen
}

/// The last lane alone.
fn last_lane<const L: usize>() -> Mask<L>
    requires { 0 < L }
    ensures { (j : ℕ) → IsTrue (is_set result j) → j + 1 ≡ L }
{
    let mut set = [false; L];
    set[L - 1] = true;
    Mask::from_array(set)
}

/// Particle 3 in the last lane, and particle 0 in the others.
fn last_index<const L: usize>() -> [u32; L]
    requires { 0 < L }
    ensures { (j : ℕ) → index_at result j < 5 }
{
    let mut indices = [0; L];
    indices[L - 1] = 3;
    indices
}

/// A place in each lane.
fn in_all_lanes<const L: usize>(place: Vec3) -> Lanes3<L> {
    Lanes3 {
        x: Lanes::splat(place.x),
        y: Lanes::splat(place.y),
        z: Lanes::splat(place.z),
    }
}

/// How many numbers that were gathered aren't 0, the greatest of them, and the places on x after the last lane alone was scattered.
type OneLane = (i64, i64, [i64; 5]);

fn one_lane_in<G: Ledger, const L: usize>(store: &mut Store<L>, steps: &mut Steps<G>) -> OneLane
    requires low { 0 < L }
    requires high { L ≤ 16 }
    requires five { length store.old.particles ≡ 5 }
{
    let mask = last_lane::<L>();
    let indices = last_index::<L>();
    let ends = store.gather(&indices, &mask, steps);
    store.scatter(&indices, &mask, &in_all_lanes(place!(50, 5, -5)), steps);
    let (count, greatest) = count_and_greatest(&ends.at.x.to_array());
    (count, greatest, places_on_x(store, steps))
}

static STANDING: [Particle; 5] = five!(10);

/// The same of five particles.
fn one_lane<G: Ledger, const L: usize>(
    alloc: Global,
    steps: &mut Steps<G>,
) -> Result<OneLane, AllocError>
    requires low { 0 < L }
    requires high { L ≤ 16 }
{
    match Store::<L>::open(alloc, &STANDING, 1 << 29) {
        Ok(mut store) => {
            let seen = one_lane_in(&mut store, steps);
            drop(store);
            Ok(seen)
        }
        Err(error) => Err(error),
    }
}

/// A place of which no axis fits 32 bits, and another.
#[derive(Clone, Copy, Debug)]
struct Far {
    one: Vec3,
    other: Vec3,
}

static FAR_PLACES: [Far; 2] = [
    Far {
        one: place!(2147483648, -2147483649, 2147483648),
        other: place!(-2147483649, 2147483648, -2147483649),
    },
    Far {
        one: place!(i64::MAX, i64::MIN, i64::MAX),
        other: place!(i64::MIN, i64::MAX, i64::MIN),
    },
];

fn particle_at(place: Vec3) -> Particle {
    Particle {
        at: place,
        before: place,
        weight: 3,
        held: false,
    }
}

/// Saves these places in the first block.
fn save_first<G: Ledger, const L: usize>(
    store: &mut Store<L>,
    places: &Lanes3<L>,
    steps: &mut Steps<G>,
)
    requires low { 0 < L }
    requires high { L ≤ 16 }
    ensures { length store.new.particles ≡ length store.old.particles }
{
    if store.blocks() == 0 {
        return;
    }
    let mut block = store.load(0, steps);
    block.at = *places;
    let mask = block.filled;
    store.save(0, &block, &mask, steps);
}

/// The places of particles that are all at `one`, as they are read: of particle 3, then after it was scattered to the other
/// place; of particle 0, after it was saved there, put back, and replaced by one there.
fn far_in<G: Ledger, const L: usize>(
    store: &mut Store<L>,
    far: Far,
    steps: &mut Steps<G>,
) -> [Vec3; 5]
    requires low { 0 < L }
    requires high { L ≤ 16 }
    requires five { length store.old.particles ≡ 5 }
{
    let opened = store.at(3, steps).before;
    let values = in_all_lanes::<L>(far.other);
    store.scatter(&last_index::<L>(), &last_lane::<L>(), &values, steps);
    let scattered = store.at(3, steps).at;
    save_first(store, &values, steps);
    let saved = store.at(0, steps).at;
    store.put(0, far.one, steps);
    let put = store.at(0, steps).at;
    store.set(0, particle_at(far.other), steps);
    [opened, scattered, saved, put, store.at(0, steps).before]
}

/// The same of five particles.
fn seen_far<const L: usize, G: Ledger>(
    alloc: Global,
    far: Far,
    steps: &mut Steps<G>,
) -> Result<[Vec3; 5], AllocError>
    requires low { 0 < L }
    requires high { L ≤ 16 }
{
    match Store::<L>::open(alloc, &[particle_at(far.one); 5], 1 << 29) {
        Ok(mut store) => {
            let seen = far_in(&mut store, far, steps);
            drop(store);
            Ok(seen)
        }
        Err(error) => Err(error),
    }
}

/// The same at each width.
fn far_widths<G: Ledger>(
    alloc: Global,
    blank: Blank,
    place: Far,
) -> [Result<[Vec3; 5], AllocError>; 5]
    requires name { blank.name ≡ G.name }
    requires parts { blank.parts ≡ G.parts }
    requires some { 0 < blank.parts }
{
    at_widths!(blank, seen_far(alloc, place))
}

/// What is seen of particles that move, and of one lane.
type Both = (
    Result<Option<Seen>, AllocError>,
    Result<OneLane, AllocError>,
);

fn see_both<const L: usize, G: Ledger>(alloc: Global, steps: &mut Steps<G>) -> Both
    requires low { 0 < L }
    requires high { L ≤ 16 }
{
    (walk::<G, L>(alloc, steps), one_lane::<G, L>(alloc, steps))
}

fn widths<G: Ledger>(alloc: Global, blank: Blank) -> [Both; 5]
    requires name { blank.name ≡ G.name }
    requires parts { blank.parts ≡ G.parts }
    requires some { 0 < blank.parts }
{
    at_widths!(blank, see_both(alloc))
}

/// How many blocks there are, the greatest place that was loaded, how many lanes were filled, and the places then; and the same
/// of one lane at each width.
macro_rules! walked {
    ($blocks:expr, $loaded:expr, $filled:expr, $x:expr) => {
        (
            Ok(Some(Seen {
                blocks: $blocks,
                loaded: $loaded,
                filled: $filled,
                len: 5,
                limit: 536870912,
                copies: [1, 0],
                x: $x,
            })),
            Ok((1, 13, [10, 11, 12, 50, 14])),
        )
    };
}

/// What is seen at each width.
static WALKED: [Both; 5] = [
    walked!(5, 40, 1, [0, 70, 2, 3, 9]),
    walked!(3, 40, 1, [0, 70, 2, 3, 9]),
    walked!(2, 40, 1, [0, 70, 2, 3, 9]),
    walked!(1, 70, 5, [9, 9, 9, 9, 9]),
    walked!(1, 70, 5, [9, 9, 9, 9, 9]),
];

#[test]
fn a_store_keeps_its_particles(rt: HostRuntime) -> Result<(), WrongRows> {
    let found = widths::<Brand>(rt.alloc(), Blank::new(1));
    let calls = "blocks that were loaded and saved, and a lane that was gathered and scattered";
    all_hold(wrong_row(&rt, (&calls, WIDTHS), &found, &WALKED))
}

#[test]
fn a_store_keeps_places_anywhere(rt: HostRuntime) -> Result<(), WrongRows> {
    let mut wrong = 0u32;
    for far in &FAR_PLACES {
        let Far { one, other } = *far;
        let found = far_widths::<Brand>(rt.alloc(), Blank::new(1), *far);
        let kept = [Ok([one, other, other, one, other]); 5];
        wrong = wrong.saturating_add(wrong_row(&rt, (far, WIDTHS), &found, &kept));
    }
    all_hold(wrong)
}
