//! Links that tear, at each width.
ghost use Rattle.std.specs.Prelude.{◌≡◌, ◌<◌, ◌≤◌, ◌^◌, pos, length, IsTrue};
ghost use Rattle.pbd_store.specs.Moving.{AreInside};
ghost use Rattle.pbd_world.specs.Valid.{are_valid_links};

use pbd_num::{RANGE, Vec3};
use pbd_store::{Steps, Store};
use pbd_tear::{torn, with_tear_length};
use pbd_tests_rows::{WIDTHS, WrongRows, all_hold, at_widths, link, resting, wrong_row};
use pbd_world::{Kind, Link, Particle, RoomList};
use std::alloc::{AllocError, Global};
use std::marker::Brand;
use std::sync::ledger::{Blank, Ledger};

/// A link that tears above 100.
macro_rules! tearing {
    ($a:expr, $b:expr, $live:expr) => {
        Link {
            tear: 100,
            live: $live,
            ..link!($a, $b, 100)
        }
    };
}

/// The first three torn numbers, unless there is no memory.
type Numbers = Result<[Option<u32>; 3], AllocError>;

fn first_three(numbers: &[u32]) -> [Option<u32>; 3] {
    [
        numbers.first().copied(),
        numbers.get(1).copied(),
        numbers.get(2).copied(),
    ]
}

/// The first three torn numbers of at most four links.
fn first_torn<const L: usize, G: Ledger>(
    alloc: Global,
    particles: &[Particle],
    links: &[Link],
    steps: &mut Steps<G>,
) -> Numbers
    requires few { length particles.now ≤ 65536 }
    requires inside { AreInside (pos (2 ^ 29)) particles.now }
    requires links { IsTrue (are_valid_links (pos (2 ^ 29)) (length particles.now) links.now) }
    requires four { length links.now ≤ 4 }
{
    let mut may_tear = RoomList::open(alloc, 4)?;
    with_tear_length(links, &mut may_tear);
    let mut out = RoomList::open(alloc, 4)?;
    let numbers = match Store::<L>::open(alloc, particles, RANGE) {
        Ok(store) => {
            torn(&store, links, may_tear.as_slice(), &mut out, steps);
            drop(store);
            Ok(first_three(out.as_slice()))
        }
        Err(error) => Err(error),
    };
    drop(out);
    drop(may_tear);
    numbers
}

/// Two particles that are this far apart, at each of these heights.
macro_rules! apart {
    ($($length:literal $y:literal);*) => {
        [$(resting!(0, $y, 0), resting!($length, $y, 0)),*]
    };
}

static PLACED: [Particle; 6] = apart!(100 0; 101 1000; 102 2000);

/// The first torn numbers of three links of lengths 100, 101 and 102 that tear above 100, of which the last may be gone, and of one
/// of length 1,005 that never tears.
fn numbers_in<const L: usize, G: Ledger>(
    alloc: Global,
    last_live: bool,
    steps: &mut Steps<G>,
) -> Numbers {
    let links = [
        tearing!(0, 1, true),
        tearing!(2, 3, true),
        link!(0, 3, 100),
        tearing!(4, 5, last_live),
    ];
    first_torn::<L, G>(alloc, &PLACED, &links, steps)
}

/// The torn numbers at each width.
fn counted<G: Ledger>(alloc: Global, blank: Blank, last_live: bool) -> [Numbers; 5]
    requires name { blank.name ≡ G.name }
    requires parts { blank.parts ≡ G.parts }
    requires some { 0 < blank.parts }
{
    at_widths!(blank, numbers_in(alloc, last_live))
}

#[test]
fn longer_links_tear_together(rt: HostRuntime) -> Result<(), WrongRows> {
    // Whether the last link is live, and the first torn numbers.
    let rows = [
        (true, [Some(1), Some(3), None]),
        (false, [Some(1), None, None]),
    ];
    let mut wrong = 0u32;
    for (last_live, wanted) in rows {
        let found = counted::<Brand>(rt.alloc(), Blank::new(1), last_live);
        wrong = wrong.saturating_add(wrong_row(
            &rt,
            (&last_live, WIDTHS),
            &found,
            &[Ok(wanted); 5],
        ));
    }
    all_hold(wrong)
}
