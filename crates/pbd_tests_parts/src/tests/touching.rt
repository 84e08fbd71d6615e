//! Contacts at each width, compared with all pairs.
ghost use Rattle.std.specs.Prelude.{◌≡◌, ◌<◌, ◌≤◌, IsTrue, IfSome, pos, ◌≤ℤ◌, length};
ghost use Rattle.pbd_store.specs.Moving.{AreInside};

use super::pairs::are_in_range;
use pbd_colour::Colouring;
use pbd_num::{RANGE, Vec3, inside};
use pbd_self::SelfContacts;
use pbd_store::{Steps, Store};
use pbd_tests_rows::{
    WIDTHS, WrongRows, all_hold, at_widths, held, resting, squared_distance, wrong_row,
};
use pbd_world::Particle;
use std::alloc::Global;
use std::marker::Brand;
use std::sync::ledger::{Blank, Ledger};

// Particles and links, a thickness, and how many contacts there are.
#[derive(Clone, Copy)]
struct Case<'a> {
    particles: &'a [Particle],
    links: &'a [(u32, u32)],
    thickness: i64,
    contacts: usize,
}

// Whether each place is in range.
fn are_inside(particles: &[Particle]) -> bool
    ensures { IsTrue result → AreInside (pos 536870912) particles.now }
{
    for particle in particles {
        if !inside(particle.at) {
            return false;
        }
    }
    true
}

// Whether two particles touch, where links don't join them.
fn may_touch(a: &Particle, b: &Particle, thickness: i64) -> bool {
    let near = squared_distance(a.at, b.at) < thickness.wrapping_mul(thickness);
    near && !(a.held && b.held)
}

fn joins(links: &[(u32, u32)], i: u32, j: u32) -> bool {
    for link in links {
        if *link == (i, j) || *link == (j, i) {
            return true;
        }
    }
    false
}

// Adds the contacts, by looking at all pairs.
fn push_touching(pairs: &mut Vec<(u32, u32)>, case: &Case<'_>) -> bool
    requires { length case.now.particles.now ≤ 1024 }
{
    let particles = case.particles;
    let count = particles.len() as u32;
    for i in 0..count {
        for j in i + 1..count {
            let near = may_touch(
                &particles[i as usize],
                &particles[j as usize],
                case.thickness,
            );
            if near && !joins(case.links, i, j) && pairs.push((i, j)).is_err() {
                return false;
            }
        }
    }
    true
}

// The live links of so many particles. None where there is no memory, there are more than 64, or one of them is no pair of
// particles.
fn linked(alloc: Global, particles: u32, links: &[(u32, u32)]) -> Option<Colouring>
    requires { particles ≤ 1024 }
    ensures { IfSome result (λ c. c.particles ≡ particles) }
{
    if links.len() > 64 {
        return None;
    }
    if !are_in_range(links, particles) {
        return None;
    }
    match Colouring::open(alloc, particles, 64) {
        Ok(mut colouring) => {
            colouring.refill(links);
            Some(colouring)
        }
        Err(_) => None,
    }
}

// Whether contacts hold just these pairs, all live.
fn holds(contacts: &SelfContacts, wanted: &[(u32, u32)]) -> bool {
    contacts.pairs() == wanted
        && contacts.count() as usize == wanted.len()
        && contacts.colouring().live_count() as usize == wanted.len()
}

// The links beside which contacts are looked for, the thickness, and the contacts that are to be found.
#[derive(Clone, Copy)]
struct Search<'a> {
    links: &'a Colouring,
    thickness: i64,
    wanted: &'a [(u32, u32)],
}

// Whether contacts are the wanted ones where these fit, and none where they don't. Before these others are found.
fn are_found<const L: usize, G: Ledger>(
    contacts: &mut SelfContacts,
    store: &Store<L>,
    search: &Search<'_>,
    steps: &mut Steps<G>,
) -> bool
    requires contacts { contacts.old.particles ≡ length store.now.particles }
    requires inside { AreInside store.now.limit store.now.particles }
    requires links { search.now.links.now.particles ≡ length store.now.particles }
    requires low { pos 0 ≤ℤ search.now.thickness }
    requires high { search.now.thickness ≤ℤ pos 1048576 }
{
    let _ = contacts.detect(store, search.links, 8, steps);
    let found = contacts.detect(store, search.links, search.thickness, steps);
    if search.wanted.len() > 262_144 {
        return found.is_err() && holds(contacts, &[]);
    }
    found.is_ok() && holds(contacts, search.wanted)
}

// The same with contacts of its own.
fn finds_in<const L: usize, G: Ledger>(
    alloc: Global,
    store: &Store<L>,
    search: &Search<'_>,
    steps: &mut Steps<G>,
) -> Option<bool>
    requires inside { AreInside store.now.limit store.now.particles }
    requires links { search.now.links.now.particles ≡ length store.now.particles }
    requires low { pos 0 ≤ℤ search.now.thickness }
    requires high { search.now.thickness ≤ℤ pos 1048576 }
{
    match SelfContacts::open(alloc, store.len()) {
        Ok(mut contacts) => {
            let found = are_found(&mut contacts, store, search, steps);
            drop(contacts);
            Some(found)
        }
        Err(_) => None,
    }
}

// The same in a store of a width.
fn finds<const L: usize, G: Ledger>(
    alloc: Global,
    particles: &[Particle],
    search: &Search<'_>,
    steps: &mut Steps<G>,
) -> Option<bool>
    requires few { length particles.now ≤ 1024 }
    requires inside { AreInside (pos 536870912) particles.now }
    requires links { search.now.links.now.particles ≡ length particles.now }
    requires low { pos 0 ≤ℤ search.now.thickness }
    requires high { search.now.thickness ≤ℤ pos 1048576 }
{
    match Store::<L>::open(alloc, particles, RANGE) {
        Ok(store) => {
            let found = finds_in(alloc, &store, search, steps);
            drop(store);
            found
        }
        Err(_) => None,
    }
}

// Whether the wanted contacts are found at each width, where there is memory.
type Found = [Option<bool>; 5];

// What is found in stores of each width.
fn finds_counted<G: Ledger>(
    alloc: Global,
    blank: Blank,
    particles: &[Particle],
    search: &Search<'_>,
) -> Found
    requires name { blank.name ≡ G.name }
    requires parts { blank.parts ≡ G.parts }
    requires some { 0 < blank.parts }
    requires few { length particles.now ≤ 1024 }
    requires inside { AreInside (pos 536870912) particles.now }
    requires links { search.now.links.now.particles ≡ length particles.now }
    requires low { pos 0 ≤ℤ search.now.thickness }
    requires high { search.now.thickness ≤ℤ pos 1048576 }
{
    at_widths!(blank, finds(alloc, particles, search))
}

// Looks for a case's contacts, with its links.
fn finds_linked(alloc: Global, case: &Case<'_>, wanted: &[(u32, u32)]) -> Option<Found>
    requires few { length case.now.particles.now ≤ 1024 }
    requires inside { AreInside (pos 536870912) case.now.particles.now }
    requires low { pos 0 ≤ℤ case.now.thickness }
    requires high { case.now.thickness ≤ℤ pos 1048576 }
{
    match linked(alloc, case.particles.len() as u32, case.links) {
        Some(links) => {
            let search = Search {
                links: &links,
                thickness: case.thickness,
                wanted,
            };
            let found = finds_counted::<Brand>(alloc, Blank::new(1), case.particles, &search);
            drop(links);
            Some(found)
        }
        None => None,
    }
}

// Compares what is found at each width with all pairs. None where there is no memory, the case is out of range, or another number
// of pairs touch.
fn try_pairs(alloc: Global, case: &Case<'_>, wanted: &mut Vec<(u32, u32)>) -> Option<Found> {
    if case.particles.len() > 1024 {
        return None;
    }
    if !are_inside(case.particles) {
        return None;
    }
    if case.thickness < 0 {
        return None;
    }
    if case.thickness > 1_048_576 {
        return None;
    }
    if !push_touching(wanted, case) || wanted.len() != case.contacts {
        return None;
    }
    finds_linked(alloc, case, wanted.as_slice())
}

fn try_case(alloc: Global, case: &Case<'_>) -> Option<Found> {
    let mut wanted = Vec::new(alloc);
    let found = try_pairs(alloc, case, &mut wanted);
    drop(wanted);
    found
}

// Adds so many particles in a row.
fn push_row(particles: &mut Vec<Particle>, count: u32) -> bool {
    for x in 0..count {
        if particles.push(resting!(x as i64, 0, 0)).is_err() {
            return false;
        }
    }
    true
}

// Tries particles in a row, with no links.
fn try_row(alloc: Global, count: u32, thickness: i64, contacts: usize) -> Option<Found> {
    let mut particles = Vec::new(alloc);
    let pushed = push_row(&mut particles, count);
    let case = Case {
        particles: particles.as_slice(),
        links: &[],
        thickness,
        contacts,
    };
    let found = if pushed { try_case(alloc, &case) } else { None };
    drop(particles);
    found
}

/// Whether contacts are found at each width.
const ALL_FIND: Option<Found> = Some([Some(true); 5]);

macro_rules! case {
    ($particles:expr, $links:expr, $thickness:expr, $contacts:expr) => {
        Case {
            particles: $particles,
            links: $links,
            thickness: $thickness,
            contacts: $contacts,
        }
    };
}

const LINE: [Particle; 3] = in_line!(resting);

const BESIDE_ZERO: [Particle; 2] = beside_zero!(resting);

const PINNED: [Particle; 4] = [
    held!(0, 5, 0),
    resting!(3, 5, 0),
    held!(5, 5, 0),
    held!(0, 5, 3),
];

const EQUAL: [Particle; 4] = equal!(resting);

const CORNER: [Particle; 8] = corner!(resting);

const WIDE: [Particle; 7] = wide!(resting);

static CASES: [Case<'static>; 11] = [
    // 100 apart isn't nearer than 100.
    case!(&LINE, &[], 100, 2),
    case!(&LINE, &[(1, 0)], 100, 1),
    case!(&LINE, &[(0, 2)], 100, 2),
    case!(&LINE, &[], 0, 0),
    // On both sides of 0.
    case!(&BESIDE_ZERO, &[], 2, 1),
    // Two held ones don't touch, a held and a free one do.
    case!(&PINNED, &[], 6, 3),
    case!(&PINNED, &[(2, 1), (0, 3)], 6, 2),
    // Equal places are near at thickness 1, others aren't, and none is at 0.
    case!(&EQUAL, &[], 1, 3),
    case!(&EQUAL, &[], 0, 0),
    // On the edges of cells, and at the ends of the range.
    case!(&CORNER, &[], 2, 28),
    case!(&WIDE, &[], 1_048_576, 4),
];

#[test]
fn contacts_of_few_particles_are_found(rt: HostRuntime) -> Result<(), WrongRows> {
    let mut wrong = 0u32;
    for (number, case) in CASES.iter().enumerate() {
        let told = try_case(rt.alloc(), case);
        wrong = wrong.saturating_add(wrong_row(&rt, (&number, WIDTHS), &told, &ALL_FIND));
    }
    all_hold(wrong)
}

/// So many particles in a row, a thickness, and how many contacts there are: all pairs, first few, then nearly as many as there is
/// room for, and then more.
static ROWS: [(u32, i64, usize); 3] = [(70, 100, 2415), (724, 1000, 261_726), (725, 1000, 262_450)];

#[test]
fn contacts_of_particles_in_a_row_are_found(rt: HostRuntime) -> Result<(), WrongRows> {
    let mut wrong = 0u32;
    for row in &ROWS {
        let told = try_row(rt.alloc(), row.0, row.1, row.2);
        wrong = wrong.saturating_add(wrong_row(&rt, (row, WIDTHS), &told, &ALL_FIND));
    }
    all_hold(wrong)
}
