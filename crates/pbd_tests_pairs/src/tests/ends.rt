//! Pairs of particles of a store at each width: what lies between their ends, and how the ends move.
ghost use Rattle.std.specs.Prelude.{◌≡◌, ◌+◌, ◌*◌, ◌<◌, ◌≤◌, length, IfSome, IsTrue};
ghost use Rattle.std.specs.List.{list_all};
ghost use Rattle.pbd_store.specs.Blocks.{blocks_of};
ghost use Rattle.pbd_store.specs.Moving.{AreInside, fixed_parts};
ghost use Rattle.pbd_store.specs.Pairs.{ArePairs, PairsApart};
ghost use Rattle.pbd_tests_pairs.specs.Drawn.{may_part};

use super::end_checks::{are_moves, are_short};
use super::ends_rows::{Case, DRAWINGS, Drawing, Trial};
use pbd_num::{Row, Vec3};
use pbd_store::{Between, Pairs, Steps, Store};
use pbd_tests_rows::{WIDTHS, WrongRows, all_hold, at_widths, wrong_row};
use pbd_world::Particle;
use std::alloc::Global;
use std::io::Eprint;
use std::marker::Brand;
use std::sync::ledger::{Blank, Ledger};

// What particle i is to be: as it was, but for its place where it is one of those that have moved. It is taken off the count of
// these then.
fn wanted_at(
    i: u32,
    particles: &[Particle],
    moved: &[(u32, Vec3)],
    left: &mut usize,
) -> Option<Particle> {
    let mut particle = *particles.get(i as usize)?;
    for (k, place) in moved {
        if *k == i {
            particle.at = *place;
            *left = left.saturating_sub(1);
        }
    }
    Some(particle)
}

// Whether the particles of a store are as they were, but that these are at other places.
fn have_moved<G: Ledger, const L: usize>(
    store: &Store<L>,
    particles: &[Particle],
    moved: &[(u32, Vec3)],
    steps: &mut Steps<G>,
) -> bool
    ensures { steps.new ≡ steps.old + length store.now.particles }
{
    let mut left = moved.len();
    let mut holds = particles.len() == store.len() as usize;
    for i in 0..store.len() {
        let now = Some(store.at(i, steps));
        holds &= now == wanted_at(i, particles, moved, &mut left);
    }
    holds && left == 0
}

// Whether what lies between the ends of pairs is this.
fn is_between(between: &Between, wanted: &[([i32; 3], [i32; 2])]) -> bool
    requires { length wanted.now ≤ 128 }
{
    for (j, (way, weights)) in wanted.iter().enumerate() {
        let row = Row {
            x: way[0],
            y: way[1],
            z: way[2],
            flag: 0,
        };
        let told = [between.first_weight[j], between.second_weight[j]];
        if between.ways[j] != row || told != *weights {
            return false;
        }
    }
    true
}

/// Whether a trial on the ends of a store's pairs is answered as its case says. They are reached once. None where the call may not
/// be made with what its case hands it.
fn answers_so<G: Ledger, const L: usize>(
    store: &mut Store<L>,
    pairs: Pairs<'_>,
    case: &Case,
    steps: &mut Steps<G>,
) -> Option<bool>
    requires low { 0 < L }
    requires high { L ≤ 16 }
    requires pairs { ArePairs (length pairs.first.now) (length store.old.particles) pairs }
    requires apart { PairsApart (length pairs.first.now) pairs }
    requires inside { AreInside store.old.limit store.old.particles }
    ensures cost { IfSome result (λ _. steps.new ≡ steps.old + 2 * blocks_of (length pairs.entry.first.now) L) }
    ensures fixed { fixed_parts store.new.particles ≡ fixed_parts store.old.particles }
{
    let count = pairs.first.len();
    match case.trial {
        Trial::Read(wanted) => {
            if wanted.len() != count {
                return None;
            }
            let mut between = Between::new();
            store.between(pairs, &mut between, steps);
            let holds = is_between(&between, wanted);
            drop(between);
            Some(holds)
        }
        Trial::Pull(back, forth) => {
            if !are_short(back, count) || !are_short(forth, count) {
                return None;
            }
            Some(store.pull(pairs, back, forth, steps) == case.answer)
        }
        Trial::Move(moves) => {
            if !are_moves(moves, count) {
                return None;
            }
            Some(store.move_each(pairs, moves, steps) == case.answer)
        }
    }
}

/// A store of a drawing's particles. None where there is no memory.
fn store_of<const L: usize>(alloc: Global, drawing: &Drawing) -> Option<Store<L>>
    requires { IsTrue (may_part drawing.now.limit drawing.now.particles.now drawing.now.pairs) }
    ensures particles { IfSome result (λ s. s.particles ≡ drawing.now.particles.now) }
    ensures pairs { IfSome result (λ s. ArePairs (length drawing.now.pairs.first.now) (length s.particles) drawing.now.pairs) }
    ensures apart { IfSome result (λ _. PairsApart (length drawing.now.pairs.first.now) drawing.now.pairs) }
    ensures inside { IfSome result (λ s. AreInside s.limit s.particles) }
{
    match Store::open(alloc, drawing.particles, drawing.limit) {
        Ok(store) => Some(store),
        Err(_) => None,
    }
}

/// Whether a case comes to what it says. Its ends are reached once, and then each particle is looked at. None where there is no
/// memory, or the case's call may not be made.
fn comes_to<const L: usize, G: Ledger>(
    alloc: Global,
    drawing: &Drawing,
    case: &Case,
    steps: &mut Steps<G>,
) -> Option<bool>
    requires low { 0 < L }
    requires high { L ≤ 16 }
    requires drawn { IsTrue (may_part drawing.now.limit drawing.now.particles.now drawing.now.pairs) }
    ensures { IfSome result (λ _. steps.new ≡ steps.old + 2 * blocks_of (length drawing.now.pairs.first.now) L
        + length drawing.now.particles.now) }
{
    match store_of::<L>(alloc, drawing) {
        Some(mut store) => {
            let answered = answers_so(&mut store, drawing.pairs, case, steps);
            let moved = have_moved(&store, drawing.particles, case.moved, steps);
            drop(store);
            match answered {
                Some(as_told) => Some(as_told & moved),
                None => None,
            }
        }
        None => None,
    }
}

/// So often each call on seventeen pairs reaches a store of 1, 2, 4, 8 and 16 lanes.
fn seventeen_pairs_are_reached()
    ensures one { 2 * blocks_of 17 1 ≡ 34 }
    ensures two { 2 * blocks_of 17 2 ≡ 18 }
    ensures four { 2 * blocks_of 17 4 ≡ 10 }
    ensures eight { 2 * blocks_of 17 8 ≡ 6 }
    ensures sixteen { 2 * blocks_of 17 16 ≡ 4 }
{}

/// One where a case doesn't come to what it says at each width, which is told then, and else nothing.
fn wrong_case<G: Ledger>(
    rt: &impl Eprint,
    alloc: Global,
    blank: Blank,
    drawing: &Drawing,
    case: &Case,
) -> u32
    requires name { blank.name ≡ G.name }
    requires parts { blank.parts ≡ G.parts }
    requires some { 0 < blank.parts }
    requires drawn { IsTrue (may_part drawing.now.limit drawing.now.particles.now drawing.now.pairs) }
{
    let told = at_widths!(blank, comes_to(alloc, drawing, case));
    wrong_row(rt, (&case.name, WIDTHS), &told, &[Some(true); 5])
}

/// How many cases of a drawing don't come to what they say.
fn wrong_cases(rt: &impl Eprint, alloc: Global, drawing: &Drawing) -> u32
    requires { IsTrue (may_part drawing.now.limit drawing.now.particles.now drawing.now.pairs) }
{
    let mut wrong = 0u32;
    for case in drawing.cases {
        let told = wrong_case::<Brand>(rt, alloc, Blank::new(1), drawing, case);
        wrong = wrong.saturating_add(told);
    }
    wrong
}

/// How many cases of all drawings don't.
fn wrong_drawings(rt: &impl Eprint, alloc: Global, drawings: &[Drawing]) -> u32
    requires { IsTrue (list_all (λ (d : Drawing). may_part d.limit d.particles.now d.pairs) drawings.now) }
{
    let mut wrong = 0u32;
    for drawing in drawings {
        wrong = wrong.saturating_add(wrong_cases(rt, alloc, drawing));
    }
    wrong
}

#[test]
fn ends_are_read_pulled_and_moved_at_each_width(rt: HostRuntime) -> Result<(), WrongRows> {
    all_hold(wrong_drawings(&rt, rt.alloc(), &DRAWINGS))
}
