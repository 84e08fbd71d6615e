// The bonds of a chunk by rows of 32-bit numbers.
ghost use Rattle.std.specs.Prelude.{◌≡◌, ℕ, ◌+◌, ◌*◌, ◌<◌, ◌≤◌, ◌^◌, pos, neg_ℤ, ◌+ℤ◌, ◌-ℤ◌, ◌<ℤ◌, ◌≤ℤ◌, length, slice_index_or, take, unsigned_abs, IsTrue, OnOk};
ghost use Rattle.pbd_pair.specs.Prelude.{added, blocks_of, class_of, fixed_parts, ledger_of, minus, opposite, plus, row_in, vector_of, HaveRoom, Within};
ghost use Rattle.pbd_near.specs.Moves.{IsPulled};
ghost use Rattle.pbd_pair.specs.Bonds.{bond_of};
ghost use Rattle.pbd_pair.specs.Projecting.{CanProject, ComesTo, StaysSound};
ghost use Rattle.pbd_pair.specs.Moves.{moved_below};
ghost use Rattle.pbd_pair.specs.Laid.{number_in};
ghost use Rattle.pbd_pair.specs.Chunks.{kept_by, lying_in, AreInColumns, AreKnown, AreMoved, AreNear, AreSized, AreWeighed, HaveStiffness, IsFound, IsMasked};
ghost use Rattle.pbd_pair.specs.Told.{AreToldBy};

use crate::chunk::{Found, left_at};
use crate::mend::try_rows;
use crate::slow::{NO_MOVES, book_each, exact_each};
use crate::sums::{MoveSums, sums_of};
use crate::uneven::{Portions, share};
use crate::wide::{begins_long, least_of};
use pbd_near::Near;
use pbd_num::{CHUNK, Row, Vec3};
use pbd_store::{Steps, Store};
use pbd_world::{Class, Left, Totals};
use std::sync::ledger::Ledger;

/// How rows tell the moves of a chunk's bonds.
#[derive(Clone, Copy)]
pub(crate) enum Told {
    /// One row tells both moves of a bond. No end is held, so that the moves come to nothing.
    Alike,
    /// A row for each end, and what they come to.
    Apart(MoveSums),
    /// Rows tell some of them.
    InPart,
}

/// The moves of a chunk's bonds in 32-bit numbers.
#[derive(Clone, Copy)]
pub(crate) struct NearMoves {
    near: Near,
    /// A row of each bond: the move of its second end where that is free, and else the opposite of that of its first where
    /// that is; for unequal weights the whole correction, which is shared then.
    moves: [Row; CHUNK],
    /// The opposites of the moves of the first ends.
    back: [Row; CHUNK],
    /// The moves of the second ends.
    forth: [Row; CHUNK],
}

// The least of the effective weights of some pairs, or 65,535, which none is above.
#[inline(never)]
fn least_weight(first: &[i32], second: &[i32]) -> i32
    requires even { length second.now ≡ length first.now }
    requires weighed { AreWeighed (length first.now) first.now second.now }
    ensures first { (j : ℕ) → j < length first.now → result ≤ℤ number_in first.now j }
    ensures second { (j : ℕ) → j < length first.now → result ≤ℤ number_in second.now j }
{
    let mut least: i32 = 65_535;
    for j in 0..first.len() {
        least = least.min(first[j]).min(second[j]);
    }
    least
}

// A row where an end is free, and none where it is held.
#[inline(always)]
fn kept(weight: i32, row: Row) -> Row
    ensures { result ≡ kept_by weight row }
{
    if 0 < weight { row } else { Row::ZERO }
}

// The first of the rows of a chunk.
#[inline(always)]
fn first_of(rows: &[Row; CHUNK], count: usize) -> &[Row]
    requires { count ≤ 128 }
    ensures long { length result.now ≡ count }
    ensures value { result.now ≡ take count rows.now }
{
    &rows[..count]
}

// One axis of a sum of moves, and what two ends move more.
#[inline(always)]
fn with_axis(sum: i32, back: i32, forth: i32) -> i32
    requires sum { unsigned_abs sum ≤ 2 ^ 30 }
    requires back { unsigned_abs back ≤ 2 ^ 22 }
    requires forth { unsigned_abs forth ≤ 2 ^ 22 }
    ensures { result ≡ sum +ℤ (forth -ℤ back) }
{
    sum + (forth - back)
}

// A sum of moves, and what two ends move more. The moves of a chunk's bonds come to at most 2^30, so that 32 bits hold them.
#[inline(always)]
fn with_rows(sum: Row, back: Row, forth: Row) -> Row
    requires sum { Within (2 ^ 30) (vector_of sum) }
    requires back { Within (2 ^ 22) (vector_of back) }
    requires forth { Within (2 ^ 22) (vector_of forth) }
    ensures { vector_of result ≡ plus (vector_of sum) (minus (vector_of forth) (vector_of back)) }
{
    let x = with_axis(sum.x, back.x, forth.x);
    let y = with_axis(sum.y, back.y, forth.y);
    let z = with_axis(sum.z, back.z, forth.z);
    Row { x, y, z, flag: 0 }
}

// Adds what some ends move together to the total of a class.
fn book_sum(totals: &mut Totals, class: Class, moved: Vec3)
    requires room { HaveRoom (2 ^ 125) (ledger_of totals.old) }
    requires size { Within (2 ^ 30) moved }
    ensures value { ledger_of totals.new ≡ added (ledger_of totals.old) class moved }
    ensures room { (n m : ℕ) → Within m moved → HaveRoom n (ledger_of totals.old) → HaveRoom (n + m) (ledger_of totals.new) }
{
    totals.add(class, moved);
}

// The class of a chunk's bonds.
fn class_in(found: &Found<'_>) -> Class
    ensures { (n : ℕ) → class_of (bond_of found.now.chunk.bonds n) ≡ result }
{
    if found.chunk.bonds.are_contacts() {
        Class::Contact
    } else {
        Class::Link
    }
}

impl NearMoves {
    /// Zeros.
    pub(crate) fn new() -> NearMoves {
        NearMoves {
            near: Near::new(),
            moves: [Row::ZERO; CHUNK],
            back: [Row::ZERO; CHUNK],
            forth: [Row::ZERO; CHUNK],
        }
    }

    // Tries the parts of their corrections that some factors tell of a chunk's bonds. True where all of them are right.
    #[inline(always)]
    fn try_parts(&mut self, found: &Found<'_>, factors: &[i32]) -> bool
        requires few { length found.now.chunk.numbers.now ≤ 128 }
        requires columns { AreInColumns found.now }
        requires long { length found.now.chunk.numbers.now ≤ length factors.now }
        requires low { (j : ℕ) → j < length found.now.chunk.numbers.now → neg_ℤ (pos 1) ≤ℤ number_in factors.now j }
        requires high { (j : ℕ) → j < length found.now.chunk.numbers.now → number_in factors.now j ≤ℤ pos 512 }
        ensures long { length self.new.moves ≡ 128 }
        ensures flags { IsTrue result → (j : ℕ) → j < length found.now.chunk.numbers.now → (row_in self.new.moves j).flag ≡ pos 0 }
        ensures pulled { IsTrue result → (j : ℕ) → j < length found.now.chunk.numbers.now
            → IsPulled (vector_of (row_in found.now.ways.now j)) (number_in found.now.laid.rest.now j) (number_in factors.now j)
            (bond_of found.now.chunk.bonds (slice_index_or found.now.chunk.numbers.now j 0)).contact (vector_of (row_in self.new.moves j)) }
    {
        if begins_long(found) {
            return false;
        }
        self.near.run(
            first_of(found.ways, found.chunk.numbers.len()),
            found.laid.rest,
            factors,
            found.chunk.bonds.are_contacts(),
            &mut self.moves,
        )
    }

    // Tries the moves of a chunk's bonds in 32-bit numbers. True where all of them are right.
    fn try_short(&mut self, found: &Found<'_>) -> bool
        requires few { length found.now.chunk.numbers.now ≤ 128 }
        requires columns { AreInColumns found.now }
        ensures { IsTrue result → AreNear (bond_of found.now.chunk.bonds) found.now.chunk.numbers.now (lying_in found.now) self.new.moves }
    {
        if least_of(found.laid.factor) < 0 {
            return false;
        }
        self.try_parts(found, found.laid.factor)
    }

    // Tries both moves of each bond of a chunk in 32-bit numbers, whatever the weights of its ends: the whole of a correction
    // first, and then both shares of it. True where all of them are right.
    fn try_uneven(&mut self, found: &Found<'_>) -> bool
        requires few { length found.now.chunk.numbers.now ≤ 128 }
        requires columns { AreInColumns found.now }
        requires stiff { HaveStiffness found.now }
        ensures { IsTrue result → AreMoved (bond_of found.now.chunk.bonds) found.now.chunk.numbers.now (lying_in found.now)
            self.new.back self.new.forth }
    {
        if least_of(found.laid.stiffness) < 0 {
            return false;
        }
        let whole = [512; CHUNK];
        if !self.try_parts(found, &whole) {
            return false;
        }
        let portions = Portions {
            stiffness: found.laid.stiffness,
            guess: found.laid.portion,
            first: found.laid.first_weight,
            second: found.laid.second_weight,
        };
        share(portions, &self.moves, &mut self.back, &mut self.forth)
    }

    // Takes the moves from held ends. What is left of a bond's two moves is that of the free end beside a held one: all of
    // them together are told.
    #[inline(never)]
    fn mask(&mut self, found: &Found<'_>) -> Vec3
        requires few { length found.now.chunk.numbers.now ≤ 128 }
        requires first_long { length found.now.laid.first_weight.now ≡ length found.now.chunk.numbers.now }
        requires second_long { length found.now.laid.second_weight.now ≡ length found.now.chunk.numbers.now }
        requires sized { AreSized (length found.now.chunk.numbers.now) (lying_in found.now) }
        requires short { (j : ℕ) → j < length found.now.chunk.numbers.now → Within (2 ^ 22) (vector_of (row_in self.old.moves j)) }
        ensures masked { IsMasked (length found.now.chunk.numbers.now) (lying_in found.now) self.old.moves self.new.back self.new.forth }
        ensures sum { result ≡ moved_below (λ j. plus (opposite (vector_of (row_in self.new.back j))) (vector_of (row_in self.new.forth j)))
            (length found.now.chunk.numbers.now) }
        ensures size { Within (length found.now.chunk.numbers.now * 2 ^ 23) result }
    {
        // Slices of its own, so that no write makes the loop read them anew.
        let first = found.laid.first_weight;
        let second = found.laid.second_weight;
        let mut pins = Row::ZERO;
        for j in 0..found.chunk.numbers.len() {
            let row = self.moves[j];
            let back = kept(first[j], row);
            let forth = kept(second[j], row);
            self.back[j] = back;
            self.forth[j] = forth;
            pins = with_rows(pins, back, forth);
        }
        pins.vector()
    }

    // Tells the moves of a chunk's bonds by a row each, which tells both moves of a bond. Only where an end is held do any count.
    fn tell_masked(&mut self, found: &Found<'_>) -> Told
        requires few { length found.now.chunk.numbers.now ≤ 128 }
        requires columns { AreInColumns found.now }
        requires near { AreNear (bond_of found.now.chunk.bonds) found.now.chunk.numbers.now (lying_in found.now) self.old.moves }
        ensures { AreToldBy found.now self.new result }
    {
        let least = least_weight(found.laid.first_weight, found.laid.second_weight);
        let free = 0 < least;
        if free {
            return Told::Alike;
        }
        let pins = self.mask(found);
        Told::Apart(MoveSums {
            pins,
            own: Vec3::ZERO,
        })
    }

    // Tells the moves of a chunk's bonds by rows: of all of them, or else of some.
    fn tell(&mut self, found: &Found<'_>) -> Told
        requires known { AreKnown found.now.chunk.bonds found.now.chunk.numbers.now }
        requires columns { AreInColumns found.now }
        requires stiff { HaveStiffness found.now }
        ensures { AreToldBy found.now self.new result }
    {
        if self.try_short(found) {
            return self.tell_masked(found);
        }
        if self.try_uneven(found) {
            return Told::Apart(sums_of(found, &self.back, &self.forth));
        }
        if try_rows(found, &mut self.moves) {
            return self.tell_masked(found);
        }
        Told::InPart
    }

    /// Projects a chunk of bonds: side by side where rows tell the moves of all of them, else one by one.
    pub(crate) fn project<const L: usize, G: Ledger>(
        &mut self,
        store: &mut Store<L>,
        found: &Found<'_>,
        totals: &mut Totals,
        steps: &mut Steps<G>,
    ) -> Result<(), Left>
        requires some_lanes { 0 < L }
        requires lanes { L ≤ 16 }
        requires can { CanProject 128 found.now.chunk.bonds found.now.chunk.numbers.now store.old totals.old }
        requires found { IsFound store.old.particles found.now }
        ensures outcome { ComesTo found.now.chunk.bonds found.now.chunk.numbers.now store.old store.new totals.old totals.new result }
        ensures limit { store.new.limit ≡ store.old.limit }
        ensures copies { store.new.copies ≡ store.old.copies }
        ensures fixed { fixed_parts store.new.particles ≡ fixed_parts store.old.particles }
        ensures sound { OnOk result (StaysSound (length found.now.chunk.numbers.now) store.old store.new totals.old totals.new) }
        ensures cost { steps.new ≡ steps.old + 2 * blocks_of (length found.now.chunk.numbers.now) L }
    {
        match self.tell(found) {
            Told::Alike => {
                if let Err(j) = store.pull(found.pairs, &self.moves, &self.moves, steps) {
                    return Err(left_at(found, j));
                }
                Ok(())
            }
            Told::Apart(sums) => {
                if let Err(j) = store.pull(found.pairs, &self.back, &self.forth, steps) {
                    return Err(left_at(found, j));
                }
                book_sum(totals, Class::Pin, sums.pins);
                book_sum(totals, class_in(found), sums.own);
                Ok(())
            }
            Told::InPart => {
                let mut moves = [NO_MOVES; CHUNK];
                exact_each(found, &self.moves, &mut moves);
                if let Err(j) = store.move_each(found.pairs, &moves, steps) {
                    return Err(left_at(found, j));
                }
                book_each(totals, found, &moves);
                Ok(())
            }
        }
    }
}
