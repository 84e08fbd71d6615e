//! The moves of short bonds, up to a chunk together: five loops over columns of 32-bit numbers, which divide by 2 alone, choose
//! between numbers where others branch, and in which no sum, difference or product wraps. The first takes the ways over, three
//! guess, and the last tests what they guessed, so that nothing has to be known of a guess: a move whose tests fail is flagged.
#![tactic(auto)]

ghost use Rattle.std.specs.Prelude.{◌≡◌, ℕ, ◌<◌, ◌≤◌, ◌≤ℤ◌, pos, neg_ℤ, length, slice_index_or, unsigned_abs, IsTrue, if◌then◌else◌};
ghost use Rattle.pbd_num.specs.Rows.{vector_of, no_row};
ghost use Rattle.pbd_near.specs.Moves.{IsPulled};
ghost use Rattle.pbd_near.specs.Columns.{IsFound, taken_at};

mod guesses;
mod products;
mod shares;
mod ways;

use guesses::Guesses;
use pbd_num::Row;
use shares::pull_of;
use ways::Ways;

/// The columns of a chunk, in which each loop finds what those before it wrote. Who projects bonds keeps them for the next chunk.
#[derive(Clone, Copy)]
pub struct Near {
    ways: Ways,
    guesses: Guesses,
}

// The least error of a bond that isn't pulled: an error is less than 2^15.
#[inline(always)]
fn slack_of(contact: bool) -> i32
    ensures { result ≡ (if contact then pos 0 else pos 32768) }
{
    if contact { 0 } else { 32_768 }
}

impl Near {
    /// Columns of zeros.
    pub fn new() -> Near {
        Near {
            ways: Ways::new(),
            guesses: Guesses::new(),
        }
    }

    /// The moves of the second ends of as many bonds as there are ways. False where one is flagged.
    #[inline(never)]
    fn moves(&self, rest: &[i32], factor: &[i32], contact: bool, moves: &mut [Row]) -> bool
        requires count { self.now.ways.count ≤ 128 }
        requires rest_room { self.now.ways.count ≤ length rest.now }
        requires factor_room { self.now.ways.count ≤ length factor.now }
        requires moves_room { self.now.ways.count ≤ length moves.old }
        requires x { (j : ℕ) → j < self.now.ways.count → unsigned_abs (slice_index_or self.now.ways.x j (pos 0)) ≤ 32768 }
        requires y { (j : ℕ) → j < self.now.ways.count → unsigned_abs (slice_index_or self.now.ways.y j (pos 0)) ≤ 32768 }
        requires z { (j : ℕ) → j < self.now.ways.count → unsigned_abs (slice_index_or self.now.ways.z j (pos 0)) ≤ 32768 }
        requires rest_low { (j : ℕ) → j < self.now.ways.count → pos 0 ≤ℤ slice_index_or rest.now j (pos 0) }
        requires rest_high { (j : ℕ) → j < self.now.ways.count → slice_index_or rest.now j (pos 0) ≤ℤ pos 16383 }
        requires factor_low { (j : ℕ) → j < self.now.ways.count → neg_ℤ (pos 1) ≤ℤ slice_index_or factor.now j (pos 0) }
        requires factor_high { (j : ℕ) → j < self.now.ways.count → slice_index_or factor.now j (pos 0) ≤ℤ pos 512 }
        ensures each { (j : ℕ) → j < self.now.ways.count → IsFound (taken_at self.now.ways j) (slice_index_or rest.now j (pos 0))
            (slice_index_or factor.now j (pos 0)) contact (slice_index_or moves.new j no_row) }
        ensures all { IsTrue result → (j : ℕ) → j < self.now.ways.count → (slice_index_or moves.new j no_row).flag ≡ pos 0 }
        ensures only { ((j : ℕ) → j < self.now.ways.count → (slice_index_or moves.new j no_row).flag ≡ pos 0) → IsTrue result }
    {
        let slack = slack_of(contact);
        let mut all = true;
        for j in 0..self.ways.count {
            let pull = pull_of(self.guesses.guess(j), rest[j], factor[j], slack);
            let row = pull.row(self.ways.taken(j));
            all = all & (row.flag == 0);
            moves[j] = row;
        }
        all
    }

    /// What bonds move their second ends by, where the way of a bond leads from its second end to its first, and each move is
    /// the part `factor` / 512 of how far the way is from the length `rest`: that is the move of one of two free ends of one
    /// weight, with `factor` as stiffness, and of a free end beside a held one with half of it. Where `contact` is set, a bond
    /// that isn't shorter than its rest length does nothing.
    ///
    /// A move with a flag other than 0 may be anything, and the answer is true exactly where there is none: flagged are
    /// bonds from half a metre up (32,768 units), those of length 0, those with a factor of -1, and those of which a guess
    /// fails its test.
    pub fn run(
        &mut self,
        ways: &[Row],
        rest: &[i32],
        factor: &[i32],
        contact: bool,
        moves: &mut [Row],
    ) -> bool
        requires count { length ways.now ≤ 128 }
        requires rest_room { length ways.now ≤ length rest.now }
        requires factor_room { length ways.now ≤ length factor.now }
        requires moves_room { length ways.now ≤ length moves.old }
        requires rest_low { (j : ℕ) → j < length ways.now → pos 0 ≤ℤ slice_index_or rest.now j (pos 0) }
        requires rest_high { (j : ℕ) → j < length ways.now → slice_index_or rest.now j (pos 0) ≤ℤ pos 16383 }
        requires factor_low { (j : ℕ) → j < length ways.now → neg_ℤ (pos 1) ≤ℤ slice_index_or factor.now j (pos 0) }
        requires factor_high { (j : ℕ) → j < length ways.now → slice_index_or factor.now j (pos 0) ≤ℤ pos 512 }
        ensures each { (j : ℕ) → j < length ways.now → (slice_index_or moves.new j no_row).flag ≡ pos 0
            → IsPulled (vector_of (slice_index_or ways.now j no_row)) (slice_index_or rest.now j (pos 0))
            (slice_index_or factor.now j (pos 0)) contact (vector_of (slice_index_or moves.new j no_row)) }
        ensures all { IsTrue result → (j : ℕ) → j < length ways.now → (slice_index_or moves.new j no_row).flag ≡ pos 0 }
        ensures only { ((j : ℕ) → j < length ways.now → (slice_index_or moves.new j no_row).flag ≡ pos 0) → IsTrue result }
    {
        self.ways.squares(ways);
        self.guesses.seeds(&self.ways);
        self.guesses.roots(&self.ways);
        self.guesses.pulls(&self.ways, rest);
        self.moves(rest, factor, contact, moves)
    }
}
