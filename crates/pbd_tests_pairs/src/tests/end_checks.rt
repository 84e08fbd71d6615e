// Tests that the ways and moves of a case are put to before it is tried: they ask at least what calls on the ends of pairs ask.
ghost use Rattle.std.specs.Prelude.{IsTrue};
ghost use Rattle.pbd_store.specs.Pairs.{AreShort, AreMoves};

use pbd_num::Row;
use pbd_store::EndMoves;
use pbd_tests_rows::is_within;

// Whether there are so many ways, all of them of at most 2^16 an axis and without a flag.
pub(crate) fn are_short(ways: &[Row], count: usize) -> bool
    ensures { IsTrue result → AreShort count ways.now }
{
    for way in ways {
        if way.flag != 0 || !is_within(way.vector(), 1 << 16) {
            return false;
        }
    }
    ways.len() == count
}

// Whether there are so many moves, all of them of at most 2^31 an axis.
pub(crate) fn are_moves(moves: &[EndMoves], count: usize) -> bool
    ensures { IsTrue result → AreMoves count moves.now }
{
    for pair in moves {
        let first = is_within(pair.first, 1 << 31);
        let second = is_within(pair.second, 1 << 31);
        if !first || !second {
            return false;
        }
    }
    moves.len() == count
}
