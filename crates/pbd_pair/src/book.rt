// The ledger of a bond's moves.
ghost use Rattle.std.specs.Prelude.{◌≡◌, ℕ, ◌≤◌, ◌^◌, ◌+◌, [], ◌∷◌};
ghost use Rattle.pbd_num.specs.Vectors.{Within};
ghost use Rattle.pbd_world.specs.Ledger.{ledger_of, booked, HaveRoom};
ghost use Rattle.pbd_world.specs.Bonds.{class_of, entries_of};

use pbd_num::Vec3;
use pbd_world::{Bond, Class, Shift, Totals};

/// Which of two ends are held.
#[derive(Clone, Copy)]
pub(crate) struct HeldEnds {
    pub(crate) first: bool,
    pub(crate) second: bool,
}

// Adds one move to the total of a class.
fn add(totals: &mut Totals, class: Class, by: Vec3)
    requires room { HaveRoom (2 ^ 126) (ledger_of totals.old) }
    requires short { Within (2 ^ 31) by }
    ensures value { ledger_of totals.new ≡ booked (ledger_of totals.old) ((class, by) ∷ []) }
    ensures room { (n : ℕ) → HaveRoom n (ledger_of totals.old) → HaveRoom (n + 2 ^ 31) (ledger_of totals.new) }
{
    totals.add(class, by);
}

/// Adds both moves of two free ends to the total of the bond's class, or the move of the free end alone to
/// that of pins. Where both ends are held, nothing is added.
pub(crate) fn book(totals: &mut Totals, held: HeldEnds, bond: Bond, shift: Shift)
    requires room { HaveRoom (2 ^ 125) (ledger_of totals.old) }
    requires first { Within (2 ^ 31) shift.first_move }
    requires second { Within (2 ^ 31) shift.second_move }
    ensures value { ledger_of totals.new ≡ booked (ledger_of totals.old) (entries_of held.first held.second (class_of bond) shift) }
    ensures room { (n : ℕ) → HaveRoom n (ledger_of totals.old) → HaveRoom (n + 2 ^ 32) (ledger_of totals.new) }
{
    let HeldEnds { first, second } = held;
    let class = if bond.contact {
        Class::Contact
    } else {
        Class::Link
    };
    if first {
        if !second {
            add(totals, Class::Pin, shift.second_move);
        }
    } else if second {
        add(totals, Class::Pin, shift.first_move);
    } else {
        add(totals, class, shift.first_move);
        add(totals, class, shift.second_move);
    }
}
