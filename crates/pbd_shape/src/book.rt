// What a move by a shape or by friction leaves in the ledger and in the flags.
ghost use Rattle.std.specs.Prelude.{◌≡◌, ℕ, ◌<◌, ◌^◌, ◌+◌, true, length, slice_set, if◌then◌else◌};
ghost use Rattle.pbd_num.specs.Vectors.{Within};
ghost use Rattle.pbd_world.specs.Ledger.{added, ledger_of, HaveRoom};
ghost use Rattle.pbd_world.specs.declared.totals.Class.TheVariants as classes;

use crate::touched::Touched;
use pbd_num::Vec3;
use pbd_world::{Class, Totals};

/// Adds a move to the total of shapes, if it is made.
pub(crate) fn book_if(totals: &mut Totals, made: bool, by: Vec3)
    requires room { HaveRoom (2 ^ 126) (ledger_of totals.old) }
    requires short { Within (2 ^ 31) by }
    ensures value { ledger_of totals.new ≡ (if made then added (ledger_of totals.old) classes.Shape by else ledger_of totals.old) }
    ensures room { (n : ℕ) → HaveRoom n (ledger_of totals.old) → HaveRoom (n + 2 ^ 31) (ledger_of totals.new) }
{
    if made {
        totals.add(Class::Shape, by);
    }
}

/// Particle i is touched, if a shape touches it now.
pub(crate) fn touch_if(touched: &mut Touched, i: u32, now: bool)
    requires { i < length touched.old }
    ensures { touched.new ≡ (if now then slice_set touched.old i true else touched.old) }
{
    if now {
        touched.set(i);
    }
}
