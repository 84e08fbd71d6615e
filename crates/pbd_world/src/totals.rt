// The ledger: six totals that say where momentum came from.
ghost use Rattle.std.specs.Prelude.{◌≡◌, ◌+ℤ◌, FitsSigned};
ghost use Rattle.std.specs.Int.{w128};

use pbd_num::Vec3;

/// What changed the momentum, in the ledger.
#[derive(Clone, Copy, Debug, PartialEq, Eq)]
pub enum Class {
    Gravity,
    Damping,
    Link,
    Contact,
    Pin,
    Shape,
}

/// Where momentum came from since opening, by what made it: each total is three axes, in units per step.
#[derive(Clone, Copy, Debug, PartialEq, Eq)]
pub struct Totals {
    pub gravity: [i128; 3],
    pub damping: [i128; 3],
    pub link: [i128; 3],
    pub contact: [i128; 3],
    pub pin: [i128; 3],
    pub shape: [i128; 3],
}

fn wider(total: i128, by: i64) -> i128
    requires { FitsSigned w128 (total +ℤ by) }
    ensures { result ≡ total +ℤ by }
{
    total + i128::from(by)
}

impl Totals {
    ghost use Rattle.pbd_world.specs.Ledger.{
      added,
      ledger_of,
      sum_of,
      sum_plus,
      total_of,
      zero_totals,
      SumFits,
    };

    /// Nothing has moved yet.
    pub fn zero() -> Totals
        ensures { ledger_of result ≡ zero_totals }
    {
        Totals {
            gravity: [0; 3],
            damping: [0; 3],
            link: [0; 3],
            contact: [0; 3],
            pin: [0; 3],
            shape: [0; 3],
        }
    }

    fn sum_with(sum: [i128; 3], by: Vec3) -> [i128; 3]
        requires { SumFits (sum_plus (sum_of sum) by) }
        ensures { sum_of result ≡ sum_plus (sum_of sum) by }
    {
        [
            wider(sum[0], by.x),
            wider(sum[1], by.y),
            wider(sum[2], by.z),
        ]
    }

    /// Adds a move to the total of one class. Its three sums have to fit 128 bits.
    pub fn add(&mut self, class: Class, by: Vec3)
        requires { SumFits (sum_plus (total_of (ledger_of self.old) class) by) }
        ensures { ledger_of self.new ≡ added (ledger_of self.old) class by }
    {
        match class {
            Class::Gravity => self.gravity = Totals::sum_with(self.gravity, by),
            Class::Damping => self.damping = Totals::sum_with(self.damping, by),
            Class::Link => self.link = Totals::sum_with(self.link, by),
            Class::Contact => self.contact = Totals::sum_with(self.contact, by),
            Class::Pin => self.pin = Totals::sum_with(self.pin, by),
            Class::Shape => self.shape = Totals::sum_with(self.shape, by),
        }
    }
}
