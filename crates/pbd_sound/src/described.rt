// What a description tells of a world, number by number.
ghost use Rattle.std.specs.Prelude.{◌≡◌, ◌<◌};
ghost use Rattle.pbd_world.specs.Ledger.{ledger_of};
ghost use Rattle.pbd_sound.specs.Described.{Description};

use pbd_num::Vec3;
use pbd_world::{Class, Totals};

/// What can't be in a sound world.
#[derive(Clone, Copy, Debug, PartialEq, Eq)]
pub enum Unsound {
    /// More than 1,000,000 steps.
    Steps,
    /// Gravity outside the limit.
    Gravity,
    /// The place of a particle outside the limit.
    Place(u32),
    /// The place before of a particle outside the limit.
    Before(u32),
    /// The flag of a particle: one that a track names and that isn't held, or another that is held and not at rest.
    Held(u32),
    /// More than 262,144 contacts.
    Contacts,
    /// A total: one that can't have grown so far, or the pin total where momentum is not the opening momentum and the
    /// six totals together.
    Total(Class),
}

/// What tells, item by item, all that commands change of a world.
pub trait Described {
    ghost seen: { Self → Description };

    fn steps(&self) -> u64
        ensures { result ≡ (seen self.now).steps };

    fn gravity(&self) -> Vec3
        ensures { result ≡ (seen self.now).gravity };

    /// The place of particle i.
    fn place(&self, i: u32) -> Vec3
        requires { i < (seen self.now).particles }
        ensures { result ≡ (seen self.now).at i };

    /// The place of particle i a step before.
    fn before(&self, i: u32) -> Vec3
        requires { i < (seen self.now).particles }
        ensures { result ≡ (seen self.now).before i };

    /// Whether particle i is held.
    fn is_held(&self, i: u32) -> bool
        requires { i < (seen self.now).particles }
        ensures { result ≡ (seen self.now).held i };

    /// Whether link l is live.
    fn is_live(&self, l: u32) -> bool
        requires { l < (seen self.now).links }
        ensures { result ≡ (seen self.now).live l };

    /// The contacts of the last step.
    fn contacts(&self) -> u32
        ensures { result ≡ (seen self.now).contacts };

    fn totals(&self) -> Totals
        ensures { ledger_of result ≡ (seen self.now).totals };
}
