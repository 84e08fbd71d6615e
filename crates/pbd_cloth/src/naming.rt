//! The name of a cloth's scene.
ghost use Rattle.std.specs.Prelude.{◌≡◌};
ghost use Rattle.pbd_state.specs.Naming.{scene_name as name_of};
ghost use Rattle.pbd_cloth.specs.Slots.{AreSlots};

use crate::Cloth;
use crate::counted::name_counted;
use std::marker::Brand;
use std::sync::ledger::Blank;

impl Cloth {
    /// The name of the scene: the SHA-256 digest of all that no command changes.
    pub fn scene_name(&self) -> [u8; 32]
        ensures value { result ≡ name_of self.now.world }
        ensures sound { AreSlots self.now.world self.now.slots }
    {
        name_counted::<Brand>(Blank::new(1), &self.playing.solver().shown())
    }
}
