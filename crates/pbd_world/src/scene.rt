// A scene: parts that are valid.
use crate::{Parts, valid};
use std::alloc::Global;
use std::marker::Model;

/// Why parts are no scene.
#[derive(Clone, Copy, Debug, PartialEq, Eq)]
pub enum PartsFault {
    /// Some part is not in its range, or parts do not fit together.
    NotValid,
    /// There was no memory for the check.
    OutOfMemory,
}

/// Parts that are valid.
#[derive(Drop)]
pub struct Scene {
    parts: Parts,
}

impl Model for Scene {
    ghost use Rattle.std.specs.Prelude.{IsTrue};
    ghost use Rattle.pbd_world.specs.declared.parts.Parts.{Parts};
    ghost use Rattle.pbd_world.specs.Valid.{is_valid};

    ghost Value = { Parts };

    ghost view = { λ s. s.parts };

    ghost invariant = { λ s. IsTrue (is_valid s.parts) };
}

impl Scene {
    ghost use Rattle.std.specs.Prelude.{◌≡◌, IsTrue, IfOk, IfErr, OnOk, false};
    ghost use Rattle.pbd_world.specs.declared.scene.PartsFault.TheVariants.{NotValid};
    ghost use Rattle.pbd_world.specs.Valid.{is_valid};

    /// Checks the parts in time in proportion to them. `NotValid` comes only where they are not
    /// valid, and `OutOfMemory` where there was no memory for the check; they are dropped then.
    pub fn from_parts(alloc: Global, parts: Parts) -> Result<Scene, PartsFault>
        ensures ok { IfOk result (λ scene. scene ≡ parts) }
        ensures valid { OnOk result (IsTrue (is_valid parts)) }
        ensures not_valid { IfErr result (λ fault. fault ≡ NotValid → is_valid parts ≡ false) }
    {
        match valid::is_valid(alloc, &parts) {
            Ok(true) => Ok(Scene { parts }),
            Ok(false) => Err(PartsFault::NotValid),
            Err(_) => Err(PartsFault::OutOfMemory),
        }
    }

    /// What the scene consists of.
    pub fn parts(&self) -> &Parts
        ensures parts { result.now ≡ self.now }
        ensures valid { IsTrue (is_valid self.now) }
    {
        &self.parts
    }

    /// Gives the parts back.
    pub fn into_parts(self) -> Parts
        ensures parts { result ≡ self }
        ensures valid { IsTrue (is_valid self) }
    {
        self.parts
    }
}
