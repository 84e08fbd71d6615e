// The rules that a scene may break, and where.
ghost use Rattle.std.specs.Prelude.{◌≡◌};
ghost use Rattle.pbd_scene.specs.declared.fault.SceneFault.TheVariants.{OutOfMemory};
ghost use Rattle.pbd_scene.specs.Keys.{rule_number, rule_text};

use crate::tables::{KeyName, TableName};
use std::alloc::{AllocError, AllocFailed};
use std::fmt;

/// A rule that a scene may break.
#[derive(Clone, Copy, Debug, PartialEq, Eq)]
pub enum SceneRule {
    /// A table has a key that isn't one of its own.
    UnknownKey,
    /// A key that must be there isn't.
    MissingKey,
    /// A value is of another kind.
    WrongType,
    /// A value of the right kind is out of its range, or a place that values give together is beyond the limit.
    OutOfRange,
    /// There are more entries, pins, keys of a track, particles or links than allowed.
    TooMany,
    /// A number names no particle.
    BadIndex,
    /// A link joins a particle to itself.
    SelfLink,
    /// A second link joins the same two particles.
    DoubleLink,
    /// A particle has more than 32 links.
    TooManyAtParticle,
    /// A track has no keys, steps that don't increase, or a particle that an earlier track names.
    BadTrack,
}

impl SceneRule {
    /// 2 to 11, in the order above.
    pub fn number(&self) -> u8
        ensures { result ≡ rule_number self.now }
    {
        match self {
            SceneRule::UnknownKey => 2,
            SceneRule::MissingKey => 3,
            SceneRule::WrongType => 4,
            SceneRule::OutOfRange => 5,
            SceneRule::TooMany => 6,
            SceneRule::BadIndex => 7,
            SceneRule::SelfLink => 8,
            SceneRule::DoubleLink => 9,
            SceneRule::TooManyAtParticle => 10,
            SceneRule::BadTrack => 11,
        }
    }

    /// The rule's name.
    pub fn name(&self) -> &'static str
        ensures { result.now ≡ rule_text self.now }
    {
        match self {
            SceneRule::UnknownKey => "UnknownKey",
            SceneRule::MissingKey => "MissingKey",
            SceneRule::WrongType => "WrongType",
            SceneRule::OutOfRange => "OutOfRange",
            SceneRule::TooMany => "TooMany",
            SceneRule::BadIndex => "BadIndex",
            SceneRule::SelfLink => "SelfLink",
            SceneRule::DoubleLink => "DoubleLink",
            SceneRule::TooManyAtParticle => "TooManyAtParticle",
            SceneRule::BadTrack => "BadTrack",
        }
    }
}

impl fmt::Display for SceneRule {
    fn fmt<W: fmt::Write>(&self, f: &mut fmt::Formatter<W>) -> Result<(), fmt::Error> {
        f.write_str(self.name())
    }
}

/// Why a text is no scene.
#[derive(Clone, Copy, Debug, PartialEq, Eq)]
pub enum SceneFault {
    /// The text is no TOML document, or one that is deeper or longer than is read.
    NotToml,
    /// The first rule that the scene breaks, with the table, the position in its array from 0, and the key.
    Refused {
        rule: SceneRule,
        table: TableName,
        position: u32,
        key: KeyName,
    },
    OutOfMemory,
}

impl From<AllocError> for SceneFault {
    ghost from_gives = { λ _ e. e ≡ OutOfMemory };

    fn from(_: AllocError) -> Self {
        SceneFault::OutOfMemory
    }
}

impl<T: Drop> From<AllocFailed<T>> for SceneFault {
    ghost from_gives = { λ _ e. e ≡ OutOfMemory };

    fn from(_: AllocFailed<T>) -> Self {
        SceneFault::OutOfMemory
    }
}

/// A table of the scene and the position of an entry in it.
#[derive(Clone, Copy)]
pub struct Place {
    pub table: TableName,
    pub position: u32,
}
