//! Rows of four numbers of 32 bits.
ghost use Rattle.std.specs.Prelude.{◌≡◌};
ghost use Rattle.pbd_num.specs.Rows.{vector_of};

use crate::Vec3;

/// A way, or a move, whose axes fit 32 bits, in units of 1/65,536 metre, and a flag: a row of four numbers, which a
/// processor takes at once.
#[derive(Clone, Copy, Debug, PartialEq, Eq)]
pub struct Row {
    pub x: i32,
    pub y: i32,
    pub z: i32,
    pub flag: i32,
}

impl Row {
    /// No way, and no flag.
    pub const ZERO: Row = Row {
        x: 0,
        y: 0,
        z: 0,
        flag: 0,
    };

    /// The three axes.
    #[inline(always)]
    pub fn vector(self) -> Vec3
        ensures { result ≡ vector_of self }
    {
        Vec3 {
            x: i64::from(self.x),
            y: i64::from(self.y),
            z: i64::from(self.z),
        }
    }
}
