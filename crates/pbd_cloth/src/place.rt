//! Places as a caller in C has them.
ghost use Rattle.std.specs.Prelude.{◌≡◌};
ghost use Rattle.pbd_cloth.specs.Reading.{place_of};

use pbd_num::Vec3;

/// A place, in units of 1/65,536 metre.
#[repr(C)]
#[derive(Clone, Copy, Debug, PartialEq, Eq)]
pub struct Place {
    pub x: i64,
    pub y: i64,
    pub z: i64,
}

impl Place {
    /// A place, or a vector, of the solver's.
    pub fn of(v: Vec3) -> Place
        ensures { result ≡ place_of v }
    {
        Place {
            x: v.x,
            y: v.y,
            z: v.z,
        }
    }
}
