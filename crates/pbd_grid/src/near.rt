//! Whether two places are near.
ghost use Rattle.std.specs.Prelude.{◌≡◌, ◌≤◌, ◌^◌, pos};
ghost use Rattle.pbd_num.specs.Vectors.{Within};
ghost use Rattle.pbd_grid.specs.Near.{is_near};

use pbd_num::{Vec3, square};

// Whether two places are less than the thickness apart.
pub(crate) fn near(a: Vec3, b: Vec3, thickness: u32) -> bool
    requires a { Within (2 ^ 29) a }
    requires b { Within (2 ^ 29) b }
    requires thickness { thickness ≤ 1048576 }
    ensures { result ≡ is_near (pos thickness) a b }
{
    a.minus(b).squared_length() < square(i64::from(thickness))
}
