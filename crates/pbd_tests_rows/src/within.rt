//! Whether a vector is within a bound, of any size.
ghost use Rattle.std.specs.Prelude.{◌≤◌, IsTrue, unsigned_abs};
ghost use Rattle.pbd_num.specs.Vectors.{Within};

use pbd_num::Vec3;

// Whether an axis is within a bound.
fn is_axis_within(axis: i64, bound: u64) -> bool
    ensures { IsTrue result → unsigned_abs axis ≤ bound }
{
    axis.unsigned_abs() <= bound
}

/// Whether each axis is within a bound.
pub fn is_within(v: Vec3, bound: u64) -> bool
    ensures { IsTrue result → Within bound v }
{
    let x = is_axis_within(v.x, bound);
    let y = is_axis_within(v.y, bound);
    let z = is_axis_within(v.z, bound);
    x && y && z
}
