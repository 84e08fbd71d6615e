// Numbers that are known to be short: processors multiply those side by side.
ghost use Rattle.std.specs.Prelude.{◌≡◌, ◌≤◌, ◌^◌, unsigned_abs};
ghost use Rattle.pbd_num.specs.Vectors.{Within};

use pbd_num::Vec3;

/// The number itself, cast so that the compiler knows that it fits 32 bits.
pub(crate) fn short(n: i64) -> i64
    requires { unsigned_abs n ≤ 2 ^ 30 }
    ensures { result ≡ n }
{
    i64::from(n as i32)
}

/// The vector itself, with short axes.
pub(crate) fn short_axes(v: Vec3) -> Vec3
    requires { Within (2 ^ 30) v }
    ensures { result ≡ v }
{
    Vec3 {
        x: short(v.x),
        y: short(v.y),
        z: short(v.z),
    }
}
