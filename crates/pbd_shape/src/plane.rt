// What a plane does with a place.
ghost use Rattle.std.specs.Prelude.{◌≡◌, ◌≤◌, ◌^◌, pos, ◌+ℤ◌, ◌*ℤ◌, ◌<ℤ◌, int_lt, unsigned_abs, false, None};
ghost use Rattle.pbd_num.specs.Rounding.{rdiv as rounded};
ghost use Rattle.pbd_num.specs.Vectors.{Within, dot as dot_product};
ghost use Rattle.pbd_world.specs.Shapes.{plane_shape};
ghost use Rattle.pbd_shape.specs.Valid.{IsPlane};

use crate::short::short;
use crate::touch::Touch;
use pbd_num::{Vec3, rdiv};
use pbd_world::Plane;

fn product(a: i64, b: i64) -> i64
    requires a { unsigned_abs a ≤ 2 ^ 10 }
    requires b { unsigned_abs b ≤ 2 ^ 29 }
    ensures value { result ≡ a *ℤ b }
    ensures size { unsigned_abs result ≤ 2 ^ 39 }
{
    short(a) * short(b)
}

fn dot(n: Vec3, p: Vec3) -> i64
    requires n { Within (2 ^ 10) n }
    requires p { Within (2 ^ 29) p }
    ensures value { result ≡ dot_product n p }
    ensures size { unsigned_abs result ≤ 2 ^ 41 }
{
    product(n.x, p.x) + product(n.y, p.y) + product(n.z, p.z)
}

// How far one axis moves along a normal whose square is `square`, for as much as the place lacks.
fn shift(lack: i64, axis: i64, square: i64) -> i64
    requires lack { unsigned_abs lack ≤ 2 ^ 42 }
    requires axis { unsigned_abs axis ≤ 2 ^ 10 }
    requires square { pos 0 <ℤ square }
    requires square_size { unsigned_abs square ≤ 2 ^ 40 }
    ensures value { result ≡ rounded (lack *ℤ axis) square }
    ensures size { unsigned_abs result ≤ 2 ^ 52 }
{
    rdiv(lack * axis, square)
}

// Where that leads from the place that it has.
fn axis_out(from: i64, lack: i64, axis: i64, square: i64) -> i64
    requires from { unsigned_abs from ≤ 2 ^ 29 }
    requires lack { unsigned_abs lack ≤ 2 ^ 42 }
    requires axis { unsigned_abs axis ≤ 2 ^ 10 }
    requires square { pos 0 <ℤ square }
    requires square_size { unsigned_abs square ≤ 2 ^ 40 }
    ensures { result ≡ from +ℤ rounded (lack *ℤ axis) square }
{
    from + shift(lack, axis, square)
}

fn is_behind(lack: i64) -> bool
    ensures { result ≡ int_lt (pos 0) lack }
{
    0 < lack
}

/// The place to which a plane pushes a place behind it: along its normal, as far as the place lacks, rounded axis by axis.
/// `None` where it isn't behind.
#[tactic(auto, unfolding(pbd_world::specs::Shapes::plane_shape))]
fn in_front(plane: Plane, p: Vec3) -> Option<Vec3>
    requires plane { IsPlane plane }
    requires place { Within (2 ^ 29) p }
    ensures { result ≡ plane_shape plane p }
{
    let n = plane.normal;
    let lack = plane.offset - dot(n, p);
    if !is_behind(lack) {
        return None;
    }
    let square = dot(n, n);
    Some(Vec3 {
        x: axis_out(p.x, lack, n.x, square),
        y: axis_out(p.y, lack, n.y, square),
        z: axis_out(p.z, lack, n.z, square),
    })
}

// Whether a place is behind a plane.
#[tactic(auto, unfolding(pbd_world::specs::Shapes::plane_shape))]
#[inline(always)]
fn reaches(plane: Plane, p: Vec3) -> bool
    requires plane { IsPlane plane }
    requires place { Within (2 ^ 29) p }
    ensures { result ≡ false → plane_shape plane p ≡ None }
{
    is_behind(plane.offset - dot(plane.normal, p))
}

impl Touch for Plane {
    ghost shape = { plane_shape };

    ghost is_in_range = { IsPlane };

    #[inline(always)]
    fn touches(&self, p: Vec3) -> bool {
        reaches(*self, p)
    }

    #[inline(always)]
    fn push(&self, p: Vec3) -> Option<Vec3> {
        in_front(*self, p)
    }
}
