// What a sphere does with a place.
ghost use Rattle.std.specs.Prelude.{◌≡◌, ◌<◌, ◌^◌, pos, int_lt, false, None};
ghost use Rattle.pbd_num.specs.Vectors.{Within, minus, squared_length, length_of};
ghost use Rattle.pbd_world.specs.Shapes.{onto_sphere, sphere_shape};
ghost use Rattle.pbd_shape.specs.Valid.{IsSphere};

use crate::short::short_axes;
use crate::touch::Touch;
use pbd_num::{Vec3, square};
use pbd_world::Sphere;

/// Whether a place is in a sphere. Squares tell it, so that only places that are pay for a root.
#[inline(always)]
fn holds(sphere: Sphere, p: Vec3) -> bool
    requires sphere { IsSphere sphere }
    requires place { Within (2 ^ 29) p }
    ensures { result ≡ int_lt (pos (length_of (minus p sphere.centre))) sphere.radius }
{
    short_axes(p.minus(sphere.centre)).squared_length() < square(sphere.radius)
}

fn up(radius: i64) -> Vec3
    ensures { result ≡ record { x = pos 0; y = radius; z = pos 0 } }
{
    Vec3 {
        x: 0,
        y: radius,
        z: 0,
    }
}

fn onto(sphere: Sphere, p: Vec3) -> Vec3
    requires sphere { IsSphere sphere }
    requires place { Within (2 ^ 29) p }
    ensures { result ≡ onto_sphere sphere p }
{
    let centre = sphere.centre;
    let way = p.minus(centre);
    let length = way.length();
    if length == 0 {
        return centre.plus(up(sphere.radius));
    }
    centre.plus(way.scaled(sphere.radius, length))
}

/// The place to which a sphere pushes a place in it: out from the centre, rounded axis by axis, or straight up from the
/// centre itself. `None` where it isn't in the sphere.
#[tactic(auto, unfolding(pbd_world::specs::Shapes::sphere_shape))]
#[inline(always)]
fn outside(sphere: Sphere, p: Vec3) -> Option<Vec3>
    requires sphere { IsSphere sphere }
    requires place { Within (2 ^ 29) p }
    ensures { result ≡ sphere_shape sphere p }
{
    if holds(sphere, p) {
        Some(onto(sphere, p))
    } else {
        None
    }
}

// The same test, for places of which only those in the sphere matter.
#[tactic(auto, unfolding(pbd_world::specs::Shapes::sphere_shape))]
#[inline(always)]
fn surrounds(sphere: Sphere, p: Vec3) -> bool
    requires sphere { IsSphere sphere }
    requires place { Within (2 ^ 29) p }
    ensures { result ≡ false → sphere_shape sphere p ≡ None }
{
    holds(sphere, p)
}

impl Touch for Sphere {
    ghost shape = { sphere_shape };

    ghost is_in_range = { IsSphere };

    #[inline(always)]
    fn touches(&self, p: Vec3) -> bool {
        surrounds(*self, p)
    }

    #[inline(always)]
    fn push(&self, p: Vec3) -> Option<Vec3> {
        outside(*self, p)
    }
}
