// Whether places are within the limit, asked of all of them at once.
ghost use Rattle.std.specs.Prelude.{ℕ, ◌*◌, ◌^◌, ◌<◌, ◌≤◌, ◌≤ℤ◌, ◌≡◌, pos, unsigned_abs, IsTrue};
ghost use Rattle.pbd_num.specs.declared.Vec3.{Vec3};
ghost use Rattle.pbd_num.specs.Vectors.{Within};
ghost use Rattle.pbd_store.specs.InRows.{place_in_row};
ghost use Rattle.pbd_store.specs.Reaching.{Covers};

use crate::rows::Place;
use pbd_num::Vec3;

/// For each axis of some places a number that is above twice the limit where one of the places is outside it on that axis.
#[derive(Clone, Copy)]
pub(crate) struct Reach {
    x: u32,
    y: u32,
    z: u32,
    spare: u32,
}

// An axis raised by the limit: from 0 to twice the limit where it is within, and its bits are a greater number elsewhere.
#[inline(always)]
fn raised(axis: i32, limit: i64) -> u32
    requires axis { unsigned_abs axis ≤ 2 ^ 30 }
    requires low { pos 0 ≤ℤ limit }
    requires high { unsigned_abs limit ≤ 2 ^ 29 }
    ensures { result ≤ 2 * unsigned_abs limit → unsigned_abs axis ≤ unsigned_abs limit }
{
    (axis + limit as i32).cast_unsigned()
}

// A number that is at least each of two. It may be above their maximum, which would take longer.
#[inline(always)]
fn above_both(a: u32, b: u32) -> u32
    ensures first { a ≤ result }
    ensures second { b ≤ result }
{
    a | b
}

// An axis, or 2^30 on its side of 0 where it is beyond that.
#[inline(always)]
fn near(axis: i64) -> i32
    ensures size { unsigned_abs result ≤ 2 ^ 30 }
    ensures same { (n : ℕ) → n < 2 ^ 30 → unsigned_abs result ≤ n → unsigned_abs axis ≤ n }
{
    axis.clamp(-1_073_741_824, 1_073_741_824) as i32
}

impl Reach {
    /// That of no place.
    pub(crate) const NONE: Reach = Reach {
        x: 0,
        y: 0,
        z: 0,
        spare: 0,
    };

    /// The same with one more place.
    #[inline(always)]
    pub(crate) fn with(self, place: Place, limit: i64) -> Reach
        requires place { Within (2 ^ 30) (place_in_row place) }
        requires spare { place.spare ≡ pos 0 }
        requires low { pos 0 ≤ℤ limit }
        requires high { unsigned_abs limit ≤ 2 ^ 29 }
        ensures kept { (v : Vec3) → Covers self limit v → Covers result limit v }
        ensures own { Covers result limit (place_in_row place) }
    {
        Reach {
            x: above_both(self.x, raised(place.x, limit)),
            y: above_both(self.y, raised(place.y, limit)),
            z: above_both(self.z, raised(place.z, limit)),
            spare: above_both(self.spare, raised(place.spare, limit)),
        }
    }

    /// The same with one more place, which may be anywhere.
    #[inline(always)]
    pub(crate) fn with_far(self, place: Vec3, limit: i64) -> Reach
        requires low { pos 0 ≤ℤ limit }
        requires high { unsigned_abs limit ≤ 2 ^ 29 }
        ensures kept { (v : Vec3) → Covers self limit v → Covers result limit v }
        ensures own { Covers result limit place }
    {
        let place = Place {
            x: near(place.x),
            y: near(place.y),
            z: near(place.z),
            spare: 0,
        };
        self.with(place, limit)
    }

    /// Whether all of its places are within the limit. It may be false where they are: then each is to be asked.
    #[inline(always)]
    pub(crate) fn is_within(self, limit: i64) -> bool
        requires low { pos 0 ≤ℤ limit }
        requires high { unsigned_abs limit ≤ 2 ^ 29 }
        ensures { IsTrue result → (v : Vec3) → Covers self limit v → Within (unsigned_abs limit) v }
    {
        let most = 2 * limit as u32;
        (self.x <= most) & (self.y <= most) & (self.z <= most) & (self.spare <= most)
    }
}
