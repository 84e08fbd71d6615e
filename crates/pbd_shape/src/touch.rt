// What every kind of shape does with a place, and a quick look at L places side by side.
ghost use Rattle.std.specs.Prelude.{◌≡◌, ℕ, ℤ, ◌<◌, ◌≤◌, ◌^◌, false, List, ◌++◌, map, None};
ghost use Rattle.std.specs.List.{All};
ghost use Rattle.pbd_num.specs.Vectors.{Within};
ghost use Rattle.pbd_world.specs.Shapes.{Shape};
ghost use Rattle.pbd_store.specs.Blocks.{place_of};
ghost use Rattle.pbd_shape.specs.Way.{IsStill, AreStill};

use pbd_num::Vec3;
use pbd_store::Lanes3;

/// A kind of shape, such as planes: what a world has a list of, and what pushes each place that it touches. Each kind's
/// `touches` and `push` are inlined, so that a loop over one kind doesn't call them.
pub(crate) trait Touch {
    /// The new place of each place that it touches.
    ghost shape: { Self → Shape };

    /// Its numbers are in their ranges.
    ghost is_in_range: { Self → Type 0 };

    /// Whether it touches a place. It may say so of one that it doesn't touch.
    fn touches(&self, p: Vec3) -> bool
        requires shape { is_in_range self.now }
        requires place { Within (2 ^ 29) p }
        ensures { result ≡ false → shape self.now p ≡ None };

    /// The place to which it pushes a place that it touches, and `None` where it doesn't touch.
    fn push(&self, p: Vec3) -> Option<Vec3>
        requires shape { is_in_range self.now }
        requires place { Within (2 ^ 29) p }
        ensures { result ≡ shape self.now p };
}

fn either(first: bool, second: bool) -> bool
    ensures first { result ≡ false → first ≡ false }
    ensures second { result ≡ false → second ≡ false }
{
    first | second
}

// Whether a shape touches one of L places.
fn one_touches<S: Touch, const L: usize>(shape: &S, at: &Lanes3<L>) -> bool
    requires lanes { L ≤ 16 }
    requires shape { S.is_in_range shape.now }
    requires places { (j : ℕ) → j < L → Within (2 ^ 29) (place_of at.now.x at.now.y at.now.z j) }
    ensures { result ≡ false → (j : ℕ) → j < L → S.shape shape.now (place_of at.now.x at.now.y at.now.z j) ≡ None }
{
    let mut touched = false;
    for j in 0..L {
        touched = either(touched, shape.touches(at.place(j)));
    }
    touched
}

/// Whether any of some shapes of one kind touches any of L places where it lies. Where none does, none moves any of them.
pub(crate) fn any_touches<S: Touch, const L: usize>(shapes: &[S], at: &Lanes3<L>) -> bool
    requires lanes { L ≤ 16 }
    requires shapes { All S.is_in_range shapes.now }
    requires places { (j : ℕ) → j < L → Within (2 ^ 29) (place_of at.now.x at.now.y at.now.z j) }
    ensures { result ≡ false → AreStill (map S.shape shapes.now) L (place_of at.now.x at.now.y at.now.z) }
{
    for shape in shapes {
        if one_touches(shape, at) {
            return true;
        }
    }
    false
}

/// Whether the shapes before touch any of L places, as `touched` says, or those of one more kind do. Where none does, none of all
/// these moves any of them.
#[inline(always)]
pub(crate) fn then_touches<S: Touch, const L: usize>(
    touched: bool,
    shapes: &[S],
    at: &Lanes3<L>,
) -> bool
    requires lanes { L ≤ 16 }
    requires shapes { All S.is_in_range shapes.now }
    requires places { (j : ℕ) → j < L → Within (2 ^ 29) (place_of at.now.x at.now.y at.now.z j) }
    ensures { (before : List Shape) → (touched ≡ false → AreStill before L (place_of at.now.x at.now.y at.now.z)) → result ≡ false
        → AreStill (before ++ map S.shape shapes.now) L (place_of at.now.x at.now.y at.now.z) }
{
    touched || any_touches(shapes, at)
}
