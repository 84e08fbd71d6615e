// All shapes of a world as one value.
ghost use Rattle.std.specs.Prelude.{◌≡◌, ℕ, ◌<◌, ◌≤◌, ◌^◌, ◌==◌, false, length, unsigned_abs, option_map, IfSome};
ghost use Rattle.pbd_num.specs.Vectors.{Within};
ghost use Rattle.pbd_world.specs.Shapes.{way_through};
ghost use Rattle.pbd_store.specs.Blocks.{place_of};
ghost use Rattle.pbd_shape.specs.Valid.{lists_of, IsLimit, AreInRange};
ghost use Rattle.pbd_shape.specs.Way.{way_of, all_shapes, starting, AreStill};

use crate::touch::{any_touches, then_touches};
use crate::way::{Pushed, then_past};
use pbd_num::Vec3;
use pbd_store::Lanes3;
use pbd_world::{Plane, ShapeLists, Sphere};

/// What pushes particles out: the planes in order, and then the spheres in order.
#[derive(Clone, Copy)]
pub struct Shapes<'a> {
    pub planes: &'a [Plane],
    pub spheres: &'a [Sphere],
}

impl Shapes<'static> {
    /// No shapes. A value that names the shapes of one kind has those of the other from here.
    pub const NONE: Shapes<'static> = Shapes {
        planes: &[],
        spheres: &[],
    };
}

impl<'a> Shapes<'a> {
    /// The shapes of some lists, such as those of a world.
    pub fn of(lists: &'a ShapeLists) -> Shapes<'a>
        ensures { lists_of result ≡ lists.now }
    {
        Shapes {
            planes: lists.planes.as_slice(),
            spheres: lists.spheres.as_slice(),
        }
    }

    /// Whether there is no shape.
    pub(crate) fn is_empty(self) -> bool
        ensures { result ≡ (length (all_shapes self.entry) == 0) }
    {
        self.planes.is_empty() && self.spheres.is_empty()
    }

    /// The way of a place through all shapes, and `None` where it leaves the limit.
    #[tactic(auto, using(crate::proofs::Ways::then_through))]
    pub(crate) fn push(self, limit: i64, at: Vec3) -> Option<Pushed>
        requires limit { IsLimit limit }
        requires shapes { AreInRange self }
        requires place { Within (unsigned_abs limit) at }
        ensures value { option_map way_of result ≡ way_through limit (all_shapes self.entry) (starting at) }
        ensures within { IfSome result (λ way. Within (unsigned_abs limit) way.at) }
    {
        let start = Some(Pushed { at, touched: false });
        let way = then_past(limit, start, self.planes);
        then_past(limit, way, self.spheres)
    }

    /// Whether any shape touches any of L places where it lies. Where none does, none moves any of them.
    pub(crate) fn touches<const L: usize>(self, at: &Lanes3<L>) -> bool
        requires lanes { L ≤ 16 }
        requires shapes { AreInRange self }
        requires places { (j : ℕ) → j < L → Within (2 ^ 29) (place_of at.now.x at.now.y at.now.z j) }
        ensures { result ≡ false → AreStill (all_shapes self.entry) L (place_of at.now.x at.now.y at.now.z) }
    {
        let touched = any_touches(self.planes, at);
        then_touches(touched, self.spheres, at)
    }
}
