// Places and particles side by side, axis by axis.
ghost use Rattle.std.specs.Prelude.{◌≡◌, ℕ, ◌<◌, ◌≤◌, slice_index_or};
ghost use Rattle.pbd_num.specs.Vectors.{zero_vector};
ghost use Rattle.pbd_store.specs.Blocks.{place_of};

use pbd_lanes::{Lanes, Mask};
use pbd_num::Vec3;

fn place_at<const L: usize>(places: &[Vec3; L], j: usize) -> Vec3
    requires lanes { L ≤ 16 }
    requires within { j < L }
    ensures { result ≡ slice_index_or places.now j zero_vector }
{
    places[j]
}

/// L places, axis by axis.
#[derive(Clone, Copy)]
pub struct Lanes3<const L: usize> {
    pub x: Lanes<L>,
    pub y: Lanes<L>,
    pub z: Lanes<L>,
}

impl<const L: usize> Lanes3<L> {
    /// Places side by side: lane j has place j.
    pub fn from_places(places: &[Vec3; L]) -> Lanes3<L>
        requires { L ≤ 16 }
        ensures { (j : ℕ) → j < L → place_of result.x result.y result.z j ≡ slice_index_or places.now j zero_vector }
    {
        let mut x = [0; L];
        let mut y = [0; L];
        let mut z = [0; L];
        for j in 0..L {
            let place = place_at(places, j);
            x[j] = place.x;
            y[j] = place.y;
            z[j] = place.z;
        }
        Lanes3 {
            x: Lanes::from_array(x),
            y: Lanes::from_array(y),
            z: Lanes::from_array(z),
        }
    }

    /// The place in lane j.
    #[inline(always)]
    pub fn place(&self, j: usize) -> Vec3
        requires { j < L }
        ensures { result ≡ place_of self.now.x self.now.y self.now.z j }
    {
        Vec3 {
            x: self.x.at(j),
            y: self.y.at(j),
            z: self.z.at(j),
        }
    }
}

/// L neighbouring particles: lane j of block b is particle `b * L + j`.
#[derive(Clone, Copy)]
pub struct Block<const L: usize> {
    pub at: Lanes3<L>,
    pub before: Lanes3<L>,
    pub weight: Lanes<L>,
    pub held: Mask<L>,
    /// The lanes that have a particle. All of another lane is 0 and false.
    pub filled: Mask<L>,
}

/// The places and effective weights of L particles.
#[derive(Clone, Copy)]
pub struct Ends<const L: usize> {
    pub at: Lanes3<L>,
    pub weight: Lanes<L>,
}
