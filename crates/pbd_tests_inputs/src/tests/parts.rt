//! Parts with nothing in them yet, and tables of links.
ghost use Rattle.std.specs.Prelude.{◌≡◌, [], IsTrue};
ghost use Rattle.pbd_world.specs.Valid.{is_valid, is_limit};

use pbd_world::Parts;
use std::alloc::Global;

/// No particles, links, shapes or tracks.
#[tactic(auto, unfolding(pbd_world::specs::Valid::is_valid, pbd_world::specs::Valid::is_well_formed))]
pub fn empty_parts(alloc: Global, limit: i64) -> Parts
    requires { IsTrue (is_limit limit) }
    ensures valid { IsTrue (is_valid result) }
    ensures limit { result.limit ≡ limit }
    ensures particles { result.particles ≡ [] }
{
    Parts::empty(alloc, limit)
}

/// A live link: its kind, ends, rest, stiffness and tear.
macro_rules! link {
    ($kind:expr, $a:expr, $b:expr, $rest:expr, $k:expr, $tear:expr) => {
        Link {
            a: $a,
            b: $b,
            rest: $rest,
            k: $k,
            tear: $tear,
            kind: $kind,
            live: true,
        }
    };
}

/// Live links, kind by kind: its stiffness and tear, and the ends and the rest of each link.
macro_rules! links {
    ($($kind:ident $k:tt $tear:tt: $($a:tt $b:tt $rest:tt),*);*) => {
        &[$($(link!(Kind::$kind, $a, $b, $rest, $k, $tear)),*),*]
    };
}

pub(crate) use link;
pub(crate) use links;
