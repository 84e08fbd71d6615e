//! Places, particles, planes and links.
use pbd_num::Vec3;

/// The numbers of a place, axis by axis.
pub fn axes(place: Vec3) -> [i64; 3] {
    [place.x, place.y, place.z]
}

/// The square of the distance of two places that are in range.
pub fn squared_distance(a: Vec3, b: Vec3) -> i64 {
    let x = a.x.wrapping_sub(b.x);
    let y = a.y.wrapping_sub(b.y);
    let z = a.z.wrapping_sub(b.z);
    (x.wrapping_mul(x))
        .wrapping_add(y.wrapping_mul(y))
        .wrapping_add(z.wrapping_mul(z))
}

/// A place.
#[macro_export]
macro_rules! place {
    ($x:expr, $y:expr, $z:expr) => {
        Vec3 {
            x: $x,
            y: $y,
            z: $z,
        }
    };
}

/// A free particle of weight 1.
#[macro_export]
macro_rules! moved {
    (($x:expr, $y:expr, $z:expr), ($before_x:expr, $before_y:expr, $before_z:expr)) => {
        Particle {
            at: $crate::place!($x, $y, $z),
            before: $crate::place!($before_x, $before_y, $before_z),
            weight: 1,
            held: false,
        }
    };
}

/// A free particle of weight 1 at rest.
#[macro_export]
macro_rules! resting {
    ($x:expr, $y:expr, $z:expr) => {
        $crate::moved!(($x, $y, $z), ($x, $y, $z))
    };
}

/// The same, held.
#[macro_export]
macro_rules! held {
    ($x:expr, $y:expr, $z:expr) => {
        Particle {
            held: true,
            ..$crate::resting!($x, $y, $z)
        }
    };
}

/// A plane with this normal at this offset.
#[macro_export]
macro_rules! plane {
    ($x:expr, $y:expr, $z:expr, $offset:expr) => {
        Plane {
            normal: $crate::place!($x, $y, $z),
            offset: $offset,
        }
    };
}

/// A live link of full stiffness that never tears.
#[macro_export]
macro_rules! link {
    ($a:expr, $b:expr, $rest:expr) => {
        Link {
            a: $a,
            b: $b,
            rest: $rest,
            k: 256,
            tear: 0,
            kind: Kind::Plain,
            live: true,
        }
    };
}
