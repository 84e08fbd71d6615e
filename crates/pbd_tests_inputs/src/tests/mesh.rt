//! Cloths and ropes: their links in order, and which fit.
use super::parts::{empty_parts, link, links};
use pbd_mesh::{ClothSpec, RopeSpec, cloth, rope};
use pbd_num::Vec3;
use pbd_tests_rows::{WrongRows, all_hold, each_row, place, wrong_row};
use pbd_world::{Kind, Link};

const LIMIT: i64 = 268_435_456;

const SQUARE: ClothSpec = ClothSpec {
    origin: Vec3::ZERO,
    across: place!(100, 0, 0),
    down: place!(0, 0, 100),
    rows: 2,
    columns: 3,
    weight: 1,
    stretch: 256,
    shear: 255,
    bend: 64,
    stretch_tear: 7,
    shear_tear: 8,
    bend_tear: 9,
};

const CORD: RopeSpec = RopeSpec {
    origin: Vec3::ZERO,
    spacing: place!(0, 100, 0),
    count: 3,
    weight: 2,
    stretch: 256,
    bend: 64,
    stretch_tear: 0,
    bend_tear: 5,
};

static CLOTH_LINKS: &[Link] = links!(
    Stretch 256 7: 0 1 100, 0 3 100, 1 2 100, 1 4 100, 2 5 100, 3 4 100, 4 5 100;
    Shear 255 8: 0 4 141, 1 3 141, 1 5 141, 2 4 141;
    Bend 64 9: 0 2 200, 3 5 200
);

#[test]
fn cloth_has_the_links_of_its_kinds_in_order(rt: HostRuntime) -> Result<(), WrongRows> {
    let mut parts = empty_parts(rt.alloc(), LIMIT);
    let fits = SQUARE.fits(LIMIT);
    let is_made = fits && cloth(rt.alloc(), &SQUARE, &mut parts).is_ok();
    let told = (is_made, parts.particles.len(), parts.links.as_slice());
    let wrong = wrong_row(&rt, (&SQUARE, "is made"), &told, &(true, 6, CLOTH_LINKS));
    drop(parts);
    all_hold(wrong)
}

static ROPE_LINKS: &[Link] = links!(
    Stretch 256 0: 0 1 100, 1 2 100;
    Bend 64 5: 0 2 200
);

#[test]
fn rope_has_its_stretch_and_then_its_bend_links(rt: HostRuntime) -> Result<(), WrongRows> {
    let mut parts = empty_parts(rt.alloc(), LIMIT);
    let fits = CORD.fits(LIMIT);
    let is_made = fits && rope(rt.alloc(), &CORD, &mut parts).is_ok();
    let told = (is_made, parts.particles.len(), parts.links.as_slice());
    let wrong = wrong_row(&rt, (&CORD, "is made"), &told, &(true, 3, ROPE_LINKS));
    drop(parts);
    all_hold(wrong)
}

/// The square with its origin and the way across along one axis.
macro_rules! with_reach {
    ($origin:expr, $across:expr) => {
        ClothSpec {
            origin: place!($origin, 0, 0),
            across: place!($across, 0, 0),
            ..SQUARE
        }
    };
}

/// Cloths, and whether they fit.
static CLOTHS: [(ClothSpec, bool); 12] = [
    // The last column is at the limit, or past it.
    (with_reach!(LIMIT - 200, 100), true),
    (with_reach!(LIMIT - 199, 100), false),
    (with_reach!(-LIMIT, LIMIT), true),
    (with_reach!(-LIMIT, LIMIT + 1), false),
    (
        ClothSpec {
            rows: 256,
            columns: 256,
            weight: 65_535,
            ..SQUARE
        },
        true,
    ),
    (
        ClothSpec {
            rows: 257,
            ..SQUARE
        },
        false,
    ),
    (
        ClothSpec {
            columns: 0,
            ..SQUARE
        },
        false,
    ),
    (
        ClothSpec {
            weight: 0,
            ..SQUARE
        },
        false,
    ),
    (
        ClothSpec {
            shear: 257,
            ..SQUARE
        },
        false,
    ),
    (
        ClothSpec {
            bend_tear: 4 * LIMIT,
            ..SQUARE
        },
        true,
    ),
    (
        ClothSpec {
            bend_tear: 4 * LIMIT + 1,
            ..SQUARE
        },
        false,
    ),
    (
        ClothSpec {
            stretch_tear: -1,
            ..SQUARE
        },
        false,
    ),
];

#[test]
fn cloths_fit_up_to_the_limit(rt: HostRuntime) -> Result<(), WrongRows> {
    each_row!(rt, &CLOTHS, "fits", (spec, fits) => spec.fits(LIMIT), fits)
}

/// Ropes, and whether they fit.
static ROPES: [(RopeSpec, bool); 6] = [
    (
        RopeSpec {
            origin: place!(0, LIMIT - 200, 0),
            ..CORD
        },
        true,
    ),
    (
        RopeSpec {
            origin: place!(0, LIMIT - 199, 0),
            ..CORD
        },
        false,
    ),
    (
        RopeSpec {
            count: 4096,
            ..CORD
        },
        true,
    ),
    (
        RopeSpec {
            count: 4097,
            ..CORD
        },
        false,
    ),
    (RopeSpec { count: 0, ..CORD }, false),
    (
        RopeSpec {
            stretch_tear: 4 * LIMIT + 1,
            ..CORD
        },
        false,
    ),
];

#[test]
fn ropes_fit_up_to_the_limit(rt: HostRuntime) -> Result<(), WrongRows> {
    each_row!(rt, &ROPES, "fits", (spec, fits) => spec.fits(LIMIT), fits)
}
