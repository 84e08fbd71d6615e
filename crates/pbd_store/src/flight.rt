// A row of places at the start of a step: axis by axis, where a free particle flies.
ghost use Rattle.std.specs.Prelude.{◌≡◌, ℕ, ◌<◌, ◌≤◌, ◌^◌, ℤ, pos, ◌+ℤ◌, ◌-ℤ◌, ◌*ℤ◌, Bool, unsigned_abs, if◌then◌else◌};
ghost use Rattle.pbd_num.specs.Rounding.{rdiv as rounded};
ghost use Rattle.pbd_num.specs.Vectors.{Within};
ghost use Rattle.pbd_store.specs.InRows.{place_in_row};
ghost use Rattle.pbd_store.specs.Flying.{IsSmall, loss_at, flown_at, pull_at, losses_at, places_at};

use crate::rows::Place;
use pbd_num::Vec3;

/// What acts on particles at the start of a step.
#[derive(Clone, Copy)]
pub struct Forces {
    /// What damping takes of velocities, in 1/1,024, at most 1,024 in size.
    pub damping: i64,
    /// In units per step squared, each axis at most 2^29 in size.
    pub gravity: Vec3,
    /// The limit of places, in 0..=2^29.
    pub limit: i64,
}

/// How many particles are free, and what damping takes of all of them together.
#[derive(Clone, Copy)]
pub struct Flown {
    pub free: i64,
    pub lost: Vec3,
}

/// Where a row comes to, and what damping takes of it.
#[derive(Clone, Copy)]
pub(crate) struct RowFlown {
    pub(crate) to: Vec3,
    pub(crate) lost: Vec3,
}

// What acts along one axis.
#[derive(Clone, Copy)]
struct AxisForces {
    damping: i64,
    gravity: i64,
}

// Where one axis comes to, and what damping takes of it.
#[derive(Clone, Copy)]
struct AxisFlown {
    to: i64,
    lost: i64,
}

// The product of two numbers that are raised first, so that neither is below 0 and it is one of 32 bits by 32 bits with no sign.
#[inline(always)]
fn product_of_raised(s: i64, f: i64) -> i64
    requires s { unsigned_abs s ≤ 2 ^ 30 }
    requires f { unsigned_abs f ≤ 1024 }
    ensures value { result ≡ s *ℤ f +ℤ pos 1024 *ℤ s +ℤ pos 2147483648 *ℤ f +ℤ pos 2199023255552 }
    ensures size { unsigned_abs result < 2 ^ 45 }
{
    (u64::from((s + 2_147_483_648) as u32) * u64::from((f + 1024) as u32)) as i64
}

// `s * f`, raised by 2^41.
#[inline(always)]
fn raised_product(s: i64, f: i64) -> u64
    requires s { unsigned_abs s ≤ 2 ^ 30 }
    requires f { unsigned_abs f ≤ 1024 }
    ensures { pos result ≡ s *ℤ f +ℤ pos 2199023255552 }
{
    (product_of_raised(s, f) - 1024 * s - 2_147_483_648 * f) as u64
}

// `s * f / 1024`, rounded, by divisions of numbers that are not below 0: a product is below 0 where it is raised to less
// than 2^41.
#[inline(always)]
fn part_of_1024(s: i64, f: i64) -> i64
    requires s { unsigned_abs s ≤ 2 ^ 30 }
    requires f { unsigned_abs f ≤ 1024 }
    ensures { result ≡ rounded (s *ℤ f) (pos 1024) }
{
    let raised = raised_product(s, f);
    let half = 511 + raised / 2_199_023_255_552;
    ((raised + half) / 1024) as i64 - 2_147_483_648
}

#[inline(always)]
fn kept_if(flies: bool, n: i64) -> i64
    ensures { result ≡ (if flies then n else pos 0) }
{
    if flies { n } else { 0 }
}

// How far a particle that flies came, and 0 of one that stays.
#[inline(always)]
fn way_if(flies: bool, at: i64, before: i64) -> i64
    requires at { unsigned_abs at ≤ 2 ^ 29 }
    requires before { unsigned_abs before ≤ 2 ^ 29 }
    ensures value { result ≡ (if flies then at -ℤ before else pos 0) }
    ensures size { unsigned_abs result ≤ 2 ^ 30 }
{
    kept_if(flies, at - before)
}

// What gravity adds to it.
#[inline(always)]
fn pull_if(flies: bool, gravity: i64) -> i64
    requires { unsigned_abs gravity ≤ 2 ^ 29 }
    ensures value { result ≡ pull_at gravity flies }
    ensures size { unsigned_abs result ≤ 2 ^ 29 }
{
    kept_if(flies, gravity)
}

// What damping takes of it.
#[inline(always)]
fn loss_of(way: i64, damping: i64) -> i64
    requires way { unsigned_abs way ≤ 2 ^ 30 }
    requires damping { unsigned_abs damping ≤ 1024 }
    ensures value { (flies : Bool) (at before : ℤ) → way ≡ (if flies then at -ℤ before else pos 0)
        → result ≡ loss_at damping flies at before }
    ensures size { unsigned_abs result ≤ 2 ^ 30 }
{
    part_of_1024(way, damping)
}

#[inline(always)]
fn flown_by(at: i64, way: i64, loss: i64, pull: i64) -> i64
    requires at { unsigned_abs at ≤ 2 ^ 29 }
    requires way { unsigned_abs way ≤ 2 ^ 30 }
    requires loss { unsigned_abs loss ≤ 2 ^ 30 }
    requires pull { unsigned_abs pull ≤ 2 ^ 29 }
    ensures { (flies : Bool) (damping gravity before : ℤ) → way ≡ (if flies then at -ℤ before else pos 0)
        → loss ≡ loss_at damping flies at before → pull ≡ pull_at gravity flies → result ≡ flown_at damping gravity flies at before }
{
    at + (way - loss) + pull
}

// One axis of a row.
#[inline(always)]
fn fly_axis(forces: AxisForces, flies: bool, at: i64, before: i64) -> AxisFlown
    requires damping { unsigned_abs forces.damping ≤ 1024 }
    requires gravity { unsigned_abs forces.gravity ≤ 2 ^ 29 }
    requires at { unsigned_abs at ≤ 2 ^ 29 }
    requires before { unsigned_abs before ≤ 2 ^ 29 }
    ensures to { result.to ≡ flown_at forces.damping forces.gravity flies at before }
    ensures lost { result.lost ≡ loss_at forces.damping flies at before }
    ensures lost_size { unsigned_abs result.lost ≤ 2 ^ 30 }
{
    let way = way_if(flies, at, before);
    let lost = loss_of(way, forces.damping);
    let pull = pull_if(flies, forces.gravity);
    let to = flown_by(at, way, lost, pull);
    AxisFlown { to, lost }
}

fn forces_along(forces: Forces, gravity: i64) -> AxisForces
    ensures damping { result.damping ≡ forces.damping }
    ensures gravity { result.gravity ≡ gravity }
{
    AxisForces {
        damping: forces.damping,
        gravity,
    }
}

/// A row of which the particle flies, or stays.
#[inline(always)]
pub(crate) fn fly_row(forces: Forces, flies: bool, at: Place, before: Place) -> RowFlown
    requires forces { IsSmall forces }
    requires at { Within (2 ^ 29) (place_in_row at) }
    requires before { Within (2 ^ 29) (place_in_row before) }
    ensures to { result.to ≡ places_at forces.damping forces.gravity flies (place_in_row at) (place_in_row before) }
    ensures lost { result.lost ≡ losses_at forces.damping flies (place_in_row at) (place_in_row before) }
    ensures lost_size { Within (2 ^ 30) result.lost }
{
    let x = fly_axis(
        forces_along(forces, forces.gravity.x),
        flies,
        i64::from(at.x),
        i64::from(before.x),
    );
    let y = fly_axis(
        forces_along(forces, forces.gravity.y),
        flies,
        i64::from(at.y),
        i64::from(before.y),
    );
    let z = fly_axis(
        forces_along(forces, forces.gravity.z),
        flies,
        i64::from(at.z),
        i64::from(before.z),
    );
    RowFlown {
        to: Vec3 {
            x: x.to,
            y: y.to,
            z: z.to,
        },
        lost: Vec3 {
            x: x.lost,
            y: y.lost,
            z: z.lost,
        },
    }
}
