// The places of all particles, each in a row of four numbers, and beside it what 32 bits don't hold of its axes.
ghost use Rattle.std.specs.Prelude.{◌≡◌, ℕ, ◌+◌, ◌*◌, ◌/◌, ◌%◌, ◌++◌, ◌<◌, ◌≤◌, ◌^◌, ◌<ℤ◌, ◌≤ℤ◌, pos, negsuc, unsigned_abs, ◌+ℤ◌, ◌-ℤ◌, length, map, replicate, slice_set, IfOk, IsTrue, if◌then◌else◌};
ghost use Rattle.pbd_num.specs.Rows.{vector_of};
ghost use Rattle.pbd_num.specs.Vectors.{Within, minus, plus, zero_vector};
ghost use Rattle.pbd_lanes.specs.Lane.{is_set, lanes_of};
ghost use Rattle.pbd_store.specs.Blocks.{place_of};
ghost use Rattle.pbd_store.specs.Fields.{place_of_kind};
ghost use Rattle.pbd_store.specs.Gathering.{index_at};
ghost use Rattle.pbd_store.specs.InRows.{axis_of, place_by, place_in_row, places_in, row_of, AreFlat};
ghost use Rattle.pbd_store.specs.Listed.{place_at};
ghost use Rattle.pbd_store.specs.Pairs.{IsWay};
ghost use Rattle.pbd_store.specs.Writing.{WrittenWhere};

use crate::lanes3::Lanes3;
use pbd_lanes::{Lanes, Mask};
use pbd_num::{Row, Vec3};
use pbd_world::Particle;
use std::alloc::{AllocError, Global};
use std::marker::Model;

/// The low halves of a place's axes in a row of four numbers, which a processor takes at once. The spare one is 0.
/// Where 32 bits hold each axis, they are the place.
#[derive(Clone, Copy)]
pub(crate) struct Place {
    pub(crate) x: i32,
    pub(crate) y: i32,
    pub(crate) z: i32,
    pub(crate) spare: i32,
}

/// The high halves of a place's axes: how often 2^31 is added to each low half, away from 0.
#[derive(Clone, Copy)]
pub(crate) struct High {
    x: u32,
    y: u32,
    z: u32,
}

/// A place in halves.
#[derive(Clone, Copy)]
pub(crate) struct Halves {
    pub(crate) low: Place,
    pub(crate) high: High,
}

// One axis in halves.
#[derive(Clone, Copy)]
struct AxisHalves {
    low: i32,
    high: u32,
}

// What a number has below 2^31.
#[inline(always)]
fn low_of(n: u64) -> i32
    ensures { result ≡ pos (n % 2 ^ 31) }
{
    (n % 2_147_483_648) as i32
}

// How often a number has 2^31.
#[inline(always)]
fn high_of(n: u64) -> u32
    requires { n < 2 ^ 63 }
    ensures { result ≡ n / 2 ^ 31 }
{
    (n / 2_147_483_648) as u32
}

// How far below -1 an axis is that is below 0.
#[inline(always)]
fn below(axis: i64) -> u64
    requires { axis <ℤ pos 0 }
    ensures size { result < 2 ^ 63 }
    ensures value { axis ≡ negsuc result }
{
    (-1 - axis) as u64
}

// How far above 0 it is else.
#[inline(always)]
fn above(axis: i64) -> u64
    requires { pos 0 ≤ℤ axis }
    ensures size { result < 2 ^ 63 }
    ensures value { axis ≡ pos result }
{
    axis as u64
}

// The low half of the number that is n below -1.
#[inline(always)]
fn low_below(n: u64) -> i32
    ensures { result ≡ negsuc (n % 2 ^ 31) }
{
    -1 - low_of(n)
}

// The halves of an axis.
#[inline(always)]
fn halves_of(axis: i64) -> AxisHalves
    ensures { axis_of result.low result.high ≡ axis }
{
    if axis < 0 {
        let n = below(axis);
        AxisHalves {
            low: low_below(n),
            high: high_of(n),
        }
    } else {
        let n = above(axis);
        AxisHalves {
            low: low_of(n),
            high: high_of(n),
        }
    }
}

// The axis of two halves.
#[inline(always)]
fn axis_by(low: i32, high: u32) -> i64
    ensures { result ≡ axis_of low high }
{
    let beyond = i64::from(high) * 2_147_483_648;
    if low < 0 {
        i64::from(low) - beyond
    } else {
        i64::from(low) + beyond
    }
}

// One axis of a place after a short way.
#[inline(always)]
fn axis_after(axis: i32, way: i32) -> i32
    requires axis { unsigned_abs axis ≤ 2 ^ 29 }
    requires way { unsigned_abs way ≤ 2 ^ 22 }
    ensures { result ≡ axis +ℤ way }
{
    axis + way
}

// One axis of a place before a short way.
#[inline(always)]
fn axis_before(axis: i32, way: i32) -> i32
    requires axis { unsigned_abs axis ≤ 2 ^ 29 }
    requires way { unsigned_abs way ≤ 2 ^ 22 }
    ensures { result ≡ axis -ℤ way }
{
    axis - way
}

// One axis of the way to a place from another.
#[inline(always)]
fn axis_from(axis: i32, other: i32) -> i32
    requires axis { unsigned_abs axis ≤ 2 ^ 29 }
    requires other { unsigned_abs other ≤ 2 ^ 29 }
    ensures { result ≡ axis -ℤ other }
{
    axis - other
}

impl Place {
    // That of the place where each axis is 0.
    const ZERO: Place = Place {
        x: 0,
        y: 0,
        z: 0,
        spare: 0,
    };

    /// The way to this place from another.
    #[inline(always)]
    pub(crate) fn way_from(self, other: Place) -> Row
        requires place { Within (2 ^ 29) (place_in_row self) }
        requires spare { self.spare ≡ pos 0 }
        requires other { Within (2 ^ 29) (place_in_row other) }
        requires other_spare { other.spare ≡ pos 0 }
        ensures { IsWay result (place_in_row self) (place_in_row other) }
    {
        Row {
            x: axis_from(self.x, other.x),
            y: axis_from(self.y, other.y),
            z: axis_from(self.z, other.z),
            flag: axis_from(self.spare, other.spare),
        }
    }

    /// The place to which a short way leads.
    #[inline(always)]
    pub(crate) fn plus(self, way: Row) -> Place
        requires place { Within (2 ^ 29) (place_in_row self) }
        requires spare { self.spare ≡ pos 0 }
        requires way { Within (2 ^ 22) (vector_of way) }
        requires flag { way.flag ≡ pos 0 }
        ensures { result ≡ row_of (plus (place_in_row self) (vector_of way)) }
    {
        Place {
            x: axis_after(self.x, way.x),
            y: axis_after(self.y, way.y),
            z: axis_after(self.z, way.z),
            spare: axis_after(self.spare, way.flag),
        }
    }

    /// The place from which a short way leads here.
    #[inline(always)]
    pub(crate) fn minus(self, way: Row) -> Place
        requires place { Within (2 ^ 29) (place_in_row self) }
        requires spare { self.spare ≡ pos 0 }
        requires way { Within (2 ^ 22) (vector_of way) }
        requires flag { way.flag ≡ pos 0 }
        ensures { result ≡ row_of (minus (place_in_row self) (vector_of way)) }
    {
        Place {
            x: axis_before(self.x, way.x),
            y: axis_before(self.y, way.y),
            z: axis_before(self.z, way.z),
            spare: axis_before(self.spare, way.flag),
        }
    }
}

impl High {
    // Those of a place of which 32 bits hold each axis.
    const ZERO: High = High { x: 0, y: 0, z: 0 };
}

impl Halves {
    /// Those of a place.
    #[inline(always)]
    pub(crate) fn of(place: Vec3) -> Halves
        ensures place { place_by (place_in_row result.low) result.high ≡ place }
        ensures spare { result.low.spare ≡ pos 0 }
    {
        let x = halves_of(place.x);
        let y = halves_of(place.y);
        let z = halves_of(place.z);
        Halves {
            low: Place {
                x: x.low,
                y: y.low,
                z: z.low,
                spare: 0,
            },
            high: High {
                x: x.high,
                y: y.high,
                z: z.high,
            },
        }
    }

    /// The place of these halves.
    #[inline(always)]
    fn place(self) -> Vec3
        ensures { result ≡ place_by (place_in_row self.low) self.high }
    {
        Vec3 {
            x: axis_by(self.low.x, self.high.x),
            y: axis_by(self.low.y, self.high.y),
            z: axis_by(self.low.z, self.high.z),
        }
    }
}

/// One of the two places of a particle.
#[derive(Clone, Copy)]
pub(crate) enum PlaceKind {
    At,
    Before,
}

fn place_in(particle: Particle, which: PlaceKind) -> Vec3
    ensures { result ≡ place_of_kind which particle }
{
    match which {
        PlaceKind::At => particle.at,
        PlaceKind::Before => particle.before,
    }
}

/// A column with n more entries at its end.
pub(crate) fn padded<T: Copy + Drop>(
    mut column: Vec<T>,
    n: usize,
    zero: T,
) -> Result<Vec<T>, AllocError>
    ensures { IfOk result (λ v. v.items ≡ column.items ++ replicate n zero) }
{
    for _ in 0..n {
        column.push(zero)?;
    }
    Ok(column)
}

// A column of one entry, m and n times.
fn repeated<T: Copy + Drop>(
    alloc: Global,
    entry: T,
    m: usize,
    n: usize,
) -> Result<Vec<T>, AllocError>
    ensures { IfOk result (λ v. v.items ≡ replicate m entry ++ replicate n entry) }
{
    let column = padded(Vec::new(alloc), m, entry)?;
    padded(column, n, entry)
}

/// L numbers in their order.
#[inline(always)]
pub(crate) fn numbers_from<const L: usize>(start: usize) -> [usize; L]
    requires start { start ≤ 65536 }
    requires lanes { L ≤ 16 }
    ensures { result ≡ lanes_of L (λ j. start + j) }
{
    let mut numbers = [0; L];
    for j in 0..L {
        numbers[j] = start + j;
    }
    numbers
}

/// The row of a place in a list of rows.
#[inline(always)]
pub(crate) fn row_in(rows: &[Place], i: u32) -> Place
    requires some { i < length rows.now }
    requires flat { AreFlat rows.now }
    ensures { result ≡ row_of (place_at (places_in rows.now) i) }
{
    rows[i as usize]
}

/// Puts another row into a list of rows.
#[inline(always)]
pub(crate) fn put_row(rows: &mut [Place], i: u32, row: Place)
    requires some { i < length rows.old }
    requires flat { AreFlat rows.old }
    requires spare { row.spare ≡ pos 0 }
    ensures places { places_in rows.new ≡ slice_set (places_in rows.old) i (place_in_row row) }
    ensures flat { AreFlat rows.new }
{
    rows[i as usize] = row;
}

/// A list of places, in halves: the loops that take the ways between pairs, and that pull them, read and write the low ones alone.
#[derive(Drop)]
pub(crate) struct PlaceRows {
    pub(crate) low: Vec<Place>,
    pub(crate) high: Vec<High>,
}

impl Model for PlaceRows {
    ghost use Rattle.std.specs.Prelude.{List};
    ghost use Rattle.pbd_num.specs.declared.Vec3.{Vec3};
    ghost use Rattle.pbd_store.specs.InRows.{places_by, AreHalves};

    ghost Value = { List Vec3 };

    ghost view = { λ s. places_by s.low.items s.high.items };

    ghost invariant = { λ s. AreHalves s.low.items s.high.items };
}

impl PlaceRows {
    // Zeros, m and n of them.
    fn zeros(alloc: Global, m: usize, n: usize) -> Result<PlaceRows, AllocError>
        ensures long { IfOk result (λ s. length s ≡ m + n) }
        ensures each { IfOk result (λ s. (i : ℕ) → place_at s i ≡ zero_vector) }
    {
        let low = repeated(alloc, Place::ZERO, m, n)?;
        let high = repeated(alloc, High::ZERO, m, n)?;
        Ok(PlaceRows { low, high })
    }

    /// A place of each particle, and n zeros.
    pub(crate) fn open(
        alloc: Global,
        particles: &[Particle],
        n: usize,
        which: PlaceKind,
    ) -> Result<PlaceRows, AllocError>
        ensures { IfOk result (λ s. s ≡ map (place_of_kind which) particles.now ++ replicate n zero_vector) }
    {
        let mut places = PlaceRows::zeros(alloc, particles.len(), n)?;
        for i in 0..particles.len() {
            places.set(i, place_in(particles[i], which));
        }
        Ok(places)
    }

    /// The place at i.
    #[inline(always)]
    pub(crate) fn get(&self, i: usize) -> Vec3
        requires { i < length self.now }
        ensures { result ≡ place_at self.now i }
    {
        let low = self.low[i];
        let high = self.high[i];
        Halves { low, high }.place()
    }

    /// Puts another place at i.
    #[inline(always)]
    pub(crate) fn set(&mut self, i: usize, place: Vec3)
        requires { i < length self.old }
        ensures { self.new ≡ slice_set self.old i place }
    {
        let halves = Halves::of(place);
        self.low[i] = halves.low;
        self.high[i] = halves.high;
    }

    #[inline(always)]
    fn set_if(&mut self, i: usize, wanted: bool, place: Vec3)
        requires { IsTrue wanted → i < length self.old }
        ensures { self.new ≡ (if wanted then slice_set self.old i place else self.old) }
    {
        if wanted {
            self.set(i, place);
        }
    }

    /// The places at L numbers.
    #[inline(always)]
    pub(crate) fn picked<const L: usize>(&self, numbers: [usize; L]) -> Lanes3<L>
        requires { (j : ℕ) → j < L → index_at numbers j < length self.now }
        ensures x { result.x ≡ lanes_of L (λ j. (place_at self.now (index_at numbers.entry j)).x) }
        ensures y { result.y ≡ lanes_of L (λ j. (place_at self.now (index_at numbers.entry j)).y) }
        ensures z { result.z ≡ lanes_of L (λ j. (place_at self.now (index_at numbers.entry j)).z) }
    {
        let mut x = [0; L];
        let mut y = [0; L];
        let mut z = [0; L];
        for j in 0..L {
            let place = self.get(numbers[j]);
            x[j] = place.x;
            y[j] = place.y;
            z[j] = place.z;
        }
        Lanes3 {
            x: Lanes::from_array(x),
            y: Lanes::from_array(y),
            z: Lanes::from_array(z),
        }
    }

    /// Puts other places to those of L from `start` on whose lanes are set.
    #[inline(always)]
    pub(crate) fn set_where<const L: usize>(
        &mut self,
        start: usize,
        set: &Mask<L>,
        places: &Lanes3<L>,
    )
        requires start { start ≤ 65536 }
        requires lanes { L ≤ 16 }
        requires room { start + L ≤ length self.old }
        ensures { WrittenWhere L start set.now (place_of places.now.x places.now.y places.now.z) self.old self.new }
    {
        let chosen = set.to_array();
        for j in 0..L {
            self.set_if(start + j, chosen[j], places.place(j));
        }
    }

    /// The low rows of all places. Where no axis is above 2^30 in size, they are the places.
    #[inline(always)]
    pub(crate) fn rows(&self) -> &[Place]
        ensures long { length result.now ≡ length self.now }
        ensures places { (i : ℕ) → Within (2 ^ 30) (place_at self.now i) → place_at (places_in result.now) i ≡ place_at self.now i }
        ensures flat { AreFlat result.now }
    {
        self.low.as_slice()
    }

    /// Takes over the places of a list of the same length.
    pub(crate) fn copy_from(&mut self, other: &PlaceRows)
        requires { length self.old ≡ length other.now }
        ensures { self.new ≡ other.now }
    {
        self.low.copy_from_slice(&other.low);
        self.high.copy_from_slice(&other.high);
    }
}
