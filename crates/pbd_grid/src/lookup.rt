//! Cells of places, and what is found by looking them up.
ghost use Rattle.std.specs.Prelude.{◌≡◌, ◌+◌, ◌/◌, ◌%◌, ◌<◌, ◌≤◌, ◌^◌, ◌++◌, ◌&&◌, ◌==◌, length, unsigned_abs};
ghost use Rattle.pbd_num.specs.Vectors.{Within};
ghost use Rattle.pbd_grid.specs.Blocks.{Below, axis_cell, cube_of, home_of, corner_of, beside, cell_at, same_cell, slot_of};
ghost use Rattle.pbd_grid.specs.Blocks.{keep, picked_one};
ghost use Rattle.pbd_grid.specs.Crowds.{IsLaid, IsBegun, picked_in, picked_round, looked_in, looked_round};

use crate::near::near;
use crate::pairs::PairFilter;
use pbd_chain::Chains;
use pbd_num::Vec3;
use pbd_world::RoomList;

/// A cube of the grid, by its number on each axis: one of the thickness, or a cell of twice that.
#[derive(Clone, Copy)]
pub(crate) struct GridCell {
    x: u32,
    y: u32,
    z: u32,
}

/// How places are put into cells.
#[derive(Clone, Copy)]
pub(crate) struct Cells {
    /// The side of a cube, which is half that of a cell, in 1..=1,048,576.
    pub(crate) side: u32,
    /// How many chains there are for all cells: a power of two.
    pub(crate) count: u32,
}

/// What is searched: places, their cubes, and chains that hold the numbers of those in each cell.
#[derive(Drop)]
pub(crate) struct Crowd<'a> {
    pub(crate) chains: &'a Chains,
    pub(crate) cubes: &'a [GridCell],
    pub(crate) places: &'a [Vec3],
    pub(crate) cells: Cells,
}

// The number of the cube of a coordinate, by a division of 32 bits, which is faster than one of 64 on many processors.
fn on_axis(x: i64, side: u32) -> u32
    requires x { unsigned_abs x ≤ 2 ^ 29 }
    requires low { 0 < side }
    requires high { side ≤ 1048576 }
    ensures value { result ≡ axis_cell side x }
    ensures bounded { result < 1073741825 }
{
    let far = x.unsigned_abs() as u32;
    if x < 0 {
        536_870_911 - (far - 1) / side
    } else {
        536_870_912 + far / side
    }
}

// The cube that a place is in.
pub(crate) fn cube(place: Vec3, side: u32) -> GridCell
    requires inside { Within (2 ^ 29) place }
    requires low { 0 < side }
    requires high { side ≤ 1048576 }
    ensures value { result ≡ cube_of side place }
    ensures bounded { Below 1073741825 result }
{
    GridCell {
        x: on_axis(place.x, side),
        y: on_axis(place.y, side),
        z: on_axis(place.z, side),
    }
}

// The cell that a cube is in.
pub(crate) fn home(cube: GridCell) -> GridCell
    requires { Below 1073741825 cube }
    ensures value { result ≡ home_of cube }
    ensures bounded { Below 1073741825 result }
{
    GridCell {
        x: (cube.x + 1) / 2,
        y: (cube.y + 1) / 2,
        z: (cube.z + 1) / 2,
    }
}

// The least of the eight cells that what is near a place of a cube is in.
pub(crate) fn corner(cube: GridCell) -> GridCell
    requires { Below 1073741825 cube }
    ensures value { result ≡ corner_of cube }
    ensures bounded { Below 536870913 result }
{
    GridCell {
        x: cube.x / 2,
        y: cube.y / 2,
        z: cube.z / 2,
    }
}

// One of the eight cells from a corner on.
fn part_of_block(from: GridCell, n: u32) -> GridCell
    requires from { Below 536870913 from }
    requires n { n < 8 }
    ensures value { result ≡ beside from (n % 2) (n / 2 % 2) (n / 4) }
    ensures bounded { Below 1073741825 result }
{
    GridCell {
        x: from.x + n % 2,
        y: from.y + n / 2 % 2,
        z: from.z + n / 4,
    }
}

// The chain for a cell, of a number that is a power of two: the upper bits of y and z spread over 32 bits, plus x.
#[tactic(auto, unfolding(crate::specs::Blocks::slot_of))]
pub(crate) fn slot(cell: GridCell, count: u32) -> u32
    requires cell { Below 1073741825 cell }
    requires count { 0 < count }
    ensures value { result ≡ slot_of count cell }
    ensures below { result < count }
{
    let spread = u64::from(cell.y) * 2_654_435_769 + u64::from(cell.z) * 2_246_822_507;
    ((spread % 4_294_967_296) as u32 / 2048 + cell.x) & (count - 1)
}

// Whether a cube is in a cell.
fn is_in(cube: GridCell, cell: GridCell) -> bool
    requires { Below 1073741825 cube }
    ensures { result ≡ same_cell cell (home_of cube) }
{
    let own = home(cube);
    cell.z == own.z && cell.y == own.y && cell.x == own.x
}

// Appends an item where it is wanted.
fn push_if(found: &mut RoomList<u32>, is_wanted: bool, j: u32)
    requires { length found.old.entries + length (picked_one is_wanted j) ≤ found.old.room }
    ensures { found.new ≡ record found.old { entries = found.old.entries ++ picked_one is_wanted j } }
{
    if is_wanted {
        let _ = found.push(j);
    }
}

// A cell, and the first of its chain.
#[derive(Clone, Copy)]
struct Begun {
    cell: GridCell,
    first: u32,
}

impl Crowd<'_> {
    // Whether j, behind i, is to be found with i in a cell.
    fn wanted<F: PairFilter>(&self, filter: &F, i: u32, cell: GridCell, j: u32) -> bool
        requires laid { IsLaid self.now }
        requires filter { F.particles filter.now ≡ length self.now.places.now }
        requires i { i < length self.now.places.now }
        requires behind { i < j }
        ensures { result ≡ (same_cell cell (cell_at self.now.cells.side self.now.places.now j)
            && keep self.now.places.now self.now.cells.side (F.test filter.now) i j) }
    {
        if j as usize >= self.places.len() {
            return false;
        }
        if !near(
            self.places[i as usize],
            self.places[j as usize],
            self.cells.side,
        ) {
            return false;
        }
        if !is_in(self.cubes[j as usize], cell) {
            return false;
        }
        filter.keeps(i, j)
    }

    // Finds what is wanted with i in one cell, from the first of its chain on, and counts how often the
    // chain is read for it. What stands behind i comes first in each chain. Most cells have no such
    // chain, so that this is kept apart from the look-up.
    #[inline(never)]
    fn follow<F: PairFilter>(
        &self,
        filter: &F,
        i: u32,
        begun: Begun,
        found: &mut RoomList<u32>,
    ) -> u64
        requires laid { IsLaid self.now }
        requires filter { F.particles filter.now ≡ length self.now.places.now }
        requires i { i < length self.now.places.now }
        requires begun { IsBegun self.now begun.cell begun.first }
        requires room { length found.old.entries + length (picked_in self.now (F.test filter.now) i begun.cell) ≤ found.old.room }
        ensures found { found.new
            ≡ record found.old { entries = found.old.entries ++ picked_in self.now (F.test filter.now) i begun.cell } }
        ensures looks { result ≡ looked_in self.now i begun.cell }
    {
        let mut looks = 1;
        let mut j = begun.first;
        'behind: while i < j {
            push_if(found, self.wanted(filter, i, begun.cell, j), j);
            looks += 1;
            let Some(next) = self.chains.next(j) else {
                break;
            };
            j = next;
        }
        looks
    }

    // Finds what is wanted with i in one cell, and counts how often the chain is read for it: once
    // where nothing in it stands behind i.
    #[inline(always)]
    fn look_up<F: PairFilter>(
        &self,
        filter: &F,
        i: u32,
        cell: GridCell,
        found: &mut RoomList<u32>,
    ) -> u64
        requires laid { IsLaid self.now }
        requires filter { F.particles filter.now ≡ length self.now.places.now }
        requires i { i < length self.now.places.now }
        requires cell { Below 1073741825 cell }
        requires room { length found.old.entries + length (picked_in self.now (F.test filter.now) i cell) ≤ found.old.room }
        ensures found { found.new ≡ record found.old { entries = found.old.entries ++ picked_in self.now (F.test filter.now) i cell } }
        ensures looks { result ≡ looked_in self.now i cell }
    {
        let Some(first) = self.chains.first(slot(cell, self.cells.count)) else {
            return 1;
        };
        if first <= i {
            return 1;
        }
        self.follow(filter, i, Begun { cell, first }, found)
    }

    // Finds what is wanted with i in the eight cells from a corner on, and counts the readings.
    pub(crate) fn look_round<F: PairFilter>(
        &self,
        filter: &F,
        i: u32,
        from: GridCell,
        found: &mut RoomList<u32>,
    ) -> u64
        requires laid { IsLaid self.now }
        requires filter { F.particles filter.now ≡ length self.now.places.now }
        requires i { i < length self.now.places.now }
        requires from { Below 536870913 from }
        requires room { length found.old.entries + length (picked_round self.now (F.test filter.now) i from) ≤ found.old.room }
        ensures found { found.new ≡ record found.old { entries = found.old.entries ++ picked_round self.now (F.test filter.now) i from } }
        ensures looks { result ≡ looked_round self.now i from }
    {
        let mut looks = 0;
        for n in 0..8 {
            let cell = part_of_block(from, n);
            looks += self.look_up(filter, i, cell, found);
        }
        looks
    }
}
