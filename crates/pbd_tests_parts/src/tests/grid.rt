//! Near pairs by cells, beside those found by looking at all.
ghost use Rattle.std.specs.Prelude.{◌≡◌, ◌≤◌, ◌≤ℤ◌, IsTrue, pos, length};
ghost use Rattle.pbd_grid.specs.Near.{AllInside};

use pbd_grid::{Grid, PairFilter};
use pbd_num::{RANGE, Vec3, inside};
use pbd_tests_rows::{WrongRows, each_row, place, squared_distance};
use pbd_world::RoomList;
use std::alloc::Global;

// Keeps all pairs but one.
#[derive(Clone, Copy, Drop)]
struct AllBut {
    count: u32,
    first: u32,
    second: u32,
}

impl PairFilter for AllBut {
    ghost use Rattle.std.specs.Prelude.{◌==◌, ◌&&◌, not};

    ghost particles = { λ s. s.count };

    ghost test = { λ s i j. not (i == s.first && j == s.second) };

    fn keeps(&self, i: u32, j: u32) -> bool {
        !(i == self.first && j == self.second)
    }
}

// Whether each place is in range.
fn are_inside(places: &[Vec3]) -> bool
    ensures { IsTrue result → AllInside places.now }
{
    for place in places {
        if !inside(*place) {
            return false;
        }
    }
    true
}

// Adds the near pairs that are kept, by looking at all.
fn push_near(pairs: &mut Vec<(u32, u32)>, places: &[Vec3], thickness: i64, filter: &AllBut) -> bool
    requires { length places.now ≤ 64 }
{
    let bound = thickness.wrapping_mul(thickness);
    let count = places.len() as u32;
    for i in 0..count {
        for j in i + 1..count {
            let squared = squared_distance(places[i as usize], places[j as usize]);
            let is_left_out = i == filter.first && j == filter.second;
            if squared < bound && !is_left_out && pairs.push((i, j)).is_err() {
                return false;
            }
        }
    }
    true
}

// Places and a thickness, with the pairs that are near and kept, and how often a whole search reads its chains.
#[derive(Clone, Copy)]
struct Near<'a> {
    places: &'a [Vec3],
    thickness: i64,
    filter: AllBut,
    wanted: &'a [(u32, u32)],
    looks: u64,
}

// Whether a grid that read its chains so often found the wanted pairs where there is room for them, and none where there isn't.
fn is_found(near: &Near<'_>, fits: bool, looks: u64, out: &RoomList<(u32, u32)>) -> bool {
    if near.wanted.len() > out.room() as usize {
        return !fits && out.as_slice().len() == 0 && looks <= near.looks;
    }
    fits && out.as_slice() == near.wanted && looks == near.looks
}

// Whether a grid finds the pairs that it is to find with room for so many, and what that costs. None where there is no memory.
fn finds_with(alloc: Global, near: &Near<'_>, grid: &mut Grid, room: u32) -> Option<bool>
    requires places { length near.now.places.now ≡ grid.old.particles }
    requires inside { AllInside near.now.places.now }
    requires count { near.now.filter.count ≡ grid.old.particles }
    requires low { pos 1 ≤ℤ near.now.thickness }
    requires high { near.now.thickness ≤ℤ pos 1048576 }
    ensures { grid.new.particles ≡ grid.old.particles }
{
    match RoomList::open(alloc, room) {
        Ok(mut out) => {
            let fits = grid
                .pairs(near.places, near.thickness, &near.filter, &mut out)
                .is_ok();
            let found = is_found(near, fits, grid.looks(), &out);
            drop(out);
            Some(found)
        }
        Err(_) => None,
    }
}

// Compares a grid of its own with the wanted pairs, at a room that is just enough and at one too small.
fn finds_both(alloc: Global, near: &Near<'_>) -> [Option<bool>; 2]
    requires few { length near.now.places.now ≤ 64 }
    requires inside { AllInside near.now.places.now }
    requires count { near.now.filter.count ≡ length near.now.places.now }
    requires low { pos 1 ≤ℤ near.now.thickness }
    requires high { near.now.thickness ≤ℤ pos 1048576 }
    requires wanted { length near.now.wanted.now ≤ 64 }
{
    let room = near.wanted.len() as u32;
    match Grid::open(alloc, near.places.len() as u32) {
        Ok(mut grid) => {
            let found = [
                finds_with(alloc, near, &mut grid, room),
                finds_with(alloc, near, &mut grid, room.saturating_sub(1)),
            ];
            drop(grid);
            found
        }
        Err(_) => [None; 2],
    }
}

// A thickness, places, how many pairs are near and kept, and how often a search reads its chains.
type Row = (i64, &'static [Vec3], usize, u64);

// Compares a grid with all pairs. None where there is no memory, the row is out of range, or another number of pairs is near and
// kept.
fn try_places(alloc: Global, row: &Row, wanted: &mut Vec<(u32, u32)>) -> Option<[Option<bool>; 2]> {
    let (thickness, places, count, looks) = *row;
    if thickness < 1 {
        return None;
    }
    if thickness > 1_048_576 {
        return None;
    }
    if places.len() > 64 {
        return None;
    }
    if !are_inside(places) {
        return None;
    }
    let filter = AllBut {
        count: places.len() as u32,
        first: 0,
        second: 2,
    };
    if !push_near(wanted, places, thickness, &filter) || wanted.len() != count {
        return None;
    }
    if wanted.len() > 64 {
        return None;
    }
    let near = Near {
        places,
        thickness,
        filter,
        wanted: wanted.as_slice(),
        looks,
    };
    Some(finds_both(alloc, &near))
}

const LINE: [Vec3; 3] = in_line!(place);

const BESIDE_ZERO: [Vec3; 2] = beside_zero!(place);

const CORNER: [Vec3; 8] = corner!(place);

const EQUAL: [Vec3; 4] = equal!(place);

const WIDE: [Vec3; 7] = wide!(place);

// The readings were counted apart from the grid, from the cells of the places: eight for each, and one for each later one in a chain.
static PLACES: [Row; 5] = [
    // Three in a line: 100 apart isn't nearer than 100.
    (100, &LINE, 2, 28),
    // On both sides of 0, and round a corner where eight cells meet.
    (2, &BESIDE_ZERO, 1, 19),
    (2, &CORNER, 27, 92),
    // Equal places are near at thickness 1, others aren't.
    (1, &EQUAL, 3, 44),
    // The greatest thickness, at the ends of the range and on the edges of cells.
    (1_048_576, &WIDE, 4, 64),
];

// The same with pairs of its own.
fn try_row(alloc: Global, row: &Row) -> Option<[Option<bool>; 2]> {
    let mut pairs = Vec::new(alloc);
    let told = try_places(alloc, row, &mut pairs);
    drop(pairs);
    told
}

#[test]
fn near_pairs_are_those_of_all(rt: HostRuntime) -> Result<(), WrongRows> {
    each_row!(rt, &PLACES, "with room and without", row => try_row(rt.alloc(), row), &Some([Some(true); 2]))
}
