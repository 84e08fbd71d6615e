//! The near pairs of all particles.
ghost use Rattle.std.specs.Prelude.{◌≡◌, ◌+◌, ◌*◌, ◌<◌, ◌≤◌, [], ℕ, Bool, pos, ◌≤ℤ◌, length, IfOk, OnOk, OnErr};
ghost use Rattle.pbd_grid.specs.Blocks.{kept_row, corner_of, cube_at};
ghost use Rattle.pbd_grid.specs.Crowds.{IsLaid, looked_round};
ghost use Rattle.pbd_grid.specs.Near.{AllInside, near_pairs};
ghost use Rattle.pbd_grid.specs.Looks.{looks_for};

use crate::lookup::{Cells, Crowd, GridCell, corner};
use crate::rows::{append_row, link_all, sort_row};
use pbd_chain::Chains;
use pbd_num::Vec3;
use pbd_world::{Full, RoomList};
use std::alloc::{AllocError, Global};
use std::marker::Model;

/// A test on pairs of particles.
pub trait PairFilter {
    /// The number of particles.
    ghost particles: { Self → ℕ };

    /// The pairs that it keeps.
    ghost test: { Self → ℕ → ℕ → Bool };

    /// Whether the pair of two particles i < j is kept.
    fn keeps(&self, i: u32, j: u32) -> bool
        requires ordered { i < j }
        requires in_range { j < particles self.now }
        ensures { result ≡ test self.now i j };
}

/// Finds the near pairs of a number of places. Only opening takes memory.
#[derive(Drop)]
pub struct Grid {
    particles: u32,
    chains: Chains,
    /// The number of the chains.
    count: u32,
    cubes: RoomList<GridCell>,
    found: RoomList<u32>,
    /// How often the last search read the chains.
    looks: u64,
}

impl Model for Grid {
    ghost use Rattle.pbd_grid.specs.Looks.{Searched};
    ghost use Rattle.pbd_grid.specs.Ready.{IsReady};

    ghost Value = { Searched };

    ghost view = { λ s. record { particles = s.particles; chains = s.count; looks = s.looks } };

    ghost invariant = { λ s. IsReady s.particles s.chains s.count s.cubes s.found };
}

// The number of chains for so many particles: a power of two, four or more for each.
fn chains_for(particles: u32) -> u32
    requires { particles ≤ 65536 }
    ensures many { 4 * particles ≤ result }
    ensures some { 0 < result }
    ensures few { result ≤ 2097152 }
{
    (4 * particles.max(1)).next_power_of_two()
}

impl Crowd<'_> {
    // Finds the particles behind i that stand near it and that the filter keeps, and counts how often
    // the chains are read for them.
    fn find_row<F: PairFilter>(&self, filter: &F, i: u32, found: &mut RoomList<u32>) -> u64
        requires laid { IsLaid self.now }
        requires filter { F.particles filter.now ≡ length self.now.places.now }
        requires i { i < length self.now.places.now }
        requires room { length self.now.places.now ≤ found.old.room }
        ensures found { found.new ≡ record found.old { entries = kept_row self.now.places.now self.now.cells.side (F.test filter.now) i } }
        ensures looks { result ≡ looked_round self.now i (corner_of (cube_at self.now.cells.side self.now.places.now i)) }
    {
        let from = corner(self.cubes[i as usize]);
        found.clear();
        let looks = self.look_round(filter, i, from, found);
        sort_row(found.as_mut_slice());
        looks
    }

    // Lists the near pairs row by row, from chains that hold each particle once, and counts how often
    // these are read.
    fn find_pairs<F: PairFilter>(
        &self,
        filter: &F,
        found: &mut RoomList<u32>,
        looks: &mut u64,
        out: &mut RoomList<(u32, u32)>,
    ) -> Result<(), Full>
        requires laid { IsLaid self.now }
        requires filter { F.particles filter.now ≡ length self.now.places.now }
        requires space { length self.now.places.now ≤ found.old.room }
        ensures kept { found.new.room ≡ found.old.room }
        ensures room { out.new.room ≡ out.old.room }
        ensures pairs { OnOk result (out.new.entries ≡ near_pairs self.now.places.now (pos self.now.cells.side) (F.test filter.now)) }
        ensures fits { OnOk result (length (near_pairs self.now.places.now (pos self.now.cells.side) (F.test filter.now)) ≤ out.old.room) }
        ensures full { OnErr result
            (out.old.room < length (near_pairs self.now.places.now (pos self.now.cells.side) (F.test filter.now))) }
        ensures emptied { OnErr result (out.new.entries ≡ []) }
        ensures looks { OnOk result (looks.new ≡ looks_for self.now.cells.count (pos self.now.cells.side) self.now.places.now) }
        ensures most { looks.new ≤ looks_for self.now.cells.count (pos self.now.cells.side) self.now.places.now }
    {
        out.clear();
        *looks = 0;
        for i in 0..self.places.len() as u32 {
            *looks += self.find_row(filter, i, found);
            if append_row(i, found.as_slice(), out).is_err() {
                out.clear();
                return Err(Full);
            }
        }
        Ok(())
    }
}

impl Grid {
    /// Makes room for so many particles, at most 65,536.
    pub fn open(alloc: Global, particles: u32) -> Result<Grid, AllocError>
        requires { particles ≤ 65536 }
        ensures particles { IfOk result (λ g. g.particles ≡ particles) }
        ensures chains { IfOk result (λ g. 4 * particles ≤ g.chains) }
        ensures looks { IfOk result (λ g. g.looks ≡ 0) }
    {
        let count = chains_for(particles);
        let chains = Chains::open(alloc, count, particles)?;
        let cubes = RoomList::open(alloc, particles)?;
        let found = RoomList::open(alloc, particles)?;
        Ok(Grid {
            particles,
            chains,
            count,
            cubes,
            found,
            looks: 0,
        })
    }

    /// Lists the pairs i < j of places less than `thickness` apart that the filter keeps, in order.
    ///
    /// There is a place for each particle, no axis of which is above 536,870,912 in size, and the
    /// thickness is 1 to 1,048,576, both in units of 1/65,536 metre. `Full` comes where the pairs
    /// are more than there is room for, and the list is then empty.
    ///
    /// `looks` then tells how often the search read its chains. After `Full` that is at most as often
    /// as a search to the end would.
    pub fn pairs<F: PairFilter>(
        &mut self,
        places: &[Vec3],
        thickness: i64,
        filter: &F,
        out: &mut RoomList<(u32, u32)>,
    ) -> Result<(), Full>
        requires places { length places.now ≡ self.old.particles }
        requires inside { AllInside places.now }
        requires filter { F.particles filter.now ≡ self.old.particles }
        requires low { pos 1 ≤ℤ thickness }
        requires high { thickness ≤ℤ pos 1048576 }
        ensures same { self.new ≡ record self.old { looks = self.new.looks } }
        ensures room { out.new.room ≡ out.old.room }
        ensures pairs { OnOk result (out.new.entries ≡ near_pairs places.now thickness (F.test filter.now)) }
        ensures fits { OnOk result (length (near_pairs places.now thickness (F.test filter.now)) ≤ out.old.room) }
        ensures full { OnErr result (out.old.room < length (near_pairs places.now thickness (F.test filter.now))) }
        ensures emptied { OnErr result (out.new.entries ≡ []) }
        ensures looks { OnOk result (self.new.looks ≡ looks_for self.old.chains thickness places.now) }
        ensures most { self.new.looks ≤ looks_for self.old.chains thickness places.now }
    {
        // What is less than the thickness from a place is in two cells an axis, of twice that edge.
        let side = thickness as u32;
        let cells = Cells {
            side,
            count: self.count,
        };
        link_all(&mut self.chains, &mut self.cubes, places, cells);
        let crowd = Crowd {
            chains: &self.chains,
            cubes: self.cubes.as_slice(),
            places,
            cells,
        };
        crowd.find_pairs(filter, &mut self.found, &mut self.looks, out)
    }

    /// How often the last search read its chains, which hold the particles by their cells.
    ///
    /// Each particle looks up eight cells. For each it reads the first of the cell's chain, and then
    /// what comes behind each particle of a higher number in that chain. Different cells may share a
    /// chain, so particles that are far apart may count too; there are four chains or more for each
    /// particle.
    pub fn looks(&self) -> u64
        ensures { result ≡ self.now.looks }
    {
        self.looks
    }
}
