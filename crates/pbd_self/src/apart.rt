//! Which near particles may touch.
ghost use Rattle.std.specs.Prelude.{◌≡◌, ◌<◌, ◌≤◌, [], pos, ◌≤ℤ◌, length, OnOk, OnErr};
ghost use Rattle.pbd_grid.specs.Looks.{looks_for};
ghost use Rattle.pbd_grid.specs.Near.{AllInside, near_pairs};
ghost use Rattle.pbd_self.specs.Apart.{held_at, may_touch};

use pbd_colour::Colouring;
use pbd_grid::{Grid, PairFilter};
use pbd_num::Vec3;
use pbd_world::{Full, RoomList};

/// Keeps two particles that aren't both held and that no live link joins.
#[derive(Drop)]
pub(crate) struct Apart<'a> {
    /// For each particle whether it is held.
    pub(crate) held: &'a [bool],
    pub(crate) links: &'a Colouring,
}

fn is_held(held: &[bool], i: u32) -> bool
    ensures { result ≡ held_at held.now i }
{
    match held.get(i as usize) {
        Some(flag) => *flag,
        None => false,
    }
}

impl<'a> PairFilter for Apart<'a> {
    ghost use Rattle.pbd_self.specs.Apart.{may_touch};

    ghost particles = { λ s. s.links.now.particles };

    ghost test = { λ s i j. may_touch s.held.now s.links.now i j };

    fn keeps(&self, i: u32, j: u32) -> bool {
        !(is_held(self.held, i) && is_held(self.held, j)) && !self.links.linked(i, j)
    }
}

impl Apart<'_> {
    /// Lists the near pairs of places that are kept, in order. The list is empty where these are more than there is
    /// room for.
    pub(crate) fn find(
        &self,
        grid: &mut Grid,
        places: &[Vec3],
        thickness: i64,
        out: &mut RoomList<(u32, u32)>,
    ) -> Result<(), Full>
        requires places { length places.now ≡ grid.old.particles }
        requires links { self.now.links.now.particles ≡ grid.old.particles }
        requires inside { AllInside places.now }
        requires low { pos 1 ≤ℤ thickness }
        requires high { thickness ≤ℤ pos 1048576 }
        ensures same { grid.new ≡ record grid.old { looks = grid.new.looks } }
        ensures room { out.new.room ≡ out.old.room }
        ensures pairs { OnOk result (out.new.entries ≡ near_pairs places.now thickness (may_touch self.now.held.now self.now.links.now)) }
        ensures fits { OnOk result
            (length (near_pairs places.now thickness (may_touch self.now.held.now self.now.links.now)) ≤ out.old.room) }
        ensures full { OnErr result
            (out.old.room < length (near_pairs places.now thickness (may_touch self.now.held.now self.now.links.now))) }
        ensures emptied { OnErr result (out.new.entries ≡ []) }
        ensures looks { OnOk result (grid.new.looks ≡ looks_for grid.old.chains thickness places.now) }
        ensures most { grid.new.looks ≤ looks_for grid.old.chains thickness places.now }
    {
        grid.pairs(places, thickness, self, out)
    }
}
