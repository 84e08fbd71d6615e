//! The contacts of so many particles, and their colours.
ghost use Rattle.std.specs.Prelude.{◌≡◌, ◌+◌, ◌*◌, ◌<◌, ◌≤◌, [], true, pos, ◌≤ℤ◌, length, map, replicate, IfOk, OnOk, OnErr};
ghost use Rattle.pbd_store.specs.Moving.{AreInside};
ghost use Rattle.pbd_colour.specs.Pairs.{InRange};
ghost use Rattle.pbd_self.specs.Touching.{touching, looks_at, AreOrdered};

use crate::apart::Apart;
use crate::places::copy_particles;
use pbd_colour::Colouring;
use pbd_grid::Grid;
use pbd_num::Vec3;
use pbd_store::{Steps, Store};
use pbd_world::{Full, MOST_CONTACTS, RoomList};
use std::alloc::{AllocError, Global};
use std::marker::Model;
use std::sync::ledger::Ledger;

// Colours pairs anew, all of them live.
fn colour(colouring: &mut Colouring, pairs: &[(u32, u32)])
    requires in_range { InRange colouring.old.particles pairs.now }
    requires few { length pairs.now ≤ colouring.old.room }
    ensures { colouring.new ≡ record colouring.old { pairs = pairs.now; live = replicate (length pairs.now) true } }
{
    colouring.refill(pairs);
}

// Room for the places of so many particles, and for whether they are held.
fn open_copies(
    alloc: Global,
    particles: u32,
) -> Result<(RoomList<Vec3>, RoomList<bool>), AllocError>
    ensures places { IfOk result (λ lists. lists.0.room ≡ particles) }
    ensures held { IfOk result (λ lists. lists.1.room ≡ particles) }
{
    let places = RoomList::open(alloc, particles)?;
    match RoomList::open(alloc, particles) {
        Ok(held) => Ok((places, held)),
        Err(AllocError) => {
            drop(places);
            Err(AllocError)
        }
    }
}

// Room for contacts, of which there are none yet, and for their colours.
fn open_pairs(
    alloc: Global,
    particles: u32,
) -> Result<(RoomList<(u32, u32)>, Colouring), AllocError>
    requires { particles ≤ 65536 }
    ensures pairs { IfOk result (λ both. both.0 ≡ record { entries = []; room = 262144 }) }
    ensures colouring { IfOk result (λ both. both.1 ≡ record { particles = particles; room = 262144; pairs = []; live = [] }) }
{
    let pairs = RoomList::open(alloc, MOST_CONTACTS)?;
    match Colouring::open(alloc, particles, MOST_CONTACTS) {
        Ok(colouring) => Ok((pairs, colouring)),
        Err(AllocError) => {
            drop(pairs);
            Err(AllocError)
        }
    }
}

/// The pairs of particles that touch each other in a step, and their colours. Only opening takes memory.
#[derive(Drop)]
pub struct SelfContacts {
    particles: u32,
    grid: Grid,
    pairs: RoomList<(u32, u32)>,
    colouring: Colouring,
    places: RoomList<Vec3>,
    held: RoomList<bool>,
    /// How often the last search read its chains, and 0 where the thickness was 0.
    looks: u64,
}

impl Model for SelfContacts {
    ghost use Rattle.pbd_self.specs.Touching.{Found};
    ghost use Rattle.pbd_self.specs.Ready.{IsReady};

    ghost Value = { Found };

    ghost view = { λ s. record { particles = s.particles; pairs = s.pairs.entries; chains = s.grid.chains; looks = s.looks } };

    ghost invariant = { λ s. IsReady s.particles s.grid s.pairs s.colouring s.places s.held };
}

impl SelfContacts {
    /// Makes room for the contacts of so many particles, at most 65,536. There are none yet.
    pub fn open(alloc: Global, particles: u32) -> Result<SelfContacts, AllocError>
        requires { particles ≤ 65536 }
        ensures empty { IfOk result (λ c. c ≡ record { particles = particles; pairs = []; chains = c.chains; looks = 0 }) }
        ensures chains { IfOk result (λ c. 4 * particles ≤ c.chains) }
    {
        let grid = Grid::open(alloc, particles)?;
        match open_pairs(alloc, particles) {
            Ok((pairs, colouring)) => match open_copies(alloc, particles) {
                Ok((places, held)) => Ok(SelfContacts {
                    particles,
                    grid,
                    pairs,
                    colouring,
                    places,
                    held,
                    looks: 0,
                }),
                Err(AllocError) => {
                    drop(colouring);
                    drop(pairs);
                    drop(grid);
                    Err(AllocError)
                }
            },
            Err(AllocError) => {
                drop(grid);
                Err(AllocError)
            }
        }
    }

    // Forgets all pairs.
    fn clear(&mut self)
        ensures { self.new ≡ record self.old { pairs = []; looks = 0 } }
    {
        self.pairs.clear();
        self.looks = 0;
        self.colouring.refill(&[]);
    }

    /// Finds the contacts of a step: the pairs of particles less than `thickness` apart that aren't
    /// both held and that no live link joins.
    ///
    /// The store has so many particles, all within its limit, and the colouring of the links is over
    /// as many. The thickness is 0 to 1,048,576, in units of 1/65,536 metre; at 0 there are no
    /// contacts. `Full` comes exactly where the contacts are more than 262,144, and none are kept
    /// then. The store is reached at most once for each particle, and not at all where the thickness is 0.
    /// What the search costs besides is told by `looks`.
    pub fn detect<const L: usize, G: Ledger>(
        &mut self,
        store: &Store<L>,
        links: &Colouring,
        thickness: i64,
        steps: &mut Steps<G>,
    ) -> Result<(), Full>
        requires len { length store.now.particles ≡ self.old.particles }
        requires colouring { links.now.particles ≡ self.old.particles }
        requires low { pos 0 ≤ℤ thickness }
        requires high { thickness ≤ℤ pos 1048576 }
        requires inside { AreInside store.now.limit store.now.particles }
        ensures found { OnOk result (self.new ≡ record self.old {
          pairs = touching thickness links.now store.now.particles;
          looks = looks_at self.old.chains thickness store.now.particles;
        }) }
        ensures few { OnOk result (length (touching thickness links.now store.now.particles) ≤ 262144) }
        ensures full { OnErr result (262144 < length (touching thickness links.now store.now.particles)) }
        ensures emptied { OnErr result (self.new ≡ record self.old { pairs = []; looks = self.new.looks }) }
        ensures most { self.new.looks ≤ looks_at self.old.chains thickness store.now.particles }
        ensures cost { steps.new ≤ steps.old + self.old.particles }
        ensures free { thickness ≡ pos 0 → steps.new ≡ steps.old }
    {
        if thickness == 0 {
            self.clear();
            return Ok(());
        }
        copy_particles(store, &mut self.places, &mut self.held, steps);
        let places = self.places.as_slice();
        let held = self.held.as_slice();
        let apart = Apart { held, links };
        let found = apart.find(&mut self.grid, places, thickness, &mut self.pairs);
        self.looks = self.grid.looks();
        colour(&mut self.colouring, self.pairs.as_slice());
        found
    }

    /// The pairs that touch, each with the lower number first, in order.
    pub fn pairs(&self) -> &[(u32, u32)]
        ensures value { result.now ≡ self.now.pairs }
        ensures ordered { AreOrdered self.now.particles result.now }
        ensures in_range { InRange self.now.particles result.now }
        ensures few { length result.now ≤ 262144 }
    {
        self.pairs.as_slice()
    }

    /// How often the last search read the chains in which it looks particles up, as `Grid::looks` tells it, and 0 where the
    /// thickness was 0.
    pub fn looks(&self) -> u64
        ensures { result ≡ self.now.looks }
    {
        self.looks
    }

    /// How many pairs touch, at most 262,144.
    pub fn count(&self) -> u32
        ensures value { result ≡ length self.now.pairs }
        ensures few { result ≤ 262144 }
    {
        self.pairs.as_slice().len() as u32
    }

    /// The colours of the pairs that touch, all of which are live.
    pub fn colouring(&self) -> &Colouring
        ensures pairs { result.now.pairs ≡ self.now.pairs }
        ensures live { result.now.live ≡ map (λ pair. true) self.now.pairs }
        ensures particles { result.now.particles ≡ self.now.particles }
    {
        &self.colouring
    }
}
