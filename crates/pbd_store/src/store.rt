// The particles of a world, with the limit of their places, and what each access costs.
ghost use Rattle.std.specs.Prelude.{◌≡◌, ℕ, ◌<◌, ◌≤◌, ◌^◌, ◌+◌, ◌-◌, ◌*◌, min, pos, ◌≤ℤ◌, length, slice_set, IfOk, IsTrue, vec_len, unsigned_abs};
ghost use Rattle.pbd_lanes.specs.Lane.{is_set};
ghost use Rattle.pbd_world.specs.Particles.{particle_at, placed, effective_weight};
ghost use Rattle.pbd_world.specs.Valid.{is_limit};
ghost use Rattle.pbd_store.specs.Blocks.{blocks_of, loaded, filled_lanes, place_of, Saved};
ghost use Rattle.pbd_store.specs.Gathering.{index_at, gathered, NamesApart, Scattered};

use crate::columns::Columns;
use crate::lanes3::{Block, Ends, Lanes3};
use crate::span::{Span, particles_in};
use crate::steps::Steps;
use pbd_lanes::Mask;
use pbd_num::Vec3;
use pbd_world::Particle;
use std::alloc::{AllocError, Global};
use std::marker::Model;
use std::sync::ledger::Ledger;

/// The particles, with the limit within which their places are to stay.
/// The calls that reach one particle, or up to L of them, each raise the count of accesses by one. `fly`, `between`, `ways`,
/// `pull` and `move_each` raise it by two for each block of L particles or pairs. What takes over all particles at once is no
/// access: the store counts it itself.
#[derive(Drop)]
pub struct Store<const L: usize> {
    pub(crate) columns: Columns<L>,
    pub(crate) limit: i64,
    copies: u64,
}

impl<const L: usize> Model for Store<L> {
    ghost use Rattle.std.specs.Prelude.{IsTrue};
    ghost use Rattle.pbd_world.specs.Valid.{is_limit};
    ghost use Rattle.pbd_store.specs.Stored.{Stored};

    ghost Value = { Stored };

    ghost view = { λ s. record { particles = s.columns; limit = s.limit; copies = s.copies } };

    ghost invariant = { λ s. IsTrue (is_limit s.limit) };
}

impl<const L: usize> Store<L> {
    /// The only call of a store that takes memory. There are at most 65,536 particles, and the limit is 2^28 or 2^29.
    pub fn open(alloc: Global, particles: &[Particle], limit: i64) -> Result<Store<L>, AllocError>
        requires particles { length particles.now ≤ 65536 }
        requires limit { IsTrue (is_limit limit) }
        ensures particles { IfOk result (λ s. s.particles ≡ particles.now) }
        ensures limit { IfOk result (λ s. s.limit ≡ limit) }
        ensures copies { IfOk result (λ s. s.copies ≡ 0) }
    {
        let columns = Columns::open(alloc, particles)?;
        Ok(Store {
            columns,
            limit,
            copies: 0,
        })
    }

    /// 2^28 or 2^29, in units of 1/65,536 metre.
    pub fn limit(&self) -> i64
        ensures value { result ≡ self.now.limit }
        ensures either { IsTrue (is_limit result) }
        ensures low { pos 0 ≤ℤ result }
        ensures high { unsigned_abs result ≤ 2 ^ 29 }
    {
        self.limit
    }

    /// How often all its particles were taken over from another store since it was opened, up to 2^64 - 1.
    pub fn copies(&self) -> u64
        ensures { result ≡ self.now.copies }
    {
        self.copies
    }

    /// How many particles there are, at most 65,536.
    pub fn len(&self) -> u32
        ensures value { result ≡ length self.now.particles }
        ensures size { result ≤ 65536 }
    {
        self.columns.len() as u32
    }

    /// How many blocks of L hold the particles.
    pub fn blocks(&self) -> u32
        requires { 0 < L }
        ensures value { result ≡ blocks_of (length self.now.particles) L }
        ensures few { length self.now.particles ≤ 65536 }
    {
        self.columns.len().div_ceil(L) as u32
    }

    /// Which particles are in a block.
    pub fn span(&self, block: u32) -> Span
        requires some_lanes { 0 < L }
        requires lanes { L ≤ 16 }
        requires within { block < blocks_of (length self.now.particles) L }
        ensures first { result.first ≡ block * L }
        ensures count { result.count ≤ L }
        ensures within { result.first + result.count ≤ length self.now.particles }
        ensures size { result.first + result.count ≤ 65536 }
        ensures last { result.count < L → result.first + result.count ≡ length self.now.particles }
    {
        particles_in(block, L, self.len())
    }

    /// Particle i.
    pub fn at<G: Ledger>(&self, i: u32, steps: &mut Steps<G>) -> Particle
        requires { i < length self.now.particles }
        ensures value { result ≡ particle_at self.now.particles i }
        ensures limit { IsTrue (is_limit self.now.limit) }
        ensures cost { steps.new ≡ steps.old + 1 }
    {
        steps.tick();
        self.columns.get(i as usize)
    }

    /// Moves particle i: its place alone changes.
    pub fn put<G: Ledger>(&mut self, i: u32, place: Vec3, steps: &mut Steps<G>)
        requires { i < length self.old.particles }
        ensures particles { self.new.particles ≡ placed self.old.particles i place }
        ensures limit { self.new.limit ≡ self.old.limit }
        ensures copies { self.new.copies ≡ self.old.copies }
        ensures cost { steps.new ≡ steps.old + 1 }
    {
        steps.tick();
        self.columns.place(i as usize, place);
    }

    /// Replaces particle i.
    pub fn set<G: Ledger>(&mut self, i: u32, particle: Particle, steps: &mut Steps<G>)
        requires { i < length self.old.particles }
        ensures particles { self.new.particles ≡ slice_set self.old.particles i particle }
        ensures limit { self.new.limit ≡ self.old.limit }
        ensures copies { self.new.copies ≡ self.old.copies }
        ensures cost { steps.new ≡ steps.old + 1 }
    {
        steps.tick();
        self.columns.replace(i as usize, particle);
    }

    /// Takes over the particles of another store of the same length and limit.
    /// That is no access to them: the store counts it in its copies, up to 2^64 - 1.
    pub fn copy_from(&mut self, other: &Store<L>)
        requires len { length self.old.particles ≡ length other.now.particles }
        requires limit { self.old.limit ≡ other.now.limit }
        ensures particles { self.new.particles ≡ other.now.particles }
        ensures limit { self.new.limit ≡ self.old.limit }
        ensures copies { self.new.copies ≡ min (self.old.copies + 1) (2 ^ 64 - 1) }
    {
        self.copies = self.copies.saturating_add(1);
        self.columns.copy_from(&other.columns);
    }

    /// The particles of a block, side by side.
    pub fn load<G: Ledger>(&self, block: u32, steps: &mut Steps<G>) -> Block<L>
        requires some_lanes { 0 < L }
        requires lanes { L ≤ 16 }
        requires within { block < blocks_of (length self.now.particles) L }
        ensures at_x { result.at.x ≡ loaded L block (λ p. p.at.x) self.now.particles }
        ensures at_y { result.at.y ≡ loaded L block (λ p. p.at.y) self.now.particles }
        ensures at_z { result.at.z ≡ loaded L block (λ p. p.at.z) self.now.particles }
        ensures before_x { result.before.x ≡ loaded L block (λ p. p.before.x) self.now.particles }
        ensures before_y { result.before.y ≡ loaded L block (λ p. p.before.y) self.now.particles }
        ensures before_z { result.before.z ≡ loaded L block (λ p. p.before.z) self.now.particles }
        ensures weight { result.weight ≡ loaded L block (λ p. pos p.weight) self.now.particles }
        ensures held { result.held ≡ loaded L block (λ p. p.held) self.now.particles }
        ensures filled { result.filled ≡ filled_lanes L block self.now.particles }
        ensures limit { IsTrue (is_limit self.now.limit) }
        ensures cost { steps.new ≡ steps.old + 1 }
    {
        steps.tick();
        self.columns.load(block)
    }

    /// Writes both places of the particles of a block whose lanes are set, and nothing else.
    pub fn save<G: Ledger>(
        &mut self,
        block: u32,
        values: &Block<L>,
        mask: &Mask<L>,
        steps: &mut Steps<G>,
    )
        requires some_lanes { 0 < L }
        requires lanes { L ≤ 16 }
        requires within { block < blocks_of (length self.old.particles) L }
        ensures particles { Saved L (block * L) mask.now
            (place_of values.now.at.x values.now.at.y values.now.at.z)
            (place_of values.now.before.x values.now.before.y values.now.before.z)
            self.old.particles self.new.particles }
        ensures limit { self.new.limit ≡ self.old.limit }
        ensures copies { self.new.copies ≡ self.old.copies }
        ensures cost { steps.new ≡ steps.old + 1 }
    {
        steps.tick();
        self.columns
            .move_where(block, mask, &values.at, &values.before);
    }

    /// The places and effective weights of the particles that the set lanes name. Other lanes give 0.
    #[inline(always)]
    pub fn gather<G: Ledger>(
        &self,
        indices: &[u32; L],
        mask: &Mask<L>,
        steps: &mut Steps<G>,
    ) -> Ends<L>
        requires { (j : ℕ) → j < L → IsTrue (is_set mask.now j) → index_at indices.now j < length self.now.particles }
        ensures x { result.at.x ≡ gathered L (λ p. p.at.x) self.now.particles indices.now mask.now }
        ensures y { result.at.y ≡ gathered L (λ p. p.at.y) self.now.particles indices.now mask.now }
        ensures z { result.at.z ≡ gathered L (λ p. p.at.z) self.now.particles indices.now mask.now }
        ensures weight { result.weight ≡ gathered L (λ p. pos (effective_weight p)) self.now.particles indices.now mask.now }
        ensures cost { steps.new ≡ steps.old + 1 }
    {
        steps.tick();
        self.columns.ends(indices, &mask.to_array())
    }

    /// Moves the particles that the set lanes name, no two of them the same, each to the place of its lane.
    #[inline(always)]
    pub fn scatter<G: Ledger>(
        &mut self,
        indices: &[u32; L],
        mask: &Mask<L>,
        values: &Lanes3<L>,
        steps: &mut Steps<G>,
    )
        requires within { (j : ℕ) → j < L → IsTrue (is_set mask.now j) → index_at indices.now j < length self.old.particles }
        requires apart { NamesApart L indices.now mask.now }
        ensures particles { Scattered L indices.now mask.now values.now.x values.now.y values.now.z self.old.particles self.new.particles }
        ensures limit { self.new.limit ≡ self.old.limit }
        ensures copies { self.new.copies ≡ self.old.copies }
        ensures cost { steps.new ≡ steps.old + 1 }
    {
        steps.tick();
        let set = mask.to_array();
        for j in 0..L {
            let place = values.place(j);
            self.columns.place_if(indices[j], set[j], place);
        }
    }
}
