// The particles as columns.
ghost use Rattle.std.specs.Prelude.{◌≡◌, ℕ, ◌<◌, ◌≤◌, ◌+◌, ◌*◌, ◌^◌, ◌++◌, ◌&&◌, pos, false, length, map, replicate, slice_index, slice_index_or, slice_set, IfOk, IsTrue, vec_len, if◌then◌else◌, nat_lt};
ghost use Rattle.pbd_num.specs.Vectors.{Within, zero_vector};
ghost use Rattle.pbd_lanes.specs.Lane.{is_set, lanes_of};
ghost use Rattle.pbd_world.specs.Particles.{particle_at, placed, effective_weight};
ghost use Rattle.pbd_store.specs.Blocks.{blocks_of, loaded, filled_lanes, place_of, Saved};
ghost use Rattle.pbd_store.specs.Gathering.{index_at, gathered};
ghost use Rattle.pbd_store.specs.InRows.{places_in, AreFlat};
ghost use Rattle.pbd_store.specs.Listed.{place_at};

use crate::lanes3::{Block, Ends, Lanes3};
use crate::rows::{Place, PlaceKind, PlaceRows, numbers_from, padded};
use crate::span::particles_in;
use pbd_lanes::{Lanes, Mask};
use pbd_num::Vec3;
use pbd_world::Particle;
use std::alloc::{AllocError, Global};
use std::marker::Model;

/// The particles, without a limit and a count of accesses: a column for each of their numbers, and for the flags.
/// Each column has L zeros at its end, so that every block is whole.
#[derive(Drop)]
pub(crate) struct Columns<const L: usize> {
    pub(crate) count: usize,
    pub(crate) at: PlaceRows,
    pub(crate) before: PlaceRows,
    weight: Vec<u16>,
    pub(crate) held: Vec<bool>,
    /// The weight, and 0 where the particle is held.
    effective: Vec<u16>,
}

impl<const L: usize> Model for Columns<L> {
    ghost use Rattle.std.specs.Prelude.{List};
    ghost use Rattle.pbd_world.specs.declared.parts.Particle.{Particle};
    ghost use Rattle.pbd_store.specs.Listed.{listed, AreKept};

    ghost Value = { List Particle };

    ghost view = { λ s. listed s.count s.at s.before s.weight.items s.held.items };

    ghost invariant = { λ s. AreKept s.count L s.at s.before s.weight.items s.held.items s.effective.items };
}

fn weights_of(alloc: Global, particles: &[Particle]) -> Result<Vec<u16>, AllocError>
    ensures { IfOk result (λ v. v.items ≡ map (λ p. p.weight) particles.now) }
{
    particles.iter().map(|p| p.weight).collect(alloc)
}

fn flags_of(alloc: Global, particles: &[Particle]) -> Result<Vec<bool>, AllocError>
    ensures { IfOk result (λ v. v.items ≡ map (λ p. p.held) particles.now) }
{
    particles.iter().map(|p| p.held).collect(alloc)
}

/// What a particle weighs for a bond: nothing where it is held.
pub fn effective_weight_of(particle: Particle) -> u16
    ensures { result ≡ effective_weight particle }
{
    if particle.held { 0 } else { particle.weight }
}

fn effective_weights_of(alloc: Global, particles: &[Particle]) -> Result<Vec<u16>, AllocError>
    ensures { IfOk result (λ v. v.items ≡ map effective_weight particles.now) }
{
    particles
        .iter()
        .map(|p| effective_weight_of(*p))
        .collect(alloc)
}

fn weight_at(column: &[u16], i: usize) -> i64
    requires { i < length column.now }
    ensures { result ≡ pos (slice_index column.now i) }
{
    i64::from(column[i])
}

// The weights of a column at L rows.
#[inline(always)]
fn picked_weights<const L: usize>(column: &[u16], rows: [usize; L]) -> [i64; L]
    requires { (j : ℕ) → j < L → index_at rows j < length column.now }
    ensures { result ≡ lanes_of L (λ j. pos (slice_index_or column.now (index_at rows.entry j) 0)) }
{
    let mut values = [0; L];
    for j in 0..L {
        values[j] = weight_at(column, rows[j]);
    }
    values
}

fn set_weight(column: &mut Vec<u16>, i: usize, weight: u16)
    requires { i < length column.old.items }
    ensures { column.new.items ≡ slice_set column.old.items i weight }
{
    column[i] = weight;
}

fn set_flag(column: &mut Vec<bool>, i: usize, flag: bool)
    requires { i < length column.old.items }
    ensures { column.new.items ≡ slice_set column.old.items i flag }
{
    column[i] = flag;
}

// What particles weigh, and which of them are held, as columns.
#[derive(Drop)]
struct WeightColumns {
    weight: Vec<u16>,
    held: Vec<bool>,
    effective: Vec<u16>,
}

impl WeightColumns {
    // Those of each particle, and n zeros.
    fn open(alloc: Global, particles: &[Particle], n: usize) -> Result<WeightColumns, AllocError>
        ensures weight { IfOk result (λ c. c.weight.items ≡ map (λ p. p.weight) particles.now ++ replicate n 0) }
        ensures held { IfOk result (λ c. c.held.items ≡ map (λ p. p.held) particles.now ++ replicate n false) }
        ensures effective { IfOk result (λ c. c.effective.items ≡ map effective_weight particles.now ++ replicate n 0) }
    {
        let weights = weights_of(alloc, particles)?;
        let weight = padded(weights, n, 0)?;
        let flags = flags_of(alloc, particles)?;
        let held = padded(flags, n, false)?;
        let effective_weights = effective_weights_of(alloc, particles)?;
        let effective = padded(effective_weights, n, 0)?;
        Ok(WeightColumns {
            weight,
            held,
            effective,
        })
    }
}

impl<const L: usize> Columns<L> {
    pub(crate) fn open(alloc: Global, particles: &[Particle]) -> Result<Columns<L>, AllocError>
        requires { length particles.now ≤ 65536 }
        ensures { IfOk result (λ s. s ≡ particles.now) }
    {
        let at = PlaceRows::open(alloc, particles, L, PlaceKind::At)?;
        let before = PlaceRows::open(alloc, particles, L, PlaceKind::Before)?;
        let weights = WeightColumns::open(alloc, particles, L)?;
        Ok(Columns::put_together(particles, at, before, weights))
    }

    // The columns of a list.
    fn put_together(
        particles: &[Particle],
        at: PlaceRows,
        before: PlaceRows,
        weights: WeightColumns,
    ) -> Columns<L>
        requires few { length particles.now ≤ 65536 }
        requires at { at ≡ map (λ p. p.at) particles.now ++ replicate L zero_vector }
        requires before { before ≡ map (λ p. p.before) particles.now ++ replicate L zero_vector }
        requires weight { weights.weight.items ≡ map (λ p. p.weight) particles.now ++ replicate L 0 }
        requires held { weights.held.items ≡ map (λ p. p.held) particles.now ++ replicate L false }
        requires effective { weights.effective.items ≡ map effective_weight particles.now ++ replicate L 0 }
        ensures { result ≡ particles.now }
    {
        let WeightColumns {
            weight,
            held,
            effective,
        } = weights;
        Columns {
            count: particles.len(),
            at,
            before,
            weight,
            held,
            effective,
        }
    }

    pub(crate) fn len(&self) -> usize
        ensures value { result ≡ length self.now }
        ensures size { result ≤ 65536 }
    {
        self.count
    }

    #[tactic(auto, using(crate::proofs::Lengths::listed_length))]
    #[inline(always)]
    pub(crate) fn get(&self, i: usize) -> Particle
        requires { i < length self.now }
        ensures { result ≡ particle_at self.now i }
    {
        Particle {
            at: self.at.get(i),
            before: self.before.get(i),
            weight: self.weight[i],
            held: self.held[i],
        }
    }

    // The row of a particle that is wanted, else the first row of zeros.
    #[inline(always)]
    fn row_if(&self, i: u32, wanted: bool) -> usize
        requires { IsTrue wanted → i < length self.now }
        ensures { result ≡ (if wanted then i else length self.now) }
    {
        if wanted { i as usize } else { self.count }
    }

    // The rows of the particles that the set lanes name, and elsewhere the first row of zeros.
    #[inline(always)]
    fn rows(&self, indices: &[u32; L], set: &[bool; L]) -> [usize; L]
        requires { (j : ℕ) → j < L → IsTrue (is_set set.now j) → index_at indices.now j < length self.now }
        ensures { result ≡ lanes_of L (λ j. if is_set set.now j then index_at indices.now j else length self.now) }
    {
        let mut rows = [0; L];
        for j in 0..L {
            rows[j] = self.row_if(indices[j], set[j]);
        }
        rows
    }

    /// The places and effective weights of the particles that the set lanes name, and zeros elsewhere.
    #[inline(always)]
    pub(crate) fn ends(&self, indices: &[u32; L], set: &[bool; L]) -> Ends<L>
        requires { (j : ℕ) → j < L → IsTrue (is_set set.now j) → index_at indices.now j < length self.now }
        ensures x { result.at.x ≡ gathered L (λ p. p.at.x) self.now indices.now set.now }
        ensures y { result.at.y ≡ gathered L (λ p. p.at.y) self.now indices.now set.now }
        ensures z { result.at.z ≡ gathered L (λ p. p.at.z) self.now indices.now set.now }
        ensures weight { result.weight ≡ gathered L (λ p. pos (effective_weight p)) self.now indices.now set.now }
    {
        let rows = self.rows(indices, set);
        Ends {
            at: self.at.picked(rows),
            weight: Lanes::from_array(picked_weights(&self.effective, rows)),
        }
    }

    /// The low rows of the places of all particles, and of some zeros. Where no axis is above 2^30 in size, they are the places.
    #[inline(always)]
    pub(crate) fn place_rows(&self) -> &[Place]
        ensures long { length self.now ≤ length result.now }
        ensures each { (i : ℕ) → i < length self.now → Within (2 ^ 30) (particle_at self.now i).at
            → place_at (places_in result.now) i ≡ (particle_at self.now i).at }
        ensures flat { AreFlat result.now }
    {
        self.at.rows()
    }

    /// The effective weight of a particle.
    #[inline(always)]
    pub(crate) fn effective(&self, i: u32) -> i32
        requires { i < length self.now }
        ensures { result ≡ pos (effective_weight (particle_at self.now i)) }
    {
        i32::from(self.effective[i as usize])
    }

    #[inline(always)]
    pub(crate) fn place(&mut self, i: usize, place: Vec3)
        requires { i < length self.old }
        ensures { self.new ≡ placed self.old i place }
    {
        self.at.set(i, place);
    }

    #[inline(always)]
    pub(crate) fn place_if(&mut self, i: u32, wanted: bool, place: Vec3)
        requires { IsTrue wanted → i < length self.old }
        ensures { self.new ≡ (if wanted then placed self.old i place else self.old) }
    {
        if wanted {
            self.place(i as usize, place);
        }
    }

    #[tactic(auto, using(crate::proofs::Lengths::listed_length))]
    pub(crate) fn replace(&mut self, i: usize, particle: Particle)
        requires { i < length self.old }
        ensures { self.new ≡ slice_set self.old i particle }
    {
        self.at.set(i, particle.at);
        self.before.set(i, particle.before);
        set_weight(&mut self.weight, i, particle.weight);
        set_flag(&mut self.held, i, particle.held);
        set_weight(&mut self.effective, i, effective_weight_of(particle));
    }

    // The number of a block's first particle.
    #[inline(always)]
    fn start(&self, block: u32) -> usize
        requires some_lanes { 0 < L }
        requires lanes { L ≤ 16 }
        requires within { block < blocks_of (length self.now) L }
        ensures value { result ≡ block * L }
        ensures within { result ≤ length self.now }
        ensures size { result ≤ 65536 }
    {
        particles_in(block, L, self.len() as u32).first as usize
    }

    // The numbers of the L rows of a block.
    #[inline(always)]
    fn rows_of(&self, block: u32) -> [usize; L]
        requires some_lanes { 0 < L }
        requires lanes { L ≤ 16 }
        requires within { block < blocks_of (length self.now) L }
        ensures each { result ≡ lanes_of L (λ j. block * L + j) }
        ensures within { (j : ℕ) → j < L → index_at result j < length self.now + L }
    {
        numbers_from(self.start(block))
    }

    /// Writes both places of those particles of a block whose lanes are set.
    pub(crate) fn move_where(
        &mut self,
        block: u32,
        set: &Mask<L>,
        at: &Lanes3<L>,
        before: &Lanes3<L>,
    )
        requires some_lanes { 0 < L }
        requires lanes { L ≤ 16 }
        requires within { block < blocks_of (length self.old) L }
        ensures { Saved L (block * L) set.now (place_of at.now.x at.now.y at.now.z)
            (place_of before.now.x before.now.y before.now.z) self.old self.new }
    {
        let start = self.start(block);
        let filled = self.filled(block);
        let own = set.and(&filled);
        self.at.set_where(start, &own, at);
        self.before.set_where(start, &own, before);
    }

    #[tactic(auto, using(crate::proofs::Lengths::listed_length))]
    pub(crate) fn copy_from(&mut self, other: &Columns<L>)
        requires { length self.old ≡ length other.now }
        ensures { self.new ≡ other.now }
    {
        self.at.copy_from(&other.at);
        self.before.copy_from(&other.before);
        self.weight.copy_from_slice(&other.weight);
        self.held.copy_from_slice(&other.held);
        self.effective.copy_from_slice(&other.effective);
    }

    // Which of the particles of some rows are held.
    #[inline(always)]
    fn picked_flags(&self, rows: [usize; L]) -> [bool; L]
        requires { (j : ℕ) → j < L → index_at rows j < length self.now + L }
        ensures { result ≡ lanes_of L (λ j. (particle_at self.now (index_at rows.entry j)).held) }
    {
        let mut flags = [false; L];
        for j in 0..L {
            flags[j] = self.held[rows[j]];
        }
        flags
    }

    /// The particles of a block, side by side.
    pub(crate) fn load(&self, block: u32) -> Block<L>
        requires some_lanes { 0 < L }
        requires lanes { L ≤ 16 }
        requires within { block < blocks_of (length self.now) L }
        ensures at_x { result.at.x ≡ loaded L block (λ p. p.at.x) self.now }
        ensures at_y { result.at.y ≡ loaded L block (λ p. p.at.y) self.now }
        ensures at_z { result.at.z ≡ loaded L block (λ p. p.at.z) self.now }
        ensures before_x { result.before.x ≡ loaded L block (λ p. p.before.x) self.now }
        ensures before_y { result.before.y ≡ loaded L block (λ p. p.before.y) self.now }
        ensures before_z { result.before.z ≡ loaded L block (λ p. p.before.z) self.now }
        ensures weight { result.weight ≡ loaded L block (λ p. pos p.weight) self.now }
        ensures held { result.held ≡ loaded L block (λ p. p.held) self.now }
        ensures filled { result.filled ≡ filled_lanes L block self.now }
    {
        let rows = self.rows_of(block);
        Block {
            at: self.at.picked(rows),
            before: self.before.picked(rows),
            weight: Lanes::from_array(picked_weights(&self.weight, rows)),
            held: Mask::from_array(self.picked_flags(rows)),
            filled: self.filled(block),
        }
    }

    /// The lanes of a block that have a particle.
    pub(crate) fn filled(&self, block: u32) -> Mask<L>
        requires some_lanes { 0 < L }
        requires lanes { L ≤ 16 }
        requires within { block < blocks_of (length self.now) L }
        ensures { result ≡ filled_lanes L block self.now }
    {
        let start = self.start(block);
        let count = self.len();
        if start + L <= count {
            return Mask::from_array([true; L]);
        }
        let mut set = [false; L];
        for j in 0..L {
            set[j] = start + j < count;
        }
        Mask::from_array(set)
    }
}
