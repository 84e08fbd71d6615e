// Friction, block by block.
ghost use Rattle.std.specs.Prelude.{◌≡◌, ℕ, ◌<◌, ◌≤◌, ◌^◌, ◌+◌, ◌-◌, ◌*◌, min, List, pos, int_lt, not, false, ◌&&◌, unsigned_abs, length, slice_index_or, IsTrue, if◌then◌else◌};
ghost use Rattle.std.specs.List.{list_any};
ghost use Rattle.pbd_num.specs.Vectors.{Within, zero_vector, minus, plus, opposite};
ghost use Rattle.pbd_world.specs.declared.parts.Particle.{Particle};
ghost use Rattle.pbd_world.specs.Ledger.{ledger_of, HaveRoom};
ghost use Rattle.pbd_world.specs.Particles.{particle_at};
ghost use Rattle.pbd_world.specs.Shapes.{rubbed_away};
ghost use Rattle.pbd_world.specs.Step.{rub as all_rubbed};
ghost use Rattle.pbd_world.specs.Valid.{is_between, is_limit};
ghost use Rattle.pbd_lanes.specs.Lane.{is_set};
ghost use Rattle.pbd_store.specs.Blocks.{blocks_of, filled_lanes, place_of, Saved};
ghost use Rattle.pbd_store.specs.Moving.{motion_of};
ghost use Rattle.pbd_shape.specs.Rubbing.{AreWithin, CanRub, settled_parts, rub_cost, rubbed_from};

use crate::book::book_if;
use crate::touched::Touched;
use crate::work::{Loaded, Work};
use pbd_num::Vec3;
use pbd_store::{Lanes3, Steps, Store};
use pbd_world::Totals;
use std::sync::ledger::Ledger;

// What friction takes of a velocity, and nothing where it doesn't rub.
fn lost_if(friction: i64, rubs: bool, velocity: Vec3) -> Vec3
    requires friction { IsTrue (is_between (pos 0) (pos 256) friction) }
    requires velocity { Within (2 ^ 30) velocity }
    ensures value { result ≡ (if rubs then rubbed_away friction velocity else zero_vector) }
    ensures size { Within (2 ^ 30) result }
{
    if !rubs {
        return Vec3::ZERO;
    }
    velocity.scaled(friction, 256)
}

// Whether friction rubs particle i: it is free, and a shape touched it.
fn is_rubbed(held: bool, touched: &Touched, i: u32) -> bool
    requires { i < length touched.now }
    ensures { result ≡ (not held && slice_index_or touched.now i false) }
{
    if held {
        return false;
    }
    touched.is_set(i)
}

// Whether there is friction, and a particle was touched.
fn rubs_any(friction: i64, touched: &Touched) -> bool
    ensures { result ≡ (int_lt (pos 0) friction && list_any (λ t. t) touched.now) }
{
    0 < friction && touched.any()
}

impl Touched {
    /// Friction, which follows the passes of a step: each free particle that a shape touched loses the part friction / 256
    /// of its velocity, rounded axis by axis, and what it loses is added to the total of shapes with the other sign. Its
    /// place before moves, and its place stays. It reaches the store at most twice for each block, and not at all where
    /// friction is 0 or no particle was touched.
    pub fn rub<const L: usize, G: Ledger>(
        &self,
        friction: i64,
        store: &mut Store<L>,
        totals: &mut Totals,
        steps: &mut Steps<G>,
    )
        requires lanes_low { 0 < L }
        requires lanes_high { L ≤ 16 }
        requires friction { IsTrue (is_between (pos 0) (pos 256) friction) }
        requires flags { length self.now ≡ length store.old.particles }
        requires within { AreWithin store.old.limit store.old.particles }
        requires room { HaveRoom (2 ^ 120) (ledger_of totals.old) }
        ensures outcome { motion_of store.new totals.new
            ≡ all_rubbed friction (record { motion = motion_of store.old totals.old; touched = self.now }) }
        ensures limit { store.new.limit ≡ store.old.limit }
        ensures copies { store.new.copies ≡ store.old.copies }
        ensures settled { settled_parts store.new.particles ≡ settled_parts store.old.particles }
        ensures within { AreWithin store.old.limit store.new.particles }
        ensures room { (n : ℕ) → HaveRoom n (ledger_of totals.old)
            → HaveRoom (n + length store.old.particles * 2 ^ 31) (ledger_of totals.new) }
        ensures cost { steps.new ≤ steps.old + rub_cost friction self.now (blocks_of (length store.old.particles) L) }
    {
        if !rubs_any(friction, self) {
            return;
        }
        let blocks = store.blocks();
        let mut work = Work {
            store,
            totals,
            steps,
        };
        for block in 0..blocks {
            self.rub_block(friction, &mut work, block);
        }
    }

    // Rubs the particles of a block: one access reads them, and another writes them.
    fn rub_block<const L: usize, G: Ledger>(
        &self,
        friction: i64,
        work: &mut Work<'_, L, G>,
        block: u32,
    )
        requires { CanRub L block friction work.old.store.now.limit work.old.store.now.particles self.now
            (ledger_of work.old.totals.now) }
        ensures store { work.new.store.ghost_name ≡ work.old.store.ghost_name }
        ensures totals { work.new.totals.ghost_name ≡ work.old.totals.ghost_name }
        ensures steps { work.new.steps.ghost_name ≡ work.old.steps.ghost_name }
        ensures outcome { rubbed_from friction (block * L + L)
            (record { motion = motion_of work.new.store.now work.new.totals.now; touched = self.now })
            ≡ rubbed_from friction (block * L) (record { motion = motion_of work.old.store.now work.old.totals.now; touched = self.now }) }
        ensures limit { work.new.store.now.limit ≡ work.old.store.now.limit }
        ensures copies { work.new.store.now.copies ≡ work.old.store.now.copies }
        ensures settled { settled_parts work.new.store.now.particles ≡ settled_parts work.old.store.now.particles }
        ensures within { AreWithin work.old.store.now.limit work.new.store.now.particles }
        ensures room { (n : ℕ) → HaveRoom n (ledger_of work.old.totals.now)
            → HaveRoom (n + (min (block * L + L) (length work.old.store.now.particles) - block * L) * 2 ^ 31)
            (ledger_of work.new.totals.now) }
        ensures cost { work.new.steps.now ≤ work.old.steps.now + 2 }
    {
        let mut lanes = work.store.load(block, work.steps);
        let loaded = Loaded {
            store: work.store,
            block,
            lanes: &lanes,
        };
        let places = self.rub_one_by_one(friction, loaded, work.totals);
        lanes.before = Lanes3::from_places(&places);
        let filled = lanes.filled;
        work.store.save(block, &lanes, &filled, work.steps);
    }

    // The places before of the particles of a block, lane by lane; what they lose goes into the ledger.
    fn rub_one_by_one<const L: usize>(
        &self,
        friction: i64,
        loaded: Loaded<'_, L>,
        totals: &mut Totals,
    ) -> [Vec3; L]
        requires ready { CanRub L loaded.block friction loaded.store.now.limit loaded.store.now.particles self.now
            (ledger_of totals.old) }
        requires limit { IsTrue (is_limit loaded.store.now.limit) }
        requires at { (j : ℕ) → j < L → place_of loaded.lanes.now.at.x loaded.lanes.now.at.y loaded.lanes.now.at.z j
            ≡ (particle_at loaded.store.now.particles (loaded.block * L + j)).at }
        requires before { (j : ℕ) → j < L → place_of loaded.lanes.now.before.x loaded.lanes.now.before.y loaded.lanes.now.before.z j
            ≡ (particle_at loaded.store.now.particles (loaded.block * L + j)).before }
        requires held { (j : ℕ) → j < L → is_set loaded.lanes.now.held j
            ≡ (particle_at loaded.store.now.particles (loaded.block * L + j)).held }
        ensures outcome { (qs : List Particle)
            → Saved L (loaded.entry.block * L) (filled_lanes L loaded.entry.block loaded.entry.store.now.particles)
            (λ j. (particle_at loaded.entry.store.now.particles (loaded.entry.block * L + j)).at)
            (λ j. slice_index_or result j zero_vector) loaded.entry.store.now.particles qs
            → rubbed_from friction (loaded.entry.block * L + L)
            (record { motion = record { particles = qs; totals = ledger_of totals.new }; touched = self.now })
            ≡ rubbed_from friction (loaded.entry.block * L)
            (record { motion = motion_of loaded.entry.store.now totals.old; touched = self.now }) }
        ensures within { (j : ℕ) → j < L → loaded.entry.block * L + j < length loaded.entry.store.now.particles
            → Within (unsigned_abs loaded.entry.store.now.limit) (slice_index_or result j zero_vector) }
        ensures room { (n : ℕ) → HaveRoom n (ledger_of totals.old)
            → HaveRoom (n + (min (loaded.entry.block * L + L) (length loaded.entry.store.now.particles) - loaded.entry.block * L) * 2 ^ 31)
            (ledger_of totals.new) }
    {
        let span = loaded.store.span(loaded.block);
        let held = loaded.lanes.held.to_array();
        let mut places = [Vec3::ZERO; L];
        for j in 0..span.count {
            let before = loaded.lanes.before.place(j);
            let rubs = is_rubbed(held[j], self, span.first + j as u32);
            let loss = lost_if(friction, rubs, loaded.lanes.at.place(j).minus(before));
            book_if(totals, rubs, loss.opposite());
            places[j] = before.plus(loss);
        }
        places
    }
}
