// The shape part of a pass, block by block.
ghost use Rattle.std.specs.Prelude.{◌≡◌, ℕ, ◌<◌, ◌≤◌, ◌^◌, ◌+◌, ◌-◌, ◌*◌, min, List, false, unsigned_abs, length, slice_index_or, IsTrue, if◌then◌else◌, option_map, Some, IfSome, MatchResult, OnOk, IfOk, Result, Ok, Err};
ghost use Rattle.pbd_num.specs.Vectors.{Within, zero_vector};
ghost use Rattle.pbd_world.specs.Ledger.{ledger_of, HaveRoom};
ghost use Rattle.pbd_world.specs.declared.parts.Particle.{Particle};
ghost use Rattle.pbd_world.specs.Particles.{particle_at};
ghost use Rattle.pbd_lanes.specs.Lane.{is_set};
ghost use Rattle.pbd_world.specs.Shapes.{are_valid_shapes, way_through};
ghost use Rattle.pbd_store.specs.Blocks.{blocks_of, filled_lanes, place_of, Saved};
ghost use Rattle.pbd_store.specs.Moving.{motion_of, fixed_parts, AreInside};
ghost use Rattle.pbd_shape.specs.Valid.{lists_of, IsLimit, AreInRange};
ghost use Rattle.pbd_shape.specs.Way.{way_of, all_shapes, starting};
ghost use Rattle.pbd_shape.specs.Shaping.{CanPush, all_pushed, push_cost, pushed_from};

use crate::book::{book_if, touch_if};
use crate::shapes::Shapes;
use crate::touched::Touched;
use crate::way::Pushed;
use crate::work::{Loaded, Work};
use pbd_num::Vec3;
use pbd_store::{Lanes3, Steps, Store};
use pbd_world::{Left, Totals};
use std::sync::ledger::Ledger;

impl<'a> Shapes<'a> {
    /// The shape part of a pass: each free particle in turn goes through the shapes in order, and a shape that touches the
    /// place to which it has come gives it a new one. Each move is added to the total of shapes, and each particle that a
    /// shape touches is flagged, also where the move is zero; flags that were set stay.
    ///
    /// `Left` has the number of the first particle whose way leaves the store's limit. The places, the totals and the
    /// flags are then any, and all else is as it was.
    /// It reaches the store at most twice for each block, and not at all where there is no shape.
    pub fn push_out<const L: usize, G: Ledger>(
        self,
        store: &mut Store<L>,
        touched: &mut Touched,
        totals: &mut Totals,
        steps: &mut Steps<G>,
    ) -> Result<(), Left>
        requires lanes_low { 0 < L }
        requires lanes_high { L ≤ 16 }
        requires shapes { IsTrue (are_valid_shapes store.old.limit (lists_of self)) }
        requires inside { AreInside store.old.limit store.old.particles }
        requires flags { length touched.old ≡ length store.old.particles }
        requires room { HaveRoom (2 ^ 120) (ledger_of totals.old) }
        ensures outcome { MatchResult result
            (λ _. all_pushed store.old.limit (all_shapes self.entry)
            (record { motion = motion_of store.old totals.old; touched = touched.old })
            ≡ Ok (record { motion = motion_of store.new totals.new; touched = touched.new }))
            (λ left. all_pushed store.old.limit (all_shapes self.entry)
            (record { motion = motion_of store.old totals.old; touched = touched.old }) ≡ Err left.element) }
        ensures limit { store.new.limit ≡ store.old.limit }
        ensures copies { store.new.copies ≡ store.old.copies }
        ensures fixed { fixed_parts store.new.particles ≡ fixed_parts store.old.particles }
        ensures flags { length touched.new ≡ length touched.old }
        ensures inside { OnOk result (AreInside store.old.limit store.new.particles) }
        ensures room { OnOk result
            ((n : ℕ) → HaveRoom n (ledger_of totals.old)
            → HaveRoom (n + length store.old.particles * 2 ^ 31) (ledger_of totals.new)) }
        ensures cost { steps.new ≤ steps.old + push_cost (all_shapes self.entry) (blocks_of (length store.old.particles) L) }
    {
        if self.is_empty() {
            return Ok(());
        }
        let blocks = store.blocks();
        let mut work = Work {
            store,
            totals,
            steps,
        };
        for block in 0..blocks {
            if let Err(left) = self.push_block(&mut work, block, touched) {
                return Err(left);
            }
        }
        Ok(())
    }

    // Pushes the particles of a block: one access reads them, and another writes them, where a shape may touch one of the
    // block's places and no particle leaves the limit.
    fn push_block<const L: usize, G: Ledger>(
        self,
        work: &mut Work<'_, L, G>,
        block: u32,
        touched: &mut Touched,
    ) -> Result<(), Left>
        requires { CanPush L block work.old.store.now.limit work.old.store.now.particles self touched.old
            (ledger_of work.old.totals.now) }
        ensures store { work.new.store.ghost_name ≡ work.old.store.ghost_name }
        ensures totals { work.new.totals.ghost_name ≡ work.old.totals.ghost_name }
        ensures steps { work.new.steps.ghost_name ≡ work.old.steps.ghost_name }
        ensures outcome { MatchResult result
            (λ _. pushed_from work.old.store.now.limit (all_shapes self.entry) (block * L + L)
            (record { motion = motion_of work.new.store.now work.new.totals.now; touched = touched.new })
            ≡ pushed_from work.old.store.now.limit (all_shapes self.entry) (block * L)
            (record { motion = motion_of work.old.store.now work.old.totals.now; touched = touched.old }))
            (λ left. pushed_from work.old.store.now.limit (all_shapes self.entry) (block * L)
            (record { motion = motion_of work.old.store.now work.old.totals.now; touched = touched.old }) ≡ Err left.element) }
        ensures limit { work.new.store.now.limit ≡ work.old.store.now.limit }
        ensures copies { work.new.store.now.copies ≡ work.old.store.now.copies }
        ensures fixed { fixed_parts work.new.store.now.particles ≡ fixed_parts work.old.store.now.particles }
        ensures flags { length touched.new ≡ length touched.old }
        ensures inside { AreInside work.old.store.now.limit work.new.store.now.particles }
        ensures room { (n : ℕ) → HaveRoom n (ledger_of work.old.totals.now)
            → HaveRoom (n + (min (block * L + L) (length work.old.store.now.particles) - block * L) * 2 ^ 31)
            (ledger_of work.new.totals.now) }
        ensures cost { work.new.steps.now ≤ work.old.steps.now + 2 }
    {
        let limit = work.store.limit();
        let mut lanes = work.store.load(block, work.steps);
        if !self.touches(&lanes.at) {
            return Ok(());
        }
        let loaded = Loaded {
            store: work.store,
            block,
            lanes: &lanes,
        };
        match self.push_one_by_one(limit, loaded, touched, work.totals) {
            Err(left) => Err(left),
            Ok(places) => {
                lanes.at = Lanes3::from_places(&places);
                let filled = lanes.filled;
                work.store.save(block, &lanes, &filled, work.steps);
                Ok(())
            }
        }
    }

    // Where the particles of a block come to, lane by lane; their moves go into the ledger, and their touches into the flags.
    // `Left` has the first that leaves the limit.
    fn push_one_by_one<const L: usize>(
        self,
        limit: i64,
        loaded: Loaded<'_, L>,
        touched: &mut Touched,
        totals: &mut Totals,
    ) -> Result<[Vec3; L], Left>
        requires limit { IsLimit limit }
        requires same { limit ≡ loaded.store.now.limit }
        requires ready { CanPush L loaded.block loaded.store.now.limit loaded.store.now.particles self touched.old
            (ledger_of totals.old) }
        requires at { (j : ℕ) → j < L → place_of loaded.lanes.now.at.x loaded.lanes.now.at.y loaded.lanes.now.at.z j
            ≡ (particle_at loaded.store.now.particles (loaded.block * L + j)).at }
        requires held { (j : ℕ) → j < L → is_set loaded.lanes.now.held j
            ≡ (particle_at loaded.store.now.particles (loaded.block * L + j)).held }
        ensures outcome { MatchResult result
            (λ places. (qs : List Particle)
            → Saved L (loaded.entry.block * L) (filled_lanes L loaded.entry.block loaded.entry.store.now.particles)
            (λ j. slice_index_or places j zero_vector)
            (λ j. (particle_at loaded.entry.store.now.particles (loaded.entry.block * L + j)).before)
            loaded.entry.store.now.particles qs
            → pushed_from loaded.entry.store.now.limit (all_shapes self.entry) (loaded.entry.block * L + L)
            (record { motion = record { particles = qs; totals = ledger_of totals.new }; touched = touched.new })
            ≡ pushed_from loaded.entry.store.now.limit (all_shapes self.entry) (loaded.entry.block * L)
            (record { motion = motion_of loaded.entry.store.now totals.old; touched = touched.old }))
            (λ left. pushed_from loaded.entry.store.now.limit (all_shapes self.entry) (loaded.entry.block * L)
            (record { motion = motion_of loaded.entry.store.now totals.old; touched = touched.old }) ≡ Err left.element) }
        ensures inside { IfOk result
            (λ places. (j : ℕ) → j < L → loaded.entry.block * L + j < length loaded.entry.store.now.particles
            → Within (unsigned_abs loaded.entry.store.now.limit) (slice_index_or places j zero_vector)) }
        ensures flags { length touched.new ≡ length touched.old }
        ensures room { (n : ℕ) → HaveRoom n (ledger_of totals.old)
            → HaveRoom (n + (min (loaded.entry.block * L + L) (length loaded.entry.store.now.particles) - loaded.entry.block * L) * 2 ^ 31)
            (ledger_of totals.new) }
    {
        let span = loaded.store.span(loaded.block);
        let held = loaded.lanes.held.to_array();
        let mut places = [Vec3::ZERO; L];
        for j in 0..span.count {
            let i = span.first + j as u32;
            let from = loaded.lanes.at.place(j);
            let Some(next) = self.push_if_free(limit, held[j], from) else {
                return Err(Left { element: i });
            };
            book_if(totals, !held[j], next.at.minus(from));
            touch_if(touched, i, next.touched);
            places[j] = next.at;
        }
        Ok(places)
    }

    // The way of a particle through the shapes. A held one stays, and nothing touches it.
    fn push_if_free(self, limit: i64, held: bool, at: Vec3) -> Option<Pushed>
        requires limit { IsLimit limit }
        requires shapes { AreInRange self }
        requires place { Within (unsigned_abs limit) at }
        ensures value { option_map way_of result
            ≡ (if held then Some (starting at) else way_through limit (all_shapes self.entry) (starting at)) }
        ensures within { IfSome result (λ way. Within (unsigned_abs limit) way.at) }
    {
        if held {
            return Some(Pushed { at, touched: false });
        }
        self.push(limit, at)
    }
}
