// All particles at the start of a step, in one loop over their rows.
ghost use Rattle.std.specs.Prelude.{◌≡◌, ℕ, ◌+◌, ◌*◌, ◌<◌, ◌≤◌, ◌^◌, pos, ◌+ℤ◌, ◌≤ℤ◌, unsigned_abs, not, length, map, IsTrue, MatchResult};
ghost use Rattle.pbd_num.specs.declared.Vec3.{Vec3};
ghost use Rattle.pbd_num.specs.Vectors.{Within, is_within, plus};
ghost use Rattle.pbd_lanes.specs.Lane.{is_set};
ghost use Rattle.pbd_world.specs.Particles.{particle_at, is_free};
ghost use Rattle.pbd_store.specs.Blocks.{blocks_of};
ghost use Rattle.pbd_store.specs.Flying.{IsSmall, AllStay, LeavesFirst, WrittenFirst, WrittenRows, AreSummed, IsOutside, are_free, after_flight, halves_at, places_at, one_if};
ghost use Rattle.pbd_store.specs.InRows.{place_in};
ghost use Rattle.pbd_store.specs.Listed.{place_at};
ghost use Rattle.pbd_store.specs.Moving.{AreInside};
ghost use Rattle.pbd_store.specs.Reaching.{Covers};

use crate::columns::Columns;
use crate::flight::{Flown, Forces, RowFlown, fly_row};
use crate::reach::Reach;
use crate::rows::{Halves, High, Place, PlaceRows};
use crate::steps::Steps;
use crate::store::Store;
use pbd_num::{Vec3, within};
use std::sync::ledger::Ledger;

/// What is summed up of rows that have flown: how many fly, what damping takes of them, and how far they reach.
#[derive(Clone, Copy)]
pub(crate) struct FlightSums {
    free: i64,
    lost: Vec3,
    reach: Reach,
}

// A number with one more where it is wanted.
#[inline(always)]
fn counted(n: i64, wanted: bool) -> i64
    requires { unsigned_abs n ≤ 2 ^ 16 }
    ensures { result ≡ n +ℤ one_if wanted }
{
    n + i64::from(wanted)
}

impl FlightSums {
    // Those of no row.
    const NONE: FlightSums = FlightSums {
        free: 0,
        lost: Vec3::ZERO,
        reach: Reach::NONE,
    };

    // The same with one more row.
    #[inline(always)]
    fn with(self, flies: bool, row: RowFlown, limit: i64) -> FlightSums
        requires free { unsigned_abs self.free ≤ 2 ^ 16 }
        requires lost { Within (2 ^ 46) self.lost }
        requires row_lost { Within (2 ^ 30) row.lost }
        requires low { pos 0 ≤ℤ limit }
        requires high { unsigned_abs limit ≤ 2 ^ 29 }
        ensures free { result.free ≡ self.free +ℤ one_if flies }
        ensures lost { result.lost ≡ plus self.lost row.lost }
        ensures kept { (v : Vec3) → Covers self.reach limit v → Covers result.reach limit v }
        ensures own { Covers result.reach limit row.to }
    {
        FlightSums {
            free: counted(self.free, flies),
            lost: self.lost.plus(row.lost),
            reach: self.reach.with_far(row.to, limit),
        }
    }
}

// What acts on some particles, and which of them are held.
#[derive(Clone, Copy)]
struct Flight<'a> {
    forces: Forces,
    held: &'a [bool],
}

// Lets the particles that aren't held fly, each in its row.
#[inline(always)]
fn fly_rows(
    flight: Flight<'_>,
    at: &mut [Place],
    high: &mut [High],
    before: &mut [Place],
) -> FlightSums
    requires forces { IsSmall flight.forces }
    requires few { length flight.held.now ≤ 65536 }
    requires at_long { length flight.held.now ≤ length at.old }
    requires high_long { length flight.held.now ≤ length high.old }
    requires before_long { length flight.held.now ≤ length before.old }
    requires at { (j : ℕ) → j < length flight.held.now → Within (2 ^ 29) (place_in at.old j) }
    requires before { (j : ℕ) → j < length flight.held.now → Within (2 ^ 29) (place_in before.old j) }
    ensures rows { WrittenRows flight.entry.forces flight.entry.held.now (length flight.entry.held.now) at.old high.old before.old
        at.new high.new before.new }
    ensures sums { AreSummed flight.entry.forces (length flight.entry.held.now) (are_free flight.entry.held.now)
        (place_in at.old) (place_in before.old) (halves_at at.new high.new) result }
{
    let held = flight.held;
    // As many as there are flags: said by all four lengths, so that no index needs a test.
    let count = held.len().min(at.len()).min(high.len()).min(before.len());
    // What the loop reads and sums up is in locals of its own, so that no write of a row makes it go through memory.
    let forces = Forces {
        damping: flight.forces.damping,
        gravity: Vec3 {
            x: flight.forces.gravity.x,
            y: flight.forces.gravity.y,
            z: flight.forces.gravity.z,
        },
        limit: flight.forces.limit,
    };
    let FlightSums {
        mut free,
        mut lost,
        mut reach,
    } = FlightSums::NONE;
    for i in 0..count {
        let old = at[i];
        let flies = !held[i];
        let row = fly_row(forces, flies, old, before[i]);
        let to = Halves::of(row.to);
        at[i] = to.low;
        high[i] = to.high;
        before[i] = old;
        let sums = FlightSums { free, lost, reach }.with(flies, row, forces.limit);
        free = sums.free;
        lost = sums.lost;
        reach = sums.reach;
    }
    FlightSums { free, lost, reach }
}

impl PlaceRows {
    /// Lets the particles that aren't held fly, of as many places as there are flags. The places of held ones too become those
    /// before.
    #[inline(never)]
    pub(crate) fn fly(
        &mut self,
        before: &mut PlaceRows,
        held: &[bool],
        forces: Forces,
    ) -> FlightSums
        requires forces { IsSmall forces }
        requires few { length held.now ≤ 65536 }
        requires at_long { length held.now ≤ length self.old }
        requires before_long { length held.now ≤ length before.old }
        requires at { (j : ℕ) → j < length held.now → Within (2 ^ 29) (place_at self.old j) }
        requires before { (j : ℕ) → j < length held.now → Within (2 ^ 29) (place_at before.old j) }
        ensures at { WrittenFirst (length held.now) (λ j. places_at forces.damping forces.gravity (not (is_set held.now j))
            (place_at self.old j) (place_at before.old j)) self.old self.new }
        ensures before { WrittenFirst (length held.now) (place_at self.old) before.old before.new }
        ensures sums { AreSummed forces (length held.now) (are_free held.now) (place_at self.old) (place_at before.old)
            (place_at self.new) result }
    {
        fly_rows(
            Flight { forces, held },
            self.low.as_mut_slice(),
            self.high.as_mut_slice(),
            before.low.as_mut_slice(),
        )
    }
}

impl<const L: usize> Columns<L> {
    /// Lets the free particles fly, and the held ones rest.
    pub(crate) fn fly(&mut self, forces: Forces) -> FlightSums
        requires lanes { L ≤ 16 }
        requires forces { IsSmall forces }
        requires at { (i : ℕ) → i < length self.old → Within (2 ^ 29) (particle_at self.old i).at }
        requires before { (i : ℕ) → i < length self.old → Within (2 ^ 29) (particle_at self.old i).before }
        ensures few { length self.old ≤ 65536 }
        ensures particles { self.new ≡ map (after_flight forces) self.old }
        ensures sums { AreSummed forces (length self.old) (λ i. is_free (particle_at self.old i)) (λ i. (particle_at self.old i).at)
            (λ i. (particle_at self.old i).before) (λ i. (after_flight forces (particle_at self.old i)).at) result }
    {
        let held = &self.held[..self.count];
        self.at.fly(&mut self.before, held, forces)
    }

    /// The first particle whose place is outside the limit, if there is one, of particles of this reach.
    pub(crate) fn first_outside(&self, reach: Reach, limit: i64) -> Result<(), u32>
        requires lanes { L ≤ 16 }
        requires low { pos 0 ≤ℤ limit }
        requires high { unsigned_abs limit ≤ 2 ^ 29 }
        requires reach { (i : ℕ) → i < length self.now → Covers reach limit (particle_at self.now i).at }
        ensures { MatchResult result
            (λ _. (i : ℕ) → i < length self.now → IsTrue (is_within limit (particle_at self.now i).at))
            (λ i. IsOutside i limit self.now) }
    {
        if reach.is_within(limit) {
            return Ok(());
        }
        for i in 0..self.count {
            let inside = within(self.at.get(i), limit);
            if !inside {
                return Err(i as u32);
            }
        }
        Ok(())
    }
}

impl<const L: usize> Store<L> {
    /// Lets the free particles fly: each goes on as far as it came, less what damping takes, and by gravity. The held ones rest.
    /// The error is the number of the first that has left the limit of `forces`; all have flown then too.
    pub fn fly<G: Ledger>(&mut self, forces: Forces, steps: &mut Steps<G>) -> Result<Flown, u32>
        requires some_lanes { 0 < L }
        requires lanes { L ≤ 16 }
        requires forces { IsSmall forces }
        requires at { AreInside forces.limit self.old.particles }
        requires before { (i : ℕ) → i < length self.old.particles
            → Within (unsigned_abs forces.limit) (particle_at self.old.particles i).before }
        ensures particles { self.new.particles ≡ map (after_flight forces) self.old.particles }
        ensures outcome { MatchResult result (AllStay forces self.old.particles) (LeavesFirst forces self.old.particles) }
        ensures limit { self.new.limit ≡ self.old.limit }
        ensures copies { self.new.copies ≡ self.old.copies }
        ensures cost { steps.new ≡ steps.old + 2 * blocks_of (length self.old.particles) L }
    {
        steps.add(2 * u64::from(self.blocks()));
        let sums = self.columns.fly(forces);
        if let Err(i) = self.columns.first_outside(sums.reach, forces.limit) {
            return Err(i);
        }
        Ok(Flown {
            free: sums.free,
            lost: sums.lost,
        })
    }
}
