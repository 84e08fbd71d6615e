//! Laws of the definitions, each the contract of a function that does nothing.
ghost use Rattle.std.specs.Prelude.{◌≡◌, ℕ, ℤ, List, length};
ghost use Rattle.rand_pcg.specs.Lcg.{Lcg};
ghost use Rattle.pbd_world.specs.Particles.{Motion};
ghost use Rattle.pbd_pair.specs.declared.bonds.Bonds.{Bonds};
ghost use Rattle.pbd_pair.specs.Bonds.{bond_of};
ghost use Rattle.pbd_pair.specs.Projecting.{IsBatch};
ghost use Rattle.pbd_schedule.specs.declared.event.Event.{Event};
ghost use Rattle.pbd_schedule.specs.Legal.{IsLegal, reads_then_writes};
ghost use Rattle.pbd_schedule.specs.Mixed.{interleaved};
ghost use Rattle.pbd_schedule.specs.Drawn.{drawn};

/// Two legal interleavings of one batch leave the same places and totals, or leave the limit with the same bond.
pub fn legal_interleavings_agree()
    ensures { (limit : ℤ) (bonds : Bonds) (batch : List ℕ) (before : Motion) → IsBatch limit (length before.particles) bonds batch
        → (events others : List Event) → IsLegal (length batch) events → IsLegal (length batch) others
        → interleaved limit (bond_of bonds) batch events before ≡ interleaved limit (bond_of bonds) batch others before }
{}

/// Whatever words are drawn, the drawn events of m bonds are legal.
pub fn drawn_events_are_legal()
    ensures { (words : Lcg) (m : ℕ) → IsLegal m (drawn words m) }
{}

/// Each legal interleaving of a batch comes to what the drawn one comes to, whatever words are drawn.
pub fn legal_interleavings_agree_with_the_drawn_one()
    ensures { (limit : ℤ) (bonds : Bonds) (batch : List ℕ) (before : Motion) → IsBatch limit (length before.particles) bonds batch
        → (words : Lcg) (events : List Event) → IsLegal (length batch) events
        → interleaved limit (bond_of bonds) batch events before
        ≡ interleaved limit (bond_of bonds) batch (drawn words (length batch)) before }
{}

/// All reads, then all writes of first ends, then all writes of second ends: the order of bonds side by side is legal.
pub fn reads_then_writes_are_legal()
    ensures { (m : ℕ) → IsLegal m (reads_then_writes m) }
{}
