//! Rollback: worlds that are kept in slots, and gone back to.
ghost use Rattle.std.specs.Prelude.{◌≡◌, ◌≢◌, ◌+◌, ◌≤◌, ◌<◌, ℕ, List, [], ◌∷◌, ◌++◌, length, All};
ghost use Rattle.pbd_laws.specs.Prelude.{World, last_world};
ghost use Rattle.pbd_laws.specs.Machine.{Machine, Act, all_acted};
ghost use Rattle.pbd_laws.specs.Machine.Act.{Save, Restore};
ghost use Rattle.pbd_laws.specs.Ring.{Turns, Event, commands_of, all_taken, all_acts, AreInTime};

/// Save, do anything, and go back: the world is the saved one. What is done in between may play, and may save to other slots
/// and go back to any slot; it may not save to this one.
pub fn a_slot_keeps_its_world()
    ensures { (m : Machine) (k : ℕ) (between : List Act) → k < length m.slots → All (λ act. act ≢ Save k) between
        → (all_acted m (Save k ∷ (between ++ (Restore k ∷ [])))).world ≡ m.world }
{}

/// Rollback: with n slots, each turn is played at once with what is known or guessed of its inputs, after the world is saved
/// in slot turn mod n. When the true inputs of one of the last n turns come, the machine goes back to its slot and plays that
/// turn and those since again. At any time its world is that of the inputs as they are known, played in order from the start:
/// of the true ones, once all have come, each within n turns.
pub fn late_inputs_come_to_the_same_world()
    ensures world { (m : Machine) (n : ℕ) (events : List Event) → 1 ≤ n → n ≤ length m.slots → AreInTime n [] events
        → (all_acted m (all_acts n [] events)).world ≡ last_world m.world (commands_of (all_taken [] events)) }
    ensures alike { (l m : Machine) (k n : ℕ) (events others : List Event) → 1 ≤ k → k ≤ length l.slots → 1 ≤ n → n ≤ length m.slots
        → AreInTime k [] events → AreInTime n [] others → l.world ≡ m.world → all_taken [] events ≡ all_taken [] others
        → (all_acted l (all_acts k [] events)).world ≡ (all_acted m (all_acts n [] others)).world }
{}
