//! Laws of slots, each the contract of a function that does nothing.
ghost use Rattle.std.specs.Prelude.{◌≡◌, ◌≢◌, ◌<◌, ℕ, List, length};
ghost use Rattle.pbd_world.specs.declared.command.Command.{Command};
ghost use Rattle.pbd_cloth.specs.Slots.{Slotted, slot_at, played, saved, restored, last_played};

/// A save changes no other slot, and not the world.
pub fn a_save_changes_no_other_slot()
    ensures slots { (c : Slotted) (k other : ℕ) → other ≢ k → slot_at (saved c k) other ≡ slot_at c other }
    ensures world { (c : Slotted) (k : ℕ) → (saved c k).world ≡ c.world }
{}

/// Going back to a slot changes no slot, so that one can go back to it again.
pub fn a_restore_changes_no_slot()
    ensures { (c : Slotted) (k : ℕ) → (restored c k).slots ≡ c.slots }
{}

/// Commands change no slot.
pub fn commands_change_no_slot()
    ensures { (c : Slotted) (commands : List Command) → (last_played c commands).slots ≡ c.slots }
{}

/// Save, play on, and go back: the cloth is what it was right after the save, whatever was played in between.
pub fn what_was_played_since_a_save_is_taken_back()
    ensures { (c : Slotted) (k : ℕ) (between : List Command) → k < length c.slots
        → restored (last_played (saved c k) between) k ≡ saved c k }
{}
