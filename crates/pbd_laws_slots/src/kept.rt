//! What cloths and scripts with marks do with the worlds that they keep.
ghost use Rattle.std.specs.Prelude.{◌≡◌, ◌≤◌, ℕ, List, [], length, map};
ghost use Rattle.pbd_world.specs.declared.command.Command.{Command};
ghost use Rattle.pbd_world.specs.Session.{last_world};
ghost use Rattle.pbd_world.specs.World.{World};
ghost use Rattle.pbd_cloth.specs.Slots.{Slotted, begun, played, saved, restored};
ghost use Rattle.pbd_marks.specs.Marked.{Marked, marked_after, last_marked, unmarked};
ghost use Rattle.pbd_marks.specs.declared.command.MarkCommand.TheVariants.{Plain, Mark, Rewind};
ghost use Rattle.pbd_laws.specs.Machine.{Act, acted};
ghost use Rattle.pbd_laws.specs.Machine.Act.{Play, Save, Restore};
ghost use Rattle.pbd_laws.specs.Ring.{Event, commands_of, all_taken, all_acts, AreInTime};
ghost use Rattle.pbd_laws_slots.specs.Views.{of_cloth, of_marks, all_done, mark_command};

/// What a cloth does with its slots is what the machine of slots does: a command, a save and a going back are its acts. So a
/// game that keeps each turn in a ring of n of a cloth's slots, and learns each input within n turns, has at any time the world of
/// the inputs that it knows.
pub fn cloths_are_a_machine_of_slots()
    ensures play { (c : Slotted) (command : Command) → of_cloth (played c command) ≡ acted (of_cloth c) (Play command) }
    ensures save { (c : Slotted) (k : ℕ) → of_cloth (saved c k) ≡ acted (of_cloth c) (Save k) }
    ensures restore { (c : Slotted) (k : ℕ) → of_cloth (restored c k) ≡ acted (of_cloth c) (Restore k) }
    ensures rollback { (w : World) (slots n : ℕ) (events : List Event) → 1 ≤ n → n ≤ slots → AreInTime n [] events
        → (all_done (begun w slots) (all_acts n [] events)).world ≡ last_world w (commands_of (all_taken [] events)) }
{}

/// What a script does with its eight marks is what the machine of slots does: a plain command, a mark and a rewind are its
/// acts, those with a bad or an empty mark included. So a script that keeps each turn in a ring of n of the marks, and learns
/// each input within n turns, has at any time the world of the inputs that it knows.
pub fn marks_are_a_machine_of_slots()
    ensures play { (m : Marked) (command : Command) → of_marks (marked_after m (Plain command)) ≡ acted (of_marks m) (Play command) }
    ensures save { (m : Marked) (k : ℕ) → length m.marks ≡ 8 → of_marks (marked_after m (Mark k)) ≡ acted (of_marks m) (Save k) }
    ensures restore { (m : Marked) (k : ℕ) → length m.marks ≡ 8
        → of_marks (marked_after m (Rewind k)) ≡ acted (of_marks m) (Restore k) }
    ensures rollback { (w : World) (n : ℕ) (events : List Event) → 1 ≤ n → n ≤ 8 → AreInTime n [] events
        → (last_marked (unmarked w) (map mark_command (all_acts n [] events))).world
        ≡ last_world w (commands_of (all_taken [] events)) }
{}
