//! Laws of marks, each the contract of a function that does nothing.
ghost use Rattle.std.specs.Prelude.{◌≡◌, ◌≢◌, ◌≤◌, ℕ, List, length};
ghost use Rattle.pbd_marks.specs.declared.command.MarkCommand.{MarkCommand};
ghost use Rattle.pbd_marks.specs.declared.command.MarkCommand.TheVariants.{Mark, Rewind};
ghost use Rattle.pbd_marks.specs.Marked.{mark_at, Marked, marked_after, LeavesMark, LeavesMarksOf, TakesBack};

/// Setting a mark changes no other one.
#[tactic(auto, using(crate::proofs::MarkedLaws::set_others))]
pub fn setting_a_mark_changes_no_other()
    ensures { (m : Marked) (k other : ℕ) → other ≢ k → mark_at (marked_after m (Mark k)).marks other ≡ mark_at m.marks other }
{}

/// Going back to a mark changes no mark, so that one can go back to it again.
#[tactic(auto, using(crate::proofs::MarkedLaws::rewind_marks))]
pub fn a_rewind_changes_no_mark()
    ensures { (m : Marked) (k : ℕ) → (marked_after m (Rewind k)).marks ≡ m.marks }
{}

/// Save, play on, and load: the game is what it was when it was saved, whatever was played in between that doesn't set the
/// same mark. All that is played from there prints the same lines, has as many refusals and ends in the same world as right
/// after the save. What was played in between may set other marks, to which what is played later doesn't go back.
pub fn a_rewind_takes_back_all_since_its_mark()
    ensures { (m : Marked) (k : ℕ) (between later : List MarkCommand) → k ≤ 7 → length m.marks ≡ 8
        → LeavesMark k between → LeavesMarksOf later between → TakesBack m k between later }
{}
