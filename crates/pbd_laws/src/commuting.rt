//! Inputs that may come in either order.
ghost use Rattle.std.specs.Prelude.{◌≡◌, ◌++◌, List};
ghost use Rattle.pbd_world.specs.declared.command.Command.TheVariants.{Frame, Ledger};
ghost use Rattle.pbd_laws.specs.Prelude.{Command, World, after, reply, last_world};
ghost use Rattle.pbd_laws.specs.Targets.{AreApart, AreAllApart};

/// Players need no agreed order for inputs that name different things: two commands of which each names a particle, a link or
/// the gravity, and not the same, come to the same world in either order, ledger included, and each has the same answer before
/// and after the other. So do such commands of two players of whom neither names what the other does. Of two that name one
/// particle nothing is said: there the later one may have its way.
pub fn commands_that_name_different_things_commute()
    ensures world { (w : World) (c d : Command) → AreApart c d → after (after w c) d ≡ after (after w d) c }
    ensures answer { (w : World) (c d : Command) → AreApart c d → reply (after w c) d ≡ reply w d }
    ensures lists { (w : World) (cs ds : List Command) → AreAllApart cs ds → last_world w (cs ++ ds) ≡ last_world w (ds ++ cs) }
{}

/// Frames and ledgers may be asked for at any time: they change nothing.
pub fn reading_changes_nothing()
    ensures frame { (w : World) → after w Frame ≡ w }
    ensures ledger { (w : World) → after w Ledger ≡ w }
{}
