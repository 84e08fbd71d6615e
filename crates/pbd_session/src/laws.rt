//! Laws of the definitions, each the contract of a function that does nothing.
ghost use Rattle.std.specs.Prelude.{◌≡◌, [], List};
ghost use Rattle.pbd_world.specs.declared.command.Command.{Command};
ghost use Rattle.pbd_world.specs.declared.command.Reply.{Reply};
ghost use Rattle.pbd_world.specs.World.{World};
ghost use Rattle.pbd_world.specs.Text.{text};
ghost use Rattle.pbd_world.specs.Session.{last_world, refused_count, session_text};
ghost use Rattle.pbd_session.specs.declared.ending.ReplayEnd.TheVariants as ends;
ghost use Rattle.pbd_session.specs.Printing.{text_after};
ghost use Rattle.pbd_session.specs.Recording.{entries_of};
ghost use Rattle.pbd_session.specs.Replaying.{replayed};

/// Lines with nothing before them are the printed lines.
pub fn nothing_before_lines_is_the_text()
    ensures { (w : World) (reply : Reply) → text_after [] w reply ≡ text w reply }
{}

/// The entries of a session, replayed from its first world, agree: they print what it printed, with the same count
/// of refusals, and leave the same world.
pub fn recorded_sessions_replay_alike()
    ensures { (w : World) (commands : List Command) → replayed w (entries_of w commands)
        ≡ record { text = session_text w commands; ended = ends.Done (refused_count w commands); world = last_world w commands } }
{}
