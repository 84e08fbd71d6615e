//! What a session may cost, known before it is played; and what its log has of it.
ghost use Rattle.std.specs.Prelude.{◌≡◌, ◌<◌, ◌≤◌, ◌*◌, ℕ, List, map, IsTrue};
ghost use Rattle.pbd_world.specs.Replay.{LogEntry, logged};
ghost use Rattle.pbd_world.specs.Work.{session_work, steps_work};
ghost use Rattle.pbd_laws.specs.Prelude.{Command, Parts, is_valid, World, IsSound, opened};
ghost use Rattle.pbd_laws.specs.Costs.{most_of_step, most_of_session};

/// Before a session is played, its scene and its commands say how often it may reach the particles at most: each step costs no
/// more than a sum of the scene's sizes, wherever the particles go and however it ends.
pub fn sessions_cost_a_sum_of_the_scene()
    ensures steps { (width lanes n : ℕ) (w : World) → 0 < lanes → IsSound w
        → steps_work width lanes n w ≤ n * most_of_step width lanes w }
    ensures session { (width lanes : ℕ) (parts : Parts) (commands : List Command) → 0 < lanes → IsTrue (is_valid parts)
        → session_work width lanes (opened parts) commands ≤ most_of_session width lanes (opened parts) commands }
{}

/// The commands of the entries that a log has of a session are those of its script, in order.
pub fn logs_have_the_commands_of_their_script()
    ensures { (w : World) (commands : List Command) → map {A = LogEntry} (λ e. e.command) (logged w commands) ≡ commands }
{}
