//! Laws of hosted sessions, each the contract of a function that does nothing.
ghost use Rattle.std.specs.Prelude.{◌≡◌, ◌<◌, ◌≤◌, ℕ, List, None, length};
ghost use Rattle.pbd_world.specs.Session.{last_world, refused_count, session_text};
ghost use Rattle.pbd_world.specs.World.{World};
ghost use Rattle.pbd_host.specs.declared.request.Request.{Request};
ghost use Rattle.pbd_host.specs.Hosted.{command_to, commands_to, last_worlds, own_refused, own_text, world_at, worlds_after};

/// A request that is no command for session t leaves that session's world as it was, whatever becomes of others.
pub fn a_line_changes_its_own_world_alone()
    ensures { (ws : List World) (t : ℕ) (r : Request) → command_to t r ≡ None → world_at (worlds_after ws r) t ≡ world_at ws t }
{}

/// Whatever requests of others come between: what is printed for session t, without the lines `session T`, is what it
/// prints alone for its own commands from its own world; it refuses as many of them; and it ends in the same world.
pub fn hosted_sessions_are_apart()
    ensures text { (ws : List World) (t : ℕ) (rs : List Request) → length ws ≤ 16 → t < length ws
        → own_text t ws rs ≡ session_text (world_at ws t) (commands_to t rs) }
    ensures refused { (ws : List World) (t : ℕ) (rs : List Request) → t < length ws
        → own_refused t ws rs ≡ refused_count (world_at ws t) (commands_to t rs) }
    ensures world { (ws : List World) (t : ℕ) (rs : List Request) → t < length ws
        → world_at (last_worlds ws rs) t ≡ last_world (world_at ws t) (commands_to t rs) }
{}
