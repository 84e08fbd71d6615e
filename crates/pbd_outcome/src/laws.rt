//! Laws of what runs write, each the contract of a function.
ghost use Rattle.std.specs.Prelude.{◌≡◌, ◌≤◌, ◌∷◌, ◌++◌, ℕ, List, Option, Some, Ok, length};
ghost use Rattle.pbd_world.specs.declared.command.Command.{Command};
ghost use Rattle.pbd_world.specs.declared.command.Refusal.{Refusal};
ghost use Rattle.pbd_world.specs.declared.command.Reply.TheVariants as replies;
ghost use Rattle.pbd_world.specs.declared.command.Width.{Width};
ghost use Rattle.pbd_world.specs.declared.parts.Parts.{Parts};
ghost use Rattle.pbd_world.specs.Meaning.{reply};
ghost use Rattle.pbd_world.specs.Session.{session_text};
ghost use Rattle.pbd_world.specs.Text.{refusal_line};
ghost use Rattle.pbd_world.specs.World.{World, opened};
ghost use Rattle.pbd_log.specs.declared.entry.Entry.{Entry};
ghost use Rattle.pbd_log.specs.Laws.{IsBytes};
ghost use Rattle.pbd_log.specs.Logs.{Spells};
ghost use Rattle.pbd_session.specs.Replaying.{replayed};
ghost use Rattle.pbd_outcome.specs.declared.job.Job.{Job};
ghost use Rattle.pbd_outcome.specs.declared.job.Job.TheVariants as jobs;
ghost use Rattle.pbd_outcome.specs.Headline.{Accepts};
ghost use Rattle.pbd_outcome.specs.Outcome.{IsOutcome, Outcome, most, most_of_log, old_limit, recorded, replay_outcome, scene_in, simulated};

use pbd_session::recorded_sessions_replay_alike;

/// What a run writes and answers is determined by the job and the input.
pub fn each_input_has_one_outcome()
    ensures { (job : Option Job) (input : List ℕ) (o p : Outcome) → IsOutcome job input o → IsOutcome job input p → o ≡ p }
{}

/// Each job has an outcome on each input, whatever its bytes.
pub fn each_input_has_an_outcome()
    ensures { (job : Option Job) (input : List ℕ) → IsBytes input → (o : Outcome) × IsOutcome job input o }
{}

/// What `scramble` comes to is what `simulate` comes to, at every width and whatever the number.
pub fn a_scrambled_run_comes_to_what_simulate_does()
    ensures { (number : ℕ) (width : Width) (input : List ℕ) (o : Outcome)
        → IsOutcome (Some (jobs.Scramble number)) input o → IsOutcome (Some (jobs.Simulate width)) input o }
{}

/// A refused command prints its line, and all that comes after it is what comes without it.
pub fn a_refused_command_changes_nothing_later()
    ensures { (w : World) (command : Command) (later : List Command) (refusal : Refusal)
        → reply w command ≡ replies.Refused refusal
        → session_text w (command ∷ later) ≡ refusal_line refusal ++ session_text w later }
{}

/// A recorded log is never longer than `replay` accepts.
pub fn a_recorded_log_is_accepted()
    ensures { (input : List ℕ) → length input ≤ most → length (recorded input).text ≤ most_of_log }
{}

/// What `record` writes of an accepted scene is a log that `replay` accepts, at every width, and its replay writes what
/// `simulate` writes, with the same status.
pub fn a_recorded_log_replays_alike()
    ensures { (width : Width) (input script : List ℕ) (parts : Parts) → Accepts input parts script
        → IsOutcome (Some (jobs.Replay width)) (recorded input).text (simulated input) }
{
    // The law of sessions on which this one rests.
    recorded_sessions_replay_alike();
}

/// A log of version 1 doesn't say its limit, which is 268,435,456. Where the log has at most 134,217,728 bytes, and its scene is
/// accepted with this limit, `replay` at every width has the outcome of its entries, replayed from the world that the scene
/// opens, and that world has this limit.
pub fn an_old_log_replays_with_its_own_limit()
    ensures outcome { (width : Width) (input scene : List ℕ) (entries : List Entry) (parts : Parts)
        → length input ≤ 134217728 → Spells input 1 old_limit scene entries → scene_in old_limit scene ≡ Ok parts
        → IsOutcome (Some (jobs.Replay width)) input (replay_outcome (replayed (opened parts) entries)) }
    ensures limit { (scene : List ℕ) (parts : Parts) → scene_in old_limit scene ≡ Ok parts → (opened parts).limit ≡ old_limit }
{}
