//! What a tagged line asks for.
ghost use Rattle.std.specs.Prelude.{◌≡◌, ◌<◌, ◌≤◌, IfSome};
ghost use Rattle.pbd_host.specs.Tagged.{IsAmong, command_behind, request_of, session_of, to_session};

use pbd_script::line_command;
use pbd_script::lines::{count_of, next_word, without_return};
use pbd_world::Command;

/// What a tagged line asks for.
#[derive(Clone, Copy, Debug, PartialEq, Eq)]
pub enum Request {
    /// Nothing: it has no words, or is a comment.
    Blank,
    /// Nothing that can be done: its first word is the number of no session.
    BadTag,
    /// A command for a session.
    To { session: u32, command: Command },
}

/// The session whose number a word is, of at most 16 sessions.
fn session_of(sessions: usize, word: &[u8]) -> Option<u32>
    requires few { sessions ≤ 16 }
    ensures session { result ≡ session_of sessions word.now }
    ensures among { IfSome result (λ t. t < sessions) }
{
    let tag = count_of(word)?;
    if tag < sessions as u64 {
        Some(tag as u32)
    } else {
        None
    }
}

/// The command of what follows a tag, and `Bad` where there is none.
fn command_behind(rest: &[u8]) -> Command
    ensures { result ≡ command_behind rest.now }
{
    match line_command(rest) {
        Some(command) => command,
        None => Command::Bad,
    }
}

fn to_session(sessions: usize, word: &[u8], rest: &[u8]) -> Request
    requires few { sessions ≤ 16 }
    ensures request { result ≡ to_session (session_of sessions word.now) rest.now }
    ensures among { IsAmong sessions result }
{
    match session_of(sessions, word) {
        Some(session) => Request::To {
            session,
            command: command_behind(rest),
        },
        None => Request::BadTag,
    }
}

/// What a line without its newline asks of so many sessions, at most 16.
#[tactic(auto, unfolding(crate::specs::Tagged::request_of))]
pub fn request_of(sessions: usize, line: &[u8]) -> Request
    requires few { sessions ≤ 16 }
    ensures request { result ≡ request_of sessions line.now }
    ensures among { IsAmong sessions result }
{
    match next_word(without_return(line)) {
        None => Request::Blank,
        Some((word, rest)) => {
            if word.starts_with(b"#".as_slice()) {
                Request::Blank
            } else {
                to_session(sessions, word, rest)
            }
        }
    }
}
