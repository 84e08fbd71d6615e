//! Sessions side by side.
ghost use Rattle.std.specs.Prelude.{◌≡◌, ◌<◌, ◌≤◌, ◌++◌, map, length, All, IfOk};
ghost use Rattle.pbd_io.specs.Causes.{HasCause};
ghost use Rattle.pbd_io.specs.Pieces.{WritesPiece};
ghost use Rattle.pbd_world.specs.Meaning.{after, reply};
ghost use Rattle.pbd_world.specs.World.{opened, IsSound};
ghost use Rattle.pbd_host.specs.Tagged.{request_of};
ghost use Rattle.pbd_host.specs.Hosted.{bad_tag_text, command_text, request_text, served, served_as, session_line, worlds_after};

use crate::request::request_of;
use crate::{Request, Served};
use pbd_io::{Failed, Sink};
use pbd_line::Line;
use pbd_pair::Projector;
use pbd_session::Session;
use pbd_store::Steps;
use pbd_world::{Command, Reply, Scene};
use std::alloc::{AllocError, Global};
use std::marker::Model;
use std::sync::ledger::Ledger;

/// Up to 16 sessions, numbered from 0, seen as the list of their worlds. Only opening takes memory.
#[derive(Drop)]
pub struct Host<const L: usize, P: Projector<L> + Drop> {
    first: Session<L, P>,
    others: Vec<Session<L, P>>,
}

impl<const L: usize, P: Projector<L> + Drop> Model for Host<L, P> {
    ghost use Rattle.std.specs.Prelude.{List, ◌∷◌};
    ghost use Rattle.pbd_world.specs.World.{World};
    ghost use Rattle.pbd_host.specs.Hosted.{AreHosted};

    ghost Value = { List World };

    ghost view = { λ h. h.first ∷ h.others.items };

    ghost invariant = { λ h. AreHosted h.first h.others.items };
}

impl<const L: usize, P: Projector<L> + Drop> Host<L, P> {
    /// A session for each of 1 to 16 scenes, in their order. The only call that takes memory.
    pub fn open(alloc: Global, scenes: &[Scene], projector: P) -> Result<Host<L, P>, AllocError>
    where
        P: Copy,
        requires lanes_low { 0 < L }
        requires lanes_high { L ≤ 16 }
        requires some { 0 < length scenes.now }
        requires few { length scenes.now ≤ 16 }
        ensures worlds { IfOk result (λ host. host ≡ map opened scenes.now) }
        ensures sound { IfOk result (λ host. All IsSound host) }
    {
        let others = open_all(alloc, &scenes[1..], projector)?;
        match Session::open(alloc, &scenes[0], projector) {
            Ok(first) => Ok(Host { first, others }),
            Err(AllocError) => {
                drop(others);
                Err(AllocError)
            }
        }
    }

    /// Does a command of a session, and writes its number and the reply.
    #[tactic(auto, unfolding(crate::specs::Hosted::request_text))]
    fn serve<K: Sink, G: Ledger>(
        &mut self,
        number: u32,
        command: &Command,
        sink: &mut K,
        steps: &mut Steps<G>,
    ) -> Result<Served, Failed>
        requires lanes_low { 0 < L }
        requires lanes_high { L ≤ 16 }
        requires among { number < length self.old }
        ensures served { IfOk result (λ it. it ≡ served self.old (Request.To number command.now)) }
        ensures bytes { WritesPiece (K.written sink.old) (K.written sink.new) result
            (request_text self.old (Request.To number command.now)) }
        ensures worlds { self.new ≡ worlds_after self.old (Request.To number command.now) }
        ensures sound { All IsSound self.new }
        ensures cause { HasCause (K.faults sink.old) (K.faults sink.new) result }
    {
        let place = number as usize;
        let asked = Asked { number, command };
        if place == 0 {
            return asked.serve_in(&mut self.first, sink, steps);
        }
        asked.serve_in(&mut self.others[place - 1], sink, steps)
    }

    /// Does what a line asks for, a line without its newline, and writes the session's number and the reply, each
    /// printed line by one call of `write`. Of a blank line or a comment it writes nothing, and of a bad tag that it is
    /// refused: these change nothing, and a command changes the world of its session alone.
    ///
    /// `Failed` comes only where the sink's count of faults rose, or stands at 2^64 - 1. Then a prefix of the line's text was
    /// appended, and the worlds are those after the line.
    #[tactic(auto, unfolding(crate::specs::Hosted::request_text))]
    pub fn serve_line<K: Sink, G: Ledger>(
        &mut self,
        line: &[u8],
        sink: &mut K,
        steps: &mut Steps<G>,
    ) -> Result<Served, Failed>
        requires lanes_low { 0 < L }
        requires lanes_high { L ≤ 16 }
        ensures served { IfOk result (λ it. it ≡ served self.old (request_of (length self.old) line.now)) }
        ensures bytes { WritesPiece (K.written sink.old) (K.written sink.new) result
            (request_text self.old (request_of (length self.old) line.now)) }
        ensures worlds { self.new ≡ worlds_after self.old (request_of (length self.old) line.now) }
        ensures sound { All IsSound self.new }
        ensures cause { HasCause (K.faults sink.old) (K.faults sink.new) result }
    {
        match request_of(1 + self.others.len(), line) {
            Request::Blank => Ok(Served::Blank),
            Request::BadTag => write_bad_tag(sink),
            Request::To { session, command } => self.serve(session, &command, sink, steps),
        }
    }
}

/// A session for each scene.
fn open_all<const L: usize, P: Projector<L> + Copy + Drop>(
    alloc: Global,
    scenes: &[Scene],
    projector: P,
) -> Result<Vec<Session<L, P>>, AllocError>
    requires lanes_low { 0 < L }
    requires lanes_high { L ≤ 16 }
    ensures worlds { IfOk result (λ sessions. sessions.items ≡ map opened scenes.now) }
    ensures sound { IfOk result (λ sessions. All IsSound sessions.items) }
{
    let mut sessions = Vec::new(alloc);
    for scene in scenes {
        let session = Session::open(alloc, scene, projector)?;
        sessions.push(session)?;
    }
    Ok(sessions)
}

/// A command for one session, and the session's number.
#[derive(Clone, Copy)]
struct Asked<'a> {
    number: u32,
    command: &'a Command,
}

impl Asked<'_> {
    /// Does the command in its session, and writes the session's number and the reply.
    fn serve_in<const L: usize, P: Projector<L> + Drop, K: Sink, G: Ledger>(
        &self,
        session: &mut Session<L, P>,
        sink: &mut K,
        steps: &mut Steps<G>,
    ) -> Result<Served, Failed>
        requires lanes_low { 0 < L }
        requires lanes_high { L ≤ 16 }
        ensures served { IfOk result (λ it. it ≡ served_as self.now.number (reply session.old self.now.command.now)) }
        ensures bytes { WritesPiece (K.written sink.old) (K.written sink.new) result
            (session_line self.now.number ++ command_text session.old self.now.command.now) }
        ensures world { session.new ≡ after session.old self.now.command.now }
        ensures sound { IsSound session.new }
        ensures cause { HasCause (K.faults sink.old) (K.faults sink.new) result }
    {
        let reply = session.apply(self.command, steps);
        sink.write(session_line(self.number).as_slice())?;
        session.write_reply(&reply, sink, steps)?;
        Ok(served_as(self.number, &reply))
    }
}

/// The first line of what a session answers.
#[tactic(auto, unfolding(crate::specs::Hosted::session_line))]
fn session_line(number: u32) -> Line
    ensures { result ≡ session_line number }
{
    let mut line = Line::new();
    line.push("session ");
    line.push_number(u64::from(number));
    line.push("\n");
    line
}

fn served_as(session: u32, reply: &Reply) -> Served
    ensures { result ≡ served_as session reply.now }
{
    match reply {
        Reply::Refused(_) => Served::Refused { session },
        _ => Served::Accepted { session },
    }
}

/// Writes that a tag is bad.
fn write_bad_tag<K: Sink>(sink: &mut K) -> Result<Served, Failed>
    ensures served { IfOk result (λ it. it ≡ Served.BadTag) }
    ensures bytes { WritesPiece (K.written sink.old) (K.written sink.new) result bad_tag_text }
    ensures cause { HasCause (K.faults sink.old) (K.faults sink.new) result }
{
    sink.write(b"session -\n")?;
    sink.write(b"refused 15 BadTag\n")?;
    Ok(Served::BadTag)
}
