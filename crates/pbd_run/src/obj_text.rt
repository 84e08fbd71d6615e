//! Replies as OBJ text: a frame is a mesh, and all else is comments.
ghost use Rattle.std.specs.Prelude.{◌≡◌, ◌<◌, ◌≤◌, if◌then◌else◌};
ghost use Rattle.std.specs.List.{flat_map};
ghost use Rattle.pbd_run.specs.Prelude.{HasCause, WritesPiece};
ghost use Rattle.pbd_obj.specs.Meshes.{faces};
ghost use Rattle.pbd_obj.specs.Writing.{face_line};
ghost use Rattle.pbd_world.specs.Meaning.{after, reply};
ghost use Rattle.pbd_world.specs.Session.{is_refused};
ghost use Rattle.pbd_outcome.specs.ObjText.{obj_frame, obj_text, particle_line};
ghost use Rattle.pbd_run.specs.Calls.{IsDrawable};

use crate::serving::Serve;
use pbd_io::{Failed, Sink};
use pbd_obj::{ObjMesh, write_face, write_vertex};
use pbd_pair::Projector;
use pbd_session::Session;
use pbd_store::Steps;
use pbd_world::{Command, Reply};
use std::sync::ledger::Ledger;

/// What stands before a line that is no part of a mesh.
const COMMENT: &[u8] = b"# ";

/// Writes each particle as a vertex.
fn write_particles<const L: usize, P: Projector<L> + Drop, K: Sink, G: Ledger>(
    session: &Session<L, P>,
    sink: &mut K,
    steps: &mut Steps<G>,
) -> Result<(), Failed>
    requires lanes_high { L ≤ 16 }
    ensures bytes { WritesPiece (K.written sink.old) (K.written sink.new) result (flat_map particle_line session.now.particles) }
    ensures cause { HasCause (K.faults sink.old) (K.faults sink.new) result }
{
    let solver = session.solver();
    for i in 0..solver.particles() {
        write_vertex(solver.particle(i, steps).at, sink)?;
    }
    Ok(())
}

/// How many refusals a reply is: one or none.
fn refusals(reply: &Reply) -> u64
    ensures { result ≡ (if is_refused reply.now then 1 else 0) }
{
    match reply {
        Reply::Refused(_) => 1,
        _ => 0,
    }
}

/// The faces of the frames.
#[derive(Drop)]
pub struct Faces<'a> {
    pub mesh: &'a ObjMesh,
    /// The particle of the first vertex.
    pub base: u32,
}

impl Faces<'_> {
    fn write_faces<K: Sink>(&self, sink: &mut K) -> Result<(), Failed>
        requires drawable { IsDrawable self.now.base self.now.mesh.now }
        ensures bytes { WritesPiece (K.written sink.old) (K.written sink.new) result
            (flat_map (face_line self.now.base) (faces self.now.mesh.now)) }
        ensures cause { HasCause (K.faults sink.old) (K.faults sink.new) result }
    {
        let sizes = self.mesh.sizes.as_slice();
        let mut rest = self.mesh.corners.as_slice();
        for size in sizes {
            let (face, behind) = rest.split_at(*size as usize);
            write_face(face, self.base, sink)?;
            rest = behind;
        }
        Ok(())
    }

    /// Writes the first line, the particles and then the faces.
    fn write_frame<const L: usize, P: Projector<L> + Drop, K: Sink, G: Ledger>(
        &self,
        session: &Session<L, P>,
        sink: &mut K,
        steps: &mut Steps<G>,
    ) -> Result<(), Failed>
        requires lanes_high { L ≤ 16 }
        requires drawable { IsDrawable self.now.base self.now.mesh.now }
        ensures bytes { WritesPiece (K.written sink.old) (K.written sink.new) result
            (obj_frame self.now.base self.now.mesh.now session.now) }
        ensures cause { HasCause (K.faults sink.old) (K.faults sink.new) result }
    {
        session.write_header_after(COMMENT, sink)?;
        write_particles(session, sink, steps)?;
        self.write_faces(sink)
    }

    /// Writes a reply, with frames and ledgers read from the session's world as it is now.
    #[tactic(auto, unfolding(pbd_outcome::specs::ObjText::obj_text))]
    fn write_reply<const L: usize, P: Projector<L> + Drop, K: Sink, G: Ledger>(
        &self,
        session: &Session<L, P>,
        reply: &Reply,
        sink: &mut K,
        steps: &mut Steps<G>,
    ) -> Result<(), Failed>
        requires lanes_high { L ≤ 16 }
        requires drawable { IsDrawable self.now.base self.now.mesh.now }
        ensures bytes { WritesPiece (K.written sink.old) (K.written sink.new) result
            (obj_text self.now.base self.now.mesh.now session.now reply.now) }
        ensures cause { HasCause (K.faults sink.old) (K.faults sink.new) result }
    {
        match reply {
            Reply::Frame => self.write_frame(session, sink, steps),
            Reply::Done | Reply::Ledger | Reply::Refused(_) => {
                session.write_after(COMMENT, reply, sink, steps)
            }
        }
    }
}

impl<const L: usize, P: Projector<L> + Drop> Serve<Session<L, P>, Command> for Faces<'_> {
    ghost ready = { λ it. (0 < L) × (L ≤ 16) × IsDrawable it.base it.mesh.now };

    ghost state_after = { λ _ w c. after w c };

    ghost answer_to = { λ it w c. obj_text it.base it.mesh.now (after w c) (reply w c) };

    ghost refuses = { λ _ w c. is_refused (reply w c) };

    fn serve<K: Sink, G: Ledger>(
        &self,
        state: &mut Session<L, P>,
        command: Command,
        sink: &mut K,
        steps: &mut Steps<G>,
    ) -> Result<u64, Failed> {
        let reply = state.apply(&command, steps);
        match self.write_reply(state, &reply, sink, steps) {
            Ok(()) => Ok(refusals(&reply)),
            Err(failed) => Err(failed),
        }
    }
}
