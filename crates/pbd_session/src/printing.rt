//! Replies, line by line, each line by one call of the sink's `write` unless its prefix is long.
ghost use Rattle.std.specs.Prelude.{◌≡◌, ◌+◌, ◌≤◌, ◌++◌, length, map, All};
ghost use Rattle.std.specs.List.{flat_map};
ghost use Rattle.pbd_io.specs.Causes.{HasCause};
ghost use Rattle.pbd_io.specs.Pieces.{WritesPiece};
ghost use Rattle.pbd_world.specs.Text.{text};
ghost use Rattle.pbd_world.specs.Work.{reply_work};
ghost use Rattle.pbd_session.specs.declared.printing.NamedTotal.{NamedTotal};
ghost use Rattle.pbd_session.specs.Printing.{NamedSum, header_after, ledger_sums, place_after, sum_after, text_after};
ghost use Rattle.pbd_session.specs.Naming.{IsShort, named_of};

use crate::Session;
use crate::line::{done_line, header_line, place_line, refusal_line, sum_line};
use pbd_io::{Failed, Sink};
use pbd_line::Line;
use pbd_pair::Projector;
use pbd_step::Solver;
use pbd_store::Steps;
use pbd_world::Reply;
use std::sync::ledger::Ledger;

/// A sum of the ledger, and its name of at most 8 bytes.
#[derive(Clone, Copy)]
pub struct NamedTotal {
    name: &'static str,
    sum: [i128; 3],
}

/// Writes a prefix and a line, in one call where both fit in a line.
fn write_both<K: Sink>(prefix: &[u8], line: &Line, sink: &mut K) -> Result<(), Failed>
    ensures bytes { WritesPiece (K.written sink.old) (K.written sink.new) result (prefix.now ++ line.now) }
    ensures cause { HasCause (K.faults sink.old) (K.faults sink.new) result }
{
    if prefix.len() <= line.room() {
        let mut whole = Line::new();
        whole.push_bytes(prefix);
        whole.push_bytes(line.as_slice());
        return sink.write(whole.as_slice());
    }
    sink.write(prefix)?;
    sink.write(line.as_slice())
}

/// Writes a line with a prefix before it, in one call where both fit in a line.
fn write_line<K: Sink>(prefix: &[u8], line: &Line, sink: &mut K) -> Result<(), Failed>
    ensures bytes { WritesPiece (K.written sink.old) (K.written sink.new) result (prefix.now ++ line.now) }
    ensures cause { HasCause (K.faults sink.old) (K.faults sink.new) result }
{
    if prefix.is_empty() {
        return sink.write(line.as_slice());
    }
    write_both(prefix, line, sink)
}

fn write_header<const L: usize, P: Projector<L> + Drop, K: Sink>(
    solver: &Solver<L, P>,
    prefix: &[u8],
    sink: &mut K,
) -> Result<(), Failed>
    requires lanes_high { L ≤ 16 }
    ensures bytes { WritesPiece (K.written sink.old) (K.written sink.new) result (header_after prefix.now solver.now.world) }
    ensures cause { HasCause (K.faults sink.old) (K.faults sink.new) result }
{
    let steps = solver.step_count();
    let particles = solver.particles();
    let live = solver.live();
    let contacts = solver.contacts();
    let header = header_line(steps, particles, live, contacts);
    write_line(prefix, &header, sink)
}

fn write_places<const L: usize, P: Projector<L> + Drop, K: Sink, G: Ledger>(
    solver: &Solver<L, P>,
    prefix: &[u8],
    sink: &mut K,
    steps: &mut Steps<G>,
) -> Result<(), Failed>
    requires lanes_high { L ≤ 16 }
    ensures bytes { WritesPiece (K.written sink.old) (K.written sink.new) result
        (flat_map (place_after prefix.now) solver.now.world.particles) }
    ensures cause { HasCause (K.faults sink.old) (K.faults sink.new) result }
    ensures cost { steps.new ≤ steps.old + length solver.now.world.particles }
{
    for i in 0..solver.particles() {
        let place = place_line(&solver.particle(i, steps));
        write_line(prefix, &place, sink)?;
    }
    Ok(())
}

/// The sums of the ledger in the order of its lines.
fn named_sums<const L: usize, P: Projector<L> + Drop, G: Ledger>(
    solver: &Solver<L, P>,
    steps: &mut Steps<G>,
) -> [NamedTotal; 8]
    requires lanes_high { L ≤ 16 }
    ensures sums { map {A = NamedTotal} {B = NamedSum} named_of result ≡ ledger_sums solver.now.world }
    ensures short { All IsShort result }
    ensures cost { steps.new ≡ steps.old + length solver.now.world.particles }
{
    let totals = *solver.totals();
    let named = |name, sum| NamedTotal { name, sum };
    [
        named("momentum", solver.momentum(steps)),
        named("opening", *solver.opening()),
        named("gravity", totals.gravity),
        named("damping", totals.damping),
        named("link", totals.link),
        named("contact", totals.contact),
        named("pin", totals.pin),
        named("shape", totals.shape),
    ]
}

fn write_sums<K: Sink>(sums: &[NamedTotal], prefix: &[u8], sink: &mut K) -> Result<(), Failed>
    requires short { All IsShort sums.now }
    ensures bytes { WritesPiece (K.written sink.old) (K.written sink.new) result
        (flat_map (λ s. sum_after prefix.now (named_of s)) sums.now) }
    ensures cause { HasCause (K.faults sink.old) (K.faults sink.new) result }
{
    for sum in sums {
        let line = sum_line(sum.name, &sum.sum);
        write_line(prefix, &line, sink)?;
    }
    Ok(())
}

impl<const L: usize, P: Projector<L> + Drop> Session<L, P> {
    /// Writes the lines of a reply, with frames and ledgers read from the world as it is now.
    /// `Failed` comes only where the sink's count of faults rose, or stands at 2^64 - 1, and then a prefix of these bytes was
    /// appended.
    pub fn write_reply<K: Sink, G: Ledger>(
        &self,
        reply: &Reply,
        sink: &mut K,
        steps: &mut Steps<G>,
    ) -> Result<(), Failed>
        requires lanes_high { L ≤ 16 }
        ensures bytes { WritesPiece (K.written sink.old) (K.written sink.new) result (text self.now reply.now) }
        ensures cause { HasCause (K.faults sink.old) (K.faults sink.new) result }
        // A frame reads each particle once, and so does the momentum of a ledger.
        ensures cost { steps.new ≤ steps.old + reply_work self.now reply.now }
    {
        self.write_after(&[], reply, sink, steps)
    }

    /// Writes the first line of a frame, with the prefix before it.
    /// `Failed` is as for `write_reply`.
    pub fn write_header_after<K: Sink>(&self, prefix: &[u8], sink: &mut K) -> Result<(), Failed>
        requires lanes_high { L ≤ 16 }
        ensures bytes { WritesPiece (K.written sink.old) (K.written sink.new) result (header_after prefix.now self.now) }
        ensures cause { HasCause (K.faults sink.old) (K.faults sink.new) result }
    {
        write_header(self.solver(), prefix, sink)
    }

    /// Writes the lines of a reply, each with the prefix before it.
    /// `Failed` is as for `write_reply`.
    #[tactic(auto, unfolding(crate::specs::Printing::text_after, pbd_world::specs::Work::reply_work))]
    pub fn write_after<K: Sink, G: Ledger>(
        &self,
        prefix: &[u8],
        reply: &Reply,
        sink: &mut K,
        steps: &mut Steps<G>,
    ) -> Result<(), Failed>
        requires lanes_high { L ≤ 16 }
        ensures bytes { WritesPiece (K.written sink.old) (K.written sink.new) result (text_after prefix.now self.now reply.now) }
        ensures cause { HasCause (K.faults sink.old) (K.faults sink.new) result }
        ensures cost { steps.new ≤ steps.old + reply_work self.now reply.now }
    {
        let solver = self.solver();
        match reply {
            Reply::Done => write_line(prefix, &done_line(), sink),
            Reply::Frame => {
                write_header(solver, prefix, sink)?;
                write_places(solver, prefix, sink, steps)
            }
            Reply::Ledger => write_sums(&named_sums(solver, steps), prefix, sink),
            Reply::Refused(refusal) => write_line(prefix, &refusal_line(refusal), sink),
        }
    }
}
