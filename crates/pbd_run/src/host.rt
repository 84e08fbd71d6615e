//! `host`: opens a session for each scene, and does what the tagged lines ask of them.
ghost use Rattle.std.specs.Prelude.{◌≡◌, ◌<◌, ◌≤◌, ◌^◌, map, length, if◌then◌else◌, IfOk};
ghost use Rattle.pbd_run.specs.Prelude.{opened, HasCause, WritesPiece};
ghost use Rattle.pbd_script.specs.Lines.{pieces};
ghost use Rattle.pbd_host.specs.Hosted.{hosted_refused, hosted_text, is_refusal};
ghost use Rattle.pbd_host.specs.Tagged.{requests_of};
ghost use Rattle.pbd_outcome.specs.Outcome.{hosted};
ghost use Rattle.pbd_run.specs.Calls.{Does, IsHostable};
ghost use Rattle.pbd_run.specs.Forms.{host_on};

use crate::ending::status_of;
use crate::form::{AtWidth, Form, Settled, with_counter};
use crate::scene::stop;
use crate::scenes::{are_few, read_scenes};
use crate::split::split_at;
use pbd_host::{Host, Served};
use pbd_io::{Failed, Sink};
use pbd_outcome::Status;
use pbd_pair::{LaneProjector, Projector};
use pbd_script::lines::first_line;
use pbd_session::RunEnd;
use pbd_store::Steps;
use pbd_world::{Scene, Width};
use std::alloc::{AllocError, Global};
use std::sync::ledger::Ledger;

/// Tagged lines for the sessions of 1 to 16 scenes.
#[derive(Drop)]
pub struct Hosting<'a> {
    pub scenes: &'a [Scene],
    pub lines: &'a [u8],
}

impl Settled for Hosting<'_> {
    ghost ready = { λ it. IsHostable it.scenes.now it.lines.now };

    ghost outcome = { λ it. host_on it.scenes.now it.lines.now };
}

impl<const L: usize> Form<L> for Hosting<'_> {
    fn over<G: Ledger, K: Sink>(self, alloc: Global, sink: &mut K, steps: &mut Steps<G>) -> Status {
        match Host::open(alloc, self.scenes, LaneProjector::<L>::new()) {
            Ok(mut host) => {
                let ended = serve_all(&mut host, self.lines, sink, steps);
                drop(host);
                status_of(ended)
            }
            Err(AllocError) => Status::OutOfMemory,
        }
    }
}

/// How many refusals an answer is: one or none.
fn refusals(served: Served) -> u64
    ensures { result ≡ (if is_refusal served then 1 else 0) }
{
    match served {
        Served::Refused { .. } | Served::BadTag => 1,
        Served::Accepted { .. } | Served::Blank => 0,
    }
}

/// Serves one line after another, and counts the refusals.
fn serve_all<const L: usize, P: Projector<L> + Drop, G: Ledger, K: Sink>(
    host: &mut Host<L, P>,
    lines: &[u8],
    sink: &mut K,
    steps: &mut Steps<G>,
) -> Result<RunEnd, Failed>
    requires lanes_low { 0 < L }
    requires lanes_high { L ≤ 16 }
    requires short { length lines.now ≤ 2 ^ 31 }
    ensures bytes { WritesPiece (K.written sink.old) (K.written sink.new) result
        (hosted_text host.old (requests_of (length host.old) (pieces lines.now))) }
    ensures refused { IfOk result (λ end. end.refused ≡ hosted_refused host.old (requests_of (length host.old) (pieces lines.now))) }
    ensures cause { HasCause (K.faults sink.old) (K.faults sink.new) result }
{
    let mut refused = 0;
    let mut rest = Some(lines);
    while let Some(bytes) = rest {
        let (line, later) = first_line(bytes);
        let served = host.serve_line(line, sink, steps)?;
        refused += refusals(served);
        rest = later;
    }
    Ok(RunEnd { refused })
}

/// Does the tagged lines of an input on its scenes.
pub fn host_input<K: Sink>(alloc: Global, width: Width, input: &[u8], sink: &mut K) -> Status
    requires { length input.now ≤ 2 ^ 31 }
    ensures { Does (hosted input.now) (K.written sink.old) (K.written sink.new) (K.faults sink.old) (K.faults sink.new) result }
{
    let Some((text, lines)) = split_at(b"%%%", input) else {
        return stop(Status::NoScript, sink);
    };
    if !are_few(text) {
        return stop(Status::TooManyScenes, sink);
    }
    match read_scenes(alloc, text, sink) {
        Ok(scenes) => {
            let form = Hosting {
                scenes: &scenes,
                lines,
            };
            with_counter(alloc, AtWidth { width, form }, sink)
        }
        Err(status) => status,
    }
}
