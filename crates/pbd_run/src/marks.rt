//! `marks`: runs a script on a scene and goes back to its marks, and writes the replies.
ghost use Rattle.std.specs.Prelude.{◌≡◌, ◌≤◌, ◌^◌, length};
ghost use Rattle.pbd_run.specs.Calls.{Does};
ghost use Rattle.pbd_run.specs.Forms.{marks_on};

use crate::ending::status_of;
use crate::form::{AtWidth, Form, Settled, with_counter};
use crate::marked::{MarkedSession, WithMarks};
use crate::serving::Serve;
use pbd_io::Sink;
use pbd_marks::MarkCommand;
use pbd_outcome::Status;
use pbd_store::Steps;
use pbd_world::{Scene, Width};
use std::alloc::{AllocError, Global};
use std::sync::ledger::Ledger;

/// A script with marks on a scene.
#[derive(Drop)]
pub struct Marking<'a> {
    pub scene: &'a Scene,
    pub script: &'a [u8],
}

impl Settled for Marking<'_> {
    ghost ready = { λ it. length it.script.now ≤ 2 ^ 31 };

    ghost outcome = { λ it. marks_on it.scene.now it.script.now };
}

impl<const L: usize> Form<L> for Marking<'_> {
    fn over<G: Ledger, K: Sink>(self, alloc: Global, sink: &mut K, steps: &mut Steps<G>) -> Status {
        match MarkedSession::<L>::open(alloc, self.scene) {
            Ok(mut marked) => {
                let ended = <WithMarks as Serve<MarkedSession<L>, MarkCommand>>::serve_script(
                    &WithMarks,
                    &mut marked,
                    self.script,
                    sink,
                    steps,
                );
                drop(marked);
                status_of(ended)
            }
            Err(AllocError) => Status::OutOfMemory,
        }
    }
}

/// Runs a script with marks at a width.
pub fn run_marking<K: Sink>(alloc: Global, width: Width, form: Marking<'_>, sink: &mut K) -> Status
    requires { length form.script.now ≤ 2 ^ 31 }
    ensures { Does (marks_on form.entry.scene.now form.entry.script.now)
        (K.written sink.old) (K.written sink.new) (K.faults sink.old) (K.faults sink.new) result }
{
    with_counter(alloc, AtWidth { width, form }, sink)
}
