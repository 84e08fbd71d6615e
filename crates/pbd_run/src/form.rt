//! What a form of the program does over a session: its outcome, its counter and its width.
ghost use Rattle.std.specs.Prelude.{◌≡◌, ◌<◌, ◌≤◌};
ghost use Rattle.pbd_outcome.specs.Outcome.{Outcome};
ghost use Rattle.pbd_run.specs.Calls.{Does};

use pbd_io::Sink;
use pbd_outcome::Status;
use pbd_store::Steps;
use pbd_world::Width;
use std::alloc::Global;
use std::marker::Brand;
use std::sync::ledger::{Blank, Ledger};

/// What a form comes to, whatever the width and the counter.
pub trait Settled {
    /// What the form asks of what it works on.
    ghost ready: { Self → Type 0 };

    ghost outcome: { Self → Outcome };
}

/// A form over a session of L lanes.
pub trait Form<const L: usize>: Settled {
    /// Opens the session, and does what the form is for.
    fn over<G: Ledger, K: Sink>(self, alloc: Global, sink: &mut K, steps: &mut Steps<G>) -> Status
        requires lanes_low { 0 < L }
        requires lanes_high { L ≤ 16 }
        requires ready { Self.ready self }
        ensures { Does (Self.outcome self) (K.written sink.old) (K.written sink.new) (K.faults sink.old) (K.faults sink.new) result };
}

/// What runs with a counter: a form at some width, or with a projector of its own.
pub trait Counted: Settled {
    /// Does what the form is for.
    fn run<G: Ledger, K: Sink>(self, alloc: Global, sink: &mut K, steps: &mut Steps<G>) -> Status
        requires ready { Self.ready self }
        ensures { Does (Self.outcome self) (K.written sink.old) (K.written sink.new) (K.faults sink.old) (K.faults sink.new) result };
}

/// A form at a width that is known when it runs.
#[derive(Drop)]
pub struct AtWidth<F> {
    pub width: Width,
    pub form: F,
}

impl<F: Settled> Settled for AtWidth<F> {
    ghost ready = { λ it. F.ready it.form };

    ghost outcome = { λ it. F.outcome it.form };
}

impl<F: Form<1> + Form<2> + Form<4> + Form<8> + Form<16>> Counted for AtWidth<F> {
    fn run<G: Ledger, K: Sink>(self, alloc: Global, sink: &mut K, steps: &mut Steps<G>) -> Status {
        match self.width {
            Width::W1 => <F as Form<1>>::over(self.form, alloc, sink, steps),
            Width::W2 => <F as Form<2>>::over(self.form, alloc, sink, steps),
            Width::W4 => <F as Form<4>>::over(self.form, alloc, sink, steps),
            Width::W8 => <F as Form<8>>::over(self.form, alloc, sink, steps),
            Width::W16 => <F as Form<16>>::over(self.form, alloc, sink, steps),
        }
    }
}

fn in_ledger<G: Ledger, F: Counted, K: Sink>(
    alloc: Global,
    blank: Blank,
    form: F,
    sink: &mut K,
) -> Status
    requires name { blank.name ≡ G.name }
    requires parts { blank.parts ≡ G.parts }
    requires some { 0 < blank.parts }
    requires ready { F.ready form }
    ensures { Does (F.outcome form) (K.written sink.old) (K.written sink.new) (K.faults sink.old) (K.faults sink.new) result }
{
    let mut steps: Steps<G> = Steps::open(blank);
    form.run(alloc, sink, &mut steps)
}

/// Runs a form with a counter of its own.
pub fn with_counter<F: Counted, K: Sink>(alloc: Global, form: F, sink: &mut K) -> Status
    requires ready { F.ready form }
    ensures { Does (F.outcome form) (K.written sink.old) (K.written sink.new) (K.faults sink.old) (K.faults sink.new) result }
{
    in_ledger::<Brand, F, K>(alloc, Blank::new(1), form, sink)
}
