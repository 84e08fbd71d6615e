// Reading a state.
ghost use Rattle.std.specs.Prelude.{◌≡◌, ◌+◌, ◌*◌, ◌<◌, ◌≤◌, length, OnOk, OnErr};
ghost use Rattle.pbd_world.specs.World.{IsSound, AreOfOneScene};
ghost use Rattle.pbd_encoding.specs.Encoding.{state_bytes};
ghost use Rattle.pbd_encoding.specs.Form.{AreCounts, fault_at};
ghost use Rattle.pbd_encoding.specs.Laws.{told_on};
ghost use Rattle.pbd_state.specs.Reading.{rank, place_of, sound_on, reading};

use crate::fields::{counts_of, header_of};
use pbd_encoding::{Counts, StateFault, StateView, check_form};
use pbd_pair::Projector;
use pbd_sound::Unsound;
use pbd_step::Solver;
use pbd_store::Steps;
use pbd_world::Class;
use std::sync::ledger::Ledger;

fn rank(class: Class) -> u64
    ensures { result ≡ rank class }
{
    match class {
        Class::Gravity => 0,
        Class::Damping => 1,
        Class::Link => 2,
        Class::Contact => 3,
        Class::Shape => 4,
        Class::Pin => 5,
    }
}

/// Where the field stands that is unsound.
fn place_of(counts: &Counts, fault: Unsound) -> StateFault
    requires { AreCounts counts.now }
    ensures { result ≡ fault_at (place_of counts.now.particles counts.now.links fault) }
{
    let n = u64::from(counts.particles);
    let contacts_at = 128 + 49 * n + u64::from(counts.links);
    let offset = match fault {
        Unsound::Steps => 96,
        Unsound::Gravity => 104,
        Unsound::Place(i) => 128 + 24 * u64::from(i),
        Unsound::Before(i) => 128 + 24 * n + 24 * u64::from(i),
        Unsound::Held(i) => 128 + 48 * n + u64::from(i),
        Unsound::Contacts => contacts_at,
        Unsound::Total(class) => contacts_at + 4 + 48 * rank(class),
    };
    StateFault { offset }
}

/// Takes over the world of a solver's scene that a view tells. `Err` has the offset of the first field that is unsound.
fn take_over<const L: usize, P: Projector<L> + Drop, G: Ledger>(
    counts: &Counts,
    solver: &mut Solver<L, P>,
    view: &StateView<'_>,
    steps: &mut Steps<G>,
) -> Result<(), StateFault>
    requires lanes_low { 0 < L }
    requires lanes_high { L ≤ 16 }
    requires few { AreCounts counts.now }
    requires particles { counts.now.particles ≡ length solver.old.world.particles }
    requires links { counts.now.links ≡ length solver.old.world.links }
    requires particles_seen { view.now.particles ≡ length solver.old.world.particles }
    requires links_seen { view.now.links ≡ length solver.old.world.links }
    ensures value { result ≡ sound_on (length solver.old.world.particles) (length solver.old.world.links)
        (told_on solver.old.world view.now.text) }
    ensures world { OnOk result (solver.new.world ≡ told_on solver.old.world view.now.text) }
    ensures kept { OnErr result (solver.new ≡ solver.old) }
    ensures projector { solver.new.projector ≡ solver.old.projector }
    ensures sound { IsSound solver.new.world }
    ensures one_scene { AreOfOneScene solver.old.world solver.new.world }
    ensures cost { steps.new ≤ steps.old + 7 * length solver.old.world.particles + 1 }
{
    match solver.assume(view, steps) {
        Ok(()) => Ok(()),
        Err(fault) => Err(place_of(counts, fault)),
    }
}

/// Takes over the world of a solver's scene of which some bytes are the state. `scene` names the scene. Else the fault says
/// where they go wrong, and the solver's world is what it was. It takes no memory.
///
/// The offset is that of the first byte with which no state of the scene goes on, or of the end where bytes are missing or
/// follow. Where the bytes have the form of a state, it is that of the first field that is unsound.
pub fn read_state<const L: usize, P: Projector<L> + Drop, G: Ledger>(
    scene: &[u8; 32],
    solver: &mut Solver<L, P>,
    bytes: &[u8],
    steps: &mut Steps<G>,
) -> Result<(), StateFault>
    requires lanes_low { 0 < L }
    requires lanes_high { L ≤ 16 }
    ensures value { result ≡ reading scene.now solver.old.world bytes.now }
    ensures world { OnOk result (solver.new.world ≡ told_on solver.old.world bytes.now) }
    ensures taken { OnOk result (state_bytes scene.now solver.new.world ≡ bytes.now) }
    ensures kept { OnErr result (solver.new ≡ solver.old) }
    ensures projector { solver.new.projector ≡ solver.old.projector }
    ensures sound { IsSound solver.new.world }
    ensures one_scene { AreOfOneScene solver.old.world solver.new.world }
    ensures cost { steps.new ≤ steps.old + 7 * length solver.old.world.particles + 1 }
{
    let counts = counts_of(&solver.shown());
    let header = header_of(scene, &solver.shown());
    if let Err(fault) = check_form(header.as_slice(), &counts, bytes) {
        return Err(fault);
    }
    let view = StateView::new(bytes, counts);
    take_over(&counts, solver, &view, steps)
}
