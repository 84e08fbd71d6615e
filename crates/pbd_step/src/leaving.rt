// The refusal of a step in which an element leaves the range.
ghost use Rattle.std.specs.Prelude.{◌≡◌, ◌+◌, ◌<◌, ◌^◌};
ghost use Rattle.pbd_world.specs.declared.command.Refusal.TheVariants as refusals;

use pbd_world::{Left, Phase, Refusal};

/// The refusal of the step after so many, where an element leaves the range in a phase.
pub(crate) fn leaving(taken: u64, phase: Phase, left: Left) -> Refusal
    requires { taken < 2 ^ 63 }
    ensures { result ≡ refusals.LeavesRange (taken + 1) phase left.element }
{
    Refusal::LeavesRange {
        step: taken + 1,
        phase,
        element: left.element,
    }
}
