// The end of a step: friction, and the links that tear.
ghost use Rattle.std.specs.Prelude.{◌≡◌, ◌+◌, ◌<◌, ◌≤◌, ◌^◌, ℕ, length, slice_index, IsTrue};
ghost use Rattle.std.specs.List.Sorted.{IsStrictlyIncreasing};
ghost use Rattle.pbd_world.specs.Colours.{live_at};
ghost use Rattle.pbd_colour.specs.Pairs.{dropped};
ghost use Rattle.pbd_world.specs.Step.{settled, rub as rubbed_motion};
ghost use Rattle.pbd_world.specs.Work.{settling_work};
ghost use Rattle.pbd_step.specs.States.{world_of, HasLinks};
ghost use Rattle.pbd_step.specs.Staying.{IsGoing, StaysInStep, passing_of};
ghost use Rattle.pbd_step.specs.Settling.{LetGo};

use crate::bonds::are_none;
use crate::state::{Running, Setting};
use pbd_colour::Colouring;
use pbd_pair::Projector;
use pbd_store::Steps;
use pbd_tear::torn as find_torn;
use pbd_world::Link;
use std::sync::ledger::Ledger;

/// Lets the links of some numbers go.
fn let_go(links: &mut Vec<Link>, numbers: &[u32])
    requires { (k : ℕ) → k < length numbers.now → slice_index numbers.now k < length links.old.items }
    ensures { LetGo numbers.now links.old.items links.new.items }
{
    for n in numbers {
        links[*n as usize].live = false;
    }
}

/// Lets the links of some numbers go together, and mends the colours of the others.
fn tear(links: &mut Vec<Link>, colours: &mut Colouring, numbers: &[u32])
    requires within { (k : ℕ) → k < length numbers.now → slice_index numbers.now k < length links.old.items }
    requires increasing { IsStrictlyIncreasing numbers.now }
    requires live { (k : ℕ) → k < length numbers.now → IsTrue (live_at colours.old.live (slice_index numbers.now k)) }
    ensures links { LetGo numbers.now links.old.items links.new.items }
    ensures colours { colours.new ≡ record colours.old { live = dropped numbers.now colours.old.live } }
{
    let_go(links, numbers);
    colours.drop_pairs(numbers);
}

impl<const L: usize, P: Projector<L> + Drop> Running<L, P> {
    /// Slows the particles that shapes touched, lets all links that are too long go together, mends the colours of
    /// the others, and counts the step and its contacts.
    pub(crate) fn rub_and_tear<G: Ledger>(&mut self, setting: &Setting, steps: &mut Steps<G>)
        requires lanes_low { 0 < L }
        requires lanes_high { L ≤ 16 }
        requires going { IsGoing (2 ^ 102) setting.now self.old }
        ensures world { world_of setting.now self.new.state
            ≡ settled (world_of setting.now self.old.state) self.old.scratch.found.pairs
            (rubbed_motion setting.now.friction (passing_of self.old)) }
        ensures links { HasLinks (length self.old.state.store.particles) self.new.state.links.items self.new.colours }
        ensures stays { StaysInStep P.count P.width self.old self.new }
        ensures projector { self.new.projector ≡ self.old.projector }
        ensures cost { steps.new ≤ steps.old + settling_work L (world_of setting.now self.old.state) }
    {
        let contacts = self.scratch.found.count();
        self.scratch.touched.rub(
            setting.friction,
            &mut self.state.store,
            &mut self.state.totals,
            steps,
        );
        let with_tear_length = self.scratch.with_tear_length.as_slice();
        find_torn(
            &self.state.store,
            &self.state.links,
            with_tear_length,
            &mut self.scratch.numbers,
            steps,
        );
        let torn = self.scratch.numbers.as_slice();
        tear(&mut self.state.links, &mut self.colours, torn);
        let none_tore = are_none(torn);
        self.scratch.are_links_laid = self.scratch.are_links_laid & none_tore;
        self.state.steps += 1;
        self.state.contacts = contacts;
    }
}
