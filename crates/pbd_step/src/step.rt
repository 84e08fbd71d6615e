// Steps of a world.
ghost use Rattle.std.specs.Prelude.{◌≡◌, ⊤, ◌+◌, ◌-◌, ◌*◌, ◌<◌, ◌≤◌, ◌^◌, min, length, OnOk, MatchResult, Result, Ok, Err};
ghost use Rattle.pbd_world.specs.Contacts.{contacts_of};
ghost use Rattle.pbd_world.specs.Meaning.{steps_of};
ghost use Rattle.pbd_world.specs.Step.{step as stepped};
ghost use Rattle.pbd_world.specs.Work.{finding_work, finishing_work, step_work, found_in, work_over};
ghost use Rattle.pbd_world.specs.World.{live_count};
ghost use Rattle.pbd_world.specs.declared.command.Refusal.TheVariants as refusals;
ghost use Rattle.pbd_step.specs.States.{world_of, now_of, HasLinks};
ghost use Rattle.pbd_step.specs.Staying.{IsGoing, IsReady, StaysInStep};
ghost use Rattle.pbd_step.specs.Solving.{bonds_of, bonds_over, IsKept};
ghost use Rattle.pbd_step.specs.Stepping.{finished};
ghost use Rattle.pbd_step.specs.Obeying.{Obeys};

use crate::again::{restore, take_over};
use crate::bonds::counts;
use crate::lay::{lay_contacts, lay_links};
use crate::predict::predict;
use crate::state::{Running, Setting, State};
use pbd_pair::Projector;
use pbd_self::touching_pairs_are_contacts;
use pbd_store::Steps;
use pbd_world::{Full, Refusal};
use std::sync::ledger::Ledger;

impl<const L: usize, P: Projector<L> + Drop> Running<L, P> {
    /// Finds the contacts of the places as they are, or says in which step there are too many.
    fn find<G: Ledger>(&mut self, setting: &Setting, steps: &mut Steps<G>) -> Result<(), Refusal>
        requires lanes_low { 0 < L }
        requires lanes_high { L ≤ 16 }
        requires going { IsGoing (2 ^ 118) setting.now self.old }
        ensures found { OnOk result
            (self.new.scratch.found.pairs ≡ contacts_of setting.now.thickness self.old.state.links.items self.old.state.store.particles) }
        ensures few { OnOk result
            (length (contacts_of setting.now.thickness self.old.state.links.items self.old.state.store.particles) ≤ 262144) }
        ensures full { MatchResult result (λ _. ⊤)
            (λ refusal. (262144 < length (contacts_of setting.now.thickness self.old.state.links.items self.old.state.store.particles))
            × (refusal ≡ refusals.TooManyContacts (self.old.state.steps + 1))) }
        ensures particles { self.new.scratch.found.particles ≡ self.old.scratch.found.particles }
        ensures stays { self.new ≡ record self.old { scratch = record self.old.scratch { found = self.new.scratch.found } } }
        ensures cost { steps.new ≤ steps.old + finding_work (world_of setting.now self.old.state) }
    {
        touching_pairs_are_contacts();
        match self
            .scratch
            .found
            .detect(&self.state.store, &self.colours, setting.thickness, steps)
        {
            Ok(()) => Ok(()),
            Err(Full) => Err(Refusal::TooManyContacts {
                step: self.state.steps + 1,
            }),
        }
    }

    /// Projects in passes, rubs and tears, with the contacts that were found.
    fn finish<G: Ledger>(&mut self, setting: &Setting, steps: &mut Steps<G>) -> Result<(), Refusal>
        requires lanes_low { 0 < L }
        requires lanes_high { L ≤ 16 }
        requires going { IsGoing (2 ^ 100) setting.now self.old }
        ensures outcome { MatchResult result
            (λ _. finished (world_of setting.now self.old.state) self.old.scratch.found.pairs (now_of self.old.state)
            ≡ Ok (world_of setting.now self.new.state))
            (λ refusal. finished (world_of setting.now self.old.state) self.old.scratch.found.pairs (now_of self.old.state) ≡ Err refusal) }
        ensures contacts { OnOk result (self.new.state.contacts ≡ length self.old.scratch.found.pairs) }
        ensures links { OnOk result (HasLinks (length self.old.state.store.particles) self.new.state.links.items self.new.colours) }
        ensures stays { StaysInStep P.count P.width self.old self.new }
        ensures handed { OnOk result
            (P.count self.new.projector
            ≡ min (P.count self.old.projector
            + setting.now.passes * (live_count self.old.state.links.items + length self.old.scratch.found.pairs)) (2 ^ 64 - 1)) }
        ensures cost { steps.new
            ≤ steps.old + finishing_work L (P.width self.old.projector) (world_of setting.now self.old.state) self.old.scratch.found.pairs }
    {
        lay_links(
            &self.state,
            &self.colours,
            &mut self.scratch.laid_links,
            &mut self.scratch.are_links_laid,
        );
        lay_contacts(
            setting.thickness,
            &self.state,
            &self.scratch.found,
            &mut self.scratch.laid_contacts,
        );
        self.scratch.touched.clear();
        self.project_in_passes(setting, steps)?;
        self.rub_and_tear(setting, steps);
        Ok(())
    }

    /// Takes one step: predict, find the contacts, project in passes, rub and tear (Müller and others 2007, with the
    /// prediction of Jakobsen 2001). After a refusal all that a step changes is any.
    fn step<G: Ledger>(&mut self, setting: &Setting, steps: &mut Steps<G>) -> Result<(), Refusal>
        requires lanes_low { 0 < L }
        requires lanes_high { L ≤ 16 }
        requires ready { IsReady setting.now self.old }
        requires count { self.old.state.steps < 1000000 }
        ensures outcome { MatchResult result
            (λ _. stepped (world_of setting.now self.old.state) ≡ Ok (world_of setting.now self.new.state))
            (λ refusal. stepped (world_of setting.now self.old.state) ≡ Err refusal) }
        ensures links { OnOk result (HasLinks (length self.old.state.store.particles) self.new.state.links.items self.new.colours) }
        ensures stays { StaysInStep P.count P.width self.old self.new }
        ensures handed { OnOk result
            (P.count self.new.projector
            ≡ min (P.count self.old.projector + bonds_of (world_of setting.now self.old.state) (world_of setting.now self.new.state))
            (2 ^ 64 - 1)) }
        ensures cost { steps.new ≤ steps.old
            + step_work L (P.width self.old.projector) (world_of setting.now self.old.state)
            (found_in (world_of setting.now self.old.state)) }
    {
        predict(setting, &mut self.state, steps)?;
        self.find(setting, steps)?;
        self.finish(setting, steps)
    }

    /// Takes n steps, up to the first that is refused. After a refusal all that steps change is any.
    fn take_steps<G: Ledger>(
        &mut self,
        setting: &Setting,
        n: u64,
        steps: &mut Steps<G>,
    ) -> Result<(), Refusal>
        requires lanes_low { 0 < L }
        requires lanes_high { L ≤ 16 }
        requires ready { IsReady setting.now self.old }
        requires count { self.old.state.steps + n ≤ 1000000 }
        ensures outcome { MatchResult result
            (λ _. steps_of n (world_of setting.now self.old.state) ≡ Ok (world_of setting.now self.new.state))
            (λ refusal. steps_of n (world_of setting.now self.old.state) ≡ Err refusal) }
        ensures ready { OnOk result (IsReady setting.now self.new) }
        ensures stays { StaysInStep P.count P.width self.old self.new }
        ensures handed { OnOk result
            (P.count self.new.projector
            ≡ min (P.count self.old.projector + bonds_over n (world_of setting.now self.old.state)) (2 ^ 64 - 1)) }
        ensures cost { steps.new ≤ steps.old + work_over L (P.width self.old.projector) n (world_of setting.now self.old.state) }
    {
        counts(&self.projector);
        for i in 0..n {
            self.step(setting, steps)?;
        }
        Ok(())
    }

    /// Takes n steps, or none where one of them is refused: the world is then as before the first.
    pub(crate) fn run_whole<G: Ledger>(
        &mut self,
        setting: &Setting,
        kept: &mut State<L>,
        n: u64,
        steps: &mut Steps<G>,
    ) -> Result<(), Refusal>
        requires lanes_low { 0 < L }
        requires lanes_high { L ≤ 16 }
        requires kept { IsKept setting.now self.old.state kept.old self.old.colours self.old.scratch }
        requires count { self.old.state.steps + n ≤ 1000000 }
        ensures obeys { Obeys (λ w. w) result (steps_of n (world_of setting.now self.old.state))
            (world_of setting.now self.old.state) (world_of setting.now self.new.state) }
        ensures kept { IsKept setting.now self.new.state kept.new self.new.colours self.new.scratch }
        ensures copies { MatchResult result
            (λ _. self.new.state.store.copies + kept.new.store.copies ≤ self.old.state.store.copies + kept.old.store.copies + 1)
            (λ _. self.new.state.store.copies + kept.new.store.copies ≤ self.old.state.store.copies + kept.old.store.copies + 2) }
        ensures handed { OnOk result
            (P.count self.new.projector
            ≡ min (P.count self.old.projector + bonds_over n (world_of setting.now self.old.state)) (2 ^ 64 - 1)) }
        ensures not_fallen { P.count self.old.projector ≤ P.count self.new.projector }
        ensures width { P.width self.new.projector ≡ P.width self.old.projector }
        ensures cost { steps.new ≤ steps.old + work_over L (P.width self.old.projector) n (world_of setting.now self.old.state) }
    {
        take_over(kept, &self.state);
        if let Err(refusal) = self.take_steps(setting, n, steps) {
            restore(&mut self.state, kept, &mut self.colours, &mut self.scratch);
            return Err(refusal);
        }
        Ok(())
    }
}
