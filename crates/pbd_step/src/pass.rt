// The passes of a step.
ghost use Rattle.std.specs.Prelude.{◌≡◌, ◌+◌, ◌-◌, ◌*◌, ◌<◌, ◌≤◌, ◌^◌, ℕ, pos, min, length, IsTrue, OnOk, MatchResult, Result, Ok, Err};
ghost use Rattle.pbd_world.specs.Bonds.{link_bond, contact_bond};
ghost use Rattle.pbd_world.specs.Ledger.{ledger_of};
ghost use Rattle.pbd_world.specs.Outcomes.{repeated};
ghost use Rattle.pbd_world.specs.Step.{pass as passed, link_order, contact_order};
ghost use Rattle.pbd_world.specs.Valid.{is_between, is_limit, are_valid_links};
ghost use Rattle.pbd_world.specs.Work.{contacts_work, links_work, pass_work};
ghost use Rattle.pbd_world.specs.World.{live_count};
ghost use Rattle.pbd_step.specs.Projecting.{AreMovable};
ghost use Rattle.pbd_step.specs.States.{world_of, AreWeights, HasLinks, IsUnderWay, AreLinksLaid};
ghost use Rattle.pbd_step.specs.Staying.{AreBondsLaid, AreContactsLaid, IsGoing, ProjectsInPass, StaysInPass, passing_of};

use crate::bonds::{BondList, counts};
use crate::leaving::leaving;
use crate::state::{Running, Setting};
use pbd_pair::{Bonds, Projector};
use pbd_store::Steps;
use pbd_world::{Left, Phase, Refusal};
use std::sync::ledger::Ledger;

impl<const L: usize, P: Projector<L> + Drop> Running<L, P> {
    // The live links, in the order of their colours.
    fn project_links<G: Ledger>(&mut self, steps: &mut Steps<G>) -> Result<(), Left>
        requires lanes_low { 0 < L }
        requires lanes_high { L ≤ 16 }
        requires valid { IsTrue
            (are_valid_links self.old.state.store.limit (length self.old.state.store.particles) self.old.state.links.items) }
        requires links { HasLinks (length self.old.state.store.particles) self.old.state.links.items self.old.colours }
        requires weights { AreWeights self.old.state }
        requires laid { AreLinksLaid self.old.state self.old.scratch.laid_links }
        requires movable { AreMovable (2 ^ 119) self.old.state.store.limit self.old.state.store.particles
            (ledger_of self.old.state.totals) }
        ensures done { ProjectsInPass P.count P.width result (link_bond self.old.state.links.items)
            (link_order self.old.state.links.items) self.old self.new }
        ensures handed { OnOk result
            (P.count self.new.projector ≡ min (P.count self.old.projector + live_count self.old.state.links.items) (2 ^ 64 - 1)) }
        ensures cost { steps.new ≤ steps.old + links_work (P.width self.old.projector) self.old.state.links.items }
    {
        let list = BondList {
            bonds: Bonds::Links(&self.state.links),
            laid: self
                .scratch
                .laid_links
                .first_rows(self.colours.order().len()),
            colours: &self.colours,
        };
        list.project_all(
            &mut self.projector,
            &mut self.state.store,
            &mut self.state.totals,
            steps,
        )
    }

    // The contacts, in the order of their colours.
    fn project_contacts<G: Ledger>(
        &mut self,
        thickness: i64,
        steps: &mut Steps<G>,
    ) -> Result<(), Left>
        requires lanes_low { 0 < L }
        requires lanes_high { L ≤ 16 }
        requires limit { IsTrue (is_limit self.old.state.store.limit) }
        requires thickness { IsTrue (is_between (pos 0) (pos 1048576) thickness) }
        requires found { self.old.scratch.found.particles ≡ length self.old.state.store.particles }
        requires weights { AreWeights self.old.state }
        requires laid { AreContactsLaid thickness self.old.state self.old.scratch.found.pairs self.old.scratch.laid_contacts }
        requires movable { AreMovable (2 ^ 119) self.old.state.store.limit self.old.state.store.particles
            (ledger_of self.old.state.totals) }
        ensures done { ProjectsInPass P.count P.width result (contact_bond thickness self.old.scratch.found.pairs)
            (contact_order self.old.scratch.found.pairs) self.old self.new }
        ensures handed { OnOk result
            (P.count self.new.projector ≡ min (P.count self.old.projector + length self.old.scratch.found.pairs) (2 ^ 64 - 1)) }
        ensures cost { steps.new ≤ steps.old + contacts_work (P.width self.old.projector) self.old.scratch.found.pairs }
    {
        let projector = &mut self.projector;
        let found = &self.scratch.found;
        let colours = found.colouring();
        let list = BondList {
            bonds: Bonds::Contacts {
                pairs: found.pairs(),
                thickness,
            },
            laid: self.scratch.laid_contacts.first_rows(colours.order().len()),
            colours,
        };
        list.project_all(
            projector,
            &mut self.state.store,
            &mut self.state.totals,
            steps,
        )
    }

    // One pass: the links, then the contacts, then the shapes.
    fn pass<G: Ledger>(&mut self, setting: &Setting, steps: &mut Steps<G>) -> Result<(), Refusal>
        requires lanes_low { 0 < L }
        requires lanes_high { L ≤ 16 }
        requires going { IsGoing (2 ^ 118) setting.now self.old }
        requires laid { AreBondsLaid setting.now.thickness self.old.state self.old.scratch }
        ensures outcome { MatchResult result
            (λ _. passed (world_of setting.now self.old.state) self.old.scratch.found.pairs (passing_of self.old)
            ≡ Ok (passing_of self.new))
            (λ refusal. passed (world_of setting.now self.old.state) self.old.scratch.found.pairs (passing_of self.old) ≡ Err refusal) }
        ensures stays { StaysInPass P.count P.width self.old self.new }
        ensures under_way { OnOk result
            ((n : ℕ) → IsUnderWay n (world_of setting.now self.old.state) → IsUnderWay (n + 2 ^ 62) (world_of setting.now self.new.state)) }
        ensures handed { OnOk result
            (P.count self.new.projector
            ≡ min (P.count self.old.projector + (live_count self.old.state.links.items + length self.old.scratch.found.pairs))
            (2 ^ 64 - 1)) }
        ensures cost { steps.new
            ≤ steps.old + pass_work L (P.width self.old.projector) (world_of setting.now self.old.state) self.old.scratch.found.pairs }
    {
        let taken = self.state.steps;
        if let Err(left) = self.project_links(steps) {
            return Err(leaving(taken, Phase::Link, left));
        }
        if let Err(left) = self.project_contacts(setting.thickness, steps) {
            return Err(leaving(taken, Phase::Contact, left));
        }
        if let Err(left) = setting.shapes().push_out(
            &mut self.state.store,
            &mut self.scratch.touched,
            &mut self.state.totals,
            steps,
        ) {
            return Err(leaving(taken, Phase::Shape, left));
        }
        Ok(())
    }

    /// Takes as many passes as the scene says: in each the links, then the contacts, then the shapes (the solver loop of
    /// Müller and others 2007). After a refusal places, totals and flags are any.
    pub(crate) fn project_in_passes<G: Ledger>(
        &mut self,
        setting: &Setting,
        steps: &mut Steps<G>,
    ) -> Result<(), Refusal>
        requires lanes_low { 0 < L }
        requires lanes_high { L ≤ 16 }
        requires going { IsGoing (2 ^ 100) setting.now self.old }
        requires laid { AreBondsLaid setting.now.thickness self.old.state self.old.scratch }
        ensures outcome { MatchResult result
            (λ _. repeated setting.now.passes (passed (world_of setting.now self.old.state) self.old.scratch.found.pairs)
            (passing_of self.old) ≡ Ok (passing_of self.new))
            (λ refusal. repeated setting.now.passes (passed (world_of setting.now self.old.state) self.old.scratch.found.pairs)
            (passing_of self.old) ≡ Err refusal) }
        ensures stays { StaysInPass P.count P.width self.old self.new }
        ensures under_way { OnOk result (IsUnderWay (2 ^ 101) (world_of setting.now self.new.state)) }
        ensures handed { OnOk result
            (P.count self.new.projector
            ≡ min (P.count self.old.projector
            + setting.now.passes * (live_count self.old.state.links.items + length self.old.scratch.found.pairs)) (2 ^ 64 - 1)) }
        ensures cost { steps.new ≤ steps.old
            + setting.now.passes
            * pass_work L (P.width self.old.projector) (world_of setting.now self.old.state) self.old.scratch.found.pairs }
    {
        counts(&self.projector);
        for _ in 0..setting.passes {
            self.pass(setting, steps)?;
        }
        Ok(())
    }
}
