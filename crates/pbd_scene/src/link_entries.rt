// The `[[link]]` entries, before it is looked at which particles they name.
ghost use Rattle.pbd_scene.specs.Entries.{link_of};

use crate::arrays::EntryReader;
use crate::fault::SceneFault;
use crate::limit::Limit;
use crate::raw::LinkEntry;
use crate::tables::KeyName;
use crate::values::Entry;

#[derive(Clone, Copy)]
pub struct Links {
    pub limit: Limit,
}

impl EntryReader for Links {
    type Item = LinkEntry;

    ghost reads = { λ s before place ms. link_of s.limit.units place ms };

    #[tactic(auto, unfolding(crate::specs::Entries::link_of))]
    fn read(&self, _before: &[LinkEntry], entry: &Entry<'_>) -> Result<LinkEntry, SceneFault> {
        let a = entry.required_any_integer(KeyName::A)?;
        let b = entry.required_any_integer(KeyName::B)?;
        let rest = entry.optional_length(KeyName::Rest, &self.limit)?;
        let k = entry.count_or(KeyName::Stiffness, 0, 256, 256)?;
        let tear = entry.length_or_zero(KeyName::Tear, &self.limit)?;
        Ok(LinkEntry {
            a,
            b,
            rest,
            k,
            tear,
        })
    }
}
