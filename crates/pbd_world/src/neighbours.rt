// The neighbours of each particle, as links are added.
ghost use Rattle.std.specs.Prelude.{◌≡◌, ◌<◌, ◌++◌, ◌∷◌, [], IfOk, OnOk, slice_set, slice_index_or, length};
ghost use Rattle.pbd_world.specs.Neighbours.{HoldsNeighbours, AddsLink, is_among};

use crate::List;
use crate::parts::Link;
use std::alloc::{AllocError, Global};
use std::marker::Model;

/// For each particle the other ends of its links, so that a double link is found without a look at all links.
/// Contracts see the list of these lists.
#[derive(Drop)]
pub struct NeighbourLists {
    ends: Vec<List<u32>>,
}

impl Model for NeighbourLists {
    ghost use Rattle.std.specs.Prelude.{List, ℕ};

    ghost Value = { List (List ℕ) };

    ghost view = { λ s. s.ends.items };
}

/// Notes that `to` is at the other end of a link at `from`. A `from` that is no particle of the lists is left out.
fn put(from: u32, to: u32, ends: &mut Vec<List<u32>>) -> Result<(), AllocError>
    ensures { OnOk result (ends.new.items ≡ slice_set ends.old.items from (slice_index_or ends.old.items from [] ++ to ∷ [])) }
{
    if (from as usize) < ends.len() {
        ends[from as usize].push(to)?;
    }
    Ok(())
}

/// Notes a link at both its ends, and at the one where both are the same.
#[tactic(auto, using(crate::proofs::Neighbouring::adds_both, crate::proofs::Neighbouring::adds_one))]
fn put_both(link: &Link, ends: &mut Vec<List<u32>>) -> Result<(), AllocError>
    ensures { OnOk result (AddsLink link.now ends.old.items ends.new.items) }
{
    put(link.a, link.b, ends)?;
    if link.a != link.b {
        put(link.b, link.a, ends)?;
    }
    Ok(())
}

#[tactic(auto, using(crate::proofs::Neighbouring::holds_nothing, crate::proofs::Neighbouring::holds_no_links))]
fn no_ends(alloc: Global, count: usize) -> Result<Vec<List<u32>>, AllocError>
    ensures { IfOk result (λ ends. HoldsNeighbours count [] ends.items) }
{
    let mut ends = Vec::new(alloc);
    for n in 0..count {
        ends.push(List::new(alloc))?;
    }
    Ok(ends)
}

fn is_among(n: u32, ns: &[u32]) -> bool
    ensures { result ≡ is_among n ns.now }
{
    ns.iter().any(|m| *m == n)
}

impl NeighbourLists {
    /// The lists of `count` particles without links.
    pub fn new(alloc: Global, count: usize) -> Result<NeighbourLists, AllocError>
        ensures { IfOk result (λ lists. HoldsNeighbours count [] lists) }
    {
        let ends = no_ends(alloc, count)?;
        Ok(NeighbourLists { ends })
    }

    /// The lists of `count` particles with these links. Takes time and memory in proportion to both.
    #[tactic(auto, using(crate::proofs::Neighbouring::holds_begin, crate::proofs::Neighbouring::holds_all))]
    pub fn of(alloc: Global, count: usize, links: &[Link]) -> Result<NeighbourLists, AllocError>
        ensures { IfOk result (λ lists. HoldsNeighbours count links.now lists) }
    {
        let mut lists = NeighbourLists::new(alloc, count)?;
        for link in links {
            lists.add(link)?;
        }
        Ok(lists)
    }

    /// Notes a link at its ends. An end that is no particle of the lists is left out.
    pub fn add(&mut self, link: &Link) -> Result<(), AllocError>
        ensures { OnOk result (AddsLink link.now self.old self.new) }
    {
        put_both(link, &mut self.ends)
    }

    /// The other ends of the links at a particle, in the order of the links.
    pub fn at(&self, particle: u32) -> &[u32]
        requires { particle < length self.now }
        ensures { result.now ≡ slice_index_or self.now particle [] }
    {
        self.ends[particle as usize].as_slice()
    }

    /// Whether a link at particle `a` has `b` at its other end.
    pub fn are_linked(&self, a: u32, b: u32) -> bool
        requires { a < length self.now }
        ensures { result ≡ is_among b (slice_index_or self.now a []) }
    {
        is_among(b, self.at(a))
    }
}
