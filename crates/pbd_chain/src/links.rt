//! What linking and unlinking write, slot by slot.
ghost use Rattle.std.specs.Prelude.{◌≡◌, ◌<◌, ◌≤◌, ℕ, IfOk, Some, length, replicate, slice_index_or, None};
ghost use Rattle.pbd_chain.specs.Succession.{at, back_of};
ghost use Rattle.pbd_chain.specs.declared.links.Slot.{Slot};
ghost use Rattle.pbd_chain.specs.Changes.{AreAsMany, LinksFront, Unlinks, Puts, IsSlot};

use crate::targets::Targets;
use std::alloc::{AllocError, Global};

/// What leads to an item: a chain, whose first it is, or the item that it stands behind.
#[derive(Clone, Copy)]
pub(crate) enum Slot {
    Head(u32),
    After(u32),
}

/// What each chain and each item leads to, and the way back.
#[derive(Drop)]
pub(crate) struct Slots {
    /// The first item of each chain.
    pub(crate) heads: Targets,
    /// The item behind each.
    pub(crate) next: Targets,
    /// What leads to each item.
    pub(crate) back: Vec<Option<Slot>>,
}

// Makes a list of n times None.
fn nones<T: Copy>(alloc: Global, n: u32) -> Result<Vec<Option<T>>, AllocError>
    ensures { IfOk result (λ v. v.items ≡ replicate n None) }
{
    let mut v = Vec::with_capacity(alloc, n as usize)?;
    for _ in 0..n {
        v.push(None)?;
    }
    Ok(v)
}

// Writes None into each place.
fn empty<T: Copy>(places: &mut [Option<T>])
    ensures { (k : ℕ) → slice_index_or places.new k None ≡ None }
{
    for place in places.iter_mut() {
        *place = None;
    }
}

impl Slots {
    // So many chains, of which none has an item.
    pub(crate) fn open(alloc: Global, chains: u32, items: u32) -> Result<Slots, AllocError>
        ensures heads { IfOk result (λ s. s.heads ≡ replicate chains None) }
        ensures next { IfOk result (λ s. s.next ≡ replicate items None) }
        ensures back { IfOk result (λ s. s.back.items ≡ replicate items None) }
    {
        let heads = Targets::open(alloc, chains)?;
        let next = Targets::open(alloc, items)?;
        let back = nones(alloc, items)?;
        Ok(Slots { heads, next, back })
    }

    // Puts an item that is in no chain before the first of a chain.
    pub(crate) fn link(&mut self, chain: u32, item: u32)
        requires chain { chain < length self.old.heads }
        requires item { item < length self.old.next }
        requires back { length self.old.back.items ≡ length self.old.next }
        requires few { length self.old.next ≤ 2097152 }
        requires first { (z : ℕ) → slice_index_or self.old.heads chain None ≡ Some z → z < length self.old.next }
        ensures front { LinksFront (at self.old.heads self.old.next) (at self.new.heads self.new.next)
            (back_of self.old.back.items) (back_of self.new.back.items) chain item }
        ensures sized { AreAsMany self.old self.new }
    {
        let first = self.heads.get(chain);
        self.next.set(item, first);
        self.heads.set(chain, Some(item));
        if let Some(other) = first {
            self.back[other as usize] = Some(Slot::After(item));
        }
        self.back[item as usize] = Some(Slot::Head(chain));
    }

    // Writes what stands in a slot.
    fn put(&mut self, slot: Slot, to: Option<u32>)
        requires slot { IsSlot (length self.old.heads) (length self.old.next) slot }
        requires small { (x : ℕ) → to ≡ Some x → x < 4294967295 }
        ensures put { Puts (at self.old.heads self.old.next) (at self.new.heads self.new.next) slot to }
        ensures back { self.new.back ≡ self.old.back }
        ensures sized { AreAsMany self.old self.new }
    {
        match slot {
            Slot::Head(chain) => self.heads.set(chain, to),
            Slot::After(item) => self.next.set(item, to),
        }
    }

    // Takes an item out of its chain.
    pub(crate) fn unlink(&mut self, item: u32)
        requires item { item < length self.old.next }
        requires back { length self.old.back.items ≡ length self.old.next }
        requires few { length self.old.next ≤ 2097152 }
        requires slot { (s : Slot) → back_of self.old.back.items item ≡ Some s → IsSlot (length self.old.heads) (length self.old.next) s }
        requires behind { (z : ℕ) → slice_index_or self.old.next item None ≡ Some z → z < length self.old.next }
        ensures out { (s : Slot) → back_of self.old.back.items item ≡ Some s
            → Unlinks (at self.old.heads self.old.next) (at self.new.heads self.new.next)
            (back_of self.old.back.items) (back_of self.new.back.items) item s }
        ensures sized { AreAsMany self.old self.new }
    {
        let behind = self.next.get(item);
        if let Some(slot) = self.back[item as usize] {
            self.put(slot, behind);
            if let Some(other) = behind {
                self.back[other as usize] = Some(slot);
            }
        }
        self.back[item as usize] = None;
    }

    // Empties each chain, and forgets what leads to each item. What stands behind an item stays noted.
    pub(crate) fn clear(&mut self)
        ensures heads { (c : ℕ) → slice_index_or self.new.heads c None ≡ None }
        ensures next { self.new.next ≡ self.old.next }
        ensures back { (x : ℕ) → slice_index_or self.new.back.items x None ≡ None }
        ensures sized { AreAsMany self.old self.new }
    {
        self.heads.clear();
        empty(self.back.as_mut_slice());
    }
}
