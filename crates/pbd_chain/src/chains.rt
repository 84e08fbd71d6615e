//! Lists of items by index, seen as a list of lists.
ghost use Rattle.std.specs.Prelude.{◌≡◌, ◌+◌, ◌<◌, ◌≤◌, [], ℕ, IsTrue, IfOk, IsFalse, Some, length, map, replicate, slice_index_or, None};
ghost use Rattle.pbd_chain.specs.Linked.{Shows, chain_at, chains_of, is_linked, item_at, with_front, without};

use crate::links::Slots;
use std::alloc::{AllocError, Global};
use std::marker::Model;

/// Doubly linked lists of items, each item in at most one of them.
///
/// Chains and items are numbers from 0 on. Only opening takes memory.
#[derive(Drop)]
pub struct Chains {
    slots: Slots,
}

impl Model for Chains {
    ghost use Rattle.std.specs.Prelude.{length};
    ghost use Rattle.pbd_chain.specs.Linked.{Linked, chains_of, Shows};

    ghost Value = { Linked };

    ghost view = { λ s. record { items = length s.slots.next; chains = chains_of s.slots.heads s.slots.next } };

    ghost invariant = { λ s. Shows s.slots.heads s.slots.next s.slots.back.items (chains_of s.slots.heads s.slots.next) };
}

impl Chains {
    /// Makes room for so many chains and items, at most 2,097,152 of each. All chains are empty.
    pub fn open(alloc: Global, chains: u32, items: u32) -> Result<Chains, AllocError>
        requires chains { chains ≤ 2097152 }
        requires items { items ≤ 2097152 }
        ensures { IfOk result (λ c. c ≡ record { items = items; chains = replicate chains [] }) }
    {
        let slots = Slots::open(alloc, chains, items)?;
        Ok(Chains { slots })
    }

    /// Puts an item that is in no chain before the first of a chain.
    pub fn link_front(&mut self, chain: u32, item: u32)
        requires chain { chain < length self.old.chains }
        requires item { item < self.old.items }
        requires free { IsFalse (is_linked self.old.chains item) }
        ensures { self.new ≡ record self.old { chains = with_front self.old.chains chain item } }
    {
        self.slots.link(chain, item);
    }

    /// Takes an item out of its chain, whose other items keep their order.
    pub fn unlink(&mut self, item: u32)
        requires { IsTrue (is_linked self.old.chains item) }
        ensures { self.new ≡ record self.old { chains = map (without item) self.old.chains } }
    {
        self.slots.unlink(item);
    }

    /// The first item of a chain, and none exactly where the chain is empty.
    pub fn first(&self, chain: u32) -> Option<u32>
        requires { chain < length self.now.chains }
        ensures value { result ≡ item_at self.now.chains chain 0 }
        ensures bounded { length (chain_at self.now.chains chain) ≤ self.now.items }
    {
        self.slots.heads.get(chain)
    }

    /// The item behind another, and none exactly behind the last of a chain.
    pub fn next(&self, item: u32) -> Option<u32>
        requires { IsTrue (is_linked self.now.chains item) }
        ensures { (c k : ℕ) → item_at self.now.chains c k ≡ Some item → result ≡ item_at self.now.chains c (k + 1) }
    {
        self.slots.next.get(item)
    }

    /// Whether an item is in a chain. If so, it stands at one place of one chain.
    pub fn is_linked(&self, item: u32) -> bool
        requires { item < self.now.items }
        ensures value { result ≡ is_linked self.now.chains item }
        ensures once { (c d j k : ℕ) → item_at self.now.chains c j ≡ Some item → item_at self.now.chains d k ≡ Some item
            → (c ≡ d) × (j ≡ k) }
    {
        self.slots.back[item as usize].is_some()
    }

    /// The number of items that there is room for, which no chain is longer than.
    pub fn items(&self) -> u32
        ensures { result ≡ self.now.items }
    {
        self.slots.next.len()
    }

    /// Empties all chains.
    pub fn clear(&mut self)
        ensures { self.new ≡ record self.old { chains = map (λ _. []) self.old.chains } }
    {
        self.slots.clear();
    }
}
