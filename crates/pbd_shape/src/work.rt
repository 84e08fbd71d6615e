// What a part of a step works on.
use pbd_store::{Block, Steps, Store};
use pbd_world::Totals;
use std::sync::ledger::Ledger;

/// The particles, the ledger of their moves, and the count of accesses to them.
#[derive(Drop)]
pub(crate) struct Work<'a, const L: usize, G: Ledger> {
    pub(crate) store: &'a mut Store<L>,
    pub(crate) totals: &'a mut Totals,
    pub(crate) steps: &'a mut Steps<G>,
}

/// The particles of a block, as they were loaded from their store.
#[derive(Clone, Copy)]
pub(crate) struct Loaded<'a, const L: usize> {
    pub(crate) store: &'a Store<L>,
    pub(crate) block: u32,
    pub(crate) lanes: &'a Block<L>,
}
