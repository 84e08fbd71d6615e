//! The tests.
mod ledger;
mod store;
mod tear;
mod track;
