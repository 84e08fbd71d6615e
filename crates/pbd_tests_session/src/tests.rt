//! The tests, of sessions and of a cloth.
mod cloth;
mod session;
