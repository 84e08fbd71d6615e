//! The tests, and what is drawn and changed for them.
mod drawn;
mod hostile;
mod names;
mod rows;
mod sessions;
mod sums;
