//! The tests, and what is looked at and told for them.
mod end_checks;
mod ends;
mod ends_rows;
mod pair;
mod shape;
