//! The tests, a module for each topic.
mod hard;
mod lanes;
mod near;
mod num;
mod roots;
