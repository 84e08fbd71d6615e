//! The tests, of lines and of worlds.
mod lines;
mod worlds;
