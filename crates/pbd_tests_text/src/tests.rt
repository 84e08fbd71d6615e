//! The tests, of sources and sinks, lines, logs and scripts.
mod io;
mod line;
mod log;
mod script;
