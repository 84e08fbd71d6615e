//! Where a run's bytes come from and go to.
#![tactic(auto)]

mod memory;
mod standard;
mod sure;
mod traits;

pub use memory::{MemSink, MemSource};
pub use standard::{StdSink, StdSource, StdStream};
pub use sure::{SureSink, SureSource};
pub use traits::{Failed, Sink, Source};
