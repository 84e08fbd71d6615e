//! Batches of bonds, projected one by one or in chunks of up to 128.
#![tactic(auto)]

mod bonds;
mod book;
mod chunk;
mod correct;
mod desk;
mod laid;
mod lanes;
mod mend;
mod near;
mod one;
mod parts;
mod projector;
mod scalar;
mod slow;
mod sums;
mod uneven;
mod wide;

pub use bonds::Bonds;
pub use laid::{BondColumns, Laid};
pub use lanes::LaneProjector;
pub use parts::{Note, book_moves, read_bond};
pub use projector::Projector;
pub use scalar::Scalar;
