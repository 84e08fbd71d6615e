//! The particles and links of cloths and ropes.
#![tactic(auto)]

mod cloths;
mod fits;
mod laws;
mod mesh;
mod place;
mod ropes;
mod spec;

pub use cloths::cloth;
pub use laws::{cloths_are_meshes, ropes_are_meshes};
pub use place::resting;
pub use ropes::rope;
pub use spec::{ClothSpec, RopeSpec};
