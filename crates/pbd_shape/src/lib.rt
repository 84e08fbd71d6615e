//! What shapes do with particles, and friction.
#![tactic(auto)]

mod book;
mod laws;
mod plane;
mod pushing;
mod rubbing;
mod shapes;
mod short;
mod sphere;
mod touch;
mod touched;
mod way;
mod work;

pub use laws::{shape_parts_push_all, valid_particles_are_within};
pub use shapes::Shapes;
pub use touched::Touched;
