//! Reads a scene from TOML text.
#![tactic(auto)]

mod arrays;
mod each;
mod fault;
mod laws;
mod limit;
mod link_entries;
mod linking;
mod mesh_entries;
mod meshes;
mod naming;
mod particles;
mod raw;
mod scene;
mod shapes;
mod table_lists;
mod tables;
mod track_entries;
mod values;
mod vectors;

pub use fault::{SceneFault, SceneRule};
pub use laws::accepted_scenes_are_valid;
pub use scene::read_scene;
pub use tables::{KeyName, TableName};
