//! Wavefront OBJ: reads meshes, adds them to a scene as particles and links, and writes their lines.
#![tactic(auto)]

mod arrays;
mod bends;
mod decimal;
mod edges;
mod laws;
mod links;
mod mesh;
mod reading;
mod settings;
mod triangles;
mod words;
mod writing;

pub use arrays::{ArraysFault, mesh_of};
pub use laws::{
    coordinates_are_read_back, meshes_are_added_validly, meshes_are_read_back,
    meshes_with_settings_are_added_validly,
};
pub use links::{add_mesh, add_mesh_with};
pub use mesh::{ObjFault, ObjMesh};
pub use reading::read_obj;
pub use settings::{LinkSettings, MeshSettings};
pub use triangles::{Triangle, triangles_of};
pub use writing::{write_face, write_vertex};
