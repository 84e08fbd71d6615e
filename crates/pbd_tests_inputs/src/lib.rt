//! Tests of what makes parts of a world: meshes of cloths and ropes, OBJ and scenes.
#![tactic(auto)]

#[cfg(test)]
mod tests;
