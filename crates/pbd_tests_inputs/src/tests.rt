//! The tests, of cloths and ropes, of OBJ and of scenes, and the parts and rows for them.
mod mesh;
mod obj;
mod parts;
mod scene;
mod scene_keys;
