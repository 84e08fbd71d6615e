//! The tests, a module for each kind of run.
mod apart;
mod cloths;
mod generated;
mod logs;
mod meshes;
mod outside;
mod rows;
mod tags;
mod written;
