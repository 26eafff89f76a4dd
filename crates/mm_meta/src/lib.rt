//! What a package is made of: it is made and recognised, has its reference systems and the matrices of its pyramids; its
//! tables and pyramids are handed on from `mm_layout`, and `keep` and `sweep`, by which bytes are kept once, from `mm_blobs`.
//!
//! - `opening`: `init`, which makes all tables and the rows that every package has, in one commit.
//! - `schema`: the CREATE statements.
//! - `profile`: the row that says which profile a file has, and `look`, which asks for it.
//! - `systems`: reference systems.
//! - `memory`: a new package in memory.
//! - `matrices`: `add_matrix`.
//! - `extents`: whether a matrix covers the extent of its pyramid.
//! - `zooms`: whether a matrix suits the nearest lower and the nearest higher zoom.
#![tactic(auto)]

mod extents;
mod matrices;
mod memory;
mod opening;
mod profile;
mod schema;
mod systems;
mod zooms;

pub use matrices::add_matrix;
pub use memory::create_in_memory;
pub use mm_blobs::blobs::{keep, sweep};
pub use mm_layout::{add_pyramid, add_table, drop_table, touch};
pub use opening::init;
pub use profile::look;
pub use systems::add_srs;
