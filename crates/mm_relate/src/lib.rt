//! The relations of a package after the Related Tables Extension: they are added and removed, and so are the mapping
//! rows that relate one row or medium to another; what an item is related to is read (`mm_reads`).
//!
//! - `relations`: `add_relation` and `drop_relation`.
//! - `maps`: the mapping rows, `add_map` and `drop_map`.
//! - `ends`: the tables that a relation joins, and whether a row or medium stands in one.
#![tactic(auto)]

mod ends;
mod maps;
mod relations;

pub use maps::{add_map, drop_map};
pub use mm_reads::related;
pub use relations::{add_relation, drop_relation};
