//! The contents of a package: tables and tile pyramids are added and removed, and noted as changed.
//!
//! - `contents`: the rows of `gpkg_contents`, `touch`, `set_last_change` and `is_taken`.
//! - `kinds`: the registry of the kinds of tables, and `kind_of`.
//! - `tables`: `add_table` and `drop_table`.
//! - `pyramids`: `add_pyramid`.
//! - `relations`: whether a relation has a name (`has_relation`) or uses a table.
//! - `items`: `has_row` and `has_medium`.
//! - `systems`: whether a pyramid may name a reference system.
//! - `extensions`: the rows of `gpkg_extensions`.
#![tactic(auto)]

mod contents;
mod extensions;
mod items;
mod kinds;
mod pyramids;
mod relations;
mod systems;
mod tables;

pub use contents::{is_taken, set_last_change, touch};
pub use extensions::{delete_related_row, insert_related_row};
pub use items::{has_medium, has_row};
pub use kinds::kind_of;
pub use pyramids::add_pyramid;
pub use relations::has_relation;
pub use tables::{add_table, drop_table};
