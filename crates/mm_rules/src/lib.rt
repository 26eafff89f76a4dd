//! Rules 1 to 14 decided on a database, each by a function of its own: a walk over the rows of a query, with what a row
//! needs from another table beside it. `mm_column_limits` has the rules 15 and 16.
//!
//! - `systems`: rule 1.
//! - `contents`: rules 2 to 6, of contents, kinds and matrix sets.
//! - `matrices`, `tiles`: rules 7 to 10.
//! - `items`: rules 11 to 13, of rows, media, relations and mapping rows.
//! - `extensions`: rule 14.
#![tactic(auto)]

pub mod contents;
pub mod extensions;
pub mod items;
pub mod matrices;
pub mod systems;
pub mod tiles;
