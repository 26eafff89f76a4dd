//! The reads of a package's content: by key, the list of its tables, what an item is related to, and the listing that is
//! printed. Each is lent a connection on which no transaction is open, and leaves it as settled as it was, after a fault
//! too.
//!
//! - `tiles`: the bytes of a tile.
//! - `media_items`: a medium.
//! - `rows`: an attribute row.
//! - `row_lists`: the rows of an attribute table from an id on.
//! - `tables`: the list of the tables.
//! - `relations`: the list of an item's mapping rows.
//! - `items`: whether an item stands.
//! - `viewer`: what the parts that are shown are asked of.
//! - `listing`: `list`, a line for each table and then one for each edition, by rising name; each is written before the
//!   next row is asked for.
//! - `lines`: the line of a table or an edition, built in place.
//! - `shown`: the line that a row of a query shows.
#![tactic(auto)]

mod items;
mod lines;
mod listing;
mod media_items;
mod relations;
mod row_lists;
mod rows;
mod shown;
mod tables;
mod tiles;
mod viewer;

pub use listing::list;
pub use media_items::media;
pub use relations::related;
pub use row_lists::{MOST_ROWS, rows_from};
pub use rows::row;
pub use tables::contents;
pub use tiles::tile;
pub use viewer::Viewer;
