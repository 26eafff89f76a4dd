//! The content of a package: attribute rows, media and tiles are put, replaced and removed by their keys, and read, as
//! the list of the tables is (`mm_reads`).
//!
//! - `rows`: `put_row` and `drop_row`.
//! - `media_items`: `put_media` and `drop_media`.
//! - `tiles`: `put_tile` and `drop_tile`.
//! - `staged`: `put_tile_of_piece` and `put_media_of_piece`, whose bytes are those of a staged piece.
//! - `mapped`: whether a mapping row has an item as an end.
//! - `kinds`: whether a table is of the kind that a command asks.
#![tactic(auto)]

mod kinds;
mod mapped;
mod media_items;
mod rows;
mod staged;
mod tiles;

pub use media_items::{drop_media, put_media};
pub use mm_reads::{contents, media, row, tile};
pub use rows::{drop_row, put_row};
pub use staged::{put_media_of_piece, put_tile_of_piece};
pub use tiles::{drop_tile, put_tile};
