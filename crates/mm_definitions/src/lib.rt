//! The types of the editor with their limits, and the definitions that every contract above cites: what a package
//! is, its sixteen rules, what each command is refused for and what it changes, which fields spell which command.
//!
//! No call here touches a store. The readers are exact on both sides: a value is read exactly where a text spells
//! one within the limits, and is refused else by number.
//!
//! - `commands`, `answers`, `refusals`, `entries`: what is asked, what is answered, and what reads tell.
//! - `limits`, `numbers`, `bounded`, `units`: limits, each in one place; numbers in their one spelling, and with limits.
//! - `names`, `identifiers`, `content_types`, `texts`, `bytes`, `hexadecimal`: texts and bytes with their limits.
//! - `extents`, `matrices`, `places`: where a map, its zooms and a tile are.
//! - `moments`: moments and their texts.
//! - `streams`, `ends`: readers and writers that remember a failure and their end.
//! - `within`: laws that commands and pieces keep to the limits.
#![tactic(auto)]

pub mod answers;
pub mod bounded;
pub mod bytes;
pub mod commands;
pub mod content_types;
pub mod ends;
pub mod entries;
pub mod extents;
mod hexadecimal;
pub mod identifiers;
pub mod limits;
pub mod matrices;
pub mod moments;
pub mod names;
pub mod numbers;
pub mod places;
pub mod refusals;
pub mod streams;
pub mod texts;
pub mod units;
pub mod within;

pub use answers::{
    Answer, Fault, KitFault, Open, Outcome, PageFault, ReadFault, Refusal, RuleNumber, RunFault,
    Staged, Tally,
};
pub use bounded::{
    Amount, Coordinate, Count, Id, MatrixSide, PixelSize, Place, Positive, Signed, SystemNumber,
    TileSide, Zoom,
};
pub use bytes::{Bytes, MediaBytes, TileBytes};
pub use commands::{Command, Kind, Matrix, Piece, PlainKind, RelationName, Step};
pub use content_types::{ContentType, is_content_type};
pub use ends::UntilEnd;
pub use entries::{EditionState, Entry, Media, Related, Row};
pub use extents::{Bounds, Extent, fits};
pub use identifiers::{Identifier, is_identifier};
pub use matrices::neighbours;
pub use moments::{Moment, is_stamp, stamp};
pub use names::{Name, is_name};
pub use numbers::read_number;
pub use places::TilePlace;
pub use refusals::Reason;
pub use streams::Io;
pub use texts::{Definition, Remark, SystemName, Text};
pub use units::Unit;
