//! What every layer speaks of, under one name: the types of the editor with their limits, handed on from
//! `mm_definitions`, and the readers of records.
//!
//! A record is read exactly where its fields spell a command within the limits, and is refused else with the least
//! number that holds against it.
//!
//! - `records`: `read_command`, a record as a command.
//! - `pieces`: `read_piece`, the same of a piece of an edition.
//! - `fields`: one field of a record.
#![tactic(auto)]

mod fields;
pub mod pieces;
pub mod records;

pub use mm_definitions::{
    Amount, Answer, Bounds, Bytes, Command, ContentType, Coordinate, Count, Definition,
    EditionState, Entry, Extent, Fault, Id, Identifier, Io, Kind, KitFault, Matrix, MatrixSide,
    Media, MediaBytes, Moment, Name, Open, Outcome, PageFault, Piece, PixelSize, Place, PlainKind,
    Positive, ReadFault, Reason, Refusal, Related, RelationName, Remark, Row, RuleNumber, RunFault,
    Signed, Staged, Step, SystemName, SystemNumber, Tally, Text, TileBytes, TileSide, Unit,
    UntilEnd, Zoom, fits, is_content_type, is_identifier, is_name, is_stamp, neighbours,
    read_number, stamp,
};
pub use pieces::read_piece;
pub use records::read_command;
