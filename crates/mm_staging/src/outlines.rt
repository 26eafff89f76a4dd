//! A staged piece but for its bytes.

use mm_definitions::bounded::{Amount, Id, Zoom};
use mm_definitions::commands::Matrix;
use mm_definitions::content_types::ContentType;
use mm_definitions::names::Name;
use mm_definitions::places::TilePlace;
use mm_definitions::texts::Remark;

/// What a staged piece says, with the id of the blob in place of the bytes of a tile or a medium, which stay where they
/// are kept.
#[derive(Drop)]
pub enum Outline {
    Tile {
        table: Name,
        place: TilePlace,
        blob: i64,
    },
    TileDrop {
        table: Name,
        place: TilePlace,
    },
    Row {
        table: Name,
        id: Id,
        title: Remark,
        note: Remark,
        amount: Amount,
    },
    RowDrop {
        table: Name,
        id: Id,
    },
    Media {
        table: Name,
        id: Id,
        content_type: ContentType,
        blob: i64,
    },
    MediaDrop {
        table: Name,
        id: Id,
    },
    Map {
        mapping: Name,
        base_id: Id,
        related_id: Id,
    },
    MapDrop {
        mapping: Name,
        base_id: Id,
        related_id: Id,
    },
    Matrix {
        table: Name,
        zoom: Zoom,
        matrix: Matrix,
    },
}
