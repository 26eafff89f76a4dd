//! Commands and pieces as data.

ghost use Rattle.std.specs.Prelude.{◌≡◌, ◌≢◌, MatchOption};
ghost use Rattle.mm_definitions.specs.Package.{kind_text};
ghost use Rattle.mm_definitions.specs.declared.commands.Kind.{Kind as KindValue};

use crate::bounded::{Amount, Coordinate, Id, MatrixSide, PixelSize, SystemNumber, TileSide, Zoom};
use crate::bytes::{MediaBytes, TileBytes};
use crate::content_types::ContentType;
use crate::identifiers::Identifier;
use crate::names::Name;
use crate::places::TilePlace;
use crate::texts::{Definition, Remark, SystemName};

/// How the pixel sizes of the zooms of a pyramid go.
#[derive(Clone, Copy, Debug, PartialEq, Eq)]
pub enum Step {
    /// Each zoom halves the pixel sizes of the one below it.
    Two,
    /// A higher zoom has smaller pixel sizes, in any ratio.
    Other,
}

/// The kind of a table. Tables of the kinds `Two` and `Other` are tile pyramids.
#[derive(Clone, Copy, Debug, PartialEq, Eq)]
pub enum Kind {
    Two,
    Other,
    Attributes,
    Media,
}

impl Kind {
    /// The kind that the registry of a package writes so, or None where it writes none so.
    pub fn named(text: &str) -> Option<Kind>
        ensures { MatchOption result ((kind : KindValue) → text.now ≢ kind_text kind)
            (λ kind. text.now ≡ kind_text kind) }
    {
        match text {
            "two" => Some(Kind::Two),
            "other" => Some(Kind::Other),
            "attributes" => Some(Kind::Attributes),
            "media" => Some(Kind::Media),
            _ => None,
        }
    }
}

/// The kind of a table that is no pyramid.
#[derive(Clone, Copy, Debug, PartialEq, Eq)]
pub enum PlainKind {
    Attributes,
    Media,
}

/// What a relation relates to: media, or the rows of an attribute table.
#[derive(Clone, Copy, Debug, PartialEq, Eq)]
pub enum RelationName {
    Media,
    SimpleAttributes,
}

/// A tile matrix: its width and height in tiles (`mw`, `mh`), the width and height of a tile in pixels (`tw`, `th`),
/// and the size of a pixel in micrometres (`px`, `py`).
#[derive(Clone, Copy, Debug, PartialEq, Eq)]
pub struct Matrix {
    pub mw: MatrixSide,
    pub mh: MatrixSide,
    pub tw: TileSide,
    pub th: TileSide,
    pub px: PixelSize,
    pub py: PixelSize,
}

/// A command that an edition can hold, with the fields of its record.
#[derive(Drop)]
pub enum Piece {
    Tile {
        table: Name,
        place: TilePlace,
        bytes: TileBytes,
    },
    TileDrop {
        table: Name,
        place: TilePlace,
    },
    Row {
        table: Name,
        id: Id,
        title: Remark,
        note: Remark,
        amount: Amount,
    },
    RowDrop {
        table: Name,
        id: Id,
    },
    Media {
        table: Name,
        id: Id,
        content_type: ContentType,
        bytes: MediaBytes,
    },
    MediaDrop {
        table: Name,
        id: Id,
    },
    Map {
        mapping: Name,
        base_id: Id,
        related_id: Id,
    },
    MapDrop {
        mapping: Name,
        base_id: Id,
        related_id: Id,
    },
    Matrix {
        table: Name,
        zoom: Zoom,
        matrix: Matrix,
    },
}

/// A command, with the fields of its record.
#[derive(Drop)]
pub enum Command {
    Srs {
        id: Id,
        name: SystemName,
        organization: SystemName,
        organization_id: Id,
        definition: Definition,
        description: Remark,
    },
    Pyramid {
        table: Name,
        identifier: Identifier,
        srs: SystemNumber,
        min_x: Coordinate,
        min_y: Coordinate,
        max_x: Coordinate,
        max_y: Coordinate,
        step: Step,
    },
    Table {
        table: Name,
        kind: PlainKind,
        identifier: Identifier,
    },
    Drop {
        table: Name,
    },
    /// What an edition may hold too, at once.
    Edit(Piece),
    Relation {
        mapping: Name,
        base: Name,
        related: Name,
        name: RelationName,
    },
    RelationDrop {
        mapping: Name,
    },
    Edition {
        name: Name,
    },
    Discard {
        name: Name,
    },
    Stage {
        edition: Name,
        number: Id,
        piece: Piece,
    },
    Publish {
        edition: Name,
    },
    Rehearse {
        edition: Name,
    },
}
