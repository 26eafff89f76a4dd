//! Laws: each command and piece keeps to the limits of the profile in use, by the types of its fields.

ghost use Rattle.std.specs.Prelude.{◌≡◌, true};
ghost use Rattle.mm_definitions.specs.Bounds.{current};
ghost use Rattle.mm_definitions.specs.CommandGroups.{is_layout_change, lays_out_pyramid, is_relation_change, works_on_editions};
ghost use Rattle.mm_definitions.specs.PieceGroups.{changes_tile, changes_item, changes_mapping};
ghost use Rattle.mm_definitions.specs.Within.{IsWithin, IsPieceWithin, IsMatrixWithin, IsPlaceWithin};

use crate::commands::{Command, Matrix, Piece};
use crate::places::TilePlace;

fn matrix_is_within(matrix: &Matrix)
    ensures { IsMatrixWithin current matrix.now }
{
    matrix.mw.get();
    matrix.mh.get();
    matrix.tw.get();
    matrix.th.get();
    matrix.px.get();
    matrix.py.get();
}

fn place_is_within(place: TilePlace)
    ensures { IsPlaceWithin place }
{
    place.zoom.get();
    place.column.get();
    place.row.get();
}

/// A piece that changes a tile.
fn tile_is_within(piece: &Piece)
    requires { changes_tile piece.now ≡ true }
    ensures { IsPieceWithin current piece.now }
{
    match piece {
        Piece::Tile {
            table,
            place,
            bytes,
        } => {
            table.as_str();
            place_is_within(*place);
            bytes.as_slice();
        }
        Piece::TileDrop { table, place } => {
            table.as_str();
            place_is_within(*place);
        }
        _ => unreachable!(),
    }
}

/// A piece that changes an attribute row or a medium.
fn item_is_within(piece: &Piece)
    requires { changes_item piece.now ≡ true }
    ensures { IsPieceWithin current piece.now }
{
    match piece {
        Piece::Row {
            table,
            id,
            title,
            note,
            amount,
        } => {
            table.as_str();
            id.get();
            title.as_str();
            note.as_str();
            amount.get();
        }
        Piece::RowDrop { table, id } => {
            table.as_str();
            id.get();
        }
        Piece::Media {
            table,
            id,
            content_type,
            bytes,
        } => {
            table.as_str();
            id.get();
            content_type.as_str();
            bytes.as_slice();
        }
        Piece::MediaDrop { table, id } => {
            table.as_str();
            id.get();
        }
        _ => unreachable!(),
    }
}

/// A piece that changes a mapping row.
fn mapping_is_within(piece: &Piece)
    requires { changes_mapping piece.now ≡ true }
    ensures { IsPieceWithin current piece.now }
{
    match piece {
        Piece::Map {
            mapping,
            base_id,
            related_id,
        } => {
            mapping.as_str();
            base_id.get();
            related_id.get();
        }
        Piece::MapDrop {
            mapping,
            base_id,
            related_id,
        } => {
            mapping.as_str();
            base_id.get();
            related_id.get();
        }
        _ => unreachable!(),
    }
}

impl Piece {
    ghost use Rattle.mm_definitions.specs.Bounds.{current};
    ghost use Rattle.mm_definitions.specs.Within.{IsPieceWithin};

    /// A law: the fields of a piece are within the limits of the profile in use.
    pub fn is_within(&self)
        ensures { IsPieceWithin current self.now }
    {
        match self {
            Piece::Tile { .. } | Piece::TileDrop { .. } => tile_is_within(self),
            Piece::Row { .. }
            | Piece::RowDrop { .. }
            | Piece::Media { .. }
            | Piece::MediaDrop { .. } => item_is_within(self),
            Piece::Map { .. } | Piece::MapDrop { .. } => mapping_is_within(self),
            Piece::Matrix {
                table,
                zoom,
                matrix,
            } => {
                table.as_str();
                zoom.get();
                matrix_is_within(matrix);
            }
        }
    }
}

/// A command that lays out a reference system or a table.
fn layout_is_within(command: &Command)
    requires { is_layout_change command.now ≡ true }
    ensures { IsWithin current command.now }
{
    match command {
        Command::Srs {
            id,
            name,
            organization,
            organization_id,
            definition,
            description,
        } => {
            id.get();
            name.as_str();
            organization.as_str();
            organization_id.get();
            definition.as_str();
            description.as_str();
        }
        Command::Table {
            table,
            identifier,
            ..
        } => {
            table.as_str();
            identifier.as_str();
        }
        Command::Drop { table } => {
            table.as_str();
        }
        _ => unreachable!(),
    }
}

/// A command that lays out a pyramid.
fn pyramid_is_within(command: &Command)
    requires { lays_out_pyramid command.now ≡ true }
    ensures { IsWithin current command.now }
{
    match command {
        Command::Pyramid {
            table,
            identifier,
            srs,
            min_x,
            min_y,
            max_x,
            max_y,
            ..
        } => {
            table.as_str();
            identifier.as_str();
            srs.get();
            min_x.get();
            min_y.get();
            max_x.get();
            max_y.get();
        }
        _ => unreachable!(),
    }
}

/// A command on editions.
fn edition_is_within(command: &Command)
    requires { works_on_editions command.now ≡ true }
    ensures { IsWithin current command.now }
{
    match command {
        Command::Edition { name } => {
            name.as_str();
        }
        Command::Discard { name } => {
            name.as_str();
        }
        Command::Stage {
            edition,
            number,
            piece,
        } => {
            edition.as_str();
            number.get();
            piece.is_within();
        }
        Command::Publish { edition } => {
            edition.as_str();
        }
        Command::Rehearse { edition } => {
            edition.as_str();
        }
        _ => unreachable!(),
    }
}

/// A command that changes relations.
fn relation_is_within(command: &Command)
    requires { is_relation_change command.now ≡ true }
    ensures { IsWithin current command.now }
{
    match command {
        Command::Relation {
            mapping,
            base,
            related,
            ..
        } => {
            mapping.as_str();
            base.as_str();
            related.as_str();
        }
        Command::RelationDrop { mapping } => {
            mapping.as_str();
        }
        _ => unreachable!(),
    }
}

impl Command {
    ghost use Rattle.mm_definitions.specs.Bounds.{current};
    ghost use Rattle.mm_definitions.specs.Within.{IsWithin};

    /// A law: the fields of a command are within the limits of the profile in use.
    pub fn is_within(&self)
        ensures { IsWithin current self.now }
    {
        match self {
            Command::Srs { .. } | Command::Table { .. } | Command::Drop { .. } => {
                layout_is_within(self)
            }
            Command::Pyramid { .. } => pyramid_is_within(self),
            Command::Edit(piece) => piece.is_within(),
            Command::Relation { .. } | Command::RelationDrop { .. } => relation_is_within(self),
            Command::Edition { .. }
            | Command::Discard { .. }
            | Command::Stage { .. }
            | Command::Publish { .. }
            | Command::Rehearse { .. } => edition_is_within(self),
        }
    }
}
