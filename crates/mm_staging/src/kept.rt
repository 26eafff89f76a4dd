//! A staged piece as its row holds it.

ghost use Rattle.std.specs.Prelude.{◌≡◌, ◌↔◌, IfOk, IsTrue, true, pos, []};
ghost use Rattle.mm_definitions.specs.PieceGroups.{changes_tile, changes_item, changes_mapping, puts_matrix};
ghost use Rattle.mm_definitions.specs.Pieces.{piece_of, piece_row};
ghost use Rattle.sqlite.specs.Order.{column};
ghost use Rattle.mm_store.specs.Rows.{maybe};
ghost use Rattle.mm_staging.specs.Kept.{kept_row, written_row, bytes_or_none, HasNumbers, AreNumbers, Shows};

use mm_definitions::commands::Piece;
use sqlite::{Error, Row};

/// The number columns of a piece. The last four are 0 in each kind of piece but a matrix.
#[derive(Clone, Copy, Debug, PartialEq, Eq)]
pub(crate) struct Numbers {
    pub(crate) k1: i64,
    pub(crate) k2: i64,
    pub(crate) k3: i64,
    pub(crate) k4: i64,
    pub(crate) k5: i64,
    pub(crate) k6: i64,
    pub(crate) k7: i64,
}

/// A piece as a row holds it, with the id of the blob that it names, if it names one, and that blob's bytes, if they
/// were read.
#[derive(Drop)]
pub(crate) struct Kept {
    pub(crate) kind: String,
    pub(crate) name: String,
    pub(crate) numbers: Numbers,
    pub(crate) t1: String,
    pub(crate) t2: String,
    pub(crate) blob: Option<i64>,
    pub(crate) bytes: Option<Vec<u8>>,
}

/// What a row is to hold of a piece.
#[derive(Clone, Copy)]
pub(crate) struct Written<'a> {
    pub(crate) kind: &'a str,
    pub(crate) name: &'a str,
    pub(crate) k1: i64,
    pub(crate) k2: i64,
    pub(crate) k3: i64,
    pub(crate) k4: i64,
    pub(crate) k5: i64,
    pub(crate) k6: i64,
    pub(crate) k7: i64,
    pub(crate) t1: &'a str,
    pub(crate) t2: &'a str,
    pub(crate) bytes: &'a [u8],
}

/// What is written in the columns that a kind of piece does not use.
const NONE: Written<'static> = Written {
    kind: "",
    name: "",
    k1: 0,
    k2: 0,
    k3: 0,
    k4: 0,
    k5: 0,
    k6: 0,
    k7: 0,
    t1: "",
    t2: "",
    bytes: b"",
};

/// The numbers in the columns from the third on.
fn numbers_in(row: &Row) -> Result<Numbers, Error>
    ensures { IfOk result (HasNumbers row.now) }
{
    Ok(Numbers {
        k1: row.get(2)?,
        k2: row.get(3)?,
        k3: row.get(4)?,
        k4: row.get(5)?,
        k5: row.get(6)?,
        k6: row.get(7)?,
        k7: row.get(8)?,
    })
}

/// The piece that a row shows: its kind, its name, the seven numbers, the two texts and its blob, with these bytes.
pub(crate) fn kept_in(row: &Row, bytes: Option<Vec<u8>>) -> Result<Kept, Error>
    ensures shown { IfOk result (λ kept. Shows row.now (kept_row kept)) }
    ensures blob { IfOk result (λ kept. column row.now 11 ≡ maybe kept.blob) }
    ensures bytes { IfOk result (λ kept. kept.bytes ≡ bytes) }
{
    Ok(Kept {
        kind: row.get(0)?,
        name: row.get(1)?,
        numbers: numbers_in(row)?,
        t1: row.get(9)?,
        t2: row.get(10)?,
        blob: row.get(11)?,
        bytes,
    })
}

/// Whether the numbers of a row are those that would be written of a piece.
fn are_written(numbers: Numbers, written: Written<'_>) -> bool
    ensures { IsTrue result ↔ AreNumbers numbers written.entry }
{
    numbers.k1 == written.k1
        && numbers.k2 == written.k2
        && numbers.k3 == written.k3
        && numbers.k4 == written.k4
        && numbers.k5 == written.k5
        && numbers.k6 == written.k6
        && numbers.k7 == written.k7
}

/// Whether a piece has exactly these bytes.
fn has_bytes(kept: &Kept, bytes: &[u8]) -> bool
    ensures { IsTrue result ↔ (bytes.now ≡ bytes_or_none kept.now.bytes) }
{
    match &kept.bytes {
        Some(kept) => kept.as_slice() == bytes,
        None => bytes.is_empty(),
    }
}

/// Whether a row holds exactly what would be written of a piece.
pub(crate) fn is_written(kept: &Kept, written: Written<'_>) -> bool
    ensures { IsTrue result ↔ (written_row written.entry ≡ kept_row kept.now) }
{
    are_written(kept.numbers, written)
        && kept.kind.as_str() == written.kind
        && kept.name.as_str() == written.name
        && kept.t1.as_str() == written.t1
        && kept.t2.as_str() == written.t2
        && has_bytes(kept, written.bytes)
}

/// What is written of a piece that has a name and at most two numbers.
fn numbered<'a>(kind: &'a str, name: &'a str, k1: i64, k2: i64) -> Written<'a>
    ensures { written_row result ≡ piece_of kind.now name.now k1 k2 (pos 0) [] [] [] }
{
    Written {
        kind,
        name,
        k1,
        k2,
        ..NONE
    }
}

/// What is written of a piece that changes a tile.
fn written_tile(piece: &Piece) -> Written<'_>
    requires { changes_tile piece.now ≡ true }
    ensures { written_row result ≡ piece_row piece.now }
{
    match piece {
        Piece::Tile {
            table,
            place,
            bytes,
        } => Written {
            kind: "tile",
            name: table.as_str(),
            k1: i64::from(place.zoom.get()),
            k2: i64::from(place.column.get()),
            k3: i64::from(place.row.get()),
            bytes: bytes.as_slice(),
            ..NONE
        },
        Piece::TileDrop { table, place } => Written {
            kind: "tile-drop",
            name: table.as_str(),
            k1: i64::from(place.zoom.get()),
            k2: i64::from(place.column.get()),
            k3: i64::from(place.row.get()),
            ..NONE
        },
        _ => unreachable!(),
    }
}

/// What is written of a piece that changes an attribute row or a medium.
fn written_item(piece: &Piece) -> Written<'_>
    requires { changes_item piece.now ≡ true }
    ensures { written_row result ≡ piece_row piece.now }
{
    match piece {
        Piece::Row {
            table,
            id,
            title,
            note,
            amount,
        } => Written {
            kind: "row",
            name: table.as_str(),
            k1: id.get(),
            k2: amount.get(),
            t1: title.as_str(),
            t2: note.as_str(),
            ..NONE
        },
        Piece::RowDrop { table, id } => numbered("row-drop", table.as_str(), id.get(), 0),
        Piece::Media {
            table,
            id,
            content_type,
            bytes,
        } => Written {
            kind: "media",
            name: table.as_str(),
            k1: id.get(),
            t1: content_type.as_str(),
            bytes: bytes.as_slice(),
            ..NONE
        },
        Piece::MediaDrop { table, id } => numbered("media-drop", table.as_str(), id.get(), 0),
        _ => unreachable!(),
    }
}

/// What is written of a piece that changes a mapping row.
fn written_mapping(piece: &Piece) -> Written<'_>
    requires { changes_mapping piece.now ≡ true }
    ensures { written_row result ≡ piece_row piece.now }
{
    match piece {
        Piece::Map {
            mapping,
            base_id,
            related_id,
        } => numbered("map", mapping.as_str(), base_id.get(), related_id.get()),
        Piece::MapDrop {
            mapping,
            base_id,
            related_id,
        } => numbered(
            "map-drop",
            mapping.as_str(),
            base_id.get(),
            related_id.get(),
        ),
        _ => unreachable!(),
    }
}

/// What is written of a piece that puts a matrix.
fn written_matrix(piece: &Piece) -> Written<'_>
    requires { puts_matrix piece.now ≡ true }
    ensures { written_row result ≡ piece_row piece.now }
{
    match piece {
        Piece::Matrix {
            table,
            zoom,
            matrix,
        } => Written {
            kind: "matrix",
            name: table.as_str(),
            k1: i64::from(zoom.get()),
            k2: i64::from(matrix.mw.get()),
            k3: i64::from(matrix.mh.get()),
            k4: i64::from(matrix.tw.get()),
            k5: i64::from(matrix.th.get()),
            k6: matrix.px.get(),
            k7: matrix.py.get(),
            ..NONE
        },
        _ => unreachable!(),
    }
}

/// What is written of a piece.
pub(crate) fn as_written(piece: &Piece) -> Written<'_>
    ensures { written_row result ≡ piece_row piece.now }
{
    match piece {
        Piece::Tile { .. } | Piece::TileDrop { .. } => written_tile(piece),
        Piece::Row { .. } | Piece::RowDrop { .. } | Piece::Media { .. } | Piece::MediaDrop { .. } =>
            written_item(piece),
        Piece::Map { .. } | Piece::MapDrop { .. } => written_mapping(piece),
        Piece::Matrix { .. } => written_matrix(piece),
    }
}
