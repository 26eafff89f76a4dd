//! Readers of the records of pieces.

ghost use Rattle.std.specs.Prelude.{◌≡◌, IfOk, map, codes};
ghost use Rattle.mm_definitions.specs.Bounds.{current};
ghost use Rattle.mm_definitions.specs.Reading.{ReadsTo};
ghost use Rattle.mm_definitions.specs.Fields.{AllHold, IsAgainstSome};
ghost use Rattle.mm_definitions.specs.Records.{IsLeast, matrix_values, piece_values, piece_word, SpellsPiece, HoldsAgainstPiece};
ghost use Rattle.mm_definitions.specs.Records as forms;
ghost use Rattle.mm_definitions.specs.Within.{IsPieceWithin};

use crate::fields::{both, count_field, name_field, positive_field, signed_field, zoom_field};
use mm_definitions::answers::ReadFault;
use mm_definitions::bytes::{MediaBytes, TileBytes};
use mm_definitions::commands::{Matrix, Piece};
use mm_definitions::content_types::ContentType;
use mm_definitions::places::TilePlace;
use mm_definitions::refusals::Reason;
use mm_definitions::texts::Remark;
use std::alloc::Global;

/// `tile,TABLE,Z,C,R,HEX`
fn read_tile(alloc: Global, fields: &[&str]) -> Result<Piece, ReadFault>
    ensures { ReadsTo (λ c. (piece_word c ≡ codes "tile")
        × AllHold forms.tile_form (map (λ f. f.now) fields.now) (piece_values c))
        (IsLeast (IsAgainstSome forms.tile_form (map (λ f. f.now) fields.now))) result }
{
    let [table, zoom, column, row, bytes] = fields else {
        return Err(ReadFault::refused(Reason::NO_SUCH_RECORD));
    };
    let (table, (zoom, (column, (row, bytes)))) = both(
        name_field(table),
        both(
            zoom_field(zoom),
            both(
                count_field(column),
                both(count_field(row), TileBytes::read(alloc, bytes)),
            ),
        ),
    )?;
    Ok(Piece::Tile {
        table,
        place: TilePlace { zoom, column, row },
        bytes,
    })
}

/// `tile-drop,TABLE,Z,C,R`
fn read_tile_drop(fields: &[&str]) -> Result<Piece, ReadFault>
    ensures { ReadsTo (λ c. (piece_word c ≡ codes "tile-drop")
        × AllHold forms.tile_drop_form (map (λ f. f.now) fields.now) (piece_values c))
        (IsLeast (IsAgainstSome forms.tile_drop_form (map (λ f. f.now) fields.now))) result }
{
    let [table, zoom, column, row] = fields else {
        return Err(ReadFault::refused(Reason::NO_SUCH_RECORD));
    };
    let (table, (zoom, (column, row))) = both(
        name_field(table),
        both(
            zoom_field(zoom),
            both(count_field(column), count_field(row)),
        ),
    )?;
    Ok(Piece::TileDrop {
        table,
        place: TilePlace { zoom, column, row },
    })
}

/// `row,TABLE,ID,TITLE,NOTE,AMOUNT`
fn read_row(alloc: Global, fields: &[&str]) -> Result<Piece, ReadFault>
    ensures { ReadsTo (λ c. (piece_word c ≡ codes "row")
        × AllHold forms.row_form (map (λ f. f.now) fields.now) (piece_values c))
        (IsLeast (IsAgainstSome forms.row_form (map (λ f. f.now) fields.now))) result }
{
    let [table, id, title, note, amount] = fields else {
        return Err(ReadFault::refused(Reason::NO_SUCH_RECORD));
    };
    let (table, (id, (title, (note, amount)))) = both(
        name_field(table),
        both(
            positive_field(id),
            both(
                Remark::read(alloc, title),
                both(Remark::read(alloc, note), signed_field(amount)),
            ),
        ),
    )?;
    Ok(Piece::Row {
        table,
        id,
        title,
        note,
        amount,
    })
}

/// `row-drop,TABLE,ID`
fn read_row_drop(fields: &[&str]) -> Result<Piece, ReadFault>
    ensures { ReadsTo (λ c. (piece_word c ≡ codes "row-drop")
        × AllHold forms.item_form (map (λ f. f.now) fields.now) (piece_values c))
        (IsLeast (IsAgainstSome forms.item_form (map (λ f. f.now) fields.now))) result }
{
    let [table, id] = fields else {
        return Err(ReadFault::refused(Reason::NO_SUCH_RECORD));
    };
    let (table, id) = both(name_field(table), positive_field(id))?;
    Ok(Piece::RowDrop { table, id })
}

/// `media,TABLE,ID,TYPE,HEX`
fn read_media(alloc: Global, fields: &[&str]) -> Result<Piece, ReadFault>
    ensures { ReadsTo (λ c. (piece_word c ≡ codes "media")
        × AllHold forms.media_form (map (λ f. f.now) fields.now) (piece_values c))
        (IsLeast (IsAgainstSome forms.media_form (map (λ f. f.now) fields.now))) result }
{
    let [table, id, content_type, bytes] = fields else {
        return Err(ReadFault::refused(Reason::NO_SUCH_RECORD));
    };
    let (table, (id, (content_type, bytes))) = both(
        name_field(table),
        both(
            positive_field(id),
            both(
                ContentType::read(alloc, content_type),
                MediaBytes::read(alloc, bytes),
            ),
        ),
    )?;
    Ok(Piece::Media {
        table,
        id,
        content_type,
        bytes,
    })
}

/// `media-drop,TABLE,ID`
fn read_media_drop(fields: &[&str]) -> Result<Piece, ReadFault>
    ensures { ReadsTo (λ c. (piece_word c ≡ codes "media-drop")
        × AllHold forms.item_form (map (λ f. f.now) fields.now) (piece_values c))
        (IsLeast (IsAgainstSome forms.item_form (map (λ f. f.now) fields.now))) result }
{
    let [table, id] = fields else {
        return Err(ReadFault::refused(Reason::NO_SUCH_RECORD));
    };
    let (table, id) = both(name_field(table), positive_field(id))?;
    Ok(Piece::MediaDrop { table, id })
}

/// `map,MAPPING,BASEID,RELID`
fn read_map(fields: &[&str]) -> Result<Piece, ReadFault>
    ensures { ReadsTo (λ c. (piece_word c ≡ codes "map")
        × AllHold forms.map_form (map (λ f. f.now) fields.now) (piece_values c))
        (IsLeast (IsAgainstSome forms.map_form (map (λ f. f.now) fields.now))) result }
{
    let [mapping, base_id, related_id] = fields else {
        return Err(ReadFault::refused(Reason::NO_SUCH_RECORD));
    };
    let (mapping, (base_id, related_id)) = both(
        name_field(mapping),
        both(positive_field(base_id), positive_field(related_id)),
    )?;
    Ok(Piece::Map {
        mapping,
        base_id,
        related_id,
    })
}

/// `map-drop,MAPPING,BASEID,RELID`
fn read_map_drop(fields: &[&str]) -> Result<Piece, ReadFault>
    ensures { ReadsTo (λ c. (piece_word c ≡ codes "map-drop")
        × AllHold forms.map_form (map (λ f. f.now) fields.now) (piece_values c))
        (IsLeast (IsAgainstSome forms.map_form (map (λ f. f.now) fields.now))) result }
{
    let [mapping, base_id, related_id] = fields else {
        return Err(ReadFault::refused(Reason::NO_SUCH_RECORD));
    };
    let (mapping, (base_id, related_id)) = both(
        name_field(mapping),
        both(positive_field(base_id), positive_field(related_id)),
    )?;
    Ok(Piece::MapDrop {
        mapping,
        base_id,
        related_id,
    })
}

/// `MW,MH,TW,TH,PX,PY`
fn matrix_fields(fields: &[&str]) -> Result<Matrix, ReadFault>
    ensures { ReadsTo
        (λ m. AllHold (forms.grid_form current) (map (λ f. f.now) fields.now) (matrix_values m))
        (IsLeast (IsAgainstSome (forms.grid_form current) (map (λ f. f.now) fields.now))) result }
{
    let [mw, mh, tw, th, px, py] = fields else {
        return Err(ReadFault::refused(Reason::NO_SUCH_RECORD));
    };
    let (mw, (mh, (tw, (th, (px, py))))) = both(
        count_field(mw),
        both(
            count_field(mh),
            both(
                count_field(tw),
                both(
                    count_field(th),
                    both(positive_field(px), positive_field(py)),
                ),
            ),
        ),
    )?;
    Ok(Matrix {
        mw,
        mh,
        tw,
        th,
        px,
        py,
    })
}

/// `matrix,TABLE,Z,MW,MH,TW,TH,PX,PY`
fn read_matrix(fields: &[&str]) -> Result<Piece, ReadFault>
    ensures { ReadsTo (λ c. (piece_word c ≡ codes "matrix")
        × AllHold (forms.matrix_form current) (map (λ f. f.now) fields.now) (piece_values c))
        (IsLeast (IsAgainstSome (forms.matrix_form current) (map (λ f. f.now) fields.now))) result }
{
    let [table, zoom, matrix @ ..] = fields else {
        return Err(ReadFault::refused(Reason::NO_SUCH_RECORD));
    };
    let (table, (zoom, matrix)) = both(
        name_field(table),
        both(zoom_field(zoom), matrix_fields(matrix)),
    )?;
    Ok(Piece::Matrix {
        table,
        zoom,
        matrix,
    })
}

/// The piece that a record of one of the nine kinds spells.
fn piece_of(alloc: Global, fields: &[&str]) -> Result<Piece, ReadFault>
    ensures { ReadsTo (SpellsPiece current (map (λ f. f.now) fields.now))
        (IsLeast (HoldsAgainstPiece current (map (λ f. f.now) fields.now))) result }
{
    let [word, rest @ ..] = fields else {
        return Err(ReadFault::refused(Reason::NO_SUCH_RECORD));
    };
    match *word {
        "tile" => read_tile(alloc, rest),
        "tile-drop" => read_tile_drop(rest),
        "row" => read_row(alloc, rest),
        "row-drop" => read_row_drop(rest),
        "media" => read_media(alloc, rest),
        "media-drop" => read_media_drop(rest),
        "map" => read_map(rest),
        "map-drop" => read_map_drop(rest),
        "matrix" => read_matrix(rest),
        _ => Err(ReadFault::refused(Reason::NO_SUCH_RECORD)),
    }
}

/// The piece that a record's fields spell. Else the least number that is against them: 10 where they are the record
/// of no piece, 11 where a number or length is outside its limits, 12 where a name is none. Memory is answered only
/// for want of memory.
pub fn read_piece(alloc: Global, fields: &[&str]) -> Result<Piece, ReadFault>
    ensures reads { ReadsTo (SpellsPiece current (map (λ f. f.now) fields.now))
        (IsLeast (HoldsAgainstPiece current (map (λ f. f.now) fields.now))) result }
    ensures within { IfOk result (IsPieceWithin current) }
{
    piece_of(alloc, fields)
}
