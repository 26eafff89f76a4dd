//! What a kept row spells.

ghost use Rattle.std.specs.Prelude.{◌≡◌, ℕ, List, IfSome, Some, string_bytes, unsigned_abs};
ghost use Rattle.mm_definitions.specs.Pieces.{piece_by_kind};
ghost use Rattle.mm_staging.specs.Kept.{kept_with};
ghost use Rattle.mm_staging.specs.Outlines.{with_bytes, IsBlobOf};
ghost use Rattle.mm_staging.specs.declared.outlines.Outline.TheVariants as outlines;

use crate::kept::{Kept, Numbers};
use crate::outlines::Outline;
use mm_definitions::bounded::{Amount, Id, MatrixSide, PixelSize, Place, TileSide, Zoom};
use mm_definitions::commands::Matrix;
use mm_definitions::content_types::ContentType;
use mm_definitions::names::Name;
use mm_definitions::places::TilePlace;
use mm_definitions::texts::Text;

/// The place of a tile, where the first three numbers are one.
fn place_in(numbers: Numbers) -> Option<TilePlace>
    ensures { IfSome result (λ place. place ≡ record {
      zoom = unsigned_abs numbers.k1;
      column = unsigned_abs numbers.k2;
      row = unsigned_abs numbers.k3;
    }) }
{
    Some(TilePlace {
        zoom: Zoom::new(numbers.k1)?,
        column: Place::new(numbers.k2)?,
        row: Place::new(numbers.k3)?,
    })
}

/// The attribute row that a row of the kind `row` spells.
fn row_in(table: Name, kept: Kept) -> Option<Outline>
    ensures { IfSome result (λ outline. outline ≡ outlines.Row table kept.numbers.k1
        (string_bytes kept.t1) (string_bytes kept.t2) kept.numbers.k2) }
{
    let id = Id::new(kept.numbers.k1)?;
    let amount = Amount::new(kept.numbers.k2)?;
    let title = Text::new(kept.t1)?;
    let note = Text::new(kept.t2)?;
    Some(Outline::Row {
        table,
        id,
        title,
        note,
        amount,
    })
}

/// The media item that a row of the kind `media` spells, whose bytes are those of this blob.
fn media_in(table: Name, blob: i64, kept: Kept) -> Option<Outline>
    ensures { IfSome result (λ outline. outline ≡ outlines.Media table kept.numbers.k1
        (string_bytes kept.t1) blob) }
{
    let id = Id::new(kept.numbers.k1)?;
    let content_type = ContentType::new(kept.t1)?;
    Some(Outline::Media {
        table,
        id,
        content_type,
        blob,
    })
}

/// The sides of a matrix in tiles, and those of its tiles in pixels, where four numbers are such.
fn sides_in(numbers: Numbers) -> Option<(MatrixSide, MatrixSide, TileSide, TileSide)>
    ensures { IfSome result (λ sides. (unsigned_abs numbers.k2 ≡ sides.0)
        × (unsigned_abs numbers.k3 ≡ sides.1) × (unsigned_abs numbers.k4 ≡ sides.2)
        × (unsigned_abs numbers.k5 ≡ sides.3)) }
{
    Some((
        MatrixSide::new(numbers.k2)?,
        MatrixSide::new(numbers.k3)?,
        TileSide::new(numbers.k4)?,
        TileSide::new(numbers.k5)?,
    ))
}

/// The matrix that a row of the kind `matrix` spells.
fn matrix_in(table: Name, kept: Kept) -> Option<Outline>
    ensures { IfSome result (λ outline. outline ≡ outlines.Matrix table (unsigned_abs kept.numbers.k1)
        (record {
          mw = unsigned_abs kept.numbers.k2;
          mh = unsigned_abs kept.numbers.k3;
          tw = unsigned_abs
              kept.numbers.k4;
          th = unsigned_abs kept.numbers.k5;
          px = kept.numbers.k6;
          py = kept.numbers.k7;
        })) }
{
    let zoom = Zoom::new(kept.numbers.k1)?;
    let (mw, mh, tw, th) = sides_in(kept.numbers)?;
    let px = PixelSize::new(kept.numbers.k6)?;
    let py = PixelSize::new(kept.numbers.k7)?;
    Some(Outline::Matrix {
        table,
        zoom,
        matrix: Matrix {
            mw,
            mh,
            tw,
            th,
            px,
            py,
        },
    })
}

/// What a row spells by its kind, whatever its bytes are. A tile and a medium have a blob.
pub(crate) fn spelled(kept: Kept) -> Option<Outline>
    ensures piece { IfSome result (λ outline. (bytes : List ℕ)
        → piece_by_kind (kept_with bytes kept) ≡ Some (with_bytes bytes outline)) }
    ensures blob { IfSome result (IsBlobOf kept.blob) }
{
    let name = match Name::read(kept.name.as_str()) {
        Some(name) => name,
        None => return None,
    };
    match kept.kind.as_str() {
        "tile" => Some(Outline::Tile {
            table: name,
            place: place_in(kept.numbers)?,
            blob: kept.blob?,
        }),
        "tile-drop" => Some(Outline::TileDrop {
            table: name,
            place: place_in(kept.numbers)?,
        }),
        "row" => row_in(name, kept),
        "row-drop" => Some(Outline::RowDrop {
            table: name,
            id: Id::new(kept.numbers.k1)?,
        }),
        "media" => media_in(name, kept.blob?, kept),
        "media-drop" => Some(Outline::MediaDrop {
            table: name,
            id: Id::new(kept.numbers.k1)?,
        }),
        "map" => Some(Outline::Map {
            mapping: name,
            base_id: Id::new(kept.numbers.k1)?,
            related_id: Id::new(kept.numbers.k2)?,
        }),
        "map-drop" => Some(Outline::MapDrop {
            mapping: name,
            base_id: Id::new(kept.numbers.k1)?,
            related_id: Id::new(kept.numbers.k2)?,
        }),
        "matrix" => matrix_in(name, kept),
        _ => None,
    }
}
