//! The place of a tile.

use crate::bounded::{Place, Zoom};

/// The place of a tile in a pyramid: its zoom, and its column and row from the upper left. (Tile Pyramid User Data
/// Tables.)
#[derive(Clone, Copy, Debug, PartialEq, Eq)]
pub struct TilePlace {
    pub zoom: Zoom,
    pub column: Place,
    pub row: Place,
}

impl TilePlace {
    ghost use Rattle.std.specs.Prelude.{◌≡◌, ◌↔◌, pos, IsSome, IfSome};
    ghost use Rattle.mm_definitions.specs.Bounds.{IsZoom, IsTilePlace};

    /// The place of these numbers, or None where one is outside its limits.
    pub fn new(zoom: i64, column: i64, row: i64) -> Option<TilePlace>
        ensures within { IsSome result ↔ (IsZoom zoom × IsTilePlace column × IsTilePlace row) }
        ensures value { IfSome result
            (λ place. (pos place.zoom ≡ zoom) × (pos place.column ≡ column) × (pos place.row ≡ row)) }
    {
        match (Zoom::new(zoom), Place::new(column), Place::new(row)) {
            (Some(zoom), Some(column), Some(row)) => Some(TilePlace { zoom, column, row }),
            _ => None,
        }
    }
}
