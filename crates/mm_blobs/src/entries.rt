//! Which blob an entry names.

ghost use Rattle.std.specs.Prelude.{◌≡◌, option_map};
ghost use Rattle.std.specs.FinMap.{get};
ghost use Rattle.mm_definitions.specs.Keys.{item};
ghost use Rattle.mm_definitions.specs.Places.{tile_at};
ghost use Rattle.mm_store.specs.Blobs.{Told};
ghost use Rattle.mm_store.specs.Kept.{tile_id, tile_with};
ghost use Rattle.mm_store.specs.Rows.{MediumRow};
ghost use Rattle.mm_blobs.specs.Handed.{Finds};

use crate::blobs::first_number;
use mm_definitions::answers::Fault;
use mm_definitions::places::TilePlace;
use sqlite::{Alter, Transaction, params};

/// The blob that the tile at a place names, if one stands.
pub fn blob_of_tile<S: Alter>(
    tx: &mut Transaction<'_, S>,
    table: &str,
    place: TilePlace,
) -> Result<Option<i64>, Fault>
    ensures { Finds S.Store tx.old tx.new (λ y it. (get y.kept.tiles (tile_at table.now place) ≡ it)
        × Told tile_id tile_with y.kept.shelf it (get y.content.tiles (tile_at table.now place)))
        result }
{
    first_number(
        tx,
        "SELECT blob FROM mm_tiles WHERE table_name = ?1 AND zoom_level = ?2 AND tile_column = ?3 AND tile_row = ?4 LIMIT 1",
        params![
            table,
            u32::from(place.zoom.get()),
            place.column.get(),
            place.row.get()
        ],
    )
}

/// The blob that the medium of an id names, if one stands.
pub fn blob_of_medium<S: Alter>(
    tx: &mut Transaction<'_, S>,
    table: &str,
    id: i64,
) -> Result<Option<i64>, Fault>
    ensures { Finds S.Store tx.old tx.new (λ y it. option_map (λ (m : MediumRow). m.blob)
        (get y.kept.media (item table.now id)) ≡ it) result }
{
    first_number(
        tx,
        "SELECT blob FROM mm_media WHERE table_name = ?1 AND id = ?2 LIMIT 1",
        params![table, id],
    )
}
