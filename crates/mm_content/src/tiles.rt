//! Tiles.

ghost use Rattle.std.specs.Prelude.{◌≡◌, pos, int_le, ◌||◌, None, option_map};
ghost use Rattle.std.specs.FinMap.{get, contains_key, insert, remove};
ghost use Rattle.mm_definitions.specs.Conditions.{piece_reasons, tile_reasons};
ghost use Rattle.mm_definitions.specs.Keys.{level};
ghost use Rattle.mm_definitions.specs.Package.{Grid};
ghost use Rattle.mm_definitions.specs.declared.commands.Command.TheVariants as commands;
ghost use Rattle.mm_definitions.specs.declared.commands.Piece.TheVariants as pieces;
ghost use Rattle.mm_blobs.specs.Entries.{with_tile, without_tile, tile_names};
ghost use Rattle.mm_definitions.specs.Places.{tile_at};
ghost use Rattle.mm_store.specs.Handed.{Tells, Changes, FindsRefusal};
ghost use Rattle.mm_layout.specs.Handed.{Lends, LeavesView};
ghost use Rattle.mm_blobs.specs.Handed.{Names, Renames, Unnames, Gives};

use crate::kinds::pyramid_refusal;
use mm_blobs::blobs::{keep, release_freed};
use mm_blobs::entries::blob_of_tile;
use mm_definitions::answers::{Fault, Outcome};
use mm_definitions::bounded::Zoom;
use mm_definitions::names::Name;
use mm_definitions::places::TilePlace;
use mm_definitions::refusals::Reason;
use mm_layout::set_last_change;
use mm_store::statements::{exists, first_pair, run};
use sqlite::{Alter, Transaction, params};

/// The width and the height, in tiles, of the matrix at this zoom of a table.
fn sides_at<S: Alter>(
    tx: &mut Transaction<'_, S>,
    table: &str,
    zoom: Zoom,
) -> Result<Option<(i64, i64)>, Fault>
    ensures told { Tells S.Store tx.old tx.new (λ p. option_map
        (λ (g : Grid). (g.matrix_width, g.matrix_height))
        (get p.matrices (level table.now (pos zoom)))) result }
    ensures leaves { LeavesView S.Store tx.old tx.new result }
{
    first_pair(
        tx,
        "SELECT matrix_width, matrix_height FROM gpkg_tile_matrix WHERE table_name = ?1 AND zoom_level = ?2 LIMIT 1",
        params![table, u32::from(zoom.get())],
    )
}

/// Whether a tile stands at this place.
fn has_tile<S: Alter>(
    tx: &mut Transaction<'_, S>,
    table: &str,
    place: TilePlace,
) -> Result<bool, Fault>
    ensures { Tells S.Store tx.old tx.new (λ p. contains_key p.tiles (tile_at table.now place))
        result }
{
    exists(
        tx,
        "SELECT 1 FROM mm_tiles WHERE table_name = ?1 AND zoom_level = ?2 AND tile_column = ?3 AND tile_row = ?4 LIMIT 1",
        params![
            table,
            u32::from(place.zoom.get()),
            place.column.get(),
            place.row.get()
        ],
    )
}

/// Puts a tile that names a blob, at a place that is free.
fn insert_tile<S: Alter>(
    tx: &mut Transaction<'_, S>,
    table: &str,
    place: TilePlace,
    blob: i64,
) -> Result<(), Fault>
    ensures { Names S.Store tx.old tx.new blob (tile_names (tile_at table.now place)) None
        (with_tile (tile_at table.now place) blob) result }
{
    run(
        tx,
        "INSERT INTO mm_tiles (table_name, zoom_level, tile_column, tile_row, blob) VALUES (?1, ?2, ?3, ?4, ?5)",
        params![
            table,
            u32::from(place.zoom.get()),
            place.column.get(),
            place.row.get(),
            blob
        ],
    )
}

/// Lets a tile that stands name another blob. The one that it named may stand unnamed then.
fn update_tile<S: Alter>(
    tx: &mut Transaction<'_, S>,
    table: &str,
    place: TilePlace,
    blob: i64,
) -> Result<(), Fault>
    ensures { Renames S.Store tx.old tx.new blob (tile_names (tile_at table.now place))
        (with_tile (tile_at table.now place) blob) result }
{
    run(
        tx,
        "UPDATE mm_tiles SET blob = ?5 WHERE table_name = ?1 AND zoom_level = ?2 AND tile_column = ?3 AND tile_row = ?4",
        params![
            table,
            u32::from(place.zoom.get()),
            place.column.get(),
            place.row.get(),
            blob
        ],
    )
}

/// Lets the tile at a place name a blob: the one that stands, which names `stands`, or a new one.
fn name_tile<S: Alter>(
    tx: &mut Transaction<'_, S>,
    table: &str,
    place: TilePlace,
    blob: i64,
    stands: Option<i64>,
) -> Result<(), Fault>
    ensures { Names S.Store tx.old tx.new blob (tile_names (tile_at table.now place)) stands
        (with_tile (tile_at table.now place) blob) result }
{
    match stands {
        Some(_was) => update_tile(tx, table, place, blob),
        None => insert_tile(tx, table, place, blob),
    }
}

/// Puts a tile that names a blob, in place of the one that stands or as a new one. The blob goes that the tile named before,
/// if nothing else names it.
pub(crate) fn give_tile<S: Alter>(
    tx: &mut Transaction<'_, S>,
    table: &str,
    place: &TilePlace,
    blob: i64,
) -> Result<(), Fault>
    ensures { Gives S.Store tx.old tx.new blob
        (λ bytes p. record p { tiles = insert p.tiles (tile_at table.now place.now) bytes }) result }
{
    let stands = blob_of_tile(tx, table, *place)?;
    name_tile(tx, table, *place, blob, stands)?;
    release_freed(tx, stands)
}

/// Puts a tile, in place of the one that stands or as a new one: its bytes are kept, and it names their blob. No bytes are a
/// fault, 91, since no command has a tile without them.
fn write_tile<S: Alter>(
    tx: &mut Transaction<'_, S>,
    table: &str,
    place: &TilePlace,
    bytes: &[u8],
) -> Result<(), Fault>
    ensures { Changes S.Store tx.old tx.new
        (λ p. record p { tiles = insert p.tiles (tile_at table.now place.now) bytes.now }) result }
{
    if bytes.is_empty() {
        return Err(Fault::STORE);
    }
    let blob = keep(tx, bytes)?;
    give_tile(tx, table, place, blob)
}

/// Removes the row of a tile. The blob that it named may stand unnamed then.
fn delete_tile_row<S: Alter>(
    tx: &mut Transaction<'_, S>,
    table: &str,
    place: TilePlace,
) -> Result<(), Fault>
    ensures { Unnames S.Store tx.old tx.new (tile_names (tile_at table.now place))
        (without_tile (tile_at table.now place)) result }
{
    run(
        tx,
        "DELETE FROM mm_tiles WHERE table_name = ?1 AND zoom_level = ?2 AND tile_column = ?3 AND tile_row = ?4",
        params![
            table,
            u32::from(place.zoom.get()),
            place.column.get(),
            place.row.get()
        ],
    )
}

/// Removes the tile at a place, and its blob if nothing else names it.
fn delete_tile<S: Alter>(
    tx: &mut Transaction<'_, S>,
    table: &str,
    place: &TilePlace,
) -> Result<(), Fault>
    ensures { Changes S.Store tx.old tx.new
        (λ p. record p { tiles = remove p.tiles (tile_at table.now place.now) }) result }
{
    let stands = blob_of_tile(tx, table, *place)?;
    delete_tile_row(tx, table, *place)?;
    release_freed(tx, stands)
}

/// Whether a place is outside a matrix of this width and height.
fn is_outside(width: i64, height: i64, place: TilePlace) -> bool
    ensures { result ≡ (int_le width (pos place.column) || int_le height (pos place.row)) }
{
    width <= i64::from(place.column.get()) || height <= i64::from(place.row.get())
}

/// Why a tile is not put, if it is not.
pub(crate) fn tile_refusal<S: Alter>(
    tx: &mut Transaction<'_, S>,
    table: &str,
    place: &TilePlace,
) -> Result<Option<Reason>, Fault>
    ensures told { FindsRefusal S.Store tx.old tx.new (tile_reasons table.now place.now) result }
    ensures leaves { LeavesView S.Store tx.old tx.new result }
{
    if let Some(number) = pyramid_refusal(tx, table)? {
        return Ok(Some(number));
    }
    let Some((width, height)) = sides_at(tx, table, place.zoom)? else {
        return Ok(Some(Reason::NO_MATRIX));
    };
    if is_outside(width, height, *place) {
        Ok(Some(Reason::OUTSIDE_MATRIX))
    } else {
        Ok(None)
    }
}

/// The command `tile`: puts the bytes of a tile of a pyramid, in place of those that stand at its zoom, column and row
/// if there are any. `last_change` is the stamp of the moment, which becomes the last_change of the pyramid. Refused 25
/// where no table has the name, 26 where it is no pyramid, 33 where the zoom has no matrix, 34 where the column or the
/// row is outside the matrix. (Tile Matrix; Tile Pyramid User Data Tables.)
pub fn put_tile<S: Alter>(
    tx: &mut Transaction<'_, S>,
    table: &Name,
    place: TilePlace,
    bytes: &[u8],
    last_change: &str,
) -> Result<Outcome, Fault>
    ensures { Lends S.Store tx.old tx.new (commands.Edit (pieces.Tile table.now place bytes.now))
        last_change.now result }
{
    let table = table.as_str();
    if let Some(number) = tile_refusal(tx, table, &place)? {
        return Ok(Outcome::refused(number));
    }
    write_tile(tx, table, &place, bytes)?;
    set_last_change(tx, table, last_change)?;
    Ok(Outcome::Done)
}

/// Why a tile is not removed, if it is not.
fn tile_drop_refusal<S: Alter>(
    tx: &mut Transaction<'_, S>,
    table: &str,
    place: &TilePlace,
) -> Result<Option<Reason>, Fault>
    ensures { FindsRefusal S.Store tx.old tx.new
        (λ p. piece_reasons p (pieces.TileDrop table.now place.now))
        result }
{
    if let Some(number) = pyramid_refusal(tx, table)? {
        return Ok(Some(number));
    }
    if has_tile(tx, table, *place)? {
        Ok(None)
    } else {
        Ok(Some(Reason::NO_TILE))
    }
}

/// The command `tile-drop`: removes a tile of a pyramid. `last_change` is the stamp of the moment, which becomes the
/// last_change of the pyramid. Refused 25 where no table has the name, 26 where it is no pyramid, 35 where no tile
/// stands at the zoom, the column and the row. (Tile Pyramid User Data Tables.)
pub fn drop_tile<S: Alter>(
    tx: &mut Transaction<'_, S>,
    table: &Name,
    place: TilePlace,
    last_change: &str,
) -> Result<Outcome, Fault>
    ensures { Lends S.Store tx.old tx.new (commands.Edit (pieces.TileDrop table.now place))
        last_change.now result }
{
    let table = table.as_str();
    if let Some(number) = tile_drop_refusal(tx, table, &place)? {
        return Ok(Outcome::refused(number));
    }
    delete_tile(tx, table, &place)?;
    set_last_change(tx, table, last_change)?;
    Ok(Outcome::Done)
}
