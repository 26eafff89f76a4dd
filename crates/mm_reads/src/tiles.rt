//! The bytes of a tile.

ghost use Rattle.std.specs.Prelude.{◌≡◌, false};
ghost use Rattle.std.specs.FinMap.{get};
ghost use Rattle.mm_definitions.specs.Places.{tile_at};
ghost use Rattle.mm_reads.specs.Told.{TellsBytes};
ghost use Rattle.mm_store.specs.Handed.{Looks};
ghost use Rattle.mm_store.specs.Seen.{ReadsOn};

use mm_blobs::blobs::bytes_of;
use mm_blobs::entries::blob_of_tile;
use mm_definitions::answers::Fault;
use mm_definitions::names::Name;
use mm_definitions::places::TilePlace;
use sqlite::{Alter, Connection, Transaction};

/// The bytes of the tile at a place, inside a transaction.
fn bytes_at<S: Alter>(
    tx: &mut Transaction<'_, S>,
    table: &str,
    place: TilePlace,
) -> Result<Option<Vec<u8>>, Fault>
    ensures { Looks S.Store tx.old tx.new
        (λ p found. TellsBytes (get p.tiles (tile_at table.now place)) found) result }
{
    match blob_of_tile(tx, table, place)? {
        Some(blob) => Ok(Some(bytes_of(tx, blob)?)),
        None => Ok(None),
    }
}

/// The bytes of the tile of a pyramid at a place, or None where none stands there. (Tile Pyramid User Data
/// Tables.) A fault is 90 where memory was refused, and else 91; the connection is then as settled as before.
pub fn tile<S: Alter>(
    conn: &mut Connection<S>,
    table: &Name,
    place: TilePlace,
) -> Result<Option<Vec<u8>>, Fault>
    requires { conn.old.in_transaction ≡ false }
    ensures mode { conn.new.in_transaction ≡ false }
    ensures read { ReadsOn S.Store conn.old conn.new
        (λ p found. TellsBytes (get p.tiles (tile_at table.now place)) found) result }
{
    let mut tx = conn.transaction();
    let found = bytes_at(&mut tx, table.as_str(), place);
    tx.rollback();
    found
}
