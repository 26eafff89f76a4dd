//! Tiles and media whose bytes are those of a staged piece: they name its blob, and nothing is stored, read or hashed.

ghost use Rattle.mm_definitions.specs.declared.commands.Command.TheVariants as commands;
ghost use Rattle.mm_definitions.specs.declared.commands.Piece.TheVariants as pieces;
ghost use Rattle.mm_content.specs.Staged.{HasBytes};
ghost use Rattle.mm_layout.specs.Handed.{LendsBytes};

use crate::kinds::plain_refusal;
use crate::media_items::give_medium;
use crate::tiles::{give_tile, tile_refusal};
use mm_definitions::answers::{Fault, Outcome};
use mm_definitions::commands::PlainKind;
use mm_definitions::names::Name;
use mm_definitions::places::TilePlace;
use mm_layout::set_last_change;
use sqlite::{Alter, Transaction};

/// Does what `put_tile` does with the bytes of a blob that stands, that of a staged piece: the tile names the blob.
pub fn put_tile_of_piece<S: Alter>(
    tx: &mut Transaction<'_, S>,
    table: &Name,
    place: TilePlace,
    blob: i64,
    last_change: &str,
) -> Result<Outcome, Fault>
    ensures { LendsBytes S.Store tx.old tx.new (HasBytes blob)
        (λ bytes. commands.Edit (pieces.Tile table.now place bytes)) last_change.now result }
{
    let table = table.as_str();
    if let Some(number) = tile_refusal(tx, table, &place)? {
        return Ok(Outcome::refused(number));
    }
    give_tile(tx, table, &place, blob)?;
    set_last_change(tx, table, last_change)?;
    Ok(Outcome::Done)
}

/// Does what `put_media` does with the bytes of a blob that stands, that of a staged piece: the medium names the blob.
pub fn put_media_of_piece<S: Alter>(
    tx: &mut Transaction<'_, S>,
    table: &Name,
    id: i64,
    content_type: &str,
    blob: i64,
    last_change: &str,
) -> Result<Outcome, Fault>
    ensures { LendsBytes S.Store tx.old tx.new (HasBytes blob)
        (λ bytes. commands.Edit (pieces.Media table.now id content_type.now bytes))
        last_change.now result }
{
    let table = table.as_str();
    if let Some(number) = plain_refusal(tx, table, PlainKind::Media)? {
        return Ok(Outcome::refused(number));
    }
    give_medium(tx, table, id, content_type, blob)?;
    set_last_change(tx, table, last_change)?;
    Ok(Outcome::Done)
}
