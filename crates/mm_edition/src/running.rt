//! One staged piece taken as its command.

ghost use Rattle.std.specs.Prelude.{◌≡◌, ℕ, List, [], true};
ghost use Rattle.mm_definitions.specs.PieceGroups.{changes_tile, changes_item, changes_mapping, puts_matrix};
ghost use Rattle.mm_definitions.specs.declared.commands.Command.TheVariants as commands;
ghost use Rattle.mm_staging.specs.Outlines.{with_bytes, HoldsBytes};
ghost use Rattle.mm_layout.specs.Handed.{Lends, LendsBytes, LendsUnstamped};
ghost use Rattle.mm_edition.specs.Turns.{TakesTurn};

use mm_content::{drop_media, drop_row, drop_tile, put_media_of_piece, put_row, put_tile_of_piece};
use mm_definitions::answers::{Fault, Outcome};
use mm_definitions::names::Name;
use mm_definitions::refusals::Reason;
use mm_meta::add_matrix;
use mm_relate::{add_map, drop_map};
use mm_staging::{Outline, outline_of};
use sqlite::{Alter, Transaction};

/// What became of the piece of a number.
pub(crate) enum Turn {
    Done,
    /// The edition has no piece of the number.
    End,
    Refused(Reason),
}

/// Puts or removes the tile of a piece. One that is put names the piece's blob. `last_change` is the stamp of the
/// moment.
fn run_tile<S: Alter>(
    tx: &mut Transaction<'_, S>,
    outline: &Outline,
    last_change: &str,
) -> Result<Outcome, Fault>
    requires { changes_tile (with_bytes [] outline.now) ≡ true }
    ensures { LendsBytes S.Store tx.old tx.new (HoldsBytes outline.now)
        (λ bytes. commands.Edit (with_bytes bytes outline.now)) last_change.now result }
{
    match outline {
        Outline::Tile { table, place, blob } => put_tile_of_piece(
            tx,
            table,
            *place,
            *blob,
            last_change,
        ),
        Outline::TileDrop { table, place } => drop_tile(tx, table, *place, last_change),
        _ => unreachable!(),
    }
}

/// Puts or removes the attribute row or medium of a piece. A medium that is put names the piece's blob. `last_change`
/// is the stamp of the moment.
fn run_item<S: Alter>(
    tx: &mut Transaction<'_, S>,
    outline: &Outline,
    last_change: &str,
) -> Result<Outcome, Fault>
    requires { changes_item (with_bytes [] outline.now) ≡ true }
    ensures { LendsBytes S.Store tx.old tx.new (HoldsBytes outline.now)
        (λ bytes. commands.Edit (with_bytes bytes outline.now)) last_change.now result }
{
    match outline {
        Outline::Row {
            table,
            id,
            title,
            note,
            amount,
        } => put_row(
            tx,
            table,
            id.get(),
            title.as_str(),
            note.as_str(),
            amount.get(),
            last_change,
        ),
        Outline::RowDrop { table, id } => drop_row(tx, table, id.get(), last_change),
        Outline::Media {
            table,
            id,
            content_type,
            blob,
        } => put_media_of_piece(
            tx,
            table,
            id.get(),
            content_type.as_str(),
            *blob,
            last_change,
        ),
        Outline::MediaDrop { table, id } => drop_media(tx, table, id.get(), last_change),
        _ => unreachable!(),
    }
}

/// Puts or removes the mapping row of a piece.
fn run_mapping<S: Alter>(tx: &mut Transaction<'_, S>, outline: &Outline) -> Result<Outcome, Fault>
    requires { changes_mapping (with_bytes [] outline.now) ≡ true }
    ensures { (bytes : List ℕ) → LendsUnstamped S.Store tx.old tx.new
        (commands.Edit (with_bytes bytes outline.now)) result }
{
    match outline {
        Outline::Map {
            mapping,
            base_id,
            related_id,
        } => add_map(tx, mapping, base_id.get(), related_id.get()),
        Outline::MapDrop {
            mapping,
            base_id,
            related_id,
        } => drop_map(tx, mapping, base_id.get(), related_id.get()),
        _ => unreachable!(),
    }
}

/// Puts the matrix of a piece. `last_change` is the stamp of the moment.
fn run_matrix<S: Alter>(
    tx: &mut Transaction<'_, S>,
    outline: &Outline,
    last_change: &str,
) -> Result<Outcome, Fault>
    requires { puts_matrix (with_bytes [] outline.now) ≡ true }
    ensures { (bytes : List ℕ) → Lends S.Store tx.old tx.new
        (commands.Edit (with_bytes bytes outline.now)) last_change.now result }
{
    match outline {
        Outline::Matrix {
            table,
            zoom,
            matrix,
        } => add_matrix(tx, table, zoom.get(), matrix, last_change),
        _ => unreachable!(),
    }
}

/// Does what a piece says within the transaction. `last_change` is the stamp of the moment.
fn run_piece<S: Alter>(
    tx: &mut Transaction<'_, S>,
    outline: &Outline,
    last_change: &str,
) -> Result<Outcome, Fault>
    ensures { LendsBytes S.Store tx.old tx.new (HoldsBytes outline.now)
        (λ bytes. commands.Edit (with_bytes bytes outline.now)) last_change.now result }
{
    match outline {
        Outline::Tile { .. } | Outline::TileDrop { .. } => run_tile(tx, outline, last_change),
        Outline::Row { .. }
        | Outline::RowDrop { .. }
        | Outline::Media { .. }
        | Outline::MediaDrop { .. } => run_item(tx, outline, last_change),
        Outline::Map { .. } | Outline::MapDrop { .. } => run_mapping(tx, outline),
        Outline::Matrix { .. } => run_matrix(tx, outline, last_change),
    }
}

/// Does what the piece of a number says, if the edition has one. `last_change` is the stamp of the moment.
pub(crate) fn try_piece<S: Alter>(
    tx: &mut Transaction<'_, S>,
    edition: &Name,
    number: u32,
    last_change: &str,
) -> Result<Turn, Fault>
    ensures { TakesTurn S.Store tx.old tx.new edition.now number last_change.now result }
{
    let Some(outline) = outline_of(tx, edition, number)? else {
        return Ok(Turn::End);
    };
    match run_piece(tx, &outline, last_change)? {
        Outcome::Done => Ok(Turn::Done),
        Outcome::Refused(why) => Ok(Turn::Refused(why.reason())),
    }
}
