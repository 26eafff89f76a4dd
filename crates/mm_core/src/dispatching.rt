//! Which function does which command.

ghost use Rattle.std.specs.Prelude.{◌≡◌, false, true};
ghost use Rattle.mm_definitions.specs.CommandGroups.{is_layout_change, lays_out_pyramid, is_relation_change, prepares_edition, rehearses};
ghost use Rattle.mm_definitions.specs.PieceGroups.{changes_tile, changes_item, changes_mapping};
ghost use Rattle.mm_definitions.specs.declared.commands.Command.TheVariants as commands;
ghost use Rattle.mm_store.specs.Handed.{Applies};
ghost use Rattle.mm_layout.specs.Handed.{Lends};
ghost use Rattle.mm_core.specs.Handed.{TriesCommand};

use mm_content::{drop_media, drop_row, drop_tile, put_media, put_row, put_tile};
use mm_definitions::answers::{Fault, Outcome};
use mm_definitions::commands::{Command, Piece};
use mm_definitions::extents::Bounds;
use mm_edition::{discard, open_edition, publish, stage};
use mm_meta::{add_matrix, add_pyramid, add_srs, add_table, drop_table};
use mm_relate::{add_map, add_relation, drop_map, drop_relation};
use sqlite::{Alter, Transaction};

/// The commands that lay out reference systems and tables.
fn lay_out<S: Alter>(
    tx: &mut Transaction<'_, S>,
    command: &Command,
    last_change: &str,
) -> Result<Outcome, Fault>
    requires { is_layout_change command.now ≡ true }
    ensures { Lends S.Store tx.old tx.new command.now last_change.now result }
{
    match command {
        Command::Srs {
            id,
            name,
            organization,
            organization_id,
            definition,
            description,
        } => add_srs(
            tx,
            id.get(),
            name.as_str(),
            organization.as_str(),
            organization_id.get(),
            definition.as_str(),
            description.as_str(),
        ),
        Command::Table {
            table,
            kind,
            identifier,
        } => add_table(tx, table, *kind, identifier.as_str(), last_change),
        Command::Drop { table } => drop_table(tx, table),
        _ => unreachable!(),
    }
}

/// The command that lays out a pyramid.
fn lay_out_pyramid<S: Alter>(
    tx: &mut Transaction<'_, S>,
    command: &Command,
    last_change: &str,
) -> Result<Outcome, Fault>
    requires { lays_out_pyramid command.now ≡ true }
    ensures { Lends S.Store tx.old tx.new command.now last_change.now result }
{
    match command {
        Command::Pyramid {
            table,
            identifier,
            srs,
            min_x,
            min_y,
            max_x,
            max_y,
            step,
        } => add_pyramid(
            tx,
            table,
            identifier.as_str(),
            srs.get(),
            &Bounds {
                min_x: *min_x,
                min_y: *min_y,
                max_x: *max_x,
                max_y: *max_y,
            },
            *step,
            last_change,
        ),
        _ => unreachable!(),
    }
}

/// The pieces that put and remove tiles.
fn change_tile<S: Alter>(
    tx: &mut Transaction<'_, S>,
    piece: &Piece,
    last_change: &str,
) -> Result<Outcome, Fault>
    requires { changes_tile piece.now ≡ true }
    ensures { Lends S.Store tx.old tx.new (commands.Edit piece.now) last_change.now result }
{
    match piece {
        Piece::Tile {
            table,
            place,
            bytes,
        } => put_tile(tx, table, *place, bytes.as_slice(), last_change),
        Piece::TileDrop { table, place } => drop_tile(tx, table, *place, last_change),
        _ => unreachable!(),
    }
}

/// The pieces that put and remove attribute rows and media.
fn change_item<S: Alter>(
    tx: &mut Transaction<'_, S>,
    piece: &Piece,
    last_change: &str,
) -> Result<Outcome, Fault>
    requires { changes_item piece.now ≡ true }
    ensures { Lends S.Store tx.old tx.new (commands.Edit piece.now) last_change.now result }
{
    match piece {
        Piece::Row {
            table,
            id,
            title,
            note,
            amount,
        } => put_row(
            tx,
            table,
            id.get(),
            title.as_str(),
            note.as_str(),
            amount.get(),
            last_change,
        ),
        Piece::RowDrop { table, id } => drop_row(tx, table, id.get(), last_change),
        Piece::Media {
            table,
            id,
            content_type,
            bytes,
        } => put_media(
            tx,
            table,
            id.get(),
            content_type.as_str(),
            bytes.as_slice(),
            last_change,
        ),
        Piece::MediaDrop { table, id } => drop_media(tx, table, id.get(), last_change),
        _ => unreachable!(),
    }
}

/// The pieces that put and remove mapping rows.
fn change_mapping<S: Alter>(tx: &mut Transaction<'_, S>, piece: &Piece) -> Result<Outcome, Fault>
    requires { changes_mapping piece.now ≡ true }
    ensures { Applies S.Store tx.old tx.new (commands.Edit piece.now) result }
{
    match piece {
        Piece::Map {
            mapping,
            base_id,
            related_id,
        } => add_map(tx, mapping, base_id.get(), related_id.get()),
        Piece::MapDrop {
            mapping,
            base_id,
            related_id,
        } => drop_map(tx, mapping, base_id.get(), related_id.get()),
        _ => unreachable!(),
    }
}

/// What an edition may hold, done at once.
fn edit<S: Alter>(
    tx: &mut Transaction<'_, S>,
    piece: &Piece,
    last_change: &str,
) -> Result<Outcome, Fault>
    ensures { TriesCommand S.Store tx.old tx.new (commands.Edit piece.now) last_change.now result }
{
    match piece {
        Piece::Tile { .. } | Piece::TileDrop { .. } => change_tile(tx, piece, last_change),
        Piece::Row { .. } | Piece::RowDrop { .. } | Piece::Media { .. } | Piece::MediaDrop { .. } =>
            change_item(tx, piece, last_change),
        Piece::Map { .. } | Piece::MapDrop { .. } => change_mapping(tx, piece),
        Piece::Matrix {
            table,
            zoom,
            matrix,
        } => add_matrix(tx, table, zoom.get(), matrix, last_change),
    }
}

/// The commands that put and remove relations.
fn relate<S: Alter>(tx: &mut Transaction<'_, S>, command: &Command) -> Result<Outcome, Fault>
    requires { is_relation_change command.now ≡ true }
    ensures { Applies S.Store tx.old tx.new command.now result }
{
    match command {
        Command::Relation {
            mapping,
            base,
            related,
            name,
        } => add_relation(tx, mapping, base, related, *name),
        Command::RelationDrop { mapping } => drop_relation(tx, mapping),
        _ => unreachable!(),
    }
}

/// The commands that open, fill and discard editions.
fn prepare_edition<S: Alter>(
    tx: &mut Transaction<'_, S>,
    command: &Command,
) -> Result<Outcome, Fault>
    requires { prepares_edition command.now ≡ true }
    ensures { Applies S.Store tx.old tx.new command.now result }
{
    match command {
        Command::Edition { name } => open_edition(tx, name),
        Command::Discard { name } => discard(tx, name),
        Command::Stage {
            edition,
            number,
            piece,
        } => stage(tx, edition, *number, piece),
        _ => unreachable!(),
    }
}

/// Does what a command that is no rehearsal says within the transaction. `last_change` is the stamp of its moment.
pub(crate) fn run_command<S: Alter>(
    tx: &mut Transaction<'_, S>,
    command: &Command,
    last_change: &str,
) -> Result<Outcome, Fault>
    requires { rehearses command.now ≡ false }
    ensures { TriesCommand S.Store tx.old tx.new command.now last_change.now result }
{
    match command {
        Command::Srs { .. } | Command::Table { .. } | Command::Drop { .. } => {
            lay_out(tx, command, last_change)
        }
        Command::Pyramid { .. } => lay_out_pyramid(tx, command, last_change),
        Command::Edit(piece) => edit(tx, piece, last_change),
        Command::Relation { .. } | Command::RelationDrop { .. } => relate(tx, command),
        Command::Edition { .. } | Command::Discard { .. } | Command::Stage { .. } => {
            prepare_edition(tx, command)
        }
        Command::Publish { edition } => publish(tx, edition, last_change),
        Command::Rehearse { .. } => unreachable!(),
    }
}
