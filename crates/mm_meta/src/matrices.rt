//! Tile matrices.

ghost use Rattle.std.specs.Prelude.{◌≡◌, pos, None, MatchOption};
ghost use Rattle.std.specs.FinMap.{get, contains_key, insert};
ghost use Rattle.mm_definitions.specs.Conditions.{piece_reasons, grid};
ghost use Rattle.mm_definitions.specs.Effects.{step_kind};
ghost use Rattle.mm_definitions.specs.Keys.{level};
ghost use Rattle.mm_definitions.specs.declared.commands.Command.TheVariants as commands;
ghost use Rattle.mm_definitions.specs.declared.commands.Piece.TheVariants as pieces;
ghost use Rattle.mm_meta.specs.Shown.{IsPlainKind};
ghost use Rattle.mm_store.specs.Handed.{Tells, ChangesWhere, FindsRefusal};
ghost use Rattle.mm_layout.specs.Handed.{Lends};

use crate::extents::fits_pyramid;
use crate::zooms::suits_zooms;
use mm_definitions::answers::{Fault, Outcome};
use mm_definitions::commands::{Kind, Matrix, Step};
use mm_definitions::names::Name;
use mm_definitions::refusals::Reason;
use mm_layout::{kind_of, set_last_change};
use mm_store::statements::{exists, run};
use sqlite::{Alter, Transaction, params};

/// Whether a matrix stands at this zoom of a table.
fn has_matrix<S: Alter>(tx: &mut Transaction<'_, S>, table: &str, zoom: u8) -> Result<bool, Fault>
    ensures { Tells S.Store tx.old tx.new (λ p. contains_key p.matrices
        (level table.now (pos zoom))) result }
{
    exists(
        tx,
        "SELECT 1 FROM gpkg_tile_matrix WHERE table_name = ?1 AND zoom_level = ?2 LIMIT 1",
        params![table, u32::from(zoom)],
    )
}

/// Puts a matrix at a zoom that is free.
fn insert_matrix<S: Alter>(
    tx: &mut Transaction<'_, S>,
    table: &str,
    zoom: u8,
    matrix: &Matrix,
) -> Result<(), Fault>
    ensures { ChangesWhere S.Store tx.old tx.new
        (λ p. get p.matrices (level table.now (pos zoom)) ≡ None)
        (λ p. record p {
          matrices = insert p.matrices (level table.now (pos zoom))
              (grid matrix.now);
        }) result }
{
    run(
        tx,
        "INSERT INTO gpkg_tile_matrix (table_name, zoom_level, matrix_width, matrix_height, tile_width, tile_height, pixel_x_size, pixel_y_size) VALUES (?1, ?2, ?3, ?4, ?5, ?6, ?7, ?8)",
        params![
            table,
            u32::from(zoom),
            matrix.mw.get(),
            matrix.mh.get(),
            matrix.tw.get(),
            matrix.th.get(),
            matrix.px.get(),
            matrix.py.get()
        ],
    )
}

/// How the pixel sizes of a table of this kind go, where it is a pyramid.
fn step_of(kind: Kind) -> Option<Step>
    ensures { MatchOption result (IsPlainKind kind) (λ step. kind ≡ step_kind step) }
{
    match kind {
        Kind::Two => Some(Step::Two),
        Kind::Other => Some(Step::Other),
        Kind::Attributes | Kind::Media => None,
    }
}

/// Why a matrix is not added, if it is not.
fn matrix_refusal<S: Alter>(
    tx: &mut Transaction<'_, S>,
    table: &str,
    zoom: u8,
    matrix: &Matrix,
) -> Result<Option<Reason>, Fault>
    ensures { FindsRefusal S.Store tx.old tx.new
        (λ p. piece_reasons p (pieces.Matrix table.now zoom matrix.now)) result }
{
    let Some(kind) = kind_of(tx, table)? else {
        return Ok(Some(Reason::NO_TABLE));
    };
    let step = match step_of(kind) {
        Some(step) => step,
        None => return Ok(Some(Reason::ANOTHER_KIND)),
    };
    if has_matrix(tx, table, zoom)? {
        return Ok(Some(Reason::MATRIX_EXISTS));
    }
    if !fits_pyramid(tx, table, matrix)? {
        return Ok(Some(Reason::NOT_THE_PRODUCT));
    }
    if suits_zooms(tx, table, zoom, matrix, step)? {
        Ok(None)
    } else {
        Ok(Some(Reason::PIXEL_SIZES_OUT_OF_ORDER))
    }
}

/// The command `matrix`: adds the tile matrix of one zoom to a pyramid. `last_change` is the stamp of the moment, which
/// becomes the last_change of the pyramid. Refused 25 where no table has the name, 26 where it is no pyramid, 30 where
/// a matrix stands at the zoom, 31 where the matrix does not cover the extent exactly, 32 where its pixel sizes are out
/// of order with those of another zoom or, in a pyramid of kind `two`, not in ratio 2 to those of the next. (Tile
/// Matrix; Zoom Levels.)
pub fn add_matrix<S: Alter>(
    tx: &mut Transaction<'_, S>,
    table: &Name,
    zoom: u8,
    matrix: &Matrix,
    last_change: &str,
) -> Result<Outcome, Fault>
    ensures { Lends S.Store tx.old tx.new (commands.Edit (pieces.Matrix table.now zoom matrix.now))
        last_change.now result }
{
    let table = table.as_str();
    if let Some(number) = matrix_refusal(tx, table, zoom, matrix)? {
        return Ok(Outcome::refused(number));
    }
    insert_matrix(tx, table, zoom, matrix)?;
    set_last_change(tx, table, last_change)?;
    Ok(Outcome::Done)
}
