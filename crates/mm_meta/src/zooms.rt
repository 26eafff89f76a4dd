//! Whether a matrix suits the nearest lower and the nearest higher zoom of its pyramid.

ghost use Rattle.std.specs.Prelude.{◌≡◌, pos, Option, IfOk, IfErr};
ghost use Rattle.sqlite.specs.Values.{bound};
ghost use Rattle.sqlite.specs.Order.{column};
ghost use Rattle.sqlite.specs.declared.types.Value.TheVariants.{Int};
ghost use Rattle.mm_definitions.specs.Conditions.{grid};
ghost use Rattle.mm_definitions.specs.Neighbours.{Zoomed, IsNearestBelow, IsNearestAbove, zoomed, is_halved};
ghost use Rattle.mm_definitions.specs.Neighbours as spec;
ghost use Rattle.mm_definitions.specs.Faults.{IsStoreFault};
ghost use Rattle.mm_meta.specs.Shown.{ShowsMatrix, ShowsZoomed, GivesZoomed};
ghost use Rattle.mm_store.specs.Handed.{Asks, Looks};

use mm_definitions::answers::Fault;
use mm_definitions::bounded::{Count, PixelSize};
use mm_definitions::commands::{Matrix, Step};
use mm_definitions::matrices::neighbours;
use mm_store::columns::number_in;
use mm_store::faults::fault_of;
use mm_store::statements::first;
use sqlite::types::ValueRef;
use sqlite::{Alter, Row, Transaction, params};

/// The zoom in the first column of a row. One above 255 is a fault, 91.
fn zoom_in(row: &Row) -> Result<u8, Fault>
    ensures zoom { IfOk result (λ zoom. column row.now 0 ≡ Int (pos zoom)) }
    ensures faults { IfErr result IsStoreFault }
{
    let zoom: u32 = row.get(0).map_err(fault_of)?;
    u8::try_from(zoom).map_err(|_| Fault::STORE)
}

/// The number of tiles or pixels at a place of a row. One outside its limits is a fault, 91.
fn count_at<const LEAST: u32, const MOST: u32>(
    row: &Row,
    place: usize,
) -> Result<Count<LEAST, MOST>, Fault>
    ensures count { IfOk result (λ count. column row.now place ≡ Int (pos count)) }
    ensures faults { IfErr result IsStoreFault }
{
    match Count::new(number_in(row, place)?) {
        Some(count) => Ok(count),
        None => Err(Fault::STORE),
    }
}

/// The size of a pixel at a place of a row. One outside its limits is a fault, 91.
fn pixel_at(row: &Row, place: usize) -> Result<PixelSize, Fault>
    ensures size { IfOk result (λ size. column row.now place ≡ Int size) }
    ensures faults { IfErr result IsStoreFault }
{
    match PixelSize::new(number_in(row, place)?) {
        Some(size) => Ok(size),
        None => Err(Fault::STORE),
    }
}

/// The matrix in the columns after the zoom.
fn matrix_in(row: &Row) -> Result<Matrix, Fault>
    ensures matrix { IfOk result (λ m. ShowsMatrix row.now m) }
    ensures faults { IfErr result IsStoreFault }
{
    Ok(Matrix {
        mw: count_at(row, 1)?,
        mh: count_at(row, 2)?,
        tw: count_at(row, 3)?,
        th: count_at(row, 4)?,
        px: pixel_at(row, 5)?,
        py: pixel_at(row, 6)?,
    })
}

/// A zoom with its matrix.
fn zoomed_in(row: &Row) -> Result<(u8, Matrix), Fault>
    ensures zoomed { IfOk result (λ entry. ShowsZoomed row.now entry) }
    ensures faults { IfErr result IsStoreFault }
{
    let zoom = zoom_in(row)?;
    let matrix = matrix_in(row)?;
    Ok((zoom, matrix))
}

/// The zoom with its matrix in the first row of a query.
fn first_zoomed<S: Alter>(
    tx: &mut Transaction<'_, S>,
    sql: &str,
    params: &[ValueRef<'_>],
) -> Result<Option<(u8, Matrix)>, Fault>
    ensures { Asks S.Store tx.old tx.new sql.now (bound params.now) GivesZoomed result }
{
    match first(tx, sql, params)? {
        Some(row) => Ok(Some(zoomed_in(&row)?)),
        None => Ok(None),
    }
}

/// The nearest lower zoom at which the table has a matrix.
fn nearest_below<S: Alter>(
    tx: &mut Transaction<'_, S>,
    table: &str,
    zoom: u8,
) -> Result<Option<(u8, Matrix)>, Fault>
    ensures { Looks S.Store tx.old tx.new (λ p below. IsNearestBelow p.matrices table.now (pos zoom)
        (zoomed below)) result }
{
    first_zoomed(
        tx,
        "SELECT zoom_level, matrix_width, matrix_height, tile_width, tile_height, pixel_x_size, pixel_y_size FROM gpkg_tile_matrix WHERE table_name = ?1 AND zoom_level < ?2 ORDER BY zoom_level DESC LIMIT 1",
        params![table, u32::from(zoom)],
    )
}

/// The nearest higher zoom at which the table has a matrix.
fn nearest_above<S: Alter>(
    tx: &mut Transaction<'_, S>,
    table: &str,
    zoom: u8,
) -> Result<Option<(u8, Matrix)>, Fault>
    ensures { Looks S.Store tx.old tx.new (λ p above. IsNearestAbove p.matrices table.now (pos zoom)
        (zoomed above)) result }
{
    first_zoomed(
        tx,
        "SELECT zoom_level, matrix_width, matrix_height, tile_width, tile_height, pixel_x_size, pixel_y_size FROM gpkg_tile_matrix WHERE table_name = ?1 AND zoom_level > ?2 ORDER BY zoom_level LIMIT 1",
        params![table, u32::from(zoom)],
    )
}

/// Whether a matrix suits the nearest lower and the nearest higher zoom of its pyramid, which decide for all.
pub(crate) fn suits_zooms<S: Alter>(
    tx: &mut Transaction<'_, S>,
    table: &str,
    zoom: u8,
    matrix: &Matrix,
    step: Step,
) -> Result<bool, Fault>
    ensures { Looks S.Store tx.old tx.new (λ p suits. (below : Option Zoomed)
        × (above : Option Zoomed) × IsNearestBelow p.matrices table.now (pos zoom) below
        × IsNearestAbove p.matrices table.now (pos zoom) above
        × (suits ≡ spec.neighbours below (pos zoom) (grid matrix.now) above (is_halved step)))
        result }
{
    let below = nearest_below(tx, table, zoom)?;
    let above = nearest_above(tx, table, zoom)?;
    Ok(neighbours(below, zoom, matrix, above, step))
}
