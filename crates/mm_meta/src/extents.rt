//! Whether a matrix covers the extent of its pyramid.

ghost use Rattle.std.specs.Prelude.{◌≡◌, option_map, IfOk, IfErr};
ghost use Rattle.std.specs.FinMap.{get};
ghost use Rattle.sqlite.specs.Values.{bound};
ghost use Rattle.mm_definitions.specs.Conditions.{is_product, grid};
ghost use Rattle.mm_definitions.specs.Package.{MatrixSet};
ghost use Rattle.mm_definitions.specs.Parts.{Has};
ghost use Rattle.mm_meta.specs.Shown.{ShowsExtent, GivesExtent};
ghost use Rattle.mm_definitions.specs.Faults.{IsStoreFault};
ghost use Rattle.mm_store.specs.Handed.{Asks, Looks};

use mm_definitions::answers::Fault;
use mm_definitions::commands::Matrix;
use mm_definitions::extents::{Extent, fits};
use mm_store::columns::number_in;
use mm_store::statements::first;
use sqlite::types::ValueRef;
use sqlite::{Alter, Row, Transaction, params};

/// The extent in the first four columns of a row. Bounds that are none of an extent are a fault, 91.
fn extent_in(row: &Row) -> Result<Extent, Fault>
    ensures extent { IfOk result (λ e. ShowsExtent row.now e) }
    ensures faults { IfErr result IsStoreFault }
{
    let min_x = number_in(row, 0)?;
    let min_y = number_in(row, 1)?;
    let max_x = number_in(row, 2)?;
    let max_y = number_in(row, 3)?;
    match Extent::new(min_x, min_y, max_x, max_y) {
        Some(extent) => Ok(extent),
        None => Err(Fault::STORE),
    }
}

/// The extent in the first row of a query.
fn first_extent<S: Alter>(
    tx: &mut Transaction<'_, S>,
    sql: &str,
    params: &[ValueRef<'_>],
) -> Result<Option<Extent>, Fault>
    ensures { Asks S.Store tx.old tx.new sql.now (bound params.now) GivesExtent result }
{
    match first(tx, sql, params)? {
        Some(row) => Ok(Some(extent_in(&row)?)),
        None => Ok(None),
    }
}

/// The extent of a pyramid, where it has a matrix set.
fn extent_of<S: Alter>(tx: &mut Transaction<'_, S>, table: &str) -> Result<Option<Extent>, Fault>
    ensures { Looks S.Store tx.old tx.new (λ p extent. option_map (λ (s : MatrixSet). s.box)
        (get p.sets table.now) ≡ extent) result }
{
    first_extent(
        tx,
        "SELECT min_x, min_y, max_x, max_y FROM gpkg_tile_matrix_set WHERE table_name = ?1 LIMIT 1",
        params![table],
    )
}

/// Whether a matrix covers the extent of a pyramid exactly. That a pyramid has no extent is a fault, 91.
pub(crate) fn fits_pyramid<S: Alter>(
    tx: &mut Transaction<'_, S>,
    table: &str,
    matrix: &Matrix,
) -> Result<bool, Fault>
    ensures { Looks S.Store tx.old tx.new (λ p covers. (s : MatrixSet) × Has p.sets table.now s
        × (covers ≡ is_product s.box (grid matrix.now))) result }
{
    match extent_of(tx, table)? {
        Some(extent) => Ok(fits(&extent, matrix)),
        None => Err(Fault::STORE),
    }
}
