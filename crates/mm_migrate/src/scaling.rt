//! A package in thousandths of its unit.

ghost use Rattle.std.specs.Prelude.{◌≡◌, false};
ghost use Rattle.sqlite.specs.Held.{state};
ghost use Rattle.mm_definitions.specs.Bounds.{millimetres, micrometres};
ghost use Rattle.mm_definitions.specs.Parts.{Each};
ghost use Rattle.mm_definitions.specs.Rules.{ContentsWithin, SetWithin, MatrixWithin, Limits};
ghost use Rattle.mm_definitions.specs.Parts.{change_values};
ghost use Rattle.mm_definitions.specs.Scale.{finer_contents, finer_set, finer_grid, scale};
ghost use Rattle.mm_migrate.specs.Moves.{IsRescaled};
ghost use Rattle.mm_store.specs.Handed.{ChangesWhere};
ghost use Rattle.mm_migrate.specs.Handed.{Scales, Renumbers};

use mm_definitions::answers::Fault;
use mm_store::faults::fault_of;
use mm_store::statements::run;
use sqlite::{Alter, Connection, Transaction};

/// Tells the extent of every contents row in the smaller unit.
fn scale_contents<S: Alter>(tx: &mut Transaction<'_, S>) -> Result<(), Fault>
    ensures { ChangesWhere S.Store tx.old tx.new (λ p. Each p.contents (ContentsWithin millimetres))
        (λ p. record p { contents = change_values finer_contents p.contents }) result }
{
    run(
        tx,
        "UPDATE gpkg_contents SET min_x = min_x * 1000, min_y = min_y * 1000, max_x = max_x * 1000, max_y = max_y * 1000",
        &[],
    )
}

/// Tells every box in the smaller unit.
fn scale_matrix_sets<S: Alter>(tx: &mut Transaction<'_, S>) -> Result<(), Fault>
    ensures { ChangesWhere S.Store tx.old tx.new (λ p. Each p.sets (SetWithin millimetres))
        (λ p. record p { sets = change_values finer_set p.sets }) result }
{
    run(
        tx,
        "UPDATE gpkg_tile_matrix_set SET min_x = min_x * 1000, min_y = min_y * 1000, max_x = max_x * 1000, max_y = max_y * 1000",
        &[],
    )
}

/// Tells both pixel sizes of every matrix in the smaller unit.
fn scale_matrices<S: Alter>(tx: &mut Transaction<'_, S>) -> Result<(), Fault>
    ensures { ChangesWhere S.Store tx.old tx.new (λ p. Each p.matrices (MatrixWithin millimetres))
        (λ p. record p { matrices = change_values finer_grid p.matrices }) result }
{
    run(
        tx,
        "UPDATE gpkg_tile_matrix SET pixel_x_size = pixel_x_size * 1000, pixel_y_size = pixel_y_size * 1000",
        &[],
    )
}

/// Says in the profile's row that the unit is the smaller one.
fn set_version<S: Alter>(tx: &mut Transaction<'_, S>) -> Result<(), Fault>
    ensures { Renumbers S.Store tx.old tx.new micrometres result }
{
    run(tx, "UPDATE mm_profile SET version = 2", &[])
}

/// Tells all numbers of a package in the smaller unit.
fn scale_tables<S: Alter>(tx: &mut Transaction<'_, S>) -> Result<(), Fault>
    ensures { ChangesWhere S.Store tx.old tx.new (λ p. Limits millimetres p) scale result }
{
    scale_contents(tx)?;
    scale_matrix_sets(tx)?;
    scale_matrices(tx)
}

/// Tells a package of whole millimetres in whole micrometres, and says so in its profile's row.
fn scale_all<S: Alter>(tx: &mut Transaction<'_, S>) -> Result<(), Fault>
    ensures { Scales S.Store tx.old tx.new millimetres micrometres (λ p. Limits millimetres p) scale result }
{
    scale_tables(tx)?;
    set_version(tx)
}

/// The same of a connection's package, in one commit. After a fault each database that may be left stands for the package
/// in the one unit or wholly in the other.
pub fn rescale<S: Alter>(conn: &mut Connection<S>) -> Result<(), Fault>
    requires { conn.old.in_transaction ≡ false }
    ensures mode { conn.new.in_transaction ≡ false }
    ensures rescaled { IsRescaled (state S.Store conn.old) (state S.Store conn.new) result }
{
    let mut tx = conn.transaction();
    match scale_all(&mut tx) {
        Ok(()) => {}
        Err(fault) => {
            tx.rollback();
            return Err(fault);
        }
    }
    match tx.commit() {
        Ok(()) => Ok(()),
        Err(error) => Err(fault_of(error)),
    }
}
