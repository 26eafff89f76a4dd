//! One statement inside a transaction, with its error told as a fault.

ghost use Rattle.std.specs.Prelude.{◌≡◌, is_some, slice_get, IfOk};
ghost use Rattle.sqlite.specs.Values.{bound};
ghost use Rattle.sqlite.specs.Order.{column};
ghost use Rattle.sqlite.specs.declared.types.Value.TheVariants.{Int};
ghost use Rattle.mm_store.specs.Handed.{Asks, AsksAll, AsksFirst, Runs};
ghost use Rattle.mm_store.specs.Statements.{GivesText, GivesPair};

use crate::faults::fault_of;
use mm_definitions::answers::Fault;
use sqlite::types::ValueRef;
use sqlite::{Alter, Error, Row, Transaction};

/// Runs a statement that shows no rows.
pub fn run<S: Alter>(
    tx: &mut Transaction<'_, S>,
    sql: &str,
    params: &[ValueRef<'_>],
) -> Result<(), Fault>
    ensures { Runs S.Store tx.old tx.new sql.now (bound params.now) result }
{
    match tx.execute(sql, params) {
        Ok(_) => Ok(()),
        Err(error) => Err(fault_of(error)),
    }
}

fn first_of(rows: Vec<Row>) -> Option<Row>
    ensures { result ≡ slice_get rows.items 0 }
{
    rows.into_iter().next()
}

/// The first row of a query that shows few.
pub fn first<S: Alter>(
    tx: &mut Transaction<'_, S>,
    sql: &str,
    params: &[ValueRef<'_>],
) -> Result<Option<Row>, Fault>
    ensures { AsksFirst S.Store tx.old tx.new sql.now (bound params.now) (λ it first. it ≡ first)
        result }
{
    match tx.query_all(sql, params) {
        Ok(rows) => Ok(first_of(rows)),
        Err(error) => Err(fault_of(error)),
    }
}

/// All rows of a query.
pub fn all<S: Alter>(
    tx: &mut Transaction<'_, S>,
    sql: &str,
    params: &[ValueRef<'_>],
) -> Result<Vec<Row>, Fault>
    ensures { AsksAll S.Store tx.old tx.new sql.now (bound params.now) (λ rows. rows.items) result }
{
    let shown = tx.query_all(sql, params);
    match shown {
        Ok(rows) => Ok(rows),
        Err(error) => Err(fault_of(error)),
    }
}

/// Whether a query shows a row.
pub fn exists<S: Alter>(
    tx: &mut Transaction<'_, S>,
    sql: &str,
    params: &[ValueRef<'_>],
) -> Result<bool, Fault>
    ensures { AsksFirst S.Store tx.old tx.new sql.now (bound params.now)
        (λ it first. it ≡ is_some first) result }
{
    let row = first(tx, sql, params)?;
    Ok(row.is_some())
}

/// The text in the first column of the first row.
pub fn first_text<S: Alter>(
    tx: &mut Transaction<'_, S>,
    sql: &str,
    params: &[ValueRef<'_>],
) -> Result<Option<String>, Fault>
    ensures { Asks S.Store tx.old tx.new sql.now (bound params.now) GivesText result }
{
    match first(tx, sql, params)? {
        Some(row) => Ok(Some(row.get(0).map_err(fault_of)?)),
        None => Ok(None),
    }
}

fn pair_in(row: &Row) -> Result<(i64, i64), Error>
    ensures { IfOk result (λ pair. (column row.now 0 ≡ Int pair.0)
        × (column row.now 1 ≡ Int pair.1)) }
{
    Ok((row.get(0)?, row.get(1)?))
}

/// The numbers in the first two columns of the first row.
pub fn first_pair<S: Alter>(
    tx: &mut Transaction<'_, S>,
    sql: &str,
    params: &[ValueRef<'_>],
) -> Result<Option<(i64, i64)>, Fault>
    ensures { Asks S.Store tx.old tx.new sql.now (bound params.now) GivesPair result }
{
    match first(tx, sql, params)? {
        Some(row) => Ok(Some(pair_in(&row).map_err(fault_of)?)),
        None => Ok(None),
    }
}
