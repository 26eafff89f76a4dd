//! An attribute row.

ghost use Rattle.std.specs.Prelude.{◌≡◌, false, option_map, IfOk, IfErr};
ghost use Rattle.std.specs.FinMap.{get};
ghost use Rattle.sqlite.specs.Values.{bound};
ghost use Rattle.mm_definitions.specs.Keys.{item};
ghost use Rattle.mm_definitions.specs.Faults.{IsStoreFault};
ghost use Rattle.mm_reads.specs.Told.{GivesFirst, ShowsRow, shown_row};
ghost use Rattle.mm_store.specs.Handed.{Asks, Looks};
ghost use Rattle.mm_store.specs.Seen.{ReadsOn};

use mm_definitions::answers::Fault;
use mm_definitions::entries::Row;
use mm_definitions::names::Name;
use mm_store::columns::{number_in, remark_in};
use mm_store::statements::first;
use sqlite::types::ValueRef;
use sqlite::{Alter, Connection, Transaction, params};

/// The attribute row in the first three columns of a row.
fn row_in(row: &sqlite::Row) -> Result<Row, Fault>
    ensures shown { IfOk result (λ r. ShowsRow row.now r) }
    ensures fault { IfErr result IsStoreFault }
{
    let title = remark_in(row, 0)?;
    let note = remark_in(row, 1)?;
    let amount = number_in(row, 2)?;
    Ok(Row {
        title,
        note,
        amount,
    })
}

/// The attribute row in the first row of a query.
fn first_row<S: Alter>(
    tx: &mut Transaction<'_, S>,
    sql: &str,
    params: &[ValueRef<'_>],
) -> Result<Option<Row>, Fault>
    ensures { Asks S.Store tx.old tx.new sql.now (bound params.now) (GivesFirst ShowsRow) result }
{
    match first(tx, sql, params)? {
        Some(row) => Ok(Some(row_in(&row)?)),
        None => Ok(None),
    }
}

/// The row of an id, inside a transaction.
fn row_at<S: Alter>(tx: &mut Transaction<'_, S>, table: &str, id: i64) -> Result<Option<Row>, Fault>
    ensures { Looks S.Store tx.old tx.new (λ p found. get p.rows (item table.now id) ≡ option_map
        shown_row found) result }
{
    first_row(
        tx,
        "SELECT title, note, amount FROM mm_rows WHERE table_name = ?1 AND id = ?2 LIMIT 1",
        params![table, id],
    )
}

/// The row of an attribute table that has an id, or None where none has it. (Attributes.) A fault is 90 where memory was refused,
/// and else 91, also where a text stands that no package has; the connection is then as settled as before.
pub fn row<S: Alter>(conn: &mut Connection<S>, table: &Name, id: i64) -> Result<Option<Row>, Fault>
    requires { conn.old.in_transaction ≡ false }
    ensures mode { conn.new.in_transaction ≡ false }
    ensures read { ReadsOn S.Store conn.old conn.new
        (λ p found. get p.rows (item table.now id) ≡ option_map shown_row found) result }
{
    let mut tx = conn.transaction();
    let found = row_at(&mut tx, table.as_str(), id);
    tx.rollback();
    found
}
