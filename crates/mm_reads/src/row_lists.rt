//! The rows of an attribute table from an id on, some at a time.

ghost use Rattle.std.specs.Prelude.{◌≡◌, false, IfOk, IfErr};
ghost use Rattle.mm_definitions.specs.Keys.{same_text};
ghost use Rattle.mm_definitions.specs.Package.{kind_text};
ghost use Rattle.mm_definitions.specs.declared.commands.Kind.TheVariants.{Attributes};
ghost use Rattle.mm_definitions.specs.Faults.{IsStoreFault};
ghost use Rattle.mm_store.specs.Handed.{Tells};
ghost use Rattle.mm_store.specs.Seen.{ReadsOn};
ghost use Rattle.mm_reads.specs.RowLists.{ShowsNumbered, GathersRows, ListsRows, TellsRows, lists_rows};

use mm_definitions::answers::Fault;
use mm_definitions::commands::Kind;
use mm_definitions::entries::Row;
use mm_definitions::names::Name;
use mm_layout::kind_of;
use mm_store::columns::{number_in, remark_in};
use mm_walk::walk::{Visitor, walk};
use sqlite::{Alter, Connection, Transaction, params};
use std::alloc::Global;

/// How many rows one read lists at most.
pub const MOST_ROWS: usize = 1000;

/// Whether a kind is that of attribute tables.
fn is_attributes(kind: Kind) -> bool
    ensures { result ≡ same_text (kind_text Attributes) (kind_text kind) }
{
    match kind {
        Kind::Attributes => true,
        Kind::Two | Kind::Other | Kind::Media => false,
    }
}

/// Whether a table is an attribute table, inside a transaction.
fn lists<S: Alter>(tx: &mut Transaction<'_, S>, table: &str) -> Result<bool, Fault>
    ensures { Tells S.Store tx.old tx.new (λ p. lists_rows p table.now) result }
{
    match kind_of(tx, table)? {
        Some(kind) => Ok(is_attributes(kind)),
        None => Ok(false),
    }
}

/// Whether a table is an attribute table.
fn has_rows<S: Alter>(conn: &mut Connection<S>, table: &str) -> Result<bool, Fault>
    requires { conn.old.in_transaction ≡ false }
    ensures mode { conn.new.in_transaction ≡ false }
    ensures read { ReadsOn S.Store conn.old conn.new (λ p found. found ≡ lists_rows p table.now)
        result }
{
    let mut tx = conn.transaction();
    let found = lists(&mut tx, table);
    tx.rollback();
    found
}

/// The attribute row that a row of the list shows, with its id.
fn numbered_row_in(row: &sqlite::Row) -> Result<(i64, Row), Fault>
    ensures shown { IfOk result (λ e. ShowsNumbered row.now e) }
    ensures fault { IfErr result IsStoreFault }
{
    let id = number_in(row, 0)?;
    let title = remark_in(row, 1)?;
    let note = remark_in(row, 2)?;
    let amount = number_in(row, 3)?;
    Ok((
        id,
        Row {
            title,
            note,
            amount,
        },
    ))
}

/// The rows that the list has shown so far.
#[derive(Drop)]
struct Gathered {
    rows: Vec<(i64, Row)>,
}

impl Visitor for Gathered {
    ghost use Rattle.mm_reads.specs.RowLists.{GathersRows};

    ghost takes = { λ old row new result. GathersRows old.rows.items row new.rows.items result };

    fn take(&mut self, row: &sqlite::Row) -> Result<bool, Fault> {
        let shown = numbered_row_in(row)?;
        self.rows.push(shown).map_err(|_| Fault::MEMORY)?;
        Ok(self.rows.len() < MOST_ROWS)
    }
}

/// The first rows of a table from an id on, by rising id.
fn listed<S: Alter>(
    alloc: Global,
    conn: &mut Connection<S>,
    table: &str,
    first: i64,
) -> Result<Vec<(i64, Row)>, Fault>
    requires { conn.old.in_transaction ≡ false }
    ensures mode { conn.new.in_transaction ≡ false }
    ensures read { ReadsOn S.Store conn.old conn.new
        (λ p rows. ListsRows p table.now first rows.items) result }
{
    let mut gathered = Gathered {
        rows: Vec::new(alloc),
    };
    walk(
        conn,
        "SELECT r.id, r.title, r.note, r.amount FROM mm_rows AS r WHERE r.table_name = ?1 AND r.id >= ?2 ORDER BY r.id",
        params![table, first],
        &mut gathered,
    )?;
    Ok(gathered.rows)
}

/// The rows of an attribute table from an id on, each with its id, by rising id and 1,000 at most; None where no attribute
/// table has the name. (Attributes.) A fault is 90 where memory was refused, and else 91, also where a value stands that no
/// package has; the connection is then as settled as before.
pub fn rows_from<S: Alter>(
    alloc: Global,
    conn: &mut Connection<S>,
    table: &Name,
    first: i64,
) -> Result<Option<Vec<(i64, Row)>>, Fault>
    requires { conn.old.in_transaction ≡ false }
    ensures mode { conn.new.in_transaction ≡ false }
    ensures read { ReadsOn S.Store conn.old conn.new (λ p found. TellsRows p table.now first found)
        result }
{
    let table = table.as_str();
    if !has_rows(conn, table)? {
        return Ok(None);
    }
    let rows = listed(alloc, conn, table, first)?;
    Ok(Some(rows))
}
