//! The rows of a query, each handed to a visitor before the next is asked for.

ghost use Rattle.std.specs.Prelude.{Bool, Result};
ghost use Rattle.mm_definitions.specs.declared.answers.Fault.{Fault as FaultValue};
ghost use Rattle.sqlite.specs.Order.{Row as Values};
ghost use Rattle.sqlite.specs.Held.{state};
ghost use Rattle.sqlite.specs.Values.{bound};
ghost use Rattle.mm_walk.specs.Walk.{IsWalk};

use mm_definitions::answers::Fault;
use mm_store::faults::fault_of;
use sqlite::types::ValueRef;
use sqlite::{Alter, Connection, Row};

/// What is done with the rows of a walk, one after another.
pub trait Visitor {
    ghost takes: { Self → Values → Self → Result Bool FaultValue → Type 0 };

    /// Takes a row. Whether the walk goes on.
    fn take(&mut self, row: &Row) -> Result<bool, Fault>
        ensures { takes self.old row.now self.new result };
}

/// Hands each row of a query to the visitor, in the query's order, until it answers that the walk stops. `true` where it
/// took every row, `false` where it stopped. The visitor's own fault ends the walk; else a fault is 90 where memory was
/// refused and 91 where the store failed. The connection is as it was, unless the store failed.
pub fn walk<S: Alter, V: Visitor>(
    conn: &mut Connection<S>,
    sql: &str,
    params: &[ValueRef<'_>],
    visitor: &mut V,
) -> Result<bool, Fault>
    ensures { IsWalk V.takes sql.now (bound params.now)
        (state S.Store conn.old) (state S.Store conn.new) visitor.old visitor.new result }
{
    let mut rows = match conn.query(sql, params) {
        Ok(rows) => rows,
        Err(error) => return Err(fault_of(error)),
    };
    'rows: for _ in 0..u64::MAX {
        match rows.next() {
            Ok(Some(row)) => {
                if !visitor.take(row)? {
                    return Ok(false);
                }
            }
            Ok(None) => return Ok(true),
            Err(error) => return Err(fault_of(error)),
        }
    }
    Err(Fault::STORE)
}
