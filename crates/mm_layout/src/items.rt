//! Whether an attribute row or a medium stands.

ghost use Rattle.std.specs.FinMap.{contains_key};
ghost use Rattle.mm_definitions.specs.Keys.{item};
ghost use Rattle.mm_store.specs.Handed.{Tells};

use mm_definitions::answers::Fault;
use mm_store::statements::exists;
use sqlite::{Alter, Transaction, params};

/// Whether a table has a row of this id.
pub fn has_row<S: Alter>(tx: &mut Transaction<'_, S>, table: &str, id: i64) -> Result<bool, Fault>
    ensures { Tells S.Store tx.old tx.new (λ p. contains_key p.rows (item table.now id)) result }
{
    exists(
        tx,
        "SELECT 1 FROM mm_rows WHERE table_name = ?1 AND id = ?2 LIMIT 1",
        params![table, id],
    )
}

/// Whether a table has a medium of this id.
pub fn has_medium<S: Alter>(
    tx: &mut Transaction<'_, S>,
    table: &str,
    id: i64,
) -> Result<bool, Fault>
    ensures { Tells S.Store tx.old tx.new (λ p. contains_key p.media (item table.now id)) result }
{
    exists(
        tx,
        "SELECT 1 FROM mm_media WHERE table_name = ?1 AND id = ?2 LIMIT 1",
        params![table, id],
    )
}
