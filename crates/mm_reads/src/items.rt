//! Whether an item stands: an attribute row or a medium.

ghost use Rattle.std.specs.Prelude.{◌≡◌, false};
ghost use Rattle.mm_reads.specs.Related.{is_item};
ghost use Rattle.mm_store.specs.Handed.{Tells};
ghost use Rattle.mm_store.specs.Seen.{ReadsOn};

use mm_definitions::answers::Fault;
use mm_layout::{has_medium, has_row};
use sqlite::{Alter, Connection, Transaction};

/// Whether a table has an attribute row or a medium of this id, inside a transaction.
fn has_item<S: Alter>(tx: &mut Transaction<'_, S>, table: &str, id: i64) -> Result<bool, Fault>
    ensures { Tells S.Store tx.old tx.new (λ p. is_item p table.now id) result }
{
    if has_row(tx, table, id)? {
        Ok(true)
    } else {
        has_medium(tx, table, id)
    }
}

/// Whether a table has an attribute row or a medium of this id.
pub(crate) fn stands<S: Alter>(
    conn: &mut Connection<S>,
    table: &str,
    id: i64,
) -> Result<bool, Fault>
    requires { conn.old.in_transaction ≡ false }
    ensures mode { conn.new.in_transaction ≡ false }
    ensures read { ReadsOn S.Store conn.old conn.new (λ p found. found ≡ is_item p table.now id)
        result }
{
    let mut tx = conn.transaction();
    let found = has_item(&mut tx, table, id);
    tx.rollback();
    found
}
