//! Whether a mapping row has an item as an end.

ghost use Rattle.mm_definitions.specs.Conditions as conditions;
ghost use Rattle.mm_store.specs.Handed.{Tells};
ghost use Rattle.mm_content.specs.Mapped.{is_base, is_related};

use mm_definitions::answers::Fault;
use mm_store::statements::exists;
use sqlite::{Alter, Transaction, params};

/// Whether a mapping row has this item of a table as its base.
fn has_base<S: Alter>(tx: &mut Transaction<'_, S>, table: &str, id: i64) -> Result<bool, Fault>
    ensures { Tells S.Store tx.old tx.new (is_base table.now id) result }
{
    exists(
        tx,
        "SELECT 1 FROM gpkgext_relations AS r JOIN mm_map AS m ON m.mapping = r.mapping_table_name AND m.base_id = ?2 WHERE r.base_table_name = ?1 LIMIT 1",
        params![table, id],
    )
}

/// Whether a mapping row has this item of a table as its related one.
fn has_related<S: Alter>(tx: &mut Transaction<'_, S>, table: &str, id: i64) -> Result<bool, Fault>
    ensures { Tells S.Store tx.old tx.new (is_related table.now id) result }
{
    exists(
        tx,
        "SELECT 1 FROM gpkgext_relations AS r JOIN mm_map AS m ON m.mapping = r.mapping_table_name AND m.related_id = ?2 WHERE r.related_table_name = ?1 LIMIT 1",
        params![table, id],
    )
}

/// Whether a mapping row has this item of a table as an end. No key has the table of a relation or a related id first, so
/// this reads the relations, which are few, and of the mappings where the table is related their rows.
pub(crate) fn is_mapped<S: Alter>(
    tx: &mut Transaction<'_, S>,
    table: &str,
    id: i64,
) -> Result<bool, Fault>
    ensures { Tells S.Store tx.old tx.new (λ p. conditions.is_mapped p table.now id) result }
{
    if has_base(tx, table, id)? {
        Ok(true)
    } else {
        has_related(tx, table, id)
    }
}
