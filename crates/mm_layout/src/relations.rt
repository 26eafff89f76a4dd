//! What relations say of tables and names.

ghost use Rattle.std.specs.FinMap.{contains_key};
ghost use Rattle.mm_definitions.specs.Conditions.{is_used};
ghost use Rattle.mm_store.specs.Handed.{Tells};

use mm_definitions::answers::Fault;
use mm_store::statements::exists;
use sqlite::{Alter, Transaction, params};

/// Whether a relation has this mapping name.
pub fn has_relation<S: Alter>(tx: &mut Transaction<'_, S>, mapping: &str) -> Result<bool, Fault>
    ensures { Tells S.Store tx.old tx.new (λ p. contains_key p.relations mapping.now) result }
{
    exists(
        tx,
        "SELECT 1 FROM gpkgext_relations WHERE mapping_table_name = ?1 LIMIT 1",
        params![mapping],
    )
}

/// Whether a relation has the table as its base or its related one. No key of the relations has these columns first, so
/// this reads the relations, which are few, and no other rows.
pub(crate) fn uses_table<S: Alter>(tx: &mut Transaction<'_, S>, table: &str) -> Result<bool, Fault>
    ensures { Tells S.Store tx.old tx.new (λ p. is_used p table.now) result }
{
    exists(
        tx,
        "SELECT 1 FROM gpkgext_relations WHERE base_table_name = ?1 OR related_table_name = ?1 LIMIT 1",
        params![table],
    )
}
