//! The ends of a relation, and what stands in them.

ghost use Rattle.std.specs.Prelude.{◌≡◌, [], ◌∷◌, IfOk, option_map, string_bytes};
ghost use Rattle.std.specs.FinMap.{get};
ghost use Rattle.sqlite.specs.Order.{column};
ghost use Rattle.sqlite.specs.declared.types.Value.TheVariants.{Text as Words};
ghost use Rattle.mm_definitions.specs.Conditions.{least, lacks_row, lacks_medium};
ghost use Rattle.mm_definitions.specs.Conditions as conditions;
ghost use Rattle.mm_relate.specs.Relations as spec;
ghost use Rattle.mm_store.specs.Handed.{Looks, Tells};

use mm_definitions::answers::Fault;
use mm_definitions::commands::Kind;
use mm_definitions::refusals::Reason;
use mm_layout::{has_medium, has_row, kind_of};
use mm_store::faults::fault_of;
use mm_store::statements::first;
use sqlite::{Alter, Error, Row, Transaction, params};

fn texts_in(row: &Row) -> Result<(String, String), Error>
    ensures { IfOk result (λ pair. (column row.now 0 ≡ Words (string_bytes pair.0))
        × (column row.now 1 ≡ Words (string_bytes pair.1))) }
{
    Ok((row.get(0)?, row.get(1)?))
}

/// The base table and the related table of a relation.
pub(crate) fn ends_of<S: Alter>(
    tx: &mut Transaction<'_, S>,
    mapping: &str,
) -> Result<Option<(String, String)>, Fault>
    ensures { Looks S.Store tx.old tx.new (λ p found. option_map spec.ends
        (get p.relations mapping.now) ≡ option_map spec.both_bytes found) result }
{
    match first(
        tx,
        "SELECT base_table_name, related_table_name FROM gpkgext_relations WHERE mapping_table_name = ?1 LIMIT 1",
        params![mapping],
    )? {
        Some(row) => match texts_in(&row) {
            Ok(ends) => Ok(Some(ends)),
            Err(error) => Err(fault_of(error)),
        },
        None => Ok(None),
    }
}

/// What an end of a relation lacks: 40 where it is a table of attribute rows without such a row, 41 where it is a table of
/// media without such a medium.
fn end_refusal<S: Alter>(
    tx: &mut Transaction<'_, S>,
    table: &str,
    id: i64,
) -> Result<Option<Reason>, Fault>
    ensures { Tells S.Store tx.old tx.new (λ p. least
        ((40, lacks_row p table.now id) ∷ (41, lacks_medium p table.now id) ∷ [])) result }
{
    let Some(kind) = kind_of(tx, table)? else {
        return Ok(None);
    };
    match kind {
        Kind::Attributes => {
            if has_row(tx, table, id)? {
                Ok(None)
            } else {
                Ok(Some(Reason::NO_ROW))
            }
        }
        Kind::Media => {
            if has_medium(tx, table, id)? {
                Ok(None)
            } else {
                Ok(Some(Reason::NO_MEDIA_ITEM))
            }
        }
        Kind::Two | Kind::Other => Ok(None),
    }
}

fn smaller(one: Option<Reason>, other: Option<Reason>) -> Option<Reason>
    ensures { result ≡ conditions.smaller one other }
{
    let Some(a) = one else {
        return other;
    };
    let Some(b) = other else {
        return one;
    };
    Some(if a.get() <= b.get() { a } else { b })
}

/// What the two ends of a relation lack: 40 where one is a table of attribute rows without such a row, else 41 where one
/// is a table of media without such a medium.
pub(crate) fn ends_refusal<S: Alter>(
    tx: &mut Transaction<'_, S>,
    base: &str,
    base_id: i64,
    related: &str,
    related_id: i64,
) -> Result<Option<Reason>, Fault>
    ensures { Tells S.Store tx.old tx.new (λ p. spec.lacks p (base.now, related.now) base_id
        related_id) result }
{
    let one = end_refusal(tx, base, base_id)?;
    let other = end_refusal(tx, related, related_id)?;
    Ok(smaller(one, other))
}
