//! The registry of the kinds of tables.

ghost use Rattle.std.specs.Prelude.{◌≡◌, None, option_map, string_bytes};
ghost use Rattle.std.specs.FinMap.{get, insert};
ghost use Rattle.mm_definitions.specs.Effects.{plain_kind, step_kind};
ghost use Rattle.mm_definitions.specs.Package.{kind_text};
ghost use Rattle.mm_store.specs.Handed.{Looks, ChangesWhere};
ghost use Rattle.mm_layout.specs.Handed.{LeavesView};

use mm_definitions::answers::Fault;
use mm_definitions::commands::{Kind, PlainKind, Step};
use mm_store::statements::{first_text, run};
use sqlite::{Alter, Transaction, params};

/// How the registry writes the kind of a table that is no pyramid.
pub(crate) fn text_of_kind(kind: PlainKind) -> &'static str
    ensures { result.now ≡ kind_text (plain_kind kind) }
{
    match kind {
        PlainKind::Attributes => "attributes",
        PlainKind::Media => "media",
    }
}

/// How the registry writes the kind of a pyramid.
pub(crate) fn text_of_step(step: Step) -> &'static str
    ensures { result.now ≡ kind_text (step_kind step) }
{
    match step {
        Step::Two => "two",
        Step::Other => "other",
    }
}

/// What the registry writes of a table.
fn registered<S: Alter>(tx: &mut Transaction<'_, S>, table: &str) -> Result<Option<String>, Fault>
    ensures told { Looks S.Store tx.old tx.new (λ p text. get p.kinds table.now
        ≡ option_map string_bytes text) result }
    ensures leaves { LeavesView S.Store tx.old tx.new result }
{
    first_text(
        tx,
        "SELECT kind FROM mm_tables WHERE table_name = ?1 LIMIT 1",
        params![table],
    )
}

/// The kind of a table, where it is registered. A text that is no kind is a fault, 91.
pub fn kind_of<S: Alter>(tx: &mut Transaction<'_, S>, table: &str) -> Result<Option<Kind>, Fault>
    ensures told { Looks S.Store tx.old tx.new (λ p kind. get p.kinds table.now
        ≡ option_map kind_text kind) result }
    ensures leaves { LeavesView S.Store tx.old tx.new result }
{
    match registered(tx, table)? {
        Some(text) => match Kind::named(text.as_str()) {
            Some(kind) => Ok(Some(kind)),
            None => Err(Fault::STORE),
        },
        None => Ok(None),
    }
}

/// Registers the kind of a new table.
pub(crate) fn insert_kind<S: Alter>(
    tx: &mut Transaction<'_, S>,
    table: &str,
    kind: &str,
) -> Result<(), Fault>
    ensures { ChangesWhere S.Store tx.old tx.new (λ p. get p.kinds table.now ≡ None)
        (λ p. record p { kinds = insert p.kinds table.now kind.now }) result }
{
    run(
        tx,
        "INSERT INTO mm_tables (table_name, kind) VALUES (?1, ?2)",
        params![table, kind],
    )
}
