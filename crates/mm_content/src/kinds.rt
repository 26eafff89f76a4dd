//! Whether a table is of the kind that a command asks.

ghost use Rattle.std.specs.Prelude.{◌≡◌, ◌||◌, [], ◌∷◌};
ghost use Rattle.mm_definitions.specs.Conditions.{no_table, of_another_kind};
ghost use Rattle.mm_definitions.specs.Effects.{plain_kind};
ghost use Rattle.mm_definitions.specs.Keys.{same_text};
ghost use Rattle.mm_definitions.specs.Package.{kind_text, has_kind, is_pyramid};
ghost use Rattle.mm_definitions.specs.declared.commands.Kind.TheVariants as kinds;
ghost use Rattle.mm_store.specs.Handed.{FindsRefusal};
ghost use Rattle.mm_layout.specs.Handed.{LeavesView};

use mm_definitions::answers::Fault;
use mm_definitions::commands::{Kind, PlainKind};
use mm_definitions::refusals::Reason;
use mm_layout::kind_of;
use sqlite::{Alter, Transaction};

/// Whether a table of this kind is one of the kind that is asked.
fn suits(asked: PlainKind, kind: Kind) -> bool
    ensures { result ≡ same_text (kind_text (plain_kind asked)) (kind_text kind) }
{
    match (asked, kind) {
        (PlainKind::Attributes, Kind::Attributes) | (PlainKind::Media, Kind::Media) => true,
        _ => false,
    }
}

/// Why a table is not one of this kind, if it is not: 25 where no table has the name, 26 where it is of another kind.
pub(crate) fn plain_refusal<S: Alter>(
    tx: &mut Transaction<'_, S>,
    table: &str,
    asked: PlainKind,
) -> Result<Option<Reason>, Fault>
    ensures told { FindsRefusal S.Store tx.old tx.new
        (λ p. no_table p table.now ∷ of_another_kind p table.now
        (has_kind p.kinds table.now (plain_kind asked)) ∷ []) result }
    ensures leaves { LeavesView S.Store tx.old tx.new result }
{
    let Some(kind) = kind_of(tx, table)? else {
        return Ok(Some(Reason::NO_TABLE));
    };
    if suits(asked, kind) {
        Ok(None)
    } else {
        Ok(Some(Reason::ANOTHER_KIND))
    }
}

/// Whether a table of this kind is a pyramid.
fn is_tiled(kind: Kind) -> bool
    ensures { result
        ≡ (same_text (kind_text kinds.Two) (kind_text kind)
        || same_text (kind_text kinds.Other) (kind_text kind)) }
{
    match kind {
        Kind::Two | Kind::Other => true,
        Kind::Attributes | Kind::Media => false,
    }
}

/// Why a table is no pyramid, if it is none: 25 where no table has the name, 26 where it is of another kind.
pub(crate) fn pyramid_refusal<S: Alter>(
    tx: &mut Transaction<'_, S>,
    table: &str,
) -> Result<Option<Reason>, Fault>
    ensures told { FindsRefusal S.Store tx.old tx.new
        (λ p. no_table p table.now ∷ of_another_kind p table.now (is_pyramid p.kinds table.now)
        ∷ []) result }
    ensures leaves { LeavesView S.Store tx.old tx.new result }
{
    let Some(kind) = kind_of(tx, table)? else {
        return Ok(Some(Reason::NO_TABLE));
    };
    if is_tiled(kind) {
        Ok(None)
    } else {
        Ok(Some(Reason::ANOTHER_KIND))
    }
}
