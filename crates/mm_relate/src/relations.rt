//! Relations.

ghost use Rattle.std.specs.Prelude.{◌≡◌, ◌&&◌, ◌||◌, None};
ghost use Rattle.std.specs.FinMap.{get, insert};
ghost use Rattle.mm_definitions.specs.Bounds.{IsName};
ghost use Rattle.mm_definitions.specs.Conditions.{own_reasons, related_kind, relation_text};
ghost use Rattle.mm_definitions.specs.Keys.{same_text};
ghost use Rattle.mm_definitions.specs.Package.{kind_text};
ghost use Rattle.mm_definitions.specs.declared.commands.Command.TheVariants as commands;
ghost use Rattle.mm_definitions.specs.declared.commands.Kind.TheVariants as kinds;
ghost use Rattle.mm_store.specs.Removals.{without_relation_rows};
ghost use Rattle.mm_relate.specs.Relations.{new_relation};
ghost use Rattle.mm_store.specs.Handed.{Changes, ChangesWhere, FindsRefusal, Applies};

use mm_definitions::answers::{Fault, Outcome};
use mm_definitions::commands::{Kind, RelationName};
use mm_definitions::names::Name;
use mm_definitions::refusals::Reason;
use mm_layout::{delete_related_row, has_relation, insert_related_row, is_taken, kind_of};
use mm_store::statements::run;
use sqlite::{Alter, Transaction, params};

/// How the list of relations writes the name of a relation. (Media; Simple Attributes.)
fn text_of_name(name: RelationName) -> &'static str
    ensures { result.now ≡ relation_text name }
{
    match name {
        RelationName::Media => "media",
        RelationName::SimpleAttributes => "simple_attributes",
    }
}

/// Whether tables of these kinds can be the ends of a relation of this name: the base is no pyramid, and the related table
/// is of the kind that the name says.
fn suits(base: Kind, related: Kind, name: RelationName) -> bool
    ensures { result
        ≡ ((same_text (kind_text kinds.Attributes) (kind_text base)
        || same_text (kind_text kinds.Media) (kind_text base))
        && same_text (kind_text (related_kind name)) (kind_text related)) }
{
    match (base, related, name) {
        (Kind::Two | Kind::Other, _, _) => false,
        (_, Kind::Media, RelationName::Media)
        | (_, Kind::Attributes, RelationName::SimpleAttributes) => true,
        _ => false,
    }
}

/// Why a relation is not added, if it is not.
fn relation_refusal<S: Alter>(
    tx: &mut Transaction<'_, S>,
    mapping: &str,
    base: &str,
    related: &str,
    name: RelationName,
) -> Result<Option<Reason>, Fault>
    ensures { FindsRefusal S.Store tx.old tx.new
        (λ p. own_reasons p (commands.Relation mapping.now base.now related.now name)) result }
{
    let Some(based) = kind_of(tx, base)? else {
        return Ok(Some(Reason::NO_TABLE));
    };
    let Some(other) = kind_of(tx, related)? else {
        return Ok(Some(Reason::NO_TABLE));
    };
    if is_taken(tx, mapping)? {
        return Ok(Some(Reason::MAPPING_NAME_TAKEN));
    }
    if suits(based, other, name) {
        Ok(None)
    } else {
        Ok(Some(Reason::UNSUITED_KINDS))
    }
}

/// Puts a new relation. The store chooses its id.
fn insert_relation<S: Alter>(
    tx: &mut Transaction<'_, S>,
    mapping: &str,
    base: &str,
    related: &str,
    name: &str,
) -> Result<(), Fault>
    ensures { ChangesWhere S.Store tx.old tx.new (λ p. get p.relations mapping.now ≡ None)
        (λ p. record p {
          relations = insert p.relations mapping.now
              (new_relation base.now related.now name.now);
        }) result }
{
    run(
        tx,
        "INSERT INTO gpkgext_relations (base_table_name, base_primary_column, related_table_name, related_primary_column, relation_name, mapping_table_name) VALUES (?1, 'id', ?2, 'id', ?3, ?4)",
        params![base, related, name, mapping],
    )
}

/// Keeps a relation under the name of its mapping.
fn relate<S: Alter>(
    tx: &mut Transaction<'_, S>,
    mapping: &str,
    base: &str,
    related: &str,
    name: RelationName,
) -> Result<Outcome, Fault>
    requires { IsName mapping.now }
    ensures { Applies S.Store tx.old tx.new
        (commands.Relation mapping.now base.now related.now name) result }
{
    if let Some(number) = relation_refusal(tx, mapping, base, related, name)? {
        return Ok(Outcome::refused(number));
    }
    insert_relation(tx, mapping, base, related, text_of_name(name))?;
    insert_related_row(tx, mapping)?;
    Ok(Outcome::Done)
}

/// The command `relation`: adds a relation of two tables, under the name of its mapping, with its extension row. Refused 25
/// where one of the two is no table, 43 where a table or mapping has the mapping's name, 47 where the kinds of the two
/// tables do not suit the relation's name. (Extended Relations Table.)
pub fn add_relation<S: Alter>(
    tx: &mut Transaction<'_, S>,
    mapping: &Name,
    base: &Name,
    related: &Name,
    name: RelationName,
) -> Result<Outcome, Fault>
    ensures { Applies S.Store tx.old tx.new
        (commands.Relation mapping.now base.now related.now name) result }
{
    relate(tx, mapping.as_str(), base.as_str(), related.as_str(), name)
}

/// Removes a relation, and by their key its mapping rows.
fn delete_relation<S: Alter>(tx: &mut Transaction<'_, S>, mapping: &str) -> Result<(), Fault>
    ensures { Changes S.Store tx.old tx.new (without_relation_rows mapping.now) result }
{
    run(
        tx,
        "DELETE FROM gpkgext_relations WHERE mapping_table_name = ?1",
        params![mapping],
    )
}

/// The command `relation-drop`: removes a relation with its mapping rows and its extension row. Refused 44 where no relation
/// has the mapping's name. (Extended Relations Table.)
pub fn drop_relation<S: Alter>(
    tx: &mut Transaction<'_, S>,
    mapping: &Name,
) -> Result<Outcome, Fault>
    ensures { Applies S.Store tx.old tx.new (commands.RelationDrop mapping.now) result }
{
    let mapping = mapping.as_str();
    if !has_relation(tx, mapping)? {
        return Ok(Outcome::refused(Reason::NO_RELATION));
    }
    delete_relation(tx, mapping)?;
    delete_related_row(tx, mapping)?;
    Ok(Outcome::Done)
}
