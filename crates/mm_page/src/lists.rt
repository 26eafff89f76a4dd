//! The lists of the page as JSON.

ghost use Rattle.std.specs.Prelude.{◌≡◌, IfOk, None, Some, map, string_bytes};
ghost use Rattle.serde_json.specs.View.{view};
ghost use Rattle.mm_definitions.specs.Package.{kind_text};
ghost use Rattle.mm_reads.specs.Contents as listing;
ghost use Rattle.mm_reads.specs.Related.{mate_told};
ghost use Rattle.mm_page.specs.Lists.{mate_data, mates_text, table_data, table_data_at, tables_text};

use mm_definitions::commands::Kind;
use mm_definitions::entries::{Entry, Related};
use mm_definitions::extents::Extent;
use serde_json::{Value, json};
use std::alloc::{AllocError, Global};

/// The word of a kind.
fn word_of(kind: Kind) -> &'static str
    ensures { result.now ≡ kind_text kind }
{
    match kind {
        Kind::Two => "two",
        Kind::Other => "other",
        Kind::Attributes => "attributes",
        Kind::Media => "media",
    }
}

fn mate_value(alloc: Global, mate: &Related) -> Result<Value, AllocError>
    ensures { IfOk result (λ v. view v ≡ mate_data (mate_told mate.now)) }
{
    json!(in alloc; {
        "id": mate.id,
        "mapping": mate.mapping.as_str(),
        "name": mate.name.as_str(),
        "table": mate.table.as_str()
    })
}

/// A pyramid, with its system and its extent.
fn pyramid_value(
    alloc: Global,
    entry: &Entry,
    system: i64,
    extent: &Extent,
) -> Result<Value, AllocError>
    ensures { IfOk result (λ v. view v
        ≡ table_data_at (listing.table_told entry.now) (Some (system, extent.now))) }
{
    json!(in alloc; {
        "data_type": "tiles",
        "extent": [extent.min_x(), extent.min_y(), extent.max_x(), extent.max_y()],
        "identifier": entry.identifier.as_str(),
        "kind": word_of(entry.kind),
        "last_change": entry.last_change.as_str(),
        "srs_id": system,
        "table": entry.table.as_str()
    })
}

/// Another table.
fn attributes_value(alloc: Global, entry: &Entry) -> Result<Value, AllocError>
    ensures { IfOk result (λ v. view v ≡ table_data_at (listing.table_told entry.now) None) }
{
    json!(in alloc; {
        "data_type": "attributes",
        "identifier": entry.identifier.as_str(),
        "kind": word_of(entry.kind),
        "last_change": entry.last_change.as_str(),
        "table": entry.table.as_str()
    })
}

fn table_value(alloc: Global, entry: &Entry) -> Result<Value, AllocError>
    ensures { IfOk result (λ v. view v ≡ table_data (listing.table_told entry.now)) }
{
    match &entry.place {
        Some((system, extent)) => pyramid_value(alloc, entry, *system, extent),
        None => attributes_value(alloc, entry),
    }
}

/// What an item is related to, as JSON.
pub fn mates_json(alloc: Global, mates: &[Related]) -> Result<String, AllocError>
    ensures { IfOk result (λ s. string_bytes s ≡ mates_text (map mate_told mates.now)) }
{
    let mut values = Vec::new(alloc);
    for mate in mates {
        values.push(mate_value(alloc, mate)?)?;
    }
    Value::Array(values).to_string(alloc)
}

/// The tables as JSON.
pub fn tables_json(alloc: Global, tables: &[Entry]) -> Result<String, AllocError>
    ensures { IfOk result (λ s. string_bytes s ≡ tables_text (map listing.table_told tables.now)) }
{
    let mut values = Vec::new(alloc);
    for entry in tables {
        values.push(table_value(alloc, entry)?)?;
    }
    Value::Array(values).to_string(alloc)
}
