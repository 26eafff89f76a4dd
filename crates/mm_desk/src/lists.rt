//! The rows of an attribute table as JSON.

ghost use Rattle.std.specs.Prelude.{◌≡◌, IfOk, map, string_bytes};
ghost use Rattle.serde_json.specs.View.{view};
ghost use Rattle.mm_reads.specs.RowLists.{numbered_told};
ghost use Rattle.mm_desk.specs.Lists.{numbered_data, rows_text};

use mm_definitions::entries::Row;
use serde_json::{Value, json};
use std::alloc::{AllocError, Global};

fn row_value(alloc: Global, id: i64, row: &Row) -> Result<Value, AllocError>
    ensures { IfOk result (λ v. view v ≡ numbered_data (numbered_told (id, row.now))) }
{
    json!(in alloc; {
        "amount": row.amount,
        "id": id,
        "note": row.note.as_str(),
        "title": row.title.as_str()
    })
}

/// The rows of a table with their ids, as JSON.
pub fn rows_json(alloc: Global, rows: &[(i64, Row)]) -> Result<String, AllocError>
    ensures { IfOk result (λ s. string_bytes s ≡ rows_text (map numbered_told rows.now)) }
{
    let mut values = Vec::new(alloc);
    for entry in rows {
        values.push(row_value(alloc, entry.0, &entry.1)?)?;
    }
    Value::Array(values).to_string(alloc)
}
