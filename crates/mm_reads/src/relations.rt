//! The mapping rows of an item, from a relation's base to its related table.

ghost use Rattle.std.specs.Prelude.{◌≡◌, false, IfOk, IfErr};
ghost use Rattle.mm_definitions.specs.Faults.{IsStoreFault};
ghost use Rattle.mm_reads.specs.Related.{ShowsRelated, GathersMates, ListsMates, TellsMates};
ghost use Rattle.mm_store.specs.Seen.{ReadsOn};

use crate::items::stands;
use mm_definitions::answers::Fault;
use mm_definitions::entries::Related;
use mm_definitions::names::Name;
use mm_store::columns::{name_in, number_in, remark_in};
use mm_walk::walk::{Visitor, walk};
use sqlite::{Alter, Connection, Row, params};
use std::alloc::Global;

/// The item that a row of the list shows.
fn related_in(row: &Row) -> Result<Related, Fault>
    ensures shown { IfOk result (λ r. ShowsRelated row.now r) }
    ensures fault { IfErr result IsStoreFault }
{
    let mapping = name_in(row, 0)?;
    let name = remark_in(row, 1)?;
    let table = name_in(row, 2)?;
    let id = number_in(row, 3)?;
    Ok(Related {
        mapping,
        name,
        table,
        id,
    })
}

/// The items that the list has shown so far.
#[derive(Drop)]
struct Gathered {
    items: Vec<Related>,
}

impl Visitor for Gathered {
    ghost use Rattle.mm_reads.specs.Related.{GathersMates};

    ghost takes = { λ old row new result. GathersMates old.items.items row new.items.items result };

    fn take(&mut self, row: &Row) -> Result<bool, Fault> {
        let item = related_in(row)?;
        self.items.push(item).map_err(|_| Fault::MEMORY)?;
        Ok(true)
    }
}

/// The mapping rows that have an item as their base. A mapping has one related table, so they come by mapping, related table and
/// id where they come by mapping and id.
fn listed<S: Alter>(
    alloc: Global,
    conn: &mut Connection<S>,
    table: &str,
    id: i64,
) -> Result<Vec<Related>, Fault>
    requires { conn.old.in_transaction ≡ false }
    ensures mode { conn.new.in_transaction ≡ false }
    ensures read { ReadsOn S.Store conn.old conn.new
        (λ p items. ListsMates p table.now id items.items) result }
{
    let mut gathered = Gathered {
        items: Vec::new(alloc),
    };
    walk(
        conn,
        "SELECT r.mapping_table_name, r.relation_name, r.related_table_name, m.related_id FROM gpkgext_relations AS r JOIN mm_map AS m ON m.mapping = r.mapping_table_name AND m.base_id = ?2 WHERE r.base_table_name = ?1 ORDER BY r.mapping_table_name, m.related_id",
        params![table, id],
        &mut gathered,
    )?;
    Ok(gathered.items)
}

/// What an attribute row or medium is related to, from the base of a relation to its related table only, ordered by mapping,
/// related table and id; None where the table has no item of the id. (Related Tables Extension.) A fault is 90 where memory was
/// refused, and else 91, also where a value stands that no package has; the connection is then as settled as before.
pub fn related<S: Alter>(
    alloc: Global,
    conn: &mut Connection<S>,
    table: &Name,
    id: i64,
) -> Result<Option<Vec<Related>>, Fault>
    requires { conn.old.in_transaction ≡ false }
    ensures mode { conn.new.in_transaction ≡ false }
    ensures read { ReadsOn S.Store conn.old conn.new (λ p found. TellsMates p table.now id found)
        result }
{
    let table = table.as_str();
    if !stands(conn, table, id)? {
        return Ok(None);
    }
    let items = listed(alloc, conn, table, id)?;
    Ok(Some(items))
}
