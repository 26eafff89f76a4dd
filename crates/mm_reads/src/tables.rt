//! The list of the tables.

ghost use Rattle.std.specs.Prelude.{◌≡◌, false, IfOk, IfErr};
ghost use Rattle.sqlite.specs.Order.{column};
ghost use Rattle.sqlite.specs.declared.types.Value.TheVariants.{Text as Words};
ghost use Rattle.mm_definitions.specs.Package.{kind_text};
ghost use Rattle.mm_definitions.specs.Faults.{IsStoreFault};
ghost use Rattle.mm_reads.specs.Contents.{ShowsPlace, ShowsPlaceOf, ShowsEntry, GathersTables, ListsTables};
ghost use Rattle.mm_store.specs.Seen.{ReadsOn};

use mm_definitions::answers::Fault;
use mm_definitions::commands::Kind;
use mm_definitions::entries::Entry;
use mm_definitions::extents::Extent;
use mm_definitions::identifiers::Identifier;
use mm_definitions::texts::Text;
use mm_store::columns::{name_in, number_in, text_in};
use mm_walk::walk::{Visitor, walk};
use sqlite::{Alter, Connection, Row};
use std::alloc::Global;

/// The kind in a column. A text that is none is a fault, 91.
fn kind_in(row: &Row, at: usize) -> Result<Kind, Fault>
    ensures shown { IfOk result (λ kind. column row.now at ≡ Words (kind_text kind)) }
    ensures fault { IfErr result IsStoreFault }
{
    let text = text_in(row, at)?;
    match Kind::named(text.as_str()) {
        Some(kind) => Ok(kind),
        None => Err(Fault::STORE),
    }
}

/// The identifier in a column. A text that is none is a fault, 91.
fn identifier_in(row: &Row, at: usize) -> Result<Identifier, Fault>
    ensures shown { IfOk result (λ identifier. column row.now at ≡ Words identifier) }
    ensures fault { IfErr result IsStoreFault }
{
    let text = text_in(row, at)?;
    match Identifier::new(text) {
        Some(identifier) => Ok(identifier),
        None => Err(Fault::STORE),
    }
}

/// The time in a column. A text of another length than a stamp's is a fault, 91.
fn time_in(row: &Row, at: usize) -> Result<Text<24, 24>, Fault>
    ensures shown { IfOk result (λ time. column row.now at ≡ Words time) }
    ensures fault { IfErr result IsStoreFault }
{
    let text = text_in(row, at)?;
    match Text::new(text) {
        Some(time) => Ok(time),
        None => Err(Fault::STORE),
    }
}

/// The reference system and the extent in the columns from 4 on. Bounds that are none of an extent are a fault, 91.
fn place_in(row: &Row) -> Result<(i64, Extent), Fault>
    ensures shown { IfOk result (λ place. ShowsPlace row.now place) }
    ensures fault { IfErr result IsStoreFault }
{
    let system = number_in(row, 4)?;
    let min_x = number_in(row, 5)?;
    let min_y = number_in(row, 6)?;
    let max_x = number_in(row, 7)?;
    let max_y = number_in(row, 8)?;
    match Extent::new(min_x, min_y, max_x, max_y) {
        Some(extent) => Ok((system, extent)),
        None => Err(Fault::STORE),
    }
}

/// The place of a table of this kind, which only pyramids have.
fn place_of(row: &Row, kind: Kind) -> Result<Option<(i64, Extent)>, Fault>
    ensures shown { IfOk result (λ place. ShowsPlaceOf row.now kind place) }
    ensures fault { IfErr result IsStoreFault }
{
    match kind {
        Kind::Two | Kind::Other => Ok(Some(place_in(row)?)),
        Kind::Attributes | Kind::Media => Ok(None),
    }
}

/// The table that a row of the list shows.
fn entry_in(row: &Row) -> Result<Entry, Fault>
    ensures shown { IfOk result (λ e. ShowsEntry row.now e) }
    ensures fault { IfErr result IsStoreFault }
{
    let table = name_in(row, 0)?;
    let kind = kind_in(row, 1)?;
    let identifier = identifier_in(row, 2)?;
    let last_change = time_in(row, 3)?;
    let place = place_of(row, kind)?;
    Ok(Entry {
        table,
        kind,
        identifier,
        last_change,
        place,
    })
}

/// The tables that the list has shown so far.
#[derive(Drop)]
struct Gathered {
    entries: Vec<Entry>,
}

impl Visitor for Gathered {
    ghost use Rattle.mm_reads.specs.Contents.{GathersTables};

    ghost takes = { λ old row new result. GathersTables old.entries.items row new.entries.items result };

    fn take(&mut self, row: &Row) -> Result<bool, Fault> {
        let entry = entry_in(row)?;
        self.entries.push(entry).map_err(|_| Fault::MEMORY)?;
        Ok(true)
    }
}

/// The tables of the contents by rising name, each with its kind, identifier and last_change, and exactly the pyramids
/// with their reference system and extent. (Contents.) A fault is 90 where memory was refused, and else 91, also where
/// a value stands that no package has; the connection is then as settled as before.
pub fn contents<S: Alter>(alloc: Global, conn: &mut Connection<S>) -> Result<Vec<Entry>, Fault>
    requires { conn.old.in_transaction ≡ false }
    ensures mode { conn.new.in_transaction ≡ false }
    ensures read { ReadsOn S.Store conn.old conn.new (λ p tables. ListsTables p tables.items)
        result }
{
    let mut gathered = Gathered {
        entries: Vec::new(alloc),
    };
    walk(
        conn,
        "SELECT c.table_name, t.kind, c.identifier, c.last_change, c.srs_id, c.min_x, c.min_y, c.max_x, c.max_y FROM gpkg_contents AS c LEFT JOIN mm_tables AS t ON t.table_name = c.table_name ORDER BY c.table_name",
        &[],
        &mut gathered,
    )?;
    Ok(gathered.entries)
}
