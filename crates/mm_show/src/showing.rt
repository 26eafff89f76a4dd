//! All rows of an attribute table, or the one of an id, or why there are none to show.

ghost use Rattle.std.specs.Prelude.{◌≡◌, ◌+ℤ◌, ℤ, pos, false, true, Err, Some, bytes_eq, IfErr, IfOk, IfSome, IsSome, OnOk, map, unwrap_or};
ghost use Rattle.std.specs.List.{list_any};
ghost use Rattle.mm_definitions.specs.Faults as faults;
ghost use Rattle.mm_definitions.specs.Bounds.{current};
ghost use Rattle.mm_definitions.specs.Keys.{same_number};
ghost use Rattle.mm_definitions.specs.Package.{Package};
ghost use Rattle.mm_definitions.specs.Rules.{Meets};
ghost use Rattle.mm_definitions.specs.Streams.{has_failed, written};
ghost use Rattle.mm_definitions.specs.Faults.{IsStoreFault};
ghost use Rattle.mm_reads.specs.RowLists.{lists_rows, first_rows, numbered_told};
ghost use Rattle.mm_reads.specs.Viewers.{IsOn, IsViewFault, LeavesPackage};
ghost use Rattle.mm_reads.specs.Writing.{IsOut, ListingTellsWriter};
ghost use Rattle.mm_show.specs.Showing.{ShowsRecords, table_refusal};
ghost use Rattle.mm_show.specs.Turns.{PrintsFrom, ShowsFirst, TellsNext, TurnsOn};

use crate::printing::print_rows;
use mm_definitions::answers::Fault;
use mm_definitions::entries::{Entry, Row};
use mm_definitions::names::Name;
use mm_definitions::refusals::Reason;
use mm_definitions::streams::Io;
use mm_reads::{MOST_ROWS, Viewer};
use std::alloc::Global;
use std::io::Write;

/// What comes behind the id of a row. (An id that has none behind it is of no package.)
fn id_behind(row: &(i64, Row)) -> Result<i64, Fault>
    ensures next { IfOk result (λ next. next ≡ row.now.0 +ℤ pos 1) }
    ensures fault { IfErr result IsStoreFault }
{
    if row.0 == i64::MAX {
        return Err(Fault::STORE);
    }
    Ok(row.0 + 1)
}

/// The id from which on there may be more rows than these, if so.
fn next_first(rows: &[(i64, Row)]) -> Result<Option<i64>, Fault>
    ensures { TellsNext (map numbered_told rows.now) result }
{
    if rows.len() < MOST_ROWS {
        return Ok(None);
    }
    let next = id_behind(&rows[rows.len() - 1])?;
    Ok(Some(next))
}

/// Prints some rows, the first from an id on, and reads those behind them.
fn print_and_read<V: Viewer, W: Write>(
    alloc: Global,
    viewer: &mut V,
    table: &Name,
    rows: &[(i64, Row)],
    output: &mut Io<W>,
) -> Result<Option<Vec<(i64, Row)>>, Fault>
    ensures same { V.has_failed viewer.new ≡ V.has_failed viewer.old }
    ensures kept { LeavesPackage (V.store viewer.old) (V.store viewer.new) }
    ensures turned { (p : Package)
        → IsOn (V.has_failed viewer.old) (V.store viewer.old) (V.store viewer.new) p
        → lists_rows p table.now ≡ true → (first : ℤ)
        → map numbered_told rows.now ≡ first_rows p table.now first
        → TurnsOn p table.now first (written W.contents output.old) (written W.contents output.new)
        result }
    ensures working { OnOk result (has_failed output.new ≡ has_failed output.old) }
    ensures out { IsOut output.old → IsOut output.new }
    ensures writer { IfErr result (λ fault. V.has_failed viewer.old ≡ false
        → ListingTellsWriter (has_failed output.old) (has_failed output.new) (Err fault)) }
{
    print_rows(alloc, table, rows, output)?;
    match next_first(rows)? {
        Some(first) => viewer.rows(table, first),
        None => Ok(None),
    }
}

/// Prints the rows of a table from an id on, of which these are the first.
fn print_from<V: Viewer, W: Write>(
    alloc: Global,
    viewer: &mut V,
    table: &Name,
    first_of_all: Vec<(i64, Row)>,
    output: &mut Io<W>,
) -> Result<(), Fault>
    ensures same { V.has_failed viewer.new ≡ V.has_failed viewer.old }
    ensures kept { LeavesPackage (V.store viewer.old) (V.store viewer.new) }
    ensures printed { (p : Package)
        → IsOn (V.has_failed viewer.old) (V.store viewer.old) (V.store viewer.new) p
        → lists_rows p table.now ≡ true → (first : ℤ)
        → map numbered_told first_of_all.items ≡ first_rows p table.now first
        → PrintsFrom p table.now first (written W.contents output.old)
        (written W.contents output.new) result }
    ensures working { OnOk result (has_failed output.new ≡ has_failed output.old) }
    ensures out { IsOut output.old → IsOut output.new }
    ensures writer { IfErr result (λ fault. V.has_failed viewer.old ≡ false
        → ListingTellsWriter (has_failed output.old) (has_failed output.new) (Err fault)) }
{
    let mut rows = first_of_all;
    for turn in 0..u64::MAX {
        match print_and_read(alloc, viewer, table, &rows, output)? {
            Some(more) => rows = more,
            None => return Ok(()),
        }
    }
    Err(Fault::STORE)
}

/// Whether a row has this id.
fn has_id(row: &(i64, Row), id: i64) -> bool
    ensures { result ≡ same_number row.now.0 id }
{
    row.0 == id
}

/// Prints the first of some rows where it has this id, and tells 40 where it hasn't.
fn show_first<W: Write>(
    alloc: Global,
    table: &Name,
    id: i64,
    rows: &[(i64, Row)],
    output: &mut Io<W>,
) -> Result<Option<Reason>, Fault>
    ensures shown { ShowsFirst table.now id (map numbered_told rows.now) (written W.contents output.old)
        (written W.contents output.new) result }
    ensures untold { IfOk result (λ why. IfSome why (λ number. output.new ≡ output.old)) }
    ensures out { IsOut output.old → IsOut output.new }
{
    if rows.is_empty() {
        return Ok(Some(Reason::NO_ROW));
    }
    if !has_id(&rows[0], id) {
        return Ok(Some(Reason::NO_ROW));
    }
    print_rows(alloc, table, &rows[..1], output)?;
    Ok(None)
}

/// Whether a table is among some.
fn stands(tables: &[Entry], name: &Name) -> bool
    ensures { result ≡ list_any (λ entry. bytes_eq entry.table name.now) tables.now }
{
    tables
        .iter()
        .any(|entry| entry.table.as_str() == name.as_str())
}

/// Why no attribute table has a name: 25 where no table has it, and else 26.
fn reason_of<V: Viewer>(viewer: &mut V, table: &Name) -> Result<Option<Reason>, Fault>
    ensures same { V.has_failed viewer.new ≡ V.has_failed viewer.old }
    ensures kept { LeavesPackage (V.store viewer.old) (V.store viewer.new) }
    ensures why { IfOk result (λ why. (p : Package)
        → IsOn (V.has_failed viewer.old) (V.store viewer.old) (V.store viewer.new) p
        → why ≡ Some (table_refusal p table.now)) }
    ensures some { IfOk result (λ why. IsSome why) }
    ensures fault { IfErr result (IsViewFault (V.has_failed viewer.old)) }
{
    let tables = viewer.contents()?;
    if stands(&tables, table) {
        Ok(Some(Reason::ANOTHER_KIND))
    } else {
        Ok(Some(Reason::NO_TABLE))
    }
}

/// Prints all rows of a table, or the one of an id, of which these are the first that were read.
fn show_found<V: Viewer, W: Write>(
    alloc: Global,
    viewer: &mut V,
    table: &Name,
    id: Option<i64>,
    rows: Vec<(i64, Row)>,
    output: &mut Io<W>,
) -> Result<Option<Reason>, Fault>
    ensures same { V.has_failed viewer.new ≡ V.has_failed viewer.old }
    ensures kept { LeavesPackage (V.store viewer.old) (V.store viewer.new) }
    ensures shown { (p : Package)
        → IsOn (V.has_failed viewer.old) (V.store viewer.old) (V.store viewer.new) p
        → Meets current p → lists_rows p table.now ≡ true
        → map numbered_told rows.items ≡ first_rows p table.now (unwrap_or id (pos 1))
        → ShowsRecords p table.now id (written W.contents output.old) (written W.contents output.new)
        result }
    ensures untold { IfOk result (λ why. IfSome why (λ number. output.new ≡ output.old)) }
    ensures working { OnOk result (has_failed output.new ≡ has_failed output.old) }
    ensures out { IsOut output.old → IsOut output.new }
    ensures writer { IfErr result (λ fault. V.has_failed viewer.old ≡ false
        → ListingTellsWriter (has_failed output.old) (has_failed output.new) (Err fault)) }
{
    match id {
        Some(id) => show_first(alloc, table, id, &rows, output),
        None => {
            print_from(alloc, viewer, table, rows, output)?;
            Ok(None)
        }
    }
}

/// Prints all rows of an attribute table, or the one of an id, as the records that write them: `row,TABLE,ID,TITLE,NOTE,AMOUNT`,
/// by rising id, some at a time. It tells why there are none to show, and prints nothing then: 25 where there is no such table, 26
/// where it is of another kind, 40 where it has no such row. What is shown is as it was.
///
/// # Errors
///
/// At a fault a beginning of the records was printed: 97 where the output failed; 90 for want of memory, and 91 where
/// the store failed or gave a value that no package has. 92 where the viewer has to be opened again, and then nothing
/// was printed.
pub fn show_rows<V: Viewer, W: Write>(
    alloc: Global,
    viewer: &mut V,
    table: &Name,
    id: Option<i64>,
    output: &mut Io<W>,
) -> Result<Option<Reason>, Fault>
    ensures same { V.has_failed viewer.new ≡ V.has_failed viewer.old }
    ensures kept { LeavesPackage (V.store viewer.old) (V.store viewer.new) }
    ensures shown { (p : Package)
        → IsOn (V.has_failed viewer.old) (V.store viewer.old) (V.store viewer.new) p
        → ShowsRecords p table.now id (written W.contents output.old) (written W.contents output.new)
        result }
    ensures untold { IfOk result (λ why. IfSome why (λ number. output.new ≡ output.old)) }
    ensures working { OnOk result (has_failed output.new ≡ has_failed output.old) }
    ensures out { IsOut output.old → IsOut output.new }
    ensures writer { IfErr result (λ fault. V.has_failed viewer.old ≡ false
        → ListingTellsWriter (has_failed output.old) (has_failed output.new) (Err fault)) }
    ensures ended { V.has_failed viewer.old ≡ true
        → (result ≡ Err faults.reopen) × (output.new ≡ output.old) }
{
    match viewer.rows(table, id.unwrap_or(1))? {
        Some(rows) => show_found(alloc, viewer, table, id, rows, output),
        None => reason_of(viewer, table),
    }
}
