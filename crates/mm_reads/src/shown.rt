//! The line that a row of a query shows. Each value that no package has is a fault, 91.

ghost use Rattle.std.specs.Prelude.{◌≡◌, Some, IfOk, IfErr};
ghost use Rattle.sqlite.specs.Order.{column};
ghost use Rattle.sqlite.specs.declared.types.Value.TheVariants.{Text as Words};
ghost use Rattle.mm_definitions.specs.Faults.{IsStoreFault};
ghost use Rattle.mm_reads.specs.Listing.{by_kind};
ghost use Rattle.mm_reads.specs.ShownLines.{IsCount, ShowsEdition, ShowsTable};

use crate::lines::{Line, open_line, published_line, table_line};
use mm_definitions::answers::Fault;
use sqlite::Row;
use sqlite::types::ValueRef;

/// The text in a column.
fn text_in(row: &Row, at: usize) -> Result<&[u8], Fault>
    ensures shown { IfOk result (λ text. column row.now at ≡ Words text.now) }
    ensures fault { IfErr result IsStoreFault }
{
    match row.get_ref(at) {
        Ok(ValueRef::Text(bytes)) => Ok(bytes),
        _ => Err(Fault::STORE),
    }
}

/// The count in a column. The store tells none above that at which it is refused here.
fn count_in(row: &Row, at: usize) -> Result<u64, Fault>
    ensures shown { IfOk result (λ count. IsCount (column row.now at) count) }
    ensures fault { IfErr result IsStoreFault }
{
    match row.get_ref(at) {
        Ok(ValueRef::Int(count)) if 0 <= count && count < i64::MAX => Ok(count as u64),
        _ => Err(Fault::STORE),
    }
}

/// The column of the count that a table of this kind has.
fn count_column(kind: &[u8]) -> Result<usize, Fault>
    ensures column { IfOk result (λ at. by_kind kind.now 4 5 6 ≡ Some at) }
    ensures fault { IfErr result IsStoreFault }
{
    if kind == b"two".as_slice() || kind == b"other".as_slice() {
        Ok(4)
    } else if kind == b"attributes".as_slice() {
        Ok(5)
    } else if kind == b"media".as_slice() {
        Ok(6)
    } else {
        Err(Fault::STORE)
    }
}

/// The line of a table, from its name, kind, time and identifier, and three counts of which the kind tells one.
pub(crate) fn table_in(row: &Row) -> Result<Line, Fault>
    ensures shown { IfOk result (λ line. ShowsTable row.now line.items) }
    ensures fault { IfErr result IsStoreFault }
{
    let name = text_in(row, 0)?;
    let kind = text_in(row, 1)?;
    let time = text_in(row, 2)?;
    let identifier = text_in(row, 3)?;
    let at = count_column(kind)?;
    let count = count_in(row, at)?;
    table_line(name, kind, count, time, identifier)
}

/// The line of an edition, from its name, its state and the count of its pieces.
pub(crate) fn edition_in(row: &Row) -> Result<Line, Fault>
    ensures shown { IfOk result (λ line. ShowsEdition row.now line.items) }
    ensures fault { IfErr result IsStoreFault }
{
    let name = text_in(row, 0)?;
    let state = text_in(row, 1)?;
    if state == b"open".as_slice() {
        let count = count_in(row, 2)?;
        open_line(name, count)
    } else if state == b"published".as_slice() {
        published_line(name)
    } else {
        Err(Fault::STORE)
    }
}
