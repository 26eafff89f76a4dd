//! The records that write rows.

ghost use Rattle.std.specs.Prelude.{◌≡◌, IfOk, OnOk, map};
ghost use Rattle.std.specs.Io.KnownBytes.{Appends};
ghost use Rattle.csv.specs.Writing.{text_written};
ghost use Rattle.mm_reads.specs.RowLists.{numbered_told};
ghost use Rattle.mm_show.specs.Records.{IsAtStart, row_record, row_records};

use csv::{Error, Writer};
use itoa::Buffer;
use mm_definitions::entries::Row;
use std::alloc::{AllocError, Global};
use std::io::Write;

/// Writes the record of a row.
fn put_record<W: Write + Drop>(
    records: &mut Writer<W>,
    table: &str,
    row: &(i64, Row),
) -> Result<(), Error>
    requires { IsAtStart records.old }
    ensures text { OnOk result
        (Appends (text_written W.contents records.old) (text_written W.contents records.new)
        (row_record table.now (numbered_told row.now))) }
    ensures start { OnOk result (IsAtStart records.new) }
{
    let mut id_digits = Buffer::new();
    let mut amount_digits = Buffer::new();
    records.write_fields(&[
        b"row",
        table.as_bytes(),
        id_digits.format(row.0).as_bytes(),
        row.1.title.as_str().as_bytes(),
        row.1.note.as_str().as_bytes(),
        amount_digits.format(row.1.amount).as_bytes(),
    ])
}

/// The records of some rows, one behind another. Want of memory is the only error.
pub(crate) fn records_text(
    alloc: Global,
    table: &str,
    rows: &[(i64, Row)],
) -> Result<Vec<u8>, AllocError>
    ensures { IfOk result
        (λ text. text.items ≡ row_records table.now (map numbered_told rows.now)) }
{
    let mut records = Writer::from_writer(Vec::new(alloc));
    for row in rows {
        if put_record(&mut records, table, row).is_err() {
            return Err(AllocError);
        }
    }
    match records.into_inner() {
        Ok(text) => Ok(text),
        Err(_) => Err(AllocError),
    }
}
