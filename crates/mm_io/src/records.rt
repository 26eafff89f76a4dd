//! Reading records by `csv`.

ghost use Rattle.std.specs.Prelude.{◌≡◌, IfOk, IfErr, OnOk, OnSome, map, option_map};
ghost use Rattle.csv.specs.Reading.{reader_source, reader_state, source_of, strip_bom};
ghost use Rattle.csv.specs.Records.{fields_of};
ghost use Rattle.csv.specs.declared.parser.State.TheVariants as states;
ghost use Rattle.mm_io.specs.Records.{IsReadFault, IsSetUp, NextRow, WorksStill, read_fault};

use crate::lending::Tells;
use csv::{ByteRecord, Reader, ReaderBuilder, StringRecord};
use mm_definitions::answers::Fault;
use std::alloc::{AllocError, Global};
use std::io::Read;

/// A reader of records: fields behind commas, double quotes doubled inside quotes, no row of headers, nothing trimmed,
/// each record of any length. It starts at the first record of what the source has still to give.
pub fn open_rows<T: Read>(alloc: Global, source: T) -> Reader<T>
    ensures set_up { IsSetUp result }
    ensures start { reader_state result ≡ states.StartRecord }
    ensures bytes { source_of T.remaining result ≡ option_map strip_bom (T.remaining source) }
    ensures source { reader_source result ≡ source }
{
    ReaderBuilder::new()
        .has_headers(false)
        .flexible(true)
        .from_reader(alloc, source)
}

/// The next record as `csv` reads it, or none at the end of the bytes.
///
/// # Errors
///
/// 96 where the reader tells that it failed, and 90 else: want of memory is the only other cause. (An error of the
/// reader that it doesn't tell can't occur; it would be 90.) After an error no more records are read.
fn parsed_row<T: Read + Tells>(
    alloc: Global,
    rows: &mut Reader<T>,
) -> Result<Option<ByteRecord>, Fault>
    requires { IsSetUp rows.old }
    ensures stays { IfOk result (λ o. OnSome o (IsSetUp rows.new)) }
    ensures reads { IfOk result (λ o. NextRow T.remaining rows.old rows.new o) }
    ensures fault { IfErr result (λ f. IsReadFault f.0 (T.has_failed (reader_source rows.new))) }
    ensures number { IfErr result (λ f. f.0 ≡ read_fault (T.has_failed (reader_source rows.new))) }
{
    let mut row = ByteRecord::new(alloc);
    match rows.read_byte_record(&mut row) {
        Ok(true) => Ok(Some(row)),
        Ok(false) => Ok(None),
        Err(_) => {
            if rows.get_ref().failed() {
                Err(Fault::INPUT)
            } else {
                Err(Fault::MEMORY)
            }
        }
    }
}

/// The next record, or none at the end of the bytes.
///
/// # Errors
///
/// 96 where the reader has failed, and 90 for want of memory. After an error no more records are read.
pub fn next_row<T: Read + Tells>(
    alloc: Global,
    rows: &mut Reader<T>,
) -> Result<Option<ByteRecord>, Fault>
    requires { IsSetUp rows.old }
    ensures stays { IfOk result (λ o. OnSome o (IsSetUp rows.new)) }
    ensures reads { IfOk result (λ o. NextRow T.remaining rows.old rows.new o) }
    ensures working { OnOk result
        (WorksStill (T.has_failed (reader_source rows.old)) (T.has_failed (reader_source rows.new))) }
    ensures fault { IfErr result (λ f. IsReadFault f.0 (T.has_failed (reader_source rows.new))) }
    ensures number { IfErr result (λ f. f.0 ≡ read_fault (T.has_failed (reader_source rows.new))) }
{
    let had_failed = rows.get_ref().failed();
    let row = parsed_row(alloc, rows)?;
    if had_failed {
        return Ok(row);
    }
    // `csv` reads no record from a reader that fails, but doesn't promise it.
    if rows.get_ref().failed() {
        return Err(Fault::INPUT);
    }
    Ok(row)
}

/// The fields of a record of text, in order.
///
/// # Errors
///
/// Want of memory alone.
pub fn text_fields(alloc: Global, row: &StringRecord) -> Result<Vec<&str>, AllocError>
    ensures { IfOk result (λ v. map (λ f. f.now) v.items ≡ fields_of row.now) }
{
    let mut fields = Vec::new(alloc);
    'fields: for i in 0..row.len() {
        let Some(field) = row.get(i) else {
            unreachable!()
        };
        fields.push(field)?;
    }
    Ok(fields)
}
