//! The list of a kit.

ghost use Rattle.std.specs.Prelude.{◌≡◌, ℕ, List, IfOk, OnSome, Some};
ghost use Rattle.csv.specs.Reading.{reader_state, source_of, strip_bom};
ghost use Rattle.csv.specs.Records.{fields_of};
ghost use Rattle.csv.specs.declared.parser.State.TheVariants as states;
ghost use Rattle.mm_io.specs.Records.{IsSetUp, NextRow, records_of};
ghost use Rattle.csv.specs.Reading.{default_config, records};
ghost use Rattle.mm_kit.specs.Lists.{AreSound, IsListRead, IsEntryRead, list_read};

use crate::entries::{KitEntry, read_entry};
use csv::{ByteRecord, Reader, StringRecord};
use mm_definitions::answers::ReadFault;
use mm_definitions::limits::MOST_PIECES;
use mm_definitions::refusals::Reason;
use mm_io::{open_rows, text_fields};
use std::alloc::{AllocError, Global};
use std::io::Read;

/// What a list comes to: its entries, or the first record that is refused, with its number.
#[derive(Drop)]
pub enum Listed {
    Entries(Vec<KitEntry>),
    Refused(u32, Reason),
}

/// The next record, if there is one. The bytes are in memory, so that nothing but memory is wanted.
fn next_record<T: Read>(
    alloc: Global,
    rows: &mut Reader<T>,
) -> Result<Option<ByteRecord>, AllocError>
    requires { IsSetUp rows.old }
    ensures stays { IfOk result (λ o. OnSome o (IsSetUp rows.new)) }
    ensures reads { IfOk result (λ o. NextRow T.remaining rows.old rows.new o) }
{
    let mut row = ByteRecord::new(alloc);
    match rows.read_byte_record(&mut row) {
        Ok(true) => Ok(Some(row)),
        Ok(false) => Ok(None),
        Err(_) => Err(AllocError),
    }
}

/// The entry of a record at a place. One with a field that isn't text is refused 10.
fn read_row(alloc: Global, place: u32, row: ByteRecord) -> Result<KitEntry, ReadFault>
    ensures { IsEntryRead place (fields_of row) result }
{
    let Ok(text) = StringRecord::from_byte_record(row) else {
        return Err(ReadFault::refused(Reason::NO_SUCH_RECORD));
    };
    let Ok(fields) = text_fields(alloc, &text) else {
        return Err(ReadFault::Memory);
    };
    read_entry(alloc, place, fields.as_slice())
}

/// The entries of the records of a reader.
fn read_rows<T: Read>(alloc: Global, rows: &mut Reader<T>) -> Result<Listed, AllocError>
    requires { IsSetUp rows.old }
    ensures lists { IfOk result (λ l. (bytes : List ℕ) → source_of T.remaining rows.old ≡ Some bytes
        → reader_state rows.old ≡ states.StartRecord
        → IsListRead (records default_config bytes) (list_read l)) }
    ensures sound { IfOk result AreSound }
{
    let mut entries = Vec::new(alloc);
    for place in 1..MOST_PIECES + 2 {
        match next_record(alloc, rows)? {
            Some(row) => match read_row(alloc, place, row) {
                Ok(entry) => {
                    if entries.push(entry).is_err() {
                        return Err(AllocError);
                    }
                }
                Err(fault) => match fault {
                    ReadFault::Refused(why) => return Ok(Listed::Refused(place, why.reason())),
                    ReadFault::Memory => return Err(AllocError),
                },
            },
            None => return Ok(Listed::Entries(entries)),
        }
    }
    unreachable!()
}

/// The entries of a list, or its first record that is refused.
pub(crate) fn read_list(alloc: Global, bytes: &[u8]) -> Result<Listed, AllocError>
    ensures lists { IfOk result (λ l. IsListRead (records_of bytes.now) (list_read l)) }
    ensures sound { IfOk result AreSound }
{
    let mut rows = open_rows(alloc, bytes);
    read_rows(alloc, &mut rows)
}
