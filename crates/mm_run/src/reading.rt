//! Reading a record as a command.

ghost use Rattle.csv.specs.Records.{fields_of};
ghost use Rattle.std.specs.Prelude.{◌≡◌};
ghost use Rattle.mm_run.specs.Readings.{IsCommandRead};

use csv::{ByteRecord, StringRecord};
use mm_base::read_command;
use mm_definitions::answers::ReadFault;
use mm_definitions::commands::Command;
use mm_definitions::refusals::Reason;
use mm_io::text_fields;
use std::alloc::Global;

/// The command that a record spells. One with a field that isn't text is refused 10.
pub(crate) fn read_row(alloc: Global, row: ByteRecord) -> Result<Command, ReadFault>
    ensures { IsCommandRead (fields_of row) result }
{
    let Ok(text) = StringRecord::from_byte_record(row) else {
        return Err(ReadFault::refused(Reason::NO_SUCH_RECORD));
    };
    let Ok(fields) = text_fields(alloc, &text) else {
        return Err(ReadFault::Memory);
    };
    match read_command(alloc, fields.as_slice()) {
        Ok(command) => Ok(command),
        Err(fault) => Err(fault),
    }
}
