//! Records that are printed.

ghost use Rattle.std.specs.Prelude.{map};
ghost use Rattle.mm_definitions.specs.Streams.{written};
ghost use Rattle.mm_reads.specs.RowLists.{numbered_told};
ghost use Rattle.mm_reads.specs.Writing.{IsOut};
ghost use Rattle.mm_show.specs.Records.{row_records};
ghost use Rattle.mm_show.specs.Showing.{IsTextPrinted};

use crate::records::records_text;
use mm_definitions::answers::Fault;
use mm_definitions::entries::Row;
use mm_definitions::names::Name;
use mm_definitions::streams::Io;
use mm_io::{Sent, send};
use std::alloc::Global;
use std::io::Write;

/// Prints the records of some rows. At a fault a beginning of them was: 97 where the output failed, and 90 for want of memory.
pub(crate) fn print_rows<W: Write>(
    alloc: Global,
    table: &Name,
    rows: &[(i64, Row)],
    output: &mut Io<W>,
) -> Result<(), Fault>
    ensures printed { IsTextPrinted (written W.contents output.old) (written W.contents output.new)
        (row_records table.now (map numbered_told rows.now)) result }
    ensures out { IsOut output.old → IsOut output.new }
{
    let Ok(text) = records_text(alloc, table.as_str(), rows) else {
        return Err(Fault::MEMORY);
    };
    match send(output, text.as_slice()) {
        Sent::Flushed => Ok(()),
        Sent::Unflushed => Err(Fault::OUTPUT),
        Sent::Cut => Err(Fault::OUTPUT),
    }
}
