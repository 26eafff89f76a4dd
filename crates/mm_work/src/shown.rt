//! Rows of a table as the records that write them.

ghost use Rattle.std.specs.Prelude.{◌≡◌, ◌≤◌, Err, false, IfErr, IfOk, OnOk};
ghost use Rattle.mm_definitions.specs.Package.{Package};
ghost use Rattle.mm_definitions.specs.Streams.{has_failed, written};
ghost use Rattle.mm_io.specs.Sending.{IsOut};
ghost use Rattle.mm_core.specs.Viewers.{IsOn, LeavesPackage};
ghost use Rattle.mm_core.specs.Writing.{ListingTellsWriter};
ghost use Rattle.mm_work.specs.Shown.{TellsReason, TellsShownRows};

use crate::tell::{DONE, REFUSED, numbered_line};
use mm_definitions::answers::Fault;
use mm_definitions::names::Name;
use mm_definitions::refusals::Reason;
use mm_definitions::streams::Io;
use mm_io::{Sent, send};
use mm_reads::Viewer;
use mm_show::show_rows;
use std::alloc::Global;
use std::io::Write;

/// Prints why there is nothing to show.
fn tell_reason<W: Write>(output: &mut Io<W>, reason: Reason) -> Result<u8, Fault>
    ensures told { TellsReason (written W.contents output.old) (written W.contents output.new)
        reason result }
    ensures out { IsOut output.new }
{
    let line = numbered_line(b"refused ", reason.get());
    match send(output, line.as_slice()) {
        Sent::Flushed => Ok(REFUSED),
        Sent::Unflushed => Err(Fault::OUTPUT),
        Sent::Cut => Err(Fault::OUTPUT),
    }
}

/// Prints rows, or why there are none to show, with the exit status that goes with it: 0, or 1.
pub fn rows_told<V: Viewer, W: Write>(
    alloc: Global,
    viewer: &mut V,
    table: &Name,
    id: Option<i64>,
    output: &mut Io<W>,
) -> Result<u8, Fault>
    ensures kept { LeavesPackage (V.store viewer.old) (V.store viewer.new) }
    ensures told { (p : Package)
        → IsOn (V.has_failed viewer.old) (V.store viewer.old) (V.store viewer.new) p
        → TellsShownRows p table.now id (written W.contents output.old) (written W.contents output.new)
        result }
    ensures status { IfOk result (λ status. status ≤ 1) }
    ensures working { OnOk result (has_failed output.new ≡ has_failed output.old) }
    ensures writer { IfErr result (λ fault. V.has_failed viewer.old ≡ false
        → ListingTellsWriter (has_failed output.old) (has_failed output.new) (Err fault)) }
    ensures out { IsOut output.old → IsOut output.new }
{
    match show_rows(alloc, viewer, table, id, output)? {
        Some(reason) => tell_reason(output, reason),
        None => Ok(DONE),
    }
}
