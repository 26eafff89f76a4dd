//! Sending bytes whole.

ghost use Rattle.std.specs.Prelude.{◌≡◌, OnOk, true};
ghost use Rattle.mm_definitions.specs.Streams.{is_flushed, written};
ghost use Rattle.mm_desk.specs.Sent.{IsSentOff};

use mm_definitions::answers::{Fault, PageFault};
use mm_definitions::streams::Io;
use mm_io::{Sent, send};
use std::io::Write;

/// Sends bytes and flushes. 97 where the writer fails: then a front of them was taken.
pub fn sent<W: Write>(writer: &mut Io<W>, bytes: &[u8]) -> Result<(), PageFault>
    ensures told { IsSentOff (written W.contents writer.old) (written W.contents writer.new) bytes.now
        result }
    ensures flushed { OnOk result (is_flushed writer.new ≡ true) }
{
    match send(writer, bytes) {
        Sent::Flushed => Ok(()),
        Sent::Unflushed => Err(PageFault(Fault::OUTPUT)),
        Sent::Cut => Err(PageFault(Fault::OUTPUT)),
    }
}
