//! What is printed while the page is served.

ghost use Rattle.std.specs.Prelude.{◌≡◌, ◌++◌, codes, decimal};
ghost use Rattle.mm_definitions.specs.Streams.{written};
ghost use Rattle.mm_io.specs.Sending.{IsOut};
ghost use Rattle.mm_work.specs.Pages.{IsPrinted, list_fault_text, page_fault_text, serving_text};

use crate::tell::numbered_line;
use arrayvec::ArrayVec;
use mm_definitions::answers::{Fault, PageFault};
use mm_definitions::streams::Io;
use mm_io::{Sent, put, put_number, send};
use std::io::Write;

/// Prints bytes, and tells whether they were printed whole.
pub fn is_printed<W: Write>(output: &mut Io<W>, bytes: &[u8]) -> bool
    ensures told { IsPrinted (written W.contents output.old) (written W.contents output.new)
        bytes.now result }
    ensures out { IsOut output.new }
{
    match send(output, bytes) {
        Sent::Flushed => true,
        Sent::Unflushed => false,
        Sent::Cut => false,
    }
}

/// It is built in place and takes no memory.
fn serving_line(port: u16) -> ArrayVec<u8, 64>
    ensures { result.items ≡ serving_text port }
{
    let mut line = ArrayVec::new();
    put(&mut line, b"serving 127.0.0.1:");
    put_number(&mut line, port as u64);
    put(&mut line, b"\n");
    line
}

/// Prints where the page is served, and tells whether it was printed whole.
pub fn tell_serving<W: Write>(output: &mut Io<W>, port: u16) -> bool
    ensures told { IsPrinted (written W.contents output.old) (written W.contents output.new)
        (serving_text port) result }
    ensures out { IsOut output.new }
{
    let line = serving_line(port);
    is_printed(output, line.as_slice())
}

/// Prints the fault of a connection, and tells whether it was printed whole.
pub fn tell_page_fault<W: Write>(output: &mut Io<W>, fault: PageFault) -> bool
    ensures told { IsPrinted (written W.contents output.old) (written W.contents output.new)
        (page_fault_text fault.0) result }
    ensures out { IsOut output.new }
{
    let line = numbered_line(b"page fault ", fault.0.number());
    is_printed(output, line.as_slice())
}

/// Prints the fault that ended a list of a desk, and tells whether it was printed whole.
pub fn tell_list_fault<W: Write>(output: &mut Io<W>, fault: Fault) -> bool
    ensures told { IsPrinted (written W.contents output.old) (written W.contents output.new)
        (list_fault_text fault) result }
    ensures out { IsOut output.new }
{
    let line = numbered_line(b"list fault ", fault.number());
    is_printed(output, line.as_slice())
}
