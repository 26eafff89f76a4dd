//! What is printed of the whole check of a package.

ghost use Rattle.mm_definitions.specs.Streams.{written};
ghost use Rattle.mm_io.specs.Sending.{IsOut};
ghost use Rattle.mm_work.specs.Told.{IsTold};
ghost use Rattle.mm_work.specs.Looked.{check_status, check_text};

use crate::stop::Stop;
use crate::tell::{DONE, tell_bytes, tell_stop};
use mm_definitions::streams::Io;
use std::io::Write;

/// Prints what checking a package came to.
pub fn tell_check<W: Write>(output: &mut Io<W>, outcome: Result<(), Stop>) -> u8
    ensures told { IsTold (written W.contents output.old) (written W.contents output.new)
        (check_text outcome) (check_status outcome) result }
    ensures out { IsOut output.new }
{
    match outcome {
        Ok(()) => tell_bytes(output, b"package ok\n", DONE),
        Err(why) => tell_stop(output, why),
    }
}
