//! What is printed of the migration of a package of profile 1.

ghost use Rattle.mm_definitions.specs.Streams.{written};
ghost use Rattle.mm_io.specs.Sending.{IsOut};
ghost use Rattle.mm_work.specs.Migrated.{migrate_status, migrate_text};
ghost use Rattle.mm_work.specs.Told.{IsTold};

use crate::stop::Stop;
use crate::tell::{DONE, tell_bytes, tell_stop};
use mm_definitions::streams::Io;
use std::io::Write;

/// Prints what migrating a package came to.
pub fn tell_migration<W: Write>(output: &mut Io<W>, outcome: Result<(), Stop>) -> u8
    ensures told { IsTold (written W.contents output.old) (written W.contents output.new)
        (migrate_text outcome) (migrate_status outcome) result }
    ensures out { IsOut output.new }
{
    match outcome {
        Ok(()) => tell_bytes(output, b"migrate ok\n", DONE),
        Err(why) => tell_stop(output, why),
    }
}
