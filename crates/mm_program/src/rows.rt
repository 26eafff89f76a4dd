//! The subcommand that prints rows of a table as the records that write them.

ghost use Rattle.std.specs.Prelude.{◌≡◌, ◌≤◌, false};
ghost use Rattle.sqlite.specs.WalFiles.{image_at};
ghost use Rattle.mm_definitions.specs.Streams.{has_failed, written};
ghost use Rattle.mm_core.specs.Writing.{IsOut};
ghost use Rattle.mm_work.specs.Told.{TellsFailure};
ghost use Rattle.mm_program.specs.Left.{LeavesSame, TellsShown};
ghost use Rattle.mm_program.specs.Told.{TellsDecline, TellsShow};
ghost use Rattle.mm_program.specs.Worked.{ShowingEnds, is_well};

use crate::files::ends_well;
use crate::outcomes::work_and_tell;
use mm_definitions::names::Name;
use mm_definitions::streams::Io;
use mm_files::{Handed, Left, Works};
use mm_work::{REFUSED, Stop, adopt_package, rows_told, tell_bytes};
use sqlite::{Alter, Connection, FileFrom, Start};
use sqlite_disk::Disk;
use std::alloc::Global;
use std::io::Write;

/// The rows of a table, or the one of an id.
#[derive(Drop)]
struct Showing<'a> {
    table: &'a Name,
    id: Option<i64>,
}

impl<'a> Works for Showing<'a> {
    type Done = u8;

    type Why = Stop;

    const WRITES: bool = false;

    ghost comes_to = { λ work. ShowingEnds };

    ghost tells = { λ work. TellsShown work.table.now work.id };

    ghost leaves = { λ work found after old new done. LeavesSame found after };

    ghost closes = { is_well };

    fn work<S: Alter + Drop, W: Write>(
        &mut self,
        alloc: Global,
        conn: Connection<S>,
        output: &mut Io<W>,
    ) -> Handed<S, u8, Stop> {
        let mut session = adopt_package(alloc, conn)?;
        match rows_told(alloc, &mut session, self.table, self.id, output) {
            Ok(status) => Ok((session.close(), status)),
            Err(fault) => Err((session.close(), Stop::Fault(fault))),
        }
    }

    fn closes(status: u8) -> bool
        ensures { result ≡ is_well status }
    {
        ends_well(status)
    }
}

/// The subcommand `show`. `refused 12` where the table is no name, and then no file is opened.
pub(crate) fn show_told<'a, S: Start, W: Write>(
    rt: &HostRuntime,
    path: &'a str,
    start: S,
    table: &str,
    id: Option<i64>,
    output: &mut Io<W>,
) -> (u8, Left<'a, FileFrom<S>, S>)
    ensures declined { TellsDecline (written W.contents output.old)
        (written W.contents output.new) result.0 }
    ensures shown { TellsShow ⟦<FileFrom<S> as Disk>⟧ (image_at S.Start) path.now
        (written W.contents output.old) (written W.contents output.new) result.0 result.1
        table.now id }
    ensures status { result.0 ≤ 4 }
    ensures unprinted { TellsFailure (has_failed output.old) (has_failed output.new) result.0 }
    ensures out { IsOut output.old → IsOut output.new }
{
    let Some(name) = Name::read(table) else {
        return (
            tell_bytes(output, b"refused 12\n", REFUSED),
            Left::Untouched(start),
        );
    };
    let mut showing = Showing { table: &name, id };
    work_and_tell(rt, path, start, &mut showing, output)
}
