//! The subcommand `migrate`.

ghost use Rattle.std.specs.Prelude.{◌≤◌, true, IfErr};
ghost use Rattle.sqlite.specs.WalFiles.{image_at};
ghost use Rattle.mm_definitions.specs.Streams.{has_failed, written};
ghost use Rattle.mm_core.specs.Writing.{IsOut};
ghost use Rattle.mm_work.specs.Told.{TellsFailure};
ghost use Rattle.mm_program.specs.Left.{LeavesMigrated, TellsMigrated};
ghost use Rattle.mm_program.specs.Told.{StopsCheck, TellsMigrate};

use crate::files::on_old;
use mm_core::Session;
use mm_definitions::streams::Io;
use mm_files::{Handed, Left, Works};
use mm_work::{Stop, tell_migration};
use sqlite::{Alter, Connection, FileFrom, Start};
use sqlite_disk::Disk;
use std::alloc::Global;
use std::io;
use std::io::Write;

/// The migration of a package.
#[derive(Drop)]
struct Migration;

impl Works for Migration {
    type Done = ();

    type Why = Stop;

    const WRITES: bool = true;

    ghost comes_to = { λ work old new done. IfErr done StopsCheck };

    ghost tells = { λ work found old new done. TellsMigrated found done };

    ghost leaves = { λ work found after old new done. LeavesMigrated found after done };

    ghost closes = { λ done. true };

    fn work<S: Alter + Drop, W: Write>(
        &mut self,
        alloc: Global,
        conn: Connection<S>,
        _output: &mut Io<W>,
    ) -> Handed<S, (), Stop> {
        match Session::migrate(alloc, conn) {
            Ok(session) => Ok((session.close(), ())),
            Err((conn, cause)) => Err((conn, Stop::from(cause))),
        }
    }

    fn closes(_done: ()) -> bool {
        true
    }
}

/// The subcommand `migrate`.
pub(crate) fn migrate_told<'a, S: Start, W: Write>(
    rt: &HostRuntime,
    path: &'a str,
    start: S,
    output: &mut Io<W>,
) -> (u8, Left<'a, FileFrom<S>, S>)
    ensures told { TellsMigrate ⟦<FileFrom<S> as Disk>⟧ (image_at S.Start) path.now
        (written W.contents output.old) (written W.contents output.new) result.0 result.1 }
    ensures status { result.0 ≤ 4 }
    ensures unprinted { TellsFailure (has_failed output.old) (has_failed output.new) result.0 }
    ensures out { IsOut output.old → IsOut output.new }
{
    let (outcome, left) = on_old(rt, path, start, &mut Migration, &mut Io::new(io::sink()));
    (tell_migration(output, outcome), left)
}
