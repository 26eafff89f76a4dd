//! The subcommands that change nothing.

ghost use Rattle.std.specs.Prelude.{◌≡◌, ◌≤◌, false, true, IfErr};
ghost use Rattle.sqlite.specs.WalFiles.{image_at};
ghost use Rattle.mm_definitions.specs.Streams.{has_failed, written};
ghost use Rattle.mm_core.specs.Writing.{IsOut};
ghost use Rattle.mm_work.specs.Told.{TellsFailure};
ghost use Rattle.mm_program.specs.Left.{LeavesSame, TellsChecked, TellsListing};
ghost use Rattle.mm_program.specs.Told.{StopsCheck, TellsCheck, TellsDecline, TellsList};
ghost use Rattle.mm_program.specs.Worked.{StatusEnds};

use crate::files::on_old;
use crate::outcomes::work_and_tell;
use mm_definitions::streams::Io;
use mm_files::{Handed, Left, Works};
use mm_work::{Stop, adopt_package, tell_check};
use sqlite::{Alter, Connection, FileFrom, Start};
use sqlite_disk::Disk;
use std::alloc::Global;
use std::io;
use std::io::Write;

/// The check of a package.
#[derive(Drop)]
struct Check;

impl Works for Check {
    type Done = ();

    type Why = Stop;

    const WRITES: bool = false;

    ghost comes_to = { λ work old new done. IfErr done StopsCheck };

    ghost tells = { λ work found old new done. TellsChecked found done };

    ghost leaves = { λ work found after old new done. LeavesSame found after };

    ghost closes = { λ done. true };

    fn work<S: Alter + Drop, W: Write>(
        &mut self,
        alloc: Global,
        conn: Connection<S>,
        _output: &mut Io<W>,
    ) -> Handed<S, (), Stop> {
        let session = adopt_package(alloc, conn)?;
        Ok((session.close(), ()))
    }

    fn closes(_done: ()) -> bool {
        true
    }
}

/// The subcommand `check`.
pub(crate) fn check_told<'a, S: Start, W: Write>(
    rt: &HostRuntime,
    path: &'a str,
    start: S,
    output: &mut Io<W>,
) -> (u8, Left<'a, FileFrom<S>, S>)
    ensures told { TellsCheck ⟦<FileFrom<S> as Disk>⟧ (image_at S.Start) path.now
        (written W.contents output.old) (written W.contents output.new) result.0 result.1 }
    ensures status { result.0 ≤ 4 }
    ensures unprinted { TellsFailure (has_failed output.old) (has_failed output.new) result.0 }
    ensures out { IsOut output.old → IsOut output.new }
{
    let (outcome, left) = on_old(rt, path, start, &mut Check, &mut Io::new(io::sink()));
    (tell_check(output, outcome), left)
}

/// The listing of a package.
#[derive(Drop)]
struct Listing;

impl Works for Listing {
    type Done = ();

    type Why = Stop;

    const WRITES: bool = false;

    ghost comes_to = { λ work. StatusEnds (λ listed. 0) };

    ghost tells = { λ work. TellsListing };

    ghost leaves = { λ work found after old new done. LeavesSame found after };

    ghost closes = { λ done. true };

    fn work<S: Alter + Drop, W: Write>(
        &mut self,
        alloc: Global,
        conn: Connection<S>,
        output: &mut Io<W>,
    ) -> Handed<S, (), Stop> {
        let mut session = adopt_package(alloc, conn)?;
        match session.list(output) {
            Ok(()) => Ok((session.close(), ())),
            Err(fault) => Err((session.close(), Stop::Fault(fault))),
        }
    }

    fn closes(_done: ()) -> bool {
        true
    }
}

/// The subcommand `list`.
pub(crate) fn list_told<'a, S: Start, W: Write>(
    rt: &HostRuntime,
    path: &'a str,
    start: S,
    output: &mut Io<W>,
) -> (u8, Left<'a, FileFrom<S>, S>)
    ensures declined { TellsDecline (written W.contents output.old)
        (written W.contents output.new) result.0 }
    ensures listed { TellsList ⟦<FileFrom<S> as Disk>⟧ (image_at S.Start) path.now
        (written W.contents output.old) (written W.contents output.new) result.0 result.1 }
    ensures status { result.0 ≤ 4 }
    ensures unprinted { TellsFailure (has_failed output.old) (has_failed output.new) result.0 }
    ensures out { IsOut output.old → IsOut output.new }
{
    work_and_tell(rt, path, start, &mut Listing, output)
}
