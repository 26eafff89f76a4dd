//! A session whose files crash, and the one that is then adopted.

ghost use Rattle.std.specs.Prelude.{◌≡◌, false, IfOk, IfErr, IsTrue};
ghost use Rattle.sqlite.specs.Files.{file_state};
ghost use Rattle.sqlite.specs.State.{HasCleanDisk};
ghost use Rattle.mm_definitions.specs.Streams.{inside, is_flushed, written};
ghost use Rattle.mm_core.specs.Runs.{TellsFlush};
ghost use Rattle.mm_core.specs.Parts.{connection, must_reopen};
ghost use Rattle.mm_recovery.specs.Recovered.{AdoptsLeft, AdoptsClosed, DeclinesLeft, DeclinesClosed};
ghost use Rattle.mm_recovery.specs.Ran.{IsRunRecovered, IsRunNotRecovered};

use crate::files::{crash_files, let_go, open_files};
use crate::stops::NotBegun;
use mm_core::Session;
use mm_definitions::answers::{RunFault, Tally};
use mm_definitions::moments::Moment;
use mm_definitions::streams::Io;
use sqlite::{FileStore, Files, Options};
use sqlite_disk::{Crash, Disk};
use std::alloc::Global;
use std::io::{Read, Write};

/// Opens the two files that a session has left, whatever a crash left of them, and adopts the package that is found:
/// one of those that the session told might be left. Where they were closed it is that of the last commit.
///
/// # Errors
///
/// Where each database that might be left stood for a package that meets the rules, only a fault: 90 for want of
/// memory, and 91 for each other failure of the store. Never an opening number, and never a rule. No more may be left
/// of the files than before.
pub fn adopt_left<D: Disk + Drop>(
    alloc: Global,
    files: Files<D>,
    options: Options,
) -> Result<Session<FileStore<D>>, NotBegun<D>>
    requires log { IsTrue (D.Disk.is_usable files.log) }
    requires db { IsTrue (D.Disk.is_usable files.db) }
    ensures working { IfOk result (λ again. must_reopen again ≡ false) }
    ensures recovered { IfOk result (λ again. AdoptsLeft files (connection again)) }
    ensures reopened { IfOk result (λ again. AdoptsClosed files (connection again)) }
    ensures declined { IfErr result (λ e. DeclinesLeft files e) }
    ensures not_reopened { IfErr result (λ e. DeclinesClosed files e) }
{
    match open_files(alloc, files, options) {
        Ok(conn) => match Session::adopt(alloc, conn) {
            Ok(again) => Ok(again),
            Err((conn, why)) => Err(NotBegun::Declined(conn, why)),
        },
        Err(stop) => Err(NotBegun::Unopened(stop)),
    }
}

/// Runs the records of the input on a session, and then lets its files crash, wherever the run ended. Records,
/// answers, text and tally are those of the run; what is adopted is the package of some first part of the accepted
/// commands, with every one in it whose line was written whole. After a run without a fault it is the package after
/// all of them.
pub fn run_and_recover<D: Crash + Drop, R: Read, W: Write>(
    alloc: Global,
    session: Session<FileStore<D>>,
    reader: &mut Io<R>,
    writer: &mut Io<W>,
    at: Moment,
    options: Options,
) -> (
    Result<Tally, RunFault>,
    Result<Session<FileStore<D>>, NotBegun<D>>,
)
    ensures flushed { TellsFlush (is_flushed writer.old) (is_flushed writer.new) result.0 }
    ensures working { IfOk result.1 (λ again. must_reopen again ≡ false) }
    ensures is_open { IfOk result.1
        (λ again. HasCleanDisk (file_state (connection again))
        → IsTrue (file_state (connection again)).is_open) }
    ensures recovered { IfOk result.1
        (λ again. IsRunRecovered (must_reopen session) (file_state (connection session))
        (R.remaining (inside reader.old)) at (written W.contents writer.old)
        (written W.contents writer.new) result.0 (file_state (connection again))) }
    ensures not_recovered { IfErr result.1
        (λ e. IsRunNotRecovered (must_reopen session) (file_state (connection session))
        (R.remaining (inside reader.old)) at (written W.contents writer.old)
        (written W.contents writer.new) result.0 e) }
{
    let mut session = session;
    let ran = session.run_list(reader, writer, at);
    let left = crash_files(let_go(session.close()));
    let again = adopt_left(alloc, left, options);
    (ran, again)
}
