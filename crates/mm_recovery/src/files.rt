//! A connection's two files: what they hold when it is let go or closed, after a crash, and when they are opened again.

ghost use Rattle.std.specs.Prelude.{◌≡◌, false, IfOk, IfErr, IsTrue};
ghost use Rattle.sqlite.specs.Files.{file_state, image_of};
ghost use Rattle.sqlite_wal.specs.Files.{outcomes};
ghost use Rattle.sqlite_wal.specs.Reads.{AreClean};
ghost use Rattle.mm_recovery.specs.Found.{AreClosed, AreLeftBy, FindsLeftIn, FindsClosedIn, LeaveNoMore};
ghost use Rattle.mm_recovery.specs.Stops.{IsNotClosed, IsNotOpened, LeadsBack};
ghost use Rattle.mm_recovery.specs.Made.{FindsNoTable};

use crate::stops::{Stopped, stop_at};
use sqlite::{Connection, FileStore, Files, Leftover, Options};
use sqlite_disk::{Crash, Disk};
use std::alloc::Global;

/// Opens two files. Where they are new, a package can be made on the connection. Where they hold what a crash may
/// leave of the files of another connection, whichever of it, a database is found that this one told might be left.
///
/// # Errors
///
/// 90 for want of memory, and 91 for each other failure of the store. The files are handed back: no more may be left of
/// them than of those that were to be opened.
pub fn open_files<D: Disk + Drop>(
    alloc: Global,
    files: Files<D>,
    options: Options,
) -> Result<Connection<FileStore<D>>, Stopped<D>>
    requires log { IsTrue (D.Disk.is_usable files.log) }
    requires db { IsTrue (D.Disk.is_usable files.db) }
    ensures mode { IfOk result (λ conn. conn.in_transaction ≡ false) }
    ensures new { IfOk result (λ conn. FindsNoTable D.Disk files (file_state conn)) }
    ensures found { IfOk result (λ conn. FindsLeftIn files conn) }
    ensures closed { IfOk result (λ conn. FindsClosedIn files conn) }
    ensures not_opened { IfErr result (λ stop. IsNotOpened files stop) }
    ensures left { IfErr result (λ stop. LeadsBack files stop) }
{
    match Connection::open_files(alloc, files, options) {
        Ok(conn) => Ok(conn),
        Err((error, rest)) => Err(stop_at(error, rest)),
    }
}

/// Lets a connection go, with no more than the rollback of what is not committed: whatever a crash leaves of its files,
/// they hold a database that the connection told might be left.
pub fn let_go<D: Disk + Drop>(conn: Connection<FileStore<D>>) -> Files<D>
    ensures { AreLeftBy conn result }
{
    mm_files::let_go(conn)
}

/// Closes both files of a connection: whatever a crash leaves of them, they hold the database of its last commit.
///
/// # Errors
///
/// 90 for want of memory, and 91 for each other failure of the store. The files are handed back: no more may be left of
/// them than before.
pub fn close_files<D: Disk + Drop>(conn: Connection<FileStore<D>>) -> Result<Files<D>, Stopped<D>>
    ensures log { IfOk result (λ files. IsTrue (D.Disk.is_usable files.log)) }
    ensures db { IfOk result (λ files. IsTrue (D.Disk.is_usable files.db)) }
    ensures closed { IfOk result (λ files. AreClosed conn files) }
    ensures not_closed { IfErr result (λ stop. IsNotClosed conn stop) }
{
    match conn.close_files() {
        Ok(files) => Ok(files),
        Err((error, store)) => Err(stop_at(error, Leftover::Store(store))),
    }
}

/// Lets both files crash. They can be opened then, whatever came before.
pub fn crash_files<D: Crash>(files: Files<D>) -> Files<D>
    ensures log { IsTrue (D.Disk.is_usable result.log) }
    ensures db { IsTrue (D.Disk.is_usable result.db) }
    ensures one { outcomes D.Disk files.log files.db (image_of D.Disk result) }
    ensures no_more { LeaveNoMore D.Disk files result }
    ensures clean { AreClean D.Disk result.log result.db → AreClean D.Disk files.log files.db }
{
    let Files { mut log, mut db } = files;
    log.crash();
    db.crash();
    Files { log, db }
}
