//! A new package on two files.

ghost use Rattle.std.specs.Prelude.{◌≡◌, false, IfOk, IfErr, IsTrue};
ghost use Rattle.sqlite.specs.Files.{file_state};
ghost use Rattle.mm_core.specs.Parts.{connection, must_reopen};
ghost use Rattle.mm_recovery.specs.Made.{IsMadeOn, IsLeftOn};

use crate::files::open_files;
use crate::stops::NotBegun;
use mm_core::Session;
use mm_definitions::answers::Open;
use sqlite::{FileStore, Files, Options};
use sqlite_disk::Disk;
use std::alloc::Global;

/// Opens a database file and its log that are new, and makes a package on them, in one commit that is the last call of
/// the store.
///
/// # Errors
///
/// Only a fault: 90 for want of memory, and 91 for each other failure of the store. Where the files were opened, each
/// database that may be left of them has no table or stands for the new package.
pub fn create_on<D: Disk + Drop>(
    alloc: Global,
    files: Files<D>,
    options: Options,
) -> Result<Session<FileStore<D>>, NotBegun<D>>
    requires log { IsTrue (D.Disk.is_usable files.log) }
    requires db { IsTrue (D.Disk.is_usable files.db) }
    ensures working { IfOk result (λ session. must_reopen session ≡ false) }
    ensures made { IfOk result (λ session. IsMadeOn D.Disk files (file_state (connection session))) }
    ensures left { IfErr result (λ e. IsLeftOn files e) }
{
    match open_files(alloc, files, options) {
        Ok(conn) => match Session::create(alloc, conn) {
            Ok(session) => Ok(session),
            Err((conn, fault)) => Err(NotBegun::Declined(conn, Open::Fault(fault))),
        },
        Err(stop) => Err(NotBegun::Unopened(stop)),
    }
}
