//! The making of a package that was stopped, and is begun again.

ghost use Rattle.std.specs.Prelude.{◌≡◌, ◌↔◌, false, IfOk, IfErr, IsTrue};
ghost use Rattle.sqlite.specs.Held.{state};
ghost use Rattle.mm_definitions.specs.declared.answers.Open.TheVariants as opens;
ghost use Rattle.mm_core.specs.Parts.{connection, must_reopen};
ghost use Rattle.mm_recovery.specs.Made.{IsMadeOrFound, IsNeither, MakesAgain, IsNotMadeAgain};

use crate::files::open_files;
use crate::stops::NotBegun;
use mm_core::Session;
use mm_definitions::answers::Open;
use sqlite::{Alter, Connection, FileStore, Files, Options};
use sqlite_disk::Disk;
use std::alloc::Global;

/// Whether a connection is declined for want of a profile.
fn has_no_profile(why: &Open) -> bool
    ensures { IsTrue result ↔ why.now ≡ opens.NoProfile }
{
    matches!(why, Open::NoProfile)
}

/// Adopts the package of a connection that a making may have left; where there is no table, it makes the package.
///
/// # Errors
///
/// Where there was no table only a fault: 90 for want of memory, and 91 for each other failure of the store; each
/// database that may be left has no table or stands for the new package. A package that is declined is left as it was.
pub fn create_or_adopt<S: Alter + Drop>(
    alloc: Global,
    conn: Connection<S>,
) -> Result<Session<S>, (Connection<S>, Open)>
    requires { conn.in_transaction ≡ false }
    ensures working { IfOk result (λ session. must_reopen session ≡ false) }
    ensures made_or_found { IfOk result
        (λ session. IsMadeOrFound (state S.Store conn) (state S.Store (connection session))) }
    ensures handed_back { IfErr result (λ e. e.0.in_transaction ≡ false) }
    ensures neither { IfErr result (λ e. IsNeither (state S.Store conn) (state S.Store e.0) e.1) }
{
    let (conn, why) = match Session::adopt(alloc, conn) {
        Ok(session) => return Ok(session),
        Err(declined) => declined,
    };
    if !has_no_profile(&why) {
        return Err((conn, why));
    }
    match Session::create(alloc, conn) {
        Ok(session) => Ok(session),
        Err((conn, fault)) => Err((conn, Open::Fault(fault))),
    }
}

/// Makes a package on files that a making has left, whatever a crash left of them: where they have no table it is
/// made, and where it stands it is adopted. The session is settled for the new package.
///
/// # Errors
///
/// Where a making has left them only a fault: 90 for want of memory, and 91 for each other failure of the store. No
/// more may be left of them than before, so that it can be begun again.
pub fn create_again<D: Disk + Drop>(
    alloc: Global,
    files: Files<D>,
    options: Options,
) -> Result<Session<FileStore<D>>, NotBegun<D>>
    requires log { IsTrue (D.Disk.is_usable files.log) }
    requires db { IsTrue (D.Disk.is_usable files.db) }
    ensures working { IfOk result (λ session. must_reopen session ≡ false) }
    ensures made { IfOk result (λ session. MakesAgain files (connection session)) }
    ensures not_made { IfErr result (λ e. IsNotMadeAgain files e) }
{
    match open_files(alloc, files, options) {
        Ok(conn) => match create_or_adopt(alloc, conn) {
            Ok(session) => Ok(session),
            Err((conn, why)) => Err(NotBegun::Declined(conn, why)),
        },
        Err(stop) => Err(NotBegun::Unopened(stop)),
    }
}
