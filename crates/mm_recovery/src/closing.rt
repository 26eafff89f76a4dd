//! A session that is closed, and the one that is then adopted.

ghost use Rattle.std.specs.Prelude.{◌≡◌, false, IfOk, IfErr};
ghost use Rattle.sqlite.specs.Files.{file_state};
ghost use Rattle.mm_core.specs.Parts.{connection, must_reopen};
ghost use Rattle.mm_recovery.specs.Recovered.{IsReopened, IsNotReopened};

use crate::files::close_files;
use crate::sessions::adopt_left;
use crate::stops::NotBegun;
use mm_core::Session;
use sqlite::{FileStore, Options};
use sqlite_disk::Disk;
use std::alloc::Global;

/// Closes the files of a session, opens them again, and adopts the package: that of the last commit, and so the one
/// that the session was settled for.
///
/// # Errors
///
/// Where a package that meets the rules was committed last, only a fault: 90 for want of memory, and 91 for each other
/// failure of the store. Never an opening number, and never a rule. No more may be left of the files than before.
pub fn close_and_adopt<D: Disk + Drop>(
    alloc: Global,
    session: Session<FileStore<D>>,
    options: Options,
) -> Result<Session<FileStore<D>>, NotBegun<D>>
    ensures working { IfOk result (λ again. must_reopen again ≡ false) }
    ensures reopened { IfOk result
        (λ again. IsReopened (file_state (connection session)) (file_state (connection again))) }
    ensures not_reopened { IfErr result (λ e. IsNotReopened (connection session) e) }
{
    match close_files(session.close()) {
        Ok(files) => adopt_left(alloc, files, options),
        Err(stop) => Err(NotBegun::Unopened(stop)),
    }
}
