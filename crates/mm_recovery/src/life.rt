//! A file's life, from new files on.

ghost use Rattle.std.specs.Prelude.{◌≡◌, false, IfSome, IsTrue};
ghost use Rattle.sqlite.specs.Files.{file_state};
ghost use Rattle.mm_definitions.specs.Streams.{inside, written};
ghost use Rattle.mm_core.specs.Parts.{connection, must_reopen};
ghost use Rattle.mm_recovery.specs.Lived.{HasLived};

use crate::closing::close_and_adopt;
use crate::making::create_on;
use mm_core::Session;
use mm_definitions::moments::Moment;
use mm_definitions::streams::Io;
use sqlite::{FileStore, Files, Options};
use sqlite_disk::Disk;
use std::alloc::Global;
use std::io::{Read, Write};

/// Makes a package on new files, runs a list on it, closes the files, opens them again, adopts the package and runs
/// another list on it: the package is that of the one list and then the other, and so is the text. None where one of
/// these calls ends with a fault; what then is left says the call.
pub fn live<D: Disk + Drop, R: Read, W: Write>(
    alloc: Global,
    files: Files<D>,
    first: &mut Io<R>,
    second: &mut Io<R>,
    writer: &mut Io<W>,
    at: Moment,
    options: Options,
) -> Option<Session<FileStore<D>>>
    requires log { IsTrue (D.Disk.is_usable files.log) }
    requires db { IsTrue (D.Disk.is_usable files.db) }
    ensures working { IfSome result (λ session. must_reopen session ≡ false) }
    ensures lived { IfSome result (λ session. HasLived D.Disk files at
        (R.remaining (inside first.old)) (R.remaining (inside second.old))
        (written W.contents writer.old) (written W.contents writer.new)
        (file_state (connection session))) }
{
    let Ok(made) = create_on(alloc, files, options) else {
        return None;
    };
    let mut made = made;
    let Ok(_ran) = made.run_list(first, writer, at) else {
        return None;
    };
    let Ok(again) = close_and_adopt(alloc, made, options) else {
        return None;
    };
    let mut again = again;
    let Ok(_ran_again) = again.run_list(second, writer, at) else {
        return None;
    };
    Some(again)
}
