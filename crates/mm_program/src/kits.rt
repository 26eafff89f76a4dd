//! The subcommand `kit`, on a folder of the system.

ghost use Rattle.std.specs.Prelude.{◌≡◌, ◌≤◌, ⊤, IfOk, None};
ghost use Rattle.sqlite.specs.WalFiles.{image_at};
ghost use Rattle.mm_definitions.specs.Streams.{has_failed, written};
ghost use Rattle.mm_core.specs.Writing.{IsOut};
ghost use Rattle.mm_work.specs.Told.{TellsFailure};
ghost use Rattle.mm_program.specs.Files.{IsFew, OnFile, StopsOld};
ghost use Rattle.mm_program.specs.Left.{LeavesImport, TellsImport};
ghost use Rattle.mm_program.specs.Told.{TellsKit};
ghost use Rattle.mm_program.specs.Worked.{closes_import, is_answered};

use crate::clock::{Now, moment_or_now};
use crate::files::{Worked, on_old};
use mm_arguments::read_aids;
use mm_definitions::answers::Fault;
use mm_definitions::moments::Moment;
use mm_definitions::names::Name;
use mm_definitions::streams::Io;
use mm_files::{Handed, Left, Works};
use mm_kit::{Folder, FolderFault, Found, import_kit};
use mm_remarks::Pieces;
use mm_work::{Import, REFUSED, Stop, adopt_package, tell_bytes, tell_import, tell_stop};
use sqlite::{Alter, Connection, FileFrom, Start};
use sqlite_disk::Disk;
use std::alloc::Global;
use std::io::{Read, Write};
use std::{fs, io};

/// A folder of the system. It opens names of one file alone, so that nothing outside the folder is read but what a link
/// in it leads to.
#[derive(Drop)]
pub(crate) struct SystemFolder<'a> {
    rt: &'a HostRuntime,
    path: &'a str,
    failed: bool,
    /// How far the import is, where that is wanted.
    pieces: Option<Pieces<'a>>,
}

impl<'a> SystemFolder<'a> {
    /// The folder at this path, of which nothing was read.
    pub(crate) fn new(
        rt: &'a HostRuntime,
        path: &'a str,
        pieces: Option<Pieces<'a>>,
    ) -> SystemFolder<'a> {
        let failed = false;
        SystemFolder {
            rt,
            path,
            failed,
            pieces,
        }
    }
}

/// How far the import into the package at this path is, where the words want it told.
pub(crate) fn pieces_wanted<'a>(
    rt: &'a HostRuntime,
    words: &[&str],
    path: &str,
) -> Option<Pieces<'a>> {
    match read_aids(rt.alloc(), words) {
        Ok(aids) if aids.progress => Some(Pieces::new(rt, path)),
        _ => None,
    }
}

/// Tells that a file was read.
fn tell_read(pieces: &mut Option<Pieces<'_>>, alloc: Global, found: &Found) {
    if let (Some(pieces), Found::Bytes(bytes)) = (pieces, found) {
        pieces.take(alloc, bytes.as_slice());
    }
}

/// Tells that no more is read.
fn tell_end(pieces: &mut Option<Pieces<'_>>) {
    if let Some(pieces) = pieces {
        pieces.end();
    }
}

/// The failure of a call of the system.
fn folder_fault(error: io::Error) -> FolderFault {
    match error.kind() {
        io::ErrorKind::OutOfMemory => FolderFault::Memory,
        _ => FolderFault::Failed,
    }
}

/// For how many bytes of a file there is room at first: for all of them, or for `most`, and for one behind them, by which
/// its end is seen; for none where the system doesn't tell how long it is.
fn room_for(file: &fs::File, most: u64) -> usize {
    match file.metadata() {
        Ok(found) => found.len().min(most).saturating_add(1) as usize,
        Err(_) => 0,
    }
}

/// The bytes of a file, where they are `most` at most.
fn read_file(rt: &HostRuntime, path: &str, name: &str, most: u64) -> Result<Found, FolderFault>
    ensures { IfOk result (IsFew most) }
{
    let Ok(path) = format!(in rt.alloc(); "{path}/{name}") else {
        return Err(FolderFault::Memory);
    };
    let file = match fs::File::open(rt, path.as_str()) {
        Ok(file) => file,
        Err(error) if error.kind() == io::ErrorKind::NotFound => return Ok(Found::Missing),
        Err(error) => return Err(folder_fault(error)),
    };
    let Ok(mut bytes) = Vec::with_capacity(rt.alloc(), room_for(&file, most)) else {
        return Err(FolderFault::Memory);
    };
    match file.take(most.saturating_add(1)).read_to_end(&mut bytes) {
        Ok(_) if bytes.len() as u64 > most => Ok(Found::TooLong),
        Ok(_) => Ok(Found::Bytes(bytes)),
        Err(error) => Err(folder_fault(error)),
    }
}

impl<'a> Folder for SystemFolder<'a> {
    // No clause tells what the files of a system hold.
    ghost files = { λ s. None };

    ghost has_failed = { λ s. s.failed };

    fn read(&mut self, alloc: Global, name: &str, most: u64) -> Result<Found, FolderFault> {
        match read_file(self.rt, self.path, name, most) {
            Ok(found) => {
                tell_read(&mut self.pieces, alloc, &found);
                Ok(found)
            }
            Err(FolderFault::Memory) => Err(FolderFault::Memory),
            Err(FolderFault::Failed) => {
                self.failed = true;
                Err(FolderFault::Failed)
            }
        }
    }

    fn failed(&self) -> bool {
        self.failed
    }
}

/// The import of a folder's kit into an edition.
#[derive(Drop)]
struct Importing<'a, F: Folder> {
    folder: F,
    edition: &'a Name,
    at: Moment,
}

impl<'a, F: Folder> Works for Importing<'a, F> {
    type Done = Import;

    type Why = Stop;

    const WRITES: bool = true;

    ghost comes_to = { λ work old new done. ⊤ };

    ghost tells = { λ work found old new done. TellsImport found done };

    ghost leaves = { λ work found after old new done.
        LeavesImport (F.files work.folder) work.edition.now found after done };

    ghost closes = { is_answered };

    fn work<S: Alter + Drop, W: Write>(
        &mut self,
        alloc: Global,
        conn: Connection<S>,
        _output: &mut Io<W>,
    ) -> Handed<S, Import, Stop> {
        let mut session = adopt_package(alloc, conn)?;
        let import = import_kit(alloc, &mut session, self.edition, &mut self.folder, self.at);
        Ok((session.close(), import))
    }

    fn closes(import: Import) -> bool
        ensures { result ≡ is_answered import }
    {
        import.is_ok()
    }
}

/// Imports the kit of a folder into an edition of the package of a file.
fn import_file<'a, S: Start>(
    rt: &HostRuntime,
    path: &'a str,
    start: S,
    edition: &Name,
    folder: SystemFolder<'_>,
    at: Moment,
) -> Worked<'a, S, Import>
    ensures { OnFile ⟦<FileFrom<S> as Disk>⟧ (image_at S.Start) path.now StopsOld TellsImport
        (LeavesImport None edition.now) closes_import result.0 result.1 }
{
    let mut importing = Importing {
        folder,
        edition,
        at,
    };
    let done = on_old(rt, path, start, &mut importing, &mut Io::new(io::sink()));
    tell_end(&mut importing.folder.pieces);
    done
}

/// The subcommand `kit`. An edition that is no name is refused before the clock is asked or the file opened.
pub(crate) fn import_and_tell<'a, S: Start, W: Write>(
    rt: &HostRuntime,
    path: &'a str,
    start: S,
    edition: &str,
    folder: SystemFolder<'_>,
    at: Option<Moment>,
    output: &mut Io<W>,
) -> (u8, Left<'a, FileFrom<S>, S>)
    ensures told { TellsKit ⟦<FileFrom<S> as Disk>⟧ (image_at S.Start) path.now
        (written W.contents output.old) (written W.contents output.new) result.0 result.1
        edition.now at }
    ensures status { result.0 ≤ 4 }
    ensures unprinted { TellsFailure (has_failed output.old) (has_failed output.new) result.0 }
    ensures out { IsOut output.old → IsOut output.new }
{
    let Some(name) = Name::read(edition) else {
        return (
            tell_bytes(output, b"kit refused 0 12\n", REFUSED),
            Left::Untouched(start),
        );
    };
    let moment = match moment_or_now(rt, at) {
        Now::At(moment) => moment,
        Now::Outside => {
            return (
                tell_bytes(output, b"refused 11\n", REFUSED),
                Left::Untouched(start),
            );
        }
        Now::Unread => {
            return (
                tell_stop(output, Stop::Fault(Fault::INPUT)),
                Left::Untouched(start),
            );
        }
    };
    let (done, left) = import_file(rt, path, start, &name, folder, moment);
    match done {
        Ok(import) => (tell_import(output, import), left),
        Err(why) => (tell_stop(output, why), left),
    }
}
