//! The package's file.

ghost use Rattle.std.specs.Prelude.{◌≡◌, ◌<◌, ◌↔◌, ◌++◌, codes, string_bytes, unwrap_or, None, IfOk, IfErr, IsTrue};
ghost use Rattle.sqlite.specs.WalFiles.{image_at};
ghost use Rattle.mm_definitions.specs.Streams.{written};
ghost use Rattle.mm_core.specs.Writing.{IsOut};
ghost use Rattle.mm_program.specs.Files.{StopsAny, StopsNew, StopsOld, StopsOn, WasBare, WorksOnFile, stop_for};
ghost use Rattle.mm_files.specs.Worked.{closes_behind};
ghost use Rattle.mm_program.specs.Worked.{is_well};

use mm_definitions::answers::Fault;
use mm_definitions::streams::Io;
use mm_files::{Left, NotDone, Works, on_file};
use mm_work::{FAULT, NoPackage, Stop};
use sqlite::{FileFrom, Start};
use sqlite_disk::Disk;
use std::io::Write;
use std::{fs, io};

/// What work on a file came to, or why it was not done or not told, with what is left of the file and its journal.
pub type Worked<'a, S, T> = (Result<T, Stop>, Left<'a, FileFrom<S>, S>);

/// No database is as short as this; a shorter file is refused without being opened, so that it stays as it is.
const SHORTEST: u64 = 512;

/// The file's length, and none where there is no such file.
fn length_of(rt: &HostRuntime, path: &str) -> Result<Option<u64>, Stop>
    ensures { IfErr result StopsAny }
{
    match fs::metadata(rt, path) {
        Ok(found) => Ok(Some(found.len())),
        Err(error) if error.kind() == io::ErrorKind::NotFound => Ok(None),
        Err(error) if error.kind() == io::ErrorKind::OutOfMemory => Err(Stop::Fault(Fault::MEMORY)),
        Err(_) => Err(Stop::Fault(Fault::INPUT)),
    }
}

/// The name of the file's journal.
fn journal_of(rt: &HostRuntime, path: &str) -> Result<String, Stop>
    ensures name { IfOk result (λ name. string_bytes name ≡ path.now ++ codes "-wal") }
    ensures stopped { IfErr result StopsAny }
{
    match format!(in rt.alloc(); "{path}-wal") {
        Ok(name) => Ok(name),
        Err(_) => Err(Stop::Fault(Fault::MEMORY)),
    }
}

/// Whether a file of this length, or one that is not there, holds a byte.
fn holds_bytes(length: Option<u64>) -> bool
    ensures { IsTrue result ↔ (0 < unwrap_or length 0) }
{
    length.unwrap_or(0) > 0
}

/// Whether neither the file nor its journal holds a byte.
fn is_new(rt: &HostRuntime, path: &str) -> Result<bool, Stop>
    ensures { IfErr result StopsAny }
{
    if holds_bytes(length_of(rt, path)?) {
        return Ok(false);
    }
    let journal = journal_of(rt, path)?;
    Ok(!holds_bytes(length_of(rt, journal.as_str())?))
}

/// Why work on a file was not done, as it is told.
fn stop_of(why: NotDone) -> Stop
    ensures { result ≡ stop_for why }
{
    match why {
        NotDone::NotEmpty => Stop::NotEmpty,
        NotDone::Fault(fault) => Stop::Fault(fault),
    }
}

/// Whether the files are to be closed behind work that has this status: not where it is a fault's.
pub(crate) fn ends_well(status: u8) -> bool
    ensures { result ≡ is_well status }
{
    status != FAULT
}

/// Does work on a file of so many bytes, or on a new one.
fn on_length<'a, S: Start, T: Copy, K: Works<Done = T, Why = Stop>, W: Write>(
    rt: &HostRuntime,
    path: &'a str,
    length: Option<u64>,
    start: S,
    work: &mut K,
    output: &mut Io<W>,
) -> Worked<'a, S, T>
    ensures worked { WorksOnFile ⟦<FileFrom<S> as Disk>⟧ (image_at S.Start) path.now (StopsOn length)
        (K.comes_to work.old) (K.tells work.old) (K.leaves work.old) (closes_behind K.closes)
        (written W.contents output.old) (written W.contents output.new) result.0 result.1 }
    ensures bare { length ≡ None → WasBare ⟦<FileFrom<S> as Disk>⟧ (image_at S.Start) result.1 }
    ensures out { IsOut output.old → IsOut output.new }
{
    match on_file(rt, path, length, start, work, output) {
        Ok((opened, done)) => (done, Left::Worked(opened)),
        Err((left, why)) => (Err(stop_of(why)), left),
    }
}

/// Does work on a file that is to be made: neither it nor its journal holds a byte.
pub fn on_new<'a, S: Start, T: Copy, K: Works<Done = T, Why = Stop>, W: Write>(
    rt: &HostRuntime,
    path: &'a str,
    start: S,
    work: &mut K,
    output: &mut Io<W>,
) -> Worked<'a, S, T>
    ensures worked { WorksOnFile ⟦<FileFrom<S> as Disk>⟧ (image_at S.Start) path.now StopsNew
        (K.comes_to work.old) (K.tells work.old) (K.leaves work.old) (closes_behind K.closes)
        (written W.contents output.old) (written W.contents output.new) result.0 result.1 }
    ensures bare { WasBare ⟦<FileFrom<S> as Disk>⟧ (image_at S.Start) result.1 }
    ensures out { IsOut output.old → IsOut output.new }
{
    match is_new(rt, path) {
        Ok(true) => on_length(rt, path, None, start, work, output),
        Ok(false) => (Err(Stop::NotEmpty), Left::Untouched(start)),
        Err(why) => (Err(why), Left::Untouched(start)),
    }
}

/// Does work on a file that is there.
pub fn on_old<'a, S: Start, T: Copy, K: Works<Done = T, Why = Stop>, W: Write>(
    rt: &HostRuntime,
    path: &'a str,
    start: S,
    work: &mut K,
    output: &mut Io<W>,
) -> Worked<'a, S, T>
    ensures worked { WorksOnFile ⟦<FileFrom<S> as Disk>⟧ (image_at S.Start) path.now StopsOld
        (K.comes_to work.old) (K.tells work.old) (K.leaves work.old) (closes_behind K.closes)
        (written W.contents output.old) (written W.contents output.new) result.0 result.1 }
    ensures out { IsOut output.old → IsOut output.new }
{
    match length_of(rt, path) {
        Ok(None | Some(0)) => (
            Err(Stop::NotPackage(NoPackage::NoProfile)),
            Left::Untouched(start),
        ),
        Ok(Some(length)) if length < SHORTEST => (
            Err(Stop::Fault(Fault::STORE)),
            Left::Untouched(start),
        ),
        Ok(Some(length)) => on_length(rt, path, Some(length), start, work, output),
        Err(why) => (Err(why), Left::Untouched(start)),
    }
}
