//! The file and its journal, opened and closed.

ghost use Rattle.std.specs.Prelude.{◌≡◌, true, false, codes, nat_eq, None, IsTrue, IsErr, IfOk, IfErr, OnErr};
ghost use Rattle.std.specs.List.{starts_with};
ghost use Rattle.sqlite_std_file.specs.File.{IsFresh, file_is_usable};
ghost use Rattle.mm_definitions.specs.Faults.{IsStoreFault, store};
ghost use Rattle.mm_definitions.specs.Streams.{written};
ghost use Rattle.sqlite.specs.Files.{file_state, image_of};
ghost use Rattle.sqlite.specs.State.{HasCleanDisk};
ghost use Rattle.sqlite.specs.Start.{FindsIn};
ghost use Rattle.sqlite.specs.WalFiles.{image_at};
ghost use Rattle.sqlite.specs.WalReads.{AreClean, OnlyReads};
ghost use Rattle.mm_io.specs.Sending.{IsOut};
ghost use Rattle.mm_files.specs.Files.{HoldNoByte, IsUntold, IsWhyNot, TellsBare};
ghost use Rattle.mm_files.specs.Worked.{EndedOn, HasNotWorked, HasWorked, IsJustOpened, IsUnbegun, IsUnworked};
ghost use Rattle.mm_files.specs.Worked.{KeepsLeft, KeepsStill, TellsFileBytes, WorkedOn, closes_behind};

use crate::left::{Left, NotDone, Opened, Unclosed};
use crate::works::Works;
use mm_definitions::answers::Fault;
use mm_definitions::streams::Io;
use mm_store::faults::fault_of;
use sqlite::{Connection, FileFrom, FileStore, Files, Leftover, Options, Start};
use sqlite_disk::Disk;
use sqlite_std_file::OpenError;
use sqlite_trees::error::StoreError;
use sqlite_trees::store::Store;
use std::alloc::Global;
use std::hash::{BuildHasher, RandomState};
use std::io;
use std::io::Write;

/// How many bytes a page has.
const PAGE: u64 = 4096;

/// How many pages are kept beside as many as the file has.
const SPARE_PAGES: u64 = 64;

/// How many pages are kept at the least for work that writes, which may fill a new package: to make room for as many as
/// the store would takes longer than all else of opening a small one.
const FEWEST_TO_WRITE: u64 = 512;

/// How many pages are kept at the most, which is as many as the store would.
const MOST_PAGES: u64 = 2000;

/// How many pages of a file of this length are kept in memory, or of one that is to be new, for work that writes or
/// reads.
fn pages_for(length: Option<u64>, writes: bool) -> usize {
    let fewest = if writes { FEWEST_TO_WRITE } else { SPARE_PAGES };
    let pages = length.unwrap_or(0) / PAGE;
    pages.saturating_add(SPARE_PAGES).clamp(fewest, MOST_PAGES) as usize
}

/// How a file is opened: as the store opens files, but for the pages that it keeps. 91 where the system gives no seed.
fn options_for(rt: &HostRuntime, pages: usize) -> Result<Options, Fault>
    ensures { IfErr result (λ fault. fault ≡ store) }
{
    let seed = match RandomState::new(rt) {
        Ok(state) => state.hash_one(&0u8),
        Err(_) => return Err(Fault::STORE),
    };
    let mut options = Options::new(seed);
    options.cache_pages = pages;
    Ok(options)
}

/// The file at a path with its journal. What SQLite means by another thing than a file is refused, and what stands for
/// them handed back.
fn files_at<'a, S: Start>(
    rt: &HostRuntime,
    path: &'a str,
    start: S,
) -> Result<Opened<'a, FileFrom<S>>, (Option<S>, Fault)>
    ensures log { IfOk result (λ opened. IsTrue (file_is_usable S.Start opened.files.log)) }
    ensures db { IfOk result (λ opened. IsTrue (file_is_usable S.Start opened.files.db)) }
    ensures fresh { IfOk result
        (λ opened. IsFresh true opened.files.log × IsFresh false opened.files.db) }
    ensures path { IfOk result (λ opened. opened.path.now ≡ path.now) }
    ensures memory { path.now ≡ codes ":memory:" → IsErr result }
    ensures uri { IsTrue (starts_with nat_eq path.now (codes "file:")) → IsErr result }
    ensures fault { IfErr result (λ e. IsStoreFault e.1) }
{
    if path == ":memory:" || path.as_bytes().starts_with(b"file:") {
        return Err((Some(start), Fault::STORE));
    }
    match sqlite_std_file::open(rt, path, start) {
        Ok(files) => Ok(Opened { path, files }),
        Err(OpenError::OutOfMemory) => Err((None, Fault::MEMORY)),
        Err(OpenError::Io(error)) if error.kind() == io::ErrorKind::OutOfMemory => Err((
            None,
            Fault::MEMORY,
        )),
        Err(_) => Err((None, Fault::STORE)),
    }
}

/// Whether neither file holds a byte.
fn are_bare<D: Disk>(files: &mut Files<D>) -> Result<bool, Fault>
    requires log { IsTrue (D.Disk.is_usable files.old.log) }
    requires db { IsTrue (D.Disk.is_usable files.old.db) }
    ensures log { OnlyReads D.Disk files.old.log files.new.log }
    ensures db { OnlyReads D.Disk files.old.db files.new.db }
    ensures bare { IfOk result (λ bare. AreClean D.Disk files.new.log files.new.db
        → TellsBare (image_of D.Disk files.old) bare) }
    ensures fault { IfErr result IsStoreFault }
{
    let Ok(log) = files.log.len() else {
        return Err(Fault::STORE);
    };
    let Ok(db) = files.db.len() else {
        return Err(Fault::STORE);
    };
    Ok(log == 0 && db == 0)
}

/// The files as they are, where they may be worked on: of those that are to be new, which are given no length, neither
/// holds a byte.
fn files_to_use<D: Disk + Drop>(
    mut files: Files<D>,
    length: Option<u64>,
) -> Result<Files<D>, (Files<D>, NotDone)>
    requires log { IsTrue (D.Disk.is_usable files.log) }
    requires db { IsTrue (D.Disk.is_usable files.db) }
    ensures log { IfOk result (λ now. OnlyReads D.Disk files.log now.log) }
    ensures db { IfOk result (λ now. OnlyReads D.Disk files.db now.db) }
    ensures bare { IfOk result (λ now. length ≡ None → AreClean D.Disk now.log now.db
        → HoldNoByte (image_of D.Disk files)) }
    ensures log_left { IfErr result (λ e. OnlyReads D.Disk files.log e.0.log) }
    ensures db_left { IfErr result (λ e. OnlyReads D.Disk files.db e.0.db) }
    ensures bytes { IfErr result (λ e. e.1 ≡ NotDone.NotEmpty → AreClean D.Disk e.0.log e.0.db
        → HoldNoByte (image_of D.Disk files) → ⊥) }
    ensures why { IfErr result (λ e. IsWhyNot length e.1) }
{
    if length.is_some() {
        return Ok(files);
    }
    match are_bare(&mut files) {
        Ok(true) => Ok(files),
        Ok(false) => Err((files, NotDone::NotEmpty)),
        Err(fault) => Err((files, NotDone::Fault(fault))),
    }
}

/// A connection to the file at a path, which keeps so many pages, and the path that was opened.
fn open_files<'a, S: Start>(
    rt: &HostRuntime,
    path: &'a str,
    length: Option<u64>,
    pages: usize,
    start: S,
) -> Result<(&'a str, Connection<FileStore<FileFrom<S>>>), (Left<'a, FileFrom<S>, S>, NotDone)>
    ensures mode { IfOk result (λ r. r.1.in_transaction ≡ false) }
    ensures found { IfOk result
        (λ r. HasCleanDisk (file_state r.1) → FindsIn (image_at S.Start) (file_state r.1)) }
    ensures just { IfOk result
        (λ r. HasCleanDisk (file_state r.1) → IsJustOpened (file_state r.1)) }
    ensures bare { IfOk result (λ r. length ≡ None → HasCleanDisk (file_state r.1)
        → HoldNoByte (image_at S.Start)) }
    ensures path { IfOk result (λ r. r.0.now ≡ path.now) }
    ensures memory { path.now ≡ codes ":memory:" → IsErr result }
    ensures uri { IsTrue (starts_with nat_eq path.now (codes "file:")) → IsErr result }
    ensures left { IfErr result
        (λ e. IsUnworked ⟦<FileFrom<S> as Disk>⟧ (image_at S.Start) path.now e.0) }
    ensures begun { IfErr result (λ e. IsUnbegun ⟦<FileFrom<S> as Disk>⟧ e.0) }
    ensures bytes { IfErr result
        (λ e. TellsFileBytes ⟦<FileFrom<S> as Disk>⟧ (image_at S.Start) e.1 e.0) }
    ensures why { IfErr result (λ e. IsWhyNot length e.1) }
{
    let options = match options_for(rt, pages) {
        Ok(options) => options,
        Err(fault) => return Err((Left::Untouched(start), NotDone::Fault(fault))),
    };
    let Opened { path, files } = match files_at(rt, path, start) {
        Ok(opened) => opened,
        Err((rest, fault)) => {
            let left = match rest {
                Some(start) => Left::Untouched(start),
                None => Left::Unopened,
            };
            return Err((left, NotDone::Fault(fault)));
        }
    };
    let files = match files_to_use(files, length) {
        Ok(files) => files,
        Err((files, why)) => return Err((Left::Refused(Leftover::Files(files)), why)),
    };
    match Connection::open_files(rt.alloc(), files, options) {
        Ok(mut conn) => {
            conn.set_clock(rt);
            Ok((path, conn))
        }
        Err((error, rest)) => Err((Left::Refused(rest), NotDone::Fault(fault_of(error)))),
    }
}

/// Gives the files of a connection back as they are, which copies no journal, with no more than the rollback of what is
/// not committed: whatever a crash leaves of them, they hold a database that the connection told might be left.
pub fn let_go<D: Disk + Drop>(conn: Connection<FileStore<D>>) -> Files<D>
    ensures { KeepsLeft D.Disk (file_state conn) false result }
{
    conn.into_store().close()
}

/// 90 where memory was refused, and 91 for every other failure of the store.
fn told_as(error: StoreError) -> Fault
    ensures { IsStoreFault result }
{
    match error {
        StoreError::OutOfMemory => Fault::MEMORY,
        _ => Fault::STORE,
    }
}

/// Closes the files, which copies the journal back, and gives them back. Where that fails their store is given back as
/// it is.
fn close_files<D: Disk + Drop>(
    conn: Connection<FileStore<D>>,
) -> Result<Files<D>, (FileStore<D>, Fault)>
    ensures kept { IfOk result (KeepsLeft D.Disk (file_state conn) true) }
    ensures still { IfErr result (λ e. KeepsStill D.Disk (file_state conn) e.0) }
    ensures fault { IfErr result (λ e. IsStoreFault e.1) }
{
    let mut store = conn.into_store();
    // Again, for what only this store's rollback says of the journal.
    store.rollback();
    match store.checkpoint() {
        Ok(()) => Ok(store.close()),
        Err(error) => Err((store, told_as(error))),
    }
}

/// Does work on a connection to files, and gives the files back: closed where the work came to its end, and else as
/// they are.
fn work_and_close<D: Disk + Drop, K: Works, W: Write>(
    alloc: Global,
    conn: Connection<FileStore<D>>,
    work: &mut K,
    output: &mut Io<W>,
) -> Result<(Files<D>, Result<K::Done, K::Why>), (FileStore<D>, Fault)>
    requires mode { conn.in_transaction ≡ false }
    requires fresh { HasCleanDisk (file_state conn) → IsJustOpened (file_state conn) }
    ensures done { IfOk result (λ r. K.comes_to work.old
        (written W.contents output.old) (written W.contents output.new) r.1) }
    ensures worked { IfOk result (λ r. WorkedOn D.Disk (K.tells work.old) (K.leaves work.old)
        (closes_behind K.closes r.1) (written W.contents output.old) (written W.contents output.new)
        r.0 r.1 (file_state conn)) }
    ensures ended { IfErr result (λ e. EndedOn D.Disk (K.tells work.old) (K.leaves work.old)
        (closes_behind K.closes) (written W.contents output.old) (written W.contents output.new)
        e.0 (file_state conn)) }
    ensures fault { IfErr result (λ e. IsStoreFault e.1) }
    ensures untold { OnErr result (IsUntold (K.comes_to work.old) (closes_behind K.closes)
        (written W.contents output.old) (written W.contents output.new)) }
    ensures out { IsOut output.old → IsOut output.new }
{
    let (conn, done) = match work.work(alloc, conn, output) {
        Ok(end) => end,
        Err((conn, why)) => return Ok((let_go(conn), Err(why))),
    };
    if !K::closes(done) {
        return Ok((let_go(conn), Ok(done)));
    }
    match close_files(conn) {
        Ok(files) => Ok((files, Ok(done))),
        Err(failed) => Err(failed),
    }
}

/// Does work on the file at a path, which has so many bytes, or neither it nor its journal one where none are given;
/// `start` stands for what they held. 90 where memory was refused and 91 where the store failed, as the file was
/// opened, or as it was closed behind work that came to its end; else what the work came to.
pub fn on_file<'a, S: Start, K: Works, W: Write>(
    rt: &HostRuntime,
    path: &'a str,
    length: Option<u64>,
    start: S,
    work: &mut K,
    output: &mut Io<W>,
) -> Result<(Opened<'a, FileFrom<S>>, Result<K::Done, K::Why>), (Left<'a, FileFrom<S>, S>, NotDone)>
    ensures memory { path.now ≡ codes ":memory:" → IsErr result }
    ensures uri { IsTrue (starts_with nat_eq path.now (codes "file:")) → IsErr result }
    ensures worked { IfOk result (λ r. HasWorked ⟦<FileFrom<S> as Disk>⟧ (image_at S.Start) path.now
        length (K.comes_to work.old) (K.tells work.old) (K.leaves work.old) (closes_behind K.closes)
        (written W.contents output.old) (written W.contents output.new) r.0 r.1) }
    ensures unworked { IfErr result (λ e. HasNotWorked ⟦<FileFrom<S> as Disk>⟧ (image_at S.Start)
        path.now length (K.comes_to work.old) (K.tells work.old) (K.leaves work.old)
        (closes_behind K.closes) (written W.contents output.old) (written W.contents output.new)
        e.0 e.1) }
    ensures out { IsOut output.old → IsOut output.new }
{
    let pages = pages_for(length, K::WRITES);
    let (path, conn) = match open_files(rt, path, length, pages, start) {
        Ok(opened) => opened,
        Err(failed) => return Err(failed),
    };
    match work_and_close(rt.alloc(), conn, work, output) {
        Ok((files, done)) => Ok((Opened { path, files }, done)),
        Err((store, fault)) => Err((
            Left::Unclosed(Unclosed { path, store }),
            NotDone::Fault(fault),
        )),
    }
}
