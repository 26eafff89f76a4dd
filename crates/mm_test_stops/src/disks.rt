//! Files in memory whose calls fail as a test plans.

use crate::cases::Start;
use mm_test_disk::{Lapse, Plan};
use mm_test_packages::{answers, create};
use sqlite::{Alter, Connection, FileStore, Files, Options};
use sqlite_disk::{Crash, Disk, Memory};
use std::alloc::Global;
use std::ops::Range;

/// Which calls of each file fail.
#[derive(Drop)]
pub(crate) struct Plans {
    log: Plan,
    db: Plan,
}

/// One of the two files.
#[derive(Clone, Copy, Debug)]
pub(crate) enum Which {
    Log,
    Database,
}

impl Plans {
    /// No call fails.
    pub(crate) fn new() -> Plans {
        Plans {
            log: Plan::new(),
            db: Plan::new(),
        }
    }

    fn of(&self, which: Which) -> &Plan {
        match which {
            Which::Log => &self.log,
            Which::Database => &self.db,
        }
    }

    /// From now on these calls of a file fail, and no other.
    pub(crate) fn fail(&self, which: Which, calls: Range<u64>) {
        self.of(which).fail(calls);
    }

    /// Whether a call of a file has failed.
    pub(crate) fn has_failed(&self, which: Which) -> bool {
        self.of(which).has_failed()
    }

    /// How many calls both files were asked for so far.
    pub(crate) fn calls(&self) -> u64 {
        self.log.calls().saturating_add(self.db.calls())
    }
}

/// The bytes of a database file and its log.
#[derive(Drop)]
pub(crate) struct Image {
    log: Vec<u8>,
    db: Vec<u8>,
}

/// A disk that holds these bytes.
fn filled<D: Disk + Drop>(disk: D, bytes: &[u8]) -> Option<D> {
    let mut disk = disk;
    if !disk.may_be_used() {
        return None;
    }
    disk.write_at(0, bytes).ok()?;
    disk.sync().ok()?;
    Some(disk)
}

/// Files that hold these bytes, whose calls fail as is planned.
pub(crate) fn files_of<'a>(
    alloc: Global,
    image: &Image,
    plans: &'a Plans,
) -> Option<Files<Lapse<'a, Memory>>> {
    let log = Lapse::new(Memory::new(alloc), &plans.log);
    let db = Lapse::new(Memory::new(alloc), &plans.db);
    Some(Files {
        log: filled(log, image.log.as_slice())?,
        db: filled(db, image.db.as_slice())?,
    })
}

/// The bytes that files in memory hold.
fn image_of(alloc: Global, files: Files<Lapse<'_, Memory>>) -> Option<Image> {
    let mut image = blank(alloc);
    let Files { log, db } = files;
    image.log.extend_from_slice(log.inner().bytes()).ok()?;
    image.db.extend_from_slice(db.inner().bytes()).ok()?;
    Some(image)
}

/// Two files of no bytes.
fn blank(alloc: Global) -> Image {
    Image {
        log: Vec::new(alloc),
        db: Vec::new(alloc),
    }
}

/// How the files are opened: with fewer pages kept in memory than a package has, so that a read of the package is a call of a disk, and a session that
/// has to be opened again shows where it reads.
fn options() -> Options {
    let mut options = Options::new(7);
    options.cache_pages = 8;
    options
}

/// A connection to files.
pub(crate) fn open<D: Disk + Drop>(
    alloc: Global,
    files: Files<D>,
) -> Option<Connection<FileStore<D>>> {
    open_or_left(alloc, files).ok()
}

/// Opens files, or gives them back.
pub(crate) fn open_or_left<D: Disk + Drop>(
    alloc: Global,
    files: Files<D>,
) -> Result<Connection<FileStore<D>>, Files<D>> {
    if !files.may_be_used() {
        return Err(files);
    }
    match Connection::open_files(alloc, files, options()) {
        Ok(conn) => Ok(conn),
        Err((_, left)) => Err(left.into_files()),
    }
}

/// The files of a connection as they are.
pub(crate) fn left_by<D: Disk + Drop>(conn: Connection<FileStore<D>>) -> Files<D> {
    conn.into_store().close()
}

/// The files of a connection, whose log is copied where it can be.
pub(crate) fn closed<D: Disk + Drop>(conn: Connection<FileStore<D>>) -> Files<D> {
    match conn.close_files() {
        Ok(files) => files,
        Err((_, store)) => store.close(),
    }
}

/// Files after the machine has come back.
pub(crate) fn crashed<D: Crash>(files: Files<D>) -> Files<D> {
    let Files { mut log, mut db } = files;
    log.crash();
    db.crash();
    Files { log, db }
}

/// Tells a package of whole micrometres in whole millimetres.
const OLDER: &str =
    "UPDATE gpkg_contents SET min_x = min_x / 1000, min_y = min_y / 1000, max_x = max_x / 1000, max_y = max_y / 1000;
UPDATE gpkg_tile_matrix_set SET min_x = min_x / 1000, min_y = min_y / 1000, max_x = max_x / 1000, max_y = max_y / 1000;
UPDATE gpkg_tile_matrix SET pixel_x_size = pixel_x_size / 1000, pixel_y_size = pixel_y_size / 1000;
UPDATE mm_profile SET version = 1";

/// Makes the package with which the work begins.
fn begun<S: Alter + Drop>(
    alloc: Global,
    conn: Connection<S>,
    start: Start,
) -> Option<Connection<S>> {
    let mut session = create(alloc, conn)?;
    let told = answers(alloc, &mut session, start.records(alloc)?.as_bytes())?;
    if told.contains("refused") {
        return None;
    }
    let mut conn = session.close();
    if matches!(start, Start::Older) {
        conn.execute_batch(OLDER).ok()?;
    }
    Some(conn)
}

/// The bytes of the files with which the work begins.
pub(crate) fn image_at(alloc: Global, start: Start) -> Option<Image> {
    if matches!(start, Start::Blank) {
        return Some(blank(alloc));
    }
    let plans = Plans::new();
    let files = files_of(alloc, &blank(alloc), &plans)?;
    let conn = begun(alloc, open(alloc, files)?, start)?;
    let files = if matches!(start, Start::Logged) {
        left_by(conn)
    } else {
        closed(conn)
    };
    image_of(alloc, files)
}
