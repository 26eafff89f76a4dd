//! What tests of sessions begin with, and what a run on it answers. Nothing here promises more than that it ends well, or with None.
#![tactic(auto)]

use mm_core::Session;
use mm_definitions::answers::{RunFault, Tally};
use mm_definitions::moments::Moment;
use mm_definitions::streams::Io;
use sqlite::{Alter, Connection, FileStore, Files, MemStore, Options};
use sqlite_disk::Disk;
use std::alloc::Global;
use std::io::{Read, Write};
use std::str::from_utf8;

/// A pyramid with its coarsest matrix.
pub const PYRAMID: &str = "srs,25832,ETRS89 / UTM zone 32N,EPSG,25832,projected metres,
pyramid,base,Base map,25832,500000000000,5600000000000,501024000000,5601024000000,two
matrix,base,0,1,1,256,256,4000000,4000000
";

/// The next finer matrix of the pyramid.
pub const FINER: &str = "matrix,base,1,2,2,256,256,2000000,2000000\n";

/// A row that is related to a medium.
pub const RELATED: &str = "table,spots,attributes,Spots
table,photos,media,Photos
row,spots,7,Well,,3
media,photos,3,image/jpeg,ffd8ff
relation,spot_photos,spots,photos,media
map,spot_photos,7,3
";

/// A connection to the database in two files.
pub fn open<D: Disk + Drop>(alloc: Global, files: Files<D>) -> Option<Connection<FileStore<D>>> {
    if !files.may_be_used() {
        return None;
    }
    match Connection::open_files(alloc, files, Options::new(7)) {
        Ok(conn) => Some(conn),
        Err(_) => None,
    }
}

/// A session on a new package.
pub fn create<S: Alter + Drop>(alloc: Global, conn: Connection<S>) -> Option<Session<S>> {
    if !conn.is_autocommit() {
        return None;
    }
    match Session::create(alloc, conn) {
        Ok(session) => Some(session),
        Err(_) => None,
    }
}

/// A session on a new package in memory.
pub fn new_session(alloc: Global) -> Option<Session<MemStore>> {
    create(alloc, Connection::open_in_memory(alloc).ok()?)
}

/// Runs the records that the reader gives, each at this moment.
pub fn run<S: Alter, R: Read, W: Write>(
    session: &mut Session<S>,
    reader: &mut Io<R>,
    writer: &mut Io<W>,
    milliseconds: i64,
) -> Option<Result<Tally, RunFault>> {
    let at = Moment::new(milliseconds)?;
    match session.run_list(reader, writer, at) {
        Ok(tally) => Some(Ok(tally)),
        Err(stopped) => Some(Err(stopped)),
    }
}

/// Whether each record of a run was answered by a line.
fn is_whole(outcome: Result<Tally, RunFault>) -> bool {
    match outcome {
        Ok(tally) => tally.accepted.checked_add(tally.refused) == Some(tally.written),
        Err(_) => false,
    }
}

/// The text of bytes.
pub fn text_of(alloc: Global, bytes: &[u8]) -> Option<String> {
    let mut text = String::new(alloc);
    text.push_str(from_utf8(bytes).ok()?).ok()?;
    Some(text)
}

/// What a run of these records answers, each at this moment.
pub fn answers_at<S: Alter>(
    alloc: Global,
    session: &mut Session<S>,
    records: &[u8],
    milliseconds: i64,
) -> Option<String> {
    let mut reader = Io::new(records);
    let mut writer = Io::new(Vec::new(alloc));
    let outcome = run(session, &mut reader, &mut writer, milliseconds)?;
    if is_whole(outcome) {
        text_of(alloc, writer.into_inner().as_slice())
    } else {
        None
    }
}

/// What a run of these records answers.
pub fn answers<S: Alter>(
    alloc: Global,
    session: &mut Session<S>,
    records: &[u8],
) -> Option<String> {
    answers_at(alloc, session, records, 0)
}

/// A session on a new package after these records at this moment, each of which is accepted.
pub fn session_at(alloc: Global, records: &str, milliseconds: i64) -> Option<Session<MemStore>> {
    let mut session = new_session(alloc)?;
    let told = answers_at(alloc, &mut session, records.as_bytes(), milliseconds)?;
    if told.contains("refused") {
        None
    } else {
        Some(session)
    }
}

/// A session on a new package after these records, each of which is accepted.
pub fn session_after(alloc: Global, parts: &[&str]) -> Option<Session<MemStore>> {
    let mut records = String::new(alloc);
    for part in parts {
        records.push_str(part).ok()?;
    }
    session_at(alloc, records.as_str(), 0)
}
