//! What stands where a reader or a writer failed, once the files are closed and opened again; how such a run ends; and a print that
//! fails.

use crate::fakes::{Short, short_writer, torn_reader};
use mm_definitions::answers::Tally;
use mm_definitions::moments::Moment;
use mm_definitions::streams::Io;
use mm_recovery::{close_files, open_files};
use mm_test_packages::{create, open};
use mm_work::{
    DONE, FAULT, NoPackage, Stop, adopt_package, run_session, tell_init, tell_stop, tell_text,
};
use sqlite::{Alter, Connection, FileStore, Files, Options};
use sqlite_disk::{Disk, Memory};
use std::alloc::Global;
use std::fmt::Write;
use std::io;
use std::io::Read;
use std::test::Fail;

/// A connection to a new package.
fn make<S: Alter + Drop>(alloc: Global, conn: Connection<S>) -> Option<Connection<S>> {
    if !conn.is_autocommit() {
        return None;
    }
    Some(create(alloc, conn)?.close())
}

/// The status of a run, and the connection.
fn run<S: Alter + Drop, R: Read, W: io::Write>(
    alloc: Global,
    conn: Connection<S>,
    reader: &mut Io<R>,
    writer: &mut Io<W>,
) -> Option<(Connection<S>, u8)> {
    if !conn.is_autocommit() {
        return None;
    }
    let mut session = adopt_package(alloc, conn).ok()?;
    let status = run_session(&mut session, reader, writer, Moment::new(0)?);
    Some((session.close(), status))
}

/// Runs the records that the reader gives on a new package: the connection, the fault or 0, and the tally.
fn tallied<S: Alter + Drop, R: Read, W: io::Write>(
    alloc: Global,
    conn: Connection<S>,
    reader: &mut Io<R>,
    writer: &mut Io<W>,
) -> Option<(Connection<S>, u8, Tally)> {
    let mut session = create(alloc, conn)?;
    let (fault, tally) = match mm_test_packages::run(&mut session, reader, writer, 0)? {
        Ok(tally) => (0, tally),
        Err(stopped) => (stopped.fault.number(), stopped.tally),
    };
    Some((session.close(), fault, tally))
}

const RECORD: &[u8] = b"srs,25832,ETRS89 / UTM zone 32N,EPSG,25832,projected metres,\n";

const TWO_EQUAL: &[u8] = b"srs,25832,ETRS89 / UTM zone 32N,EPSG,25832,projected metres,
srs,25832,ETRS89 / UTM zone 32N,EPSG,25832,projected metres,
";

/// The connection once its files are closed and opened again.
fn reopened<D: Disk + Drop>(
    alloc: Global,
    conn: Connection<FileStore<D>>,
) -> Option<Connection<FileStore<D>>> {
    match close_files(conn) {
        Ok(files) => open_files(alloc, files, Options::new(7)).ok(),
        Err(_) => None,
    }
}

/// What a run of the first record answers.
fn answer<S: Alter + Drop>(alloc: Global, conn: Connection<S>) -> Option<Vec<u8>> {
    let mut writer = Io::new(Vec::new(alloc));
    run(alloc, conn, &mut Io::new(RECORD), &mut writer)?;
    Some(writer.into_inner())
}

/// What a run came to and what its writer took of the answers, as `FAULT ACCEPTED REFUSED WRITTEN BYTES`.
fn run_text(alloc: Global, fault: u8, tally: Tally, writer: Io<Short>) -> Option<String> {
    let Tally {
        accepted,
        refused,
        written,
    } = tally;
    let Short { taken, .. } = writer.into_inner();
    let bytes = taken.as_slice().escape_ascii();
    format!(in alloc; "{fault} {accepted} {refused} {written} {bytes}").ok()
}

/// What a run on a new package in these files comes to, and what the first record is answered once they are closed and
/// opened again.
fn told_on<D: Disk + Drop, R: Read>(
    alloc: Global,
    files: Files<D>,
    reader: &mut Io<R>,
    left: usize,
) -> Option<(String, Vec<u8>)> {
    let mut writer = short_writer(alloc, left);
    let (conn, fault, tally) = tallied(alloc, open(alloc, files)?, reader, &mut writer)?;
    let found = answer(alloc, reopened(alloc, conn)?)?;
    Some((run_text(alloc, fault, tally, writer)?, found))
}

/// The same in new files in memory.
fn told<R: Read>(alloc: Global, reader: &mut Io<R>, left: usize) -> Option<(String, Vec<u8>)> {
    let files = Files {
        log: Memory::new(alloc),
        db: Memory::new(alloc),
    };
    told_on(alloc, files, reader, left)
}

const CUT: &str = r"0: 97 1 0 0 
1: 97 1 0 0 1
2: 97 1 0 0 1 
3: 97 1 0 0 1 o
4: 97 1 0 0 1 ok
5: 97 1 1 1 1 ok\n
6: 97 1 1 1 1 ok\n2
7: 97 1 1 1 1 ok\n2 
8: 97 1 1 1 1 ok\n2 r
9: 97 1 1 1 1 ok\n2 re
10: 97 1 1 1 1 ok\n2 ref
11: 97 1 1 1 1 ok\n2 refu
12: 97 1 1 1 1 ok\n2 refus
13: 97 1 1 1 1 ok\n2 refuse
14: 97 1 1 1 1 ok\n2 refused
15: 97 1 1 1 1 ok\n2 refused 
16: 97 1 1 1 1 ok\n2 refused 2
17: 97 1 1 1 1 ok\n2 refused 20
18: 0 1 1 2 1 ok\n2 refused 20\n
";

/// Runs of two equal records whose writer takes 0 to 18 bytes, a run a line. The system stands behind each, also where the writer took
/// less than the line that says so.
fn cut_runs(alloc: Global) -> Option<String> {
    let mut text = String::new(alloc);
    for left in 0..=18 {
        let (told, found) = told(alloc, &mut Io::new(TWO_EQUAL), left)?;
        writeln!(text, "{left}: {}", told.as_str()).ok()?;
        if found.as_slice() != b"1 refused 20\n".as_slice() {
            writeln!(text, "then: {}", found.as_slice().escape_ascii()).ok()?;
        }
    }
    Some(text)
}

#[test]
fn keeps_what_was_done_before_a_write_that_fails(rt: HostRuntime) -> Result<(), Fail> {
    let told = cut_runs(rt.alloc()).expect(&rt, "runs");
    assert_eq!(rt; told.as_str(), CUT);
    Ok(())
}

/// Runs of two equal records where the reader gives a byte a read and then fails: after the first record of 61 bytes, and three bytes
/// later. A run a line, behind the number of the read that fails, with what the first record is answered after it.
fn broken_runs(alloc: Global) -> Option<String> {
    let mut text = String::new(alloc);
    for failing in [62, 65] {
        let mut reader = torn_reader(TWO_EQUAL, 1, failing);
        let (told, found) = told(alloc, &mut reader, 99)?;
        let found = found.as_slice().escape_ascii();
        writeln!(text, "{failing}: {} > {found}", told.as_str()).ok()?;
    }
    Some(text)
}

const BROKEN: &str = r"62: 96 1 0 2 1 ok\n2 fault 96\n > 1 refused 20\n
65: 96 1 0 2 1 ok\n2 fault 96\n > 1 refused 20\n
";

#[test]
fn keeps_what_was_done_before_a_read_that_fails(rt: HostRuntime) -> Result<(), Fail> {
    let told = broken_runs(rt.alloc()).expect(&rt, "runs");
    assert_eq!(rt; told.as_str(), BROKEN);
    Ok(())
}

/// The status of a run on a new package.
fn status_on<S: Alter + Drop, R: Read>(
    alloc: Global,
    conn: Connection<S>,
    reader: &mut Io<R>,
    left: usize,
) -> Option<u8> {
    let conn = make(alloc, conn)?;
    let (_, status) = run(alloc, conn, reader, &mut short_writer(alloc, left))?;
    Some(status)
}

/// The same in memory.
fn status<R: Read>(alloc: Global, reader: &mut Io<R>, left: usize) -> Option<u8> {
    status_on(alloc, Connection::open_in_memory(alloc).ok()?, reader, left)
}

/// The statuses of runs of two equal records: where the writer takes four bytes, where the read behind the first record fails, and where nothing does.
fn statuses(alloc: Global) -> [Option<u8>; 3] {
    [
        status(alloc, &mut Io::new(TWO_EQUAL), 4),
        status(alloc, &mut torn_reader(TWO_EQUAL, 1, 62), 99),
        status(alloc, &mut Io::new(TWO_EQUAL), 99),
    ]
}

#[test]
fn ends_with_the_status_of_a_fault(rt: HostRuntime) -> Result<(), Fail> {
    assert_eq!(rt; statuses(rt.alloc()), [Some(FAULT), Some(FAULT), Some(1)]);
    Ok(())
}

/// The statuses of a text, of why the work was not done, and of a package that is made, where nothing can be printed.
fn unprinted(alloc: Global) -> [u8; 3] {
    [
        tell_text(&mut short_writer(alloc, 3), "Usage: mmpkg <COMMAND>", DONE),
        tell_stop(
            &mut short_writer(alloc, 3),
            Stop::NotPackage(NoPackage::NoProfile),
        ),
        tell_init(&mut short_writer(alloc, 3), Ok(())),
    ]
}

#[test]
fn ends_where_nothing_is_printed(rt: HostRuntime) -> Result<(), Fail> {
    assert_eq!(rt; unprinted(rt.alloc()), [FAULT; 3]);
    Ok(())
}
