//! Disks in memory that stop, and the package that is found when they are opened again.

use mm_core::Session;
use mm_definitions::answers::{RunFault, Tally};
use mm_definitions::moments::Moment;
use mm_definitions::names::Name;
use mm_definitions::places::TilePlace;
use mm_definitions::streams::Io;
use mm_recovery::{
    NotBegun, adopt_left, close_and_adopt, crash_files, create_again, create_on, let_go, live,
    open_files, run_and_recover,
};
use mm_test_packages::{FINER, answers, create, open, run, text_of};
use sqlite::{Alter, Connection, FileStore, Files, Options};
use sqlite_disk::{Crash, Fuse, Memory};
use std::alloc::Global;
use std::fmt::Write;
use std::test::Fail;

/// Column 1, row 1 at zoom 1.
fn a_place() -> Option<TilePlace> {
    TilePlace::new(1, 1, 1)
}

/// Two files in memory; the log takes so many calls and then none.
pub(crate) fn files_of(alloc: Global, calls: u64) -> Files<Fuse<Memory>> {
    Files {
        log: Fuse::new(Memory::new(alloc), calls),
        db: Fuse::new(Memory::new(alloc), u64::MAX),
    }
}

/// A connection to what a crash leaves of a connection's files.
pub(crate) fn after_crash<D: Crash + Drop>(
    alloc: Global,
    conn: Connection<FileStore<D>>,
) -> Option<Connection<FileStore<D>>> {
    match open_files(alloc, crash_files(let_go(conn)), Options::new(7)) {
        Ok(conn) => Some(conn),
        Err(_) => None,
    }
}

const RECORDS: &[u8] = b"table,spots,attributes,Spots
srs,25832,ETRS89 / UTM zone 32N,EPSG,25832,projected metres,
pyramid,base,Base map,25832,500000000000,5600000000000,501024000000,5601024000000,two
matrix,base,0,1,1,256,256,4000000,4000000
edition,e
stage,e,1,row,spots,1,Well,,3
stage,e,2,matrix,base,1,2,2,256,256,2000000,2000000
stage,e,3,tile,base,1,1,1,aa
stage,e,4,row,spots,2,Gate,,0
publish,e
";

/// Puts a line on a text that doesn't end with it.
pub(crate) fn put_new(text: &mut String, line: &str) -> Option<()> {
    if text.ends_with(line) {
        return Some(());
    }
    text.push_str(line).ok()
}

/// How many tables there are after so many of the records, and how many of the four pieces of the edition are done.
fn stands_after(done: u64) -> (usize, usize) {
    let tables = usize::from(done > 0) + usize::from(done > 2);
    (tables, if done > 9 { 4 } else { 0 })
}

/// Whether the pyramid has the finer matrix: where it has none, this puts it.
fn has_finer<S: Alter>(alloc: Global, session: &mut Session<S>) -> Option<bool> {
    let told = answers(alloc, session, FINER.as_bytes())?;
    Some(told.as_str() == "1 refused 30\n")
}

/// How many tables there are in a package.
fn tables_in<S: Alter>(session: &mut Session<S>) -> Option<usize> {
    Some(session.contents().ok()?.len())
}

/// Whether the package has the row of this number.
fn has_row<S: Alter>(session: &mut Session<S>, id: i64) -> Option<bool> {
    let spots = Name::read("spots")?;
    Some(session.row(&spots, id).ok()?.is_some())
}

/// Whether the package has the tile.
fn has_tile<S: Alter>(session: &mut Session<S>) -> Option<bool> {
    let base = Name::read("base")?;
    Some(session.tile(&base, a_place()?).ok()?.is_some())
}

/// What `stands_after` tells, of a session's package.
fn found_in<S: Alter>(alloc: Global, session: &mut Session<S>) -> Option<(usize, usize)> {
    let tables = tables_in(session)?;
    let first = has_row(session, 1)?;
    let second = has_row(session, 2)?;
    let tile = has_tile(session)?;
    let matrix = has_finer(alloc, session)?;
    let rows = usize::from(first) + usize::from(second);
    Some((tables, rows + usize::from(tile) + usize::from(matrix)))
}

/// A session on a new package in these files; None where they take none.
fn new_package<D: Crash + Drop>(alloc: Global, files: Files<D>) -> Option<Session<FileStore<D>>> {
    create(alloc, open(alloc, files)?)
}

/// How many records a run acknowledged, and whether it met no stop.
fn done_in(ran: Result<Tally, RunFault>) -> (u64, bool) {
    match ran {
        Ok(tally) => (tally.accepted, true),
        Err(stopped) => (stopped.tally.accepted, false),
    }
}

/// A run whose files then crash: how many records it acknowledged, whether it met no stop, and what is then found of the package.
fn run_and_crash<D: Crash + Drop>(
    alloc: Global,
    session: Session<FileStore<D>>,
) -> Option<(u64, bool, Option<(usize, usize)>)> {
    let mut reader = Io::new(RECORDS);
    let mut writer = Io::new(Vec::new(alloc));
    let at = Moment::new(0)?;
    let (ran, again) = run_and_recover(
        alloc,
        session,
        &mut reader,
        &mut writer,
        at,
        Options::new(7),
    );
    let (done, ended) = done_in(ran);
    let mut again = again.ok()?;
    Some((done, ended, found_in(alloc, &mut again)))
}

/// Whether so many acknowledged records, or one more, make what is found.
fn is_first_part(done: u64, found: Option<(usize, usize)>) -> bool {
    match found {
        Some(found) => found == stands_after(done) || found == stands_after(done.saturating_add(1)),
        None => false,
    }
}

/// What is found after a run on these files, and whether the run met no stop; None where they take no package.
fn found_after<D: Crash + Drop>(alloc: Global, files: Files<D>) -> Option<(&'static str, bool)> {
    let Some((done, ended, found)) = run_and_crash(alloc, new_package(alloc, files)?) else {
        return Some(("no package", false));
    };
    if is_first_part(done, found) {
        Some(("a first part", ended))
    } else {
        Some(("no first part", false))
    }
}

/// What is found after runs on logs that take more and more calls, each new finding on a line, up to the first that meets no stop.
fn findings(alloc: Global) -> Option<String> {
    let mut text = String::new(alloc);
    for calls in 0..2000u64 {
        if let Some((found, ended)) = found_after(alloc, files_of(alloc, calls)) {
            let line = format!(in alloc; "{found}, ended: {ended}\n").ok()?;
            put_new(&mut text, line.as_str())?;
            if ended {
                return Some(text);
            }
        }
    }
    None
}

const FINDINGS: &str = "a first part, ended: false
a first part, ended: true
";

#[test]
fn finds_a_first_part_after_each_stop(rt: HostRuntime) -> Result<(), Fail> {
    let told = findings(rt.alloc()).expect(&rt, "a run that ends");
    assert_eq!(rt; told.as_str(), FINDINGS);
    Ok(())
}

/// What a run of one record answers, whether it meets a fault or not.
fn answer<S: Alter>(alloc: Global, session: &mut Session<S>) -> Option<String> {
    let mut reader = Io::new(b"srs,5001,A,NONE,1,undefined,\n".as_slice());
    let mut writer = Io::new(Vec::new(alloc));
    let _ = run(session, &mut reader, &mut writer, 0)?;
    text_of(alloc, writer.into_inner().as_slice())
}

/// What a run of a record and then another answer on a session.
fn answer_twice<S: Alter + Drop>(alloc: Global, session: Session<S>) -> Option<String> {
    let mut session = session;
    let first = answer(alloc, &mut session)?;
    let second = answer(alloc, &mut session)?;
    format!(in alloc; "{}{}", first.as_str(), second.as_str()).ok()
}

/// The same on a new package in these files; None where they take none.
fn answers_on<D: Crash + Drop>(alloc: Global, files: Files<D>) -> Option<String> {
    answer_twice(alloc, new_package(alloc, files)?)
}

/// What is answered on disks that take more and more calls, one answer a text, up to the first that meets no fault.
fn answers_up_to_all(alloc: Global) -> Option<String> {
    let mut text = String::new(alloc);
    for calls in 0..1000u64 {
        if let Some(told) = answers_on(alloc, files_of(alloc, calls)) {
            put_new(&mut text, told.as_str())?;
            if told.starts_with("1 ok") {
                return Some(text);
            }
        }
    }
    None
}

#[test]
fn answers_92_after_a_fault(rt: HostRuntime) -> Result<(), Fail> {
    let told = answers_up_to_all(rt.alloc()).expect(&rt, "a run that ends");
    assert_eq!(rt;
        told.as_str(),
        "1 fault 91\n1 fault 92\n1 ok\n1 refused 20\n"
    );
    Ok(())
}

/// What stands on a connection: a package, or nothing, on which one is then made.
fn standing<S: Alter + Drop>(alloc: Global, conn: Connection<S>) -> &'static str {
    if !conn.is_autocommit() {
        return "a transaction";
    }
    match Session::adopt(alloc, conn) {
        Ok(_) => "a package",
        Err((conn, _)) => match create(alloc, conn) {
            Some(_) => "nothing",
            None => "neither",
        },
    }
}

/// Whether the making of a package ended, and the connection.
fn making<S: Alter + Drop>(alloc: Global, conn: Connection<S>) -> Option<(bool, Connection<S>)> {
    if !conn.is_autocommit() {
        return None;
    }
    match Session::create(alloc, conn) {
        Ok(session) => Some((true, session.close())),
        Err((conn, _)) => Some((false, conn)),
    }
}

/// The same on these files, and what is found after a crash; None where they are not opened.
fn made_within<D: Crash + Drop>(alloc: Global, files: Files<D>) -> Option<(bool, &'static str)> {
    let (made, conn) = making(alloc, open(alloc, files)?)?;
    match after_crash(alloc, conn) {
        Some(conn) => Some((made, standing(alloc, conn))),
        None => Some((made, "no file")),
    }
}

/// What is found of packages that are made on logs that take more and more calls, each new finding on a line, up to the first that is made.
fn makings(alloc: Global) -> Option<String> {
    let mut text = String::new(alloc);
    for calls in 0..2000u64 {
        if let Some((made, found)) = made_within(alloc, files_of(alloc, calls)) {
            let line = format!(in alloc; "{found}, made: {made}\n").ok()?;
            put_new(&mut text, line.as_str())?;
            if made {
                return Some(text);
            }
        }
    }
    None
}

#[test]
fn makes_a_package_or_nothing(rt: HostRuntime) -> Result<(), Fail> {
    let told = makings(rt.alloc()).expect(&rt, "a package that is made");
    assert_eq!(rt;
        told.as_str(),
        "nothing, made: false\na package, made: true\n"
    );
    Ok(())
}

/// Whether a second making gives a package, after a crash of the files of the first.
fn is_made_after<D: Crash + Drop>(alloc: Global, files: Files<D>) -> bool {
    create_again(alloc, crash_files(files), Options::new(7)).is_ok()
}

/// What a making on new files gives, and a second one where it was stopped.
fn made_on<D: Crash + Drop>(alloc: Global, files: Files<D>) -> (&'static str, bool) {
    if !files.may_be_used() {
        return ("no files", false);
    }
    match create_on(alloc, files, Options::new(7)) {
        Ok(_) => ("at once", true),
        Err(NotBegun::Declined(conn, _)) => ("not made", is_made_after(alloc, let_go(conn))),
        Err(NotBegun::Unopened(stop)) => ("not opened", is_made_after(alloc, stop.into_files())),
    }
}

/// What is given on logs that take more and more calls, each new answer on a line, up to the first on which a package is made at once.
fn second_makings(alloc: Global) -> Option<String> {
    let mut text = String::new(alloc);
    for calls in 0..2000u64 {
        let (told, made) = made_on(alloc, files_of(alloc, calls));
        let line = format!(in alloc; "{told}, then made: {made}\n").ok()?;
        put_new(&mut text, line.as_str())?;
        if told == "at once" {
            return Some(text);
        }
    }
    None
}

#[test]
fn makes_again_what_was_stopped(rt: HostRuntime) -> Result<(), Fail> {
    let told = second_makings(rt.alloc()).expect(&rt, "a package that is made");
    assert_eq!(rt;
        told.as_str(),
        "not opened, then made: true\nnot made, then made: true\nat once, then made: true\n"
    );
    Ok(())
}

/// Whether a package that is made on files, and lost, is found where it is made again.
fn made_twice<D: Crash + Drop>(alloc: Global, files: Files<D>) -> Option<bool> {
    Some(is_made_after(alloc, lost(alloc, files)?))
}

#[test]
fn finds_what_was_made_before(rt: HostRuntime) -> Result<(), Fail> {
    let told = made_twice(rt.alloc(), files_of(rt.alloc(), u64::MAX)).expect(&rt, "a connection");
    assert_eq!(rt; told, true);
    Ok(())
}

/// A session on a new package in these files after these records; None where they take no package.
fn session_on<D: Crash + Drop>(
    alloc: Global,
    files: Files<D>,
    records: &[u8],
) -> Option<Session<FileStore<D>>> {
    let mut session = new_package(alloc, files)?;
    answers(alloc, &mut session, records)?;
    Some(session)
}

/// What is found of a package after all the records, once its files are closed and opened again.
fn found_closed<D: Crash + Drop>(alloc: Global, files: Files<D>) -> Option<(usize, usize)> {
    let session = session_on(alloc, files, RECORDS)?;
    match close_and_adopt(alloc, session, Options::new(7)) {
        Ok(mut again) => found_in(alloc, &mut again),
        Err(_) => None,
    }
}

#[test]
fn adopts_what_was_closed(rt: HostRuntime) -> Result<(), Fail> {
    let found = found_closed(rt.alloc(), files_of(rt.alloc(), u64::MAX)).expect(&rt, "a package");
    assert_eq!(rt; found, stands_after(10));
    Ok(())
}

/// These files with a package of one table, which was let go; None where they take no package.
fn lost<D: Crash + Drop>(alloc: Global, files: Files<D>) -> Option<Files<D>> {
    let session = session_on(alloc, files, b"table,spots,attributes,Spots\n")?;
    Some(let_go(session.close()))
}

/// How many tables are found in a package that is adopted from what was left, or the files of a recovery that was stopped.
fn adopted<D: Crash + Drop>(alloc: Global, files: Files<D>) -> Result<Option<usize>, Files<D>> {
    if !files.may_be_used() {
        return Ok(None);
    }
    match adopt_left(alloc, files, Options::new(7)) {
        Ok(mut again) => Ok(tables_in(&mut again)),
        Err(NotBegun::Declined(conn, _)) => Err(let_go(conn)),
        Err(NotBegun::Unopened(stop)) => Err(stop.into_files()),
    }
}

/// Whether a recovery from files is stopped, and how many tables are found in the end, behind a crash where it was.
fn gone_on<D: Crash + Drop>(alloc: Global, files: Files<D>) -> Option<(bool, usize)> {
    match adopted(alloc, files) {
        Ok(tables) => Some((false, tables?)),
        Err(left) => match adopted(alloc, crash_files(left)) {
            Ok(tables) => Some((true, tables?)),
            Err(_) => None,
        },
    }
}

/// The same of the package that was lost in these files; None where they take no package.
fn found_of_lost<D: Crash + Drop>(alloc: Global, files: Files<D>) -> Option<Option<(bool, usize)>> {
    Some(gone_on(alloc, lost(alloc, files)?))
}

/// What recoveries come to on logs that take more and more calls, each new one on a line, up to the first that meets no stop.
fn recoveries(alloc: Global) -> Option<String> {
    let mut text = String::new(alloc);
    for calls in 0..2000u64 {
        if let Some(found) = found_of_lost(alloc, files_of(alloc, calls)) {
            let (stopped, found) = found?;
            let line = format!(in alloc; "stopped: {stopped}, tables: {found}\n").ok()?;
            put_new(&mut text, line.as_str())?;
            if !stopped {
                return Some(text);
            }
        }
    }
    None
}

#[test]
fn goes_on_where_a_recovery_stopped(rt: HostRuntime) -> Result<(), Fail> {
    let told = recoveries(rt.alloc()).expect(&rt, "a recovery that ends");
    assert_eq!(rt;
        told.as_str(),
        "stopped: true, tables: 1\nstopped: false, tables: 1\n"
    );
    Ok(())
}

/// What two lists of this record answer, with a close between them, on a package that is made on new files.
fn told_in_two<D: Crash + Drop>(alloc: Global, files: Files<D>, record: &[u8]) -> Option<String> {
    if !files.may_be_used() {
        return None;
    }
    let mut first = Io::new(record);
    let mut second = Io::new(record);
    let mut writer = Io::new(Vec::new(alloc));
    let at = Moment::new(0)?;
    live(
        alloc,
        files,
        &mut first,
        &mut second,
        &mut writer,
        at,
        Options::new(7),
    )?;
    text_of(alloc, writer.into_inner().as_slice())
}

#[test]
fn lives_through_a_close(rt: HostRuntime) -> Result<(), Fail> {
    let files = files_of(rt.alloc(), u64::MAX);
    let told = told_in_two(rt.alloc(), files, b"srs,5001,A,NONE,1,undefined,\n");
    let told = told.expect(&rt, "two lists");
    assert_eq!(rt; told.as_str(), "1 ok\n1 refused 20\n");
    Ok(())
}
