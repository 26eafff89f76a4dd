//! A package of profile 1 on disks in memory that stop while it is migrated.

use crate::recovery::{after_crash, files_of, put_new};
use mm_core::Session;
use mm_test_packages::{FINER, PYRAMID, answers, create, open};
use sqlite::{Alter, Connection, FileStore, Files};
use sqlite_disk::Crash;
use std::alloc::Global;
use std::fmt::Write;
use std::test::Fail;

/// Tells a package of whole micrometres in whole millimetres.
const OLDER: &str =
    "UPDATE gpkg_contents SET min_x = min_x / 1000, min_y = min_y / 1000, max_x = max_x / 1000, max_y = max_y / 1000;
UPDATE gpkg_tile_matrix_set SET min_x = min_x / 1000, min_y = min_y / 1000, max_x = max_x / 1000, max_y = max_y / 1000;
UPDATE gpkg_tile_matrix SET pixel_x_size = pixel_x_size / 1000, pixel_y_size = pixel_y_size / 1000;
UPDATE mm_profile SET version = 1";

/// A connection to a package of profile 1 with a pyramid of two matrices; None where it takes none.
fn older<S: Alter + Drop>(alloc: Global, conn: Connection<S>) -> Option<Connection<S>> {
    let mut session = create(alloc, conn)?;
    answers(alloc, &mut session, PYRAMID.as_bytes())?;
    answers(alloc, &mut session, FINER.as_bytes())?;
    let mut conn = session.close();
    conn.execute_batch(OLDER).ok()?;
    Some(conn)
}

/// The numbers that a change of unit changes, each query a line.
const ASKED: &str = "SELECT version FROM mm_profile
SELECT min_x FROM gpkg_contents
SELECT min_y FROM gpkg_contents
SELECT max_x FROM gpkg_contents
SELECT max_y FROM gpkg_contents
SELECT min_x FROM gpkg_tile_matrix_set
SELECT min_y FROM gpkg_tile_matrix_set
SELECT max_x FROM gpkg_tile_matrix_set
SELECT max_y FROM gpkg_tile_matrix_set
SELECT pixel_x_size FROM gpkg_tile_matrix ORDER BY zoom_level
SELECT pixel_y_size FROM gpkg_tile_matrix ORDER BY zoom_level
";

const MILLIMETRES: &str =
    "1 500000000 5600000000 501024000 5601024000 500000000 5600000000 501024000 5601024000 4000 2000 4000 2000 ";

const MICROMETRES: &str =
    "2 500000000000 5600000000000 501024000000 5601024000000 500000000000 5600000000000 501024000000 5601024000000 4000000 2000000 4000000 2000000 ";

/// Those numbers of a database.
fn numbers_in<S: Alter>(alloc: Global, conn: &mut Connection<S>) -> Option<String> {
    let mut text = String::new(alloc);
    for query in ASKED.lines() {
        for row in &conn.query_all(query, &[]).ok()? {
            let number: i64 = row.get(0).ok()?;
            write!(text, "{number} ").ok()?;
        }
    }
    Some(text)
}

/// Whether a migration ended, and the connection.
fn migrated<S: Alter + Drop>(alloc: Global, conn: Connection<S>) -> Option<(bool, Connection<S>)> {
    if !conn.is_autocommit() {
        return None;
    }
    match Session::migrate(alloc, conn) {
        Ok(session) => Some((true, session.close())),
        Err((conn, _)) => Some((false, conn)),
    }
}

/// Those numbers after a migration that ends.
fn numbers_after<S: Alter + Drop>(alloc: Global, conn: Connection<S>) -> Option<String> {
    let (true, mut conn) = migrated(alloc, conn)? else {
        return None;
    };
    numbers_in(alloc, &mut conn)
}

/// The numbers that are found, and those after a migration.
fn found_again<S: Alter + Drop>(alloc: Global, conn: Connection<S>) -> Option<(String, String)> {
    let mut conn = conn;
    let found = numbers_in(alloc, &mut conn)?;
    Some((found, numbers_after(alloc, conn)?))
}

/// Whether a migration ended, the numbers that are found when its files have crashed, and those after one more migration.
fn found_after<D: Crash + Drop>(
    alloc: Global,
    conn: Connection<FileStore<D>>,
) -> Option<(bool, String, String)> {
    let (ended, conn) = migrated(alloc, conn)?;
    let (found, again) = found_again(alloc, after_crash(alloc, conn)?)?;
    Some((ended, found, again))
}

/// How a finding is told.
fn finding(ended: bool, found: &str, again: &str) -> &'static str {
    if again != MICROMETRES {
        return "not migrated the second time\n";
    }
    match (ended, found) {
        (true, MICROMETRES) => "migrated\n",
        (false, MILLIMETRES | MICROMETRES) => "wholly in one unit\n",
        _ => "in parts\n",
    }
}

/// The same in these files; None where they take no package.
fn finding_in<D: Crash + Drop>(alloc: Global, files: Files<D>) -> Option<&'static str> {
    let conn = older(alloc, open(alloc, files)?)?;
    let Some((ended, found, again)) = found_after(alloc, conn) else {
        return Some("not opened\n");
    };
    Some(finding(ended, found.as_str(), again.as_str()))
}

/// What is found on logs that take more and more calls, each new finding on a line, up to the first that meets no stop.
fn findings(alloc: Global) -> Option<String> {
    let mut text = String::new(alloc);
    for calls in 0..2000u64 {
        if let Some(found) = finding_in(alloc, files_of(alloc, calls)) {
            put_new(&mut text, found)?;
            if found == "migrated\n" {
                return Some(text);
            }
        }
    }
    None
}

#[test]
fn migrates_wholly_or_not_at_all(rt: HostRuntime) -> Result<(), Fail> {
    let told = findings(rt.alloc()).expect(&rt, "a migration that ends");
    assert_eq!(rt; told.as_str(), "wholly in one unit\nmigrated\n");
    Ok(())
}
