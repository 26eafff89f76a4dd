//! What stands on a connection.

use mm_core::Session;
use mm_definitions::answers::Open;
use mm_test_packages::create;
use sqlite::{Alter, Connection, Row};
use std::alloc::Global;
use std::fmt::Write;

/// The names of the tables, each on a line.
fn tables_in<S: Alter>(alloc: Global, conn: &mut Connection<S>) -> Option<String> {
    let mut names = String::new(alloc);
    let query = "SELECT name FROM sqlite_schema WHERE type = 'table' ORDER BY name";
    for row in &conn.query_all(query, &[]).ok()? {
        let name: String = row.get(0).ok()?;
        writeln!(names, "{}", name.as_str()).ok()?;
    }
    Some(names)
}

/// Puts the values of a row.
fn put_row(text: &mut String, row: &Row) -> Option<()> {
    for at in 0..row.column_count() {
        let value = row.get_ref(at).ok()?;
        write!(text, " {value:?}").ok()?;
    }
    text.push('\n').ok()
}

/// Puts the name of a table and its rows.
fn put_table<S: Alter>(
    alloc: Global,
    conn: &mut Connection<S>,
    name: &str,
    text: &mut String,
) -> Option<()> {
    writeln!(text, "{name}").ok()?;
    let query = format!(in alloc; "SELECT * FROM {name}").ok()?;
    for row in &conn.query_all(query.as_str(), &[]).ok()? {
        put_row(text, row)?;
    }
    Some(())
}

/// All rows of all tables.
fn rows_in<S: Alter>(alloc: Global, conn: &mut Connection<S>) -> Option<String> {
    let names = tables_in(alloc, conn)?;
    let mut text = String::new(alloc);
    for name in names.as_str().lines() {
        put_table(alloc, conn, name, &mut text)?;
    }
    Some(text)
}

/// Whether a package can be made, or one of profile 1 be migrated.
fn goes_on<S: Alter + Drop>(alloc: Global, conn: Connection<S>, why: Open) -> bool {
    if !conn.is_autocommit() {
        return false;
    }
    match why {
        Open::NoProfile => create(alloc, conn).is_some(),
        Open::Version(1) => Session::migrate(alloc, conn).is_ok(),
        _ => false,
    }
}

/// What stands on a connection, all rows of it: a package of this profile that meets the rules, one of profile 1 that can be
/// migrated, or nothing on which a package can be made. None where something else stands.
pub(crate) fn standing<S: Alter + Drop>(alloc: Global, conn: Connection<S>) -> Option<String> {
    if !conn.is_autocommit() {
        return None;
    }
    match Session::adopt(alloc, conn) {
        Ok(session) => rows_in(alloc, &mut session.close()),
        Err((conn, why)) => {
            let mut conn = conn;
            let text = rows_in(alloc, &mut conn)?;
            if goes_on(alloc, conn, why) {
                Some(text)
            } else {
                None
            }
        }
    }
}
