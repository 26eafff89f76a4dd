//! What a session tells of a row, and what a writer takes of rows and of a listing before it fails.

use crate::fakes::{Short, short_writer};
use mm_core::Session;
use mm_definitions::answers::Fault;
use mm_definitions::names::Name;
use mm_show::show_rows;
use mm_test_packages::{FINER, PYRAMID, RELATED, session_after, text_of};
use sqlite::MemStore;
use std::alloc::Global;
use std::test::Fail;

/// What a session tells of the row of a number: its title, its note and its amount.
fn row_told(alloc: Global, session: &mut Session<MemStore>, id: i64) -> Option<String> {
    let spots = Name::read("spots")?;
    match session.row(&spots, id).ok()? {
        Some(row) => {
            let (title, note) = (row.title.as_str(), row.note.as_str());
            format!(in alloc; "'{title}' '{note}' {}\n", row.amount).ok()
        }
        None => "no row\n".to_string(alloc).ok(),
    }
}

/// What a session tells of a row that stands, and of one that doesn't.
fn rows_told(alloc: Global) -> Option<String> {
    let mut session = session_after(alloc, &[RELATED])?;
    let mut told = row_told(alloc, &mut session, 7)?;
    told.push_str(row_told(alloc, &mut session, 8)?.as_str())
        .ok()?;
    Some(told)
}

#[test]
fn tells_the_row_of_a_number(rt: HostRuntime) -> Result<(), Fail> {
    let told = rows_told(rt.alloc()).expect(&rt, "rows");
    assert_eq!(rt; told.as_str(), "'Well' '' 3\nno row\n");
    Ok(())
}

/// What a writer of ten bytes takes of the rows of a table, whose fault is 97.
fn cut_rows(alloc: Global) -> Option<String> {
    let mut session = session_after(alloc, &[RELATED])?;
    let name = Name::read("spots")?;
    let mut writer = short_writer(alloc, 10);
    if show_rows(alloc, &mut session, &name, None, &mut writer) != Err(Fault::OUTPUT) {
        return None;
    }
    let Short { taken, .. } = writer.into_inner();
    text_of(alloc, taken.as_slice())
}

#[test]
fn shows_rows_into_a_writer_that_fails(rt: HostRuntime) -> Result<(), Fail> {
    let taken = cut_rows(rt.alloc()).expect(&rt, "rows");
    assert_eq!(rt; taken.as_str(), "row,spots,");
    Ok(())
}

/// What a writer of ten bytes takes of a listing whose fault is 97, where no rule is broken behind it.
fn cut_listing(alloc: Global) -> Option<String> {
    let mut session = session_after(alloc, &[PYRAMID, FINER])?;
    let mut writer = short_writer(alloc, 10);
    if session.list(&mut writer) != Err(Fault::OUTPUT) || session.check() != Ok(None) {
        return None;
    }
    let Short { taken, .. } = writer.into_inner();
    text_of(alloc, taken.as_slice())
}

#[test]
fn lists_into_a_writer_that_fails(rt: HostRuntime) -> Result<(), Fail> {
    let taken = cut_listing(rt.alloc()).expect(&rt, "a listing");
    assert_eq!(rt; taken.as_str(), "base      ");
    Ok(())
}
