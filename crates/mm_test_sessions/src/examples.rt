//! The examples in the heads of `mm_core`, `mm_kit` and `mm_page`, word for word, and what they come to.

use mm_core::Session;
use mm_definitions::answers::{Answer, Tally};
use mm_definitions::commands::Command;
use mm_definitions::moments::Moment;
use mm_definitions::names::Name;
use mm_definitions::streams::Io;
use mm_kit::{MemoryFile, MemoryFolder, import_kit};
use mm_page::serve_one;
use mm_reads::Viewer;
use mm_run::Editor;
use mm_test_packages::{new_session, session_at};
use sqlite::Connection;
use std::alloc::Global;
use std::str::from_utf8;
use std::test::Fail;

fn first_commands(alloc: Global) -> Option<(Answer, Tally)> {
    let conn = Connection::open_in_memory(alloc).ok()?;
    let mut session = Session::create(alloc, conn).ok()?;
    let moment = Moment::new(0)?;
    let edition = Command::Edition {
        name: Name::read("may")?,
    };
    let answer = session.apply(&edition, moment);
    let mut records = Io::new("table,spots,attributes,Spots\nrow,spots,1,Gate,,0\n".as_bytes());
    let mut lines = Io::new(Vec::new(alloc));
    let tally = session.run_list(&mut records, &mut lines, moment).ok()?;
    let _connection = session.close();
    Some((answer, tally))
}

#[test]
fn a_session_is_opened_and_closed(rt: HostRuntime) -> Result<(), Fail> {
    let (answer, tally) = first_commands(rt.alloc()).expect(&rt, "answers");
    assert_eq!(rt; answer, Answer::Ok);
    assert_eq!(rt;
        (tally.accepted, tally.refused, tally.written),
        (2u64, 0u64, 2u64)
    );
    Ok(())
}

fn publish_kit<A: Editor>(alloc: Global, editor: &mut A) -> Option<Answer> {
    let mut list = MemoryFile {
        name: String::from_str(alloc, "kit.csv").ok()?,
        bytes: Vec::new(alloc),
    };
    list.bytes
        .extend_from_slice(b"1,row,spots,1,Gate,,0\n")
        .ok()?;
    let mut folder = MemoryFolder {
        files: Vec::new(alloc),
    };
    folder.files.push(list).ok()?;
    let edition = Name::read("may")?;
    let moment = Moment::new(0)?;
    import_kit(alloc, editor, &edition, &mut folder, moment).ok()?;
    Some(editor.apply(&Command::Publish { edition }, moment))
}

#[test]
fn a_kit_is_imported_and_published(rt: HostRuntime) -> Result<(), Fail> {
    let records = "table,spots,attributes,Spots\nedition,may\n";
    let mut session = session_at(rt.alloc(), records, 0).expect(&rt, "a session");
    let answer = publish_kit(rt.alloc(), &mut session).expect(&rt, "an answer");
    assert_eq!(rt; answer, Answer::Ok);
    Ok(())
}

fn tables_listed<V: Viewer>(alloc: Global, viewer: &mut V) -> Option<Vec<u8>> {
    let mut request = Io::new("GET /contents HTTP/1.1\r\n\r\n".as_bytes());
    let mut response = Io::new(Vec::new(alloc));
    serve_one(alloc, viewer, &mut request, &mut response).ok()?;
    Some(response.into_inner())
}

#[test]
fn a_request_is_answered(rt: HostRuntime) -> Result<(), Fail> {
    let mut session = new_session(rt.alloc()).expect(&rt, "a session");
    let response = tables_listed(rt.alloc(), &mut session).expect(&rt, "a response");
    let text = from_utf8(response.as_slice()).expect(&rt, "a text");
    assert!(rt; text.starts_with("HTTP/1.1 200 OK\r\n"));
    assert!(rt; text.ends_with("\r\n\r\n[]"));
    Ok(())
}
