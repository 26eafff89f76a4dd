//! Requests whose reader or writer fails, and their responses, as docs/FORMATS.md describes the page.

use crate::fakes::{Short, short_writer, slow_reader, torn_reader};
use mm_core::Session;
use mm_definitions::streams::Io;
use mm_page::serve_one;
use mm_test_packages::{FINER, PYRAMID, new_session, session_after};
use sqlite::MemStore;
use std::alloc::Global;
use std::fmt::Write;
use std::io;
use std::io::Read;
use std::test::Fail;

const BAD_REQUEST: &[u8] =
    b"HTTP/1.1 400 Bad Request\r\nContent-Length: 0\r\nConnection: close\r\n\r\n";

const NOT_FOUND: &[u8] =
    b"HTTP/1.1 404 Not Found\r\nContent-Length: 0\r\nConnection: close\r\n\r\n";

const NOT_ALLOWED: &[u8] =
    b"HTTP/1.1 405 Method Not Allowed\r\nAllow: GET\r\nContent-Length: 0\r\nConnection: close\r\n\r\n";

const TILE: &[u8] =
    b"HTTP/1.1 200 OK\r\nContent-Type: application/octet-stream\r\nContent-Length: 3\r\nConnection: close\r\n\r\n\x89PN";

const RESPONSES: [(&str, &[u8]); 3] = [
    ("bad request", BAD_REQUEST),
    ("not found", NOT_FOUND),
    ("not allowed", NOT_ALLOWED),
];

/// Serves one request: the fault, or 0.
fn serve<R: Read, W: io::Write>(
    alloc: Global,
    session: &mut Session<MemStore>,
    reader: &mut Io<R>,
    writer: &mut Io<W>,
) -> u8 {
    match serve_one(alloc, session, reader, writer) {
        Ok(()) => 0,
        Err(why) => why.0.number(),
    }
}

/// The name of a response.
pub(crate) fn name_of(response: &[u8]) -> &'static str {
    for (name, bytes) in RESPONSES {
        if response == bytes {
            return name;
        }
    }
    if response.is_empty() {
        "nothing"
    } else {
        "another response"
    }
}

/// The fault of a request or 0, where its writer takes so many bytes and takes that much of the response; else what it took.
fn cut(alloc: Global, session: &mut Session<MemStore>, left: usize) -> Option<String> {
    let mut reader = torn_reader(b"GET /tiles/base/1/0/1 HTTP/1.1\r\n\r\n", 1, 35);
    let mut writer = short_writer(alloc, left);
    let fault = serve(alloc, session, &mut reader, &mut writer);
    let Short { taken, .. } = writer.into_inner();
    if TILE.get(..left)? == taken.as_slice() {
        format!(in alloc; "{fault}").ok()
    } else {
        format!(in alloc; "{}", taken.as_slice().escape_ascii()).ok()
    }
}

/// How many bytes the writers take of whom a request is not answered by 97 and the front of the response.
fn whole_cuts(alloc: Global) -> Option<String> {
    let mut session = session_after(alloc, &[PYRAMID, FINER, "tile,base,1,0,1,89504e\n"])?;
    let mut text = String::new(alloc);
    for left in 0..=TILE.len() {
        let told = cut(alloc, &mut session, left)?;
        if told.as_str() != "97" {
            writeln!(text, "{left}: {}", told.as_str()).ok()?;
        }
    }
    Some(text)
}

// The response has 100 bytes.
#[test]
fn stops_where_the_writer_fails(rt: HostRuntime) -> Result<(), Fail> {
    let told = whole_cuts(rt.alloc()).expect(&rt, "responses");
    assert_eq!(rt; told.as_str(), "100: 0\n");
    Ok(())
}

/// The fault of a request or 0, and the name of what is written: none where nothing is.
fn served<R: Read>(alloc: Global, reader: &mut Io<R>) -> Option<String> {
    let mut writer = Io::new(Vec::new(alloc));
    let fault = serve(alloc, &mut new_session(alloc)?, reader, &mut writer);
    let written = writer.into_inner();
    format!(in alloc; "{fault} {}", name_of(written.as_slice())).ok()
}

/// What is written where a reader fails in a head, where it ends there, and where it fails after bytes of no head.
fn broken_heads(alloc: Global) -> Option<String> {
    let failed = served(
        alloc,
        &mut torn_reader(b"GET /contents HTTP/1.1\r\n", 1, 25),
    )?;
    let ended = served(alloc, &mut slow_reader(b"GET /contents HTTP/1.1\r\n"))?;
    let no_head = served(alloc, &mut torn_reader(b"\0GET", 1, 5))?;
    format!(in alloc;
        "{}, {}, {}",
        failed.as_str(),
        ended.as_str(),
        no_head.as_str()
    )
    .ok()
}

#[test]
fn stops_where_the_reader_fails(rt: HostRuntime) -> Result<(), Fail> {
    let told = broken_heads(rt.alloc()).expect(&rt, "responses");
    assert_eq!(rt; told.as_str(), "96 nothing, 0 bad request, 0 bad request");
    Ok(())
}
