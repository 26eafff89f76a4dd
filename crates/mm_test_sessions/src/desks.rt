//! Requests to a desk and their responses, as docs/FORMATS.md describes the desk.

use crate::fakes::{short_writer, slow_reader, torn_reader};
use mm_core::Session;
use mm_definitions::answers::{PageFault, RunFault, Tally};
use mm_definitions::moments::Moment;
use mm_definitions::names::Name;
use mm_definitions::streams::Io;
use mm_desk::{Done, Gate, desk_one};
use mm_test_packages::{new_session, session_after};
use sqlite::MemStore;
use std::alloc::Global;
use std::fmt::Write;
use std::io;
use std::io::Read;
use std::str::from_utf8;
use std::test::Fail;

/// What stands for what in a table: line ends, the key, the fields of a request, and the heads of responses.
const SHORT_FORMS: [(&str, &str); 8] = [
    ("@K", "/0123456789abcdef"),
    ("@1", " HTTP/1.1|Host: 127.0.0.1:8090|"),
    ("@T", "Content-Type: text/csv|"),
    ("@E", "|Content-Length: 0|Connection: close||"),
    (
        "@A",
        "HTTP/1.1 200 OK|Content-Type: text/plain|X-Content-Type-Options: nosniff|Connection: close||",
    ),
    ("@J", "HTTP/1.1 200 OK|Content-Type: application/json|"),
    ("|", "\r\n"),
    ("~", "\n"),
];

/// A line of a table as bytes.
fn written_out(alloc: Global, line: &str) -> Option<String> {
    let mut text = format!(in alloc; "{line}").ok()?;
    for (short, long) in SHORT_FORMS {
        text = text.replace(alloc, short, long).ok()?;
    }
    Some(text)
}

/// What became of a request, in words.
fn told(alloc: Global, done: Result<Done, PageFault>) -> Option<String> {
    match done {
        Ok(Done::Shown) => format!(in alloc; "shown").ok(),
        Ok(Done::Ended) => format!(in alloc; "ended").ok(),
        Ok(Done::Ran(Ok(tally))) => {
            format!(in alloc; "ran {} {}", tally.accepted, tally.refused).ok()
        }
        Ok(Done::Ran(Err(stopped))) => {
            format!(in alloc; "list fault {}", stopped.fault.number()).ok()
        }
        Err(fault) => format!(in alloc; "page fault {}", fault.0.number()).ok(),
    }
}

/// Answers one request, at moment 0.
fn answer<R: Read, W: io::Write>(
    alloc: Global,
    session: &mut Session<MemStore>,
    reader: &mut Io<R>,
    writer: &mut Io<W>,
) -> Option<String> {
    let viewer = Name::read("viewer");
    let gate = Gate {
        port: 8090,
        front: "/0123456789abcdef",
        page: viewer.as_ref(),
    };
    let at = Moment::new(0)?;
    told(alloc, desk_one(alloc, session, gate, reader, writer, at))
}

/// What a request is given: what became of it, and the response.
fn given(alloc: Global, session: &mut Session<MemStore>, request: &str) -> Option<String> {
    let mut reader = Io::new(request.as_bytes());
    let mut writer = Io::new(Vec::new(alloc));
    let done = answer(alloc, session, &mut reader, &mut writer)?;
    let bytes = writer.into_inner();
    let response = from_utf8(bytes.as_slice()).ok()?;
    format!(in alloc; "{done}: {response}").ok()
}

/// The requests of a table, one after another on a new package, that are given something else, with what that is.
fn others(alloc: Global, table: &str) -> Option<String> {
    let mut session = new_session(alloc)?;
    let mut text = String::new(alloc);
    for line in table.lines() {
        let (request, wanted) = line.split_once(" => ")?;
        let request = written_out(alloc, request)?;
        let wanted = written_out(alloc, wanted)?;
        let given = given(alloc, &mut session, request.as_str())?;
        if given.as_str() != wanted.as_str() {
            writeln!(text, "{line}\nis given\n{given}").ok()?;
        }
    }
    Some(text)
}

// What is shown; records; what is refused by its head; a body that is cut; pages that other tables hold; the end.
const REQUESTS: &str = "GET @K/contents@1| => shown: @JContent-Length: 2|Connection: close||[]
GET /contents@1| => shown: HTTP/1.1 404 Not Found@E
GET /0123456789abcdee/contents@1| => shown: HTTP/1.1 404 Not Found@E
GET @K/contents HTTP/1.1|Host: evil.example:8090|| => shown: HTTP/1.1 403 Forbidden@E
GET @K/contents HTTP/1.1|Host: localhost:8090|| => shown: HTTP/1.1 403 Forbidden@E
GET @K/contents@1Host: 127.0.0.1:8090|| => shown: HTTP/1.1 403 Forbidden@E
GET @K/contents@1Sec-Fetch-Site: same-site|| => shown: HTTP/1.1 403 Forbidden@E
GET @K/contents@1Sec-Fetch-Site: same-origin|| => shown: @JContent-Length: 2|Connection: close||[]
POST @K/records@1@TOrigin: http://127.0.0.1:8090|Content-Length: 76||table,spots,attributes,Spots~row,spots,7,Well,by the road,3~row,spots,x,,,0~ => ran 2 1: @A1 ok~2 ok~3 refused 10~
POST @K/records@1@TExpect: 100-continue|Content-Length: 24||row,spots,9,\"Gate, N\",,0 => ran 1 0: HTTP/1.1 100 Continue||@A1 ok~
GET @K/rows/spots/8@1| => shown: @JContent-Length: 49|Connection: close||[{\"amount\":0,\"id\":9,\"note\":\"\",\"title\":\"Gate, N\"}]
GET @K/rows/spots/1@1| => shown: @JContent-Length: 105|Connection: close||[{\"amount\":3,\"id\":7,\"note\":\"by the road\",\"title\":\"Well\"},{\"amount\":0,\"id\":9,\"note\":\"\",\"title\":\"Gate, N\"}]
GET @K/rows/spots/1?x@1| => shown: @JContent-Length: 105|Connection: close||[{\"amount\":3,\"id\":7,\"note\":\"by the road\",\"title\":\"Well\"},{\"amount\":0,\"id\":9,\"note\":\"\",\"title\":\"Gate, N\"}]
GET @K/rows/nope/1@1| => shown: HTTP/1.1 404 Not Found@E
GET @K/rows/spots/0@1| => shown: HTTP/1.1 404 Not Found@E
POST @K/records@1Content-Type: text/plain|Content-Length: 3||abc => shown: HTTP/1.1 415 Unsupported Media Type@E
POST @K/records@1@TOrigin: http://evil.example|Content-Length: 3||abc => shown: HTTP/1.1 403 Forbidden@E
POST @K/records@1@T| => shown: HTTP/1.1 411 Length Required@E
POST @K/records@1@TTransfer-Encoding: chunked|Content-Length: 3||abc => shown: HTTP/1.1 411 Length Required@E
POST @K/records@1@TContent-Length: 3|Content-Length: 4||abc => shown: HTTP/1.1 400 Bad Request@E
POST @K/records@1@TContent-Length: 16777217|| => shown: HTTP/1.1 413 Payload Too Large@E
POST @K/records@1@TContent-Length: 30||row,spots,10,Cut,,0~row,spo => shown: HTTP/1.1 400 Bad Request@E
POST @K/records@1@TExpect: 100-continue|Content-Length: 30||row,spots,10,Cut,,0~row,spo => shown: HTTP/1.1 100 Continue||HTTP/1.1 400 Bad Request@E
GET @K/rows/spots/10@1| => shown: @JContent-Length: 2|Connection: close||[]
OPTIONS @K/records@1Origin: http://127.0.0.1:8090|| => shown: HTTP/1.1 405 Method Not Allowed|Allow: GET, POST@E
POST @K/contents@1@TContent-Length: 0|| => shown: HTTP/1.1 404 Not Found@E
POST @K/records@1@TContent-Length: 0|| => ran 0 0: @A
POST @K/records@1@TContent-Length: 110||table,photos,media,Photos~media,photos,3,text/html,3c~table,viewer,media,Viewer~media,viewer,1,text/html,3c3e~ => ran 4 0: @A1 ok~2 ok~3 ok~4 ok~
GET @K/media/photos/3@1| => shown: HTTP/1.1 200 OK|Content-Type: text/html|Content-Security-Policy: sandbox|X-Content-Type-Options: nosniff|Content-Length: 1|Connection: close||<
GET @K/media/viewer/1@1| => shown: HTTP/1.1 200 OK|Content-Type: text/html|Content-Length: 2|Connection: close||<>
GET @K/media/photos/4@1| => shown: HTTP/1.1 404 Not Found@E
GET @K/contents => shown: HTTP/1.1 400 Bad Request@E
POST @K/end@1| => ended: HTTP/1.1 200 OK@E
";

#[test]
fn a_desk_answers_requests(rt: HostRuntime) -> Result<(), Fail> {
    let told = others(rt.alloc(), REQUESTS).expect(&rt, "responses");
    assert_eq!(rt; told.as_str(), "");
    Ok(())
}

/// A package with an attribute table.
const SPOTS: &str = "table,spots,attributes,Spots\n";

/// Two rows.
const TWO_ROWS: &str =
    "POST @K/records@1@TContent-Length: 40||row,spots,1,First,,0~row,spots,2,Last,,0~";

/// What a request for the rows is given.
fn rows_of(alloc: Global, session: &mut Session<MemStore>) -> Option<String> {
    let request = written_out(alloc, "GET @K/rows/spots/1@1|")?;
    let told = given(alloc, session, request.as_str())?;
    let (_, rows) = told.as_str().split_once("\r\n\r\n")?;
    format!(in alloc; "{rows}").ok()
}

/// What became of the two rows, read so and written so, and what then stands.
fn stands_behind<R: Read, W: io::Write>(
    alloc: Global,
    reader: &mut Io<R>,
    writer: &mut Io<W>,
) -> Option<String> {
    let mut session = session_after(alloc, &[SPOTS])?;
    let done = answer(alloc, &mut session, reader, writer)?;
    let rows = rows_of(alloc, &mut session)?;
    format!(in alloc; "{done}: {rows}").ok()
}

const FIRST: &str = "[{\"amount\":0,\"id\":1,\"note\":\"\",\"title\":\"First\"}]";

const BOTH: &str =
    "[{\"amount\":0,\"id\":1,\"note\":\"\",\"title\":\"First\"},{\"amount\":0,\"id\":2,\"note\":\"\",\"title\":\"Last\"}]";

/// What stands where the writer takes so many bytes: the head of the answers has 97.
fn behind_a_writer(alloc: Global, bytes: usize) -> Option<String> {
    let request = written_out(alloc, TWO_ROWS)?;
    stands_behind(
        alloc,
        &mut Io::new(request.as_bytes()),
        &mut short_writer(alloc, bytes),
    )
}

#[test]
fn a_writer_that_fails_stops_the_list(rt: HostRuntime) -> Result<(), Fail> {
    let alloc = rt.alloc();
    let head = written_out(alloc, "@A").expect(&rt, "a head");
    let in_head = behind_a_writer(alloc, 9).expect(&rt, "nothing stands");
    assert_eq!(rt; in_head.as_str(), "page fault 97: []");
    let in_line = behind_a_writer(alloc, head.len() + 3).expect(&rt, "a row stands");
    let (done, rows) = in_line.as_str().split_once(": ").expect(&rt, "two parts");
    assert_eq!(rt; done, "list fault 97");
    assert_eq!(rt; rows, FIRST);
    Ok(())
}

#[test]
fn a_reader_that_fails_leaves_the_package(rt: HostRuntime) -> Result<(), Fail> {
    let alloc = rt.alloc();
    let request = written_out(alloc, TWO_ROWS).expect(&rt, "a request");
    let mut writer = Io::new(Vec::new(alloc));
    let mut torn = torn_reader(request.as_bytes(), 60, 3);
    let stands = stands_behind(alloc, &mut torn, &mut writer).expect(&rt, "nothing stands");
    assert_eq!(rt; stands.as_str(), "page fault 96: []");
    Ok(())
}

#[test]
fn a_body_may_come_byte_by_byte(rt: HostRuntime) -> Result<(), Fail> {
    let alloc = rt.alloc();
    let request = written_out(alloc, TWO_ROWS).expect(&rt, "a request");
    let mut writer = Io::new(Vec::new(alloc));
    let mut slow = slow_reader(request.as_bytes());
    let stands = stands_behind(alloc, &mut slow, &mut writer).expect(&rt, "both stand");
    let (done, rows) = stands.as_str().split_once(": ").expect(&rt, "two parts");
    assert_eq!(rt; done, "ran 2 0");
    assert_eq!(rt; rows, BOTH);
    Ok(())
}
