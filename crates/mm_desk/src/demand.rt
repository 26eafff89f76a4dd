//! What a request is taken for, by its head alone.

ghost use Rattle.std.specs.Prelude.{◌≡◌, ◌≢◌, ◌↔◌, ◌≤◌, ◌++◌, ◌∷◌, List, ℕ, codes, length, map, All, IsTrue, MatchOption};
ghost use Rattle.mm_definitions.specs.Keys.{Text};
ghost use Rattle.httparse.specs.Spans.{IsHeaderWithin, header_bytes};
ghost use Rattle.http1.specs.Fields.{known_fields};
ghost use Rattle.mm_desk.specs.Demand.{IsDemand, IsSent, LetsIn, demanded, measured, path_of};

use crate::fields::{FieldValue, given, is_host, is_origin, is_own_site};
use http1::fields::{ContentLength, KnownFields, TransferEncoding};
use httparse::spans::HeaderSpan;

/// The most bytes that a body may have: as many as the list of a kit.
pub const MOST_BODY: u64 = 16_777_216;

/// What a request is taken for.
#[derive(Clone, Copy)]
pub enum Taken<'b> {
    /// A part of the package is asked for, by this path behind the key.
    Show(&'b [u8]),
    /// So many bytes of records are sent, and the sender waits to be told to go on, or not.
    Records(u64, bool),
    /// The desk is to end.
    End,
    /// It is refused with this status.
    Refused(u16),
}

/// The target before its first question mark.
fn before_query(target: &str) -> &str
    ensures { result.now ≡ path_of target.now }
{
    match target.split_once('?') {
        Some((path, _)) => path,
        None => target,
    }
}

/// What stands behind a front in a path.
fn behind<'b>(path: &'b [u8], front: &[u8]) -> Option<&'b [u8]>
    ensures { MatchOption result ((rest : Text) → path.now ≢ front.now ++ rest)
        (λ rest. path.now ≡ front.now ++ rest.now) }
{
    path.strip_prefix(front)
}

/// Whether the request came to the address that the desk prints, and from a page of that address if from one.
fn is_let_in(head: &[u8], headers: &[HeaderSpan], port: u16) -> bool
    requires { All (IsHeaderWithin (length head.now)) headers.now }
    ensures { IsTrue result ↔ LetsIn port (map (header_bytes head.now) headers.now) }
{
    if !is_host(given(head, headers, b"host"), port) {
        return false;
    }
    if !is_origin(given(head, headers, b"origin"), port) {
        return false;
    }
    is_own_site(given(head, headers, b"sec-fetch-site"))
}

/// Records by their length.
fn by_length<'b>(length: ContentLength, coding: TransferEncoding, waits: bool) -> Taken<'b>
    ensures { demanded result ≡ measured length coding waits }
{
    match (length, coding) {
        (ContentLength::Value(length), TransferEncoding::Absent) => {
            if length <= MOST_BODY {
                Taken::Records(length, waits)
            } else {
                Taken::Refused(413)
            }
        }
        (ContentLength::Invalid, TransferEncoding::Absent) => Taken::Refused(400),
        _ => Taken::Refused(411),
    }
}

/// Records, where their type is told.
fn take_records<'b>(head: &[u8], headers: &[HeaderSpan], minor: u8) -> Taken<'b>
    requires { All (IsHeaderWithin (length head.now)) headers.now }
    ensures { IsSent (map (header_bytes head.now) headers.now) minor (demanded result) }
{
    match given(head, headers, b"content-type") {
        FieldValue::Once(value) if value == b"text/csv".as_slice() => {
            let known = KnownFields::from_spans(head, headers);
            let waits = known.expect_continue && minor == 1;
            by_length(known.content_length, known.transfer_encoding, waits)
        }
        _ => Taken::Refused(415),
    }
}

/// What the request of a method, a target and these fields is taken for; each path begins with the front, which is the key behind a slash.
pub fn take_request<'b>(
    port: u16,
    front: &[u8],
    method: &[u8],
    target: &'b str,
    head: &[u8],
    headers: &[HeaderSpan],
    minor: u8,
) -> Taken<'b>
    requires { All (IsHeaderWithin (length head.now)) headers.now }
    ensures { IsDemand port front.now method.now target.now
        (map (header_bytes head.now) headers.now) minor (demanded result) }
{
    if !is_let_in(head, headers, port) {
        return Taken::Refused(403);
    }
    let shows = method == b"GET".as_slice();
    if !shows && method != b"POST".as_slice() {
        return Taken::Refused(405);
    }
    let Some(path) = behind(before_query(target).as_bytes(), front) else {
        return Taken::Refused(404);
    };
    if shows {
        return Taken::Show(path);
    }
    if path == b"/records".as_slice() {
        return take_records(head, headers, minor);
    }
    if path == b"/end".as_slice() {
        return Taken::End;
    }
    Taken::Refused(404)
}
