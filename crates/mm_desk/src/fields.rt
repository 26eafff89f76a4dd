//! The fields of a head that decide whether a request is let in.

ghost use Rattle.std.specs.Prelude.{◌≡◌, ◌↔◌, ◌≤◌, ◌++◌, ◌∷◌, [], List, codes, decimal, length, map, All, IsTrue};
ghost use Rattle.mm_definitions.specs.Keys.{Text};
ghost use Rattle.httparse.specs.Spans.{IsHeaderWithin, header_bytes};
ghost use Rattle.http1.specs.Fields.{values_named};
ghost use Rattle.mm_desk.specs.Fields.{IsFieldValue, IsHostField, IsOriginField, IsSiteField};

use arrayvec::ArrayVec;
use http1::text::eq_ignore_case;
use httparse::spans::HeaderSpan;
use mm_io::{put, put_number};

/// The value of a field that stands once at most.
#[derive(Clone, Copy)]
pub enum FieldValue<'b> {
    Absent,
    Once(&'b [u8]),
    Often,
}

/// With one more value.
fn with_value<'b>(found: FieldValue<'b>, value: &'b [u8]) -> FieldValue<'b>
    ensures { (vs : List Text) → IsFieldValue vs found.entry → IsFieldValue (vs ++ value.now ∷ []) result }
{
    match found {
        FieldValue::Absent => FieldValue::Once(value),
        _ => FieldValue::Often,
    }
}

/// The value of the field of this name, in any case.
pub fn given<'b>(head: &'b [u8], headers: &[HeaderSpan], name: &[u8]) -> FieldValue<'b>
    requires { All (IsHeaderWithin (length head.now)) headers.now }
    ensures { IsFieldValue (values_named name.now (map (header_bytes head.now) headers.now)) result }
{
    let mut found = FieldValue::Absent;
    for header in headers {
        if eq_ignore_case(header.name.of(head), name) {
            found = with_value(found, header.value.of(head));
        }
    }
    found
}

/// A text with a port behind it.
fn with_port(words: &[u8], port: u16) -> ArrayVec<u8, 64>
    requires { length words.now ≤ 40 }
    ensures { result.items ≡ words.now ++ decimal port }
{
    let mut text = ArrayVec::new();
    put(&mut text, words);
    put_number(&mut text, port as u64);
    text
}

/// Whether the request was sent to the address that the desk prints.
pub fn is_host(host: FieldValue<'_>, port: u16) -> bool
    ensures { IsTrue result ↔ IsHostField port host.entry }
{
    match host {
        FieldValue::Once(value) => value == with_port(b"127.0.0.1:", port).as_slice(),
        _ => false,
    }
}

/// Whether no page sent it but one of that address.
pub fn is_origin(origin: FieldValue<'_>, port: u16) -> bool
    ensures { IsTrue result ↔ IsOriginField port origin.entry }
{
    match origin {
        FieldValue::Absent => true,
        FieldValue::Once(value) => value == with_port(b"http://127.0.0.1:", port).as_slice(),
        FieldValue::Often => false,
    }
}

/// Whether a browser tells that no page of another site, or of another port, had it ask.
pub fn is_own_site(site: FieldValue<'_>) -> bool
    ensures { IsTrue result ↔ IsSiteField site.entry }
{
    match site {
        FieldValue::Absent => true,
        FieldValue::Once(value) => value == b"same-origin".as_slice()
            || value == b"none".as_slice(),
        FieldValue::Often => false,
    }
}
