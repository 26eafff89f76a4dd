//! A request read and answered.

ghost use Rattle.std.specs.Prelude.{◌≡◌, IsUtf8, bytes_eq, codes};
ghost use Rattle.mm_definitions.specs.Keys.{Text};
ghost use Rattle.mm_definitions.specs.Package.{Package};
ghost use Rattle.mm_page.specs.Page.{Page, WritesTo};
ghost use Rattle.mm_page.specs.Page as page;
ghost use Rattle.mm_page.specs.Promised.{MakesResponse, Responds, ServesRequest};
ghost use Rattle.mm_page.specs.Asked.{IsRouted, Wanted};

use crate::replies::{printed, reply};
use crate::{
    MOST_HEAD_BYTES, MOST_HEAD_LINES, bad_request, not_allowed, not_found, read_head, read_path,
};
use http::Method;
use httparse::spans::EMPTY_HEADER_SPAN;
use mm_definitions::answers::{Fault, PageFault};
use mm_definitions::streams::Io;
use mm_io::{Sent, send};
use mm_reads::Viewer;
use std::alloc::Global;
use std::io::{Read, Write};
use std::str::from_utf8;

/// The target before its first question mark.
fn before_query(target: &str) -> &str
    ensures { result.now ≡ page.path_of target.now }
{
    match target.split_once('?') {
        Some((path, _)) => path,
        None => target,
    }
}

fn is_get(method: &[u8]) -> bool
    ensures { result ≡ bytes_eq method.now (codes "GET") }
{
    method == Method::GET.as_str().as_bytes()
}

/// The response to a path.
fn path_response<V: Viewer>(alloc: Global, viewer: &mut V, path: &str) -> Result<Vec<u8>, Fault>
    ensures { MakesResponse V.Viewer viewer.old viewer.new result
        (λ p bytes. WritesTo p path.now bytes) ((w : Wanted) × IsRouted path.now w) }
{
    match read_path(alloc, path)? {
        Some(wanted) => reply(alloc, viewer, wanted),
        None => printed(not_found(alloc)),
    }
}

/// The response to a head of this method and target.
fn head_response<V: Viewer>(
    alloc: Global,
    viewer: &mut V,
    method: &[u8],
    target: &[u8],
) -> Result<Vec<u8>, Fault>
    requires text { IsUtf8 target.now }
    ensures { MakesResponse V.Viewer viewer.old viewer.new result
        (λ p bytes. page.Writes p method.now target.now bytes)
        ((method.now ≡ codes "GET") × (w : Wanted) × IsRouted (page.path_of target.now) w) }
{
    if !is_get(method) {
        return printed(not_allowed(alloc));
    }
    let Ok(target) = from_utf8(target) else {
        unreachable!()
    };
    path_response(alloc, viewer, before_query(target))
}

/// The response to what the reader gives.
fn respond<V: Viewer, R: Read>(
    alloc: Global,
    viewer: &mut V,
    reader: &mut Io<R>,
) -> Result<Vec<u8>, Fault>
    ensures { Responds V.Viewer R.Read viewer.old viewer.new reader.old reader.new result }
{
    let mut buf = [0; MOST_HEAD_BYTES];
    let mut headers = [EMPTY_HEADER_SPAN; MOST_HEAD_LINES];
    match read_head(reader, &mut buf, &mut headers)? {
        Some((n, spans)) => {
            let head = &buf[..n];
            head_response(alloc, viewer, spans.method.of(head), spans.path.of(head))
        }
        None => printed(bad_request(alloc)),
    }
}

/// Reads the head of one request and writes one response, which is made whole before its first byte is written. What was written
/// is the page of the package and of all that the reader had still to give, however it is cut.
///
/// No more is read than the head needs, so a client that keeps its side open is answered at once.
///
/// A fault ends it. With 90 want of memory, 91 the store, 92 where the package is needed and the viewer has failed (a session
/// has to be opened again then), and 96 where the reader fails, nothing was written; with 97, where the writer fails, a front of
/// the response was. The viewer stays as it is. Before the package is needed memory grows for the routes of a path
/// alone, and where it isn't for the response: only there a viewer that has failed is told 90.
pub fn serve_one<V: Viewer, R: Read, W: Write>(
    alloc: Global,
    viewer: &mut V,
    reader: &mut Io<R>,
    writer: &mut Io<W>,
) -> Result<(), PageFault>
    ensures { ServesRequest V.Viewer R.Read W.Write viewer.old viewer.new reader.old reader.new
        writer.old writer.new result }
{
    let response = match respond(alloc, viewer, reader) {
        Ok(response) => response,
        Err(fault) => return Err(PageFault(fault)),
    };
    match send(writer, &response) {
        Sent::Flushed => Ok(()),
        Sent::Unflushed => Err(PageFault(Fault::OUTPUT)),
        Sent::Cut => Err(PageFault(Fault::OUTPUT)),
    }
}

/// A package and an input have one response.
pub fn one_page()
    ensures { (p : Package) (input a b : Text) → Page p input a → Page p input b → a ≡ b }
{}
