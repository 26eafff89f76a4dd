//! A request read and answered.

ghost use Rattle.std.specs.Prelude.{◌≡◌, ◌⊎◌, map, option_map, IfErr, OnOk};
ghost use Rattle.httparse.specs.Grammar.{RequestHead};
ghost use Rattle.httparse.specs.Spans.{IsRequestAt, IsRequestOf, IsRequestWithin, name_and_value};
ghost use Rattle.mm_definitions.specs.Faults as faults;
ghost use Rattle.mm_definitions.specs.Streams.{has_failed, inside, is_flushed, written};
ghost use Rattle.mm_io.specs.Records.{TellsFailing};
ghost use Rattle.mm_desk.specs.Body.{IsReadFrugally};
ghost use Rattle.mm_desk.specs.Demand.{IsDemand, demanded};
ghost use Rattle.mm_desk.specs.Answered.{Demands, IsDeskAnswered, IsBehindHead, IsHeadless, IsPathAnswered, IsReadOn, IsReadTo, IsRecordsRun, Never, page_of};
ghost use Rattle.mm_desk.specs.Exchanges.{IsExchange, IsFlushedBehind};
ghost use Rattle.mm_desk.specs.Responses.{go_on};
ghost use Rattle.mm_desk.specs.Sent.{IsSentOff};

use crate::bodies::run_body;
use crate::body::read_body;
use crate::demand::{Taken, take_request};
use crate::reads::Desk;
use crate::replies::show;
use crate::responses::{ENDED, GO_ON, refusal};
use crate::sending::sent;
use httparse::spans::{EMPTY_HEADER_SPAN, HeaderSpan, RequestSpans};
use mm_definitions::answers::{PageFault, RunFault, Tally};
use mm_definitions::moments::Moment;
use mm_definitions::names::Name;
use mm_definitions::streams::Io;
use mm_page::{MOST_HEAD_BYTES, MOST_HEAD_LINES, read_head};
use std::alloc::Global;
use std::io::{Read, Write};
use std::str::from_utf8;

/// What a desk lets in: the port that it is reached at, the front that each path begins with (the key behind a slash), and the media table
/// whose items may run as pages.
#[derive(Clone, Copy)]
pub struct Gate<'a> {
    pub port: u16,
    pub front: &'a str,
    pub page: Option<&'a Name>,
}

/// What became of a request.
pub enum Done {
    /// It was answered, and the package is as it was.
    Shown,
    /// It was answered, and the desk is to end.
    Ended,
    /// Its records were run.
    Ran(Result<Tally, RunFault>),
}

/// Tells a sender that waits to go on.
fn let_go_on<W: Write>(writer: &mut Io<W>, waits: bool) -> Result<(), PageFault>
    ensures { IsSentOff (written W.contents writer.old) (written W.contents writer.new)
        (go_on waits) result }
{
    if waits {
        return sent(writer, GO_ON);
    }
    Ok(())
}

/// Reads the records whole, and runs them; where they did not come whole none is run.
fn run_records<D: Desk, R: Read, W: Write>(
    alloc: Global,
    desk: &mut D,
    reader: &mut Io<R>,
    writer: &mut Io<W>,
    at: Moment,
    here: &[u8],
    length: usize,
) -> Result<Done, PageFault>
    ensures run { IsRecordsRun length here.now
        D.Apply at (R.remaining (inside reader.old)) (has_failed reader.new)
        desk.old desk.new (written W.contents writer.old) (written W.contents writer.new) result }
    ensures flushed { IsFlushedBehind (is_flushed writer.new) result }
    ensures frugal { IsReadFrugally here.now length
        (R.remaining (inside reader.old)) (R.remaining (inside reader.new)) }
    ensures working { OnOk result (has_failed reader.new ≡ has_failed reader.old) }
    ensures failing { IfErr result
        (λ e. TellsFailing (has_failed reader.old) (has_failed reader.new) e.0.0) }
{
    match read_body(alloc, reader, here, length) {
        Ok(Some(body)) => match run_body(alloc, desk, body.as_slice(), writer, at) {
            Ok(run) => Ok(Done::Ran(run)),
            Err(fault) => Err(fault),
        },
        Ok(None) => match sent(writer, refusal(400).as_bytes()) {
            Ok(()) => Ok(Done::Shown),
            Err(fault) => Err(fault),
        },
        Err(fault) => Err(PageFault(fault)),
    }
}

/// Shows what a path behind the key asks for.
fn answer_path<D: Desk, W: Write>(
    alloc: Global,
    desk: &mut D,
    page: Option<&Name>,
    path: &[u8],
    writer: &mut Io<W>,
) -> Result<Done, PageFault>
    ensures answered { IsPathAnswered (option_map (λ name. name.now) page.entry) path.now D.Viewer D.Apply
        desk.old desk.new (written W.contents writer.old) (written W.contents writer.new) result }
    ensures flushed { IsFlushedBehind (is_flushed writer.new) result }
{
    let response = match show(alloc, desk, page, path) {
        Ok(response) => response,
        Err(fault) => return Err(PageFault(fault)),
    };
    match sent(writer, &response) {
        Ok(()) => Ok(Done::Shown),
        Err(fault) => Err(fault),
    }
}

/// Answers a request by what its head asks for; `here` are the bytes behind the head that were read with it.
fn answer_demand<D: Desk, R: Read, W: Write>(
    alloc: Global,
    desk: &mut D,
    gate: Gate<'_>,
    reader: &mut Io<R>,
    writer: &mut Io<W>,
    at: Moment,
    taken: Taken<'_>,
    here: &[u8],
) -> Result<Done, PageFault>
    ensures answered { IsDeskAnswered (page_of gate.entry) (IsBehindHead (demanded taken.entry) here.now) Never
        D.Viewer D.Apply at (R.remaining (inside reader.old)) (has_failed reader.new)
        desk.old desk.new (written W.contents writer.old) (written W.contents writer.new) result }
    ensures flushed { IsFlushedBehind (is_flushed writer.new) result }
    ensures frugal { IsReadOn (demanded taken.entry) here.now
        (R.remaining (inside reader.old)) (R.remaining (inside reader.new)) }
    ensures working { OnOk result (has_failed reader.new ≡ has_failed reader.old) }
    ensures failing { IfErr result
        (λ e. TellsFailing (has_failed reader.old) (has_failed reader.new) e.0.0) }
{
    match taken {
        Taken::Show(path) => answer_path(alloc, desk, gate.page, path, writer),
        Taken::Records(length, waits) => match let_go_on(writer, waits) {
            Ok(()) => run_records(alloc, desk, reader, writer, at, here, length as usize),
            Err(fault) => Err(fault),
        },
        Taken::End => match sent(writer, ENDED) {
            Ok(()) => Ok(Done::Ended),
            Err(fault) => Err(fault),
        },
        Taken::Refused(status) => match sent(writer, refusal(status).as_bytes()) {
            Ok(()) => Ok(Done::Shown),
            Err(fault) => Err(fault),
        },
    }
}

/// What a head is taken for.
fn taken_for<'b>(
    gate: Gate<'_>,
    read: &'b [u8],
    headers: &[HeaderSpan],
    spans: RequestSpans,
) -> Taken<'b>
    requires within { IsRequestWithin read.now headers.now spans }
    requires of { IsRequestOf read.now headers.now spans }
    ensures { (h : RequestHead) → IsRequestAt read.now headers.now spans h
        → IsDemand gate.entry.port gate.entry.front.now h.method h.target (map name_and_value h.fields)
        h.minor (demanded result) }
{
    let Ok(target) = from_utf8(spans.path.of(read)) else {
        unreachable!()
    };
    let method = spans.method.of(read);
    let fields = &headers[..spans.headers];
    let front = gate.front.as_bytes();
    take_request(
        gate.port,
        front,
        method,
        target,
        read,
        fields,
        spans.version,
    )
}

/// Reads one request and answers it, at a moment. The records of a body are run once it came whole, and never in part; each is answered by a
/// line that is written and flushed before the next record is read. With every other answer, and with every fault, no record was run, and
/// the package is as it was.
///
/// A fault ends it. With 90 want of memory, 91 the store, 92 where the package is needed and the session has to be opened again, and 96
/// where the reader fails, nothing was written, but to a sender that waits that it may go on; with 97, where the writer fails, a front of
/// the response was. What stops a list whose head was answered is a fault of its run, and no fault of the request.
pub fn desk_one<D: Desk, R: Read, W: Write>(
    alloc: Global,
    desk: &mut D,
    gate: Gate<'_>,
    reader: &mut Io<R>,
    writer: &mut Io<W>,
    at: Moment,
) -> Result<Done, PageFault>
    ensures exchange { IsExchange D.Apply at desk.old desk.new (written W.contents writer.new)
        result }
    ensures answered { IsDeskAnswered (page_of gate.entry) (Demands gate.entry) IsHeadless
        D.Viewer D.Apply at (R.remaining (inside reader.old)) (has_failed reader.new)
        desk.old desk.new (written W.contents writer.old) (written W.contents writer.new) result }
    ensures flushed { IsFlushedBehind (is_flushed writer.new) result }
    ensures frugal { OnOk result (IsReadTo gate.entry
        (R.remaining (inside reader.old)) (R.remaining (inside reader.new))) }
    ensures frugal_fault { IfErr result (λ e. (e.0.0 ≡ faults.input.0) ⊎ IsReadTo gate.entry
        (R.remaining (inside reader.old)) (R.remaining (inside reader.new))) }
    ensures reading { OnOk result (has_failed reader.new ≡ has_failed reader.old) }
    ensures failing { IfErr result
        (λ e. TellsFailing (has_failed reader.old) (has_failed reader.new) e.0.0) }
{
    let mut buf = [0; MOST_HEAD_BYTES];
    let mut headers = [EMPTY_HEADER_SPAN; MOST_HEAD_LINES];
    match read_head(reader, &mut buf, &mut headers) {
        Ok(Some((n, spans))) => {
            let read = &buf[..n];
            let taken = taken_for(gate, read, &headers, spans);
            answer_demand(
                alloc,
                desk,
                gate,
                reader,
                writer,
                at,
                taken,
                &read[spans.len..],
            )
        }
        Ok(None) => match sent(writer, refusal(400).as_bytes()) {
            Ok(()) => Ok(Done::Shown),
            Err(fault) => Err(fault),
        },
        Err(fault) => Err(PageFault(fault)),
    }
}
