//! The run of the records of a body that is held.

ghost use Rattle.std.specs.Prelude.{◌≡◌, IfOk, IfErr};
ghost use Rattle.mm_definitions.specs.Streams.{Written, is_flushed, written};
ghost use Rattle.mm_desk.specs.Bodies.{IsFlushedFor, RunsBody, answers_head};
ghost use Rattle.mm_desk.specs.Sent.{IsCut, IsSentWhole};

use crate::sending::sent;
use mm_definitions::answers::{PageFault, RunFault, Tally};
use mm_definitions::moments::Moment;
use mm_definitions::streams::Io;
use mm_run::{Apply, run_list};
use std::alloc::Global;
use std::io::Write;

/// The head of the answers to records.
const ANSWERS: &[u8] =
    b"HTTP/1.1 200 OK\r\nContent-Type: text/plain\r\nX-Content-Type-Options: nosniff\r\nConnection: close\r\n\r\n";

/// Writes the head of the answers, and runs the records of a body, each command at this moment: line n answers record n, and is written
/// and flushed before the next record is read. 97 where the head could not be written whole: then no record was run.
pub fn run_body<A: Apply, W: Write>(
    alloc: Global,
    session: &mut A,
    body: &[u8],
    writer: &mut Io<W>,
    at: Moment,
) -> Result<Result<Tally, RunFault>, PageFault>
    ensures ran { IfOk result (λ ran. (between : Written)
        × IsSentWhole (written W.contents writer.old) between answers_head
        × RunsBody A.Apply at session.old session.new body.now between
        (written W.contents writer.new) ran) }
    ensures stayed { IfErr result (λ e. session.new ≡ session.old) }
    ensures cut { IfErr result (λ e. IsCut (written W.contents writer.old)
        (written W.contents writer.new) answers_head e.0) }
    ensures flushed { IfOk result (IsFlushedFor (is_flushed writer.new)) }
{
    match sent(writer, ANSWERS) {
        Ok(()) => {}
        Err(fault) => return Err(fault),
    }
    let mut records = Io::new(body);
    Ok(run_list(alloc, session, &mut records, writer, at))
}
