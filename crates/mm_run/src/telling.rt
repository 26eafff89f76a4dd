//! Telling an answer: its line is written and counted.

ghost use Rattle.std.specs.Prelude.{◌≡◌, ◌≢◌, ◌+◌, ◌<◌, ◌^◌, IfOk, IfErr, true};
ghost use Rattle.mm_definitions.specs.Faults.{output};
ghost use Rattle.mm_definitions.specs.Streams.{is_flushed, written};
ghost use Rattle.mm_run.specs.Told.{GoesOn, IsNear, Stops, with_answer};

use mm_definitions::answers::{Answer, Fault, RunFault, Tally};
use mm_definitions::streams::Io;
use mm_io::{Sent, answer_line, send};
use std::io::Write;

/// The tally with one more answer.
fn count_answer(tally: Tally, answer: &Answer) -> Tally
    requires { (tally.accepted + 1 < 2 ^ 64) × (tally.refused + 1 < 2 ^ 64) }
    ensures { result ≡ with_answer answer.now tally }
{
    match answer {
        Answer::Ok => Tally {
            accepted: tally.accepted + 1,
            ..tally
        },
        Answer::Refused(_) => Tally {
            refused: tally.refused + 1,
            ..tally
        },
        Answer::Fault(_) => tally,
    }
}

/// Writes line `n`, which tells the answer, and flushes. It counts both, and stops at a fault: the answer's own, or 97
/// where the writer fails.
pub(crate) fn tell<W: Write>(
    n: u64,
    answer: Answer,
    writer: &mut Io<W>,
    tally: Tally,
) -> Result<Tally, RunFault>
    requires { (tally.accepted + tally.refused + 1 ≡ n) × (tally.written + 1 ≡ n) }
    ensures goes { IfOk result
        (λ t. GoesOn (written W.contents writer.old) (written W.contents writer.new) n
        answer tally t) }
    ensures near { IfErr result (λ e. IsNear e.tally) }
    ensures stops { IfErr result
        (λ e. Stops (written W.contents writer.old) (written W.contents writer.new) n
        answer tally e) }
    ensures flushed { IfOk result (λ t. is_flushed writer.new ≡ true) }
    ensures told { IfErr result (λ e. e.fault.0 ≢ output.0 → is_flushed writer.new ≡ true) }
{
    let mut tally = count_answer(tally, &answer);
    match send(writer, answer_line(n, &answer).as_slice()) {
        Sent::Flushed => {
            tally.written += 1;
            match answer {
                Answer::Fault(fault) => Err(RunFault { fault, tally }),
                _ => Ok(tally),
            }
        }
        Sent::Unflushed => {
            tally.written += 1;
            Err(RunFault {
                fault: Fault::OUTPUT,
                tally,
            })
        }
        Sent::Cut => Err(RunFault {
            fault: Fault::OUTPUT,
            tally,
        }),
    }
}
