//! The run of a list.

ghost use Rattle.std.specs.Prelude.{◌≡◌, ◌≢◌, ◌+◌, ◌-◌, ◌^◌, OnOk, option_map, true};
ghost use Rattle.std.specs.Io.KnownBytes.{IsAtEnd};
ghost use Rattle.csv.specs.Reading.{reader_source, reader_state, source_of, strip_bom};
ghost use Rattle.csv.specs.declared.parser.State.TheVariants as states;
ghost use Rattle.mm_definitions.specs.Faults.{memory, output};
ghost use Rattle.mm_definitions.specs.Streams.{has_failed, inside, is_flushed, written};
ghost use Rattle.mm_definitions.specs.declared.answers.Answer.TheVariants as answers;
ghost use Rattle.mm_io.specs.Records.{IsSetUp};
ghost use Rattle.mm_run.specs.Promised.{RunsList, RunsSource};
ghost use Rattle.mm_run.specs.Told.{IsNear, Stops};

use crate::answering::turn;
use crate::apply::Apply;
use crate::telling::tell;
use csv::Reader;
use mm_definitions::answers::{Answer, Fault, RunFault, Tally};
use mm_definitions::moments::Moment;
use mm_definitions::streams::{Io, lent_back};
use mm_io::{Held, Lender, Source, Tells, drain, open_rows};
use std::alloc::Global;
use std::io::{Read, Write};
use std::marker::{Brand, PhantomData};

/// Tells, behind as many records as there are numbers for, that there is none for the next. No list is as long.
fn tell_endless<W: Write>(writer: &mut Io<W>, tally: Tally) -> RunFault
    requires { (tally.accepted + tally.refused + 1 ≡ 2 ^ 64 - 1)
        × (tally.written + 1 ≡ 2 ^ 64 - 1) }
    ensures near { IsNear result.tally }
    ensures stops { Stops (written W.contents writer.old) (written W.contents writer.new)
        (2 ^ 64 - 1) (answers.Fault memory) tally result }
    ensures told { result.fault.0 ≢ output.0 → is_flushed writer.new ≡ true }
{
    match tell(u64::MAX, Answer::Fault(Fault::MEMORY), writer, tally) {
        Ok(_) => unreachable!(),
        Err(e) => e,
    }
}

/// Runs the records of a reader of records, and answers each with a line.
fn run_rows<A: Apply, T: Read + Tells, W: Write>(
    alloc: Global,
    session: &mut A,
    rows: &mut Reader<T>,
    writer: &mut Io<W>,
    at: Moment,
) -> Result<Tally, RunFault>
    requires { IsSetUp rows.old }
    ensures { RunsSource A.Apply W.Write at session.old session.new
        (source_of T.remaining rows.old) (reader_state rows.old)
        (T.has_failed (reader_source rows.old)) (T.has_failed (reader_source rows.new))
        writer.old writer.new result }
{
    let mut tally = Tally {
        accepted: 0,
        refused: 0,
        written: 0,
    };
    for n in 1..u64::MAX {
        match turn(alloc, session, rows, at) {
            Some(answer) => match tell(n, answer, writer, tally) {
                Ok(next) => tally = next,
                Err(e) => return Err(e),
            },
            None => return Ok(tally),
        }
    }
    Err(tell_endless(writer, tally))
}

/// The run, with the caller's reader under the name that `K` has.
fn run_source<'a, A: Apply, R: Read, W: Write, K: Lender>(
    alloc: Global,
    session: &mut A,
    held: Held<'a, R>,
    writer: &mut Io<W>,
    at: Moment,
) -> (Held<'a, R>, Result<Tally, RunFault>)
    requires { held.reader.ghost_name ≡ K.name }
    ensures same_reference { result.0.reader.ghost_name ≡ held.entry.reader.ghost_name }
    ensures runs { RunsSource A.Apply W.Write at session.old session.new
        (option_map strip_bom (R.remaining (inside held.entry.reader.now))) states.StartRecord
        (has_failed held.entry.reader.now) (has_failed result.0.reader.now)
        writer.old writer.new result.1 }
{
    let source = Source::<'a, R, K> {
        held,
        of: PhantomData,
    };
    let mut rows = open_rows(alloc, source);
    let outcome = run_rows(alloc, session, &mut rows, writer, at);
    let Source { held, of: _ } = rows.into_inner();
    (held, outcome)
}

/// The run, up to the end of the reader.
fn run_to_end<A: Apply, R: Read, W: Write>(
    alloc: Global,
    session: &mut A,
    reader: &mut Io<R>,
    writer: &mut Io<W>,
    at: Moment,
) -> Result<Tally, RunFault>
    ensures runs { RunsSource A.Apply W.Write at session.old session.new
        (option_map strip_bom (R.remaining (inside reader.old))) states.StartRecord
        (has_failed reader.old) (has_failed reader.new) writer.old writer.new result }
    ensures end { OnOk result (IsAtEnd (R.remaining (inside reader.new))) }
{
    let (held, outcome) = run_source::<A, R, W, Brand>(alloc, session, Held { reader }, writer, at);
    let Held { reader: inner } = held;
    let tally = match outcome {
        Ok(tally) => tally,
        Err(e) => {
            lent_back(inner);
            return Err(e);
        }
    };
    match drain(inner) {
        Ok(()) => Ok(tally),
        // A fault is told with no `Ok`: the proof answers for each of the two.
        Err(fault) => match tell(tally.written + 1, Answer::Fault(fault), writer, tally) {
            Ok(tally) => Ok(tally),
            Err(e) => Err(e),
        },
    }
}

/// Runs the records of the bytes that the reader has still to give, each command at this moment. Line n answers record
/// n; it is written and flushed before the next one is answered. A record that spells no command has its refusal and
/// leaves the package as it was. The tally counts the accepted records, the refused ones, and the lines written whole.
///
/// # Errors
///
/// A fault ends the run, with the line of the next record's number where it can be written: 90 want of memory (for a
/// record, or for the store), 91 the store, 92 where the session has to be opened again, 96 where the reader fails, and
/// 97, without a line, where the writer does. A command whose line wasn't written whole may be done or not.
///
/// 92 comes at the first record that spells a command. Memory grows before that for reading records alone, and 90 there
/// is of a record.
pub fn run_list<A: Apply, R: Read, W: Write>(
    alloc: Global,
    session: &mut A,
    reader: &mut Io<R>,
    writer: &mut Io<W>,
    at: Moment,
) -> Result<Tally, RunFault>
    ensures { RunsList A.Apply R.Read W.Write at session.old session.new reader.old reader.new
        writer.old writer.new result }
{
    run_to_end(alloc, session, reader, writer, at)
}
