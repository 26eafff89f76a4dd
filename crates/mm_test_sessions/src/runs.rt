//! Runs on systems of the tests' own, with writers and readers that fail.

ghost use Rattle.std.specs.Prelude.{◌≡◌};
ghost use Rattle.mm_run.specs.Applied.{OnFault};

use crate::fakes::{Short, short_writer, torn_reader, unflushed_writer};
use mm_definitions::answers::{Answer, Fault, Refusal, Tally};
use mm_definitions::commands::Command;
use mm_definitions::moments::Moment;
use mm_definitions::refusals::Reason;
use mm_definitions::streams::Io;
use mm_run::{Apply, run_list};
use std::alloc::Global;
use std::fmt::Write;
use std::io;
use std::io::Read;
use std::test::Fail;

// The numbers of the systems that stand. Nothing is claimed of it. It answers so many commands before its store fails.
#[derive(Drop)]
struct Systems {
    systems: Vec<i64>,
    left: u32,
    moment: u64,
    failed: bool,
}

fn new_systems(alloc: Global, left: u32) -> Systems {
    Systems {
        systems: Vec::new(alloc),
        left,
        moment: 0,
        failed: false,
    }
}

fn refused(reason: Reason) -> Answer
    ensures { OnFault result (λ fault. ⊥) }
{
    Answer::Refused(Refusal::of(reason))
}

impl Systems {
    ghost use Rattle.std.specs.Prelude.{◌≡◌};
    ghost use Rattle.mm_run.specs.Applied.{OnFault};

    fn answer(&mut self, command: &Command) -> Answer
        ensures { OnFault result (λ fault. fault ≡ 91) }
    {
        if self.left == 0 {
            return Answer::Fault(Fault::STORE);
        }
        self.left -= 1;
        match command {
            Command::Srs { id, .. } => {
                if self.systems.contains(&id.get()) {
                    return refused(Reason::SYSTEM_EXISTS);
                }
                if self.systems.push(id.get()).is_err() {
                    return Answer::Fault(Fault::STORE);
                }
                Answer::Ok
            }
            _ => refused(Reason::NO_TABLE),
        }
    }
}

impl Apply for Systems {
    ghost use Rattle.std.specs.Prelude.{ℕ, ⊤};

    ghost Database = { ℕ };

    ghost stands_for = { λ db p. ⊤ };

    ghost may_leave = { λ s db. ⊤ };

    ghost is_clean = { λ s. ⊤ };

    ghost settled = { λ s p. ⊥ };

    ghost seen = { λ s p. ⊥ };

    ghost has_failed = { λ s. s.failed };

    fn apply(&mut self, command: &Command, at: Moment) -> Answer {
        if self.failed {
            return Answer::Fault(Fault::REOPEN);
        }
        self.moment = at.milliseconds();
        let answer = self.answer(command);
        self.failed = matches!(answer, Answer::Fault(_));
        answer
    }

    ghost settled_is = { λ s p. (λ none. absurd none, λ it. absurd it.0) };
}

const TWO_EQUAL: &[u8] = b"srs,5001,A,NONE,1,undefined,\nsrs,5001,A,NONE,1,undefined,\n";

/// Runs the records that the reader gives: the fault or 0, and the tally.
fn run<R: Read, W: io::Write>(
    alloc: Global,
    systems: &mut Systems,
    reader: &mut Io<R>,
    writer: &mut Io<W>,
) -> Option<(u8, Tally)> {
    match run_list(alloc, systems, reader, writer, Moment::new(951868799999)?) {
        Ok(tally) => Some((0, tally)),
        Err(stopped) => Some((stopped.fault.number(), stopped.tally)),
    }
}

/// What a run on the systems comes to, and the bytes that the writer took: `FAULT ACCEPTED REFUSED WRITTEN BYTES`.
fn ran<R: Read>(
    alloc: Global,
    systems: &mut Systems,
    reader: &mut Io<R>,
    writer: Io<Short>,
) -> Option<String> {
    let mut writer = writer;
    let (fault, tally) = run(alloc, systems, reader, &mut writer)?;
    if writer.failed() != (fault == 97) || reader.failed() != (fault == 96) {
        return None;
    }
    let Short { taken, .. } = writer.into_inner();
    let bytes = taken.as_slice().escape_ascii();
    let Tally {
        accepted,
        refused,
        written,
    } = tally;
    format!(in alloc; "{fault} {accepted} {refused} {written} {bytes}").ok()
}

/// What a run of these records comes to on systems that answers so many commands, by a writer that takes so many bytes.
fn ran_on(alloc: Global, left: u32, records: &[u8], room: usize) -> Option<String> {
    let mut systems = new_systems(alloc, left);
    ran(
        alloc,
        &mut systems,
        &mut Io::new(records),
        short_writer(alloc, room),
    )
}

// A number with a leading zero; bytes that are no text; a quote that is open at the end.
const RECORDS: &[u8] =
    b"srs,5001,A,NONE,1,undefined,\nsrs,007,B,NONE,1,undefined,\n\xff\xfe,1\nsrs,5002,C,NONE,1,undefined,\nsrs,5002,C,NONE,1,undefined,\"a";

const ANSWERS: &str = r"0 2 3 5 1 ok\n2 refused 10\n3 refused 10\n4 ok\n5 refused 20\n";

#[test]
fn answers_each_record(rt: HostRuntime) -> Result<(), Fail> {
    let told = ran_on(rt.alloc(), 9, RECORDS, 99).expect(&rt, "a run");
    assert_eq!(rt; told.as_str(), ANSWERS);
    Ok(())
}

/// The moment at which systems is told to do the commands of a run.
fn moment_told(alloc: Global) -> Option<u64> {
    let mut systems = new_systems(alloc, 9);
    ran(
        alloc,
        &mut systems,
        &mut Io::new(RECORDS),
        short_writer(alloc, 99),
    )?;
    Some(systems.moment)
}

#[test]
fn hands_the_moment_on(rt: HostRuntime) -> Result<(), Fail> {
    assert_eq!(rt; moment_told(rt.alloc()), Some(951868799999));
    Ok(())
}

const CUT: &str = r"0: 97 1 0 0 
1: 97 1 0 0 1
2: 97 1 0 0 1 
3: 97 1 0 0 1 o
4: 97 1 0 0 1 ok
5: 97 1 1 1 1 ok\n
6: 97 1 1 1 1 ok\n2
7: 97 1 1 1 1 ok\n2 
8: 97 1 1 1 1 ok\n2 r
9: 97 1 1 1 1 ok\n2 re
10: 97 1 1 1 1 ok\n2 ref
11: 97 1 1 1 1 ok\n2 refu
12: 97 1 1 1 1 ok\n2 refus
13: 97 1 1 1 1 ok\n2 refuse
14: 97 1 1 1 1 ok\n2 refused
15: 97 1 1 1 1 ok\n2 refused 
16: 97 1 1 1 1 ok\n2 refused 2
17: 97 1 1 1 1 ok\n2 refused 20
18: 0 1 1 2 1 ok\n2 refused 20\n
";

/// What runs of two equal records come to where the writer takes 0 to 18 bytes, a run a line.
fn cut_runs(alloc: Global) -> Option<String> {
    let mut text = String::new(alloc);
    for left in 0..=18 {
        let told = ran_on(alloc, 9, TWO_EQUAL, left)?;
        writeln!(text, "{left}: {}", told.as_str()).ok()?;
    }
    Some(text)
}

#[test]
fn tells_where_the_writer_failed(rt: HostRuntime) -> Result<(), Fail> {
    let told = cut_runs(rt.alloc()).expect(&rt, "runs");
    assert_eq!(rt; told.as_str(), CUT);
    Ok(())
}

/// What a run of two equal records comes to where the writer can't be flushed.
fn unflushed_run(alloc: Global) -> Option<String> {
    let mut systems = new_systems(alloc, 9);
    ran(
        alloc,
        &mut systems,
        &mut Io::new(TWO_EQUAL),
        unflushed_writer(alloc),
    )
}

#[test]
fn tells_where_a_flush_failed(rt: HostRuntime) -> Result<(), Fail> {
    let told = unflushed_run(rt.alloc()).expect(&rt, "a run");
    assert_eq!(rt; told.as_str(), r"97 1 0 1 1 ok\n");
    Ok(())
}

/// What runs of two equal records come to where the reader gives a byte a read and then fails: after the first record of 29 bytes,
/// and three bytes later. A run a line, behind the number of the read that fails.
fn broken_runs(alloc: Global) -> Option<String> {
    let mut text = String::new(alloc);
    for failing in [30, 33] {
        let mut reader = torn_reader(TWO_EQUAL, 1, failing);
        let told = ran(
            alloc,
            &mut new_systems(alloc, 9),
            &mut reader,
            short_writer(alloc, 99),
        )?;
        writeln!(text, "{failing}: {}", told.as_str()).ok()?;
    }
    Some(text)
}

const BROKEN: &str = r"30: 96 1 0 2 1 ok\n2 fault 96\n
33: 96 1 0 2 1 ok\n2 fault 96\n
";

#[test]
fn tells_where_the_reader_failed(rt: HostRuntime) -> Result<(), Fail> {
    let told = broken_runs(rt.alloc()).expect(&rt, "runs");
    assert_eq!(rt; told.as_str(), BROKEN);
    Ok(())
}

/// What two runs come to on systems whose store fails at the second command.
fn failed_runs(alloc: Global) -> Option<String> {
    let mut systems = new_systems(alloc, 1);
    let first = ran(
        alloc,
        &mut systems,
        &mut Io::new(TWO_EQUAL),
        short_writer(alloc, 99),
    )?;
    let second = ran(
        alloc,
        &mut systems,
        &mut Io::new(TWO_EQUAL),
        short_writer(alloc, 99),
    )?;
    format!(in alloc; "{}\n{}\n", first.as_str(), second.as_str()).ok()
}

const FAILED: &str = r"91 1 0 2 1 ok\n2 fault 91\n
92 0 0 1 1 fault 92\n
";

#[test]
fn ends_at_a_fault_of_the_store(rt: HostRuntime) -> Result<(), Fail> {
    let told = failed_runs(rt.alloc()).expect(&rt, "runs");
    assert_eq!(rt; told.as_str(), FAILED);
    Ok(())
}
