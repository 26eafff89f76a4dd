//! A case, where each call of its files in turn is the one that fails.

use crate::cases::{CONTENT, CROWDED, Case, EDITIONS, RELATIONS, TABLES, WHOLES, case_of};
use crate::disks::{
    Image, Plans, Which, closed, crashed, files_of, image_at, left_by, open, open_or_left,
};
use crate::standings::standing;
use crate::works::{Told, perform, stopped_behind};
use sqlite::Files;
use sqlite_disk::{Crash, Disk};
use std::alloc::Global;
use std::fmt::Write;
use std::io;
use std::ops::Range;
use std::test::Fail;

/// How a disk fails.
#[derive(Clone, Copy, Debug)]
enum Failure {
    /// From one call on each fails, and then the machine crashes.
    Stop,
    /// One call fails, and then the files are closed.
    Lapse,
}

impl Failure {
    /// The calls that fail, from this one on.
    fn calls(self, first: u64) -> Range<u64> {
        match self {
            Failure::Stop => first..u64::MAX,
            Failure::Lapse => first..first.saturating_add(1),
        }
    }
}

/// Does the first so many steps on these files: what was told, and the files as they are then left.
fn left_after<D: Disk + Drop>(
    alloc: Global,
    files: Files<D>,
    case: Case,
    steps: usize,
    failure: Failure,
    plans: &Plans,
) -> Option<(Told, Files<D>)> {
    let conn = match open_or_left(alloc, files) {
        Ok(conn) => conn,
        Err(files) => return Some((stopped_behind(0), files)),
    };
    let (conn, told) = perform(alloc, conn, case.work, steps, plans)?;
    match failure {
        Failure::Stop => Some((told, left_by(conn))),
        Failure::Lapse => Some((told, closed(conn))),
    }
}

/// What stands on files that are opened again, behind a crash where the machine stops or a disk can't be used before one.
fn found_on<D: Crash + Drop>(alloc: Global, files: Files<D>, failure: Failure) -> Option<String> {
    let files = if matches!(failure, Failure::Stop) || !files.may_be_used() {
        crashed(files)
    } else {
        files
    };
    standing(alloc, open(alloc, files)?)
}

/// What stands after the first so many steps without a failure.
fn standing_after(alloc: Global, image: &Image, case: Case, steps: usize) -> Option<String> {
    let plans = Plans::new();
    let files = files_of(alloc, image, &plans)?;
    let (told, files) = left_after(alloc, files, case, steps, Failure::Lapse, &plans)?;
    if told.steps != steps {
        return None;
    }
    found_on(alloc, files, Failure::Lapse)
}

/// What stands after each number of steps, from none on.
fn standings(alloc: Global, image: &Image, case: Case) -> Option<Vec<String>> {
    let mut texts = Vec::new(alloc);
    for steps in 0..=case.work.steps() {
        texts.push(standing_after(alloc, image, case, steps)?).ok()?;
    }
    Some(texts)
}

/// A case with what it begins with, and what stands after each number of its steps.
#[derive(Drop)]
struct Expected {
    case: Case,
    image: Image,
    texts: Vec<String>,
}

fn expected_of(alloc: Global, case: Case) -> Option<Expected> {
    let image = image_at(alloc, case.start)?;
    let texts = standings(alloc, &image, case)?;
    Some(Expected { case, image, texts })
}

impl Expected {
    /// Whether this stands after so many steps.
    fn stands_after(&self, steps: usize, found: &str) -> bool {
        match self.texts.get(steps) {
            Some(text) => text.as_str() == found,
            None => false,
        }
    }

    /// Whether this stands after the steps that were told, or after one more where a fault was.
    fn is_first_part(&self, told: Told, found: &str) -> bool {
        let next = told.steps.saturating_add(1);
        self.stands_after(told.steps, found) || (!told.ended && self.stands_after(next, found))
    }
}

/// What came of a run.
#[derive(Clone, Copy, PartialEq, Eq)]
enum Came {
    /// No call failed, and the work was done.
    Whole,
    /// A call failed, and a first part of the work was found.
    FirstPart,
    /// Something else was told or found.
    Wrong,
}

/// Does the work of a case, where a file fails from its call of this number on.
fn ran(
    alloc: Global,
    expected: &Expected,
    failure: Failure,
    which: Which,
    first: u64,
) -> Option<Came> {
    let plans = Plans::new();
    let files = files_of(alloc, &expected.image, &plans)?;
    plans.fail(which, failure.calls(first));
    let steps = expected.case.work.steps();
    let Some((told, files)) = left_after(alloc, files, expected.case, steps, failure, &plans) else {
        return Some(Came::Wrong);
    };
    let has_failed = plans.has_failed(which);
    plans.fail(which, 0..0);
    let found = found_on(alloc, files, failure)?;
    if !expected.is_first_part(told, found.as_str()) {
        return Some(Came::Wrong);
    }
    match (has_failed, told.ended) {
        (true, _) => Some(Came::FirstPart),
        (false, true) => Some(Came::Whole),
        (false, false) => Some(Came::Wrong),
    }
}

/// How many calls of a file fail in turn, a stride apart, until a run meets no failure; or else the first whose run is wrong.
fn swept(alloc: Global, expected: &Expected, failure: Failure, which: Which) -> Result<u64, u64> {
    let stride = expected.case.start.stride();
    for turn in 0..10000u64 {
        let first = turn.saturating_mul(stride);
        match ran(alloc, expected, failure, which, first) {
            Some(Came::Whole) => return Ok(turn),
            Some(Came::FirstPart) => {}
            Some(Came::Wrong) | None => return Err(first),
        }
    }
    Err(10000)
}

/// Puts how many calls of the log and of the database fail in turn.
fn put_counts(
    alloc: Global,
    expected: &Expected,
    failure: Failure,
    text: &mut String,
) -> Option<()> {
    for which in [Which::Log, Which::Database] {
        match swept(alloc, expected, failure, which) {
            Ok(0) => write!(text, ", {which:?} not stopped").ok()?,
            Ok(count) => write!(text, " {count}").ok()?,
            Err(first) => write!(text, ", {failure:?} of {which:?} at {first} wrong").ok()?,
        }
    }
    Some(())
}

/// The name of a case, with how many calls of the log and of the database stop, and how many lapse.
fn counted(alloc: Global, case: Case) -> Option<String> {
    let mut text = String::new(alloc);
    let expected = expected_of(alloc, case)?;
    write!(text, "{}:", case.name).ok()?;
    put_counts(alloc, &expected, Failure::Stop, &mut text)?;
    put_counts(alloc, &expected, Failure::Lapse, &mut text)?;
    Some(text)
}

/// Prints what came of cases, and tells whether each is as it should be.
fn are_right(rt: &HostRuntime, cases: &[Case]) -> io::Result<bool> {
    let mut right = true;
    for case in cases {
        match counted(rt.alloc(), *case) {
            Some(text) => {
                right = right && !text.contains(',');
                println!(rt; "{}", text.as_str())?;
            }
            None => {
                right = false;
                println!(rt; "{}: not begun", case.name)?;
            }
        }
    }
    Ok(right)
}

#[test]
fn finds_a_first_part_after_each_stop(rt: HostRuntime) -> Result<(), Fail> {
    assert!(rt; are_right(&rt, &WHOLES)?);
    Ok(())
}

#[test]
fn finds_the_package_before_or_after_publishing_150_pieces(rt: HostRuntime) -> Result<(), Fail> {
    assert!(rt; are_right(&rt, &CROWDED)?);
    Ok(())
}

/// Prints what came of commands, and tells whether each is as it should be.
fn commands_are_right(rt: &HostRuntime, records: &[&'static str]) -> io::Result<bool> {
    let mut right = true;
    for record in records {
        right = are_right(rt, &[case_of(record)])? && right;
    }
    Ok(right)
}

#[test]
fn finds_the_package_before_or_after_a_command_of_tables(rt: HostRuntime) -> Result<(), Fail> {
    assert!(rt; commands_are_right(&rt, &TABLES)?);
    Ok(())
}

#[test]
fn finds_the_package_before_or_after_a_command_of_content(rt: HostRuntime) -> Result<(), Fail> {
    assert!(rt; commands_are_right(&rt, &CONTENT)?);
    Ok(())
}

#[test]
fn finds_the_package_before_or_after_a_command_of_relations(rt: HostRuntime) -> Result<(), Fail> {
    assert!(rt; commands_are_right(&rt, &RELATIONS)?);
    Ok(())
}

#[test]
fn finds_the_package_before_or_after_a_command_of_editions(rt: HostRuntime) -> Result<(), Fail> {
    assert!(rt; commands_are_right(&rt, &EDITIONS)?);
    Ok(())
}
