//! Scripts that are played on a package. A line is one of
//!
//! - `NUMBER RECORD`: a command in a transaction of its own, behind its answer: 0 where it is done, else the refusal's number.
//! - `? QUERY`: a query, whose rows follow.
//! - `! STATEMENTS`: changes by statements.
//! - `= QUESTION`: a question, or `init`, whose answer follows.
//!
//! A line of a row or answer ends with a bar.

use crate::commands::{FIRST, answer};
use crate::reads::ask;
use crate::rows::add_rows;
use mm_meta::create_in_memory;
use sqlite::{Alter, Connection, MemStore};
use std::alloc::Global;
use std::fmt::Write;

/// Plays a line, and tells it with what it is answered.
fn tell<S: Alter>(
    alloc: Global,
    conn: &mut Connection<S>,
    line: &str,
    last_change: &str,
    text: &mut String,
) -> Option<()> {
    let (mark, rest) = line.split_once(' ')?;
    match mark {
        "?" => {
            writeln!(text, "{line}").ok()?;
            add_rows(text, conn, rest)
        }
        "!" => {
            conn.execute_batch(rest).ok()?;
            writeln!(text, "{line}").ok()
        }
        "=" => {
            writeln!(text, "{line}").ok()?;
            ask(alloc, conn, rest, text)
        }
        _ => {
            let number = answer(alloc, conn, rest, last_change)?;
            writeln!(text, "{number} {rest}").ok()
        }
    }
}

/// The script with the answers that are given, its commands at a time. A line that cannot be played is told so.
pub(crate) fn told<S: Alter>(
    alloc: Global,
    conn: &mut Connection<S>,
    script: &str,
    last_change: &str,
) -> Option<String> {
    let mut text = String::new(alloc);
    for line in script.lines() {
        if !line.ends_with('|') && tell(alloc, conn, line, last_change, &mut text).is_none() {
            writeln!(text, "not played: {line}").ok()?;
        }
    }
    Some(text)
}

/// A new package on which scripts were played, whose answers are as they say.
pub(crate) fn package(alloc: Global, scripts: &[&str]) -> Option<Connection<MemStore>> {
    let mut conn = create_in_memory(alloc).ok()?;
    for script in scripts {
        let text = told(alloc, &mut conn, script, FIRST)?;
        if text.as_str() != *script {
            return None;
        }
    }
    Some(conn)
}

/// The script with the answers that a package is given, of which other scripts come first.
pub(crate) fn told_on(
    alloc: Global,
    first: &[&str],
    script: &str,
    last_change: &str,
) -> Option<String> {
    let mut conn = package(alloc, first)?;
    told(alloc, &mut conn, script, last_change)
}

/// The script with the answers that are given where each of its changes is made on a package of its own, which is then asked.
pub(crate) fn told_apart(
    alloc: Global,
    first: &[&str],
    question: &str,
    script: &str,
) -> Option<String> {
    let mut text = String::new(alloc);
    for line in script.lines() {
        if !line.ends_with('|') {
            let mut conn = package(alloc, first)?;
            tell(alloc, &mut conn, line, FIRST, &mut text)?;
            ask(alloc, &mut conn, question, &mut text)?;
        }
    }
    Some(text)
}
