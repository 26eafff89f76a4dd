//! Whether each row of a query passes a test, and what such a test notes of them.

ghost use Rattle.std.specs.Prelude.{◌≡◌, ◌↔◌, IsTrue};
ghost use Rattle.sqlite.specs.Order.{Row as Values};
ghost use Rattle.sqlite.specs.Held.{state};
ghost use Rattle.sqlite.specs.Values.{bound};
ghost use Rattle.mm_walk.specs.RowTests.{TellsAll, NotesAll, Tells, Notes};

use crate::walk::{Visitor, walk};
use mm_definitions::answers::Fault;
use sqlite::types::ValueRef;
use sqlite::{Alter, Connection, Row};

/// A test of the rows that a query shows.
pub trait RowTest {
    ghost good: { Self → Values → Type 0 };

    /// Whether the row passes.
    fn passes(&self, row: &Row) -> bool
        ensures { IsTrue result ↔ good self.now row.now };
}

/// A test as a visitor, which stops at the first row that fails it.
#[derive(Drop)]
struct Passing<'a, T> {
    test: &'a T,
}

impl<'a, T: RowTest> Visitor for Passing<'a, T> {
    ghost takes = { λ old row new result. (new ≡ old) × Tells (T.good old.test.now) row result };

    fn take(&mut self, row: &Row) -> Result<bool, Fault> {
        Ok(self.test.passes(row))
    }
}

/// Whether each row of a query passes the test. It goes over them as `walk` does, to the first that fails. A fault is 90
/// where memory was refused, and 91 where the store failed.
pub fn each_passes<S: Alter, T: RowTest>(
    conn: &mut Connection<S>,
    sql: &str,
    params: &[ValueRef<'_>],
    test: &T,
) -> Result<bool, Fault>
    ensures { TellsAll sql.now (bound params.now) (T.good test.now)
        (state S.Store conn.old) (state S.Store conn.new) result }
{
    let mut passing = Passing { test };
    walk(conn, sql, params, &mut passing)
}

/// A test of the rows that a query shows, which notes something of each.
pub trait NotingTest {
    ghost good: { Values → Type 0 };

    // What is noted of a row that passed.
    ghost noted: { Self → Values → Type 0 };

    /// Whether the row passes. What was noted of others stays.
    fn passes(&mut self, row: &Row) -> bool
        ensures tells { IsTrue result ↔ good row.now }
        ensures notes { IsTrue result → noted self.new row.now }
        ensures keeps { (other : Values) → noted self.old other → noted self.new other };
}

/// A test that notes, as a visitor, which stops at the first row that fails it.
#[derive(Clone, Copy)]
struct Noting<T> {
    inner: T,
}

impl<T: NotingTest> Visitor for Noting<T> {
    ghost takes = { λ old row new result. Notes T.good T.noted old.inner new.inner row result };

    fn take(&mut self, row: &Row) -> Result<bool, Fault> {
        Ok(self.inner.passes(row))
    }
}

/// The test with what it noted, where each row of a query passes it; None where one fails it. It goes over them as
/// `walk` does, to the first that fails. A fault is 90 where memory was refused, and 91 where the store failed.
pub fn each_noted<S: Alter, T: NotingTest + Copy>(
    conn: &mut Connection<S>,
    sql: &str,
    params: &[ValueRef<'_>],
    test: T,
) -> Result<Option<T>, Fault>
    ensures { NotesAll sql.now (bound params.now) T.good T.noted
        (state S.Store conn.old) (state S.Store conn.new) result }
{
    let mut noting = Noting { inner: test };
    match walk(conn, sql, params, &mut noting) {
        Ok(true) => Ok(Some(noting.inner)),
        Ok(false) => Ok(None),
        Err(fault) => Err(fault),
    }
}
