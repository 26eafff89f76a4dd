//! The walks over the tables and the editions, in which each line is written before the next row is asked for.

ghost use Rattle.std.specs.Prelude.{◌≡◌, false};
ghost use Rattle.mm_definitions.specs.Streams.{written};
ghost use Rattle.mm_io.specs.Sending.{IsOut};
ghost use Rattle.mm_reads.specs.Listing.{editions, listing, table_lines};
ghost use Rattle.mm_reads.specs.Writing.{Lists, SendsLine};

use crate::shown::{edition_in, table_in};
use mm_definitions::answers::Fault;
use mm_definitions::streams::{Io, lent_back};
use mm_io::{Sent, send};
use mm_walk::walk::{Visitor, walk};
use sqlite::{Alter, Connection, Row};
use std::io::Write;

/// Writes a line, and goes on.
fn send_line<W: Write>(output: &mut Io<W>, line: &[u8]) -> Result<bool, Fault>
    ensures sent { SendsLine (written W.contents output.old) (written W.contents output.new)
        line.now result }
    ensures out { IsOut output.new }
{
    match send(output, line) {
        Sent::Flushed => Ok(true),
        Sent::Unflushed => Err(Fault::OUTPUT),
        Sent::Cut => Err(Fault::OUTPUT),
    }
}

/// Writes the line of each table that is shown.
#[derive(Drop)]
struct TableLines<'a, W> {
    output: &'a mut Io<W>,
}

impl<W: Write> Visitor for TableLines<'_, W> {
    ghost use Rattle.mm_definitions.specs.Streams.{written};
    ghost use Rattle.mm_io.specs.Sending.{IsOut};
    ghost use Rattle.mm_reads.specs.ShownLines.{ShowsTable};
    ghost use Rattle.mm_reads.specs.Writing.{TakesLine};

    ghost takes = { λ old row new result. (new.output.ghost_name ≡ old.output.ghost_name)
        × TakesLine ShowsTable (written W.contents old.output.now) (written W.contents new.output.now) row result
        × (IsOut old.output.now → IsOut new.output.now) };

    fn take(&mut self, row: &Row) -> Result<bool, Fault> {
        let line = table_in(row)?;
        send_line(self.output, line.as_slice())
    }
}

/// Writes the line of each edition that is shown.
#[derive(Drop)]
struct EditionLines<'a, W> {
    output: &'a mut Io<W>,
}

impl<W: Write> Visitor for EditionLines<'_, W> {
    ghost use Rattle.mm_definitions.specs.Streams.{written};
    ghost use Rattle.mm_io.specs.Sending.{IsOut};
    ghost use Rattle.mm_reads.specs.ShownLines.{ShowsEdition};
    ghost use Rattle.mm_reads.specs.Writing.{TakesLine};

    ghost takes = { λ old row new result. (new.output.ghost_name ≡ old.output.ghost_name)
        × TakesLine ShowsEdition (written W.contents old.output.now) (written W.contents new.output.now) row result
        × (IsOut old.output.now → IsOut new.output.now) };

    fn take(&mut self, row: &Row) -> Result<bool, Fault> {
        let line = edition_in(row)?;
        send_line(self.output, line.as_slice())
    }
}

/// Shows the tables to the visitor.
fn show_tables<S: Alter, W: Write>(
    conn: &mut Connection<S>,
    lines: &mut TableLines<'_, W>,
) -> Result<(), Fault>
    requires { conn.old.in_transaction ≡ false }
    ensures same_reference { lines.new.output.ghost_name ≡ lines.old.output.ghost_name }
    ensures mode { conn.new.in_transaction ≡ false }
    ensures listed { Lists S.Store conn.old conn.new table_lines
        (written W.contents lines.old.output.now) (written W.contents lines.new.output.now) result }
    ensures out { IsOut lines.old.output.now → IsOut lines.new.output.now }
{
    walk(
        conn,
        "SELECT c.table_name, k.kind, c.last_change, c.identifier, (SELECT count(*) FROM mm_tiles AS t WHERE t.table_name = c.table_name), (SELECT count(*) FROM mm_rows AS r WHERE r.table_name = c.table_name), (SELECT count(*) FROM mm_media AS m WHERE m.table_name = c.table_name) FROM gpkg_contents AS c LEFT JOIN mm_tables AS k ON k.table_name = c.table_name ORDER BY c.table_name",
        &[],
        lines,
    )?;
    Ok(())
}

/// The lines of the tables.
fn list_tables<S: Alter, W: Write>(
    conn: &mut Connection<S>,
    output: &mut Io<W>,
) -> Result<(), Fault>
    requires { conn.old.in_transaction ≡ false }
    ensures mode { conn.new.in_transaction ≡ false }
    ensures listed { Lists S.Store conn.old conn.new table_lines (written W.contents output.old)
        (written W.contents output.new) result }
    ensures out { IsOut output.old → IsOut output.new }
{
    let mut lines = TableLines { output };
    let shown = show_tables(conn, &mut lines);
    let TableLines { output: inner } = lines;
    lent_back(inner);
    shown
}

/// Shows the editions to the visitor.
fn show_editions<S: Alter, W: Write>(
    conn: &mut Connection<S>,
    lines: &mut EditionLines<'_, W>,
) -> Result<(), Fault>
    requires { conn.old.in_transaction ≡ false }
    ensures same_reference { lines.new.output.ghost_name ≡ lines.old.output.ghost_name }
    ensures mode { conn.new.in_transaction ≡ false }
    ensures listed { Lists S.Store conn.old conn.new editions
        (written W.contents lines.old.output.now) (written W.contents lines.new.output.now) result }
    ensures out { IsOut lines.old.output.now → IsOut lines.new.output.now }
{
    walk(
        conn,
        "SELECT e.name, e.state, (SELECT count(*) FROM mm_pieces AS p WHERE p.edition = e.name) FROM mm_editions AS e ORDER BY e.name",
        &[],
        lines,
    )?;
    Ok(())
}

/// The lines of the editions.
fn list_editions<S: Alter, W: Write>(
    conn: &mut Connection<S>,
    output: &mut Io<W>,
) -> Result<(), Fault>
    requires { conn.old.in_transaction ≡ false }
    ensures mode { conn.new.in_transaction ≡ false }
    ensures listed { Lists S.Store conn.old conn.new editions (written W.contents output.old)
        (written W.contents output.new) result }
    ensures out { IsOut output.old → IsOut output.new }
{
    let mut lines = EditionLines { output };
    let shown = show_editions(conn, &mut lines);
    let EditionLines { output: inner } = lines;
    lent_back(inner);
    shown
}

/// Writes the listing of a package: a line for each table, with its name, its kind, how many tiles, rows or media it has,
/// its last change and its identifier; then one for each edition, with its name, and how many pieces it has or that it is
/// published; each by rising name. It reads alone: the package and what may be left are as they were.
///
/// # Errors
///
/// What was written is a beginning of the listing. 97 where the writer failed; else 90 where memory was refused, and 91
/// where the store failed or gave a value that no package has.
pub fn list<S: Alter, W: Write>(conn: &mut Connection<S>, output: &mut Io<W>) -> Result<(), Fault>
    requires { conn.old.in_transaction ≡ false }
    ensures mode { conn.new.in_transaction ≡ false }
    ensures listed { Lists S.Store conn.old conn.new listing (written W.contents output.old)
        (written W.contents output.new) result }
    ensures out { IsOut output.old → IsOut output.new }
{
    list_tables(conn, output)?;
    list_editions(conn, output)
}
