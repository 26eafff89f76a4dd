//! The line of a table or an edition. It is built in place and takes no memory.

ghost use Rattle.std.specs.Prelude.{◌≡◌, ◌++◌, codes, decimal, drop, length, IfOk, IfErr, OnOk};
ghost use Rattle.mm_definitions.specs.Faults.{IsStoreFault};
ghost use Rattle.mm_reads.specs.Lines.{left_in, right_in, open_text, published_text, table_text};

use arrayvec::ArrayVec;
use itoa::Buffer;
use mm_definitions::answers::Fault;

/// A line. Its longest has a name of 60 bytes, an identifier of 1,000, and 100 bytes beside them.
pub(crate) type Line = ArrayVec<u8, 1200>;

/// The places of a name.
const NAME: &[u8] = b"                        ";

/// The places of a kind, and those of a count.
const SHORT: &[u8] = b"          ";

/// Appends bytes. Where they have no room, which those of a package have, it is 91.
fn put(line: &mut Line, bytes: &[u8]) -> Result<(), Fault>
    ensures put { OnOk result (line.new.items ≡ line.old.items ++ bytes.now) }
    ensures fault { IfErr result IsStoreFault }
{
    match line.try_extend_from_slice(bytes) {
        Ok(()) => Ok(()),
        Err(_) => Err(Fault::STORE),
    }
}

/// The places that a text leaves.
fn left_over<'a>(places: &'a [u8], text: &[u8]) -> &'a [u8]
    ensures { result.now ≡ drop (length text.now) places.now }
{
    if text.len() <= places.len() {
        &places[text.len()..]
    } else {
        &[]
    }
}

/// Appends a text, left in these places, and a space.
fn put_left(line: &mut Line, text: &[u8], places: &[u8]) -> Result<(), Fault>
    ensures put { OnOk result
        (line.new.items ≡ line.old.items ++ left_in places.now text.now ++ codes " ") }
    ensures fault { IfErr result IsStoreFault }
{
    put(line, text)?;
    put(line, left_over(places, text))?;
    put(line, b" ")
}

/// Appends a number, right in the places of a count, and a space.
fn put_count(line: &mut Line, count: u64) -> Result<(), Fault>
    ensures put { OnOk result
        (line.new.items ≡ line.old.items ++ right_in (codes "          ") (decimal count)
        ++ codes " ") }
    ensures fault { IfErr result IsStoreFault }
{
    let mut buffer = Buffer::new();
    let digits = buffer.format(count).as_bytes();
    put(line, left_over(SHORT, digits))?;
    put(line, digits)?;
    put(line, b" ")
}

/// Appends the columns of a table but the last, its identifier.
fn put_table(
    line: &mut Line,
    name: &[u8],
    kind: &[u8],
    count: u64,
    time: &[u8],
) -> Result<(), Fault>
    ensures put { OnOk result
        (line.new.items ≡ line.old.items ++ left_in (codes "                        ") name.now
        ++ codes " " ++ left_in (codes "          ") kind.now ++ codes " "
        ++ right_in (codes "          ") (decimal count) ++ codes " " ++ time.now
        ++ codes " ") }
    ensures fault { IfErr result IsStoreFault }
{
    put_left(line, name, NAME)?;
    put_left(line, kind, SHORT)?;
    put_count(line, count)?;
    put(line, time)?;
    put(line, b" ")
}

/// The line of a table: its name left in 24 places, its kind left in 10, how many tiles, rows or media it has right in
/// 10, the stamp of its last change and its identifier, with a space between each two.
pub(crate) fn table_line(
    name: &[u8],
    kind: &[u8],
    count: u64,
    time: &[u8],
    identifier: &[u8],
) -> Result<Line, Fault>
    ensures line { IfOk result
        (λ line. line.items ≡ table_text name.now kind.now count time.now identifier.now) }
    ensures fault { IfErr result IsStoreFault }
{
    let mut line = ArrayVec::new();
    put_table(&mut line, name, kind, count, time)?;
    put(&mut line, identifier)?;
    put(&mut line, b"\n")?;
    Ok(line)
}

/// The line of an open edition: its name, and how many pieces it has.
pub(crate) fn open_line(name: &[u8], count: u64) -> Result<Line, Fault>
    ensures line { IfOk result (λ line. line.items ≡ open_text name.now count) }
    ensures fault { IfErr result IsStoreFault }
{
    let mut line = ArrayVec::new();
    let mut buffer = Buffer::new();
    put(&mut line, b"edition ")?;
    put(&mut line, name)?;
    put(&mut line, b" open ")?;
    put(&mut line, buffer.format(count).as_bytes())?;
    put(&mut line, b"\n")?;
    Ok(line)
}

/// The line of a published edition.
pub(crate) fn published_line(name: &[u8]) -> Result<Line, Fault>
    ensures line { IfOk result (λ line. line.items ≡ published_text name.now) }
    ensures fault { IfErr result IsStoreFault }
{
    let mut line = ArrayVec::new();
    put(&mut line, b"edition ")?;
    put(&mut line, name)?;
    put(&mut line, b" published\n")?;
    Ok(line)
}
