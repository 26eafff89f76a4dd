//! Whether the blobs have their form, one blob at a time.

ghost use Rattle.std.specs.Prelude.{◌≡◌, ◌≢◌, ◌↔◌, [], IsTrue};
ghost use Rattle.sqlite.specs.Held.{state};
ghost use Rattle.sqlite.specs.State.{HasCleanDisk};
ghost use Rattle.mm_store.specs.Blobs as spec;
ghost use Rattle.mm_walk.specs.RowTests.{whether};
ghost use Rattle.mm_check.specs.Form.{IsDigestedRow, IsShortRow, AreDigested, AreApart, AreNamed, AreInForm};
ghost use Rattle.mm_check.specs.Form.{IsFormCheck, DecidesReading, TellsLongest};

use mm_blobs::digests::digest_of;
use mm_definitions::answers::Fault;
use mm_walk::columns::{blob, words};
use mm_walk::row_tests::{NotingTest, RowTest, each_noted, each_passes};
use sqlite::{Alter, Connection, Row};

/// Whether the digits are the digest of some bytes, of which there are some.
fn is_digest(digits: &[u8], bytes: &[u8]) -> bool
    ensures { IsTrue result ↔ (bytes.now ≢ []) × (digits.now ≡ spec.digest_of bytes.now) }
{
    let digest = digest_of(bytes);
    !bytes.is_empty() && digits == digest.as_slice()
}

/// A digest and the bytes that it is to be of, and how many the longest had.
#[derive(Clone, Copy)]
struct Digested {
    longest: usize,
}

impl NotingTest for Digested {
    ghost good = { λ row. IsDigestedRow row };

    ghost noted = { λ it row. IsShortRow it.longest row };

    fn passes(&mut self, row: &Row) -> bool {
        match (words(row, 0), blob(row, 1)) {
            (Some(digits), Some(bytes)) => {
                self.longest = self.longest.max(bytes.len());
                is_digest(digits, bytes)
            }
            _ => false,
        }
    }
}

/// No row at all.
struct Never;

impl RowTest for Never {
    ghost good = { λ _ row. ⊥ };

    fn passes(&self, _row: &Row) -> bool {
        false
    }
}

/// Of the form of the blobs, that each digest is right and no blob is empty; and how many bytes the longest has.
pub fn blobs_are_digested<S: Alter>(conn: &mut Connection<S>) -> Result<Option<usize>, Fault>
    ensures { TellsLongest (state S.Store conn.old) (state S.Store conn.new) AreDigested result }
{
    let text = "SELECT b.digest, b.data FROM mm_blobs AS b";
    match each_noted(conn, text, &[], Digested { longest: 0 }) {
        Ok(Some(all)) => Ok(Some(all.longest)),
        Ok(None) => Ok(None),
        Err(fault) => Err(fault),
    }
}

/// Of the form of the blobs, that no two have one digest and hold the same bytes. Pairs of one digest come from the index
/// on digests alone, and the bytes of those pairs alone are read.
pub fn blobs_are_apart<S: Alter>(conn: &mut Connection<S>) -> Result<bool, Fault>
    ensures { IsFormCheck (state S.Store conn.old) (state S.Store conn.new) AreApart result }
{
    each_passes(
        conn,
        "SELECT a.id FROM mm_blobs AS a JOIN mm_blobs AS b ON b.digest = a.digest LEFT JOIN mm_blobs AS c ON c.id = a.id LEFT JOIN mm_blobs AS d ON d.id = b.id WHERE a.id < b.id AND d.data = c.data",
        &[],
        &Never,
    )
}

/// Of the form of the blobs, that a tile, a medium or a staged piece names each.
pub fn blobs_are_named<S: Alter>(conn: &mut Connection<S>) -> Result<bool, Fault>
    ensures { IsFormCheck (state S.Store conn.old) (state S.Store conn.new) AreNamed result }
{
    each_passes(
        conn,
        "SELECT b.id FROM mm_blobs AS b WHERE NOT EXISTS (SELECT 1 FROM mm_tiles AS t WHERE t.blob = b.id) AND NOT EXISTS (SELECT 1 FROM mm_media AS m WHERE m.blob = b.id) AND NOT EXISTS (SELECT 1 FROM mm_pieces AS p WHERE p.blob = b.id)",
        &[],
        &Never,
    )
}

/// Of the form of the blobs, what one query asks of more than one row.
fn apart_and_named<S: Alter>(conn: &mut Connection<S>) -> Result<bool, Fault>
    ensures { IsFormCheck (state S.Store conn.old) (state S.Store conn.new)
        (λ kept. AreApart kept × AreNamed kept) result }
{
    if blobs_are_apart(conn)? {
        blobs_are_named(conn)
    } else {
        Ok(false)
    }
}

/// Whether the blobs of a database have their form: each digest is right, no blob is empty, no two hold the same bytes,
/// and each is named; and where they have, how many bytes the longest has. Where all else of a database is as a package
/// asks, the form is what tells whether it stands for the package. It looks at one blob at a time, and writes nothing. A
/// fault is 90 where memory was refused and 91 where the store failed, and never stands for a form that fails.
pub fn blobs_stand<S: Alter>(conn: &mut Connection<S>) -> Result<Option<usize>, Fault>
    ensures form { TellsLongest (state S.Store conn.old) (state S.Store conn.new) AreInForm result }
    ensures decides { HasCleanDisk (state S.Store conn.new) → DecidesReading
        (state S.Store conn.old) (state S.Store conn.new) (whether result) }
{
    let Some(longest) = blobs_are_digested(conn)? else {
        return Ok(None);
    };
    if apart_and_named(conn)? {
        Ok(Some(longest))
    } else {
        Ok(None)
    }
}
