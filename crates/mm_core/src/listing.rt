//! The listing of the package of a session.

use crate::session::Session;
use mm_definitions::answers::Fault;
use mm_definitions::streams::Io;
use mm_reads::list;
use sqlite::Alter;
use std::io::Write;

impl<S: Alter> Session<S> {
    ghost use Rattle.std.specs.Prelude.{◌≡◌, true};
    ghost use Rattle.mm_definitions.specs.Bounds.{current};
    ghost use Rattle.mm_definitions.specs.Streams.{written};
    ghost use Rattle.mm_reads.specs.Listing.{listing};
    ghost use Rattle.mm_reads.specs.Writing.{IsListed, IsOut};
    ghost use Rattle.mm_core.specs.Parts.{must_reopen};
    ghost use Rattle.mm_core.specs.Reads.{Reads};

    /// Writes the listing of the package: a line for each table, and then one for each edition, by rising name. Each line
    /// is written before the next row is asked for. It writes nothing to the package.
    ///
    /// 92 where the session has to be opened again, and then nothing is asked of the store and nothing is written. At
    /// another fault a beginning of the listing was written: 97 where the writer failed, else 90 where memory was refused
    /// and 91 where the store failed. Then the session goes on, and the package and what may be left are as they were.
    pub fn list<W: Write>(&mut self, writer: &mut Io<W>) -> Result<(), Fault>
        ensures reads { Reads S.Store self.old self.new result
            (λ old new. IsListed current listing old new (written W.contents writer.old)
            (written W.contents writer.new) result) }
        ensures unwritten { must_reopen self.old ≡ true → writer.new ≡ writer.old }
        ensures out { IsOut writer.old → IsOut writer.new }
    {
        self.ready()?;
        list(&mut self.conn, writer)
    }
}
