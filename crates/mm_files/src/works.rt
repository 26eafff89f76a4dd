//! Work on a connection.

ghost use Rattle.std.specs.Prelude.{◌≡◌, Bool, OnErr, Result, false};
ghost use Rattle.sqlite.specs.Tree.{Trees};
ghost use Rattle.sqlite.specs.Held.{state};
ghost use Rattle.sqlite.specs.State.{HasCleanDisk};
ghost use Rattle.mm_definitions.specs.Streams.{Written, written};
ghost use Rattle.mm_io.specs.Sending.{IsOut};
ghost use Rattle.mm_files.specs.Worked.{IsJustOpened, OnHanded};

use mm_definitions::streams::Io;
use sqlite::{Alter, Connection};
use std::alloc::Global;
use std::io::Write;

/// The connection that work hands back, beside what it came to, or beside why it was not done.
pub type Handed<S, T, E> = Result<(Connection<S>, T), (Connection<S>, E)>;

/// Work on a connection, over any store.
pub trait Works {
    /// What it comes to.
    type Done: Copy;

    /// Why it is not done.
    type Why: Copy;

    /// Whether it may write to the package: then more pages are kept than a small one has.
    const WRITES: bool;

    // By what was written before and then is.
    ghost comes_to: { Self → Written → Written → Result Self.Done Self.Why → Type 0 };

    // By the database that was found, and what was written before and then is.
    ghost tells: { Self → Trees → Written → Written → Result Self.Done Self.Why → Type 0 };

    // By the database that was found and one that may be left, and what was written before and then is.
    ghost leaves: { Self → Trees → Trees → Written → Written → Result Self.Done Self.Why → Type 0 };

    // Whether the files are to be closed behind it where it was done, which copies the journal back.
    ghost closes: { Self.Done → Bool };

    /// Does the work, and hands the connection back, with no transaction open on it. Where the work is not done, nothing
    /// of its own was taken: no record was read, nor a file of a kit.
    fn work<S: Alter + Drop, W: Write>(
        &mut self,
        alloc: Global,
        conn: Connection<S>,
        output: &mut Io<W>,
    ) -> Handed<S, Self::Done, Self::Why>
        requires mode { conn.in_transaction ≡ false }
        requires fresh { HasCleanDisk (state S.Store conn) → IsJustOpened (state S.Store conn) }
        ensures told { OnHanded result (λ left. comes_to self.old
            (written W.contents output.old) (written W.contents output.new)) }
        ensures out { IsOut output.old → IsOut output.new }
        ensures untaken { OnErr result (self.new ≡ self.old) }
        ensures idle { OnHanded result (λ left done. left.in_transaction ≡ false) }
        ensures clean { OnHanded result (λ left done.
            HasCleanDisk (state S.Store left) → HasCleanDisk (state S.Store conn)) }
        ensures found { OnHanded result (λ left done. HasCleanDisk (state S.Store left)
            → tells self.old (state S.Store conn).committed.trees
            (written W.contents output.old) (written W.contents output.new) done) }
        ensures worked { OnHanded result (λ left done. HasCleanDisk (state S.Store left)
            → (after : Trees) → (state S.Store left).may_leave after
            → leaves self.old (state S.Store conn).committed.trees after
            (written W.contents output.old) (written W.contents output.new) done) };

    /// Whether the files are to be closed behind it where it was done: not where a fault ended it.
    fn closes(done: Self::Done) -> bool
        ensures { result ≡ closes done };
}
