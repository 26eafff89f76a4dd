//! Lending a reader to `csv` and having it back. What `csv` promises doesn't say which reader it keeps, so a type's
//! invariant does: it holds the reference under a name that the call picks.

ghost use Rattle.std.specs.Prelude.{◌≡◌, ◌||◌, ℕ, Bool};
ghost use Rattle.std.specs.Result.{is_err};
ghost use Rattle.std.specs.Io.{ReadsAtMost};
ghost use Rattle.std.specs.Io.KnownBytes.{ReadConsumes};

use mm_definitions::streams::Io;
use std::io;
use std::io::Read;
use std::marker::{Brand, PhantomData};

/// The name of a lent reference.
pub trait Lender {
    ghost name: { ℕ };
}

impl Lender for Brand {
    ghost name = { 0 };
}

/// A reader that tells whether a call of it has failed.
pub trait Tells {
    ghost has_failed: { Self → Bool };

    /// Whether a call of it has answered an error.
    fn failed(&self) -> bool
        ensures { result ≡ has_failed self.now };
}

/// The caller's reader, which is handed back at the end.
#[derive(Drop)]
pub struct Held<'a, R> {
    pub reader: &'a mut Io<R>,
}

impl<R: Read> Read for Held<'_, R> {
    ghost use Rattle.mm_definitions.specs.Streams.{has_failed, inside};

    ghost remaining = { λ s. R.remaining (inside s.reader.now) };

    fn read(&mut self, buf: &mut [u8]) -> io::Result<usize>
        ensures bound { ReadsAtMost result buf.new }
        ensures bytes { ReadConsumes (R.remaining (inside self.old.reader.now))
            (R.remaining (inside self.new.reader.now)) result buf.new }
        ensures failed { has_failed self.new.reader.now
            ≡ (has_failed self.old.reader.now || is_err result) }
        ensures same_reference { self.new.reader.ghost_name ≡ self.old.reader.ghost_name }
    {
        self.reader.read(buf)
    }
}

/// The same reader, under its name: what is lent to `csv`.
#[derive(Drop)]
pub struct Source<'a, R, K: Lender> {
    pub held: Held<'a, R>,
    pub of: PhantomData<K>,
    ghost same_reference: { held.reader.ghost_name ≡ K.name },
}

impl<R: Read, K: Lender> Read for Source<'_, R, K> {
    ghost use Rattle.mm_definitions.specs.Streams.{has_failed, inside};

    ghost remaining = { λ s. R.remaining (inside s.held.reader.now) };

    fn read(&mut self, buf: &mut [u8]) -> io::Result<usize>
        ensures bound { ReadsAtMost result buf.new }
        ensures bytes { ReadConsumes (R.remaining (inside self.old.held.reader.now))
            (R.remaining (inside self.new.held.reader.now)) result buf.new }
        ensures failed { has_failed self.new.held.reader.now
            ≡ (has_failed self.old.held.reader.now || is_err result) }
    {
        self.held.read(buf)
    }
}

impl<R, K: Lender> Tells for Source<'_, R, K> {
    ghost use Rattle.mm_definitions.specs.Streams as streams;

    ghost has_failed = { λ s. streams.has_failed s.held.reader.now };

    fn failed(&self) -> bool {
        self.held.reader.failed()
    }
}
