//! A reader or writer that remembers whether a call of it has failed.

ghost use Rattle.std.specs.Prelude.{◌≡◌, ◌<◌, ◌||◌, false, true, length, IfOk, OnErr, OnOk};
ghost use Rattle.std.specs.Result.{is_err, is_ok};
ghost use Rattle.std.specs.Io.{ReadsAtMost, WritesAtMost};
ghost use Rattle.std.specs.Io.KnownBytes.{Appends, Consumes, Keeps, ReadConsumes, WriteAppends};
ghost use Rattle.mm_definitions.specs.Streams.{inside, has_failed, is_flushed};

use std::io;
use std::io::{ErrorKind, Read, Write};

/// A reader or writer with the same bytes, which remembers whether a call of it answered an error, and whether all that was
/// written through it was flushed.
#[derive(Drop)]
pub struct Io<T> {
    inner: T,
    failed: bool,
    flushed: bool,
}

impl<T> Io<T> {
    /// Wraps a reader or writer, of which no call has failed, and to which nothing was written yet.
    pub fn new(inner: T) -> Io<T>
        ensures inside { inside result ≡ inner }
        ensures fresh { has_failed result ≡ false }
        ensures unwritten { is_flushed result ≡ true }
    {
        Io {
            inner,
            failed: false,
            flushed: true,
        }
    }

    /// Whether a call of it has answered an error.
    pub fn failed(&self) -> bool
        ensures { result ≡ has_failed self.now }
    {
        self.failed
    }

    /// The reader or writer inside.
    pub fn into_inner(self) -> T
        ensures { result ≡ inside self }
    {
        self.inner
    }
}

/// Ends the loan of a reader or writer that a struct held. It does nothing when it runs: from this use the proof reads
/// what was read or written through it.
pub fn lent_back<T>(lent: &mut Io<T>)
    ensures { lent.new ≡ lent.old }
{}

impl<R: Read> Read for Io<R> {
    ghost remaining = { λ io. R.remaining (inside io) };

    fn read(&mut self, buf: &mut [u8]) -> io::Result<usize>
        ensures bound { ReadsAtMost result buf.new }
        ensures bytes { ReadConsumes (R.remaining (inside self.old)) (R.remaining (inside self.new))
            result buf.new }
        ensures failed { has_failed self.new ≡ (has_failed self.old || is_err result) }
    {
        let result = self.inner.read(buf);
        if result.is_err() {
            self.failed = true;
        }
        result
    }

    fn read_exact(&mut self, buf: &mut [u8]) -> io::Result<()>
        ensures bytes { OnOk result
            (Consumes (R.remaining (inside self.old)) (R.remaining (inside self.new)) buf.new) }
        ensures failed { has_failed self.new ≡ (has_failed self.old || is_err result) }
    {
        let result = self.inner.read_exact(buf);
        if result.is_err() {
            self.failed = true;
        }
        result
    }
}

impl<W: Write> Write for Io<W> {
    ghost contents = { λ io. W.contents (inside io) };

    /// A writer that takes nothing of some bytes has failed, as in `write_all`.
    fn write(&mut self, buf: &[u8]) -> io::Result<usize>
        ensures bound { WritesAtMost result buf.now }
        ensures bytes { WriteAppends (W.contents (inside self.old)) (W.contents (inside self.new))
            result buf.now }
        ensures failed { has_failed self.new ≡ (has_failed self.old || is_err result) }
        ensures progress { IfOk result (λ n. 0 < length buf.now → 0 < n) }
        ensures flushed { is_flushed self.new ≡ false }
    {
        self.flushed = false;
        match self.inner.write(buf) {
            Ok(0) if !buf.is_empty() => {
                self.failed = true;
                Err(io::Error::from(ErrorKind::WriteZero))
            }
            Ok(n) => Ok(n),
            Err(e) => {
                self.failed = true;
                Err(e)
            }
        }
    }

    fn flush(&mut self) -> io::Result<()>
        ensures bytes { Keeps (W.contents (inside self.old)) (W.contents (inside self.new)) }
        ensures failed { has_failed self.new ≡ (has_failed self.old || is_err result) }
        ensures flushed { is_flushed self.new ≡ (is_flushed self.old || is_ok result) }
    {
        match self.inner.flush() {
            Ok(()) => {
                self.flushed = true;
                Ok(())
            }
            Err(e) => {
                self.failed = true;
                Err(e)
            }
        }
    }

    fn write_all(&mut self, buf: &[u8]) -> io::Result<()>
        ensures bytes { OnOk result
            (Appends (W.contents (inside self.old)) (W.contents (inside self.new)) buf.now) }
        ensures failed { has_failed self.new ≡ (has_failed self.old || is_err result) }
        ensures flushed { is_flushed self.new ≡ false }
    {
        self.flushed = false;
        let result = self.inner.write_all(buf);
        if result.is_err() {
            self.failed = true;
        }
        result
    }
}
