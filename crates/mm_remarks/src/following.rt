//! Readers and writers that hand all on, and let another look at it.

ghost use Rattle.std.specs.Prelude.{◌≡◌};
ghost use Rattle.std.specs.Io.{ReadsAtMost, WritesAtMost};
ghost use Rattle.std.specs.Io.KnownBytes.{Keeps, ReadConsumes, WriteAppends};
ghost use Rattle.mm_remarks.specs.Following.{heard_reader, watched_writer};

use arrayvec::ArrayVec;
use std::io;
use std::io::{Read, Write};

/// How much of a line is looked at; no answer line is longer.
pub const LONGEST: usize = 256;

/// What looks at bytes that are read.
pub trait Hears {
    /// The next bytes are about to be asked for.
    fn ask(&mut self);

    /// Looks at bytes that were read, behind those before; none at the end of the input.
    fn hear(&mut self, bytes: &[u8]);
}

/// What looks at lines that are written.
pub trait Watches {
    /// Looks at a line, without its end, once all of it was written.
    fn watch(&mut self, line: &str);
}

/// A reader whose bytes are looked at as they are read.
#[derive(Drop)]
pub struct Heard<R, H> {
    inner: R,
    ear: H,
}

impl<R, H> Heard<R, H> {
    /// Lets the ear hear what is read.
    pub fn new(inner: R, ear: H) -> Heard<R, H>
        ensures { heard_reader result ≡ inner }
    {
        Heard { inner, ear }
    }
}

impl<R: Read, H: Hears> Read for Heard<R, H> {
    ghost remaining = { λ it. R.remaining (heard_reader it) };

    fn read(&mut self, buf: &mut [u8]) -> io::Result<usize>
        ensures bound { ReadsAtMost result buf.new }
        ensures bytes { ReadConsumes (R.remaining (heard_reader self.old))
            (R.remaining (heard_reader self.new)) result buf.new }
    {
        self.ear.ask();
        let result = self.inner.read(buf);
        if let Ok(count) = result {
            if let Some(bytes) = buf.get(..count) {
                self.ear.hear(bytes);
            }
        }
        result
    }
}

/// The line that is being written, and who looks at it.
#[derive(Drop)]
struct Lines<E> {
    line: ArrayVec<u8, LONGEST>,
    eye: E,
}

impl<E: Watches> Lines<E> {
    /// Takes a byte that was written. What is past the longest line is passed over.
    fn take(&mut self, byte: u8) {
        if byte != b'\n' {
            let _full = self.line.try_push(byte);
            return;
        }
        if let Ok(line) = std::str::from_utf8(self.line.as_slice()) {
            self.eye.watch(line);
        }
        self.line.clear();
    }

    fn take_all(&mut self, bytes: &[u8]) {
        for byte in bytes {
            self.take(*byte);
        }
    }
}

/// A writer whose lines are looked at once they are written.
#[derive(Drop)]
pub struct Watched<W, E> {
    inner: W,
    lines: Lines<E>,
}

impl<W, E> Watched<W, E> {
    /// Lets the eye see what is written.
    pub fn new(inner: W, eye: E) -> Watched<W, E>
        ensures { watched_writer result ≡ inner }
    {
        let line = ArrayVec::new();
        Watched {
            inner,
            lines: Lines { line, eye },
        }
    }
}

impl<W: Write, E: Watches> Write for Watched<W, E> {
    ghost contents = { λ it. W.contents (watched_writer it) };

    fn write(&mut self, buf: &[u8]) -> io::Result<usize>
        ensures bound { WritesAtMost result buf.now }
        ensures bytes { WriteAppends (W.contents (watched_writer self.old))
            (W.contents (watched_writer self.new)) result buf.now }
    {
        let result = self.inner.write(buf);
        if let Ok(count) = result {
            if let Some(bytes) = buf.get(..count) {
                self.lines.take_all(bytes);
            }
        }
        result
    }

    fn flush(&mut self) -> io::Result<()>
        ensures bytes { Keeps (W.contents (watched_writer self.old))
            (W.contents (watched_writer self.new)) }
    {
        self.inner.flush()
    }
}
