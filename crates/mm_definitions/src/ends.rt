//! A reader that is asked until it has told its end.

ghost use Rattle.std.specs.Prelude.{◌≡◌, ℕ, List, [], IsTrue, Some};
ghost use Rattle.std.specs.Io.{ReadsAtMost};
ghost use Rattle.std.specs.Io.KnownBytes.{ReadConsumes};

use std::io;
use std::io::Read;

/// A reader that isn't asked again once it has told its end: a terminal would wait there for another one.
#[derive(Drop)]
pub struct UntilEnd<R: Read> {
    inner: R,
    ended: bool,
    ghost at_end: { IsTrue ended → (left : List ℕ) → R.remaining inner ≡ Some left → left ≡ [] },
}

impl<R: Read> UntilEnd<R> {
    ghost use Rattle.mm_definitions.specs.Streams.{inner_reader};

    /// Wraps a reader, which has told no end yet.
    pub fn new(inner: R) -> UntilEnd<R>
        ensures { inner_reader result ≡ inner }
    {
        UntilEnd {
            inner,
            ended: false,
        }
    }
}

impl<R: Read> Read for UntilEnd<R> {
    ghost use Rattle.mm_definitions.specs.Streams.{inner_reader};

    ghost remaining = { λ it. R.remaining (inner_reader it) };

    fn read(&mut self, buf: &mut [u8]) -> io::Result<usize>
        ensures bound { ReadsAtMost result buf.new }
        ensures bytes { ReadConsumes (R.remaining (inner_reader self.old))
            (R.remaining (inner_reader self.new)) result buf.new }
    {
        if self.ended {
            return Ok(0);
        }
        let result = self.inner.read(buf);
        if matches!(result, Ok(0)) && !buf.is_empty() {
            self.ended = true;
        }
        result
    }
}
