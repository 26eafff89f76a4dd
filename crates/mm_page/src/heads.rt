//! The head of a request, read in pieces.

ghost use Rattle.std.specs.Prelude.{◌≡◌, ℕ, List, IfOk, IfErr, IfSome, OnOk, length, true};
ghost use Rattle.httparse.specs.Grammar.{RequestHead};
ghost use Rattle.mm_definitions.specs.Faults as faults;
ghost use Rattle.mm_definitions.specs.Streams.{has_failed, inside};
ghost use Rattle.mm_page.specs.Heads.{Heads, HoldsRead, IsHead, Lies, ReadsNoMore};

use httparse::Status;
use httparse::spans::{HeaderSpan, RequestSpans, parse_request};
use mm_definitions::answers::Fault;
use mm_definitions::streams::Io;
use std::io::Read;

/// The most bytes of a request's head.
pub const MOST_HEAD_BYTES: usize = 8192;

/// The most header lines of one.
pub const MOST_HEAD_LINES: usize = 64;

/// Reads until a head stands at the front of what was read, or none can, or the buffer is full, or
/// the input ends. The head is that of the whole input, however the reader cuts it; it is answered with how many
/// bytes of the buffer it lies in. None where the input has no head that fits into the buffer and the header lines.
/// No more is read than is needed: before the last read there was no head, and room for more.
/// 96 where the reader fails.
pub fn read_head<R: Read>(
    reader: &mut Io<R>,
    buf: &mut [u8],
    headers: &mut [HeaderSpan],
) -> Result<Option<(usize, RequestSpans)>, Fault>
    ensures head { IfOk result (λ o. IfSome (R.remaining (inside reader.old))
        (λ input. Heads (length buf.old) (length headers.old) input buf.new headers.new o)) }
    ensures lies { IfOk result (λ o. Lies buf.new headers.new o) }
    ensures holds { IfOk result (λ o. HoldsRead (length buf.old)
        (R.remaining (inside reader.old)) (R.remaining (inside reader.new)) buf.new o) }
    ensures frugal { OnOk result
        (ReadsNoMore (length buf.old) (R.remaining (inside reader.old))
        (R.remaining (inside reader.new))) }
    ensures working { OnOk result (has_failed reader.new ≡ has_failed reader.old) }
    ensures fault { IfErr result (λ f. (f.0 ≡ faults.input.0) × (has_failed reader.new ≡ true)) }
{
    let mut len = 0;
    'pieces: loop {
        match parse_request(&buf[..len], headers) {
            Ok(Status::Complete(spans)) => return Ok(Some((len, spans))),
            Ok(Status::Partial) => {}
            Err(_) => return Ok(None),
        }
        if len == buf.len() {
            return Ok(None);
        }
        match reader.read(&mut buf[len..]) {
            Ok(0) => return Ok(None),
            Ok(n) => len += n,
            Err(_) => return Err(Fault::INPUT),
        }
    }
}

/// An input has at most one head.
pub fn one_head()
    ensures { (limit room : ℕ) (input : List ℕ) (h k : RequestHead) → IsHead limit room input h
        → IsHead limit room input k → h ≡ k }
{}
