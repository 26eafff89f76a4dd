//! Writing bytes whole.

ghost use Rattle.std.specs.Prelude.{◌≡◌, ◌<◌, ℕ, take, length, true, false};
ghost use Rattle.std.specs.Io.KnownBytes.{Appends};
ghost use Rattle.mm_definitions.specs.Streams.{has_failed, inside, is_flushed, written};
ghost use Rattle.mm_io.specs.Sending.{IsOut, Sends};

use mm_definitions::streams::Io;
use std::io::Write;

/// What became of bytes that were sent.
#[derive(Clone, Copy, Debug, PartialEq, Eq)]
pub enum Sent {
    /// Taken whole and flushed.
    Flushed,
    /// Taken whole, but the flush failed.
    Unflushed,
    /// A front of them was taken, and not the whole.
    Cut,
}

// Writes the bytes, and says whether they were taken whole. If not, a front of them was.
fn write_whole<W: Write>(writer: &mut Io<W>, bytes: &[u8]) -> bool
    ensures whole { result ≡ true
        → Appends (W.contents (inside writer.old)) (W.contents (inside writer.new)) bytes.now
        × (has_failed writer.new ≡ has_failed writer.old) }
    ensures cut { result ≡ false → (has_failed writer.new ≡ true)
        × (taken : ℕ) × (taken < length bytes.now) × Appends (W.contents (inside writer.old))
        (W.contents (inside writer.new)) (take taken bytes.now) }
{
    let mut at = 0;
    while at < bytes.len() {
        match writer.write(&bytes[at..]) {
            Ok(taken) => at += taken,
            Err(_) => return false,
        }
    }
    true
}

/// Writes the bytes and flushes. Where the writer fails it says whether they were taken whole, and a front of them
/// was taken if not.
pub fn send<W: Write>(writer: &mut Io<W>, bytes: &[u8]) -> Sent
    ensures sent { Sends (written W.contents writer.old) (written W.contents writer.new)
        bytes.now result }
    ensures flushed { result ≡ Sent.Flushed → is_flushed writer.new ≡ true }
    ensures out { IsOut writer.new }
{
    if !write_whole(writer, bytes) {
        return Sent::Cut;
    }
    if writer.flush().is_err() {
        return Sent::Unflushed;
    }
    Sent::Flushed
}
