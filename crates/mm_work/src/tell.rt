//! What is printed, and the exit status that goes with it.

ghost use Rattle.std.specs.Prelude.{◌≡◌, ◌⊎◌, ◌++◌, ◌+◌, ◌≤◌, true, codes, decimal, length};
ghost use Rattle.mm_definitions.specs.Streams.{has_failed, written};
ghost use Rattle.mm_io.specs.Sending.{IsOut};
ghost use Rattle.mm_work.specs.Told.{IsTold, init_status, init_text, stop_status, stop_text};

use crate::stop::Stop;
use arrayvec::ArrayVec;
use mm_definitions::answers::Fault;
use mm_definitions::streams::Io;
use mm_io::{Sent, put, put_number, send};
use std::fmt::Display;
use std::io::Write;

/// All was accepted.
pub const DONE: u8 = 0;

/// Something was refused.
pub const REFUSED: u8 = 1;

/// The words are wrong.
pub const USAGE: u8 = 2;

/// A fault ended the work.
pub const FAULT: u8 = 3;

/// The file is no package, or is not empty.
pub const NO_PACKAGE: u8 = 4;

/// Some words and a number on a line. It is built in place and takes no memory.
pub fn numbered_line(words: &[u8], number: u8) -> ArrayVec<u8, 64>
    requires { length words.now ≤ 19 }
    ensures { result.items ≡ words.now ++ decimal number ++ codes "\n" }
{
    let mut line = ArrayVec::new();
    put(&mut line, words);
    put_number(&mut line, number as u64);
    put(&mut line, b"\n");
    line
}

/// Prints bytes, and answers the status, or that of a fault where they can't be printed whole.
pub fn tell_bytes<W: Write>(output: &mut Io<W>, bytes: &[u8], status: u8) -> u8
    ensures told { IsTold (written W.contents output.old) (written W.contents output.new) bytes.now
        status result }
    ensures out { IsOut output.new }
{
    match send(output, bytes) {
        Sent::Flushed => status,
        Sent::Unflushed => FAULT,
        Sent::Cut => FAULT,
    }
}

/// Prints a text of any length, and answers the status, or that of a fault where it can't be printed.
pub fn tell_text<W: Write, D: Display + Drop>(output: &mut Io<W>, text: D, status: u8) -> u8
    ensures status { (result ≡ status) ⊎ (result ≡ 3) }
    ensures unprinted { has_failed output.new ≡ true → result ≡ 3 }
    ensures out { IsOut output.new }
{
    let is_written = write!(output, "{text}").is_ok();
    let is_flushed = output.flush().is_ok();
    if is_written && is_flushed && !output.failed() {
        return status;
    }
    FAULT
}

/// Prints why the work was not done.
pub fn tell_stop<W: Write>(output: &mut Io<W>, why: Stop) -> u8
    ensures told { IsTold (written W.contents output.old) (written W.contents output.new)
        (stop_text why) (stop_status why) result }
    ensures out { IsOut output.new }
{
    match why {
        Stop::NotEmpty => tell_bytes(output, b"not empty\n", NO_PACKAGE),
        Stop::NotPackage(cause) => {
            let line = numbered_line(b"not a package ", cause.number());
            tell_bytes(output, line.as_slice(), NO_PACKAGE)
        }
        Stop::Rule(rule) => {
            let line = numbered_line(b"rule Q", rule.get());
            tell_bytes(output, line.as_slice(), NO_PACKAGE)
        }
        Stop::Fault(fault) => {
            let line = numbered_line(b"fault ", fault.number());
            tell_bytes(output, line.as_slice(), FAULT)
        }
    }
}

/// Prints what making a package came to.
pub fn tell_init<W: Write>(output: &mut Io<W>, outcome: Result<(), Stop>) -> u8
    ensures told { IsTold (written W.contents output.old) (written W.contents output.new)
        (init_text outcome) (init_status outcome) result }
    ensures out { IsOut output.new }
{
    match outcome {
        Ok(()) => tell_bytes(output, b"init ok\n", DONE),
        Err(why) => tell_stop(output, why),
    }
}
