//! What is printed of the import of a kit.

ghost use Rattle.std.specs.Prelude.{◌≡◌, ◌++◌, codes, decimal};
ghost use Rattle.mm_definitions.specs.Streams.{written};
ghost use Rattle.mm_io.specs.Sending.{IsOut};
ghost use Rattle.mm_work.specs.Imports.{kit_status, kit_text, staged_status, staged_text};
ghost use Rattle.mm_work.specs.Told.{IsTold};

use crate::tell::{DONE, FAULT, REFUSED, numbered_line, tell_bytes};
use arrayvec::ArrayVec;
use mm_definitions::answers::{KitFault, Staged};
use mm_definitions::refusals::Reason;
use mm_definitions::streams::Io;
use mm_io::{put, put_number};
use std::io::Write;

/// What an import came to.
pub type Import = Result<Staged, KitFault>;

/// It is built in place and takes no memory.
fn complete_line(count: u32) -> ArrayVec<u8, 64>
    ensures { result.items ≡ codes "kit complete " ++ decimal count ++ codes "\n" }
{
    let mut line = ArrayVec::new();
    put(&mut line, b"kit complete ");
    put_number(&mut line, count as u64);
    put(&mut line, b"\n");
    line
}

/// It is built in place and takes no memory.
fn refused_line(piece: u32, number: Reason) -> ArrayVec<u8, 64>
    ensures { result.items ≡ codes "kit refused " ++ decimal piece ++ codes " " ++ decimal number
        ++ codes "\n" }
{
    let mut line = ArrayVec::new();
    put(&mut line, b"kit refused ");
    put_number(&mut line, piece as u64);
    put(&mut line, b" ");
    put_number(&mut line, number.get() as u64);
    put(&mut line, b"\n");
    line
}

/// Prints the answer to a kit: status 0 where it is complete, and 1 where it is refused.
fn tell_staged<W: Write>(output: &mut Io<W>, staged: Staged) -> u8
    ensures told { IsTold (written W.contents output.old) (written W.contents output.new)
        (staged_text staged) (staged_status staged) result }
    ensures out { IsOut output.new }
{
    match staged {
        Staged::Complete(count) => {
            let line = complete_line(count);
            tell_bytes(output, line.as_slice(), DONE)
        }
        Staged::Refused { piece, number } => {
            let line = refused_line(piece, number);
            tell_bytes(output, line.as_slice(), REFUSED)
        }
    }
}

/// Prints what an import came to: status 0 where it is complete, 1 where it is refused, 3 for a fault.
pub fn tell_import<W: Write>(output: &mut Io<W>, import: Import) -> u8
    ensures told { IsTold (written W.contents output.old) (written W.contents output.new)
        (kit_text import) (kit_status import) result }
    ensures out { IsOut output.new }
{
    match import {
        Ok(staged) => tell_staged(output, staged),
        Err(stopped) => {
            let line = numbered_line(b"kit fault ", stopped.fault.number());
            tell_bytes(output, line.as_slice(), FAULT)
        }
    }
}
