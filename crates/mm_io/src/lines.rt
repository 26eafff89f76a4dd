//! The line that tells an answer, and what lines are made of.

ghost use Rattle.std.specs.Prelude.{◌≡◌, ◌++◌, ◌+◌, ◌≤◌, codes, decimal, length};
ghost use Rattle.mm_io.specs.Lines.{answer_text, line, piece_text};
ghost use Rattle.mm_definitions.specs.declared.answers.Answer.TheVariants as answers;

use arrayvec::ArrayVec;
use itoa::Buffer;
use mm_definitions::answers::{Answer, Fault, Refusal};

/// Appends bytes that have room.
pub fn put<const MOST: usize>(out: &mut ArrayVec<u8, MOST>, text: &[u8])
    requires { length out.old.items + length text.now ≤ MOST }
    ensures text { out.new.items ≡ out.old.items ++ text.now }
    ensures size { length out.new.items ≡ length out.old.items + length text.now }
{
    let _fits = out.try_extend_from_slice(text);
}

/// Appends a number in decimal, where there is room for the 20 digits of the longest.
pub fn put_number<const MOST: usize>(out: &mut ArrayVec<u8, MOST>, number: u64)
    requires { length out.old.items + 20 ≤ MOST }
    ensures text { out.new.items ≡ out.old.items ++ decimal number }
    ensures size { length out.new.items ≤ length out.old.items + 20 }
{
    let mut buffer = Buffer::new();
    put(out, buffer.format(number).as_bytes());
}

// Appends the piece of a refusal, if it has one.
fn put_piece(out: &mut ArrayVec<u8, 96>, piece: Option<(u32, u8)>)
    requires { length out.old.items ≤ 49 }
    ensures text { out.new.items ≡ out.old.items ++ piece_text piece }
    ensures size { length out.new.items ≤ length out.old.items + 42 }
{
    if let Some((place, refusal)) = piece {
        put(out, b" ");
        put_number(out, place as u64);
        put(out, b" ");
        put_number(out, refusal as u64);
    }
}

fn put_refusal(out: &mut ArrayVec<u8, 96>, why: Refusal)
    requires { length out.old.items ≤ 20 }
    ensures text { out.new.items ≡ out.old.items ++ answer_text (answers.Refused why) }
    ensures size { length out.new.items ≤ length out.old.items + 71 }
{
    put(out, b" refused ");
    put_number(out, why.number() as u64);
    put_piece(out, why.piece());
}

fn put_fault(out: &mut ArrayVec<u8, 96>, fault: Fault)
    requires { length out.old.items ≤ 20 }
    ensures text { out.new.items ≡ out.old.items ++ answer_text (answers.Fault fault) }
    ensures size { length out.new.items ≤ length out.old.items + 71 }
{
    put(out, b" fault ");
    put_number(out, fault.number() as u64);
}

fn put_answer(out: &mut ArrayVec<u8, 96>, answer: &Answer)
    requires { length out.old.items ≤ 20 }
    ensures text { out.new.items ≡ out.old.items ++ answer_text answer.now }
    ensures size { length out.new.items ≤ length out.old.items + 71 }
{
    match answer {
        Answer::Ok => put(out, b" ok"),
        Answer::Refused(why) => put_refusal(out, *why),
        Answer::Fault(fault) => put_fault(out, *fault),
    }
}

/// Line `n`, which answers record `n`: `3 ok`, `4 refused 34`, `9 refused 53 2 34` (piece 2, its refusal 34) or
/// `5 fault 91`, with one byte 0x0a at its end. It is built in place and takes no memory.
pub fn answer_line(n: u64, answer: &Answer) -> ArrayVec<u8, 96>
    ensures { result.items ≡ line n answer.now }
{
    let mut out = ArrayVec::new();
    put_number(&mut out, n);
    put_answer(&mut out, answer);
    put(&mut out, b"\n");
    out
}
