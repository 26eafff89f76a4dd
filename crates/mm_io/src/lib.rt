//! Records in, lines out: what the run of a list, the import of a kit and the page share. The records of some bytes
//! are read by `csv` from a reader that is lent and handed back; the line of an answer is built in place; bytes are
//! written whole and flushed, and what was taken is known where the writer fails.
//!
//! - `lending`: a reader is lent to `csv` and comes back.
//! - `records`, `ends`: the next record, and the end of the input.
//! - `lines`: the line of an answer.
//! - `sending`: bytes written whole.
#![tactic(auto)]

mod ends;
mod lending;
mod lines;
mod records;
mod sending;

pub use ends::drain;
pub use lending::{Held, Lender, Source, Tells};
pub use lines::{answer_line, put, put_number};
pub use records::{next_row, open_rows, text_fields};
pub use sending::{Sent, send};
