//! The rows of an attribute table as the records that write them, of anything that shows a package.
//!
//! - `records`: the records of some rows, as `csv` writes them.
//! - `printing`: records that are printed.
//! - `showing`: all rows of a table, or the one of an id, or why there are none to show.
//! - `laws`: what is printed is read back as the records of the rows.
#![tactic(auto)]

mod laws;
mod printing;
mod records;
mod showing;

pub use laws::{a_record_of_a_row_writes_it, what_is_printed_is_read_back};
pub use showing::show_rows;
