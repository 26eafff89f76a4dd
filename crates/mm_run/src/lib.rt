//! The run of a list of records: each is read, applied and answered with a line, which is written and flushed before
//! the next record is answered. What may be left at each exit is a first part of the accepted commands.
//!
//! - `run`: the run of a list.
//! - `reading`, `answering`, `telling`: a record is read, applied, and its answer told.
//! - `apply`, `editor`: what commands are applied to.
#![tactic(auto)]

mod answering;
mod apply;
mod editor;
mod reading;
mod run;
mod telling;

pub use apply::Apply;
pub use editor::Editor;
pub use run::run_list;
