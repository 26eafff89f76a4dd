//! Work on a file of the system: a connection to it is opened, the work is done on that, and it is closed. A function
//! that names the store of a file is dear to check, so the few that have to stand here, and work is stated over any
//! store.
//!
//! - `works`: what work on a connection is.
//! - `files`: the file and its journal, opened and closed.
//! - `left`: what is left of them.
//! - `next`: from one run to the next.
#![tactic(auto)]

mod files;
mod left;
mod next;
mod works;

pub use files::{let_go, on_file};
pub use left::{Left, NotDone, Opened, Unclosed};
pub use next::next_run;
pub use works::{Handed, Works};
