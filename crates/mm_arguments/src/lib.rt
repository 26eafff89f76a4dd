//! The command line of `mmpkg`: what its words ask for, with every number within its range, and the texts of help and
//! usage. It opens nothing and prints nothing.
//!
//! - `commands`: the subcommands and their arguments, as `clap` has them.
//! - `requests`: what the words ask for.
//! - `texts`: what stands behind the help of a subcommand.
#![tactic(auto)]

mod commands;
mod requests;
mod texts;

pub use requests::{Aids, Request, read_aids, read_arguments, status_of};
