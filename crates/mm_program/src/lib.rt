//! The program `mmpkg` as a function of its words, its input and its output.
//!
//! - `subcommands`: what each subcommand does.
//! - `kits`: a folder of the system, and the subcommand `kit` on it.
//! - `outcomes`: work on a file that is there, and what it came to, told.
//! - `reporting`: those that change nothing.
//! - `rows`: the one that prints rows of a table.
//! - `migrating`: the one that brings a package of profile 1 to micrometres.
//! - `files`: the package's file and its journal.
//! - `connections`: the page served to one connection after another.
//! - `serving`: the page served over sockets.
//! - `sittings`: requests that a desk answers, one after another.
//! - `keys`: the key in a desk's address.
//! - `desks`: the desk over sockets.
//! - `sockets`: its connections and those of the page, and how long a client is waited for.
//! - `explaining`: what a number says.
//! - `clock`: the moment of a run that names none.
//! - `laws`: from one run of the program to the next.
#![tactic(auto)]

mod clock;
mod connections;
mod desks;
mod explaining;
mod files;
mod keys;
mod kits;
pub mod laws;
mod migrating;
mod outcomes;
mod reporting;
mod rows;
mod serving;
mod sittings;
mod sockets;
mod subcommands;

pub use connections::{Serves, serve_on};
pub use files::{Worked, on_new, on_old};
pub use sittings::{Turn, attend};
pub use subcommands::{program, program_on};
