//! Sessions on a package, and runs of lists of commands.
//!
//! A session is made by `create` on a database without tables or by `adopt` on one that holds a package, which is checked
//! whole. `apply` does one command in one transaction, whose commit is its last call of the store; `run_list` reads
//! records and answers each; `check` does the whole check again, and `list` writes the listing. What a crash may leave at
//! each exit is stated by their contracts. `verify`, the whole check of a database, is handed on.
//!
//! - `session`: how a session begins, what it answers, and when it has to be opened again.
//! - `applying`, `dispatching`: one command in a transaction of its own, and which function does it.
//! - `running`: the run of a list.
//! - `checking`, `listing`, `reading`: the whole check, the listing and the reads.
//! - `editing`, `viewing`, `desking`: a session as what a kit, a page and a desk work on.
//!
//! # Example
//!
//! A package is made in memory, a command is applied, a list is run, and the session is closed:
//!
//! ```rust
//! fn first_commands(alloc: Global) -> Option<(Answer, Tally)> {
//!     let conn = Connection::open_in_memory(alloc).ok()?;
//!     let mut session = Session::create(alloc, conn).ok()?;
//!     let moment = Moment::new(0)?;
//!     let edition = Command::Edition {
//!         name: Name::read("may")?,
//!     };
//!     let answer = session.apply(&edition, moment);
//!     let mut records = Io::new("table,spots,attributes,Spots\nrow,spots,1,Gate,,0\n".as_bytes());
//!     let mut lines = Io::new(Vec::new(alloc));
//!     let tally = session.run_list(&mut records, &mut lines, moment).ok()?;
//!     let _connection = session.close();
//!     Some((answer, tally))
//! }
//! ```
#![tactic(auto)]

mod applying;
mod checking;
mod desking;
mod dispatching;
mod editing;
mod listing;
mod reading;
mod running;
mod session;
mod viewing;

pub use mm_check::verify;
pub use session::Session;
