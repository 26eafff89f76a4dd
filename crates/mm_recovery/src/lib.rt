//! The life of a package's files: new ones, and what is found when they are opened again, after a crash, and after
//! they were closed.
//!
//! These calls are for theorems and tests. The program opens files of the system, and what those hold after a loss of
//! power is no matter of a contract; here a disk stands for them whose contents after a crash are. A call that opens
//! files is handed them, and its contract is of all contents that a crash may leave: it lets no crash happen itself.
//!
//! - `files`: a connection's two files: opened, let go, closed, crashed.
//! - `stops`: what is left of files on which no session has begun.
//! - `making`: a new package on them.
//! - `again`: the making of a package that was stopped, and is begun again.
//! - `sessions`: a session on files that another has left, and the run of a list.
//! - `closing`: a session that is closed.
//! - `life`: all of these in a row.
#![tactic(auto)]

mod again;
mod closing;
mod files;
mod life;
mod making;
mod sessions;
mod stops;

pub use again::{create_again, create_or_adopt};
pub use closing::close_and_adopt;
pub use files::{close_files, crash_files, let_go, open_files};
pub use life::live;
pub use making::create_on;
pub use sessions::{adopt_left, run_and_recover};
pub use stops::{NotBegun, Stopped};
