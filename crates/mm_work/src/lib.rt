//! The work of the program on a package, over any store, and what is printed of it.
//!
//! - `package`: a session on the package of a connection, and the run of records on it.
//! - `imports`: what is printed of the import of a kit.
//! - `reporting`: what is printed of the whole check.
//! - `shown`: rows of a table as the records that write them.
//! - `migrating`: what is printed of the migration of a package of profile 1.
//! - `pages`: what is printed while the page is served.
//! - `stop`: why the work was not done.
//! - `tell`: what is printed, byte for byte, and the exit status that goes with it.
#![tactic(auto)]

mod imports;
mod migrating;
mod package;
mod pages;
mod reporting;
mod shown;
mod stop;
mod tell;

pub use imports::{Import, tell_import};
pub use migrating::tell_migration;
pub use package::{adopt_package, run_session};
pub use pages::{is_printed, tell_list_fault, tell_page_fault, tell_serving};
pub use reporting::tell_check;
pub use shown::rows_told;
pub use stop::{NoPackage, Stop};
pub use tell::{
    DONE, FAULT, NO_PACKAGE, REFUSED, USAGE, numbered_line, tell_bytes, tell_init, tell_stop,
    tell_text,
};
