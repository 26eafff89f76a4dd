//! The whole check of a package: the sixteen rules decided on a database, and the least that fails; and the form of the
//! blobs, which no rule asks for.
//!
//! - `verdict`: `verify`, all rules in turn.
//! - `form`: `blobs_stand`: each digest is right, no blob is empty, no two hold the same bytes, and each is named by a
//!   tile, a medium or a staged piece. Each part is one query.
//! - `whole`: `check_whole`, the one and then the other.
#![tactic(auto)]

mod form;
mod verdict;
mod whole;

pub use verdict::verify;
pub use whole::check_whole;
