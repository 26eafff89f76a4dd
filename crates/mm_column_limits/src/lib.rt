//! Two rules decided on a database by the limits of their columns: rule 16, that every name, number, text and length is
//! within its limits, and rule 15, of the editions and their pieces.
//!
//! - `column_tests`: whether a column of a shown row is within its limits.
//! - `row_limits`: whether each column of a row is within its limit.
//! - `parts`: rule 16, the rows of each table, and all of them.
//! - `editions`: rule 15.
#![tactic(auto)]

pub mod column_tests;
pub mod editions;
pub mod parts;
mod row_limits;

pub use parts::limits;
