//! One walk over the rows of a query, a row at a time, and what the checks of the rules make of it. All that reads many
//! rows goes by it: it holds one row, and what the visitor of the rows keeps.
//!
//! - `walk`: the walk, and what is done with each row.
//! - `row_tests`: whether each row of a query passes a test, which is what a check of a rule is.
//! - `columns`: the values of a shown row.
#![tactic(auto)]

pub mod columns;
pub mod row_tests;
pub mod walk;
