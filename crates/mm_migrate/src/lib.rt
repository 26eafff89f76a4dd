//! A package of whole millimetres, told in whole micrometres.
//!
//! - `migrating`: `migrate`: the package is looked at, told in the smaller unit, and checked, in one commit.
//! - `scaling`: the statements that tell it in the smaller unit, and all of them in turn.
#![tactic(auto)]

pub mod migrating;
pub mod scaling;

pub use migrating::migrate;
