//! What a database stands for, and the shapes of all calls on one: a statement that looks or changes, a command that is
//! lent a transaction, a read. The crates above state each call by one of these shapes, and prove it by the lemmas of
//! `proofs/`.
//!
//! - `schema`: the tables of a package: their schema as a value, the CREATE texts that it is pinned to, and what each
//!   statement on them compiles to.
//! - `faults`: how an error of the store is told.
//! - `statements`: one statement inside a transaction, with its error told.
//! - `columns`: the values in the columns of a row that a query shows.
//! - `systems`: the reference systems.
//! - `laws`: what holds of the definitions.
#![tactic(auto)]

pub mod columns;
pub mod faults;
pub mod laws;
mod schema;
pub mod statements;
pub mod systems;

pub use schema::{schema_is_made, texts_define_tables};
