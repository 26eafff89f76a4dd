//! What the statements of a program's own tables do to the rows of those tables, over any schema.
//!
//! The crate holds definitions (`specs/`) and lemmas (`proofs/`) alone. Each form of a statement has a record of facts
//! that `refl` finds once the schema and the text are written out, and a lemma that takes the record and a run of the
//! statement to an equation on the rows.
#![tactic(auto)]

/// The forms of a statement that the crate speaks of.
pub const FORMS: [&str; 8] = [
    "SELECT by a key",
    "SELECT in an order",
    "SELECT over a LEFT JOIN",
    "INSERT",
    "UPDATE",
    "DELETE",
    "DELETE with its cascades",
    "CREATE TABLE",
];
