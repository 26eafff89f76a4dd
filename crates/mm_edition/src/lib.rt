//! Editions: a list of changes, prepared piece by piece, and done in one command wholly or not at all. What prepares them
//! is handed on from `mm_staging`.
//!
//! - `publishing`: `publish`, all pieces in turn.
//! - `rehearsing`: `rehearse`, which changes nothing.
//! - `running`: one piece taken as its command.
#![tactic(auto)]

mod publishing;
mod rehearsing;
mod running;

pub use mm_staging::{discard, edition, open_edition, stage};
pub use publishing::publish;
pub use rehearsing::rehearse;
