//! Editions while they are prepared: changes are staged piece by piece. `mm_edition` publishes them.
//!
//! - `editions`: how an edition stands, `open_edition` and `discard`.
//! - `kept`: a staged piece as its row holds it.
//! - `outlines`: a staged piece but for its bytes.
//! - `pieces`: one piece by its number, and the blobs of all.
//! - `spelling`: what a kept row spells.
//! - `staging`: `stage`.
//! - `states`: the read `edition`.
#![tactic(auto)]

mod editions;
mod kept;
mod outlines;
mod pieces;
mod spelling;
mod staging;
mod states;

pub use editions::{closed_refusal, discard, open_edition};
pub use outlines::Outline;
pub use pieces::{blobs_of_pieces_alone, outline_of};
pub use staging::stage;
pub use states::edition;
