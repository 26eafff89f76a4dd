//! The words behind the numbers: what each refusal, fault, opening and rule says, what to do then, and which field of a
//! record is at fault. Nothing here decides what is accepted.
//!
//! - `entries`: the tables of all texts.
//! - `explaining`: what `explain` prints of a word.
//! - `lines`: what an answer line says.
//! - `fields`: which field of a record is at fault.
//! - `following`: readers and writers that hand all on, and let another look at it.
//! - `progress`: what is being done and how far it is.
#![tactic(auto)]

mod entries;
mod explaining;
mod fields;
mod following;
mod lines;
mod progress;

pub use entries::Entry;
pub use explaining::{UNKNOWN, explanation_of};
pub use fields::{Remark, is_piece_with_file, remark_on, remark_on_piece};
pub use following::{Heard, Hears, LONGEST, Watched, Watches};
pub use lines::{Told, meaning_of, told_of};
pub use progress::{Opening, Pieces, Progress, Size, Took};
