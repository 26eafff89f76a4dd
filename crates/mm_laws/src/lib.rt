//! Laws about packages, commands and steps, for whoever relies on the definitions of `mm_definitions`.
//!
//! No function here does anything: the contract of each one is a law, proved over every package, command and moment.
//!
//! - `rules`, `scale`: every command keeps the rules, and so does the change of unit.
//! - `runs`: runs of commands and their first parts.
//! - `refusals`, `records`: what every refusal and every record has in common.
//! - `editions`: pieces and publishing.
//! - `zooms`, `stamps`: the nearest zooms decide; moments and texts.
#![tactic(auto)]

pub mod editions;
pub mod records;
pub mod refusals;
pub mod rules;
pub mod runs;
pub mod scale;
pub mod stamps;
pub mod zooms;
