//! Tests of the calls on a package: `mm_meta`, `mm_content`, `mm_relate` and
//! `mm_check`. They show what no clause says: that the calls can succeed, and that the definitions mean the tables of the profile. The
//! expected answers and rows are those of the records as the profile describes them, worked by hand.
//!
//! A test plays a script on packages in memory, and compares the script with the same lines behind the answers that are given.
//!
//! - `opening`, `layout`, `content`, `relations`, `reading`, `checking`: the tests, by subject.
//! - `scripts`: how a script is played, and what its lines mean.
//! - `packages`: the packages of the tests, as scripts.
//! - `commands`, `reads`, `rows`: what a line of a script calls.
#![tactic(auto)]

#[cfg(test)]
mod checking;
#[cfg(test)]
mod commands;
#[cfg(test)]
mod content;
#[cfg(test)]
mod layout;
#[cfg(test)]
mod opening;
#[cfg(test)]
mod packages;
#[cfg(test)]
mod reading;
#[cfg(test)]
mod reads;
#[cfg(test)]
mod relations;
#[cfg(test)]
mod rows;
#[cfg(test)]
mod scripts;
