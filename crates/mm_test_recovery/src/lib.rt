//! Tests of what is found when files are opened again, on disks in memory that stop. Nothing stands here but tests, so that no crate
//! of the product is proved a second time with its own; a function that names the disk of a store is dear to prove, so they stand
//! apart from the tests of sessions.
//!
//! - `recovery`: disks that stop while a package is made, run on or closed.
//! - `migrations`: disks that stop while a package of profile 1 is migrated.
#![tactic(auto)]

#[cfg(test)]
mod migrations;
#[cfg(test)]
mod recovery;
