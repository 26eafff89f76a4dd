//! Tests of what is found when a package's files are opened again, where each call of their disks is the one that fails. Nothing stands
//! here but tests; a function that names the disk of a store is dear to prove, so that few do.
//!
//! - `cases`: what is stopped: the packages that it begins with, and what is done on them.
//! - `works`: what is done on a connection to any store, and what is then acknowledged.
//! - `standings`: what stands on a connection.
//! - `disks`: files in memory whose calls fail as a test plans.
//! - `sweeps`: a case with each of its calls as the one that fails.
#![tactic(auto)]

#[cfg(test)]
mod cases;
#[cfg(test)]
mod disks;
#[cfg(test)]
mod standings;
#[cfg(test)]
mod sweeps;
#[cfg(test)]
mod works;
