//! Tests of runs, sessions, kits and the page, over stores in memory, where a reader, a writer, a folder or a store has to
//! fail at a chosen place; what the program answers else is shown by the transcripts of `cases/`. Nothing stands here but
//! tests, so that no crate of the product is proved a second time with its own.
//!
//! - `examples`: the examples in the heads of `mm_core`, `mm_kit` and `mm_page`.
//! - `fakes`: writers, readers and folders that fail.
//! - `looks`: a row, and rows and a listing that are cut.
//! - `runs`: a run on systems of the tests' own.
//! - `kits`: imports of a kit one of whose reads fails.
//! - `pages`: requests whose reader or writer fails.
//! - `desks`: the same of a desk, and records that are sent.
//! - `reopening`: sessions that have to be opened again.
//! - `streams`: what stands where a reader or a writer failed.
#![tactic(auto)]

#[cfg(test)]
mod desks;
#[cfg(test)]
mod examples;
#[cfg(test)]
mod fakes;
#[cfg(test)]
mod kits;
#[cfg(test)]
mod looks;
#[cfg(test)]
mod pages;
#[cfg(test)]
mod reopening;
#[cfg(test)]
mod runs;
#[cfg(test)]
mod streams;
