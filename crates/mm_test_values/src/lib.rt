//! Tests of `mm_definitions` and `mm_base`: of values and their limits, and of the readers of records.
//!
//! - `values`: numbers, moments, extents and matrices.
//! - `texts`: that each text is read.
//! - `streams`: what a reader or writer remembers.
//! - `records`: records and their answers.
//! - `lines`: lists of questions and answers.
#![tactic(auto)]

#[cfg(test)]
mod lines;
#[cfg(test)]
mod records;
#[cfg(test)]
mod streams;
#[cfg(test)]
mod texts;
#[cfg(test)]
mod values;
