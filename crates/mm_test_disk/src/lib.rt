//! A disk for tests: its calls are counted, and fail as a test plans.
#![tactic(auto)]

mod lapse;
#[cfg(test)]
mod tests;

pub use lapse::{Lapse, Plan};
