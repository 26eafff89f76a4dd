//! The desk: one request is read, and taken or refused by its head alone; what it asks for is shown, or the records
//! that it sends are run, by one session.
//!
//! - `desk`: a request read and answered.
//! - `demand`: what a request is taken for, by its head, with `fields` (those that decide whether it is let in).
//! - `replies`: what is shown to a path, with `routes` (which paths ask for rows), `lists` (rows as JSON) and `responses`.
//! - `body`: a body of a known length, read whole; `bodies`: the run of its records.
//! - `connections`: where requests come from.
//! - `laws`: a head demands one thing, and a desk's sitting is one run of its lists.
//! - `reads`: what a desk works on.
//! - `sending`: bytes sent whole.
#![tactic(auto)]

mod bodies;
mod body;
mod connections;
mod demand;
mod desk;
mod fields;
mod laws;
mod lists;
mod reads;
mod replies;
mod responses;
mod routes;
mod sending;

pub use bodies::run_body;
pub use connections::Comes;
pub use desk::{Done, Gate, desk_one};
pub use laws::{a_desk_is_one_run, one_demand};
pub use reads::Desk;
pub use replies::rows_reply;
pub use routes::rows_wanted;
