//! The page: one request is read, and one response is written, whose every byte is a function of the package and the request.
//!
//! - `serving`: a request read and answered.
//! - `heads`: the head of a request, read in pieces.
//! - `routes`: what its path asks for.
//! - `replies`: what is answered to what is asked for.
//! - `lists`: the lists as JSON.
//! - `responses`: the bytes of a response.
//!
//! # Example
//!
//! What the list of the tables is as a response:
//!
//! ```rust
//! fn tables_listed<V: Viewer>(alloc: Global, viewer: &mut V) -> Option<Vec<u8>> {
//!     let mut request = Io::new("GET /contents HTTP/1.1\r\n\r\n".as_bytes());
//!     let mut response = Io::new(Vec::new(alloc));
//!     serve_one(alloc, viewer, &mut request, &mut response).ok()?;
//!     Some(response.into_inner())
//! }
//! ```
#![tactic(auto)]

mod heads;
mod lists;
mod replies;
mod responses;
mod routes;
mod serving;

pub use heads::{MOST_HEAD_BYTES, MOST_HEAD_LINES, one_head, read_head};
pub use replies::{printed, reply};
pub use responses::{bad_request, found, not_allowed, not_found};
pub use routes::{Wanted, read_path};
pub use serving::{one_page, serve_one};
