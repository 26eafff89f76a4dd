//! Bytes that are kept once: a blob is found by its digest and compared, put where none stands, and released where nothing
//! names it.
//!
//! - `digests`: the digest of bytes, as text.
//! - `blobs`: `keep`, `release`, `sweep` and the bytes of a blob.
//! - `entries`: which blob a tile or a medium names.
#![tactic(auto)]

pub mod blobs;
pub mod digests;
pub mod entries;
