//! What reads of a package answer.

use crate::bytes::MediaBytes;
use crate::commands::Kind;
use crate::content_types::ContentType;
use crate::extents::Extent;
use crate::identifiers::Identifier;
use crate::names::Name;
use crate::texts::{Remark, Text};

/// An attribute row.
#[derive(Drop)]
pub struct Row {
    pub title: Remark,
    pub note: Remark,
    pub amount: i64,
}

/// A media item.
#[derive(Drop)]
pub struct Media {
    pub bytes: MediaBytes,
    pub content_type: ContentType,
}

/// A table of the contents.
#[derive(Drop)]
pub struct Entry {
    pub table: Name,
    pub kind: Kind,
    pub identifier: Identifier,
    /// The stamp of its last change.
    pub last_change: Text<24, 24>,
    /// The reference system and extent of a pyramid; other tables have none.
    pub place: Option<(i64, Extent)>,
}

/// How an edition stands.
#[derive(Clone, Copy, Debug, PartialEq, Eq)]
pub enum EditionState {
    /// Open, with so many pieces.
    Open(u32),
    Published,
}

/// A row or media item that another is related to.
#[derive(Drop)]
pub struct Related {
    pub mapping: Name,
    /// The relation's name.
    pub name: Remark,
    /// The related table, and the number of the row or media item in it.
    pub table: Name,
    pub id: i64,
}
